//! The bootstraps of a plan.
ghost use Rattle.std.specs.Prelude.{◌≡◌, ◌++◌, ◌∷◌, [], ◌<◌, ◌≤◌, ◌^◌, ℕ, map, length, IfOk, IsTrue, ◌↔◌, All};
ghost use Rattle.dep_order.specs.Orders.{IsAcyclic, IsWholeOrder};
ghost use Rattle.recipe_reader.specs.Candidates.{IsReadFor};
ghost use Rattle.records.specs.Stored.{item_view};
ghost use Rattle.device.specs.Lawful.{place};
ghost use Rattle.device.specs.Plans.{AreItems, AreRegularItems};
ghost use Rattle.device.specs.Scopes.{HasScope};
ghost use Rattle.plan_core.specs.Boots.{place_of as place_by, edges_at, edges_of as edges_by, IsBootScript, ScriptsDiffer, IsChanged, IsDue, AreBoots};
ghost use Rattle.library_core.specs.Gathered.{KeepBytes};
ghost use Rattle.plan_core.specs.Looks.{candidates_of, IsStep, AreOf};

use dep_order::{Edges, Need, OrderFault, cycle_leads_to_itself, order};
use device::scope_of;
use interpolation::{expand, expansion_laws};
use nuc_base::{Copied, List, Name, NoMemory, Text};
use recipe_reader::{Candidate, Dependency, Recipe, StepDef, recipe_laws};
use records::{Item, Origin};
use std::alloc::Global;

/// The place of the candidate of that name.
fn place_of(choice: &[&Candidate], name: &Name) -> Option<u32>
    requires { length choice.now < 2 ^ 32 }
    ensures { result ≡ place_by name.now (candidates_of choice.now) }
{
    for (at, candidate) in choice.iter().enumerate() {
        if *name == candidate.recipe.name {
            return Some(at as u32);
        }
    }
    None
}

fn push_edges(
    choice: &[&Candidate],
    from: u32,
    dependencies: &[Dependency],
    needs: &mut Vec<Need>,
) -> Result<(), NoMemory>
    requires { length choice.now < 2 ^ 32 }
    ensures { IfOk result (λ _. needs.new.items ≡ needs.old.items ++ edges_at (candidates_of choice.now) from dependencies.now) }
{
    for dependency in dependencies {
        if let Some(to) = place_of(choice, &dependency.name) {
            needs.push(Need {
                from,
                to,
                hard: dependency.hard,
            })?;
        }
    }
    Ok(())
}

/// What the candidates need of one another.
fn edges_of(alloc: Global, choice: &[&Candidate]) -> Result<Edges, NoMemory>
    requires { length choice.now < 2 ^ 32 }
    ensures { IfOk result (λ e. e ≡ edges_by (candidates_of choice.now)) }
{
    let mut needs = Vec::new(alloc);
    for (from, candidate) in choice.iter().enumerate() {
        push_edges(
            choice,
            from as u32,
            candidate.recipe.dependencies.as_slice(),
            &mut needs,
        )?;
    }
    Ok(Edges {
        nodes: choice.len() as u32,
        needs: List::new(needs),
    })
}

/// The bootstrap's script, expanded over the scope of the item at the place.
fn boot_script(
    alloc: Global,
    origin: &Origin,
    items: &List<Item>,
    at: u32,
    recipe: &Recipe,
    step: &StepDef,
) -> Result<Text, NoMemory>
    requires scope { HasScope origin.now (map item_view items.now) at }
    requires regular { AreRegularItems (map item_view items.now) }
    requires step { IsStep origin.now (map item_view items.now) at recipe.now step.now }
    ensures { IfOk result (λ text. IsBootScript origin.now (map item_view items.now) at text) }
{
    let scope = scope_of(alloc, origin, items, at)?;
    expand(alloc, &step.script, &scope)
}

/// Whether the item's bootstrap says something else among the new items than it says in the set.
fn scripts_differ(
    alloc: Global,
    origin: &Origin,
    set: &List<Item>,
    before: u32,
    items: &List<Item>,
    at: u32,
    recipe: &Recipe,
    step: &StepDef,
) -> Result<bool, NoMemory>
    requires old_scope { HasScope origin.now (map item_view set.now) before }
    requires old_regular { AreRegularItems (map item_view set.now) }
    requires old_step { IsStep origin.now (map item_view set.now) before recipe.now step.now }
    requires scope { HasScope origin.now (map item_view items.now) at }
    requires regular { AreRegularItems (map item_view items.now) }
    requires step { IsStep origin.now (map item_view items.now) at recipe.now step.now }
    ensures { IfOk result (λ b. IsTrue b ↔ ScriptsDiffer origin.now (map item_view set.now) (map item_view items.now) before at) }
{
    recipe_laws();
    expansion_laws();
    let old = boot_script(alloc, origin, set, before, recipe, step)?;
    let new = boot_script(alloc, origin, items, at, recipe, step)?;
    Ok(old != new)
}

fn place_in(items: &[Item], name: &Name) -> Option<u32>
    requires { length items.now ≤ 128 }
    ensures { result ≡ place name.now (map item_view items.now) }
{
    for (at, item) in items.iter().enumerate() {
        if *name == item.name {
            return Some(at as u32);
        }
    }
    None
}

/// Whether the set has no such item, or has it in another version, or its bootstrap says something else there.
fn is_changed(
    alloc: Global,
    origin: &Origin,
    set: &List<Item>,
    candidate: &Candidate,
    step: &StepDef,
    items: &List<Item>,
    at: u32,
) -> Result<bool, NoMemory>
    requires set { AreItems origin.now.platform (map item_view set.now) }
    requires set_regular { AreRegularItems (map item_view set.now) }
    requires kept { KeepBytes (map item_view set.now) (candidate.now ∷ []) }
    requires regular { AreRegularItems (map item_view items.now) }
    requires scope { HasScope origin.now (map item_view items.now) at }
    requires step { IsStep origin.now (map item_view items.now) at candidate.now.recipe step.now }
    requires read { IsReadFor origin.now.platform candidate.now }
    ensures { IfOk result (λ b. IsTrue b ↔ IsChanged origin.now (map item_view set.now) (map item_view items.now) at candidate.now.recipe.version
        (place candidate.now.recipe.name (map item_view set.now))) }
{
    let Some(before) = place_in(set.as_slice(), &candidate.recipe.name) else {
        return Ok(true);
    };
    if set.as_slice()[before as usize].version != candidate.recipe.version {
        return Ok(true);
    }
    scripts_differ(
        alloc,
        origin,
        set,
        before,
        items,
        at,
        &candidate.recipe,
        step,
    )
}

/// Whether the item at the place has a bootstrap that has to run.
fn is_due(
    alloc: Global,
    origin: &Origin,
    set: &List<Item>,
    choice: &[&Candidate],
    items: &List<Item>,
    at: u32,
) -> Result<bool, NoMemory>
    requires set { AreItems origin.now.platform (map item_view set.now) }
    requires set_regular { AreRegularItems (map item_view set.now) }
    requires kept { KeepBytes (map item_view set.now) (candidates_of choice.now) }
    requires read { All (IsReadFor origin.now.platform) (candidates_of choice.now) }
    requires regular { AreRegularItems (map item_view items.now) }
    requires items { AreOf (candidates_of choice.now) (map item_view items.now) }
    requires place { at < length choice.now }
    ensures { IfOk result (λ b. IsTrue b ↔ IsDue origin.now (map item_view set.now) (candidates_of choice.now) (map item_view items.now) at) }
{
    let candidate = choice[at as usize];
    match &candidate.recipe.bootstrap {
        Some(step) => is_changed(alloc, origin, set, candidate, step, items, at),
        None => Ok(false),
    }
}

/// The order of the candidates, which have no cycle.
fn order_of(alloc: Global, choice: &[&Candidate]) -> Result<List<u32>, NoMemory>
    requires few { length choice.now < 2 ^ 32 }
    requires acyclic { IsAcyclic (edges_by (candidates_of choice.now)) }
    ensures order { IfOk result (IsWholeOrder (edges_by (candidates_of choice.now))) }
    ensures places { IfOk result (λ list. All (λ p. p < length choice.now) list) }
{
    let edges = edges_of(alloc, choice)?;
    cycle_leads_to_itself(&edges);
    match order(alloc, &edges) {
        Ok(list) => Ok(list),
        Err(OrderFault::Cycle(_)) => unreachable!(),
        Err(OrderFault::NoMemory) => Err(NoMemory),
    }
}

/// The names of the items whose bootstraps have to run, in their order.
pub(crate) fn boots_of(
    alloc: Global,
    origin: &Origin,
    set: &List<Item>,
    choice: &[&Candidate],
    items: &List<Item>,
) -> Result<List<Name>, NoMemory>
    requires set { AreItems origin.now.platform (map item_view set.now) }
    requires set_regular { AreRegularItems (map item_view set.now) }
    requires few { length choice.now < 2 ^ 32 }
    requires acyclic { IsAcyclic (edges_by (candidates_of choice.now)) }
    requires kept { KeepBytes (map item_view set.now) (candidates_of choice.now) }
    requires read { All (IsReadFor origin.now.platform) (candidates_of choice.now) }
    requires regular { AreRegularItems (map item_view items.now) }
    requires items { AreOf (candidates_of choice.now) (map item_view items.now) }
    ensures { IfOk result (AreBoots origin.now (map item_view set.now) (candidates_of choice.now) (map item_view items.now)) }
{
    let places = order_of(alloc, choice)?;
    let mut boots = Vec::new(alloc);
    for place in places.as_slice() {
        if is_due(alloc, origin, set, choice, items, *place)? {
            boots.push(choice[*place as usize].recipe.name.copy(alloc)?)?;
        }
    }
    Ok(List::new(boots))
}
