//! The items of a plan, without their files.
ghost use Rattle.std.specs.Prelude.{◌≡◌, ◌<◌, map, length, option_map, IfOk, IfSome, All};
ghost use Rattle.tree_core.specs.View.{view};
ghost use Rattle.tree_core.specs.Regular.{IsRegular};
ghost use Rattle.config_ops.specs.NewConfig.{change_of, IsRegularUpdate};
ghost use Rattle.deployment_doc.specs.Sound.{AreSound};
ghost use Rattle.records.specs.Stored.{item_view};
ghost use Rattle.device.specs.Plans.{AreRegularItems};
ghost use Rattle.plan_core.specs.Looks.{candidates_of};
ghost use Rattle.plan_core.specs.Set.{bare, change_in, item_named as item_by, root_named as root_by, config_of as config_by, item_of, items_of, chosen};

use config_ops::{Update, new_config};
use deployment_doc::Root;
use nuc_base::{Copied, List, Name, NoMemory};
use recipe_reader::{Candidate, Recipe};
use records::Item;
use std::alloc::Global;
use tree_core::Tree;

/// The item of that name.
fn item_named<'a>(items: &'a [Item], name: &Name) -> Option<&'a Item>
    ensures { option_map (λ i. item_view i.now) result ≡ item_by name.now (map item_view items.now) }
{
    for item in items {
        if *name == item.name {
            return Some(item);
        }
    }
    None
}

fn root_named<'a>(roots: &'a [Root], name: &Name) -> Option<&'a Root>
    ensures { option_map (λ r. r.now) result ≡ root_by name.now roots.now }
{
    for root in roots {
        if *name == root.name {
            return Some(root);
        }
    }
    None
}

/// The configuration that the set has of that name.
#[tactic(auto, using(crate::proofs::Found::kept_regular))]
fn kept_config<'a>(set: &'a [Item], name: &Name) -> Option<&'a Tree>
    requires { AreRegularItems (map item_view set.now) }
    ensures value { option_map (λ t. view t.now) result ≡ option_map (λ i. i.config) (item_by name.now (map item_view set.now)) }
    ensures regular { IfSome result (λ t. IsRegular (view t.now)) }
{
    match item_named(set, name) {
        Some(item) => Some(&item.config),
        None => None,
    }
}

/// What the document changes in the component's configuration.
#[tactic(auto, using(crate::proofs::Found::change_regular))]
fn update_of<'a>(roots: &'a [Root], name: &Name) -> Option<&'a Update>
    requires { AreSound roots.now }
    ensures value { option_map (λ u. change_of u.now) result ≡ change_in name.now roots.now }
    ensures regular { IfSome result (λ u. IsRegularUpdate u.now) }
{
    match root_named(roots, name) {
        Some(root) => root.update.as_ref(),
        None => None,
    }
}

fn config_of(alloc: Global, set: &[Item], roots: &[Root], recipe: &Recipe) -> Result<Tree, NoMemory>
    requires set { AreRegularItems (map item_view set.now) }
    requires roots { AreSound roots.now }
    requires recipe { IsRegular (view recipe.now.default_config) }
    ensures value { IfOk result (λ t. view t ≡ config_by (map item_view set.now) roots.now recipe.now) }
    ensures regular { IfOk result (λ t. IsRegular (view t)) }
{
    let kept = kept_config(set, &recipe.name);
    let update = update_of(roots, &recipe.name);
    new_config(alloc, kept, &recipe.default_config, update)
}

/// The item that the candidate becomes, without its files.
fn bare_item(
    alloc: Global,
    set: &[Item],
    roots: &[Root],
    candidate: &Candidate,
) -> Result<Item, NoMemory>
    requires set { AreRegularItems (map item_view set.now) }
    requires roots { AreSound roots.now }
    requires recipe { IsRegular (view candidate.now.recipe.default_config) }
    ensures value { IfOk result (λ i. item_view i ≡ bare (item_of (map item_view set.now) roots.now candidate.now)) }
    ensures regular { IfOk result (λ i. IsRegular (view i.config)) }
{
    let config = config_of(alloc, set, roots, &candidate.recipe)?;
    Ok(Item {
        name: candidate.recipe.name.copy(alloc)?,
        version: candidate.recipe.version.copy(alloc)?,
        recipe: candidate.bytes.copy(alloc)?,
        config,
        artifacts: List::empty(alloc),
    })
}

/// The candidates at these places.
pub(crate) fn choice_of<'a>(
    alloc: Global,
    candidates: &'a [Candidate],
    set: &[u32],
) -> Result<Vec<&'a Candidate>, NoMemory>
    requires { All (λ p. p < length candidates.now) set.now }
    ensures { IfOk result (λ choice. candidates_of choice.items ≡ chosen candidates.now set.now) }
{
    let mut choice = Vec::with_capacity(alloc, set.len())?;
    for place in set {
        choice.push(&candidates[*place as usize])?;
    }
    Ok(choice)
}

/// The items that the candidates become, without their files.
pub(crate) fn bare_items(
    alloc: Global,
    set: &[Item],
    roots: &[Root],
    choice: &[&Candidate],
) -> Result<List<Item>, NoMemory>
    requires set { AreRegularItems (map item_view set.now) }
    requires roots { AreSound roots.now }
    requires recipes { All (λ c. IsRegular (view c.recipe.default_config)) (candidates_of choice.now) }
    ensures value { IfOk result (λ items. map item_view items ≡ map bare (items_of (map item_view set.now) roots.now (candidates_of choice.now))) }
    ensures regular { IfOk result (λ items. AreRegularItems (map item_view items)) }
{
    let mut items = Vec::with_capacity(alloc, choice.len())?;
    for candidate in choice {
        items.push(bare_item(alloc, set, roots, candidate)?)?;
    }
    Ok(List::new(items))
}
