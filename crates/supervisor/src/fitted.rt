//! Items that are ready to run.
ghost use Rattle.std.specs.Prelude.{◌≡◌, true, map, option_map, IfOk};
ghost use Rattle.std.specs.Str.{bytes_eq};
ghost use Rattle.serde_json.specs.Written.{compact_text};
ghost use Rattle.tree_core.specs.View.{view as tree_view};
ghost use Rattle.tree_core.specs.Regular.{IsRegular};
ghost use Rattle.interpolation.specs.Scopes.{HasRegularConfigs};
ghost use Rattle.records.specs.Stored.{item_view};
ghost use Rattle.device.specs.Plans.{AreRegularItems};
ghost use Rattle.device.specs.Scopes.{HasScope};
ghost use Rattle.components.specs.Fitted.{name_of, prepared_of, steps_of, limit_of, is_same_item};
ghost use Rattle.components.specs.Made.{IsFittedAt, hard_names, soft_names};
ghost use Rattle.components.specs.Runs.{IsFittedBy, AreFirst, AreLast, AreFit, IsShort, IsFit};

use crate::needs::Need;
use components::{Prepared, known_recipe, prepare_step};
use device::scope_of;
use interpolation::Scope;
use lifecycle::StepSet;
use nuc_base::{Copied, List, Name, NoMemory, Step, Text};
use recipe_reader::{Dependency, Recipe, recipe_laws};
use records::{Item, Origin};
use std::alloc::Global;
use std::marker::Model;

const LONGEST_MS: u64 = 1_000_000_000;

// Items and their steps have a `drop` of their own that does nothing: so each place that lets one go makes one call.

/// The steps by which an item comes up, with all variables expanded.
struct FirstSteps {
    install: Option<Prepared>,
    run: Option<Prepared>,
    startup: Option<Prepared>,
}

impl Drop for FirstSteps {
    fn drop(self) {
        let FirstSteps {
            install: _install,
            run: _run,
            startup: _startup,
        } = self;
    }
}

/// The other steps, with all variables expanded.
struct LastSteps {
    shutdown: Option<Prepared>,
    recover: Option<Prepared>,
}

impl Drop for LastSteps {
    fn drop(self) {
        let LastSteps {
            shutdown: _shutdown,
            recover: _recover,
        } = self;
    }
}

/// What an item needs.
#[derive(Drop)]
struct Needs {
    hard: Vec<Need>,
    soft: Vec<Need>,
}

/// An item with what it needs and its steps with all variables expanded, beside its configuration as text.
pub struct FittedItem {
    item: Item,
    config: Text,
    needs: Needs,
    first: FirstSteps,
    last: LastSteps,
}

impl Drop for FittedItem {
    fn drop(self) {
        let FittedItem {
            item: _item,
            config: _config,
            needs: _needs,
            first: _first,
            last: _last,
        } = self;
    }
}

impl Model for FittedItem {
    ghost use Rattle.std.specs.Prelude.{◌≡◌};
    ghost use Rattle.serde_json.specs.Written.{compact_text};
    ghost use Rattle.tree_core.specs.View.{view as tree_view};
    ghost use Rattle.records.specs.Stored.{item_view};
    ghost use Rattle.components.specs.Fitted.{Fitted};
    ghost use Rattle.components.specs.Runs.{AreFit};
    ghost use Rattle.std.specs.Coded.{codes};
    ghost use Rattle.supervisor.specs.Coding.{data_code};

    ghost Value = { Fitted };

    ghost coded = { Prim.hlevel (codes, data_code) };

    ghost view = { λ f. record {
      item = item_view f.item;
      hard = f.needs.hard.items;
      soft = f.needs.soft.items;
      install = f.first.install;
      run =
          f.first.run;
      startup = f.first.startup;
      shutdown = f.last.shutdown;
      recover = f.last.recover;
    } };

    ghost invariant = { λ f. AreFit f.first.install f.first.run f.first.startup f.last.shutdown f.last.recover ×
        (f.config ≡ compact_text (tree_view f.item.config)) };
}

/// What is needed hard.
fn hard_of(alloc: Global, dependencies: &[Dependency]) -> Result<Vec<Need>, NoMemory>
    ensures { IfOk result (λ needs. needs.items ≡ hard_names dependencies.now) }
{
    let mut needs = Vec::with_capacity(alloc, dependencies.len())?;
    for dependency in dependencies {
        if dependency.hard {
            needs.push(Need::new(dependency.name.copy(alloc)?))?;
        }
    }
    Ok(needs)
}

/// What is needed softly.
fn soft_of(alloc: Global, dependencies: &[Dependency]) -> Result<Vec<Need>, NoMemory>
    ensures { IfOk result (λ needs. needs.items ≡ soft_names dependencies.now) }
{
    let mut needs = Vec::with_capacity(alloc, dependencies.len())?;
    for dependency in dependencies {
        if !dependency.hard {
            needs.push(Need::new(dependency.name.copy(alloc)?))?;
        }
    }
    Ok(needs)
}

fn is_short(step: &Option<Prepared>) -> bool
    ensures { result ≡ true → IsShort (limit_of step.now) }
{
    match step {
        None => true,
        Some(step) => match step.limit_ms {
            None => true,
            Some(limit) => limit <= LONGEST_MS,
        },
    }
}

fn needs_of(alloc: Global, dependencies: &[Dependency]) -> Result<Needs, NoMemory>
    ensures hard { IfOk result (λ n. n.hard.items ≡ hard_names dependencies.now) }
    ensures soft { IfOk result (λ n. n.soft.items ≡ soft_names dependencies.now) }
{
    let hard = hard_of(alloc, dependencies)?;
    let soft = soft_of(alloc, dependencies)?;
    Ok(Needs { hard, soft })
}

fn first_by(alloc: Global, recipe: &Recipe, scope: &Scope) -> Result<FirstSteps, NoMemory>
    requires { HasRegularConfigs scope.now }
    ensures { IfOk result (λ s. AreFirst scope.now recipe.now s.install s.run s.startup) }
{
    let install = prepare_step(alloc, recipe.step(Step::Install), scope)?;
    let run = prepare_step(alloc, recipe.step(Step::Run), scope)?;
    let startup = prepare_step(alloc, recipe.step(Step::Startup), scope)?;
    Ok(FirstSteps {
        install,
        run,
        startup,
    })
}

fn last_by(alloc: Global, recipe: &Recipe, scope: &Scope) -> Result<LastSteps, NoMemory>
    requires { HasRegularConfigs scope.now }
    ensures { IfOk result (λ s. AreLast scope.now recipe.now s.shutdown s.recover) }
{
    let shutdown = prepare_step(alloc, recipe.step(Step::Shutdown), scope)?;
    let recover = prepare_step(alloc, recipe.step(Step::Recover), scope)?;
    Ok(LastSteps { shutdown, recover })
}

/// Whether the steps are as those of every recipe: not both of run and startup, and none longer than the longest.
fn are_fit(first: &FirstSteps, last: &LastSteps) -> bool
    ensures { result ≡ true → AreFit first.now.install first.now.run first.now.startup last.now.shutdown last.now.recover }
{
    if first.run.is_some() && first.startup.is_some() {
        return false;
    }
    if !(is_short(&first.install) && is_short(&first.run) && is_short(&first.startup)) {
        return false;
    }
    is_short(&last.shutdown) && is_short(&last.recover)
}

/// The item's configuration as text.
fn config_of(alloc: Global, item: &Item) -> Result<Text, NoMemory>
    requires { IsRegular (tree_view item.now.config) }
    ensures { IfOk result (λ text. text ≡ compact_text (tree_view item.now.config)) }
{
    item.config.write(alloc)
}

/// What an item needs, and its steps.
#[derive(Drop)]
struct Parts {
    needs: Needs,
    first: FirstSteps,
    last: LastSteps,
}

fn parts_by(alloc: Global, recipe: &Recipe, scope: &Scope) -> Result<Parts, NoMemory>
    requires { HasRegularConfigs scope.now }
    ensures hard { IfOk result (λ p. p.needs.hard.items ≡ hard_names recipe.now.dependencies) }
    ensures soft { IfOk result (λ p. p.needs.soft.items ≡ soft_names recipe.now.dependencies) }
    ensures first { IfOk result (λ p. AreFirst scope.now recipe.now p.first.install p.first.run p.first.startup) }
    ensures last { IfOk result (λ p. AreLast scope.now recipe.now p.last.shutdown p.last.recover) }
{
    let needs = needs_of(alloc, recipe.dependencies.as_slice())?;
    let first = first_by(alloc, recipe, scope)?;
    let last = last_by(alloc, recipe, scope)?;
    Ok(Parts { needs, first, last })
}

fn fit_with(item: Item, config: Text, parts: Parts) -> Result<FittedItem, NoMemory>
    requires { config ≡ compact_text (tree_view item.config) }
    ensures { IfOk result (λ f. f ≡ record {
      item = item_view item;
      hard = parts.needs.hard.items;
      soft = parts.needs.soft.items;
      install =
          parts.first.install;
      run = parts.first.run;
      startup = parts.first.startup;
      shutdown = parts.last.shutdown;
      recover = parts.last.recover;
    }) }
{
    if !are_fit(&parts.first, &parts.last) {
        return Err(NoMemory);
    }
    Ok(FittedItem {
        item,
        config,
        needs: parts.needs,
        first: parts.first,
        last: parts.last,
    })
}

/// The item made ready by its recipe.
fn fit_by(
    alloc: Global,
    item: &Item,
    recipe: &Recipe,
    scope: &Scope,
) -> Result<FittedItem, NoMemory>
    requires scope { HasRegularConfigs scope.now }
    requires config { IsRegular (tree_view item.now.config) }
    ensures { IfOk result (IsFittedBy scope.now recipe.now (item_view item.now)) }
{
    let config = config_of(alloc, item)?;
    let item = item.copy(alloc)?;
    let parts = parts_by(alloc, recipe, scope)?;
    fit_with(item, config, parts)
}

/// The item at that place made ready.
pub(crate) fn fit(
    alloc: Global,
    origin: &Origin,
    items: &List<Item>,
    at: u32,
) -> Result<FittedItem, NoMemory>
    requires recipe { HasScope origin.now (map item_view items.now) at }
    requires regular { AreRegularItems (map item_view items.now) }
    ensures { IfOk result (IsFittedAt origin.now (map item_view items.now) at) }
{
    recipe_laws();
    let scope = scope_of(alloc, origin, items, at)?;
    let items = items.as_slice();
    let item = &items[at as usize];
    let recipe = known_recipe(alloc, &origin.platform, item.recipe.as_slice())?;
    fit_by(alloc, item, &recipe, &scope)
}

fn same_bytes(a: &[u8], b: &[u8]) -> bool
    ensures { result ≡ bytes_eq a.now b.now }
{
    a == b
}

impl FittedItem {
    /// Whether the other one is the same component: name, version, configuration and recipe.
    pub(crate) fn is_same_item(&self, other: &FittedItem) -> bool
        ensures { result ≡ is_same_item self.now.item other.now.item }
    {
        self.item.name == other.item.name
            && (self.item.version == other.item.version
                && (self.config == other.config
                    && same_bytes(self.item.recipe.as_slice(), other.item.recipe.as_slice())))
    }

    pub(crate) fn name(&self) -> &Name
        ensures { result.now ≡ name_of self.now }
    {
        &self.item.name
    }

    pub(crate) fn version(&self) -> &Text
        ensures { result.now ≡ self.now.item.version }
    {
        self.item.version.text()
    }

    pub(crate) fn hard(&self) -> &[Need]
        ensures { result.now ≡ self.now.hard }
    {
        self.needs.hard.as_slice()
    }

    pub(crate) fn soft(&self) -> &[Need]
        ensures { result.now ≡ self.now.soft }
    {
        self.needs.soft.as_slice()
    }

    /// The step made ready, where the item has it. No bootstrap is had here.
    pub(crate) fn step(&self, step: Step) -> Option<&Prepared>
        ensures step { option_map (λ m. m.now) result ≡ prepared_of self.now step }
        ensures fit { IsFit self.now }
    {
        match step {
            Step::Install => self.first.install.as_ref(),
            Step::Run => self.first.run.as_ref(),
            Step::Startup => self.first.startup.as_ref(),
            Step::Shutdown => self.last.shutdown.as_ref(),
            Step::Recover => self.last.recover.as_ref(),
            Step::Bootstrap => None,
        }
    }

    /// Which steps it has.
    pub(crate) fn steps(&self) -> StepSet
        ensures steps { result ≡ steps_of self.now }
        ensures fit { IsFit self.now }
    {
        StepSet {
            install: self.first.install.is_some(),
            run: self.first.run.is_some(),
            startup: self.first.startup.is_some(),
            shutdown: self.last.shutdown.is_some(),
            recover: self.last.recover.is_some(),
        }
    }
}
