//! Whether a plan is one that a device takes.
ghost use Rattle.std.specs.Prelude.{◌≡◌, ◌↔◌, ◌≤◌, length, map, IsTrue, IfOk, MatchOption};
ghost use Rattle.std.specs.List.{All, AllByRecursion, AllZip, IsDistinct, list_any};
ghost use Rattle.std.specs.Str.{bytes_eq};
ghost use Rattle.tree_core.specs.Regular.{IsRegular};
ghost use Rattle.tree_core.specs.View.{view};
ghost use Rattle.records.specs.Stored.{item_view, plan_view};
ghost use Rattle.device.specs.Plans.{AreRising, requirement_name, IsConfig, AreRegularItems, AreRequirements, AreItems, IsPlan};
ghost use Rattle.device.specs.PlanNeeds.{names_of, HasConfigAt, IsRegularAt, IsBootIn, AreListed, AreBootsIn, AreItemsWith, FitsTogether};

use crate::limits::{MOST_CONFIG, MOST_ELEMENTS};
use crate::plan_needs::{is_acyclic, needs_of, place_of};
use crate::plan_recipes::recipes_of;
use dep_order::Edges;
use nuc_base::{List, Name, NoMemory, Platform};
use recipe_reader::{Recipe, recipe_laws};
use records::{Item, Plan, Requirement};
use std::alloc::Global;
use tree_core::Tree;

fn requirements_rise(requirements: &[Requirement]) -> bool
    ensures { IsTrue result ↔ AreRising (map requirement_name requirements.now) }
{
    requirements.is_sorted_by(|a, b| a.name < b.name)
}

fn items_rise(items: &[Item]) -> bool
    ensures { IsTrue result ↔ AreRising (names_of items.now) }
{
    items.is_sorted_by(|a, b| a.name < b.name)
}

fn has_name(names: &[Name], name: &Name) -> bool
    ensures { result ≡ list_any (bytes_eq name.now) names.now }
{
    names.iter().any(|other| name == other)
}

/// Whether no name stands there twice.
fn names_differ(names: &[Name]) -> bool
    ensures { IsTrue result ↔ IsDistinct bytes_eq names.now }
{
    for (at, name) in names.iter().enumerate() {
        if has_name(&names[at + 1..], name) {
            return false;
        }
    }
    true
}

pub(crate) fn are_requirements(requirements: &[Requirement]) -> bool
    ensures { IsTrue result ↔ AreRequirements requirements.now }
{
    requirements.len() <= MOST_ELEMENTS && requirements_rise(requirements)
}

fn are_listed(items: &[Item]) -> bool
    ensures { IsTrue result ↔ AreListed items.now }
{
    items.len() <= MOST_ELEMENTS && items_rise(items)
}

fn is_config(alloc: Global, config: &Tree) -> Result<bool, NoMemory>
    requires { IsRegular (view config.now) }
    ensures { IfOk result (λ b. IsTrue b ↔ IsConfig (view config.now)) }
{
    if !config.is_object() {
        return Ok(false);
    }
    let text = config.write(alloc)?;
    Ok(text.len() <= MOST_CONFIG)
}

/// Whether each item's configuration is an object with a short text.
fn are_configs(alloc: Global, items: &[Item]) -> Result<bool, NoMemory>
    requires { All IsRegularAt items.now }
    ensures { IfOk result (λ b. IsTrue b ↔ AllByRecursion HasConfigAt items.now) }
{
    for item in items {
        if !is_config(alloc, &item.config)? {
            return Ok(false);
        }
    }
    Ok(true)
}

/// Whether the name is that of an item with a bootstrap step.
fn is_boot(items: &[Item], recipes: &[Recipe], name: &Name) -> bool
    requires rise { AreRising (names_of items.now) }
    requires count { length recipes.now ≡ length items.now }
    ensures { IsTrue result ↔ IsBootIn items.now recipes.now name.now }
{
    match place_of(items, name) {
        Some(at) => recipes[at].bootstrap.is_some(),
        None => false,
    }
}

fn have_steps(items: &[Item], recipes: &[Recipe], names: &[Name]) -> bool
    requires rise { AreRising (names_of items.now) }
    requires count { length recipes.now ≡ length items.now }
    ensures { IsTrue result ↔ AllByRecursion (IsBootIn items.now recipes.now) names.now }
{
    for name in names {
        if !is_boot(items, recipes, name) {
            return false;
        }
    }
    true
}

/// Whether the names are few and those of different items with a bootstrap step.
fn are_boots(items: &[Item], recipes: &[Recipe], names: &[Name]) -> bool
    requires rise { AreRising (names_of items.now) }
    requires count { length recipes.now ≡ length items.now }
    ensures { IsTrue result ↔ AreBootsIn items.now recipes.now names.now }
{
    names.len() <= MOST_ELEMENTS && names_differ(names) && have_steps(items, recipes, names)
}

/// Whether the items meet the dependencies of their recipes, without a cycle.
fn are_in_order(alloc: Global, items: &[Item], recipes: &[Recipe]) -> Result<bool, NoMemory>
    requires rise { AreRising (names_of items.now) }
    requires few { length items.now ≤ 128 }
    requires count { length recipes.now ≡ length items.now }
    ensures { IfOk result (λ b. IsTrue b ↔ FitsTogether items.now recipes.now) }
{
    let Some(needs) = needs_of(alloc, items, recipes)? else {
        return Ok(false);
    };
    let edges = Edges {
        nodes: items.len() as u32,
        needs: List::new(needs),
    };
    is_acyclic(alloc, &edges)
}

/// The recipes of the items, where a device of the platform runs such items.
fn recipes_together(
    alloc: Global,
    platform: &Platform,
    items: &[Item],
) -> Result<Option<Vec<Recipe>>, NoMemory>
    requires { All IsRegularAt items.now }
    ensures { IfOk result (λ o. MatchOption o
        (AreItems platform.now (map item_view items.now) → ⊥)
        (λ recipes. AreItemsWith platform.now items.now recipes.items)) }
{
    recipe_laws();
    if !are_listed(items) {
        return Ok(None);
    }
    let are_configured = are_configs(alloc, items)?;
    if !are_configured {
        return Ok(None);
    }
    let Some(recipes) = recipes_of(alloc, platform, items)? else {
        return Ok(None);
    };
    let fit = are_in_order(alloc, items, recipes.as_slice())?;
    if fit { Ok(Some(recipes)) } else { Ok(None) }
}

/// Whether a device of the platform runs such items.
pub(crate) fn are_items(
    alloc: Global,
    platform: &Platform,
    items: &[Item],
) -> Result<bool, NoMemory>
    requires { All IsRegularAt items.now }
    ensures { IfOk result (λ b. IsTrue b ↔ AreItems platform.now (map item_view items.now)) }
{
    match recipes_together(alloc, platform, items)? {
        Some(_) => Ok(true),
        None => Ok(false),
    }
}

/// Whether a device of the platform takes the plan, as far as the plan itself tells: its names, recipes,
/// configurations, dependencies and boots.
pub(crate) fn is_plan(alloc: Global, platform: &Platform, plan: &Plan) -> Result<bool, NoMemory>
    requires { AreRegularItems (plan_view plan.now).items }
    ensures { IfOk result (λ b. IsTrue b ↔ IsPlan platform.now (plan_view plan.now)) }
{
    recipe_laws();
    if !are_requirements(plan.requirements.as_slice()) {
        return Ok(false);
    }
    let items = plan.items.as_slice();
    match recipes_together(alloc, platform, items)? {
        Some(recipes) => Ok(are_boots(items, recipes.as_slice(), plan.boots.as_slice())),
        None => Ok(false),
    }
}
