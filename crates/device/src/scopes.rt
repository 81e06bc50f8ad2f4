//! The scope of an item.
ghost use Rattle.std.specs.Prelude.{◌≡◌, map, IfOk};
ghost use Rattle.std.specs.List.{list_any};
ghost use Rattle.std.specs.Str.{bytes_eq};
ghost use Rattle.recipe_reader.specs.OneRecipe.{IsRecipeFor};
ghost use Rattle.records.specs.Stored.{item_view};
ghost use Rattle.device.specs.Plans.{AreRegularItems, HasSomeRecipe};
ghost use Rattle.device.specs.Scopes.{IsScopeOf, HasScope, needed_at, ArePlacesAt, AddsNeeded, IsScopeBy};
ghost use Rattle.device.specs.PlanNeeds.{IsPlaceAt};

use crate::plan_recipes::recipe_in;
use interpolation::{Place, Scope};
use nuc_base::{Copied, List, Name, NoMemory, Platform};
use recipe_reader::Recipe;
use records::{Item, Origin};
use std::alloc::Global;

/// The recipe of an item that has one.
fn known_recipe(alloc: Global, platform: &Platform, item: &Item) -> Result<Recipe, NoMemory>
    requires { HasSomeRecipe platform.now item.now.recipe }
    ensures { IfOk result (IsRecipeFor item.now.recipe platform.now) }
{
    match recipe_in(alloc, platform, item.recipe.as_slice())? {
        Some(recipe) => Ok(recipe),
        None => unreachable!(),
    }
}

fn place_of_item(alloc: Global, item: &Item) -> Result<Place, NoMemory>
    ensures { IfOk result (IsPlaceAt item.now) }
{
    Ok(Place {
        name: item.name.copy(alloc)?,
        version: item.version.copy(alloc)?,
        config: item.config.copy(alloc)?,
    })
}

/// Whether the recipe names a dependency of that name.
fn names(recipe: &Recipe, name: &Name) -> bool
    ensures { result ≡ list_any (λ d. bytes_eq d.name name.now) recipe.now.dependencies }
{
    recipe
        .dependencies
        .as_slice()
        .iter()
        .any(|dependency| dependency.name == *name)
}

/// Adds the place of the item, where the recipe names it.
fn push_needed(
    alloc: Global,
    recipe: &Recipe,
    item: &Item,
    places: &mut Vec<Place>,
) -> Result<(), NoMemory>
    ensures { IfOk result (λ _. AddsNeeded recipe.now item.now places.old.items places.new.items) }
{
    if names(recipe, &item.name) {
        let place = place_of_item(alloc, item)?;
        places.push(place)?;
    }
    Ok(())
}

/// The items that the recipe names as dependencies.
fn needed_of(alloc: Global, recipe: &Recipe, items: &[Item]) -> Result<List<Place>, NoMemory>
    ensures { IfOk result (ArePlacesAt (needed_at recipe.now items.now)) }
{
    let mut places = Vec::new(alloc);
    for item in items {
        push_needed(alloc, recipe, item, &mut places)?;
    }
    Ok(List::new(places))
}

/// The scope of the item among the others, by its recipe.
fn scope_by(
    alloc: Global,
    origin: &Origin,
    recipe: &Recipe,
    item: &Item,
    items: &[Item],
) -> Result<Scope, NoMemory>
    ensures { IfOk result (IsScopeBy origin.now recipe.now item.now items.now) }
{
    let root = origin.root.copy(alloc)?;
    let thing = origin.thing.copy(alloc)?;
    let own = place_of_item(alloc, item)?;
    let needed = needed_of(alloc, recipe, items)?;
    Ok(Scope {
        root,
        thing,
        own,
        needed,
    })
}

/// What the variables of the item's recipe stand for: the folder and the thing of the device, the item at that
/// place, and those of the items that its recipe names as dependencies, in the order of their names. The items
/// stand in the order of their names, `at` is a place among them, and the recipe of the item there can be read
/// for the platform of the device.
pub fn scope_of(
    alloc: Global,
    origin: &Origin,
    items: &List<Item>,
    at: u32,
) -> Result<Scope, NoMemory>
    requires recipe { HasScope origin.now (map item_view items.now) at }
    requires regular { AreRegularItems (map item_view items.now) }
    ensures { IfOk result (IsScopeOf origin.now (map item_view items.now) at) }
{
    let items = items.as_slice();
    let item = &items[at as usize];
    let recipe = known_recipe(alloc, &origin.platform, item)?;
    scope_by(alloc, origin, &recipe, item, items)
}
