//! The recipes of a plan's items.
ghost use Rattle.std.specs.Prelude.{◌≡◌, ◌↔◌, IsTrue, IfOk, MatchOption};
ghost use Rattle.std.specs.List.{AllByRecursion, AllZip};
ghost use Rattle.recipe_reader.specs.OneRecipe.{IsRecipeFor};
ghost use Rattle.recipe_reader.specs.declared.fault.RecipeFault.TheVariants.{NoMemory as OutOfMemory};
ghost use Rattle.records.specs.Stored.{item_view};
ghost use Rattle.device.specs.Plans.{IsHeldFor, IsRecipeOf, HasRecipe, IsNoRecipe};
ghost use Rattle.device.specs.PlanNeeds.{HasRecipeAt, IsRecipeAt};

use nuc_base::{Artifact, NoMemory, Platform};
use recipe_reader::{Recipe, RecipeFault, recipe_laws};
use records::{Held, Item};
use std::alloc::Global;

fn is_memory(fault: &RecipeFault) -> bool
    ensures { IsTrue result ↔ (fault.now ≡ OutOfMemory) }
{
    matches!(fault, RecipeFault::NoMemory)
}

/// What the bytes say for the platform, where they are a recipe.
pub(crate) fn recipe_in(
    alloc: Global,
    platform: &Platform,
    bytes: &[u8],
) -> Result<Option<Recipe>, NoMemory>
    ensures { IfOk result (λ o. MatchOption o (IsNoRecipe platform.now bytes.now) (IsRecipeFor bytes.now platform.now)) }
{
    recipe_laws();
    match Recipe::read(alloc, bytes, platform) {
        Ok(recipe) => Ok(Some(recipe)),
        Err(fault) => {
            if is_memory(&fault) {
                Err(NoMemory)
            } else {
                Ok(None)
            }
        }
    }
}

fn is_held_for(artifact: &Artifact, held: &Held) -> bool
    ensures { IsTrue result ↔ IsHeldFor artifact.now held.now }
{
    if held.file != artifact.file {
        return false;
    }
    match artifact.digest {
        Some(digest) => held.digest == digest,
        None => true,
    }
}

/// Whether the files are those of the recipe, in its order.
fn are_held(artifacts: &[Artifact], held: &[Held]) -> bool
    ensures { IsTrue result ↔ AllZip IsHeldFor artifacts.now held.now }
{
    if artifacts.len() != held.len() {
        return false;
    }
    for (at, artifact) in artifacts.iter().enumerate() {
        if !is_held_for(artifact, &held[at]) {
            return false;
        }
    }
    true
}

/// Whether the recipe is one of the item's name, version and files.
fn is_recipe_of(platform: &Platform, item: &Item, recipe: &Recipe) -> bool
    requires { IsRecipeFor item.now.recipe platform.now recipe.now }
    ensures { IsTrue result ↔ IsRecipeOf platform.now (item_view item.now) recipe.now }
{
    recipe.name == item.name
        && recipe.version == item.version
        && are_held(recipe.artifacts.as_slice(), item.artifacts.as_slice())
}

/// The recipe of the item, where its bytes are one.
fn recipe_of(alloc: Global, platform: &Platform, item: &Item) -> Result<Option<Recipe>, NoMemory>
    ensures { IfOk result (λ o. MatchOption o (HasRecipeAt platform.now item.now → ⊥) (IsRecipeAt platform.now item.now)) }
{
    recipe_laws();
    match recipe_in(alloc, platform, item.recipe.as_slice())? {
        Some(recipe) => {
            if is_recipe_of(platform, item, &recipe) {
                Ok(Some(recipe))
            } else {
                Ok(None)
            }
        }
        None => Ok(None),
    }
}

/// The recipes of the items in their order, where each item has one.
pub(crate) fn recipes_of(
    alloc: Global,
    platform: &Platform,
    items: &[Item],
) -> Result<Option<Vec<Recipe>>, NoMemory>
    ensures { IfOk result (λ o. MatchOption o
        (AllByRecursion (HasRecipeAt platform.now) items.now → ⊥)
        (λ recipes. AllZip (IsRecipeAt platform.now) items.now recipes.items)) }
{
    let mut recipes = Vec::with_capacity(alloc, items.len())?;
    for item in items {
        let Some(recipe) = recipe_of(alloc, platform, item)? else {
            return Ok(None);
        };
        recipes.push(recipe)?;
    }
    Ok(Some(recipes))
}
