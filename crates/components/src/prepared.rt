//! Steps with their variables expanded.
ghost use Rattle.std.specs.Prelude.{◌≡◌, Some, option_map, map, IfOk};
ghost use Rattle.std.specs.List.{AllZip};
ghost use Rattle.recipe_reader.specs.OneRecipe.{IsRecipeFor};
ghost use Rattle.interpolation.specs.Scopes.{HasRegularConfigs};
ghost use Rattle.records.specs.Stored.{item_view};
ghost use Rattle.device.specs.Plans.{AreRegularItems, HasSomeRecipe};
ghost use Rattle.device.specs.Scopes.{HasScope};
ghost use Rattle.components.specs.Made.{IsVariable, IsCommandOf, IsSkipOf, IsPreparedFrom, IsPrepared, IsStepAt};

use crate::kinds::Prepared;
use device::scope_of;
use interpolation::{Scope, expand, work_folder};
use nuc_base::{Copied, List, NoMemory, Platform, Step, Text};
use recipe_reader::{Recipe, Skip, StepDef, recipe_laws};
use records::{Item, Origin};
use std::alloc::Global;
use step_runner::Command;

/// What the bytes say for the platform. They are a recipe.
pub fn known_recipe(alloc: Global, platform: &Platform, bytes: &[u8]) -> Result<Recipe, NoMemory>
    requires { HasSomeRecipe platform.now bytes.now }
    ensures { IfOk result (IsRecipeFor bytes.now platform.now) }
{
    recipe_laws();
    match Recipe::read(alloc, bytes, platform) {
        Ok(recipe) => Ok(recipe),
        Err(_) => Err(NoMemory),
    }
}

fn expand_variable(
    alloc: Global,
    variable: &(Text, Text),
    scope: &Scope,
) -> Result<(Text, Text), NoMemory>
    requires { HasRegularConfigs scope.now }
    ensures { IfOk result (IsVariable scope.now variable.now) }
{
    let name = variable.0.copy(alloc)?;
    let value = expand(alloc, &variable.1, scope)?;
    Ok((name, value))
}

fn expand_variables(
    alloc: Global,
    variables: &[(Text, Text)],
    scope: &Scope,
) -> Result<Vec<(Text, Text)>, NoMemory>
    requires { HasRegularConfigs scope.now }
    ensures { IfOk result (λ made. AllZip (IsVariable scope.now) variables.now made.items) }
{
    let mut made = Vec::with_capacity(alloc, variables.len())?;
    for variable in variables {
        made.push(expand_variable(alloc, variable, scope)?)?;
    }
    Ok(made)
}

fn expand_skip(alloc: Global, skip: &Skip, scope: &Scope) -> Result<Skip, NoMemory>
    requires { HasRegularConfigs scope.now }
    ensures { IfOk result (λ made. IsSkipOf scope.now (Some skip.now) (Some made)) }
{
    match skip {
        Skip::OnPath(word) => {
            let word = expand(alloc, word, scope)?;
            Ok(Skip::OnPath(word))
        }
        Skip::Exists(path) => {
            let path = expand(alloc, path, scope)?;
            Ok(Skip::Exists(path))
        }
    }
}

fn expand_skip_of(
    alloc: Global,
    skip: &Option<Skip>,
    scope: &Scope,
) -> Result<Option<Skip>, NoMemory>
    requires { HasRegularConfigs scope.now }
    ensures { IfOk result (IsSkipOf scope.now skip.now) }
{
    match skip {
        None => Ok(None),
        Some(skip) => {
            let made = expand_skip(alloc, skip, scope)?;
            Ok(Some(made))
        }
    }
}

fn command_of(alloc: Global, definition: &StepDef, scope: &Scope) -> Result<Command, NoMemory>
    requires { HasRegularConfigs scope.now }
    ensures { IfOk result (IsCommandOf scope.now definition.now) }
{
    let script = expand(alloc, &definition.script, scope)?;
    let env = expand_variables(alloc, definition.env.as_slice(), scope)?;
    let folder = work_folder(alloc, &scope.root, &scope.own.name)?;
    Ok(Command {
        script,
        env: List::new(env),
        folder,
    })
}

fn prepare(alloc: Global, definition: &StepDef, scope: &Scope) -> Result<Prepared, NoMemory>
    requires { HasRegularConfigs scope.now }
    ensures { IfOk result (IsPreparedFrom scope.now definition.now) }
{
    let command = command_of(alloc, definition, scope)?;
    let skip = expand_skip_of(alloc, &definition.skip, scope)?;
    Ok(Prepared {
        command,
        skip,
        limit_ms: definition.limit_ms,
    })
}

/// The step made ready, where there is one.
pub fn prepare_step(
    alloc: Global,
    definition: Option<&StepDef>,
    scope: &Scope,
) -> Result<Option<Prepared>, NoMemory>
    requires { HasRegularConfigs scope.now }
    ensures { IfOk result (IsPrepared scope.now (option_map (λ d. d.now) definition.entry)) }
{
    match definition {
        None => Ok(None),
        Some(definition) => {
            let made = prepare(alloc, definition, scope)?;
            Ok(Some(made))
        }
    }
}

/// The step of the item at that place among items of a device, with all variables expanded over the item's scope; bootstraps
/// are had here too. None comes exactly where the item's recipe has no such step. `at` is a place, and the recipe of the item
/// there can be read for the platform of the device.
pub fn step_of(
    alloc: Global,
    origin: &Origin,
    items: &List<Item>,
    at: u32,
    step: Step,
) -> Result<Option<Prepared>, NoMemory>
    requires recipe { HasScope origin.now (map item_view items.now) at }
    requires regular { AreRegularItems (map item_view items.now) }
    ensures { IfOk result (IsStepAt origin.now (map item_view items.now) at step) }
{
    recipe_laws();
    let scope = scope_of(alloc, origin, items, at)?;
    let items = items.as_slice();
    let item = &items[at as usize];
    let recipe = known_recipe(alloc, &origin.platform, item.recipe.as_slice())?;
    prepare_step(alloc, recipe.step(step), &scope)
}
