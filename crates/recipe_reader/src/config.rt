// The default configuration of a component.
ghost use Rattle.std.specs.Prelude.{◌≡◌, Some, None};
ghost use Rattle.serde_json.specs.Find.{get as member_of};
ghost use Rattle.nuc_base.specs.Tables.{AnswerBy};
ghost use Rattle.tree_core.specs.View.{view};
ghost use Rattle.tree_core.specs.Regular.{IsRegular};
ghost use Rattle.tree_core.specs.Parts.{present, optional as is_optional};
ghost use Rattle.recipe_reader.specs.Spelled.{spelled};
ghost use Rattle.recipe_reader.specs.Recipes.{object_lines, config_lines, inner, IsDefault};
ghost use Rattle.recipe_reader.specs.declared.fault.Key.TheVariants as key;
ghost use Rattle.recipe_reader.specs.declared.fault.RecipeFault.TheVariants.{NoMemory as OutOfMemory};

use crate::fault::{Key, RecipeFault};
use crate::parts::optional;
use nuc_base::Copied;
use std::alloc::Global;
use tree_core::Tree;

/// The object without members.
fn empty_object(alloc: Global) -> Tree
    ensures { IsDefault None (view result) × IsRegular (view result) }
{
    Tree::Fields(Vec::new(alloc))
}

fn object_in(alloc: Global, value: &Tree) -> Result<Tree, RecipeFault>
    requires { IsRegular (view value.now) }
    ensures { AnswerBy OutOfMemory
        (object_lines key.DefaultConfiguration (view value.now))
        (λ t. IsDefault (Some (view value.now)) (view t) × IsRegular (view t))
        result }
{
    if !value.is_object() {
        return Err(RecipeFault::WrongKind(Key::DefaultConfiguration));
    }
    Ok(value.copy(alloc)?)
}

fn config_in(alloc: Global, value: &Tree) -> Result<Tree, RecipeFault>
    requires { IsRegular (view value.now) }
    ensures { AnswerBy OutOfMemory
        (config_lines (view value.now))
        (λ t. IsDefault (inner key.DefaultConfiguration (Some (view value.now))) (view t) × IsRegular (view t))
        result }
{
    if !value.is_object() {
        return Err(RecipeFault::WrongKind(Key::ComponentConfiguration));
    }
    match optional(value, Key::DefaultConfiguration) {
        Some(config) => object_in(alloc, config),
        None => Ok(empty_object(alloc)),
    }
}

/// The default configuration of a recipe, an object.
pub fn default_of(alloc: Global, recipe: &Tree) -> Result<Tree, RecipeFault>
    requires { IsRegular (view recipe.now) }
    ensures { AnswerBy OutOfMemory
        (is_optional (spelled key.ComponentConfiguration) (view recipe.now) config_lines)
        (λ t. IsDefault (inner key.DefaultConfiguration (present (member_of (spelled key.ComponentConfiguration) (view recipe.now)))) (view t)
        × IsRegular (view t))
        result }
{
    match optional(recipe, Key::ComponentConfiguration) {
        Some(value) => config_in(alloc, value),
        None => Ok(empty_object(alloc)),
    }
}
