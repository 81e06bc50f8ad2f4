// What component a recipe is of.
ghost use Rattle.std.specs.Prelude.{◌≡◌, Some, ⊤};
ghost use Rattle.serde_json.specs.Data.{string};
ghost use Rattle.serde_json.specs.Find.{get as member_of};
ghost use Rattle.nuc_base.specs.Tables.{AnswerBy};
ghost use Rattle.tree_core.specs.View.{view};
ghost use Rattle.tree_core.specs.Parts.{optional as is_optional};
ghost use Rattle.recipe_reader.specs.Spelled.{spelled};
ghost use Rattle.recipe_reader.specs.Recipes.{needed, format_lines, name_lines, version_lines, type_lines, global_lines, head_lines};
ghost use Rattle.recipe_reader.specs.Gathered.{IsHead};
ghost use Rattle.recipe_reader.specs.declared.fault.Key.TheVariants as key;
ghost use Rattle.recipe_reader.specs.declared.fault.RecipeFault.TheVariants.{NoMemory as OutOfMemory};

use crate::fault::{Key, RecipeFault};
use crate::parts::{member, optional};
use npm_ranges::{Version, VersionFault};
use nuc_base::{Name, NameFault};
use std::alloc::Global;
use tree_core::Tree;

#[derive(Drop)]
pub struct Head {
    pub name: Name,
    pub version: Version,
}

fn format_in(value: &Tree) -> Result<(), RecipeFault>
    ensures { AnswerBy OutOfMemory (format_lines (view value.now)) (λ _. ⊤) result }
{
    let Tree::Text(text) = value else {
        return Err(RecipeFault::WrongKind(Key::RecipeFormatVersion));
    };
    if text.as_str() == "2020-01-25" {
        Ok(())
    } else {
        Err(RecipeFault::FormatVersion)
    }
}

fn check_format(recipe: &Tree) -> Result<(), RecipeFault>
    ensures { AnswerBy OutOfMemory (needed key.RecipeFormatVersion (view recipe.now) format_lines) (λ _. ⊤) result }
{
    match member(recipe, Key::RecipeFormatVersion) {
        Some(value) => format_in(value),
        None => Err(RecipeFault::Missing(Key::RecipeFormatVersion)),
    }
}

fn name_in(alloc: Global, value: &Tree) -> Result<Name, RecipeFault>
    ensures { AnswerBy OutOfMemory (name_lines (view value.now)) (λ name. view value.now ≡ string name) result }
{
    let Tree::Text(text) = value else {
        return Err(RecipeFault::WrongKind(Key::ComponentName));
    };
    match Name::read(alloc, text.as_bytes()) {
        Ok(name) => Ok(name),
        Err(NameFault::Bad) => Err(RecipeFault::BadName(Key::ComponentName)),
        Err(NameFault::NoMemory) => Err(RecipeFault::NoMemory),
    }
}

fn name_of(alloc: Global, recipe: &Tree) -> Result<Name, RecipeFault>
    ensures { AnswerBy OutOfMemory
        (needed key.ComponentName (view recipe.now) name_lines)
        (λ name. member_of (spelled key.ComponentName) (view recipe.now) ≡ Some (string name))
        result }
{
    match member(recipe, Key::ComponentName) {
        Some(value) => name_in(alloc, value),
        None => Err(RecipeFault::Missing(Key::ComponentName)),
    }
}

fn version_in(alloc: Global, value: &Tree) -> Result<Version, RecipeFault>
    ensures { AnswerBy OutOfMemory (version_lines (view value.now)) (λ version. view value.now ≡ string version) result }
{
    let Tree::Text(text) = value else {
        return Err(RecipeFault::WrongKind(Key::ComponentVersion));
    };
    match Version::read(alloc, text.as_bytes()) {
        Ok(version) => Ok(version),
        Err(VersionFault::Bad) => Err(RecipeFault::BadVersion),
        Err(VersionFault::NoMemory) => Err(RecipeFault::NoMemory),
    }
}

fn version_of(alloc: Global, recipe: &Tree) -> Result<Version, RecipeFault>
    ensures { AnswerBy OutOfMemory
        (needed key.ComponentVersion (view recipe.now) version_lines)
        (λ version. member_of (spelled key.ComponentVersion) (view recipe.now) ≡ Some (string version))
        result }
{
    match member(recipe, Key::ComponentVersion) {
        Some(value) => version_in(alloc, value),
        None => Err(RecipeFault::Missing(Key::ComponentVersion)),
    }
}

fn type_in(value: &Tree) -> Result<(), RecipeFault>
    ensures { AnswerBy OutOfMemory (type_lines (view value.now)) (λ _. ⊤) result }
{
    let Tree::Text(text) = value else {
        return Err(RecipeFault::WrongKind(Key::ComponentType));
    };
    if text.as_str() == "aws.greengrass.generic" {
        Ok(())
    } else {
        Err(RecipeFault::UnsupportedType)
    }
}

fn check_type(recipe: &Tree) -> Result<(), RecipeFault>
    ensures { AnswerBy OutOfMemory (is_optional (spelled key.ComponentType) (view recipe.now) type_lines) (λ _. ⊤) result }
{
    match optional(recipe, Key::ComponentType) {
        Some(value) => type_in(value),
        None => Ok(()),
    }
}

fn global_in(value: &Tree) -> Result<(), RecipeFault>
    ensures { AnswerBy OutOfMemory (global_lines (view value.now)) (λ _. ⊤) result }
{
    match value {
        Tree::Fields(fields) => {
            if fields.is_empty() {
                Ok(())
            } else {
                Err(RecipeFault::GlobalLifecycle)
            }
        }
        _ => Err(RecipeFault::GlobalLifecycle),
    }
}

/// A lifecycle outside of the manifests is refused, unless it is empty.
fn check_global(recipe: &Tree) -> Result<(), RecipeFault>
    ensures { AnswerBy OutOfMemory (is_optional (spelled key.Lifecycle) (view recipe.now) global_lines) (λ _. ⊤) result }
{
    match optional(recipe, Key::Lifecycle) {
        Some(value) => global_in(value),
        None => Ok(()),
    }
}

/// What component a recipe is of, and that its form is one that is read.
pub fn head_of(alloc: Global, recipe: &Tree) -> Result<Head, RecipeFault>
    ensures { AnswerBy OutOfMemory (head_lines (view recipe.now)) (IsHead (view recipe.now)) result }
{
    if !recipe.is_object() {
        return Err(RecipeFault::WrongKind(Key::Recipe));
    }
    check_format(recipe)?;
    let name = name_of(alloc, recipe)?;
    let version = version_of(alloc, recipe)?;
    check_type(recipe)?;
    check_global(recipe)?;
    Ok(Head { name, version })
}
