// The components that a recipe's component needs.
ghost use Rattle.std.specs.Prelude.{◌≡◌, [], Some, None, map};
ghost use Rattle.std.specs.List.{AllZip};
ghost use Rattle.serde_json.specs.Data.{string};
ghost use Rattle.serde_json.specs.Find.{get as member_of};
ghost use Rattle.nuc_base.specs.Tables.{AnswerBy, each};
ghost use Rattle.tree_core.specs.View.{view, field_view};
ghost use Rattle.tree_core.specs.Parts.{present, members, optional as is_optional};
ghost use Rattle.recipe_reader.specs.Spelled.{spelled};
ghost use Rattle.recipe_reader.specs.Dependencies.{range_lines, IsRangeOf, kind_lines, IsHard, dependency_lines, IsDependency, dependencies_lines};
ghost use Rattle.recipe_reader.specs.Dependencies.{AreDependencies};
ghost use Rattle.recipe_reader.specs.declared.fault.Key.TheVariants as key;
ghost use Rattle.recipe_reader.specs.declared.fault.RecipeFault.TheVariants.{NoMemory as OutOfMemory};

use crate::fault::{Key, RecipeFault};
use crate::keys::is_same;
use crate::parts::optional;
use crate::recipe::Dependency;
use npm_ranges::{Range, RangeFault, spelled_comparators_are_read};
use nuc_base::{List, Name, NameFault, Text};
use std::alloc::Global;
use tree_core::Tree;

const MOST_DEPENDENCIES: usize = 64;

fn range_in(alloc: Global, value: &Tree) -> Result<Range, RecipeFault>
    ensures { AnswerBy OutOfMemory (range_lines (view value.now)) (λ range. view value.now ≡ string range) result }
{
    let Tree::Text(text) = value else {
        return Err(RecipeFault::WrongKind(Key::VersionRequirement));
    };
    match Range::read(alloc, text.as_bytes()) {
        Ok(range) => Ok(range),
        Err(RangeFault::Bad) => Err(RecipeFault::BadRange),
        Err(RangeFault::TooManyParts) => Err(RecipeFault::BadRange),
        Err(RangeFault::NoMemory) => Err(RecipeFault::NoMemory),
    }
}

/// The range of all versions.
fn any_range(alloc: Global) -> Result<Range, RecipeFault>
    ensures { AnswerBy OutOfMemory [] (IsRangeOf None) result }
{
    spelled_comparators_are_read();
    match Range::read(alloc, b"*") {
        Ok(range) => Ok(range),
        Err(RangeFault::NoMemory) => Err(RecipeFault::NoMemory),
        Err(RangeFault::Bad) => unreachable!(),
        Err(RangeFault::TooManyParts) => unreachable!(),
    }
}

fn range_at(alloc: Global, dependency: &Tree) -> Result<Range, RecipeFault>
    ensures { AnswerBy OutOfMemory
        (is_optional (spelled key.VersionRequirement) (view dependency.now) range_lines)
        (IsRangeOf (present (member_of (spelled key.VersionRequirement) (view dependency.now))))
        result }
{
    match optional(dependency, Key::VersionRequirement) {
        Some(value) => range_in(alloc, value),
        None => any_range(alloc),
    }
}

fn hard_in(value: &Tree) -> Result<bool, RecipeFault>
    ensures { AnswerBy OutOfMemory (kind_lines (view value.now)) (IsHard (Some (view value.now))) result }
{
    let Tree::Text(word) = value else {
        return Err(RecipeFault::WrongKind(Key::DependencyType));
    };
    if is_same("HARD", word.as_str()) {
        return Ok(true);
    }
    if is_same("SOFT", word.as_str()) {
        return Ok(false);
    }
    Err(RecipeFault::WrongKind(Key::DependencyType))
}

fn hard_at(dependency: &Tree) -> Result<bool, RecipeFault>
    ensures { AnswerBy OutOfMemory
        (is_optional (spelled key.DependencyType) (view dependency.now) kind_lines)
        (IsHard (present (member_of (spelled key.DependencyType) (view dependency.now))))
        result }
{
    match optional(dependency, Key::DependencyType) {
        Some(value) => hard_in(value),
        None => Ok(true),
    }
}

fn dependency_of(alloc: Global, name: &Text, value: &Tree) -> Result<Dependency, RecipeFault>
    ensures { AnswerBy OutOfMemory (dependency_lines (name.now, view value.now)) (IsDependency (name.now, view value.now)) result }
{
    let name = match Name::read(alloc, name.as_bytes()) {
        Ok(name) => name,
        Err(NameFault::Bad) => return Err(RecipeFault::BadName(Key::ComponentDependencies)),
        Err(NameFault::NoMemory) => return Err(RecipeFault::NoMemory),
    };
    if !value.is_object() {
        return Err(RecipeFault::WrongKind(Key::ComponentDependencies));
    }
    let range = range_at(alloc, value)?;
    let hard = hard_at(value)?;
    Ok(Dependency { name, range, hard })
}

fn dependencies_among(
    alloc: Global,
    fields: &Vec<(Text, Tree)>,
) -> Result<List<Dependency>, RecipeFault>
    ensures { AnswerBy OutOfMemory
        (each dependency_lines (map field_view fields.now.items))
        (AllZip IsDependency (map field_view fields.now.items))
        result }
{
    let mut dependencies = Vec::with_capacity(alloc, fields.len())?;
    for (name, value) in fields {
        let dependency = dependency_of(alloc, name, value)?;
        dependencies.push(dependency)?;
    }
    Ok(List::new(dependencies))
}

fn dependencies_in(alloc: Global, value: &Tree) -> Result<List<Dependency>, RecipeFault>
    ensures { AnswerBy OutOfMemory (dependencies_lines (view value.now)) (AllZip IsDependency (members (view value.now))) result }
{
    let Tree::Fields(fields) = value else {
        return Err(RecipeFault::WrongKind(Key::ComponentDependencies));
    };
    if fields.len() > MOST_DEPENDENCIES {
        return Err(RecipeFault::TooMany(Key::ComponentDependencies));
    }
    dependencies_among(alloc, fields)
}

/// The dependencies of a recipe, in the order of their names.
pub fn dependencies_of(alloc: Global, recipe: &Tree) -> Result<List<Dependency>, RecipeFault>
    ensures { AnswerBy OutOfMemory
        (is_optional (spelled key.ComponentDependencies) (view recipe.now) dependencies_lines)
        (AreDependencies (present (member_of (spelled key.ComponentDependencies) (view recipe.now))))
        result }
{
    match optional(recipe, Key::ComponentDependencies) {
        Some(value) => dependencies_in(alloc, value),
        None => Ok(List::empty(alloc)),
    }
}
