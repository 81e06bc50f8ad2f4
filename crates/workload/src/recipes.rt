ghost use Rattle.std.specs.Prelude.{◌≡◌, ◌++◌, IfOk, OnOk, map};
ghost use Rattle.tree_core.specs.Regular.{IsOrderly};
ghost use Rattle.tree_core.specs.View.{view, field_view};
ghost use Rattle.workload.specs.Recipes.{manifests, dependency_fields, recipe_tree as tree_of_recipe, recipe_text};
ghost use Rattle.workload.specs.Recipes.{drawn_need, drawn_component, drawn_components};

use crate::generator::Generator;
use crate::names::{REQUIREMENT, component_name, version_text};
use crate::objects::{bytes_of, object_of, put_text, text_object};
use nuc_base::{Bytes, NoMemory, Text};
use std::alloc::Global;
use tree_core::{Tree, put_field};

/// Draws the recipes of so many components, by component and version.
pub(crate) fn draw_recipes(
    alloc: Global,
    generator: &mut Generator,
    components: u64,
) -> Result<Vec<Bytes>, NoMemory>
    ensures recipes { IfOk result (λ recipes. recipes.items ≡ (drawn_components components generator.old.state).value) }
    ensures state { OnOk result (generator.new.state ≡ (drawn_components components generator.old.state).state) }
{
    let mut recipes = Vec::new(alloc);
    for component in 0..components {
        draw_component(alloc, generator, component, &mut recipes)?;
    }
    Ok(recipes)
}

/// Draws how many versions a component has, and adds the recipe of each.
fn draw_component(
    alloc: Global,
    generator: &mut Generator,
    component: u64,
    recipes: &mut Vec<Bytes>,
) -> Result<(), NoMemory>
    ensures recipes { OnOk result (recipes.new.items ≡ recipes.old.items ++ (drawn_component component generator.old.state).value) }
    ensures state { OnOk result (generator.new.state ≡ (drawn_component component generator.old.state).state) }
{
    let versions = 1 + generator.draw_below(3);
    for minor in 0..versions {
        let needed = draw_need(generator, component);
        recipes.push(recipe(alloc, component, minor, needed)?)?;
    }
    Ok(())
}

/// Draws which of the components before this one it needs.
fn draw_need(generator: &mut Generator, component: u64) -> Option<u64>
    ensures need { result ≡ (drawn_need component generator.old.state).value }
    ensures state { generator.new.state ≡ (drawn_need component generator.old.state).state }
{
    if component == 0 {
        None
    } else {
        Some(generator.draw_below(component))
    }
}

fn recipe(alloc: Global, component: u64, minor: u64, needed: Option<u64>) -> Result<Bytes, NoMemory>
    ensures { IfOk result (λ recipe. recipe ≡ recipe_text component minor needed) }
{
    let tree = recipe_tree(alloc, component, minor, needed)?;
    bytes_of(alloc, &tree)
}

fn recipe_tree(
    alloc: Global,
    component: u64,
    minor: u64,
    needed: Option<u64>,
) -> Result<Tree, NoMemory>
    ensures tree { IfOk result (λ tree. view tree ≡ tree_of_recipe component minor needed) }
    ensures orderly { IfOk result (λ tree. IsOrderly (view tree)) }
{
    let name = component_name(alloc, component)?;
    let version = version_text(alloc, minor)?;
    let mut fields = dependencies(alloc, needed)?;
    put_text(alloc, &mut fields, "ComponentName", name.as_str())?;
    put_text(alloc, &mut fields, "ComponentVersion", version.as_str())?;
    put_field(alloc, &mut fields, "Manifests", one_manifest(alloc)?)?;
    put_text(alloc, &mut fields, "RecipeFormatVersion", "2020-01-25")?;
    Ok(Tree::Fields(fields))
}

/// The field of the dependency, where there is one.
fn dependencies(alloc: Global, needed: Option<u64>) -> Result<Vec<(Text, Tree)>, NoMemory>
    ensures { IfOk result (λ fields. map field_view fields.items ≡ dependency_fields needed) }
{
    let mut fields = Vec::new(alloc);
    if let Some(needed) = needed {
        let name = component_name(alloc, needed)?;
        let asked = text_object(alloc, "VersionRequirement", REQUIREMENT)?;
        let dependency = object_of(alloc, name.as_str(), asked)?;
        put_field(alloc, &mut fields, "ComponentDependencies", dependency)?;
    }
    Ok(fields)
}

/// One manifest for every platform, with a startup step.
fn one_manifest(alloc: Global) -> Result<Tree, NoMemory>
    ensures { IfOk result (λ tree. view tree ≡ manifests) }
{
    let steps = text_object(alloc, "startup", "start")?;
    let mut items = Vec::with_capacity(alloc, 1)?;
    items.push(object_of(alloc, "Lifecycle", steps)?)?;
    Ok(Tree::Items(items))
}
