use nuc_base::{Bytes, List};
use std::alloc::{AllocError, Global};
use std::test::Fail;

/// The end of a recipe: what it needs, or the blanks up to a length.
fn recipe_with(alloc: Global, head: &str, needed: &str, range: &str) -> Result<String, AllocError> {
    if let Ok(length) = needed.parse::<usize>() {
        let mut recipe = format!(in alloc; "{head}}}")?;
        for _ in recipe.len()..length {
            recipe.push(' ')?;
        }
        return Ok(recipe);
    }
    format!(in alloc;
        r#"{head},"ComponentDependencies":{{"{needed}":{{"VersionRequirement":"{range}"}}}}}}"#
    )
}

/// The recipe that is written out or of these words: the component's name, its version, and a dependency with its range where
/// it has one, or a length to which it is filled with blanks.
fn recipe_of(alloc: Global, component: &str) -> Result<String, AllocError> {
    if component.starts_with("{") {
        return String::from_str(alloc, component);
    }
    let mut words = component.split(' ');
    let name = words.next().unwrap_or("");
    let version = words.next().unwrap_or("");
    let head = format!(in alloc;
        r#"{{"RecipeFormatVersion":"2020-01-25","ComponentName":"{name}","ComponentVersion":"{version}""#
    )?;
    let Some(needed) = words.next() else {
        return format!(in alloc; "{head}}}");
    };
    recipe_with(alloc, &head, needed, words.next().unwrap_or(""))
}

/// The bytes of that recipe.
fn recipe_bytes(alloc: Global, component: &str) -> Result<Bytes, Fail> {
    let recipe = recipe_of(alloc, component)?;
    let bytes = Bytes::from_slice(alloc, recipe.as_bytes());
    drop(recipe);
    Ok(bytes?)
}

/// Recipes, each of which is written out or of the words of `recipe_of`, with `;` between two.
pub fn recipes_of(alloc: Global, components: &str) -> Result<List<Bytes>, Fail> {
    let mut recipes = List::empty(alloc);
    for component in components.split(';') {
        recipes.push(recipe_bytes(alloc, component)?)?;
    }
    Ok(recipes)
}
