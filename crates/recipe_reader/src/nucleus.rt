// The built-in component.
ghost use Rattle.std.specs.Prelude.{◌≡◌, IfOk};
ghost use Rattle.nuc_base.specs.declared.platform.Platform.{Platform};
ghost use Rattle.recipe_reader.specs.Recipes.{IsRecipe};
ghost use Rattle.recipe_reader.specs.Candidates.{nucleus_name, nucleus_bytes, nucleus_data, IsNucleus};

use crate::candidate::Candidate;
use crate::recipe::Recipe;
use npm_ranges::Version;
use nuc_base::{Bytes, Copied, List, Name, NameFault, NoMemory};
use std::alloc::Global;
use tree_core::{Tree, tree_laws};

const HEAD: &[u8] = b"{\"ComponentName\":\"aws.greengrass.Nucleus\",\"ComponentVersion\":\"";

const TAIL: &[u8] = b"\",\"RecipeFormatVersion\":\"2020-01-25\"}";

/// The recipe's bytes: the compact JSON text of its three keys.
fn bytes_of(alloc: Global, version: &Version) -> Result<Bytes, NoMemory>
    ensures { IfOk result (λ bytes. bytes ≡ nucleus_bytes version.now) }
{
    let mut bytes = Bytes::from_slice(alloc, HEAD)?;
    bytes.append(version.text().as_bytes())?;
    bytes.append(TAIL)?;
    Ok(bytes)
}

fn name_of(alloc: Global) -> Result<Name, NoMemory>
    ensures { IfOk result (λ name. name ≡ nucleus_name) }
{
    match Name::read(alloc, b"aws.greengrass.Nucleus") {
        Ok(name) => Ok(name),
        Err(NameFault::NoMemory) => Err(NoMemory),
        Err(NameFault::Bad) => unreachable!(),
    }
}

/// What they say on each platform: a component without a configuration, dependencies, steps and artifacts.
fn recipe_of(alloc: Global, version: &Version) -> Result<Recipe, NoMemory>
    ensures name { IfOk result (λ recipe. recipe.name ≡ nucleus_name) }
    ensures version { IfOk result (λ recipe. recipe.version ≡ version.now) }
    ensures recipe { IfOk result (λ recipe. (p : Platform) → IsRecipe p (nucleus_data version.now) recipe) }
{
    let name = name_of(alloc)?;
    let version = version.copy(alloc)?;
    Ok(Recipe {
        name,
        version,
        default_config: Tree::Fields(Vec::new(alloc)),
        dependencies: List::empty(alloc),
        install: None,
        run: None,
        startup: None,
        shutdown: None,
        recover: None,
        bootstrap: None,
        boot_back: false,
        artifacts: List::empty(alloc),
    })
}

/// The built-in component in this version. It has no steps, and its recipe's bytes are those that `bytes_of` gives.
pub(crate) fn nucleus_of(alloc: Global, version: &Version) -> Result<Candidate, NoMemory>
    ensures { IfOk result (IsNucleus version.now) }
{
    tree_laws();
    // That it is a version is known of its text.
    let _ = version.text();
    let bytes = bytes_of(alloc, version)?;
    let recipe = recipe_of(alloc, version)?;
    Ok(Candidate { recipe, bytes })
}
