// What the manifest for a platform says.
ghost use Rattle.std.specs.Prelude.{Some, None};
ghost use Rattle.nuc_base.specs.Tables.{AnswerBy};
ghost use Rattle.tree_core.specs.View.{view};
ghost use Rattle.tree_core.specs.Regular.{IsRegular};
ghost use Rattle.recipe_reader.specs.Recipes.{chosen_lines, part_lines, manifest_of};
ghost use Rattle.recipe_reader.specs.Gathered.{IsChosen};
ghost use Rattle.recipe_reader.specs.declared.fault.RecipeFault.TheVariants.{NoMemory as OutOfMemory};

use crate::artifact::artifacts_of;
use crate::back::back_of;
use crate::fault::RecipeFault;
use crate::lifecycle::{Steps, no_steps, steps_of};
use crate::platform::choice;
use nuc_base::{Artifact, List, Platform};
use std::alloc::Global;
use tree_core::Tree;

#[derive(Drop)]
pub struct Chosen {
    pub steps: Steps,
    pub boot_back: bool,
    pub artifacts: List<Artifact>,
}

fn chosen_in(alloc: Global, manifest: &Tree) -> Result<Chosen, RecipeFault>
    requires { IsRegular (view manifest.now) }
    ensures { AnswerBy OutOfMemory (chosen_lines (view manifest.now)) (IsChosen (Some (view manifest.now))) result }
{
    let steps = steps_of(alloc, manifest)?;
    match artifacts_of(alloc, manifest) {
        Ok(artifacts) => Ok(Chosen {
            steps,
            boot_back: back_of(manifest),
            artifacts,
        }),
        Err(fault) => {
            drop(steps);
            Err(fault)
        }
    }
}

/// What a recipe without manifests says.
fn nothing_chosen(alloc: Global) -> Chosen
    ensures { IsChosen None result }
{
    Chosen {
        steps: no_steps(),
        boot_back: false,
        artifacts: List::empty(alloc),
    }
}

/// What the manifest for the platform says.
pub fn chosen_of(alloc: Global, platform: &Platform, recipe: &Tree) -> Result<Chosen, RecipeFault>
    requires { IsRegular (view recipe.now) }
    ensures { AnswerBy OutOfMemory
        (part_lines platform.now (view recipe.now))
        (IsChosen (manifest_of platform.now (view recipe.now)))
        result }
{
    match choice(platform, recipe)? {
        Some(manifest) => chosen_in(alloc, manifest),
        None => Ok(nothing_chosen(alloc)),
    }
}
