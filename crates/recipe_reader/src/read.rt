// Reading a recipe.
ghost use Rattle.std.specs.Prelude.{◌≡◌, IfOk};
ghost use Rattle.nuc_base.specs.Tables.{AnswerBy};
ghost use Rattle.tree_core.specs.View.{view};
ghost use Rattle.tree_core.specs.Regular.{IsRegular};
ghost use Rattle.recipe_reader.specs.Recipes.{recipe_lines, IsRecipe, ReadsRecipe};
ghost use Rattle.recipe_reader.specs.Sound.{IsSound};
ghost use Rattle.recipe_reader.specs.declared.fault.RecipeFault.TheVariants.{NoMemory as OutOfMemory};

use crate::config::default_of;
use crate::dependency::dependencies_of;
use crate::fault::RecipeFault;
use crate::head::{Head, head_of};
use crate::manifest::{Chosen, chosen_of};
use crate::recipe::{Dependency, Recipe};
use nuc_base::{List, Platform};
use std::alloc::Global;
use tree_core::{Tree, TreeFault};

/// The most bytes of a recipe.
const LIMIT: usize = 65_536;

impl Recipe {
    /// Reads a recipe (component recipe reference of AWS IoT Greengrass V2, format 2020-01-25): a JSON text of at most
    /// 65,536 bytes. Of its manifests the first that is for the platform is used; those behind it are not looked at.
    ///
    /// The first fault in this order answers: the bytes are no tree; the recipe is no object; the keys
    /// `RecipeFormatVersion`, `ComponentName`, `ComponentVersion`, `ComponentType`, `Lifecycle`,
    /// `ComponentConfiguration` and `ComponentDependencies` in turn; the manifests up to the chosen one; then of the
    /// chosen one its lifecycle and its artifacts.
    pub fn read(alloc: Global, bytes: &[u8], platform: &Platform) -> Result<Recipe, RecipeFault>
        ensures exact { ReadsRecipe bytes.now platform.now result }
        ensures sound { IfOk result IsSound }
    {
        let tree = match Tree::read(alloc, bytes, LIMIT) {
            Ok(tree) => tree,
            Err(TreeFault::NoMemory) => return Err(RecipeFault::NoMemory),
            Err(fault) => return Err(RecipeFault::Tree(fault)),
        };
        recipe_of(alloc, platform, &tree)
    }
}

fn recipe_from(
    head: Head,
    default_config: Tree,
    dependencies: List<Dependency>,
    chosen: Chosen,
) -> Recipe
    ensures { result ≡ record {
      name = head.name;
      version = head.version;
      default_config = default_config;
      dependencies = dependencies;
      install = chosen.steps.first.install;
      run = chosen.steps.first.run;
      startup = chosen.steps.first.startup;
      shutdown = chosen.steps.last.shutdown;
      recover = chosen.steps.last.recover;
      bootstrap = chosen.steps.last.bootstrap;
      boot_back = chosen.boot_back;
      artifacts = chosen.artifacts;
    } }
{
    let first = chosen.steps.first;
    let last = chosen.steps.last;
    Recipe {
        name: head.name,
        version: head.version,
        default_config,
        dependencies,
        install: first.install,
        run: first.run,
        startup: first.startup,
        shutdown: last.shutdown,
        recover: last.recover,
        bootstrap: last.bootstrap,
        boot_back: chosen.boot_back,
        artifacts: chosen.artifacts,
    }
}

fn recipe_of(alloc: Global, platform: &Platform, tree: &Tree) -> Result<Recipe, RecipeFault>
    requires { IsRegular (view tree.now) }
    ensures { AnswerBy OutOfMemory (recipe_lines platform.now (view tree.now)) (IsRecipe platform.now (view tree.now)) result }
{
    let head = head_of(alloc, tree)?;
    let default_config = default_of(alloc, tree)?;
    let dependencies = dependencies_of(alloc, tree)?;
    let chosen = chosen_of(alloc, platform, tree)?;
    Ok(recipe_from(head, default_config, dependencies, chosen))
}
