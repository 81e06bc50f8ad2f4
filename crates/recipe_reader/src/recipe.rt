ghost use Rattle.std.specs.Prelude.{◌≡◌, option_map};

use npm_ranges::{Range, Version};
use nuc_base::{Artifact, List, Name, Step, Text};
use tree_core::Tree;

/// A component that another needs.
#[derive(Debug, Drop)]
pub struct Dependency {
    pub name: Name,
    pub range: Range,
    /// A soft dependency may start later and may fail; a hard one may not.
    pub hard: bool,
}

/// When a step is skipped.
#[derive(Debug, Drop)]
pub enum Skip {
    /// A program of this name is found on the path.
    OnPath(Text),
    /// A file of this name exists.
    Exists(Text),
}

/// A step of a component's lifecycle.
#[derive(Debug, Drop)]
pub struct StepDef {
    /// What the shell runs.
    pub script: Text,
    pub skip: Option<Skip>,
    /// After so many milliseconds the step is ended. Only a run step may have no limit.
    pub limit_ms: Option<u64>,
    /// The names and values of the variables that the step runs with, in the order of their names.
    pub env: List<(Text, Text)>,
}

/// What a recipe says for one platform.
#[derive(Debug, Drop)]
pub struct Recipe {
    pub name: Name,
    pub version: Version,
    /// An object.
    pub default_config: Tree,
    /// In the order of their names.
    pub dependencies: List<Dependency>,
    pub install: Option<StepDef>,
    pub run: Option<StepDef>,
    pub startup: Option<StepDef>,
    pub shutdown: Option<StepDef>,
    pub recover: Option<StepDef>,
    pub bootstrap: Option<StepDef>,
    /// Whether the bootstrap runs again where a deployment that failed goes back to a set with this component. It does
    /// where the step's object has the key `BootstrapOnRollback` with the truth value true.
    pub boot_back: bool,
    pub artifacts: List<Artifact>,
}

impl Recipe {
    ghost use Rattle.recipe_reader.specs.Steps.{step_of};

    /// The definition of a step, where the recipe has one.
    pub fn step(&self, step: Step) -> Option<&StepDef>
        ensures { option_map (λ s. s.now) result ≡ step_of self.now step }
    {
        match step {
            Step::Install => self.install.as_ref(),
            Step::Run => self.run.as_ref(),
            Step::Startup => self.startup.as_ref(),
            Step::Shutdown => self.shutdown.as_ref(),
            Step::Recover => self.recover.as_ref(),
            Step::Bootstrap => self.bootstrap.as_ref(),
        }
    }
}
