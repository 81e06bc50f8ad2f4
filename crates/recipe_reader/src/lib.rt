//! Recipes of components: what a recipe's text says for the platform at hand, or the first fault that it has (component
//! recipe reference of AWS IoT Greengrass V2, format 2020-01-25); and the candidates that are read of them.
//!
//! It promises that `Recipe::read` answers the recipe that the lines of a table name or the fault of the first line
//! that fails, and that `Candidates` rises by name and version, each recipe the reading of its bytes. Here stands too
//! which sets of candidates are valid and which of them is preferred, apart from any search (`specs/Sets.antt`). It
//! stands on `tree_core`, `npm_ranges` and `nuc_base`.
#![tactic(auto)]

mod artifact;
mod back;
mod candidate;
mod candidates;
mod config;
mod dependency;
mod digest;
mod environment;
mod fault;
mod head;
mod keys;
mod laws;
mod lifecycle;
mod limit;
mod manifest;
mod nucleus;
mod parts;
mod platform;
mod read;
mod reason;
mod recipe;
mod skip;
mod step;
mod wanted;

pub use candidate::Candidate;
pub use candidates::{AddRefusal, Candidates};
pub use fault::{Key, RecipeFault};
pub use laws::{recipe_laws, set_laws};
pub use nuc_base::{Artifact, Platform};
pub use recipe::{Dependency, Recipe, Skip, StepDef};
pub use wanted::Wanted;
