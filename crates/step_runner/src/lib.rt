//! Child programs: what is run, what a runner of them does and tells, and a runner in memory that plays the ends that
//! it was given; and a view of the components that run them, which a runner is shown.
//!
//! It promises of every runner what each call adds to its list, which children live after it, that moments never fall, that
//! the count of faults rises where a start is refused or the end of a child cannot be had and nowhere else, and which view it
//! was shown last. It stands on `nuc_base`, and on `lifecycle` for the states that a view names.
#![tactic(auto)]

mod command;
mod ends;
mod entries;
mod runner;
mod scripted;
mod shown;
mod view;
mod views;

pub use command::Command;
pub use ends::{ScriptedEnd, forget_child};
pub use entries::{RunnerEntry, Seen};
pub use runner::{Runner, RunnerFault, Waited};
pub use scripted::ScriptedRunner;
pub use shown::ShownComponent;
pub use view::{View, ViewedComponent};
