//! The bootstraps of a plan, and on the way back those of the set again, one after another: the calls that run them, keep
//! their records and print their lines.
//!
//! It promises that what happens in each of its calls is a history that `histories` allows, that at every moment each image
//! that a crash may leave stands for the device that a prefix of its records gives, and that the lines are those of the
//! records. It stands on `deploy_state` for the records, on `step_runner` for children, and on `histories` for what a
//! history is.
#![tactic(auto)]

mod boots;
mod ends;
mod lines;
mod stage;
mod steps;
mod turns;

pub use boots::{run_boots, run_rollback_boots};
pub use ends::{Booted, SessionFault};
pub use lines::{acknowledge, tell_exit};
pub use steps::{probes, run_step};
