//! How the items of a deployment are brought up: those of the plan, and on the way back those of the set again.
//!
//! It promises that what happens in each of its calls is a history that `histories` allows, that at every moment each image
//! that a crash may leave stands for the device that a prefix of its records gives, and that the lines are those of the
//! records. It stands on `deploy_state` for the records, on `step_runner` for children, on the contract of a supervisor
//! for what is done next, on `histories` for what a history is, and on `session_boots` for what parts of one promise.
#![tactic(auto)]

mod activating;
mod closing;
mod coming;
mod failures;
mod laws;
mod lines;
mod pending;
mod rolling;
mod turns;
mod waits;

pub use activating::{Activated, activate};
pub use closing::close_deployment;
pub use pending::{Close, PendingState};
pub use rolling::roll;
