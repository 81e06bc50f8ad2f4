//! How all components are stopped: before the first bootstrap of a stage, where a deployment goes back, and at the end of a
//! call.
//!
//! It promises that what happens in each of its calls is a history that `histories` allows and that keeps no record: while all
//! leave, no failure comes that would have to be recorded. It stands on `step_runner` for children, on the contract of a
//! supervisor for what is done next, and on `histories` for what a history is.
#![tactic(auto)]

mod acts;
mod laws;
mod stops;
mod turns;
mod waits;

pub use stops::stop_components;
