//! What goes on between the documents of a call that serves: what may be done next is done, a component that fails is tried
//! again, and the call waits.
//!
//! It promises that what happens in each of its calls is a history that `histories` allows and that keeps no record: no disk is
//! in hand, and of a failure nothing is said outside. It stands on `step_runner` for children, on the contract of a supervisor
//! for what is done next, and on `histories` for what a history is.
#![tactic(auto)]

mod acts;
mod settling;
mod waits;

pub use settling::{Settled, settle};
pub use waits::wait_turn;
