//! The components of a device, and what a supervisor of them may do: definitions, the trait, and their laws.
//!
//! The components are a state machine that does nothing by itself: `next_act` tells what is to be done next, `event` takes
//! what befell, and whoever drives it has children and a clock (`Supervise`). It promises that a step is made ready as its
//! recipe says (`step_of`); the definitions and their laws stand in `specs/`. It stands on `device` for scopes, on
//! `interpolation` for texts, and on `lifecycle` for the table by which each component moves. `supervisor` keeps it.
#![tactic(auto)]

mod child;
mod kinds;
mod laws;
mod prepared;
mod supervise;

pub use child::Child;
pub use kinds::{Act, Event, Mode, Prepared};
pub use laws::{answers_meet_starts, marks_are_least, one_platform, stops_wait, time_passes};
pub use prepared::{known_recipe, prepare_step, step_of};
pub use supervise::Supervise;
