//! A deployment is driven from its bootstraps, or from where a call before left it, to its close.
//!
//! It promises that what happens is a history that `histories` allows, that at every moment each image that a crash may leave
//! stands for the device that a prefix of its records gives, that the lines are those of the records, and that no child
//! lives where the call gives up. It joins the calls of `session_boots`, `session_startup`, `session_transitions` and
//! `session_shutdown`, over what `session_admission` made ready.
#![tactic(auto)]

mod backing;
mod beginning;
mod boots;
mod driven;
mod failing;
mod items;
mod resuming;
mod rolling;

pub use beginning::begin;
pub use boots::boot;
pub use driven::{Driven, Presence};
pub use resuming::drive;
