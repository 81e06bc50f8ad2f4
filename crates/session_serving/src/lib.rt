//! A call that serves: the components of the set are kept up, and the documents of an inbox are deployed one after another.
//!
//! A deployment that is pending as the call begins is finished first. Then the set is brought up, and each turn does what is
//! due, asks the inbox once, and deploys its document, or waits. It joins `session_steady`, what goes on between two documents,
//! and `session`, which deploys one; of the supervisor it uses the contract alone.
#![tactic(auto)]

mod calls;
mod ends;
mod handling;
mod opening;
mod pauses;
mod pending;
mod restarting;
mod standing;
mod sweeping;
mod turned;
mod turns;

pub use calls::serve;
pub use pauses::{Look, Pause};
pub use restarting::Came;
pub use turned::Turned;
