//! The real runner: children by the system's shell, and a file of which components stand in which states.
//!
//! It promises that it meets its trait with its list untold: a fault is answered where its count rose, and else not. What the
//! system does is trusted.
#![tactic(auto)]

mod anew;
mod children;
mod clock;
mod earlier;
mod keeper;
mod notes;
mod output;
mod processes;
mod programs;
mod runner;
mod running;

pub use runner::ShellRunner;
pub use running::Driving;
