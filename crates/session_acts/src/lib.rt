//! One act of the components of a session, whatever its stage is: the moment is told, a step is started or skipped, a child is
//! killed, or a failure is handed on. And one wait.
//!
//! It promises that what happens in each of its calls is a history that `histories` allows and that keeps no record, and what it
//! makes of the components. What a stage keeps beside, it keeps by each such event.
#![tactic(auto)]

mod acts;
mod laws;
mod starts;
mod waits;

pub use acts::{Did, act};
pub use laws::orderly_laws;
pub use starts::pass;
pub use waits::{longest_wait, wait};
