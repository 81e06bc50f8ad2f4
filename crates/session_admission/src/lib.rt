//! A deployment is admitted: all that it needs is made ready, then its plan is accepted, and that is acknowledged.
//!
//! It promises that each bootstrap step is the one of its item, with every text expanded over the item's scope, that those are
//! made that may run again on the way back, and that the items of the plan and of the set are made ready, so that no memory is
//! taken behind the acceptance; and that a plan which is taken leaves a history that `histories` allows, with its record stable
//! before its line is printed, and one that is given back leaves the device as it was. It stands on `components` for the
//! expansion of one step and for items, on `deploy_state` for the record, and on `session_boots` for the line.
#![tactic(auto)]

mod accepting;
mod backs;
mod boots;
mod readied;

pub use accepting::{Taken, accept_plan};
pub use backs::prepare_backs;
pub use boots::prepare_boots;
pub use readied::{Readied, prepare};
