//! A model of a fleet: a controller sends documents of many groups to many devices over a network that loses, repeats
//! and reorders, and hears by reports what the devices keep.
//!
//! It promises that each reply is the one that the whole list of happenings so far determines, and of every such list
//! that no device takes an older revision of a group after a newer one. It stands on `deployment_doc` for what a
//! document says, and on `nuc_base`.
#![tactic(auto)]

mod device;
mod fleet;
mod happening;
mod history;
mod laws;
mod packet;
#[cfg(test)]
mod tests;

pub use fleet::Fleet;
pub use happening::{Happening, Reply, StepFault};
pub use history::Taking;
pub use laws::fleet_laws;
pub use packet::{Packet, Sent};
