//! How a deployment that is driven ends.
use deploy_state::{Idle, Loaded};
use gate_log::Journal;
use nuc_base::Outcome;

/// Whether the components of the set stand, behind a close.
#[derive(Clone, Copy, Debug, PartialEq, Eq)]
pub enum Presence {
    /// Those that stand are of the set that was closed with.
    Present,
    /// None stands: all are stopped.
    Absent,
}

/// How a deployment that is driven ends.
#[derive(Drop)]
pub enum Driven<J: Journal + Drop> {
    /// It closed so.
    Closed(Idle<J>, Outcome, Presence),
    /// The call ends, so that what runs the program starts it again.
    Restart(Loaded<J>),
    /// The call ends, so that the device is started again.
    Reboot(Loaded<J>),
}
