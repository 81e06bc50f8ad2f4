//! How a turn, or all turns, of a call that serves leave it.
use deploy_state::Idle;
use gate_log::Journal;
use nuc_base::Status;

/// What is still to be done before the next document.
#[derive(Clone, Copy, Debug, PartialEq, Eq)]
pub(crate) enum Owed {
    Nothing,
    /// Files of artifacts may lie about that nothing names: those that were taken in for a document that met a fault, or those that
    /// a close left, after which there was no memory to sweep.
    Sweep,
}

impl Owed {
    /// What is owed once a deployment has come back with this status, and this was owed before.
    pub(crate) fn after(self, status: Status) -> Owed {
        match status {
            Status::Disk | Status::Memory => Owed::Sweep,
            _ => self,
        }
    }
}

/// What one turn leaves, or all of them.
#[derive(Drop)]
pub enum Turned<J: Journal + Drop> {
    /// The call goes on; behind all turns, the inbox was asked as often as it is to be.
    On(Idle<J>),
    /// The inbox is closed.
    Shut(Idle<J>),
    /// The call ends with this status, and no child lives.
    Over(Status),
}
