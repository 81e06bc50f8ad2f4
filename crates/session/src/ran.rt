//! How a deployment leaves the call that ran it.
use deploy_state::Idle;
use gate_log::Journal;
use nuc_base::Status;
use session_rollout::Presence;

/// Whose the components are behind a deployment.
#[derive(Clone, Copy, Debug, PartialEq, Eq)]
pub enum Standing {
    /// Those that stood before: nothing was deployed.
    AsBefore,
    /// Those of the set.
    OfSet,
    /// None stands: all are stopped.
    Nobody,
}

/// How a deployment leaves the call that ran it.
#[derive(Drop)]
pub enum Ran<J: Journal + Drop> {
    /// The call may go on, with the device in hand: it answered so, and the components are these.
    ///
    /// With 5 or 15 and the components that stood before, a document met a fault before its record, and nothing of it was
    /// deployed. With 15 and other components, a deployment closed, and there was no memory to sweep stray files after that.
    Back(Idle<J>, Status, Standing),
    /// The call ends with this status, and no child lives.
    Over(Status),
}
