use nuc_base::{Exit, Outcome, Step};

/// A small record whose name the device tells.
#[derive(Clone, Copy, Debug, PartialEq, Eq)]
pub enum Mark {
    BootBegun,
    BootEnded(Exit),
    Activating,
    StepFailed(u32, Step, Exit),
    Failing,
    FailingBack,
    Closed(Outcome),
}
