//! How a part of a session ends.

/// Why a session gives up.
#[derive(Clone, Copy, Debug, Drop, PartialEq, Eq)]
pub enum SessionFault {
    /// The disk failed.
    Disk,
    /// A line could not be written.
    Output,
}

/// How the bootstrap steps of a stage ended.
#[derive(Clone, Copy, Debug, Drop, PartialEq, Eq)]
pub enum Booted {
    /// None is left.
    Through,
    /// One failed.
    Failed,
    /// The call ends, so that what runs the program starts it again.
    Restart,
    /// The call ends, so that the device is started again.
    Reboot,
}
