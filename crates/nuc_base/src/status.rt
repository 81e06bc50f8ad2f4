ghost use Rattle.std.specs.Prelude.{◌≡◌};
ghost use Rattle.nuc_base.specs.Numbers.{number_of};

/// What a command of the nucleus ends with.
#[derive(Clone, Copy, Debug, PartialEq, Eq)]
pub enum Status {
    Done,
    Usage,
    BadInput,
    NoVersion,
    PendingStands,
    Disk,
    Edge,
    Library,
    NotInitialised,
    Damaged,
    RolledBack,
    NotRequested,
    Unable,
    Artifact,
    Limit,
    Memory,
    Initialised,
    TurnsOver,
    Stale,
    Absent,
    Differs,
    Moved,
    Restart,
    Reboot,
}

impl Status {
    /// The exit status of the program.
    pub fn number(self) -> u8
        ensures { result ≡ number_of self }
    {
        match self {
            Status::Done => 0,
            Status::Usage => 1,
            Status::BadInput => 2,
            Status::NoVersion => 3,
            Status::PendingStands => 4,
            Status::Disk => 5,
            Status::Edge => 6,
            Status::Library => 7,
            Status::NotInitialised => 8,
            Status::Damaged => 9,
            Status::RolledBack => 10,
            Status::NotRequested => 11,
            Status::Unable => 12,
            Status::Artifact => 13,
            Status::Limit => 14,
            Status::Memory => 15,
            Status::Initialised => 16,
            Status::TurnsOver => 17,
            Status::Stale => 18,
            Status::Absent => 19,
            Status::Differs => 20,
            Status::Moved => 21,
            Status::Restart => 100,
            Status::Reboot => 101,
        }
    }
}
