// What happens in a fleet, and what is replied.
ghost use Rattle.std.specs.Prelude.{◌≡◌};

use deployment_doc::DocFault;
use nuc_base::{Bytes, Label, List, NoMemory};
use std::alloc::AllocFailed;

/// What happens next. Devices are numbered from 0, and packets and reports too, in the order in which they were sent.
#[derive(Debug, Drop)]
pub enum Happening {
    /// The controller sends a document, given by its bytes, to a device.
    Send(u32, Bytes),
    /// A packet arrives, for the first time or once more.
    Deliver(u32),
    /// A packet is gone: it arrives no more.
    Lose(u32),
    /// A device starts again from what it kept.
    Restart(u32),
    /// A device sends a report of what it keeps.
    Report(u32),
    /// A report arrives at the controller.
    Hear(u32),
}

/// What comes of a happening.
#[derive(Debug, Drop)]
pub enum Reply {
    /// The number of the packet.
    Sent(u32),
    /// The device took the document of this group: its revision is above the one that was kept, and is kept now.
    Taken(u32, Label, u64),
    /// The device keeps this higher revision of the group.
    Stale(u32, Label, u64),
    /// The device keeps this very revision of the group.
    Again(u32, Label, u64),
    /// The packet with this number was lost before.
    Gone(u32),
    /// The number of the packet.
    Lost(u32),
    /// The number of the device.
    Restarted(u32),
    /// The number of the report.
    Reported(u32),
    /// The device of the report, and what the controller now knows of it: each group of which it knows a revision, in
    /// byte order, with the highest one.
    Known(u32, List<(Label, u64)>),
}

/// Why nothing happened.
#[derive(Debug, Drop)]
pub enum StepFault {
    /// There is no device with this number.
    NoDevice,
    /// No packet with this number was sent.
    NoPacket,
    /// No report with this number was sent.
    NoReport,
    /// The bytes are no document.
    Document(DocFault),
    /// The document names no revision.
    NoRevision,
    /// 65,536 packets, or 65,536 reports, were sent already.
    Full,
    NoMemory,
}

impl From<NoMemory> for StepFault {
    ghost use Rattle.fleet_core.specs.declared.happening.StepFault.TheVariants.{NoMemory as OutOfMemory};

    ghost from_gives = { λ _ e. e ≡ OutOfMemory };

    fn from(_: NoMemory) -> StepFault {
        StepFault::NoMemory
    }
}

impl<T: Drop> From<AllocFailed<T>> for StepFault {
    ghost use Rattle.fleet_core.specs.declared.happening.StepFault.TheVariants.{NoMemory as OutOfMemory};

    ghost from_gives = { λ _ e. e ≡ OutOfMemory };

    fn from(_: AllocFailed<T>) -> StepFault {
        StepFault::NoMemory
    }
}
