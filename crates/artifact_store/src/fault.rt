ghost use Rattle.std.specs.Prelude.{◌≡◌};

use disk_model::{DiskFault, ListFault};
use library_core::LibraryFault;
use nuc_base::{FileName, NoMemory};
use records::{Held, Item};
use std::alloc::{AllocError, AllocFailed};

/// Why a draft was not staged.
#[derive(Drop)]
pub enum StageFault {
    Disk,
    Library,
    /// The library lacks this file.
    Missing(FileName),
    /// More than so many bytes.
    TooLarge(FileName, u64),
    /// The library's file has this digest, and the recipe gives another.
    Mismatch(FileName, [u8; 32]),
    NoMemory,
}

/// Why the files were not swept.
#[derive(Clone, Copy, Debug, Drop, PartialEq, Eq)]
pub enum SweepFault {
    Disk,
    NoMemory,
}

/// Why the files were not compared.
#[derive(Clone, Copy, Debug, Drop, PartialEq, Eq)]
pub enum AuditFault {
    Disk,
    NoMemory,
}

impl From<NoMemory> for StageFault {
    ghost use Rattle.artifact_store.specs.declared.fault.StageFault.TheVariants.{NoMemory as OutOfMemory};

    ghost from_gives = { λ _ e. e ≡ OutOfMemory };

    fn from(_refused: NoMemory) -> StageFault {
        StageFault::NoMemory
    }
}

impl From<DiskFault> for StageFault {
    ghost use Rattle.artifact_store.specs.declared.fault.StageFault.TheVariants.{Disk};

    ghost from_gives = { λ _ e. e ≡ Disk };

    fn from(_fault: DiskFault) -> StageFault {
        StageFault::Disk
    }
}

impl From<LibraryFault> for StageFault {
    ghost use Rattle.artifact_store.specs.Faults.{fault_of};

    ghost from_gives = { λ f e. e ≡ fault_of f };

    fn from(fault: LibraryFault) -> StageFault {
        match fault {
            LibraryFault::Failed => StageFault::Library,
            LibraryFault::NoMemory => StageFault::NoMemory,
        }
    }
}

impl From<ListFault> for SweepFault {
    ghost use Rattle.artifact_store.specs.Faults.{swept_of};

    ghost from_gives = { λ f e. e ≡ swept_of f };

    fn from(fault: ListFault) -> SweepFault {
        match fault {
            ListFault::Disk => SweepFault::Disk,
            ListFault::NoMemory => SweepFault::NoMemory,
        }
    }
}

impl From<AllocFailed<Held>> for StageFault {
    ghost use Rattle.artifact_store.specs.declared.fault.StageFault.TheVariants.{NoMemory as OutOfMemory};

    ghost from_gives = { λ _ e. e ≡ OutOfMemory };

    fn from(_refused: AllocFailed<Held>) -> StageFault {
        StageFault::NoMemory
    }
}

impl From<AllocFailed<Item>> for StageFault {
    ghost use Rattle.artifact_store.specs.declared.fault.StageFault.TheVariants.{NoMemory as OutOfMemory};

    ghost from_gives = { λ _ e. e ≡ OutOfMemory };

    fn from(_refused: AllocFailed<Item>) -> StageFault {
        StageFault::NoMemory
    }
}

impl From<AllocError> for StageFault {
    ghost use Rattle.artifact_store.specs.declared.fault.StageFault.TheVariants.{NoMemory as OutOfMemory};

    ghost from_gives = { λ _ e. e ≡ OutOfMemory };

    fn from(_refused: AllocError) -> StageFault {
        StageFault::NoMemory
    }
}

impl From<DiskFault> for SweepFault {
    ghost use Rattle.artifact_store.specs.declared.fault.SweepFault.TheVariants.{Disk};

    ghost from_gives = { λ _ e. e ≡ Disk };

    fn from(_fault: DiskFault) -> SweepFault {
        SweepFault::Disk
    }
}

impl From<NoMemory> for SweepFault {
    ghost use Rattle.artifact_store.specs.declared.fault.SweepFault.TheVariants.{NoMemory as OutOfMemory};

    ghost from_gives = { λ _ e. e ≡ OutOfMemory };

    fn from(_refused: NoMemory) -> SweepFault {
        SweepFault::NoMemory
    }
}

impl From<DiskFault> for AuditFault {
    ghost use Rattle.artifact_store.specs.declared.fault.AuditFault.TheVariants.{Disk};

    ghost from_gives = { λ _ e. e ≡ Disk };

    fn from(_fault: DiskFault) -> AuditFault {
        AuditFault::Disk
    }
}

impl From<NoMemory> for AuditFault {
    ghost use Rattle.artifact_store.specs.declared.fault.AuditFault.TheVariants.{NoMemory as OutOfMemory};

    ghost from_gives = { λ _ e. e ≡ OutOfMemory };

    fn from(_refused: NoMemory) -> AuditFault {
        AuditFault::NoMemory
    }
}

impl From<AllocError> for AuditFault {
    ghost use Rattle.artifact_store.specs.declared.fault.AuditFault.TheVariants.{NoMemory as OutOfMemory};

    ghost from_gives = { λ _ e. e ≡ OutOfMemory };

    fn from(_refused: AllocError) -> AuditFault {
        AuditFault::NoMemory
    }
}
