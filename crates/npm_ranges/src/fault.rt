ghost use Rattle.std.specs.Prelude.{◌≡◌};

// Why bytes are no version or no range.
use nuc_base::NoMemory;
use std::alloc::AllocFailed;
use thiserror::Error;

/// Why bytes are no version.
#[derive(Clone, Copy, Debug, PartialEq, Eq, Error)]
pub enum VersionFault {
    /// They are more than 128, or no version of SemVer 2.0.0 with numbers below 2^64.
    #[error("no version")]
    Bad,
    #[error("memory ran out")]
    NoMemory,
}

/// Why bytes are no range.
#[derive(Clone, Copy, Debug, PartialEq, Eq, Error)]
pub enum RangeFault {
    /// They are more than 4,096, or no case of the grammar reads them.
    #[error("no range")]
    Bad,
    /// They are a range of more than 32 comparators.
    #[error("more than 32 comparators")]
    TooManyParts,
    #[error("memory ran out")]
    NoMemory,
}

impl<T: Drop> From<AllocFailed<T>> for RangeFault {
    ghost use Rattle.npm_ranges.specs.declared.fault.RangeFault.TheVariants.{NoMemory as OutOfMemory};

    ghost from_gives = { λ _ e. e ≡ OutOfMemory };

    fn from(_: AllocFailed<T>) -> Self {
        RangeFault::NoMemory
    }
}

impl From<NoMemory> for RangeFault {
    ghost use Rattle.npm_ranges.specs.declared.fault.RangeFault.TheVariants.{NoMemory as OutOfMemory};

    ghost from_gives = { λ _ e. e ≡ OutOfMemory };

    fn from(_: NoMemory) -> Self {
        RangeFault::NoMemory
    }
}
