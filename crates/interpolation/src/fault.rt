ghost use Rattle.std.specs.Prelude.{◌≡◌};

use nuc_base::NoMemory;

/// Why a value is not answered.
#[derive(Clone, Copy, Debug, Drop, PartialEq, Eq)]
pub(crate) enum ValueFault {
    /// It has more than 4,096 bytes. It is not made then.
    TooLong,
    NoMemory,
}

impl From<NoMemory> for ValueFault {
    ghost use Rattle.interpolation.specs.declared.fault.ValueFault.TheVariants.{NoMemory as OutOfMemory};

    ghost from_gives = { λ _ e. e ≡ OutOfMemory };

    fn from(_: NoMemory) -> Self {
        ValueFault::NoMemory
    }
}
