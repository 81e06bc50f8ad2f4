ghost use Rattle.std.specs.Prelude.{◌≡◌};

use nuc_base::NoMemory;
use thiserror::Error;

/// Why there is no node of a component's configuration, in the order in which this is checked.
#[derive(Clone, Copy, Debug, PartialEq, Eq, Error)]
pub enum GetFault {
    /// The device runs no such component.
    #[error("no such component")]
    NoComponent,
    /// The pointer names nothing in its configuration.
    #[error("no such node")]
    NoNode,
    #[error("memory ran out")]
    NoMemory,
}

impl From<NoMemory> for GetFault {
    ghost use Rattle.config_cmd.specs.declared.fault.GetFault.TheVariants.{NoMemory as OutOfMemory};

    ghost from_gives = { λ _ e. e ≡ OutOfMemory };

    fn from(_: NoMemory) -> GetFault {
        GetFault::NoMemory
    }
}

/// Why a change makes no document, in the order in which this is checked.
#[derive(Clone, Copy, Debug, PartialEq, Eq, Error)]
pub enum SetFault {
    /// The device runs no such component.
    #[error("no such component")]
    NoComponent,
    /// No group requires the component: it runs because another one needs it.
    #[error("no group requires it")]
    NotListed,
    #[error("memory ran out")]
    NoMemory,
}

impl From<NoMemory> for SetFault {
    ghost use Rattle.config_cmd.specs.declared.fault.SetFault.TheVariants.{NoMemory as OutOfMemory};

    ghost from_gives = { λ _ e. e ≡ OutOfMemory };

    fn from(_: NoMemory) -> SetFault {
        SetFault::NoMemory
    }
}
