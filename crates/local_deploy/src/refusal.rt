ghost use Rattle.std.specs.Prelude.{◌≡◌};

use nuc_base::{Name, NoMemory};

/// Why a request makes no document of a device, in the order in which this is checked.
#[derive(Debug, Drop)]
pub enum LocalRefusal {
    /// The least removed name that the group does not require.
    NotLocal(Name),
    /// The group would require so many components, and no more than 128 may be.
    TooManyLocal(u32),
    /// The least updated name that the group would not require.
    Unlisted(Name),
    NoMemory,
}

impl From<NoMemory> for LocalRefusal {
    ghost use Rattle.local_deploy.specs.declared.refusal.LocalRefusal.TheVariants.{NoMemory as OutOfMemory};

    ghost from_gives = { λ _ e. e ≡ OutOfMemory };

    fn from(_: NoMemory) -> LocalRefusal {
        LocalRefusal::NoMemory
    }
}
