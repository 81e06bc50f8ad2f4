//! What a search allows itself.

ghost use Rattle.std.specs.Prelude.{◌≡◌, ◌≤◌, ◌<◌, Err, OnOk};
ghost use Rattle.conflict_search.specs.declared.budget.Stop.TheVariants as stop;

use nuc_base::NoMemory;
use std::alloc::AllocError;

/// Why a search gives up.
#[derive(Debug, Drop)]
pub(crate) enum Stop {
    /// Memory was refused.
    Refused,
    /// All of its work is spent.
    Spent,
}

impl From<NoMemory> for Stop {
    ghost from_gives = { λ _ e. e ≡ stop.Refused };

    fn from(_: NoMemory) -> Stop {
        Stop::Refused
    }
}

impl From<AllocError> for Stop {
    ghost from_gives = { λ _ e. e ≡ stop.Refused };

    fn from(_: AllocError) -> Stop {
        Stop::Refused
    }
}

/// Takes so much of what is left.
pub(crate) fn spend(left: &mut u64, steps: u64) -> Result<(), Stop>
    ensures falls { left.new ≤ left.old }
    ensures some { OnOk result (1 ≤ steps → left.new < left.old) }
    ensures spent { result ≡ Err Stop.Spent → left.new ≡ 0 }
{
    if *left < steps {
        *left = 0;
        return Err(Stop::Spent);
    }
    *left -= steps;
    Ok(())
}
