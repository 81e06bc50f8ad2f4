ghost use Rattle.std.specs.Prelude.{◌≡◌};

use crate::library::LibraryFault;
use npm_ranges::Version;
use nuc_base::{Name, NoMemory};
use recipe_reader::RecipeFault;

/// Why there are no candidates.
#[derive(Debug, Drop)]
pub enum CandidatesFault {
    /// The library failed.
    Library,
    /// It has so many recipes, more than 1,024.
    TooManyRecipes(u32),
    /// The recipe at this index has this fault.
    Recipe(u32, RecipeFault),
    /// A recipe of this name and version has other bytes than one that the device keeps.
    RecipeDiffers(Name, Version),
    /// Two recipes of the library have this name and version, and different bytes.
    TwoRecipes(Name, Version),
    NoMemory,
}

impl From<NoMemory> for CandidatesFault {
    ghost use Rattle.library_core.specs.declared.fault.CandidatesFault.TheVariants.{NoMemory as OutOfMemory};

    ghost from_gives = { λ _ e. e ≡ OutOfMemory };

    fn from(_: NoMemory) -> CandidatesFault {
        CandidatesFault::NoMemory
    }
}

impl From<LibraryFault> for CandidatesFault {
    ghost use Rattle.library_core.specs.Faults.{fault_of};

    ghost from_gives = { λ f e. e ≡ fault_of f };

    fn from(fault: LibraryFault) -> CandidatesFault {
        match fault {
            LibraryFault::Failed => CandidatesFault::Library,
            LibraryFault::NoMemory => CandidatesFault::NoMemory,
        }
    }
}
