//! The search, without its count of tries.

ghost use Rattle.std.specs.Prelude.{◌≡◌, ℕ, List, Err, IfOk};
ghost use Rattle.recipe_reader.specs.Members.{members};
ghost use Rattle.recipe_reader.specs.Sets.{asked, IsPreferred, IsValid};

use conflict_search::{SearchFault, search};
use nuc_base::List;
use recipe_reader::{Candidates, Wanted};
use std::alloc::Global;

/// Why no set was chosen.
#[derive(Debug, Drop)]
pub enum ResolveFault {
    /// No set of the candidates is valid.
    NoVersion,
    NoMemory,
}

/// The preferred valid set of the candidates for what is wanted, as places in their list, rising. `NoVersion` comes exactly
/// where no set is valid, and `NoMemory` where memory was refused or the search used up what it allows itself.
///
/// A set has one version of a name at most, meets each wanted range and each range that a member depends on, softly or hard,
/// has nothing that is not needed, and has no cycle of dependencies. The preferred one takes again and again the least
/// required name, in byte order, and has its greatest version that leads to an end.
///
/// The time grows with what is wanted and with the dependencies of the candidates that can be reached. Where names clash it may
/// grow exponentially, up to what the search allows itself.
pub fn resolve(
    alloc: Global,
    candidates: &Candidates,
    wanted: &List<Wanted>,
) -> Result<List<u32>, ResolveFault>
    ensures preferred { IfOk result (λ set. IsPreferred (members candidates.now) (asked wanted.now) set) }
    ensures none { result ≡ Err ResolveFault.NoVersion → (s : List ℕ) → IsValid (members candidates.now) (asked wanted.now) s → ⊥ }
{
    let mut tries = 0;
    match search(alloc, candidates, wanted, &mut tries) {
        Ok(set) => Ok(set),
        Err(SearchFault::NoVersion) => Err(ResolveFault::NoVersion),
        Err(SearchFault::NoMemory) => Err(ResolveFault::NoMemory),
    }
}
