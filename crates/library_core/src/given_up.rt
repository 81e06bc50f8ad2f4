// Candidates that are given up.
ghost use Rattle.std.specs.Prelude.{◌≡◌};

use crate::fault::CandidatesFault;
use npm_ranges::Version;
use nuc_base::Name;
use recipe_reader::Candidate;

/// Its name and version.
pub(crate) fn name_of(candidate: Candidate) -> (Name, Version)
    ensures name { result.0 ≡ candidate.recipe.name }
    ensures version { result.1 ≡ candidate.recipe.version }
{
    let recipe = candidate.recipe;
    (recipe.name, recipe.version)
}

/// Drops a candidate for a fault.
pub(crate) fn give_up(_candidate: Candidate, fault: CandidatesFault) -> CandidatesFault
    ensures { result ≡ fault }
{
    fault
}
