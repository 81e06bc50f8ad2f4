// What a device has of its own.
ghost use Rattle.std.specs.Prelude.{◌≡◌, ◌<◌, ◌≤◌, ◌+◌, ◌-◌, ◌^◌, [], length, map, All, IfOk, OnOk, IfErr};
ghost use Rattle.records.specs.Stored.{item_view};
ghost use Rattle.recipe_reader.specs.Members.{members, IsRising};
ghost use Rattle.recipe_reader.specs.Candidates.{IsRead, IsReadFor, IsAdded};
ghost use Rattle.library_core.specs.Sources.{source, own, kept_source, IsKept};
ghost use Rattle.library_core.specs.SoFar.{IsSoFar, IsClashOf, IsDiffering};

use crate::fault::CandidatesFault;
use crate::given_up::{give_up, name_of};
use nuc_base::{Copied, List, NoMemory, Platform};
use recipe_reader::{AddRefusal, Candidate, Candidates, Recipe, RecipeFault};
use records::{Item, Origin};
use std::alloc::Global;
use tree_core::tree_laws;

/// The fault of a recipe that reads: memory alone was wanting.
fn want_of(fault: RecipeFault) -> NoMemory
    requires { fault ≡ RecipeFault.NoMemory }
{
    match fault {
        RecipeFault::NoMemory => NoMemory,
        _ => unreachable!(),
    }
}

/// The candidate of a kept item.
fn candidate_of(alloc: Global, platform: &Platform, item: &Item) -> Result<Candidate, NoMemory>
    requires { IsKept platform.now (item_view item.now) }
    ensures read { IfOk result (IsReadFor platform.now) }
    ensures source { IfOk result (λ c. source c ≡ kept_source (item_view item.now)) }
{
    tree_laws();
    let bytes = item.recipe.copy(alloc)?;
    let recipe = match Recipe::read(alloc, item.recipe.as_slice(), platform) {
        Ok(recipe) => recipe,
        Err(fault) => return Err(want_of(fault)),
    };
    Ok(Candidate { recipe, bytes })
}

/// The refusal of a candidate that clashes with what the device has.
fn differs(refusal: AddRefusal) -> CandidatesFault
    ensures { IsClashOf refusal result }
{
    match refusal {
        AddRefusal::Clash(candidate) => {
            let (name, version) = name_of(candidate);
            CandidatesFault::RecipeDiffers(name, version)
        }
        AddRefusal::NoMemory(candidate) => give_up(candidate, CandidatesFault::NoMemory),
    }
}

/// Adds the candidate of a kept item.
fn keep(candidates: &mut Candidates, candidate: Candidate) -> Result<(), CandidatesFault>
    requires read { IsRead candidate }
    requires room { length candidates.old < 2 ^ 32 - 1 }
    ensures added { OnOk result (IsAdded candidates.old candidate candidates.new) }
    ensures rising { IsRising (members candidates.new) }
    ensures refused { IfErr result (IsDiffering candidates.old candidate) }
{
    match candidates.add(candidate) {
        Ok(()) => Ok(()),
        Err(refusal) => Err(differs(refusal)),
    }
}

/// The built-in candidate and those of the kept items, or the first that clashes with an earlier one.
pub(crate) fn own_candidates(
    alloc: Global,
    origin: &Origin,
    kept: &List<Item>,
) -> Result<Candidates, CandidatesFault>
    requires few { length kept.now ≤ 128 }
    requires read { All (IsKept origin.now.platform) (map item_view kept.now) }
    ensures so_far { IsSoFar (own origin.now (map item_view kept.now)) origin.now.platform [] result }
    ensures few { IfOk result (λ cs. length cs ≤ length kept.now + 1) }
{
    let mut candidates = Candidates::with_nucleus(alloc, &origin.nucleus)?;
    for item in kept.as_slice() {
        let candidate = candidate_of(alloc, &origin.platform, item)?;
        keep(&mut candidates, candidate)?;
    }
    Ok(candidates)
}
