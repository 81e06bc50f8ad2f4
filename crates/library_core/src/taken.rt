// What a library's recipe is to a device.
ghost use Rattle.std.specs.Prelude.{◌≡◌, ◌<◌, ◌≤◌, ◌⊎◌, ◌↔◌, ◌+◌, ◌-◌, ◌^◌, ◌++◌, ◌∷◌, [], ℕ, List, IsTrue, length, map, take, IfOk, IfErr, ◌≢◌, MatchResult};
ghost use Rattle.std.specs.List.{list_any};
ghost use Rattle.nuc_base.specs.declared.platform.Platform.{Platform};
ghost use Rattle.records.specs.Stored.{item_view};
ghost use Rattle.recipe_reader.specs.Candidates.{IsRead, nucleus_name};
ghost use Rattle.library_core.specs.Library.{most_given};
ghost use Rattle.library_core.specs.Sources.{own, MayPass};
ghost use Rattle.library_core.specs.SoFar.{IsSoFar, IsOther, is_of, IsUnread, IsSifted, IsRefusedAtOnce, IsJoined, IsRefusal, IsClashFault, IsStopped};

use crate::fault::CandidatesFault;
use crate::given_up::{give_up, name_of};
use nuc_base::{Bytes, List, Platform};
use recipe_reader::{AddRefusal, Candidate, Candidates, Recipe, RecipeFault};
use records::{Item, Origin};
use std::alloc::Global;
use tree_core::tree_laws;

fn is_nucleus(recipe: &Recipe) -> bool
    ensures { IsTrue result ↔ (recipe.now.name ≡ nucleus_name) }
{
    recipe.name.as_str() == "aws.greengrass.Nucleus"
}

/// No candidate where the recipe is for other platforms alone. Any other fault stays.
fn unread(fault: RecipeFault) -> Result<Option<Candidate>, RecipeFault>
    ensures { IsUnread fault result }
{
    match fault {
        RecipeFault::NoManifest => Ok(None),
        fault => Err(fault),
    }
}

/// The candidate of a recipe that is for the platform and not of the built-in component's name. None of any other.
fn sift(alloc: Global, platform: &Platform, bytes: Bytes) -> Result<Option<Candidate>, RecipeFault>
    ensures { IsSifted platform.now bytes result }
{
    let recipe = match Recipe::read(alloc, bytes.as_slice(), platform) {
        Ok(recipe) => recipe,
        Err(fault) => return unread(fault),
    };
    if is_nucleus(&recipe) {
        return Ok(None);
    }
    Ok(Some(Candidate { recipe, bytes }))
}

fn is_item_of(item: &Item, candidate: &Candidate) -> bool
    ensures { result ≡ is_of candidate.now (item_view item.now) }
{
    item.name == candidate.recipe.name && item.version == candidate.recipe.version
}

/// Whether a kept item has the candidate's name and version.
fn keeps(kept: &[Item], candidate: &Candidate) -> bool
    ensures { result ≡ list_any (λ item. is_of candidate.now (item_view item)) kept.now }
{
    for item in kept {
        if is_item_of(item, candidate) {
            return true;
        }
    }
    false
}

fn clash_of(kept: &[Item], candidate: Candidate) -> CandidatesFault
    ensures { IsClashFault (map item_view kept.now) candidate result }
{
    let is_kept = keeps(kept, &candidate);
    let (name, version) = name_of(candidate);
    if is_kept {
        CandidatesFault::RecipeDiffers(name, version)
    } else {
        CandidatesFault::TwoRecipes(name, version)
    }
}

/// The refusal of a recipe that clashes: with what the device keeps, or with an earlier recipe alone.
fn refusal_of(kept: &[Item], refusal: AddRefusal) -> CandidatesFault
    ensures { IsRefusal (map item_view kept.now) refusal result }
{
    match refusal {
        AddRefusal::Clash(candidate) => clash_of(kept, candidate),
        AddRefusal::NoMemory(candidate) => give_up(candidate, CandidatesFault::NoMemory),
    }
}

/// Adds a candidate to those gathered so far. Where a clash was found already, that stays.
fn join(
    kept: &[Item],
    candidate: Candidate,
    gathered: Result<Candidates, CandidatesFault>,
) -> Result<Candidates, CandidatesFault>
    requires read { IsRead candidate }
    requires room { IfOk gathered (λ cs. length cs < 2 ^ 32 - 1) }
    ensures { IsJoined (map item_view kept.now) candidate gathered result }
{
    let mut candidates = match gathered {
        Ok(candidates) => candidates,
        Err(fault) => return Err(give_up(candidate, fault)),
    };
    match candidates.add(candidate) {
        Ok(()) => Ok(candidates),
        Err(refusal) => Err(refusal_of(kept, refusal)),
    }
}

/// The refusal of a recipe with a fault.
fn stopped(at: u32, fault: RecipeFault) -> CandidatesFault
    ensures { IsStopped at fault result }
{
    match fault {
        RecipeFault::NoMemory => CandidatesFault::NoMemory,
        fault => CandidatesFault::Recipe(at, fault),
    }
}

/// Takes in the recipe at that index, of which the bytes, or the first of them, are given. A recipe with a fault is
/// refused at once; a clash waits until all have been read.
pub(crate) fn take_in(
    alloc: Global,
    origin: &Origin,
    kept: &List<Item>,
    at: u32,
    bytes: Bytes,
    gathered: Result<Candidates, CandidatesFault>,
) -> Result<Result<Candidates, CandidatesFault>, CandidatesFault>
    requires room { IfOk gathered (λ cs. length cs < 2 ^ 32 - 1) }
    ensures next { (b : List ℕ) → (before : List (List ℕ)) → bytes ≡ take most_given b → IsSoFar (own origin.now (map item_view kept.now)) origin.now.platform
        before gathered
        → MatchResult result
        (λ next. MayPass origin.now.platform b × IsSoFar (own origin.now (map item_view kept.now)) origin.now.platform (before ++ b ∷ []) next)
        (IsRefusedAtOnce origin.now.platform b at) }
    ensures few { (n : ℕ) → IfOk gathered (λ cs. length cs ≤ n) → IfOk result (λ next. IfOk next (λ cs. length cs ≤ n + 1)) }
    ensures held { IfErr gathered (λ f. f ≢ CandidatesFault.Library) → IfOk result (λ next. IfErr next (λ f. f ≢ CandidatesFault.Library)) }
    ensures fault { IfErr result (λ fault. fault ≢ CandidatesFault.Library) }
{
    tree_laws();
    match sift(alloc, &origin.platform, bytes) {
        Ok(Some(candidate)) => Ok(join(kept.as_slice(), candidate, gathered)),
        Ok(None) => Ok(gathered),
        Err(fault) => Err(stopped(at, fault)),
    }
}
