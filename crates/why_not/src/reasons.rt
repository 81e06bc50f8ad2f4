//! The first reason against a candidate beside those that are taken.

ghost use Rattle.std.specs.Prelude.{◌≡◌, ◌<◌, ◌^◌, ℕ, [], ◌∷◌, ◌++◌, length, IfOk, IfSome, MatchOption};
ghost use Rattle.std.specs.List.{Contains};
ghost use Rattle.recipe_reader.specs.Members.{members};
ghost use Rattle.recipe_reader.specs.Sets.{asked, needs_of};
ghost use Rattle.recipe_reader.specs.Searches.{IsSuited};
ghost use Rattle.why_not.specs.Reasons.{seen};
ghost use Rattle.why_not.specs.Certificates.{RestsOn};
ghost use Rattle.why_not.specs.Edges.{HasNoLoop};
ghost use Rattle.why_not.specs.Ends.{HasNoRange, FitsWith};
ghost use Rattle.why_not.specs.Plain.{IsFirstAgainst, IsFirstRefusedBy, IsFirstLeaf};

use crate::facts::{needs_against, needs_at, wanted_against};
use crate::loops::loop_with;
use crate::why::Why;
use nuc_base::NoMemory;
use recipe_reader::{Candidate, Wanted};
use std::alloc::Global;

/// A certificate, and the taken places that it rests on.
#[derive(Drop)]
pub(crate) struct Partial {
    pub(crate) why: Why,
    pub(crate) used: Vec<u32>,
}

/// The first taken place whose range refuses the place.
pub(crate) fn first_against(candidates: &[Candidate], taken: &[u32], place: u32) -> Option<u32>
    ensures { MatchOption result
        ((q : ℕ) → Contains taken.now q → IsSuited (members candidates.now) (needs_of (members candidates.now) q) place)
        (IsFirstAgainst (members candidates.now) taken.now place) }
{
    for other in taken {
        if needs_against(candidates, needs_at(candidates, *other), place) {
            return Some(*other);
        }
    }
    None
}

/// The first taken place that the place's own range refuses.
fn first_unfit(candidates: &[Candidate], taken: &[u32], place: u32) -> Option<u32>
    ensures { MatchOption result
        ((q : ℕ) → Contains taken.now q → IsSuited (members candidates.now) (needs_of (members candidates.now) place) q)
        (IsFirstRefusedBy (members candidates.now) taken.now place) }
{
    for other in taken {
        if needs_against(candidates, needs_at(candidates, place), *other) {
            return Some(*other);
        }
    }
    None
}

pub(crate) fn alone(alloc: Global, place: u32) -> Result<Vec<u32>, NoMemory>
    ensures { IfOk result (λ places. places.items ≡ place ∷ []) }
{
    let mut places = Vec::new(alloc);
    places.push(place)?;
    Ok(places)
}

fn pair(alloc: Global, place: u32, other: u32) -> Result<Vec<u32>, NoMemory>
    ensures { IfOk result (λ places. places.items ≡ place ∷ other ∷ []) }
{
    let mut places = Vec::new(alloc);
    places.push(place)?;
    places.push(other)?;
    Ok(places)
}

fn copied(alloc: Global, places: &[u32]) -> Result<Vec<u32>, NoMemory>
    ensures { IfOk result (λ copy. copy.items ≡ places.now) }
{
    let mut copy = Vec::with_capacity(alloc, places.len())?;
    copy.extend_from_slice(places)?;
    Ok(copy)
}

/// The first range that stands against the place beside those that are taken: a wanted one, one of a taken place in the
/// order of taking, its own on a taken one.
fn first_range(
    alloc: Global,
    candidates: &[Candidate],
    wanted: &[Wanted],
    taken: &[u32],
    place: u32,
) -> Result<Option<Partial>, NoMemory>
    ensures found { IfOk result (λ found. MatchOption found
        (HasNoRange (members candidates.now) (asked wanted.now) taken.now place)
        (λ part. RestsOn (members candidates.now) (asked wanted.now) (taken.now ++ place ∷ []) part.used.items (seen part.why))) }
    ensures first { IfOk result (λ found. IfSome found
        (λ part. IsFirstLeaf (members candidates.now) (asked wanted.now) taken.now place (seen part.why))) }
{
    if wanted_against(candidates, wanted, place) {
        return Ok(Some(Partial {
            why: Why::Refused(place, None),
            used: alone(alloc, place)?,
        }));
    }
    if let Some(other) = first_against(candidates, taken, place) {
        return Ok(Some(Partial {
            why: Why::Refused(place, Some(other)),
            used: pair(alloc, place, other)?,
        }));
    }
    if let Some(other) = first_unfit(candidates, taken, place) {
        return Ok(Some(Partial {
            why: Why::Refused(other, Some(place)),
            used: pair(alloc, other, place)?,
        }));
    }
    Ok(None)
}

/// What stands against the place beside those that are taken: the first range, or else a loop.
pub(crate) fn against(
    alloc: Global,
    candidates: &[Candidate],
    wanted: &[Wanted],
    taken: &[u32],
    place: u32,
) -> Result<Option<Partial>, NoMemory>
    requires count { length candidates.now < 2 ^ 32 }
    requires acyclic { HasNoLoop (members candidates.now) taken.now }
    ensures found { IfOk result (λ found. MatchOption found
        (FitsWith (members candidates.now) (asked wanted.now) taken.now place)
        (λ part. RestsOn (members candidates.now) (asked wanted.now) (taken.now ++ place ∷ []) part.used.items (seen part.why))) }
    ensures first { IfOk result (λ found. IfSome found
        (λ part. IsFirstLeaf (members candidates.now) (asked wanted.now) taken.now place (seen part.why))) }
{
    if let Some(part) = first_range(alloc, candidates, wanted, taken, place)? {
        return Ok(Some(part));
    }
    match loop_with(alloc, candidates, taken, place)? {
        Some(places) => {
            let used = copied(alloc, places.as_slice())?;
            Ok(Some(Partial {
                why: Why::Loop(places),
                used,
            }))
        }
        None => Ok(None),
    }
}
