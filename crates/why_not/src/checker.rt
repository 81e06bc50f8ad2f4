//! Whether a certificate stands.

ghost use Rattle.std.specs.Prelude.{◌≡◌, ◌↔◌, ◌<◌, ◌^◌, ℕ, List, [], Some, IsTrue, IsFalse, IfOk, OnOk, map, length};
ghost use Rattle.std.specs.List.{Contains};
ghost use Rattle.std.specs.List.Sorted.{IsStrictlyIncreasing};
ghost use Rattle.recipe_reader.specs.Members.{members};
ghost use Rattle.recipe_reader.specs.Sets.{asked, name_of, required_names};
ghost use Rattle.why_not.specs.Reasons.{seen, branches_seen, refused};
ghost use Rattle.why_not.specs.Certificates.{IsOpen, AreAllOf, IsLoop, IsCertified, AreCertified, AreChained};

use crate::facts::{
    asking, depends_on, is_named, is_wanted, needs_against, needs_at, taken_of, wanted_against,
};
use crate::why::Why;
use nuc_base::{List, Name, NoMemory};
use recipe_reader::{Candidate, Candidates, Wanted};
use std::alloc::Global;

/// The name is wanted, or a taken place depends on it.
fn is_required(candidates: &[Candidate], wanted: &[Wanted], taken: &[u32], name: &Name) -> bool
    ensures yes { IsTrue result → Contains (required_names (members candidates.now) (asked wanted.now) taken.now) name.now }
    ensures no { IsFalse result → Contains (required_names (members candidates.now) (asked wanted.now) taken.now) name.now → ⊥ }
{
    if is_wanted(wanted, name) {
        return true;
    }
    match asking(candidates, taken, name) {
        Some(_place) => true,
        None => false,
    }
}

/// The name is required, and no place of it is taken.
fn is_open(candidates: &[Candidate], wanted: &[Wanted], taken: &[u32], name: &Name) -> bool
    ensures yes { IsTrue result → IsOpen (members candidates.now) (asked wanted.now) taken.now name.now }
    ensures no { IsFalse result → IsOpen (members candidates.now) (asked wanted.now) taken.now name.now → ⊥ }
{
    match taken_of(candidates, taken, name) {
        Some(_place) => false,
        None => is_required(candidates, wanted, taken, name),
    }
}

/// Each is below the next.
fn is_rising(places: &[u32]) -> bool
    ensures { IsTrue result ↔ IsStrictlyIncreasing places.now }
{
    for i in 1..places.len() {
        if places[i - 1] >= places[i] {
            return false;
        }
    }
    true
}

/// Each of the places is of the name.
fn are_named(candidates: &[Candidate], name: &Name, places: &[u32]) -> bool
    ensures yes { IsTrue result → (p : ℕ) → Contains places.now p → name_of (members candidates.now) p ≡ Some name.now }
    ensures no { IsFalse result → ((p : ℕ) → Contains places.now p → name_of (members candidates.now) p ≡ Some name.now) → ⊥ }
{
    for place in places {
        if !is_named(candidates, *place, name) {
            return false;
        }
    }
    true
}

/// Each candidate of the name is among the places.
fn has_all(candidates: &[Candidate], name: &Name, places: &[u32]) -> bool
    requires count { length candidates.now < 2 ^ 32 }
    ensures yes { IsTrue result → (p : ℕ) → name_of (members candidates.now) p ≡ Some name.now → Contains places.now p }
    ensures no { IsFalse result → ((p : ℕ) → name_of (members candidates.now) p ≡ Some name.now → Contains places.now p) → ⊥ }
{
    for i in 0..candidates.len() {
        let place = i as u32;
        if is_named(candidates, place, name) && !places.contains(&place) {
            return false;
        }
    }
    true
}

fn are_all_of(candidates: &[Candidate], name: &Name, places: &[u32]) -> bool
    requires count { length candidates.now < 2 ^ 32 }
    ensures { IsTrue result ↔ AreAllOf (members candidates.now) name.now places.now }
{
    is_rising(places) && are_named(candidates, name, places) && has_all(candidates, name, places)
}

fn places_of(alloc: Global, branches: &[(u32, Why)]) -> Result<Vec<u32>, NoMemory>
    ensures { IfOk result (λ places. places.items ≡ map (λ b. b.0) branches.now) }
{
    let mut places = Vec::with_capacity(alloc, branches.len())?;
    for (place, _why) in branches {
        places.push(*place)?;
    }
    Ok(places)
}

fn is_refused(
    candidates: &[Candidate],
    wanted: &[Wanted],
    taken: &[u32],
    place: u32,
    by: Option<u32>,
) -> bool
    ensures { IsTrue result ↔ IsCertified (members candidates.now) (asked wanted.now) taken.now (refused place by) }
{
    if !taken.contains(&place) {
        return false;
    }
    match by {
        None => wanted_against(candidates, wanted, place),
        Some(other) => {
            taken.contains(&other) && needs_against(candidates, needs_at(candidates, other), place)
        }
    }
}

pub(crate) fn has(places: &[u32], place: u32) -> bool
    ensures { IsTrue result ↔ Contains places.now place }
{
    places.contains(&place)
}

fn are_among(places: &[u32], taken: &[u32]) -> bool
    ensures yes { IsTrue result → (x : ℕ) → Contains places.now x → Contains taken.now x }
    ensures no { IsFalse result → ((x : ℕ) → Contains places.now x → Contains taken.now x) → ⊥ }
{
    for place in places {
        if !has(taken, *place) {
            return false;
        }
    }
    true
}

/// From the place over the others and back to first each depends on the next.
fn is_chained(candidates: &[Candidate], place: u32, others: &[u32], first: u32) -> bool
    ensures { IsTrue result ↔ AreChained (members candidates.now) place others.now first }
{
    let mut last = place;
    for other in others {
        if !depends_on(candidates, last, *other) {
            return false;
        }
        last = *other;
    }
    depends_on(candidates, last, first)
}

fn is_loop(candidates: &[Candidate], taken: &[u32], places: &[u32]) -> bool
    ensures { IsTrue result ↔ ((x : ℕ) → Contains places.now x → Contains taken.now x) × IsLoop (members candidates.now) places.now }
{
    if places.is_empty() {
        return false;
    }
    are_among(places, taken) && is_chained(candidates, places[0], &places[1..], places[0])
}

/// The certificate stands for the places that are taken. They are again the same behind it.
#[cycle(certified)]
fn is_certified(
    alloc: Global,
    candidates: &[Candidate],
    wanted: &[Wanted],
    taken: &mut Vec<u32>,
    why: &Why,
) -> Result<bool, NoMemory>
    requires count { length candidates.now < 2 ^ 32 }
    ensures yes { IfOk result (λ yes. IsTrue yes ↔ IsCertified (members candidates.now) (asked wanted.now) taken.old.items (seen why.now)) }
    ensures same { OnOk result (taken.new.items ≡ taken.old.items) }
{
    match why {
        Why::Split(name, branches) => {
            if !is_open(candidates, wanted, taken.as_slice(), name) {
                return Ok(false);
            }
            let places = places_of(alloc, branches.as_slice())?;
            if !are_all_of(candidates, name, places.as_slice()) {
                return Ok(false);
            }
            are_certified(alloc, candidates, wanted, taken, branches)
        }
        Why::Refused(place, by) => {
            Ok(is_refused(candidates, wanted, taken.as_slice(), *place, *by))
        }
        Why::Loop(places) => Ok(is_loop(candidates, taken.as_slice(), places.as_slice())),
    }
}

#[cycle(certified)]
fn are_certified(
    alloc: Global,
    candidates: &[Candidate],
    wanted: &[Wanted],
    taken: &mut Vec<u32>,
    branches: &Vec<(u32, Why)>,
) -> Result<bool, NoMemory>
    requires count { length candidates.now < 2 ^ 32 }
    ensures yes { IfOk result (λ yes. IsTrue yes ↔ AreCertified (members candidates.now) (asked wanted.now) taken.old.items
        (branches_seen branches.now.items)) }
    ensures same { OnOk result (taken.new.items ≡ taken.old.items) }
{
    for (place, why) in branches {
        taken.push(*place)?;
        let stands = is_certified(alloc, candidates, wanted, taken, why)?;
        taken.pop();
        if !stands {
            return Ok(false);
        }
    }
    Ok(true)
}

/// Whether the certificate stands for no taken place. Then no set is valid.
pub fn check(
    alloc: Global,
    candidates: &Candidates,
    wanted: &List<Wanted>,
    why: &Why,
) -> Result<bool, NoMemory>
    ensures { IfOk result (λ yes. IsTrue yes ↔ IsCertified (members candidates.now) (asked wanted.now) [] (seen why.now)) }
{
    let mut taken = Vec::new(alloc);
    is_certified(
        alloc,
        candidates.list().as_slice(),
        wanted.as_slice(),
        &mut taken,
        why,
    )
}
