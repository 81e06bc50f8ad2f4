//! Whether a chosen set of a large library is valid, by the definition.

use npm_ranges::Range;
use nuc_base::Name;
use recipe_reader::{Candidate, Dependency, Wanted};
use std::alloc::{AllocError, Global};

fn at(candidates: &[Candidate], place: u32) -> Option<&Candidate> {
    candidates.get(place as usize)
}

fn needs_of(candidates: &[Candidate], place: u32) -> &[Dependency] {
    match at(candidates, place) {
        Some(candidate) => candidate.recipe.dependencies.as_slice(),
        None => &[],
    }
}

/// The member of that name.
fn named(candidates: &[Candidate], set: &[u32], name: &Name) -> Option<u32> {
    for place in set {
        if let Some(candidate) = at(candidates, *place) {
            if candidate.recipe.name == *name {
                return Some(*place);
            }
        }
    }
    None
}

/// A member has the name, and a version in the range.
fn is_met(candidates: &[Candidate], set: &[u32], name: &Name, range: &Range) -> bool {
    match named(candidates, set, name) {
        Some(place) => match at(candidates, place) {
            Some(candidate) => range.holds(&candidate.recipe.version),
            None => false,
        },
        None => false,
    }
}

fn are_met(candidates: &[Candidate], set: &[u32], place: u32) -> bool {
    for need in needs_of(candidates, place) {
        if !is_met(candidates, set, &need.name, &need.range) {
            return false;
        }
    }
    true
}

/// The member is the only one of its name, and what it needs is met.
fn holds(candidates: &[Candidate], set: &[u32], place: u32) -> bool {
    match at(candidates, place) {
        Some(candidate) => {
            named(candidates, set, &candidate.recipe.name) == Some(place)
                && are_met(candidates, set, place)
        }
        None => false,
    }
}

/// One of the members needs the name.
fn is_needed(candidates: &[Candidate], by: &[u32], name: &Name) -> bool {
    for place in by {
        for need in needs_of(candidates, *place) {
            if need.name == *name {
                return true;
            }
        }
    }
    false
}

/// Those that one of them needs.
fn needed_of(
    alloc: Global,
    candidates: &[Candidate],
    some: &[u32],
) -> Result<Vec<u32>, AllocError> {
    let mut needed = Vec::new(alloc);
    for place in some {
        if let Some(candidate) = at(candidates, *place) {
            if is_needed(candidates, some, &candidate.recipe.name) {
                needed.push(*place)?;
            }
        }
    }
    Ok(needed)
}

/// No member needs itself through others: those that others need become fewer until none is left.
fn is_acyclic(alloc: Global, candidates: &[Candidate], set: &[u32]) -> Result<bool, AllocError> {
    let mut left = needed_of(alloc, candidates, set)?;
    for _member in set {
        left = needed_of(alloc, candidates, left.as_slice())?;
    }
    Ok(left.is_empty())
}

/// The member is wanted, or another needs it. Where there is no cycle that leads back to one that is wanted.
fn is_reached(candidates: &[Candidate], wanted: &[Wanted], set: &[u32], place: u32) -> bool {
    match at(candidates, place) {
        Some(candidate) => {
            let name = &candidate.recipe.name;
            wanted
                .iter()
                .any(|one: &Wanted| -> bool { one.name == *name })
                || is_needed(candidates, set, name)
        }
        None => false,
    }
}

pub fn is_valid(
    alloc: Global,
    candidates: &[Candidate],
    wanted: &[Wanted],
    set: &[u32],
) -> Result<bool, AllocError> {
    for one in wanted {
        if !is_met(candidates, set, &one.name, &one.range) {
            return Ok(false);
        }
    }
    for place in set {
        if !holds(candidates, set, *place) || !is_reached(candidates, wanted, set, *place) {
            return Ok(false);
        }
    }
    is_acyclic(alloc, candidates, set)
}
