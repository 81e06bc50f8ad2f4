//! What a checker of certificates looks up. Numbers that are no places are met here too.

ghost use Rattle.std.specs.Prelude.{◌≡◌, ◌↔◌, ℕ, Some, None, IsTrue, IsFalse, MatchOption, map};
ghost use Rattle.std.specs.List.{Contains};
ghost use Rattle.recipe_reader.specs.Members.{members, need};
ghost use Rattle.recipe_reader.specs.Sets.{asked, name_of, needs_of, IsMetBy};
ghost use Rattle.recipe_reader.specs.Searches.{IsSuited};
ghost use Rattle.why_not.specs.Certificates.{IsAgainst, AsksFor, DependsOn};

use npm_ranges::Range;
use nuc_base::Name;
use recipe_reader::{Candidate, Dependency, Wanted};

pub(crate) fn is_same(name: &Name, other: &Name) -> bool
    ensures { IsTrue result ↔ (name.now ≡ other.now) }
{
    name.as_bytes() == other.as_bytes()
}

/// The candidate with that number is of the name.
pub(crate) fn is_named(candidates: &[Candidate], place: u32, name: &Name) -> bool
    ensures { IsTrue result ↔ (name_of (members candidates.now) place ≡ Some name.now) }
{
    match candidates.get(place as usize) {
        Some(candidate) => is_same(&candidate.recipe.name, name),
        None => false,
    }
}

/// A place of the name among those that are taken.
pub(crate) fn taken_of(candidates: &[Candidate], taken: &[u32], name: &Name) -> Option<u32>
    ensures { MatchOption result
        ((p : ℕ) → Contains taken.now p → name_of (members candidates.now) p ≡ Some name.now → ⊥)
        (λ p. Contains taken.now p × (name_of (members candidates.now) p ≡ Some name.now)) }
{
    for place in taken {
        if is_named(candidates, *place, name) {
            return Some(*place);
        }
    }
    None
}

/// The candidate with that number is of the name, and not in the range.
fn refuses(candidates: &[Candidate], name: &Name, range: &Range, place: u32) -> bool
    ensures yes { IsTrue result → (name_of (members candidates.now) place ≡ Some name.now) × (IsMetBy (members candidates.now) name.now range.now place → ⊥) }
    ensures fits { IsFalse result → name_of (members candidates.now) place ≡ Some name.now → IsMetBy (members candidates.now) name.now range.now place }
{
    match candidates.get(place as usize) {
        Some(candidate) => {
            is_same(&candidate.recipe.name, name) && !range.holds(&candidate.recipe.version)
        }
        None => false,
    }
}

/// A wanted range refuses the candidate with that number.
pub(crate) fn wanted_against(candidates: &[Candidate], wanted: &[Wanted], place: u32) -> bool
    ensures yes { IsTrue result → IsAgainst (members candidates.now) (asked wanted.now) place }
    ensures no { IsFalse result → IsAgainst (members candidates.now) (asked wanted.now) place → ⊥ }
    ensures fits { IsFalse result → IsSuited (members candidates.now) (asked wanted.now) place }
{
    for one in wanted {
        if refuses(candidates, &one.name, &one.range, place) {
            return true;
        }
    }
    false
}

/// What the candidate with that number depends on.
pub(crate) fn needs_at(candidates: &[Candidate], place: u32) -> &[Dependency]
    ensures { map need result.now ≡ needs_of (members candidates.now) place }
{
    match candidates.get(place as usize) {
        Some(candidate) => candidate.recipe.dependencies.as_slice(),
        None => &[],
    }
}

/// One of the ranges refuses the candidate with that number.
pub(crate) fn needs_against(candidates: &[Candidate], needs: &[Dependency], place: u32) -> bool
    ensures yes { IsTrue result → IsAgainst (members candidates.now) (map need needs.now) place }
    ensures no { IsFalse result → IsAgainst (members candidates.now) (map need needs.now) place → ⊥ }
    ensures fits { IsFalse result → IsSuited (members candidates.now) (map need needs.now) place }
{
    for one in needs {
        if refuses(candidates, &one.name, &one.range, place) {
            return true;
        }
    }
    false
}

/// One of the dependencies is on the name.
pub(crate) fn asks_for(needs: &[Dependency], name: &Name) -> bool
    ensures yes { IsTrue result → AsksFor (map need needs.now) name.now }
    ensures no { IsFalse result → AsksFor (map need needs.now) name.now → ⊥ }
{
    for one in needs {
        if is_same(&one.name, name) {
            return true;
        }
    }
    false
}

/// The name is wanted.
pub(crate) fn is_wanted(wanted: &[Wanted], name: &Name) -> bool
    ensures yes { IsTrue result → AsksFor (asked wanted.now) name.now }
    ensures no { IsFalse result → AsksFor (asked wanted.now) name.now → ⊥ }
{
    for one in wanted {
        if is_same(&one.name, name) {
            return true;
        }
    }
    false
}

/// The first of the taken places that depends on the name.
pub(crate) fn asking(candidates: &[Candidate], taken: &[u32], name: &Name) -> Option<u32>
    ensures { MatchOption result
        ((p : ℕ) → Contains taken.now p → AsksFor (needs_of (members candidates.now) p) name.now → ⊥)
        (λ p. Contains taken.now p × AsksFor (needs_of (members candidates.now) p) name.now) }
{
    for place in taken {
        if asks_for(needs_at(candidates, *place), name) {
            return Some(*place);
        }
    }
    None
}

/// The first candidate depends on the name of the second.
pub(crate) fn depends_on(candidates: &[Candidate], place: u32, other: u32) -> bool
    ensures yes { IsTrue result → DependsOn (members candidates.now) place other }
    ensures no { IsFalse result → DependsOn (members candidates.now) place other → ⊥ }
{
    match candidates.get(other as usize) {
        Some(candidate) => asks_for(needs_at(candidates, place), &candidate.recipe.name),
        None => false,
    }
}
