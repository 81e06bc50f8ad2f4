//! Whether a place stands with the decided ones, cycles aside.

ghost use Rattle.std.specs.Prelude.{◌≡◌, ◌<◌, ◌↔◌, ◌^◌, ◌⊎◌, ℕ, Some, None, length, slice_index_or, IfOk, MatchOption};
ghost use Rattle.std.specs.List.{Contains};
ghost use Rattle.npm_ranges.specs.Ranges.{IsInRange};
ghost use Rattle.recipe_reader.specs.Members.{IsRising};
ghost use Rattle.recipe_reader.specs.Sets.{needs_of};
ghost use Rattle.recipe_reader.specs.Searches.{IsSuited};
ghost use Rattle.conflict_search.specs.Numbers.{IsNumberAt};
ghost use Rattle.conflict_search.specs.Claims.{claims_from, AreDemands};
ghost use Rattle.conflict_search.specs.Conflicts.{IsConflictWith, IsInRangeWith};
ghost use Rattle.conflict_search.specs.Boards.{IsBoard};
ghost use Rattle.conflict_search.specs.Stands.{members_in, wanted_in, IsTrial, IsMetIn};

use crate::board::Board;
use crate::demands::{Demand, demands_of};
use crate::library::Library;
use crate::places::version_at;
use npm_ranges::Version;
use nuc_base::NoMemory;
use std::alloc::Global;

/// What trying a place says.
#[derive(Drop)]
pub(crate) enum Trial<'a> {
    /// It stands with the decided places, and asks for that.
    Fits(Vec<Demand<'a>>),
    /// These places, among the decided ones and it, cannot stand together.
    Refused(Vec<u32>),
}

/// The first demand that the version does not meet.
fn first_refusing<'a>(row: &[Demand<'a>], version: &Version) -> Option<Demand<'a>>
    ensures { MatchOption result
        ((d : Demand) → Contains row.now d → IsInRange version.now d.range.now)
        (λ d. Contains row.now d × (IsInRange version.now d.range.now → ⊥)) }
{
    for demand in row {
        if !demand.range.holds(version) {
            return Some(*demand);
        }
    }
    None
}

/// The place, and the one that stands against it where that is one.
fn pair(alloc: Global, from: Option<u32>, place: u32) -> Result<Vec<u32>, NoMemory>
    ensures { IfOk result (λ both. (x : ℕ) → Contains both.items x ↔ (place ≡ x) ⊎ (from ≡ Some x)) }
{
    let mut both = Vec::new(alloc);
    both.push(place)?;
    if let Some(other) = from {
        both.push(other)?;
    }
    Ok(both)
}

impl<'a> Library<'a> {
    /// Why the place is refused by what is asked of its name. The one that was decided first is blamed.
    fn asked_against(
        &self,
        board: &Board,
        number: u32,
        place: u32,
    ) -> Result<Option<Vec<u32>>, NoMemory>
        requires board { IsBoard (members_in self.now) (wanted_in self.now) board.now }
        requires number { IsNumberAt (members_in self.now) place number }
        ensures { IfOk result (λ found. MatchOption found
            (IsSuited (members_in self.now) (wanted_in self.now) place
            × ((q : ℕ) → Contains board.now.places.items q → IsSuited (members_in self.now) (needs_of (members_in self.now) q) place))
            (λ conflict. IsConflictWith (members_in self.now) (wanted_in self.now) board.now.places.items place conflict.items)) }
    {
        match first_refusing(board.row(number), version_at(self.candidates, place)) {
            Some(demand) => Ok(Some(pair(self.alloc, demand.from, place)?)),
            None => Ok(None),
        }
    }

    /// A decided place that is not in the range that one of the demands has for its name.
    fn first_unfit(&self, board: &Board, demands: &[Demand]) -> Option<u32>
        requires board { IsBoard (members_in self.now) (wanted_in self.now) board.now }
        ensures { MatchOption result
            ((d : Demand) (q : ℕ) → Contains demands.now d → (slice_index_or board.now.chosen.items d.number None ≡ Some q)
            → IsMetIn (members_in self.now) d.range.now q)
            (λ q. (d : Demand) × Contains demands.now d × (slice_index_or board.now.chosen.items d.number None ≡ Some q)
            × (IsMetIn (members_in self.now) d.range.now q → ⊥)) }
    {
        for demand in demands {
            if let Some(chosen) = board.chosen_of(demand.number) {
                if !demand.range.holds(version_at(self.candidates, chosen)) {
                    return Some(chosen);
                }
            }
        }
        None
    }

    /// Why the place is refused by what it asks of decided places.
    fn needs_against(
        &self,
        board: &Board,
        place: u32,
        demands: &[Demand],
    ) -> Result<Option<Vec<u32>>, NoMemory>
        requires board { IsBoard (members_in self.now) (wanted_in self.now) board.now }
        requires demands { AreDemands (members_in self.now) (claims_from (Some place) (needs_of (members_in self.now) place)) demands.now }
        ensures { IfOk result (λ found. MatchOption found
            ((q : ℕ) → Contains board.now.places.items q → IsSuited (members_in self.now) (needs_of (members_in self.now) place) q)
            (λ conflict. IsConflictWith (members_in self.now) (wanted_in self.now) board.now.places.items place conflict.items)) }
    {
        match self.first_unfit(board, demands) {
            Some(unfit) => Ok(Some(pair(self.alloc, Some(unfit), place)?)),
            None => Ok(None),
        }
    }

    /// Tries the place by what it asks for, where what is asked of it holds.
    fn try_needs(&self, board: &Board, place: u32) -> Result<Trial<'a>, NoMemory>
        requires count { length self.now.candidates.now < 2 ^ 32 }
        requires rising { IsRising (members_in self.now) }
        requires board { IsBoard (members_in self.now) (wanted_in self.now) board.now }
        requires place { place < length self.now.candidates.now }
        requires wanted { IsSuited (members_in self.now) (wanted_in self.now) place }
        requires asked { (q : ℕ) → Contains board.now.places.items q → IsSuited (members_in self.now) (needs_of (members_in self.now) q) place }
        ensures { IfOk result (IsTrial (members_in self.now) (wanted_in self.now) board.now.places.items place) }
    {
        let Some(demands) = demands_of(self.alloc, self.candidates, place)? else {
            return Ok(Trial::Refused(pair(self.alloc, None, place)?));
        };
        match self.needs_against(board, place, demands.as_slice())? {
            Some(conflict) => Ok(Trial::Refused(conflict)),
            None => Ok(Trial::Fits(demands)),
        }
    }

    /// Tries a version of the name with that number.
    pub(crate) fn try_place(
        &self,
        board: &Board,
        number: u32,
        place: u32,
    ) -> Result<Trial<'a>, NoMemory>
        requires count { length self.now.candidates.now < 2 ^ 32 }
        requires rising { IsRising (members_in self.now) }
        requires board { IsBoard (members_in self.now) (wanted_in self.now) board.now }
        requires number { IsNumberAt (members_in self.now) place number }
        ensures { IfOk result (IsTrial (members_in self.now) (wanted_in self.now) board.now.places.items place) }
    {
        if let Some(conflict) = self.asked_against(board, number, place)? {
            return Ok(Trial::Refused(conflict));
        }
        self.try_needs(board, place)
    }
}
