//! Drafts of nogoods: of each name a set of values. A name of which all values are in its set takes no part.

ghost use Rattle.std.specs.Prelude.{◌≡◌, ◌⊎◌, ◌≤◌, ◌<◌, ◌^◌, ◌+◌, ◌-◌, ◌*◌, ℕ, List, Some, length, get_or, IsTrue, IfOk};
ghost use Rattle.std.specs.List.{All};
ghost use Rattle.recipe_reader.specs.Members.{IsRising};
ghost use Rattle.recipe_reader.specs.Sets.{name_of};
ghost use Rattle.conflict_search.specs.Numbers.{IsFirstPlace};
ghost use Rattle.conflict_search.specs.Conflicts.{CannotStand};
ghost use Rattle.conflict_search.specs.Stands.{members_in, wanted_in};
ghost use Rattle.conflict_search.specs.Terms.{Has, AreNames, IsTerm, IsNogood, IsNogoodRow};

use crate::domains::bit_of;
use crate::library::Library;
use crate::sets::{copy_from, has, join_at, meet_at};
use crate::terms::Term;
use nuc_base::NoMemory;

/// Adds the values of the term to those that the row has of its name.
fn add_values(row: &mut [u64], term: &Term)
    requires room { term.now.from + length term.now.set.items ≤ length row.old }
    ensures count { length row.new ≡ length row.old }
    ensures only { (v : ℕ) → Has row.new v → Has row.old v ⊎ ((64 * term.now.from ≤ v) × Has term.now.set.items (v - 64 * term.now.from)) }
    ensures kept { (v : ℕ) → Has row.old v → Has row.new v }
    ensures given { (v : ℕ) → Has term.now.set.items v → Has row.new (64 * term.now.from + v) }
{
    join_at(row, term.from, &term.set);
}

impl<'a> Library<'a> {
    /// The row that says what this nogood says.
    pub(crate) fn draft_of(&self, full: &[u64], terms: &[Term]) -> Result<Vec<u64>, NoMemory>
        requires nogood { IsNogood (members_in self.now) (wanted_in self.now) terms.now }
        requires full { length full.now ≡ length self.now.candidates.now }
        ensures { IfOk result (λ row. IsNogoodRow (members_in self.now) (wanted_in self.now) row.items) }
    {
        let mut row = Vec::from_slice(self.alloc, full)?;
        self.meet_all(&mut row, terms);
        Ok(row)
    }

    /// Leaves of each of the names what its terms have.
    fn meet_all(&self, row: &mut [u64], terms: &[Term])
        requires nogood { IsNogood (members_in self.now) (wanted_in self.now) terms.now }
        requires row { length row.old ≡ length self.now.candidates.now }
        ensures { IsNogoodRow (members_in self.now) (wanted_in self.now) row.new }
    {
        for term in terms {
            meet_at(row, term.from, &term.set);
        }
    }

    /// Joins the draft with a nogood at one of its terms: of that name the values of the one or the other, of all other
    /// names those of both. Two nogoods joined at any name give a nogood.
    pub(crate) fn join(&self, row: &mut [u64], terms: &[Term], at: usize)
        requires rising { IsRising (members_in self.now) }
        requires draft { IsNogoodRow (members_in self.now) (wanted_in self.now) row.old }
        requires nogood { IsNogood (members_in self.now) (wanted_in self.now) terms.now }
        requires at { at < length terms.now }
        ensures { IsNogoodRow (members_in self.now) (wanted_in self.now) row.new }
    {
        add_values(row, &terms[at]);
        for index in 0..terms.len() {
            if index != at {
                let term = &terms[index];
                meet_at(row, term.from, &term.set);
            }
        }
    }

    /// The draft as a nogood. With no term no valid set is left.
    pub(crate) fn learned(&self, row: &[u64]) -> Result<Vec<Term>, NoMemory>
        requires count { length self.now.candidates.now < 2 ^ 32 }
        requires rising { IsRising (members_in self.now) }
        requires names { AreNames (members_in self.now) self.now.names.now }
        requires draft { IsNogoodRow (members_in self.now) (wanted_in self.now) row.now }
        ensures { IfOk result (λ terms. IsNogood (members_in self.now) (wanted_in self.now) terms.items) }
    {
        let mut terms = Vec::new(self.alloc);
        for place in 0..self.candidates.len() {
            if self.names.first(place as u32) as usize == place
                && !self.is_full(row, place as u32)
            {
                terms.push(self.term_in(row, place as u32)?)?;
            }
        }
        Ok(terms)
    }

    /// What the row has of the name of the place.
    fn term_in(&self, row: &[u64], place: u32) -> Result<Term, NoMemory>
        requires count { length self.now.candidates.now < 2 ^ 32 }
        requires rising { IsRising (members_in self.now) }
        requires names { AreNames (members_in self.now) self.now.names.now }
        requires row { length row.now ≡ length self.now.candidates.now }
        requires place { place < length self.now.candidates.now }
        ensures term { IfOk result (IsTerm (members_in self.now)) }
        ensures from { IfOk result (λ t. t.from ≡ get_or self.now.names.now.first.items place 0) }
        ensures same { IfOk result (λ t. (v : ℕ) → Has t.set.items v → Has row.now (64 * t.from + v)) }
    {
        let mut term = self.no_value(place)?;
        copy_from(&mut term.set, row, term.from);
        Ok(term)
    }

    /// Whether the row has all values of the name of the place.
    fn is_full(&self, row: &[u64], place: u32) -> bool
        requires count { length self.now.candidates.now < 2 ^ 32 }
        requires names { AreNames (members_in self.now) self.now.names.now }
        requires place { place < length self.now.candidates.now }
        ensures { IsTrue result → (n : List ℕ) (first : ℕ) → name_of (members_in self.now) place ≡ Some n → IsFirstPlace (members_in self.now) n first →
            Has row.now (64 * first) × ((p : ℕ) → name_of (members_in self.now) p ≡ Some n → Has row.now (64 * first + (p + 1 - first))) }
    {
        let first = self.names.first(place);
        if !has(row, 64 * first as usize) {
            return false;
        }
        for other in first..self.names.last(place).saturating_add(1) {
            if !has(row, bit_of(first, other)) {
                return false;
            }
        }
        true
    }

    /// The nogood that places are which cannot stand together: each of them alone.
    pub(crate) fn nogood_of(&self, places: &[u32]) -> Result<Vec<Term>, NoMemory>
        requires count { length self.now.candidates.now < 2 ^ 32 }
        requires rising { IsRising (members_in self.now) }
        requires names { AreNames (members_in self.now) self.now.names.now }
        requires places { All (λ p. p < length self.now.candidates.now) places.now }
        requires conflict { CannotStand (members_in self.now) (wanted_in self.now) places.now }
        ensures { IfOk result (λ terms. IsNogood (members_in self.now) (wanted_in self.now) terms.items) }
    {
        let mut terms = Vec::with_capacity(self.alloc, places.len())?;
        for place in places {
            terms.push(self.alone(*place)?)?;
        }
        Ok(terms)
    }
}
