//! Rows: of each name a set of values, from the word of its first place on. A domain has what is left of the name.

ghost use Rattle.std.specs.Prelude.{◌≡◌, ◌≢◌, ◌≤◌, ◌<◌, ◌^◌, ◌+◌, ◌-◌, ◌*◌, ℕ, List, length, get_or, IsTrue, IfOk, OnOk, MatchOption};
ghost use Rattle.std.specs.List.{Contains};
ghost use Rattle.recipe_reader.specs.Members.{IsRising};
ghost use Rattle.conflict_search.specs.Numbers.{IsNumberAt};
ghost use Rattle.conflict_search.specs.Stands.{members_in, wanted_in};
ghost use Rattle.conflict_search.specs.Terms.{AreNames, IsNogood, IsSound, IsWithin, AreOthersWithin, IsLeft, IsGreatestLeft};

use crate::library::Library;
use crate::sets::{add, has, is_within_at, meet_at, none_of, remove_at, word};
use crate::terms::Term;
use nuc_base::NoMemory;

/// Whether the row has nothing of the term's name but what is in the term's set.
pub(crate) fn is_within(row: &[u64], term: &Term) -> bool
    ensures { IsTrue result → IsWithin row.now term.now }
{
    is_within_at(row, term.from, &term.set)
}

/// Whether the row has nothing that is in the term's set. No answer rests on it.
pub(crate) fn is_apart(row: &[u64], term: &Term) -> bool {
    for at in 0..term.set.len() {
        if word(row, term.from.saturating_add(at)) & term.set[at] != 0 {
            return false;
        }
    }
    true
}

/// The bit of the place in a row, where the name's places begin at the first.
pub(crate) fn bit_of(first: u32, place: u32) -> usize
    requires { first ≤ place }
    ensures { result ≡ 64 * first + (place + 1 - first) }
{
    64 * first as usize + (place as usize + 1 - first as usize)
}

impl<'a> Library<'a> {
    /// All values of all names.
    pub(crate) fn full_row(&self) -> Result<Vec<u64>, NoMemory>
        requires count { length self.now.candidates.now < 2 ^ 32 }
        requires names { AreNames (members_in self.now) self.now.names.now }
        ensures count { IfOk result (λ row. length row.items ≡ length self.now.candidates.now) }
        ensures sound { IfOk result (λ row. (taken : List ℕ) → IsSound (members_in self.now) (wanted_in self.now) taken row.items) }
    {
        let mut row = none_of(self.alloc, self.candidates.len())?;
        self.fill(&mut row);
        Ok(row)
    }

    /// Adds all values of all names.
    fn fill(&self, row: &mut [u64])
        requires count { length self.now.candidates.now < 2 ^ 32 }
        requires names { AreNames (members_in self.now) self.now.names.now }
        requires row { length row.old ≡ length self.now.candidates.now }
        ensures count { length row.new ≡ length row.old }
        ensures sound { (taken : List ℕ) → IsSound (members_in self.now) (wanted_in self.now) taken row.new }
    {
        for place in 0..self.candidates.len() {
            let first = self.names.first(place as u32) as usize;
            add(row, 64 * first);
            add(row, bit_of(first as u32, place as u32));
        }
    }

    /// Takes the values of that term: the others are met.
    pub(crate) fn take_values(&self, row: &mut [u64], terms: &[Term], at: usize)
        requires rising { IsRising (members_in self.now) }
        requires row { length row.old ≡ length self.now.candidates.now }
        requires nogood { IsNogood (members_in self.now) (wanted_in self.now) terms.now }
        requires at { at < length terms.now }
        requires others { AreOthersWithin row.old terms.now at }
        ensures count { length row.new ≡ length row.old }
        ensures sound { (taken : List ℕ) → IsSound (members_in self.now) (wanted_in self.now) taken row.old
            → IsSound (members_in self.now) (wanted_in self.now) taken row.new }
    {
        let term = &terms[at];
        remove_at(row, term.from, &term.set);
    }

    /// Leaves the place alone of its name.
    pub(crate) fn take_others(&self, row: &mut [u64], place: u32) -> Result<(), NoMemory>
        requires count { length self.now.candidates.now < 2 ^ 32 }
        requires rising { IsRising (members_in self.now) }
        requires row { length row.old ≡ length self.now.candidates.now }
        requires names { AreNames (members_in self.now) self.now.names.now }
        requires place { place < length self.now.candidates.now }
        ensures count { length row.new ≡ length row.old }
        ensures sound { OnOk result ((taken : List ℕ) → Contains taken place → IsSound (members_in self.now) (wanted_in self.now) taken row.old
            → IsSound (members_in self.now) (wanted_in self.now) taken row.new) }
    {
        let term = self.alone(place)?;
        meet_at(row, term.from, &term.set);
        Ok(())
    }

    /// Whether the place alone is left of its name. No answer rests on it.
    pub(crate) fn is_alone(&self, row: &[u64], place: u32) -> bool
        requires place { place < length self.now.candidates.now }
        requires names { AreNames (members_in self.now) self.now.names.now }
    {
        let (first, last) = (self.names.first(place), self.names.last(place));
        if has(row, 64 * first as usize) {
            return false;
        }
        for other in first..last.saturating_add(1) {
            if other != place && has(row, bit_of(first, other)) {
                return false;
            }
        }
        true
    }

    /// The greatest version of the name with that number that is left.
    pub(crate) fn greatest(&self, row: &[u64], number: u32) -> Option<u32>
        requires count { length self.now.candidates.now < 2 ^ 32 }
        requires rising { IsRising (members_in self.now) }
        requires row { length row.now ≡ length self.now.candidates.now }
        requires names { AreNames (members_in self.now) self.now.names.now }
        requires number { IsNumberAt (members_in self.now) number number }
        ensures { MatchOption result
            ((q : ℕ) → IsNumberAt (members_in self.now) q number → IsLeft (members_in self.now) row.now q → ⊥)
            (λ p. IsNumberAt (members_in self.now) p number × IsGreatestLeft (members_in self.now) row.now number p) }
    {
        let first = self.names.first(number);
        for place in (first..number + 1).rev() {
            if has(row, bit_of(first, place)) {
                return Some(place);
            }
        }
        None
    }
}
