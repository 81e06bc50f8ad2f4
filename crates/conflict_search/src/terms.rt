//! Terms of nogoods: sets of values of one name.

ghost use Rattle.std.specs.Prelude.{◌≡◌, ◌≢◌, ◌⊎◌, ◌↔◌, ◌≤◌, ◌<◌, ◌^◌, ◌+◌, ◌-◌, ℕ, List, Some, length, get_or, IfOk};
ghost use Rattle.std.specs.List.{Contains};
ghost use Rattle.recipe_reader.specs.Members.{IsRising};
ghost use Rattle.recipe_reader.specs.Sets.{name_of};
ghost use Rattle.conflict_search.specs.Numbers.{IsNumberAt, IsNumber, IsFirstPlace};
ghost use Rattle.conflict_search.specs.Stands.{members_in, wanted_in, IsMetIn};
ghost use Rattle.conflict_search.specs.Terms.{Has, AreNames, IsTerm};

use crate::library::Library;
use crate::places::version_at;
use crate::sets::{add, none_of};
use npm_ranges::Range;
use nuc_base::NoMemory;

/// A set of values of the name whose first place is `from`, as words of bits. Value 0 is "absent", value 1 the name's
/// oldest version, and so on.
#[derive(Drop)]
pub(crate) struct Term {
    pub(crate) from: usize,
    pub(crate) set: Vec<u64>,
}

impl<'a> Library<'a> {
    /// No value of the name of the place.
    pub(crate) fn no_value(&self, place: u32) -> Result<Term, NoMemory>
        requires count { length self.now.candidates.now < 2 ^ 32 }
        requires rising { IsRising (members_in self.now) }
        requires names { AreNames (members_in self.now) self.now.names.now }
        requires place { place < length self.now.candidates.now }
        ensures term { IfOk result (IsTerm (members_in self.now)) }
        ensures from { IfOk result (λ t. t.from ≡ get_or self.now.names.now.first.items place 0) }
        ensures empty { IfOk result (λ t. (v : ℕ) → Has t.set.items v → ⊥) }
    {
        let first = self.names.first(place);
        let last = self.names.last(place);
        let set = none_of(self.alloc, (last - first + 1) as usize / 64 + 1)?;
        Ok(Term {
            from: first as usize,
            set,
        })
    }

    /// Adds the place to values of its name.
    pub(crate) fn add_place(&self, term: &mut Term, place: u32)
        requires term { IsTerm (members_in self.now) term.old }
        requires named { (n : List ℕ) → IsFirstPlace (members_in self.now) n term.old.from → name_of (members_in self.now) place ≡ Some n }
        ensures term { IsTerm (members_in self.now) term.new }
        ensures from { term.new.from ≡ term.old.from }
        ensures added { (v : ℕ) → Has term.new.set.items v ↔ Has term.old.set.items v ⊎ (v ≡ place + 1 - term.old.from) }
    {
        let value = place as usize + 1 - term.from;
        add(&mut term.set, value);
    }

    /// Adds "absent" to values of a name.
    pub(crate) fn add_absent(&self, term: &mut Term)
        requires term { IsTerm (members_in self.now) term.old }
        ensures term { IsTerm (members_in self.now) term.new }
        ensures from { term.new.from ≡ term.old.from }
        ensures added { (v : ℕ) → Has term.new.set.items v ↔ Has term.old.set.items v ⊎ (v ≡ 0) }
    {
        add(&mut term.set, 0);
    }

    /// The place alone.
    pub(crate) fn alone(&self, place: u32) -> Result<Term, NoMemory>
        requires count { length self.now.candidates.now < 2 ^ 32 }
        requires rising { IsRising (members_in self.now) }
        requires names { AreNames (members_in self.now) self.now.names.now }
        requires place { place < length self.now.candidates.now }
        ensures term { IfOk result (IsTerm (members_in self.now)) }
        ensures from { IfOk result (λ t. t.from ≡ get_or self.now.names.now.first.items place 0) }
        ensures alone { IfOk result (λ t. (v : ℕ) → Has t.set.items v ↔ (v ≡ place + 1 - t.from)) }
    {
        let mut term = self.no_value(place)?;
        self.add_place(&mut term, place);
        Ok(term)
    }

    /// The values of the name with that number that are against the range: "absent", and each version out of it.
    pub(crate) fn against(&self, number: u32, range: &Range) -> Result<Term, NoMemory>
        requires count { length self.now.candidates.now < 2 ^ 32 }
        requires rising { IsRising (members_in self.now) }
        requires names { AreNames (members_in self.now) self.now.names.now }
        requires number { IsNumberAt (members_in self.now) number number }
        ensures term { IfOk result (IsTerm (members_in self.now)) }
        ensures from { IfOk result (λ t. t.from ≡ get_or self.now.names.now.first.items number 0) }
        ensures against { IfOk result (λ t. (v : ℕ) → Has t.set.items v ↔ (v ≡ 0)
            ⊎ ((q : ℕ) × (name_of (members_in self.now) q ≡ name_of (members_in self.now) number) × (v ≡ q + 1 - t.from)
            × (IsMetIn (members_in self.now) range.now q → ⊥))) }
    {
        let mut term = self.no_value(number)?;
        self.add_absent(&mut term);
        for place in self.names.first(number)..number + 1 {
            if !range.holds(version_at(self.candidates, place)) {
                self.add_place(&mut term, place);
            }
        }
        Ok(term)
    }
}
