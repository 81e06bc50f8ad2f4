//! Names without end. Where each version of some names that is left needs one of these names again, no valid set has any of
//! them: it would have to go round. A cycle among the places of a walk is learnt so, for all versions at once.

ghost use Rattle.std.specs.Prelude.{◌≡◌, ◌≢◌, ◌⊎◌, ◌<◌, ◌^◌, ◌+◌, ◌-◌, ℕ, List, Some, true, false, length, get_or, IsTrue, IfOk, IfSome};
ghost use Rattle.std.specs.List.{All, Contains};
ghost use Rattle.recipe_reader.specs.Members.{members, IsRising};
ghost use Rattle.recipe_reader.specs.Sets.{name_of};
ghost use Rattle.conflict_search.specs.Conflicts.{CannotStand};
ghost use Rattle.conflict_search.specs.Stands.{members_in, wanted_in};
ghost use Rattle.conflict_search.specs.Terms.{Has, AreNames, IsNogood};
ghost use Rattle.conflict_search.specs.Endless.{IsAmong, NeedsSome, IsNeeding, AreNeeding, AreListedOf, IsClosed};

use crate::library::Library;
use crate::numbers::number_of;
use crate::places::needs_at;
use crate::terms::Term;
use nuc_base::NoMemory;
use std::alloc::Global;

/// Whether the table has the name with that first place.
fn is_in(table: &[bool], first: u32) -> bool
    ensures { result ≡ get_or table.now first false }
{
    match table.get(first as usize) {
        Some(is) => *is,
        None => false,
    }
}

/// So many times names are dropped at most.
const MOST_PASSES: usize = 256;

/// A place needs the name with that first place.
#[derive(Clone, Copy, Drop)]
struct Needed {
    by: u32,
    first: u32,
}

fn set(table: &mut [bool], at: u32, is: bool) {
    if (at as usize) < table.len() {
        table[at as usize] = is;
    }
}

/// Marks the places that need some name of the table.
fn mark_needing(needing: &mut [bool], needed: &[Needed], among: &[bool]) {
    for need in needed {
        if is_in(among, need.first) {
            set(needing, need.by, true);
        }
    }
}

/// A table of no names.
fn all_false(alloc: Global, count: usize) -> Result<Vec<bool>, NoMemory>
    ensures { IfOk result (λ table. (f : ℕ) → IsAmong table.items f → ⊥) }
{
    let mut table = Vec::with_capacity(alloc, count)?;
    for _name in 0..count {
        table.push(false)?;
    }
    Ok(table)
}

impl<'a> Library<'a> {
    /// Whether the place needs some name of the table.
    fn needs_some(&self, place: u32, among: &[bool]) -> bool
        requires count { length self.now.candidates.now < 2 ^ 32 }
        requires rising { IsRising (members_in self.now) }
        requires names { AreNames (members_in self.now) self.now.names.now }
        requires place { place < length self.now.candidates.now }
        ensures { IsTrue result → NeedsSome (members_in self.now) among.now place }
    {
        for need in needs_at(self.candidates, place) {
            if let Some(number) = number_of(self.candidates, &need.name) {
                if is_in(among, self.names.first(number)) {
                    return true;
                }
            }
        }
        false
    }

    /// The versions of the place's name that need some name of the table.
    fn needing_some(&self, place: u32, among: &[bool]) -> Result<Term, NoMemory>
        requires count { length self.now.candidates.now < 2 ^ 32 }
        requires rising { IsRising (members_in self.now) }
        requires names { AreNames (members_in self.now) self.now.names.now }
        requires place { place < length self.now.candidates.now }
        ensures needing { IfOk result (IsNeeding (members_in self.now) among.now) }
        ensures from { IfOk result (λ t. t.from ≡ get_or self.now.names.now.first.items place 0) }
        ensures present { IfOk result (λ t. Has t.set.items 0 → ⊥) }
    {
        let mut term = self.no_value(place)?;
        let end = self.names.last(place).saturating_add(1);
        for other in self.names.first(place)..end {
            if self.needs_some(other, among) {
                self.add_place(&mut term, other);
            }
        }
        Ok(term)
    }

    /// These versions, and "absent".
    fn needing_or_absent(&self, place: u32, among: &[bool]) -> Result<Term, NoMemory>
        requires count { length self.now.candidates.now < 2 ^ 32 }
        requires rising { IsRising (members_in self.now) }
        requires names { AreNames (members_in self.now) self.now.names.now }
        requires place { place < length self.now.candidates.now }
        ensures needing { IfOk result (IsNeeding (members_in self.now) among.now) }
        ensures from { IfOk result (λ t. t.from ≡ get_or self.now.names.now.first.items place 0) }
    {
        let mut term = self.needing_some(place, among)?;
        self.add_absent(&mut term);
        Ok(term)
    }

    /// The table that has the names of the places.
    fn table_of(&self, places: &[u32]) -> Result<Vec<bool>, NoMemory>
        requires names { AreNames (members_in self.now) self.now.names.now }
        requires places { All (λ p. p < length self.now.candidates.now) places.now }
        ensures { IfOk result (λ listed. AreListedOf (λ x. get_or self.now.names.now.first.items x 0) places.now listed.items) }
    {
        let mut listed = all_false(self.alloc, self.candidates.len())?;
        for place in places {
            let first = self.names.first(*place) as usize;
            if first < listed.len() {
                listed[first] = true;
            }
        }
        Ok(listed)
    }

    /// Whether each version of each name of the table that is not listed needs some name of the table.
    fn is_closed(&self, listed: &[bool], among: &[bool]) -> bool
        requires count { length self.now.candidates.now < 2 ^ 32 }
        requires rising { IsRising (members_in self.now) }
        requires names { AreNames (members_in self.now) self.now.names.now }
        ensures { IsTrue result → IsClosed (members_in self.now) listed.now among.now }
    {
        for place in 0..self.candidates.len() {
            let first = self.names.first(place as u32);
            if is_in(among, first)
                && !is_in(listed, first)
                && !self.needs_some(place as u32, among)
            {
                return false;
            }
        }
        true
    }

    /// The terms of a nogood of these names, of which the first is present.
    fn needing_all(
        &self,
        present: u32,
        places: &[u32],
        among: &[bool],
    ) -> Result<Vec<Term>, NoMemory>
        requires count { length self.now.candidates.now < 2 ^ 32 }
        requires rising { IsRising (members_in self.now) }
        requires names { AreNames (members_in self.now) self.now.names.now }
        requires places { All (λ p. p < length self.now.candidates.now) places.now }
        requires present { present < length self.now.candidates.now }
        requires among { IsAmong among.now (get_or self.now.names.now.first.items present 0) }
        ensures { IfOk result (λ terms. AreNeeding (members_in self.now) among.now (λ x. get_or self.now.names.now.first.items x 0) places.now terms.items) }
    {
        let mut terms = Vec::new(self.alloc);
        terms.push(self.needing_some(present, among)?)?;
        for place in places {
            terms.push(self.needing_or_absent(*place, among)?)?;
        }
        Ok(terms)
    }

    /// The nogood of a cycle's names, each version of which needs a name of the table, where that has each of them, and of
    /// its other names each version needs one of its names again.
    fn nogood_among(
        &self,
        cycle: &[u32],
        listed: &[bool],
        among: &[bool],
    ) -> Result<Option<Vec<Term>>, NoMemory>
        requires count { length self.now.candidates.now < 2 ^ 32 }
        requires rising { IsRising (members_in self.now) }
        requires names { AreNames (members_in self.now) self.now.names.now }
        requires places { All (λ p. p < length self.now.candidates.now) cycle.now }
        requires listed { AreListedOf (λ x. get_or self.now.names.now.first.items x 0) cycle.now listed.now }
        ensures { IfOk result (λ found. IfSome found (λ terms. IsNogood (members_in self.now) (wanted_in self.now) terms.items)) }
    {
        let Some(present) = cycle.first() else {
            return Ok(None);
        };
        if !is_in(among, self.names.first(*present)) || !self.is_closed(listed, among) {
            return Ok(None);
        }
        Ok(Some(self.needing_all(*present, cycle, among)?))
    }

    /// The nogood of a cycle: of its names for all their versions that go round, or else of its places alone.
    pub(crate) fn nogood_of_cycle(&self, cycle: &[u32]) -> Result<Vec<Term>, NoMemory>
        requires count { length self.now.candidates.now < 2 ^ 32 }
        requires rising { IsRising (members_in self.now) }
        requires names { AreNames (members_in self.now) self.now.names.now }
        requires places { All (λ p. p < length self.now.candidates.now) cycle.now }
        requires conflict { CannotStand (members_in self.now) (wanted_in self.now) cycle.now }
        ensures { IfOk result (λ terms. IsNogood (members_in self.now) (wanted_in self.now) terms.items) }
    {
        let listed = self.table_of(cycle)?;
        let wide = self.widest(&listed)?;
        if let Some(terms) = self.nogood_among(cycle, &listed, &wide)? {
            return Ok(terms);
        }
        match self.nogood_among(cycle, &listed, &listed)? {
            Some(terms) => Ok(terms),
            None => self.nogood_of(cycle),
        }
    }

    /// The needs of all candidates, as pairs of places: who needs, and the first place of the name that is needed.
    fn needed_names(&self) -> Result<Vec<Needed>, NoMemory>
        requires count { length self.now.candidates.now < 2 ^ 32 }
        requires rising { IsRising (members_in self.now) }
        requires names { AreNames (members_in self.now) self.now.names.now }
    {
        let mut needed = Vec::new(self.alloc);
        for place in 0..self.candidates.len() {
            self.add_needed(&mut needed, place as u32)?;
        }
        Ok(needed)
    }

    fn add_needed(&self, needed: &mut Vec<Needed>, by: u32) -> Result<(), NoMemory>
        requires count { length self.now.candidates.now < 2 ^ 32 }
        requires rising { IsRising (members_in self.now) }
        requires names { AreNames (members_in self.now) self.now.names.now }
        requires by { by < length self.now.candidates.now }
    {
        for need in needs_at(self.candidates, by) {
            if let Some(number) = number_of(self.candidates, &need.name) {
                let first = self.names.first(number);
                needed.push(Needed { by, first })?;
            }
        }
        Ok(())
    }

    /// The listed names, and as many more as can be of which each version needs one of them all. That each does is tested
    /// afterwards: no answer rests on it.
    fn widest(&self, listed: &[bool]) -> Result<Vec<bool>, NoMemory>
        requires count { length self.now.candidates.now < 2 ^ 32 }
        requires rising { IsRising (members_in self.now) }
        requires names { AreNames (members_in self.now) self.now.names.now }
    {
        let needed = self.needed_names()?;
        let count = self.candidates.len();
        let mut among = all_false(self.alloc, count)?;
        for first in 0..count {
            set(&mut among, first as u32, true);
        }
        for _pass in 0..MOST_PASSES {
            let mut needing = all_false(self.alloc, count)?;
            mark_needing(&mut needing, &needed, &among);
            if !self.drop_others(&mut among, listed, &needing) {
                return Ok(among);
            }
        }
        Ok(among)
    }

    /// Drops the names that are not listed and have a version that is not marked. Answers whether there were any.
    fn drop_others(&self, among: &mut [bool], listed: &[bool], needing: &[bool]) -> bool
        requires count { length self.now.candidates.now < 2 ^ 32 }
        requires names { AreNames (members_in self.now) self.now.names.now }
    {
        let mut dropped = false;
        for place in 0..self.candidates.len() {
            let first = self.names.first(place as u32);
            if is_in(among, first) && !is_in(listed, first) && !is_in(needing, place as u32) {
                set(among, first, false);
                dropped = true;
            }
        }
        dropped
    }
}
