//! The facts of a library as nogoods, for the names that can be reached from what is wanted.

ghost use Rattle.std.specs.Prelude.{◌≡◌, ◌<◌, ◌^◌, ℕ, List, length, get_or, IfOk, OnOk, None};
ghost use Rattle.std.specs.List.{All};
ghost use Rattle.recipe_reader.specs.Members.{IsRising};
ghost use Rattle.recipe_reader.specs.Sets.{name_of};
ghost use Rattle.conflict_search.specs.Claims.{claims_from, AreDemands};
ghost use Rattle.conflict_search.specs.Stands.{members_in, wanted_in};
ghost use Rattle.conflict_search.specs.Terms.{AreNames, IsNogood, AreNogoods};
ghost use Rattle.conflict_search.specs.Facts.{IsDemandOf, IsGroup, IsReached};

use crate::demands::{Demand, demands_of};
use crate::groups::{Group, none_made};
use crate::library::Library;
use crate::nogoods::Nogoods;
use crate::terms::Term;
use nuc_base::NoMemory;
use std::alloc::Global;

/// The numbers of the names that were reached so far, in the order of reaching, and by number whether it is among them.
#[derive(Drop)]
pub(crate) struct Reached {
    pub(crate) numbers: Vec<u32>,
    pub(crate) marks: Vec<bool>,
}

/// So many marks, none of them set.
fn no_marks(alloc: Global, count: usize) -> Result<Vec<bool>, NoMemory>
    ensures { IfOk result (λ marks. length marks.items ≡ count) }
{
    let mut marks = Vec::with_capacity(alloc, count)?;
    for _number in 0..count {
        marks.push(false)?;
    }
    Ok(marks)
}

impl Reached {
    /// Reaches the name with that number, once.
    fn reach(&mut self, count: usize, number: u32) -> Result<(), NoMemory>
        requires reached { IsReached count self.old }
        requires number { number < count }
        ensures { OnOk result (IsReached count self.new) }
    {
        if !self.marks[number as usize] {
            self.marks[number as usize] = true;
            self.numbers.push(number)?;
        }
        Ok(())
    }
}

impl<'a> Library<'a> {
    /// Adds that what is wanted is that, and reaches its names.
    fn add_wishes(
        &self,
        nogoods: &mut Nogoods,
        reached: &mut Reached,
        wanted: &[Demand<'a>],
    ) -> Result<(), NoMemory>
        requires count { length self.now.candidates.now < 2 ^ 32 }
        requires rising { IsRising (members_in self.now) }
        requires names { AreNames (members_in self.now) self.now.names.now }
        requires nogoods { AreNogoods (members_in self.now) (wanted_in self.now) nogoods.old }
        requires reached { IsReached (length self.now.candidates.now) reached.old }
        requires wanted { All (IsDemandOf (members_in self.now) (wanted_in self.now)) wanted.now }
        ensures nogoods { OnOk result (AreNogoods (members_in self.now) (wanted_in self.now) nogoods.new) }
        ensures reached { OnOk result (IsReached (length self.now.candidates.now) reached.new) }
    {
        for wish in wanted {
            let terms = self.fact_of_wish(wish)?;
            nogoods.add(self, terms)?;
            reached.reach(self.candidates.len(), wish.number)?;
        }
        Ok(())
    }

    /// What a wish says: its name has no value against the range.
    fn fact_of_wish(&self, wish: &Demand<'a>) -> Result<Vec<Term>, NoMemory>
        requires count { length self.now.candidates.now < 2 ^ 32 }
        requires rising { IsRising (members_in self.now) }
        requires names { AreNames (members_in self.now) self.now.names.now }
        requires wanted { IsDemandOf (members_in self.now) (wanted_in self.now) wish.now }
        ensures { IfOk result (λ terms. IsNogood (members_in self.now) (wanted_in self.now) terms.items) }
    {
        let mut terms = Vec::with_capacity(self.alloc, 1)?;
        terms.push(self.against(wish.number, wish.range)?)?;
        Ok(terms)
    }

    /// What a need of versions of the name with that number says: such a version and a value against the range cannot stand
    /// together. A version that needs its own name is a cycle, and cannot stand at all.
    fn fact_of_group(&self, number: u32, group: Group<'a>) -> Result<Vec<Term>, NoMemory>
        requires count { length self.now.candidates.now < 2 ^ 32 }
        requires rising { IsRising (members_in self.now) }
        requires names { AreNames (members_in self.now) self.now.names.now }
        requires group { IsGroup (members_in self.now) (get_or self.now.names.now.first.items number 0) group }
        ensures { IfOk result (λ terms. IsNogood (members_in self.now) (wanted_in self.now) terms.items) }
    {
        let mut terms = Vec::with_capacity(self.alloc, 2)?;
        terms.push(group.by)?;
        if group.need.number != number {
            terms.push(self.against(group.need.number, group.need.range)?)?;
        }
        Ok(terms)
    }

    /// Adds what the groups of the name with that number say, and reaches the names that they need.
    fn add_groups(
        &self,
        nogoods: &mut Nogoods,
        reached: &mut Reached,
        number: u32,
        groups: Vec<Group<'a>>,
    ) -> Result<(), NoMemory>
        requires count { length self.now.candidates.now < 2 ^ 32 }
        requires rising { IsRising (members_in self.now) }
        requires names { AreNames (members_in self.now) self.now.names.now }
        requires nogoods { AreNogoods (members_in self.now) (wanted_in self.now) nogoods.old }
        requires reached { IsReached (length self.now.candidates.now) reached.old }
        requires groups { All (IsGroup (members_in self.now) (get_or self.now.names.now.first.items number 0)) groups.items }
        ensures nogoods { OnOk result (AreNogoods (members_in self.now) (wanted_in self.now) nogoods.new) }
        ensures reached { OnOk result (IsReached (length self.now.candidates.now) reached.new) }
    {
        let mut left = groups;
        for _group in 0..left.len() {
            let Some(group) = left.pop() else {
                return Ok(());
            };
            let needed = group.need.number;
            let terms = self.fact_of_group(number, group)?;
            nogoods.add(self, terms)?;
            reached.reach(self.candidates.len(), needed)?;
        }
        Ok(())
    }

    /// Adds the place, of the name with that number, to the groups of its needs. Where no candidate has a name that it needs,
    /// it cannot stand, and that is added.
    fn gather_needs(
        &self,
        nogoods: &mut Nogoods,
        groups: &mut Vec<Group<'a>>,
        last: &mut [usize],
        number: u32,
        place: u32,
    ) -> Result<(), NoMemory>
        requires count { length self.now.candidates.now < 2 ^ 32 }
        requires rising { IsRising (members_in self.now) }
        requires names { AreNames (members_in self.now) self.now.names.now }
        requires number { number < length self.now.candidates.now }
        requires place { place < length self.now.candidates.now }
        requires named { name_of (members_in self.now) place ≡ name_of (members_in self.now) number }
        requires nogoods { AreNogoods (members_in self.now) (wanted_in self.now) nogoods.old }
        requires groups { All (IsGroup (members_in self.now) (get_or self.now.names.now.first.items number 0)) groups.old.items }
        ensures nogoods { OnOk result (AreNogoods (members_in self.now) (wanted_in self.now) nogoods.new) }
        ensures groups { OnOk result (All (IsGroup (members_in self.now) (get_or self.now.names.now.first.items number 0)) groups.new.items) }
    {
        let Some(needs) = demands_of(self.alloc, self.candidates, place)? else {
            let terms = self.nogood_of(&[place])?;
            nogoods.add(self, terms)?;
            return Ok(());
        };
        self.gather_all(groups, last, number, place, needs.as_slice())
    }

    /// Adds what the versions of the name with that number need: each need once, for all versions that have it.
    fn add_versions(
        &self,
        nogoods: &mut Nogoods,
        reached: &mut Reached,
        last: &mut [usize],
        number: u32,
    ) -> Result<(), NoMemory>
        requires count { length self.now.candidates.now < 2 ^ 32 }
        requires rising { IsRising (members_in self.now) }
        requires names { AreNames (members_in self.now) self.now.names.now }
        requires nogoods { AreNogoods (members_in self.now) (wanted_in self.now) nogoods.old }
        requires reached { IsReached (length self.now.candidates.now) reached.old }
        requires number { number < length self.now.candidates.now }
        ensures nogoods { OnOk result (AreNogoods (members_in self.now) (wanted_in self.now) nogoods.new) }
        ensures reached { OnOk result (IsReached (length self.now.candidates.now) reached.new) }
    {
        let mut groups = Vec::new(self.alloc);
        for place in self.names.first(number)..number + 1 {
            self.gather_needs(nogoods, &mut groups, last, number, place)?;
        }
        self.add_groups(nogoods, reached, number, groups)
    }

    /// Adds all facts: what is wanted is that, and then what each version of each name that can be reached needs.
    pub(crate) fn add_facts(
        &self,
        nogoods: &mut Nogoods,
        wanted: &[Demand<'a>],
    ) -> Result<(), NoMemory>
        requires count { length self.now.candidates.now < 2 ^ 32 }
        requires rising { IsRising (members_in self.now) }
        requires names { AreNames (members_in self.now) self.now.names.now }
        requires wanted { AreDemands (members_in self.now) (claims_from None (wanted_in self.now)) wanted.now }
        requires nogoods { AreNogoods (members_in self.now) (wanted_in self.now) nogoods.old }
        ensures { OnOk result (AreNogoods (members_in self.now) (wanted_in self.now) nogoods.new) }
    {
        let mut reached = Reached {
            numbers: Vec::new(self.alloc),
            marks: no_marks(self.alloc, self.candidates.len())?,
        };
        let mut last = none_made(self.alloc, self.candidates.len())?;
        self.add_wishes(nogoods, &mut reached, wanted)?;
        for turn in 0..self.candidates.len() {
            let Some(number) = reached.numbers.get(turn).copied() else {
                return Ok(());
            };
            self.add_versions(nogoods, &mut reached, &mut last, number)?;
        }
        Ok(())
    }
}
