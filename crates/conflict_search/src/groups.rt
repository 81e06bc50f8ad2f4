//! The needs of the versions of a name, each once: versions that need the same name in an equal range are one group. So a
//! fact speaks of all of them, and each range is tested once for a name that has it.

ghost use Rattle.std.specs.Prelude.{◌≡◌, ◌<◌, ◌^◌, ℕ, List, Some, length, get_or, IsTrue, IfOk, OnOk};
ghost use Rattle.std.specs.List.{All, Contains};
ghost use Rattle.recipe_reader.specs.Members.{IsRising};
ghost use Rattle.recipe_reader.specs.Sets.{name_of, needs_of};
ghost use Rattle.conflict_search.specs.Numbers.{IsNumber, IsFirstPlace};
ghost use Rattle.conflict_search.specs.Claims.{demand_need};
ghost use Rattle.conflict_search.specs.Stands.{members_in};
ghost use Rattle.conflict_search.specs.Terms.{AreNames};
ghost use Rattle.conflict_search.specs.Facts.{IsDemandOf, IsGroup};

use crate::demands::Demand;
use crate::library::Library;
use crate::terms::Term;
use nuc_base::NoMemory;
use std::alloc::Global;

/// Versions of a name that have one need, and the group that was made before it for the same needed name.
#[derive(Drop)]
pub(crate) struct Group<'a> {
    pub(crate) need: Demand<'a>,
    pub(crate) by: Term,
    before: Option<usize>,
}

impl<'a> Group<'a> {
    /// Whether it is the group of such a need.
    fn is_of(&self, need: &Demand<'a>) -> bool
        ensures number { IsTrue result → self.now.need.number ≡ need.now.number }
        ensures range { IsTrue result → self.now.need.range.now ≡ need.now.range.now }
    {
        self.need.number == need.number && self.need.range == need.range
    }

    /// Adds a place that has the need.
    fn add(&mut self, library: &Library<'a>, place: u32)
        requires group { IsGroup (members_in library.now) self.old.by.from self.old }
        requires named { (n : List ℕ) → IsFirstPlace (members_in library.now) n self.old.by.from → name_of (members_in library.now) place ≡ Some n }
        requires needs { Contains (needs_of (members_in library.now) place) (demand_need self.old.need) }
        ensures { IsGroup (members_in library.now) self.old.by.from self.new }
    {
        library.add_place(&mut self.by, place);
    }
}

/// The last group that was made for the needed name with that number.
fn newest(groups: &[Group<'_>], last: &[usize], number: u32) -> Option<usize> {
    let at = *last.get(number as usize)?;
    let group = groups.get(at)?;
    if group.need.number == number {
        Some(at)
    } else {
        None
    }
}

/// Where the group of the need may be. It goes back over the groups of the needed name alone: for a name of V versions, over V
/// ranges at most for each need. What is found is tested once more: no answer rests on it.
fn group_of<'a>(groups: &[Group<'a>], newest: Option<usize>, need: &Demand<'a>) -> Option<usize> {
    let mut next = newest;
    for _group in 0..groups.len() {
        let at = next?;
        let group = groups.get(at)?;
        if group.is_of(need) {
            return Some(at);
        }
        next = group.before;
    }
    None
}

/// By number of a name the place of the last group that was made for it; at first of none.
pub(crate) fn none_made(alloc: Global, count: usize) -> Result<Vec<usize>, NoMemory> {
    let mut last = Vec::with_capacity(alloc, count)?;
    for _number in 0..count {
        last.push(0)?;
    }
    Ok(last)
}

fn set_last(last: &mut [usize], number: u32, at: usize) {
    if (number as usize) < last.len() {
        last[number as usize] = at;
    }
}

impl<'a> Library<'a> {
    /// A group of no version yet of the name with that number.
    fn empty_group(
        &self,
        number: u32,
        need: Demand<'a>,
        before: Option<usize>,
    ) -> Result<Group<'a>, NoMemory>
        requires count { length self.now.candidates.now < 2 ^ 32 }
        requires rising { IsRising (members_in self.now) }
        requires names { AreNames (members_in self.now) self.now.names.now }
        requires number { number < length self.now.candidates.now }
        requires need { IsNumber (members_in self.now) need.name.now need.number }
        ensures group { IfOk result (IsGroup (members_in self.now) (get_or self.now.names.now.first.items number 0)) }
        ensures need { IfOk result (λ g. g.need ≡ need.entry) }
    {
        let by = self.no_value(number)?;
        Ok(Group { need, by, before })
    }

    /// Adds the place, of the name with that number, to the group of a need that it has.
    fn gather(
        &self,
        groups: &mut Vec<Group<'a>>,
        last: &mut [usize],
        number: u32,
        place: u32,
        need: Demand<'a>,
    ) -> Result<(), NoMemory>
        requires count { length self.now.candidates.now < 2 ^ 32 }
        requires rising { IsRising (members_in self.now) }
        requires names { AreNames (members_in self.now) self.now.names.now }
        requires number { number < length self.now.candidates.now }
        requires named { name_of (members_in self.now) place ≡ name_of (members_in self.now) number }
        requires need { IsDemandOf (members_in self.now) (needs_of (members_in self.now) place) need }
        requires groups { All (IsGroup (members_in self.now) (get_or self.now.names.now.first.items number 0)) groups.old.items }
        ensures { OnOk result (All (IsGroup (members_in self.now) (get_or self.now.names.now.first.items number 0)) groups.new.items) }
    {
        let before = newest(groups.as_slice(), last, need.number);
        if let Some(at) = group_of(groups.as_slice(), before, &need) {
            if at < groups.len() && groups[at].is_of(&need) {
                groups[at].add(self, place);
                return Ok(());
            }
        }
        let mut group = self.empty_group(number, need, before)?;
        group.add(self, place);
        set_last(last, need.number, groups.len());
        groups.push(group)?;
        Ok(())
    }

    /// Adds the place to the groups of its needs.
    pub(crate) fn gather_all(
        &self,
        groups: &mut Vec<Group<'a>>,
        last: &mut [usize],
        number: u32,
        place: u32,
        needs: &[Demand<'a>],
    ) -> Result<(), NoMemory>
        requires count { length self.now.candidates.now < 2 ^ 32 }
        requires rising { IsRising (members_in self.now) }
        requires names { AreNames (members_in self.now) self.now.names.now }
        requires number { number < length self.now.candidates.now }
        requires named { name_of (members_in self.now) place ≡ name_of (members_in self.now) number }
        requires needs { All (IsDemandOf (members_in self.now) (needs_of (members_in self.now) place)) needs.now }
        requires groups { All (IsGroup (members_in self.now) (get_or self.now.names.now.first.items number 0)) groups.old.items }
        ensures { OnOk result (All (IsGroup (members_in self.now) (get_or self.now.names.now.first.items number 0)) groups.new.items) }
    {
        for need in needs {
            self.gather(groups, last, number, place, *need)?;
        }
        Ok(())
    }
}
