//! The places that have a name.

ghost use Rattle.std.specs.Prelude.{◌≡◌, ◌<◌, ◌^◌, ℕ, List, Some, length, get_or, IfOk};
ghost use Rattle.recipe_reader.specs.Members.{members, IsRising};
ghost use Rattle.recipe_reader.specs.Sets.{name_of};
ghost use Rattle.conflict_search.specs.Numbers.{IsNumber};
ghost use Rattle.conflict_search.specs.Terms.{AreNames};

use crate::numbers::{first_place, number_of};
use crate::places::name_at;
use nuc_base::NoMemory;
use recipe_reader::Candidate;
use std::alloc::Global;

/// By place, the first and the last of the places that have its name. They stand together.
#[derive(Drop)]
pub(crate) struct Names {
    pub(crate) first: Vec<u32>,
    pub(crate) last: Vec<u32>,
}

/// The last of the places that have the name of that place.
fn last_place(candidates: &[Candidate], place: u32) -> u32
    requires count { length candidates.now < 2 ^ 32 }
    requires rising { IsRising (members candidates.now) }
    requires place { place < length candidates.now }
    ensures { (n : List ℕ) → name_of (members candidates.now) place ≡ Some n → IsNumber (members candidates.now) n result }
{
    match number_of(candidates, name_at(candidates, place)) {
        Some(number) => number,
        None => place,
    }
}

impl Names {
    pub(crate) fn new(alloc: Global, candidates: &[Candidate]) -> Result<Names, NoMemory>
        requires count { length candidates.now < 2 ^ 32 }
        requires rising { IsRising (members candidates.now) }
        ensures { IfOk result (AreNames (members candidates.now)) }
    {
        let count = candidates.len();
        let mut first = Vec::with_capacity(alloc, count)?;
        let mut last = Vec::with_capacity(alloc, count)?;
        for place in 0..count {
            let name = name_at(candidates, place as u32);
            first.push(first_place(candidates, name))?;
            last.push(last_place(candidates, place as u32))?;
        }
        Ok(Names { first, last })
    }

    pub(crate) fn first(&self, place: u32) -> u32
        requires place { place < length self.now.first.items }
        ensures { result ≡ get_or self.now.first.items place 0 }
    {
        self.first[place as usize]
    }

    pub(crate) fn last(&self, place: u32) -> u32
        requires place { place < length self.now.last.items }
        ensures { result ≡ get_or self.now.last.items place 0 }
    {
        self.last[place as usize]
    }
}
