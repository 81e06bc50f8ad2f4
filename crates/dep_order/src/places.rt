//! Places in the order in which they were added.

ghost use Rattle.std.specs.Prelude.{◌≡◌, [], ◌∷◌, ◌++◌, ◌<◌, ◌↔◌, length, IsTrue, IfOk, OnOk};
ghost use Rattle.std.specs.Bool.{MatchBool};
ghost use Rattle.std.specs.List.{Contains};
ghost use Rattle.dep_order.specs.Places.{IsTidy};

use nuc_base::NoMemory;
use std::alloc::Global;

/// Places below a count, each once, in the order in which they were added. A mark for each place of
/// the count says whether it is among them, so that looking it up takes one step.
#[derive(Drop)]
pub(crate) struct Places {
    pub(crate) list: Vec<u32>,
    pub(crate) marks: Vec<bool>,
}

impl Places {
    /// No places yet, of that many.
    pub(crate) fn new(alloc: Global, count: u32) -> Result<Places, NoMemory>
        ensures tidy { IfOk result IsTidy }
        ensures count { IfOk result (λ places. length places.marks.items ≡ count) }
        ensures list { IfOk result (λ places. places.list.items ≡ []) }
    {
        let mut marks = Vec::with_capacity(alloc, count as usize)?;
        for _place in 0..count {
            marks.push(false)?;
        }
        Ok(Places {
            list: Vec::new(alloc),
            marks,
        })
    }

    pub(crate) fn has(&self, place: u32) -> bool
        requires tidy { IsTidy self.now }
        requires place { place < length self.now.marks.items }
        ensures { IsTrue result ↔ Contains self.now.list.items place }
    {
        self.marks[place as usize]
    }

    /// Adds the place where it is new, and says whether it was.
    pub(crate) fn add(&mut self, place: u32) -> Result<bool, NoMemory>
        requires tidy { IsTidy self.old }
        requires place { place < length self.old.marks.items }
        ensures tidy { OnOk result (IsTidy self.new) }
        ensures count { OnOk result (length self.new.marks.items ≡ length self.old.marks.items) }
        ensures list { IfOk result (λ added. MatchBool added
            ((Contains self.old.list.items place → ⊥) × (self.new.list.items ≡ self.old.list.items ++ place ∷ []))
            (Contains self.old.list.items place × (self.new.list.items ≡ self.old.list.items))) }
    {
        if self.has(place) {
            return Ok(false);
        }
        self.list.push(place)?;
        self.marks[place as usize] = true;
        Ok(true)
    }
}
