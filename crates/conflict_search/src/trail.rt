//! What is left of each name, and how it came about.

ghost use Rattle.std.specs.Prelude.{◌≡◌, ◌<◌, ◌^◌, ℕ, List, length, OnOk};
ghost use Rattle.std.specs.List.{Contains};
ghost use Rattle.recipe_reader.specs.Members.{IsRising};
ghost use Rattle.conflict_search.specs.Stands.{members_in, wanted_in};
ghost use Rattle.conflict_search.specs.Terms.{AreNames, IsNogood, IsSound, AreOthersWithin};

use crate::library::Library;
use crate::terms::Term;
use nuc_base::NoMemory;
use std::alloc::Global;

/// A nogood took values of a name, or a decision did. It is a help to find what is worth learning; no answer rests on it.
#[derive(Drop)]
pub(crate) struct Event {
    /// The first place of the name.
    pub(crate) from: usize,
    /// The words of the name before.
    pub(crate) before: Vec<u64>,
    /// The nogood and its term; none where it was decided.
    pub(crate) reason: Option<Reason>,
    /// How many decisions there were, this one among them.
    pub(crate) level: u32,
}

#[derive(Clone, Copy, Drop)]
pub(crate) struct Reason {
    pub(crate) nogood: usize,
    pub(crate) term: usize,
}

/// The domains, those before any decision, and the events since the start. The first `root_events` of them came before any
/// decision, and of the first `spread` all that they lead to was done.
#[derive(Drop)]
pub(crate) struct Trail {
    pub(crate) domains: Vec<u64>,
    pub(crate) root: Vec<u64>,
    pub(crate) events: Vec<Event>,
    pub(crate) root_events: usize,
    pub(crate) spread: usize,
    pub(crate) level: u32,
}

/// So many words of the row, from that place on; behind its end they are empty.
fn words_at(alloc: Global, row: &[u64], from: usize, count: usize) -> Result<Vec<u64>, NoMemory> {
    let mut words = Vec::with_capacity(alloc, count)?;
    for at in 0..count {
        let word = row.get(from.saturating_add(at)).copied();
        words.push(word.unwrap_or(0))?;
    }
    Ok(words)
}

/// Values that went from the name with that first place.
#[derive(Drop)]
pub(crate) struct Gone {
    pub(crate) from: usize,
    pub(crate) set: Vec<u64>,
}

impl Trail {
    /// What went from the name of the event since it began.
    pub(crate) fn gone(&self, alloc: Global, event: usize) -> Result<Gone, NoMemory> {
        let mut set = Vec::new(alloc);
        let Some(event) = self.events.get(event) else {
            return Ok(Gone { from: 0, set });
        };
        for (at, word) in event.before.iter().enumerate() {
            let here = self.domains.get(event.from.saturating_add(at)).copied();
            set.push(*word ^ (*word & here.unwrap_or(0)))?;
        }
        Ok(Gone {
            from: event.from,
            set,
        })
    }

    /// Notes that values go from the name with that first place, which has so many words.
    fn note(
        &mut self,
        alloc: Global,
        from: usize,
        count: usize,
        reason: Option<Reason>,
    ) -> Result<(), NoMemory>
        ensures domains { self.new.domains.items ≡ self.old.domains.items }
        ensures root { self.new.root.items ≡ self.old.root.items }
    {
        let before = words_at(alloc, self.domains.as_slice(), from, count)?;
        let level = self.level;
        self.events.push(Event {
            from,
            before,
            reason,
            level,
        })?;
        Ok(())
    }

    /// Takes the values of that term, where all others of the nogood with that number are met.
    pub(crate) fn take(
        &mut self,
        library: &Library,
        terms: &[Term],
        reason: Reason,
    ) -> Result<(), NoMemory>
        requires count { length library.now.candidates.now < 2 ^ 32 }
        requires rising { IsRising (members_in library.now) }
        requires names { AreNames (members_in library.now) library.now.names.now }
        requires row { length self.old.domains.items ≡ length library.now.candidates.now }
        requires nogood { IsNogood (members_in library.now) (wanted_in library.now) terms.now }
        requires at { reason.term < length terms.now }
        requires others { AreOthersWithin self.old.domains.items terms.now reason.term }
        ensures count { length self.new.domains.items ≡ length self.old.domains.items }
        ensures root { self.new.root.items ≡ self.old.root.items }
        ensures sound { OnOk result ((taken : List ℕ) → IsSound (members_in library.now) (wanted_in library.now) taken self.old.domains.items
            → IsSound (members_in library.now) (wanted_in library.now) taken self.new.domains.items) }
    {
        let term = &terms[reason.term];
        self.note(library.alloc, term.from, term.set.len(), Some(reason))?;
        library.take_values(self.domains.as_mut_slice(), terms, reason.term);
        Ok(())
    }

    /// Leaves the place alone of its name: it was decided.
    pub(crate) fn decide(&mut self, library: &Library, place: u32) -> Result<(), NoMemory>
        requires count { length library.now.candidates.now < 2 ^ 32 }
        requires rising { IsRising (members_in library.now) }
        requires row { length self.old.domains.items ≡ length library.now.candidates.now }
        requires names { AreNames (members_in library.now) library.now.names.now }
        requires place { place < length library.now.candidates.now }
        ensures count { length self.new.domains.items ≡ length self.old.domains.items }
        ensures root { self.new.root.items ≡ self.old.root.items }
        ensures sound { OnOk result ((taken : List ℕ) → Contains taken place
            → IsSound (members_in library.now) (wanted_in library.now) taken self.old.domains.items
            → IsSound (members_in library.now) (wanted_in library.now) taken self.new.domains.items) }
    {
        let first = library.names.first(place) as usize;
        let last = library.names.last(place) as usize;
        let count = last.saturating_sub(first).saturating_add(1);
        self.level = self.level.saturating_add(1);
        self.note(library.alloc, first, count, None)?;
        library.take_others(self.domains.as_mut_slice(), place)?;
        Ok(())
    }

    /// What is left becomes what is left before any decision.
    pub(crate) fn keep_root(&mut self, alloc: Global) -> Result<(), NoMemory>
        ensures domains { self.new.domains.items ≡ self.old.domains.items }
        ensures root { OnOk result (self.new.root.items ≡ self.old.domains.items) }
    {
        self.root = Vec::from_slice(alloc, self.domains.as_slice())?;
        self.root_events = self.events.len();
        Ok(())
    }

    /// Takes back all decisions.
    pub(crate) fn restart(&mut self, alloc: Global) -> Result<(), NoMemory>
        ensures domains { OnOk result (self.new.domains.items ≡ self.old.root.items) }
        ensures root { self.new.root.items ≡ self.old.root.items }
    {
        self.domains = Vec::from_slice(alloc, self.root.as_slice())?;
        self.events.truncate(self.root_events);
        self.spread = self.spread.min(self.root_events);
        self.level = 0;
        Ok(())
    }
}
