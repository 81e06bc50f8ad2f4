//! What is learned from a conflict.

ghost use Rattle.std.specs.Prelude.{◌≡◌, ◌≤◌, ◌<◌, ◌^◌, [], ℕ, Err, length, IfOk, OnOk};
ghost use Rattle.recipe_reader.specs.Members.{IsRising};
ghost use Rattle.conflict_search.specs.Stands.{members_in, wanted_in};
ghost use Rattle.conflict_search.specs.Terms.{AreNames, IsNogood, AreNogoods, IsNogoodRow};
ghost use Rattle.conflict_search.specs.States.{IsRooted, IsReady, IsLearned};

use crate::budget::Stop;
use crate::library::Library;
use crate::nogoods::Nogoods;
use crate::state::State;
use crate::terms::Term;
use crate::trail::Event;

/// What came of a conflict.
#[derive(Drop)]
pub(crate) enum Learned {
    /// A nogood more is known, and all decisions are taken back.
    Nogood,
    /// No valid set is left.
    NoneLeft,
}

/// Whether the draft has all that was left of the event's name before it: then its term was met without the event. No answer
/// rests on it.
fn was_met(draft: &[u64], event: &Event) -> bool {
    for (at, word) in event.before.iter().enumerate() {
        let other = draft.get(event.from.saturating_add(at)).copied();
        if *word & other.unwrap_or(0) != *word {
            return false;
        }
    }
    true
}

/// Whether no other term of the draft than the event's came to be met since the last decision. No answer rests on it.
fn is_last_of_level(draft: &[u64], earlier: &[Event], event: &Event) -> bool {
    for other in earlier.iter().rev() {
        if other.level != event.level {
            return event.level > 0;
        }
        if other.from != event.from && !was_met(draft, other) {
            return false;
        }
    }
    event.level > 0
}

/// About so many bytes the terms take.
fn size_of(terms: &[Term]) -> u64 {
    let mut size: u64 = 24;
    for term in terms {
        let words = term.set.len() as u64;
        size = size.saturating_add(words.saturating_mul(8).saturating_add(32));
    }
    size
}

impl<'a> Library<'a> {
    /// Joins the draft with the event's reason. Answers whether it has one.
    fn join_reason(&self, draft: &mut [u64], nogoods: &Nogoods, event: &Event) -> bool
        requires count { length self.now.candidates.now < 2 ^ 32 }
        requires rising { IsRising (members_in self.now) }
        requires names { AreNames (members_in self.now) self.now.names.now }
        requires draft { IsNogoodRow (members_in self.now) (wanted_in self.now) draft.old }
        requires nogoods { AreNogoods (members_in self.now) (wanted_in self.now) nogoods.now }
        ensures { IsNogoodRow (members_in self.now) (wanted_in self.now) draft.new }
    {
        let Some(reason) = event.reason else {
            return false;
        };
        let Some(terms) = nogoods.get(self, reason.nogood) else {
            return false;
        };
        if reason.term >= terms.len() {
            return false;
        }
        self.join(draft, terms, reason.term);
        true
    }

    /// Joins the draft, all of whose terms are met, with the reasons of the events that met them, from the latest back, until one
    /// term alone was met since the last decision.
    fn join_reasons(&self, draft: &mut [u64], nogoods: &Nogoods, events: &[Event])
        requires count { length self.now.candidates.now < 2 ^ 32 }
        requires rising { IsRising (members_in self.now) }
        requires names { AreNames (members_in self.now) self.now.names.now }
        requires draft { IsNogoodRow (members_in self.now) (wanted_in self.now) draft.old }
        requires nogoods { AreNogoods (members_in self.now) (wanted_in self.now) nogoods.now }
        ensures { IsNogoodRow (members_in self.now) (wanted_in self.now) draft.new }
    {
        for at in (0..events.len()).rev() {
            let event = &events[at];
            if !was_met(draft, event) {
                if is_last_of_level(draft, &events[..at], event) {
                    return;
                }
                if !self.join_reason(draft, nogoods, event) {
                    return;
                }
            }
        }
    }

    /// Keeps the nogood, where there is room for it.
    pub(crate) fn keep(
        &self,
        state: &mut State<'a>,
        terms: Vec<Term>,
        left: &mut u64,
    ) -> Result<(), Stop>
        requires rooted { IsRooted self.now state.old }
        requires nogood { IsNogood (members_in self.now) (wanted_in self.now) terms.items }
        ensures rooted { OnOk result (IsRooted self.now state.new) }
        ensures falls { left.new ≤ left.old }
        ensures spent { result ≡ Err Stop.Spent → left.new ≡ 0 }
    {
        let size = size_of(terms.as_slice());
        if state.room < size {
            *left = 0;
            return Err(Stop::Spent);
        }
        state.room -= size;
        state.nogoods.add(self, terms)?;
        Ok(())
    }

    /// Learns from a draft all of whose terms are met, and takes back all decisions.
    pub(crate) fn learn(
        &self,
        state: &mut State<'a>,
        mut draft: Vec<u64>,
        left: &mut u64,
    ) -> Result<Learned, Stop>
        requires count { length self.now.candidates.now < 2 ^ 32 }
        requires rising { IsRising (members_in self.now) }
        requires names { AreNames (members_in self.now) self.now.names.now }
        requires rooted { IsRooted self.now state.old }
        requires draft { IsNogoodRow (members_in self.now) (wanted_in self.now) draft.items }
        ensures learned { IfOk result (IsLearned self.now state.new) }
        ensures falls { left.new ≤ left.old }
        ensures spent { result ≡ Err Stop.Spent → left.new ≡ 0 }
    {
        let events = state.trail.events.as_slice();
        self.join_reasons(draft.as_mut_slice(), &state.nogoods, events);
        let terms = self.learned(draft.as_slice())?;
        if terms.is_empty() {
            return Ok(Learned::NoneLeft);
        }
        self.keep(state, terms, left)?;
        state.trail.restart(self.alloc)?;
        Ok(Learned::Nogood)
    }
}
