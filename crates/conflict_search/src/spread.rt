//! Doing what the nogoods say of the domains.

ghost use Rattle.std.specs.Prelude.{◌≡◌, ◌≤◌, ◌<◌, ◌^◌, Err, ℕ, length, get_or, IfOk, OnOk, MatchOption};
ghost use Rattle.recipe_reader.specs.Members.{IsRising};
ghost use Rattle.conflict_search.specs.declared.terms.Term.{Term};
ghost use Rattle.conflict_search.specs.Stands.{members_in, wanted_in};
ghost use Rattle.conflict_search.specs.Terms.{AreNames, IsNogoodRow, IsWithin};
ghost use Rattle.conflict_search.specs.States.{IsSearchState, IsRooted, IsSaid, IsHeard};

use crate::budget::{Stop, spend};
use crate::domains::{is_apart, is_within};
use crate::library::Library;
use crate::sets::has;
use crate::state::State;
use crate::terms::Term;
use crate::trail::Reason;
use crate::watches::Watch;
use nuc_base::NoMemory;

/// What a nogood says of a row.
#[derive(Drop)]
pub(crate) enum Says {
    /// Two terms or more are not met, or one is refuted.
    Nothing,
    /// All terms but that one are met: its values are to be taken.
    Take(usize),
    /// All terms are met.
    Conflict,
}

/// What came of a nogood.
#[derive(Drop)]
pub(crate) enum Heard {
    Nothing,
    /// It watches another value in place of the one that went.
    Passed,
    /// It took values.
    Taken,
    /// All its terms are met: this is its draft.
    Conflict(Vec<u64>),
}

/// The first term from that place on of which the row has more than its set; behind the last where there is none.
fn first_unmet(row: &[u64], terms: &[Term], from: usize) -> usize
    ensures within { result ≤ length terms.now }
    ensures met { (k : ℕ) (t : Term) → from ≤ k → k < result → IsWithin row.now (get_or terms.now k t) }
{
    for at in from..terms.len() {
        if !is_within(row, &terms[at]) {
            return at;
        }
    }
    terms.len()
}

/// What the nogood of these terms says of the row.
fn open_term(row: &[u64], terms: &[Term]) -> Says
    ensures { IsSaid row.now terms.now result }
{
    let at = first_unmet(row, terms, 0);
    if at >= terms.len() {
        return Says::Conflict;
    }
    if first_unmet(row, terms, at + 1) < terms.len() || is_apart(row, &terms[at]) {
        return Says::Nothing;
    }
    Says::Take(at)
}

impl<'a> Library<'a> {
    /// Does what the nogood with that number says.
    fn heed(&self, state: &mut State<'a>, nogood: usize) -> Result<Heard, NoMemory>
        requires count { length self.now.candidates.now < 2 ^ 32 }
        requires rising { IsRising (members_in self.now) }
        requires names { AreNames (members_in self.now) self.now.names.now }
        requires state { IsSearchState self.now state.old }
        ensures places { state.new.board.places.items ≡ state.old.board.places.items }
        ensures heard { IfOk result (IsHeard self.now state.new) }
    {
        let Some(terms) = state.nogoods.get(self, nogood) else {
            return Ok(Heard::Nothing);
        };
        match open_term(state.trail.domains.as_slice(), terms) {
            Says::Nothing => Ok(Heard::Nothing),
            Says::Take(term) => {
                state.trail.take(self, terms, Reason { nogood, term })?;
                Ok(Heard::Taken)
            }
            Says::Conflict => Ok(Heard::Conflict(self.draft_of(state.full.as_slice(), terms)?)),
        }
    }

    /// Begins the nogood with that number, the next: it watches what is left, and is heeded.
    fn begin_nogood(&self, state: &mut State<'a>, nogood: usize) -> Result<Heard, NoMemory>
        requires count { length self.now.candidates.now < 2 ^ 32 }
        requires rising { IsRising (members_in self.now) }
        requires names { AreNames (members_in self.now) self.now.names.now }
        requires state { IsSearchState self.now state.old }
        ensures places { state.new.board.places.items ≡ state.old.board.places.items }
        ensures heard { IfOk result (IsHeard self.now state.new) }
    {
        if let Some(terms) = state.nogoods.get(self, nogood) {
            state.watches.begin(state.trail.domains.as_slice(), terms)?;
        }
        self.heed(state, nogood)
    }

    /// Begins all nogoods that are new. The draft of one all of whose terms are met, if there is one.
    fn begin_nogoods(&self, state: &mut State<'a>, left: &mut u64) -> Result<Option<Vec<u64>>, Stop>
        requires count { length self.now.candidates.now < 2 ^ 32 }
        requires rising { IsRising (members_in self.now) }
        requires names { AreNames (members_in self.now) self.now.names.now }
        requires state { IsSearchState self.now state.old }
        ensures places { state.new.board.places.items ≡ state.old.board.places.items }
        ensures found { IfOk result (λ found. MatchOption found
            (IsSearchState self.now state.new)
            (λ draft. IsRooted self.now state.new × IsNogoodRow (members_in self.now) (wanted_in self.now) draft.items)) }
        ensures falls { left.new ≤ left.old }
        ensures spent { result ≡ Err Stop.Spent → left.new ≡ 0 }
    {
        'beginning: while state.watches.count() < state.nogoods.list.len() {
            spend(left, 1)?;
            let nogood = state.watches.count();
            if let Heard::Conflict(draft) = self.begin_nogood(state, nogood)? {
                return Ok(Some(draft));
            }
        }
        Ok(None)
    }

    /// Looks at the nogood at that place of the list of the value, which went.
    fn look(
        &self,
        state: &mut State<'a>,
        gone: Watch,
        at: usize,
        nogood: usize,
        left: &mut u64,
    ) -> Result<Heard, Stop>
        requires count { length self.now.candidates.now < 2 ^ 32 }
        requires rising { IsRising (members_in self.now) }
        requires names { AreNames (members_in self.now) self.now.names.now }
        requires state { IsSearchState self.now state.old }
        ensures places { state.new.board.places.items ≡ state.old.board.places.items }
        ensures heard { IfOk result (IsHeard self.now state.new) }
        ensures falls { left.new ≤ left.old }
        ensures spent { result ≡ Err Stop.Spent → left.new ≡ 0 }
    {
        let Some(terms) = state.nogoods.get(self, nogood) else {
            return Ok(Heard::Nothing);
        };
        spend(left, terms.len() as u64)?;
        let row = state.trail.domains.as_slice();
        if state.watches.pass(row, terms, nogood, gone, at)? {
            return Ok(Heard::Passed);
        }
        let heard = self.heed(state, nogood)?;
        Ok(heard)
    }

    /// Looks at the nogoods that watch the value, which went.
    fn spread_value(
        &self,
        state: &mut State<'a>,
        gone: Watch,
        left: &mut u64,
    ) -> Result<Option<Vec<u64>>, Stop>
        requires count { length self.now.candidates.now < 2 ^ 32 }
        requires rising { IsRising (members_in self.now) }
        requires names { AreNames (members_in self.now) self.now.names.now }
        requires state { IsSearchState self.now state.old }
        ensures places { state.new.board.places.items ≡ state.old.board.places.items }
        ensures found { IfOk result (λ found. MatchOption found
            (IsSearchState self.now state.new)
            (λ draft. IsRooted self.now state.new × IsNogoodRow (members_in self.now) (wanted_in self.now) draft.items)) }
        ensures falls { left.new ≤ left.old }
        ensures spent { result ≡ Err Stop.Spent → left.new ≡ 0 }
    {
        let mut at: usize = 0;
        'looking: while let Some(nogood) = state.watches.nogood_at(gone, at) {
            spend(left, 1)?;
            match self.look(state, gone, at, nogood, left)? {
                Heard::Conflict(draft) => return Ok(Some(draft)),
                Heard::Passed => {}
                Heard::Nothing => at = at.saturating_add(1),
                Heard::Taken => at = at.saturating_add(1),
            }
        }
        Ok(None)
    }

    /// The same for all values that went with an event.
    fn spread_event(
        &self,
        state: &mut State<'a>,
        event: usize,
        left: &mut u64,
    ) -> Result<Option<Vec<u64>>, Stop>
        requires count { length self.now.candidates.now < 2 ^ 32 }
        requires rising { IsRising (members_in self.now) }
        requires names { AreNames (members_in self.now) self.now.names.now }
        requires state { IsSearchState self.now state.old }
        ensures places { state.new.board.places.items ≡ state.old.board.places.items }
        ensures found { IfOk result (λ found. MatchOption found
            (IsSearchState self.now state.new)
            (λ draft. IsRooted self.now state.new × IsNogoodRow (members_in self.now) (wanted_in self.now) draft.items)) }
        ensures falls { left.new ≤ left.old }
        ensures spent { result ≡ Err Stop.Spent → left.new ≡ 0 }
    {
        let gone = state.trail.gone(self.alloc, event)?;
        for value in 0..gone.set.len().saturating_mul(64) {
            if has(gone.set.as_slice(), value) {
                let watch = Watch {
                    from: gone.from,
                    value,
                };
                if let Some(draft) = self.spread_value(state, watch, left)? {
                    return Ok(Some(draft));
                }
            }
        }
        Ok(None)
    }

    /// Does what the nogoods say, until they say nothing more. The draft of one all of whose terms are met, if there is one.
    pub(crate) fn spread(
        &self,
        state: &mut State<'a>,
        left: &mut u64,
    ) -> Result<Option<Vec<u64>>, Stop>
        requires count { length self.now.candidates.now < 2 ^ 32 }
        requires rising { IsRising (members_in self.now) }
        requires names { AreNames (members_in self.now) self.now.names.now }
        requires state { IsSearchState self.now state.old }
        ensures places { state.new.board.places.items ≡ state.old.board.places.items }
        ensures found { IfOk result (λ found. MatchOption found
            (IsSearchState self.now state.new)
            (λ draft. IsRooted self.now state.new × IsNogoodRow (members_in self.now) (wanted_in self.now) draft.items)) }
        ensures falls { left.new ≤ left.old }
        ensures spent { result ≡ Err Stop.Spent → left.new ≡ 0 }
    {
        if let Some(draft) = self.begin_nogoods(state, left)? {
            return Ok(Some(draft));
        }
        'spreading: while state.trail.spread < state.trail.events.len() {
            spend(left, 1)?;
            let event = state.trail.spread;
            if let Some(draft) = self.spread_event(state, event, left)? {
                return Ok(Some(draft));
            }
            state.trail.spread = event.saturating_add(1);
        }
        Ok(None)
    }
}
