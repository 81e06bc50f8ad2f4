//! The walk: which name comes next, and taking a place of it.

ghost use Rattle.std.specs.Prelude.{◌≡◌, ◌≤◌, ◌<◌, ◌^◌, ◌++◌, ◌∷◌, [], ℕ, Err, Some, length, IfOk, OnOk, MatchOption};
ghost use Rattle.std.specs.List.{All, Contains};
ghost use Rattle.recipe_reader.specs.Members.{IsRising};
ghost use Rattle.recipe_reader.specs.Sets.{IsComplete, needs_of};
ghost use Rattle.recipe_reader.specs.Searches.{IsBest};
ghost use Rattle.conflict_search.specs.Numbers.{IsNumberAt, IsNextNumber};
ghost use Rattle.conflict_search.specs.Claims.{claims_from, AreDemands};
ghost use Rattle.conflict_search.specs.Boards.{IsBoard};
ghost use Rattle.conflict_search.specs.Conflicts.{CannotStand};
ghost use Rattle.conflict_search.specs.Stands.{members_in, wanted_in};
ghost use Rattle.conflict_search.specs.Terms.{AreNames, IsNogoodRow, IsGreatestLeft};
ghost use Rattle.conflict_search.specs.States.{IsSearchState, IsRooted};

use crate::board::Board;
use crate::budget::{Stop, spend};
use crate::demands::Demand;
use crate::library::Library;
use crate::state::State;
use crate::trial::Trial;
use nuc_base::NoMemory;

impl<'a> Library<'a> {
    /// The number of the least required name that is not decided.
    fn next_number(&self, board: &Board) -> Option<u32>
        requires rising { IsRising (members_in self.now) }
        requires board { IsBoard (members_in self.now) (wanted_in self.now) board.now }
        ensures { MatchOption result
            (IsComplete (members_in self.now) (wanted_in self.now) board.now.places.items)
            (IsNextNumber (members_in self.now) (wanted_in self.now) board.now.places.items) }
    {
        board.first_waiting()
    }

    /// Decides a place of the name with that number, which asks for that.
    fn take(
        &self,
        board: &mut Board<'a>,
        number: u32,
        place: u32,
        demands: &[Demand<'a>],
    ) -> Result<(), NoMemory>
        requires board { IsBoard (members_in self.now) (wanted_in self.now) board.old }
        requires next { IsNextNumber (members_in self.now) (wanted_in self.now) board.old.places.items number }
        requires place { IsNumberAt (members_in self.now) place number }
        requires demands { AreDemands (members_in self.now) (claims_from (Some place) (needs_of (members_in self.now) place)) demands.now }
        ensures board { OnOk result (IsBoard (members_in self.now) (wanted_in self.now) board.new) }
        ensures places { OnOk result (board.new.places.items ≡ board.old.places.items ++ place ∷ []) }
    {
        board.choose(number, place)?;
        board.ask_all(demands)?;
        Ok(())
    }

    /// The draft of places that cannot stand together.
    fn draft_against(&self, full: &[u64], places: &[u32]) -> Result<Vec<u64>, NoMemory>
        requires count { length self.now.candidates.now < 2 ^ 32 }
        requires rising { IsRising (members_in self.now) }
        requires names { AreNames (members_in self.now) self.now.names.now }
        requires full { length full.now ≡ length self.now.candidates.now }
        requires inside { All (λ p. p < length self.now.candidates.now) places.now }
        requires conflict { CannotStand (members_in self.now) (wanted_in self.now) places.now }
        ensures { IfOk result (λ draft. IsNogoodRow (members_in self.now) (wanted_in self.now) draft.items) }
    {
        let terms = self.nogood_of(places)?;
        self.draft_of(full, terms.as_slice())
    }

    /// Lets the walk take the place, the greatest that is left of the name with that number. The draft of what stands
    /// against it, if anything does.
    fn step(
        &self,
        state: &mut State<'a>,
        number: u32,
        place: u32,
    ) -> Result<Option<Vec<u64>>, NoMemory>
        requires count { length self.now.candidates.now < 2 ^ 32 }
        requires rising { IsRising (members_in self.now) }
        requires names { AreNames (members_in self.now) self.now.names.now }
        requires state { IsSearchState self.now state.old }
        requires next { IsNextNumber (members_in self.now) (wanted_in self.now) state.old.board.places.items number }
        requires place { IsNumberAt (members_in self.now) place number }
        requires greatest { IsGreatestLeft (members_in self.now) state.old.trail.domains.items number place }
        ensures found { IfOk result (λ found. MatchOption found
            (IsSearchState self.now state.new × (state.new.board.places.items ≡ state.old.board.places.items ++ place ∷ []))
            (λ draft. IsRooted self.now state.new × IsNogoodRow (members_in self.now) (wanted_in self.now) draft.items)) }
    {
        match self.try_place(&state.board, number, place)? {
            Trial::Refused(places) => {
                let draft = self.draft_against(state.full.as_slice(), places.as_slice())?;
                Ok(Some(draft))
            }
            Trial::Fits(demands) => {
                self.take(&mut state.board, number, place, demands.as_slice())?;
                Ok(None)
            }
        }
    }

    /// Leaves the place, which the walk took last, alone of its name, and does what the nogoods then say.
    fn decide(
        &self,
        state: &mut State<'a>,
        place: u32,
        left: &mut u64,
    ) -> Result<Option<Vec<u64>>, Stop>
        requires count { length self.now.candidates.now < 2 ^ 32 }
        requires rising { IsRising (members_in self.now) }
        requires names { AreNames (members_in self.now) self.now.names.now }
        requires state { IsSearchState self.now state.old }
        requires place { Contains state.old.board.places.items place }
        ensures found { IfOk result (λ found. MatchOption found
            (IsSearchState self.now state.new)
            (λ draft. IsRooted self.now state.new × IsNogoodRow (members_in self.now) (wanted_in self.now) draft.items)) }
        ensures falls { left.new ≤ left.old }
        ensures spent { result ≡ Err Stop.Spent → left.new ≡ 0 }
    {
        if self.is_alone(state.trail.domains.as_slice(), place) {
            return Ok(None);
        }
        state.trail.decide(self, place)?;
        self.spread(state, left)
    }

    /// Goes on by the greatest place that is left of the name with that number, which comes next.
    fn advance(
        &self,
        state: &mut State<'a>,
        number: u32,
        left: &mut u64,
    ) -> Result<Option<Vec<u64>>, Stop>
        requires count { length self.now.candidates.now < 2 ^ 32 }
        requires rising { IsRising (members_in self.now) }
        requires names { AreNames (members_in self.now) self.now.names.now }
        requires state { IsSearchState self.now state.old }
        requires next { IsNextNumber (members_in self.now) (wanted_in self.now) state.old.board.places.items number }
        ensures found { IfOk result (λ found. MatchOption found
            (IsSearchState self.now state.new)
            (λ draft. IsRooted self.now state.new × IsNogoodRow (members_in self.now) (wanted_in self.now) draft.items)) }
        ensures falls { left.new ≤ left.old }
        ensures spent { result ≡ Err Stop.Spent → left.new ≡ 0 }
    {
        let Some(place) = self.greatest(state.trail.domains.as_slice(), number) else {
            let places = state.board.places.as_slice();
            let draft = self.draft_against(state.full.as_slice(), places)?;
            return Ok(Some(draft));
        };
        if let Some(draft) = self.step(state, number, place)? {
            return Ok(Some(draft));
        }
        self.decide(state, place, left)
    }

    /// The draft of what stands against a whole walk, which is kept as a nogood too. Where nothing does the walk is the best.
    fn check(&self, state: &mut State<'a>, left: &mut u64) -> Result<Option<Vec<u64>>, Stop>
        requires count { length self.now.candidates.now < 2 ^ 32 }
        requires rising { IsRising (members_in self.now) }
        requires names { AreNames (members_in self.now) self.now.names.now }
        requires state { IsSearchState self.now state.old }
        requires whole { IsComplete (members_in self.now) (wanted_in self.now) state.old.board.places.items }
        ensures found { IfOk result (λ found. MatchOption found
            (IsBest (members_in self.now) (wanted_in self.now) [] state.new.board.places.items)
            (λ draft. IsRooted self.now state.new × IsNogoodRow (members_in self.now) (wanted_in self.now) draft.items)) }
        ensures falls { left.new ≤ left.old }
        ensures spent { result ≡ Err Stop.Spent → left.new ≡ 0 }
    {
        let Some(cycle) = self.cycle_among(&state.board)? else {
            return Ok(None);
        };
        let terms = self.nogood_of_cycle(cycle.as_slice())?;
        let draft = self.draft_of(state.full.as_slice(), terms.as_slice())?;
        self.keep(state, terms, left)?;
        Ok(Some(draft))
    }

    /// Walks from the root to a whole walk that stands, or to the draft of a nogood all of whose terms are met.
    pub(crate) fn go_on(
        &self,
        state: &mut State<'a>,
        left: &mut u64,
        tries: &mut u64,
    ) -> Result<Option<Vec<u64>>, Stop>
        requires count { length self.now.candidates.now < 2 ^ 32 }
        requires rising { IsRising (members_in self.now) }
        requires names { AreNames (members_in self.now) self.now.names.now }
        requires state { IsSearchState self.now state.old }
        ensures found { IfOk result (λ found. MatchOption found
            (IsBest (members_in self.now) (wanted_in self.now) [] state.new.board.places.items)
            (λ draft. IsRooted self.now state.new × IsNogoodRow (members_in self.now) (wanted_in self.now) draft.items)) }
        ensures falls { left.new ≤ left.old }
        ensures spent { result ≡ Err Stop.Spent → left.new ≡ 0 }
        ensures rises { tries.old ≤ tries.new }
    {
        'walking: while let Some(number) = self.next_number(&state.board) {
            spend(left, 1)?;
            *tries = tries.saturating_add(1);
            if let Some(draft) = self.advance(state, number, left)? {
                return Ok(Some(draft));
            }
        }
        self.check(state, left)
    }
}
