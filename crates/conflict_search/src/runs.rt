//! Attempts, one after another, until a walk stands or nothing is left.

ghost use Rattle.std.specs.Prelude.{◌≡◌, ◌≤◌, ◌<◌, ◌^◌, [], ℕ, None, Err, length, IfOk, OnOk, MatchOption};
ghost use Rattle.recipe_reader.specs.Members.{IsRising};
ghost use Rattle.recipe_reader.specs.Searches.{IsBest, HasNone};
ghost use Rattle.conflict_search.specs.Claims.{claims_from, AreDemands};
ghost use Rattle.conflict_search.specs.Stands.{members_in, wanted_in};
ghost use Rattle.conflict_search.specs.Terms.{AreNames, IsNogoodRow};
ghost use Rattle.conflict_search.specs.States.{IsRooted, IsReady, IsSearchState};

use crate::board::Board;
use crate::budget::{Stop, spend};
use crate::conflicts::Learned;
use crate::demands::Demand;
use crate::library::Library;
use crate::state::State;
use nuc_base::NoMemory;

impl<'a> Library<'a> {
    /// Nothing is decided, and what is wanted is asked for.
    fn begin(&self, state: &mut State<'a>, wanted: &[Demand<'a>]) -> Result<(), NoMemory>
        requires ready { IsReady self.now state.old }
        requires wanted { AreDemands (members_in self.now) (claims_from None (wanted_in self.now)) wanted.now }
        ensures state { OnOk result (IsSearchState self.now state.new) }
        ensures places { OnOk result (state.new.board.places.items ≡ []) }
    {
        let mut board = Board::new(self.alloc, self.candidates.len())?;
        board.ask_all(wanted)?;
        state.board = board;
        Ok(())
    }

    /// Walks from the root to a whole walk that stands, or to the draft of a nogood all of whose terms are met.
    fn attempt(
        &self,
        state: &mut State<'a>,
        wanted: &[Demand<'a>],
        left: &mut u64,
        tries: &mut u64,
    ) -> Result<Option<Vec<u64>>, Stop>
        requires count { length self.now.candidates.now < 2 ^ 32 }
        requires rising { IsRising (members_in self.now) }
        requires names { AreNames (members_in self.now) self.now.names.now }
        requires ready { IsReady self.now state.old }
        requires wanted { AreDemands (members_in self.now) (claims_from None (wanted_in self.now)) wanted.now }
        ensures found { IfOk result (λ found. MatchOption found
            (IsBest (members_in self.now) (wanted_in self.now) [] state.new.board.places.items)
            (λ draft. IsRooted self.now state.new × IsNogoodRow (members_in self.now) (wanted_in self.now) draft.items)) }
        ensures falls { left.new ≤ left.old }
        ensures spent { result ≡ Err Stop.Spent → left.new ≡ 0 }
        ensures rises { tries.old ≤ tries.new }
    {
        self.begin(state, wanted)?;
        if let Some(draft) = self.spread(state, left)? {
            return Ok(Some(draft));
        }
        state.trail.keep_root(self.alloc)?;
        self.go_on(state, left, tries)
    }

    /// The best walk, or none where nothing is left.
    pub(crate) fn run(
        &self,
        mut state: State<'a>,
        wanted: &[Demand<'a>],
        left: &mut u64,
        tries: &mut u64,
    ) -> Result<Option<Vec<u32>>, Stop>
        requires count { length self.now.candidates.now < 2 ^ 32 }
        requires rising { IsRising (members_in self.now) }
        requires names { AreNames (members_in self.now) self.now.names.now }
        requires ready { IsReady self.now state }
        requires wanted { AreDemands (members_in self.now) (claims_from None (wanted_in self.now)) wanted.now }
        ensures found { IfOk result (λ found. MatchOption found
            (HasNone (members_in self.now) (wanted_in self.now) [])
            (λ path. IsBest (members_in self.now) (wanted_in self.now) [] path.items)) }
        ensures spent { result ≡ Err Stop.Spent → left.new ≡ 0 }
        ensures rises { tries.old ≤ tries.new }
    {
        'attempts: loop {
            spend(left, 1)?;
            let Some(draft) = self.attempt(&mut state, wanted, left, tries)? else {
                return Ok(Some(state.board.places));
            };
            if let Learned::NoneLeft = self.learn(&mut state, draft, left)? {
                return Ok(None);
            }
        }
    }
}
