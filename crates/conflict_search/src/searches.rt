//! The search.

ghost use Rattle.std.specs.Prelude.{◌≡◌, ◌≤◌, ◌<◌, ◌^◌, [], ℕ, List, None, Err, length, IfOk, MatchOption};
ghost use Rattle.recipe_reader.specs.Members.{members, IsRising};
ghost use Rattle.recipe_reader.specs.Sets.{asked, IsPreferred, IsValid};
ghost use Rattle.recipe_reader.specs.Searches.{IsBest};
ghost use Rattle.recipe_reader.specs.Candidates.{AreCandidates};
ghost use Rattle.conflict_search.specs.Claims.{claims_from, AreDemands};
ghost use Rattle.conflict_search.specs.Stands.{members_in, wanted_in};
ghost use Rattle.conflict_search.specs.Terms.{AreNames};
ghost use Rattle.conflict_search.specs.States.{IsReady};

use crate::board::Board;
use crate::budget::Stop;
use crate::demands::{Demand, demands_wanted};
use crate::library::Library;
use crate::names::Names;
use crate::nogoods::Nogoods;
use crate::state::State;
use crate::trail::Trail;
use crate::watches::Watches;
use nuc_base::{List, NoMemory};
use recipe_reader::{Candidates, Wanted};
use std::alloc::Global;

/// So many steps a search allows itself: one for each nogood that is looked at and each of its terms, and for each name
/// that the walk comes to.
const MOST_STEPS: u64 = 16_777_216;

/// So many bytes what is learned may take.
const MOST_ROOM: u64 = 4_194_304;

/// Why no set was chosen.
#[derive(Debug, Drop)]
pub enum SearchFault {
    /// No set of the candidates is valid.
    NoVersion,
    NoMemory,
}

impl<'a> Library<'a> {
    /// What is known before any search: the facts. Nothing is decided.
    fn start(&self, wanted: &[Demand<'a>]) -> Result<State<'a>, NoMemory>
        requires count { length self.now.candidates.now < 2 ^ 32 }
        requires rising { IsRising (members_in self.now) }
        requires names { AreNames (members_in self.now) self.now.names.now }
        requires wanted { AreDemands (members_in self.now) (claims_from None (wanted_in self.now)) wanted.now }
        ensures { IfOk result (IsReady self.now) }
    {
        let mut nogoods = Nogoods {
            list: Vec::new(self.alloc),
        };
        self.add_facts(&mut nogoods, wanted)?;
        let board = Board::new(self.alloc, 0)?;
        let full = self.full_row()?;
        let trail = Trail {
            domains: self.full_row()?,
            root: self.full_row()?,
            events: Vec::new(self.alloc),
            root_events: 0,
            spread: 0,
            level: 0,
        };
        let watches = Watches::new(self.alloc, self.candidates.len())?;
        Ok(State {
            board,
            nogoods,
            trail,
            watches,
            full,
            room: MOST_ROOM,
        })
    }

    /// The best consistent walk, or none.
    fn best(&self, left: &mut u64, tries: &mut u64) -> Result<Option<Vec<u32>>, Stop>
        requires count { length self.now.candidates.now < 2 ^ 32 }
        requires rising { IsRising (members_in self.now) }
        requires names { AreNames (members_in self.now) self.now.names.now }
        ensures found { IfOk result (λ found. MatchOption found
            ((s : List ℕ) → IsValid (members_in self.now) (wanted_in self.now) s → ⊥)
            (λ path. IsBest (members_in self.now) (wanted_in self.now) [] path.items)) }
        ensures spent { result ≡ Err Stop.Spent → left.new ≡ 0 }
        ensures rises { tries.old ≤ tries.new }
    {
        let Some(wanted) = demands_wanted(self.alloc, self.candidates, self.wanted)? else {
            return Ok(None);
        };
        let state = self.start(wanted.as_slice())?;
        self.run(state, wanted.as_slice(), left, tries)
    }
}

/// The preferred valid set of the candidates for what is wanted, as places in their list, rising. `NoVersion` comes exactly
/// where no set is valid. `NoMemory` comes where memory was refused, and where the search used up what it allows itself:
/// 16,777,216 steps, or 4 MiB of learned nogoods. The same input gives the same answer everywhere: steps are counted, and
/// no clock is asked.
///
/// Valid and preferred sets are those of `resolver`. `tries` rises by one for each name that the walk comes to, and stays
/// at its type's end.
///
/// It begins with the facts of all names that can be reached from what is wanted, so its time is at least that of their
/// dependencies, times the logarithm of the candidates. Each conflict makes it start again from the root. Cycles are looked
/// for where no name is left. It has no recursion.
pub fn search(
    alloc: Global,
    candidates: &Candidates,
    wanted: &List<Wanted>,
    tries: &mut u64,
) -> Result<List<u32>, SearchFault>
    ensures preferred { IfOk result (λ set. IsPreferred (members candidates.now) (asked wanted.now) set) }
    ensures none { result ≡ Err SearchFault.NoVersion → (s : List ℕ) → IsValid (members candidates.now) (asked wanted.now) s → ⊥ }
    ensures tries { tries.old ≤ tries.new }
{
    let members = candidates.list().as_slice();
    let Ok(names) = Names::new(alloc, members) else {
        return Err(SearchFault::NoMemory);
    };
    let library = Library {
        alloc,
        candidates: members,
        wanted: wanted.as_slice(),
        names: &names,
    };
    let mut left = MOST_STEPS;
    match library.best(&mut left, tries) {
        Ok(Some(mut path)) => {
            path.sort_unstable();
            Ok(List::new(path))
        }
        Ok(None) => Err(SearchFault::NoVersion),
        Err(_) => Err(SearchFault::NoMemory),
    }
}
