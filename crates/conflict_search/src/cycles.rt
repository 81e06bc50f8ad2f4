//! Cycles among the decided places.

ghost use Rattle.std.specs.Prelude.{◌≡◌, ◌<◌, ◌^◌, Some, None, ℕ, length, slice_index_or, IfOk, MatchOption};
ghost use Rattle.std.specs.List.{All, Contains};
ghost use Rattle.nuc_base.specs.Leads.{HasPath};
ghost use Rattle.dep_order.specs.Orders as orders;
ghost use Rattle.dep_order.specs.Faults.{IfCycle};
ghost use Rattle.recipe_reader.specs.Sets.{HasDependency};
ghost use Rattle.recipe_reader.specs.Searches.{IsConsistent};
ghost use Rattle.conflict_search.specs.Conflicts.{IsConflict, AreInRange};
ghost use Rattle.conflict_search.specs.Boards.{IsBoard};
ghost use Rattle.conflict_search.specs.Edges.{AreEdgesOf};
ghost use Rattle.conflict_search.specs.Stands.{members_in, wanted_in};

use crate::board::Board;
use crate::library::Library;
use dep_order::{Edges, Need, OrderFault, order};
use nuc_base::{List, NoMemory};
use std::alloc::Global;

/// The edges among the decided places: from each that asks to the one that is chosen.
fn edges_of(alloc: Global, board: &Board) -> Result<Vec<Need>, NoMemory>
    ensures { IfOk result (λ edges. AreEdgesOf board.now.asked.items board.now.chosen.items edges.items) }
{
    let mut edges = Vec::with_capacity(alloc, board.asked.len())?;
    for demand in &board.asked {
        if let Some(from) = demand.from {
            if let Some(to) = board.chosen_of(demand.number) {
                edges.push(Need {
                    from,
                    to,
                    hard: true,
                })?;
            }
        }
    }
    Ok(edges)
}

impl<'a> Library<'a> {
    /// A cycle among the decided places. Where there is none, nothing stands against them.
    pub(crate) fn cycle_among(&self, board: &Board) -> Result<Option<Vec<u32>>, NoMemory>
        requires count { length self.now.candidates.now < 2 ^ 32 }
        requires board { IsBoard (members_in self.now) (wanted_in self.now) board.now }
        requires in_range { AreInRange (members_in self.now) (wanted_in self.now) board.now.places.items }
        ensures { IfOk result (λ found. MatchOption found
            (IsConsistent (members_in self.now) (wanted_in self.now) board.now.places.items)
            (λ conflict. IsConflict (members_in self.now) (wanted_in self.now) board.now.places.items conflict.items)) }
    {
        let needs = edges_of(self.alloc, board)?;
        let edges = Edges {
            nodes: self.candidates.len() as u32,
            needs: List::new(needs),
        };
        match order(self.alloc, &edges) {
            Ok(_) => Ok(None),
            Err(OrderFault::Cycle(cycle)) => Ok(Some(cycle.into_vec())),
            Err(OrderFault::NoMemory) => Err(NoMemory),
        }
    }
}
