//! Loops among places.

ghost use Rattle.std.specs.Prelude.{◌≡◌, ◌<◌, ◌^◌, ℕ, List, [], ◌∷◌, ◌++◌, length, IfOk, OnOk, IsTrue, MatchOption};
ghost use Rattle.std.specs.List.{Contains};
ghost use Rattle.recipe_reader.specs.Members.{members};
ghost use Rattle.why_not.specs.Certificates.{DependsOn};
ghost use Rattle.why_not.specs.Edges.{AreEdges, AddsEdges, HasNoLoop, IsLoopOf};

use crate::facts::depends_on;
use dep_order::{Edges, Need, OrderFault, order};
use nuc_base::{List, NoMemory};
use recipe_reader::Candidate;
use std::alloc::Global;

/// Adds the edges from the place to those whose names it depends on.
fn add_edges(
    edges: &mut Vec<Need>,
    candidates: &[Candidate],
    place: u32,
    places: &[u32],
) -> Result<(), NoMemory>
    ensures { OnOk result (AddsEdges (members candidates.now) place places.now edges.old.items edges.new.items) }
{
    for other in places {
        if depends_on(candidates, place, *other) {
            edges.push(Need {
                from: place,
                to: *other,
                hard: true,
            })?;
        }
    }
    Ok(())
}

/// From each of the places to those whose names it depends on.
fn edges_among(
    alloc: Global,
    candidates: &[Candidate],
    places: &[u32],
) -> Result<Vec<Need>, NoMemory>
    ensures { IfOk result (λ edges. AreEdges (members candidates.now) places.now places.now edges.items) }
{
    let mut edges = Vec::new(alloc);
    for place in places {
        add_edges(&mut edges, candidates, *place, places)?;
    }
    Ok(edges)
}

/// A loop among the places.
fn loop_among(
    alloc: Global,
    candidates: &[Candidate],
    places: &[u32],
) -> Result<Option<Vec<u32>>, NoMemory>
    requires count { length candidates.now < 2 ^ 32 }
    ensures { IfOk result (λ found. MatchOption found
        (HasNoLoop (members candidates.now) places.now)
        (λ ps. IsLoopOf (members candidates.now) places.now ps.items)) }
{
    let needs = edges_among(alloc, candidates, places)?;
    let edges = Edges {
        nodes: candidates.len() as u32,
        needs: List::new(needs),
    };
    match order(alloc, &edges) {
        Ok(_) => Ok(None),
        Err(OrderFault::Cycle(cycle)) => Ok(Some(cycle.into_vec())),
        Err(OrderFault::NoMemory) => Err(NoMemory),
    }
}

/// The place depends on the name of none of the others.
fn leads_nowhere(candidates: &[Candidate], place: u32, others: &[u32]) -> bool
    ensures { IsTrue result → (x : ℕ) → Contains others.now x → DependsOn (members candidates.now) place x → ⊥ }
{
    for other in others {
        if depends_on(candidates, place, *other) {
            return false;
        }
    }
    true
}

/// The places, and behind them one more.
fn with_place(alloc: Global, places: &[u32], place: u32) -> Result<Vec<u32>, NoMemory>
    ensures { IfOk result (λ all. all.items ≡ places.now ++ place ∷ []) }
{
    let mut all = Vec::with_capacity(alloc, places.len())?;
    all.extend_from_slice(places)?;
    all.push(place)?;
    Ok(all)
}

/// A loop through the place, where the others have none.
pub(crate) fn loop_with(
    alloc: Global,
    candidates: &[Candidate],
    taken: &[u32],
    place: u32,
) -> Result<Option<Vec<u32>>, NoMemory>
    requires count { length candidates.now < 2 ^ 32 }
    requires acyclic { HasNoLoop (members candidates.now) taken.now }
    ensures { IfOk result (λ found. MatchOption found
        (HasNoLoop (members candidates.now) (taken.now ++ place ∷ []))
        (λ ps. IsLoopOf (members candidates.now) (taken.now ++ place ∷ []) ps.items)) }
{
    let places = with_place(alloc, taken, place)?;
    if leads_nowhere(candidates, place, places.as_slice()) {
        return Ok(None);
    }
    loop_among(alloc, candidates, places.as_slice())
}
