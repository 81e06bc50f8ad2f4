//! The order, or a cycle.

ghost use Rattle.std.specs.Prelude.{◌≡◌, ℕ, List, ◌<◌, length, IfOk, MatchOption, slice_index, slice_index_or, drop};
ghost use Rattle.std.specs.List.{Contains};
ghost use Rattle.dep_order.specs.Orders.{HasNeed, AreNodes, IsReady, IsOpen, IsOrder, IsWhole, IsWholeOrder, IsAcyclic, IsCycle};
ghost use Rattle.dep_order.specs.Places.{IsTidy};
ghost use Rattle.dep_order.specs.Rows.{AreRows};
ghost use Rattle.dep_order.specs.Faults.{IfCycle};

use crate::places::Places;
use crate::rows::{row_to, rows_of};
use crate::waiting::Waiting;
use crate::{Edges, Need};
use nuc_base::{List, NoMemory};
use std::alloc::Global;

/// Why there is no order.
#[derive(Debug, Drop)]
pub enum OrderFault {
    /// A cycle: each place needs the next, and the last needs the first. It is one of those that
    /// the needs have, not always the least.
    Cycle(List<u32>),
    NoMemory,
}

/// The places that can be taken, in their order. `rows` are the needs by the place that is needed.
fn take_all(alloc: Global, edges: &Edges, rows: &[Need]) -> Result<Places, NoMemory>
    requires nodes { AreNodes edges.now }
    requires rows { AreRows edges.now.needs rows.now }
    ensures tidy { IfOk result IsTidy }
    ensures count { IfOk result (λ taken. length taken.marks.items ≡ edges.now.nodes) }
    ensures order { IfOk result (λ taken. IsOrder edges.now taken.list.items) }
{
    let mut waiting = Waiting::new(alloc, edges.nodes, rows)?;
    let mut taken = Places::new(alloc, edges.nodes)?;
    while let Some(place) = waiting.take_least() {
        taken.add(place)?;
        waiting.settle(row_to(rows, place))?;
    }
    Ok(taken)
}

/// The places that can be taken, in their order.
fn take_ready(alloc: Global, edges: &Edges) -> Result<Places, NoMemory>
    requires { AreNodes edges.now }
    ensures tidy { IfOk result IsTidy }
    ensures count { IfOk result (λ taken. length taken.marks.items ≡ edges.now.nodes) }
    ensures order { IfOk result (λ taken. IsOrder edges.now taken.list.items) }
{
    let rows = rows_of(alloc, edges.needs.as_slice())?;
    take_all(alloc, edges, rows.as_slice())
}

/// The first place that is not among them.
fn first_missing(nodes: u32, taken: &Places) -> Option<u32>
    requires tidy { IsTidy taken.now }
    requires count { length taken.now.marks.items ≡ nodes }
    ensures { MatchOption result ((q : ℕ) → q < nodes → Contains taken.now.list.items q)
        (λ p. (p < nodes) × (Contains taken.now.list.items p → ⊥)) }
{
    for place in 0..nodes {
        if !taken.has(place) {
            return Some(place);
        }
    }
    None
}

/// As many times nothing.
fn nothing(alloc: Global, count: u32) -> Result<Vec<Option<u32>>, NoMemory>
    ensures count { IfOk result (λ list. length list.items ≡ count) }
    ensures each { IfOk result (λ list. (p : ℕ) → slice_index_or list.items p None ≡ None) }
{
    let mut list = Vec::with_capacity(alloc, count as usize)?;
    for _place in 0..count {
        list.push(None)?;
    }
    Ok(list)
}

/// For each place something that it needs and that is not taken.
fn open_needs(alloc: Global, edges: &Edges, taken: &Places) -> Result<Vec<Option<u32>>, NoMemory>
    requires nodes { AreNodes edges.now }
    requires tidy { IsTidy taken.now }
    requires count { length taken.now.marks.items ≡ edges.now.nodes }
    ensures count { IfOk result (λ next. length next.items ≡ edges.now.nodes) }
    ensures each { IfOk result (λ next. (p : ℕ) → MatchOption (slice_index_or next.items p None)
        (IsReady edges.now taken.now.list.items p)
        (λ q. HasNeed edges.now p q × (Contains taken.now.list.items q → ⊥))) }
{
    let mut next = nothing(alloc, edges.nodes)?;
    for need in edges.needs.as_slice() {
        if !taken.has(need.to) {
            next[need.from as usize] = Some(need.to);
        }
    }
    Ok(next)
}

/// The list from the place on.
fn part_from(alloc: Global, list: &[u32], place: u32) -> Result<Vec<u32>, NoMemory>
    requires { Contains list.now place }
    ensures { IfOk result (λ part. (i : ℕ) × (i < length list.now) × (slice_index list.now i ≡ place) × (part.items ≡ drop i list.now)) }
{
    for (i, other) in list.iter().enumerate() {
        if *other == place {
            return Ok(Vec::from_slice(alloc, &list[i..])?);
        }
    }
    unreachable!()
}

/// A cycle among the places that are not taken, where none of them can be taken next: from one to
/// something that it needs and that is not taken, until a place comes that was there.
fn cycle_from(
    alloc: Global,
    edges: &Edges,
    taken: &Places,
    start: u32,
) -> Result<Vec<u32>, NoMemory>
    requires nodes { AreNodes edges.now }
    requires tidy { IsTidy taken.now }
    requires count { length taken.now.marks.items ≡ edges.now.nodes }
    requires start { start < edges.now.nodes }
    requires untaken { Contains taken.now.list.items start → ⊥ }
    requires stuck { (p : ℕ) → IsOpen edges.now taken.now.list.items p → ⊥ }
    ensures { IfOk result (λ list. IsCycle edges.now list.items) }
{
    let next_of = open_needs(alloc, edges, taken)?;
    let mut way = Places::new(alloc, edges.nodes)?;
    let mut place = start;
    loop {
        let added = way.add(place)?;
        if !added {
            let cycle = part_from(alloc, &way.list, place)?;
            return Ok(cycle);
        }
        let Some(next) = next_of[place as usize] else {
            unreachable!()
        };
        place = next;
    }
}

/// Takes again and again the least place whose needs are all taken. It answers a cycle exactly where
/// the needs have one, and `NoMemory` where memory was refused. The time is that of the places and
/// the needs, times the logarithm of their count.
pub fn order(alloc: Global, edges: &Edges) -> Result<List<u32>, OrderFault>
    requires { AreNodes edges.now }
    ensures order { IfOk result (IsWholeOrder edges.now) }
    ensures acyclic { IfOk result (λ _. IsAcyclic edges.now) }
    ensures cycle { IfCycle result (IsCycle edges.now) }
{
    let taken = match take_ready(alloc, edges) {
        Ok(taken) => taken,
        Err(_) => return Err(OrderFault::NoMemory),
    };
    let Some(start) = first_missing(edges.nodes, &taken) else {
        return Ok(List::new(taken.list));
    };
    match cycle_from(alloc, edges, &taken, start) {
        Ok(cycle) => Err(OrderFault::Cycle(List::new(cycle))),
        Err(_) => Err(OrderFault::NoMemory),
    }
}
