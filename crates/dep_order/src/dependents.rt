//! Who depends on a place.

ghost use Rattle.std.specs.Prelude.{◌≡◌, ℕ, List, ◌++◌, ◌<◌, ◌↔◌, length, IfOk, OnOk};
ghost use Rattle.std.specs.List.{All, Contains};
ghost use Rattle.std.specs.List.Sorted.{IsStrictlyIncreasing};
ghost use Rattle.nuc_base.specs.Leads.{HasPath};
ghost use Rattle.dep_order.specs.Orders.{NeedsHard, AreNodes};
ghost use Rattle.dep_order.specs.Dependents.{AddsRow, IsClosed, HasFound};
ghost use Rattle.dep_order.specs.Places.{IsTidy};
ghost use Rattle.dep_order.specs.Rows.{AreRows};

use crate::places::Places;
use crate::rows::{row_to, rows_of};
use crate::{Edges, Need};
use nuc_base::{List, NoMemory};
use std::alloc::Global;

/// Adds each place that has one of those needs, where it is hard.
fn add_row(found: &mut Places, row: &[Need]) -> Result<(), NoMemory>
    requires tidy { IsTidy found.old }
    requires nodes { All (λ e. e.from < length found.old.marks.items) row.now }
    ensures tidy { OnOk result (IsTidy found.new) }
    ensures count { OnOk result (length found.new.marks.items ≡ length found.old.marks.items) }
    ensures adds { OnOk result (AddsRow row.now found.old.list.items found.new.list.items) }
{
    for need in row {
        if need.hard {
            found.add(need.from)?;
        }
    }
    Ok(())
}

/// All that reach the place, in the order in which they were found.
fn find_all(alloc: Global, edges: &Edges, rows: &[Need], of: u32) -> Result<Places, NoMemory>
    requires nodes { AreNodes edges.now }
    requires rows { AreRows edges.now.needs rows.now }
    ensures tidy { IfOk result IsTidy }
    ensures found { IfOk result (λ found. HasFound edges.now of found.list.items) }
    ensures closed { IfOk result (λ found. IsClosed edges.now of found.list.items) }
{
    let mut found = Places::new(alloc, edges.nodes)?;
    add_row(&mut found, row_to(rows, of))?;
    let mut index = 0;
    while index < found.list.len() {
        let place = found.list[index];
        add_row(&mut found, row_to(rows, place))?;
        index += 1;
    }
    Ok(found)
}

/// All places that reach the place by one or more hard needs, rising: the place itself too where it
/// lies on a cycle of such needs. A number past the places has none. The time is that of the places
/// and the needs, times the logarithm of their count.
pub fn hard_dependents(alloc: Global, edges: &Edges, of: u32) -> Result<List<u32>, NoMemory>
    requires { AreNodes edges.now }
    ensures rising { IfOk result IsStrictlyIncreasing }
    ensures exact { IfOk result (λ list. (p : ℕ) → Contains list p ↔ HasPath (NeedsHard edges.now) p of) }
{
    let rows = rows_of(alloc, edges.needs.as_slice())?;
    let found = find_all(alloc, edges, rows.as_slice(), of)?;
    let mut list = found.list;
    list.sort_unstable();
    Ok(List::new(list))
}
