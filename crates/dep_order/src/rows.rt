//! Needs by the place that is needed.

ghost use Rattle.std.specs.Prelude.{◌≡◌, ◌==◌, IfOk, filter};
ghost use Rattle.std.specs.List.Sorted.{IsNonDecreasingBy};
ghost use Rattle.dep_order.specs.Rows.{AreRows};

use crate::Need;
use nuc_base::NoMemory;
use std::alloc::Global;

/// The needs, sorted by the place that is needed.
pub(crate) fn rows_of(alloc: Global, needs: &[Need]) -> Result<Vec<Need>, NoMemory>
    ensures { IfOk result (λ rows. AreRows needs.now rows.items) }
{
    let mut rows = Vec::from_slice(alloc, needs)?;
    rows.sort_unstable_by_key(|need| need.to);
    Ok(rows)
}

/// Who needs the place, of needs that are sorted so.
pub(crate) fn row_to(rows: &[Need], place: u32) -> &[Need]
    requires { IsNonDecreasingBy (λ (e : Need). e.to) rows.now }
    ensures { result.now ≡ filter (λ e. e.to == place) rows.now }
{
    let start = rows.partition_point(|need| need.to < place);
    let rest = &rows[start..];
    let len = rest.partition_point(|need| need.to <= place);
    &rest[..len]
}
