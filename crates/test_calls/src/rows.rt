// Rows: stores that are made, and calls that go to them, one after another.
use crate::begin;
use disk_model::MemoryDisk;
use std::alloc::Global;
use std::test::Fail;

/// What the calls go to.
#[derive(Drop)]
pub struct Store {
    pub disk: MemoryDisk,
    pub recipes: &'static str,
}

/// What makes the calls of rows.
pub trait Caller {
    /// Whether the call of the row comes to what it says.
    fn is_row(&self, alloc: Global, store: &mut Store, row: &'static str) -> Result<bool, Fail>;
}

/// A new store whose library has these recipes.
fn store_of(alloc: Global, recipes: &'static str) -> Result<Store, Fail> {
    Ok(Store {
        disk: begin(alloc)?,
        recipes,
    })
}

/// Begins the store of the row, or makes its call: whether that comes to what the row says.
fn goes<C: Caller>(
    alloc: Global,
    caller: &C,
    store: &mut Store,
    row: &'static str,
) -> Result<bool, Fail> {
    match row.strip_prefix("store|") {
        Some(recipes) => {
            *store = store_of(alloc, recipes)?;
            Ok(true)
        }
        None => caller.is_row(alloc, store, row),
    }
}

/// The first row of which something else comes, from this store on, or none.
fn first_wrong_from<C: Caller>(
    alloc: Global,
    caller: &C,
    store: &mut Store,
    rows: &'static str,
) -> Result<&'static str, Fail> {
    for row in rows.lines() {
        if !goes(alloc, caller, store, row)? {
            return Ok(row);
        }
    }
    Ok("")
}

/// The first row of which something else comes, or none. A row `store|` begins a store, with the recipes of its library behind
/// the bar; every other row is a call.
pub fn first_wrong<C: Caller>(
    alloc: Global,
    caller: &C,
    rows: &'static str,
) -> Result<&'static str, Fail> {
    let mut store = store_of(alloc, "")?;
    let wrong = first_wrong_from(alloc, caller, &mut store, rows);
    drop(store);
    wrong
}
