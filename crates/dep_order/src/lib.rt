//! The order of places by their needs, and who depends on a place.
//!
//! Places are the numbers below a count, as the components of a set in the order of their names. A need says that one
//! place wants another to come first. There is one order: again and again the least place whose needs were all taken,
//! so that equal inputs are ordered alike on every device.
//!
//! It promises that order exactly where the needs have no cycle, a cycle of them elsewhere, and exactly the hard
//! dependents of a place. It stands on `nuc_base` alone.
#![tactic(auto)]

mod dependents;
mod laws;
mod orders;
mod places;
mod rows;
mod waiting;

pub use dependents::hard_dependents;
pub use laws::{cycle_leads_to_itself, needs_come_first, one_order, order_exists_without_cycle};
use nuc_base::List;
pub use orders::{OrderFault, order};

/// That the place `from` needs the place `to`, which is to come first. A soft need orders as a hard
/// one does, and makes no dependent.
#[derive(Clone, Copy, Debug)]
pub struct Need {
    pub from: u32,
    pub to: u32,
    pub hard: bool,
}

/// The places below a count, and what they need. One need may stand there more than once.
#[derive(Debug, Drop)]
pub struct Edges {
    pub nodes: u32,
    pub needs: List<Need>,
}
