//! Laws of the components of a device as they run, on functions that do nothing.
//!
//! It promises that between the device and the components `Keeps` holds from a change to other items on, whatever
//! befalls the components; that they stay orderly in every mode, whoever is replaced, and so do the steps and the hard needs
//! that their recipes give them; and what becomes of the children's owners. It stands on the definitions of `components`.
#![tactic(auto)]

mod changing;
mod keeping;
mod orders;
mod rows;

pub use changing::{changes_keep, ready_items_are_counted, the_broken_are_replaced};
pub use keeping::{
    closes_keep, ends_keep, kills_keep, moves_keep, refusals_keep, skips_keep, starts_keep,
    tellings_keep, time_keeps,
};
pub use orders::{
    changes_keep_order, children_go_alone, events_keep_order, events_keep_recipes, stops_keep_order,
};
pub use rows::{one_comes_back, one_fails_once, one_is_replaced};
