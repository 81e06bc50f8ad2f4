//! Variables in scripts: a text in which each `{..}` that names a value of a component's scope is replaced by that
//! value, once.
//!
//! It promises exactly that text, and that there is one (`expansion_laws`): what a value contains is never expanded,
//! and what names no value stays as written. It stands on the trees of `tree_core` and the versions of `npm_ranges`.
#![tactic(auto)]

mod expansion;
mod fault;
mod laws;
mod scope;
mod size;
mod values;

pub use expansion::expand;
pub use laws::expansion_laws;
pub use scope::{Place, Scope};
pub use values::work_folder;
