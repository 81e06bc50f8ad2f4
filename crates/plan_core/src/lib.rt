//! Plans: what a deployment document makes of a device and the candidates that it has.
//!
//! It promises that `make_plan` answers the draft of `specs/Plans.antt`, or the first check that fails, and that
//! `propose` makes the checks of `specs/Checks.antt` in their order, from the bytes of a document to its draft. It stands
//! on `conflict_search` for the set, on `config_ops` for configurations, on `dep_order` and `interpolation` for
//! bootstraps, and on `library_core` for the candidates.
#![tactic(auto)]

mod boots;
mod drafts;
mod fault;
mod items;
mod laws;
mod plan;
mod proposals;
mod questions;
mod requests;
mod sizes;

pub use fault::{PlanFault, Refusal};
pub use laws::{
    filled_drafts_may_be_accepted, gathered_candidates_make_plans, limits_in_order, small_plans,
};
pub use plan::make_plan;
pub use proposals::{open_id, propose, propose_read};
pub use questions::{Question, ask, ask_read};
