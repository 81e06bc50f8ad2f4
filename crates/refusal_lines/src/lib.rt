//! What the first refusal of a document prints and with which status it ends, and what a plan prints.
//!
//! It promises exactly the lines of `specs/Lines.antt` and the statuses of `specs/Statuses.antt`, for every command that
//! reads a document. It stands on `plan_core` for refusals, on `records` for drafts and on `status_text` for lines.
#![tactic(auto)]

mod plans;
mod refusals;
mod statuses;

pub use plans::plan_text;
pub use refusals::refusal_text;
pub use statuses::{outcome_status, refusal_status};
