//! Laws of the whole history of a call, on functions that do nothing.
//!
//! It promises that a deployment with ROLLBACK closes as its whole new set, or else only where its steps failed and that
//! is recorded; that no bootstrap starts in a stage in which it ended, and nothing while a failure is not recorded; and
//! how far a deployment gets of which a call records no failure; and that a call that serves takes one document at most for
//! each question to its inbox. It stands on the definitions of `histories` and `device`.
#![tactic(auto)]

mod laws;

pub use laws::{nothing_starts_again, resumes_get_on, rollbacks_are_caused, serving_takes_once};
