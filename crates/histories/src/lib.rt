//! What a session may do: the definitions of its history, which is the specification of all session crates.
//!
//! It promises that histories join, and what follows of failures and bootstraps from a history alone. `history_rows` has the
//! worked rows and the wrong bodies.
#![tactic(auto)]

mod laws;

pub use laws::{causes, joins, made_ready, one_is_taken};
