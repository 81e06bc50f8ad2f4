//! From one stage of a deployment to the next, and how a call gives up.
//!
//! It promises that other items take the place of those that stand as `histories` allows it, and that what
//! `session_startup` asks of its start holds then; and that a deployment which fails is closed or rolled back as its plan wants it, with its one
//! record, and its line where it closes, also where the call that it failed in stopped before that record. Where a call
//! gives up, the children that live are killed where they are, and nothing else changes. It stands on the contract of a
//! supervisor and on the laws of its components.
#![tactic(auto)]

mod abort;
mod breaking;
mod failing;
mod items;
mod plan;

pub use abort::kill_all;
pub use breaking::{BreakOff, begin_rollback};
pub use failing::{close_failed, is_to_roll_back};
pub use items::change_items;
pub use plan::begin_items;
