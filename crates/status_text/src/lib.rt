//! What `status` prints of a device, in lines for people and as one JSON text for programs.
//!
//! It promises exactly the defined lines and the compact text of the defined object, which a JSON reader gives back. It
//! stands on `device`, and on `tree_core` for the object.
#![tactic(auto)]

mod lines;
mod places;
mod trees;
mod words;

pub use lines::{put_line, status_lines};
pub use trees::status_json;
pub use words::{outcome_word, stage_word};
