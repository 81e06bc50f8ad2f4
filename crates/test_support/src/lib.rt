//! What several crates of tests share: a platform, journals of records that have names, recipes and small libraries from
//! rows, texts with many parts of one form, and tables of texts with what is answered.
//!
//! It promises which bytes such a journal has. Tests take their expected values from elsewhere.
#![tactic(auto)]

mod journals;
mod platforms;
mod recipes;
mod rows;
mod tables;
mod texts;

pub use journals::{journal_of, push_entry, record_named};
pub use platforms::linux;
pub use recipes::recipes_of;
pub use rows::{library_of, push_places, wanted_of};
pub use tables::{Reader, first_wrong, first_wrong_repeated};
pub use texts::{joined, push_resets, repeated};
