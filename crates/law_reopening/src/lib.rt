//! Laws of what is found when a device is opened again behind a call, on a function that does nothing.
//!
//! It promises that each image that a crash may leave at the end of a call has the beginning of each bootstrap that started in it,
//! and each failure behind which anything started. It stands on the definitions of `session_boots` and on `law_histories`.
#![tactic(auto)]

mod laws;

pub use laws::starts_stand;
