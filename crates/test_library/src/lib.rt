//! Rows of the library in memory: the candidates that are gathered of it, the pieces of its artifacts, and what it holds
//! after a refresh.
//!
//! It promises nothing of its own: it holds the tests of `library_core`, in a crate of their own so that its library is
//! not proved again for them. It stands on `library_core`.
#![tactic(auto)]

#[cfg(test)]
mod nothing;
#[cfg(test)]
mod refreshes;
#[cfg(test)]
mod rows;
