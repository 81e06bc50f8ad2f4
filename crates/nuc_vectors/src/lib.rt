//! Tables of inputs and answers, worked out by hand from the formats and the public standards, against the crates
//! below.
//!
//! It promises nothing of its own: each table is a test that crosses crates. It stands on every crate that it tests.
#![tactic(auto)]

#[cfg(test)]
mod configuration;
#[cfg(test)]
mod documents;
#[cfg(test)]
mod operations;
#[cfg(test)]
mod recipes;
#[cfg(test)]
mod variables;
