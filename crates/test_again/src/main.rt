//! Whole calls that serve, exact to the moment: what broke comes up again after a pause, which grows.
//!
//! It promises nothing of its own: it holds tests. It stands on the calls of `test_calls`, and on the disks, libraries, inboxes and
//! runners in memory.
#![tactic(auto)]

#[cfg(test)]
mod calls;
#[cfg(test)]
mod late;
#[cfg(test)]
mod rows;

/// Nothing: this crate is its tests. It is a program since the gate sums up the files below a library along every path of
/// `crates.txt`, and those of a program not at all.
fn main() {}
