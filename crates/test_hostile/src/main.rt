//! Hostile use of the whole program: calls of the disk and of other objects that fail or stop, damaged journals, and what is
//! larger by one than it may be.
//!
//! It promises nothing of its own: it holds tests. It stands on the top call, on the states of a store, and on the objects in
//! memory.
#![tactic(auto)]

#[cfg(test)]
mod damages;
#[cfg(test)]
mod faults;
#[cfg(test)]
mod limits;
#[cfg(test)]
mod turns;

/// Nothing: this crate is its tests. It is a program since the gate sums up the files below a library along every path of
/// `crates.txt`, and those of a program not at all.
fn main() {}
