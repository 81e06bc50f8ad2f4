//! Whole stores against the top call: what is made, shown, planned, explained and refused, and what a stop at each call leaves.
//!
//! It promises nothing of its own: it holds tests. It stands on the top call and on the disks, libraries, sources and
//! sinks in memory.
#![tactic(auto)]

#[cfg(test)]
mod audits;
#[cfg(test)]
mod calls;
#[cfg(test)]
mod certificates;
#[cfg(test)]
mod limits;
#[cfg(test)]
mod looks;
#[cfg(test)]
mod plans;
#[cfg(test)]
mod settings;
#[cfg(test)]
mod stores;
#[cfg(test)]
mod whys;
#[cfg(test)]
mod workloads;

/// Nothing: this crate is its tests. It is a program since the gate sums up the files below a library along every path of
/// `crates.txt`, and those of a program not at all.
fn main() {}
