//! Whole calls that run steps, against the top call: deployments that close, fail, go back, are cut off and go on.
//!
//! It promises nothing of its own: it holds tests. It stands on the top call and on the disks, libraries, sources, sinks
//! and runners in memory.
#![tactic(auto)]

#[cfg(test)]
mod again;
#[cfg(test)]
mod files;
#[cfg(test)]
mod hello;
#[cfg(test)]
mod memory;
#[cfg(test)]
mod rows;
#[cfg(test)]
mod stops;

/// Nothing: this crate is its tests. It is a program since the gate sums up the files below a library along every path of
/// `crates.txt`, and those of a program not at all.
fn main() {}
