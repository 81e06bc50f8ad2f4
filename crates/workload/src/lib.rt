//! The workload: deployments and recipes that are made from one number, and a runner whose children end by draws that go
//! on from them, so that one line can be compared on any machine.
//!
//! It promises that the recipes and documents, the ends of the children and the line are exactly those that the number
//! determines by the definitions in `specs/`. It stands on `tree_core` for the texts of recipes and documents, and on
//! `step_runner` for what a runner is.
#![tactic(auto)]

mod children;
mod documents;
mod entry_log;
mod generator;
mod inputs;
mod names;
mod objects;
mod recipes;
mod runner;
mod tallies;

pub use inputs::{Drawn, draw};
pub use runner::DrawRunner;
pub use tallies::{Tally, count_outcomes, tally_text, wants_memory};
