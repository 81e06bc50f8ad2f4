//! A supervisor: it keeps the components of a device as they run, and tells what is handed out next.
//!
//! It promises that what befalls the components leaves exactly what the definitions of `components` say, by the contract of
//! `Supervise`, and that all memory is taken by `ready`. Where those stand that are needed is kept in cells, which only save
//! searches: no contract rests on it.
#![tactic(auto)]

mod acting;
mod asks;
mod befall;
mod changing;
mod children;
mod fitted;
mod holds;
mod lives;
mod marks;
mod merging;
mod needs;
mod places;
mod ready;
mod slot;
mod supervisor;

pub use ready::Ready;
pub use supervisor::Supervisor;
