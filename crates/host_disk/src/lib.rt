//! The real disk: the files of a folder.
//!
//! It promises that it meets its trait with its content untold: a fault is answered where its count rose, and else not. What
//! the system does is trusted.
#![tactic(auto)]

mod access;
mod disk;
mod folders;
mod listing;
mod names;
mod outside;
mod slot;
mod store;
mod strays;
mod streams;

pub use access::Access;
pub use disk::FileDisk;
