//! The real library and the real inbox over a folder.
//!
//! It promises that each meets its trait with its content untold: a fault is answered where its count rose, and else
//! not. What the system does is trusted.
#![tactic(auto)]

mod inbox;
mod library;
mod told;
mod tray;

pub use inbox::FolderInbox;
pub use library::FolderLibrary;
