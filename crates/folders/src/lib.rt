//! What a folder of files is to its reader, while others move files in and out of it between any two calls.
//!
//! It promises nothing by itself. It has the traits over which the inbox and the library are written, the history of which
//! their contracts speak (`specs/History.antt`), and a folder in memory that tells it and has a script of what others do.
#![tactic(auto)]

mod folder;
mod identity;
mod lines;
mod memory;
mod memory_tray;
mod tray;

pub use folder::{Folder, FolderFault, Opened};
pub use identity::Identity;
pub use lines::{Change, Line, Placed, Side};
pub use memory::MemoryFolder;
pub use tray::Tray;
