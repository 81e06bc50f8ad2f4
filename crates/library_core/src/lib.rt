//! Recipes and artifacts that a device may take from a library, and the candidates that it has with them.
//!
//! It promises that `candidates` answers exactly the set of the built-in component, the kept items and the library's
//! recipes or the first refusal (`specs/Gathered.antt`), and that the library's fault is answered exactly where its
//! count rose. It stands on `recipe_reader` for candidates and on `records` for what is kept; the library is a trait,
//! of which `specs/Library.antt` says what it tells of what it holds, which may be another after each refresh.
#![tactic(auto)]

mod fault;
mod gather;
mod given_up;
mod kept;
mod laws;
mod library;
mod memory;
mod none;
mod stored;
mod taken;

pub use fault::CandidatesFault;
pub use gather::candidates;
pub use laws::gathered_are_one;
pub use library::{Library, LibraryFault, Piece};
pub use memory::{Contents, MemoryLibrary, Stored};
pub use none::NoLibrary;
