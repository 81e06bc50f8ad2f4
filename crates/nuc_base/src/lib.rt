//! The small types that every crate of the nucleus shares: plain containers, names, labels, pointers, statuses and the
//! words of a component's life.
//!
//! It promises that contracts may see each of these as the value that it stands for, a text as a list of bytes say;
//! that names, labels and pointers are read exactly where the bytes are such; and that copies, equality, order and
//! hashes are those of the values. It stands on std alone.
#![tactic(auto)]

mod artifact;
mod bytes;
mod copied;
mod failing;
mod kinds;
mod limits;
mod list;
mod memory;
mod names;
mod platform;
mod pointer;
mod prefix;
mod status;
mod text;

pub use artifact::Artifact;
pub use bytes::Bytes;
pub use copied::Copied;
pub use failing::Failing;
pub use kinds::{Exit, Outcome, Policy, Step};
pub use limits::DOCUMENT_LIMIT;
pub use list::List;
pub use memory::NoMemory;
pub use names::{Label, Name, NameFault};
pub use platform::Platform;
pub use pointer::{Pointer, PointerFault};
pub use prefix::copy_prefix;
pub use status::Status;
pub use text::{FileName, Text};
