//! Deployment documents: what arrives from the cloud is either exactly a document or refused by the first fault in the
//! order of a table, named with its field.
//!
//! It promises both ways of that: `Document::read` answers the document that the lines of the table name, or the fault
//! of the first line that fails, and bytes have one fault at most. It stands on `tree_core` for the bytes, on
//! `npm_ranges` for versions, on `config_ops` for updates and on `sha2` for the id of a document that names none.
#![tactic(auto)]

mod document;
mod fault;
mod labels;
mod laws;
mod policy;
mod read;
mod reason;
mod revision;
mod roots;
mod update;

pub use document::{Document, Root};
pub use fault::{DocFault, Key};
pub use laws::document_laws;
pub use update::read_update;
