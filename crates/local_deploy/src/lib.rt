//! Local deployments: what an operator at the device asks for, and the document that it makes of the device.
//!
//! It promises that a request is read exactly, or refused by the first fault in the order of a table; that its document
//! asks of the group `local` what that asked before, without the removed names and with each merged name put to its range
//! (`specs/Lists.antt`); and that each refusal comes exactly where it is the first. It stands on `deployment_doc` for the
//! lines of an update and on `device` for the group.
#![tactic(auto)]

mod document;
mod fault;
mod heads;
mod list;
mod merge;
mod reason;
mod refusal;
mod remove;
mod request;
mod updates;

pub use document::local_document;
pub use fault::{Key, LocalFault};
pub use refusal::LocalRefusal;
pub use request::LocalRequest;
