//! The commands on one component's configuration, in their pure parts: the change that bytes ask for, the document that
//! it makes of a device, and a node of a component's configuration.
//!
//! It promises that a change is read exactly, or refused by the first fault in the order of a table; that its document asks
//! of one of the device's groups what the group asks already, with the update at the one component; and that each refusal
//! comes exactly where it is the first. It stands on `deployment_doc` for the lines of an update and on `device` for what
//! is looked at.
#![tactic(auto)]

mod change;
mod document;
mod fault;
mod get;

pub use change::Change;
pub use document::config_document;
pub use fault::{GetFault, SetFault};
pub use get::config_get;
