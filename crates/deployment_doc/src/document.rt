use config_ops::Update;
use npm_ranges::Range;
use nuc_base::{Label, List, Name, Policy};

/// A component that a deployment requires.
#[derive(Debug, Drop)]
pub struct Root {
    pub name: Name,
    pub range: Range,
    /// What is to change in its configuration.
    pub update: Option<Update>,
}

/// What a deployment asks of a group of devices.
#[derive(Debug, Drop)]
pub struct Document {
    /// The deployment's id, or the SHA-256 of the document's bytes where it gives none.
    pub id: Label,
    /// The group, by the text of `targetArn`.
    pub group: Label,
    /// Which list of the group this is, from 1 to 2^63 - 1 and rising from one document to the next, or 0 where the
    /// document says nothing of it.
    pub revision: u64,
    pub policy: Policy,
    /// At most 128, with names that rise strictly in byte order.
    pub roots: List<Root>,
}
