use nuc_base::{List, Pointer};
use tree_core::Tree;

/// What a deployment asks of a component's configuration: the nodes to set back to the default, in order, and then
/// the value to merge in.
#[derive(Debug, Drop)]
pub struct Update {
    pub resets: List<Pointer>,
    pub merge: Option<Tree>,
}
