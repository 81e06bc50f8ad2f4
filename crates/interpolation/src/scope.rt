use npm_ranges::Version;
use nuc_base::{Label, List, Name, Text};
use tree_core::Tree;

/// A component of the set, with its configuration.
#[derive(Debug, Drop)]
pub struct Place {
    pub name: Name,
    pub version: Version,
    pub config: Tree,
}

/// What the variables of one component's recipe stand for.
#[derive(Debug, Drop)]
pub struct Scope {
    /// The folder of the nucleus.
    pub root: Text,
    /// The name of the thing.
    pub thing: Label,
    /// The component itself.
    pub own: Place,
    /// The components that its recipe names as dependencies. Where several have one name, the first counts.
    pub needed: List<Place>,
}
