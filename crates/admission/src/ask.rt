use nuc_base::Name;

/// What the bytes are that ask for a deployment.
#[derive(Debug, Drop, PartialEq, Eq)]
pub enum Ask {
    /// A deployment document.
    Document,
    /// A request of the group of the device itself.
    Local,
    /// A change of the configuration of the component of this name.
    Change(Name),
}
