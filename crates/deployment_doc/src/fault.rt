ghost use Rattle.std.specs.Prelude.{◌≡◌};
ghost use Rattle.deployment_doc.specs.Spelled.{spelled};

use nuc_base::{Name, NoMemory};
use std::alloc::{AllocError, AllocFailed};
use tree_core::TreeFault;

/// A key of a document that a fault names.
#[derive(Clone, Copy, Debug, PartialEq, Eq)]
pub enum Key {
    /// The whole tree.
    Document,
    DeploymentId,
    TargetArn,
    Revision,
    DeploymentPolicies,
    FailureHandlingPolicy,
    Components,
    ComponentVersion,
    ConfigurationUpdate,
    /// Spelled `reset` or `RESET`.
    Reset,
    /// Spelled `merge` or `MERGE`.
    Merge,
}

impl Key {
    /// The key as it is spelled in a document, or `document` for the whole tree.
    pub fn text(self) -> &'static str
        ensures { result.now ≡ spelled self }
    {
        match self {
            Key::Document => "document",
            Key::DeploymentId => "deploymentId",
            Key::TargetArn => "targetArn",
            Key::Revision => "revision",
            Key::DeploymentPolicies => "deploymentPolicies",
            Key::FailureHandlingPolicy => "failureHandlingPolicy",
            Key::Components => "components",
            Key::ComponentVersion => "componentVersion",
            Key::ConfigurationUpdate => "configurationUpdate",
            Key::Reset => "reset",
            Key::Merge => "merge",
        }
    }
}

/// Why bytes are no document. It is displayed as its printed reason.
#[derive(Debug, Drop)]
pub enum DocFault {
    /// The bytes are no tree within the limit.
    Tree(TreeFault),
    /// A key that has to be there is not.
    Missing(Key),
    /// The value of a key, or of what stands in it, is of another kind. A null is one where the key has to be there.
    WrongKind(Key),
    /// More than 128 components or 256 resets.
    TooMany(Key),
    /// Two spellings of one key stand in one object.
    DuplicateKey(Key),
    /// A text that is no label, or the key of a component that is no name.
    BadName(Key),
    /// The revision is below 1 or above 2^63 - 1.
    BadRevision,
    /// The policy is no known word.
    BadPolicy,
    /// The version of this component is no range.
    BadRange(Name),
    /// A reset of this component is no JSON pointer.
    BadPointer(Name),
    /// The merge of this component is no object and no text of one.
    BadMerge(Name),
    NoMemory,
}

impl From<NoMemory> for DocFault {
    ghost use Rattle.deployment_doc.specs.declared.fault.DocFault.TheVariants.{NoMemory as OutOfMemory};

    ghost from_gives = { λ _ e. e ≡ OutOfMemory };

    fn from(_: NoMemory) -> DocFault {
        DocFault::NoMemory
    }
}

impl From<AllocError> for DocFault {
    ghost use Rattle.deployment_doc.specs.declared.fault.DocFault.TheVariants.{NoMemory as OutOfMemory};

    ghost from_gives = { λ _ e. e ≡ OutOfMemory };

    fn from(_: AllocError) -> DocFault {
        DocFault::NoMemory
    }
}

impl<T: Drop> From<AllocFailed<T>> for DocFault {
    ghost use Rattle.deployment_doc.specs.declared.fault.DocFault.TheVariants.{NoMemory as OutOfMemory};

    ghost from_gives = { λ _ e. e ≡ OutOfMemory };

    fn from(_: AllocFailed<T>) -> DocFault {
        DocFault::NoMemory
    }
}
