ghost use Rattle.std.specs.Prelude.{◌≡◌};
ghost use Rattle.local_deploy.specs.Spelled.{spelled};

use deployment_doc::DocFault;
use nuc_base::{Name, NoMemory};
use std::alloc::{AllocError, AllocFailed};
use tree_core::TreeFault;

/// A key of a request that a fault names.
#[derive(Clone, Copy, Debug, PartialEq, Eq)]
pub enum Key {
    /// The whole tree.
    Request,
    DeploymentId,
    FailureHandlingPolicy,
    Merge,
    Remove,
    UpdateConfig,
}

impl Key {
    /// The key as it is spelled in a request, or `request` for the whole tree.
    pub fn text(self) -> &'static str
        ensures { result.now ≡ spelled self }
    {
        match self {
            Key::Request => "request",
            Key::DeploymentId => "deploymentId",
            Key::FailureHandlingPolicy => "failureHandlingPolicy",
            Key::Merge => "merge",
            Key::Remove => "remove",
            Key::UpdateConfig => "updateConfig",
        }
    }
}

/// Why bytes are no request. It is displayed as its printed reason.
#[derive(Debug, Drop)]
pub enum LocalFault {
    /// The bytes are no tree within the limit.
    Tree(TreeFault),
    /// A key that has to be there is not.
    Missing(Key),
    /// The value of a key, or of what stands in it, is of another kind. A null is one where the key has to be there.
    WrongKind(Key),
    /// More than 128 names.
    TooMany(Key),
    /// A text that is no label, or a name that is none.
    BadName(Key),
    /// The policy is no known word.
    BadPolicy,
    /// What this name is merged with is no range.
    BadRange(Name),
    /// What the first line of an update refuses that fails.
    Update(DocFault),
    /// The least name that is merged and removed.
    Both(Name),
    NoMemory,
}

impl From<DocFault> for LocalFault {
    ghost use Rattle.local_deploy.specs.Lines.{update_fault};

    ghost from_gives = { λ f e. e ≡ update_fault f };

    fn from(fault: DocFault) -> LocalFault {
        match fault {
            DocFault::NoMemory => LocalFault::NoMemory,
            fault => LocalFault::Update(fault),
        }
    }
}

impl From<NoMemory> for LocalFault {
    ghost use Rattle.local_deploy.specs.declared.fault.LocalFault.TheVariants.{NoMemory as OutOfMemory};

    ghost from_gives = { λ _ e. e ≡ OutOfMemory };

    fn from(_: NoMemory) -> LocalFault {
        LocalFault::NoMemory
    }
}

impl From<AllocError> for LocalFault {
    ghost use Rattle.local_deploy.specs.declared.fault.LocalFault.TheVariants.{NoMemory as OutOfMemory};

    ghost from_gives = { λ _ e. e ≡ OutOfMemory };

    fn from(_: AllocError) -> LocalFault {
        LocalFault::NoMemory
    }
}

impl<T: Drop> From<AllocFailed<T>> for LocalFault {
    ghost use Rattle.local_deploy.specs.declared.fault.LocalFault.TheVariants.{NoMemory as OutOfMemory};

    ghost from_gives = { λ _ e. e ≡ OutOfMemory };

    fn from(_: AllocFailed<T>) -> LocalFault {
        LocalFault::NoMemory
    }
}
