ghost use Rattle.std.specs.Prelude.{◌≡◌};
ghost use Rattle.recipe_reader.specs.Spelled.{spelled};

use nuc_base::NoMemory;
use std::alloc::{AllocError, AllocFailed};
use tree_core::TreeFault;

/// A key of a recipe that a fault names.
#[derive(Clone, Copy, Debug, PartialEq, Eq)]
pub enum Key {
    /// The recipe as a whole.
    Recipe,
    RecipeFormatVersion,
    ComponentName,
    ComponentVersion,
    ComponentType,
    Lifecycle,
    ComponentConfiguration,
    DefaultConfiguration,
    ComponentDependencies,
    VersionRequirement,
    DependencyType,
    Manifests,
    Platform,
    Os,
    Architecture,
    Setenv,
    Install,
    Run,
    Startup,
    Shutdown,
    Recover,
    Bootstrap,
    BootstrapOnRollback,
    Script,
    Skipif,
    Timeout,
    Artifacts,
    Uri,
    Unarchive,
    Algorithm,
    Digest,
}

impl Key {
    /// The key as recipes spell it, steps in lower case.
    pub fn text(self) -> &'static str
        ensures { result.now ≡ spelled self }
    {
        match self {
            Key::Recipe => "recipe",
            Key::RecipeFormatVersion => "RecipeFormatVersion",
            Key::ComponentName => "ComponentName",
            Key::ComponentVersion => "ComponentVersion",
            Key::ComponentType => "ComponentType",
            Key::Lifecycle => "Lifecycle",
            Key::ComponentConfiguration => "ComponentConfiguration",
            Key::DefaultConfiguration => "DefaultConfiguration",
            Key::ComponentDependencies => "ComponentDependencies",
            Key::VersionRequirement => "VersionRequirement",
            Key::DependencyType => "DependencyType",
            Key::Manifests => "Manifests",
            Key::Platform => "Platform",
            Key::Os => "os",
            Key::Architecture => "architecture",
            Key::Setenv => "Setenv",
            Key::Install => "install",
            Key::Run => "run",
            Key::Startup => "startup",
            Key::Shutdown => "shutdown",
            Key::Recover => "recover",
            Key::Bootstrap => "bootstrap",
            Key::BootstrapOnRollback => "BootstrapOnRollback",
            Key::Script => "Script",
            Key::Skipif => "Skipif",
            Key::Timeout => "Timeout",
            Key::Artifacts => "Artifacts",
            Key::Uri => "URI",
            Key::Unarchive => "Unarchive",
            Key::Algorithm => "Algorithm",
            Key::Digest => "Digest",
        }
    }
}

/// Why a text is no recipe. The first fault answers, in the order in which a recipe is read.
#[derive(Clone, Copy, Debug, PartialEq, Eq)]
pub enum RecipeFault {
    /// The bytes are no tree.
    Tree(TreeFault),
    /// A key that must be there is absent.
    Missing(Key),
    /// The value of the key, or a member of that value, is of another kind than it must be.
    WrongKind(Key),
    /// The format is another than 2020-01-25.
    FormatVersion,
    /// The value of the key, or a key of that value, is no name.
    BadName(Key),
    BadVersion,
    /// The component's type is another than `aws.greengrass.generic`.
    UnsupportedType,
    /// There is a lifecycle outside of the manifests.
    GlobalLifecycle,
    /// The value of the key has more than 64 members.
    TooMany(Key),
    BadRange,
    /// A manifest's platform has a form that is not read.
    UnsupportedPlatform,
    /// There are manifests, and none is for this platform.
    NoManifest,
    /// Two keys of one object spell this key.
    DuplicateKey(Key),
    BadSkipif,
    /// The limit is not from 1 to 1,000,000 seconds.
    BadTimeout,
    /// The steps run and startup are both there.
    RunAndStartup,
    UnsupportedUri,
    /// An artifact is to be unpacked.
    ZipArtifact,
    BadDigest,
    /// Two artifacts have one file name.
    DuplicateArtifact,
    NoMemory,
}

impl From<NoMemory> for RecipeFault {
    ghost use Rattle.recipe_reader.specs.declared.fault.RecipeFault.TheVariants.{NoMemory as OutOfMemory};

    ghost from_gives = { λ _ e. e ≡ OutOfMemory };

    fn from(_: NoMemory) -> RecipeFault {
        RecipeFault::NoMemory
    }
}

impl From<AllocError> for RecipeFault {
    ghost use Rattle.recipe_reader.specs.declared.fault.RecipeFault.TheVariants.{NoMemory as OutOfMemory};

    ghost from_gives = { λ _ e. e ≡ OutOfMemory };

    fn from(_: AllocError) -> RecipeFault {
        RecipeFault::NoMemory
    }
}

impl<T: Drop> From<AllocFailed<T>> for RecipeFault {
    ghost use Rattle.recipe_reader.specs.declared.fault.RecipeFault.TheVariants.{NoMemory as OutOfMemory};

    ghost from_gives = { λ _ e. e ≡ OutOfMemory };

    fn from(_: AllocFailed<T>) -> RecipeFault {
        RecipeFault::NoMemory
    }
}
