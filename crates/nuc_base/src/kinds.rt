ghost use Rattle.std.specs.Prelude.{◌≡◌};

use crate::copied::Copied;
use crate::memory::NoMemory;
use std::alloc::Global;

/// A step of a component's lifecycle (component recipe reference of AWS IoT Greengrass V2, "Lifecycle").
#[derive(Clone, Copy, Debug, PartialEq, Eq)]
pub enum Step {
    Install,
    Run,
    Startup,
    Shutdown,
    Recover,
    Bootstrap,
}

/// How a step's child program ended.
#[derive(Clone, Copy, Debug, PartialEq, Eq)]
pub enum Exit {
    /// It ended by itself with this code.
    Code(i32),
    /// A signal ended it, so it has no code.
    Signal,
    /// Its time limit passed and it was killed.
    TimedOut,
    /// Its start was refused.
    NotStarted,
    /// Its end could not be had.
    Lost,
}

/// What is done where a deployment fails.
#[derive(Clone, Copy, Debug, PartialEq, Eq)]
pub enum Policy {
    Rollback,
    DoNothing,
}

/// How a deployment closed.
#[derive(Clone, Copy, Debug, PartialEq, Eq)]
pub enum Outcome {
    Successful,
    RollbackComplete,
    RollbackNotRequested,
    UnableToRollback,
}

impl Copied for Step {
    ghost is_copy = { λ t u. u ≡ t };

    fn copy(&self, _alloc: Global) -> Result<Step, NoMemory> {
        Ok(*self)
    }
}

impl Copied for Exit {
    ghost is_copy = { λ t u. u ≡ t };

    fn copy(&self, _alloc: Global) -> Result<Exit, NoMemory> {
        Ok(*self)
    }
}

impl Copied for Policy {
    ghost is_copy = { λ t u. u ≡ t };

    fn copy(&self, _alloc: Global) -> Result<Policy, NoMemory> {
        Ok(*self)
    }
}

impl Copied for Outcome {
    ghost is_copy = { λ t u. u ≡ t };

    fn copy(&self, _alloc: Global) -> Result<Outcome, NoMemory> {
        Ok(*self)
    }
}
