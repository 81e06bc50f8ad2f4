use nuc_base::{Exit, Step};
use recipe_reader::Skip;
use step_runner::Command;

/// A step of an item, with all variables expanded.
#[derive(Drop)]
pub struct Prepared {
    pub command: Command,
    pub skip: Option<Skip>,
    /// After so many milliseconds it is ended.
    pub limit_ms: Option<u64>,
}

/// What is to be done, by the numbers of components and children.
#[derive(Clone, Copy, Debug, PartialEq, Eq)]
pub enum Act {
    /// Start this step, or skip it.
    Start(u32, Step),
    Kill(u64),
    /// The step failed, for the first or the second time.
    Failed(u32, Step, Exit),
    /// The step failed for the third time.
    Broke(u32, Step, Exit),
}

/// What befell the components.
#[derive(Clone, Copy, Debug, PartialEq, Eq)]
pub enum Event {
    /// The step's child has this number.
    Started(u32, Step, u64),
    Refused(u32, Step),
    Skipped(u32, Step),
    /// The child ended so.
    Ended(u64, Exit),
    /// Time went on.
    Passed,
}

/// Whether a deployment is driven.
#[derive(Clone, Copy, Debug, PartialEq, Eq)]
pub enum Mode {
    /// None is: failures are forgotten at a success.
    Steady,
    Deployment,
}
