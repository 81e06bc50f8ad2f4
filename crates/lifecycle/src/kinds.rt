use nuc_base::{Exit, Step};

/// Where a component stands in its lifecycle (developer guide of AWS IoT Greengrass V2, "Component lifecycle").
#[derive(Clone, Copy, Debug, PartialEq, Eq)]
pub enum State {
    New,
    Installed,
    Starting,
    Running,
    Stopping,
    Finished,
    Errored,
    Broken,
}

/// What becomes of a component once it is stopped.
#[derive(Clone, Copy, Debug, PartialEq, Eq)]
pub enum After {
    /// It goes on with what it has installed.
    Restart,
    /// It begins anew, with no failures.
    Again,
    /// It is a component no longer.
    Gone,
}

/// What befalls a component.
#[derive(Clone, Copy, Debug, PartialEq, Eq)]
pub enum LifeEvent {
    /// All that it needs is up.
    MayBegin,
    /// Its run child was started.
    Launched,
    /// The step that was begun is not to be run, since what it would do is done.
    Skipped,
    /// The child of this step ended. A start that was refused ends with `NotStarted`, and a child that was
    /// killed at its time limit with `TimedOut`.
    Ended(Step, Exit),
    Stop(After),
    /// Its failure was handed out, and it may try again.
    Retry,
}

/// What is to be done after an event.
#[derive(Clone, Copy, Debug, PartialEq, Eq)]
pub enum LifeAct {
    Nothing,
    /// Start this step, or skip it.
    Begin(Step),
    /// Kill the children that still live.
    Kill,
    /// The step failed, for the first or the second time.
    Failed(Step, Exit),
    /// The step failed, and it was the third failure.
    Broke(Step, Exit),
}

/// Which steps a component has. Each has at most one of `run` and `startup`.
#[derive(Clone, Copy, Debug, PartialEq, Eq)]
pub struct StepSet {
    pub install: bool,
    pub run: bool,
    pub startup: bool,
    pub shutdown: bool,
    pub recover: bool,
}
