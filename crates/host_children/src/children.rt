//! The children that live, and their ends.
ghost use Rattle.std.specs.Prelude.{◌≡◌, ◌≢◌, ◌⊎◌, ◌==◌, ◌<◌, ℕ, true, not, All, Contains, map, filter, length, IfSome, IfNone, Option, Some, None};
ghost use Rattle.std.specs.Process.{child_status, exit_code};
ghost use Rattle.std.specs.declared.process.status.ExitStatus.{ExitStatus};
ghost use Rattle.step_runner.specs.Entries.{without};
ghost use Rattle.step_runner.specs.Waits.{is_own};
ghost use Rattle.host_children.specs.Ends.{ended_as, is_own_or_none};

use crate::keeper::{Keeper, StepProcess};
use nuc_base::Exit;
use std::fs::{File, Files};
use std::process::{Child, OpenProcess, Processes};
use std::rt::Clock;

/// A child that lives: it has not ended, or its end was not told yet.
#[derive(Drop)]
pub(crate) struct Running<P: OpenProcess> {
    pub(crate) number: u64,
    /// What was started for it, until that is handed back to whoever started it.
    step: Option<StepProcess<P>>,
    /// How it ended, where that was seen.
    ended: Option<Exit>,
    ghost own: { is_own_or_none ended ≡ true },
}

/// How a child ended that has this code, or none.
fn exit_of(code: Option<i32>) -> Exit
    ensures { result ≡ ended_as code }
{
    match code {
        Some(code) => Exit::Code(code),
        None => Exit::Signal,
    }
}

/// How the child ended, if it has.
pub(crate) fn poll<P: OpenProcess>(child: &mut Child<P>) -> Option<Exit>
    ensures own { IfSome result (λ exit. is_own exit ≡ true) }
    ensures its_own { IfSome result (λ exit. (exit ≡ Exit.Lost) ⊎
        ((status : ExitStatus) × (child_status child.new ≡ Some status) × (exit ≡ ended_as (exit_code status)))) }
{
    match child.try_wait() {
        Ok(None) => None,
        Ok(Some(status)) => Some(exit_of(status.code())),
        Err(_) => Some(Exit::Lost),
    }
}

impl<P: OpenProcess> Running<P> {
    pub(crate) fn new(number: u64, step: StepProcess<P>) -> Self
        ensures { result.number ≡ number }
    {
        Running {
            number,
            step: Some(step),
            ended: None,
        }
    }

    /// Looks whether it has ended, where that was not seen yet.
    fn look(&mut self)
        ensures { self.new.number ≡ self.old.number }
    {
        if self.ended.is_some() {
            return;
        }
        if let Some(step) = &mut self.step {
            self.ended = poll(&mut step.process);
        }
    }

    /// Of which component it is, where that was not handed back.
    pub(crate) fn component(&self) -> Option<&str> {
        match &self.step {
            Some(step) => Some(step.component.as_str()),
            None => None,
        }
    }
}

/// Has the child with this number seen off: where it has not ended it is killed. Another one stays as it is.
fn see_off_numbered<R: Processes + Clock + Files<File = File> + AllocGlobal>(
    child: &mut Running<R::Started>,
    keeper: &mut Keeper<'_, R>,
    number: u64,
)
    ensures number { child.new.number ≡ child.old.number }
    ensures other { child.old.number ≢ number → child.new ≡ child.old }
{
    if child.number == number {
        if let Some(step) = child.step.take() {
            keeper.see_off(step, child.ended);
        }
    }
}

/// Looks at each child.
#[tactic(auto, using(crate::proofs::Numbers::numbers_set))]
pub(crate) fn look_at<P: OpenProcess>(children: &mut Vec<Running<P>>)
    ensures { map (λ c. c.number) children.new.items ≡ map (λ c. c.number) children.old.items }
{
    for child in children.iter_mut() {
        child.look();
    }
}

/// The number and the end of the first child that was seen to have ended.
pub(crate) fn first_ended<P: OpenProcess>(children: &[Running<P>]) -> Option<(u64, Exit)>
    ensures lived { IfSome result (λ ended. Contains (map (λ c. c.number) children.now) ended.0) }
    ensures own { IfSome result (λ ended. is_own ended.1 ≡ true) }
{
    for child in children {
        if let Some(exit) = child.ended {
            return Some((child.number, exit));
        }
    }
    None
}

/// Has the child with this number seen off, and no other.
#[tactic(auto, using(crate::proofs::Numbers::kept_set))]
fn end_among<R: Processes + Clock + Files<File = File> + AllocGlobal>(
    keeper: &mut Keeper<'_, R>,
    children: &mut Vec<Running<R::Started>>,
    number: u64,
)
    ensures others { filter (λ c. not (c.number == number)) children.new.items ≡ filter (λ c. not (c.number == number)) children.old.items }
{
    for child in children.iter_mut() {
        see_off_numbered(child, keeper, number);
    }
}

/// Drops the child with this number, and no other.
#[tactic(auto, using(crate::proofs::Numbers::map_without))]
fn forget_numbered<P: OpenProcess + Drop>(children: &mut Vec<Running<P>>, number: u64)
    ensures left { children.new.items ≡ filter (λ c. not (c.number == number)) children.old.items }
    ensures numbers { map (λ c. c.number) children.new.items ≡ without number (map (λ c. c.number) children.old.items) }
{
    children.retain(|child| child.number != number);
}

/// Has the child with this number seen off, and drops it. Each other one stays as it is.
pub(crate) fn remove_numbered<R: Processes + Clock + Files<File = File> + AllocGlobal>(
    keeper: &mut Keeper<'_, R>,
    children: &mut Vec<Running<R::Started>>,
    number: u64,
)
    ensures left { children.new.items ≡ filter (λ c. not (c.number == number)) children.old.items }
    ensures numbers { map (λ c. c.number) children.new.items ≡ without number (map (λ c. c.number) children.old.items) }
{
    end_among(keeper, children, number);
    forget_numbered(children, number);
}
