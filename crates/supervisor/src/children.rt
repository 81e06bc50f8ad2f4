//! The children of a component that live.
ghost use Rattle.std.specs.Prelude.{◌≡◌, ◌∷◌, [], ◌==◌, ◌||◌, not, false, filter, option_map, IfOk, None, Some};
ghost use Rattle.std.specs.List.{list_any, find};
ghost use Rattle.lifecycle.specs.Awaits.{is_same_step, is_busy_with};
ghost use Rattle.components.specs.Deadlines.{has_passed, child_deadline, earlier};
ghost use Rattle.components.specs.Components.{is_orphan};

use components::Child;
use lifecycle::Component;
use nuc_base::{NoMemory, Step};
use std::alloc::Global;
use std::marker::Model;

/// Children of different steps, the last one that was started first. There is room for one of each step.
#[derive(Drop)]
pub struct Children {
    list: Vec<Child>,
}

impl Model for Children {
    ghost use Rattle.std.specs.Prelude.{◌≤◌, List, vec_capacity};
    ghost use Rattle.components.specs.Components.{Child};
    ghost use Rattle.supervisor.specs.Steps.{IsOnce};

    ghost Value = { List Child };

    ghost view = { λ c. c.list.items };

    ghost invariant = { λ c. (6 ≤ vec_capacity c.list) × IsOnce c.list.items };
}

impl Children {
    pub(crate) fn none(alloc: Global) -> Result<Children, NoMemory>
        ensures { IfOk result (λ c. c ≡ []) }
    {
        let list = Vec::with_capacity(alloc, 6)?;
        Ok(Children { list })
    }

    /// A child of a step of which none lives.
    pub(crate) fn push(&mut self, child: Child)
        requires { list_any (λ c. is_same_step child.of c.of) self.old ≡ false }
        ensures { self.new ≡ child ∷ self.old }
    {
        if self.list.insert(0, child).is_err() {
            unreachable!();
        }
    }

    /// The child of this number is gone.
    pub(crate) fn remove(&mut self, number: u64)
        ensures { self.new ≡ filter (λ c. not (c.number == number)) self.old }
    {
        self.list.retain(|child| child.number != number);
    }

    pub(crate) fn as_slice(&self) -> &[Child]
        ensures { result.now ≡ self.now }
    {
        self.list.as_slice()
    }
}

pub(crate) fn same_step(a: Step, b: Step) -> bool
    ensures { result ≡ is_same_step a b }
{
    match (a, b) {
        (Step::Install, Step::Install) => true,
        (Step::Run, Step::Run) => true,
        (Step::Startup, Step::Startup) => true,
        (Step::Shutdown, Step::Shutdown) => true,
        (Step::Recover, Step::Recover) => true,
        (Step::Bootstrap, Step::Bootstrap) => true,
        _ => false,
    }
}

/// Whether a child of the step lives.
pub(crate) fn has_child_of(children: &[Child], step: Step) -> bool
    ensures { result ≡ list_any (λ c. is_same_step step c.of) children.now }
{
    children.iter().any(|child| same_step(step, child.of))
}

fn passed(moment: u64, deadline: Option<u64>) -> bool
    ensures { result ≡ has_passed moment deadline }
{
    match deadline {
        None => false,
        Some(deadline) => deadline <= moment,
    }
}

/// The child of this number.
pub(crate) fn child_of(children: &[Child], number: u64) -> Option<&Child>
    ensures { option_map (λ c. c.now) result ≡ find (λ c. c.number == number) children.now }
{
    children.iter().find(|child| child.number == number)
}

/// Whether the deadline of the child of this number has passed.
pub(crate) fn is_late_child(children: &[Child], number: u64, moment: u64) -> bool
    ensures { result ≡ elim (find (λ c. c.number == number) children.now) [ None ↦ false | Some c ↦ has_passed moment c.deadline ] }
{
    match child_of(children, number) {
        None => false,
        Some(child) => passed(moment, child.deadline),
    }
}

pub(crate) fn busy_with(step: Step, busy: Option<Step>) -> bool
    ensures { result ≡ is_busy_with step busy }
{
    match busy {
        None => false,
        Some(other) => same_step(step, other),
    }
}

/// Whether a child of the step outlived the stop of its component.
pub(crate) fn outlives(step: Step, life: &Component) -> bool
    ensures { result ≡ is_orphan life.now step }
{
    !busy_with(step, life.busy()) && !(same_step(step, Step::Run) && life.runs())
}

/// Whether it is to be killed: its deadline has passed, or it outlived the stop of its component.
fn is_overdue(child: &Child, life: &Component, moment: u64) -> bool
    ensures { result ≡ (has_passed moment child.now.deadline || is_orphan life.now child.now.of) }
{
    passed(moment, child.deadline) || outlives(child.of, life)
}

/// The first child that is to be killed so.
pub(crate) fn overdue<'a>(children: &'a [Child], life: &Component, moment: u64) -> Option<&'a Child>
    ensures { option_map (λ c. c.now) result ≡ find (λ c. has_passed moment c.deadline || is_orphan life.now c.of) children.now }
{
    children
        .iter()
        .find(|child| is_overdue(child, life, moment))
}

/// Whether one outlived the stop of its component.
pub(crate) fn has_orphan(children: &[Child], life: &Component) -> bool
    ensures { result ≡ list_any (λ c. is_orphan life.now c.of) children.now }
{
    children.iter().any(|child| outlives(child.of, life))
}

/// The lesser of two numbers, where there is one.
pub(crate) fn earlier_of(a: Option<u64>, b: Option<u64>) -> Option<u64>
    ensures { result ≡ earlier a b }
{
    match (a, b) {
        (None, b) => b,
        (a, None) => a,
        (Some(a), Some(b)) => Some(a.min(b)),
    }
}

/// The earliest of these deadlines and another one.
pub(crate) fn least_with(children: &[Child], other: Option<u64>) -> Option<u64>
    ensures { result ≡ earlier other (child_deadline children.now) }
{
    let mut least = other;
    for child in children {
        least = earlier_of(least, child.deadline);
    }
    least
}
