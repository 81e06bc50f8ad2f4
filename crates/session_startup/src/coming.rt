// The two stages in which items come up, as one.
ghost use Rattle.std.specs.Prelude.{◌≡◌, true, false, OnOk, IfOk};
ghost use Rattle.nuc_base.specs.Faults.{HasCause};
ghost use Rattle.records.specs.Stored.{StepFailed};
ghost use Rattle.device.specs.Devices.{device_view};
ghost use Rattle.device.specs.Lawful.{Allowed, applied};
ghost use Rattle.histories.specs.Phases.{duty_of};
ghost use Rattle.histories.specs.Waits.{has_three};
ghost use Rattle.session_startup.specs.Coming.{OwnsComing, coming_device, is_plan};
ghost use Rattle.deploy_state.specs.Objects.{KeepsOthers, LeavesOneOf, OwnsOver};

use deploy_state::{Activating, Rolling, Stopped};
use device::Device;
use disk_model::Disk;
use gate_log::Journal;
use nuc_base::{Exit, Name, Step};

/// Whose items come up.
#[derive(Drop)]
pub(crate) enum Coming<J: Journal + Drop> {
    /// Those of the plan.
    Plan(Activating<J>),
    /// Those of the set, again.
    Set(Rolling<J>),
}

impl<J: Journal + Drop> Coming<J> {
    pub(crate) fn device(&self) -> &Device
        ensures { device_view result.now ≡ coming_device self.now }
    {
        match self {
            Coming::Plan(state) => state.device(),
            Coming::Set(state) => state.device(),
        }
    }

    /// Whether an item has three failures.
    pub(crate) fn is_broken(&self) -> bool
        ensures { result ≡ has_three (duty_of (coming_device self.now)).counts }
    {
        match &self.device().pending {
            Some(pending) => pending.failures.iter().any(|count| *count == 3),
            None => false,
        }
    }

    /// Records that a step of the item of this name failed.
    pub(crate) fn failed<D: Disk>(
        self,
        disk: &mut D,
        name: &Name,
        step: Step,
        exit: Exit,
    ) -> Result<Coming<J>, Stopped<J>>
        requires held { OwnsOver D.Disk J.Journal OwnsComing self disk.old }
        requires may { Allowed (coming_device self) (StepFailed name.now step exit) }
        ensures moments { LeavesOneOf D.Disk J.Journal disk.old disk.new (coming_device self) (applied (coming_device self) (StepFailed name.now step exit)) }
        ensures taken { IfOk result (λ s. coming_device s ≡ applied (coming_device self) (StepFailed name.now step exit)) }
        ensures held { IfOk result (λ s. OwnsOver D.Disk J.Journal OwnsComing s disk.new) }
        ensures same { IfOk result (λ s. is_plan s ≡ is_plan self) }
        ensures others { KeepsOthers D.Disk J.Journal disk.old disk.new }
        ensures cause { HasCause (D.faults disk.old) (D.faults disk.new) result }
        ensures quiet { OnOk result (D.faults disk.new ≡ D.faults disk.old) }
    {
        match self {
            Coming::Plan(state) => match state.failed(disk, name, step, exit) {
                Ok(next) => Ok(Coming::Plan(next)),
                Err(stopped) => Err(stopped),
            },
            Coming::Set(state) => match state.failed(disk, name, step, exit) {
                Ok(next) => Ok(Coming::Set(next)),
                Err(stopped) => Err(stopped),
            },
        }
    }

    /// The state of the plan's items.
    pub(crate) fn into_plan(self) -> Activating<J>
        requires { is_plan self ≡ true }
        ensures { self ≡ Coming.Plan result }
    {
        match self {
            Coming::Plan(state) => state,
            Coming::Set(_) => unreachable!(),
        }
    }

    /// The state of the set's items.
    pub(crate) fn into_set(self) -> Rolling<J>
        requires { is_plan self ≡ false }
        ensures { self ≡ Coming.Set result }
    {
        match self {
            Coming::Plan(_) => unreachable!(),
            Coming::Set(state) => state,
        }
    }
}
