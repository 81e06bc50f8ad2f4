// The plan's items are brought up.
ghost use Rattle.std.specs.Prelude.{◌≡◌, IsTrue, OnOk, IfOk, option_map};
ghost use Rattle.nuc_base.specs.Faults.{HasCause};
ghost use Rattle.records.specs.Stored as stored;
ghost use Rattle.records.specs.Stored.{Record};
ghost use Rattle.device.specs.Devices.{device_view};
ghost use Rattle.device.specs.Lawful.{Allowed, applied};
ghost use Rattle.nuc_base.specs.declared.kinds.Outcome.TheVariants as outcomes;
ghost use Rattle.deploy_state.specs.Fields.{CanBreakOff, IsBreak, broken_item};
ghost use Rattle.deploy_state.specs.Objects.{OwnsOver, IsReady, IsSpared, KeepsOthers, LeavesOneOf};
ghost use Rattle.deploy_state.specs.States.{OwnsActivating, OwnsBrokenOff, OwnsIdle, activating_device, activating_log, broken_device, broken_log, idle_device};

use crate::names::broken_in;
use crate::state::{Activating, BrokeOff, Idle, Stopped};
use device::Device;
use disk_model::Disk;
use gate_log::Journal;
use nuc_base::{Exit, Name, Outcome, Step};

impl<J: Journal + Drop> Activating<J> {
    /// The device for which the journal stands.
    pub fn device(&self) -> &Device
        ensures { device_view result.now ≡ activating_device self.now }
    {
        &self.hand.device
    }

    /// The first item, by name, with three failures.
    pub fn broken(&self) -> Option<&Name>
        ensures { option_map (λ n. n.now) result ≡ broken_item (activating_device self.now) }
    {
        broken_in(&self.hand.device)
    }

    /// Records that a step of the plan's item of this name failed.
    pub fn failed<D: Disk>(
        self,
        disk: &mut D,
        name: &Name,
        step: Step,
        exit: Exit,
    ) -> Result<Activating<J>, Stopped<J>>
        requires held { OwnsOver D.Disk J.Journal OwnsActivating self disk.old }
        requires may { Allowed (activating_device self) (stored.StepFailed name.now step exit) }
        ensures moments { LeavesOneOf D.Disk J.Journal disk.old disk.new (activating_device self)
            (applied (activating_device self) (stored.StepFailed name.now step exit)) }
        ensures taken { IfOk result (λ s. activating_device s ≡ applied (activating_device self) (stored.StepFailed name.now step exit)) }
        ensures held { IfOk result (λ s. OwnsOver D.Disk J.Journal OwnsActivating s disk.new) }
        ensures spared { IsSpared D.Disk J.Journal (activating_log self) disk.old (activating_device self) disk.new }
        ensures ready { IsTrue D.is_modelled → IsReady D.Disk J.Journal (activating_log self) disk.old (activating_device self) →
            IfOk result (λ s. IsReady D.Disk J.Journal (activating_log s) disk.new (activating_device s)) }
        ensures others { KeepsOthers D.Disk J.Journal disk.old disk.new }
        ensures cause { HasCause (D.faults disk.old) (D.faults disk.new) result }
        ensures quiet { OnOk result (D.faults disk.new ≡ D.faults disk.old) }
    {
        match self.hand.count(disk, name, step, exit) {
            Ok(hand) => Ok(Activating { hand }),
            Err(stopped) => Err(stopped),
        }
    }

    /// A component is broken, and the deployment is rolled back.
    pub fn break_off<D: Disk>(self, disk: &mut D) -> Result<BrokeOff<J>, Stopped<J>>
        requires held { OwnsOver D.Disk J.Journal OwnsActivating self disk.old }
        requires may { CanBreakOff (activating_device self) }
        ensures moments { (r : Record) → IsBreak (activating_device self) r →
            LeavesOneOf D.Disk J.Journal disk.old disk.new (activating_device self)
            (applied (activating_device self) r) }
        ensures taken { (r : Record) → IsBreak (activating_device self) r → IfOk result (λ s. broken_device s ≡ applied (activating_device self) r) }
        ensures held { IfOk result (λ s. OwnsOver D.Disk J.Journal OwnsBrokenOff s disk.new) }
        ensures spared { IsSpared D.Disk J.Journal (activating_log self) disk.old (activating_device self) disk.new }
        ensures ready { IsTrue D.is_modelled → IsReady D.Disk J.Journal (activating_log self) disk.old (activating_device self) →
            IfOk result (λ s. IsReady D.Disk J.Journal (broken_log s) disk.new (broken_device s)) }
        ensures others { KeepsOthers D.Disk J.Journal disk.old disk.new }
        ensures cause { HasCause (D.faults disk.old) (D.faults disk.new) result }
        ensures quiet { OnOk result (D.faults disk.new ≡ D.faults disk.old) }
    {
        self.hand.break_off(disk)
    }

    /// The failed deployment stays as it is and closes.
    pub fn keep<D: Disk>(self, disk: &mut D) -> Result<Idle<J>, Stopped<J>>
        requires held { OwnsOver D.Disk J.Journal OwnsActivating self disk.old }
        requires may { Allowed (activating_device self) (stored.Closed outcomes.RollbackNotRequested) }
        ensures moments { LeavesOneOf D.Disk J.Journal disk.old disk.new (activating_device self)
            (applied (activating_device self) (stored.Closed outcomes.RollbackNotRequested)) }
        ensures taken { IfOk result (λ s. idle_device s ≡ applied (activating_device self) (stored.Closed outcomes.RollbackNotRequested)) }
        ensures held { IfOk result (λ s. OwnsOver D.Disk J.Journal OwnsIdle s disk.new) }
        ensures spared { IsSpared D.Disk J.Journal (activating_log self) disk.old (activating_device self) disk.new }
        ensures others { KeepsOthers D.Disk J.Journal disk.old disk.new }
        ensures cause { HasCause (D.faults disk.old) (D.faults disk.new) result }
        ensures quiet { OnOk result (D.faults disk.new ≡ D.faults disk.old) }
    {
        self.hand.close(disk, Outcome::RollbackNotRequested)
    }

    /// The deployment closes as successful: no item has three failures.
    pub fn complete<D: Disk>(self, disk: &mut D) -> Result<Idle<J>, Stopped<J>>
        requires held { OwnsOver D.Disk J.Journal OwnsActivating self disk.old }
        requires may { Allowed (activating_device self) (stored.Closed outcomes.Successful) }
        ensures moments { LeavesOneOf D.Disk J.Journal disk.old disk.new (activating_device self)
            (applied (activating_device self) (stored.Closed outcomes.Successful)) }
        ensures taken { IfOk result (λ s. idle_device s ≡ applied (activating_device self) (stored.Closed outcomes.Successful)) }
        ensures held { IfOk result (λ s. OwnsOver D.Disk J.Journal OwnsIdle s disk.new) }
        ensures spared { IsSpared D.Disk J.Journal (activating_log self) disk.old (activating_device self) disk.new }
        ensures others { KeepsOthers D.Disk J.Journal disk.old disk.new }
        ensures cause { HasCause (D.faults disk.old) (D.faults disk.new) result }
        ensures quiet { OnOk result (D.faults disk.new ≡ D.faults disk.old) }
    {
        self.hand.close(disk, Outcome::Successful)
    }
}
