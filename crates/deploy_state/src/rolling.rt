// The items of the set are brought up again.
ghost use Rattle.std.specs.Prelude.{◌≡◌, IsTrue, OnOk, IfOk, option_map};
ghost use Rattle.nuc_base.specs.Faults.{HasCause};
ghost use Rattle.records.specs.Stored as stored;
ghost use Rattle.device.specs.Devices.{device_view};
ghost use Rattle.device.specs.Lawful.{Allowed, applied};
ghost use Rattle.deploy_state.specs.Fields.{broken_item, rolled_outcome};
ghost use Rattle.deploy_state.specs.Objects.{OwnsOver, IsReady, IsSpared, KeepsOthers, LeavesOneOf};
ghost use Rattle.deploy_state.specs.States.{OwnsIdle, OwnsRolling, idle_device, rolling_device, rolling_log};

use crate::names::{broken_in, outcome_in};
use crate::state::{Idle, Rolling, Stopped};
use device::Device;
use disk_model::Disk;
use gate_log::Journal;
use nuc_base::{Exit, Name, Step};

impl<J: Journal + Drop> Rolling<J> {
    /// The device for which the journal stands.
    pub fn device(&self) -> &Device
        ensures { device_view result.now ≡ rolling_device self.now }
    {
        &self.hand.device
    }

    /// The first item, by name, with three failures.
    pub fn broken(&self) -> Option<&Name>
        ensures { option_map (λ n. n.now) result ≡ broken_item (rolling_device self.now) }
    {
        broken_in(&self.hand.device)
    }

    /// Records that a step of the set's item of this name failed.
    pub fn failed<D: Disk>(
        self,
        disk: &mut D,
        name: &Name,
        step: Step,
        exit: Exit,
    ) -> Result<Rolling<J>, Stopped<J>>
        requires held { OwnsOver D.Disk J.Journal OwnsRolling self disk.old }
        requires may { Allowed (rolling_device self) (stored.StepFailed name.now step exit) }
        ensures moments { LeavesOneOf D.Disk J.Journal disk.old disk.new (rolling_device self)
            (applied (rolling_device self) (stored.StepFailed name.now step exit)) }
        ensures taken { IfOk result (λ s. rolling_device s ≡ applied (rolling_device self) (stored.StepFailed name.now step exit)) }
        ensures held { IfOk result (λ s. OwnsOver D.Disk J.Journal OwnsRolling s disk.new) }
        ensures spared { IsSpared D.Disk J.Journal (rolling_log self) disk.old (rolling_device self) disk.new }
        ensures ready { IsTrue D.is_modelled → IsReady D.Disk J.Journal (rolling_log self) disk.old (rolling_device self) →
            IfOk result (λ s. IsReady D.Disk J.Journal (rolling_log s) disk.new (rolling_device s)) }
        ensures others { KeepsOthers D.Disk J.Journal disk.old disk.new }
        ensures cause { HasCause (D.faults disk.old) (D.faults disk.new) result }
        ensures quiet { OnOk result (D.faults disk.new ≡ D.faults disk.old) }
    {
        match self.hand.count(disk, name, step, exit) {
            Ok(hand) => Ok(Rolling { hand }),
            Err(stopped) => Err(stopped),
        }
    }

    /// The deployment closes: rolled back, or not able to where an item has three failures.
    pub fn close<D: Disk>(self, disk: &mut D) -> Result<Idle<J>, Stopped<J>>
        requires held { OwnsOver D.Disk J.Journal OwnsRolling self disk.old }
        ensures moments { LeavesOneOf D.Disk J.Journal disk.old disk.new (rolling_device self)
            (applied (rolling_device self) (stored.Closed (rolled_outcome (rolling_device self)))) }
        ensures taken { IfOk result (λ s. idle_device s ≡ applied (rolling_device self) (stored.Closed (rolled_outcome (rolling_device self)))) }
        ensures held { IfOk result (λ s. OwnsOver D.Disk J.Journal OwnsIdle s disk.new) }
        ensures spared { IsSpared D.Disk J.Journal (rolling_log self) disk.old (rolling_device self) disk.new }
        ensures others { KeepsOthers D.Disk J.Journal disk.old disk.new }
        ensures cause { HasCause (D.faults disk.old) (D.faults disk.new) result }
        ensures quiet { OnOk result (D.faults disk.new ≡ D.faults disk.old) }
    {
        let outcome = outcome_in(&self.hand.device);
        self.hand.close(disk, outcome)
    }
}
