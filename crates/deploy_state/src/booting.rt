// The bootstrap steps of the plan.
ghost use Rattle.std.specs.Prelude.{◌≡◌, IsTrue, OnOk, IfOk, IsOkAnd, option_map};
ghost use Rattle.nuc_base.specs.Faults.{HasCause};
ghost use Rattle.records.specs.Stored as stored;
ghost use Rattle.records.specs.Stored.{Record};
ghost use Rattle.device.specs.Devices.{device_view};
ghost use Rattle.device.specs.Lawful.{Allowed, applied};
ghost use Rattle.device.specs.Marks.{IsMark};
ghost use Rattle.device.specs.declared.mark.Mark.TheVariants as marks;
ghost use Rattle.nuc_base.specs.declared.kinds.Outcome.TheVariants as outcomes;
ghost use Rattle.deploy_state.specs.Accepting.{booting_log};
ghost use Rattle.deploy_state.specs.Fields.{CanBegin, CanBreakOff, IsBegun, IsBreak, has_failed, next_name};
ghost use Rattle.deploy_state.specs.Objects.{OwnsOver, IsReady, IsSpared, KeepsOthers, LeavesOneOf};
ghost use Rattle.deploy_state.specs.Owned.{MayMark};
ghost use Rattle.deploy_state.specs.States.{OwnsActivating, OwnsBooting, OwnsBrokenOff, OwnsIdle};
ghost use Rattle.deploy_state.specs.States.{activating_device, activating_log, booting_device, broken_device, broken_log, idle_device};

use crate::names::{failed_in, next_in};
use crate::state::{Activating, Booting, BrokeOff, Idle, Stopped};
use device::{Device, Mark};
use disk_model::Disk;
use gate_log::Journal;
use nuc_base::{Exit, Name, Outcome};

impl<J: Journal + Drop> Booting<J> {
    /// The device for which the journal stands.
    pub fn device(&self) -> &Device
        ensures { device_view result.now ≡ booting_device self.now }
    {
        &self.hand.device
    }

    /// The bootstrap step after the ended ones.
    pub fn next(&self) -> Option<&Name>
        ensures { option_map (λ n. n.now) result ≡ next_name (booting_device self.now) }
    {
        next_in(&self.hand.device)
    }

    /// Whether that one failed.
    pub fn failed(&self) -> bool
        ensures { result ≡ has_failed (booting_device self.now) }
    {
        failed_in(&self.hand.device)
    }

    /// Records that the next bootstrap step begins, unless that is recorded.
    pub fn begin<D: Disk>(self, disk: &mut D) -> Result<Booting<J>, Stopped<J>>
        requires held { OwnsOver D.Disk J.Journal OwnsBooting self disk.old }
        requires may { CanBegin (booting_device self) }
        ensures moments { (r : Record) → IsMark (booting_device self) marks.BootBegun r →
            LeavesOneOf D.Disk J.Journal disk.old disk.new (booting_device self)
            (applied (booting_device self) r) }
        ensures taken { (r : Record) → IsMark (booting_device self) marks.BootBegun r → IfOk result (λ s. booting_device s ≡ applied (booting_device self) r) }
        ensures held { IfOk result (λ s. OwnsOver D.Disk J.Journal OwnsBooting s disk.new) }
        ensures silent { IsBegun (booting_device self) → (disk.new ≡ disk.old) × IsOkAnd result (λ s. s ≡ self) }
        ensures spared { IsSpared D.Disk J.Journal (booting_log self) disk.old (booting_device self) disk.new }
        ensures ready { IsTrue D.is_modelled → IsReady D.Disk J.Journal (booting_log self) disk.old (booting_device self) →
            IfOk result (λ s. IsReady D.Disk J.Journal (booting_log s) disk.new (booting_device s)) }
        ensures others { KeepsOthers D.Disk J.Journal disk.old disk.new }
        ensures cause { HasCause (D.faults disk.old) (D.faults disk.new) result }
        ensures quiet { OnOk result (D.faults disk.new ≡ D.faults disk.old) }
    {
        match self.hand.begin(disk) {
            Ok(hand) => Ok(Booting { hand }),
            Err(stopped) => Err(stopped),
        }
    }

    /// Records how the bootstrap step that was begun ended.
    pub fn ended<D: Disk>(self, disk: &mut D, exit: Exit) -> Result<Booting<J>, Stopped<J>>
        requires held { OwnsOver D.Disk J.Journal OwnsBooting self disk.old }
        requires may { MayMark (booting_device self) (marks.BootEnded exit) }
        ensures moments { (r : Record) → IsMark (booting_device self) (marks.BootEnded exit) r →
            LeavesOneOf D.Disk J.Journal disk.old disk.new (booting_device self)
            (applied (booting_device self) r) }
        ensures taken { (r : Record) → IsMark (booting_device self) (marks.BootEnded exit) r →
            IfOk result (λ s. booting_device s ≡ applied (booting_device self) r) }
        ensures held { IfOk result (λ s. OwnsOver D.Disk J.Journal OwnsBooting s disk.new) }
        ensures spared { IsSpared D.Disk J.Journal (booting_log self) disk.old (booting_device self) disk.new }
        ensures ready { IsTrue D.is_modelled → IsReady D.Disk J.Journal (booting_log self) disk.old (booting_device self) →
            IfOk result (λ s. IsReady D.Disk J.Journal (booting_log s) disk.new (booting_device s)) }
        ensures others { KeepsOthers D.Disk J.Journal disk.old disk.new }
        ensures cause { HasCause (D.faults disk.old) (D.faults disk.new) result }
        ensures quiet { OnOk result (D.faults disk.new ≡ D.faults disk.old) }
    {
        match self.hand.step(disk, Mark::BootEnded(exit)) {
            Ok(hand) => Ok(Booting { hand }),
            Err(stopped) => Err(stopped),
        }
    }

    /// All bootstrap steps are ended, and the plan's items are to be brought up.
    pub fn activate<D: Disk>(self, disk: &mut D) -> Result<Activating<J>, Stopped<J>>
        requires held { OwnsOver D.Disk J.Journal OwnsBooting self disk.old }
        requires may { Allowed (booting_device self) stored.Activating }
        ensures moments { LeavesOneOf D.Disk J.Journal disk.old disk.new (booting_device self)
            (applied (booting_device self) stored.Activating) }
        ensures taken { IfOk result (λ s. activating_device s ≡ applied (booting_device self) stored.Activating) }
        ensures held { IfOk result (λ s. OwnsOver D.Disk J.Journal OwnsActivating s disk.new) }
        ensures spared { IsSpared D.Disk J.Journal (booting_log self) disk.old (booting_device self) disk.new }
        ensures ready { IsTrue D.is_modelled → IsReady D.Disk J.Journal (booting_log self) disk.old (booting_device self) →
            IfOk result (λ s. IsReady D.Disk J.Journal (activating_log s) disk.new (activating_device s)) }
        ensures others { KeepsOthers D.Disk J.Journal disk.old disk.new }
        ensures cause { HasCause (D.faults disk.old) (D.faults disk.new) result }
        ensures quiet { OnOk result (D.faults disk.new ≡ D.faults disk.old) }
    {
        match self.hand.step(disk, Mark::Activating) {
            Ok(hand) => Ok(Activating { hand }),
            Err(stopped) => Err(stopped),
        }
    }

    /// A bootstrap step failed, and the deployment is rolled back.
    pub fn break_off<D: Disk>(self, disk: &mut D) -> Result<BrokeOff<J>, Stopped<J>>
        requires held { OwnsOver D.Disk J.Journal OwnsBooting self disk.old }
        requires may { CanBreakOff (booting_device self) }
        ensures moments { (r : Record) → IsBreak (booting_device self) r →
            LeavesOneOf D.Disk J.Journal disk.old disk.new (booting_device self)
            (applied (booting_device self) r) }
        ensures taken { (r : Record) → IsBreak (booting_device self) r → IfOk result (λ s. broken_device s ≡ applied (booting_device self) r) }
        ensures held { IfOk result (λ s. OwnsOver D.Disk J.Journal OwnsBrokenOff s disk.new) }
        ensures spared { IsSpared D.Disk J.Journal (booting_log self) disk.old (booting_device self) disk.new }
        ensures ready { IsTrue D.is_modelled → IsReady D.Disk J.Journal (booting_log self) disk.old (booting_device self) →
            IfOk result (λ s. IsReady D.Disk J.Journal (broken_log s) disk.new (broken_device s)) }
        ensures others { KeepsOthers D.Disk J.Journal disk.old disk.new }
        ensures cause { HasCause (D.faults disk.old) (D.faults disk.new) result }
        ensures quiet { OnOk result (D.faults disk.new ≡ D.faults disk.old) }
    {
        self.hand.break_off(disk)
    }

    /// The failed deployment stays as it is and closes.
    pub fn keep<D: Disk>(self, disk: &mut D) -> Result<Idle<J>, Stopped<J>>
        requires held { OwnsOver D.Disk J.Journal OwnsBooting self disk.old }
        requires may { Allowed (booting_device self) (stored.Closed outcomes.RollbackNotRequested) }
        ensures moments { LeavesOneOf D.Disk J.Journal disk.old disk.new (booting_device self)
            (applied (booting_device self) (stored.Closed outcomes.RollbackNotRequested)) }
        ensures taken { IfOk result (λ s. idle_device s ≡ applied (booting_device self) (stored.Closed outcomes.RollbackNotRequested)) }
        ensures held { IfOk result (λ s. OwnsOver D.Disk J.Journal OwnsIdle s disk.new) }
        ensures spared { IsSpared D.Disk J.Journal (booting_log self) disk.old (booting_device self) disk.new }
        ensures others { KeepsOthers D.Disk J.Journal disk.old disk.new }
        ensures cause { HasCause (D.faults disk.old) (D.faults disk.new) result }
        ensures quiet { OnOk result (D.faults disk.new ≡ D.faults disk.old) }
    {
        self.hand.close(disk, Outcome::RollbackNotRequested)
    }
}
