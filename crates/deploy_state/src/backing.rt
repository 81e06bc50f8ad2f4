// The bootstrap steps that run again on the way back.
ghost use Rattle.std.specs.Prelude.{◌≡◌, IsTrue, OnOk, IfOk, IsOkAnd, option_map};
ghost use Rattle.nuc_base.specs.Faults.{HasCause};
ghost use Rattle.records.specs.Stored as stored;
ghost use Rattle.records.specs.Stored.{Record};
ghost use Rattle.device.specs.Devices.{device_view};
ghost use Rattle.device.specs.Lawful.{Allowed, applied};
ghost use Rattle.device.specs.Marks.{IsMark};
ghost use Rattle.device.specs.declared.mark.Mark.TheVariants as marks;
ghost use Rattle.nuc_base.specs.declared.kinds.Outcome.TheVariants as outcomes;
ghost use Rattle.deploy_state.specs.Fields.{CanBegin, IsBegun, has_failed, next_name};
ghost use Rattle.deploy_state.specs.Objects.{OwnsOver, IsReady, IsSpared, KeepsOthers, LeavesOneOf};
ghost use Rattle.deploy_state.specs.Owned.{MayMark};
ghost use Rattle.deploy_state.specs.States.{OwnsBacked, OwnsBacking, OwnsIdle, backed_device, backed_log, backing_device, backing_log, idle_device};

use crate::names::{failed_in, next_in};
use crate::state::{Backed, Backing, Idle, Rolling, Stopped};
use device::{Device, Mark};
use disk_model::Disk;
use gate_log::Journal;
use nuc_base::{Exit, Name, Outcome};

impl<J: Journal + Drop> Backing<J> {
    /// The device for which the journal stands.
    pub fn device(&self) -> &Device
        ensures { device_view result.now ≡ backing_device self.now }
    {
        &self.hand.device
    }

    /// The back after the ended ones.
    pub fn next(&self) -> Option<&Name>
        ensures { option_map (λ n. n.now) result ≡ next_name (backing_device self.now) }
    {
        next_in(&self.hand.device)
    }

    /// Whether that one failed.
    pub fn failed(&self) -> bool
        ensures { result ≡ has_failed (backing_device self.now) }
    {
        failed_in(&self.hand.device)
    }

    /// Records that the next back begins, unless that is recorded.
    pub fn begin<D: Disk>(self, disk: &mut D) -> Result<Backing<J>, Stopped<J>>
        requires held { OwnsOver D.Disk J.Journal OwnsBacking self disk.old }
        requires may { CanBegin (backing_device self) }
        ensures moments { (r : Record) → IsMark (backing_device self) marks.BootBegun r →
            LeavesOneOf D.Disk J.Journal disk.old disk.new (backing_device self)
            (applied (backing_device self) r) }
        ensures taken { (r : Record) → IsMark (backing_device self) marks.BootBegun r → IfOk result (λ s. backing_device s ≡ applied (backing_device self) r) }
        ensures held { IfOk result (λ s. OwnsOver D.Disk J.Journal OwnsBacking s disk.new) }
        ensures silent { IsBegun (backing_device self) → (disk.new ≡ disk.old) × IsOkAnd result (λ s. s ≡ self) }
        ensures spared { IsSpared D.Disk J.Journal (backing_log self) disk.old (backing_device self) disk.new }
        ensures ready { IsTrue D.is_modelled → IsReady D.Disk J.Journal (backing_log self) disk.old (backing_device self) →
            IfOk result (λ s. IsReady D.Disk J.Journal (backing_log s) disk.new (backing_device s)) }
        ensures others { KeepsOthers D.Disk J.Journal disk.old disk.new }
        ensures cause { HasCause (D.faults disk.old) (D.faults disk.new) result }
        ensures quiet { OnOk result (D.faults disk.new ≡ D.faults disk.old) }
    {
        match self.hand.begin(disk) {
            Ok(hand) => Ok(Backing { hand }),
            Err(stopped) => Err(stopped),
        }
    }

    /// Records how the back that was begun ended. Behind the last of them the items of the set are brought up.
    pub fn ended<D: Disk>(self, disk: &mut D, exit: Exit) -> Result<Backed<J>, Stopped<J>>
        requires held { OwnsOver D.Disk J.Journal OwnsBacking self disk.old }
        requires may { MayMark (backing_device self) (marks.BootEnded exit) }
        ensures moments { (r : Record) → IsMark (backing_device self) (marks.BootEnded exit) r →
            LeavesOneOf D.Disk J.Journal disk.old disk.new (backing_device self)
            (applied (backing_device self) r) }
        ensures taken { (r : Record) → IsMark (backing_device self) (marks.BootEnded exit) r →
            IfOk result (λ s. backed_device s ≡ applied (backing_device self) r) }
        ensures held { IfOk result (λ s. OwnsOver D.Disk J.Journal OwnsBacked s disk.new) }
        ensures spared { IsSpared D.Disk J.Journal (backing_log self) disk.old (backing_device self) disk.new }
        ensures ready { IsTrue D.is_modelled → IsReady D.Disk J.Journal (backing_log self) disk.old (backing_device self) →
            IfOk result (λ s. IsReady D.Disk J.Journal (backed_log s) disk.new (backed_device s)) }
        ensures others { KeepsOthers D.Disk J.Journal disk.old disk.new }
        ensures cause { HasCause (D.faults disk.old) (D.faults disk.new) result }
        ensures quiet { OnOk result (D.faults disk.new ≡ D.faults disk.old) }
    {
        match self.hand.step(disk, Mark::BootEnded(exit)) {
            Ok(hand) => {
                if hand.is_rolling() {
                    Ok(Backed::Rolling(Rolling { hand }))
                } else {
                    Ok(Backed::Backing(Backing { hand }))
                }
            }
            Err(stopped) => Err(stopped),
        }
    }

    /// A back failed, and the deployment closes.
    pub fn close<D: Disk>(self, disk: &mut D) -> Result<Idle<J>, Stopped<J>>
        requires held { OwnsOver D.Disk J.Journal OwnsBacking self disk.old }
        requires may { Allowed (backing_device self) (stored.Closed outcomes.UnableToRollback) }
        ensures moments { LeavesOneOf D.Disk J.Journal disk.old disk.new (backing_device self)
            (applied (backing_device self) (stored.Closed outcomes.UnableToRollback)) }
        ensures taken { IfOk result (λ s. idle_device s ≡ applied (backing_device self) (stored.Closed outcomes.UnableToRollback)) }
        ensures held { IfOk result (λ s. OwnsOver D.Disk J.Journal OwnsIdle s disk.new) }
        ensures spared { IsSpared D.Disk J.Journal (backing_log self) disk.old (backing_device self) disk.new }
        ensures others { KeepsOthers D.Disk J.Journal disk.old disk.new }
        ensures cause { HasCause (D.faults disk.old) (D.faults disk.new) result }
        ensures quiet { OnOk result (D.faults disk.new ≡ D.faults disk.old) }
    {
        self.hand.close(disk, Outcome::UnableToRollback)
    }
}
