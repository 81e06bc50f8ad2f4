// Moves that several states share.
ghost use Rattle.std.specs.Prelude.{◌≡◌, ◌↔◌, IsTrue, OnOk, IfOk, IsOkAnd, Some, length};
ghost use Rattle.nuc_base.specs.Faults.{HasCause};
ghost use Rattle.records.specs.Stored as stored;
ghost use Rattle.records.specs.Stored.{Record};
ghost use Rattle.std.specs.Option.{IfSome, IsSomeAnd};
ghost use Rattle.device.specs.Lawful.{Allowed, MayCount, applied, failing_place};
ghost use Rattle.device.specs.Marks.{IsMark};
ghost use Rattle.device.specs.declared.mark.Mark.TheVariants as marks;
ghost use Rattle.device.specs.declared.staged.Stage.TheVariants as stages;
ghost use Rattle.deploy_state.specs.Fields.{CanBegin, CanBreakOff, IsBegun, IsBreak};
ghost use Rattle.deploy_state.specs.Objects.{OwnsOver, IsReady, IsSpared, KeepsOthers, LeavesOneOf};
ghost use Rattle.deploy_state.specs.States.{OwnsBrokenOff, IsHeld, IsIn, broken_device, broken_log, device_of, hand_log};

use crate::state::{Backing, BrokeOff, Hand, Rolling, Stopped};
use device::{Mark, Stage, running_place};
use disk_model::Disk;
use gate_log::Journal;
use nuc_base::{Exit, Name, Step};
use std::marker::PhantomData;

impl<J: Journal + Drop> Hand<J> {
    fn is_begun(&self) -> bool
        ensures { IsTrue result ↔ IsBegun (device_of self.now) }
    {
        match &self.device.pending {
            Some(pending) => pending.begun,
            None => false,
        }
    }

    pub(crate) fn is_rolling(&self) -> bool
        ensures { IsTrue result ↔ IsIn stages.Rolling (device_of self.now) }
    {
        match &self.device.pending {
            Some(pending) => pending.stage == Stage::Rolling,
            None => false,
        }
    }

    /// Records that the next bootstrap step begins, unless that is recorded.
    pub(crate) fn begin<D: Disk>(self, disk: &mut D) -> Result<Hand<J>, Stopped<J>>
        requires held { OwnsOver D.Disk J.Journal IsHeld self disk.old }
        requires may { CanBegin (device_of self) }
        ensures moments { (r : Record) → IsMark (device_of self) marks.BootBegun r →
            LeavesOneOf D.Disk J.Journal disk.old disk.new (device_of self) (applied (device_of self) r) }
        ensures taken { (r : Record) → IsMark (device_of self) marks.BootBegun r → IfOk result (λ s. device_of s ≡ applied (device_of self) r) }
        ensures held { IfOk result (λ s. OwnsOver D.Disk J.Journal IsHeld s disk.new) }
        ensures silent { IsBegun (device_of self) → (disk.new ≡ disk.old) × IsOkAnd result (λ h. h ≡ self) }
        ensures spared { IsSpared D.Disk J.Journal (hand_log self) disk.old (device_of self) disk.new }
        ensures ready { IsTrue D.is_modelled → IsReady D.Disk J.Journal (hand_log self) disk.old (device_of self) →
            IfOk result (λ s. IsReady D.Disk J.Journal (hand_log s) disk.new (device_of s)) }
        ensures others { KeepsOthers D.Disk J.Journal disk.old disk.new }
        ensures cause { HasCause (D.faults disk.old) (D.faults disk.new) result }
        ensures quiet { OnOk result (D.faults disk.new ≡ D.faults disk.old) }
    {
        if self.is_begun() {
            return Ok(self);
        }
        self.step(disk, Mark::BootBegun)
    }

    /// The place of the item of this name among those that run, of which one more failure may be recorded.
    fn place_of(&self, name: &Name) -> u32
        requires may { IsSomeAnd (device_of self.now).pending (λ q. MayCount q (failing_place (device_of self.now).set q name.now)) }
        requires long { IfSome (device_of self.now).pending (λ q. length q.failures ≡ 128) }
        ensures { IsSomeAnd (device_of self.now).pending (λ q. failing_place (device_of self.now).set q name.now ≡ Some result) }
    {
        match &self.device.pending {
            Some(pending) => match running_place(self.device.set.as_slice(), pending, name) {
                Some(at) if at < 128 => at as u32,
                _ => 0,
            },
            None => 0,
        }
    }

    /// Records that a step of the item of this name, of those that run, failed.
    pub(crate) fn count<D: Disk>(
        self,
        disk: &mut D,
        name: &Name,
        step: Step,
        exit: Exit,
    ) -> Result<Hand<J>, Stopped<J>>
        requires held { OwnsOver D.Disk J.Journal IsHeld self disk.old }
        requires may { Allowed (device_of self) (stored.StepFailed name.now step exit) }
        ensures moments { LeavesOneOf D.Disk J.Journal disk.old disk.new (device_of self) (applied (device_of self) (stored.StepFailed name.now step exit)) }
        ensures taken { IfOk result (λ s. device_of s ≡ applied (device_of self) (stored.StepFailed name.now step exit)) }
        ensures held { IfOk result (λ s. OwnsOver D.Disk J.Journal IsHeld s disk.new) }
        ensures spared { IsSpared D.Disk J.Journal (hand_log self) disk.old (device_of self) disk.new }
        ensures ready { IsTrue D.is_modelled → IsReady D.Disk J.Journal (hand_log self) disk.old (device_of self) →
            IfOk result (λ s. IsReady D.Disk J.Journal (hand_log s) disk.new (device_of s)) }
        ensures others { KeepsOthers D.Disk J.Journal disk.old disk.new }
        ensures cause { HasCause (D.faults disk.old) (D.faults disk.new) result }
        ensures quiet { OnOk result (D.faults disk.new ≡ D.faults disk.old) }
    {
        let at = self.place_of(name);
        self.step(disk, Mark::StepFailed(at, step, exit))
    }

    /// Records that the deployment failed. Bootstrap steps of the set run again where one of them is to, and otherwise its
    /// items are brought up again.
    pub(crate) fn break_off<D: Disk>(self, disk: &mut D) -> Result<BrokeOff<J>, Stopped<J>>
        requires held { OwnsOver D.Disk J.Journal IsHeld self disk.old }
        requires may { CanBreakOff (device_of self) }
        ensures moments { (r : Record) → IsBreak (device_of self) r →
            LeavesOneOf D.Disk J.Journal disk.old disk.new (device_of self) (applied (device_of self) r) }
        ensures taken { (r : Record) → IsBreak (device_of self) r → IfOk result (λ s. broken_device s ≡ applied (device_of self) r) }
        ensures held { IfOk result (λ s. OwnsOver D.Disk J.Journal OwnsBrokenOff s disk.new) }
        ensures spared { IsSpared D.Disk J.Journal (hand_log self) disk.old (device_of self) disk.new }
        ensures ready { IsTrue D.is_modelled → IsReady D.Disk J.Journal (hand_log self) disk.old (device_of self) →
            IfOk result (λ s. IsReady D.Disk J.Journal (broken_log s) disk.new (broken_device s)) }
        ensures others { KeepsOthers D.Disk J.Journal disk.old disk.new }
        ensures cause { HasCause (D.faults disk.old) (D.faults disk.new) result }
        ensures quiet { OnOk result (D.faults disk.new ≡ D.faults disk.old) }
    {
        if self.device.has_backs(&self.spare) {
            match self.step(disk, Mark::FailingBack) {
                Ok(hand) => Ok(BrokeOff::Backing(Backing { hand })),
                Err(stopped) => Err(stopped),
            }
        } else {
            match self.step(disk, Mark::Failing) {
                Ok(hand) => Ok(BrokeOff::Rolling(Rolling { hand })),
                Err(stopped) => Err(stopped),
            }
        }
    }
}
