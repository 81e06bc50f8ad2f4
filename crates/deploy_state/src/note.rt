// A record is noted in the journal and taken by the device.
ghost use Rattle.std.specs.Prelude.{◌≡◌, IsTrue, OnOk, IfOk};
ghost use Rattle.nuc_base.specs.Faults.{HasCause};
ghost use Rattle.records.specs.Stored as stored;
ghost use Rattle.records.specs.Stored.{Record};
ghost use Rattle.device.specs.Lawful.{Allowed, applied};
ghost use Rattle.device.specs.Marks.{IsMark, IsClosing};
ghost use Rattle.device.specs.Spares.{IsSpareOf};
ghost use Rattle.deploy_state.specs.Objects.{OwnsOver, IsReady, IsSpared, KeepsOthers, LeavesOneOf, OwnsJournalOn};
ghost use Rattle.deploy_state.specs.Owned.{MayMark};
ghost use Rattle.deploy_state.specs.States.{IsHeld, OwnsIdle, device_of, hand_log, idle_device};

use crate::state::{Hand, Idle, Stopped};
use device::Mark;
use disk_model::{Disk, DiskFault};
use gate_log::Journal;
use nuc_base::Outcome;
use std::marker::PhantomData;

impl<J: Journal + Drop> Hand<J> {
    /// Adds the record to the journal, and lets the device take it.
    fn note<D: Disk>(&mut self, disk: &mut D, mark: Mark) -> Result<(), DiskFault>
        requires hand { OwnsJournalOn D.Disk J.Journal self.old.log disk.old (device_of self.old) }
        requires spare { IsSpareOf self.old.spare (device_of self.old) }
        requires may { MayMark (device_of self.old) mark }
        ensures moments { (r : Record) → IsMark (device_of self.old) mark r →
            LeavesOneOf D.Disk J.Journal disk.old disk.new (device_of self.old)
            (applied (device_of self.old) r) }
        ensures taken { (r : Record) → IsMark (device_of self.old) mark r → OnOk result (device_of self.new ≡ applied (device_of self.old) r) }
        ensures hand { OnOk result (OwnsJournalOn D.Disk J.Journal self.new.log disk.new (device_of self.new)) }
        ensures spare { OnOk result (¬ (IsClosing mark) → IsSpareOf self.new.spare (device_of self.new)) }
        ensures spared { IsSpared D.Disk J.Journal (hand_log self.old) disk.old (device_of self.old) disk.new }
        ensures ready { IsTrue D.is_modelled → IsReady D.Disk J.Journal (hand_log self.old) disk.old (device_of self.old) →
            OnOk result (IsReady D.Disk J.Journal (hand_log self.new) disk.new (device_of self.new)) }
        ensures others { KeepsOthers D.Disk J.Journal disk.old disk.new }
        ensures cause { HasCause (D.faults disk.old) (D.faults disk.new) result }
        ensures quiet { OnOk result (D.faults disk.new ≡ D.faults disk.old) }
    {
        let mut bytes = [0u8; 1024];
        let size = self.device.write_mark(mark, &self.spare, &mut bytes);
        match self.log.append(disk, &bytes[..size]) {
            Ok(()) => {
                self.device.apply_mark(mark, &mut self.spare);
                Ok(())
            }
            // There is room, so the disk failed.
            Err(_) => Err(DiskFault),
        }
    }
}

impl<J: Journal + Drop> Hand<J> {
    /// The hand behind the record of a mark other than a close.
    pub(crate) fn step<D: Disk>(self, disk: &mut D, mark: Mark) -> Result<Hand<J>, Stopped<J>>
        requires held { OwnsOver D.Disk J.Journal IsHeld self disk.old }
        requires may { MayMark (device_of self) mark }
        requires going { ¬ (IsClosing mark) }
        ensures moments { (r : Record) → IsMark (device_of self) mark r →
            LeavesOneOf D.Disk J.Journal disk.old disk.new (device_of self) (applied (device_of self) r) }
        ensures taken { (r : Record) → IsMark (device_of self) mark r → IfOk result (λ h. device_of h ≡ applied (device_of self) r) }
        ensures held { IfOk result (λ h. OwnsOver D.Disk J.Journal IsHeld h disk.new) }
        ensures spared { IsSpared D.Disk J.Journal (hand_log self) disk.old (device_of self) disk.new }
        ensures ready { IsTrue D.is_modelled → IsReady D.Disk J.Journal (hand_log self) disk.old (device_of self) →
            IfOk result (λ s. IsReady D.Disk J.Journal (hand_log s) disk.new (device_of s)) }
        ensures others { KeepsOthers D.Disk J.Journal disk.old disk.new }
        ensures cause { HasCause (D.faults disk.old) (D.faults disk.new) result }
        ensures quiet { OnOk result (D.faults disk.new ≡ D.faults disk.old) }
    {
        let mut hand = self;
        match hand.note(disk, mark) {
            Ok(()) => Ok(hand),
            Err(_) => Err(Stopped { of: PhantomData }),
        }
    }

    /// The state behind the close.
    pub(crate) fn close<D: Disk>(
        self,
        disk: &mut D,
        outcome: Outcome,
    ) -> Result<Idle<J>, Stopped<J>>
        requires held { OwnsOver D.Disk J.Journal IsHeld self disk.old }
        requires may { Allowed (device_of self) (stored.Closed outcome) }
        ensures moments { LeavesOneOf D.Disk J.Journal disk.old disk.new (device_of self) (applied (device_of self) (stored.Closed outcome)) }
        ensures taken { IfOk result (λ s. idle_device s ≡ applied (device_of self) (stored.Closed outcome)) }
        ensures idle { IfOk result (λ s. OwnsOver D.Disk J.Journal OwnsIdle s disk.new) }
        ensures spared { IsSpared D.Disk J.Journal (hand_log self) disk.old (device_of self) disk.new }
        ensures others { KeepsOthers D.Disk J.Journal disk.old disk.new }
        ensures cause { HasCause (D.faults disk.old) (D.faults disk.new) result }
        ensures quiet { OnOk result (D.faults disk.new ≡ D.faults disk.old) }
    {
        let mut hand = self;
        match hand.note(disk, Mark::Closed(outcome)) {
            Ok(()) => Ok(Idle {
                log: hand.log,
                device: hand.device,
            }),
            Err(_) => Err(Stopped { of: PhantomData }),
        }
    }
}
