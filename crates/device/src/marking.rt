// Marks and plans, applied without taking memory.
ghost use Rattle.std.specs.Prelude.{◌≡◌, ◌≢◌, ◌↔◌, ◌++◌, ◌∷◌, [], length, take, is_some, true, Some, None, List, ℕ, IsTrue, if◌then◌else◌};
ghost use Rattle.std.specs.Option.{IfSome, IsSomeAnd};
ghost use Rattle.records.specs.Stored as stored;
ghost use Rattle.records.specs.Stored.{plan_view, Record};
ghost use Rattle.device.specs.Devices.{chosen, device_view, pending_view};
ghost use Rattle.device.specs.Lawful.{Allowed, HasBacks, applied, backs, boot_ended, failing_name, takes_plan, MayCount, counted, next_boot, reach_of};
ghost use Rattle.device.specs.Grouped.{with_group};
ghost use Rattle.device.specs.Marks.{IsMark, IsClosing, CanMark, marked};
ghost use Rattle.device.specs.Sound.{IsSound};
ghost use Rattle.device.specs.Spares.{IsSpareFor, IsSpareOf};

use crate::device::Device;
use crate::mark::Mark;
use crate::spare::Spare;
use crate::staged::{Pending, Stage};
use crate::steps::{goes_on, has_flag, move_on, roll, send_back, takes_plan};
use nuc_base::{Exit, Outcome};
use records::Plan;
use std::mem::swap;

fn end_boot(pending: &mut Pending, exit: Exit)
    requires { is_some (next_boot (pending_view pending.old)) ≡ true }
    ensures { pending_view pending.new ≡ boot_ended exit (pending_view pending.old) }
{
    if goes_on(exit) {
        move_on(pending);
    } else {
        pending.boot_failed = true;
    }
}

fn count(pending: &mut Pending, at: u32)
    requires { MayCount (pending_view pending.old) (Some at) }
    ensures { pending_view pending.new ≡ counted (Some at) (pending_view pending.old) }
{
    pending.failures[at as usize] += 1;
}

fn mark_pending(pending: &mut Pending, mark: Mark, flags: &[bool; 128])
    requires { CanMark mark (pending_view pending.old) }
    ensures { pending_view pending.new ≡ marked (chosen flags.now (take (reach_of (pending_view pending.old)) pending.old.plan.boots)) mark
        (pending_view pending.old) }
{
    match mark {
        Mark::BootBegun => pending.begun = true,
        Mark::BootEnded(exit) => end_boot(pending, exit),
        Mark::Activating => {
            pending.stage = Stage::Activating;
            pending.failures = [0; 128];
        }
        Mark::StepFailed(at, _, _) => count(pending, at),
        Mark::Failing => roll(pending),
        Mark::FailingBack => send_back(pending, flags),
        Mark::Closed(_) => {}
    }
}

impl Device {
    /// The plan takes the place of the set and of its group's requirements where the outcome says so.
    fn settle_spared(&mut self, plan: Plan, outcome: Outcome, spare: &mut Spare)
        requires spare { IsSpareFor spare.old (device_view self.old) (plan_view plan) }
        requires pending { self.old.pending ≡ None }
        ensures origin { self.new.origin ≡ self.old.origin }
        ensures groups { self.new.groups.list ≡ (if takes_plan outcome then with_group self.old.groups.list (plan_view plan) else self.old.groups.list) }
        ensures set { self.new.set ≡ (if takes_plan outcome then plan.items else self.old.set) }
        ensures closed { self.new.closed ≡ self.old.closed ++ (plan.id, outcome) ∷ [] }
        ensures pending { self.new.pending ≡ None }
    {
        spare.closed.end_with(outcome);
        swap(&mut self.closed, &mut spare.closed);
        if takes_plan(outcome) {
            swap(&mut self.groups, &mut spare.groups);
            self.set = plan.items;
        }
    }

    fn close_spared(&mut self, outcome: Outcome, spare: &mut Spare)
        requires spare { IsSpareOf spare.old (device_view self.old) }
        ensures { device_view self.new ≡ applied (device_view self.old) (stored.Closed outcome) }
    {
        if let Some(pending) = self.pending.take() {
            self.settle_spared(pending.plan, outcome, spare);
        }
    }

    /// The step of the mark's record, without taking memory. The spare was made for the pending plan from this device.
    /// After a mark other than `Closed` it is as before.
    pub fn apply_mark(&mut self, mark: Mark, spare: &mut Spare)
        requires lawful { (r : Record) × IsMark (device_view self.old) mark r × Allowed (device_view self.old) r }
        requires spare { IsSpareOf spare.old (device_view self.old) }
        ensures applied { (r : Record) → IsMark (device_view self.old) mark r → device_view self.new ≡ applied (device_view self.old) r }
        ensures kept { ¬ (IsClosing mark) → spare.new ≡ spare.old }
    {
        if let Mark::Closed(outcome) = mark {
            self.close_spared(outcome, spare);
            return;
        }
        if let Some(pending) = &mut self.pending {
            mark_pending(pending, mark, &spare.back_flags);
        }
    }
    /// Whether bootstrap steps run again on the way back, where the pending deployment fails now. The spare was made for its
    /// plan from this device.
    pub fn has_backs(&self, spare: &Spare) -> bool
        requires sound { IsSound (device_view self.now) }
        requires spare { IsSpareOf spare.now (device_view self.now) }
        requires fails { IsSomeAnd (device_view self.now).pending (λ q. is_some (failing_name q) ≡ true) }
        ensures answers { IfSome (device_view self.now).pending
            (λ q. IsTrue result ↔ (backs (device_view self.now).origin (device_view self.now).set q.plan (reach_of q) ≢ [])) }
        ensures lawful { IfSome (device_view self.now).pending (λ q. IsTrue result ↔ IsSomeAnd (device_view self.now).origin
            (HasBacks (device_view self.now).set q)) }
    {
        match &self.pending {
            Some(pending) => has_flag(pending, &spare.back_flags),
            None => false,
        }
    }
}
