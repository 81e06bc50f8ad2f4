//! A deployment fails and is rolled back: the way back begins.
ghost use Rattle.std.specs.Prelude.{◌≡◌, ◌≤◌, [], ℕ, List, IfOk, IsErrOf, OnErr, OnOk};
ghost use Rattle.nuc_base.specs.Faults.{HasCause, Rose};
ghost use Rattle.records.specs.Stored.{Record};
ghost use Rattle.device.specs.Lawful.{applied};
ghost use Rattle.device.specs.Sound.{IsSound};
ghost use Rattle.deploy_state.specs.Fields.{CanBreakOff, IsBreak};
ghost use Rattle.deploy_state.specs.States.{OwnsBrokenOff, broken_device};
ghost use Rattle.step_runner.specs.Entries.{Told};
ghost use Rattle.components.specs.Components.{Components};
ghost use Rattle.histories.specs.Courses.{IsBare};
ghost use Rattle.histories.specs.TraceEvents.{TraceEvent, records_of};
ghost use Rattle.histories.specs.States.{SessionState, state_after};
ghost use Rattle.session_boots.specs.Lines.{lines_of};
ghost use Rattle.session_boots.specs.Ends.{IsOne};
ghost use Rattle.session_boots.specs.Stands.{IsAtBootStage};
ghost use Rattle.session_startup.specs.Ended.{HasBroken};
ghost use Rattle.session_transitions.specs.Fails.{DeviceAfterBreak, IsGivenUp, IsAtRollbackStart};
ghost use Rattle.deploy_state.specs.Objects.{KeepsOthers, LeavesOneOf, OwnsOver};
ghost use Rattle.session_boots.specs.Stages.{IsTraceOver, LeftOver};

use deploy_state::{Activating, Booting, BrokeOff, Stopped};
use disk_model::Disk;
use gate_log::Journal;
use session_boots::SessionFault;
use session_startup::PendingState;

/// A state from which the way back may begin.
pub trait BreakOff<J: Journal + Drop>: PendingState<J> {
    /// Records that the deployment failed and is rolled back.
    fn break_off<D: Disk>(self, disk: &mut D) -> Result<BrokeOff<J>, Stopped<J>>
        requires held { OwnsOver D.Disk J.Journal Self.owns self disk.old }
        requires may { CanBreakOff (Self.device self) }
        ensures moments { (r : Record) → IsBreak (Self.device self) r →
            LeavesOneOf D.Disk J.Journal disk.old disk.new (Self.device self) (applied (Self.device self) r) }
        ensures taken { (r : Record) → IsBreak (Self.device self) r → IfOk result (λ s. broken_device s ≡ applied (Self.device self) r) }
        ensures held { IfOk result (λ s. OwnsOver D.Disk J.Journal OwnsBrokenOff s disk.new) }
        ensures others { KeepsOthers D.Disk J.Journal disk.old disk.new }
        ensures cause { HasCause (D.faults disk.old) (D.faults disk.new) result }
        ensures quiet { OnOk result (D.faults disk.new ≡ D.faults disk.old) };
}

impl<J: Journal + Drop> BreakOff<J> for Booting<J> {
    fn break_off<D: Disk>(self, disk: &mut D) -> Result<BrokeOff<J>, Stopped<J>> {
        Booting::break_off(self, disk)
    }
}

impl<J: Journal + Drop> BreakOff<J> for Activating<J> {
    fn break_off<D: Disk>(self, disk: &mut D) -> Result<BrokeOff<J>, Stopped<J>> {
        Activating::break_off(self, disk)
    }
}

/// A bootstrap failed, or a component failed three times, in this call or before, and the deployment is rolled back: its
/// bootstraps of the set run again, or at once its items come up again. No line is printed.
pub fn begin_rollback<D: Disk, J: Journal + Drop, B: BreakOff<J>>(
    state: B,
    disk: &mut D,
) -> Result<BrokeOff<J>, SessionFault>
    requires held { OwnsOver D.Disk J.Journal B.owns state disk.old }
    requires sound { IsSound (B.device state) }
    requires may { CanBreakOff (B.device state) }
    // Where all components are stopped no child lives, also where it gives up.
    ensures trace { (p : SessionState) → (world : Components) → (told : Told) → (living : List ℕ) → IsAtBootStage p (B.device state) world told living →
        (h : List TraceEvent) × IsTraceOver D.Disk J.Journal disk.old disk.new told.list told.list p h
        × (lines_of p.device (records_of h) ≡ [])
        × LeftOver D.Disk J.Journal disk.new p h (λ s q. IsAtBootStage q (broken_device s) world told living) result
        × OnErr result (IsBare (state_after p h)) × OnErr result (IsOne (records_of h)) }
    // Where the plan's items stand they stand still, and are to be stopped.
    ensures standing { (p : SessionState) → (world : Components) → (told : Told) → (living : List ℕ) → HasBroken p (B.device state) world told living →
        (h : List TraceEvent) × IsTraceOver D.Disk J.Journal disk.old disk.new told.list told.list p h
        × (lines_of p.device (records_of h) ≡ [])
        × LeftOver D.Disk J.Journal disk.new p h (λ s q. IsAtRollbackStart q (broken_device s) world told living) result
        × OnErr result (IsGivenUp (state_after p h) world told living) × OnErr result (IsOne (records_of h)) }
    ensures breaks { IfOk result (λ s. DeviceAfterBreak (B.device state) (broken_device s)) }
    ensures held { IfOk result (λ s. OwnsOver D.Disk J.Journal OwnsBrokenOff s disk.new) }
    ensures others { KeepsOthers D.Disk J.Journal disk.old disk.new }
    ensures disk { IsErrOf result SessionFault.Disk → Rose (D.faults disk.old) (D.faults disk.new) }
    ensures edge { IsErrOf result SessionFault.Output → ⊥ }
    ensures quiet { ¬ (IsErrOf result SessionFault.Disk) → D.faults disk.new ≡ D.faults disk.old }
    ensures later { D.faults disk.old ≤ D.faults disk.new }
{
    match state.break_off(disk) {
        Ok(broke) => Ok(broke),
        Err(_) => Err(SessionFault::Disk),
    }
}
