//! A deployment that failed closes: it stays as it is, or cannot be rolled back.
ghost use Rattle.std.specs.Prelude.{◌≡◌, ◌≤◌, ℕ, List, IfOk, IsErrOf, OnErr};
ghost use Rattle.nuc_base.specs.Faults.{Rose};
ghost use Rattle.records.specs.Stored as stored;
ghost use Rattle.device.specs.Devices.{device_view};
ghost use Rattle.device.specs.Lawful.{Allowed, applied};
ghost use Rattle.deploy_state.specs.States.{OwnsIdle, idle_device};
ghost use Rattle.step_runner.specs.Entries.{Told};
ghost use Rattle.law_supervisor.specs.Sound.{IsOrderly};
ghost use Rattle.histories.specs.Courses.{IsBare};
ghost use Rattle.histories.specs.TraceEvents.{TraceEvent, records_of};
ghost use Rattle.histories.specs.Phases.{current, draining};
ghost use Rattle.histories.specs.States.{SessionState, state_after};
ghost use Rattle.session_boots.specs.Ends.{HasLines};
ghost use Rattle.session_boots.specs.Stands.{IsAtBootStage};
ghost use Rattle.law_termination.specs.Drives.{AreDriven};
ghost use Rattle.session_startup.specs.Ended.{HasBroken, HasClosed};
ghost use Rattle.session_transitions.specs.Fails.{IsFailure, IsGivenUp, is_to_roll_back};
ghost use Rattle.deploy_state.specs.Objects.{OwnsOver, KeepsOthers};
ghost use Rattle.session_boots.specs.Stages.{IsTraceOver, LeftOver};

use components::Supervise;
use deploy_state::Idle;
use device::Device;
use disk_model::Disk;
use edges::Sink;
use gate_log::Journal;
use nuc_base::Policy;
use session_boots::SessionFault;
use session_startup::{Close, close_deployment};

/// Whether the pending deployment is to be rolled back where it fails.
pub fn is_to_roll_back(device: &Device) -> bool
    ensures { result ≡ is_to_roll_back (device_view device.now) }
{
    match &device.pending {
        Some(pending) => pending.plan.policy == Policy::Rollback,
        None => false,
    }
}

/// A bootstrap failed, or a component failed three times, in this call or before. Closes the deployment as it is, or on the
/// way back as not able to be rolled back, and prints the line.
pub fn close_failed<D: Disk, J: Journal + Drop, K: Sink, S: Supervise, C: Close<J>>(
    state: C,
    disk: &mut D,
    sink: &mut K,
    supervisor: &mut S,
) -> Result<Idle<J>, SessionFault>
    requires drives { AreDriven (S.world supervisor.old) }
    requires held { OwnsOver D.Disk J.Journal C.owns state disk.old }
    requires may { Allowed (C.device state) (stored.Closed (C.outcome state)) }
    requires failed { IsFailure (C.outcome state) }
    // Where all components are stopped no child lives, also where it gives up.
    ensures trace { (p : SessionState) → (told : Told) → (living : List ℕ) → IsAtBootStage p (C.device state) (S.world supervisor.old) told living →
        IsOrderly p.world →
        (h : List TraceEvent) × IsTraceOver D.Disk J.Journal disk.old disk.new told.list told.list p h
        × HasLines (K.held sink.old) (K.held sink.new) p.device (records_of h) result
        × LeftOver D.Disk J.Journal disk.new p h (λ s q. HasClosed (C.outcome state) draining h q (idle_device s) (S.world supervisor.new) told living) result
        × OnErr result (IsBare (state_after p h)) }
    // Where the plan's items stand they stay.
    ensures standing { (p : SessionState) → (told : Told) → (living : List ℕ) → HasBroken p (C.device state) (S.world supervisor.old) told living →
        (h : List TraceEvent) × IsTraceOver D.Disk J.Journal disk.old disk.new told.list told.list p h
        × HasLines (K.held sink.old) (K.held sink.new) p.device (records_of h) result
        × LeftOver D.Disk J.Journal disk.new p h (λ s q. HasClosed (C.outcome state) current h q (idle_device s) (S.world supervisor.new) told living) result
        × OnErr result (IsGivenUp (state_after p h) (S.world supervisor.new) told living) }
    ensures taken { IfOk result (λ s. idle_device s ≡ applied (C.device state) (stored.Closed (C.outcome state))) }
    ensures drives { AreDriven (S.world supervisor.new) }
    ensures held { IfOk result (λ s. OwnsOver D.Disk J.Journal OwnsIdle s disk.new) }
    ensures others { KeepsOthers D.Disk J.Journal disk.old disk.new }
    ensures disk { IsErrOf result SessionFault.Disk → Rose (D.faults disk.old) (D.faults disk.new) }
    ensures edge { IsErrOf result SessionFault.Output → Rose (K.faults sink.old) (K.faults sink.new) }
    ensures quiet_disk { ¬ (IsErrOf result SessionFault.Disk) → D.faults disk.new ≡ D.faults disk.old }
    ensures quiet_sink { ¬ (IsErrOf result SessionFault.Output) → K.faults sink.new ≡ K.faults sink.old }
    ensures later { (D.faults disk.old ≤ D.faults disk.new) × (K.faults sink.old ≤ K.faults sink.new) }
{
    close_deployment(state, disk, sink, supervisor)
}
