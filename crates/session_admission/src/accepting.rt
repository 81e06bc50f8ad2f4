//! Accepting a plan.
ghost use Rattle.std.specs.Prelude.{◌≡◌, ◌≤◌, ◌+◌, ℕ, List, [], ◌∷◌, IfOk, IsErrOf};
ghost use Rattle.nuc_base.specs.Faults.{Rose};
ghost use Rattle.disk_model.specs.Disk.{Image};
ghost use Rattle.records.specs.Stored as stored;
ghost use Rattle.records.specs.Stored.{plan_view};
ghost use Rattle.device.specs.Lawful.{Allowed, applied};
ghost use Rattle.device.specs.Regularity.{IsRegularRecord};
ghost use Rattle.deploy_state.specs.Accepting.{idle_log};
ghost use Rattle.deploy_state.specs.States.{OwnsIdle, idle_device};
ghost use Rattle.deploy_state.specs.Turning.{IsTooFar, plan_bytes, start_of};
ghost use Rattle.step_runner.specs.Entries.{Told};
ghost use Rattle.components.specs.Components.{Components};
ghost use Rattle.histories.specs.TraceEvents.{TraceEvent, records_of};
ghost use Rattle.histories.specs.States.{SessionState};
ghost use Rattle.session_boots.specs.Ends.{HasLines};
ghost use Rattle.session_admission.specs.Accepts.{HasDiskFailed, HasTaken, OwnsTaken, IsAcceptedAt, IsFullAt, IsFullOrShort, IsOpen, IsTakenOf, TakenLeft, answer_of};
ghost use Rattle.deploy_state.specs.Objects.{KeepsOthers, LeavesDevice, LeavesOneOf, OwnsOver};
ghost use Rattle.session_boots.specs.Stages.{IsTraceOver, LeftOver};

use deploy_state::{AcceptRefusal, Booting, Idle};
use disk_model::Disk;
use edges::Sink;
use gate_log::Journal;
use records::Plan;
use session_boots::{SessionFault, acknowledge};
use std::alloc::Global;

/// What became of a plan.
#[derive(Drop)]
pub enum Taken<J: Journal + Drop> {
    /// It is accepted, and that is acknowledged.
    Accepted(Booting<J>),
    /// From this place on, it and what may follow it do not fit the journal. Nothing was written.
    Full(Idle<J>, u64),
    /// There is no memory for it. The device is as before; the journal may have been begun anew.
    NoMemory(Idle<J>),
    /// The disk failed where it was asked for room for it and what may follow it. The device and its entries are as before.
    NoRoom(Idle<J>),
}

fn answer_to<J: Journal + Drop>(refusal: AcceptRefusal<J>) -> Result<Taken<J>, SessionFault>
    ensures { result ≡ answer_of refusal }
{
    match refusal {
        AcceptRefusal::Full(idle, at) => Ok(Taken::Full(idle, at)),
        AcceptRefusal::NoMemory(idle) => Ok(Taken::NoMemory(idle)),
        AcceptRefusal::NoRoom(idle) => Ok(Taken::NoRoom(idle)),
        AcceptRefusal::Stopped(_) => Err(SessionFault::Disk),
    }
}

/// Accepts a plan, and prints `accepted ID` once its entry is stable.
///
/// All memory for the records up to the close is taken before that entry is written. A plan that does not fit the journal,
/// or for which there is no memory or the disk makes no room, is given back with the state, and then nothing is printed.
pub fn accept_plan<D: Disk, J: Journal + Drop, K: Sink>(
    alloc: Global,
    idle: Idle<J>,
    plan: Plan,
    disk: &mut D,
    sink: &mut K,
) -> Result<Taken<J>, SessionFault>
    requires held { OwnsOver D.Disk J.Journal OwnsIdle idle disk.old }
    requires lawful { Allowed (idle_device idle) (stored.Accepted (plan_view plan)) }
    requires regular { IsRegularRecord (stored.Accepted (plan_view plan)) }
    // A plan that is taken is the one record of a history.
    ensures trace { HasTaken result → (p : SessionState) → (world : Components) → (told : Told) → (living : List ℕ) →
        IsOpen p (idle_device idle) world told living →
        (h : List TraceEvent) × IsTraceOver D.Disk J.Journal disk.old disk.new told.list told.list p h
        × HasLines (K.held sink.old) (K.held sink.new) p.device (records_of h) result
        × LeftOver D.Disk J.Journal disk.new p h (λ x q. TakenLeft x q world told living) result
        × (records_of h ≡ stored.Accepted (plan_view plan) ∷ []) }
    // Whatever becomes of it, a crash at any moment leaves the device with it or without.
    ensures moments { LeavesOneOf D.Disk J.Journal disk.old disk.new (idle_device idle) (applied (idle_device idle) (stored.Accepted (plan_view plan))) }
    // Where the plan is given back it leaves it without.
    ensures unmade { ¬ (HasTaken result) → LeavesDevice D.Disk J.Journal disk.old disk.new (idle_device idle) }
    ensures taken { IfOk result (IsTakenOf (idle_device idle) (plan_view plan)) }
    ensures held { IfOk result (λ x. OwnsOver D.Disk J.Journal OwnsTaken x disk.new) }
    ensures silent { ¬ (HasTaken result) → sink.new ≡ sink.old }
    // Full, with nothing written, exactly where the plan does not fit with what may follow it, want of memory aside.
    ensures full { (at : ℕ) → IsFullAt result at → (at ≡ start_of J.end J.number J.turns (idle_log idle) (idle_device idle) (plan_bytes (plan_view plan)))
        × IsTooFar at (plan_bytes (plan_view plan)) × (disk.new ≡ disk.old) }
    ensures fills { IsTooFar (start_of J.end J.number J.turns (idle_log idle) (idle_device idle) (plan_bytes (plan_view plan))) (plan_bytes (plan_view plan))
        → IsFullOrShort result (start_of J.end J.number J.turns (idle_log idle) (idle_device idle) (plan_bytes (plan_view plan))) }
    // An accepted plan's entry begins there, and no live one stands behind it.
    ensures site { HasTaken result → ¬ (IsErrOf result SessionFault.Disk) → (image : Image) → D.may_leave disk.new image → IsAcceptedAt J.entries
        (idle_device idle) (plan_view plan)
        (start_of J.end J.number J.turns (idle_log idle) (idle_device idle) (plan_bytes (plan_view plan)) + 5 + plan_bytes (plan_view plan)) image }
    ensures others { KeepsOthers D.Disk J.Journal disk.old disk.new }
    ensures disk { HasDiskFailed result → Rose (D.faults disk.old) (D.faults disk.new) }
    ensures edge { IsErrOf result SessionFault.Output → Rose (K.faults sink.old) (K.faults sink.new) }
    ensures quiet_disk { ¬ (HasDiskFailed result) → D.faults disk.new ≡ D.faults disk.old }
    ensures quiet_sink { ¬ (IsErrOf result SessionFault.Output) → K.faults sink.new ≡ K.faults sink.old }
    ensures later { (D.faults disk.old ≤ D.faults disk.new) × (K.faults sink.old ≤ K.faults sink.new) }
{
    match idle.accept(alloc, disk, plan) {
        Ok(accepted) => match acknowledge(sink, &accepted.1) {
            Ok(()) => Ok(Taken::Accepted(accepted.0)),
            Err(_) => Err(SessionFault::Output),
        },
        Err(refusal) => answer_to(refusal),
    }
}
