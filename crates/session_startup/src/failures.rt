// The record of a failure, and its line.
ghost use Rattle.std.specs.Prelude.{◌≡◌, ◌≤◌, ℕ, List, IfOk, IsErrOf, OnErr, OnOk, IsSome};
ghost use Rattle.nuc_base.specs.Faults.{HasCause, Rose};
ghost use Rattle.edges.specs.Pieces.{WriteOutcome};
ghost use Rattle.records.specs.Stored.{StepFailed};
ghost use Rattle.step_runner.specs.Entries.{Told};
ghost use Rattle.histories.specs.TraceEvents.{TraceEvent, records_of};
ghost use Rattle.histories.specs.States.{SessionState, state_after};
ghost use Rattle.session_boots.specs.Lines.{line_of};
ghost use Rattle.session_boots.specs.Ends.{HasLines};
ghost use Rattle.session_boots.specs.Same.{IsSameDeployment};
ghost use Rattle.session_startup.specs.Coming.{OwnsComing, coming_device, is_plan};
ghost use Rattle.session_startup.specs.Runs.{HasFailed, MayAbort, IsInTurn};
ghost use Rattle.deploy_state.specs.Objects.{OwnsOver, KeepsOthers};
ghost use Rattle.session_boots.specs.Stages.{IsTraceOver, LeftOver};

use crate::coming::Coming;
use crate::laws::driving_laws;
use crate::lines::tell_failed_step;
use components::Supervise;
use disk_model::Disk;
use edges::{EdgeFault, Sink};
use gate_log::Journal;
use nuc_base::{Exit, Name, Step};
use session_boots::SessionFault;

/// Prints the line of a failure that was recorded.
fn tell_failed<J: Journal + Drop, K: Sink>(
    state: &Coming<J>,
    sink: &mut K,
    name: &Name,
    step: Step,
    exit: Exit,
) -> Result<(), EdgeFault>
    requires { IsSome (coming_device state.now).pending }
    ensures line { WriteOutcome (K.held sink.old) (K.held sink.new) (line_of (coming_device state.now) (StepFailed name.now step exit)) result }
    ensures cause { HasCause (K.faults sink.old) (K.faults sink.new) result }
    ensures quiet { OnOk result (K.faults sink.new ≡ K.faults sink.old) }
{
    match &state.device().pending {
        Some(pending) => tell_failed_step(sink, &pending.plan.id, name, step, exit),
        None => Ok(()),
    }
}

/// Records the failure that was handed out, and prints its line.
pub(crate) fn note_failure<D: Disk, J: Journal + Drop, K: Sink, S: Supervise>(
    state: Coming<J>,
    disk: &mut D,
    sink: &mut K,
    supervisor: &S,
    who: u32,
    step: Step,
    exit: Exit,
) -> Result<Coming<J>, SessionFault>
    requires held { OwnsOver D.Disk J.Journal OwnsComing state disk.old }
    requires from_state { (p : SessionState) × (told : Told) × (living : List ℕ) × HasFailed p who step exit (S.world supervisor.now) told living ×
        (p.device ≡ coming_device state) }
    ensures trace { (p : SessionState) → (told : Told) → (living : List ℕ) → HasFailed p who step exit (S.world supervisor.now) told living →
        (p.device ≡ coming_device state) →
        (h : List TraceEvent) × IsTraceOver D.Disk J.Journal disk.old disk.new told.list told.list p h
        × HasLines (K.held sink.old) (K.held sink.new) p.device (records_of h) result
        × LeftOver D.Disk J.Journal disk.new p h (λ s q. IsInTurn q (S.world supervisor.now) told living × (q.device ≡ coming_device s)) result
        × OnErr result (MayAbort (state_after p h) (S.world supervisor.now) told living) }
    ensures held { IfOk result (λ s. OwnsOver D.Disk J.Journal OwnsComing s disk.new) }
    ensures same { IfOk result (λ s. is_plan s ≡ is_plan state) }
    ensures deployment { IfOk result (λ s. IsSameDeployment (coming_device state) (coming_device s)) }
    ensures others { KeepsOthers D.Disk J.Journal disk.old disk.new }
    ensures disk { IsErrOf result SessionFault.Disk → Rose (D.faults disk.old) (D.faults disk.new) }
    ensures edge { IsErrOf result SessionFault.Output → Rose (K.faults sink.old) (K.faults sink.new) }
    ensures quiet_disk { ¬ (IsErrOf result SessionFault.Disk) → D.faults disk.new ≡ D.faults disk.old }
    ensures quiet_sink { ¬ (IsErrOf result SessionFault.Output) → K.faults sink.new ≡ K.faults sink.old }
    ensures later { (D.faults disk.old ≤ D.faults disk.new) × (K.faults sink.old ≤ K.faults sink.new) }
{
    driving_laws();
    let name = supervisor.name(who);
    match state.failed(disk, name, step, exit) {
        Ok(next) => match tell_failed(&next, sink, name, step, exit) {
            Ok(()) => Ok(next),
            Err(_) => {
                drop(next);
                Err(SessionFault::Output)
            }
        },
        Err(_) => Err(SessionFault::Disk),
    }
}
