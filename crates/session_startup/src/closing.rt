//! The close of a deployment, in whichever state it is.
ghost use Rattle.std.specs.Prelude.{◌≡◌, ◌≤◌, ℕ, Bool, List, true, false, IfOk, IsErrOf, OnErr, OnOk, if◌then◌else◌};
ghost use Rattle.std.specs.declared.option.Option.{Option};
ghost use Rattle.nuc_base.specs.Faults.{Rose};
ghost use Rattle.nuc_base.specs.declared.kinds.Outcome.TheVariants as outcomes;
ghost use Rattle.records.specs.Stored as stored;
ghost use Rattle.device.specs.Lawful.{Allowed, applied};
ghost use Rattle.deploy_state.specs.States.{OwnsActivating, OwnsIdle, OwnsRolling, activating_device, idle_device, rolling_device};
ghost use Rattle.step_runner.specs.Entries.{Told};
ghost use Rattle.step_runner.specs.declared.entries.RunnerEntry.{RunnerEntry};
ghost use Rattle.components.specs.Changes.{steadied};
ghost use Rattle.components.specs.Components.{is_settled, owner};
ghost use Rattle.histories.specs.Phases.{current};
ghost use Rattle.histories.specs.TraceEvents.{TraceEvent, records_of};
ghost use Rattle.histories.specs.States.{SessionState, state_after};
ghost use Rattle.session_boots.specs.Ends.{HasLines};
ghost use Rattle.law_termination.specs.Drives.{AreDriven};
ghost use Rattle.session_startup.specs.Closing.{MayCloseNow, just_closed};
ghost use Rattle.session_startup.specs.Ended.{HasClosed};
ghost use Rattle.session_startup.specs.Runs.{MayAbort, HasNoActLeft};
ghost use Rattle.deploy_state.specs.Objects.{OwnsOver, KeepsOthers};
ghost use Rattle.session_boots.specs.Stages.{IsTraceOver, LeftOver};

use crate::lines::tell_close;
use crate::pending::{Close, Settled};
use components::Supervise;
use deploy_state::{Activating, Idle, Rolling};
use disk_model::Disk;
use edges::Sink;
use gate_log::Journal;
use session_boots::SessionFault;

/// Closes a deployment, lets its components go on without it, and prints the line.
pub fn close_deployment<D: Disk, J: Journal + Drop, K: Sink, S: Supervise, C: Close<J>>(
    state: C,
    disk: &mut D,
    sink: &mut K,
    supervisor: &mut S,
) -> Result<Idle<J>, SessionFault>
    requires held { OwnsOver D.Disk J.Journal C.owns state disk.old }
    requires may { Allowed (C.device state) (stored.Closed (C.outcome state)) }
    requires drives { AreDriven (S.world supervisor.old) }
    // The close is all that happens.
    ensures trace { (p : SessionState) → (list : Option (List RunnerEntry)) → MayCloseNow p (C.device state) (C.outcome state) →
        IsTraceOver D.Disk J.Journal disk.old disk.new list list p (just_closed (C.outcome state))
        × HasLines (K.held sink.old) (K.held sink.new) p.device (records_of (just_closed (C.outcome state))) result
        × LeftOver D.Disk J.Journal disk.new p (just_closed (C.outcome state)) (λ s q. idle_device s ≡ q.device) result }
    ensures taken { IfOk result (λ s. idle_device s ≡ applied (C.device state) (stored.Closed (C.outcome state))) }
    ensures steadied { OnOk result (S.world supervisor.new ≡ steadied (S.world supervisor.old)) }
    // The children are those of before, also where the supervisor does not know yet that it closed.
    ensures owners { (n : ℕ) → owner n (S.world supervisor.new).parts ≡ owner n (S.world supervisor.old).parts }
    ensures drives { AreDriven (S.world supervisor.new) }
    ensures held { IfOk result (λ s. OwnsOver D.Disk J.Journal OwnsIdle s disk.new) }
    ensures others { KeepsOthers D.Disk J.Journal disk.old disk.new }
    ensures disk { IsErrOf result SessionFault.Disk → Rose (D.faults disk.old) (D.faults disk.new) }
    ensures edge { IsErrOf result SessionFault.Output → Rose (K.faults sink.old) (K.faults sink.new) }
    ensures quiet_disk { ¬ (IsErrOf result SessionFault.Disk) → D.faults disk.new ≡ D.faults disk.old }
    ensures quiet_sink { ¬ (IsErrOf result SessionFault.Output) → K.faults sink.new ≡ K.faults sink.old }
    ensures later { (D.faults disk.old ≤ D.faults disk.new) × (K.faults sink.old ≤ K.faults sink.new) }
{
    match state.close(disk) {
        Ok(idle) => {
            supervisor.steady();
            match tell_close(sink, idle.device()) {
                Ok(()) => Ok(idle),
                Err(_) => {
                    drop(idle);
                    Err(SessionFault::Output)
                }
            }
        }
        Err(_) => Err(SessionFault::Disk),
    }
}

/// Closes as successful, and prints the line.
pub(crate) fn close_plan<D: Disk, J: Journal + Drop, K: Sink, S: Supervise>(
    state: Activating<J>,
    disk: &mut D,
    sink: &mut K,
    supervisor: &mut S,
) -> Result<Idle<J>, SessionFault>
    requires held { OwnsOver D.Disk J.Journal OwnsActivating state disk.old }
    requires drives { AreDriven (S.world supervisor.old) }
    requires from_state { (p : SessionState) × (told : Told) × (living : List ℕ) × HasNoActLeft p (activating_device state) false (S.world supervisor.old) told
        living × (is_settled p.world ≡ true) }
    ensures trace { (p : SessionState) → (told : Told) → (living : List ℕ) → HasNoActLeft p (activating_device state) false (S.world supervisor.old) told
        living → (is_settled p.world ≡ true) →
        (h : List TraceEvent) × IsTraceOver D.Disk J.Journal disk.old disk.new told.list told.list p h
        × HasLines (K.held sink.old) (K.held sink.new) p.device (records_of h) result
        × LeftOver D.Disk J.Journal disk.new p h (λ s q. HasClosed outcomes.Successful current h q (idle_device s) (S.world supervisor.new) told living)
        result
        × OnErr result (MayAbort (state_after p h) (S.world supervisor.new) told living) }
    ensures drives { AreDriven (S.world supervisor.new) }
    ensures held { IfOk result (λ s. OwnsOver D.Disk J.Journal OwnsIdle s disk.new) }
    ensures others { KeepsOthers D.Disk J.Journal disk.old disk.new }
    ensures disk { IsErrOf result SessionFault.Disk → Rose (D.faults disk.old) (D.faults disk.new) }
    ensures edge { IsErrOf result SessionFault.Output → Rose (K.faults sink.old) (K.faults sink.new) }
    ensures quiet_disk { ¬ (IsErrOf result SessionFault.Disk) → D.faults disk.new ≡ D.faults disk.old }
    ensures quiet_sink { ¬ (IsErrOf result SessionFault.Output) → K.faults sink.new ≡ K.faults sink.old }
    ensures later { (D.faults disk.old ≤ D.faults disk.new) × (K.faults sink.old ≤ K.faults sink.new) }
{
    close_deployment(Settled(state), disk, sink, supervisor)
}

/// Closes as rolled back, or as not able to where a component failed three times, and prints the line.
pub(crate) fn close_set<D: Disk, J: Journal + Drop, K: Sink, S: Supervise>(
    state: Rolling<J>,
    disk: &mut D,
    sink: &mut K,
    supervisor: &mut S,
) -> Result<Idle<J>, SessionFault>
    requires held { OwnsOver D.Disk J.Journal OwnsRolling state disk.old }
    requires drives { AreDriven (S.world supervisor.old) }
    requires from_state { (p : SessionState) × (told : Told) × (living : List ℕ) × (broken : Bool) × HasNoActLeft p (rolling_device state) broken
        (S.world supervisor.old) told living × (broken ≡ false → is_settled p.world ≡ true) }
    ensures trace { (p : SessionState) → (told : Told) → (living : List ℕ) → (broken : Bool) → HasNoActLeft p (rolling_device state) broken
        (S.world supervisor.old) told living → (broken ≡ false → is_settled p.world ≡ true) →
        (h : List TraceEvent) × IsTraceOver D.Disk J.Journal disk.old disk.new told.list told.list p h
        × HasLines (K.held sink.old) (K.held sink.new) p.device (records_of h) result
        × LeftOver D.Disk J.Journal disk.new p h (λ s q. HasClosed (if broken then outcomes.UnableToRollback else outcomes.RollbackComplete) current h q
        (idle_device s) (S.world supervisor.new) told living) result
        × OnErr result (MayAbort (state_after p h) (S.world supervisor.new) told living) }
    ensures drives { AreDriven (S.world supervisor.new) }
    ensures held { IfOk result (λ s. OwnsOver D.Disk J.Journal OwnsIdle s disk.new) }
    ensures others { KeepsOthers D.Disk J.Journal disk.old disk.new }
    ensures disk { IsErrOf result SessionFault.Disk → Rose (D.faults disk.old) (D.faults disk.new) }
    ensures edge { IsErrOf result SessionFault.Output → Rose (K.faults sink.old) (K.faults sink.new) }
    ensures quiet_disk { ¬ (IsErrOf result SessionFault.Disk) → D.faults disk.new ≡ D.faults disk.old }
    ensures quiet_sink { ¬ (IsErrOf result SessionFault.Output) → K.faults sink.new ≡ K.faults sink.old }
    ensures later { (D.faults disk.old ≤ D.faults disk.new) × (K.faults sink.old ≤ K.faults sink.new) }
{
    close_deployment(state, disk, sink, supervisor)
}
