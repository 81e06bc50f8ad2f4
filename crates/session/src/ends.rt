// How a call comes back behind the course of its deployment, or ends.
ghost use Rattle.std.specs.Prelude.{◌≡◌, ◌≢◌, ◌⊎◌, ◌≤◌, [], ◌++◌, Bool, List, IsTrue, IfOk, OnErr, IsErrOf, Ok, codes};
ghost use Rattle.nuc_base.specs.Faults.{Rose};
ghost use Rattle.nuc_base.specs.declared.kinds.Outcome.{Outcome};
ghost use Rattle.nuc_base.specs.declared.status.Status.TheVariants as statuses;
ghost use Rattle.artifact_store.specs.Holding.{AllHoldDevice, HoldsDevice};
ghost use Rattle.artifact_store.specs.Swept.{IsSwept, items_of};
ghost use Rattle.disk_model.specs.Disk.{HasLeft};
ghost use Rattle.disk_model.specs.Listing.{artifacts, IsBelow};
ghost use Rattle.disk_model.specs.Spares.{IsSameBut};
ghost use Rattle.histories.specs.Phases.{Generation};
ghost use Rattle.histories.specs.TraceEvents.{TraceEvent};
ghost use Rattle.histories.specs.States.{SessionState, state_after};
ghost use Rattle.deploy_state.specs.States.{loaded_device};
ghost use Rattle.session_boots.specs.Lines.{id_of};
ghost use Rattle.session_boots.specs.Traces.{ActTrace};
ghost use Rattle.session_rollout.specs.Driven.{DrivenLeft, OwnsDriven, driven_device};
ghost use Rattle.admission.specs.Takes.{LieElsewhere};
ghost use Rattle.session.specs.Parts.{EndsRan, NoMemoryGoesOn, IsAnew, IsOver, IsUnbegun, OwnsRan, RanLeft, status_of_ran};
ghost use Rattle.session.specs.Calls.{DrivenStatus, DrivenEnding, IsOrEdge, SaysEnding, SaysLine, ChangesArtifactsAlone};
ghost use Rattle.session.specs.Endings.{ByDiskFault};
ghost use Rattle.refusal_lines.specs.Statuses.{status_of_outcome};
ghost use Rattle.deploy_state.specs.Objects.{OwnsOver};
ghost use Rattle.session_boots.specs.Stages.{AsTold};

use crate::closes::end_closed;
use crate::lines::{pending_id, say, say_disk};
use crate::ran::Ran;
use components::Supervise;
use deploy_state::Loaded;
use disk_model::Disk;
use edges::Sink;
use gate_log::Journal;
use nuc_base::Status;
use session_boots::SessionFault;
use session_rollout::Driven;
use std::alloc::Global;
use step_runner::Runner;

/// Prints that the call ends for a restart or a reboot.
fn say_again<J: Journal + Drop, K: Sink>(
    state: &Loaded<J>,
    sink: &mut K,
    word: &str,
    status: Status,
) -> Status
    requires other { status ≢ statuses.Edge }
    ensures says { SaysLine (K.held sink.old) (K.held sink.new) result (word.now ++ (id_of (loaded_device state.now) ++ codes "\n")) }
    ensures answers { IsOrEdge result status }
    ensures edge { result ≡ statuses.Edge → Rose (K.faults sink.old) (K.faults sink.new) }
    ensures quiet { result ≢ statuses.Edge → K.faults sink.new ≡ K.faults sink.old }
    ensures later { K.faults sink.old ≤ K.faults sink.new }
{
    say(sink, &[word, pending_id(state), "\n"], status)
}

/// Comes back from the deployment that was driven so: behind a close as `end_closed`, and else the call ends.
fn end_driven<D: Disk, J: Journal + Drop, K: Sink, R: Runner, S: Supervise>(
    alloc: Global,
    driven: Driven<J>,
    disk: &mut D,
    sink: &mut K,
    runner: &mut R,
    supervisor: &S,
) -> Ran<J>
    requires held { OwnsOver D.Disk J.Journal OwnsDriven driven disk.old }
    requires apart { LieElsewhere J.files }
    requires from_state { (p : SessionState) × (h : List TraceEvent) × AsTold R.Runner runner.old (DrivenLeft driven h p (S.world supervisor.now)) }
    ensures trace { (p : SessionState) → (h : List TraceEvent) → (before : Generation) →
        AsTold R.Runner runner.old (DrivenLeft driven h p (S.world supervisor.now)) →
        (k : List TraceEvent) × ActTrace p k (R.list runner.old) (R.list runner.new) × IsUnbegun p k ×
        ((rose : Bool) → AsTold R.Runner runner.new (RanLeft before result rose (state_after p k) (S.world supervisor.now))) }
    ensures none { IsOver result → R.living runner.new ≡ [] }
    ensures ends_call { EndsRan result }
    ensures anew { IsAnew result }
    // Want of memory alone does not end the call.
    ensures no_memory { NoMemoryGoesOn result }
    ensures held { OwnsOver D.Disk J.Journal OwnsRan result disk.new }
    ensures spared { ChangesArtifactsAlone D.may_leave D.moment D.left_since disk.old disk.new }
    // The device has its artifacts at each moment.
    ensures safe { AllHoldDevice (D.may_leave disk.old) (driven_device driven) → HasLeft D.moment D.left_since disk.old disk.new
        (λ c. HoldsDevice c (driven_device driven)) }
    ensures others { IsTrue D.is_modelled → IsSameBut (IsBelow artifacts) (D.seen disk.old) (D.seen disk.new) }
    ensures ends { SaysEnding (K.held sink.old) (K.held sink.new) (status_of_ran result) (λ e. DrivenEnding (Ok driven) e ×
        (e ≡ ByDiskFault → Rose (D.faults disk.old) (D.faults disk.new))) }
    ensures answers { DrivenStatus (Ok driven) (status_of_ran result) }
    ensures disk { status_of_ran result ≡ statuses.Disk → Rose (D.faults disk.old) (D.faults disk.new) }
    ensures edge { status_of_ran result ≡ statuses.Edge → Rose (K.faults sink.old) (K.faults sink.new) }
    ensures quiet_disk { status_of_ran result ≢ statuses.Disk → status_of_ran result ≢ statuses.Edge → D.faults disk.new ≡ D.faults disk.old }
    ensures quiet_sink { status_of_ran result ≢ statuses.Edge → K.faults sink.new ≡ K.faults sink.old }
    ensures later { (D.faults disk.old ≤ D.faults disk.new) × (K.faults sink.old ≤ K.faults sink.new) }
    // No stray file is left behind a close.
    ensures swept { IsTrue D.is_modelled → (o : Outcome) → status_of_ran result ≡ status_of_outcome o →
        IsSwept (items_of (driven_device driven)) (D.seen disk.new) }
{
    match driven {
        Driven::Closed(idle, outcome, presence) => end_closed(
            alloc, idle, outcome, presence, disk, sink, runner, supervisor,
        ),
        Driven::Restart(state) => {
            let status = say_again(&state, sink, "restart ", Status::Restart);
            drop(state);
            Ran::Over(status)
        }
        Driven::Reboot(state) => {
            let status = say_again(&state, sink, "reboot ", Status::Reboot);
            drop(state);
            Ran::Over(status)
        }
    }
}

/// Comes back as `end_driven` where the deployment was driven, and else ends the call.
pub(crate) fn end_call<D: Disk, J: Journal + Drop, K: Sink, R: Runner, S: Supervise>(
    alloc: Global,
    driven: Result<Driven<J>, SessionFault>,
    disk: &mut D,
    sink: &mut K,
    runner: &mut R,
    supervisor: &S,
) -> Ran<J>
    requires held { IfOk driven (λ x. OwnsOver D.Disk J.Journal OwnsDriven x disk.old) }
    requires apart { LieElsewhere J.files }
    requires from_state { IfOk driven (λ x. (p : SessionState) × (h : List TraceEvent) ×
        AsTold R.Runner runner.old (DrivenLeft x h p (S.world supervisor.now))) }
    requires none { OnErr driven (R.living runner.old ≡ []) }
    ensures trace { IfOk driven (λ x. (p : SessionState) → (h : List TraceEvent) → (before : Generation) →
        AsTold R.Runner runner.old (DrivenLeft x h p (S.world supervisor.now)) →
        (k : List TraceEvent) × ActTrace p k (R.list runner.old) (R.list runner.new) × IsUnbegun p k ×
        ((rose : Bool) → AsTold R.Runner runner.new (RanLeft before result rose (state_after p k) (S.world supervisor.now)))) }
    ensures over { OnErr driven (IsOver result) }
    ensures still { OnErr driven (R.list runner.new ≡ R.list runner.old) }
    ensures none { IsOver result → R.living runner.new ≡ [] }
    ensures ends_call { EndsRan result }
    ensures anew { IsAnew result }
    // Want of memory alone does not end the call.
    ensures no_memory { NoMemoryGoesOn result }
    ensures held { OwnsOver D.Disk J.Journal OwnsRan result disk.new }
    ensures spared { ChangesArtifactsAlone D.may_leave D.moment D.left_since disk.old disk.new }
    // The device has its artifacts at each moment.
    ensures safe { IfOk driven (λ x. AllHoldDevice (D.may_leave disk.old) (driven_device x) → HasLeft D.moment D.left_since disk.old disk.new
        (λ c. HoldsDevice c (driven_device x))) }
    ensures others { IsTrue D.is_modelled → IsSameBut (IsBelow artifacts) (D.seen disk.old) (D.seen disk.new) }
    ensures ends { SaysEnding (K.held sink.old) (K.held sink.new) (status_of_ran result)
        (λ e. DrivenEnding driven e × (e ≡ ByDiskFault → (IsErrOf driven SessionFault.Disk) ⊎ Rose (D.faults disk.old) (D.faults disk.new))) }
    ensures unswept { OnErr driven (disk.new ≡ disk.old) }
    ensures silent { IsErrOf driven SessionFault.Output → K.held sink.new ≡ K.held sink.old }
    ensures answers { DrivenStatus driven (status_of_ran result) }
    ensures disk { status_of_ran result ≡ statuses.Disk → (IsErrOf driven SessionFault.Disk) ⊎ Rose (D.faults disk.old) (D.faults disk.new) }
    ensures edge { status_of_ran result ≡ statuses.Edge → (IsErrOf driven SessionFault.Output) ⊎ Rose (K.faults sink.old) (K.faults sink.new) }
    ensures quiet_disk { status_of_ran result ≢ statuses.Disk → status_of_ran result ≢ statuses.Edge → D.faults disk.new ≡ D.faults disk.old }
    ensures quiet_sink { status_of_ran result ≢ statuses.Edge → K.faults sink.new ≡ K.faults sink.old }
    ensures later { (D.faults disk.old ≤ D.faults disk.new) × (K.faults sink.old ≤ K.faults sink.new) }
    ensures swept { IsTrue D.is_modelled → IfOk driven (λ x. (o : Outcome) → status_of_ran result ≡ status_of_outcome o →
        IsSwept (items_of (driven_device x)) (D.seen disk.new)) }
{
    match driven {
        Ok(driven) => end_driven(alloc, driven, disk, sink, runner, supervisor),
        Err(SessionFault::Disk) => Ran::Over(say_disk(sink)),
        Err(SessionFault::Output) => Ran::Over(Status::Edge),
    }
}
