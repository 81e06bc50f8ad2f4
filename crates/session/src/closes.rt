// Behind a close.
ghost use Rattle.std.specs.Prelude.{◌≡◌, ◌≢◌, ◌⊎◌, ◌≤◌, [], Bool, List, IsTrue};
ghost use Rattle.nuc_base.specs.Faults.{Rose};
ghost use Rattle.nuc_base.specs.declared.status.Status.TheVariants as statuses;
ghost use Rattle.artifact_store.specs.Holding.{AllHoldDevice, HoldsDevice};
ghost use Rattle.artifact_store.specs.Swept.{IsSwept, items_of};
ghost use Rattle.disk_model.specs.Disk.{HasLeft};
ghost use Rattle.disk_model.specs.Listing.{artifacts, IsBelow};
ghost use Rattle.disk_model.specs.Spares.{IsSameBut};
ghost use Rattle.deploy_state.specs.States.{OwnsIdle, idle_device};
ghost use Rattle.admission.specs.Takes.{LieElsewhere};
ghost use Rattle.session_rollout.specs.Driven.{generation_left};
ghost use Rattle.session.specs.Parts.{EndsRan, NoMemoryGoesOn, IsAnew, IsOver, IsUnbegun, OwnsRan, RanLeft, standing_of, status_of_ran};
ghost use Rattle.histories.specs.Phases.{Generation};
ghost use Rattle.histories.specs.TraceEvents.{TraceEvent};
ghost use Rattle.histories.specs.States.{SessionState, state_after};
ghost use Rattle.session_boots.specs.Traces.{ActTrace};
ghost use Rattle.session_startup.specs.Ended.{HasClosed};
ghost use Rattle.refusal_lines.specs.Statuses.{status_of_outcome};
ghost use Rattle.session.specs.Calls.{CloseEnding, SaysEnding, ChangesArtifactsAlone};
ghost use Rattle.session.specs.Endings.{ByDiskFault};
ghost use Rattle.deploy_state.specs.Objects.{OwnsOver};
ghost use Rattle.session_boots.specs.Stages.{AsTold};

use crate::giving::back_or_over;
use crate::lines::say_disk;
use crate::ran::{Ran, Standing};
use artifact_store::{SweepFault, sweep};
use components::Supervise;
use deploy_state::Idle;
use disk_model::Disk;
use edges::Sink;
use gate_log::Journal;
use nuc_base::{Outcome, Status};
use refusal_lines::outcome_status;
use session_rollout::Presence;
use std::alloc::Global;
use step_runner::Runner;

/// Sweeps stray files, and answers how the deployment closed, or that the sweep failed.
fn sweep_behind<D: Disk, J: Journal + Drop, K: Sink>(
    alloc: Global,
    idle: &Idle<J>,
    outcome: Outcome,
    disk: &mut D,
    sink: &mut K,
) -> Status
    ensures spared { ChangesArtifactsAlone D.may_leave D.moment D.left_since disk.old disk.new }
    // The device has its artifacts at each moment.
    ensures safe { AllHoldDevice (D.may_leave disk.old) (idle_device idle.now) → HasLeft D.moment D.left_since disk.old disk.new
        (λ c. HoldsDevice c (idle_device idle.now)) }
    ensures others { IsTrue D.is_modelled → IsSameBut (IsBelow artifacts) (D.seen disk.old) (D.seen disk.new) }
    ensures ends { SaysEnding (K.held sink.old) (K.held sink.new) result
        (λ e. CloseEnding outcome e × (e ≡ ByDiskFault → Rose (D.faults disk.old) (D.faults disk.new))) }
    ensures answers { (result ≡ status_of_outcome outcome) ⊎ (result ≡ statuses.Memory) ⊎ (result ≡ statuses.Disk) ⊎ (result ≡ statuses.Edge) }
    ensures disk { result ≡ statuses.Disk → Rose (D.faults disk.old) (D.faults disk.new) }
    ensures edge { result ≡ statuses.Edge → Rose (K.faults sink.old) (K.faults sink.new) }
    ensures quiet_disk { result ≢ statuses.Disk → result ≢ statuses.Edge → D.faults disk.new ≡ D.faults disk.old }
    ensures quiet_sink { result ≢ statuses.Edge → K.faults sink.new ≡ K.faults sink.old }
    ensures later { (D.faults disk.old ≤ D.faults disk.new) × (K.faults sink.old ≤ K.faults sink.new) }
    // No stray file is left behind the close.
    ensures swept { IsTrue D.is_modelled → result ≡ status_of_outcome outcome → IsSwept (items_of (idle_device idle.now)) (D.seen disk.new) }
{
    match sweep(alloc, disk, idle.device()) {
        Ok(()) => outcome_status(outcome),
        Err(SweepFault::Disk) => say_disk(sink),
        Err(SweepFault::NoMemory) => Status::Memory,
    }
}

fn standing_of(presence: Presence) -> Standing
    ensures { result ≡ standing_of presence }
{
    match presence {
        Presence::Present => Standing::OfSet,
        Presence::Absent => Standing::Nobody,
    }
}

/// Sweeps stray files, and comes back with how the deployment closed, the components as they are, or with 15 where there was no
/// memory to sweep. Where the disk fails all children are killed, where they are, and the call ends.
pub(crate) fn end_closed<D: Disk, J: Journal + Drop, K: Sink, R: Runner, S: Supervise>(
    alloc: Global,
    idle: Idle<J>,
    outcome: Outcome,
    presence: Presence,
    disk: &mut D,
    sink: &mut K,
    runner: &mut R,
    supervisor: &S,
) -> Ran<J>
    requires held { OwnsOver D.Disk J.Journal OwnsIdle idle disk.old }
    requires apart { LieElsewhere J.files }
    requires from_state { (p : SessionState) × (h : List TraceEvent) ×
        AsTold R.Runner runner.old (HasClosed outcome (generation_left presence) h p (idle_device idle) (S.world supervisor.now)) }
    ensures trace { (p : SessionState) → (h : List TraceEvent) → (before : Generation) →
        AsTold R.Runner runner.old (HasClosed outcome (generation_left presence) h p (idle_device idle) (S.world supervisor.now)) →
        (k : List TraceEvent) × ActTrace p k (R.list runner.old) (R.list runner.new) × IsUnbegun p k ×
        ((rose : Bool) → AsTold R.Runner runner.new (RanLeft before result rose (state_after p k) (S.world supervisor.now))) }
    ensures none { IsOver result → R.living runner.new ≡ [] }
    ensures ends_call { EndsRan result }
    ensures anew { IsAnew result }
    ensures no_memory { NoMemoryGoesOn result }
    ensures held { OwnsOver D.Disk J.Journal OwnsRan result disk.new }
    ensures spared { ChangesArtifactsAlone D.may_leave D.moment D.left_since disk.old disk.new }
    // The device has its artifacts at each moment.
    ensures safe { AllHoldDevice (D.may_leave disk.old) (idle_device idle) → HasLeft D.moment D.left_since disk.old disk.new
        (λ c. HoldsDevice c (idle_device idle)) }
    ensures others { IsTrue D.is_modelled → IsSameBut (IsBelow artifacts) (D.seen disk.old) (D.seen disk.new) }
    ensures ends { SaysEnding (K.held sink.old) (K.held sink.new) (status_of_ran result)
        (λ e. CloseEnding outcome e × (e ≡ ByDiskFault → Rose (D.faults disk.old) (D.faults disk.new))) }
    ensures answers { (status_of_ran result ≡ status_of_outcome outcome) ⊎ (status_of_ran result ≡ statuses.Memory) ⊎ (status_of_ran result ≡ statuses.Disk) ⊎
        (status_of_ran result ≡ statuses.Edge) }
    ensures disk { status_of_ran result ≡ statuses.Disk → Rose (D.faults disk.old) (D.faults disk.new) }
    ensures edge { status_of_ran result ≡ statuses.Edge → Rose (K.faults sink.old) (K.faults sink.new) }
    ensures quiet_disk { status_of_ran result ≢ statuses.Disk → status_of_ran result ≢ statuses.Edge → D.faults disk.new ≡ D.faults disk.old }
    ensures quiet_sink { status_of_ran result ≢ statuses.Edge → K.faults sink.new ≡ K.faults sink.old }
    ensures later { (D.faults disk.old ≤ D.faults disk.new) × (K.faults sink.old ≤ K.faults sink.new) }
    // No stray file is left behind the close.
    ensures swept { IsTrue D.is_modelled → status_of_ran result ≡ status_of_outcome outcome → IsSwept (items_of (idle_device idle)) (D.seen disk.new) }
{
    let status = sweep_behind(alloc, &idle, outcome, disk, sink);
    back_or_over(idle, status, standing_of(presence), runner, supervisor)
}
