// A pending deployment is finished before the set is served.
ghost use Rattle.std.specs.Prelude.{◌≡◌, [], List};
ghost use Rattle.deploy_state.specs.States.{OwnsLoaded, loaded_device};
ghost use Rattle.admission.specs.Takes.{LieElsewhere};
ghost use Rattle.histories.specs.States.{SessionState};
ghost use Rattle.histories.specs.TraceEvents.{TraceEvent};
ghost use Rattle.step_runner.specs.Entries.{Listed};
ghost use Rattle.deploy_state.specs.Objects.{OwnsOver};
ghost use Rattle.session_boots.specs.Stages.{AsTold};
ghost use Rattle.session.specs.Parts.{IsOver, OwnsRan, status_of_ran};
ghost use Rattle.session_serving.specs.Causes.{IsCaused, observation};
ghost use Rattle.session_serving.specs.Parts.{AreOfFiles, outside};
ghost use Rattle.session_serving.specs.States.{IsBegun};
ghost use Rattle.session_serving.specs.Served.{FinishLeft};
ghost use Rattle.session_serving.specs.Turns.{StaysRan, UpRan};
ghost use Rattle.std.specs.Prelude.{ℕ};

use components::Supervise;
use deploy_state::Loaded;
use disk_model::Disk;
use edges::{Inbox, Sink};
use gate_log::Journal;
use law_serving::{components_run_their_items, deployments_serve_alike, idle_calls_are_steady};
use library_core::Library;
use nuc_base::Status;
use session::{Ran, Standing, resume};
use std::alloc::Global;
use step_runner::Runner;

/// Drives the pending deployment to its close. Where none is pending nothing is done, and nothing is said.
pub(crate) fn finish_pending<
    D: Disk,
    J: Journal + Drop,
    L: Library,
    I: Inbox,
    K: Sink,
    R: Runner,
    S: Supervise,
>(
    alloc: Global,
    state: Loaded<J>,
    disk: &mut D,
    library: &L,
    inbox: &I,
    sink: &mut K,
    runner: &mut R,
    supervisor: &mut S,
) -> Ran<J>
where
    S::Ready: Drop,
    requires held { OwnsOver D.Disk J.Journal OwnsLoaded state disk.old }
    requires apart { LieElsewhere J.files }
    requires own { AreOfFiles J.files J.entries }
    requires empty { (S.world supervisor.old).parts ≡ [] }
    requires from_state { (p : SessionState) × (turns : ℕ) × AsTold R.Runner runner.old (IsBegun p turns (loaded_device state) (S.world supervisor.old)) }
    ensures left { (p : SessionState) → (turns : ℕ) → AsTold R.Runner runner.old (IsBegun p turns (loaded_device state) (S.world supervisor.old)) →
        (h : List TraceEvent) × FinishLeft D.Disk J.Journal result
        (outside D.Disk K.Sink R.Runner L.Library I.Inbox disk.old sink.old runner.old library.now inbox.now)
        (outside D.Disk K.Sink R.Runner L.Library I.Inbox disk.new sink.new runner.new library.now inbox.now)
        p h (S.world supervisor.new) (Listed R.list R.told R.asked runner.new) (R.living runner.new) }
    ensures held { OwnsOver D.Disk J.Journal OwnsRan result disk.new }
    ensures up { UpRan result (S.world supervisor.new) }
    ensures none { IsOver result → R.living runner.new ≡ [] }
    ensures stays { StaysRan result }
    ensures caused { IsCaused D.is_modelled J.files (status_of_ran result)
        (observation D.Disk K.Sink L.Library I.Inbox disk.old sink.old library.now inbox.now)
        (observation D.Disk K.Sink L.Library I.Inbox disk.new sink.new library.now inbox.now) }
{
    components_run_their_items();
    deployments_serve_alike();
    idle_calls_are_steady();
    match state {
        Loaded::Idle(idle) => Ran::Back(idle, Status::Done, Standing::Nobody),
        state => resume(alloc, state, disk, sink, runner, supervisor),
    }
}
