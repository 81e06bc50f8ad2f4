// A document is handled: deployed or declined, done, and where its close left none of the set, that is brought up again.
ghost use Rattle.std.specs.Prelude.{◌≡◌, [], List, IsTrue};
ghost use Rattle.deploy_state.specs.States.{OwnsIdle, idle_device};
ghost use Rattle.admission.specs.Takes.{LieElsewhere};
ghost use Rattle.histories.specs.Courses.{is_restart};
ghost use Rattle.histories.specs.States.{SessionState};
ghost use Rattle.histories.specs.TraceEvents.{TraceEvent, document as a_document};
ghost use Rattle.step_runner.specs.Entries.{Listed};
ghost use Rattle.deploy_state.specs.Objects.{OwnsOver};
ghost use Rattle.session_boots.specs.Stages.{AsTold};
ghost use Rattle.session.specs.Parts.{IsOver, OwnsRan, status_of_ran};
ghost use Rattle.session_serving.specs.Causes.{IsCaused, observation};
ghost use Rattle.session_serving.specs.Documents.{IsDeployedThere};
ghost use Rattle.session_serving.specs.Parts.{AreOfFiles, outside};
ghost use Rattle.session_serving.specs.States.{AreUp, IsAsked};
ghost use Rattle.session_serving.specs.Turns.{DocumentLeft, HandleLeft, HasEnded, OwnsTurned, StaysRan, UpRan, UpTurned, status_of_turned};

use crate::ends::{give_up, say_if_no_memory, say_inbox};
use crate::standing::stand_again;
use crate::turned::{Owed, Turned};
use components::Supervise;
use deploy_state::Idle;
use disk_model::Disk;
use edges::{Inbox, Sink};
use gate_log::Journal;
use law_serving::{components_run_their_items, deployments_serve_alike, idle_calls_are_steady};
use library_core::Library;
use nuc_base::Status;
use session::{Ran, run_document};
use std::alloc::Global;
use step_runner::Runner;

/// Lets what the library holds be another from now on, and deploys the document that the inbox gave by that, or says why not, also that
/// there was no memory for it. Where that line cannot be written all children are killed, and the call ends with 6.
fn deploy_given<D: Disk, J: Journal + Drop, L: Library, I: Inbox, K: Sink, R: Runner, S: Supervise>(
    alloc: Global,
    idle: Idle<J>,
    document: &[u8],
    owed: &mut Owed,
    disk: &mut D,
    library: &mut L,
    inbox: &I,
    sink: &mut K,
    runner: &mut R,
    supervisor: &mut S,
) -> Ran<J>
where
    S::Ready: Drop,
    requires held { OwnsOver D.Disk J.Journal OwnsIdle idle disk.old }
    requires apart { LieElsewhere J.files }
    requires own { AreOfFiles J.files J.entries }
    requires up { AreUp (idle_device idle) (S.world supervisor.old) }
    requires from_state { (p : SessionState) × AsTold R.Runner runner.old (IsAsked a_document p (idle_device idle) (S.world supervisor.old)) }
    ensures left { (p : SessionState) → AsTold R.Runner runner.old (IsAsked a_document p (idle_device idle) (S.world supervisor.old)) →
        (h : List TraceEvent) × DocumentLeft D.Disk J.Journal IsDeployedThere document.now result
        (outside D.Disk K.Sink R.Runner L.Library I.Inbox disk.old sink.old runner.old library.old inbox.now)
        (outside D.Disk K.Sink R.Runner L.Library I.Inbox disk.new sink.new runner.new library.new inbox.now)
        p h (S.world supervisor.new) (Listed R.list R.told R.asked runner.new) (R.living runner.new) }
    ensures held { OwnsOver D.Disk J.Journal OwnsRan result disk.new }
    ensures up { UpRan result (S.world supervisor.new) }
    ensures none { IsOver result → R.living runner.new ≡ [] }
    ensures stays { StaysRan result }
    ensures caused { IsCaused D.is_modelled J.files (status_of_ran result)
        (observation D.Disk K.Sink L.Library I.Inbox disk.old sink.old library.old inbox.now)
        (observation D.Disk K.Sink L.Library I.Inbox disk.new sink.new library.new inbox.now) }
{
    components_run_their_items();
    deployments_serve_alike();
    idle_calls_are_steady();
    library.refresh();
    match run_document(
        alloc, idle, document, disk, library, sink, runner, supervisor,
    ) {
        Ran::Back(idle, status, standing) => match say_if_no_memory(status, standing, sink) {
            Ok(()) => {
                *owed = owed.after(status);
                Ran::Back(idle, status, standing)
            }
            Err(_) => {
                drop(idle);
                give_up(runner, supervisor);
                Ran::Over(Status::Edge)
            }
        },
        Ran::Over(status) => Ran::Over(status),
    }
}

fn asks_restart(status: Status) -> bool
    ensures { result ≡ is_restart status }
{
    matches!(status, Status::Restart | Status::Reboot)
}

/// Handles the document that the inbox gave. It is done behind its last line, unless the call gives up, and before the inbox is
/// asked again.
pub(crate) fn handle<
    D: Disk,
    J: Journal + Drop,
    L: Library,
    I: Inbox,
    K: Sink,
    R: Runner,
    S: Supervise,
>(
    alloc: Global,
    idle: Idle<J>,
    document: &[u8],
    owed: &mut Owed,
    disk: &mut D,
    library: &mut L,
    inbox: &mut I,
    sink: &mut K,
    runner: &mut R,
    supervisor: &mut S,
) -> Turned<J>
where
    S::Ready: Drop,
    requires held { OwnsOver D.Disk J.Journal OwnsIdle idle disk.old }
    requires apart { LieElsewhere J.files }
    requires own { AreOfFiles J.files J.entries }
    requires given { IsTrue (I.answered inbox.old).is_given }
    requires up { AreUp (idle_device idle) (S.world supervisor.old) }
    requires from_state { (p : SessionState) × AsTold R.Runner runner.old (IsAsked a_document p (idle_device idle) (S.world supervisor.old)) }
    ensures left { (p : SessionState) → AsTold R.Runner runner.old (IsAsked a_document p (idle_device idle) (S.world supervisor.old)) →
        (h : List TraceEvent) × HandleLeft D.Disk J.Journal IsDeployedThere document.now result
        (outside D.Disk K.Sink R.Runner L.Library I.Inbox disk.old sink.old runner.old library.old inbox.old)
        (outside D.Disk K.Sink R.Runner L.Library I.Inbox disk.new sink.new runner.new library.new inbox.new)
        p h (S.world supervisor.new) (Listed R.list R.told R.asked runner.new) (R.living runner.new) }
    ensures held { OwnsOver D.Disk J.Journal OwnsTurned result disk.new }
    ensures up { UpTurned result (S.world supervisor.new) }
    ensures none { HasEnded result → R.living runner.new ≡ [] }
    ensures caused { IsCaused D.is_modelled J.files (status_of_turned result)
        (observation D.Disk K.Sink L.Library I.Inbox disk.old sink.old library.old inbox.old)
        (observation D.Disk K.Sink L.Library I.Inbox disk.new sink.new library.new inbox.new) }
{
    match deploy_given(
        alloc, idle, document, owed, disk, library, inbox, sink, runner, supervisor,
    ) {
        Ran::Back(idle, _, standing) => match inbox.done() {
            Ok(()) => stand_again(alloc, idle, standing, disk, runner, supervisor),
            Err(_) => {
                drop(idle);
                give_up(runner, supervisor);
                Turned::Over(say_inbox(sink))
            }
        },
        Ran::Over(status) => {
            if !asks_restart(status) {
                return Turned::Over(status);
            }
            match inbox.done() {
                Ok(()) => Turned::Over(status),
                Err(_) => Turned::Over(say_inbox(sink)),
            }
        }
    }
}
