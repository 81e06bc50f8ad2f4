//! A whole call that serves.
ghost use Rattle.std.specs.Prelude.{◌≡◌, [], List};
ghost use Rattle.deploy_state.specs.States.{OwnsIdle, OwnsLoaded, idle_device, loaded_device};
ghost use Rattle.admission.specs.Takes.{LieElsewhere};
ghost use Rattle.histories.specs.States.{SessionState};
ghost use Rattle.histories.specs.TraceEvents.{TraceEvent};
ghost use Rattle.deploy_state.specs.Objects.{OwnsOver};
ghost use Rattle.session_boots.specs.Stages.{AsTold};
ghost use Rattle.session_steady.specs.Serves.{IsServing};
ghost use Rattle.session_serving.specs.Causes.{IsCaused, observation};
ghost use Rattle.session_serving.specs.Documents.{IsDeployedThere};
ghost use Rattle.session_serving.specs.Parts.{AreOfFiles, outside};
ghost use Rattle.session_serving.specs.States.{AreUp, IsBegun, IsUnopened};
ghost use Rattle.session_serving.specs.Served.{IsSetServed, IsWholeCall};

use crate::ends::{give_up, say_ended, stop_all, stop_spent};
use crate::opening::open_set;
use crate::pending::finish_pending;
use crate::turned::{Owed, Turned};
use crate::turns::take_turns;
use components::Supervise;
use deploy_state::{Idle, Loaded};
use disk_model::Disk;
use edges::{Inbox, Sink};
use gate_log::Journal;
use library_core::Library;
use nuc_base::Status;
use session::Ran;
use std::alloc::Global;
use step_runner::Runner;

/// Takes the turns, and ends the call.
fn serve_turns<D: Disk, J: Journal + Drop, L: Library, I: Inbox, K: Sink, R: Runner, S: Supervise>(
    alloc: Global,
    idle: Idle<J>,
    owed: Owed,
    turns: u32,
    disk: &mut D,
    library: &mut L,
    inbox: &mut I,
    sink: &mut K,
    runner: &mut R,
    supervisor: &mut S,
) -> Status
where
    S::Ready: Drop,
    requires held { OwnsOver D.Disk J.Journal OwnsIdle idle disk.old }
    requires apart { LieElsewhere J.files }
    requires own { AreOfFiles J.files J.entries }
    requires up { AreUp (idle_device idle) (S.world supervisor.old) }
    requires from_state { (p : SessionState) × AsTold R.Runner runner.old (IsServing p (idle_device idle) (S.world supervisor.old)) × (p.turns ≡ turns) }
    ensures served { (p : SessionState) → AsTold R.Runner runner.old (IsServing p (idle_device idle) (S.world supervisor.old)) → p.turns ≡ turns →
        (h : List TraceEvent) × IsSetServed D.Disk J.Journal IsDeployedThere turns
        (outside D.Disk K.Sink R.Runner L.Library I.Inbox disk.old sink.old runner.old library.old inbox.old)
        (outside D.Disk K.Sink R.Runner L.Library I.Inbox disk.new sink.new runner.new library.new inbox.new)
        p h result }
    ensures none { R.living runner.new ≡ [] }
    ensures caused { IsCaused D.is_modelled J.files result
        (observation D.Disk K.Sink L.Library I.Inbox disk.old sink.old library.old inbox.old)
        (observation D.Disk K.Sink L.Library I.Inbox disk.new sink.new library.new inbox.new) }
{
    match take_turns(
        alloc, idle, owed, turns, disk, library, inbox, sink, runner, supervisor,
    ) {
        Turned::On(idle) => {
            drop(idle);
            if !stop_spent(runner, supervisor) {
                return Status::Memory;
            }
            say_ended(turns, sink)
        }
        Turned::Shut(idle) => {
            drop(idle);
            stop_all(runner, supervisor);
            Status::Done
        }
        Turned::Over(status) => status,
    }
}

/// Brings the set up, and serves it to the end of the call.
fn serve_set<D: Disk, J: Journal + Drop, L: Library, I: Inbox, K: Sink, R: Runner, S: Supervise>(
    alloc: Global,
    idle: Idle<J>,
    owed: Owed,
    turns: u32,
    disk: &mut D,
    library: &mut L,
    inbox: &mut I,
    sink: &mut K,
    runner: &mut R,
    supervisor: &mut S,
) -> Status
where
    S::Ready: Drop,
    requires held { OwnsOver D.Disk J.Journal OwnsIdle idle disk.old }
    requires apart { LieElsewhere J.files }
    requires own { AreOfFiles J.files J.entries }
    requires up { AreUp (idle_device idle) (S.world supervisor.old) }
    requires from_state { (p : SessionState) × AsTold R.Runner runner.old (IsUnopened p (idle_device idle) (S.world supervisor.old)) × (p.turns ≡ turns) }
    ensures served { (p : SessionState) → AsTold R.Runner runner.old (IsUnopened p (idle_device idle) (S.world supervisor.old)) → p.turns ≡ turns →
        (h : List TraceEvent) × IsSetServed D.Disk J.Journal IsDeployedThere turns
        (outside D.Disk K.Sink R.Runner L.Library I.Inbox disk.old sink.old runner.old library.old inbox.old)
        (outside D.Disk K.Sink R.Runner L.Library I.Inbox disk.new sink.new runner.new library.new inbox.new)
        p h result }
    ensures none { R.living runner.new ≡ [] }
    ensures caused { IsCaused D.is_modelled J.files result
        (observation D.Disk K.Sink L.Library I.Inbox disk.old sink.old library.old inbox.old)
        (observation D.Disk K.Sink L.Library I.Inbox disk.new sink.new library.new inbox.new) }
{
    match open_set(alloc, &idle, supervisor) {
        Ok(()) => serve_turns(
            alloc, idle, owed, turns, disk, library, inbox, sink, runner, supervisor,
        ),
        Err(_) => {
            drop(idle);
            give_up(runner, supervisor);
            Status::Memory
        }
    }
}

/// Finishes a pending deployment, and then keeps the set up and deploys the documents of the inbox one after another, for so many
/// turns or until the inbox is closed. Each turn does what is due, asks the inbox once, and handles its document, or waits for a
/// second at most. A document that is refused, or whose deployment fails, is a line, and the call goes on. So is a fault that a document
/// meets before its record: the disk's while its files are taken in, `fault 5 disk`, and want of memory, `fault 15 memory`; it is done
/// then, and no component is touched. Then all components are stopped. With a restart, a reboot, or another fault the call ends at once.
///
/// The library is refreshed once for each document that the inbox gave, before it is deployed, and at no other time: so each document is
/// deployed by what the library holds in its turn.
///
/// Answers 0 where the inbox is closed, 17 behind so many turns, 100 and 101, and 5, 6 and 15. It answers 15 where there is no memory for
/// the pending deployment, for an answer of the inbox or to bring the set up, and at the end of the runner's clock, at 2^62 - 1
/// milliseconds. Stray files of a document that met a fault, or of a close after which there was no memory to sweep, are swept before the
/// next document; it answers 5 where the disk fails in that.
pub fn serve<D: Disk, J: Journal + Drop, L: Library, I: Inbox, K: Sink, R: Runner, S: Supervise>(
    alloc: Global,
    state: Loaded<J>,
    turns: u32,
    disk: &mut D,
    library: &mut L,
    inbox: &mut I,
    sink: &mut K,
    runner: &mut R,
    supervisor: &mut S,
) -> Status
where
    S::Ready: Drop,
    requires held { OwnsOver D.Disk J.Journal OwnsLoaded state disk.old }
    // The journal does not lie among the files of artifacts.
    requires apart { LieElsewhere J.files }
    requires own { AreOfFiles J.files J.entries }
    // No component stands.
    requires empty { (S.world supervisor.old).parts ≡ [] }
    requires from_state { (p : SessionState) × AsTold R.Runner runner.old (IsBegun p turns (loaded_device state) (S.world supervisor.old)) }
    ensures served { (p : SessionState) → AsTold R.Runner runner.old (IsBegun p turns (loaded_device state) (S.world supervisor.old)) →
        (h : List TraceEvent) × IsWholeCall D.Disk J.Journal IsDeployedThere turns
        (outside D.Disk K.Sink R.Runner L.Library I.Inbox disk.old sink.old runner.old library.old inbox.old)
        (outside D.Disk K.Sink R.Runner L.Library I.Inbox disk.new sink.new runner.new library.new inbox.new)
        p h result }
    ensures none { R.living runner.new ≡ [] }
    // It ends with 5 only where the disk's count rose, and with 6 only where the sink's or the inbox's did.
    ensures caused { IsCaused D.is_modelled J.files result
        (observation D.Disk K.Sink L.Library I.Inbox disk.old sink.old library.old inbox.old)
        (observation D.Disk K.Sink L.Library I.Inbox disk.new sink.new library.new inbox.new) }
{
    match finish_pending(alloc, state, disk, library, inbox, sink, runner, supervisor) {
        Ran::Back(idle, status, _) => serve_set(
            alloc,
            idle,
            Owed::Nothing.after(status),
            turns,
            disk,
            library,
            inbox,
            sink,
            runner,
            supervisor,
        ),
        Ran::Over(status) => status,
    }
}
