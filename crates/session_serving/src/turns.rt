// The turns of a call that serves.
ghost use Rattle.std.specs.Prelude.{◌≡◌, ◌≤◌, ◌<◌, ◌+◌, ◌^◌, [], List};
ghost use Rattle.deploy_state.specs.States.{OwnsIdle, idle_device};
ghost use Rattle.admission.specs.Takes.{LieElsewhere};
ghost use Rattle.histories.specs.States.{SessionState};
ghost use Rattle.histories.specs.TraceEvents.{TraceEvent};
ghost use Rattle.step_runner.specs.Entries.{Listed};
ghost use Rattle.deploy_state.specs.Objects.{OwnsOver};
ghost use Rattle.session_boots.specs.Stages.{AsTold};
ghost use Rattle.session_steady.specs.Serves.{IsAsking, IsServing};
ghost use Rattle.session_serving.specs.Causes.{IsCaused, observation};
ghost use Rattle.session_serving.specs.Documents.{IsDeployedThere};
ghost use Rattle.session_serving.specs.Parts.{AreOfFiles, outside};
ghost use Rattle.session_serving.specs.States.{AreUp};
ghost use Rattle.session_serving.specs.Turns.{HasEnded, OwnsTurned, TurnLeft, TurnsLeft, UpTurned, status_of_turned};

use crate::ends::{give_up_asking, give_up_serving};
use crate::handling::handle;
use crate::pauses::{Pause, begin, documented};
use crate::restarting::settle_turn;
use crate::sweeping::{give_up_sweeping, sweep_owed};
use crate::turned::{Owed, Turned};
use components::Supervise;
use deploy_state::Idle;
use disk_model::Disk;
use edges::{Inbox, Incoming, Sink};
use gate_log::Journal;
use library_core::Library;
use nuc_base::Status;
use session_steady::wait_turn;
use std::alloc::Global;
use step_runner::Runner;

/// Asks the inbox once, where every act was taken: a document is handled, and where there is none the turn waits once.
fn ask<D: Disk, J: Journal + Drop, L: Library, I: Inbox, K: Sink, R: Runner, S: Supervise>(
    alloc: Global,
    idle: Idle<J>,
    now: u64,
    owed: &mut Owed,
    pause: &mut Pause,
    disk: &mut D,
    library: &mut L,
    inbox: &mut I,
    sink: &mut K,
    runner: &mut R,
    supervisor: &mut S,
) -> Turned<J>
where
    S::Ready: Drop,
    requires held { OwnsOver D.Disk J.Journal OwnsIdle idle disk.old }
    requires apart { LieElsewhere J.files }
    requires own { AreOfFiles J.files J.entries }
    requires now { (R.told runner.old ≡ now) × (now + 1 < 2 ^ 62) }
    requires up { AreUp (idle_device idle) (S.world supervisor.old) }
    requires from_state { (p : SessionState) × AsTold R.Runner runner.old (IsAsking p (idle_device idle) (S.world supervisor.old)) × (1 ≤ p.turns) }
    ensures left { (p : SessionState) → AsTold R.Runner runner.old (IsAsking p (idle_device idle) (S.world supervisor.old)) → 1 ≤ p.turns →
        (h : List TraceEvent) × TurnLeft D.Disk J.Journal IsDeployedThere result
        (outside D.Disk K.Sink R.Runner L.Library I.Inbox disk.old sink.old runner.old library.old inbox.old)
        (outside D.Disk K.Sink R.Runner L.Library I.Inbox disk.new sink.new runner.new library.new inbox.new)
        p h (S.world supervisor.new) (Listed R.list R.told R.asked runner.new) (R.living runner.new) }
    ensures held { OwnsOver D.Disk J.Journal OwnsTurned result disk.new }
    ensures up { UpTurned result (S.world supervisor.new) }
    ensures none { HasEnded result → R.living runner.new ≡ [] }
    ensures caused { IsCaused D.is_modelled J.files (status_of_turned result)
        (observation D.Disk K.Sink L.Library I.Inbox disk.old sink.old library.old inbox.old)
        (observation D.Disk K.Sink L.Library I.Inbox disk.new sink.new library.new inbox.new) }
{
    match inbox.next(alloc) {
        Ok(incoming) => match incoming {
            Incoming::Nothing => {
                wait_turn(runner, supervisor, now);
                Turned::On(idle)
            }
            Incoming::Closed => Turned::Shut(idle),
            Incoming::Document(bytes) => {
                *pause = documented(*pause);
                let turned = handle(
                    alloc,
                    idle,
                    bytes.as_slice(),
                    owed,
                    disk,
                    library,
                    inbox,
                    sink,
                    runner,
                    supervisor,
                );
                drop(bytes);
                turned
            }
        },
        Err(fault) => {
            drop(idle);
            Turned::Over(give_up_asking(fault, sink, runner, supervisor))
        }
    }
}

/// Does what is due, and asks the inbox once: a document is handled, and where there is none the turn waits once.
fn take_turn<D: Disk, J: Journal + Drop, L: Library, I: Inbox, K: Sink, R: Runner, S: Supervise>(
    alloc: Global,
    idle: Idle<J>,
    owed: &mut Owed,
    pause: &mut Pause,
    disk: &mut D,
    library: &mut L,
    inbox: &mut I,
    sink: &mut K,
    runner: &mut R,
    supervisor: &mut S,
) -> Turned<J>
where
    S::Ready: Drop,
    requires held { OwnsOver D.Disk J.Journal OwnsIdle idle disk.old }
    requires apart { LieElsewhere J.files }
    requires own { AreOfFiles J.files J.entries }
    requires up { AreUp (idle_device idle) (S.world supervisor.old) }
    requires from_state { (p : SessionState) × AsTold R.Runner runner.old (IsServing p (idle_device idle) (S.world supervisor.old)) × (1 ≤ p.turns) }
    ensures left { (p : SessionState) → AsTold R.Runner runner.old (IsServing p (idle_device idle) (S.world supervisor.old)) → 1 ≤ p.turns →
        (h : List TraceEvent) × TurnLeft D.Disk J.Journal IsDeployedThere result
        (outside D.Disk K.Sink R.Runner L.Library I.Inbox disk.old sink.old runner.old library.old inbox.old)
        (outside D.Disk K.Sink R.Runner L.Library I.Inbox disk.new sink.new runner.new library.new inbox.new)
        p h (S.world supervisor.new) (Listed R.list R.told R.asked runner.new) (R.living runner.new) }
    ensures held { OwnsOver D.Disk J.Journal OwnsTurned result disk.new }
    ensures up { UpTurned result (S.world supervisor.new) }
    ensures none { HasEnded result → R.living runner.new ≡ [] }
    ensures caused { IsCaused D.is_modelled J.files (status_of_turned result)
        (observation D.Disk K.Sink L.Library I.Inbox disk.old sink.old library.old inbox.old)
        (observation D.Disk K.Sink L.Library I.Inbox disk.new sink.new library.new inbox.new) }
{
    match settle_turn(alloc, &idle, pause, runner, supervisor) {
        Some(settled) => ask(
            alloc,
            idle,
            settled.now,
            owed,
            pause,
            disk,
            library,
            inbox,
            sink,
            runner,
            supervisor,
        ),
        None => {
            drop(idle);
            give_up_serving(runner, supervisor);
            Turned::Over(Status::Memory)
        }
    }
}

/// A turn, before which stray files are swept where that is owed. Where the disk fails in that the call ends.
fn turn<D: Disk, J: Journal + Drop, L: Library, I: Inbox, K: Sink, R: Runner, S: Supervise>(
    alloc: Global,
    idle: Idle<J>,
    owed: &mut Owed,
    pause: &mut Pause,
    disk: &mut D,
    library: &mut L,
    inbox: &mut I,
    sink: &mut K,
    runner: &mut R,
    supervisor: &mut S,
) -> Turned<J>
where
    S::Ready: Drop,
    requires held { OwnsOver D.Disk J.Journal OwnsIdle idle disk.old }
    requires apart { LieElsewhere J.files }
    requires own { AreOfFiles J.files J.entries }
    requires up { AreUp (idle_device idle) (S.world supervisor.old) }
    requires from_state { (p : SessionState) × AsTold R.Runner runner.old (IsServing p (idle_device idle) (S.world supervisor.old)) × (1 ≤ p.turns) }
    ensures left { (p : SessionState) → AsTold R.Runner runner.old (IsServing p (idle_device idle) (S.world supervisor.old)) → 1 ≤ p.turns →
        (h : List TraceEvent) × TurnLeft D.Disk J.Journal IsDeployedThere result
        (outside D.Disk K.Sink R.Runner L.Library I.Inbox disk.old sink.old runner.old library.old inbox.old)
        (outside D.Disk K.Sink R.Runner L.Library I.Inbox disk.new sink.new runner.new library.new inbox.new)
        p h (S.world supervisor.new) (Listed R.list R.told R.asked runner.new) (R.living runner.new) }
    ensures held { OwnsOver D.Disk J.Journal OwnsTurned result disk.new }
    ensures up { UpTurned result (S.world supervisor.new) }
    ensures none { HasEnded result → R.living runner.new ≡ [] }
    ensures caused { IsCaused D.is_modelled J.files (status_of_turned result)
        (observation D.Disk K.Sink L.Library I.Inbox disk.old sink.old library.old inbox.old)
        (observation D.Disk K.Sink L.Library I.Inbox disk.new sink.new library.new inbox.new) }
{
    match sweep_owed(alloc, &idle, owed, disk) {
        Ok(()) => take_turn(
            alloc, idle, owed, pause, disk, library, inbox, sink, runner, supervisor,
        ),
        Err(_) => {
            drop(idle);
            Turned::Over(give_up_sweeping(sink, runner, supervisor))
        }
    }
}

/// So many turns, or fewer, where the inbox is closed or the call ends before.
pub(crate) fn take_turns<
    D: Disk,
    J: Journal + Drop,
    L: Library,
    I: Inbox,
    K: Sink,
    R: Runner,
    S: Supervise,
>(
    alloc: Global,
    idle: Idle<J>,
    owed: Owed,
    turns: u32,
    disk: &mut D,
    library: &mut L,
    inbox: &mut I,
    sink: &mut K,
    runner: &mut R,
    supervisor: &mut S,
) -> Turned<J>
where
    S::Ready: Drop,
    requires held { OwnsOver D.Disk J.Journal OwnsIdle idle disk.old }
    requires apart { LieElsewhere J.files }
    requires own { AreOfFiles J.files J.entries }
    requires up { AreUp (idle_device idle) (S.world supervisor.old) }
    requires from_state { (p : SessionState) × AsTold R.Runner runner.old (IsServing p (idle_device idle) (S.world supervisor.old)) × (p.turns ≡ turns) }
    ensures left { (p : SessionState) → AsTold R.Runner runner.old (IsServing p (idle_device idle) (S.world supervisor.old)) → p.turns ≡ turns →
        (h : List TraceEvent) × TurnsLeft D.Disk J.Journal IsDeployedThere result turns
        (outside D.Disk K.Sink R.Runner L.Library I.Inbox disk.old sink.old runner.old library.old inbox.old)
        (outside D.Disk K.Sink R.Runner L.Library I.Inbox disk.new sink.new runner.new library.new inbox.new)
        p h (S.world supervisor.new) (Listed R.list R.told R.asked runner.new) (R.living runner.new) }
    ensures held { OwnsOver D.Disk J.Journal OwnsTurned result disk.new }
    ensures up { UpTurned result (S.world supervisor.new) }
    ensures none { HasEnded result → R.living runner.new ≡ [] }
    ensures caused { IsCaused D.is_modelled J.files (status_of_turned result)
        (observation D.Disk K.Sink L.Library I.Inbox disk.old sink.old library.old inbox.old)
        (observation D.Disk K.Sink L.Library I.Inbox disk.new sink.new library.new inbox.new) }
{
    let mut idle = idle;
    let mut owed = owed;
    let mut pause = begin();
    'turns: for _turn in 0..turns {
        match turn(
            alloc, idle, &mut owed, &mut pause, disk, library, inbox, sink, runner, supervisor,
        ) {
            Turned::On(next) => {
                idle = next;
            }
            Turned::Shut(last) => return Turned::Shut(last),
            Turned::Over(status) => return Turned::Over(status),
        }
    }
    Turned::On(idle)
}
