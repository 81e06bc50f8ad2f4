//! A pending deployment is driven on.
ghost use Rattle.std.specs.Prelude.{◌≡◌, ◌≢◌, ◌≤◌, [], IsSome, IsTrue, IfOk};
ghost use Rattle.artifact_store.specs.Holding.{AllHoldDevice};
ghost use Rattle.artifact_store.specs.Swept.{IsSwept, items_of};
ghost use Rattle.nuc_base.specs.Faults.{Rose};
ghost use Rattle.nuc_base.specs.declared.status.Status.TheVariants as statuses;
ghost use Rattle.device.specs.Devices.{IsRegularDevice, device_view};
ghost use Rattle.device.specs.Sound.{IsSound};
ghost use Rattle.deploy_state.specs.States.{OwnsLoaded, loaded_device};
ghost use Rattle.session_boots.specs.Lines.{id_of};
ghost use Rattle.session_boots.specs.Stands.{IsAtBootStage};
ghost use Rattle.histories.specs.States.{SessionState};
ghost use Rattle.session_admission.specs.Readied.{AreReadiedFor};
ghost use Rattle.admission.specs.Takes.{LieElsewhere};
ghost use Rattle.session.specs.Objects.{HasArtifactsOn, RunsPartOn};
ghost use Rattle.session.specs.Calls.{AreOthersSame, IsOrEdge, SaysLine, HasNotFallen, resumed_line};
ghost use Rattle.session.specs.Parts.{EndsRan, IsAnew, IsBack, IsOver, OwnsRan, TakesNone, status_of_ran};
ghost use Rattle.law_supervisor.specs.Sound.{IsOrderly};
ghost use Rattle.law_termination.specs.Drives.{AreDriven};
ghost use Rattle.session.specs.Endings.{ByDiskFault, ResumeEnding};
ghost use Rattle.session.specs.Sweeping.{LeavesNoStray};
ghost use Rattle.deploy_state.specs.Objects.{OwnsOver};
ghost use Rattle.session_boots.specs.Stages.{AsTold};

use crate::ends::end_call;
use crate::giving::back_or_over;
use crate::lines::{pending_id, say};
use crate::ran::{Ran, Standing};
use components::Supervise;
use deploy_state::Loaded;
use device::Device;
use disk_model::Disk;
use edges::Sink;
use gate_log::Journal;
use nuc_base::{NoMemory, Status};
use session_admission::{Readied, prepare};
use session_rollout::drive;
use std::alloc::Global;
use step_runner::Runner;

/// All that the pending deployment needs up to its close.
fn ready_again<S: Supervise>(
    alloc: Global,
    device: &Device,
    supervisor: &S,
) -> Result<Readied<S::Ready>, NoMemory>
where
    S::Ready: Drop,
    requires sound { IsSound (device_view device.now) }
    requires regular { IsRegularDevice (device_view device.now) }
    requires pending { IsSome device.now.pending }
    ensures { IfOk result (λ r. AreReadiedFor (device_view device.now) r.boots r.backs (S.coming r.items) (S.coming r.earlier)) }
{
    let (Some(origin), Some(pending)) = (&device.origin, &device.pending) else {
        unreachable!();
    };
    prepare(alloc, supervisor, origin, &device.set, &pending.plan)
}

/// Prints that the pending deployment is resumed.
fn say_resumed<J: Journal + Drop, K: Sink>(state: &Loaded<J>, sink: &mut K) -> Status
    ensures says { SaysLine (K.held sink.old) (K.held sink.new) result (resumed_line (id_of (loaded_device state.now))) }
    ensures answers { IsOrEdge result statuses.Done }
    ensures edge { result ≡ statuses.Edge → Rose (K.faults sink.old) (K.faults sink.new) }
    ensures quiet { result ≢ statuses.Edge → K.faults sink.new ≡ K.faults sink.old }
    ensures later { K.faults sink.old ≤ K.faults sink.new }
{
    say(sink, &["resumed ", pending_id(state), "\n"], Status::Done)
}

/// Says that the pending deployment is resumed, for which all was made ready, and drives it on.
fn resume_ready<D: Disk, J: Journal + Drop, K: Sink, R: Runner, S: Supervise>(
    alloc: Global,
    state: Loaded<J>,
    ready: Readied<S::Ready>,
    disk: &mut D,
    sink: &mut K,
    runner: &mut R,
    supervisor: &mut S,
) -> Ran<J>
where
    S::Ready: Drop,
    requires held { OwnsOver D.Disk J.Journal OwnsLoaded state disk.old }
    requires pending { IsSome (loaded_device state).pending }
    requires ready { AreReadiedFor (loaded_device state) ready.boots ready.backs (S.coming ready.items) (S.coming ready.earlier) }
    // The journal does not lie among the files of artifacts.
    requires apart { LieElsewhere J.files }
    requires drives { AreDriven (S.world supervisor.old) }
    requires orderly { IsOrderly (S.world supervisor.old) }
    requires from_state { (p : SessionState) × AsTold R.Runner runner.old (IsAtBootStage p (loaded_device state) (S.world supervisor.old)) }
    // Where the images at the start have the device's artifacts, each of each moment has those of the device for which it stands.
    // The call ends as one whose disk failed only where the disk's count rose.
    ensures call { (p : SessionState) → AsTold R.Runner runner.old (IsAtBootStage p (loaded_device state) (S.world supervisor.old)) → TakesNone p →
        (c : RunsPartOn D.Disk J.Journal K.Sink R.Runner disk.old disk.new sink.old sink.new runner.old runner.new p result (S.world supervisor.new))
        × ResumeEnding (loaded_device state) c.ending
        × (AllHoldDevice (D.may_leave disk.old) p.device → HasArtifactsOn D.Disk J.Journal K.Sink R.Runner disk.old disk.new sink.old sink.new runner.old
        runner.new p result (S.world supervisor.new) c)
        × (c.ending ≡ ByDiskFault → Rose (D.faults disk.old) (D.faults disk.new)) }
    ensures own { status_of_ran result ≢ statuses.Library }
    // Where it comes back the components are as the deployment left them, and else no child lives.
    ensures none { IsOver result → R.living runner.new ≡ [] }
    ensures ends_call { EndsRan result }
    ensures anew { IsAnew result }
    ensures drives { IsBack result → AreDriven (S.world supervisor.new) }
    ensures held { OwnsOver D.Disk J.Journal OwnsRan result disk.new }
    ensures others { IsTrue D.is_modelled → AreOthersSame J.files (D.seen disk.old) (D.seen disk.new) }
    ensures disk { status_of_ran result ≡ statuses.Disk → Rose (D.faults disk.old) (D.faults disk.new) }
    ensures edge { status_of_ran result ≡ statuses.Edge → Rose (K.faults sink.old) (K.faults sink.new) }
    ensures quiet_disk { status_of_ran result ≢ statuses.Disk → status_of_ran result ≢ statuses.Edge → D.faults disk.new ≡ D.faults disk.old }
    ensures quiet_sink { status_of_ran result ≢ statuses.Edge → K.faults sink.new ≡ K.faults sink.old }
    ensures later { HasNotFallen (D.faults disk.old) (D.faults disk.new) × HasNotFallen (K.faults sink.old) (K.faults sink.new) }
    // No stray file is left where none was there at the start.
    ensures swept { (IsTrue D.is_modelled → IsSwept (items_of (loaded_device state)) (D.seen disk.old)) →
        LeavesNoStray D.is_modelled J.entries (status_of_ran result)
        (D.seen disk.new) }
{
    match say_resumed(&state, sink) {
        Status::Done => {
            let driven = drive(state, ready, disk, sink, runner, supervisor);
            end_call(alloc, driven, disk, sink, runner, supervisor)
        }
        status => {
            drop(ready);
            drop(state);
            Ran::Over(status)
        }
    }
}

/// Makes all ready for the pending deployment, and drives it on.
fn resume_pending<D: Disk, J: Journal + Drop, K: Sink, R: Runner, S: Supervise>(
    alloc: Global,
    state: Loaded<J>,
    disk: &mut D,
    sink: &mut K,
    runner: &mut R,
    supervisor: &mut S,
) -> Ran<J>
where
    S::Ready: Drop,
    requires held { OwnsOver D.Disk J.Journal OwnsLoaded state disk.old }
    requires pending { IsSome (loaded_device state).pending }
    // The journal does not lie among the files of artifacts.
    requires apart { LieElsewhere J.files }
    requires drives { AreDriven (S.world supervisor.old) }
    requires orderly { IsOrderly (S.world supervisor.old) }
    requires from_state { (p : SessionState) × AsTold R.Runner runner.old (IsAtBootStage p (loaded_device state) (S.world supervisor.old)) }
    // Where the images at the start have the device's artifacts, each of each moment has those of the device for which it stands.
    // The call ends as one whose disk failed only where the disk's count rose.
    ensures call { (p : SessionState) → AsTold R.Runner runner.old (IsAtBootStage p (loaded_device state) (S.world supervisor.old)) → TakesNone p →
        (c : RunsPartOn D.Disk J.Journal K.Sink R.Runner disk.old disk.new sink.old sink.new runner.old runner.new p result (S.world supervisor.new))
        × ResumeEnding (loaded_device state) c.ending
        × (AllHoldDevice (D.may_leave disk.old) p.device → HasArtifactsOn D.Disk J.Journal K.Sink R.Runner disk.old disk.new sink.old sink.new runner.old
        runner.new p result (S.world supervisor.new) c)
        × (c.ending ≡ ByDiskFault → Rose (D.faults disk.old) (D.faults disk.new)) }
    ensures own { status_of_ran result ≢ statuses.Library }
    // Where it comes back the components are as the deployment left them, and else no child lives.
    ensures none { IsOver result → R.living runner.new ≡ [] }
    ensures ends_call { EndsRan result }
    ensures anew { IsAnew result }
    ensures drives { IsBack result → AreDriven (S.world supervisor.new) }
    ensures held { OwnsOver D.Disk J.Journal OwnsRan result disk.new }
    ensures others { IsTrue D.is_modelled → AreOthersSame J.files (D.seen disk.old) (D.seen disk.new) }
    ensures disk { status_of_ran result ≡ statuses.Disk → Rose (D.faults disk.old) (D.faults disk.new) }
    ensures edge { status_of_ran result ≡ statuses.Edge → Rose (K.faults sink.old) (K.faults sink.new) }
    ensures quiet_disk { status_of_ran result ≢ statuses.Disk → status_of_ran result ≢ statuses.Edge → D.faults disk.new ≡ D.faults disk.old }
    ensures quiet_sink { status_of_ran result ≢ statuses.Edge → K.faults sink.new ≡ K.faults sink.old }
    ensures later { HasNotFallen (D.faults disk.old) (D.faults disk.new) × HasNotFallen (K.faults sink.old) (K.faults sink.new) }
    // No stray file is left where none was there at the start.
    ensures swept { (IsTrue D.is_modelled → IsSwept (items_of (loaded_device state)) (D.seen disk.old)) →
        LeavesNoStray D.is_modelled J.entries (status_of_ran result)
        (D.seen disk.new) }
{
    match ready_again(alloc, state.device(), supervisor) {
        Ok(ready) => resume_ready(alloc, state, ready, disk, sink, runner, supervisor),
        Err(_) => {
            drop(state);
            Ran::Over(Status::Memory)
        }
    }
}

/// Drives the pending deployment on, from its recorded stage to its close. Where none is pending that is said, and nothing is
/// done. No component stands before.
///
/// Comes back with 0, 10, 11 and 12, and with 15 where there was no memory to sweep stray files after the close; and else ends the call.
pub fn resume<D: Disk, J: Journal + Drop, K: Sink, R: Runner, S: Supervise>(
    alloc: Global,
    state: Loaded<J>,
    disk: &mut D,
    sink: &mut K,
    runner: &mut R,
    supervisor: &mut S,
) -> Ran<J>
where
    S::Ready: Drop,
    requires held { OwnsOver D.Disk J.Journal OwnsLoaded state disk.old }
    // The journal does not lie among the files of artifacts.
    requires apart { LieElsewhere J.files }
    requires drives { AreDriven (S.world supervisor.old) }
    requires orderly { IsOrderly (S.world supervisor.old) }
    requires from_state { (p : SessionState) × AsTold R.Runner runner.old (IsAtBootStage p (loaded_device state) (S.world supervisor.old)) }
    // Where the images at the start have the device's artifacts, each of each moment has those of the device for which it stands.
    // The call ends as one whose disk failed only where the disk's count rose.
    ensures call { (p : SessionState) → AsTold R.Runner runner.old (IsAtBootStage p (loaded_device state) (S.world supervisor.old)) → TakesNone p →
        (c : RunsPartOn D.Disk J.Journal K.Sink R.Runner disk.old disk.new sink.old sink.new runner.old runner.new p result (S.world supervisor.new))
        × ResumeEnding (loaded_device state) c.ending
        × (AllHoldDevice (D.may_leave disk.old) p.device → HasArtifactsOn D.Disk J.Journal K.Sink R.Runner disk.old disk.new sink.old sink.new runner.old
        runner.new p result (S.world supervisor.new) c)
        × (c.ending ≡ ByDiskFault → Rose (D.faults disk.old) (D.faults disk.new)) }
    ensures own { status_of_ran result ≢ statuses.Library }
    // Where it comes back the components are as the deployment left them, and else no child lives.
    ensures none { IsOver result → R.living runner.new ≡ [] }
    ensures ends_call { EndsRan result }
    // Where one is pending the components are those of the set behind it, or none stands.
    ensures anew { IsSome (loaded_device state).pending → IsAnew result }
    ensures drives { IsBack result → AreDriven (S.world supervisor.new) }
    ensures held { OwnsOver D.Disk J.Journal OwnsRan result disk.new }
    ensures others { IsTrue D.is_modelled → AreOthersSame J.files (D.seen disk.old) (D.seen disk.new) }
    ensures disk { status_of_ran result ≡ statuses.Disk → Rose (D.faults disk.old) (D.faults disk.new) }
    ensures edge { status_of_ran result ≡ statuses.Edge → Rose (K.faults sink.old) (K.faults sink.new) }
    ensures quiet_disk { status_of_ran result ≢ statuses.Disk → status_of_ran result ≢ statuses.Edge → D.faults disk.new ≡ D.faults disk.old }
    ensures quiet_sink { status_of_ran result ≢ statuses.Edge → K.faults sink.new ≡ K.faults sink.old }
    ensures later { HasNotFallen (D.faults disk.old) (D.faults disk.new) × HasNotFallen (K.faults sink.old) (K.faults sink.new) }
    // No stray file is left where none was there at the start.
    ensures swept { (IsTrue D.is_modelled → IsSwept (items_of (loaded_device state)) (D.seen disk.old)) →
        LeavesNoStray D.is_modelled J.entries (status_of_ran result)
        (D.seen disk.new) }
{
    match state {
        Loaded::Idle(idle) => {
            let status = say(sink, &["idle\n"], Status::Done);
            back_or_over(idle, status, Standing::AsBefore, runner, supervisor)
        }
        state => resume_pending(alloc, state, disk, sink, runner, supervisor),
    }
}
