//! A deployment in a call of its own, from a document or from where a call before left it: behind it all components are stopped.
ghost use Rattle.std.specs.Prelude.{◌≡◌, ◌≢◌, [], false, IsTrue, is_some, Bool, List, true, ◌≤◌, Some, IfOk, IfErr, Result};
ghost use Rattle.artifact_store.specs.Holding.{AllHoldDevice};
ghost use Rattle.artifact_store.specs.Swept.{IsSwept, items_of};
ghost use Rattle.nuc_base.specs.Faults.{Rose};
ghost use Rattle.library_core.specs.Library.{StaysTold};
ghost use Rattle.device.specs.Devices.{Device};
ghost use Rattle.deploy_state.specs.States.{OwnsLoaded, loaded_device, OwnsIdle, idle_device};
ghost use Rattle.histories.specs.States.{SessionState, state_after};
ghost use Rattle.admission.specs.Takes.{LieElsewhere, HasDiskFailed, HasLibraryFailed};
ghost use Rattle.deploy_state.specs.Objects.{entry_start};
ghost use Rattle.session.specs.Objects.{AcceptsTakenOn, CallOn, DrivesTakenOn, KeepsArtifactsOn};
ghost use Rattle.session.specs.Calls.{AreOthersSame, HasNotFallen};
ghost use Rattle.session.specs.Endings.{ByDiskFault, ResumeEnding};
ghost use Rattle.session.specs.Sweeping.{LeavesNoStray};
ghost use Rattle.deploy_state.specs.Objects.{OwnsOver};
ghost use Rattle.session_boots.specs.Stages.{AsTold};
ghost use Rattle.session_boots.specs.Stands.{IsAtBootStage};
ghost use Rattle.law_termination.specs.Drives.{AreDriven};
ghost use Rattle.components.specs.Components.{is_stopped};
ghost use Rattle.histories.specs.Courses.{IsEnd, gives_up, is_restart};
ghost use Rattle.histories.specs.Follows.{IsLast};
ghost use Rattle.std.specs.List.{AllByRecursion};
ghost use Rattle.histories.specs.Phases.{Generation};
ghost use Rattle.histories.specs.TraceEvents.{TraceEvent, records_of};
ghost use Rattle.session_boots.specs.Traces.{ActTrace};
ghost use Rattle.session.specs.Parts.{IsBack, IsOver, IsReturned, IsShut, RanLeft, status_of_ran};
ghost use Rattle.nuc_base.specs.declared.status.Status.TheVariants as statuses;
ghost use Rattle.records.specs.declared.record.Origin.{Origin};
ghost use Rattle.deployment_doc.specs.Sound.{AreSound};
ghost use Rattle.session_admission.specs.Accepts.{IsOpen};
ghost use Rattle.admission.specs.Requests.{IsInside, TakesMade};
ghost use Rattle.admission.specs.declared.fault.Declined.{Declined};
ghost use Rattle.records.specs.declared.record.Plan as code;

use crate::giving::{gives_up, kill_standing};
use crate::ran::Ran;
use crate::requests::run_made;
use crate::resumes::resume;
use admission::Declined;
use components::Supervise;
use deploy_state::{Idle, Loaded};
use deployment_doc::Document;
use disk_model::Disk;
use edges::Sink;
use gate_log::Journal;
use library_core::Library;
use nuc_base::Status;
use session_shutdown::stop_components;
use std::alloc::Global;
use step_runner::Runner;

/// Stops all components that stand.
fn stop_standing<R: Runner, S: Supervise>(runner: &mut R, supervisor: &mut S)
    requires drives { AreDriven (S.world supervisor.old) }
    requires from_state { (p : SessionState) × (d : Device) × AsTold R.Runner runner.old (IsReturned p d (S.world supervisor.old)) × (p.serves ≡ false) }
    // Where none stands nothing is done.
    ensures trace { (p : SessionState) → (d : Device) → AsTold R.Runner runner.old (IsReturned p d (S.world supervisor.old)) → (p.serves ≡ false) →
        (k : List TraceEvent) × ActTrace p k (R.list runner.old) (R.list runner.new) × IsShut (state_after p k) × (is_stopped p.world ≡ true → k ≡ []) }
    ensures none { R.living runner.new ≡ [] }
{
    if supervisor.stopped() {
        return;
    }
    stop_components(runner, supervisor);
}

/// Stops all components that stand. Where the call gives up by the status all children are killed, where they are, in the place of that.
fn end_standing<R: Runner, S: Supervise>(status: Status, runner: &mut R, supervisor: &mut S)
    requires drives { AreDriven (S.world supervisor.old) }
    requires other { is_restart status ≡ false }
    requires from_state { (p : SessionState) × (d : Device) × AsTold R.Runner runner.old (IsReturned p d (S.world supervisor.old)) × (p.serves ≡ false) }
    // Where none stands nothing is done.
    ensures trace { (p : SessionState) → (d : Device) → AsTold R.Runner runner.old (IsReturned p d (S.world supervisor.old)) → (p.serves ≡ false) →
        (k : List TraceEvent) × ActTrace p k (R.list runner.old) (R.list runner.new) × ((rose : Bool) → IsEnd (state_after p k) status rose) ×
        (is_stopped p.world ≡ true → k ≡ []) × (gives_up status ≡ true → AllByRecursion IsLast k) }
    ensures none { R.living runner.new ≡ [] }
{
    if gives_up(status) {
        kill_standing(runner, supervisor);
        return;
    }
    stop_standing(runner, supervisor);
}

/// Ends a call that does nothing more: where a deployment came back all components that stand are stopped, or, with a status by which
/// the call gives up, all children are killed. Answers its status.
pub fn finish<J: Journal + Drop, R: Runner, S: Supervise>(
    ran: Ran<J>,
    runner: &mut R,
    supervisor: &mut S,
) -> Status
    requires drives { IsBack ran → AreDriven (S.world supervisor.old) }
    requires from_state { (p : SessionState) × (before : Generation) × (rose : Bool) ×
        AsTold R.Runner runner.old (RanLeft before ran rose p (S.world supervisor.old)) ×
        (p.serves ≡ false) }
    requires none { IsOver ran → R.living runner.old ≡ [] }
    // Where none stands, or the call ended already, nothing is done. Where it gives up at most children are killed.
    ensures trace { (p : SessionState) → (before : Generation) → (rose : Bool) →
        AsTold R.Runner runner.old (RanLeft before ran rose p (S.world supervisor.old)) → (p.serves ≡ false) →
        (k : List TraceEvent) × ActTrace p k (R.list runner.old) (R.list runner.new) × IsEnd (state_after p k) result rose ×
        (is_stopped p.world ≡ true → k ≡ []) × (IsOver ran → k ≡ []) × (gives_up result ≡ true → AllByRecursion IsLast k) }
    ensures none { R.living runner.new ≡ [] }
    ensures status { result ≡ status_of_ran ran }
{
    match ran {
        Ran::Back(idle, status, _) => {
            drop(idle);
            end_standing(status, runner, supervisor);
            status
        }
        Ran::Over(status) => status,
    }
}

/// Drives the pending deployment on, and then stops all components. Where none is pending nothing is done.
pub fn resume_to_end<D: Disk, J: Journal + Drop, K: Sink, R: Runner, S: Supervise>(
    alloc: Global,
    state: Loaded<J>,
    disk: &mut D,
    sink: &mut K,
    runner: &mut R,
    supervisor: &mut S,
) -> Status
where
    S::Ready: Drop,
    requires held { OwnsOver D.Disk J.Journal OwnsLoaded state disk.old }
    // The journal does not lie among the files of artifacts.
    requires apart { LieElsewhere J.files }
    // No component stands.
    requires empty { (S.world supervisor.old).parts ≡ [] }
    requires from_state { (p : SessionState) ×
        AsTold R.Runner runner.old (IsAtBootStage p (loaded_device state) (S.world supervisor.old)) × (p.serves ≡ false) }
    // Where the images at the start have the device's artifacts, each of each moment has those of the device for which it stands.
    // The call ends as one whose disk failed only where the disk's count rose.
    ensures call { (p : SessionState) → AsTold R.Runner runner.old (IsAtBootStage p (loaded_device state) (S.world supervisor.old)) → (p.serves ≡ false) →
        (p.taken ≡ is_some p.device.pending) →
        (c : CallOn D.Disk J.Journal K.Sink R.Runner disk.old disk.new sink.old sink.new runner.old runner.new p result)
        × ResumeEnding (loaded_device state) c.ending
        × (AllHoldDevice (D.may_leave disk.old) p.device → KeepsArtifactsOn D.Disk J.Journal K.Sink R.Runner disk.old disk.new sink.old sink.new runner.old
        runner.new p result c)
        × (c.ending ≡ ByDiskFault → Rose (D.faults disk.old) (D.faults disk.new)) }
    ensures own { result ≢ statuses.Library }
    ensures none { R.living runner.new ≡ [] }
    ensures others { IsTrue D.is_modelled → AreOthersSame J.files (D.seen disk.old) (D.seen disk.new) }
    ensures disk { result ≡ statuses.Disk → Rose (D.faults disk.old) (D.faults disk.new) }
    ensures edge { result ≡ statuses.Edge → Rose (K.faults sink.old) (K.faults sink.new) }
    ensures quiet_disk { result ≢ statuses.Disk → result ≢ statuses.Edge → D.faults disk.new ≡ D.faults disk.old }
    ensures quiet_sink { result ≢ statuses.Edge → K.faults sink.new ≡ K.faults sink.old }
    ensures later { HasNotFallen (D.faults disk.old) (D.faults disk.new) × HasNotFallen (K.faults sink.old) (K.faults sink.new) }
    // No stray file is left where none was there at the start.
    ensures swept { (IsTrue D.is_modelled → IsSwept (items_of (loaded_device state)) (D.seen disk.old)) → LeavesNoStray D.is_modelled J.entries result
        (D.seen disk.new) }
{
    let ran = resume(alloc, state, disk, sink, runner, supervisor);
    finish(ran, runner, supervisor)
}

/// Deploys the document to which a request came, and then stops all components.
pub fn run_made_to_end<D: Disk, J: Journal + Drop, L: Library, K: Sink, R: Runner, S: Supervise>(
    alloc: Global,
    idle: Idle<J>,
    made: Result<Document, Declined>,
    disk: &mut D,
    library: &mut L,
    sink: &mut K,
    runner: &mut R,
    supervisor: &mut S,
) -> Status
where
    S::Ready: Drop,
    requires held { OwnsOver D.Disk J.Journal OwnsIdle idle disk.old }
    // The journal does not lie among the files of artifacts.
    requires apart { LieElsewhere J.files }
    requires roots { IfOk made (λ document. AreSound document.roots) }
    requires inside { IfErr made (λ x. IsInside x) }
    // No component stands.
    requires empty { (S.world supervisor.old).parts ≡ [] }
    requires from_state { (p : SessionState) × AsTold R.Runner runner.old (IsOpen p (idle_device idle) (S.world supervisor.old)) × (p.serves ≡ false) }
    // Where the images at the start have the artifacts that are needed, so has each of each moment. The call ends as one whose
    // disk failed only where the disk's count rose, and its document is declined for the disk or for the library only where the
    // count of that rose.
    ensures call { (p : SessionState) → AsTold R.Runner runner.old (IsOpen p (idle_device idle) (S.world supervisor.old)) → (p.serves ≡ false) →
        (taken : Result code.Plan Declined)
        × ((o : Origin) → (idle_device idle).origin ≡ Some o → TakesMade (idle_device idle) o (L.content library.new) (L.faults library.old)
        (L.faults library.new) made taken)
        × (t : DrivesTakenOn D.Disk J.Journal K.Sink R.Runner disk.old disk.new sink.old sink.new runner.old runner.new p result (entry_start J.Journal idle)
        taken)
        × (AllHoldDevice (D.may_leave disk.old) p.device → KeepsArtifactsOn D.Disk J.Journal K.Sink R.Runner disk.old disk.new sink.old sink.new runner.old
        runner.new p result t.0)
        × (t.0.ending ≡ ByDiskFault → Rose (D.faults disk.old) (D.faults disk.new))
        × (HasDiskFailed taken → Rose (D.faults disk.old) (D.faults disk.new))
        × (HasLibraryFailed taken → Rose (L.faults library.old) (L.faults library.new))
        × AcceptsTakenOn D.Disk J.Journal disk.old disk.new idle taken t.0.ending (records_of t.0.history) }
    ensures none { R.living runner.new ≡ [] }
    ensures others { IsTrue D.is_modelled → AreOthersSame J.files (D.seen disk.old) (D.seen disk.new) }
    ensures disk { result ≡ statuses.Disk → Rose (D.faults disk.old) (D.faults disk.new) }
    ensures edge { result ≡ statuses.Edge → Rose (K.faults sink.old) (K.faults sink.new) }
    ensures quiet_disk { result ≢ statuses.Disk → result ≢ statuses.Edge → D.faults disk.new ≡ D.faults disk.old }
    ensures quiet_sink { result ≢ statuses.Edge → K.faults sink.new ≡ K.faults sink.old }
    ensures later { HasNotFallen (D.faults disk.old) (D.faults disk.new) × HasNotFallen (K.faults sink.old) (K.faults sink.new) }
    // No stray file is left where none was there at the start.
    ensures swept { (IsTrue D.is_modelled → IsSwept (items_of (idle_device idle)) (D.seen disk.old)) → LeavesNoStray D.is_modelled J.entries result
        (D.seen disk.new) }
    ensures library { result ≡ statuses.Library → Rose (L.faults library.old) (L.faults library.new) }
    ensures kept { StaysTold L.content L.coming library.old library.new }
    ensures library_quiet { result ≢ statuses.Library → result ≢ statuses.Edge → L.faults library.new ≡ L.faults library.old }
    ensures library_later { L.faults library.old ≤ L.faults library.new }
{
    let ran = run_made(alloc, idle, made, disk, library, sink, runner, supervisor);
    finish(ran, runner, supervisor)
}
