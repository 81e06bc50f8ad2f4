//! A document is deployed.
ghost use Rattle.std.specs.Prelude.{◌≡◌, ◌≢◌, ◌≤◌, [], Some, IsTrue, IfOk, Result};
ghost use Rattle.artifact_store.specs.Holding.{AllHoldDevice};
ghost use Rattle.artifact_store.specs.Swept.{IsSwept, items_of};
ghost use Rattle.nuc_base.specs.Faults.{Rose};
ghost use Rattle.nuc_base.specs.declared.status.Status.TheVariants as statuses;
ghost use Rattle.library_core.specs.Library.{StaysTold};
ghost use Rattle.records.specs.Stored as stored;
ghost use Rattle.records.specs.Stored.{plan_view};
ghost use Rattle.records.specs.declared.record.Plan as code;
ghost use Rattle.records.specs.declared.record.Origin.{Origin};
ghost use Rattle.device.specs.Devices.{IsRegularDevice};
ghost use Rattle.device.specs.Lawful.{Allowed};
ghost use Rattle.device.specs.Regularity.{IsRegularRecord};
ghost use Rattle.device.specs.Sound.{IsSound};
ghost use Rattle.deploy_state.specs.States.{OwnsIdle, idle_device};
ghost use Rattle.deployment_doc.specs.Sound.{AreSound};
ghost use Rattle.histories.specs.States.{SessionState};
ghost use Rattle.histories.specs.TraceEvents.{records_of};
ghost use Rattle.session_admission.specs.Accepts.{IsOpen};
ghost use Rattle.admission.specs.Takes.{HasDiskFailed, HasLibraryFailed, LieElsewhere, TakesIn};
ghost use Rattle.admission.specs.declared.fault.Declined.{Declined};
ghost use Rattle.deploy_state.specs.Objects.{entry_start};
ghost use Rattle.session.specs.Objects.{AcceptsFromOn, AcceptsTakenOn, HasArtifactsOn, RunsPlanOn, RunsTakenOn};
ghost use Rattle.session.specs.Calls.{AllHoldBoth, AreOthersSame, IsReadiedOn, HasNotFallen};
ghost use Rattle.session.specs.Documents.{TakesRead};
ghost use Rattle.session.specs.Parts.{EndsRan, NoMemoryGoesOn, IsBack, IsOver, OwnsRan, TakesLast, status_of_ran};
ghost use Rattle.session_transitions.specs.Enters.{RunOn};
ghost use Rattle.law_supervisor.specs.Sound.{IsOrderly};
ghost use Rattle.law_termination.specs.Drives.{AreDriven};
ghost use Rattle.components.specs.Answers.{standing_count};
ghost use Rattle.components.specs.Changes.{standing};
ghost use Rattle.session.specs.Endings.{ByDiskFault};
ghost use Rattle.session.specs.Sweeping.{LeavesNoStray};
ghost use Rattle.deploy_state.specs.Objects.{OwnsOver};
ghost use Rattle.session_boots.specs.Stages.{AsTold};

use crate::declines::{say_declined, say_full, say_refusal};
use crate::ends::end_call;
use crate::giving::{back_or_over, give_up};
use crate::lines::say_disk;
use crate::ran::{Ran, Standing};
use admission::take_in;
use components::Supervise;
use deploy_state::Idle;
use deployment_doc::Document;
use disk_model::Disk;
use edges::Sink;
use gate_log::Journal;
use library_core::Library;
use nuc_base::{NoMemory, Status};
use plan_core::Refusal;
use records::Plan;
use session_admission::{Readied, Taken, accept_plan, prepare};
use session_boots::SessionFault;
use session_rollout::begin;
use std::alloc::Global;
use step_runner::Runner;

/// All that the plan needs, made ready before it is accepted.
fn ready_for<J: Journal + Drop, S: Supervise>(
    alloc: Global,
    idle: &Idle<J>,
    plan: &Plan,
    supervisor: &S,
) -> Result<Readied<S::Ready>, NoMemory>
where
    S::Ready: Drop,
    requires sound { IsSound (idle_device idle.now) }
    requires regular_device { IsRegularDevice (idle_device idle.now) }
    requires lawful { Allowed (idle_device idle.now) (stored.Accepted (plan_view plan.now)) }
    requires regular { IsRegularRecord (stored.Accepted (plan_view plan.now)) }
    ensures ready { IfOk result (λ r. IsReadiedOn (idle_device idle.now) (plan_view plan.now) r.boots r.backs (S.coming r.items) (S.coming r.earlier)) }
    ensures room { IfOk result (λ r. standing_count (S.world supervisor.now) ≤ S.room r.items) }
{
    let device = idle.device();
    let Some(origin) = &device.origin else {
        unreachable!();
    };
    prepare(alloc, supervisor, origin, &device.set, plan)
}

/// Accepts the plan, and drives its deployment to its close, whether or not components stand. For want of memory, and where the
/// disk makes no room for it, the plan is given back.
fn run_plan<D: Disk, J: Journal + Drop, K: Sink, R: Runner, S: Supervise>(
    alloc: Global,
    idle: Idle<J>,
    plan: Plan,
    ready: Readied<S::Ready>,
    disk: &mut D,
    sink: &mut K,
    runner: &mut R,
    supervisor: &mut S,
) -> Ran<J>
where
    S::Ready: Drop,
    requires held { OwnsOver D.Disk J.Journal OwnsIdle idle disk.old }
    requires apart { LieElsewhere J.files }
    requires lawful { Allowed (idle_device idle) (stored.Accepted (plan_view plan)) }
    requires regular { IsRegularRecord (stored.Accepted (plan_view plan)) }
    requires ready { IsReadiedOn (idle_device idle) (plan_view plan) ready.boots ready.backs (S.coming ready.items) (S.coming ready.earlier) }
    requires room { standing_count (S.world supervisor.old) ≤ S.room ready.items }
    requires drives { AreDriven (S.world supervisor.old) }
    requires orderly { IsOrderly (S.world supervisor.old) }
    requires made { RunOn (idle_device idle) (standing (S.world supervisor.old).parts) }
    requires from_state { (p : SessionState) × AsTold R.Runner runner.old (IsOpen p (idle_device idle) (S.world supervisor.old)) }
    // Where the images at the start have the artifacts that are needed, so has each of each moment. The call ends as one whose
    // disk failed only where the disk's count rose.
    ensures call { (p : SessionState) → AsTold R.Runner runner.old (IsOpen p (idle_device idle) (S.world supervisor.old)) → TakesLast p →
        (t : RunsPlanOn D.Disk J.Journal K.Sink R.Runner disk.old disk.new sink.old sink.new runner.old runner.new p result (S.world supervisor.new)
        (entry_start J.Journal idle) (plan_view plan))
        × (AllHoldBoth (D.may_leave disk.old) p.device (plan_view plan).items → HasArtifactsOn D.Disk J.Journal K.Sink R.Runner disk.old disk.new sink.old
        sink.new runner.old runner.new p result (S.world supervisor.new) t.0)
        × (t.0.ending ≡ ByDiskFault → Rose (D.faults disk.old) (D.faults disk.new))
        × AcceptsFromOn D.Disk J.Journal disk.old disk.new idle (plan_view plan) t.0.ending (records_of t.0.history) }
    ensures own { status_of_ran result ≢ statuses.Library }
    // Where it comes back the components are as the deployment left them, and else no child lives.
    ensures none { IsOver result → R.living runner.new ≡ [] }
    ensures ends_call { EndsRan result }
    // Want of memory alone does not end the call.
    ensures no_memory { NoMemoryGoesOn result }
    ensures drives { IsBack result → AreDriven (S.world supervisor.new) }
    ensures held { OwnsOver D.Disk J.Journal OwnsRan result disk.new }
    ensures others { IsTrue D.is_modelled → AreOthersSame J.files (D.seen disk.old) (D.seen disk.new) }
    ensures disk { status_of_ran result ≡ statuses.Disk → Rose (D.faults disk.old) (D.faults disk.new) }
    ensures edge { status_of_ran result ≡ statuses.Edge → Rose (K.faults sink.old) (K.faults sink.new) }
    ensures quiet_disk { status_of_ran result ≢ statuses.Disk → status_of_ran result ≢ statuses.Edge → D.faults disk.new ≡ D.faults disk.old }
    ensures quiet_sink { status_of_ran result ≢ statuses.Edge → K.faults sink.new ≡ K.faults sink.old }
    ensures later { HasNotFallen (D.faults disk.old) (D.faults disk.new) × HasNotFallen (K.faults sink.old) (K.faults sink.new) }
    ensures swept { LeavesNoStray D.is_modelled J.entries (status_of_ran result) (D.seen disk.new) }
{
    match accept_plan(alloc, idle, plan, disk, sink) {
        Ok(Taken::Accepted(state)) => {
            let driven = begin(state, ready, disk, sink, runner, supervisor);
            end_call(alloc, driven, disk, sink, runner, supervisor)
        }
        Ok(Taken::Full(idle, at)) => {
            drop(ready);
            let status = say_full(at, sink);
            back_or_over(idle, status, Standing::AsBefore, runner, supervisor)
        }
        Ok(Taken::NoMemory(idle)) => {
            drop(ready);
            back_or_over(idle, Status::Memory, Standing::AsBefore, runner, supervisor)
        }
        Ok(Taken::NoRoom(idle)) => {
            drop(ready);
            let status = say_disk(sink);
            back_or_over(idle, status, Standing::AsBefore, runner, supervisor)
        }
        Err(SessionFault::Disk) => {
            drop(ready);
            let status = say_disk(sink);
            give_up(status, runner, supervisor)
        }
        Err(SessionFault::Output) => {
            drop(ready);
            give_up(Status::Edge, runner, supervisor)
        }
    }
}

/// Takes a document in, and deploys it, whether or not components stand. It is refused by name where a check fails, and then the
/// device is as before, and so are the components. So they are after a fault that it meets before its record: the disk's, while
/// its files are taken in, with the line `fault 5 disk`, and want of memory, which is not said.
///
/// Comes back with 0, 2, 3, 7, 10, 11, 12, 13, 14 and 18, with 5 where nothing was recorded, and with 15; and else ends the call.
/// With 15 after a close there was no memory to sweep stray files.
pub fn run_deployment<D: Disk, J: Journal + Drop, L: Library, K: Sink, R: Runner, S: Supervise>(
    alloc: Global,
    idle: Idle<J>,
    document: &Document,
    disk: &mut D,
    library: &mut L,
    sink: &mut K,
    runner: &mut R,
    supervisor: &mut S,
) -> Ran<J>
where
    S::Ready: Drop,
    requires held { OwnsOver D.Disk J.Journal OwnsIdle idle disk.old }
    // The journal does not lie among the files of artifacts.
    requires apart { LieElsewhere J.files }
    requires roots { AreSound document.now.roots }
    requires drives { AreDriven (S.world supervisor.old) }
    requires orderly { IsOrderly (S.world supervisor.old) }
    requires made { RunOn (idle_device idle) (standing (S.world supervisor.old).parts) }
    requires from_state { (p : SessionState) × AsTold R.Runner runner.old (IsOpen p (idle_device idle) (S.world supervisor.old)) }
    // Where the images at the start have the artifacts that are needed, so has each of each moment. The call ends as one whose
    // disk failed only where the disk's count rose, and its document is declined for the disk or for the library only where the
    // count of that rose.
    ensures call { (p : SessionState) → AsTold R.Runner runner.old (IsOpen p (idle_device idle) (S.world supervisor.old)) → TakesLast p →
        (taken : Result code.Plan Declined)
        × ((o : Origin) → (idle_device idle).origin ≡ Some o → TakesIn (idle_device idle) o (L.content library.new) (L.faults library.old)
        (L.faults library.new) document.now taken)
        × (t : RunsTakenOn D.Disk J.Journal K.Sink R.Runner disk.old disk.new sink.old sink.new runner.old runner.new p result (S.world supervisor.new)
        (entry_start J.Journal idle) taken)
        × (AllHoldDevice (D.may_leave disk.old) p.device → HasArtifactsOn D.Disk J.Journal K.Sink R.Runner disk.old disk.new sink.old sink.new runner.old
        runner.new p result (S.world supervisor.new) t.0)
        × (t.0.ending ≡ ByDiskFault → Rose (D.faults disk.old) (D.faults disk.new))
        × (HasDiskFailed taken → Rose (D.faults disk.old) (D.faults disk.new))
        × (HasLibraryFailed taken → Rose (L.faults library.old) (L.faults library.new))
        × AcceptsTakenOn D.Disk J.Journal disk.old disk.new idle taken t.0.ending (records_of t.0.history) }
    // Where it comes back the components are as the deployment left them, and else no child lives.
    ensures none { IsOver result → R.living runner.new ≡ [] }
    ensures ends_call { EndsRan result }
    // Want of memory alone does not end the call.
    ensures no_memory { NoMemoryGoesOn result }
    ensures drives { IsBack result → AreDriven (S.world supervisor.new) }
    ensures held { OwnsOver D.Disk J.Journal OwnsRan result disk.new }
    ensures others { IsTrue D.is_modelled → AreOthersSame J.files (D.seen disk.old) (D.seen disk.new) }
    ensures disk { status_of_ran result ≡ statuses.Disk → Rose (D.faults disk.old) (D.faults disk.new) }
    ensures edge { status_of_ran result ≡ statuses.Edge → Rose (K.faults sink.old) (K.faults sink.new) }
    ensures quiet_disk { status_of_ran result ≢ statuses.Disk → status_of_ran result ≢ statuses.Edge → D.faults disk.new ≡ D.faults disk.old }
    ensures quiet_sink { status_of_ran result ≢ statuses.Edge → K.faults sink.new ≡ K.faults sink.old }
    ensures later { HasNotFallen (D.faults disk.old) (D.faults disk.new) × HasNotFallen (K.faults sink.old) (K.faults sink.new) }
    // No stray file is left where none was there at the start.
    ensures swept { (IsTrue D.is_modelled → IsSwept (items_of (idle_device idle)) (D.seen disk.old)) →
        LeavesNoStray D.is_modelled J.entries (status_of_ran result)
        (D.seen disk.new) }
    ensures library { status_of_ran result ≡ statuses.Library → Rose (L.faults library.old) (L.faults library.new) }
    ensures kept { StaysTold L.content L.coming library.old library.new }
    ensures library_quiet { status_of_ran result ≢ statuses.Library → status_of_ran result ≢ statuses.Edge → L.faults library.new ≡ L.faults library.old }
    ensures library_later { L.faults library.old ≤ L.faults library.new }
{
    let plan = match take_in(alloc, &idle, document, disk, library) {
        Ok(plan) => plan,
        Err(declined) => {
            let status = say_declined(alloc, &declined, sink);
            drop(declined);
            return back_or_over(idle, status, Standing::AsBefore, runner, supervisor);
        }
    };
    match ready_for(alloc, &idle, &plan, supervisor) {
        Ok(ready) => run_plan(alloc, idle, plan, ready, disk, sink, runner, supervisor),
        Err(_) => {
            drop(plan);
            back_or_over(idle, Status::Memory, Standing::AsBefore, runner, supervisor)
        }
    }
}

/// The same of a document in these bytes, which is refused by name where it cannot be read.
pub fn run_document<D: Disk, J: Journal + Drop, L: Library, K: Sink, R: Runner, S: Supervise>(
    alloc: Global,
    idle: Idle<J>,
    document: &[u8],
    disk: &mut D,
    library: &mut L,
    sink: &mut K,
    runner: &mut R,
    supervisor: &mut S,
) -> Ran<J>
where
    S::Ready: Drop,
    requires held { OwnsOver D.Disk J.Journal OwnsIdle idle disk.old }
    // The journal does not lie among the files of artifacts.
    requires apart { LieElsewhere J.files }
    requires drives { AreDriven (S.world supervisor.old) }
    requires orderly { IsOrderly (S.world supervisor.old) }
    requires made { RunOn (idle_device idle) (standing (S.world supervisor.old).parts) }
    requires from_state { (p : SessionState) × AsTold R.Runner runner.old (IsOpen p (idle_device idle) (S.world supervisor.old)) }
    // Where the images at the start have the artifacts that are needed, so has each of each moment. The call ends as one whose
    // disk failed only where the disk's count rose, and its document is declined for the disk or for the library only where the
    // count of that rose.
    ensures call { (p : SessionState) → AsTold R.Runner runner.old (IsOpen p (idle_device idle) (S.world supervisor.old)) → TakesLast p →
        (taken : Result code.Plan Declined)
        × ((o : Origin) → (idle_device idle).origin ≡ Some o → TakesRead (idle_device idle) o (L.content library.new) (L.faults library.old)
        (L.faults library.new) document.now taken)
        × (t : RunsTakenOn D.Disk J.Journal K.Sink R.Runner disk.old disk.new sink.old sink.new runner.old runner.new p result (S.world supervisor.new)
        (entry_start J.Journal idle) taken)
        × (AllHoldDevice (D.may_leave disk.old) p.device → HasArtifactsOn D.Disk J.Journal K.Sink R.Runner disk.old disk.new sink.old sink.new runner.old
        runner.new p result (S.world supervisor.new) t.0)
        × (t.0.ending ≡ ByDiskFault → Rose (D.faults disk.old) (D.faults disk.new))
        × (HasDiskFailed taken → Rose (D.faults disk.old) (D.faults disk.new))
        × (HasLibraryFailed taken → Rose (L.faults library.old) (L.faults library.new))
        × AcceptsTakenOn D.Disk J.Journal disk.old disk.new idle taken t.0.ending (records_of t.0.history) }
    // Where it comes back the components are as the deployment left them, and else no child lives.
    ensures none { IsOver result → R.living runner.new ≡ [] }
    ensures ends_call { EndsRan result }
    // Want of memory alone does not end the call.
    ensures no_memory { NoMemoryGoesOn result }
    ensures drives { IsBack result → AreDriven (S.world supervisor.new) }
    ensures held { OwnsOver D.Disk J.Journal OwnsRan result disk.new }
    ensures others { IsTrue D.is_modelled → AreOthersSame J.files (D.seen disk.old) (D.seen disk.new) }
    ensures disk { status_of_ran result ≡ statuses.Disk → Rose (D.faults disk.old) (D.faults disk.new) }
    ensures edge { status_of_ran result ≡ statuses.Edge → Rose (K.faults sink.old) (K.faults sink.new) }
    ensures quiet_disk { status_of_ran result ≢ statuses.Disk → status_of_ran result ≢ statuses.Edge → D.faults disk.new ≡ D.faults disk.old }
    ensures quiet_sink { status_of_ran result ≢ statuses.Edge → K.faults sink.new ≡ K.faults sink.old }
    ensures later { HasNotFallen (D.faults disk.old) (D.faults disk.new) × HasNotFallen (K.faults sink.old) (K.faults sink.new) }
    // No stray file is left where none was there at the start.
    ensures swept { (IsTrue D.is_modelled → IsSwept (items_of (idle_device idle)) (D.seen disk.old)) →
        LeavesNoStray D.is_modelled J.entries (status_of_ran result)
        (D.seen disk.new) }
    ensures library { status_of_ran result ≡ statuses.Library → Rose (L.faults library.old) (L.faults library.new) }
    ensures kept { StaysTold L.content L.coming library.old library.new }
    ensures library_quiet { status_of_ran result ≢ statuses.Library → status_of_ran result ≢ statuses.Edge → L.faults library.new ≡ L.faults library.old }
    ensures library_later { L.faults library.old ≤ L.faults library.new }
{
    match Document::read(alloc, document) {
        Ok(document) => {
            let ran = run_deployment(
                alloc, idle, &document, disk, library, sink, runner, supervisor,
            );
            drop(document);
            ran
        }
        Err(fault) => {
            let refusal = Refusal::from(fault);
            let status = say_refusal(alloc, &refusal, sink);
            drop(refusal);
            back_or_over(idle, status, Standing::AsBefore, runner, supervisor)
        }
    }
}
