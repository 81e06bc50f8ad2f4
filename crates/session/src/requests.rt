//! A request that came to a document, or to none, is deployed.
ghost use Rattle.std.specs.Prelude.{◌≡◌, ◌≢◌, ◌≤◌, [], Some, IsTrue, IfOk, IfErr, Result};
ghost use Rattle.artifact_store.specs.Holding.{AllHoldDevice};
ghost use Rattle.artifact_store.specs.Swept.{IsSwept, items_of};
ghost use Rattle.nuc_base.specs.Faults.{Rose};
ghost use Rattle.nuc_base.specs.declared.status.Status.TheVariants as statuses;
ghost use Rattle.library_core.specs.Library.{StaysTold};
ghost use Rattle.records.specs.declared.record.Plan as code;
ghost use Rattle.records.specs.declared.record.Origin.{Origin};
ghost use Rattle.deploy_state.specs.States.{OwnsIdle, idle_device};
ghost use Rattle.deployment_doc.specs.Sound.{AreSound};
ghost use Rattle.histories.specs.States.{SessionState};
ghost use Rattle.histories.specs.TraceEvents.{records_of};
ghost use Rattle.session_admission.specs.Accepts.{IsOpen};
ghost use Rattle.admission.specs.Requests.{IsInside, TakesMade};
ghost use Rattle.admission.specs.Takes.{HasDiskFailed, HasLibraryFailed, LieElsewhere};
ghost use Rattle.admission.specs.declared.fault.Declined.{Declined};
ghost use Rattle.deploy_state.specs.Objects.{entry_start};
ghost use Rattle.session.specs.Objects.{AcceptsTakenOn, HasArtifactsOn, RunsTakenOn};
ghost use Rattle.session.specs.Calls.{AreOthersSame, HasNotFallen};
ghost use Rattle.session.specs.Endings.{ByDiskFault};
ghost use Rattle.session.specs.Parts.{IsBack, IsOver, OwnsRan, TakesLast, status_of_ran};
ghost use Rattle.session.specs.Sweeping.{LeavesNoStray};
ghost use Rattle.deploy_state.specs.Objects.{OwnsOver};
ghost use Rattle.session_boots.specs.Stages.{AsTold};
ghost use Rattle.session_transitions.specs.Enters.{RunOn};
ghost use Rattle.law_supervisor.specs.Sound.{IsOrderly};
ghost use Rattle.law_termination.specs.Drives.{AreDriven};
ghost use Rattle.components.specs.Changes.{standing};

use crate::declines::say_declined;
use crate::giving::back_or_over;
use crate::ran::{Ran, Standing};
use crate::runs::run_deployment;
use admission::Declined;
use components::Supervise;
use deploy_state::Idle;
use deployment_doc::Document;
use disk_model::Disk;
use edges::Sink;
use gate_log::Journal;
use library_core::Library;
use std::alloc::Global;
use step_runner::Runner;

/// Takes in the document to which a request came, and deploys it as `run_deployment` does; or says why it came to none, and then the
/// device is as before, and so are the components, unless the call gives up for want of memory or by its sink.
pub fn run_made<D: Disk, J: Journal + Drop, L: Library, K: Sink, R: Runner, S: Supervise>(
    alloc: Global,
    idle: Idle<J>,
    made: Result<Document, Declined>,
    disk: &mut D,
    library: &mut L,
    sink: &mut K,
    runner: &mut R,
    supervisor: &mut S,
) -> Ran<J>
where
    S::Ready: Drop,
    requires held { OwnsOver D.Disk J.Journal OwnsIdle idle disk.old }
    // The journal does not lie among the files of artifacts.
    requires apart { LieElsewhere J.files }
    requires roots { IfOk made (λ document. AreSound document.roots) }
    // It came to none for a reason of its own: nothing outside failed.
    requires inside { IfErr made (λ x. IsInside x) }
    requires drives { AreDriven (S.world supervisor.old) }
    requires orderly { IsOrderly (S.world supervisor.old) }
    requires made { RunOn (idle_device idle) (standing (S.world supervisor.old).parts) }
    requires from_state { (p : SessionState) × AsTold R.Runner runner.old (IsOpen p (idle_device idle) (S.world supervisor.old)) }
    // Where the images at the start have the artifacts that are needed, so has each of each moment. The call ends as one whose
    // disk failed only where the disk's count rose, and its document is declined for the disk or for the library only where the
    // count of that rose.
    ensures call { (p : SessionState) → AsTold R.Runner runner.old (IsOpen p (idle_device idle) (S.world supervisor.old)) → TakesLast p →
        (taken : Result code.Plan Declined)
        × ((o : Origin) → (idle_device idle).origin ≡ Some o → TakesMade (idle_device idle) o (L.content library.new) (L.faults library.old)
        (L.faults library.new) made taken)
        × (t : RunsTakenOn D.Disk J.Journal K.Sink R.Runner disk.old disk.new sink.old sink.new runner.old runner.new p result (S.world supervisor.new)
        (entry_start J.Journal idle) taken)
        × (AllHoldDevice (D.may_leave disk.old) p.device → HasArtifactsOn D.Disk J.Journal K.Sink R.Runner disk.old disk.new sink.old sink.new runner.old
        runner.new p result (S.world supervisor.new) t.0)
        × (t.0.ending ≡ ByDiskFault → Rose (D.faults disk.old) (D.faults disk.new))
        × (HasDiskFailed taken → Rose (D.faults disk.old) (D.faults disk.new))
        × (HasLibraryFailed taken → Rose (L.faults library.old) (L.faults library.new))
        × AcceptsTakenOn D.Disk J.Journal disk.old disk.new idle taken t.0.ending (records_of t.0.history) }
    // Where it comes back the components are as the deployment left them, and else no child lives.
    ensures none { IsOver result → R.living runner.new ≡ [] }
    ensures drives { IsBack result → AreDriven (S.world supervisor.new) }
    ensures held { OwnsOver D.Disk J.Journal OwnsRan result disk.new }
    ensures others { IsTrue D.is_modelled → AreOthersSame J.files (D.seen disk.old) (D.seen disk.new) }
    ensures disk { status_of_ran result ≡ statuses.Disk → Rose (D.faults disk.old) (D.faults disk.new) }
    ensures edge { status_of_ran result ≡ statuses.Edge → Rose (K.faults sink.old) (K.faults sink.new) }
    ensures quiet_disk { status_of_ran result ≢ statuses.Disk → status_of_ran result ≢ statuses.Edge → D.faults disk.new ≡ D.faults disk.old }
    ensures quiet_sink { status_of_ran result ≢ statuses.Edge → K.faults sink.new ≡ K.faults sink.old }
    ensures later { HasNotFallen (D.faults disk.old) (D.faults disk.new) × HasNotFallen (K.faults sink.old) (K.faults sink.new) }
    // No stray file is left where none was there at the start.
    ensures swept { (IsTrue D.is_modelled → IsSwept (items_of (idle_device idle)) (D.seen disk.old)) → LeavesNoStray D.is_modelled J.entries
        (status_of_ran result)
        (D.seen disk.new) }
    ensures library { status_of_ran result ≡ statuses.Library → Rose (L.faults library.old) (L.faults library.new) }
    ensures kept { StaysTold L.content L.coming library.old library.new }
    ensures library_quiet { status_of_ran result ≢ statuses.Library → status_of_ran result ≢ statuses.Edge → L.faults library.new ≡ L.faults library.old }
    ensures library_later { L.faults library.old ≤ L.faults library.new }
{
    match made {
        Ok(document) => {
            let ran = run_deployment(
                alloc, idle, &document, disk, library, sink, runner, supervisor,
            );
            drop(document);
            ran
        }
        Err(declined) => {
            let status = say_declined(alloc, &declined, sink);
            drop(declined);
            back_or_over(idle, status, Standing::AsBefore, runner, supervisor)
        }
    }
}
