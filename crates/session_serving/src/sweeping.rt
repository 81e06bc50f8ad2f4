// Stray files that are still to be swept, before the next document.
ghost use Rattle.std.specs.Prelude.{◌≡◌, ◌≢◌, ◌≤◌, [], Bool, IsTrue, List, OnErr, OnOk};
ghost use Rattle.nuc_base.specs.Faults.{Rose};
ghost use Rattle.nuc_base.specs.declared.status.Status.TheVariants as statuses;
ghost use Rattle.artifact_store.specs.Holding.{AllHoldDevice, HoldsDevice};
ghost use Rattle.device.specs.Devices.{Device};
ghost use Rattle.deploy_state.specs.States.{idle_device};
ghost use Rattle.disk_model.specs.Disk.{HasLeft};
ghost use Rattle.disk_model.specs.Listing.{artifacts, IsBelow};
ghost use Rattle.disk_model.specs.Spares.{IsSameBut};
ghost use Rattle.histories.specs.Courses.{IsEnd};
ghost use Rattle.histories.specs.States.{SessionState, state_after};
ghost use Rattle.histories.specs.TraceEvents.{TraceEvent};
ghost use Rattle.session.specs.Calls.{ChangesArtifactsAlone, IsOrEdge, SaysLine};
ghost use Rattle.session.specs.Declines.{disk_line};
ghost use Rattle.session_boots.specs.Stages.{AsTold};
ghost use Rattle.session_boots.specs.Traces.{ActTrace};
ghost use Rattle.session_steady.specs.Serves.{IsServing};

use crate::ends::give_up_serving;
use crate::turned::Owed;
use artifact_store::{SweepFault, sweep};
use components::Supervise;
use deploy_state::Idle;
use disk_model::{Disk, DiskFault};
use edges::Sink;
use gate_log::Journal;
use nuc_base::Status;
use session::say;
use std::alloc::Global;
use step_runner::Runner;

/// Sweeps stray files, where that is owed. Where there is no memory for it, it stays so.
pub(crate) fn sweep_owed<D: Disk, J: Journal + Drop>(
    alloc: Global,
    idle: &Idle<J>,
    owed: &mut Owed,
    disk: &mut D,
) -> Result<(), DiskFault>
    ensures spared { ChangesArtifactsAlone D.may_leave D.moment D.left_since disk.old disk.new }
    // The device has its artifacts at each moment.
    ensures safe { AllHoldDevice (D.may_leave disk.old) (idle_device idle.now) → HasLeft D.moment D.left_since disk.old disk.new
        (λ c. HoldsDevice c (idle_device idle.now)) }
    ensures others { IsTrue D.is_modelled → IsSameBut (IsBelow artifacts) (D.seen disk.old) (D.seen disk.new) }
    ensures cause { OnErr result (Rose (D.faults disk.old) (D.faults disk.new)) }
    ensures quiet { OnOk result (D.faults disk.new ≡ D.faults disk.old) }
    ensures later { D.faults disk.old ≤ D.faults disk.new }
{
    match *owed {
        Owed::Nothing => Ok(()),
        Owed::Sweep => match sweep(alloc, disk, idle.device()) {
            Ok(()) => {
                *owed = Owed::Nothing;
                Ok(())
            }
            Err(SweepFault::NoMemory) => Ok(()),
            Err(SweepFault::Disk) => Err(DiskFault),
        },
    }
}

/// The disk failed while stray files were swept: kills all children, and prints that.
pub(crate) fn give_up_sweeping<K: Sink, R: Runner, S: Supervise>(
    sink: &mut K,
    runner: &mut R,
    supervisor: &S,
) -> Status
    requires from_state { (p : SessionState) × (d : Device) × AsTold R.Runner runner.old (IsServing p d (S.world supervisor.now)) }
    ensures trace { (p : SessionState) → (d : Device) → AsTold R.Runner runner.old (IsServing p d (S.world supervisor.now)) →
        (h : List TraceEvent) × ActTrace p h (R.list runner.old) (R.list runner.new) × ((rose : Bool) → IsEnd (state_after p h) result rose) }
    ensures none { R.living runner.new ≡ [] }
    ensures says { SaysLine (K.held sink.old) (K.held sink.new) result disk_line }
    ensures answers { IsOrEdge result statuses.Disk }
    ensures edge { result ≡ statuses.Edge → Rose (K.faults sink.old) (K.faults sink.new) }
    ensures quiet { result ≢ statuses.Edge → K.faults sink.new ≡ K.faults sink.old }
    ensures later { K.faults sink.old ≤ K.faults sink.new }
{
    give_up_serving(runner, supervisor);
    say(sink, &["fault 5 disk\n"], Status::Disk)
}
