// Behind a document that is done the components of the set are there, or they are brought up again.
ghost use Rattle.std.specs.Prelude.{◌≡◌, ◌⊎◌, [], List};
ghost use Rattle.nuc_base.specs.declared.status.Status.TheVariants as statuses;
ghost use Rattle.deploy_state.specs.States.{OwnsIdle, idle_device};
ghost use Rattle.histories.specs.States.{SessionState, state_after};
ghost use Rattle.histories.specs.TraceEvents.{TraceEvent};
ghost use Rattle.step_runner.specs.Entries.{Listed};
ghost use Rattle.deploy_state.specs.Objects.{OwnsOver};
ghost use Rattle.session_boots.specs.Stages.{AsTold};
ghost use Rattle.session_boots.specs.Traces.{ActTrace};
ghost use Rattle.session_serving.specs.States.{AreUp};
ghost use Rattle.session_serving.specs.Turns.{HasEnded, IsReady, OwnsTurned, StandsAgain, UpTurned};

use crate::ends::give_up;
use crate::opening::open_set;
use crate::turned::Turned;
use components::Supervise;
use deploy_state::Idle;
use disk_model::Disk;
use gate_log::Journal;
use nuc_base::Status;
use session::Standing;
use std::alloc::Global;
use step_runner::Runner;

/// Goes on where the components of the set are there. Where none is they are brought up; for want of memory for that all
/// children are killed, and the call ends with 15.
pub(crate) fn stand_again<D: Disk, J: Journal + Drop, R: Runner, S: Supervise>(
    alloc: Global,
    idle: Idle<J>,
    standing: Standing,
    disk: &D,
    runner: &mut R,
    supervisor: &mut S,
) -> Turned<J>
where
    S::Ready: Drop,
    requires held { OwnsOver D.Disk J.Journal OwnsIdle idle disk.now }
    requires up { AreUp (idle_device idle) (S.world supervisor.old) }
    requires from_state { (p : SessionState) × AsTold R.Runner runner.old (IsReady standing p (idle_device idle) (S.world supervisor.old)) }
    ensures trace { (p : SessionState) → AsTold R.Runner runner.old (IsReady standing p (idle_device idle) (S.world supervisor.old)) →
        (h : List TraceEvent) × ActTrace p h (R.list runner.old) (R.list runner.new) × StandsAgain result p (state_after p h) (idle_device idle)
        (S.world supervisor.new) (Listed R.list R.told R.asked runner.new) (R.living runner.new) }
    ensures held { OwnsOver D.Disk J.Journal OwnsTurned result disk.now }
    ensures up { UpTurned result (S.world supervisor.new) }
    ensures none { HasEnded result → R.living runner.new ≡ [] }
    ensures exact { (result ≡ Turned.On idle) ⊎ (result ≡ Turned.Over statuses.Memory) }
{
    match standing {
        Standing::Nobody => match open_set(alloc, &idle, supervisor) {
            Ok(()) => Turned::On(idle),
            Err(_) => {
                drop(idle);
                give_up(runner, supervisor);
                Turned::Over(Status::Memory)
            }
        },
        _ => Turned::On(idle),
    }
}
