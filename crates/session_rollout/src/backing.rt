//! The bootstraps of the set run again, and then its items come up.
ghost use Rattle.law_termination.specs.Drives.{AreDriven};
ghost use Rattle.std.specs.Prelude.{◌≡◌, [], IfOk, OnErr, IsErrOf, true};
ghost use Rattle.nuc_base.specs.Faults.{Rose};
ghost use Rattle.session_boots.specs.Staged.{IsStillBacking};
ghost use Rattle.deploy_state.specs.Fields.{has_failed};
ghost use Rattle.deploy_state.specs.States.{OwnsBacked, OwnsBacking, OwnsBrokenOff, backed_device, backing_device, broken_device};
ghost use Rattle.session_rollout.specs.Backwards.{EndsBacks, HasWayBack, paused_of};
ghost use Rattle.session_rollout.specs.Driven.{IsCourse, DrivenLeft, OwnsDriven};
ghost use Rattle.session_boots.specs.Stands.{IsAtBootStage};
ghost use Rattle.histories.specs.States.{SessionState};
ghost use Rattle.law_supervisor.specs.Sound.{IsOrderly};
ghost use Rattle.deploy_state.specs.Objects.{OwnsOver, KeepsOthers};
ghost use Rattle.session_boots.specs.Stages.{AsTold};

use crate::driven::{Driven, Presence};
use crate::rolling::roll_on;
use components::{Prepared, Supervise};
use deploy_state::{Backed, Backing, BrokeOff, Loaded};
use disk_model::Disk;
use edges::Sink;
use gate_log::Journal;
use nuc_base::Outcome;
use session_boots::{Booted, SessionFault, run_rollback_boots};
use session_transitions::close_failed;
use step_runner::Runner;

fn paused<J: Journal + Drop>(backed: Backed<J>) -> Loaded<J>
    ensures { result ≡ paused_of backed }
{
    match backed {
        Backed::Backing(state) => Loaded::Backing(state),
        Backed::Rolling(state) => Loaded::Rolling(state),
    }
}

/// Behind the bootstraps that ran again: the items of the set come up, or the deployment closes where one failed.
fn end_backs<D: Disk, J: Journal + Drop, K: Sink, R: Runner, S: Supervise>(
    backed: Backed<J>,
    ready: S::Ready,
    disk: &mut D,
    sink: &mut K,
    runner: &mut R,
    supervisor: &mut S,
) -> Result<Driven<J>, SessionFault>
where
    S::Ready: Drop,
    requires held { OwnsOver D.Disk J.Journal OwnsBacked backed disk.old }
    requires failed { IsStillBacking backed → has_failed (backed_device backed) ≡ true }
    requires ready { EndsBacks backed (S.coming ready) }
    requires drives { AreDriven (S.world supervisor.old) }
    requires orderly { IsOrderly (S.world supervisor.old) }
    requires from_state { (p : SessionState) × AsTold R.Runner runner.old (IsAtBootStage p (backed_device backed) (S.world supervisor.old)) }
    ensures course { (p : SessionState) → AsTold R.Runner runner.old (IsAtBootStage p (backed_device backed) (S.world supervisor.old)) →
        IsCourse D.Disk J.Journal K.Sink R.Runner disk.old disk.new sink.old sink.new runner.old runner.new p result
        (λ x h q. AsTold R.Runner runner.new (DrivenLeft x h q (S.world supervisor.new))) }
    ensures none { OnErr result (R.living runner.new ≡ []) }
    ensures drives { IfOk result (λ x. AreDriven (S.world supervisor.new)) }
    ensures held { IfOk result (λ x. OwnsOver D.Disk J.Journal OwnsDriven x disk.new) }
    ensures others { KeepsOthers D.Disk J.Journal disk.old disk.new }
    ensures disk { IsErrOf result SessionFault.Disk → Rose (D.faults disk.old) (D.faults disk.new) }
    ensures edge { IsErrOf result SessionFault.Output → Rose (K.faults sink.old) (K.faults sink.new) }
    ensures quiet_disk { ¬ (IsErrOf result SessionFault.Disk) → D.faults disk.new ≡ D.faults disk.old }
    ensures quiet_sink { ¬ (IsErrOf result SessionFault.Output) → K.faults sink.new ≡ K.faults sink.old }
{
    match backed {
        Backed::Rolling(state) => roll_on(state, ready, disk, sink, runner, supervisor),
        Backed::Backing(state) => {
            drop(ready);
            match close_failed(state, disk, sink, supervisor) {
                Ok(idle) => Ok(Driven::Closed(idle, Outcome::UnableToRollback, Presence::Absent)),
                Err(over) => Err(over),
            }
        }
    }
}

/// The bootstraps of the set run again, from the first that is not ended, and then its items come up.
pub(crate) fn back_on<D: Disk, J: Journal + Drop, K: Sink, R: Runner, S: Supervise>(
    state: Backing<J>,
    backs: &[Prepared],
    ready: S::Ready,
    disk: &mut D,
    sink: &mut K,
    runner: &mut R,
    supervisor: &mut S,
) -> Result<Driven<J>, SessionFault>
where
    S::Ready: Drop,
    requires held { OwnsOver D.Disk J.Journal OwnsBacking state disk.old }
    requires ready { HasWayBack (backing_device state) backs.now (S.coming ready) }
    requires drives { AreDriven (S.world supervisor.old) }
    requires orderly { IsOrderly (S.world supervisor.old) }
    requires from_state { (p : SessionState) × AsTold R.Runner runner.old (IsAtBootStage p (backing_device state) (S.world supervisor.old)) }
    ensures course { (p : SessionState) → AsTold R.Runner runner.old (IsAtBootStage p (backing_device state) (S.world supervisor.old)) →
        IsCourse D.Disk J.Journal K.Sink R.Runner disk.old disk.new sink.old sink.new runner.old runner.new p result
        (λ x h q. AsTold R.Runner runner.new (DrivenLeft x h q (S.world supervisor.new))) }
    ensures none { OnErr result (R.living runner.new ≡ []) }
    ensures drives { IfOk result (λ x. AreDriven (S.world supervisor.new)) }
    ensures held { IfOk result (λ x. OwnsOver D.Disk J.Journal OwnsDriven x disk.new) }
    ensures others { KeepsOthers D.Disk J.Journal disk.old disk.new }
    ensures disk { IsErrOf result SessionFault.Disk → Rose (D.faults disk.old) (D.faults disk.new) }
    ensures edge { IsErrOf result SessionFault.Output → Rose (K.faults sink.old) (K.faults sink.new) }
    ensures quiet_disk { ¬ (IsErrOf result SessionFault.Disk) → D.faults disk.new ≡ D.faults disk.old }
    ensures quiet_sink { ¬ (IsErrOf result SessionFault.Output) → K.faults sink.new ≡ K.faults sink.old }
{
    match run_rollback_boots(state, backs, disk, sink, runner) {
        Ok((backed, booted)) => match booted {
            Booted::Restart => Ok(Driven::Restart(paused(backed))),
            Booted::Reboot => Ok(Driven::Reboot(paused(backed))),
            Booted::Through => end_backs(backed, ready, disk, sink, runner, supervisor),
            Booted::Failed => end_backs(backed, ready, disk, sink, runner, supervisor),
        },
        Err(over) => Err(over),
    }
}

/// The way back begins: by the bootstraps of the set that run again, where there are any.
pub(crate) fn roll_back<D: Disk, J: Journal + Drop, K: Sink, R: Runner, S: Supervise>(
    broke: BrokeOff<J>,
    backs: &[Prepared],
    ready: S::Ready,
    disk: &mut D,
    sink: &mut K,
    runner: &mut R,
    supervisor: &mut S,
) -> Result<Driven<J>, SessionFault>
where
    S::Ready: Drop,
    requires held { OwnsOver D.Disk J.Journal OwnsBrokenOff broke disk.old }
    requires ready { HasWayBack (broken_device broke) backs.now (S.coming ready) }
    requires drives { AreDriven (S.world supervisor.old) }
    requires orderly { IsOrderly (S.world supervisor.old) }
    requires from_state { (p : SessionState) × AsTold R.Runner runner.old (IsAtBootStage p (broken_device broke) (S.world supervisor.old)) }
    ensures course { (p : SessionState) → AsTold R.Runner runner.old (IsAtBootStage p (broken_device broke) (S.world supervisor.old)) →
        IsCourse D.Disk J.Journal K.Sink R.Runner disk.old disk.new sink.old sink.new runner.old runner.new p result
        (λ x h q. AsTold R.Runner runner.new (DrivenLeft x h q (S.world supervisor.new))) }
    ensures none { OnErr result (R.living runner.new ≡ []) }
    ensures drives { IfOk result (λ x. AreDriven (S.world supervisor.new)) }
    ensures held { IfOk result (λ x. OwnsOver D.Disk J.Journal OwnsDriven x disk.new) }
    ensures others { KeepsOthers D.Disk J.Journal disk.old disk.new }
    ensures disk { IsErrOf result SessionFault.Disk → Rose (D.faults disk.old) (D.faults disk.new) }
    ensures edge { IsErrOf result SessionFault.Output → Rose (K.faults sink.old) (K.faults sink.new) }
    ensures quiet_disk { ¬ (IsErrOf result SessionFault.Disk) → D.faults disk.new ≡ D.faults disk.old }
    ensures quiet_sink { ¬ (IsErrOf result SessionFault.Output) → K.faults sink.new ≡ K.faults sink.old }
{
    match broke {
        BrokeOff::Backing(state) => back_on(state, backs, ready, disk, sink, runner, supervisor),
        BrokeOff::Rolling(state) => roll_on(state, ready, disk, sink, runner, supervisor),
    }
}
