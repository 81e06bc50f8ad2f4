//! A component failed three times: the deployment is rolled back, or stays as it is.
ghost use Rattle.law_termination.specs.Drives.{AreDriven};
ghost use Rattle.std.specs.Prelude.{◌≡◌, [], IfOk, OnErr, IsErrOf, true, false};
ghost use Rattle.nuc_base.specs.Faults.{Rose};
ghost use Rattle.session_startup.specs.Ended.{HasBroken};
ghost use Rattle.deploy_state.specs.States.{OwnsActivating, OwnsBrokenOff, activating_device, broken_device};
ghost use Rattle.session_rollout.specs.Backwards.{HasWayBack};
ghost use Rattle.session_rollout.specs.Driven.{IsCourse, DrivenLeft, OwnsDriven};
ghost use Rattle.session_boots.specs.Stands.{IsAtBootStage};
ghost use Rattle.histories.specs.Phases.{duty_of};
ghost use Rattle.histories.specs.States.{SessionState};
ghost use Rattle.histories.specs.Waits.{has_three};
ghost use Rattle.session_transitions.specs.Fails.{IsAtRollbackStart, is_to_roll_back};
ghost use Rattle.law_supervisor.specs.Sound.{IsOrderly};
ghost use Rattle.deploy_state.specs.Objects.{OwnsOver, KeepsOthers};
ghost use Rattle.session_boots.specs.Stages.{AsTold};

use crate::backing::roll_back;
use crate::driven::{Driven, Presence};
use components::{Prepared, Supervise};
use deploy_state::{Activating, BrokeOff};
use disk_model::Disk;
use edges::Sink;
use gate_log::Journal;
use nuc_base::Outcome;
use session_boots::SessionFault;
use session_shutdown::stop_components;
use session_transitions::{begin_rollback, close_failed, is_to_roll_back, kill_all};
use step_runner::Runner;

/// All components are stopped, and then the way back begins.
fn stop_and_go_back<D: Disk, J: Journal + Drop, K: Sink, R: Runner, S: Supervise>(
    broke: BrokeOff<J>,
    backs: &[Prepared],
    ready: S::Ready,
    disk: &mut D,
    sink: &mut K,
    runner: &mut R,
    supervisor: &mut S,
) -> Result<Driven<J>, SessionFault>
where
    S::Ready: Drop,
    requires drives { AreDriven (S.world supervisor.old) }
    requires held { OwnsOver D.Disk J.Journal OwnsBrokenOff broke disk.old }
    requires ready { HasWayBack (broken_device broke) backs.now (S.coming ready) }
    requires from_state { (p : SessionState) × AsTold R.Runner runner.old (IsAtRollbackStart p (broken_device broke) (S.world supervisor.old)) }
    ensures course { (p : SessionState) → AsTold R.Runner runner.old (IsAtRollbackStart p (broken_device broke) (S.world supervisor.old)) →
        IsCourse D.Disk J.Journal K.Sink R.Runner disk.old disk.new sink.old sink.new runner.old runner.new p result
        (λ x h q. AsTold R.Runner runner.new (DrivenLeft x h q (S.world supervisor.new))) }
    ensures none { OnErr result (R.living runner.new ≡ []) }
    ensures drives { IfOk result (λ x. AreDriven (S.world supervisor.new)) }
    ensures held { IfOk result (λ x. OwnsOver D.Disk J.Journal OwnsDriven x disk.new) }
    ensures others { KeepsOthers D.Disk J.Journal disk.old disk.new }
    ensures disk { IsErrOf result SessionFault.Disk → Rose (D.faults disk.old) (D.faults disk.new) }
    ensures edge { IsErrOf result SessionFault.Output → Rose (K.faults sink.old) (K.faults sink.new) }
    ensures quiet_disk { ¬ (IsErrOf result SessionFault.Disk) → D.faults disk.new ≡ D.faults disk.old }
    ensures quiet_sink { ¬ (IsErrOf result SessionFault.Output) → K.faults sink.new ≡ K.faults sink.old }
{
    stop_components(runner, supervisor);
    roll_back(broke, backs, ready, disk, sink, runner, supervisor)
}

/// The deployment is rolled back.
fn go_back<D: Disk, J: Journal + Drop, K: Sink, R: Runner, S: Supervise>(
    state: Activating<J>,
    backs: &[Prepared],
    ready: S::Ready,
    disk: &mut D,
    sink: &mut K,
    runner: &mut R,
    supervisor: &mut S,
) -> Result<Driven<J>, SessionFault>
where
    S::Ready: Drop,
    requires drives { AreDriven (S.world supervisor.old) }
    requires held { OwnsOver D.Disk J.Journal OwnsActivating state disk.old }
    requires policy { is_to_roll_back (activating_device state) ≡ true }
    requires ready { HasWayBack (activating_device state) backs.now (S.coming ready) }
    requires from_state { (p : SessionState) × AsTold R.Runner runner.old (HasBroken p (activating_device state) (S.world supervisor.old)) }
    ensures course { (p : SessionState) → AsTold R.Runner runner.old (HasBroken p (activating_device state) (S.world supervisor.old)) →
        IsCourse D.Disk J.Journal K.Sink R.Runner disk.old disk.new sink.old sink.new runner.old runner.new p result
        (λ x h q. AsTold R.Runner runner.new (DrivenLeft x h q (S.world supervisor.new))) }
    ensures none { OnErr result (R.living runner.new ≡ []) }
    ensures drives { IfOk result (λ x. AreDriven (S.world supervisor.new)) }
    ensures held { IfOk result (λ x. OwnsOver D.Disk J.Journal OwnsDriven x disk.new) }
    ensures others { KeepsOthers D.Disk J.Journal disk.old disk.new }
    ensures disk { IsErrOf result SessionFault.Disk → Rose (D.faults disk.old) (D.faults disk.new) }
    ensures edge { IsErrOf result SessionFault.Output → Rose (K.faults sink.old) (K.faults sink.new) }
    ensures quiet_disk { ¬ (IsErrOf result SessionFault.Disk) → D.faults disk.new ≡ D.faults disk.old }
    ensures quiet_sink { ¬ (IsErrOf result SessionFault.Output) → K.faults sink.new ≡ K.faults sink.old }
{
    match begin_rollback(state, disk) {
        Ok(broke) => stop_and_go_back(broke, backs, ready, disk, sink, runner, supervisor),
        Err(over) => {
            kill_all(runner, supervisor);
            Err(over)
        }
    }
}

/// The deployment closes as it is.
fn stay<D: Disk, J: Journal + Drop, K: Sink, R: Runner, S: Supervise>(
    state: Activating<J>,
    disk: &mut D,
    sink: &mut K,
    runner: &mut R,
    supervisor: &mut S,
) -> Result<Driven<J>, SessionFault>
where
    S::Ready: Drop,
    requires drives { AreDriven (S.world supervisor.old) }
    requires held { OwnsOver D.Disk J.Journal OwnsActivating state disk.old }
    requires policy { is_to_roll_back (activating_device state) ≡ false }
    requires from_state { (p : SessionState) × AsTold R.Runner runner.old (HasBroken p (activating_device state) (S.world supervisor.old)) }
    ensures course { (p : SessionState) → AsTold R.Runner runner.old (HasBroken p (activating_device state) (S.world supervisor.old)) →
        IsCourse D.Disk J.Journal K.Sink R.Runner disk.old disk.new sink.old sink.new runner.old runner.new p result
        (λ x h q. AsTold R.Runner runner.new (DrivenLeft x h q (S.world supervisor.new))) }
    ensures none { OnErr result (R.living runner.new ≡ []) }
    ensures drives { IfOk result (λ x. AreDriven (S.world supervisor.new)) }
    ensures held { IfOk result (λ x. OwnsOver D.Disk J.Journal OwnsDriven x disk.new) }
    ensures others { KeepsOthers D.Disk J.Journal disk.old disk.new }
    ensures disk { IsErrOf result SessionFault.Disk → Rose (D.faults disk.old) (D.faults disk.new) }
    ensures edge { IsErrOf result SessionFault.Output → Rose (K.faults sink.old) (K.faults sink.new) }
    ensures quiet_disk { ¬ (IsErrOf result SessionFault.Disk) → D.faults disk.new ≡ D.faults disk.old }
    ensures quiet_sink { ¬ (IsErrOf result SessionFault.Output) → K.faults sink.new ≡ K.faults sink.old }
{
    match close_failed(state, disk, sink, supervisor) {
        Ok(idle) => Ok(Driven::Closed(idle, Outcome::RollbackNotRequested, Presence::Present)),
        Err(over) => {
            kill_all(runner, supervisor);
            Err(over)
        }
    }
}

/// A component of the plan failed three times: what the plan wants then.
pub(crate) fn fail_items<D: Disk, J: Journal + Drop, K: Sink, R: Runner, S: Supervise>(
    state: Activating<J>,
    backs: &[Prepared],
    ready: S::Ready,
    disk: &mut D,
    sink: &mut K,
    runner: &mut R,
    supervisor: &mut S,
) -> Result<Driven<J>, SessionFault>
where
    S::Ready: Drop,
    requires drives { AreDriven (S.world supervisor.old) }
    requires held { OwnsOver D.Disk J.Journal OwnsActivating state disk.old }
    requires ready { HasWayBack (activating_device state) backs.now (S.coming ready) }
    requires from_state { (p : SessionState) × AsTold R.Runner runner.old (HasBroken p (activating_device state) (S.world supervisor.old)) }
    ensures course { (p : SessionState) → AsTold R.Runner runner.old (HasBroken p (activating_device state) (S.world supervisor.old)) →
        IsCourse D.Disk J.Journal K.Sink R.Runner disk.old disk.new sink.old sink.new runner.old runner.new p result
        (λ x h q. AsTold R.Runner runner.new (DrivenLeft x h q (S.world supervisor.new))) }
    ensures none { OnErr result (R.living runner.new ≡ []) }
    ensures drives { IfOk result (λ x. AreDriven (S.world supervisor.new)) }
    ensures held { IfOk result (λ x. OwnsOver D.Disk J.Journal OwnsDriven x disk.new) }
    ensures others { KeepsOthers D.Disk J.Journal disk.old disk.new }
    ensures disk { IsErrOf result SessionFault.Disk → Rose (D.faults disk.old) (D.faults disk.new) }
    ensures edge { IsErrOf result SessionFault.Output → Rose (K.faults sink.old) (K.faults sink.new) }
    ensures quiet_disk { ¬ (IsErrOf result SessionFault.Disk) → D.faults disk.new ≡ D.faults disk.old }
    ensures quiet_sink { ¬ (IsErrOf result SessionFault.Output) → K.faults sink.new ≡ K.faults sink.old }
{
    if is_to_roll_back(state.device()) {
        go_back(state, backs, ready, disk, sink, runner, supervisor)
    } else {
        drop(ready);
        stay(state, disk, sink, runner, supervisor)
    }
}

/// A component of the plan failed three times before: what the plan wants then.
pub(crate) fn fail_again<D: Disk, J: Journal + Drop, K: Sink, R: Runner, S: Supervise>(
    state: Activating<J>,
    backs: &[Prepared],
    ready: S::Ready,
    disk: &mut D,
    sink: &mut K,
    runner: &mut R,
    supervisor: &mut S,
) -> Result<Driven<J>, SessionFault>
where
    S::Ready: Drop,
    requires held { OwnsOver D.Disk J.Journal OwnsActivating state disk.old }
    requires failed { has_three (duty_of (activating_device state)).counts ≡ true }
    requires ready { HasWayBack (activating_device state) backs.now (S.coming ready) }
    requires drives { AreDriven (S.world supervisor.old) }
    requires orderly { IsOrderly (S.world supervisor.old) }
    requires from_state { (p : SessionState) × AsTold R.Runner runner.old (IsAtBootStage p (activating_device state) (S.world supervisor.old)) }
    ensures course { (p : SessionState) → AsTold R.Runner runner.old (IsAtBootStage p (activating_device state) (S.world supervisor.old)) →
        IsCourse D.Disk J.Journal K.Sink R.Runner disk.old disk.new sink.old sink.new runner.old runner.new p result
        (λ x h q. AsTold R.Runner runner.new (DrivenLeft x h q (S.world supervisor.new))) }
    ensures none { OnErr result (R.living runner.new ≡ []) }
    ensures drives { IfOk result (λ x. AreDriven (S.world supervisor.new)) }
    ensures held { IfOk result (λ x. OwnsOver D.Disk J.Journal OwnsDriven x disk.new) }
    ensures others { KeepsOthers D.Disk J.Journal disk.old disk.new }
    ensures disk { IsErrOf result SessionFault.Disk → Rose (D.faults disk.old) (D.faults disk.new) }
    ensures edge { IsErrOf result SessionFault.Output → Rose (K.faults sink.old) (K.faults sink.new) }
    ensures quiet_disk { ¬ (IsErrOf result SessionFault.Disk) → D.faults disk.new ≡ D.faults disk.old }
    ensures quiet_sink { ¬ (IsErrOf result SessionFault.Output) → K.faults sink.new ≡ K.faults sink.old }
{
    if is_to_roll_back(state.device()) {
        return match begin_rollback(state, disk) {
            Ok(broke) => roll_back(broke, backs, ready, disk, sink, runner, supervisor),
            Err(over) => Err(over),
        };
    }
    drop(ready);
    match close_failed(state, disk, sink, supervisor) {
        Ok(idle) => Ok(Driven::Closed(idle, Outcome::RollbackNotRequested, Presence::Absent)),
        Err(over) => Err(over),
    }
}
