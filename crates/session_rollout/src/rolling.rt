//! The items of the set come up again.
ghost use Rattle.law_termination.specs.Drives.{AreDriven};
ghost use Rattle.std.specs.Prelude.{◌≡◌, [], IfOk, OnErr, IsErrOf, false};
ghost use Rattle.nuc_base.specs.Faults.{Rose};
ghost use Rattle.deploy_state.specs.States.{OwnsRolling, rolling_device};
ghost use Rattle.session_rollout.specs.Driven.{IsCourse, DrivenLeft, OwnsDriven};
ghost use Rattle.session_boots.specs.Stands.{IsAtBootStage};
ghost use Rattle.histories.specs.Phases.{duty_of};
ghost use Rattle.histories.specs.States.{SessionState};
ghost use Rattle.histories.specs.Waits.{has_three};
ghost use Rattle.session_transitions.specs.Enters.{AreReady};
ghost use Rattle.law_supervisor.specs.Sound.{IsOrderly};
ghost use Rattle.deploy_state.specs.Objects.{OwnsOver, KeepsOthers};
ghost use Rattle.session_boots.specs.Stages.{AsTold};

use crate::driven::{Driven, Presence};
use components::Supervise;
use deploy_state::Rolling;
use disk_model::Disk;
use edges::Sink;
use gate_log::Journal;
use nuc_base::Outcome;
use session_boots::SessionFault;
use session_startup::roll;
use session_transitions::{change_items, close_failed, kill_all};
use step_runner::Runner;

/// Brings the items of the set up, none of which failed three times.
fn raise_set<D: Disk, J: Journal + Drop, K: Sink, R: Runner, S: Supervise>(
    state: Rolling<J>,
    ready: S::Ready,
    disk: &mut D,
    sink: &mut K,
    runner: &mut R,
    supervisor: &mut S,
) -> Result<Driven<J>, SessionFault>
where
    S::Ready: Drop,
    requires held { OwnsOver D.Disk J.Journal OwnsRolling state disk.old }
    requires few { has_three (duty_of (rolling_device state)).counts ≡ false }
    requires ready { AreReady (rolling_device state) (S.coming ready) }
    requires drives { AreDriven (S.world supervisor.old) }
    requires orderly { IsOrderly (S.world supervisor.old) }
    requires from_state { (p : SessionState) × AsTold R.Runner runner.old (IsAtBootStage p (rolling_device state) (S.world supervisor.old)) }
    ensures course { (p : SessionState) → AsTold R.Runner runner.old (IsAtBootStage p (rolling_device state) (S.world supervisor.old)) →
        IsCourse D.Disk J.Journal K.Sink R.Runner disk.old disk.new sink.old sink.new runner.old runner.new p result
        (λ x h q. AsTold R.Runner runner.new (DrivenLeft x h q (S.world supervisor.new))) }
    ensures none { OnErr result (R.living runner.new ≡ []) }
    ensures drives { IfOk result (λ x. AreDriven (S.world supervisor.new)) }
    ensures held { IfOk result (λ x. OwnsOver D.Disk J.Journal OwnsDriven x disk.new) }
    ensures others { KeepsOthers D.Disk J.Journal disk.old disk.new }
    ensures disk { IsErrOf result SessionFault.Disk → Rose (D.faults disk.old) (D.faults disk.new) }
    ensures edge { IsErrOf result SessionFault.Output → Rose (K.faults sink.old) (K.faults sink.new) }
    ensures quiet_disk { ¬ (IsErrOf result SessionFault.Disk) → D.faults disk.new ≡ D.faults disk.old }
    ensures quiet_sink { ¬ (IsErrOf result SessionFault.Output) → K.faults sink.new ≡ K.faults sink.old }
{
    change_items(state.device(), ready, supervisor);
    match roll(state, disk, sink, runner, supervisor) {
        Ok((idle, outcome)) => Ok(Driven::Closed(idle, outcome, Presence::Present)),
        Err(over) => {
            kill_all(runner, supervisor);
            Err(over)
        }
    }
}

/// The items of the set come up again. Where one of them failed three times before, the deployment closes at once.
pub(crate) fn roll_on<D: Disk, J: Journal + Drop, K: Sink, R: Runner, S: Supervise>(
    state: Rolling<J>,
    ready: S::Ready,
    disk: &mut D,
    sink: &mut K,
    runner: &mut R,
    supervisor: &mut S,
) -> Result<Driven<J>, SessionFault>
where
    S::Ready: Drop,
    requires held { OwnsOver D.Disk J.Journal OwnsRolling state disk.old }
    requires ready { AreReady (rolling_device state) (S.coming ready) }
    requires drives { AreDriven (S.world supervisor.old) }
    requires orderly { IsOrderly (S.world supervisor.old) }
    requires from_state { (p : SessionState) × AsTold R.Runner runner.old (IsAtBootStage p (rolling_device state) (S.world supervisor.old)) }
    ensures course { (p : SessionState) → AsTold R.Runner runner.old (IsAtBootStage p (rolling_device state) (S.world supervisor.old)) →
        IsCourse D.Disk J.Journal K.Sink R.Runner disk.old disk.new sink.old sink.new runner.old runner.new p result
        (λ x h q. AsTold R.Runner runner.new (DrivenLeft x h q (S.world supervisor.new))) }
    ensures none { OnErr result (R.living runner.new ≡ []) }
    ensures drives { IfOk result (λ x. AreDriven (S.world supervisor.new)) }
    ensures held { IfOk result (λ x. OwnsOver D.Disk J.Journal OwnsDriven x disk.new) }
    ensures others { KeepsOthers D.Disk J.Journal disk.old disk.new }
    ensures disk { IsErrOf result SessionFault.Disk → Rose (D.faults disk.old) (D.faults disk.new) }
    ensures edge { IsErrOf result SessionFault.Output → Rose (K.faults sink.old) (K.faults sink.new) }
    ensures quiet_disk { ¬ (IsErrOf result SessionFault.Disk) → D.faults disk.new ≡ D.faults disk.old }
    ensures quiet_sink { ¬ (IsErrOf result SessionFault.Output) → K.faults sink.new ≡ K.faults sink.old }
{
    if state.broken().is_none() {
        return raise_set(state, ready, disk, sink, runner, supervisor);
    }
    drop(ready);
    match close_failed(state, disk, sink, supervisor) {
        Ok(idle) => Ok(Driven::Closed(idle, Outcome::UnableToRollback, Presence::Absent)),
        Err(over) => Err(over),
    }
}
