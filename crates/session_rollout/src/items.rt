//! The plan's items come up.
ghost use Rattle.law_termination.specs.Drives.{AreDriven};
ghost use Rattle.std.specs.Prelude.{◌≡◌, ◌≤◌, [], IfOk, OnErr, IsErrOf, false};
ghost use Rattle.nuc_base.specs.Faults.{Rose};
ghost use Rattle.components.specs.Answers.{standing_count};
ghost use Rattle.components.specs.Changes.{standing};
ghost use Rattle.session_startup.specs.Runs.{IsAtTurnStart};
ghost use Rattle.deploy_state.specs.States.{OwnsActivating, activating_device};
ghost use Rattle.session_rollout.specs.Backwards.{HasWayBack};
ghost use Rattle.session_rollout.specs.Driven.{IsCourse, DrivenLeft, OwnsDriven};
ghost use Rattle.session_boots.specs.Stands.{IsAtBootStage, IsOpened};
ghost use Rattle.histories.specs.Phases.{duty_of};
ghost use Rattle.histories.specs.States.{SessionState};
ghost use Rattle.histories.specs.Waits.{has_three};
ghost use Rattle.session_transitions.specs.Enters.{AreReady, RunOn};
ghost use Rattle.law_supervisor.specs.Sound.{IsOrderly};
ghost use Rattle.deploy_state.specs.Objects.{OwnsOver, KeepsOthers};
ghost use Rattle.session_boots.specs.Stages.{AsTold};

use crate::driven::{Driven, Presence};
use crate::failing::{fail_again, fail_items};
use components::{Prepared, Supervise};
use deploy_state::Activating;
use disk_model::Disk;
use edges::Sink;
use gate_log::Journal;
use nuc_base::Outcome;
use session_boots::SessionFault;
use session_startup::{Activated, activate};
use session_transitions::{change_items, kill_all};
use step_runner::Runner;

/// Brings the plan's items up, to the close of the deployment, on its way back too.
fn bring_up<D: Disk, J: Journal + Drop, K: Sink, R: Runner, S: Supervise>(
    state: Activating<J>,
    backs: &[Prepared],
    ready: S::Ready,
    disk: &mut D,
    sink: &mut K,
    runner: &mut R,
    supervisor: &mut S,
) -> Result<Driven<J>, SessionFault>
where
    S::Ready: Drop,
    requires drives { AreDriven (S.world supervisor.old) }
    requires held { OwnsOver D.Disk J.Journal OwnsActivating state disk.old }
    requires ready { HasWayBack (activating_device state) backs.now (S.coming ready) }
    requires from_state { (p : SessionState) × AsTold R.Runner runner.old (IsAtTurnStart p (activating_device state) (S.world supervisor.old)) }
    ensures course { (p : SessionState) → AsTold R.Runner runner.old (IsAtTurnStart p (activating_device state) (S.world supervisor.old)) →
        IsCourse D.Disk J.Journal K.Sink R.Runner disk.old disk.new sink.old sink.new runner.old runner.new p result
        (λ x h q. AsTold R.Runner runner.new (DrivenLeft x h q (S.world supervisor.new))) }
    ensures none { OnErr result (R.living runner.new ≡ []) }
    ensures drives { IfOk result (λ x. AreDriven (S.world supervisor.new)) }
    ensures held { IfOk result (λ x. OwnsOver D.Disk J.Journal OwnsDriven x disk.new) }
    ensures others { KeepsOthers D.Disk J.Journal disk.old disk.new }
    ensures disk { IsErrOf result SessionFault.Disk → Rose (D.faults disk.old) (D.faults disk.new) }
    ensures edge { IsErrOf result SessionFault.Output → Rose (K.faults sink.old) (K.faults sink.new) }
    ensures quiet_disk { ¬ (IsErrOf result SessionFault.Disk) → D.faults disk.new ≡ D.faults disk.old }
    ensures quiet_sink { ¬ (IsErrOf result SessionFault.Output) → K.faults sink.new ≡ K.faults sink.old }
{
    match activate(state, disk, sink, runner, supervisor) {
        Ok(Activated::Closed(idle)) => Ok(Driven::Closed(
            idle,
            Outcome::Successful,
            Presence::Present,
        )),
        Ok(Activated::Broken(state)) => {
            fail_items(state, backs, ready, disk, sink, runner, supervisor)
        }
        Err(over) => {
            kill_all(runner, supervisor);
            Err(over)
        }
    }
}

/// The plan's items, none of which failed three times, take their places, whether or not those of before stand, and come up.
pub(crate) fn raise_plan<D: Disk, J: Journal + Drop, K: Sink, R: Runner, S: Supervise>(
    state: Activating<J>,
    items: S::Ready,
    backs: &[Prepared],
    ready: S::Ready,
    disk: &mut D,
    sink: &mut K,
    runner: &mut R,
    supervisor: &mut S,
) -> Result<Driven<J>, SessionFault>
where
    S::Ready: Drop,
    requires held { OwnsOver D.Disk J.Journal OwnsActivating state disk.old }
    requires few { has_three (duty_of (activating_device state)).counts ≡ false }
    requires items { AreReady (activating_device state) (S.coming items) }
    requires ready { HasWayBack (activating_device state) backs.now (S.coming ready) }
    requires drives { AreDriven (S.world supervisor.old) }
    requires orderly { IsOrderly (S.world supervisor.old) }
    requires room { standing_count (S.world supervisor.old) ≤ S.room items }
    requires made { RunOn (activating_device state) (standing (S.world supervisor.old).parts) }
    requires from_state { (p : SessionState) × AsTold R.Runner runner.old (IsOpened p (activating_device state) (S.world supervisor.old)) }
    ensures course { (p : SessionState) → AsTold R.Runner runner.old (IsOpened p (activating_device state) (S.world supervisor.old)) →
        IsCourse D.Disk J.Journal K.Sink R.Runner disk.old disk.new sink.old sink.new runner.old runner.new p result
        (λ x h q. AsTold R.Runner runner.new (DrivenLeft x h q (S.world supervisor.new))) }
    ensures none { OnErr result (R.living runner.new ≡ []) }
    ensures drives { IfOk result (λ x. AreDriven (S.world supervisor.new)) }
    ensures held { IfOk result (λ x. OwnsOver D.Disk J.Journal OwnsDriven x disk.new) }
    ensures others { KeepsOthers D.Disk J.Journal disk.old disk.new }
    ensures disk { IsErrOf result SessionFault.Disk → Rose (D.faults disk.old) (D.faults disk.new) }
    ensures edge { IsErrOf result SessionFault.Output → Rose (K.faults sink.old) (K.faults sink.new) }
    ensures quiet_disk { ¬ (IsErrOf result SessionFault.Disk) → D.faults disk.new ≡ D.faults disk.old }
    ensures quiet_sink { ¬ (IsErrOf result SessionFault.Output) → K.faults sink.new ≡ K.faults sink.old }
{
    change_items(state.device(), items, supervisor);
    bring_up(state, backs, ready, disk, sink, runner, supervisor)
}

/// The plan's items come up. Where one of them failed three times before, the deployment fails at once.
pub(crate) fn activate_on<D: Disk, J: Journal + Drop, K: Sink, R: Runner, S: Supervise>(
    state: Activating<J>,
    items: S::Ready,
    backs: &[Prepared],
    ready: S::Ready,
    disk: &mut D,
    sink: &mut K,
    runner: &mut R,
    supervisor: &mut S,
) -> Result<Driven<J>, SessionFault>
where
    S::Ready: Drop,
    requires held { OwnsOver D.Disk J.Journal OwnsActivating state disk.old }
    requires items { AreReady (activating_device state) (S.coming items) }
    requires ready { HasWayBack (activating_device state) backs.now (S.coming ready) }
    requires drives { AreDriven (S.world supervisor.old) }
    requires orderly { IsOrderly (S.world supervisor.old) }
    requires from_state { (p : SessionState) × AsTold R.Runner runner.old (IsAtBootStage p (activating_device state) (S.world supervisor.old)) }
    ensures course { (p : SessionState) → AsTold R.Runner runner.old (IsAtBootStage p (activating_device state) (S.world supervisor.old)) →
        IsCourse D.Disk J.Journal K.Sink R.Runner disk.old disk.new sink.old sink.new runner.old runner.new p result
        (λ x h q. AsTold R.Runner runner.new (DrivenLeft x h q (S.world supervisor.new))) }
    ensures none { OnErr result (R.living runner.new ≡ []) }
    ensures drives { IfOk result (λ x. AreDriven (S.world supervisor.new)) }
    ensures held { IfOk result (λ x. OwnsOver D.Disk J.Journal OwnsDriven x disk.new) }
    ensures others { KeepsOthers D.Disk J.Journal disk.old disk.new }
    ensures disk { IsErrOf result SessionFault.Disk → Rose (D.faults disk.old) (D.faults disk.new) }
    ensures edge { IsErrOf result SessionFault.Output → Rose (K.faults sink.old) (K.faults sink.new) }
    ensures quiet_disk { ¬ (IsErrOf result SessionFault.Disk) → D.faults disk.new ≡ D.faults disk.old }
    ensures quiet_sink { ¬ (IsErrOf result SessionFault.Output) → K.faults sink.new ≡ K.faults sink.old }
{
    if state.broken().is_none() {
        return raise_plan(state, items, backs, ready, disk, sink, runner, supervisor);
    }
    drop(items);
    fail_again(state, backs, ready, disk, sink, runner, supervisor)
}
