//! The bootstraps of the plan run, and then its items come up.
ghost use Rattle.law_termination.specs.Drives.{AreDriven};
ghost use Rattle.std.specs.Prelude.{◌≡◌, ◌≤◌, [], IfOk, OnErr, IsErrOf, None, true, false};
ghost use Rattle.nuc_base.specs.Faults.{Rose};
ghost use Rattle.components.specs.Answers.{standing_count};
ghost use Rattle.components.specs.Changes.{standing};
ghost use Rattle.deploy_state.specs.Fields.{has_failed};
ghost use Rattle.deploy_state.specs.States.{OwnsBooting, booting_device};
ghost use Rattle.session_rollout.specs.Backwards.{HasWayBack};
ghost use Rattle.session_rollout.specs.Driven.{IsCourse, DrivenLeft, OwnsDriven};
ghost use Rattle.device.specs.Lawful.{applied};
ghost use Rattle.session_boots.specs.Stands.{IsAtBootStage, IsOpened};
ghost use Rattle.session_admission.specs.Readied.{AreReadiedFor};
ghost use Rattle.records.specs.Stored as stored;
ghost use Rattle.histories.specs.Phases.{duty_of};
ghost use Rattle.histories.specs.States.{SessionState};
ghost use Rattle.session_transitions.specs.Enters.{AreReady, RunOn};
ghost use Rattle.session_transitions.specs.Fails.{is_to_roll_back};
ghost use Rattle.law_supervisor.specs.Sound.{IsOrderly};
ghost use Rattle.deploy_state.specs.Objects.{OwnsOver, KeepsOthers};
ghost use Rattle.session_boots.specs.Stages.{AsTold};

use crate::backing::roll_back;
use crate::driven::{Driven, Presence};
use crate::items::raise_plan;
use components::{Prepared, Supervise};
use deploy_state::{Booting, Loaded};
use disk_model::Disk;
use edges::Sink;
use gate_log::Journal;
use nuc_base::Outcome;
use session_admission::Readied;
use session_boots::{Booted, SessionFault, run_boots};
use session_transitions::{begin_items, begin_rollback, close_failed, is_to_roll_back, kill_all};
use step_runner::Runner;

/// The deployment is rolled back.
fn break_off<D: Disk, J: Journal + Drop, K: Sink, R: Runner, S: Supervise>(
    state: Booting<J>,
    backs: &[Prepared],
    ready: S::Ready,
    disk: &mut D,
    sink: &mut K,
    runner: &mut R,
    supervisor: &mut S,
) -> Result<Driven<J>, SessionFault>
where
    S::Ready: Drop,
    requires held { OwnsOver D.Disk J.Journal OwnsBooting state disk.old }
    requires failed { has_failed (booting_device state) ≡ true }
    requires policy { is_to_roll_back (booting_device state) ≡ true }
    requires ready { HasWayBack (booting_device state) backs.now (S.coming ready) }
    requires drives { AreDriven (S.world supervisor.old) }
    requires orderly { IsOrderly (S.world supervisor.old) }
    requires from_state { (p : SessionState) × AsTold R.Runner runner.old (IsAtBootStage p (booting_device state) (S.world supervisor.old)) }
    ensures course { (p : SessionState) → AsTold R.Runner runner.old (IsAtBootStage p (booting_device state) (S.world supervisor.old)) →
        IsCourse D.Disk J.Journal K.Sink R.Runner disk.old disk.new sink.old sink.new runner.old runner.new p result
        (λ x h q. AsTold R.Runner runner.new (DrivenLeft x h q (S.world supervisor.new))) }
    ensures none { OnErr result (R.living runner.new ≡ []) }
    ensures drives { IfOk result (λ x. AreDriven (S.world supervisor.new)) }
    ensures held { IfOk result (λ x. OwnsOver D.Disk J.Journal OwnsDriven x disk.new) }
    ensures others { KeepsOthers D.Disk J.Journal disk.old disk.new }
    ensures disk { IsErrOf result SessionFault.Disk → Rose (D.faults disk.old) (D.faults disk.new) }
    ensures edge { IsErrOf result SessionFault.Output → Rose (K.faults sink.old) (K.faults sink.new) }
    ensures quiet_disk { ¬ (IsErrOf result SessionFault.Disk) → D.faults disk.new ≡ D.faults disk.old }
    ensures quiet_sink { ¬ (IsErrOf result SessionFault.Output) → K.faults sink.new ≡ K.faults sink.old }
{
    match begin_rollback(state, disk) {
        Ok(broke) => roll_back(broke, backs, ready, disk, sink, runner, supervisor),
        Err(over) => Err(over),
    }
}

/// A bootstrap of the plan failed: what the plan wants then.
fn fail_boots<D: Disk, J: Journal + Drop, K: Sink, R: Runner, S: Supervise>(
    state: Booting<J>,
    backs: &[Prepared],
    ready: S::Ready,
    disk: &mut D,
    sink: &mut K,
    runner: &mut R,
    supervisor: &mut S,
) -> Result<Driven<J>, SessionFault>
where
    S::Ready: Drop,
    requires held { OwnsOver D.Disk J.Journal OwnsBooting state disk.old }
    requires failed { has_failed (booting_device state) ≡ true }
    requires ready { HasWayBack (booting_device state) backs.now (S.coming ready) }
    requires drives { AreDriven (S.world supervisor.old) }
    requires orderly { IsOrderly (S.world supervisor.old) }
    requires from_state { (p : SessionState) × AsTold R.Runner runner.old (IsAtBootStage p (booting_device state) (S.world supervisor.old)) }
    ensures course { (p : SessionState) → AsTold R.Runner runner.old (IsAtBootStage p (booting_device state) (S.world supervisor.old)) →
        IsCourse D.Disk J.Journal K.Sink R.Runner disk.old disk.new sink.old sink.new runner.old runner.new p result
        (λ x h q. AsTold R.Runner runner.new (DrivenLeft x h q (S.world supervisor.new))) }
    ensures none { OnErr result (R.living runner.new ≡ []) }
    ensures drives { IfOk result (λ x. AreDriven (S.world supervisor.new)) }
    ensures held { IfOk result (λ x. OwnsOver D.Disk J.Journal OwnsDriven x disk.new) }
    ensures others { KeepsOthers D.Disk J.Journal disk.old disk.new }
    ensures disk { IsErrOf result SessionFault.Disk → Rose (D.faults disk.old) (D.faults disk.new) }
    ensures edge { IsErrOf result SessionFault.Output → Rose (K.faults sink.old) (K.faults sink.new) }
    ensures quiet_disk { ¬ (IsErrOf result SessionFault.Disk) → D.faults disk.new ≡ D.faults disk.old }
    ensures quiet_sink { ¬ (IsErrOf result SessionFault.Output) → K.faults sink.new ≡ K.faults sink.old }
{
    if is_to_roll_back(state.device()) {
        return break_off(state, backs, ready, disk, sink, runner, supervisor);
    }
    drop(ready);
    match close_failed(state, disk, sink, supervisor) {
        Ok(idle) => Ok(Driven::Closed(idle, Outcome::RollbackNotRequested, Presence::Absent)),
        Err(over) => Err(over),
    }
}

/// Behind the last bootstrap, or where the plan has none, its items come up. Where no bootstrap ran, the components of before may stand.
pub(crate) fn end_boots<D: Disk, J: Journal + Drop, K: Sink, R: Runner, S: Supervise>(
    state: Booting<J>,
    items: S::Ready,
    backs: &[Prepared],
    ready: S::Ready,
    disk: &mut D,
    sink: &mut K,
    runner: &mut R,
    supervisor: &mut S,
) -> Result<Driven<J>, SessionFault>
where
    S::Ready: Drop,
    requires held { OwnsOver D.Disk J.Journal OwnsBooting state disk.old }
    requires through { ((duty_of (booting_device state)).next_bootstrap ≡ None) × (has_failed (booting_device state) ≡ false) }
    requires items { AreReady (applied (booting_device state) stored.Activating) (S.coming items) }
    requires ready { HasWayBack (booting_device state) backs.now (S.coming ready) }
    requires drives { AreDriven (S.world supervisor.old) }
    requires orderly { IsOrderly (S.world supervisor.old) }
    requires room { standing_count (S.world supervisor.old) ≤ S.room items }
    requires made { RunOn (booting_device state) (standing (S.world supervisor.old).parts) }
    requires from_state { (p : SessionState) × AsTold R.Runner runner.old (IsOpened p (booting_device state) (S.world supervisor.old)) }
    ensures course { (p : SessionState) → AsTold R.Runner runner.old (IsOpened p (booting_device state) (S.world supervisor.old)) →
        IsCourse D.Disk J.Journal K.Sink R.Runner disk.old disk.new sink.old sink.new runner.old runner.new p result
        (λ x h q. AsTold R.Runner runner.new (DrivenLeft x h q (S.world supervisor.new))) }
    ensures none { OnErr result (R.living runner.new ≡ []) }
    ensures drives { IfOk result (λ x. AreDriven (S.world supervisor.new)) }
    ensures held { IfOk result (λ x. OwnsOver D.Disk J.Journal OwnsDriven x disk.new) }
    ensures others { KeepsOthers D.Disk J.Journal disk.old disk.new }
    ensures disk { IsErrOf result SessionFault.Disk → Rose (D.faults disk.old) (D.faults disk.new) }
    ensures edge { IsErrOf result SessionFault.Output → Rose (K.faults sink.old) (K.faults sink.new) }
    ensures quiet_disk { ¬ (IsErrOf result SessionFault.Disk) → D.faults disk.new ≡ D.faults disk.old }
    ensures quiet_sink { ¬ (IsErrOf result SessionFault.Output) → K.faults sink.new ≡ K.faults sink.old }
{
    match begin_items(state, disk) {
        Ok(state) => raise_plan(state, items, backs, ready, disk, sink, runner, supervisor),
        Err(over) => {
            kill_all(runner, supervisor);
            Err(over)
        }
    }
}

/// Runs the bootstraps of the pending plan, from the first that is not ended, and brings its items up, to the close of the
/// deployment.
pub fn boot<D: Disk, J: Journal + Drop, K: Sink, R: Runner, S: Supervise>(
    state: Booting<J>,
    ready: Readied<S::Ready>,
    disk: &mut D,
    sink: &mut K,
    runner: &mut R,
    supervisor: &mut S,
) -> Result<Driven<J>, SessionFault>
where
    S::Ready: Drop,
    requires held { OwnsOver D.Disk J.Journal OwnsBooting state disk.old }
    requires ready { AreReadiedFor (booting_device state) ready.boots ready.backs (S.coming ready.items) (S.coming ready.earlier) }
    requires drives { AreDriven (S.world supervisor.old) }
    requires orderly { IsOrderly (S.world supervisor.old) }
    requires from_state { (p : SessionState) × AsTold R.Runner runner.old (IsAtBootStage p (booting_device state) (S.world supervisor.old)) }
    ensures course { (p : SessionState) → AsTold R.Runner runner.old (IsAtBootStage p (booting_device state) (S.world supervisor.old)) →
        IsCourse D.Disk J.Journal K.Sink R.Runner disk.old disk.new sink.old sink.new runner.old runner.new p result
        (λ x h q. AsTold R.Runner runner.new (DrivenLeft x h q (S.world supervisor.new))) }
    ensures none { OnErr result (R.living runner.new ≡ []) }
    ensures drives { IfOk result (λ x. AreDriven (S.world supervisor.new)) }
    ensures held { IfOk result (λ x. OwnsOver D.Disk J.Journal OwnsDriven x disk.new) }
    ensures others { KeepsOthers D.Disk J.Journal disk.old disk.new }
    ensures disk { IsErrOf result SessionFault.Disk → Rose (D.faults disk.old) (D.faults disk.new) }
    ensures edge { IsErrOf result SessionFault.Output → Rose (K.faults sink.old) (K.faults sink.new) }
    ensures quiet_disk { ¬ (IsErrOf result SessionFault.Disk) → D.faults disk.new ≡ D.faults disk.old }
    ensures quiet_sink { ¬ (IsErrOf result SessionFault.Output) → K.faults sink.new ≡ K.faults sink.old }
{
    let Readied {
        boots,
        backs,
        items,
        earlier,
    } = ready;
    match run_boots(state, boots.as_slice(), disk, sink, runner) {
        Ok((state, Booted::Through)) => {
            end_boots(
                state,
                items,
                backs.as_slice(),
                earlier,
                disk,
                sink,
                runner,
                supervisor,
            )
        }
        Ok((state, Booted::Failed)) => {
            drop(items);
            fail_boots(
                state,
                backs.as_slice(),
                earlier,
                disk,
                sink,
                runner,
                supervisor,
            )
        }
        Ok((state, Booted::Restart)) => Ok(Driven::Restart(Loaded::Booting(state))),
        Ok((state, Booted::Reboot)) => Ok(Driven::Reboot(Loaded::Booting(state))),
        Err(over) => Err(over),
    }
}
