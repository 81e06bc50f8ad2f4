//! An accepted deployment begins, while components stand or not.
ghost use Rattle.law_termination.specs.Drives.{AreDriven};
ghost use Rattle.std.specs.Prelude.{◌≡◌, ◌≤◌, [], IfOk, OnErr, IsErrOf, IsSome, false};
ghost use Rattle.nuc_base.specs.Faults.{Rose};
ghost use Rattle.components.specs.Answers.{standing_count};
ghost use Rattle.components.specs.Changes.{standing};
ghost use Rattle.deploy_state.specs.Fields.{has_failed};
ghost use Rattle.deploy_state.specs.States.{OwnsBooting, booting_device};
ghost use Rattle.session_rollout.specs.Driven.{IsCourse, DrivenLeft, OwnsDriven};
ghost use Rattle.session_boots.specs.Stands.{IsOpened};
ghost use Rattle.session_admission.specs.Readied.{AreReadiedFor};
ghost use Rattle.histories.specs.Phases.{duty_of};
ghost use Rattle.histories.specs.States.{SessionState};
ghost use Rattle.session_transitions.specs.Enters.{RunOn};
ghost use Rattle.law_supervisor.specs.Sound.{IsOrderly};
ghost use Rattle.deploy_state.specs.Objects.{OwnsOver, KeepsOthers};
ghost use Rattle.session_boots.specs.Stages.{AsTold};

use crate::boots::{boot, end_boots};
use crate::driven::Driven;
use components::Supervise;
use deploy_state::Booting;
use disk_model::Disk;
use edges::Sink;
use gate_log::Journal;
use session_admission::Readied;
use session_boots::SessionFault;
use session_shutdown::stop_components;
use step_runner::Runner;

/// Stops all components, and then runs the bootstraps of the plan and brings its items up.
fn stop_and_boot<D: Disk, J: Journal + Drop, K: Sink, R: Runner, S: Supervise>(
    state: Booting<J>,
    ready: Readied<S::Ready>,
    disk: &mut D,
    sink: &mut K,
    runner: &mut R,
    supervisor: &mut S,
) -> Result<Driven<J>, SessionFault>
where
    S::Ready: Drop,
    requires held { OwnsOver D.Disk J.Journal OwnsBooting state disk.old }
    requires next { IsSome (duty_of (booting_device state)).next_bootstrap }
    requires ready { AreReadiedFor (booting_device state) ready.boots ready.backs (S.coming ready.items) (S.coming ready.earlier) }
    requires drives { AreDriven (S.world supervisor.old) }
    requires orderly { IsOrderly (S.world supervisor.old) }
    requires from_state { (p : SessionState) × AsTold R.Runner runner.old (IsOpened p (booting_device state) (S.world supervisor.old)) }
    ensures course { (p : SessionState) → AsTold R.Runner runner.old (IsOpened p (booting_device state) (S.world supervisor.old)) →
        IsCourse D.Disk J.Journal K.Sink R.Runner disk.old disk.new sink.old sink.new runner.old runner.new p result
        (λ x h q. AsTold R.Runner runner.new (DrivenLeft x h q (S.world supervisor.new))) }
    ensures none { OnErr result (R.living runner.new ≡ []) }
    ensures drives { IfOk result (λ x. AreDriven (S.world supervisor.new)) }
    ensures held { IfOk result (λ x. OwnsOver D.Disk J.Journal OwnsDriven x disk.new) }
    ensures others { KeepsOthers D.Disk J.Journal disk.old disk.new }
    ensures disk { IsErrOf result SessionFault.Disk → Rose (D.faults disk.old) (D.faults disk.new) }
    ensures edge { IsErrOf result SessionFault.Output → Rose (K.faults sink.old) (K.faults sink.new) }
    ensures quiet_disk { ¬ (IsErrOf result SessionFault.Disk) → D.faults disk.new ≡ D.faults disk.old }
    ensures quiet_sink { ¬ (IsErrOf result SessionFault.Output) → K.faults sink.new ≡ K.faults sink.old }
{
    stop_components(runner, supervisor);
    boot(state, ready, disk, sink, runner, supervisor)
}

/// Drives a deployment of which nothing was done yet to its close. Where the plan has bootstraps, all components that stand are
/// stopped before the first; where it has none, its items take the place of those that stand at once.
pub fn begin<D: Disk, J: Journal + Drop, K: Sink, R: Runner, S: Supervise>(
    state: Booting<J>,
    ready: Readied<S::Ready>,
    disk: &mut D,
    sink: &mut K,
    runner: &mut R,
    supervisor: &mut S,
) -> Result<Driven<J>, SessionFault>
where
    S::Ready: Drop,
    requires held { OwnsOver D.Disk J.Journal OwnsBooting state disk.old }
    requires fresh { has_failed (booting_device state) ≡ false }
    requires ready { AreReadiedFor (booting_device state) ready.boots ready.backs (S.coming ready.items) (S.coming ready.earlier) }
    // What was made ready has room for the components that stand, and these run as their recipes say for the device.
    requires room { standing_count (S.world supervisor.old) ≤ S.room ready.items }
    requires made { RunOn (booting_device state) (standing (S.world supervisor.old).parts) }
    requires drives { AreDriven (S.world supervisor.old) }
    requires orderly { IsOrderly (S.world supervisor.old) }
    requires from_state { (p : SessionState) × AsTold R.Runner runner.old (IsOpened p (booting_device state) (S.world supervisor.old)) }
    ensures course { (p : SessionState) → AsTold R.Runner runner.old (IsOpened p (booting_device state) (S.world supervisor.old)) →
        IsCourse D.Disk J.Journal K.Sink R.Runner disk.old disk.new sink.old sink.new runner.old runner.new p result
        (λ x h q. AsTold R.Runner runner.new (DrivenLeft x h q (S.world supervisor.new))) }
    ensures none { OnErr result (R.living runner.new ≡ []) }
    ensures drives { IfOk result (λ x. AreDriven (S.world supervisor.new)) }
    ensures held { IfOk result (λ x. OwnsOver D.Disk J.Journal OwnsDriven x disk.new) }
    ensures others { KeepsOthers D.Disk J.Journal disk.old disk.new }
    ensures disk { IsErrOf result SessionFault.Disk → Rose (D.faults disk.old) (D.faults disk.new) }
    ensures edge { IsErrOf result SessionFault.Output → Rose (K.faults sink.old) (K.faults sink.new) }
    ensures quiet_disk { ¬ (IsErrOf result SessionFault.Disk) → D.faults disk.new ≡ D.faults disk.old }
    ensures quiet_sink { ¬ (IsErrOf result SessionFault.Output) → K.faults sink.new ≡ K.faults sink.old }
{
    if state.next().is_some() {
        return stop_and_boot(state, ready, disk, sink, runner, supervisor);
    }
    let Readied {
        boots,
        backs,
        items,
        earlier,
    } = ready;
    drop(boots);
    end_boots(
        state,
        items,
        backs.as_slice(),
        earlier,
        disk,
        sink,
        runner,
        supervisor,
    )
}
