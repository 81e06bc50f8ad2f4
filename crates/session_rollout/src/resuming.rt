//! A deployment is driven on from where a call before left it.
ghost use Rattle.law_termination.specs.Drives.{AreDriven};
ghost use Rattle.std.specs.Prelude.{◌≡◌, [], IfOk, OnErr, IsErrOf, IsSome};
ghost use Rattle.nuc_base.specs.Faults.{Rose};
ghost use Rattle.deploy_state.specs.States.{OwnsLoaded, loaded_device};
ghost use Rattle.session_rollout.specs.Driven.{IsCourse, DrivenLeft, OwnsDriven};
ghost use Rattle.session_boots.specs.Stands.{IsAtBootStage};
ghost use Rattle.session_admission.specs.Readied.{AreReadiedFor};
ghost use Rattle.histories.specs.States.{SessionState};
ghost use Rattle.law_supervisor.specs.Sound.{IsOrderly};
ghost use Rattle.deploy_state.specs.Objects.{OwnsOver, KeepsOthers};
ghost use Rattle.session_boots.specs.Stages.{AsTold};

use crate::backing::back_on;
use crate::boots::boot;
use crate::driven::Driven;
use crate::items::activate_on;
use crate::rolling::roll_on;
use components::Supervise;
use deploy_state::Loaded;
use disk_model::Disk;
use edges::Sink;
use gate_log::Journal;
use session_admission::Readied;
use session_boots::SessionFault;
use step_runner::Runner;

/// Drives the deployment on that is pending, from its recorded stage to its close. Nothing stands before.
pub fn drive<D: Disk, J: Journal + Drop, K: Sink, R: Runner, S: Supervise>(
    state: Loaded<J>,
    ready: Readied<S::Ready>,
    disk: &mut D,
    sink: &mut K,
    runner: &mut R,
    supervisor: &mut S,
) -> Result<Driven<J>, SessionFault>
where
    S::Ready: Drop,
    requires held { OwnsOver D.Disk J.Journal OwnsLoaded state disk.old }
    requires pending { IsSome (loaded_device state).pending }
    requires ready { AreReadiedFor (loaded_device state) ready.boots ready.backs (S.coming ready.items) (S.coming ready.earlier) }
    requires drives { AreDriven (S.world supervisor.old) }
    requires orderly { IsOrderly (S.world supervisor.old) }
    requires from_state { (p : SessionState) × AsTold R.Runner runner.old (IsAtBootStage p (loaded_device state) (S.world supervisor.old)) }
    ensures course { (p : SessionState) → AsTold R.Runner runner.old (IsAtBootStage p (loaded_device state) (S.world supervisor.old)) →
        IsCourse D.Disk J.Journal K.Sink R.Runner disk.old disk.new sink.old sink.new runner.old runner.new p result
        (λ x h q. AsTold R.Runner runner.new (DrivenLeft x h q (S.world supervisor.new))) }
    ensures none { OnErr result (R.living runner.new ≡ []) }
    ensures drives { IfOk result (λ x. AreDriven (S.world supervisor.new)) }
    ensures held { IfOk result (λ x. OwnsOver D.Disk J.Journal OwnsDriven x disk.new) }
    ensures others { KeepsOthers D.Disk J.Journal disk.old disk.new }
    ensures disk { IsErrOf result SessionFault.Disk → Rose (D.faults disk.old) (D.faults disk.new) }
    ensures edge { IsErrOf result SessionFault.Output → Rose (K.faults sink.old) (K.faults sink.new) }
    ensures quiet_disk { ¬ (IsErrOf result SessionFault.Disk) → D.faults disk.new ≡ D.faults disk.old }
    ensures quiet_sink { ¬ (IsErrOf result SessionFault.Output) → K.faults sink.new ≡ K.faults sink.old }
{
    match state {
        Loaded::Booting(state) => boot(state, ready, disk, sink, runner, supervisor),
        Loaded::Activating(state) => {
            let Readied {
                boots,
                backs,
                items,
                earlier,
            } = ready;
            drop(boots);
            activate_on(
                state,
                items,
                backs.as_slice(),
                earlier,
                disk,
                sink,
                runner,
                supervisor,
            )
        }
        Loaded::Backing(state) => {
            let Readied {
                boots,
                backs,
                items,
                earlier,
            } = ready;
            drop(boots);
            drop(items);
            back_on(
                state,
                backs.as_slice(),
                earlier,
                disk,
                sink,
                runner,
                supervisor,
            )
        }
        Loaded::Rolling(state) => {
            let Readied {
                boots,
                backs,
                items,
                earlier,
            } = ready;
            drop(boots);
            drop(backs);
            drop(items);
            roll_on(state, earlier, disk, sink, runner, supervisor)
        }
        Loaded::Idle(_) => unreachable!(),
    }
}
