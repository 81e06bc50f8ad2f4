// The plan's items are brought up.
ghost use Rattle.std.specs.Prelude.{◌≡◌, IfOk, IsErrOf};
ghost use Rattle.nuc_base.specs.Faults.{Rose};
ghost use Rattle.deploy_state.specs.States.{OwnsActivating, activating_device};
ghost use Rattle.histories.specs.States.{SessionState};
ghost use Rattle.law_termination.specs.Drives.{AreDriven};
ghost use Rattle.session_startup.specs.Ended.{ActivatedLeft, ActivatedSame, OwnsActivated};
ghost use Rattle.session_startup.specs.Runs.{IsAtTurnStart, MayAbort};
ghost use Rattle.deploy_state.specs.Objects.{OwnsOver, KeepsOthers};
ghost use Rattle.session_boots.specs.Stages.{AsTold, HasTrace};

use crate::closing::close_plan;
use crate::coming::Coming;
use crate::turns::{Turned, come_up};
use components::Supervise;
use deploy_state::{Activating, Idle};
use disk_model::Disk;
use edges::Sink;
use gate_log::Journal;
use session_boots::SessionFault;
use step_runner::Runner;

/// What became of the plan's items.
#[derive(Drop)]
pub enum Activated<J: Journal + Drop> {
    /// All are up, and the deployment closed as successful.
    Closed(Idle<J>),
    /// One failed three times.
    Broken(Activating<J>),
}

/// Brings the plan's items up: until all are, which closes the deployment, or one failed three times. Each failure is
/// recorded and its line printed before the next act, and before each wait every act was taken.
pub fn activate<D: Disk, J: Journal + Drop, K: Sink, R: Runner, S: Supervise>(
    state: Activating<J>,
    disk: &mut D,
    sink: &mut K,
    runner: &mut R,
    supervisor: &mut S,
) -> Result<Activated<J>, SessionFault>
    requires held { OwnsOver D.Disk J.Journal OwnsActivating state disk.old }
    requires drives { AreDriven (S.world supervisor.old) }
    requires from_state { (p : SessionState) × AsTold R.Runner runner.old (IsAtTurnStart p (activating_device state) (S.world supervisor.old)) }
    ensures trace { (p : SessionState) → AsTold R.Runner runner.old (IsAtTurnStart p (activating_device state) (S.world supervisor.old)) →
        HasTrace D.Disk J.Journal K.Sink R.Runner disk.old disk.new sink.old sink.new runner.old runner.new p
        (λ x h q. AsTold R.Runner runner.new (ActivatedLeft x h q (S.world supervisor.new)))
        (λ q. AsTold R.Runner runner.new (MayAbort q (S.world supervisor.new))) result }
    ensures drives { AreDriven (S.world supervisor.new) }
    ensures held { IfOk result (λ x. OwnsOver D.Disk J.Journal OwnsActivated x disk.new) }
    ensures same { IfOk result (λ x. ActivatedSame (activating_device state) x) }
    ensures others { KeepsOthers D.Disk J.Journal disk.old disk.new }
    ensures disk { IsErrOf result SessionFault.Disk → Rose (D.faults disk.old) (D.faults disk.new) }
    ensures edge { IsErrOf result SessionFault.Output → Rose (K.faults sink.old) (K.faults sink.new) }
    ensures quiet_disk { ¬ (IsErrOf result SessionFault.Disk) → D.faults disk.new ≡ D.faults disk.old }
    ensures quiet_sink { ¬ (IsErrOf result SessionFault.Output) → K.faults sink.new ≡ K.faults sink.old }
{
    match come_up(Coming::Plan(state), disk, sink, runner, supervisor) {
        Ok((coming, turned)) => {
            let state = coming.into_plan();
            match turned {
                Turned::Broken => Ok(Activated::Broken(state)),
                Turned::Settled => match close_plan(state, disk, sink, supervisor) {
                    Ok(idle) => Ok(Activated::Closed(idle)),
                    Err(over) => Err(over),
                },
            }
        }
        Err(over) => Err(over),
    }
}
