// The items of the set are brought up again.
ghost use Rattle.std.specs.Prelude.{◌≡◌, IfOk, IsErrOf};
ghost use Rattle.nuc_base.specs.Faults.{Rose};
ghost use Rattle.deploy_state.specs.States.{OwnsIdle, OwnsRolling, idle_device, rolling_device};
ghost use Rattle.histories.specs.Phases.{current};
ghost use Rattle.histories.specs.States.{SessionState};
ghost use Rattle.law_termination.specs.Drives.{AreDriven};
ghost use Rattle.session_startup.specs.Ended.{HasClosed};
ghost use Rattle.session_startup.specs.Runs.{IsAtTurnStart, MayAbort};
ghost use Rattle.deploy_state.specs.Objects.{OwnsOver, KeepsOthers};
ghost use Rattle.session_boots.specs.Stages.{AsTold, HasTrace};

use crate::closing::close_set;
use crate::coming::Coming;
use crate::turns::{Turned, come_up};
use components::Supervise;
use deploy_state::{Idle, Rolling};
use disk_model::Disk;
use edges::Sink;
use gate_log::Journal;
use nuc_base::Outcome;
use session_boots::SessionFault;
use step_runner::Runner;

/// Brings the items of the set up again: until all are, or one failed three times, and closes the deployment as rolled
/// back or as not able to, which it tells. Each failure is recorded and its line printed before the next act, and before
/// each wait every act was taken.
pub fn roll<D: Disk, J: Journal + Drop, K: Sink, R: Runner, S: Supervise>(
    state: Rolling<J>,
    disk: &mut D,
    sink: &mut K,
    runner: &mut R,
    supervisor: &mut S,
) -> Result<(Idle<J>, Outcome), SessionFault>
    requires held { OwnsOver D.Disk J.Journal OwnsRolling state disk.old }
    requires drives { AreDriven (S.world supervisor.old) }
    requires from_state { (p : SessionState) × AsTold R.Runner runner.old (IsAtTurnStart p (rolling_device state) (S.world supervisor.old)) }
    ensures trace { (p : SessionState) → AsTold R.Runner runner.old (IsAtTurnStart p (rolling_device state) (S.world supervisor.old)) →
        HasTrace D.Disk J.Journal K.Sink R.Runner disk.old disk.new sink.old sink.new runner.old runner.new p
        (λ x h q. AsTold R.Runner runner.new (HasClosed x.1 current h q (idle_device x.0) (S.world supervisor.new)))
        (λ q. AsTold R.Runner runner.new (MayAbort q (S.world supervisor.new))) result }
    ensures drives { AreDriven (S.world supervisor.new) }
    ensures held { IfOk result (λ x. OwnsOver D.Disk J.Journal OwnsIdle x.0 disk.new) }
    ensures others { KeepsOthers D.Disk J.Journal disk.old disk.new }
    ensures disk { IsErrOf result SessionFault.Disk → Rose (D.faults disk.old) (D.faults disk.new) }
    ensures edge { IsErrOf result SessionFault.Output → Rose (K.faults sink.old) (K.faults sink.new) }
    ensures quiet_disk { ¬ (IsErrOf result SessionFault.Disk) → D.faults disk.new ≡ D.faults disk.old }
    ensures quiet_sink { ¬ (IsErrOf result SessionFault.Output) → K.faults sink.new ≡ K.faults sink.old }
{
    match come_up(Coming::Set(state), disk, sink, runner, supervisor) {
        Ok((coming, turned)) => {
            let state = coming.into_set();
            match turned {
                Turned::Settled => match close_set(state, disk, sink, supervisor) {
                    Ok(idle) => Ok((idle, Outcome::RollbackComplete)),
                    Err(over) => Err(over),
                },
                Turned::Broken => match close_set(state, disk, sink, supervisor) {
                    Ok(idle) => Ok((idle, Outcome::UnableToRollback)),
                    Err(over) => Err(over),
                },
            }
        }
        Err(over) => Err(over),
    }
}
