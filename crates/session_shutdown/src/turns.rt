// One turn of the stop of all.
ghost use Rattle.std.specs.Prelude.{◌≡◌, ◌<◌, List, false};
ghost use Rattle.device.specs.Devices.{Device};
ghost use Rattle.histories.specs.TraceEvents.{TraceEvent};
ghost use Rattle.histories.specs.States.{SessionState, state_after};
ghost use Rattle.session_boots.specs.Traces.{ActTrace};
ghost use Rattle.components.specs.Events.{later};
ghost use Rattle.law_termination.specs.Rank.{measure};
ghost use Rattle.law_termination.specs.Drives.{AreDriven};
ghost use Rattle.session_shutdown.specs.Runs.{IsAtTurnStart};
ghost use Rattle.session_shutdown.specs.Stops.{TurnLeft};
ghost use Rattle.session_boots.specs.Stages.{AsTold};

use crate::acts::take_acts;
use crate::laws::leaving_laws;
use crate::waits::wait_once;
use components::Supervise;
use session_acts::pass;
use step_runner::Runner;

/// Asks for the moment, takes every act, and waits where one still stands: then a child ended, or time went on. Answers whether
/// none stands.
pub(crate) fn turn<R: Runner, S: Supervise>(runner: &mut R, supervisor: &mut S) -> bool
    requires drives { AreDriven (S.world supervisor.old) }
    requires from_state { (p : SessionState) × (d : Device) × AsTold R.Runner runner.old (IsAtTurnStart p d (S.world supervisor.old)) }
    ensures trace { (p : SessionState) → (d : Device) → AsTold R.Runner runner.old (IsAtTurnStart p d (S.world supervisor.old)) →
        (h : List TraceEvent) × ActTrace p h (R.list runner.old) (R.list runner.new)
        × AsTold R.Runner runner.new (TurnLeft result (state_after p h) d (S.world supervisor.new)) }
    ensures drives { AreDriven (S.world supervisor.new) }
    ensures falls { result ≡ false → measure (later (R.clock runner.new) (S.world supervisor.new)) < measure
        (later (R.clock runner.old) (S.world supervisor.old)) }
{
    leaving_laws();
    let now = pass(runner, supervisor);
    take_acts(runner, supervisor, now);
    if supervisor.stopped() {
        return true;
    }
    wait_once(runner, supervisor, now);
    false
}
