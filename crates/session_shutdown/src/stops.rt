// All components are stopped.
ghost use Rattle.std.specs.Prelude.{List};
ghost use Rattle.device.specs.Devices.{Device};
ghost use Rattle.histories.specs.TraceEvents.{TraceEvent};
ghost use Rattle.histories.specs.States.{SessionState, state_after};
ghost use Rattle.session_boots.specs.Traces.{ActTrace};
ghost use Rattle.law_termination.specs.Drives.{AreDriven};
ghost use Rattle.session_shutdown.specs.Runs.{IsAtTurnStart};
ghost use Rattle.session_shutdown.specs.Stops.{HasStopped, MayStop};
ghost use Rattle.session_boots.specs.Stages.{AsTold};

use crate::laws::{leaving_laws, stops_leave};
use crate::turns::turn;
use components::Supervise;
use step_runner::Runner;

/// Takes turns until none stands.
fn stop_on<R: Runner, S: Supervise>(runner: &mut R, supervisor: &mut S)
    requires drives { AreDriven (S.world supervisor.old) }
    requires from_state { (p : SessionState) × (d : Device) × AsTold R.Runner runner.old (IsAtTurnStart p d (S.world supervisor.old)) }
    ensures trace { (p : SessionState) → (d : Device) → AsTold R.Runner runner.old (IsAtTurnStart p d (S.world supervisor.old)) →
        (h : List TraceEvent) × ActTrace p h (R.list runner.old) (R.list runner.new)
        × AsTold R.Runner runner.new (HasStopped (state_after p h) d (S.world supervisor.new)) }
    ensures drives { AreDriven (S.world supervisor.new) }
{
    'turns: loop {
        if turn(runner, supervisor) {
            return;
        }
    }
}

/// Stops all components, each with its shutdown step where it has one, until none stands and no child lives. No disk sees
/// it: nothing is recorded.
pub fn stop_components<R: Runner, S: Supervise>(runner: &mut R, supervisor: &mut S)
    requires drives { AreDriven (S.world supervisor.old) }
    requires from_state { (p : SessionState) × (d : Device) × AsTold R.Runner runner.old (MayStop p d (S.world supervisor.old)) }
    ensures trace { (p : SessionState) → (d : Device) → AsTold R.Runner runner.old (MayStop p d (S.world supervisor.old)) →
        (h : List TraceEvent) × ActTrace p h (R.list runner.old) (R.list runner.new)
        × AsTold R.Runner runner.new (HasStopped (state_after p h) d (S.world supervisor.new)) }
    ensures drives { AreDriven (S.world supervisor.new) }
{
    leaving_laws();
    stops_leave();
    supervisor.stop_all();
    stop_on(runner, supervisor);
}
