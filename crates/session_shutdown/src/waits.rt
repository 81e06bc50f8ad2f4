// One wait.
ghost use Rattle.std.specs.Prelude.{◌≡◌, ◌⊎◌, ◌<◌, ◌+◌, ◌^◌, List};
ghost use Rattle.device.specs.Devices.{Device};
ghost use Rattle.histories.specs.TraceEvents.{TraceEvent};
ghost use Rattle.histories.specs.States.{SessionState, state_after};
ghost use Rattle.session_boots.specs.Traces.{ActTrace};
ghost use Rattle.law_termination.specs.Kept.{IsFalling};
ghost use Rattle.law_termination.specs.Rank.{rank};
ghost use Rattle.law_termination.specs.Time.{HasTime};
ghost use Rattle.law_termination.specs.Drives.{AreDriven, NotAbove};
ghost use Rattle.session_shutdown.specs.Runs.{IsAtTurnStart, IsReadyToWait};
ghost use Rattle.session_boots.specs.Stages.{AsTold};

use crate::laws::leaving_laws;
use components::Supervise;
use session_acts::{longest_wait, wait};
use step_runner::Runner;

/// Waits for the end of a child or to the next deadline, and tells what came.
pub(crate) fn wait_once<R: Runner, S: Supervise>(runner: &mut R, supervisor: &mut S, now: u64)
    requires now { (R.told runner.old ≡ now) × (now < 2 ^ 62) }
    requires drives { AreDriven (S.world supervisor.old) × IsFalling (S.world supervisor.old) }
    requires time { HasTime (S.world supervisor.old) × ((S.world supervisor.old).moment + 1 < 2 ^ 62) }
    requires from_state { (p : SessionState) × AsTold R.Runner runner.old (IsReadyToWait p (S.world supervisor.old)) }
    ensures trace { (p : SessionState) → (d : Device) → p.device ≡ d → AsTold R.Runner runner.old (IsReadyToWait p (S.world supervisor.old)) →
        (h : List TraceEvent) × ActTrace p h (R.list runner.old) (R.list runner.new)
        × AsTold R.Runner runner.new (IsAtTurnStart (state_after p h) d (S.world supervisor.new)) }
    // A child ends, or time goes on.
    ensures not_above { NotAbove (S.world supervisor.old) (S.world supervisor.new) }
    ensures goes_on { (rank (S.world supervisor.new) < rank (S.world supervisor.old)) ⊎ (now < R.clock runner.new) }
{
    leaving_laws();
    let limit = longest_wait(supervisor, now);
    wait(runner, supervisor, now, limit);
}
