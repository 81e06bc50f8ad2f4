// One wait of a turn.
ghost use Rattle.std.specs.Prelude.{◌≡◌, ◌≤◌, ◌<◌, ◌+◌, ◌^◌, List, true, min};
ghost use Rattle.device.specs.Devices.{Device};
ghost use Rattle.components.specs.Deadlines.{least_deadline, until};
ghost use Rattle.histories.specs.TraceEvents.{TraceEvent};
ghost use Rattle.histories.specs.States.{SessionState, state_after};
ghost use Rattle.session_boots.specs.Stages.{AsTold};
ghost use Rattle.session_boots.specs.Traces.{ActTrace};
ghost use Rattle.law_termination.specs.Drives.{AreDriven};
ghost use Rattle.session_steady.specs.Serves.{HasWaited, IsWaiting};
ghost use Rattle.session_steady.specs.Stays.{IsKeptSteady};

use components::Supervise;
use session_acts::{longest_wait, wait};
use step_runner::Runner;

/// How long a turn waits at most, in milliseconds: then the inbox is asked again.
const TURN_MS: u64 = 1_000;

/// How long a turn may wait, in milliseconds: to the next deadline, but not longer than a second.
fn turn_limit<S: Supervise>(supervisor: &S, now: u64) -> u64
    requires { (S.world supervisor.now).moment ≡ now }
    ensures { result ≡ min 1000 (until (least_deadline (S.world supervisor.now)) now) }
{
    let limit = longest_wait(supervisor, now);
    if limit < TURN_MS { limit } else { TURN_MS }
}

/// Waits once, for the end of a child, to the next deadline, or for a second, and tells what came: the turn in which the inbox
/// had nothing is over.
pub fn wait_turn<R: Runner, S: Supervise>(runner: &mut R, supervisor: &mut S, now: u64)
    requires now { (R.told runner.old ≡ now) × (now < 2 ^ 62) }
    requires drives { AreDriven (S.world supervisor.old) }
    requires from_state { (p : SessionState) × (d : Device) × AsTold R.Runner runner.old (IsWaiting p d (S.world supervisor.old)) }
    ensures trace { (p : SessionState) → (d : Device) → AsTold R.Runner runner.old (IsWaiting p d (S.world supervisor.old)) →
        (h : List TraceEvent) × ActTrace p h (R.list runner.old) (R.list runner.new)
        × AsTold R.Runner runner.new (HasWaited p (state_after p h) h d (S.world supervisor.new)) }
    ensures stays { IsKeptSteady (S.world supervisor.old) (S.world supervisor.new) }
    ensures clock { R.clock runner.old ≤ R.clock runner.new }
{
    let limit = turn_limit(supervisor, now);
    wait(runner, supervisor, now, limit);
}
