// One wait.
ghost use Rattle.std.specs.Prelude.{◌≡◌, ◌≤◌, ◌<◌, ◌^◌};
ghost use Rattle.components.specs.Deadlines.{least_deadline, until};
ghost use Rattle.histories.specs.TraceEvents.{TraceEvent};
ghost use Rattle.histories.specs.States.{SessionState, leaves};
ghost use Rattle.session_boots.specs.Stages.{AsTold};
ghost use Rattle.step_runner.specs.Entries.{HasNoted, Listed};
ghost use Rattle.step_runner.specs.Views.{WasShown};
ghost use Rattle.step_runner.specs.Waits.{WaitLives, WaitTime, waited};
ghost use Rattle.session_acts.specs.Runs.{IsAtTurnStart};
ghost use Rattle.session_acts.specs.Waits.{IsReadyToWait, IsWaited, WaitsOnce, WasShownBy};

use crate::laws::orderly_laws;
use components::{Event, Supervise};
use step_runner::{Runner, View, Waited};

/// How long is waited where there is no deadline, in milliseconds: then all is looked at again.
const LOOK_AGAIN_MS: u64 = 1_000;

/// How long may be waited, in milliseconds: to the next deadline, or where there is none, until all is looked at again.
pub fn longest_wait<S: Supervise>(supervisor: &S, now: u64) -> u64
    requires { (S.world supervisor.now).moment ≡ now }
    ensures limit { result ≡ until (least_deadline (S.world supervisor.now)) now }
    ensures near { result ≤ 1000000000 }
{
    match supervisor.next_deadline() {
        Some(deadline) => deadline.saturating_sub(now),
        None => LOOK_AGAIN_MS,
    }
}

/// Shows the runner this view, and waits so long at most, in milliseconds, for the end of a child.
fn await_end<R: Runner, V: View>(runner: &mut R, view: &V, limit: u64) -> Waited
    requires { limit ≤ 1000000000 }
    ensures notes { HasNoted (Listed R.list R.told R.asked runner.old) (Listed R.list R.told R.asked runner.new) (waited limit result) }
    ensures lives { WaitLives (R.living runner.old) (R.living runner.new) result }
    ensures time { WaitTime (R.clock runner.old) (R.clock runner.new) limit result }
    ensures shown { WasShown (R.shown runner.new) (V.components view.now) }
{
    runner.show(view);
    runner.wait(limit)
}

/// Shows the runner the components, waits so long at most, in milliseconds, for the end of a child, and tells what came.
pub fn wait<R: Runner, S: Supervise>(runner: &mut R, supervisor: &mut S, now: u64, limit: u64)
    requires now { (R.told runner.old ≡ now) × (now < 2 ^ 62) }
    requires near { limit ≤ 1000000000 }
    requires from_state { (p : SessionState) × AsTold R.Runner runner.old (IsReadyToWait p limit (S.world supervisor.old)) }
    ensures trace { (p : SessionState) → AsTold R.Runner runner.old (IsReadyToWait p limit (S.world supervisor.old)) →
        (e : TraceEvent) × WaitsOnce p e (R.list runner.old) (R.list runner.new)
        × AsTold R.Runner runner.new (IsAtTurnStart (leaves p e) p.device (S.world supervisor.new)) }
    ensures waited { IsWaited now limit (R.clock runner.old) (R.clock runner.new) (S.world supervisor.old) (S.world supervisor.new) }
    ensures clock { R.clock runner.old ≤ R.clock runner.new }
    ensures shown { WasShownBy R.Runner runner.new (S.world supervisor.old) }
{
    orderly_laws();
    match await_end(runner, supervisor, limit) {
        Waited::Ended(child, exit) => supervisor.event(Event::Ended(child, exit), now),
        Waited::Elapsed => {}
    }
}
