// The kills with which a call gives up.
ghost use Rattle.std.specs.Prelude.{◌≡◌, [], List};
ghost use Rattle.std.specs.List.{AllByRecursion};
ghost use Rattle.histories.specs.Courses.{IsBare};
ghost use Rattle.histories.specs.Follows.{IsLast};
ghost use Rattle.histories.specs.TraceEvents.{TraceEvent};
ghost use Rattle.histories.specs.States.{SessionState, state_after};
ghost use Rattle.session_boots.specs.Traces.{ActTrace};
ghost use Rattle.session_transitions.specs.Fails.{IsGivenUp};
ghost use Rattle.session_transitions.specs.Kills.{KeepsRest};
ghost use Rattle.session_boots.specs.Stages.{AsTold};

use components::Supervise;
use step_runner::Runner;

/// Kills all children that live, where they are. A call that gives up does so: no shutdown step runs.
pub fn kill_all<R: Runner, S: Supervise>(runner: &mut R, supervisor: &S)
    requires from_state { (p : SessionState) × AsTold R.Runner runner.old (IsGivenUp p (S.world supervisor.now)) }
    // Nothing is done but that the moment is asked for and children are killed.
    ensures trace { (p : SessionState) → AsTold R.Runner runner.old (IsGivenUp p (S.world supervisor.now)) →
        (h : List TraceEvent) × ActTrace p h (R.list runner.old) (R.list runner.new) × KeepsRest p (state_after p h) × IsBare (state_after p h) ×
        AllByRecursion IsLast h }
    ensures none { R.living runner.new ≡ [] }
{
    // The moment may be due, as after a wait.
    let _now = runner.moment();
    let mut last = None;
    'kills: while let Some(child) = supervisor.next_living(last) {
        runner.kill(child);
        last = Some(child);
    }
}
