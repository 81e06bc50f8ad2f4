// One act, and all that are due.
ghost use Rattle.std.specs.Prelude.{◌≡◌, ◌<◌, ◌^◌, List, true, false};
ghost use Rattle.histories.specs.TraceEvents.{TraceEvent};
ghost use Rattle.histories.specs.States.{SessionState, state_after};
ghost use Rattle.session_boots.specs.Traces.{ActTrace};
ghost use Rattle.law_termination.specs.Drives.{AreDriven, HasFewerLoops, NotAbove};
ghost use Rattle.session_shutdown.specs.Runs.{ActLeft, IsInTurn};
ghost use Rattle.session_boots.specs.Stages.{AsTold};

use crate::laws::leaving_laws;
use components::Supervise;
use session_acts::{Did, act};
use step_runner::Runner;

/// Takes the next act. Answers whether there was none. A failure is none: who leaves owes none.
fn take_act<R: Runner, S: Supervise>(runner: &mut R, supervisor: &mut S, now: u64) -> bool
    requires now { (R.told runner.old ≡ now) × (now < 2 ^ 62) }
    requires drives { AreDriven (S.world supervisor.old) }
    requires from_state { (p : SessionState) × AsTold R.Runner runner.old (IsInTurn p (S.world supervisor.old)) }
    ensures now { R.told runner.new ≡ now }
    ensures trace { (p : SessionState) → AsTold R.Runner runner.old (IsInTurn p (S.world supervisor.old)) →
        (h : List TraceEvent) × ActTrace p h (R.list runner.old) (R.list runner.new)
        × AsTold R.Runner runner.new (ActLeft (state_after p h) result (S.world supervisor.new)) }
    ensures not_above { NotAbove (S.world supervisor.old) (S.world supervisor.new) }
    ensures falls { result ≡ false → HasFewerLoops (S.world supervisor.old) (S.world supervisor.new) }
{
    leaving_laws();
    match act(runner, supervisor, now) {
        Did::Nothing => true,
        Did::Something => false,
        Did::Failed(_who, _step, _exit) => unreachable!(),
    }
}

/// Takes acts until none is left.
pub(crate) fn take_acts<R: Runner, S: Supervise>(runner: &mut R, supervisor: &mut S, now: u64)
    requires now { (R.told runner.old ≡ now) × (now < 2 ^ 62) }
    requires drives { AreDriven (S.world supervisor.old) }
    requires from_state { (p : SessionState) × AsTold R.Runner runner.old (IsInTurn p (S.world supervisor.old)) }
    ensures now { R.told runner.new ≡ now }
    ensures trace { (p : SessionState) → AsTold R.Runner runner.old (IsInTurn p (S.world supervisor.old)) →
        (h : List TraceEvent) × ActTrace p h (R.list runner.old) (R.list runner.new)
        × AsTold R.Runner runner.new (ActLeft (state_after p h) true (S.world supervisor.new)) }
    ensures not_above { NotAbove (S.world supervisor.old) (S.world supervisor.new) }
{
    'acts: loop {
        if take_act(runner, supervisor, now) {
            return;
        }
    }
}
