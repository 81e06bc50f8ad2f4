// One act.
ghost use Rattle.std.specs.Prelude.{◌≡◌, ◌<◌, ◌^◌, List};
ghost use Rattle.histories.specs.TraceEvents.{TraceEvent};
ghost use Rattle.histories.specs.States.{SessionState, state_after};
ghost use Rattle.session_boots.specs.Stages.{AsTold};
ghost use Rattle.session_acts.specs.Runs.{DidLeave, IsInTurn};
ghost use Rattle.session_acts.specs.Taken.{IsActTaken};
ghost use Rattle.session_acts.specs.Traces.{ActsInTurn};

use crate::laws::orderly_laws;
use crate::starts::start_step;
use components::{Act, Supervise};
use nuc_base::{Exit, Step};
use step_runner::Runner;

/// What came of asking for the next act.
#[derive(Clone, Copy, Debug, Drop, PartialEq, Eq)]
pub enum Did {
    /// There was none.
    Nothing,
    Something,
    /// The step of this component failed, of which nothing was recorded or said yet.
    Failed(u32, Step, Exit),
}

/// Takes the next act.
pub fn act<R: Runner, S: Supervise>(runner: &mut R, supervisor: &mut S, now: u64) -> Did
    requires now { (R.told runner.old ≡ now) × (now < 2 ^ 62) }
    requires from_state { (p : SessionState) × AsTold R.Runner runner.old (IsInTurn p (S.world supervisor.old)) }
    ensures now { R.told runner.new ≡ now }
    ensures trace { (p : SessionState) → AsTold R.Runner runner.old (IsInTurn p (S.world supervisor.old)) →
        (h : List TraceEvent) × ActsInTurn p h (R.list runner.old) (R.list runner.new)
        × AsTold R.Runner runner.new (DidLeave result (state_after p h) (S.world supervisor.new)) }
    ensures taken { IsActTaken now result (S.world supervisor.old) (S.world supervisor.new) }
{
    orderly_laws();
    match supervisor.next_act() {
        None => Did::Nothing,
        Some(next) => match next {
            Act::Start(who, step) => {
                start_step(runner, supervisor, who, step, now);
                Did::Something
            }
            Act::Kill(child) => {
                runner.kill(child);
                Did::Something
            }
            Act::Failed(who, step, exit) => Did::Failed(who, step, exit),
            Act::Broke(who, step, exit) => Did::Failed(who, step, exit),
        },
    }
}
