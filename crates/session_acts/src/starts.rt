// The moment, and the start of one step.
ghost use Rattle.std.specs.Prelude.{◌≡◌, ◌≤◌, ◌<◌, ◌^◌, List, true, false};
ghost use Rattle.device.specs.Devices.{Device};
ghost use Rattle.components.specs.Events.{later, skipped};
ghost use Rattle.histories.specs.TraceEvents.{TraceEvent};
ghost use Rattle.histories.specs.States.{SessionState, state_after};
ghost use Rattle.session_boots.specs.Stages.{AsTold};
ghost use Rattle.session_acts.specs.Runs.{IsAtTurnStart, IsInTurn, IsStarting, MayLaunch};
ghost use Rattle.session_acts.specs.Taken.{IsAnswered};
ghost use Rattle.session_acts.specs.Traces.{ActsInTurn};

use crate::laws::orderly_laws;
use components::{Event, Supervise};
use nuc_base::Step;
use session_boots::probes;
use step_runner::Runner;

/// Asks for the moment and tells it.
pub fn pass<R: Runner, S: Supervise>(runner: &mut R, supervisor: &mut S) -> u64
    requires from_state { (p : SessionState) × (d : Device) × AsTold R.Runner runner.old (IsAtTurnStart p d (S.world supervisor.old)) }
    ensures now { (R.told runner.new ≡ result) × (result < 2 ^ 62) }
    ensures trace { (p : SessionState) → (d : Device) → AsTold R.Runner runner.old (IsAtTurnStart p d (S.world supervisor.old)) →
        (h : List TraceEvent) × ActsInTurn p h (R.list runner.old) (R.list runner.new)
        × AsTold R.Runner runner.new (IsInTurn (state_after p h) (S.world supervisor.new)) }
    ensures passed { S.world supervisor.new ≡ later result (S.world supervisor.old) }
    ensures clock { R.clock runner.old ≤ result }
{
    orderly_laws();
    let now = runner.moment();
    supervisor.event(Event::Passed, now);
    now
}

/// Whether the step is to be skipped that is to be started, which its probe says.
fn is_skipped<R: Runner, S: Supervise>(runner: &mut R, supervisor: &S, who: u32, step: Step) -> bool
    requires from_state { (p : SessionState) × AsTold R.Runner runner.old (IsStarting p who step (S.world supervisor.now)) }
    ensures skipped { result ≡ true → (p : SessionState) → AsTold R.Runner runner.old (IsStarting p who step (S.world supervisor.now)) →
        (h : List TraceEvent) × ActsInTurn p h (R.list runner.old) (R.list runner.new)
        × AsTold R.Runner runner.new (IsInTurn (state_after p h) (skipped who (S.world supervisor.now))) }
    ensures starts { result ≡ false → (p : SessionState) → AsTold R.Runner runner.old (IsStarting p who step (S.world supervisor.now)) →
        (h : List TraceEvent) × ActsInTurn p h (R.list runner.old) (R.list runner.new)
        × AsTold R.Runner runner.new (MayLaunch (state_after p h) who step (S.world supervisor.now)) }
    ensures moment { R.told runner.new ≡ R.told runner.old }
{
    orderly_laws();
    match supervisor.skip(who, step) {
        Some(skip) => probes(runner, skip),
        None => false,
    }
}

/// Starts the step, and tells what came of it.
fn launch<R: Runner, S: Supervise>(
    runner: &mut R,
    supervisor: &mut S,
    who: u32,
    step: Step,
    now: u64,
)
    requires now { (R.told runner.old ≡ now) × (now < 2 ^ 62) }
    requires from_state { (p : SessionState) × AsTold R.Runner runner.old (MayLaunch p who step (S.world supervisor.old)) }
    ensures now { R.told runner.new ≡ now }
    ensures trace { (p : SessionState) → AsTold R.Runner runner.old (MayLaunch p who step (S.world supervisor.old)) →
        (h : List TraceEvent) × ActsInTurn p h (R.list runner.old) (R.list runner.new)
        × AsTold R.Runner runner.new (IsInTurn (state_after p h) (S.world supervisor.new)) }
    ensures answered { IsAnswered now who step (S.world supervisor.old) (S.world supervisor.new) }
{
    orderly_laws();
    match runner.start(supervisor.command(who, step)) {
        Ok(child) => supervisor.event(Event::Started(who, step, child), now),
        Err(_) => supervisor.event(Event::Refused(who, step), now),
    }
}

/// Starts the step that was handed out, or skips it.
pub(crate) fn start_step<R: Runner, S: Supervise>(
    runner: &mut R,
    supervisor: &mut S,
    who: u32,
    step: Step,
    now: u64,
)
    requires now { (R.told runner.old ≡ now) × (now < 2 ^ 62) }
    requires from_state { (p : SessionState) × AsTold R.Runner runner.old (IsStarting p who step (S.world supervisor.old)) }
    ensures now { R.told runner.new ≡ now }
    ensures trace { (p : SessionState) → AsTold R.Runner runner.old (IsStarting p who step (S.world supervisor.old)) →
        (h : List TraceEvent) × ActsInTurn p h (R.list runner.old) (R.list runner.new)
        × AsTold R.Runner runner.new (IsInTurn (state_after p h) (S.world supervisor.new)) }
    ensures answered { IsAnswered now who step (S.world supervisor.old) (S.world supervisor.new) }
{
    if is_skipped(runner, supervisor, who, step) {
        supervisor.event(Event::Skipped(who, step), now);
        return;
    }
    launch(runner, supervisor, who, step, now);
}
