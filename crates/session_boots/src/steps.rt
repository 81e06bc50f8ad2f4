// The run of one bootstrap step, from its probe to its end.
ghost use Rattle.std.specs.Prelude.{◌≡◌, ◌≤◌, ◌+◌, ◌-◌, ◌<◌, ◌^◌, [], ◌∷◌, ℕ, List, true, false, pos, Some};
ghost use Rattle.std.specs.Option.{IsSomeAnd};
ghost use Rattle.step_runner.specs.Entries.{Listed, HasNoted};
ghost use Rattle.components.specs.Deadlines.{deadline_after};
ghost use Rattle.components.specs.declared.kinds.Prepared.{Prepared as PreparedStep};
ghost use Rattle.histories.specs.TraceEvents.{TraceEvent};
ghost use Rattle.histories.specs.States.{SessionState, state_after};
ghost use Rattle.histories.specs.Phases.{duty_of};
ghost use Rattle.histories.specs.Follows.{MayBoot};
ghost use Rattle.session_boots.specs.Steps.{IsAlive, IsEnded, IsProbed, MayProbe, MayStart, MayStep, probe_seen};
ghost use Rattle.session_boots.specs.Traces.{ActTrace};

use components::Prepared;
use nuc_base::Exit;
use recipe_reader::Skip;
use step_runner::{Runner, Waited};

/// What the probe says, which is asked once.
pub fn probes<R: Runner>(runner: &mut R, skip: &Skip) -> bool
    ensures notes { HasNoted (Listed R.list R.told R.asked runner.old) (Listed R.list R.told R.asked runner.new) (probe_seen skip.now result) }
    ensures lives { R.living runner.new ≡ R.living runner.old }
{
    match skip {
        Skip::Exists(path) => runner.exists(path),
        Skip::OnPath(word) => runner.on_path(word),
    }
}

/// Whether the step is to be skipped, which its probe says.
fn is_skipped<R: Runner>(runner: &mut R, step: &Prepared) -> bool
    ensures skipped { result ≡ true → (p : SessionState) → MayProbe p step.now (Listed R.list R.told R.asked runner.old) →
        (h : List TraceEvent) × ActTrace p h (R.list runner.old) (R.list runner.new)
        × IsEnded p (state_after p h) (Exit.Code (pos 0)) (Listed R.list R.told R.asked runner.new) }
    ensures starts { result ≡ false → (p : SessionState) → MayProbe p step.now (Listed R.list R.told R.asked runner.old) →
        (h : List TraceEvent) × ActTrace p h (R.list runner.old) (R.list runner.new)
        × MayStart (state_after p h) step.now (Listed R.list R.told R.asked runner.new) ×
        IsProbed p (state_after p h) (Listed R.list R.told R.asked runner.new) }
    ensures moment { R.told runner.new ≡ R.told runner.old }
    ensures lives { R.living runner.new ≡ R.living runner.old }
{
    match &step.skip {
        Some(skip) => probes(runner, skip),
        None => false,
    }
}

/// The end of the only child that lives. At its deadline it is killed.
fn await_end<R: Runner>(runner: &mut R, child: u64, deadline: u64, now: u64) -> Exit
    requires alone { R.living runner.old ≡ child ∷ [] }
    requires now { R.told runner.old ≡ now }
    requires near { deadline ≤ now + 1000000000 }
    requires in_time { deadline < 2 ^ 62 }
    ensures trace { (p : SessionState) → (made : PreparedStep) → IsAlive p child deadline (Listed R.list R.told R.asked runner.old) →
        (h : List TraceEvent) × ActTrace p h (R.list runner.old) (R.list runner.new) ×
        IsEnded p (state_after p h) result (Listed R.list R.told R.asked runner.new) }
    ensures none { R.living runner.new ≡ [] }
    ensures later { R.told runner.old ≤ R.told runner.new }
{
    if deadline <= now {
        runner.kill(child);
        return Exit::TimedOut;
    }
    match runner.wait(deadline - now) {
        Waited::Ended(_, exit) => exit,
        Waited::Elapsed => {
            // The time has passed, or stands still at its end.
            let _now = runner.moment();
            runner.kill(child);
            Exit::TimedOut
        }
    }
}

/// Until when the step may take that is started now.
fn deadline_of(step: &Prepared, now: u64) -> u64
    requires now { now < 2 ^ 62 }
    requires limit { IsSomeAnd step.now.limit_ms (λ l. l ≤ 1000000000) }
    ensures deadline { deadline_after step.now.limit_ms now ≡ Some result }
    ensures near { result ≤ now + 1000000000 }
    ensures in_time { result < 2 ^ 62 }
{
    let limit = match step.limit_ms {
        Some(limit) => limit,
        None => 0,
    };
    (now + limit).min((1 << 62) - 1)
}

/// How the bootstrap step ends that is run now: skipped, refused, ended, or killed at its deadline.
pub fn run_step<R: Runner>(runner: &mut R, step: &Prepared) -> Exit
    requires none { R.living runner.old ≡ [] }
    requires limit { IsSomeAnd step.now.limit_ms (λ l. l ≤ 1000000000) }
    ensures trace { (p : SessionState) → MayStep p step.now (Listed R.list R.told R.asked runner.old) →
        (h : List TraceEvent) × ActTrace p h (R.list runner.old) (R.list runner.new) ×
        IsEnded p (state_after p h) result (Listed R.list R.told R.asked runner.new) }
    ensures none { R.living runner.new ≡ [] }
    ensures later { R.told runner.old ≤ R.told runner.new }
{
    let now = runner.moment();
    if is_skipped(runner, step) {
        return Exit::Code(0);
    }
    match runner.start(&step.command) {
        Ok(child) => {
            let deadline = deadline_of(step, now);
            await_end(runner, child, deadline, now)
        }
        Err(_) => Exit::NotStarted,
    }
}
