// One act, and all that are due.
ghost use Rattle.std.specs.Prelude.{◌≡◌, ◌<◌, ◌+◌, ◌^◌, ◌||◌, List, true, false};
ghost use Rattle.histories.specs.Phases.{duty_of, is_idle};
ghost use Rattle.histories.specs.TraceEvents.{TraceEvent};
ghost use Rattle.histories.specs.States.{SessionState, state_after};
ghost use Rattle.session_boots.specs.Stages.{AsTold};
ghost use Rattle.session_boots.specs.Traces.{ActTrace};
ghost use Rattle.law_termination.specs.Drives.{AreDriven};
ghost use Rattle.session_acts.specs.Runs.{IsInTurn};
ghost use Rattle.session_steady.specs.Acting.{ActLeft};
ghost use Rattle.session_steady.specs.Failures.{changes, hears};
ghost use Rattle.session_steady.specs.Runs.{IsSince};
ghost use Rattle.session_steady.specs.Stays.{IsCalmer, IsNoWilder};

use components::Supervise;
use session_acts::{Did, act, orderly_laws};
use step_runner::Runner;

/// Takes the next act. Answers whether there was none. Of a failure nothing is recorded and nothing is said: the supervisor
/// counts it, and tries again or breaks the component. That one was handed out is noted.
fn take_act<R: Runner, S: Supervise>(
    runner: &mut R,
    supervisor: &mut S,
    now: u64,
    failed: &mut bool,
) -> bool
    requires now { (R.told runner.old ≡ now) × (now + 1 < 2 ^ 62) }
    requires drives { AreDriven (S.world supervisor.old) × ((S.world supervisor.old).steady ≡ true) }
    requires from_state { (p : SessionState) × AsTold R.Runner runner.old (IsInTurn p (S.world supervisor.old))
        × (is_idle (duty_of p.device).phase ≡ true) }
    ensures now { R.told runner.new ≡ now }
    ensures trace { (p : SessionState) → AsTold R.Runner runner.old (IsInTurn p (S.world supervisor.old)) → is_idle (duty_of p.device).phase ≡ true →
        (h : List TraceEvent) × ActTrace p h (R.list runner.old) (R.list runner.new) × IsSince p (state_after p h)
        × AsTold R.Runner runner.new (ActLeft (state_after p h) result (S.world supervisor.new)) × (failed.new ≡ (hears h || failed.old))
        × (changes h ≡ false) }
    ensures no_wilder { IsNoWilder (S.world supervisor.old) (S.world supervisor.new) }
    ensures calms { result ≡ false → IsCalmer (S.world supervisor.old) (S.world supervisor.new) }
{
    orderly_laws();
    match act(runner, supervisor, now) {
        Did::Nothing => true,
        Did::Something => false,
        Did::Failed(_who, _step, _exit) => {
            *failed = true;
            false
        }
    }
}

/// Takes acts until none is left. Answers whether a failure was handed out.
pub(crate) fn take_acts<R: Runner, S: Supervise>(
    runner: &mut R,
    supervisor: &mut S,
    now: u64,
) -> bool
    requires now { (R.told runner.old ≡ now) × (now + 1 < 2 ^ 62) }
    requires drives { AreDriven (S.world supervisor.old) × ((S.world supervisor.old).steady ≡ true) }
    requires from_state { (p : SessionState) × AsTold R.Runner runner.old (IsInTurn p (S.world supervisor.old))
        × (is_idle (duty_of p.device).phase ≡ true) }
    ensures now { R.told runner.new ≡ now }
    ensures trace { (p : SessionState) → AsTold R.Runner runner.old (IsInTurn p (S.world supervisor.old)) → is_idle (duty_of p.device).phase ≡ true →
        (h : List TraceEvent) × ActTrace p h (R.list runner.old) (R.list runner.new) × IsSince p (state_after p h)
        × AsTold R.Runner runner.new (ActLeft (state_after p h) true (S.world supervisor.new)) × (result ≡ hears h)
        × (changes h ≡ false) }
    ensures no_wilder { IsNoWilder (S.world supervisor.old) (S.world supervisor.new) }
{
    let mut failed = false;
    'acts: loop {
        if take_act(runner, supervisor, now, &mut failed) {
            return failed;
        }
    }
}
