// What is due is done.
ghost use Rattle.std.specs.Prelude.{◌≡◌, ◌≤◌, ◌<◌, ◌+◌, ◌^◌, List, true, false, IfSome, IfNone};
ghost use Rattle.device.specs.Devices.{Device};
ghost use Rattle.histories.specs.TraceEvents.{TraceEvent};
ghost use Rattle.histories.specs.States.{SessionState, state_after};
ghost use Rattle.session_boots.specs.Stages.{AsTold};
ghost use Rattle.session_boots.specs.Traces.{ActTrace};
ghost use Rattle.law_termination.specs.Drives.{AreDriven};
ghost use Rattle.session_steady.specs.Failures.{changes, hears};
ghost use Rattle.session_steady.specs.Serves.{IsServing, SettledLeft};
ghost use Rattle.session_steady.specs.Stays.{IsKeptSteady};

use crate::acts::take_acts;
use components::Supervise;
use session_acts::pass;
use step_runner::Runner;

/// What taking every act came to.
#[derive(Clone, Copy, Debug, Drop, PartialEq, Eq)]
pub struct Settled {
    /// The moment, in milliseconds.
    pub now: u64,
    /// Whether a failure was handed out.
    pub failed: bool,
}

/// The moment at which a runner's clock stands still.
const LAST_MOMENT: u64 = (1 << 62) - 1;

/// Whether a runner's clock stands still from this moment on.
fn is_last(now: u64) -> bool
    ensures last { result ≡ true → now + 1 ≡ 2 ^ 62 }
    ensures early { result ≡ false → now < 2 ^ 62 → now + 1 < 2 ^ 62 }
{
    now == LAST_MOMENT
}

/// Asks for the moment and tells it, and takes every act that is due: steps are started, late ones are killed, and who failed
/// is tried again or breaks. Of that nothing is recorded and no line is written. Gives the moment, and whether one failed. At the clock's end, where
/// a step that has a limit is late as it starts and could be tried again for ever, no act is taken, and None is given.
pub fn settle<R: Runner, S: Supervise>(runner: &mut R, supervisor: &mut S) -> Option<Settled>
    requires drives { AreDriven (S.world supervisor.old) × ((S.world supervisor.old).steady ≡ true) }
    requires from_state { (p : SessionState) × (d : Device) × AsTold R.Runner runner.old (IsServing p d (S.world supervisor.old)) }
    ensures now { IfSome result (λ s. (R.told runner.new ≡ s.now) × (s.now + 1 < 2 ^ 62)) }
    ensures last { IfNone result (R.told runner.new + 1 ≡ 2 ^ 62) }
    ensures trace { (p : SessionState) → (d : Device) → AsTold R.Runner runner.old (IsServing p d (S.world supervisor.old)) →
        (h : List TraceEvent) × ActTrace p h (R.list runner.old) (R.list runner.new)
        × AsTold R.Runner runner.new (SettledLeft p result (state_after p h) d (S.world supervisor.new))
        × IfSome result (λ s. s.failed ≡ hears h) × (changes h ≡ false) }
    ensures stays { IsKeptSteady (S.world supervisor.old) (S.world supervisor.new) }
    ensures clock { R.clock runner.old ≤ R.told runner.new }
{
    let now = pass(runner, supervisor);
    if is_last(now) {
        return None;
    }
    let failed = take_acts(runner, supervisor, now);
    Some(Settled { now, failed })
}
