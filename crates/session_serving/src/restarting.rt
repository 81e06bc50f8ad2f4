// What broke comes up again.
ghost use Rattle.std.specs.Prelude.{◌≡◌, ◌<◌, ◌+◌, ◌^◌, ℕ, None, IfOk, IfSome, IsSome, List as ListOf, OnErr, true};
ghost use Rattle.device.specs.Devices.{IsRegularDevice};
ghost use Rattle.device.specs.Sound.{IsSound};
ghost use Rattle.deploy_state.specs.States.{idle_device};
ghost use Rattle.step_runner.specs.Entries.{Told};
ghost use Rattle.components.specs.Answers.{broken_count};
ghost use Rattle.histories.specs.States.{SessionState, state_after};
ghost use Rattle.histories.specs.TraceEvents.{TraceEvent};
ghost use Rattle.session_boots.specs.Stages.{AsTold};
ghost use Rattle.session_boots.specs.Traces.{ActTrace};
ghost use Rattle.session_steady.specs.Serves.{IsAsking, IsServing, SettledLeft};
ghost use Rattle.session_serving.specs.Pauses.{CameLeft, IsPaced, StaysAsItIs, came_by, is_due, lengthened};
ghost use Rattle.session_serving.specs.States.{AreUp};

use crate::opening::open_set;
use crate::pauses::{Pause, is_due, lengthened, take_look};
use components::Supervise;
use deploy_state::Idle;
use gate_log::Journal;
use nuc_base::NoMemory;
use session_steady::{Settled, settle};
use std::alloc::Global;
use step_runner::Runner;

/// Whether what broke came up again.
#[derive(Clone, Copy, Debug, Drop, PartialEq, Eq)]
pub enum Came {
    Again,
    NotYet,
}

/// Where it is due the items of the set are to run once more: who is BROKEN is stopped for good and begins anew, and who needs
/// one of these hard is restarted. For want of memory all is as before.
fn come_again<J: Journal + Drop, S: Supervise>(
    alloc: Global,
    idle: &Idle<J>,
    pause: Pause,
    now: u64,
    supervisor: &mut S,
) -> Result<Came, NoMemory>
where
    S::Ready: Drop,
    requires sound { IsSound (idle_device idle.now) }
    requires regular { IsRegularDevice (idle_device idle.now) }
    requires origin { IsSome (idle_device idle.now).origin }
    requires pending { (idle_device idle.now).pending ≡ None }
    requires looked { pause.broken ≡ broken_count (S.world supervisor.old) }
    requires up { AreUp (idle_device idle.now) (S.world supervisor.old) }
    requires from_state { (p : SessionState) × (told : Told) × (living : ListOf ℕ) × IsAsking p (idle_device idle.now) (S.world supervisor.old) told living }
    // It comes up again exactly where that is due, unless there is no memory for it.
    ensures exact { IfOk result (λ came. came ≡ came_by (is_due pause now)) }
    ensures wanting { OnErr result (is_due pause now ≡ true) }
    ensures trace { IfOk result (λ came. (p : SessionState) → (told : Told) → (living : ListOf ℕ) →
        IsAsking p (idle_device idle.now) (S.world supervisor.old) told living →
        CameLeft came p (idle_device idle.now) (S.world supervisor.old) (S.world supervisor.new) told living) }
    ensures up { AreUp (idle_device idle.now) (S.world supervisor.new) }
    ensures refused { OnErr result (S.world supervisor.new ≡ S.world supervisor.old) }
{
    if !is_due(pause, now) {
        return Ok(Came::NotYet);
    }
    match open_set(alloc, idle, supervisor) {
        Ok(()) => Ok(Came::Again),
        Err(refused) => Err(refused),
    }
}

/// Takes every act that is due, and looks at what that left.
fn settle_and_look<J: Journal + Drop, R: Runner, S: Supervise>(
    idle: &Idle<J>,
    pause: &mut Pause,
    runner: &mut R,
    supervisor: &mut S,
) -> Option<Settled>
    requires up { AreUp (idle_device idle.now) (S.world supervisor.old) }
    requires from_state { (p : SessionState) × AsTold R.Runner runner.old (IsServing p (idle_device idle.now) (S.world supervisor.old)) }
    ensures now { IfSome result (λ s. (R.told runner.new ≡ s.now) × (s.now + 1 < 2 ^ 62)) }
    ensures trace { (p : SessionState) → AsTold R.Runner runner.old (IsServing p (idle_device idle.now) (S.world supervisor.old)) →
        (h : ListOf TraceEvent) × ActTrace p h (R.list runner.old) (R.list runner.new)
        × AsTold R.Runner runner.new (SettledLeft p result (state_after p h) (idle_device idle.now) (S.world supervisor.new))
        × IfSome result (λ s. StaysAsItIs pause.old pause.new s.now p h) }
    ensures broken { IfSome result (λ s. pause.new.broken ≡ broken_count (S.world supervisor.new)) }
    ensures up { AreUp (idle_device idle.now) (S.world supervisor.new) }
{
    match settle(runner, supervisor) {
        Some(settled) => {
            *pause = take_look(*pause, idle, settled, supervisor);
            Some(settled)
        }
        None => None,
    }
}

/// Behind what came up again takes every act that is due. The next pause is longer.
fn settle_once_more<J: Journal + Drop, R: Runner, S: Supervise>(
    idle: &Idle<J>,
    pause: &mut Pause,
    runner: &mut R,
    supervisor: &mut S,
) -> Option<Settled>
    requires up { AreUp (idle_device idle.now) (S.world supervisor.old) }
    requires from_state { (p : SessionState) × AsTold R.Runner runner.old (IsServing p (idle_device idle.now) (S.world supervisor.old)) }
    ensures now { IfSome result (λ s. (R.told runner.new ≡ s.now) × (s.now + 1 < 2 ^ 62)) }
    ensures trace { (p : SessionState) → AsTold R.Runner runner.old (IsServing p (idle_device idle.now) (S.world supervisor.old)) →
        (h : ListOf TraceEvent) × ActTrace p h (R.list runner.old) (R.list runner.new)
        × AsTold R.Runner runner.new (SettledLeft p result (state_after p h) (idle_device idle.now) (S.world supervisor.new))
        × IfSome result (λ s. StaysAsItIs (lengthened pause.old) pause.new s.now p h) }
    ensures up { AreUp (idle_device idle.now) (S.world supervisor.new) }
{
    *pause = lengthened(*pause);
    settle_and_look(idle, pause, runner, supervisor)
}

/// Takes every act that is due. Then what broke comes up again, where that is due, and every act is taken once more. Where there
/// is no memory for that it is tried again in the next turn.
pub(crate) fn settle_turn<J: Journal + Drop, R: Runner, S: Supervise>(
    alloc: Global,
    idle: &Idle<J>,
    pause: &mut Pause,
    runner: &mut R,
    supervisor: &mut S,
) -> Option<Settled>
where
    S::Ready: Drop,
    requires sound { IsSound (idle_device idle.now) }
    requires regular { IsRegularDevice (idle_device idle.now) }
    requires origin { IsSome (idle_device idle.now).origin }
    requires pending { (idle_device idle.now).pending ≡ None }
    requires up { AreUp (idle_device idle.now) (S.world supervisor.old) }
    requires from_state { (p : SessionState) × AsTold R.Runner runner.old (IsServing p (idle_device idle.now) (S.world supervisor.old)) }
    ensures now { IfSome result (λ s. (R.told runner.new ≡ s.now) × (s.now + 1 < 2 ^ 62)) }
    ensures trace { (p : SessionState) → AsTold R.Runner runner.old (IsServing p (idle_device idle.now) (S.world supervisor.old)) →
        (h : ListOf TraceEvent) × ActTrace p h (R.list runner.old) (R.list runner.new)
        × AsTold R.Runner runner.new (SettledLeft p result (state_after p h) (idle_device idle.now) (S.world supervisor.new))
        × IfSome result (λ s. IsPaced pause.old pause.new s.now p h) }
    ensures up { AreUp (idle_device idle.now) (S.world supervisor.new) }
{
    match settle_and_look(idle, pause, runner, supervisor) {
        Some(settled) => match come_again(alloc, idle, *pause, settled.now, supervisor) {
            Ok(came) => match came {
                Came::Again => settle_once_more(idle, pause, runner, supervisor),
                Came::NotYet => Some(settled),
            },
            Err(_) => Some(settled),
        },
        None => None,
    }
}
