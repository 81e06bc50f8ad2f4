// A call gives up, or goes on.
ghost use Rattle.std.specs.Prelude.{◌≡◌, [], Bool, List, true, false};
ghost use Rattle.nuc_base.specs.declared.status.Status.TheVariants as statuses;
ghost use Rattle.deploy_state.specs.States.{idle_device};
ghost use Rattle.histories.specs.Courses.{IsBare, gives_up, is_restart};
ghost use Rattle.histories.specs.Phases.{Generation};
ghost use Rattle.histories.specs.TraceEvents.{TraceEvent};
ghost use Rattle.histories.specs.States.{SessionState, state_after};
ghost use Rattle.session_boots.specs.Traces.{ActTrace};
ghost use Rattle.session_boots.specs.Stages.{AsTold};
ghost use Rattle.session_transitions.specs.Kills.{KeepsRest};
ghost use Rattle.session.specs.Parts.{IsGeneration, IsOver, IsReturned, IsUnbegun, MayGiveUp, RanLeft, came_of, must_end};

use crate::ran::{Ran, Standing};
use components::Supervise;
use deploy_state::Idle;
use gate_log::Journal;
use nuc_base::Status;
use session_transitions::kill_all;
use step_runner::Runner;

/// Whether a call that ends with the status gives up.
pub(crate) fn gives_up(status: Status) -> bool
    ensures { result ≡ gives_up status }
{
    matches!(status, Status::Disk | Status::Edge | Status::Memory)
}

/// Whether a call cannot go on with the status: a line could not be written, or the disk failed after a close.
fn must_end(status: Status, standing: Standing) -> bool
    ensures { result ≡ must_end status standing }
{
    match status {
        Status::Edge => true,
        Status::Disk => match standing {
            Standing::AsBefore => false,
            Standing::OfSet | Standing::Nobody => true,
        },
        _ => false,
    }
}

/// Kills all children that live, where they are.
pub(crate) fn kill_standing<R: Runner, S: Supervise>(runner: &mut R, supervisor: &S)
    requires from_state { (p : SessionState) × AsTold R.Runner runner.old (MayGiveUp p (S.world supervisor.now)) }
    // Where no component stands nothing is done.
    ensures trace { (p : SessionState) → AsTold R.Runner runner.old (MayGiveUp p (S.world supervisor.now)) →
        (k : List TraceEvent) × ActTrace p k (R.list runner.old) (R.list runner.new) × IsUnbegun p k × KeepsRest p (state_after p k) ×
        IsBare (state_after p k) }
    ensures none { R.living runner.new ≡ [] }
{
    if supervisor.stopped() {
        return;
    }
    kill_all(runner, supervisor);
}

/// Ends the call with a status by which it gives up: all children that live are killed, where they are.
pub(crate) fn give_up<J: Journal + Drop, R: Runner, S: Supervise>(
    status: Status,
    runner: &mut R,
    supervisor: &S,
) -> Ran<J>
    requires from_state { (p : SessionState) × AsTold R.Runner runner.old (MayGiveUp p (S.world supervisor.now)) }
    // Where no component stands nothing is done.
    ensures trace { (p : SessionState) → AsTold R.Runner runner.old (MayGiveUp p (S.world supervisor.now)) →
        (k : List TraceEvent) × ActTrace p k (R.list runner.old) (R.list runner.new) × IsUnbegun p k × KeepsRest p (state_after p k) ×
        IsBare (state_after p k) }
    ensures none { R.living runner.new ≡ [] }
    ensures over { result ≡ Ran.Over status }
{
    kill_standing(runner, supervisor);
    Ran::Over(status)
}

/// Comes back with the status, the device in hand, and the components as they are. Where the call cannot go on with the status,
/// it ends, and all children that live are killed, where they are.
pub(crate) fn back_or_over<J: Journal + Drop, R: Runner, S: Supervise>(
    idle: Idle<J>,
    status: Status,
    standing: Standing,
    runner: &mut R,
    supervisor: &S,
) -> Ran<J>
    requires other { is_restart status ≡ false }
    requires from_state { (p : SessionState) × AsTold R.Runner runner.old (IsReturned p (idle_device idle) (S.world supervisor.now)) }
    ensures trace { (p : SessionState) → (before : Generation) → AsTold R.Runner runner.old (IsReturned p (idle_device idle) (S.world supervisor.now)) →
        IsGeneration standing before p.generation →
        (k : List TraceEvent) × ActTrace p k (R.list runner.old) (R.list runner.new) × IsUnbegun p k ×
        ((rose : Bool) → AsTold R.Runner runner.new (RanLeft before result rose (state_after p k) (S.world supervisor.now))) }
    ensures none { IsOver result → R.living runner.new ≡ [] }
    ensures exact { result ≡ came_of idle status standing }
{
    if must_end(status, standing) {
        drop(idle);
        return give_up(status, runner, supervisor);
    }
    Ran::Back(idle, status, standing)
}
