// One bootstrap step, with its records and its line.
ghost use Rattle.std.specs.Prelude.{◌≡◌, ◌≤◌, [], ℕ, List, true, false, is_some, IfOk, OnOk, OnErr, IsErrOf, Some};
ghost use Rattle.nuc_base.specs.Faults.{HasCause, Rose};
ghost use Rattle.device.specs.Lawful.{goes_on};
ghost use Rattle.deploy_state.specs.Fields.{CanBegin, next_name};
ghost use Rattle.deploy_state.specs.States.{device_of};
ghost use Rattle.edges.specs.Pieces.{WriteOutcome};
ghost use Rattle.records.specs.Stored.{BootEnded};
ghost use Rattle.step_runner.specs.Entries.{Told};
ghost use Rattle.components.specs.Components.{Components};
ghost use Rattle.histories.specs.Courses.{IsBare};
ghost use Rattle.histories.specs.TraceEvents.{TraceEvent, records_of};
ghost use Rattle.histories.specs.Phases.{duty_of};
ghost use Rattle.histories.specs.States.{SessionState, state_after};
ghost use Rattle.session_boots.specs.Booted.{BootTurnLeft};
ghost use Rattle.session_boots.specs.Lines.{line_of, lines_of};
ghost use Rattle.session_boots.specs.Made.{IsNextBoot};
ghost use Rattle.session_boots.specs.Staged.{OwnsStage};
ghost use Rattle.session_boots.specs.Ends.{IsOne, HasLines};
ghost use Rattle.session_boots.specs.Stands.{IsAtBootStage};
ghost use Rattle.session_boots.specs.Steps.{HasEnd};
ghost use Rattle.session_boots.specs.AfterBoot.{DeviceAfterBegin, DeviceAfterEnd, DeviceAfterBoot};
ghost use Rattle.deploy_state.specs.Objects.{OwnsOver, KeepsOthers};
ghost use Rattle.session_boots.specs.Stages.{AsTold, HasTrace, IsTraceOver, LeftOver};

use crate::ends::SessionFault;
use crate::lines::tell_failed_boot;
use crate::stage::BootStage;
use crate::steps::run_step;
use components::Prepared;
use disk_model::Disk;
use edges::{EdgeFault, Sink};
use gate_log::Journal;
use nuc_base::Exit;
use recipe_reader::recipe_laws;
use step_runner::Runner;

/// Records that the step begins that is next.
fn begin<S: BootStage<J>, D: Disk, J: Journal + Drop>(
    state: S,
    disk: &mut D,
) -> Result<S, SessionFault>
    requires held { OwnsOver D.Disk J.Journal (OwnsStage S.hand S.is_staged) state disk.old }
    requires may { CanBegin (device_of (S.hand state)) }
    // Where it gives up, no child lives.
    ensures trace { (p : SessionState) → (world : Components) → (told : Told) → (living : List ℕ) →
        IsAtBootStage p (device_of (S.hand state)) world told living → (h : List TraceEvent)
        × IsTraceOver D.Disk J.Journal disk.old disk.new told.list told.list p h
        × (lines_of p.device (records_of h) ≡ [])
        × LeftOver D.Disk J.Journal disk.new p h (λ s q. IsAtBootStage q (device_of (S.hand s)) world told living) result
        × OnErr result (IsBare (state_after p h)) × OnErr result (IsOne (records_of h)) }
    ensures begins { IfOk result (λ s. DeviceAfterBegin (device_of (S.hand state)) (device_of (S.hand s))) }
    ensures held { IfOk result (λ s. OwnsOver D.Disk J.Journal (OwnsStage S.hand S.is_staged) s disk.new) }
    ensures others { KeepsOthers D.Disk J.Journal disk.old disk.new }
    ensures disk { IsErrOf result SessionFault.Disk → Rose (D.faults disk.old) (D.faults disk.new) }
    ensures edge { IsErrOf result SessionFault.Output → ⊥ }
    ensures quiet { ¬ (IsErrOf result SessionFault.Disk) → D.faults disk.new ≡ D.faults disk.old }
    ensures later { D.faults disk.old ≤ D.faults disk.new }
{
    match state.begin(disk) {
        Ok(next) => Ok(next),
        Err(_) => Err(SessionFault::Disk),
    }
}

/// Whether the end is no failure.
fn goes_on(exit: Exit) -> bool
    ensures { result ≡ goes_on exit }
{
    match exit {
        Exit::Code(code) => code == 0 || code == 100 || code == 101,
        Exit::Signal | Exit::TimedOut | Exit::NotStarted | Exit::Lost => false,
    }
}

/// Prints the line of the end that was recorded, where it is a failure.
fn tell_end<S: BootStage<J>, J: Journal + Drop, K: Sink>(
    state: &S,
    sink: &mut K,
    exit: Exit,
) -> Result<(), EdgeFault>
    requires staged { S.is_staged state.now }
    ensures line { (name : List ℕ) → (goes_on exit ≡ false → next_name (device_of (S.hand state.now)) ≡ Some name) →
        WriteOutcome (K.held sink.old) (K.held sink.new) (line_of (device_of (S.hand state.now)) (BootEnded name exit)) result }
    ensures cause { HasCause (K.faults sink.old) (K.faults sink.new) result }
    ensures quiet { OnOk result (K.faults sink.new ≡ K.faults sink.old) }
{
    if goes_on(exit) {
        return Ok(());
    }
    let Some(pending) = &state.device().pending else {
        return Ok(());
    };
    match state.next() {
        Some(name) => tell_failed_boot(sink, &pending.plan.id, name, exit),
        None => Ok(()),
    }
}

/// Records how the step ended that was begun, and prints its line.
fn end<S: BootStage<J>, D: Disk, J: Journal + Drop, K: Sink>(
    state: S,
    disk: &mut D,
    sink: &mut K,
    exit: Exit,
) -> Result<S, SessionFault>
    requires held { OwnsOver D.Disk J.Journal (OwnsStage S.hand S.is_staged) state disk.old }
    requires next { is_some (duty_of (device_of (S.hand state))).next_bootstrap ≡ true }
    requires begun { (duty_of (device_of (S.hand state))).begun ≡ true }
    // Where it gives up, no child lives.
    ensures trace { (p : SessionState) → (world : Components) → (told : Told) → (living : List ℕ) →
        HasEnd p (device_of (S.hand state)) exit world told living → (h : List TraceEvent)
        × IsTraceOver D.Disk J.Journal disk.old disk.new told.list told.list p h
        × HasLines (K.held sink.old) (K.held sink.new) p.device (records_of h) result
        × LeftOver D.Disk J.Journal disk.new p h (λ s q. BootTurnLeft exit (records_of h) q (device_of (S.hand s)) world told living) result
        × OnErr result (IsBare (state_after p h)) }
    ensures ends { IfOk result (λ s. DeviceAfterEnd (device_of (S.hand state)) exit (device_of (S.hand s))) }
    ensures held { IfOk result (λ s. OwnsOver D.Disk J.Journal (OwnsStage S.hand S.is_staged) s disk.new) }
    ensures others { KeepsOthers D.Disk J.Journal disk.old disk.new }
    ensures disk { IsErrOf result SessionFault.Disk → Rose (D.faults disk.old) (D.faults disk.new) }
    ensures edge { IsErrOf result SessionFault.Output → Rose (K.faults sink.old) (K.faults sink.new) }
    ensures quiet_disk { ¬ (IsErrOf result SessionFault.Disk) → D.faults disk.new ≡ D.faults disk.old }
    ensures quiet_sink { ¬ (IsErrOf result SessionFault.Output) → K.faults sink.new ≡ K.faults sink.old }
    ensures later { (D.faults disk.old ≤ D.faults disk.new) × (K.faults sink.old ≤ K.faults sink.new) }
{
    match state.ended(disk, exit) {
        Ok(next) => match tell_end(&next, sink, exit) {
            Ok(()) => Ok(next),
            Err(_) => {
                drop(next);
                Err(SessionFault::Output)
            }
        },
        Err(_) => Err(SessionFault::Disk),
    }
}

/// Runs the bootstrap step that is next to its recorded end.
pub(crate) fn run_turn<S: BootStage<J>, D: Disk, J: Journal + Drop, K: Sink, R: Runner>(
    state: S,
    step: &Prepared,
    disk: &mut D,
    sink: &mut K,
    runner: &mut R,
) -> Result<(S, Exit), SessionFault>
    requires held { OwnsOver D.Disk J.Journal (OwnsStage S.hand S.is_staged) state disk.old }
    requires next { IsNextBoot (device_of (S.hand state)) step.now }
    requires from_state { (p : SessionState) × (world : Components) × AsTold R.Runner runner.old (IsAtBootStage p (device_of (S.hand state)) world) }
    // Where it gives up, no child lives.
    ensures trace { (p : SessionState) → (world : Components) → AsTold R.Runner runner.old (IsAtBootStage p (device_of (S.hand state)) world) →
        HasTrace D.Disk J.Journal K.Sink R.Runner disk.old disk.new sink.old sink.new runner.old runner.new p
        (λ x h q. AsTold R.Runner runner.new (BootTurnLeft x.1 (records_of h) q (device_of (S.hand x.0)) world))
        IsBare result }
    ensures none { R.living runner.new ≡ [] }
    ensures turns { IfOk result (λ x. DeviceAfterBoot (device_of (S.hand state)) x.1 (device_of (S.hand x.0))) }
    ensures held { IfOk result (λ x. OwnsOver D.Disk J.Journal (OwnsStage S.hand S.is_staged) x.0 disk.new) }
    ensures others { KeepsOthers D.Disk J.Journal disk.old disk.new }
    ensures disk { IsErrOf result SessionFault.Disk → Rose (D.faults disk.old) (D.faults disk.new) }
    ensures edge { IsErrOf result SessionFault.Output → Rose (K.faults sink.old) (K.faults sink.new) }
    ensures quiet_disk { ¬ (IsErrOf result SessionFault.Disk) → D.faults disk.new ≡ D.faults disk.old }
    ensures quiet_sink { ¬ (IsErrOf result SessionFault.Output) → K.faults sink.new ≡ K.faults sink.old }
    ensures later { (D.faults disk.old ≤ D.faults disk.new) × (K.faults sink.old ≤ K.faults sink.new) }
{
    let begun = match begin(state, disk) {
        Ok(begun) => begun,
        Err(over) => return Err(over),
    };
    // Each recipe gives its bootstrap step a limit.
    recipe_laws();
    let exit = run_step(runner, step);
    match end(begun, disk, sink, exit) {
        Ok(next) => Ok((next, exit)),
        Err(over) => Err(over),
    }
}
