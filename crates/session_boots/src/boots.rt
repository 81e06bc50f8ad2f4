// The bootstrap steps of a stage, one after another.
ghost use Rattle.std.specs.Prelude.{◌≡◌, [], is_none, None, IfOk, IfSome, IsErrOf, option_map, slice_get};
ghost use Rattle.nuc_base.specs.Faults.{Rose};
ghost use Rattle.deploy_state.specs.States.{OwnsBacked, OwnsBacking, OwnsBooting, backed_device, backing_device, booting_device, device_of};
ghost use Rattle.components.specs.Components.{Components};
ghost use Rattle.histories.specs.Courses.{IsBare};
ghost use Rattle.histories.specs.TraceEvents.{records_of};
ghost use Rattle.histories.specs.Phases.{duty_of};
ghost use Rattle.histories.specs.States.{SessionState};
ghost use Rattle.session_boots.specs.Booted.{BootsLeft, restart_of};
ghost use Rattle.session_boots.specs.Made.{AreMade, AreMadeAgain, AreStageBoots, IsNextBoot};
ghost use Rattle.session_boots.specs.Staged.{OwnsStage};
ghost use Rattle.session_boots.specs.Stands.{IsAtBootStage};
ghost use Rattle.deploy_state.specs.Objects.{OwnsOver, KeepsOthers};
ghost use Rattle.session_boots.specs.Stages.{AsTold, HasTrace};

use crate::ends::{Booted, SessionFault};
use crate::stage::BootStage;
use crate::turns::run_turn;
use components::Prepared;
use deploy_state::{Backed, Backing, Booting};
use disk_model::Disk;
use edges::Sink;
use gate_log::Journal;
use nuc_base::Exit;
use step_runner::Runner;

/// Whether no bootstrap step comes next.
fn is_through<S: BootStage<J>, J: Journal + Drop>(state: &S) -> bool
    requires { S.is_staged state.now }
    ensures { result ≡ is_none (duty_of (device_of (S.hand state.now))).next_bootstrap }
{
    state.failed() || state.next().is_none()
}

/// The prepared step at this place, where there is one.
fn step_at(made: &[Prepared], at: u32) -> Option<&Prepared>
    ensures { option_map (λ m. m.now) result ≡ slice_get made.now at }
{
    match made.get(at as usize) {
        Some(step) => Some(step),
        None => None,
    }
}

/// The bootstrap step that is next.
fn next_step<'a, S: BootStage<J>, J: Journal + Drop>(
    state: &S,
    made: &'a [Prepared],
) -> Option<&'a Prepared>
    requires staged { S.is_staged state.now }
    requires made { AreStageBoots (device_of (S.hand state.now)) made.now }
    ensures next { IfSome result (λ step. IsNextBoot (device_of (S.hand state.now)) step.now) }
    ensures none { result ≡ None → (duty_of (device_of (S.hand state.now))).next_bootstrap ≡ None }
{
    if is_through(state) {
        return None;
    }
    match &state.device().pending {
        Some(pending) => step_at(made, pending.ended),
        None => None,
    }
}

/// The end of the call for which the end of a step asks, which may be the last one.
fn restart_of(exit: Exit, is_last: bool) -> Option<Booted>
    ensures { result ≡ restart_of exit is_last }
{
    let Exit::Code(code) = exit else {
        return None;
    };
    if code == 100 {
        return Some(Booted::Restart);
    }
    if code == 101 {
        return Some(Booted::Reboot);
    }
    if code == 0 && is_last {
        return Some(Booted::Restart);
    }
    None
}

/// Runs the bootstrap steps of the stage, one after another, from the first that is not ended.
fn run_stage<S: BootStage<J>, D: Disk, J: Journal + Drop, K: Sink, R: Runner>(
    state: S,
    made: &[Prepared],
    disk: &mut D,
    sink: &mut K,
    runner: &mut R,
) -> Result<(S, Booted), SessionFault>
    requires held { OwnsOver D.Disk J.Journal (OwnsStage S.hand S.is_staged) state disk.old }
    requires made { AreStageBoots (device_of (S.hand state)) made.now }
    requires from_state { (p : SessionState) × (world : Components) × AsTold R.Runner runner.old (IsAtBootStage p (device_of (S.hand state)) world) }
    // Where it gives up, no child lives.
    ensures trace { (p : SessionState) → (world : Components) → AsTold R.Runner runner.old (IsAtBootStage p (device_of (S.hand state)) world) →
        HasTrace D.Disk J.Journal K.Sink R.Runner disk.old disk.new sink.old sink.new runner.old runner.new p
        (λ x h q. AsTold R.Runner runner.new (BootsLeft x.1 (records_of h) q (device_of (S.hand x.0)) world))
        IsBare result }
    ensures none { R.living runner.new ≡ [] }
    ensures held { IfOk result (λ x. OwnsOver D.Disk J.Journal (OwnsStage S.hand S.is_staged) x.0 disk.new) }
    ensures others { KeepsOthers D.Disk J.Journal disk.old disk.new }
    ensures disk { IsErrOf result SessionFault.Disk → Rose (D.faults disk.old) (D.faults disk.new) }
    ensures edge { IsErrOf result SessionFault.Output → Rose (K.faults sink.old) (K.faults sink.new) }
    ensures quiet_disk { ¬ (IsErrOf result SessionFault.Disk) → D.faults disk.new ≡ D.faults disk.old }
    ensures quiet_sink { ¬ (IsErrOf result SessionFault.Output) → K.faults sink.new ≡ K.faults sink.old }
{
    let mut state = state;
    'steps: while let Some(step) = next_step(&state, made) {
        let (next, exit) = match run_turn(state, step, disk, sink, runner) {
            Ok(turned) => turned,
            Err(over) => return Err(over),
        };
        state = next;
        if let Some(end) = restart_of(exit, is_through(&state)) {
            return Ok((state, end));
        }
    }
    if state.failed() {
        return Ok((state, Booted::Failed));
    }
    Ok((state, Booted::Through))
}

/// Runs the bootstrap steps of the pending plan, one after another, from the first that is not ended: until none is left,
/// one failed, or one's end asks that the call ends. The steps are given by their places in the plan.
pub fn run_boots<D: Disk, J: Journal + Drop, K: Sink, R: Runner>(
    state: Booting<J>,
    made: &[Prepared],
    disk: &mut D,
    sink: &mut K,
    runner: &mut R,
) -> Result<(Booting<J>, Booted), SessionFault>
    requires held { OwnsOver D.Disk J.Journal OwnsBooting state disk.old }
    requires made { AreMade (booting_device state) made.now }
    requires from_state { (p : SessionState) × (world : Components) × AsTold R.Runner runner.old (IsAtBootStage p (booting_device state) world) }
    // Where it gives up, no child lives.
    ensures trace { (p : SessionState) → (world : Components) → AsTold R.Runner runner.old (IsAtBootStage p (booting_device state) world) →
        HasTrace D.Disk J.Journal K.Sink R.Runner disk.old disk.new sink.old sink.new runner.old runner.new p
        (λ x h q. AsTold R.Runner runner.new (BootsLeft x.1 (records_of h) q (booting_device x.0) world))
        IsBare result }
    ensures none { R.living runner.new ≡ [] }
    ensures held { IfOk result (λ x. OwnsOver D.Disk J.Journal OwnsBooting x.0 disk.new) }
    ensures others { KeepsOthers D.Disk J.Journal disk.old disk.new }
    ensures disk { IsErrOf result SessionFault.Disk → Rose (D.faults disk.old) (D.faults disk.new) }
    ensures edge { IsErrOf result SessionFault.Output → Rose (K.faults sink.old) (K.faults sink.new) }
    ensures quiet_disk { ¬ (IsErrOf result SessionFault.Disk) → D.faults disk.new ≡ D.faults disk.old }
    ensures quiet_sink { ¬ (IsErrOf result SessionFault.Output) → K.faults sink.new ≡ K.faults sink.old }
{
    run_stage(state, made, disk, sink, runner)
}

/// Runs the bootstrap steps that run again on the way back, one after another, from the first that is not ended: until none
/// is left, one failed, or one's end asks that the call ends. The steps are given by their places among them. Behind the
/// last good end the items of the set are to be brought up.
pub fn run_rollback_boots<D: Disk, J: Journal + Drop, K: Sink, R: Runner>(
    state: Backing<J>,
    made: &[Prepared],
    disk: &mut D,
    sink: &mut K,
    runner: &mut R,
) -> Result<(Backed<J>, Booted), SessionFault>
    requires held { OwnsOver D.Disk J.Journal OwnsBacking state disk.old }
    requires made { AreMadeAgain (backing_device state) made.now }
    requires from_state { (p : SessionState) × (world : Components) × AsTold R.Runner runner.old (IsAtBootStage p (backing_device state) world) }
    // Where it gives up, no child lives.
    ensures trace { (p : SessionState) → (world : Components) → AsTold R.Runner runner.old (IsAtBootStage p (backing_device state) world) →
        HasTrace D.Disk J.Journal K.Sink R.Runner disk.old disk.new sink.old sink.new runner.old runner.new p
        (λ x h q. AsTold R.Runner runner.new (BootsLeft x.1 (records_of h) q (backed_device x.0) world))
        IsBare result }
    ensures none { R.living runner.new ≡ [] }
    ensures held { IfOk result (λ x. OwnsOver D.Disk J.Journal OwnsBacked x.0 disk.new) }
    ensures others { KeepsOthers D.Disk J.Journal disk.old disk.new }
    ensures disk { IsErrOf result SessionFault.Disk → Rose (D.faults disk.old) (D.faults disk.new) }
    ensures edge { IsErrOf result SessionFault.Output → Rose (K.faults sink.old) (K.faults sink.new) }
    ensures quiet_disk { ¬ (IsErrOf result SessionFault.Disk) → D.faults disk.new ≡ D.faults disk.old }
    ensures quiet_sink { ¬ (IsErrOf result SessionFault.Output) → K.faults sink.new ≡ K.faults sink.old }
{
    run_stage(Backed::Backing(state), made, disk, sink, runner)
}
