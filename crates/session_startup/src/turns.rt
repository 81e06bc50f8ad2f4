// One turn, and the turns of a stage.
ghost use Rattle.std.specs.Prelude.{◌≡◌, ◌≤◌, ◌<◌, ◌^◌, None, Some, true, false, IfOk, IsErrOf};
ghost use Rattle.nuc_base.specs.Faults.{Rose};
ghost use Rattle.histories.specs.States.{SessionState};
ghost use Rattle.session_boots.specs.Same.{IsSameDeployment};
ghost use Rattle.components.specs.Events.{later};
ghost use Rattle.law_termination.specs.Rank.{measure};
ghost use Rattle.law_termination.specs.Drives.{AreDriven, HasFewerLoops, NotAbove};
ghost use Rattle.session_startup.specs.Coming.{OwnsComing, coming_device, is_plan};
ghost use Rattle.session_startup.specs.Did.{ActLeft};
ghost use Rattle.session_startup.specs.Runs.{IsAtTurnStart, MayAbort, IsInTurn};
ghost use Rattle.session_startup.specs.Turns.{TurnLeft};
ghost use Rattle.deploy_state.specs.Objects.{OwnsOver, KeepsOthers};
ghost use Rattle.session_boots.specs.Stages.{AsTold, HasTrace};

use crate::coming::Coming;
use crate::failures::note_failure;
use crate::laws::driving_laws;
use crate::waits::wait_once;
use components::Supervise;
use disk_model::Disk;
use edges::Sink;
use gate_log::Journal;
use session_acts::{Did, act, pass};
use session_boots::SessionFault;
use step_runner::Runner;

/// What the turns of a stage come to.
#[derive(Clone, Copy, Debug, Drop, PartialEq, Eq)]
pub(crate) enum Turned {
    /// All components are up.
    Settled,
    /// A component failed three times.
    Broken,
}

/// Takes the next act, and records it where it is a failure. Answers whether none is left.
fn take_act<D: Disk, J: Journal + Drop, K: Sink, R: Runner, S: Supervise>(
    state: Coming<J>,
    disk: &mut D,
    sink: &mut K,
    runner: &mut R,
    supervisor: &mut S,
    now: u64,
) -> Result<(Coming<J>, bool), SessionFault>
    requires now { (R.told runner.old ≡ now) × (now < 2 ^ 62) }
    requires held { OwnsOver D.Disk J.Journal OwnsComing state disk.old }
    requires drives { AreDriven (S.world supervisor.old) }
    requires from_state { (p : SessionState) × AsTold R.Runner runner.old (IsInTurn p (S.world supervisor.old)) × (p.device ≡ coming_device state) }
    ensures now { R.told runner.new ≡ now }
    ensures trace { (p : SessionState) → AsTold R.Runner runner.old (IsInTurn p (S.world supervisor.old)) → (p.device ≡ coming_device state) →
        HasTrace D.Disk J.Journal K.Sink R.Runner disk.old disk.new sink.old sink.new runner.old runner.new p
        (λ s h q. AsTold R.Runner runner.new (ActLeft q (coming_device s.0) s.1 (S.world supervisor.new)))
        (λ q. AsTold R.Runner runner.new (MayAbort q (S.world supervisor.new))) result }
    ensures held { IfOk result (λ s. OwnsOver D.Disk J.Journal OwnsComing s.0 disk.new) }
    ensures same { IfOk result (λ s. is_plan s.0 ≡ is_plan state) }
    ensures deployment { IfOk result (λ s. IsSameDeployment (coming_device state) (coming_device s.0)) }
    ensures others { KeepsOthers D.Disk J.Journal disk.old disk.new }
    ensures disk { IsErrOf result SessionFault.Disk → Rose (D.faults disk.old) (D.faults disk.new) }
    ensures edge { IsErrOf result SessionFault.Output → Rose (K.faults sink.old) (K.faults sink.new) }
    ensures quiet_disk { ¬ (IsErrOf result SessionFault.Disk) → D.faults disk.new ≡ D.faults disk.old }
    ensures quiet_sink { ¬ (IsErrOf result SessionFault.Output) → K.faults sink.new ≡ K.faults sink.old }
    ensures not_above { NotAbove (S.world supervisor.old) (S.world supervisor.new) }
    ensures falls { IfOk result (λ s. s.1 ≡ false → HasFewerLoops (S.world supervisor.old) (S.world supervisor.new)) }
    ensures later { (D.faults disk.old ≤ D.faults disk.new) × (K.faults sink.old ≤ K.faults sink.new) }
{
    driving_laws();
    match act(runner, supervisor, now) {
        Did::Nothing => Ok((state, true)),
        Did::Something => Ok((state, false)),
        Did::Failed(who, step, exit) => {
            match note_failure(state, disk, sink, supervisor, who, step, exit) {
                Ok(next) => Ok((next, false)),
                Err(over) => Err(over),
            }
        }
    }
}

/// Takes acts until none is left.
fn take_acts<D: Disk, J: Journal + Drop, K: Sink, R: Runner, S: Supervise>(
    state: Coming<J>,
    disk: &mut D,
    sink: &mut K,
    runner: &mut R,
    supervisor: &mut S,
    now: u64,
) -> Result<Coming<J>, SessionFault>
    requires now { (R.told runner.old ≡ now) × (now < 2 ^ 62) }
    requires held { OwnsOver D.Disk J.Journal OwnsComing state disk.old }
    requires drives { AreDriven (S.world supervisor.old) }
    requires from_state { (p : SessionState) × AsTold R.Runner runner.old (IsInTurn p (S.world supervisor.old)) × (p.device ≡ coming_device state) }
    ensures now { R.told runner.new ≡ now }
    ensures trace { (p : SessionState) → AsTold R.Runner runner.old (IsInTurn p (S.world supervisor.old)) → (p.device ≡ coming_device state) →
        HasTrace D.Disk J.Journal K.Sink R.Runner disk.old disk.new sink.old sink.new runner.old runner.new p
        (λ s h q. AsTold R.Runner runner.new (ActLeft q (coming_device s) true (S.world supervisor.new)))
        (λ q. AsTold R.Runner runner.new (MayAbort q (S.world supervisor.new))) result }
    ensures held { IfOk result (λ s. OwnsOver D.Disk J.Journal OwnsComing s disk.new) }
    ensures same { IfOk result (λ s. is_plan s ≡ is_plan state) }
    ensures deployment { IfOk result (λ s. IsSameDeployment (coming_device state) (coming_device s)) }
    ensures others { KeepsOthers D.Disk J.Journal disk.old disk.new }
    ensures disk { IsErrOf result SessionFault.Disk → Rose (D.faults disk.old) (D.faults disk.new) }
    ensures edge { IsErrOf result SessionFault.Output → Rose (K.faults sink.old) (K.faults sink.new) }
    ensures quiet_disk { ¬ (IsErrOf result SessionFault.Disk) → D.faults disk.new ≡ D.faults disk.old }
    ensures quiet_sink { ¬ (IsErrOf result SessionFault.Output) → K.faults sink.new ≡ K.faults sink.old }
    ensures not_above { NotAbove (S.world supervisor.old) (S.world supervisor.new) }
    ensures later { (D.faults disk.old ≤ D.faults disk.new) × (K.faults sink.old ≤ K.faults sink.new) }
{
    let mut state = state;
    'acts: loop {
        match take_act(state, disk, sink, runner, supervisor, now) {
            Ok((next, none)) => {
                if none {
                    return Ok(next);
                }
                state = next;
            }
            Err(over) => return Err(over),
        }
    }
}

/// Asks for the moment, takes every act, and waits where there is something to wait for. Then a child ended, or time went on.
fn turn<D: Disk, J: Journal + Drop, K: Sink, R: Runner, S: Supervise>(
    state: Coming<J>,
    disk: &mut D,
    sink: &mut K,
    runner: &mut R,
    supervisor: &mut S,
) -> Result<(Coming<J>, Option<Turned>), SessionFault>
    requires held { OwnsOver D.Disk J.Journal OwnsComing state disk.old }
    requires drives { AreDriven (S.world supervisor.old) }
    requires from_state { (p : SessionState) × AsTold R.Runner runner.old (IsAtTurnStart p (coming_device state) (S.world supervisor.old)) }
    ensures trace { (p : SessionState) → AsTold R.Runner runner.old (IsAtTurnStart p (coming_device state) (S.world supervisor.old)) →
        HasTrace D.Disk J.Journal K.Sink R.Runner disk.old disk.new sink.old sink.new runner.old runner.new p
        (λ s h q. AsTold R.Runner runner.new (TurnLeft s.1 q (coming_device s.0) (S.world supervisor.new)))
        (λ q. AsTold R.Runner runner.new (MayAbort q (S.world supervisor.new))) result }
    ensures held { IfOk result (λ s. OwnsOver D.Disk J.Journal OwnsComing s.0 disk.new) }
    ensures same { IfOk result (λ s. is_plan s.0 ≡ is_plan state) }
    ensures deployment { IfOk result (λ s. IsSameDeployment (coming_device state) (coming_device s.0)) }
    ensures others { KeepsOthers D.Disk J.Journal disk.old disk.new }
    ensures disk { IsErrOf result SessionFault.Disk → Rose (D.faults disk.old) (D.faults disk.new) }
    ensures edge { IsErrOf result SessionFault.Output → Rose (K.faults sink.old) (K.faults sink.new) }
    ensures quiet_disk { ¬ (IsErrOf result SessionFault.Disk) → D.faults disk.new ≡ D.faults disk.old }
    ensures quiet_sink { ¬ (IsErrOf result SessionFault.Output) → K.faults sink.new ≡ K.faults sink.old }
    ensures drives { AreDriven (S.world supervisor.new) }
    ensures falls { IfOk result (λ s. s.1 ≡ None → measure (later (R.clock runner.new) (S.world supervisor.new)) < measure
        (later (R.clock runner.old) (S.world supervisor.old))) }
    ensures later { (D.faults disk.old ≤ D.faults disk.new) × (K.faults sink.old ≤ K.faults sink.new) }
{
    driving_laws();
    let now = pass(runner, supervisor);
    match take_acts(state, disk, sink, runner, supervisor, now) {
        Ok(next) => {
            if next.is_broken() {
                return Ok((next, Some(Turned::Broken)));
            }
            if supervisor.settled() {
                return Ok((next, Some(Turned::Settled)));
            }
            wait_once(runner, supervisor, now);
            Ok((next, None))
        }
        Err(over) => Err(over),
    }
}

/// Takes turns until all components are up or one failed three times, which it tells.
pub(crate) fn come_up<D: Disk, J: Journal + Drop, K: Sink, R: Runner, S: Supervise>(
    state: Coming<J>,
    disk: &mut D,
    sink: &mut K,
    runner: &mut R,
    supervisor: &mut S,
) -> Result<(Coming<J>, Turned), SessionFault>
    requires held { OwnsOver D.Disk J.Journal OwnsComing state disk.old }
    requires drives { AreDriven (S.world supervisor.old) }
    requires from_state { (p : SessionState) × AsTold R.Runner runner.old (IsAtTurnStart p (coming_device state) (S.world supervisor.old)) }
    ensures trace { (p : SessionState) → AsTold R.Runner runner.old (IsAtTurnStart p (coming_device state) (S.world supervisor.old)) →
        HasTrace D.Disk J.Journal K.Sink R.Runner disk.old disk.new sink.old sink.new runner.old runner.new p
        (λ s h q. AsTold R.Runner runner.new (TurnLeft (Some s.1) q (coming_device s.0) (S.world supervisor.new)))
        (λ q. AsTold R.Runner runner.new (MayAbort q (S.world supervisor.new))) result }
    ensures held { IfOk result (λ s. OwnsOver D.Disk J.Journal OwnsComing s.0 disk.new) }
    ensures same { IfOk result (λ s. is_plan s.0 ≡ is_plan state) }
    ensures deployment { IfOk result (λ s. IsSameDeployment (coming_device state) (coming_device s.0)) }
    ensures others { KeepsOthers D.Disk J.Journal disk.old disk.new }
    ensures disk { IsErrOf result SessionFault.Disk → Rose (D.faults disk.old) (D.faults disk.new) }
    ensures edge { IsErrOf result SessionFault.Output → Rose (K.faults sink.old) (K.faults sink.new) }
    ensures quiet_disk { ¬ (IsErrOf result SessionFault.Disk) → D.faults disk.new ≡ D.faults disk.old }
    ensures quiet_sink { ¬ (IsErrOf result SessionFault.Output) → K.faults sink.new ≡ K.faults sink.old }
    ensures drives { AreDriven (S.world supervisor.new) }
    ensures later { (D.faults disk.old ≤ D.faults disk.new) × (K.faults sink.old ≤ K.faults sink.new) }
{
    let mut state = state;
    'turns: loop {
        match turn(state, disk, sink, runner, supervisor) {
            Ok((next, turned)) => match turned {
                None => {
                    state = next;
                }
                Some(turned) => return Ok((next, turned)),
            },
            Err(over) => return Err(over),
        }
    }
}
