use lifecycle::{After, Component, LifeAct, LifeEvent, State, StepSet, life_laws};
use nuc_base::{Exit, Step};

/// An event, the act that it gives, and the state and the failures after it.
type Moved = (LifeEvent, LifeAct, State, u8);

const GOOD: Exit = Exit::Code(0);

const BAD: Exit = Exit::Code(1);

const NO_STEPS: StepSet = StepSet {
    install: false,
    run: false,
    startup: false,
    shutdown: false,
    recover: false,
};

const WITHOUT_STEPS: [Moved; 4] = [
    (LifeEvent::MayBegin, LifeAct::Nothing, State::Installed, 0),
    (LifeEvent::MayBegin, LifeAct::Nothing, State::Finished, 0),
    (
        LifeEvent::Stop(After::Restart),
        LifeAct::Nothing,
        State::Installed,
        0,
    ),
    (
        LifeEvent::Stop(After::Gone),
        LifeAct::Nothing,
        State::Installed,
        0,
    ),
];

const INSTALL_AND_RUN: [Moved; 21] = [
    (
        LifeEvent::MayBegin,
        LifeAct::Begin(Step::Install),
        State::New,
        0,
    ),
    (
        LifeEvent::Ended(Step::Install, GOOD),
        LifeAct::Nothing,
        State::Installed,
        0,
    ),
    (
        LifeEvent::MayBegin,
        LifeAct::Begin(Step::Run),
        State::Starting,
        0,
    ),
    (LifeEvent::Launched, LifeAct::Nothing, State::Running, 0),
    (
        LifeEvent::Ended(Step::Run, GOOD),
        LifeAct::Nothing,
        State::Finished,
        0,
    ),
    (
        LifeEvent::Stop(After::Again),
        LifeAct::Nothing,
        State::New,
        0,
    ),
    (
        LifeEvent::MayBegin,
        LifeAct::Begin(Step::Install),
        State::New,
        0,
    ),
    (LifeEvent::Skipped, LifeAct::Nothing, State::Installed, 0),
    (
        LifeEvent::MayBegin,
        LifeAct::Begin(Step::Run),
        State::Starting,
        0,
    ),
    (LifeEvent::Skipped, LifeAct::Nothing, State::Finished, 0),
    (
        LifeEvent::Stop(After::Restart),
        LifeAct::Nothing,
        State::Installed,
        0,
    ),
    (
        LifeEvent::MayBegin,
        LifeAct::Begin(Step::Run),
        State::Starting,
        0,
    ),
    (
        LifeEvent::Ended(Step::Run, Exit::NotStarted),
        LifeAct::Failed(Step::Run, Exit::NotStarted),
        State::Errored,
        1,
    ),
    (LifeEvent::Retry, LifeAct::Nothing, State::Installed, 1),
    (
        LifeEvent::MayBegin,
        LifeAct::Begin(Step::Run),
        State::Starting,
        1,
    ),
    (LifeEvent::Launched, LifeAct::Nothing, State::Running, 1),
    (
        LifeEvent::Ended(Step::Run, Exit::Signal),
        LifeAct::Failed(Step::Run, Exit::Signal),
        State::Errored,
        2,
    ),
    (
        LifeEvent::Stop(After::Restart),
        LifeAct::Nothing,
        State::Installed,
        2,
    ),
    (
        LifeEvent::MayBegin,
        LifeAct::Begin(Step::Run),
        State::Starting,
        2,
    ),
    (LifeEvent::Launched, LifeAct::Nothing, State::Running, 2),
    (
        LifeEvent::Stop(After::Restart),
        LifeAct::Kill,
        State::Installed,
        2,
    ),
];

const INSTALL_AND_RECOVER: [Moved; 13] = [
    (
        LifeEvent::MayBegin,
        LifeAct::Begin(Step::Install),
        State::New,
        0,
    ),
    (
        LifeEvent::Ended(Step::Install, BAD),
        LifeAct::Failed(Step::Install, BAD),
        State::Errored,
        1,
    ),
    (
        LifeEvent::Retry,
        LifeAct::Begin(Step::Recover),
        State::Errored,
        1,
    ),
    (LifeEvent::Skipped, LifeAct::Nothing, State::New, 1),
    (
        LifeEvent::MayBegin,
        LifeAct::Begin(Step::Install),
        State::New,
        1,
    ),
    (
        LifeEvent::Ended(Step::Install, Exit::TimedOut),
        LifeAct::Failed(Step::Install, Exit::TimedOut),
        State::Errored,
        2,
    ),
    (
        LifeEvent::Stop(After::Restart),
        LifeAct::Nothing,
        State::New,
        2,
    ),
    (
        LifeEvent::MayBegin,
        LifeAct::Begin(Step::Install),
        State::New,
        2,
    ),
    (
        LifeEvent::Ended(Step::Install, Exit::Lost),
        LifeAct::Broke(Step::Install, Exit::Lost),
        State::Broken,
        3,
    ),
    (
        LifeEvent::Stop(After::Restart),
        LifeAct::Nothing,
        State::Broken,
        3,
    ),
    (
        LifeEvent::Stop(After::Again),
        LifeAct::Nothing,
        State::New,
        0,
    ),
    (
        LifeEvent::MayBegin,
        LifeAct::Begin(Step::Install),
        State::New,
        0,
    ),
    (
        LifeEvent::Stop(After::Restart),
        LifeAct::Kill,
        State::New,
        0,
    ),
];

const STARTUP_AND_SHUTDOWN: [Moved; 15] = [
    (LifeEvent::MayBegin, LifeAct::Nothing, State::Installed, 0),
    (
        LifeEvent::MayBegin,
        LifeAct::Begin(Step::Startup),
        State::Starting,
        0,
    ),
    (
        LifeEvent::Ended(Step::Startup, BAD),
        LifeAct::Failed(Step::Startup, BAD),
        State::Errored,
        1,
    ),
    (
        LifeEvent::Retry,
        LifeAct::Begin(Step::Recover),
        State::Errored,
        1,
    ),
    (
        LifeEvent::Ended(Step::Recover, BAD),
        LifeAct::Nothing,
        State::Installed,
        1,
    ),
    (
        LifeEvent::MayBegin,
        LifeAct::Begin(Step::Startup),
        State::Starting,
        1,
    ),
    (LifeEvent::Skipped, LifeAct::Nothing, State::Running, 1),
    (
        LifeEvent::Stop(After::Restart),
        LifeAct::Begin(Step::Shutdown),
        State::Stopping,
        1,
    ),
    (
        LifeEvent::Ended(Step::Shutdown, BAD),
        LifeAct::Nothing,
        State::Installed,
        1,
    ),
    (
        LifeEvent::Stop(After::Again),
        LifeAct::Nothing,
        State::New,
        0,
    ),
    (LifeEvent::MayBegin, LifeAct::Nothing, State::Installed, 0),
    (
        LifeEvent::MayBegin,
        LifeAct::Begin(Step::Startup),
        State::Starting,
        0,
    ),
    (
        LifeEvent::Ended(Step::Startup, GOOD),
        LifeAct::Nothing,
        State::Running,
        0,
    ),
    (
        LifeEvent::Stop(After::Gone),
        LifeAct::Begin(Step::Shutdown),
        State::Stopping,
        0,
    ),
    (LifeEvent::Skipped, LifeAct::Nothing, State::Installed, 0),
];

const RUN_AND_SHUTDOWN: [Moved; 10] = [
    (LifeEvent::MayBegin, LifeAct::Nothing, State::Installed, 0),
    (
        LifeEvent::MayBegin,
        LifeAct::Begin(Step::Run),
        State::Starting,
        0,
    ),
    (LifeEvent::Launched, LifeAct::Nothing, State::Running, 0),
    (
        LifeEvent::Stop(After::Restart),
        LifeAct::Begin(Step::Shutdown),
        State::Stopping,
        0,
    ),
    (
        LifeEvent::Ended(Step::Shutdown, Exit::TimedOut),
        LifeAct::Kill,
        State::Installed,
        0,
    ),
    (
        LifeEvent::MayBegin,
        LifeAct::Begin(Step::Run),
        State::Starting,
        0,
    ),
    (LifeEvent::Launched, LifeAct::Nothing, State::Running, 0),
    (
        LifeEvent::Stop(After::Gone),
        LifeAct::Begin(Step::Shutdown),
        State::Stopping,
        0,
    ),
    (
        LifeEvent::Ended(Step::Run, GOOD),
        LifeAct::Nothing,
        State::Stopping,
        0,
    ),
    (
        LifeEvent::Ended(Step::Shutdown, GOOD),
        LifeAct::Nothing,
        State::Installed,
        0,
    ),
];

const TO_THE_SHUTDOWN: [Moved; 4] = [
    (LifeEvent::MayBegin, LifeAct::Nothing, State::Installed, 2),
    (
        LifeEvent::MayBegin,
        LifeAct::Begin(Step::Run),
        State::Starting,
        2,
    ),
    (LifeEvent::Launched, LifeAct::Nothing, State::Running, 2),
    (
        LifeEvent::Stop(After::Gone),
        LifeAct::Begin(Step::Shutdown),
        State::Stopping,
        2,
    ),
];

/// It was replaced in its shutdown: that stop ends as one with Restart, and the one with Again comes after it.
const REPLACED: [Moved; 2] = [
    (
        LifeEvent::Ended(Step::Shutdown, BAD),
        LifeAct::Kill,
        State::Installed,
        2,
    ),
    (
        LifeEvent::Stop(After::Again),
        LifeAct::Nothing,
        State::New,
        0,
    ),
];

/// Whether a component moves so.
fn moves(component: &mut Component, table: &[Moved]) -> bool {
    for &(event, act, state, failures) in table {
        if !component.awaits(event) || component.step(event) != act {
            return false;
        }
        if component.state() != state || component.failures() != failures {
            return false;
        }
    }
    true
}

/// Whether one with these steps moves so, and awaits a stop at the end.
fn stands_after(steps: StepSet, table: &[Moved]) -> Option<bool> {
    if steps.run && steps.startup {
        return None;
    }
    let mut component = Component::new(steps, 0);
    let moved = moves(&mut component, table);
    moved.then_some(component.awaits(LifeEvent::Stop(After::Gone)) && !component.is_gone())
}

/// One that took the steps and the failures of its next item.
fn renewed() -> Component {
    let mut component = Component::new(NO_STEPS, 2);
    component.step(LifeEvent::Stop(After::Again));
    component.renew(
        StepSet {
            run: true,
            shutdown: true,
            ..NO_STEPS
        },
        1,
    );
    component.forget();
    component
}

const RUN: StepSet = StepSet {
    run: true,
    ..NO_STEPS
};

const STARTUP: StepSet = StepSet {
    startup: true,
    shutdown: true,
    ..NO_STEPS
};

/// Steps, how a component with them moves, and whether it then awaits a stop.
const LIVES: &[(StepSet, &[Moved], bool)] = &[
    (NO_STEPS, &WITHOUT_STEPS, false),
    (
        StepSet {
            install: true,
            ..RUN
        },
        &INSTALL_AND_RUN,
        true,
    ),
    (
        StepSet {
            install: true,
            recover: true,
            ..NO_STEPS
        },
        &INSTALL_AND_RECOVER,
        true,
    ),
    (
        StepSet {
            recover: true,
            ..STARTUP
        },
        &STARTUP_AND_SHUTDOWN,
        false,
    ),
    (
        StepSet {
            shutdown: true,
            ..RUN
        },
        &RUN_AND_SHUTDOWN,
        false,
    ),
];

#[test]
fn each_row_of_the_table(rt: HostRuntime) {
    for (steps, table, stands) in LIVES {
        assert!(rt; stands_after(*steps, table) == Some(*stands), "{steps:?}");
    }
    life_laws();
}

#[test]
fn the_next_item_is_taken_after_a_stop(rt: HostRuntime) {
    let mut component = renewed();
    assert!(rt; component.failures() == 0);
    component.set_failures(2);
    assert!(rt; moves(&mut component, &TO_THE_SHUTDOWN));
    assert!(rt; component.busy() == Some(Step::Shutdown) && component.runs());
    if matches!(component.stop(), Some(After::Gone)) {
        component.replace_gone();
    }
    assert!(rt; moves(&mut component, &REPLACED));
}
