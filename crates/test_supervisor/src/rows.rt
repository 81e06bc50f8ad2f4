// What an event makes of one component of the model.
use crate::model::{Part, Plain};
use lifecycle::{After, LifeEvent, State};
use nuc_base::{Exit, Step};

/// Where a failure leads back to.
fn back(part: &Part) -> State {
    if part.install_failed {
        State::New
    } else {
        State::Installed
    }
}

/// Where a stop leads to.
fn rested(part: &Part) -> State {
    match part.state {
        State::Broken => State::Broken,
        State::New => State::New,
        State::Errored => back(part),
        _ => State::Installed,
    }
}

/// The third failure breaks; who is to be stopped for good owes none.
fn failed(part: Part, step: Step, exit: Exit) -> Part {
    let mut after = part;
    after.state = if part.failures == 2 {
        State::Broken
    } else {
        State::Errored
    };
    after.failures = part.failures.saturating_add(1);
    after.busy = None;
    after.runs = false;
    after.install_failed = step == Step::Install;
    if !after.is_spared() {
        after.owed = Some((step, exit));
    }
    after
}

fn ends_in(part: Part, state: State, step: Step, exit: Exit) -> Part {
    if exit != Exit::Code(0) {
        return failed(part, step, exit);
    }
    let mut after = part;
    after.state = state;
    after.busy = None;
    after.runs = false;
    after
}

fn retried(part: Part) -> Part {
    let mut after = part;
    after.state = back(&part);
    after.busy = None;
    after
}

/// What is left where a stop is done.
fn stopped(part: Part, stop: After) -> Part {
    let mut after = part;
    after.state = rested(&part);
    after.busy = None;
    after.runs = false;
    after.under_way = None;
    match stop {
        After::Restart => {}
        After::Again => {
            after.state = State::New;
            after.failures = 0;
            after.install_failed = false;
        }
        After::Gone => after.gone = true,
    }
    after
}

fn begun(part: Part, state: State, step: Step) -> Part {
    let mut after = part;
    after.state = state;
    after.busy = Some(step);
    after
}

fn moved(part: Part, state: State) -> Part {
    let mut after = part;
    after.state = state;
    after
}

fn begins(part: Part) -> Part {
    match part.state {
        State::New if part.item.install => begun(part, State::New, Step::Install),
        State::New => moved(part, State::Installed),
        State::Installed if part.item.startup => begun(part, State::Starting, Step::Startup),
        State::Installed if part.item.run => begun(part, State::Starting, Step::Run),
        State::Installed => moved(part, State::Finished),
        _ => part,
    }
}

fn launched(part: Part) -> Part {
    let mut after = part;
    after.state = State::Running;
    after.busy = None;
    after.runs = true;
    after
}

fn shut_down(part: Part) -> Part {
    match part.under_way {
        Some(stop) => stopped(part, stop),
        None => part,
    }
}

fn run_ended(part: Part, exit: Exit) -> Part {
    match part.state {
        State::Starting => failed(part, Step::Run, exit),
        State::Running if part.runs => ends_in(part, State::Finished, Step::Run, exit),
        State::Stopping => {
            let mut after = part;
            after.runs = false;
            after
        }
        _ => part,
    }
}

fn ended(part: Part, step: Step, exit: Exit) -> Part {
    match step {
        Step::Run => run_ended(part, exit),
        Step::Install => ends_in(part, State::Installed, step, exit),
        Step::Startup => ends_in(part, State::Running, step, exit),
        Step::Recover => retried(part),
        Step::Shutdown => shut_down(part),
        Step::Bootstrap => part,
    }
}

fn stop_given(part: Part, stop: After) -> Part {
    if !matches!(part.state, State::Running) || !part.item.shutdown {
        return stopped(part, stop);
    }
    let mut after = begun(part, State::Stopping, Step::Shutdown);
    after.under_way = Some(stop);
    after
}

fn retries(part: Part) -> Part {
    if part.item.recover {
        begun(part, State::Errored, Step::Recover)
    } else {
        retried(part)
    }
}

/// What the event makes of its life.
fn row(part: Part, event: LifeEvent) -> Part {
    match event {
        LifeEvent::MayBegin => begins(part),
        LifeEvent::Launched => launched(part),
        LifeEvent::Skipped => part,
        LifeEvent::Ended(step, exit) => ended(part, step, exit),
        LifeEvent::Stop(stop) => stop_given(part, stop),
        LifeEvent::Retry => retries(part),
    }
}

/// It becomes FINISHED, or RUNNING by its startup.
fn succeeds(before: &Part, after: &Part) -> bool {
    let finishes = matches!(after.state, State::Finished)
        && !matches!(before.state, State::Finished);
    let is_started = matches!(before.state, State::Starting)
        && matches!(after.state, State::Running);
    finishes || (is_started && matches!(before.busy, Some(Step::Startup)))
}

/// The event completes a stop with Again.
fn begins_again(before: &Part, event: LifeEvent, after: &Part) -> bool {
    if after.is_stopping() {
        false
    } else if before.is_stopping() {
        matches!(before.under_way, Some(After::Again))
    } else {
        matches!(event, LifeEvent::Stop(After::Again))
    }
}

fn take_item(part: &mut Part, item: Plain) {
    part.item = item;
    part.failures = 0;
    part.next = None;
}

/// The component after the event.
pub(crate) fn lived(is_steady: bool, part: Part, event: LifeEvent) -> Part {
    let mut after = row(part, event);
    if is_steady && succeeds(&part, &after) {
        after.failures = 0;
    }
    if matches!(event, LifeEvent::Stop(_)) {
        after.stop = None;
    }
    if begins_again(&part, event, &after) {
        if let Some(item) = after.next {
            take_item(&mut after, item);
        }
    }
    after
}
