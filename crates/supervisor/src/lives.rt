//! What an event of the table makes of the parts of a component.
ghost use Rattle.std.specs.Prelude.{◌≡◌, ◌<◌, ◌&&◌, true, Some, if◌then◌else◌, IfSome};
ghost use Rattle.lifecycle.specs.Life.{begun};
ghost use Rattle.lifecycle.specs.Awaits.{is_stopping as is_in_shutdown};
ghost use Rattle.components.specs.Components.{is_again as is_with_again, is_gone as is_with_gone, is_up as is_state_up, is_running as is_state_running};
ghost use Rattle.components.specs.Components.{is_broken as is_state_broken, is_starting as is_state_starting, under_way as way_of};
ghost use Rattle.components.specs.Components.{stops_for_good as is_stopped_for_good};
ghost use Rattle.components.specs.Lives.{stop_in as stop_of};
ghost use Rattle.components.specs.Fitted.{Fitted};
ghost use Rattle.components.specs.Rows.{succeeds_from, is_spared_by, owed_after as owed_by, stop_after as stop_by};
ghost use Rattle.components.specs.Rows.{completed_from, next_of, taken_item, ItemAfterStop};

use crate::children::busy_with;
use crate::fitted::FittedItem;
use lifecycle::{After, Component, LifeAct, LifeEvent, State};
use nuc_base::{Exit, Step};

pub(crate) fn is_again(stop: Option<After>) -> bool
    ensures { result ≡ is_with_again stop }
{
    match stop {
        None => false,
        Some(after) => matches!(after, After::Again),
    }
}

pub(crate) fn is_gone(stop: Option<After>) -> bool
    ensures { result ≡ is_with_gone stop }
{
    match stop {
        None => false,
        Some(after) => matches!(after, After::Gone),
    }
}

pub(crate) fn is_up(state: State) -> bool
    ensures { result ≡ is_state_up state }
{
    matches!(state, State::Running | State::Finished)
}

pub(crate) fn is_running(state: State) -> bool
    ensures { result ≡ is_state_running state }
{
    matches!(state, State::Running)
}

pub(crate) fn is_broken(state: State) -> bool
    ensures { result ≡ is_state_broken state }
{
    matches!(state, State::Broken)
}

pub(crate) fn is_starting(state: State) -> bool
    ensures { result ≡ is_state_starting state }
{
    matches!(state, State::Starting)
}

pub(crate) fn is_stopping(state: State) -> bool
    ensures { result ≡ is_in_shutdown state }
{
    matches!(state, State::Stopping)
}

/// The stop that is under way.
pub(crate) fn under_way(life: &Component) -> Option<After>
    ensures { result ≡ way_of life.now }
{
    if is_stopping(life.state()) {
        life.stop()
    } else {
        None
    }
}

/// Whether it is with Again or Gone.
pub(crate) fn stops_for_good(life: &Component) -> bool
    ensures { result ≡ is_stopped_for_good life.now }
{
    let way = under_way(life);
    is_again(way) || is_gone(way)
}

/// Whether one that is asked to stop so fails no more.
pub(crate) fn is_spared(stop: Option<After>, life: &Component) -> bool
    ensures { result ≡ is_spared_by stop life.now }
{
    (is_again(stop) || is_gone(stop)) || stops_for_good(life)
}

/// Whether a component comes to be RUNNING by startup, or FINISHED.
pub(crate) fn succeeds(was: State, busy: Option<Step>, now: State) -> bool
    ensures { result ≡ succeeds_from was busy now }
{
    let finished = matches!(now, State::Finished) && !matches!(was, State::Finished);
    let running = is_starting(was)
        && (matches!(now, State::Running) && busy_with(Step::Startup, busy));
    finished || running
}

/// The failure that is owed after an act.
pub(crate) fn owed_after(
    act: LifeAct,
    spared: bool,
    owed: Option<(Step, Exit)>,
) -> Option<(Step, Exit)>
    ensures { result ≡ owed_by act spared owed }
{
    match act {
        LifeAct::Nothing => owed,
        LifeAct::Begin(_) => owed,
        LifeAct::Kill => owed,
        LifeAct::Failed(step, exit) => { if spared { owed } else { Some((step, exit)) } }
        LifeAct::Broke(step, exit) => { if spared { owed } else { Some((step, exit)) } }
    }
}

/// The stop that is asked for after an event.
pub(crate) fn stop_after(event: LifeEvent, stop: Option<After>) -> Option<After>
    ensures { result ≡ stop_by event stop }
{
    match event {
        LifeEvent::MayBegin => stop,
        LifeEvent::Launched => stop,
        LifeEvent::Skipped => stop,
        LifeEvent::Ended(_, _) => stop,
        LifeEvent::Stop(_) => None,
        LifeEvent::Retry => stop,
    }
}

fn stop_in(event: LifeEvent) -> Option<After>
    ensures { result ≡ stop_of event }
{
    match event {
        LifeEvent::MayBegin => None,
        LifeEvent::Launched => None,
        LifeEvent::Skipped => None,
        LifeEvent::Ended(_, _) => None,
        LifeEvent::Stop(after) => Some(after),
        LifeEvent::Retry => None,
    }
}

/// The stop that an event completes.
pub(crate) fn completed(
    event: LifeEvent,
    was: State,
    way: Option<After>,
    now: State,
) -> Option<After>
    ensures { result ≡ completed_from event was way now }
{
    if is_stopping(now) {
        return None;
    }
    if is_stopping(was) {
        way
    } else {
        stop_in(event)
    }
}

pub(crate) fn both(a: bool, b: bool) -> bool
    ensures { result ≡ (a && b) }
{
    a && b
}

/// A success forgets the failures.
pub(crate) fn forget_where(success: bool, life: &mut Component)
    ensures { life.new ≡ (if success then record life.old { failures = 0 } else life.old) }
{
    if success {
        life.forget();
    }
}

/// It takes the item that replaces its own, if there is one, where it was stopped with Again.
pub(crate) fn take_where(
    again: bool,
    fitted: &mut FittedItem,
    life: &mut Component,
    next: &mut Option<(Option<FittedItem>, u8)>,
)
    requires stopped { again ≡ true → life.old ≡ begun life.old.steps 0 }
    requires few { IfSome (next_of fitted.old next.old) (λ n. n.1 < 3) }
    ensures { ItemAfterStop again fitted.old fitted.new life.old life.new (next_of fitted.old next.old) (next_of fitted.new next.new) }
{
    if !again {
        return;
    }
    if let Some((item, failures)) = next.take() {
        match item {
            None => life.renew(fitted.steps(), failures),
            Some(item) => {
                life.renew(item.steps(), failures);
                *fitted = item;
            }
        }
    }
}

/// The item, or else this one.
fn item_or(item: Option<FittedItem>, own: FittedItem) -> FittedItem
    ensures { result ≡ taken_item own item }
{
    match item {
        None => own,
        Some(item) => item,
    }
}

/// Where it was to take its own item, which is this one no longer, it is still to take that.
pub(crate) fn keep_next(
    next: Option<(Option<FittedItem>, u8)>,
    own: FittedItem,
) -> Option<(Option<FittedItem>, u8)>
    ensures { (f : Fitted) → next_of f result ≡ next_of own next }
{
    match next {
        None => None,
        Some(next) => Some((Some(item_or(next.0, own)), next.1)),
    }
}

/// A stop for good that is under way ends as one with Restart.
pub(crate) fn end_as_restart(life: &mut Component)
    requires { is_stopped_for_good life.old ≡ true }
    ensures { life.new ≡ record life.old { stop = Some After.Restart } }
{
    life.replace_gone();
}
