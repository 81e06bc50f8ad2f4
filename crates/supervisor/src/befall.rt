//! What befalls the components.
ghost use Rattle.std.specs.Prelude.{◌≡◌, ◌<◌, ◌^◌, ℕ, true, false, length};
ghost use Rattle.components.specs.Answers.{IsExpected};
ghost use Rattle.components.specs.Events.{started, refused, skipped, ended, killed, gone_by, noticed, kill_event, with_child, is_orphan_at};
ghost use Rattle.components.specs.Fitted.{prepared_of, limit_of};
ghost use Rattle.components.specs.Flags.{at_moment};
ghost use Rattle.components.specs.Readied.{HaveNames, StartsShort};
ghost use Rattle.components.specs.Runs.{IsShort};
ghost use Rattle.components.specs.Lives.{lived, lived_at, drops_at};
ghost use Rattle.components.specs.Turns.{is_begun};
ghost use Rattle.components.specs.Components.{At, changed_at, without_child};

use crate::asks::owner_of;
use crate::marks::restart_from;
use crate::slot::Slot;
use components::Event;
use lifecycle::LifeEvent;
use nuc_base::{Exit, Step};

/// An event of the table at the component there. The answer is whether it left RUNNING or FINISHED by an error.
fn live_one(slots: &mut [Slot], at: u32, steady: bool, event: LifeEvent) -> bool
    requires { at < length slots.old }
    ensures lived { slots.new ≡ changed_at at (lived steady event) slots.old }
    ensures drops { result ≡ drops_at at (at_moment slots.old 0 steady) event }
{
    slots[at as usize].live(steady, event)
}

/// An event of the table at the component there, with the marks that it brings.
pub(crate) fn live_at(
    slots: &mut [Slot],
    flags: &mut [bool],
    at: u32,
    steady: bool,
    event: LifeEvent,
)
    requires at { at < length slots.old }
    requires many { length flags.old ≡ length slots.old }
    requires names { HaveNames slots.old }
    ensures lived { (m : ℕ) → at_moment slots.new m steady ≡ lived_at at event (at_moment slots.old m steady) }
    ensures many { length flags.new ≡ length flags.old }
    ensures parts { length slots.new ≡ length slots.old }
{
    if live_one(slots, at, steady, event) {
        restart_from(slots, flags, at as usize);
    }
}

fn start_child_at(slots: &mut [Slot], at: u32, step: Step, number: u64, moment: u64)
    requires time { moment < 2 ^ 62 }
    requires begun { At at (λ p. is_begun step p ≡ true) slots.old }
    ensures started { slots.new ≡ changed_at at (λ p. with_child number step moment (record p { handed = false })) slots.old }
    ensures short { At at (λ p. IsShort (limit_of (prepared_of p.fitted step))) slots.old }
{
    slots[at as usize].start_child(number, step, moment);
}

fn answer_at(slots: &mut [Slot], at: u32)
    requires { at < length slots.old }
    ensures { slots.new ≡ changed_at at (λ p. record p { handed = false }) slots.old }
{
    slots[at as usize].set_handed(false);
}

fn remove_at(slots: &mut [Slot], at: u32, number: u64)
    requires { at < length slots.old }
    ensures { slots.new ≡ changed_at at (without_child number) slots.old }
{
    slots[at as usize].remove_child(number);
}

fn start(
    slots: &mut [Slot],
    flags: &mut [bool],
    at: u32,
    step: Step,
    number: u64,
    moment: u64,
    steady: bool,
)
    requires time { moment < 2 ^ 62 }
    requires begun { At at (λ p. is_begun step p ≡ true) slots.old }
    requires many { length flags.old ≡ length slots.old }
    requires names { HaveNames slots.old }
    ensures started { at_moment slots.new moment steady ≡ started at step number (at_moment slots.old moment steady) }
    ensures short { At at (λ p. IsShort (limit_of (prepared_of p.fitted step))) slots.old }
    ensures many { length flags.new ≡ length slots.new }
{
    start_child_at(slots, at, step, number, moment);
    if let Step::Run = step {
        live_at(slots, flags, at, steady, LifeEvent::Launched);
    }
}

/// The start is answered without a child, which is this event.
fn answer(slots: &mut [Slot], flags: &mut [bool], at: u32, event: LifeEvent, steady: bool)
    requires at { at < length slots.old }
    requires many { length flags.old ≡ length slots.old }
    requires names { HaveNames slots.old }
    ensures answered { (m : ℕ) → at_moment slots.new m steady ≡ lived_at at event
        (at_moment (changed_at at (λ p. record p { handed = false }) slots.old) m steady) }
    ensures many { length flags.new ≡ length slots.new }
{
    answer_at(slots, at);
    live_at(slots, flags, at, steady, event);
}

fn is_orphan(slots: &[Slot], at: u32, step: Step) -> bool
    requires { at < length slots.now }
    ensures { result ≡ is_orphan_at at step (at_moment slots.now 0 true) }
{
    slots[at as usize].is_orphan(step)
}

/// The component's child is gone, and this befell the component.
fn child_gone(
    slots: &mut [Slot],
    flags: &mut [bool],
    at: u32,
    step: Step,
    number: u64,
    event: Option<LifeEvent>,
    steady: bool,
)
    requires at { at < length slots.old }
    requires many { length flags.old ≡ length slots.old }
    requires names { HaveNames slots.old }
    ensures gone { (m : ℕ) → at_moment slots.new m steady ≡ gone_by event at step number (at_moment slots.old m steady) }
    ensures many { length flags.new ≡ length slots.new }
{
    let orphan = is_orphan(slots, at, step);
    remove_at(slots, at, number);
    if let Some(event) = event {
        if !orphan {
            live_at(slots, flags, at, steady, event);
        }
    }
}

fn end_child(slots: &mut [Slot], flags: &mut [bool], number: u64, exit: Exit, steady: bool)
    requires few { length slots.old < 2 ^ 32 }
    requires many { length flags.old ≡ length slots.old }
    requires names { HaveNames slots.old }
    ensures ended { (m : ℕ) → at_moment slots.new m steady ≡ ended number exit (at_moment slots.old m steady) }
    ensures many { length flags.new ≡ length slots.new }
{
    if let Some((at, step)) = owner_of(slots, number) {
        child_gone(
            slots,
            flags,
            at,
            step,
            number,
            Some(LifeEvent::Ended(step, exit)),
            steady,
        );
    }
}

fn kill_event_at(slots: &[Slot], at: u32, step: Step, number: u64, moment: u64) -> Option<LifeEvent>
    requires { at < length slots.now }
    ensures { At at (λ p. result ≡ kill_event moment number step p) slots.now }
{
    slots[at as usize].kill_event(step, number, moment)
}

/// The child of this number is killed.
pub(crate) fn kill_child(
    slots: &mut [Slot],
    flags: &mut [bool],
    number: u64,
    moment: u64,
    steady: bool,
)
    requires few { length slots.old < 2 ^ 32 }
    requires many { length flags.old ≡ length slots.old }
    requires names { HaveNames slots.old }
    ensures killed { at_moment slots.new moment steady ≡ killed number (at_moment slots.old moment steady) }
    ensures many { length flags.new ≡ length slots.new }
{
    if let Some((at, step)) = owner_of(slots, number) {
        let event = kill_event_at(slots, at, step, number, moment);
        child_gone(slots, flags, at, step, number, event, steady);
    }
}

/// What befalls the components at this moment.
fn befall(slots: &mut [Slot], flags: &mut [bool], event: Event, moment: u64, steady: bool)
    requires few { length slots.old < 2 ^ 32 }
    requires time { moment < 2 ^ 62 }
    requires answers { IsExpected (at_moment slots.old moment steady) event }
    requires many { length flags.old ≡ length slots.old }
    requires names { HaveNames slots.old }
    ensures noticed { at_moment slots.new moment steady ≡ noticed event (at_moment slots.old moment steady) }
    ensures short { StartsShort event slots.old }
    ensures many { length flags.new ≡ length slots.new }
{
    match event {
        Event::Started(at, step, number) => start(slots, flags, at, step, number, moment, steady),
        Event::Refused(at, step) => answer(
            slots,
            flags,
            at,
            LifeEvent::Ended(step, Exit::NotStarted),
            steady,
        ),
        Event::Skipped(at, _) => answer(slots, flags, at, LifeEvent::Skipped, steady),
        Event::Ended(number, exit) => end_child(slots, flags, number, exit, steady),
        Event::Passed => {}
    }
}

/// What befalls the components, by the vectors that hold them.
pub(crate) fn befall_in(
    slots: &mut Vec<Slot>,
    flags: &mut Vec<bool>,
    event: Event,
    moment: u64,
    steady: bool,
)
    requires few { length slots.old.items < 2 ^ 32 }
    requires time { moment < 2 ^ 62 }
    requires answers { IsExpected (at_moment slots.old.items moment steady) event }
    requires many { length flags.old.items ≡ length slots.old.items }
    requires names { HaveNames slots.old.items }
    ensures noticed { at_moment slots.new.items moment steady ≡ noticed event (at_moment slots.old.items moment steady) }
    ensures short { StartsShort event slots.old.items }
    ensures many { length flags.new.items ≡ length slots.new.items }
{
    befall(
        slots.as_mut_slice(),
        flags.as_mut_slice(),
        event,
        moment,
        steady,
    );
}
