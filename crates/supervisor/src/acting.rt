//! What is handed out next.
ghost use Rattle.std.specs.Prelude.{◌≡◌, ◌<◌, ◌^◌, ◌&&◌, ◌||◌, ℕ, Bool, true, false, None, Some, is_some, length, map, IfSome};
ghost use Rattle.std.specs.List.{list_any, list_all};
ghost use Rattle.std.specs.Str.{bytes_eq};
ghost use Rattle.components.specs.Acts.{HandsOut, NextAct};
ghost use Rattle.components.specs.Answers.{living_numbers};
ghost use Rattle.supervisor.specs.Deeds.{MayDo, IsFirst, IsDone, IsOwed, IsOwing, HasHandedOut};
ghost use Rattle.components.specs.Flags.{at_moment};
ghost use Rattle.components.specs.Readied.{AreApart, AreNamesApart, HaveNames, IsKept};
ghost use Rattle.components.specs.Rows.{is_stop_ready};
ghost use Rattle.components.specs.Turns.{may_act, may_begin as may_begin_among, may_stop, is_met, is_held_far, serves_softly, owes};
ghost use Rattle.components.specs.Turns.{is_held_for as is_held_for_among};
ghost use Rattle.components.specs.Whole.{AreWhole};
ghost use Rattle.components.specs.Components.{At, changed_at, component_name, is_again, is_gone, stands_up as stands};
ghost use Rattle.supervisor.specs.Holds.{ShowAsked, asks_for_good};

use crate::befall::{kill_child, live_at};
use crate::holds::{find_held, is_held};
use crate::needs::Need;
use crate::places::found_place;
use crate::slot::Slot;
use components::Act;
use lifecycle::{After, LifeEvent};
use nuc_base::{Name, Step};

/// What the component whose turn it is has to do.
#[derive(Clone, Copy, Debug, PartialEq, Eq)]
pub enum Deed {
    /// It moves, and leaves nothing outside.
    Moves(LifeEvent),
    Starts(Step),
    /// Its child of this number is killed.
    Kills(u64),
}

/// Whether it has this name and stands up.
fn stands_as(slot: &Slot, name: &Name) -> bool
    ensures { result ≡ (bytes_eq (component_name slot.now) name.now && stands slot.now) }
{
    slot.stands_up() && *slot.name() == *name
}

/// Whether it has this name and is enough for one that needs it softly.
fn serves_as(slot: &Slot, name: &Name) -> bool
    ensures { result ≡ (bytes_eq (component_name slot.now) name.now && serves_softly slot.now) }
{
    slot.serves_softly() && *slot.name() == *name
}

fn any_stands(slots: &[Slot], name: &Name) -> bool
    ensures { result ≡ is_met stands slots.now name.now }
{
    slots.iter().any(|slot| stands_as(slot, name))
}

fn any_serves(slots: &[Slot], name: &Name) -> bool
    ensures { result ≡ is_met serves_softly slots.now name.now }
{
    slots.iter().any(|slot| serves_as(slot, name))
}

/// Whether the one that is needed stands up.
fn is_up(slots: &[Slot], need: &Need) -> bool
    requires { AreNamesApart (map component_name slots.now) }
    ensures { result ≡ is_met stands slots.now need.now }
{
    match found_place(slots, need) {
        Some(at) => slots[at].stands_up(),
        None => any_stands(slots, need.name()),
    }
}

/// Whether the one that is needed softly is enough.
fn is_served(slots: &[Slot], need: &Need) -> bool
    requires { AreNamesApart (map component_name slots.now) }
    ensures { result ≡ is_met serves_softly slots.now need.now }
{
    match found_place(slots, need) {
        Some(at) => slots[at].serves_softly(),
        None => any_serves(slots, need.name()),
    }
}

/// Whether the need of this number is there and not met.
fn is_missing(slots: &[Slot], needs: &[Need], at: usize) -> bool
    requires { AreNamesApart (map component_name slots.now) }
    ensures { result ≡ true → list_all (is_met stands slots.now) needs.now ≡ false }
{
    at < needs.len() && !is_up(slots, &needs[at])
}

/// Keeps the number of the first hard need that is not met.
fn note_missing(slots: &[Slot], slot: &Slot)
    requires { AreNamesApart (map component_name slots.now) }
{
    if let Some(at) = slot.hard().iter().position(|need| !is_up(slots, need)) {
        slot.set_missing(at);
    }
}

/// Whether all that it needs hard stand up. The need that was not met the last time is asked first.
fn are_up(slots: &[Slot], slot: &Slot) -> bool
    requires { AreNamesApart (map component_name slots.now) }
    ensures { result ≡ list_all (is_met stands slots.now) slot.now.fitted.hard }
{
    if is_missing(slots, slot.hard(), slot.missing()) {
        return false;
    }
    let all = slot.hard().iter().all(|need| is_up(slots, need));
    if !all {
        note_missing(slots, slot);
    }
    all
}

fn are_served(slots: &[Slot], needs: &[Need]) -> bool
    requires { AreNamesApart (map component_name slots.now) }
    ensures { result ≡ list_all (is_met serves_softly slots.now) needs.now }
{
    needs.iter().all(|need| is_served(slots, need))
}

/// Whether the component may begin among these.
fn may_begin(slots: &[Slot], slot: &Slot) -> bool
    requires { AreNamesApart (map component_name slots.now) }
    ensures { result ≡ may_begin_among (at_moment slots.now 0 true) slot.now }
{
    slot.waits() && (are_up(slots, slot) && are_served(slots, slot.soft()))
}

/// Whether others hold it back from this stop: from one with Restart those that need it directly, from another one all that
/// reach it, by its flag.
fn is_held_for(slots: &[Slot], slot: &Slot, flag: bool, after: After) -> bool
    requires { (is_again (Some after) || is_gone (Some after)) ≡ true → flag ≡ is_held_far (component_name slot.now) slots.now }
    ensures { result ≡ is_held_for_among after (component_name slot.now) slots.now }
{
    match after {
        After::Restart => is_held(slots, slot),
        After::Again => flag,
        After::Gone => flag,
    }
}

/// The stop of the component that may be given among these. Where it asks for one for good, the flag is whether one that
/// reaches it is to be stopped.
fn stop_of(slots: &[Slot], slot: &Slot, flag: bool) -> Option<After>
    requires { asks_for_good slot.now ≡ true → flag ≡ is_held_far (component_name slot.now) slots.now }
    ensures given { IfSome result (λ a. (slot.now.stop ≡ Some a) × (is_stop_ready slot.now ≡ true)) }
    ensures may { is_some result ≡ may_stop (at_moment slots.now 0 true) slot.now }
{
    match slot.due_stop() {
        None => None,
        Some(after) => {
            if is_held_for(slots, slot, flag, after) {
                None
            } else {
                Some(after)
            }
        }
    }
}

/// What the component there has to do.
fn deed_at(slots: &[Slot], flags: &[bool], at: u32, moment: u64) -> Option<Deed>
    requires at { at < length slots.now }
    requires many { length flags.now ≡ length slots.now }
    requires held { ShowAsked slots.now flags.now }
    requires apart { AreApart (living_numbers slots.now) }
    requires names { AreNamesApart (map component_name slots.now) }
    requires whole { AreWhole slots.now }
    ensures none { result ≡ None → At at (λ p. may_act (at_moment slots.now moment true) p ≡ false) slots.now }
    ensures some { IfSome result (MayDo (at_moment slots.now moment true) at) }
{
    let slot = &slots[at as usize];
    let begins = may_begin(slots, slot);
    let stop = stop_of(slots, slot, flags[at as usize]);
    slot.deed(moment, begins, stop)
}

/// The first component that has something to do, and what it is.
fn first_deed(slots: &[Slot], flags: &[bool], moment: u64) -> Option<(u32, Deed)>
    requires few { length slots.now < 2 ^ 32 }
    requires many { length flags.now ≡ length slots.now }
    requires held { ShowAsked slots.now flags.now }
    requires apart { AreApart (living_numbers slots.now) }
    requires names { AreNamesApart (map component_name slots.now) }
    requires whole { AreWhole slots.now }
    ensures { IsFirst (at_moment slots.now moment true) result }
{
    for at in 0..slots.len() as u32 {
        if let Some(deed) = deed_at(slots, flags, at, moment) {
            return Some((at, deed));
        }
    }
    None
}

fn hand_at(slots: &mut [Slot], at: u32)
    requires { at < length slots.old }
    ensures { slots.new ≡ changed_at at (λ p. record p { handed = true }) slots.old }
{
    slots[at as usize].set_handed(true);
}

/// The deed is done. The answer is what is handed out.
fn perform(
    slots: &mut [Slot],
    flags: &mut [bool],
    at: u32,
    deed: Deed,
    moment: u64,
    steady: bool,
) -> Option<Act>
    requires at { at < length slots.old }
    requires few { length slots.old < 2 ^ 32 }
    requires many { length flags.old ≡ length slots.old }
    requires names { HaveNames slots.old }
    ensures done { IsDone (at_moment slots.old moment steady) at deed result (at_moment slots.new moment steady) }
    ensures many { length flags.new ≡ length slots.new }
{
    match deed {
        Deed::Moves(event) => {
            live_at(slots, flags, at, steady, event);
            None
        }
        Deed::Starts(step) => {
            hand_at(slots, at);
            Some(Act::Start(at, step))
        }
        Deed::Kills(number) => {
            kill_child(slots, flags, number, moment, steady);
            Some(Act::Kill(number))
        }
    }
}

/// The failure that the component there owes.
fn failure_at(slots: &[Slot], at: u32) -> Option<Act>
    requires { at < length slots.now }
    ensures none { result ≡ None → At at (λ p. owes p ≡ false) slots.now }
    ensures some { IfSome result (IsOwed at slots.now) }
{
    let slot = &slots[at as usize];
    match slot.owed() {
        None => None,
        Some((step, exit)) => {
            if slot.is_broken() {
                Some(Act::Broke(at, step, exit))
            } else {
                Some(Act::Failed(at, step, exit))
            }
        }
    }
}

/// The first component that owes a failure, and the failure.
fn first_failure(slots: &[Slot]) -> Option<(u32, Act)>
    requires { length slots.now < 2 ^ 32 }
    ensures { IsOwing slots.now result }
{
    for at in 0..slots.len() as u32 {
        if let Some(act) = failure_at(slots, at) {
            return Some((at, act));
        }
    }
    None
}

fn tell_at(slots: &mut [Slot], at: u32)
    requires { at < length slots.old }
    ensures { slots.new ≡ changed_at at (λ p. record p { owed = None }) slots.old }
{
    slots[at as usize].tell();
}

/// A failure that is owed is handed out.
fn tell_first(slots: &mut [Slot]) -> Option<Act>
    requires few { length slots.old < 2 ^ 32 }
    requires names { AreNamesApart (map component_name slots.old) }
    ensures none { result ≡ None → (list_any owes slots.old ≡ false) × (slots.new ≡ slots.old) }
    ensures some { IfSome result (λ act. (m : ℕ) (s : Bool) → HandsOut (at_moment slots.old m s) (Some act) (at_moment slots.new m s)) }
    ensures handed_out { IfSome result (λ act. HasHandedOut slots.old slots.new) }
{
    match first_failure(slots) {
        None => None,
        Some((at, act)) => {
            tell_at(slots, at);
            Some(act)
        }
    }
}

/// What is handed out where no failure is owed: components move until there is something, or nothing may move.
fn act_first(slots: &mut [Slot], flags: &mut [bool], moment: u64, steady: bool) -> Option<Act>
    requires many { length flags.old ≡ length slots.old }
    requires kept { IsKept (at_moment slots.old moment steady) }
    requires whole { AreWhole slots.old }
    requires owes_none { list_any owes slots.old ≡ false }
    ensures next { NextAct (at_moment slots.old moment steady) result (at_moment slots.new moment steady) }
    ensures kept { IsKept (at_moment slots.new moment steady) }
    ensures whole { AreWhole slots.new }
    ensures many { length flags.new ≡ length slots.new }
{
    'turns: loop {
        find_held(slots, flags);
        let Some((at, deed)) = first_deed(slots, flags, moment) else {
            return None;
        };
        let act = perform(slots, flags, at, deed, moment, steady);
        if act.is_some() {
            return act;
        }
    }
}

fn next(slots: &mut [Slot], flags: &mut [bool], moment: u64, steady: bool) -> Option<Act>
    requires many { length flags.old ≡ length slots.old }
    requires kept { IsKept (at_moment slots.old moment steady) }
    requires whole { AreWhole slots.old }
    ensures next { NextAct (at_moment slots.old moment steady) result (at_moment slots.new moment steady) }
    ensures kept { IsKept (at_moment slots.new moment steady) }
    ensures whole { AreWhole slots.new }
    ensures many { length flags.new ≡ length slots.new }
{
    match tell_first(slots) {
        Some(act) => Some(act),
        None => act_first(slots, flags, moment, steady),
    }
}

/// A failure first, else what the component of the least name that may act has to have done.
pub(crate) fn next_in(
    slots: &mut Vec<Slot>,
    flags: &mut Vec<bool>,
    moment: u64,
    steady: bool,
) -> Option<Act>
    requires many { length flags.old.items ≡ length slots.old.items }
    requires kept { IsKept (at_moment slots.old.items moment steady) }
    requires whole { AreWhole slots.old.items }
    ensures next { NextAct (at_moment slots.old.items moment steady) result (at_moment slots.new.items moment steady) }
    ensures kept { IsKept (at_moment slots.new.items moment steady) }
    ensures whole { AreWhole slots.new.items }
    ensures many { length flags.new.items ≡ length slots.new.items }
{
    next(slots.as_mut_slice(), flags.as_mut_slice(), moment, steady)
}
