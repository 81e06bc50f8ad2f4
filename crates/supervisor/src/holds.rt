//! Who is held back from a stop: whoever one that is to be stopped needs, directly or by others.
ghost use Rattle.std.specs.Prelude.{◌≡◌, ◌<◌, ◌&&◌, ◌||◌, not, true, false, None, is_some, length, map, get_or, slice_set};
ghost use Rattle.std.specs.List.{list_any};
ghost use Rattle.std.specs.Str.{bytes_eq};
ghost use Rattle.components.specs.Components.{At, component_name, is_to_stop};
ghost use Rattle.components.specs.Readied.{AreNamesApart};
ghost use Rattle.components.specs.Turns.{coming_needs, hard_needs, is_held as is_held_among, is_held_far};
ghost use Rattle.supervisor.specs.Holds.{AreFlagsAdded, AreAskedHeld, AreHeld, AreNamesHeld, HaveFlags, HasHeld, IsClosedAhead, IsFlagged, ShowAsked, ShowHeld};
ghost use Rattle.supervisor.specs.Holds.{asks_for_good, holds_others};

use crate::needs::{Need, User};
use crate::places::{place_of_need, put_where, rest_after, user_after};
use crate::slot::Slot;
use nuc_base::Name;

/// Whether it needs this name hard.
fn needs(slot: &Slot, name: &Name) -> bool
    ensures { result ≡ list_any (bytes_eq name.now) slot.now.fitted.hard }
{
    slot.hard().iter().any(|need| *name == *need.name())
}

/// Whether it is to be stopped and needs this name hard.
fn holds(slot: &Slot, name: &Name) -> bool
    ensures { result ≡ (is_to_stop slot.now && list_any (bytes_eq name.now) slot.now.fitted.hard) }
{
    slot.is_to_stop() && needs(slot, name)
}

/// Whether the need of this number is one of this name.
fn is_need_at(needs: &[Need], at: usize, name: &Name) -> bool
    ensures { result ≡ true → list_any (bytes_eq name.now) needs.now ≡ true }
{
    at < needs.len() && *name == *needs[at].name()
}

/// Whether this user of this name is to be stopped.
fn is_held_by(slots: &[Slot], user: User, name: &Name) -> bool
    ensures { result ≡ true → is_held_among name.now slots.now ≡ true }
{
    if user.component >= slots.len() {
        return false;
    }
    let slot = &slots[user.component];
    slot.is_to_stop() && is_need_at(slot.hard(), user.need, name)
}

/// Whether one of those that are known to need it is to be stopped.
fn is_held_by_user(slots: &[Slot], slot: &Slot) -> bool
    ensures { result ≡ true → is_held_among (component_name slot.now) slots.now ≡ true }
{
    let mut user = slot.first_user();
    for turn in 0..slots.len() {
        let Some(this) = user else {
            return false;
        };
        if is_held_by(slots, this, slot.name()) {
            return true;
        }
        user = user_after(slots, this);
    }
    false
}

/// Whether one that needs it hard is to be stopped. Those that are known are asked first.
pub(crate) fn is_held(slots: &[Slot], slot: &Slot) -> bool
    ensures { result ≡ is_held_among (component_name slot.now) slots.now }
{
    if is_held_by_user(slots, slot) {
        return true;
    }
    slots.iter().any(|other| holds(other, slot.name()))
}

/// The component there is held. The answer is whether that was not known, and it is not to be stopped itself.
fn hold_at(slots: &[Slot], flags: &mut [bool], at: usize) -> bool
    requires at { at < length slots.now }
    requires many { length flags.old ≡ length slots.now }
    ensures grew { At at (λ p. result ≡ (not (get_or flags.old at false) && not (is_to_stop p))) slots.now }
    ensures flags { flags.new ≡ slice_set flags.old at true }
{
    let grew = !flags[at] && !slots[at].is_to_stop();
    flags[at] = true;
    grew
}

/// The one that is needed is held. It is put before the others that are still to be gone on from, where it was not known to be
/// held, and is not to be stopped itself. The answer is the first one of these.
fn hold_need(slots: &[Slot], flags: &mut [bool], need: &Need, first: Option<usize>) -> Option<usize>
    requires many { length flags.old ≡ length slots.now }
    requires names { AreNamesApart (map component_name slots.now) }
    ensures holds { HasHeld slots.now flags.old flags.new (is_some first) (is_some result) }
    ensures flag { IsFlagged slots.now flags.new need.now }
    ensures held { is_held_far need.now slots.now ≡ true → AreHeld slots.now flags.old → AreHeld slots.now flags.new }
{
    let Some(at) = place_of_need(slots, need) else {
        return first;
    };
    let grew = hold_at(slots, flags, at);
    put_where(slots, grew, at, first)
}

/// All that are needed are held.
fn hold_needs(
    slots: &[Slot],
    flags: &mut [bool],
    needs: &[Need],
    first: Option<usize>,
) -> Option<usize>
    requires many { length flags.old ≡ length slots.now }
    requires names { AreNamesApart (map component_name slots.now) }
    ensures holds { HasHeld slots.now flags.old flags.new (is_some first) (is_some result) }
    ensures flags { HaveFlags slots.now flags.new needs.now }
    ensures held { AreNamesHeld slots.now needs.now → AreHeld slots.now flags.old → AreHeld slots.now flags.new }
{
    let mut last = first;
    for need in needs {
        last = hold_need(slots, flags, need, last);
    }
    last
}

/// All that it needs by the item that it is about to take are held.
fn hold_coming_needs(
    slots: &[Slot],
    flags: &mut [bool],
    slot: &Slot,
    first: Option<usize>,
) -> Option<usize>
    requires many { length flags.old ≡ length slots.now }
    requires names { AreNamesApart (map component_name slots.now) }
    ensures holds { HasHeld slots.now flags.old flags.new (is_some first) (is_some result) }
    ensures flags { HaveFlags slots.now flags.new (coming_needs slot.now) }
    ensures held { AreNamesHeld slots.now (coming_needs slot.now) → AreHeld slots.now flags.old → AreHeld slots.now flags.new }
{
    match slot.taken() {
        None => first,
        Some(item) => hold_needs(slots, flags, item.hard(), first),
    }
}

/// All that it needs, or is about to, are held.
fn hold_needs_of(
    slots: &[Slot],
    flags: &mut [bool],
    slot: &Slot,
    first: Option<usize>,
) -> Option<usize>
    requires many { length flags.old ≡ length slots.now }
    requires names { AreNamesApart (map component_name slots.now) }
    ensures holds { HasHeld slots.now flags.old flags.new (is_some first) (is_some result) }
    ensures flags { HaveFlags slots.now flags.new (hard_needs slot.now) }
    ensures held { AreNamesHeld slots.now (hard_needs slot.now) → AreHeld slots.now flags.old → AreHeld slots.now flags.new }
{
    let last = hold_needs(slots, flags, slot.hard(), first);
    hold_coming_needs(slots, flags, slot, last)
}

/// Whether the component there is held, or is to be stopped itself.
fn holds_others_at(slots: &[Slot], flags: &[bool], at: usize) -> bool
    requires at { at < length slots.now }
    requires many { length flags.now ≡ length slots.now }
    ensures { At at (λ p. result ≡ holds_others flags.now at p) slots.now }
{
    flags[at] || slots[at].is_to_stop()
}

/// Where the component there is held, or is to be stopped itself, all that it needs are held.
fn hold_by(slots: &[Slot], flags: &mut [bool], at: usize, first: Option<usize>) -> Option<usize>
    requires at { at < length slots.now }
    requires many { length flags.old ≡ length slots.now }
    requires names { AreNamesApart (map component_name slots.now) }
    ensures holds { HasHeld slots.now flags.old flags.new (is_some first) (is_some result) }
    ensures flags { At at (λ p. holds_others flags.old at p ≡ true → HaveFlags slots.now flags.new (hard_needs p)) slots.now }
    ensures held { AreHeld slots.now flags.old → AreHeld slots.now flags.new }
{
    if !holds_others_at(slots, flags, at) {
        return first;
    }
    hold_needs_of(slots, flags, &slots[at], first)
}

/// Goes once over all. The answer is the first one of those that are still to be gone on from.
fn hold_once(slots: &[Slot], flags: &mut [bool]) -> Option<usize>
    requires many { length flags.old ≡ length slots.now }
    requires names { AreNamesApart (map component_name slots.now) }
    ensures holds { HasHeld slots.now flags.old flags.new false (is_some result) }
    ensures closed { is_some result ≡ false → IsClosedAhead slots.now flags.new }
    ensures held { AreHeld slots.now flags.old → AreHeld slots.now flags.new }
{
    let mut first = None;
    for at in 0..slots.len() {
        first = hold_by(slots, flags, at, first);
    }
    first
}

/// Goes on from this one, and from those that it was put before.
fn hold_rest(slots: &[Slot], flags: &mut [bool], from: usize)
    requires many { length flags.old ≡ length slots.now }
    requires names { AreNamesApart (map component_name slots.now) }
    ensures adds { AreFlagsAdded flags.old flags.new }
    ensures held { AreHeld slots.now flags.old → AreHeld slots.now flags.new }
{
    let mut first = Some(from);
    for turn in 0..slots.len() {
        let Some(at) = first else {
            return;
        };
        if at >= slots.len() {
            return;
        }
        first = hold_by(slots, flags, at, rest_after(slots, at));
    }
}

/// Gives a flag to those that are held, and to no other.
fn hold_all(slots: &[Slot], flags: &mut [bool])
    requires many { length flags.old ≡ length slots.now }
    requires names { AreNamesApart (map component_name slots.now) }
    ensures held { ShowHeld slots.now flags.new }
    ensures many { length flags.new ≡ length flags.old }
{
    flags.fill(false);
    'rounds: loop {
        let Some(first) = hold_once(slots, flags) else {
            return;
        };
        hold_rest(slots, flags, first);
    }
}

/// Whether it asks for a stop for good, and none of those that are known to need it is to be stopped.
fn asks_alone(slots: &[Slot], slot: &Slot) -> bool
    ensures { result ≡ false → asks_for_good slot.now ≡ true → is_held_far (component_name slot.now) slots.now ≡ true }
{
    if !slot.asks_for_good() {
        return false;
    }
    if is_held_by_user(slots, slot) {
        return false;
    }
    true
}

/// Whether one of them does.
fn any_asks_alone(slots: &[Slot]) -> bool
    ensures { result ≡ false → AreAskedHeld slots.now }
{
    for slot in slots {
        if asks_alone(slots, slot) {
            return true;
        }
    }
    false
}

/// Each that asks for a stop for good gets a flag where one that reaches it is to be stopped, and none where not. What is
/// reached is found once for all of them, where one that is known to need them does not tell.
pub(crate) fn find_held(slots: &[Slot], flags: &mut [bool])
    requires many { length flags.old ≡ length slots.now }
    requires names { AreNamesApart (map component_name slots.now) }
    ensures held { ShowAsked slots.now flags.new }
    ensures many { length flags.new ≡ length flags.old }
{
    if any_asks_alone(slots) {
        hold_all(slots, flags);
        return;
    }
    flags.fill(true);
}
