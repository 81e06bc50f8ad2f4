//! Where those stand that are needed, and who needs them. All of it only saves searches: whoever goes by it compares names.
ghost use Rattle.std.specs.Prelude.{◌≡◌, ◌<◌, ◌||◌, true, is_some, length, map, IfSome};
ghost use Rattle.std.specs.Str.{bytes_eq};
ghost use Rattle.components.specs.Components.{At, component_name, place_of as place_of_name};
ghost use Rattle.components.specs.Readied.{AreNamesApart};

use crate::needs::{Need, User};
use crate::slot::Slot;
use nuc_base::Name;

/// Where a component of this name stands, if there is one, since they stand in the order of their names.
fn likely_place(slots: &[Slot], name: &Name) -> usize {
    slots.partition_point(|slot| *slot.name() < *name)
}

fn place_needs(slots: &[Slot], needs: &[Need]) {
    for need in needs {
        need.set_place(likely_place(slots, need.name()));
    }
}

fn place_all(slots: &[Slot], slot: &Slot) {
    slot.set_first_user(None);
    place_needs(slots, slot.hard());
    place_needs(slots, slot.soft());
    if let Some(item) = slot.coming() {
        place_needs(slots, item.hard());
        place_needs(slots, item.soft());
    }
}

/// Each need gets the place of the component that it names, also those of an item that is still to come.
fn place_each(slots: &[Slot]) {
    for slot in slots {
        place_all(slots, slot);
    }
}

/// It is put before the others that need the same component.
fn chain_one(slots: &[Slot], need: &Need, user: User) {
    if let Some(slot) = slots.get(need.place()) {
        need.set_next_user(slot.first_user());
        slot.set_first_user(Some(user));
    }
}

fn chain_needs(slots: &[Slot], component: usize, needs: &[Need]) {
    for (need, wanted) in needs.iter().enumerate() {
        chain_one(slots, wanted, User { component, need });
    }
}

/// Each component gets those that need it hard. The last one of them is put first, since it is mostly the last one to stop.
fn chain_each(slots: &[Slot]) {
    for (component, slot) in slots.iter().enumerate() {
        chain_needs(slots, component, slot.hard());
    }
}

/// Each need gets its place among these components, and each component those that need it.
pub(crate) fn link(slots: &[Slot]) {
    place_each(slots);
    chain_each(slots);
}

/// The first one of those that need the component there hard.
pub(crate) fn first_user(slots: &[Slot], at: usize) -> Option<User> {
    slots.get(at)?.first_user()
}

/// Where it is one, it is put before the others that are still to be gone on from. The answer is the first one then.
pub(crate) fn put_where(
    slots: &[Slot],
    is_one: bool,
    at: usize,
    first: Option<usize>,
) -> Option<usize>
    ensures { at < length slots.now → is_some result ≡ (is_one || is_some first) }
{
    if !is_one {
        return first;
    }
    slots.get(at)?.set_rest(first);
    Some(at)
}

/// The first one of those that it was put before.
pub(crate) fn rest_after(slots: &[Slot], at: usize) -> Option<usize> {
    slots.get(at)?.rest()
}

/// The one that comes after that user among those that need the same component.
pub(crate) fn user_after(slots: &[Slot], user: User) -> Option<User> {
    let slot = slots.get(user.component)?;
    let need = slot.hard().get(user.need)?;
    need.next_user()
}

pub(crate) fn is_named_at(slots: &[Slot], at: usize, name: &Name) -> bool
    requires { at < length slots.now }
    ensures { At at (λ p. result ≡ bytes_eq name.now (component_name p)) slots.now }
{
    *name == *slots[at].name()
}

/// The place of the need, where the component that stands there has the name.
pub(crate) fn found_place(slots: &[Slot], need: &Need) -> Option<usize>
    ensures { IfSome result (λ k. At k (λ p. bytes_eq need.now (component_name p) ≡ true) slots.now) }
{
    let at = need.place();
    if at < slots.len() && is_named_at(slots, at, need.name()) {
        Some(at)
    } else {
        None
    }
}

/// The place of the first one of this name.
pub(crate) fn place_of(slots: &[Slot], name: &Name) -> Option<usize>
    ensures { result ≡ place_of_name name.now slots.now }
{
    for at in 0..slots.len() {
        if is_named_at(slots, at, name) {
            return Some(at);
        }
    }
    None
}

/// Where the one that is needed stands.
pub(crate) fn place_of_need(slots: &[Slot], need: &Need) -> Option<usize>
    requires { AreNamesApart (map component_name slots.now) }
    ensures { result ≡ place_of_name need.now slots.now }
{
    match found_place(slots, need) {
        Some(at) => Some(at),
        None => place_of(slots, need.name()),
    }
}
