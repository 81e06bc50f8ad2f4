//! A change to other items: those that stand meet what comes for them, and the others are put among them.
ghost use Rattle.std.specs.Prelude.{◌≡◌, ◌<◌, ◌≤◌, ◌+◌, ◌^◌, ◌∷◌, [], ℕ, length, map, All, vec_len, vec_capacity};
ghost use Rattle.std.specs.List.{find, insert};
ghost use Rattle.components.specs.Answers.{is_steady as is_mode_steady};
ghost use Rattle.components.specs.Changes.{counted, fate, fresh_part, is_replacing, placed, replanned, standing, with_items, with_newcomers};
ghost use Rattle.components.specs.Fitted.{is_before as is_name_before, name_of};
ghost use Rattle.components.specs.Flags.{with_flags};
ghost use Rattle.components.specs.Marks.{flagged};
ghost use Rattle.components.specs.Merges.{has_name, unmet, without};
ghost use Rattle.components.specs.Readied.{AreFresh, AreNamesApart, HaveNames, KeepSteps, coming_of};
ghost use Rattle.components.specs.Components.{At, ComponentState, component_name};

use crate::marks::replan;
use crate::places::{link, place_of};
use crate::ready::Ready;
use crate::slot::Slot;
use components::Mode;
use nuc_base::Name;
use std::cmp::Ordering;
use std::mem::swap;

pub(crate) fn is_steady(mode: Mode) -> bool
    ensures { result ≡ is_mode_steady mode }
{
    matches!(mode, Mode::Steady)
}

fn begin_each(coming: &mut [Slot], failures: &[u8; 128])
    requires few { All (λ (n : ℕ). n < 3) failures.now }
    requires count { length coming.old ≤ 128 }
    requires fresh { AreFresh coming.old }
    ensures { coming.new ≡ map fresh_part (counted 0 failures.now (map (λ (p : ComponentState). p.fitted) coming.old)) }
{
    for at in 0..coming.len() {
        coming[at].begin_with(failures[at]);
    }
}

/// Those that come begin with the failures at their places.
fn begin_all(coming: &mut Vec<Slot>, failures: &[u8; 128])
    requires few { All (λ (n : ℕ). n < 3) failures.now }
    requires count { length coming.old.items ≤ 128 }
    requires fresh { AreFresh coming.old.items }
    ensures { coming.new.items ≡ map fresh_part (counted 0 failures.now (map (λ (p : ComponentState). p.fitted) coming.old.items)) }
{
    begin_each(coming.as_mut_slice(), failures);
}

/// Those that stand no more are dropped.
fn drop_over(slots: &mut Vec<Slot>)
    ensures { slots.new.items ≡ standing slots.old.items }
{
    slots.retain(|slot| !slot.is_over());
}

/// Takes what comes for this name.
fn take_named(coming: &mut Vec<Slot>, name: &Name) -> Option<Slot>
    ensures found { result ≡ find (has_name name.now) coming.old.items }
    ensures rest { coming.new.items ≡ without name.now coming.old.items }
{
    let Some(at) = place_of(coming.as_slice(), name) else {
        return None;
    };
    Some(coming.remove(at))
}

/// It meets what comes for it, or goes away.
fn meet_one(slot: &mut Slot, coming: &mut Vec<Slot>)
    requires fresh { AreFresh coming.old.items }
    requires same { KeepSteps (map (λ (p : ComponentState). p.fitted) coming.old.items) (slot.old ∷ []) }
    ensures met { slot.new ≡ fate (map coming_of coming.old.items) slot.old }
    ensures rest { coming.new.items ≡ without (component_name slot.old) coming.old.items }
{
    match take_named(coming, slot.name()) {
        None => slot.leave(),
        Some(new) => slot.meet(new),
    }
}

fn meet_each(slots: &mut [Slot], coming: &mut Vec<Slot>)
    requires fresh { AreFresh coming.old.items }
    requires apart { AreNamesApart (map component_name slots.old) }
    requires coming_apart { AreNamesApart (map component_name coming.old.items) }
    requires same { KeepSteps (map (λ (p : ComponentState). p.fitted) coming.old.items) slots.old }
    ensures met { slots.new ≡ map (fate (map coming_of coming.old.items)) slots.old }
    ensures rest { coming.new.items ≡ unmet slots.old coming.old.items }
{
    for slot in slots.iter_mut() {
        meet_one(slot, coming);
    }
}

/// Each meets what comes for it, or goes away.
fn meet_in(slots: &mut Vec<Slot>, coming: &mut Vec<Slot>)
    requires fresh { AreFresh coming.old.items }
    requires apart { AreNamesApart (map component_name slots.old.items) }
    requires coming_apart { AreNamesApart (map component_name coming.old.items) }
    requires same { KeepSteps (map (λ (p : ComponentState). p.fitted) coming.old.items) slots.old.items }
    ensures met { slots.new.items ≡ map (fate (map coming_of coming.old.items)) slots.old.items }
    ensures rest { coming.new.items ≡ unmet slots.old.items coming.old.items }
{
    meet_each(slots.as_mut_slice(), coming);
}

/// Those whose place another item takes, or their own one anew, get a flag.
fn flag_each(slots: &[Slot], flags: &mut Vec<bool>)
    requires empty { flags.old.items ≡ [] }
    requires room { length slots.now ≤ vec_capacity flags.old }
    ensures flags { flags.new.items ≡ map is_replacing slots.now }
    ensures capacity { vec_capacity flags.new ≡ vec_capacity flags.old }
{
    for slot in slots {
        flags.push_reserved(slot.is_replacing());
    }
}

fn flag_replacing(slots: &Vec<Slot>, flags: &mut Vec<bool>)
    requires empty { flags.old.items ≡ [] }
    requires room { length slots.now.items ≤ vec_capacity flags.old }
    ensures flagged { with_flags slots.now.items flags.new.items ≡ flagged is_replacing slots.now.items }
    ensures many { length flags.new.items ≡ length slots.now.items }
    ensures capacity { vec_capacity flags.new ≡ vec_capacity flags.old }
{
    flag_each(slots.as_slice(), flags);
}

fn replan_in(slots: &mut Vec<Slot>, flags: &mut Vec<bool>)
    requires flags { with_flags slots.old.items flags.old.items ≡ flagged is_replacing slots.old.items }
    requires many { length flags.old.items ≡ length slots.old.items }
    requires names { AreNamesApart (map component_name slots.old.items) }
    ensures replanned { slots.new.items ≡ replanned slots.old.items }
    ensures many { length flags.new.items ≡ length flags.old.items }
    ensures capacity { vec_capacity flags.new ≡ vec_capacity flags.old }
{
    replan(slots.as_mut_slice(), flags.as_mut_slice());
}

/// Those that reach one whose place another item takes are to be restarted.
fn restart_all(slots: &mut Vec<Slot>, flags: &mut Vec<bool>)
    requires empty { flags.old.items ≡ [] }
    requires room { length slots.old.items ≤ vec_capacity flags.old }
    requires names { AreNamesApart (map component_name slots.old.items) }
    ensures replanned { slots.new.items ≡ replanned slots.old.items }
    ensures many { length flags.new.items ≡ length slots.old.items }
    ensures capacity { vec_capacity flags.new ≡ vec_capacity flags.old }
{
    flag_replacing(slots, flags);
    replan_in(slots, flags);
}

/// All of them are put behind those that are there.
fn move_all(slots: &mut Vec<Slot>, room: &mut Vec<Slot>)
    requires empty { room.old.items ≡ [] }
    requires room { length slots.old.items ≤ vec_capacity room.old }
    ensures moved { room.new.items ≡ slots.old.items }
    ensures capacity { vec_capacity room.old ≤ vec_capacity room.new }
{
    if room.append(slots).is_err() {
        unreachable!();
    }
}

fn is_before_at(slots: &[Slot], at: usize, name: &Name) -> bool
    requires { at < length slots.now }
    ensures { At at (λ p. result ≡ is_name_before name.now (component_name p)) slots.now }
{
    matches!(name.cmp(slots[at].name()), Ordering::Less)
}

/// Where one of this name is to stand.
fn place_among(slots: &[Slot], name: &Name) -> usize
    ensures within { result ≤ length slots.now }
    ensures placed { (p : ComponentState) → component_name p ≡ name.now → insert slots.now result p ≡ placed p slots.now }
{
    for at in 0..slots.len() {
        if is_before_at(slots, at, name) {
            return at;
        }
    }
    slots.len()
}

fn insert_at(room: &mut Vec<Slot>, at: usize, slot: Slot)
    requires within { at ≤ vec_len room.old }
    requires room { vec_len room.old < vec_capacity room.old }
    ensures items { room.new.items ≡ insert room.old.items at slot }
    ensures len { vec_len room.new ≡ vec_len room.old + 1 }
    ensures capacity { vec_capacity room.new ≡ vec_capacity room.old }
{
    match room.insert(at, slot) {
        Ok(()) => {}
        Err(_) => unreachable!(),
    }
}

/// It is put among the others, in the order of the names.
fn place(room: &mut Vec<Slot>, slot: Slot)
    requires { vec_len room.old < vec_capacity room.old }
    ensures placed { room.new.items ≡ placed slot room.old.items }
    ensures len { vec_len room.new ≡ vec_len room.old + 1 }
    ensures capacity { vec_capacity room.new ≡ vec_capacity room.old }
{
    let at = place_among(room.as_slice(), slot.name());
    insert_at(room, at, slot);
}

/// Those that did not stand before are put among the others, the last one first.
fn place_all(room: &mut Vec<Slot>, flags: &mut Vec<bool>, mut coming: Vec<Slot>)
    requires room { vec_len room.old + vec_len coming ≤ vec_capacity room.old }
    requires flags { vec_len flags.old + vec_len coming ≤ vec_capacity flags.old }
    requires many { vec_len flags.old ≡ vec_len room.old }
    ensures placed { room.new.items ≡ with_newcomers coming.items room.old.items }
    ensures many { vec_len flags.new ≡ vec_len room.new }
    ensures few { vec_len room.new ≡ vec_len room.old + vec_len coming }
{
    'rest: while let Some(slot) = coming.pop() {
        place(room, slot);
        flags.push_reserved(false);
    }
}

/// Those that stand meet what comes for them, and those are restarted that reach a replaced one.
fn meet_all(slots: &mut Vec<Slot>, coming: &mut Vec<Slot>, flags: &mut Vec<bool>)
    requires fresh { AreFresh coming.old.items }
    requires names { HaveNames slots.old.items }
    requires coming_apart { AreNamesApart (map component_name coming.old.items) }
    requires same { KeepSteps (map (λ (p : ComponentState). p.fitted) coming.old.items) (standing slots.old.items) }
    requires empty { flags.old.items ≡ [] }
    requires room { length (standing slots.old.items) ≤ vec_capacity flags.old }
    ensures met { slots.new.items ≡ replanned (map (fate (map coming_of coming.old.items)) (standing slots.old.items)) }
    ensures rest { coming.new.items ≡ unmet (standing slots.old.items) coming.old.items }
    ensures parts { length slots.new.items ≡ length (standing slots.old.items) }
    ensures many { length flags.new.items ≡ length (standing slots.old.items) }
    ensures capacity { vec_capacity flags.new ≡ vec_capacity flags.old }
{
    drop_over(slots);
    meet_in(slots, coming);
    restart_all(slots, flags);
}

/// Other items are to run, by the vectors that hold the components.
pub(crate) fn change_in(
    slots: &mut Vec<Slot>,
    flags: &mut Vec<bool>,
    ready: Ready,
    failures: &[u8; 128],
)
    requires room { length (standing slots.old.items) ≤ ready.room }
    requires few { All (λ (n : ℕ). n < 3) failures.now }
    requires names { HaveNames slots.old.items }
    requires same { KeepSteps ready.coming (standing slots.old.items) }
    ensures changed { slots.new.items ≡ with_items (counted 0 failures.now ready.coming) (standing slots.old.items) }
    ensures many { length flags.new.items ≡ length slots.new.items }
    ensures few { length slots.new.items < 2 ^ 32 }
    ensures coming_apart { AreNamesApart (map name_of ready.coming) }
{
    let mut coming = ready.coming;
    let mut room = ready.room;
    let mut marks = ready.flags;
    begin_all(&mut coming, failures);
    meet_all(slots, &mut coming, &mut marks);
    move_all(slots, &mut room);
    place_all(&mut room, &mut marks, coming);
    swap(slots, &mut room);
    swap(flags, &mut marks);
    drop(room);
    drop(marks);
    link(slots.as_slice());
}
