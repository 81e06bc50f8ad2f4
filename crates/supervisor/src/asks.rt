//! What is asked of all components.
ghost use Rattle.std.specs.Prelude.{◌≡◌, ◌<◌, ◌&&◌, ◌||◌, ◌==◌, not, length, map, option_map, option_and_then, filter, Some, IsSome, IfSome, slice_get, ◌^◌, ◌+◌, ℕ};
ghost use Rattle.std.specs.List.{list_any, find};
ghost use Rattle.components.specs.Answers.{child_numbers, living_numbers};
ghost use Rattle.components.specs.Deadlines.{least_of, earlier};
ghost use Rattle.components.specs.Numbers.{number_above, least_above, IsNumberAt};
ghost use Rattle.components.specs.Readied.{AreApart};
ghost use Rattle.components.specs.Fitted.{prepared_of};
ghost use Rattle.components.specs.Components.{At, component_name, is_over, stands_up, is_broken as is_state_broken, is_down, owner};
ghost use Rattle.components.specs.Views.{shown_at};
ghost use Rattle.step_runner.specs.Views.{shown_as};

use crate::children::{child_of, earlier_of, least_with};
use crate::slot::Slot;
use components::{Child, Prepared};
use nuc_base::{Name, Step};
use recipe_reader::Skip;
use step_runner::{Command, ViewedComponent};

/// Whether it stands, and is not up or is to be stopped.
fn is_unsettled(slot: &Slot) -> bool
    ensures { result ≡ not (is_over slot.now || stands_up slot.now) }
{
    !(slot.is_over() || slot.stands_up())
}

fn is_standing(slot: &Slot) -> bool
    ensures { result ≡ not (is_over slot.now) }
{
    !slot.is_over()
}

fn any_unsettled(slots: &[Slot]) -> bool
    ensures { result ≡ list_any (λ p. not (is_over p || stands_up p)) slots.now }
{
    slots.iter().any(|slot| is_unsettled(slot))
}

fn any_standing(slots: &[Slot]) -> bool
    ensures { result ≡ list_any (λ p. not (is_over p)) slots.now }
{
    slots.iter().any(|slot| is_standing(slot))
}

pub(crate) fn are_settled(slots: &[Slot]) -> bool
    ensures { result ≡ not (list_any (λ p. not (is_over p || stands_up p)) slots.now) }
{
    !any_unsettled(slots)
}

pub(crate) fn are_stopped(slots: &[Slot]) -> bool
    ensures { result ≡ not (list_any (λ p. not (is_over p)) slots.now) }
{
    !any_standing(slots)
}

pub(crate) fn broken_in(slots: &[Slot]) -> Option<&Name>
    ensures { option_map (λ n. n.now) result ≡ option_map component_name (find (λ p. is_state_broken p.life.state && not p.life.gone) slots.now) }
{
    match slots
        .iter()
        .find(|slot| slot.is_broken() && !slot.is_gone())
    {
        None => None,
        Some(slot) => Some(slot.name()),
    }
}

fn is_down(slot: &Slot) -> bool
    ensures { result ≡ is_down slot.now }
{
    slot.is_broken() && !(slot.is_to_stop() || slot.is_gone())
}

pub(crate) fn broken_among(slots: &[Slot]) -> usize
    ensures { result ≡ length (filter is_down slots.now) }
{
    let mut down = 0;
    for slot in slots {
        if is_down(slot) {
            down += 1;
        }
    }
    down
}

pub(crate) fn deadline_in(slots: &[Slot]) -> Option<u64>
    ensures { result ≡ least_of slots.now }
{
    let mut least = None;
    for slot in slots {
        least = least_with(slot.children(), least);
    }
    least
}

pub(crate) fn name_at(slots: &[Slot], at: u32) -> &Name
    requires { at < length slots.now }
    ensures { slice_get (map component_name slots.now) at ≡ Some result.now }
{
    slots[at as usize].name()
}

fn prepared_at(slots: &[Slot], at: u32, step: Step) -> &Prepared
    requires { At at (λ p. IsSome (prepared_of p.fitted step)) slots.now }
    ensures { At at (λ p. prepared_of p.fitted step ≡ Some result.now) slots.now }
{
    let slot = &slots[at as usize];
    match slot.step(step) {
        Some(prepared) => prepared,
        None => unreachable!(),
    }
}

pub(crate) fn command_at(slots: &[Slot], at: u32, step: Step) -> &Command
    requires { At at (λ p. IsSome (prepared_of p.fitted step)) slots.now }
    ensures { At at (λ p. option_map (λ m. m.command) (prepared_of p.fitted step) ≡ Some result.now) slots.now }
{
    &prepared_at(slots, at, step).command
}

pub(crate) fn skip_at(slots: &[Slot], at: u32, step: Step) -> Option<&Skip>
    requires { At at (λ p. IsSome (prepared_of p.fitted step)) slots.now }
    ensures { At at (λ p. option_and_then (λ m. m.skip) (prepared_of p.fitted step) ≡ option_map (λ s. s.now) result) slots.now }
{
    prepared_at(slots, at, step).skip.as_ref()
}

/// The child of this number, where it is one of the component there.
fn child_at(slots: &[Slot], at: u32, number: u64) -> Option<&Child>
    requires { at < length slots.now }
    ensures { At at (λ p. option_map (λ c. c.now) result ≡ find (λ c. c.number == number) p.children) slots.now }
{
    child_of(slots[at as usize].children(), number)
}

/// The component and the step of the living child of this number.
pub(crate) fn owner_of(slots: &[Slot], number: u64) -> Option<(u32, Step)>
    requires { length slots.now < 2 ^ 32 }
    ensures owner { result ≡ owner number slots.now }
    ensures below { IfSome result (λ x. x.0 < length slots.now) }
{
    for at in 0..slots.len() as u32 {
        if let Some(child) = child_at(slots, at, number) {
            return Some((at, child.of));
        }
    }
    None
}

/// The number, where it is above the last one.
fn above(number: u64, last: Option<u64>) -> Option<u64>
    ensures { result ≡ number_above last number }
{
    match last {
        None => Some(number),
        Some(last) => { if last < number { Some(number) } else { None } }
    }
}

/// The least number of these children that is above the last one, or another number that is less.
fn least_number(children: &[Child], last: Option<u64>, other: Option<u64>) -> Option<u64>
    ensures { result ≡ earlier other (least_above last (child_numbers children.now)) }
{
    let mut least = other;
    for child in children {
        least = earlier_of(least, above(child.number, last));
    }
    least
}

/// The least number of a living child that is above the last one.
pub(crate) fn next_number(slots: &[Slot], last: Option<u64>) -> Option<u64>
    ensures { result ≡ least_above last (living_numbers slots.now) }
{
    let mut least = None;
    for slot in slots {
        least = least_number(slot.children(), last, least);
    }
    least
}

/// The number that comes after another one, where there is one.
fn number_after(slots: &[Slot], found: Option<u64>) -> Option<u64>
    requires { AreApart (living_numbers slots.now) }
    ensures { (k : ℕ) → IsNumberAt (living_numbers slots.now) k found → IsNumberAt (living_numbers slots.now) (k + 1) result }
{
    match found {
        None => None,
        Some(number) => next_number(slots, Some(number)),
    }
}

/// The number of the child that so many living ones come before.
pub(crate) fn living_at(slots: &[Slot], at: u32) -> Option<u64>
    requires { AreApart (living_numbers slots.now) }
    ensures { IsNumberAt (living_numbers slots.now) at result }
{
    let mut found = next_number(slots, None);
    for turn in 0..at {
        found = number_after(slots, found);
    }
    found
}

/// What is shown of the one at that place, where it stands.
pub(crate) fn viewed_at(slots: &[Slot], place: usize) -> Option<ViewedComponent<'_>>
    requires { place < length slots.now }
    ensures { slice_get (map shown_at slots.now) place ≡ Some (option_map shown_as result) }
{
    slots[place].viewed()
}
