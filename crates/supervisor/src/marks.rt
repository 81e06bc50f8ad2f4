//! Who is stopped because of another: those that reach it by hard needs.
ghost use Rattle.std.specs.Prelude.{◌≡◌, ◌<◌, ◌&&◌, ◌||◌, true, false, if◌then◌else◌, slice_set, get_or, length, map};
ghost use Rattle.components.specs.Components.{ComponentState, At, component_name};
ghost use Rattle.std.specs.Str.{bytes_eq};
ghost use Rattle.std.specs.Prelude.{List as ListOf};
ghost use Rattle.components.specs.Flags.{with_flags, may_by, joins as joins_at, HasSpread, SpreadOutcome};
ghost use Rattle.components.specs.Changes.{is_replacing, replanned};
ghost use Rattle.components.specs.Readied.{AreNamesApart};
ghost use Rattle.components.specs.Marks.{is_flagged as is_named_flagged, needs_flagged as are_needs_flagged, reaching, marked, restarted, flagged};
ghost use Rattle.components.specs.Marks.{flagged_at, may_restart};

use crate::needs::{Need, User};
use crate::places::{first_user, found_place, put_where, rest_after, user_after};
use crate::slot::Slot;
use nuc_base::Name;

/// Whether the component there has a flag and this name.
fn is_flagged_at(slots: &[Slot], flags: &[bool], at: usize, name: &Name) -> bool
    requires at { at < length slots.now }
    requires many { length flags.now ≡ length slots.now }
    ensures { At at (λ p. result ≡ (get_or flags.now at false && bytes_eq (component_name p) name.now)) slots.now }
{
    flags[at] && *slots[at].name() == *name
}

/// Whether a component of this name has a flag.
fn is_flagged(slots: &[Slot], flags: &[bool], name: &Name) -> bool
    requires { length flags.now ≡ length slots.now }
    ensures { result ≡ is_named_flagged name.now (with_flags slots.now flags.now) }
{
    for at in 0..slots.len() {
        if is_flagged_at(slots, flags, at, name) {
            return true;
        }
    }
    false
}

/// Whether the one that is needed has a flag.
fn is_need_flagged(slots: &[Slot], flags: &[bool], need: &Need) -> bool
    requires many { length flags.now ≡ length slots.now }
    requires names { AreNamesApart (map component_name slots.now) }
    ensures { result ≡ is_named_flagged need.now (with_flags slots.now flags.now) }
{
    match found_place(slots, need) {
        Some(at) => flags[at],
        None => is_flagged(slots, flags, need.name()),
    }
}

/// Whether one of those that are needed has a flag.
fn needs_flagged(slots: &[Slot], flags: &[bool], needs: &[Need]) -> bool
    requires many { length flags.now ≡ length slots.now }
    requires names { AreNamesApart (map component_name slots.now) }
    ensures { result ≡ are_needs_flagged needs.now (with_flags slots.now flags.now) }
{
    for need in needs {
        if is_need_flagged(slots, flags, need) {
            return true;
        }
    }
    false
}

/// Whether the component there has no flag yet and needs one that has.
fn joins(slots: &[Slot], flags: &[bool], at: usize) -> bool
    requires at { at < length slots.now }
    requires many { length flags.now ≡ length slots.now }
    requires names { AreNamesApart (map component_name slots.now) }
    ensures { At at (λ p. result ≡ joins_at slots.now flags.now at p) slots.now }
{
    !flags[at] && needs_flagged(slots, flags, slots[at].hard())
}

/// The component there gets a flag, where it needs one that has. The answer is whether it got it now.
fn join_at(slots: &[Slot], flags: &mut [bool], at: usize) -> bool
    requires at { at < length slots.now }
    requires many { length flags.old ≡ length slots.now }
    requires names { AreNamesApart (map component_name slots.now) }
    ensures joined { At at (λ p. result ≡ joins_at slots.now flags.old at p) slots.now }
    ensures flags { flags.new ≡ (if result then slice_set flags.old at true else flags.old) }
{
    let joined = joins(slots, flags, at);
    if joined {
        flags[at] = true;
    }
    joined
}

fn either(a: bool, b: bool) -> bool
    ensures { result ≡ (a || b) }
{
    a || b
}

/// Gives a flag to those that need one with a flag, in one pass. The answer is whether there was any.
fn spread_once(slots: &[Slot], flags: &mut [bool]) -> bool
    requires many { length flags.old ≡ length slots.now }
    requires names { AreNamesApart (map component_name slots.now) }
    ensures { SpreadOutcome slots.now flags.old flags.new result }
{
    let mut grew = false;
    for at in 0..slots.len() {
        let joined = join_at(slots, flags, at);
        grew = either(grew, joined);
    }
    grew
}

/// Whether the need of this number is there and has a flag.
fn is_flagged_need(slots: &[Slot], flags: &[bool], needs: &[Need], at: usize) -> bool
    requires many { length flags.now ≡ length slots.now }
    requires names { AreNamesApart (map component_name slots.now) }
    ensures { result ≡ true → are_needs_flagged needs.now (with_flags slots.now flags.now) ≡ true }
{
    if at >= needs.len() {
        return false;
    }
    is_need_flagged(slots, flags, &needs[at])
}

/// Whether the user has no flag yet and needs one that has.
fn joins_as(slots: &[Slot], flags: &[bool], user: User) -> bool
    requires many { length flags.now ≡ length slots.now }
    requires names { AreNamesApart (map component_name slots.now) }
    ensures { result ≡ true → At user.component (λ p. are_needs_flagged p.fitted.hard (with_flags slots.now flags.now) ≡ true) slots.now }
{
    let at = user.component;
    if at >= slots.len() {
        return false;
    }
    if flags[at] {
        return false;
    }
    is_flagged_need(slots, flags, slots[at].hard(), user.need)
}

/// The user gets a flag, where it needs one that has. The answer is whether it got it now.
fn join_user(slots: &[Slot], flags: &mut [bool], user: User) -> bool
    requires many { length flags.old ≡ length slots.now }
    requires names { AreNamesApart (map component_name slots.now) }
    ensures { HasSpread slots.now flags.old flags.new }
{
    let at = user.component;
    if !joins_as(slots, flags, user) {
        return false;
    }
    flags[at] = true;
    true
}

/// Those that are known to need the component there get a flag, and are put before the others that are still to be gone on
/// from. The answer is the first one of these.
fn join_users(slots: &[Slot], flags: &mut [bool], at: usize) -> Option<usize>
    requires many { length flags.old ≡ length slots.now }
    requires names { AreNamesApart (map component_name slots.now) }
    ensures { HasSpread slots.now flags.old flags.new }
{
    let mut first = rest_after(slots, at);
    let mut user = first_user(slots, at);
    for turn in 0..slots.len() {
        let Some(this) = user else {
            return first;
        };
        let joined = join_user(slots, flags, this);
        first = put_where(slots, joined, this.component, first);
        user = user_after(slots, this);
    }
    first
}

/// Those that have a flag, one before the other: the first one of them.
fn first_flagged(slots: &[Slot], flags: &[bool]) -> Option<usize> {
    let mut first = None;
    for (at, flag) in flags.iter().enumerate() {
        first = put_where(slots, *flag, at, first);
    }
    first
}

/// Gives a flag to those that are known to reach one with a flag, in one pass over them: it mostly leaves none to the others.
fn spread_known(slots: &[Slot], flags: &mut [bool])
    requires many { length flags.old ≡ length slots.now }
    requires names { AreNamesApart (map component_name slots.now) }
    ensures { HasSpread slots.now flags.old flags.new }
{
    let mut first = first_flagged(slots, flags);
    for turn in 0..slots.len() {
        let Some(at) = first else {
            return;
        };
        first = join_users(slots, flags, at);
    }
}

/// Gives a flag to all that reach one with a flag.
fn spread(slots: &[Slot], flags: &mut [bool])
    requires many { length flags.old ≡ length slots.now }
    requires names { AreNamesApart (map component_name slots.now) }
    ensures reached { with_flags slots.now flags.new ≡ reaching (length slots.now) (with_flags slots.now flags.old) }
    ensures many { length flags.new ≡ length flags.old }
{
    spread_known(slots, flags);
    'rounds: loop {
        if !spread_once(slots, flags) {
            return;
        }
    }
}

/// The component alone gets a flag.
fn flag_one(flags: &mut [bool], at: usize)
    requires { at < length flags.old }
    ensures one { (ps : ListOf ComponentState) → length ps ≡ length flags.old → with_flags ps flags.new ≡ flagged_at at ps }
    ensures many { length flags.new ≡ length flags.old }
{
    flags.fill(false);
    flags[at] = true;
}

/// Those that have a flag and may be are to be restarted.
fn mark(slots: &mut [Slot], flags: &[bool], anyway: bool)
    requires { length flags.now ≡ length slots.old }
    ensures { slots.new ≡ marked (may_by anyway) (with_flags slots.old flags.now) }
{
    for at in 0..slots.len() {
        let reached = flags[at];
        slots[at].restart_by(reached, anyway);
    }
}

/// The component there left RUNNING or FINISHED by an error: those that reach it are to be restarted.
pub(crate) fn restart_from(slots: &mut [Slot], flags: &mut [bool], at: usize)
    requires at { at < length slots.old }
    requires many { length flags.old ≡ length slots.old }
    requires names { AreNamesApart (map component_name slots.old) }
    ensures restarted { slots.new ≡ restarted may_restart (flagged_at at slots.old) }
    ensures many { length flags.new ≡ length flags.old }
{
    flag_one(flags, at);
    spread(slots, flags);
    mark(slots, flags, false);
}

/// Those that reach one with a flag are to be restarted, in whatever state. Each whose place another item takes has a flag.
pub(crate) fn replan(slots: &mut [Slot], flags: &mut [bool])
    requires flags { with_flags slots.old flags.old ≡ flagged is_replacing slots.old }
    requires many { length flags.old ≡ length slots.old }
    requires names { AreNamesApart (map component_name slots.old) }
    ensures replanned { slots.new ≡ replanned slots.old }
    ensures many { length flags.new ≡ length flags.old }
{
    spread(slots, flags);
    mark(slots, flags, true);
}
