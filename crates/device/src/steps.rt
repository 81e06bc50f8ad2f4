// The steps of a pending deployment.
ghost use Rattle.std.specs.Prelude.{◌≡◌, ◌≢◌, ◌↔◌, ◌≤◌, ◌<◌, length, IsTrue, map, is_some, option_map, true, position, nat_eq, slice_get, take, None, Some};
ghost use Rattle.std.specs.Prelude.{[], List, ℕ};
ghost use Rattle.device.specs.Devices.{pending_view, chosen};
ghost use Rattle.device.specs.Does.{HasActed};
ghost use Rattle.device.specs.Lawful.{MayBegin, MayEnd, MayActivate, MayFail, MayBreak, MayGoBack, MayClose, begun, boot_ended, one_ended, has_gone_back};
ghost use Rattle.device.specs.Lawful.{moved_on, activated, count_failure, rolled, sent_to, sent_back, next_boot, failing_name, broken_name, reach_of};
ghost use Rattle.device.specs.Lawful.{broken, goes_on, takes_plan, MayCount, counted, running, failing_place};
ghost use Rattle.records.specs.Stored.{item_view};

use crate::backs::tell_backs;
use crate::fault::ApplyFault;
use crate::named::place_of;
use crate::staged::{Pending, Stage};
use nuc_base::{Exit, Name, Outcome, Policy, Step};
use records::{Item, Origin};
use std::alloc::Global;

/// The name at this place among those with a flag.
fn flagged_at<'a>(flags: &[bool], names: &'a [Name], at: u32) -> Option<&'a Name>
    requires { length names.now ≤ length flags.now }
    ensures { option_map (λ n. n.now) result ≡ slice_get (chosen flags.now names.now) at }
{
    let mut left = at;
    for (place, name) in names.iter().enumerate() {
        let is_flagged = flags[place];
        if is_flagged {
            if left == 0 {
                return Some(name);
            }
            left -= 1;
        }
    }
    None
}

fn name_at(names: &[Name], at: usize) -> Option<&Name>
    ensures { option_map (λ n. n.now) result ≡ slice_get names.now at }
{
    match names.get(at) {
        Some(name) => Some(name),
        None => None,
    }
}

/// The bootstrap step that comes next: of the plan, or on the way back of those that run again. `None` where all are ended
/// and where components run.
pub fn next_of(pending: &Pending) -> Option<&Name>
    ensures { option_map (λ n. n.now) result ≡ next_boot (pending_view pending.now) }
{
    let boots = pending.plan.boots.as_slice();
    match pending.stage {
        Stage::Booting => name_at(boots, pending.ended as usize),
        Stage::Backing => flagged_at(
            &pending.back_flags,
            &boots[..pending.reach as usize],
            pending.ended,
        ),
        Stage::Activating | Stage::Rolling => None,
    }
}

fn is_name(found: Option<&Name>, name: &Name) -> bool
    ensures { IsTrue result ↔ (option_map (λ n. n.now) found.entry ≡ Some name.now) }
{
    match found {
        Some(other) => *other == *name,
        None => false,
    }
}

pub(crate) fn begin(pending: &mut Pending, name: &Name) -> Result<(), ApplyFault>
    ensures { HasActed (MayBegin name.now (pending_view pending.old)) (begun (pending_view pending.old)) (pending_view pending.old) (pending_view pending.new)
        result }
{
    if !pending.boot_failed && is_name(next_of(pending), name) && !pending.begun {
        pending.begun = true;
        Ok(())
    } else {
        Err(ApplyFault::NotLawful)
    }
}

pub(crate) fn goes_on(exit: Exit) -> bool
    ensures { result ≡ goes_on exit }
{
    match exit {
        Exit::Code(code) => code == 0 || code == 100 || code == 101,
        Exit::Signal | Exit::TimedOut | Exit::NotStarted | Exit::Lost => false,
    }
}

pub(crate) fn roll(pending: &mut Pending)
    ensures { pending_view pending.new ≡ rolled (pending_view pending.old) }
{
    pending.stage = Stage::Rolling;
    pending.failures = [0; 128];
}

fn end_one(pending: &mut Pending)
    requires { is_some (next_boot (pending_view pending.old)) ≡ true }
    ensures { pending_view pending.new ≡ one_ended (pending_view pending.old) }
{
    pending.ended += 1;
    pending.begun = false;
}

/// One more bootstrap step is ended, and behind the last back the items of the set are brought up.
pub(crate) fn move_on(pending: &mut Pending)
    requires { is_some (next_boot (pending_view pending.old)) ≡ true }
    ensures { pending_view pending.new ≡ moved_on (pending_view pending.old) }
{
    end_one(pending);
    if pending.stage == Stage::Backing && next_of(pending).is_none() {
        roll(pending);
    }
}

pub(crate) fn end(pending: &mut Pending, name: &Name, exit: Exit) -> Result<(), ApplyFault>
    ensures { HasActed (MayEnd name.now (pending_view pending.old)) (boot_ended exit (pending_view pending.old)) (pending_view pending.old)
        (pending_view pending.new) result }
{
    if !pending.boot_failed && is_name(next_of(pending), name) && pending.begun {
        if goes_on(exit) {
            move_on(pending);
        } else {
            pending.boot_failed = true;
        }
        Ok(())
    } else {
        Err(ApplyFault::NotLawful)
    }
}

pub(crate) fn activate(pending: &mut Pending) -> Result<(), ApplyFault>
    ensures { HasActed (MayActivate (pending_view pending.old)) (activated (pending_view pending.old)) (pending_view pending.old) (pending_view pending.new)
        result }
{
    if pending.stage == Stage::Booting && !pending.boot_failed && next_of(pending).is_none() {
        pending.stage = Stage::Activating;
        pending.failures = [0; 128];
        Ok(())
    } else {
        Err(ApplyFault::NotLawful)
    }
}

/// The first place with three failures.
pub fn broken_of(failures: &[u8; 128]) -> Option<usize>
    ensures { result ≡ position (nat_eq 3) failures.now }
{
    failures.iter().position(|count| 3 == *count)
}

fn count(pending: &mut Pending, at: Option<usize>) -> Result<(), ApplyFault>
    ensures { HasActed (MayCount (pending_view pending.old) at) (counted at (pending_view pending.old)) (pending_view pending.old) (pending_view pending.new)
        result }
{
    let Some(at) = at else {
        return Err(ApplyFault::NotLawful);
    };
    if at < 128 && pending.failures[at] < 3 {
        pending.failures[at] += 1;
        Ok(())
    } else {
        Err(ApplyFault::NotLawful)
    }
}

/// The place of the item of this name among those that run: the plan's, or in Rolling those of the set.
pub fn running_place(set: &[Item], pending: &Pending, name: &Name) -> Option<usize>
    ensures { result ≡ failing_place (map item_view set.now) (pending_view pending.now) name.now }
{
    match pending.stage {
        Stage::Booting | Stage::Backing => None,
        Stage::Activating => place_of(pending.plan.items.as_slice(), name),
        Stage::Rolling => place_of(set, name),
    }
}

pub(crate) fn fail(
    set: &[Item],
    pending: &mut Pending,
    name: &Name,
    step: Step,
    exit: Exit,
) -> Result<(), ApplyFault>
    ensures { HasActed (MayFail (map item_view set.now) name.now step exit (pending_view pending.old))
        (count_failure (map item_view set.now) name.now (pending_view pending.old)) (pending_view pending.old) (pending_view pending.new) result }
{
    if !matches!(step, Step::Install | Step::Run | Step::Startup) || exit == Exit::Code(0) {
        return Err(ApplyFault::NotLawful);
    }
    let at = running_place(set, pending, name);
    count(pending, at)
}

/// The plan's first component with three failures.
fn broken_in(pending: &Pending) -> Option<&Name>
    ensures { option_map (λ n. n.now) result ≡ broken_name (pending_view pending.now).plan.items (pending_view pending.now) }
{
    match broken_of(&pending.failures) {
        Some(at) => match pending.plan.items.as_slice().get(at) {
            Some(item) => Some(&item.name),
            None => None,
        },
        None => None,
    }
}

/// The component by which the deployment fails.
pub(crate) fn failing_of(pending: &Pending) -> Option<&Name>
    ensures { option_map (λ n. n.now) result ≡ failing_name (pending_view pending.now) }
{
    match pending.stage {
        Stage::Booting if pending.boot_failed => next_of(pending),
        Stage::Activating => broken_in(pending),
        _ => None,
    }
}

fn may_break(pending: &Pending, name: &Name) -> bool
    ensures { IsTrue result ↔ MayBreak name.now (pending_view pending.now) }
{
    pending.plan.policy == Policy::Rollback && is_name(failing_of(pending), name)
}

pub(crate) fn break_off(pending: &mut Pending, name: &Name) -> Result<(), ApplyFault>
    ensures { HasActed (MayBreak name.now (pending_view pending.old)) (rolled (pending_view pending.old)) (pending_view pending.old) (pending_view pending.new)
        result }
{
    if may_break(pending, name) {
        roll(pending);
        Ok(())
    } else {
        Err(ApplyFault::NotLawful)
    }
}

/// How many of the plan's bootstrap steps have begun, where the deployment fails.
fn reach_of(pending: &Pending) -> u32
    requires { is_some (failing_name (pending_view pending.now)) ≡ true }
    ensures value { result ≡ reach_of (pending_view pending.now) }
    ensures within { result ≤ length pending.now.plan.boots }
{
    match pending.stage {
        Stage::Booting => pending.ended + 1,
        _ => pending.plan.boots.as_slice().len() as u32,
    }
}

/// The way back begins with the bootstrap steps that have a flag.
pub(crate) fn send_back(pending: &mut Pending, flags: &[bool; 128])
    requires { is_some (failing_name (pending_view pending.old)) ≡ true }
    ensures { pending_view pending.new ≡ sent_to (chosen flags.now (take (reach_of (pending_view pending.old)) pending.old.plan.boots))
        (pending_view pending.old) }
{
    pending.reach = reach_of(pending);
    pending.back_flags = *flags;
    pending.stage = Stage::Backing;
    pending.ended = 0;
    pending.begun = false;
    pending.boot_failed = false;
    pending.failures = [0; 128];
}

/// Whether one of the bootstrap steps that have begun has a flag.
pub(crate) fn has_flag(pending: &Pending, flags: &[bool; 128]) -> bool
    requires { is_some (failing_name (pending_view pending.now)) ≡ true }
    ensures { IsTrue result ↔ (chosen flags.now (take (reach_of (pending_view pending.now)) pending.now.plan.boots) ≢ []) }
{
    let reach = reach_of(pending) as usize;
    let boots = pending.plan.boots.as_slice();
    flagged_at(flags, &boots[..reach], 0).is_some()
}

pub(crate) fn go_back(
    alloc: Global,
    origin: &Option<Origin>,
    set: &[Item],
    pending: &mut Pending,
    name: &Name,
) -> Result<(), ApplyFault>
    ensures { HasActed (MayGoBack origin.now (map item_view set.now) name.now (pending_view pending.old))
        (sent_back origin.now (map item_view set.now) (pending_view pending.old)) (pending_view pending.old) (pending_view pending.new) result }
{
    let Some(origin) = origin else {
        return Err(ApplyFault::NotLawful);
    };
    if !may_break(pending, name) {
        return Err(ApplyFault::NotLawful);
    }
    let mut flags = [false; 128];
    let are_told = tell_backs(
        alloc,
        &origin.platform,
        set,
        pending.plan.boots.as_slice(),
        &mut flags,
    )?;
    if !are_told {
        return Err(ApplyFault::NotLawful);
    }
    if !has_flag(pending, &flags) {
        return Err(ApplyFault::NotLawful);
    }
    send_back(pending, &flags);
    Ok(())
}

pub(crate) fn may_close(pending: &Pending, outcome: Outcome) -> bool
    ensures { IsTrue result ↔ MayClose (pending_view pending.now) outcome }
{
    let broken = broken_of(&pending.failures).is_some();
    match outcome {
        Outcome::Successful => pending.stage == Stage::Activating && !broken,
        Outcome::RollbackNotRequested => {
            pending.plan.policy == Policy::DoNothing
                && (pending.stage == Stage::Booting && pending.boot_failed
                    || pending.stage == Stage::Activating && broken)
        }
        Outcome::RollbackComplete => pending.stage == Stage::Rolling && !broken,
        Outcome::UnableToRollback => {
            pending.stage == Stage::Rolling && broken
                || pending.stage == Stage::Backing && pending.boot_failed
        }
    }
}

pub(crate) fn takes_plan(outcome: Outcome) -> bool
    ensures { result ≡ takes_plan outcome }
{
    matches!(outcome, Outcome::Successful | Outcome::RollbackNotRequested)
}
