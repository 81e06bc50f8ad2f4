// A deployment is brought to its close, one step after another.
ghost use Rattle.std.specs.Prelude.{◌≡◌, None, IsTrue, true, false};
ghost use Rattle.std.specs.Option.{IfSome, IsSome, IsSomeAnd};
ghost use Rattle.nuc_base.specs.declared.kinds.Step.TheVariants as steps;
ghost use Rattle.records.specs.Stored as stored;
ghost use Rattle.device.specs.Devices.{device_view, pending_view};
ghost use Rattle.device.specs.Lawful.{Allowed, MayCount, broken};
ghost use Rattle.deploy_state.specs.Objects.{OwnsOver};
ghost use Rattle.deploy_state.specs.Fields.{IsBegun, broken_item, has_failed, next_name};
ghost use Rattle.deploy_state.specs.States.{OwnsActivating, OwnsBacking, OwnsBooting, OwnsLoaded, OwnsRolling, activating_device, backing_device};
ghost use Rattle.deploy_state.specs.States.{booting_device};

use deploy_state::{Activating, Backed, Backing, Booting, BrokeOff, Loaded, Rolling, load};
use device::{Device, Pending, broken_of, running_place};
use disk_model::Disk;
use gate_log::Journal;
use nuc_base::{Exit, Name, Policy, Step};
use std::alloc::Global;

/// Whether the beginning of the bootstrap step that comes next is recorded.
fn is_begun(device: &Device) -> bool
    ensures { IsTrue result → IsBegun (device_view device.now) }
{
    match &device.pending {
        Some(pending) => pending.begun,
        None => false,
    }
}

/// Whether this is what the pending deployment does where it fails.
fn has_policy(device: &Device, policy: Policy) -> bool
    ensures { IsTrue result → IsSomeAnd (device_view device.now).pending (λ q. q.plan.policy ≡ policy) }
{
    match &device.pending {
        Some(pending) => pending.plan.policy == policy,
        None => false,
    }
}

/// Whether no item has three failures.
fn is_whole(device: &Device) -> bool
    ensures { IsTrue result → IsSomeAnd (device_view device.now).pending (λ q. broken q ≡ None) }
{
    match &device.pending {
        Some(pending) => broken_of(&pending.failures).is_none(),
        None => false,
    }
}

/// Whether one more failure may be recorded at this place.
fn may_count(pending: &Pending, at: Option<usize>) -> bool
    ensures { IsTrue result → MayCount (pending_view pending.now) at }
{
    let Some(at) = at else {
        return false;
    };
    match pending.failures.get(at) {
        Some(count) => *count < 3,
        None => false,
    }
}

/// Whether such an end is a failure, and the item of this name runs and may fail once more.
fn may_fail(device: &Device, name: &Name, exit: Exit) -> bool
    ensures { IsTrue result → Allowed (device_view device.now) (stored.StepFailed name.now steps.Run exit) }
{
    if exit == Exit::Code(0) || exit == Exit::Code(100) {
        return false;
    }
    match &device.pending {
        Some(pending) => {
            let at = running_place(device.set.as_slice(), pending, name);
            may_count(pending, at)
        }
        None => false,
    }
}

/// How the bootstrap step ends that comes next: the first so, and each other with 0.
fn end_of(device: &Device, exit: Exit) -> Exit {
    match &device.pending {
        Some(pending) if pending.ended > 0 => Exit::Code(0),
        _ => exit,
    }
}

/// Takes the step that comes next where a bootstrap step failed.
#[tactic(auto, using(crate::proofs::Tested::can_keep, crate::proofs::Tested::can_break))]
fn end_booting<D: Disk, J: Journal + Drop>(disk: &mut D, booting: Booting<J>) -> Option<Loaded<J>>
    requires held { OwnsOver D.Disk J.Journal OwnsBooting booting disk.old }
    requires failed { has_failed (booting_device booting) ≡ true }
    ensures held { IfSome result (λ s. OwnsOver D.Disk J.Journal OwnsLoaded s disk.new) }
{
    if has_policy(booting.device(), Policy::DoNothing) {
        return match booting.keep(disk) {
            Ok(idle) => Some(Loaded::Idle(idle)),
            Err(_) => None,
        };
    }
    if booting.next().is_none() || !has_policy(booting.device(), Policy::Rollback) {
        drop(booting);
        return None;
    }
    match booting.break_off(disk) {
        Ok(BrokeOff::Backing(backing)) => Some(Loaded::Backing(backing)),
        Ok(BrokeOff::Rolling(rolling)) => Some(Loaded::Rolling(rolling)),
        Err(_) => None,
    }
}

/// Takes the bootstrap step that comes next. The first ends so.
#[tactic(auto, using(crate::proofs::Tested::can_begin, crate::proofs::Tested::can_end))]
fn boot_next<D: Disk, J: Journal + Drop>(
    disk: &mut D,
    booting: Booting<J>,
    exit: Exit,
) -> Option<Loaded<J>>
    requires held { OwnsOver D.Disk J.Journal OwnsBooting booting disk.old }
    requires next { IsSome (next_name (booting_device booting)) }
    requires well { has_failed (booting_device booting) ≡ false }
    ensures held { IfSome result (λ s. OwnsOver D.Disk J.Journal OwnsLoaded s disk.new) }
{
    if !is_begun(booting.device()) {
        return match booting.begin(disk) {
            Ok(booting) => Some(Loaded::Booting(booting)),
            Err(_) => None,
        };
    }
    let exit = end_of(booting.device(), exit);
    match booting.ended(disk, exit) {
        Ok(booting) => Some(Loaded::Booting(booting)),
        Err(_) => None,
    }
}

/// Takes the step that comes next. The first bootstrap step ends so.
#[tactic(auto, using(crate::proofs::Tested::can_activate))]
fn boot<D: Disk, J: Journal + Drop>(
    disk: &mut D,
    booting: Booting<J>,
    exit: Exit,
) -> Option<Loaded<J>>
    requires held { OwnsOver D.Disk J.Journal OwnsBooting booting disk.old }
    ensures held { IfSome result (λ s. OwnsOver D.Disk J.Journal OwnsLoaded s disk.new) }
{
    if booting.failed() {
        return end_booting(disk, booting);
    }
    if booting.next().is_some() {
        return boot_next(disk, booting, exit);
    }
    match booting.activate(disk) {
        Ok(activating) => Some(Loaded::Activating(activating)),
        Err(_) => None,
    }
}

/// Takes the step that comes next where an item has three failures.
#[tactic(auto, using(crate::proofs::Tested::can_keep_broken, crate::proofs::Tested::can_break_broken))]
fn end_activating<D: Disk, J: Journal + Drop>(
    disk: &mut D,
    activating: Activating<J>,
) -> Option<Loaded<J>>
    requires held { OwnsOver D.Disk J.Journal OwnsActivating activating disk.old }
    requires broken { IsSome (broken_item (activating_device activating)) }
    ensures held { IfSome result (λ s. OwnsOver D.Disk J.Journal OwnsLoaded s disk.new) }
{
    if has_policy(activating.device(), Policy::DoNothing) {
        return match activating.keep(disk) {
            Ok(idle) => Some(Loaded::Idle(idle)),
            Err(_) => None,
        };
    }
    if !has_policy(activating.device(), Policy::Rollback) {
        drop(activating);
        return None;
    }
    match activating.break_off(disk) {
        Ok(BrokeOff::Backing(backing)) => Some(Loaded::Backing(backing)),
        Ok(BrokeOff::Rolling(rolling)) => Some(Loaded::Rolling(rolling)),
        Err(_) => None,
    }
}

/// Takes the step that comes next. The item of this name runs so long as it may.
#[tactic(auto, using(crate::proofs::Tested::can_complete))]
fn activate<D: Disk, J: Journal + Drop>(
    disk: &mut D,
    activating: Activating<J>,
    exit: Exit,
    name: &Name,
) -> Option<Loaded<J>>
    requires held { OwnsOver D.Disk J.Journal OwnsActivating activating disk.old }
    ensures held { IfSome result (λ s. OwnsOver D.Disk J.Journal OwnsLoaded s disk.new) }
{
    if activating.broken().is_some() {
        return end_activating(disk, activating);
    }
    if may_fail(activating.device(), name, exit) {
        return match activating.failed(disk, name, Step::Run, exit) {
            Ok(activating) => Some(Loaded::Activating(activating)),
            Err(_) => None,
        };
    }
    if !is_whole(activating.device()) {
        drop(activating);
        return None;
    }
    match activating.complete(disk) {
        Ok(idle) => Some(Loaded::Idle(idle)),
        Err(_) => None,
    }
}

/// Takes the back that comes next. It ends so.
#[tactic(auto, using(crate::proofs::Tested::can_begin, crate::proofs::Tested::can_end))]
fn back_next<D: Disk, J: Journal + Drop>(
    disk: &mut D,
    backing: Backing<J>,
    exit: Exit,
) -> Option<Loaded<J>>
    requires held { OwnsOver D.Disk J.Journal OwnsBacking backing disk.old }
    requires next { IsSome (next_name (backing_device backing)) }
    requires well { has_failed (backing_device backing) ≡ false }
    ensures held { IfSome result (λ s. OwnsOver D.Disk J.Journal OwnsLoaded s disk.new) }
{
    if !is_begun(backing.device()) {
        return match backing.begin(disk) {
            Ok(backing) => Some(Loaded::Backing(backing)),
            Err(_) => None,
        };
    }
    match backing.ended(disk, exit) {
        Ok(Backed::Backing(backing)) => Some(Loaded::Backing(backing)),
        Ok(Backed::Rolling(rolling)) => Some(Loaded::Rolling(rolling)),
        Err(_) => None,
    }
}

/// Takes the back that comes next, where there is one.
fn go_back<D: Disk, J: Journal + Drop>(
    disk: &mut D,
    backing: Backing<J>,
    exit: Exit,
) -> Option<Loaded<J>>
    requires held { OwnsOver D.Disk J.Journal OwnsBacking backing disk.old }
    requires well { has_failed (backing_device backing) ≡ false }
    ensures held { IfSome result (λ s. OwnsOver D.Disk J.Journal OwnsLoaded s disk.new) }
{
    if backing.next().is_some() {
        return back_next(disk, backing, exit);
    }
    drop(backing);
    None
}

/// Takes the step that comes next. A back ends so.
#[tactic(auto, using(crate::proofs::Tested::can_close))]
fn back<D: Disk, J: Journal + Drop>(
    disk: &mut D,
    backing: Backing<J>,
    exit: Exit,
) -> Option<Loaded<J>>
    requires held { OwnsOver D.Disk J.Journal OwnsBacking backing disk.old }
    ensures held { IfSome result (λ s. OwnsOver D.Disk J.Journal OwnsLoaded s disk.new) }
{
    if !backing.failed() {
        return go_back(disk, backing, exit);
    }
    match backing.close(disk) {
        Ok(idle) => Some(Loaded::Idle(idle)),
        Err(_) => None,
    }
}

/// Takes the step that comes next. The item of this name runs so long as it may.
fn roll<D: Disk, J: Journal + Drop>(
    disk: &mut D,
    rolling: Rolling<J>,
    exit: Exit,
    name: &Name,
) -> Option<Loaded<J>>
    requires held { OwnsOver D.Disk J.Journal OwnsRolling rolling disk.old }
    ensures held { IfSome result (λ s. OwnsOver D.Disk J.Journal OwnsLoaded s disk.new) }
{
    if rolling.broken().is_none() && may_fail(rolling.device(), name, exit) {
        return match rolling.failed(disk, name, Step::Run, exit) {
            Ok(rolling) => Some(Loaded::Rolling(rolling)),
            Err(_) => None,
        };
    }
    match rolling.close(disk) {
        Ok(idle) => Some(Loaded::Idle(idle)),
        Err(_) => None,
    }
}

/// Takes the step that comes next: the state behind it, where one did and was recorded.
fn go<D: Disk, J: Journal + Drop>(
    disk: &mut D,
    state: Loaded<J>,
    exit: Exit,
    name: &Name,
) -> Option<Loaded<J>>
    requires held { OwnsOver D.Disk J.Journal OwnsLoaded state disk.old }
    ensures held { IfSome result (λ s. OwnsOver D.Disk J.Journal OwnsLoaded s disk.new) }
{
    match state {
        Loaded::Idle(idle) => {
            drop(idle);
            None
        }
        Loaded::Booting(booting) => boot(disk, booting, exit),
        Loaded::Activating(activating) => activate(disk, activating, exit, name),
        Loaded::Backing(backing) => back(disk, backing, exit),
        Loaded::Rolling(rolling) => roll(disk, rolling, exit, name),
    }
}

/// Goes on until the disk stops or nothing is pending, and counts the records.
fn drive_on<D: Disk, J: Journal + Drop>(
    disk: &mut D,
    state: Loaded<J>,
    exit: Exit,
    name: &Name,
) -> usize
    requires held { OwnsOver D.Disk J.Journal OwnsLoaded state disk.old }
{
    let mut state = state;
    for count in 0..20usize {
        match go(disk, state, exit, name) {
            Some(next) => state = next,
            None => return count,
        }
    }
    drop(state);
    20
}

/// Loads the store, and goes on until the disk stops or nothing is pending: how many records there were.
pub(crate) fn drive<D: Disk, J: Journal + Drop>(alloc: Global, disk: &mut D, exit: Exit) -> usize {
    let Ok(name) = Name::read(alloc, b"a") else {
        return 0;
    };
    match load::<D, J>(alloc, disk) {
        Ok(state) => drive_on(disk, state, exit, &name),
        Err(_) => 0,
    }
}
