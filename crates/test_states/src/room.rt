// Room is made before a plan is accepted.
ghost use Rattle.std.specs.Prelude.{◌≡◌};
ghost use Rattle.device.specs.Devices.{device_view};
ghost use Rattle.deploy_state.specs.Objects.{OwnsOver};
ghost use Rattle.deploy_state.specs.States.{OwnsIdle, idle_device};

use crate::offers::{accept, begin, close, take_plan};
use crate::stores::record_named;
use crate::walks::found;
use checkpoint_log::Slots;
use deploy_state::{AcceptRefusal, Idle, LoadFault};
use device::Device;
use disk_model::{Disk, FusedDisk, MemoryDisk, Pick};
use gate_log::{Journal, Log};
use nuc_base::List;
use std::alloc::Global;
use std::test::Fail;

/// How far a store was brought.
#[derive(Clone, Copy, Debug, PartialEq, Eq)]
enum Brought {
    /// There is none.
    Nowhere,
    Made,
    /// The disk failed where it was asked for room, and the state was handed back.
    NoRoom,
    Accepted,
    Closed,
}

/// Whether the plan of these bytes is handed back for want of room.
fn is_roomless<D: Disk, J: Journal + Drop>(
    alloc: Global,
    disk: &mut D,
    idle: Idle<J>,
    twin: &mut Device,
    bytes: &[u8],
) -> bool
    requires held { OwnsOver D.Disk J.Journal OwnsIdle idle disk.old }
    requires twin { device_view twin.old ≡ idle_device idle }
{
    let Some(plan) = take_plan(alloc, twin, bytes) else {
        drop(idle);
        return false;
    };
    matches!(
        idle.accept(alloc, disk, plan),
        Err(AcceptRefusal::NoRoom(_))
    )
}

/// Makes a store, and asks whether the plan is handed back for want of room.
fn refuse<D: Disk, J: Journal + Drop>(alloc: Global, disk: &mut D) -> Brought {
    match begin::<D, J>(alloc, disk) {
        Some((idle, twin)) => {
            let mut twin = twin;
            if is_roomless(alloc, disk, idle, &mut twin, record_named("plan")) {
                Brought::NoRoom
            } else {
                Brought::Made
            }
        }
        None => Brought::Nowhere,
    }
}

/// Makes a store, accepts the plan and brings its deployment to its close.
fn bring<D: Disk, J: Journal + Drop>(alloc: Global, disk: &mut D) -> Brought {
    let Some((idle, twin)) = begin::<D, J>(alloc, disk) else {
        return Brought::Nowhere;
    };
    let mut twin = twin;
    let Some(booting) = accept(alloc, disk, idle, &mut twin, record_named("plan"), b"d9") else {
        return Brought::Made;
    };
    match close(alloc, disk, booting, &mut twin) {
        Some(idle) => {
            drop(idle);
            Brought::Closed
        }
        None => Brought::Accepted,
    }
}

/// Whether a store that was brought so far before the disk stopped may be found so.
fn may_find(brought: Brought, found: Result<u32, LoadFault>) -> bool {
    match found {
        Err(fault) => brought == Brought::Nowhere && fault == LoadFault::NotInitialised,
        Ok(0) => brought == Brought::Nowhere || brought == Brought::Made,
        Ok(100) => brought == Brought::Made || brought == Brought::Accepted,
        Ok(200) => brought == Brought::Accepted,
        Ok(1) => brought == Brought::Accepted || brought == Brought::Closed,
        Ok(_) => false,
    }
}

/// How far a store is brought on a disk that stops after so many calls, if each image may be found so.
fn stopped<J: Journal + Drop>(alloc: Global, stop: u64) -> Result<Option<Brought>, Fail> {
    let mut disk = FusedDisk::new(MemoryDisk::new(alloc), stop, List::empty(alloc));
    let brought = bring::<FusedDisk, J>(alloc, &mut disk);
    for pick in [Pick::Old, Pick::New, Pick::Fill(0x01)] {
        let mut image = disk.disk().image(alloc, pick)?;
        let found = found::<J>(alloc, &mut image);
        drop(image);
        if !may_find(brought, found) {
            return Ok(None);
        }
    }
    Ok(Some(brought))
}

/// Whether each image may be found so, after each count of calls up to that of the whole.
fn goes<J: Journal + Drop>(alloc: Global) -> Result<bool, Fail> {
    for stop in 0..100u64 {
        match stopped::<J>(alloc, stop)? {
            Some(Brought::Closed) => return Ok(true),
            Some(_) => {}
            None => return Ok(false),
        }
    }
    Ok(false)
}

#[test]
fn an_acceptance_with_room_is_whole_or_not_there(rt: HostRuntime) -> Result<(), Fail> {
    let alloc = rt.alloc();
    assert!(rt; goes::<Log>(alloc)? && goes::<Slots>(alloc)?);
    Ok(())
}

/// Whether a plan is handed back where the disk has room for its entry and not for what may follow it, and accepted and
/// brought to its close where it has both.
fn keeps_room<J: Journal + Drop>(alloc: Global) -> bool {
    let mut small = MemoryDisk::new(alloc).with_room(2_097_152);
    let refused = refuse::<MemoryDisk, J>(alloc, &mut small);
    let left = found::<J>(alloc, &mut small);
    drop(small);
    let mut large = MemoryDisk::new(alloc).with_room(2_100_000);
    let brought = bring::<MemoryDisk, J>(alloc, &mut large);
    drop(large);
    refused == Brought::NoRoom && left == Ok(0) && brought == Brought::Closed
}

#[test]
fn a_full_disk_accepts_no_plan_that_it_cannot_close(rt: HostRuntime) -> Result<(), Fail> {
    let alloc = rt.alloc();
    assert!(rt; keeps_room::<Log>(alloc) && keeps_room::<Slots>(alloc));
    Ok(())
}
