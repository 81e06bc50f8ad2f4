// Deployments over a disk that stops after each count of calls.
use crate::driving::drive;
use crate::stores::disk_of;
use checkpoint_log::Slots;
use deploy_state::{LoadFault, Loaded, load};
use device::{Device, Pending, Stage};
use disk_model::{FusedDisk, MemoryDisk, Pick};
use gate_log::{Journal, Log};
use nuc_base::{Exit, List};
use std::alloc::Global;
use std::test::Fail;

/// How far the pending deployment is: the hundreds tell its stage, and the rest what was recorded in it.
fn told(pending: &Pending) -> u32 {
    let boots = pending
        .ended
        .saturating_mul(2)
        .saturating_add(u32::from(pending.begun))
        .saturating_add(if pending.boot_failed { 50 } else { 0 });
    let failures = u32::from(pending.failures[0]);
    match pending.stage {
        Stage::Booting => boots.saturating_add(100),
        Stage::Activating => failures + 200,
        Stage::Backing => boots.saturating_add(300),
        Stage::Rolling => failures + 400,
    }
}

/// How far the device is: with nothing pending, how many deployments closed.
fn tell(device: &Device) -> u32 {
    match &device.pending {
        Some(pending) => told(pending),
        None => device.closed.len().min(99) as u32,
    }
}

fn tell_state<J: Journal + Drop>(state: &Loaded<J>) -> u32 {
    match state {
        Loaded::Idle(idle) => tell(idle.device()),
        Loaded::Booting(booting) => tell(booting.device()),
        Loaded::Activating(activating) => tell(activating.device()),
        Loaded::Backing(backing) => tell(backing.device()),
        Loaded::Rolling(rolling) => tell(rolling.device()),
    }
}

/// How far the store is that is found.
pub(crate) fn found<J: Journal + Drop>(
    alloc: Global,
    disk: &mut MemoryDisk,
) -> Result<u32, LoadFault> {
    match load::<MemoryDisk, J>(alloc, disk) {
        Ok(state) => {
            let answer = tell_state(&state);
            drop(state);
            Ok(answer)
        }
        Err(fault) => Err(fault),
    }
}

/// A journal's records, how each step ends, and how far the store is after each record that follows.
const WALKS: &[(&str, Exit, &[u32])] = &[
    ("genesis plan", Exit::Code(0), &[100, 200, 1]),
    (
        "genesis two",
        Exit::Code(100),
        &[100, 101, 102, 103, 104, 200, 1],
    ),
    // It closes without a rollback.
    ("genesis boots-keep", Exit::Code(1), &[100, 101, 151, 1]),
    (
        "genesis bare-keep",
        Exit::Code(1),
        &[100, 200, 201, 202, 203, 1],
    ),
    // It is rolled back, which fails too.
    (
        "genesis bare activate close bare-again",
        Exit::Lost,
        &[100, 200, 201, 202, 203, 400, 401, 402, 403, 2],
    ),
    // The bootstrap step fails, and once more on the way back.
    (
        "genesis back activate close boots",
        Exit::Code(1),
        &[100, 101, 151, 300, 301, 351, 2],
    ),
    (
        "genesis back activate close boots begin-a end-a-1 failing-back-a",
        Exit::Code(0),
        &[300, 301, 400, 2],
    ),
];

/// Whether the image that is picked stands for the device before or with the record behind so many.
fn leaves<J: Journal + Drop>(
    alloc: Global,
    disk: &FusedDisk,
    pick: Pick,
    states: &[u32],
    count: usize,
) -> Result<bool, Fail> {
    let mut image = disk.disk().image(alloc, pick)?;
    let found = found::<J>(alloc, &mut image);
    drop(image);
    let Ok(told) = found else {
        return Ok(false);
    };
    let next = count.saturating_add(1);
    Ok(states.get(count) == Some(&told) || states.get(next) == Some(&told))
}

/// Goes on over a disk that stops: how many records were added, where each image stands for the device before or with the
/// next.
fn cut_off<J: Journal + Drop>(
    alloc: Global,
    disk: &mut FusedDisk,
    exit: Exit,
    states: &[u32],
) -> Result<Option<usize>, Fail> {
    let count = drive::<FusedDisk, J>(alloc, disk, exit);
    for pick in [Pick::Old, Pick::New, Pick::Fill(0x01)] {
        if !leaves::<J>(alloc, disk, pick, states, count)? {
            return Ok(None);
        }
    }
    Ok(Some(count))
}

/// The same over a disk with these records that stops after so many calls.
fn stopped<J: Journal + Drop>(
    alloc: Global,
    history: &str,
    exit: Exit,
    states: &[u32],
    stop: u64,
) -> Result<Option<usize>, Fail> {
    let mut disk = FusedDisk::new(disk_of(alloc, history)?, stop, List::empty(alloc));
    let added = cut_off::<J>(alloc, &mut disk, exit, states);
    drop(disk);
    added
}

/// Whether this holds after each count of calls up to that of the whole walk.
fn goes<J: Journal + Drop>(
    alloc: Global,
    history: &str,
    exit: Exit,
    states: &[u32],
) -> Result<bool, Fail> {
    for stop in 0..1000u64 {
        match stopped::<J>(alloc, history, exit, states, stop)? {
            Some(count) if count.saturating_add(1) == states.len() => return Ok(true),
            Some(_) => {}
            None => return Ok(false),
        }
    }
    Ok(false)
}

/// How many walks of the table go so.
fn count_walks<J: Journal + Drop>(
    alloc: Global,
    table: &[(&str, Exit, &[u32])],
) -> Result<usize, Fail> {
    let mut count = 0usize;
    for (history, exit, states) in table {
        if goes::<J>(alloc, history, *exit, states)? {
            count = count.saturating_add(1);
        }
    }
    Ok(count)
}

#[test]
fn each_image_stands_for_the_device(rt: HostRuntime) -> Result<(), Fail> {
    let alloc = rt.alloc();
    assert!(rt; count_walks::<Log>(alloc, WALKS)? == WALKS.len());
    assert!(rt; count_walks::<Slots>(alloc, WALKS)? == WALKS.len());
    Ok(())
}

/// Whether the disk has the journal of these records.
fn has_journal(alloc: Global, disk: &MemoryDisk, history: &str) -> Result<bool, Fail> {
    let whole = disk_of(alloc, history)?;
    let is_same = disk.file("journal") == whole.file("journal");
    drop(whole);
    Ok(is_same)
}

/// Whether the records of the walk with two bootstrap steps are these.
fn is_written<J: Journal + Drop>(alloc: Global) -> Result<bool, Fail> {
    let mut disk = disk_of(alloc, "genesis two")?;
    let count = drive::<MemoryDisk, J>(alloc, &mut disk, Exit::Code(100));
    let is_whole = has_journal(
        alloc,
        &disk,
        "genesis two begin-a end-a-100 begin-b end-b-0 activate close",
    );
    drop(disk);
    Ok(is_whole? && count == 6)
}

/// Whether a store of these records is refused so.
fn is_refused<J: Journal + Drop>(
    alloc: Global,
    history: &str,
    fault: LoadFault,
) -> Result<bool, Fail> {
    let mut disk = disk_of(alloc, history)?;
    let found = found::<J>(alloc, &mut disk);
    drop(disk);
    Ok(found == Err(fault))
}

/// Whether a journal without an entry is no store, and one with a record that is not lawful is damaged at its place.
fn refuses<J: Journal + Drop>(alloc: Global) -> Result<bool, Fail> {
    let is_none = is_refused::<J>(alloc, "", LoadFault::NotInitialised)?;
    let is_damaged = is_refused::<J>(alloc, "genesis close", LoadFault::Damaged(47))?;
    Ok(is_none && is_damaged)
}

#[test]
fn a_journal_is_its_records(rt: HostRuntime) -> Result<(), Fail> {
    let alloc = rt.alloc();
    assert!(rt; is_written::<Log>(alloc)? && refuses::<Log>(alloc)?);
    assert!(rt; is_written::<Slots>(alloc)? && refuses::<Slots>(alloc)?);
    Ok(())
}
