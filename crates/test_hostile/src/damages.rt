// Journals with one byte that somebody else changed: to 0, and to 255.
use crate::turns::store_after;
use checkpoint_log::Slots;
use deploy_state::{LoadFault, load};
use disk_model::{Disk, DiskFault, MemoryDisk};
use std::alloc::Global;
use std::process::Abort;
use std::test::Fail;
use test_calls::{HELLO, answer_alone, begin, hello_library};

/// Whether a device is found on the disk, or none, or damage.
fn is_told(alloc: Global, disk: &mut MemoryDisk) -> bool {
    match load::<MemoryDisk, Slots>(alloc, disk) {
        Ok(state) => {
            drop(state);
            true
        }
        Err(LoadFault::NotInitialised) => true,
        Err(LoadFault::Damaged(_)) => true,
        Err(LoadFault::Disk) => false,
        Err(LoadFault::NoMemory) => false,
    }
}

/// Writes this byte at this place of the file, where that has one.
fn put(disk: &mut MemoryDisk, file: &str, at: usize, byte: u8) -> Result<(), DiskFault> {
    if at >= disk.file(file).len() {
        return Ok(());
    }
    disk.write_at(file, at as u64, &[byte])?;
    disk.sync(file)
}

/// Whether one of these is told with this byte changed so. The disk is as before then.
fn is_told_with(
    alloc: Global,
    disk: &mut MemoryDisk,
    file: &str,
    at: usize,
    byte: u8,
) -> Result<bool, DiskFault> {
    let Some(before) = disk.file(file).get(at).copied() else {
        return Ok(true);
    };
    put(disk, file, at, byte)?;
    let is_told = is_told(alloc, disk);
    put(disk, file, at, before)?;
    Ok(is_told)
}

/// The first of so many places from this one on of which it is not, or none.
fn first_wrong(
    alloc: Global,
    disk: &mut MemoryDisk,
    file: &str,
    from: usize,
    count: usize,
) -> Result<Option<usize>, DiskFault> {
    for at in from..from.saturating_add(count) {
        for byte in [0x00, 0xff] {
            if !is_told_with(alloc, disk, file, at, byte)? {
                return Ok(Some(at));
            }
        }
    }
    Ok(None)
}

/// Deploys the first component.
fn deploy(alloc: Global, disk: &mut MemoryDisk) -> Result<(), Fail> {
    let mut library = hello_library(alloc, &[])?;
    let said = answer_alone(alloc, disk, &mut library, "deploy", HELLO, &[]);
    drop(library);
    drop(said?);
    Ok(())
}

/// The place behind the entry at this place, or none where its gate is closed.
fn behind(slot: &[u8], at: usize) -> Option<usize> {
    match slot.get(at..at.saturating_add(5))? {
        [0, ..] => None,
        [_, a, b, c, d] => {
            let len = u32::from_be_bytes([*a, *b, *c, *d]) as usize;
            Some(at.saturating_add(5).saturating_add(len))
        }
        _ => None,
    }
}

/// The place behind at most 500 entries of the slot.
fn end_of(slot: &[u8]) -> usize {
    let mut at = 0usize;
    for _entry in 0..500usize {
        match behind(slot, at) {
            Some(next) => at = next,
            None => return at,
        }
    }
    at
}

/// Changes each byte of its journal up to the closed gate and five bytes of what is kept free after that.
fn each_byte_is_told(rt: &impl Abort, alloc: Global, disk: &mut MemoryDisk) -> Result<(), Fail> {
    deploy(alloc, disk)?;
    let count = end_of(disk.file("journal")).saturating_add(6);
    // A start, an acceptance with a recipe of more than 500 bytes, and two records that are short.
    assert!(rt; count > 600);
    assert_eq!(rt; first_wrong(alloc, disk, "journal", 0, count)?, None);
    Ok(())
}

#[test]
fn each_byte_of_a_journal_may_be_changed(rt: HostRuntime) -> Result<(), Fail> {
    let mut disk = begin(rt.alloc())?;
    let told = each_byte_is_told(&rt, rt.alloc(), &mut disk);
    drop(disk);
    told
}

/// How many entries the slot has, where at the gate, the length and the first byte of each, and behind the last gate, any
/// such change is told; else the place of the first one that is not.
fn count_entries(
    alloc: Global,
    disk: &mut MemoryDisk,
    file: &str,
) -> Result<Result<usize, usize>, DiskFault> {
    let mut at = 0usize;
    for count in 0..500usize {
        if let Some(wrong) = first_wrong(alloc, disk, file, at, 6)? {
            return Ok(Err(wrong));
        }
        match behind(disk.file(file), at) {
            Some(next) => at = next,
            None => return Ok(Ok(count)),
        }
    }
    Ok(Err(at))
}

/// The same of this slot of a store that has just turned a second time: behind the 34th deployment.
fn count_of(alloc: Global, file: &str) -> Result<Result<usize, usize>, Fail> {
    let mut disk = store_after(alloc, 34)?;
    let count = count_entries(alloc, &mut disk, file);
    drop(disk);
    Ok(count?)
}

#[test]
fn each_entry_of_the_live_slot_may_be_changed(rt: HostRuntime) -> Result<(), Fail> {
    // A front of a turn, a group, a component and 33 closed deployments, and three records of the 34th.
    assert_eq!(rt; count_of(rt.alloc(), "journal")?, Ok(39));
    Ok(())
}

#[test]
fn each_entry_of_the_other_slot_may_be_changed(rt: HostRuntime) -> Result<(), Fail> {
    // A front with 17 closed deployments, and three records each of 16.
    assert_eq!(rt; count_of(rt.alloc(), "journal.b")?, Ok(68));
    Ok(())
}
