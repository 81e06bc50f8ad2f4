ghost use Rattle.std.specs.Prelude.{◌≡◌, ◌∷◌, ◌++◌, [], ℕ, List};
ghost use Rattle.std.specs.Int.{w64, to_be_bytes};

use checkpoint_log::Slots;
use disk_model::{Disk, DiskFault, FusedDisk, MemoryDisk, Pick};
use gate_log::{FindFault, Journal, Log};
use nuc_base::List;
use std::alloc::Global;
use std::test::Fail;

/// What is found: the number and the end.
type Found = Result<(u64, u64), FindFault>;

const NONE: Found = Err(FindFault::NotInitialised);

const BAD: Found = Err(FindFault::Damaged(0));

/// A first entry that begins a store, and a closed gate.
const GENESIS: [u8; 8] = [1, 0, 0, 0, 2, 0x11, 7, 0];

/// A journal of one entry, whose payload has 42 bytes.
const ONE: [u8; 48] = [
    0x01, 0x00, 0x00, 0x00, 0x2a, 0x11, 0x00, 0x00, 0x00, 0x03, 0x2f, 0x67, 0x67, 0x00, 0x00, 0x00,
    0x02, 0x74, 0x31, 0x00, 0x00, 0x00, 0x06, 0x32, 0x2e, 0x31, 0x32, 0x2e, 0x30, 0x00, 0x00, 0x00,
    0x05, 0x6c, 0x69, 0x6e, 0x75, 0x78, 0x00, 0x00, 0x00, 0x05, 0x61, 0x6d, 0x64, 0x36, 0x34, 0x00,
];

// Entries that begin a turn with a number, each with a closed gate.
const TURNED_0: [u8; 15] = [1, 0, 0, 0, 9, 0x19, 0, 0, 0, 0, 0, 0, 0, 0, 0];

const TURNED_1: [u8; 15] = [1, 0, 0, 0, 9, 0x19, 0, 0, 0, 0, 0, 0, 0, 1, 0];

const TURNED_2: [u8; 15] = [1, 0, 0, 0, 9, 0x19, 0, 0, 0, 0, 0, 0, 0, 2, 0];

const TURNED_3: [u8; 15] = [1, 0, 0, 0, 9, 0x19, 0, 0, 0, 0, 0, 0, 0, 3, 0];

/// What a journal finds over the disk.
fn found<J: Journal + Drop, D: Disk>(disk: &mut D) -> Found {
    let journal: Result<J, FindFault> = Journal::find(disk);
    match journal {
        Ok(journal) => Ok((journal.number(), journal.end())),
        Err(fault) => Err(fault),
    }
}

/// Makes these slots.
fn put_slots(disk: &mut MemoryDisk, first: &[u8], other: &[u8]) -> Result<(), DiskFault> {
    disk.write_at("journal", 0, first)?;
    disk.write_at("journal.b", 0, other)
}

/// What is found over these slots, by a log and by two slots.
fn found_in(alloc: Global, first: &[u8], other: &[u8]) -> Result<(Found, Found), Fail> {
    let mut disk = MemoryDisk::new(alloc);
    let put = put_slots(&mut disk, first, other);
    let by_log = found::<Log, MemoryDisk>(&mut disk);
    let by_slots = found::<Slots, MemoryDisk>(&mut disk);
    drop(disk);
    put?;
    Ok((by_log, by_slots))
}

/// What stands in the one file, and what is found by a log and by two slots.
const FINDS: [(&'static str, &'static [u8], Found); 8] = [
    ("one byte", &[0x07], NONE),
    ("a whole one", &ONE, Ok((0, 47))),
    ("a closed start", &[0, 0, 0, 0, 2, 0x11, 7, 0], NONE),
    (
        "an open start of another value",
        &[0xff, 0, 0, 0, 2, 0x11, 7, 0],
        Ok((0, 7)),
    ),
    ("a length of 0", &[1, 0, 0, 0, 0, 0x11, 7, 0], BAD),
    ("a length of 33,554,433", &[1, 2, 0, 0, 1, 0x11, 7, 0], BAD),
    (
        "bytes behind the closed gate",
        &[1, 0, 0, 0, 1, 0x11, 0, 9, 9],
        Ok((0, 6)),
    ),
    (
        "an entry that is cut behind a whole one",
        &[1, 0, 0, 0, 3, 0x11, 7, 7, 1, 0, 0, 0, 9],
        Err(FindFault::Damaged(8)),
    ),
];

#[test]
fn a_journal_is_found_by_both(rt: HostRuntime) -> Result<(), Fail> {
    for (name, bytes, answer) in &FINDS {
        let both = found_in(rt.alloc(), bytes, &[])?;
        assert_eq!(rt; both, (*answer, *answer), "{name}");
    }
    let both = found_in(rt.alloc(), &ONE[..47], &[])?;
    assert_eq!(rt; both, (BAD, BAD), "its last byte is missing");
    Ok(())
}

/// What stands in the two slots, and what is found by two slots.
const SLOTS: [(&'static str, &'static [u8], &'static [u8], Found); 17] = [
    ("both empty", &[], &[], NONE),
    ("one byte, and a closed start", &[7], &[0, 1, 0], NONE),
    ("the first alone", &GENESIS, &[], Ok((0, 7))),
    ("the other alone", &[], &TURNED_1, Ok((1, 14))),
    ("both, the second live", &GENESIS, &TURNED_1, Ok((1, 14))),
    ("both, the first live", &TURNED_2, &TURNED_1, Ok((2, 14))),
    ("an odd number in the first slot", &TURNED_1, &[], BAD),
    ("an even one in the second", &[], &TURNED_2, BAD),
    ("a turn's number 0", &TURNED_0, &[], BAD),
    ("a store's beginning in the second slot", &[], &GENESIS, BAD),
    ("neither beginning", &[1, 0, 0, 0, 2, 0x12, 7, 0], &[], BAD),
    (
        "neither beginning beside a live slot",
        &GENESIS,
        &[1, 0, 0, 0, 2, 0x12, 7, 0],
        BAD,
    ),
    (
        "a number that is cut",
        &GENESIS,
        &[1, 0, 0, 0, 8, 0x19, 0, 0, 0, 0, 0, 0, 1, 0],
        BAD,
    ),
    (
        "a cut payload in the other slot",
        &GENESIS,
        &[1, 0, 0, 0, 9, 0x19, 0, 0, 0, 0, 0, 0, 0],
        BAD,
    ),
    (
        "no gate behind, live",
        &GENESIS,
        &[1, 0, 0, 0, 9, 0x19, 0, 0, 0, 0, 0, 0, 0, 1],
        BAD,
    ),
    (
        "no gate behind, not live",
        &TURNED_2,
        &[1, 0, 0, 0, 9, 0x19, 0, 0, 0, 0, 0, 0, 0, 1],
        Ok((2, 14)),
    ),
    (
        "a start cut short behind a closed gate",
        &GENESIS,
        &[0, 0, 0, 0, 9, 0x19, 0],
        Ok((0, 7)),
    ),
];

#[test]
fn the_live_slot_is_found(rt: HostRuntime) -> Result<(), Fail> {
    for (name, first, other, answer) in &SLOTS {
        let (_, by_slots) = found_in(rt.alloc(), first, other)?;
        assert_eq!(rt; by_slots, *answer, "{name}");
    }
    Ok(())
}

/// The first bytes of a turn's first payload, with this number.
fn start(number: u64) -> [u8; 9]
    ensures { result ≡ 25 ∷ to_be_bytes w64 number ++ [] }
{
    let [a, b, c, d, e, f, g, h] = number.to_be_bytes();
    [0x19, a, b, c, d, e, f, g, h]
}

/// Finds two slots, makes room behind the live entries, and turns: makes room for others and puts a start and one more entry.
fn turn<D: Disk>(disk: &mut D) -> Result<(), FindFault> {
    let mut slots: Slots = Journal::find(disk)?;
    slots.reserve(disk, 64)?;
    slots.begin_turn(disk)?;
    slots.reserve_turn(disk, 64)?;
    let start = start(slots.number().saturating_add(1));
    slots.put(disk, &start)?;
    slots.put(disk, b"\x1c")?;
    Ok(slots.end_turn(disk)?)
}

/// Makes these slots, and makes them stable.
fn put_stable(disk: &mut MemoryDisk, first: &[u8], other: &[u8]) -> Result<(), DiskFault> {
    put_slots(disk, first, other)?;
    disk.sync("journal")?;
    disk.sync("journal.b")
}

/// These slots, stable, on a disk that stops after so many calls.
fn stopped(alloc: Global, first: &[u8], other: &[u8], stop: u64) -> Result<FusedDisk, Fail> {
    let mut disk = MemoryDisk::new(alloc);
    put_stable(&mut disk, first, other)?;
    Ok(FusedDisk::new(disk, stop, List::empty(alloc)))
}

/// Whether this is found by two slots over the image that is picked.
fn leaves(alloc: Global, disk: &FusedDisk, pick: Pick, wanted: Found) -> Result<bool, Fail> {
    let mut image = disk.disk().image(alloc, pick)?;
    Ok(found::<Slots, MemoryDisk>(&mut image) == wanted)
}

/// Slots, what is found before and after a turn, and how many calls the whole turn makes.
type Turn = (&'static [u8], &'static [u8], Found, Found, u64);

const TURNS: [Turn; 4] = [
    (&ONE, &[], Ok((0, 47)), Ok((1, 20)), 24),
    (&TURNED_2, &TURNED_1, Ok((2, 14)), Ok((3, 20)), 24),
    (&TURNED_2, &TURNED_3, Ok((3, 14)), Ok((4, 20)), 24),
    (
        &ONE,
        &[0, 0, 0, 0, 9, 0x19, 0, 0, 0, 0, 0, 0, 0, 1, 9, 9, 9],
        Ok((0, 47)),
        Ok((1, 20)),
        22,
    ),
];

/// The first image over which something else is found, if any.
fn wrong_image(
    alloc: Global,
    disk: &FusedDisk,
    lost: Found,
    kept: Found,
) -> Result<Option<Pick>, Fail> {
    for (pick, wanted) in [
        (Pick::Old, lost),
        (Pick::New, kept),
        (Pick::Fill(0x01), kept),
        (Pick::Fill(0xff), kept),
    ] {
        if !leaves(alloc, disk, pick, wanted)? {
            return Ok(Some(pick));
        }
    }
    Ok(None)
}

/// What a turn answers on a disk that stops after so many calls, and the first image over which something else is found, if any.
fn told_after(
    alloc: Global,
    row: Turn,
    stop: u64,
) -> Result<(Result<(), FindFault>, Option<Pick>), Fail> {
    let (first, other, before, after, calls) = row;
    // The last write opens the first gate, and the last sync makes that stable.
    let lost = if stop < calls { before } else { after };
    let kept = if stop.saturating_add(1) < calls {
        before
    } else {
        after
    };
    let mut disk = stopped(alloc, first, other, stop)?;
    let done = turn(&mut disk);
    let wrong = wrong_image(alloc, &disk, lost, kept);
    drop(disk);
    Ok((done, wrong?))
}

#[test]
fn a_turn_is_whole_or_not_there(rt: HostRuntime) -> Result<(), Fail> {
    for row in &TURNS {
        for stop in 0..25u64 {
            let (done, wrong) = told_after(rt.alloc(), *row, stop)?;
            assert_eq!(rt; done.is_ok(), stop >= row.4, "answer after {stop}");
            assert_eq!(rt; wrong, None, "image after {stop}");
        }
    }
    Ok(())
}

/// Finds the journal and adds an entry: the end afterwards.
fn add<J: Journal + Drop, D: Disk>(disk: &mut D) -> Result<u64, FindFault> {
    let mut journal: J = Journal::find(disk)?;
    match journal.append(disk, b"\x11more") {
        Ok(()) => Ok(journal.end()),
        Err(_) => Err(FindFault::Disk),
    }
}

/// What is told in turn where a log adds, two slots find and add, and a log finds.
fn goes_over<D: Disk>(
    disk: &mut D,
) -> (Result<u64, FindFault>, Found, Result<u64, FindFault>, Found) {
    let by_log = add::<Log, D>(disk);
    let found_by_slots = found::<Slots, D>(disk);
    let by_slots = add::<Slots, D>(disk);
    (by_log, found_by_slots, by_slots, found::<Log, D>(disk))
}

#[test]
fn a_store_of_a_log_opens_as_two_slots(rt: HostRuntime) -> Result<(), Fail> {
    let mut disk = MemoryDisk::new(rt.alloc());
    let put = disk.write_at("journal", 0, &ONE);
    let told = goes_over(&mut disk);
    drop(disk);
    put?;
    assert_eq!(rt; told, (Ok(57), Ok((0, 57)), Ok(67), Ok((0, 67))));
    Ok(())
}
