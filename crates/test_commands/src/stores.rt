// Stores made and looked at by the top call, over disks in memory. The journal's bytes are worked out by hand from the
// layout of records.
use crate::calls::call;
use disk_model::{Disk, DiskFault, FusedDisk, MemoryDisk, Pick};
use edges::{MemorySink, MemorySource};
use library_core::MemoryLibrary;
use nuc_base::{Bytes, List, Status};
use nucleus_top::{a_first_call_begins, calls_go_on};
use std::alloc::{AllocError, Global};
use std::process::Abort;
use std::test::Fail;

const INIT: &str = "nucleus --root /gg init --thing t1 --nucleus 2.12.0 --os linux --arch amd64";

const SHOW: &str = "nucleus --root /gg status";

const SHOW_JSON: &str = "nucleus --root /gg status --json";

const WHY: &str = "nucleus --root /gg why";

const GET: &str = "nucleus --root /gg config-get --component C";

/// The journal of a new store: one entry of 42 bytes, and a closed gate.
const NEW: &[u8] =
    b"\x01\0\0\0\x2a\x11\0\0\0\x03/gg\0\0\0\x02t1\0\0\0\x062.12.0\0\0\0\x05linux\0\0\0\x05amd64\0";

/// A journal of the one record that all boots are ended, which begins no device.
const NO_GENESIS: [u8; 7] = [0x01, 0x00, 0x00, 0x00, 0x01, 0x15, 0x00];

const MADE: &str = "initialised t1\n";

const LINES: &str = "thing t1\nnucleus 2.12.0\n";

const JSON: &str =
    "{\"closed\":[],\"components\":[],\"groups\":[],\"nucleus\":\"2.12.0\",\"pending\":null,\"thing\":\"t1\"}\n";

const STANDS: &str = "refused 16 Initialised t1\n";

const NONE: &str = "refused 8 NotInitialised\n";

const DISK_FAILED: &str = "fault 5 disk\n";

const USAGE: &str = "usage: nucleus --root DIR COMMAND [OPTIONS]\n";

/// What a call answered and printed.
#[derive(Debug, Drop, PartialEq, Eq)]
struct Ran {
    status: Status,
    printed: Vec<u8>,
}

/// The status of the words over a disk, without a document, to this sink.
fn run_to<D: Disk>(
    alloc: Global,
    words: &str,
    disk: &mut D,
    sink: &mut MemorySink,
) -> Result<Status, AllocError> {
    let mut source = MemorySource::new(Bytes::empty(alloc), List::empty(alloc));
    let recipes = List::empty(alloc);
    let mut library = MemoryLibrary::new(recipes, List::empty(alloc), List::empty(alloc));
    let status = call(alloc, words, disk, &mut library, &mut source, sink);
    drop(library);
    drop(source);
    status
}

/// What the words answer and print over a disk, without a document, to this sink.
fn ran_to<D: Disk>(
    alloc: Global,
    words: &str,
    disk: &mut D,
    sink: &mut MemorySink,
) -> Result<Ran, Fail> {
    let status = run_to(alloc, words, disk, sink)?;
    Ok(Ran {
        status,
        printed: sink.bytes().to_vec(alloc)?,
    })
}

/// Runs the words over a disk, without a document, to a sink that fails these calls.
fn run<D: Disk>(alloc: Global, words: &str, disk: &mut D, failing: &[u64]) -> Result<Ran, Fail> {
    let failing = List::new(Vec::from_slice(alloc, failing)?);
    let mut sink = MemorySink::new(alloc, failing);
    let ran = ran_to(alloc, words, disk, &mut sink);
    drop(sink);
    ran
}

/// Whether the call answers and prints this.
fn answers<D: Disk>(
    alloc: Global,
    words: &str,
    disk: &mut D,
    status: Status,
    printed: &str,
) -> Result<bool, Fail> {
    let ran = run(alloc, words, disk, &[])?;
    let is_right = ran.status == status && ran.printed.as_slice() == printed.as_bytes();
    drop(ran);
    Ok(is_right)
}

/// Writes a file of these bytes, the first of them changed.
fn hold(disk: &mut MemoryDisk, file: &str, bytes: &[u8], first: u8) -> Result<(), DiskFault> {
    disk.write_at(file, 0, bytes)?;
    if !bytes.is_empty() {
        disk.write_at(file, 0, &[first])?;
    }
    disk.sync(file)
}

/// A disk whose journal is these bytes, the first of them changed.
fn holding(alloc: Global, bytes: &[u8], first: u8) -> Result<MemoryDisk, Fail> {
    let mut disk = MemoryDisk::new(alloc);
    match hold(&mut disk, "journal", bytes, first) {
        Ok(()) => Ok(disk),
        Err(fault) => {
            drop(disk);
            Err(fault.into())
        }
    }
}

/// Whether the words over that journal answer and print this, and leave these bytes.
fn leaves(
    alloc: Global,
    words: &str,
    disk: &mut MemoryDisk,
    answer: (Status, &str),
    after: &[u8],
) -> Result<bool, Fail> {
    let (status, printed) = answer;
    let right = answers(alloc, words, disk, status, printed)?;
    Ok(right && disk.file("journal") == after)
}

/// The journal of a new store twice: its second record is none that the device takes.
fn twice(alloc: Global) -> Result<Vec<u8>, AllocError> {
    let mut bytes = NEW[..47].to_vec(alloc)?;
    bytes.extend_from_slice(NEW)?;
    Ok(bytes)
}

/// Makes a store where there is none, and looks at it.
fn store_is_made(rt: &impl Abort, alloc: Global, disk: &mut MemoryDisk) -> Result<(), Fail> {
    assert!(rt; leaves(alloc, SHOW, disk, (Status::NotInitialised, NONE), b"")?);
    assert!(rt; leaves(alloc, INIT, disk, (Status::Done, MADE), NEW)?);
    Ok(())
}

/// Looks at the store that stands, and is refused another.
fn store_stands(rt: &impl Abort, alloc: Global, disk: &mut MemoryDisk) -> Result<(), Fail> {
    assert!(rt; leaves(alloc, INIT, disk, (Status::Initialised, STANDS), NEW)?);
    assert!(rt; leaves(alloc, SHOW, disk, (Status::Done, LINES), NEW)?);
    assert!(rt; leaves(alloc, SHOW_JSON, disk, (Status::Done, JSON), NEW)?);
    Ok(())
}

/// Both, one after the other.
fn store_is_made_once(rt: &impl Abort, alloc: Global, disk: &mut MemoryDisk) -> Result<(), Fail> {
    store_is_made(rt, alloc, disk)?;
    store_stands(rt, alloc, disk)
}

#[test]
fn a_store_is_made_once(rt: HostRuntime) -> Result<(), Fail> {
    let alloc = rt.alloc();
    let mut disk = MemoryDisk::new(alloc);
    let made = store_is_made_once(&rt, alloc, &mut disk);
    drop(disk);
    made
}

/// Whether `status` and `init` over that disk have these answers.
fn answer_so(
    alloc: Global,
    disk: &mut MemoryDisk,
    show: (Status, &str),
    init: (Status, &str),
) -> Result<bool, Fail> {
    if !answers(alloc, SHOW, disk, show.0, show.1)? {
        return Ok(false);
    }
    answers(alloc, INIT, disk, init.0, init.1)
}

/// Whether `status` and `init` over the journal of these bytes, the first of them changed, have these answers.
fn have_answers(
    alloc: Global,
    bytes: &[u8],
    first: u8,
    show: (Status, &str),
    init: (Status, &str),
) -> Result<bool, Fail> {
    let mut disk = holding(alloc, bytes, first)?;
    let is_right = answer_so(alloc, &mut disk, show, init);
    drop(disk);
    is_right
}

/// Journals that are none, and one that stands.
fn journals_stand(rt: &impl Abort, alloc: Global) -> Result<(), Fail> {
    let none = (Status::NotInitialised, NONE);
    let made = (Status::Done, MADE);
    assert!(rt; have_answers(alloc, &NEW[..1], 0x07, none, made)?);
    assert!(rt; have_answers(alloc, NEW, 0x00, none, made)?);
    let stands = (Status::Initialised, STANDS);
    assert!(rt; have_answers(alloc, NEW, 0xff, (Status::Done, LINES), stands)?);
    Ok(())
}

/// Whether `status` and `init` over the journal of these bytes find it damaged, and say this.
fn are_damaged(alloc: Global, bytes: &[u8], lines: &str) -> Result<bool, Fail> {
    let damaged = (Status::Damaged, lines);
    have_answers(alloc, bytes, 0x01, damaged, damaged)
}

/// The same of the journal of a new store twice.
fn is_twice_damaged(alloc: Global, lines: &str) -> Result<bool, Fail> {
    let bytes = twice(alloc)?;
    let is_damaged = are_damaged(alloc, &bytes, lines);
    drop(bytes);
    is_damaged
}

#[test]
fn each_journal_has_its_answer(rt: HostRuntime) -> Result<(), Fail> {
    let alloc = rt.alloc();
    journals_stand(&rt, alloc)?;
    assert!(rt; are_damaged(alloc, &NEW[..47], "refused 9 Damaged 0\n")?);
    assert!(rt; are_damaged(alloc, &NO_GENESIS, "refused 9 Damaged 0\n")?);
    assert!(rt; is_twice_damaged(alloc, "refused 9 Damaged 47\n")?);
    Ok(())
}

/// The second slot of a store of the thing `t2` that turned once: one entry of 62 bytes, with its number and without groups,
/// items and closed deployments, and a closed gate.
fn turned(alloc: Global) -> Result<Vec<u8>, AllocError> {
    let mut bytes = Vec::from_slice(
        alloc,
        &[0x01, 0, 0, 0, 0x3e, 0x19, 0, 0, 0, 0, 0, 0, 0, 0x01],
    )?;
    bytes.extend_from_slice(&NEW[6..18])?;
    bytes.push(b'2')?;
    bytes.extend_from_slice(&NEW[19..47])?;
    bytes.extend_from_slice(&[0; 13])?;
    Ok(bytes)
}

/// Whether `status` and `init` over that disk, with this second slot and its first byte changed, have these answers.
fn answer_beside(
    alloc: Global,
    disk: &mut MemoryDisk,
    second: &[u8],
    first: u8,
    show: (Status, &str),
    init: (Status, &str),
) -> Result<bool, Fail> {
    hold(disk, "journal.b", second, first)?;
    answer_so(alloc, disk, show, init)
}

/// The same over a new store.
fn have_answers_beside(
    alloc: Global,
    second: &[u8],
    first: u8,
    show: (Status, &str),
    init: (Status, &str),
) -> Result<bool, Fail> {
    let mut disk = holding(alloc, NEW, 0x01)?;
    let is_right = answer_beside(alloc, &mut disk, second, first, show, init);
    drop(disk);
    is_right
}

/// The second slot with the greater number is live, and one whose turn was not ended is not.
fn slot_counts(rt: &impl Abort, alloc: Global, second: &[u8]) -> Result<(), Fail> {
    let other = (Status::Done, "thing t2\nnucleus 2.12.0\n");
    let other_stands = (Status::Initialised, "refused 16 Initialised t2\n");
    assert!(rt; have_answers_beside(alloc, second, 0x01, other, other_stands)?);
    // A turn that was not ended leaves the first slot live.
    let stands = (Status::Initialised, STANDS);
    assert!(rt; have_answers_beside(alloc, second, 0x00, (Status::Done, LINES), stands)?);
    Ok(())
}

#[test]
fn the_slot_with_the_greater_number_counts(rt: HostRuntime) -> Result<(), Fail> {
    let alloc = rt.alloc();
    let second = turned(alloc)?;
    let counts = slot_counts(&rt, alloc, &second);
    drop(second);
    counts?;
    // A second slot begins with a turn of an odd number.
    let damaged = (Status::Damaged, "refused 9 Damaged 0\n");
    assert!(rt; have_answers_beside(alloc, NEW, 0x01, damaged, damaged)?);
    Ok(())
}

/// Whether over that image `status` finds the store, or none where it was not said to be made, and `init` then refuses or
/// makes it.
fn goes_on_over(alloc: Global, image: &mut MemoryDisk, is_made: bool) -> Result<bool, Fail> {
    if answers(alloc, SHOW, image, Status::Done, LINES)? {
        return answers(alloc, INIT, image, Status::Initialised, STANDS);
    }
    let none = answers(alloc, SHOW, image, Status::NotInitialised, NONE)?;
    Ok(none && !is_made && leaves(alloc, INIT, image, (Status::Done, MADE), NEW)?)
}

/// Whether each image that the stop may leave goes on so.
fn goes_on(alloc: Global, disk: &FusedDisk, is_made: bool) -> Result<bool, Fail> {
    for pick in [Pick::Old, Pick::New, Pick::Fill(0x01)] {
        let mut image = disk.disk().image(alloc, pick)?;
        let is_right = goes_on_over(alloc, &mut image, is_made);
        drop(image);
        if !is_right? {
            return Ok(false);
        }
    }
    Ok(true)
}

/// What comes of `init` over a disk that stops.
#[derive(Clone, Copy, Drop)]
struct Cut {
    /// Whether each image that the stop may leave goes on.
    goes_on: bool,
    /// Whether it said that the store is made.
    is_made: bool,
}

/// `init` over that disk.
fn cut_off(alloc: Global, disk: &mut FusedDisk) -> Result<Cut, Fail> {
    let ran = run(alloc, INIT, disk, &[])?;
    let is_made = ran.status == Status::Done;
    drop(ran);
    Ok(Cut {
        goes_on: goes_on(alloc, disk, is_made)?,
        is_made,
    })
}

/// `init` over a disk that stops after so many calls.
fn stopped(alloc: Global, stop: u64) -> Result<Cut, Fail> {
    let mut disk = FusedDisk::new(MemoryDisk::new(alloc), stop, List::empty(alloc));
    let cut = cut_off(alloc, &mut disk);
    drop(disk);
    cut
}

#[test]
fn a_stopped_init_leaves_a_store_or_none(rt: HostRuntime) -> Result<(), Fail> {
    let alloc = rt.alloc();
    for stop in 0..64u64 {
        let cut = stopped(alloc, stop)?;
        assert!(rt; cut.goes_on, "after {stop} calls");
        if cut.is_made {
            return Ok(());
        }
    }
    assert!(rt; false, "init does not end");
    Ok(())
}

/// What the words answer over a disk that holds this journal and fails this call alone.
fn ran_failing(alloc: Global, words: &str, bytes: &[u8], failing: u64) -> Result<Ran, Fail> {
    let calls = List::new(Vec::from_slice(alloc, &[failing])?);
    let mut disk = FusedDisk::new(holding(alloc, bytes, 0x01)?, u64::MAX, calls);
    run(alloc, words, &mut disk, &[])
}

/// Whether each call that fails is the fault of the disk, up to the first number that no call has, and at least so many.
fn are_disk_faults(
    alloc: Global,
    words: &str,
    bytes: &[u8],
    least: u64,
    status: Status,
) -> Result<bool, Fail> {
    for failing in 0..64u64 {
        let ran = ran_failing(alloc, words, bytes, failing)?;
        if ran.status != Status::Disk {
            return Ok(ran.status == status && failing >= least);
        }
        if ran.printed.as_slice() != DISK_FAILED.as_bytes() {
            return Ok(false);
        }
    }
    Ok(false)
}

#[test]
fn a_failing_disk_is_status_5(rt: HostRuntime) -> Result<(), Fail> {
    let alloc = rt.alloc();
    // Each slot is synced and looked at, and the entry is read.
    assert!(rt; are_disk_faults(alloc, SHOW, NEW, 6, Status::Done)?);
    assert!(rt; are_disk_faults(alloc, INIT, NEW, 6, Status::Initialised)?);
    assert!(rt; are_disk_faults(alloc, WHY, NEW, 6, Status::BadInput)?);
    assert!(rt; are_disk_faults(alloc, GET, NEW, 6, Status::Absent)?);
    // Behind these a journal is made and one entry is added, with two syncs each at least.
    assert!(rt; are_disk_faults(alloc, INIT, b"", 8, Status::Done)?);
    Ok(())
}

/// Words that ask nothing: an unknown command, none for a folder, and an option that the command has not.
const NOTHING: [&str; 3] = [
    "nucleus --root /gg deploys",
    "nucleus deploy",
    "nucleus --root /gg why --json",
];

/// Whether the words over a new store answer and print this, and leave it.
fn leaves_new(alloc: Global, words: &str, answer: (Status, &str)) -> Result<bool, Fail> {
    let mut disk = holding(alloc, NEW, 0x01)?;
    let is_right = leaves(alloc, words, &mut disk, answer, NEW);
    drop(disk);
    is_right
}

#[test]
fn other_words_are_usage(rt: HostRuntime) -> Result<(), Fail> {
    let alloc = rt.alloc();
    for words in NOTHING {
        assert!(rt; leaves_new(alloc, words, (Status::Usage, USAGE))?);
    }
    Ok(())
}

/// The words of `status` in another order and spelling.
const SHOW_TURNED: &str = "nucleus status --json --root=/gg";

#[test]
fn words_have_no_order(rt: HostRuntime) -> Result<(), Fail> {
    assert!(rt; leaves_new(rt.alloc(), SHOW_TURNED, (Status::Done, JSON))?);
    Ok(())
}

/// A call that serves. The inbox of these calls is closed.
const SERVE: &str = "nucleus --root /gg serve --turns 1";

#[test]
fn a_closed_inbox_ends_a_call_that_serves(rt: HostRuntime) -> Result<(), Fail> {
    assert!(rt; leaves_new(rt.alloc(), SERVE, (Status::Done, ""))?);
    Ok(())
}

/// Whether the call answers 6 where the sink fails this call, prints this prefix, and leaves this journal.
fn is_cut_off(
    alloc: Global,
    words: &str,
    disk: &mut MemoryDisk,
    failing: u64,
    prefix: &str,
) -> Result<bool, Fail> {
    let ran = run(alloc, words, disk, &[failing])?;
    let is_edge = ran.status == Status::Edge && ran.printed.as_slice() == prefix.as_bytes();
    drop(ran);
    Ok(is_edge && disk.file("journal") == NEW)
}

/// The same of `init` where there is no store.
fn is_init_cut_off(alloc: Global, failing: u64, prefix: &str) -> Result<bool, Fail> {
    let mut disk = MemoryDisk::new(alloc);
    let is_right = is_cut_off(alloc, INIT, &mut disk, failing, prefix);
    drop(disk);
    is_right
}

/// The same of the words over a new store.
fn is_cut_off_over(alloc: Global, words: &str, failing: u64, prefix: &str) -> Result<bool, Fail> {
    let mut disk = holding(alloc, NEW, 0x01)?;
    let is_right = is_cut_off(alloc, words, &mut disk, failing, prefix);
    drop(disk);
    is_right
}

/// Whether `init` where there is no store says that it is made, though the sink fails this call.
fn is_made_all_the_same(alloc: Global, failing: u64) -> Result<bool, Fail> {
    let mut disk = MemoryDisk::new(alloc);
    let ran = run(alloc, INIT, &mut disk, &[failing]);
    drop(disk);
    let beyond = ran?;
    Ok(beyond.status == Status::Done && beyond.printed.as_slice() == MADE.as_bytes())
}

/// The line of a store that is made is cut off, up to its end.
fn made_is_cut_off(rt: &impl Abort, alloc: Global) -> Result<(), Fail> {
    for (failing, prefix) in [(0, ""), (1, "initialised "), (2, "initialised t1")] {
        assert!(rt; is_init_cut_off(alloc, failing, prefix)?);
    }
    assert!(rt; is_made_all_the_same(alloc, 3)?);
    Ok(())
}

#[test]
fn lines_that_cannot_be_written_are_status_6(rt: HostRuntime) -> Result<(), Fail> {
    let alloc = rt.alloc();
    made_is_cut_off(&rt, alloc)?;
    for (failing, prefix) in [
        (0, ""),
        (1, "refused 16 Initialised "),
        (2, "refused 16 Initialised t1"),
    ] {
        assert!(rt; is_cut_off_over(alloc, INIT, failing, prefix)?);
    }
    assert!(rt; is_cut_off_over(alloc, SHOW, 0, "")?);
    Ok(())
}

/// The law of the calls of a disk holds of a disk in memory, and a first one begins on a disk that was just made, which has no file.
#[test]
fn calls_of_a_disk_in_memory_go_on(rt: HostRuntime) -> Result<(), Fail> {
    calls_go_on::<MemoryDisk>();
    let mut disk = a_first_call_begins(rt.alloc());
    let length = disk.length("journal");
    drop(disk);
    assert!(rt; length == Ok(0));
    Ok(())
}
