use disk_model::{Disk, DiskFault, FusedDisk, ListFault, MemoryDisk, Pick};
use nuc_base::{List, Text};
use std::alloc::Global;
use std::test::Fail;

const FILE: &str = "f";

#[derive(Clone, Copy)]
enum Act {
    Write(u64, &'static [u8]),
    Cut(u64),
    Reserve(u64),
    Remove,
    Sync,
}

/// One call on the file, after one that asks for its length where the call needs it.
fn make<D: Disk>(disk: &mut D, act: Act) -> Result<(), DiskFault> {
    match act {
        Act::Write(at, bytes) => {
            let len = disk.length(FILE)?;
            disk.write_at(FILE, at.min(len), bytes)
        }
        Act::Cut(len) => {
            let old = disk.length(FILE)?;
            disk.cut(FILE, len.min(old))
        }
        Act::Reserve(to) => disk.reserve(FILE, to),
        Act::Remove => disk.remove(FILE),
        Act::Sync => disk.sync(FILE),
    }
}

/// Whether the image that is picked holds this in the file.
fn has(alloc: Global, disk: &MemoryDisk, pick: Pick, want: &[u8]) -> Result<bool, Fail> {
    let image = disk.image(alloc, pick)?;
    Ok(image.file(FILE) == want)
}

/// Whether a disk that stops after so many calls holds this at the end of a run: what is read, and what is stable.
fn stopped(alloc: Global, stop: u64, want: (&[u8], &[u8])) -> Result<bool, Fail> {
    let mut disk = FusedDisk::new(MemoryDisk::new(alloc), stop, List::empty(alloc));
    for step in [
        Act::Write(0, b"abcd"),
        Act::Sync,
        Act::Write(4, b"efgh"),
        Act::Cut(2),
        Act::Remove,
    ] {
        if make(&mut disk, step).is_err() {
            break;
        }
    }
    Ok(disk.disk().file(FILE) == want.0 && has(alloc, disk.disk(), Pick::Old, want.1)?)
}

/// A call, what is read after it, what is left where all that is not stable is lost, and where it is filled.
type Row = (Act, &'static [u8], &'static [u8], &'static [u8]);

const ROWS: [Row; 12] = [
    (Act::Write(0, b"abcd"), b"abcd", b"", b"####"),
    (Act::Sync, b"abcd", b"abcd", b"abcd"),
    (Act::Write(2, b"XYZ"), b"abXYZ", b"abcd", b"ab###"),
    (Act::Cut(1), b"a", b"abcd", b"ab###"),
    (Act::Write(1, b"q"), b"aq", b"abcd", b"a####"),
    (Act::Remove, b"", b"abcd", b"a####"),
    (Act::Write(0, b"z"), b"z", b"abcd", b"#####"),
    (Act::Sync, b"z", b"z", b"z"),
    (Act::Cut(0), b"", b"z", b"z"),
    (Act::Reserve(3), b"\0\0\0", b"z", b"###"),
    (Act::Sync, b"\0\0\0", b"\0\0\0", b"\0\0\0"),
    (Act::Reserve(2), b"\0\0\0", b"\0\0\0", b"\0\0\0"),
];

/// Calls on a disk that has room for six bytes, and whether each is done.
const FULL: [(Act, bool); 7] = [
    (Act::Write(0, b"ab"), true),
    (Act::Reserve(6), true),
    (Act::Write(2, b"cdef"), true),
    (Act::Write(6, b"g"), false),
    (Act::Reserve(7), false),
    (Act::Write(4, b"EF"), true),
    (Act::Sync, true),
];

/// How many of these calls answer so, one after another.
fn answered(disk: &mut MemoryDisk) -> usize {
    let mut many = 0usize;
    for (act, is_done) in &FULL {
        if make(disk, *act).is_ok() != *is_done {
            return many;
        }
        many = many.saturating_add(1);
    }
    many
}

#[test]
fn a_full_disk_takes_what_room_was_made_for(rt: HostRuntime) -> Result<(), Fail> {
    let mut disk = MemoryDisk::new(rt.alloc()).with_room(6);
    let many = answered(&mut disk);
    let is_whole = disk.file(FILE) == b"abcdEF".as_slice() && disk.used() == 6;
    drop(disk);
    assert!(rt; many == FULL.len() && is_whole);
    Ok(())
}

/// Whether this is read, and what is left where all that is not stable is there, is lost and is filled.
fn shows(
    alloc: Global,
    disk: &MemoryDisk,
    new: &[u8],
    old: &[u8],
    filled: &[u8],
) -> Result<bool, Fail> {
    Ok(
        disk.file(FILE) == new
            && has(alloc, disk, Pick::New, new)?
            && has(alloc, disk, Pick::Old, old)?
            && has(alloc, disk, Pick::Fill(b'#'), filled)?,
    )
}

/// Whether the disk holds after a row's call what the row says.
fn holds(alloc: Global, disk: &mut MemoryDisk, row: Row) -> Result<bool, Fail> {
    let (step, new, old, filled) = row;
    make(disk, step)?;
    shows(alloc, disk, new, old, filled)
}

/// How many of the rows hold, one after another.
fn held(alloc: Global, disk: &mut MemoryDisk, rows: &[Row]) -> Result<usize, Fail> {
    let mut many = 0;
    for row in rows {
        if !holds(alloc, disk, *row)? {
            return Ok(many);
        }
        many = many.saturating_add(1);
    }
    Ok(many)
}

#[test]
fn a_crash_leaves_what_the_calls_allow(rt: HostRuntime) -> Result<(), Fail> {
    let mut disk = MemoryDisk::new(rt.alloc());
    let many = held(rt.alloc(), &mut disk, &ROWS);
    drop(disk);
    assert_eq!(rt; many?, 12, "rows that hold, one after another");
    Ok(())
}

/// What is read at the end of a run that stops after as many calls as the place of the row, and what is stable.
const STOPS: [(&'static [u8], &'static [u8]); 9] = [
    (b"", b""),
    (b"ab", b""),
    (b"abcd", b""),
    (b"abcd", b"abcd"),
    (b"abcdef", b"abcd"),
    (b"abcdefgh", b"abcd"),
    (b"abcde", b"abcd"),
    (b"a", b"abcd"),
    (b"", b"abcd"),
];

#[test]
fn a_stopped_disk_holds(rt: HostRuntime) -> Result<(), Fail> {
    for (stop, want) in STOPS.iter().enumerate() {
        assert!(rt;
            stopped(rt.alloc(), stop as u64, *want)?,
            "stopped after {stop}"
        );
    }
    Ok(())
}

/// Whether the names are those of the two files.
fn are_two(names: &[Text]) -> bool {
    match names {
        [first, second] => first.as_str() == "packages/artifacts/a"
            && second.as_str() == "packages/artifacts/b",
        _ => false,
    }
}

/// Makes the files.
fn fill<D: Disk>(disk: &mut D) -> Result<(), DiskFault> {
    put(disk, "packages/artifacts/b", b"2")?;
    put(disk, "packages/artifacts/a", b"1")?;
    put(disk, "packages/artifact", b"3")?;
    put(disk, "packages/artifacts/c", b"")
}

fn put<D: Disk>(disk: &mut D, file: &str, bytes: &[u8]) -> Result<(), DiskFault> {
    disk.write_at(file, 0, bytes)
}

/// Whether the first listing fails and the second tells the two.
fn lists<D: Disk>(alloc: Global, disk: &mut D) -> Result<bool, ListFault> {
    if !fails(alloc, disk) {
        return Ok(false);
    }
    let names = disk.list(alloc)?;
    Ok(are_two(names.as_slice()))
}

fn fails<D: Disk>(alloc: Global, disk: &mut D) -> bool {
    disk.list(alloc).err() == Some(ListFault::Disk)
}

/// Whether one byte is read and then none.
fn reads<D: Disk>(disk: &mut D) -> Result<bool, DiskFault> {
    let mut first = [0; 4];
    let read = disk.read("packages/artifacts/a", 0, &mut first)?;
    Ok(read == 1 && first[0] == b'1' && disk.read("packages/artifacts/a", 0, &mut first).is_err())
}

/// Whether all of it is so.
fn tells(alloc: Global, disk: &mut FusedDisk) -> Result<bool, Fail> {
    fill(disk)?;
    Ok(lists(alloc, disk)? && reads(disk)?)
}

#[test]
fn the_artifacts_are_listed(rt: HostRuntime) -> Result<(), Fail> {
    let alloc = rt.alloc();
    let stops = List::new(Vec::from_array(alloc, [4])?);
    let mut disk = FusedDisk::new(MemoryDisk::new(alloc), 7, stops);
    let told = tells(alloc, &mut disk);
    drop(disk);
    assert!(rt; told?);
    Ok(())
}
