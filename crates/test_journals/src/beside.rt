//! A reader beside a writer: what is found while the files change between two calls.

ghost use Rattle.std.specs.Prelude.{◌≤◌, false, [], length, None};
ghost use Rattle.test_journals.specs.Untold.{no_image, untold_laws};

use checkpoint_log::Slots;
use disk_model::{Disk, DiskFault, ListFault};
use gate_log::{FindFault, Journal, Log};
use nuc_base::{FileName, List};
use std::alloc::Global;
use std::test::Fail;

/// What stands in the two slots.
type Pair = [&'static [u8]; 2];

/// A disk that another program writes to: its two files have other bytes once so many calls looked at them. As the real one it
/// tells nothing. Its own program only reads, so what would change it does nothing.
#[derive(Drop)]
struct SharedDisk {
    now: Pair,
    next: Pair,
    left: u64,
}

impl SharedDisk {
    /// What stands in the file for one call more.
    fn file(&mut self, file: &str) -> &'static [u8] {
        if self.left == 0 {
            self.now = self.next;
        }
        self.left = self.left.saturating_sub(1);
        if file == "journal" {
            self.now[0]
        } else {
            self.now[1]
        }
    }
}

/// The bytes from that place on, as many as the slice has room for.
fn read_from(bytes: &[u8], at: u64, into: &mut [u8]) -> usize
    ensures { result ≤ length into.old }
{
    let from = usize::try_from(at).unwrap_or(usize::MAX).min(bytes.len());
    let count = (bytes.len() - from).min(into.len());
    into[..count].copy_from_slice(&bytes[from..from + count]);
    count
}

impl Disk for SharedDisk {
    ghost is_modelled = { false };

    ghost seen = { λ disk name. [] };

    ghost may_leave = { λ disk. no_image };

    ghost moment = { λ disk. 0 };

    ghost left_since = { λ disk since. no_image };

    ghost faults = { λ disk. 0 };

    ghost shortages = { λ disk. 0 };

    ghost writer = { λ disk. None };

    ghost laws = { untold_laws _ };

    fn length(&mut self, file: &str) -> Result<u64, DiskFault> {
        Ok(self.file(file).len() as u64)
    }

    fn read(&mut self, file: &str, at: u64, into: &mut [u8]) -> Result<usize, DiskFault> {
        let bytes = self.file(file);
        Ok(read_from(bytes, at, into))
    }

    fn write_at(&mut self, _file: &str, _at: u64, _bytes: &[u8]) -> Result<(), DiskFault> {
        Ok(())
    }

    fn reserve(&mut self, _file: &str, _to: u64) -> Result<(), DiskFault> {
        Ok(())
    }

    fn cut(&mut self, _file: &str, _len: u64) -> Result<(), DiskFault> {
        Ok(())
    }

    fn sync(&mut self, _file: &str) -> Result<(), DiskFault> {
        Ok(())
    }

    fn remove(&mut self, _file: &str) -> Result<(), DiskFault> {
        Ok(())
    }

    fn list(&mut self, alloc: Global) -> Result<List<FileName>, ListFault> {
        Ok(List::empty(alloc))
    }

    fn has_writer(&mut self) -> bool {
        true
    }
}

/// The number and the end.
type Found = (u64, u64);

/// What stands in the slots before another program writes and after it, and what is found of each.
#[derive(Clone, Copy)]
struct Change {
    now: Pair,
    next: Pair,
    before: Found,
    after: Found,
}

/// The number and the end that are found where the slots change after so many calls.
fn found<J: Journal + Drop>(change: &Change, calls: u64) -> Result<Found, FindFault> {
    let mut disk = SharedDisk {
        now: change.now,
        next: change.next,
        left: calls,
    };
    let journal: Result<J, FindFault> = Journal::find(&mut disk);
    match journal {
        Ok(journal) => Ok((journal.number(), journal.end())),
        Err(fault) => Err(fault),
    }
}

/// After how many calls a change is not found any more. None where something else is found than what stands there before or
/// after it.
fn found_up_to<J: Journal + Drop>(change: &Change) -> Option<u64> {
    for calls in 0..MOST_CALLS {
        match found::<J>(change, calls) {
            Ok(end) if end == change.after => {}
            Ok(end) if end == change.before => return Some(calls),
            _ => return None,
        }
    }
    None
}

/// Finding makes fewer calls than that.
const MOST_CALLS: u64 = 12;

/// A first entry that begins a store, and a closed gate.
const GENESIS: &'static [u8] = &[1, 0, 0, 0, 2, 0x11, 7, 0];

/// The same, and an entry behind it.
const APPENDED: &'static [u8] = &[1, 0, 0, 0, 2, 0x11, 7, 1, 0, 0, 0, 1, 5, 0];

/// An entry that begins the first turn, whose gate is closed.
const SHUT: &'static [u8] = &[0, 0, 0, 0, 9, 0x19, 0, 0, 0, 0, 0, 0, 0, 1, 0];

/// A longer one that begins it, in its place.
const TURNED: &'static [u8] = &[1, 0, 0, 0, 12, 0x19, 0, 0, 0, 0, 0, 0, 0, 1, 7, 7, 7, 0];

/// An entry is appended.
const APPENDS: Change = Change {
    now: [GENESIS, &[]],
    next: [APPENDED, &[]],
    before: (0, 7),
    after: (0, 13),
};

/// A turn is made, in a file that is too short for it before.
const TURNS: Change = Change {
    now: [GENESIS, SHUT],
    next: [GENESIS, TURNED],
    before: (0, 7),
    after: (1, 17),
};

// A log asks for the length, and reads at each of the two gates: the entry is found up to the read of the second.
#[test]
fn a_log_is_found_while_another_appends(rt: HostRuntime) -> Result<(), Fail> {
    assert_eq!(rt; found_up_to::<Log>(&APPENDS), Some(3));
    Ok(())
}

// Two slots read the beginning of each, and then ask for its length; then the live one is gone through as a log is.
#[test]
fn slots_are_found_while_another_writes(rt: HostRuntime) -> Result<(), Fail> {
    assert_eq!(rt; found_up_to::<Slots>(&APPENDS), Some(7), "an entry");
    assert_eq!(rt; found_up_to::<Slots>(&TURNS), Some(3), "a turn");
    Ok(())
}
