ghost use Rattle.std.specs.Prelude.{◌≤◌, length, IfOk};

use crate::access::Access;
use crate::outside::{Outside, Patience};
use crate::store::FILE_MODE;
use host_files::{Paths, Window, read_full};
use nuc_base::NoMemory;
use std::alloc::Global;
use std::fs::{File, Files, OpenOptions};
use std::io;
use std::io::ErrorKind;
use std::os::unix::fs::{FileExt, OpenOptionsExt};
use std::time::Clock;

/// How many bytes of a journal's file tell in which turn it was begun: those of its first entry up to the turn's number.
const BEGINNING: usize = 14;

/// An open gate, with which an entry begins.
const OPEN_GATE: u8 = 1;

/// In pieces of so many bytes room is taken, where it is to be had, so that not each call lengthens the file.
const PIECE: u64 = 1_048_576;

/// How an open file stands to what the medium keeps.
#[derive(Clone, Copy, Debug, PartialEq, Eq)]
enum Kept {
    /// Nothing is known: an earlier program may have left it unsynced, or this one lengthened it.
    Unknown,
    /// It was written or cut since its last sync.
    Changed,
    /// It was synced, and has not changed.
    Synced,
}

/// A file that stays open up to its sync, so that the descriptor that wrote is the one that is synced.
#[derive(Drop)]
struct Opened {
    file: File,
    kept: Kept,
    access: Access,
}

/// A file that is kept open.
#[derive(Drop)]
pub(crate) struct Slot {
    opened: Option<Opened>,
    window: Window,
    /// The first bytes of a journal's file as a reader found them with an entry.
    beginning: Option<[u8; BEGINNING]>,
    /// Whether readers wait while it is changed.
    is_shared: bool,
    patience: Patience,
}

impl Slot {
    pub fn new(alloc: Global, is_shared: bool) -> Result<Slot, NoMemory> {
        Ok(Slot {
            opened: None,
            window: Window::new(alloc)?,
            beginning: None,
            is_shared,
            patience: Patience::Whole,
        })
    }

    /// Closes the file, which is to have nothing unsynced.
    pub fn close(&mut self) {
        self.opened = None;
        self.window.forget();
    }

    pub fn is_changed(&self) -> bool {
        match &self.opened {
            Some(opened) => opened.kept == Kept::Changed,
            None => false,
        }
    }

    /// Opens the file where it is there and not open yet for what is done with it.
    pub fn open<R: Files<File = File>>(
        &mut self,
        files: &R,
        access: Access,
        paths: &mut Paths<'_>,
        name: &str,
    ) -> io::Result<()> {
        if self.is_open_for(access) {
            return Ok(());
        }
        let path = paths.plain_file(files, name)?;
        match options(access).open(files, path) {
            Ok(file) => {
                self.keep(file, access);
                Ok(())
            }
            Err(error) if error.kind() == ErrorKind::NotFound => Ok(()),
            Err(error) => Err(error),
        }
    }

    /// Whether the file is open, and may be written where that is what is done with it.
    pub fn is_open_for(&self, access: Access) -> bool {
        match &self.opened {
            Some(opened) => !access.writes() || opened.access.writes(),
            None => false,
        }
    }

    /// Makes and opens the file, which is not there.
    pub fn create<R: Files<File = File>>(
        &mut self,
        files: &R,
        access: Access,
        paths: &mut Paths<'_>,
        name: &str,
    ) -> io::Result<()> {
        let path = paths.plain_file(files, name)?;
        let file = options(access).create_new(true).open(files, path)?;
        self.keep(file, access);
        Ok(())
    }

    fn keep(&mut self, file: File, access: Access) {
        self.opened = Some(Opened {
            file,
            kept: Kept::Unknown,
            access,
        });
        self.window.forget();
    }

    /// How many bytes the file has. One that is not there has none.
    pub fn length(&self) -> io::Result<u64> {
        match &self.opened {
            Some(opened) => Ok(opened.file.metadata()?.len()),
            None => Ok(0),
        }
    }

    /// Reads as many bytes as there are from that place on, up to the slice.
    pub fn read(&mut self, access: Access, at: u64, into: &mut [u8]) -> io::Result<usize>
        ensures { IfOk result (λ n. n ≤ length into.old) }
    {
        let Some(opened) = &self.opened else {
            return Ok(0);
        };
        if !self.is_shared || access.writes() || self.window.has(at, into.len()) {
            return self.window.read(&opened.file, at, into);
        }
        opened.file.lock_shared()?;
        let count = read_one_turn(
            &mut self.beginning,
            &mut self.window,
            &opened.file,
            at,
            into,
        );
        opened.file.unlock()?;
        count
    }

    /// The file of this name changes from now on until its next sync: readers wait.
    pub fn change<R: Files<File = File> + Clock>(
        &mut self,
        outside: &Outside<'_, R>,
        name: &str,
    ) -> io::Result<()> {
        self.window.forget();
        let Some(opened) = &mut self.opened else {
            return Ok(());
        };
        if self.is_shared && opened.kept != Kept::Changed {
            self.patience = outside.keep_readers_out(&opened.file, name, self.patience)?;
        }
        opened.kept = Kept::Changed;
        Ok(())
    }

    /// Writes all of it at that place of the file, which changes.
    pub fn write(&mut self, at: u64, bytes: &[u8]) -> io::Result<()> {
        match &self.opened {
            Some(opened) => opened.file.write_all_at(bytes, at),
            None => Err(io::Error::from(ErrorKind::NotFound)),
        }
    }

    /// Sees to it that the file, which is open, goes on up to this place, by zeros that are written, so that the system keeps
    /// room for them. Where it does, nothing is written. Readers go on meanwhile, and no lock is taken: what is added means
    /// nothing to them. Where there is no room, the file is as before.
    pub fn reserve(&mut self, to: u64) -> io::Result<()> {
        let Some(opened) = &mut self.opened else {
            return Err(io::Error::from(ErrorKind::NotFound));
        };
        let length = opened.file.metadata()?.len();
        if length >= to {
            return Ok(());
        }
        if opened.kept == Kept::Synced {
            opened.kept = Kept::Unknown;
        }
        let zeros = self.window.zeros();
        lengthen(&opened.file, zeros, length, to)?;
        let whole = to.div_ceil(PIECE).saturating_mul(PIECE);
        let _more = lengthen(&opened.file, zeros, to, whole);
        Ok(())
    }

    /// Keeps so many bytes of the file, which is open and changes.
    pub fn cut(&mut self, len: u64) -> io::Result<()> {
        match &self.opened {
            Some(opened) => opened.file.set_len(len),
            None => Err(io::Error::from(ErrorKind::NotFound)),
        }
    }

    /// Makes the bytes stable where they may not be. Readers go on.
    pub fn sync(&mut self) -> io::Result<()> {
        let Some(opened) = &mut self.opened else {
            return Ok(());
        };
        if opened.kept == Kept::Synced {
            return Ok(());
        }
        opened.file.sync_data()?;
        if self.is_shared && opened.kept == Kept::Changed {
            opened.file.unlock()?;
        }
        opened.kept = Kept::Synced;
        Ok(())
    }
}

/// Lengthens the file by zeros that are written, so that the system keeps room for them. Where it has none, the file is
/// cut back.
fn lengthen(file: &File, zeros: &[u8], from: u64, to: u64) -> io::Result<()> {
    match write_zeros(file, zeros, from, to) {
        Ok(()) => Ok(()),
        Err(error) => {
            file.set_len(from)?;
            Err(error)
        }
    }
}

/// Writes zeros from one place up to another, as many at a time as are given.
fn write_zeros(file: &File, zeros: &[u8], from: u64, to: u64) -> io::Result<()> {
    let mut at = from;
    for _ in 0..u64::MAX {
        let left = usize::try_from(to.saturating_sub(at)).unwrap_or(usize::MAX);
        let count = left.min(zeros.len());
        if count == 0 {
            break;
        }
        file.write_all_at(&zeros[..count], at)?;
        at = at.saturating_add(count as u64);
    }
    Ok(())
}

fn options(access: Access) -> OpenOptions {
    let mut options = OpenOptions::new();
    options.read(true).write(access.writes()).mode(FILE_MODE);
    options
}

/// Reads where the file was not begun anew since its first entry was seen: what was read before would then be of another
/// state of the journal.
fn read_one_turn(
    beginning: &mut Option<[u8; BEGINNING]>,
    window: &mut Window,
    file: &File,
    at: u64,
    into: &mut [u8],
) -> io::Result<usize>
    ensures { IfOk result (λ n. n ≤ length into.old) }
{
    let mut found = [0; BEGINNING];
    read_full(file, 0, &mut found)?;
    match beginning {
        Some(seen) if *seen != found => return Err(io::Error::from(ErrorKind::InvalidData)),
        _ => {}
    }
    if found[0] == OPEN_GATE {
        *beginning = Some(found);
    }
    window.read(file, at, into)
}
