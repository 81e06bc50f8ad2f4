ghost use Rattle.std.specs.Prelude.{◌≤◌, length, IfOk};

use crate::access::Access;
use crate::folders::is_refused;
use crate::listing::{Closed, list_files};
use crate::outside::Outside;
use crate::slot::Slot;
use crate::streams::HeldStreams;
use host_files::{LOG_LIMIT, LONGEST_NAME, Paths, folder_of, is_within, make_folder, sync_folder};
use nuc_base::{FileName, List, NoMemory};
use std::alloc::Global;
use std::fs::{File, Files, OpenOptions, TryLockError};
use std::io::ErrorKind;
use std::os::unix::fs::{MetadataExt, OpenOptionsExt};
use std::time::Clock;
use std::{fs, io};

/// The two files of the journal, which stay open from their first use on. Any other is closed behind its sync, and open for
/// writing only from its first change up to there, so that a child may run it as a program.
const FIRST_JOURNAL: &str = "journal";

const SECOND_JOURNAL: &str = "journal.b";

fn is_journal(file: &str) -> bool {
    file == FIRST_JOURNAL || file == SECOND_JOURNAL
}

/// The file on which a program that may write holds a lock, to its end.
const LOCK: &str = "lock";

/// The log of events.
const EVENTS: &str = "logs/events";

/// What the artifacts stand below.
pub const ARTIFACTS: &str = "packages/artifacts";

/// Files are their owner's alone.
pub const FILE_MODE: u32 = 0o600;

/// What is open of the journal, and one other file.
#[derive(Drop)]
struct Slots {
    journal: Slot,
    second: Slot,
    other: Slot,
}

impl Slots {
    fn new(alloc: Global) -> Result<Self, NoMemory> {
        Ok(Slots {
            journal: Slot::new(alloc, true)?,
            second: Slot::new(alloc, true)?,
            other: Slot::new(alloc, false)?,
        })
    }

    /// The one of this file.
    fn of(&mut self, file: &str) -> &mut Slot {
        if file == FIRST_JOURNAL {
            &mut self.journal
        } else if file == SECOND_JOURNAL {
            &mut self.second
        } else {
            &mut self.other
        }
    }
}

/// The files below a folder.
#[derive(Drop)]
pub struct Store<'a, R: Files<File = File>> {
    outside: Outside<'a, R>,
    paths: Paths<'a>,
    streams: HeldStreams,
    lock: Option<File>,
    slots: Slots,
    /// The name of the file that the other slot is of.
    named: String,
    /// A folder which was synced, as all above it were, and nothing in these was made or removed since.
    synced: String,
    /// Whether there is one.
    has_synced: bool,
    begun: bool,
    failed: bool,
}

impl<'a, R: Files<File = File> + AllocGlobal + Clock> Store<'a, R> {
    /// Takes all memory that later calls need, but for that of a listing.
    pub fn new(files: &'a R, root: &'a str, access: Access) -> Result<Self, NoMemory> {
        let alloc = files.alloc();
        Ok(Store {
            outside: Outside::new(files, alloc, root, access),
            paths: Paths::new(alloc, root)?,
            streams: HeldStreams::new(alloc)?,
            lock: None,
            slots: Slots::new(alloc)?,
            named: String::with_capacity(alloc, LONGEST_NAME)?,
            synced: String::with_capacity(alloc, LONGEST_NAME)?,
            has_synced: false,
            begun: false,
            failed: false,
        })
    }

    /// What the disk reaches beside its files.
    pub fn outside(&self) -> &Outside<'a, R> {
        &self.outside
    }

    /// Before the first call: holds the free streams, and takes the lock of a program that may write, unless the store is
    /// another user's.
    fn begin(&mut self) -> io::Result<()> {
        if self.failed {
            return Err(io::Error::from(ErrorKind::Other));
        }
        if self.begun {
            return Ok(());
        }
        self.streams.hold(self.outside.rt)?;
        if self.outside.access == Access::Write {
            self.check_owner(FIRST_JOURNAL)?;
            self.check_owner(SECOND_JOURNAL)?;
            if self.is_strange()? {
                self.outside.access = Access::Read;
                self.outside.hush();
            }
        }
        if self.outside.access.writes() {
            self.lock = Some(take_lock(&self.outside, &mut self.paths)?);
        }
        self.begun = true;
        Ok(())
    }

    /// Whether the folder is another user's, with neither a store nor a lock in it. Only whoever makes a store makes a lock
    /// there: it would be this user's, and keep the other one out.
    fn is_strange(&mut self) -> io::Result<bool> {
        let folder = fs::symlink_metadata(self.outside.rt, self.paths.below("")?)?;
        if folder.uid() == libc::geteuid() {
            return Ok(false);
        }
        for file in [FIRST_JOURNAL, SECOND_JOURNAL, LOCK] {
            if self.is_there(file)? {
                return Ok(false);
            }
        }
        Ok(true)
    }

    fn is_there(&mut self, file: &str) -> io::Result<bool> {
        match fs::symlink_metadata(self.outside.rt, self.paths.below(file)?) {
            Ok(_) => Ok(true),
            Err(error) if error.kind() == ErrorKind::NotFound => Ok(false),
            Err(error) => Err(error),
        }
    }

    /// Fails, and all later calls too, where the file is there and another user's, who could do nothing with what this one
    /// would write beside it. Where there is no log of events none is made then.
    fn check_owner(&mut self, file: &str) -> io::Result<()> {
        let files = self.outside.rt;
        match fs::symlink_metadata(files, self.paths.below(file)?) {
            Ok(found) if found.uid() == libc::geteuid() => Ok(()),
            Ok(_) => {
                self.failed = true;
                if !is_gone_on_with(files, self.paths.below(EVENTS)?) {
                    self.outside.hush();
                }
                Err(io::Error::new(ErrorKind::PermissionDenied, "it belongs to another user"))
            }
            Err(error) if error.kind() == ErrorKind::NotFound => Ok(()),
            Err(error) => Err(error),
        }
    }

    /// Makes `other` the slot of this file, where it is none of the journal's. What it held before is made stable first.
    fn turn_to(&mut self, file: &str) -> io::Result<()> {
        self.begin()?;
        if is_journal(file) || self.named.as_str() == file {
            return Ok(());
        }
        self.settle_other()?;
        self.slots.other.close();
        self.named.clear();
        self.named.push_str(file)?;
        Ok(())
    }

    /// Makes stable what `other` holds. After a failure nothing is answered any more.
    fn settle_other(&mut self) -> io::Result<()> {
        if !self.slots.other.is_changed() {
            return Ok(());
        }
        self.failed = true;
        self.slots.other.sync()?;
        self.failed = false;
        Ok(())
    }

    /// Opens the file where it is there, to read it. A journal's is opened for all that this program may do with it.
    fn open(&mut self, file: &str) -> io::Result<()> {
        let access = if is_journal(file) {
            self.outside.access
        } else {
            Access::Read
        };
        self.open_for(file, access)
    }

    fn open_for(&mut self, file: &str, access: Access) -> io::Result<()> {
        self.turn_to(file)?;
        let slot = self.slots.of(file);
        slot.open(self.outside.rt, access, &mut self.paths, file)
    }

    /// Opens the file to change it, and makes it with its folders where it is not there.
    fn make(&mut self, file: &str) -> io::Result<()> {
        let access = self.outside.access;
        self.open_for(file, access)?;
        if self.slots.of(file).is_open_for(access) {
            return Ok(());
        }
        self.make_folders(file)?;
        self.change_folder(folder_of(file))?;
        let slot = self.slots.of(file);
        slot.create(self.outside.rt, access, &mut self.paths, file)
    }

    /// Makes the folders that this file stands in, as far as they are missing.
    fn make_folders(&mut self, file: &str) -> io::Result<()> {
        for end in 1..file.len() {
            match file.split_at_checked(end) {
                Some((folder, rest)) if rest.starts_with('/') => self.make_folder(folder)?,
                _ => {}
            }
        }
        Ok(())
    }

    fn make_folder(&mut self, folder: &str) -> io::Result<()> {
        if make_folder(self.outside.rt, self.paths.below(folder)?)? {
            self.change_folder(folder_of(folder))?;
        }
        Ok(())
    }

    /// Something in this folder was made, or is to be made or removed.
    fn change_folder(&mut self, folder: &str) -> io::Result<()> {
        if !self.is_synced(folder) {
            return Ok(());
        }
        self.has_synced = !folder.is_empty();
        self.synced.clear();
        self.synced.push_str(folder_of(folder))?;
        Ok(())
    }

    /// Whether the folder is known to be synced since something in it was made or removed last.
    fn is_synced(&self, folder: &str) -> bool {
        self.has_synced && is_within(folder, self.synced.as_str())
    }

    pub fn length(&mut self, file: &str) -> io::Result<u64> {
        self.open(file)?;
        self.slots.of(file).length()
    }

    pub fn read(&mut self, file: &str, at: u64, into: &mut [u8]) -> io::Result<usize>
        ensures { IfOk result (λ n. n ≤ length into.old) }
    {
        self.open(file)?;
        let access = self.outside.access;
        self.slots.of(file).read(access, at, into)
    }

    pub fn write_at(&mut self, file: &str, at: u64, bytes: &[u8]) -> io::Result<()> {
        self.make(file)?;
        let slot = self.slots.of(file);
        slot.change(&self.outside, file)?;
        slot.write(at, bytes)
    }

    /// Sees to it that the file goes on up to this place, and makes it where it is not there.
    pub fn reserve(&mut self, file: &str, to: u64) -> io::Result<()> {
        self.make(file)?;
        self.slots.of(file).reserve(to)
    }

    /// Whether another program holds the lock of the writers, as far as that can be seen. Nothing is made.
    pub fn has_writer(&mut self) -> bool {
        self.lock.is_none() && is_locked(self.outside.rt, &mut self.paths)
    }

    /// Keeps so many bytes. A cut to nothing makes a file that is not there, so that an empty one stands there.
    pub fn cut(&mut self, file: &str, len: u64) -> io::Result<()> {
        if len == 0 {
            self.make(file)?;
        } else {
            self.open_for(file, self.outside.access)?;
        }
        let slot = self.slots.of(file);
        slot.change(&self.outside, file)?;
        slot.cut(len)
    }

    /// Makes the file stable, and that its folder names it, or names none. Nothing is synced that is known to be stable.
    pub fn sync(&mut self, file: &str) -> io::Result<()> {
        self.open(file)?;
        self.failed = true;
        self.slots.of(file).sync()?;
        if !is_journal(file) {
            self.slots.other.close();
        }
        let folder = folder_of(file);
        if !self.is_synced(folder) {
            self.sync_way(folder)?;
            self.synced.clear();
            self.synced.push_str(folder)?;
            self.has_synced = true;
        }
        self.failed = false;
        Ok(())
    }

    /// Syncs the folder, and those above it, up to the first that is known to be synced.
    fn sync_way(&mut self, folder: &str) -> io::Result<()> {
        let mut name = folder;
        for _ in 0..=folder.len() {
            if self.is_synced(name) {
                break;
            }
            sync_folder(self.outside.rt, self.paths.below(name)?)?;
            if name.is_empty() {
                break;
            }
            name = folder_of(name);
        }
        Ok(())
    }

    /// Removes what has that name, where it is there and no folder, and the folders of artifacts that are empty then. A link
    /// is removed itself, and none on the way is followed. What the system does not let this program remove stays.
    pub fn remove(&mut self, file: &str) -> io::Result<()> {
        self.turn_to(file)?;
        self.slots.of(file).close();
        match self.remove_file(file) {
            Err(error) if is_refused(&error) && is_within(ARTIFACTS, file) => {
                self.outside.tell_kept(file, &error);
                Ok(())
            }
            done => done,
        }
    }

    fn remove_file(&mut self, file: &str) -> io::Result<()> {
        let folder = folder_of(file);
        self.change_folder(folder)?;
        self.paths.check_folder(self.outside.rt, folder)?;
        match fs::remove_file(self.outside.rt, self.paths.below(file)?) {
            Ok(()) => {}
            Err(error) if error.kind() == ErrorKind::NotFound => {}
            Err(error) => return Err(error),
        }
        self.remove_folders(folder)
    }

    /// Removes the folder, and those above it, as far as they are empty and stand below that of the artifacts. One that
    /// can't be removed stays, which does no harm.
    fn remove_folders(&mut self, folder: &str) -> io::Result<()> {
        let mut name = folder;
        for _ in 0..folder.len() {
            if !self.remove_folder(name)? {
                break;
            }
            name = folder_of(name);
        }
        Ok(())
    }

    /// Answers whether it was removed. Where another reason than what stands in it keeps it, that is logged.
    fn remove_folder(&mut self, folder: &str) -> io::Result<bool> {
        if folder == ARTIFACTS || !is_within(ARTIFACTS, folder) {
            return Ok(false);
        }
        self.change_folder(folder_of(folder))?;
        match fs::remove_dir(self.outside.rt, self.paths.below(folder)?) {
            Ok(()) => Ok(true),
            Err(error) => {
                match error.kind() {
                    ErrorKind::DirectoryNotEmpty | ErrorKind::NotFound => {}
                    _ => self.outside.tell_kept(folder, &error),
                }
                Ok(false)
            }
        }
    }

    /// The names of all that stands below the folder of the artifacts and is no folder, rising by their bytes. Of a program
    /// that may write, empty folders there are removed, and what has a name that no artifact can have.
    pub fn list(&mut self) -> io::Result<List<FileName>> {
        self.begin()?;
        self.paths.check_folder(self.outside.rt, ARTIFACTS)?;
        let found = list_files(&self.outside, &mut self.paths, ARTIFACTS)?;
        if self.outside.access.writes() {
            self.remove_all(found.empty.as_slice())?;
            self.remove_closed(found.closed.as_slice())?;
        }
        Ok(List::new(found.files))
    }

    /// Removes each of these folders, and those above it that are empty then.
    fn remove_all(&mut self, folders: &[String]) -> io::Result<()> {
        for folder in folders {
            self.remove_folders(folder.as_str())?;
        }
        Ok(())
    }

    /// Removes each of these folders where nothing stands in it, and those above it that are empty then.
    fn remove_closed(&mut self, folders: &[Closed]) -> io::Result<()> {
        for closed in folders {
            let folder = closed.folder.as_str();
            self.change_folder(folder_of(folder))?;
            match fs::remove_dir(self.outside.rt, self.paths.below(folder)?) {
                Ok(()) => self.remove_folders(folder_of(folder))?,
                Err(_) => self.outside.tell_kept(folder, &closed.error),
            }
        }
        Ok(())
    }
}

/// Whether a log stands there that is not set aside before its next line: the new one would be this user's.
fn is_gone_on_with<R: Files>(files: &R, path: &str) -> bool {
    match fs::symlink_metadata(files, path) {
        Ok(found) => found.is_file() && found.len() <= LOG_LIMIT,
        Err(_) => false,
    }
}

/// Makes the lock's file where it is missing, and holds a lock on it. It fails where another program holds one.
fn take_lock<R: Files<File = File> + Clock>(
    outside: &Outside<'_, R>,
    paths: &mut Paths<'_>,
) -> io::Result<File> {
    let path = paths.plain_file(outside.rt, LOCK)?;
    let lock = OpenOptions::new()
        .read(true)
        .write(true)
        .create(true)
        .mode(FILE_MODE)
        .open(outside.rt, path)?;
    outside.keep_writers_out(&lock, LOCK)?;
    Ok(lock)
}

/// Whether a program holds the lock of the writers. It is shared for a moment, which is shorter than a writer tries it.
fn is_locked<R: Files<File = File>>(files: &R, paths: &mut Paths<'_>) -> bool {
    let Ok(path) = paths.plain_file(files, LOCK) else {
        return false;
    };
    match OpenOptions::new().read(true).open(files, path) {
        Ok(lock) => matches!(lock.try_lock_shared(), Err(TryLockError::WouldBlock)),
        Err(_) => false,
    }
}
