ghost use Rattle.std.specs.Prelude.{◌≡◌, ◌≤◌, ℕ, [], None, false, length, IfOk, OnOk};
ghost use Rattle.nuc_base.specs.Faults.{Rose, HasCause};
ghost use Rattle.host_disk.specs.Real.{disk_faults};
ghost use Rattle.host_disk.specs.Untold.{untold_laws, no_image};

use crate::access::Access;
use crate::store::{ARTIFACTS, Store};
use disk_model::{Disk, DiskFault, ListFault};
use host_files::Event;
use nuc_base::{FileName, List, NoMemory};
use std::alloc::Global;
use std::fs::{File, Files};
use std::io;
use std::io::ErrorKind;
use std::time::Clock;

/// The disk over the files of a folder, which has to be there; folders below it are made as needed. It tells nothing
/// of what the files hold, and counts its faults. An absent file reads as an empty one.
///
/// A program that may write is alone: where another one holds the lock for 200 milliseconds, the first call fails. It fails too
/// where the journal is another user's, and the store is not to be made. In another user's folder without
/// a journal and a lock, one that does not make the store only reads. Readers hold it up for ten seconds at most. Where a
/// sync failed all later calls fail, since the system may have dropped what was not written. No symbolic link below the folder
/// is followed, and nothing but plain files is opened. Whatever is no folder is listed, also what is empty or no plain file,
/// and can be removed. A cut to nothing makes a file that is not there. Folders of artifacts that are empty go with the last
/// file in them, or where the artifacts are listed, and so does what has a name that no artifact can have.
///
/// Of the artifacts, what the system does not let this program remove stays, and the removal answers Ok; what is mounted below
/// their folder is not looked into. Room is made by zeros that are written: the file is longer then than what was asked for, up
/// to a whole mebibyte where that is to be had. A program that may write logs its faults, the locks that it waited for and what
/// stays as events.
#[derive(Drop)]
pub struct FileDisk<'a, R: Files<File = File>> {
    store: Store<'a, R>,
    faults: u64,
}

impl<'a, R: Files<File = File> + AllocGlobal + Clock> FileDisk<'a, R> {
    /// An empty root is the current folder. Nothing is opened before the first call.
    pub fn new(files: &'a R, root: &'a str, access: Access) -> Result<Self, NoMemory>
        ensures faults { IfOk result (λ disk. disk_faults disk ≡ 0) }
    {
        Ok(FileDisk {
            store: Store::new(files, root, access)?,
            faults: 0,
        })
    }

    /// Hands the answer of a call on, and counts and logs a fault.
    fn counted<T: Drop>(
        &mut self,
        call: &str,
        path: &str,
        answer: io::Result<T>,
    ) -> Result<T, DiskFault>
        ensures value { IfOk result (λ value. answer ≡ Ok value) }
        ensures cause { HasCause self.old.faults self.new.faults result }
        ensures quiet { OnOk result (self.new.faults ≡ self.old.faults) }
    {
        match answer {
            Ok(value) => Ok(value),
            Err(error) => Err(self.failed(call, path, &error)),
        }
    }

    /// Counts and logs a fault.
    fn failed(&mut self, call: &str, path: &str, error: &io::Error) -> DiskFault
        ensures rose { Rose self.old.faults self.new.faults }
        ensures later { self.old.faults ≤ self.new.faults }
    {
        self.store.outside().tell(&Event::Failed {
            object: "disk",
            call,
            path,
            error,
        });
        self.faults = self.faults.saturating_add(1);
        DiskFault
    }
}

impl<'a, R: Files<File = File> + AllocGlobal + Clock> Disk for FileDisk<'a, R> {
    ghost is_modelled = { false };

    ghost seen = { λ disk name. [] };

    ghost may_leave = { λ disk. no_image };

    ghost moment = { λ disk. 0 };

    ghost left_since = { λ disk since. no_image };

    ghost faults = { λ disk. disk_faults disk };

    ghost shortages = { λ disk. 0 };

    ghost writer = { λ disk. None };

    ghost laws = { untold_laws _ };

    fn length(&mut self, file: &str) -> Result<u64, DiskFault> {
        let length = self.store.length(file);
        self.counted("length", file, length)
    }

    fn read(&mut self, file: &str, at: u64, into: &mut [u8]) -> Result<usize, DiskFault> {
        let count = self.store.read(file, at, into);
        self.counted("read", file, count)
    }

    fn write_at(&mut self, file: &str, at: u64, bytes: &[u8]) -> Result<(), DiskFault> {
        let done = self.store.write_at(file, at, bytes);
        self.counted("write", file, done)
    }

    fn reserve(&mut self, file: &str, to: u64) -> Result<(), DiskFault> {
        let done = self.store.reserve(file, to);
        self.counted("reserve", file, done)
    }

    fn cut(&mut self, file: &str, len: u64) -> Result<(), DiskFault> {
        let done = self.store.cut(file, len);
        self.counted("cut", file, done)
    }

    fn sync(&mut self, file: &str) -> Result<(), DiskFault> {
        let done = self.store.sync(file);
        self.counted("sync", file, done)
    }

    fn remove(&mut self, file: &str) -> Result<(), DiskFault> {
        let done = self.store.remove(file);
        self.counted("remove", file, done)
    }

    fn list(&mut self, _alloc: Global) -> Result<List<FileName>, ListFault> {
        match self.store.list() {
            Ok(names) => Ok(names),
            Err(error) if error.kind() == ErrorKind::OutOfMemory => Err(ListFault::NoMemory),
            Err(error) => Err(ListFault::from(self.failed("list", ARTIFACTS, &error))),
        }
    }

    fn has_writer(&mut self) -> bool {
        self.store.has_writer()
    }
}
