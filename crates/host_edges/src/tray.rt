//! The way of a document through the folders: from the inbox to those that were taken, and away once it was handled.
ghost use Rattle.std.specs.Prelude.{◌≤◌, length, IfOk, IfSome};

use crate::told::Told;
use host_files::{
    Event, JsonNames, Paths, is_file, json_names, make_folder, may_read, read_prefix, sync_folder,
};
use nuc_base::{Bytes, DOCUMENT_LIMIT, NoMemory};
use std::alloc::Global;
use std::fs::{File, Files, Metadata};
use std::io::ErrorKind;
use std::os::unix::fs::MetadataExt;
use std::rt::Clock;
use std::{fs, io};

/// Where documents come in, below the folder of the device.
pub(crate) const INBOX: &str = "inbox";

/// Where the program keeps those that it took, until they are handled.
pub(crate) const TAKEN: &str = "taken";

/// Where those go that were handled, where it stands.
const HANDLED: &str = "handled";

/// The file that closes the inbox.
const CLOSED: &str = "closed";

/// The most bytes of a document that are given: one more than a document may have.
const MOST_GIVEN: usize = DOCUMENT_LIMIT + 1;

/// What stands under a name. A link is no file, whatever it leads to.
#[derive(Clone, Copy, Debug, PartialEq, Eq)]
enum Kind {
    Nothing,
    File,
    Other,
}

/// A folder of the system, wherever it is moved.
#[derive(Clone, Copy, Debug, PartialEq, Eq)]
struct Place {
    device: u64,
    number: u64,
}

/// The folders of documents below a root. What cannot be taken, read or taken away is told in the log of events and is no fault:
/// want of memory alone is an error of the calls on one document.
#[derive(Drop)]
pub(crate) struct Tray<'a, R: Files<File = File>> {
    rt: &'a R,
    paths: Paths<'a>,
    /// The path that something is moved to.
    target: Paths<'a>,
    pub(crate) told: Told<'a, R>,
    /// The root, once it was looked at.
    root: Option<Place>,
    /// Documents that were handled and could not be taken away.
    left: Vec<String>,
}

impl<'a, R: Files<File = File> + Clock + AllocGlobal> Tray<'a, R> {
    pub(crate) fn new(rt: &'a R, root: &'a str) -> Result<Self, NoMemory> {
        let alloc = rt.alloc();
        Ok(Tray {
            rt,
            paths: Paths::new(alloc, root)?,
            target: Paths::new(alloc, root)?,
            told: Told::new(rt, root, "inbox"),
            root: None,
            left: Vec::new(alloc),
        })
    }

    /// Tells of a fault of the call at the path that was used last.
    pub(crate) fn tell_fault(&self, call: &str, error: &io::Error) {
        self.told.fault(call, self.paths.last(), error);
    }

    /// Makes room to remember one more document that cannot be taken away.
    pub(crate) fn make_room(&mut self) -> io::Result<()> {
        Ok(self.left.reserve(1)?)
    }

    /// Whether the inbox was closed.
    pub(crate) fn is_closed(&mut self) -> io::Result<bool> {
        let path = self.paths.entry(INBOX, CLOSED)?;
        Ok(is_file(self.rt, path).unwrap_or(false))
    }

    /// The names of the documents in the inbox. It fails where the root is gone, or another folder than at the first call.
    pub(crate) fn list_inbox(&mut self) -> io::Result<Vec<String>> {
        self.told.begin();
        self.check_root()?;
        let found = json_names(self.rt, self.paths.below(INBOX)?)?;
        Ok(self.known(INBOX, found))
    }

    /// The names of the documents that were taken and are not handled.
    pub(crate) fn list_taken(&mut self) -> io::Result<Vec<String>> {
        let found = match json_names(self.rt, self.paths.below(TAKEN)?) {
            Ok(found) => found,
            Err(error) if error.kind() == ErrorKind::OutOfMemory => return Err(error),
            Err(error) => {
                self.told.pass_over_for(".", TAKEN, &error);
                JsonNames::none(self.rt.alloc())
            }
        };
        let mut names = self.known(TAKEN, found);
        names.retain(|name| !self.left.contains(name));
        Ok(names)
    }

    /// The names that are text. Of the others it tells.
    fn known(&mut self, folder: &str, found: JsonNames) -> Vec<String> {
        for name in &found.no_text {
            self.told.pass_over(folder, name.as_str());
        }
        found.names
    }

    fn check_root(&mut self) -> io::Result<()> {
        let found = place_of(&fs::metadata(self.rt, self.paths.below("")?)?);
        let known = self.root.unwrap_or(found);
        if known != found {
            return Err(io::Error::from(ErrorKind::NotFound));
        }
        self.root = Some(known);
        Ok(())
    }

    /// Takes a document out of the inbox. Answers whether it did: what is gone is forgotten, and what is no document or cannot
    /// be taken now is passed over.
    pub(crate) fn take(&mut self, name: &str) -> io::Result<bool> {
        match self.try_take(name) {
            Ok(Kind::File) => Ok(true),
            Ok(Kind::Nothing) => Ok(false),
            Ok(Kind::Other) => {
                self.told.pass_over(INBOX, name);
                Ok(false)
            }
            Err(error) if error.kind() == ErrorKind::NotFound => Ok(false),
            Err(error) if error.kind() == ErrorKind::OutOfMemory => Err(error),
            Err(error) => {
                self.told.pass_over_for(INBOX, name, &error);
                Ok(false)
            }
        }
    }

    /// Takes a document, where a file stands there that may be read. Answers what stands there.
    fn try_take(&mut self, name: &str) -> io::Result<Kind> {
        let path = self.paths.entry(INBOX, name)?;
        let kind = kind_of(self.rt, path)?;
        if kind != Kind::File {
            return Ok(kind);
        }
        if !may_read(path) {
            return Err(io::Error::from(ErrorKind::PermissionDenied));
        }
        self.make_place(name)?;
        let target = self.target.entry(TAKEN, name)?;
        fs::rename(self.rt, self.paths.entry(INBOX, name)?, target)?;
        self.left.retain(|left| left.as_str() != name);
        self.sync(TAKEN);
        Ok(Kind::File)
    }

    /// Makes the folder of those that were taken, where it is not there. It fails where a document of that name stands in it
    /// that is not handled: that one comes first.
    fn make_place(&mut self, name: &str) -> io::Result<()> {
        if make_folder(self.rt, self.target.below(TAKEN)?)? {
            self.sync("");
        }
        let target = self.target.entry(TAKEN, name)?;
        if kind_of(self.rt, target)? == Kind::Nothing || self.is_left(name) {
            Ok(())
        } else {
            Err(io::Error::from(ErrorKind::AlreadyExists))
        }
    }

    fn is_left(&self, name: &str) -> bool {
        self.left.iter().any(|left| left.as_str() == name)
    }

    /// The bytes of a document that was taken. What is no file there, or cannot be read now, is passed over: it goes back into
    /// the inbox where that can be.
    pub(crate) fn read(&mut self, alloc: Global, name: &str) -> io::Result<Option<Bytes>>
        ensures { IfOk result (λ found. IfSome found (λ bytes. length bytes ≤ 524289)) }
    {
        match self.try_read(alloc, name) {
            Ok(bytes) => return Ok(Some(bytes)),
            Err(error) if error.kind() == ErrorKind::NotFound => return Ok(None),
            Err(error) if error.kind() == ErrorKind::OutOfMemory => return Err(error),
            Err(error) => self.told.pass_over_for(TAKEN, name, &error),
        }
        let _stays = self.put_back(name);
        Ok(None)
    }

    fn try_read(&mut self, alloc: Global, name: &str) -> io::Result<Bytes>
        ensures { IfOk result (λ bytes. length bytes ≤ 524289) }
    {
        let path = self.paths.entry(TAKEN, name)?;
        match kind_of(self.rt, path)? {
            Kind::File => read_prefix(alloc, self.rt, path, MOST_GIVEN),
            Kind::Nothing => Err(io::Error::from(ErrorKind::NotFound)),
            Kind::Other => Err(io::Error::from(ErrorKind::InvalidInput)),
        }
    }

    /// Puts what was taken back under its name. It gets that name beside the one that it has, which fails where something came
    /// there meanwhile: to rename it would put it in the place of that.
    fn put_back(&mut self, name: &str) -> io::Result<()> {
        let target = self.target.entry(INBOX, name)?;
        let path = self.paths.entry(TAKEN, name)?;
        fs::hard_link(self.rt, path, target)?;
        fs::remove_file(self.rt, path)
    }

    /// Takes away a document that was handled. Where that cannot be it is passed over from here on.
    pub(crate) fn put_away(&mut self, name: String) {
        match self.try_put_away(name.as_str()) {
            Ok(()) => self.told.tell(&Event::Done {
                name: name.as_str(),
            }),
            Err(error) => {
                self.told.tell(&Event::NotRemoved {
                    path: self.paths.last(),
                    error: &error,
                });
                // There is room for it. A document that was not remembered would only come once more.
                let _kept = self.left.push(name);
            }
        }
    }

    fn try_put_away(&mut self, name: &str) -> io::Result<()> {
        if self.keep(name)? {
            return Ok(());
        }
        match fs::remove_file(self.rt, self.paths.entry(TAKEN, name)?) {
            Ok(()) => self.sync(TAKEN),
            Err(error) if error.kind() == ErrorKind::NotFound => {}
            Err(error) => return Err(error),
        }
        Ok(())
    }

    /// Keeps a document that was handled, where there is a folder for that on the same file system. Answers whether there is.
    fn keep(&mut self, name: &str) -> io::Result<bool> {
        if !is_folder(self.rt, self.target.below(HANDLED)?) {
            return Ok(false);
        }
        let target = self.target.entry(HANDLED, name)?;
        match fs::rename(self.rt, self.paths.entry(TAKEN, name)?, target) {
            Ok(()) => {}
            Err(error) if error.kind() == ErrorKind::CrossesDevices => return Ok(false),
            Err(error) if error.kind() == ErrorKind::NotFound => return Ok(false),
            Err(error) => return Err(error),
        }
        self.sync(HANDLED);
        self.sync(TAKEN);
        Ok(true)
    }

    /// Makes stable what stands in the folder. Where that fails a document may come once more, which its id answers.
    fn sync(&mut self, folder: &str) {
        if let Err(error) = self.try_sync(folder) {
            self.told.fault("sync", folder, &error);
        }
    }

    fn try_sync(&mut self, folder: &str) -> io::Result<()> {
        sync_folder(self.rt, self.target.below(folder)?)
    }
}

fn place_of(metadata: &Metadata) -> Place {
    Place {
        device: metadata.dev(),
        number: metadata.ino(),
    }
}

fn kind_of<R: Files>(files: &R, path: &str) -> io::Result<Kind> {
    match fs::symlink_metadata(files, path) {
        Ok(found) if found.is_file() => Ok(Kind::File),
        Ok(_) => Ok(Kind::Other),
        Err(error) if error.kind() == ErrorKind::NotFound => Ok(Kind::Nothing),
        Err(error) => Err(error),
    }
}

/// Whether a folder stands there, or a link that leads to one.
fn is_folder<R: Files>(files: &R, path: &str) -> bool {
    match fs::metadata(files, path) {
        Ok(found) => found.is_dir(),
        Err(_) => false,
    }
}
