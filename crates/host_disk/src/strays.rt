//! Removing what no artifact can be, by the bytes of its name.

use crate::folders::{Left, Mount, is_refused, remove_folder};
use crate::names::is_entry;
use crate::outside::Outside;
use std::alloc::{AllocError, Global};
use std::fs::{File, Files};
use std::io::ErrorKind;
use std::time::Clock;
use std::{fs, io};

/// How long a path may get. What it names is moved up then, well before the system takes no longer one.
const LONGEST_PATH: usize = 2_048;

/// What is still to be done with the folder at a path.
#[derive(Drop)]
enum Task {
    /// To remove what stands in it, and then it.
    Empty(Vec<u8>),
    /// To remove it, since nothing is to stand in it.
    Remove(Vec<u8>),
}

/// Removes files and whole folders, whatever the bytes of the names in them and however deep they stand. It goes down and
/// up by paths, without recursion, and follows no link. Where a path gets too long, the folder that it names is moved up
/// and removed there. What the system does not let it remove stays and is logged, as is what was mounted there, into which
/// it does not go; all else is removed.
#[derive(Drop)]
pub struct Remover {
    alloc: Global,
    /// The path of the folder that others are moved into.
    top: String,
    /// How long the path of DIR is, with the `/` behind it.
    root: usize,
    /// The one that comes last is done first.
    tasks: Vec<Task>,
    /// The number that is tried next for a folder that is moved up.
    next: u64,
}

impl Remover {
    /// Folders that stand too deep are moved into this one, by names of `~` and a number, which no component has. Its path
    /// begins with so many bytes of DIR's.
    pub fn new(alloc: Global, top: &str, root: usize) -> io::Result<Self> {
        Ok(Remover {
            alloc,
            top: String::from_str(alloc, top)?,
            root,
            tasks: Vec::new(alloc),
            next: 0,
        })
    }

    /// Removes what has that name in the folder at this path, with all that stands below it and is of the mount. Answers
    /// whether it is there still.
    pub fn remove<R: Files<File = File> + AllocGlobal + Clock>(
        &mut self,
        outside: &Outside<'_, R>,
        mount: &Mount,
        folder: &str,
        name: &[u8],
    ) -> io::Result<bool> {
        let path = joined(self.alloc, folder.as_bytes(), name)?;
        self.tasks.clear();
        self.take(outside, path)?;
        for _ in 0..u64::MAX {
            let Some(task) = self.tasks.pop() else {
                break;
            };
            self.work(outside, mount, task)?;
        }
        let path = joined(self.alloc, folder.as_bytes(), name)?;
        match remove_file(path.as_slice()) {
            Ok(Left::Nothing) => Ok(false),
            _ => Ok(true),
        }
    }

    fn work<R: Files<File = File> + AllocGlobal + Clock>(
        &mut self,
        outside: &Outside<'_, R>,
        mount: &Mount,
        task: Task,
    ) -> io::Result<()> {
        match task {
            Task::Empty(path) => self.empty(outside, mount, path),
            Task::Remove(path) => match remove_folder(path.as_slice()) {
                // What stays in it was logged.
                Ok(_) => Ok(()),
                Err(error) => self.pass_over(outside, path.as_slice(), error),
            },
        }
    }

    /// Removes a file, and sees to it that a folder is removed later.
    fn take<R: Files<File = File> + Clock>(
        &mut self,
        outside: &Outside<'_, R>,
        path: Vec<u8>,
    ) -> io::Result<()> {
        match remove_file(path.as_slice()) {
            Ok(Left::Nothing) => Ok(()),
            Ok(Left::Folder) => self.take_folder(outside, path),
            // What stands in a folder may be removed for all that.
            Err(error) if is_refused(&error) && is_folder(path.as_slice()) => {
                self.take_folder(outside, path)
            }
            Err(error) => self.pass_over(outside, path.as_slice(), error),
        }
    }

    /// Sees to it that a folder is removed later. One whose path is too long is moved up first.
    fn take_folder<R: Files<File = File> + Clock>(
        &mut self,
        outside: &Outside<'_, R>,
        path: Vec<u8>,
    ) -> io::Result<()> {
        if path.len() <= LONGEST_PATH {
            self.tasks.push(Task::Empty(path))?;
            return Ok(());
        }
        match self.move_up(outside.rt, path.as_slice()) {
            Ok(()) => Ok(()),
            Err(error) => self.pass_over(outside, path.as_slice(), error),
        }
    }

    /// Removes the files in a folder, and sees to it that the folders in it are removed later, and then it.
    fn empty<R: Files<File = File> + AllocGlobal + Clock>(
        &mut self,
        outside: &Outside<'_, R>,
        mount: &Mount,
        path: Vec<u8>,
    ) -> io::Result<()> {
        let names = match mount.names(outside.rt, path.as_slice()) {
            Ok(names) => names,
            Err(error) => return self.remove_unseen(outside, path.as_slice(), error),
        };
        let folder = Vec::from_slice(self.alloc, path.as_slice())?;
        self.tasks.push(Task::Remove(folder))?;
        for name in names.as_slice().split(|byte| *byte == 0) {
            if is_entry(name) {
                let entry = joined(self.alloc, path.as_slice(), name)?;
                self.take(outside, entry)?;
            }
        }
        Ok(())
    }

    /// Removes a folder whose names are not to be had, as this error says, where nothing stands in it.
    fn remove_unseen<R: Files<File = File> + Clock>(
        &self,
        outside: &Outside<'_, R>,
        path: &[u8],
        error: io::Error,
    ) -> io::Result<()> {
        match remove_folder(path) {
            Ok(Left::Nothing) => Ok(()),
            _ => self.pass_over(outside, path, error),
        }
    }

    /// Logs that something stays. An error that is no refusal is handed on.
    fn pass_over<R: Files<File = File> + Clock>(
        &self,
        outside: &Outside<'_, R>,
        path: &[u8],
        error: io::Error,
    ) -> io::Result<()> {
        if !is_refused(&error) {
            return Err(error);
        }
        let name = path.get(self.root..).unwrap_or(path);
        let name = String::from_utf8_lossy(self.alloc, name)?;
        outside.tell_kept(name.as_str(), &error);
        Ok(())
    }

    /// Gives the folder at this path a free name in the top folder, to be removed there.
    fn move_up<R: Files>(&mut self, files: &R, path: &[u8]) -> io::Result<()> {
        let top = self.top.as_str();
        for number in self.next..u64::MAX {
            let to = format!(in self.alloc; "{top}/~{number}")?;
            if is_free(files, to.as_str())? {
                check(os::rename(path, to.as_bytes()))?;
                let moved = Vec::from_slice(self.alloc, to.as_bytes())?;
                self.tasks.push(Task::Empty(moved))?;
                self.next = number.saturating_add(1);
                return Ok(());
            }
        }
        Err(io::Error::from(ErrorKind::AlreadyExists))
    }
}

/// The path of what has that name in a folder.
fn joined(alloc: Global, folder: &[u8], name: &[u8]) -> Result<Vec<u8>, AllocError> {
    let mut path = Vec::from_slice(alloc, folder)?;
    path.push(b'/')?;
    path.extend_from_slice(name)?;
    Ok(path)
}

/// Whether nothing has that path.
fn is_free<R: Files>(files: &R, path: &str) -> io::Result<bool> {
    match fs::symlink_metadata(files, path) {
        Ok(_) => Ok(false),
        Err(error) if error.kind() == ErrorKind::NotFound => Ok(true),
        Err(error) => Err(error),
    }
}

/// Whether a folder has that path that may be looked into.
fn is_folder(path: &[u8]) -> bool {
    let folder = os::open_dir_at(libc::AT_FDCWD, path);
    if folder < 0 {
        return false;
    }
    libc::close(folder);
    true
}

/// Removes what has that path, where it is there and no folder. A link is removed itself.
fn remove_file(path: &[u8]) -> io::Result<Left> {
    if os::unlink(path) == 0 {
        return Ok(Left::Nothing);
    }
    match os::errno() {
        libc::ENOENT => Ok(Left::Nothing),
        libc::EISDIR => Ok(Left::Folder),
        error => Err(io::Error::from_raw_os_error(error)),
    }
}

/// The error of a call that answered less than 0.
fn check(status: i32) -> io::Result<()> {
    if status < 0 {
        Err(io::Error::from_raw_os_error(os::errno()))
    } else {
        Ok(())
    }
}
