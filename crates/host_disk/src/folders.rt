//! Folders that are looked into, without leaving the mount in which the first one stands.

use crate::access::Access;
use crate::names::NAMES;
use host_files::read_full;
use std::alloc::Global;
use std::fs::{File, Files};
use std::io;
use std::io::ErrorKind;

/// The error of a call on something that is in use, as a folder is on which something is mounted.
const EBUSY: i32 = 16;

/// How long the text is at most in which the system tells the mount of an open folder.
const TOLD: usize = 512;

/// What stands before its number there.
const LABEL: &str = "mnt_id:";

/// Whether the system does not let this program do something, though the medium does its part: it may not, the file system is
/// read-only, something is mounted there, or what is mounted there is not to be reached.
pub fn is_refused(error: &io::Error) -> bool {
    matches!(
        error.kind(),
        ErrorKind::PermissionDenied
            | ErrorKind::ResourceBusy
            | ErrorKind::ReadOnlyFilesystem
            | ErrorKind::CrossesDevices
            | ErrorKind::NotConnected
            | ErrorKind::StaleNetworkFileHandle
    )
}

/// The mount in which a walk stays.
#[derive(Drop)]
pub struct Mount {
    /// Its number, where the system tells it: it does in `/proc`.
    number: Option<u64>,
    /// How long the path of the folder is that the walk begins with.
    top: usize,
    access: Access,
}

impl Mount {
    /// That of the folder at this path.
    pub fn of<R: Files<File = File> + AllocGlobal>(
        files: &R,
        top: &str,
        access: Access,
    ) -> io::Result<Self> {
        let folder = open(top.as_bytes())?;
        let number = number_of(files, folder);
        libc::close(folder);
        Ok(Mount {
            number: number?,
            top: top.len(),
            access,
        })
    }

    /// The names in the folder at this path, each with a zero behind it. One in which something else is mounted is refused as
    /// in use.
    pub fn names<R: Files<File = File> + AllocGlobal>(
        &self,
        files: &R,
        path: &[u8],
    ) -> io::Result<Vec<u8>> {
        let folder = open(path)?;
        let names = match self.check(files, path, folder) {
            Ok(()) => read_names(files.alloc(), folder),
            Err(error) => Err(error),
        };
        libc::close(folder);
        names
    }

    /// Fails where the folder is of another mount. Where the system does not tell, a program that may write tries to remove it:
    /// the system refuses that of a mount as in use, before it looks whether something stands in it.
    fn check<R: Files<File = File> + AllocGlobal>(
        &self,
        files: &R,
        path: &[u8],
        folder: i32,
    ) -> io::Result<()> {
        match (self.number, number_of(files, folder)?) {
            (Some(own), Some(other)) if own == other => Ok(()),
            (Some(_), Some(_)) => Err(io::Error::from_raw_os_error(EBUSY)),
            _ if path.len() <= self.top || !self.access.writes() => Ok(()),
            _ => remove_folder(path).map(|_left| ()),
        }
    }
}

/// The descriptor of a folder that is opened to be read. A link is none.
fn open(path: &[u8]) -> io::Result<i32> {
    let folder = os::open_dir_at(libc::AT_FDCWD, path);
    if folder < 0 {
        Err(io::Error::from_raw_os_error(os::errno()))
    } else {
        Ok(folder)
    }
}

/// The number of the mount of an open folder. None where there is no `/proc`.
fn number_of<R: Files<File = File> + AllocGlobal>(
    files: &R,
    folder: i32,
) -> io::Result<Option<u64>> {
    let path = format!(in files.alloc(); "/proc/self/fdinfo/{folder}")?;
    let mut told = [0; TOLD];
    let count = match File::open(files, path.as_str()) {
        Ok(file) => read_full(&file, 0, &mut told)?,
        Err(error) if error.kind() == ErrorKind::OutOfMemory => return Err(error),
        Err(_) => 0,
    };
    match str::from_utf8(&told[..count]) {
        Ok(text) => Ok(number_in(text)),
        Err(_) => Ok(None),
    }
}

/// The number behind the label, at the beginning of a line.
fn number_in(text: &str) -> Option<u64> {
    for line in text.split('\n') {
        if let Some(number) = line.strip_prefix(LABEL) {
            return number.trim().parse().ok();
        }
    }
    None
}

/// Reads the names of the open folder to their end.
fn read_names(alloc: Global, folder: i32) -> io::Result<Vec<u8>> {
    let mut all = Vec::new(alloc);
    let mut names = vec![in alloc; 0; NAMES]?;
    for _ in 0..u64::MAX {
        let count = os::read_dir(folder, names.as_mut_slice());
        match os::errno() {
            0 | libc::ENOENT => {}
            error => return Err(io::Error::from_raw_os_error(error)),
        }
        if count == 0 {
            break;
        }
        all.extend_from_slice(&names[..count])?;
    }
    Ok(all)
}

/// What is left where something was to be removed.
#[derive(Clone, Copy, Debug, PartialEq, Eq)]
pub enum Left {
    Nothing,
    /// A folder, in which something stands.
    Folder,
}

/// Removes the folder at this path, where it is there and nothing stands in it.
pub fn remove_folder(path: &[u8]) -> io::Result<Left> {
    if os::rmdir(path) == 0 {
        return Ok(Left::Nothing);
    }
    match os::errno() {
        libc::ENOENT => Ok(Left::Nothing),
        libc::ENOTEMPTY | libc::EEXIST => Ok(Left::Folder),
        error => Err(io::Error::from_raw_os_error(error)),
    }
}
