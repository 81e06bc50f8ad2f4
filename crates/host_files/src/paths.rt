use nuc_base::NoMemory;
use std::alloc::Global;
use std::fs::{DirBuilder, File, Files};
use std::io::ErrorKind;
use std::os::unix::fs::DirBuilderExt;
use std::{fs, io};

/// How many bytes the longest name of a stored file has, `packages/artifacts/NAME/VERSION/FILE` of 128, 128 and 256 bytes.
pub const LONGEST_NAME: usize = 533;

/// Folders are their owner's alone.
const FOLDER_MODE: u32 = 0o700;

/// The paths below one folder, put together in one buffer that is made once.
#[derive(Drop)]
pub struct Paths<'a> {
    root: &'a str,
    text: String,
}

impl<'a> Paths<'a> {
    /// An empty root is the current folder.
    pub fn new(alloc: Global, root: &'a str) -> Result<Self, NoMemory> {
        let root = if root.is_empty() { "." } else { root };
        let room = root.len().saturating_add(1 + LONGEST_NAME);
        Ok(Paths {
            root,
            text: String::with_capacity(alloc, room)?,
        })
    }

    /// The path of a file or a folder below the root, and with no name that of the root.
    pub fn below(&mut self, name: &str) -> io::Result<&str> {
        self.text.clear();
        self.text.push_str(self.root)?;
        self.text.push('/')?;
        self.text.push_str(name)?;
        Ok(self.text.as_str())
    }

    /// The path of what has that name in a folder below the root.
    pub fn entry(&mut self, folder: &str, name: &str) -> io::Result<&str> {
        self.below(folder)?;
        self.text.push('/')?;
        self.text.push_str(name)?;
        Ok(self.text.as_str())
    }

    /// The path that was put together last, below the root.
    pub fn last(&self) -> &str {
        let from = self.root.len().saturating_add(1);
        self.text.get(from..).unwrap_or("")
    }

    /// The path of a file, where no folder on the way is anything but a folder, and what stands there, if anything, is a
    /// plain file. A symbolic link is neither.
    pub fn plain_file<R: Files>(&mut self, files: &R, name: &str) -> io::Result<&str> {
        self.check_way(files, name, true)?;
        Ok(self.text.as_str())
    }

    /// Fails where anything but a folder stands in its place or on the way to it. A symbolic link is none.
    pub fn check_folder<R: Files>(&mut self, files: &R, name: &str) -> io::Result<()> {
        self.check_way(files, name, false)
    }

    /// Puts the path together, and looks at each part of the name: all but the last are to be folders.
    fn check_way<R: Files>(&mut self, files: &R, name: &str, ends_in_file: bool) -> io::Result<()> {
        self.text.clear();
        self.text.push_str(self.root)?;
        let whole = self.root.len().saturating_add(name.len());
        for part in name.split('/') {
            self.text.push('/')?;
            self.text.push_str(part)?;
            let is_file = ends_in_file && self.text.len() > whole;
            check_kind(files, self.text.as_str(), is_file)?;
        }
        Ok(())
    }
}

/// The name of the folder that this file or folder stands in. The root's is empty.
pub fn folder_of(name: &str) -> &str {
    match name.rsplit_once('/') {
        Some((folder, _name)) => folder,
        None => "",
    }
}

/// Whether the path is that folder or stands below it. The root's name is empty.
pub fn is_within(folder: &str, path: &str) -> bool {
    if folder.is_empty() {
        return true;
    }
    match path.strip_prefix(folder) {
        Some(rest) => rest.is_empty() || rest.starts_with('/'),
        None => false,
    }
}

fn check_kind<R: Files>(files: &R, path: &str, is_file: bool) -> io::Result<()> {
    match fs::symlink_metadata(files, path) {
        Ok(found) if is_file && found.is_file() => Ok(()),
        Ok(found) if !is_file && found.is_dir() => Ok(()),
        Ok(_) => Err(io::Error::from(ErrorKind::InvalidInput)),
        Err(error) if error.kind() == ErrorKind::NotFound => Ok(()),
        Err(error) => Err(error),
    }
}

/// Makes a folder, where it is not there. Answers whether it was made.
pub fn make_folder<R: Files>(files: &R, path: &str) -> io::Result<bool> {
    match DirBuilder::new().mode(FOLDER_MODE).create(files, path) {
        Ok(()) => Ok(true),
        Err(error) if error.kind() == ErrorKind::AlreadyExists => Ok(false),
        Err(error) => Err(error),
    }
}

/// Syncs a folder, where it is there.
pub fn sync_folder<R: Files<File = File>>(files: &R, path: &str) -> io::Result<()> {
    match fs::open(files, path) {
        Ok(folder) => folder.sync_all(),
        Err(error) if error.kind() == ErrorKind::NotFound => Ok(()),
        Err(error) => Err(error),
    }
}
