//! Files that are made anew in the place of others.

use std::fs::{File, Files, OpenOptions};
use std::io::ErrorKind;
use std::os::unix::fs::OpenOptionsExt;
use std::{fs, io};

/// Files are their owner's alone.
const FILE_MODE: u32 = 0o600;

/// Takes a file away, where it is there.
pub(crate) fn remove_old<R: Files>(files: &R, path: &str) -> io::Result<()> {
    match fs::remove_file(files, path) {
        Ok(()) => Ok(()),
        Err(error) if error.kind() == ErrorKind::NotFound => Ok(()),
        Err(error) => Err(error),
    }
}

/// Makes an empty file, in the place of one that stands there.
pub(crate) fn make_anew<R: Files<File = File>>(files: &R, path: &str) -> io::Result<File> {
    remove_old(files, path)?;
    let mut options = OpenOptions::new();
    options.write(true).create_new(true).mode(FILE_MODE);
    options.open(files, path)
}
