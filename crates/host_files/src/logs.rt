//! Logs below the folder of a device: files that are appended to, and are set aside once they are long.

use std::alloc::Global;
use std::fs::{File, Files, OpenOptions};
use std::io::ErrorKind;
use std::os::unix::fs::OpenOptionsExt;
use std::{fs, io};

/// How many bytes a log has at most that is gone on with: 1 MiB.
pub const LOG_LIMIT: u64 = 1_048_576;

/// Logs are their owner's alone.
const LOG_MODE: u32 = 0o600;

/// Opens the log of that name in the folder `logs` below the root, at its end. It is made where it is not there, and set
/// aside under its name with `.1` where it has grown too long. It fails where there is no folder `logs`, and where something
/// else than a plain file stands there.
pub fn open_log<R: Files<File = File>>(
    files: &R,
    alloc: Global,
    root: &str,
    name: &str,
) -> io::Result<File> {
    let root = if root.is_empty() { "." } else { root };
    let logs = format!(in alloc; "{root}/logs")?;
    if !fs::symlink_metadata(files, logs.as_str())?.is_dir() {
        return Err(io::Error::from(ErrorKind::NotADirectory));
    }
    let log = format!(in alloc; "{logs}/{name}")?;
    begin_anew(files, alloc, log.as_str())?;
    open_end(files, log.as_str())
}

/// Sets a log aside that has grown too long. It fails where no plain file stands there.
fn begin_anew<R: Files>(files: &R, alloc: Global, log: &str) -> io::Result<()> {
    match fs::symlink_metadata(files, log) {
        Ok(found) if !found.is_file() => Err(io::Error::from(ErrorKind::InvalidInput)),
        Ok(found) if found.len() > LOG_LIMIT => {
            let before = format!(in alloc; "{log}.1")?;
            fs::rename(files, log, before.as_str())
        }
        Ok(_) => Ok(()),
        Err(error) if error.kind() == ErrorKind::NotFound => Ok(()),
        Err(error) => Err(error),
    }
}

/// Opens a log at its end, and makes it where it is not there.
fn open_end<R: Files<File = File>>(files: &R, log: &str) -> io::Result<File> {
    let mut options = OpenOptions::new();
    options.append(true).create(true).mode(LOG_MODE);
    options.open(files, log)
}
