//! Whether two paths lead to one folder.

use std::fs;
use std::fs::Files;
use std::os::unix::fs::MetadataExt;

/// Whether both paths lead to the same folder, by device and inode. What cannot be looked at is no folder.
pub fn is_same_folder<R: Files>(files: &R, one: &str, other: &str) -> bool {
    match (fs::metadata(files, one), fs::metadata(files, other)) {
        (Ok(one), Ok(other)) => {
            one.is_dir() && other.is_dir() && one.dev() == other.dev() && one.ino() == other.ino()
        }
        _ => false,
    }
}
