//! Documents and recipes: the names in a folder that end in `.json`, and what such a file holds.
ghost use Rattle.std.specs.Prelude.{◌≤◌, length, IfOk};

use crate::window::read_full;
use libc::PATH_MAX;
use nuc_base::{Bytes, copy_prefix};
use std::alloc::Global;
use std::fs::{File, Files};
use std::io::{ErrorKind, Read};
use std::path::AsPath;
use std::{fs, io};

/// How many bytes of names are read from a folder at a time, which has room for any one name.
const NAMES: usize = 4_096;

/// What is told of something that stands in a folder under a name that ends in `.json`.
#[derive(Drop)]
pub struct JsonNames {
    /// The names that are text, rising by their bytes.
    pub names: Vec<String>,
    /// Those that are none, with a replacement character for what is no UTF-8.
    pub no_text: Vec<String>,
}

impl JsonNames {
    pub fn none(alloc: Global) -> JsonNames {
        JsonNames {
            names: Vec::new(alloc),
            no_text: Vec::new(alloc),
        }
    }

    /// Adds those of these names, each with a zero behind it, that end in `.json`.
    fn add(&mut self, alloc: Global, names: &[u8]) -> io::Result<()> {
        for name in names.split(|byte| *byte == 0) {
            if !name.ends_with(b".json") {
                continue;
            }
            match str::from_utf8(name) {
                Ok(text) => self.names.push(String::from_str(alloc, text)?)?,
                Err(_) => self.no_text.push(String::from_utf8_lossy(alloc, name)?)?,
            }
        }
        Ok(())
    }
}

/// The names in a folder that end in `.json`, whatever stands there under them. A folder that is not there has none; one
/// behind a link is listed.
pub fn json_names<R: Files + AllocGlobal>(files: &R, folder: &str) -> io::Result<JsonNames> {
    let alloc = files.alloc();
    let mut found = JsonNames::none(alloc);
    let folder = format!(in alloc; "{folder}/")?;
    let mut listing = match files.open_dir(folder.as_str()) {
        Ok(listing) => listing,
        Err(error) if error.kind() == ErrorKind::NotFound => return Ok(found),
        Err(error) => return Err(error),
    };
    let mut names = vec![in alloc; 0; NAMES]?;
    for _ in 0..u64::MAX {
        let count = listing.read(names.as_mut_slice())?;
        if count == 0 {
            break;
        }
        found.add(alloc, &names[..count])?;
    }
    found.names.sort()?;
    Ok(found)
}

/// Whether a plain file stands there, or a link to one.
pub fn is_file<R: Files, P: AsPath>(files: &R, path: P) -> io::Result<bool> {
    match fs::metadata(files, path) {
        Ok(metadata) => Ok(metadata.is_file()),
        Err(error) if error.kind() == ErrorKind::NotFound => Ok(false),
        Err(error) => Err(error),
    }
}

/// Whether this program's user may read the file, asked without opening it, since to open a pipe is to wait for its writer.
pub fn may_read(path: &str) -> bool {
    if path.len() >= PATH_MAX {
        return false;
    }
    let mut text = [0; PATH_MAX];
    let _count = copy_prefix(path.as_bytes(), &mut text);
    text[PATH_MAX - 1] = 0;
    unsafe { libc::access(&text, libc::R_OK) == 0 }
}

/// The file's bytes, or the first so many of them. The room for them is that of the file's size. Where there are more, as in
/// one that grows or that tells no size, it is that of all that are given.
pub fn read_prefix<R: Files<File = File>>(
    alloc: Global,
    files: &R,
    path: &str,
    most: usize,
) -> io::Result<Bytes>
    ensures short { IfOk result (λ bytes. length bytes ≤ most) }
{
    let file = File::open(files, path)?;
    let room = room_for(file.metadata()?.len(), most);
    let bytes = read_beginning(alloc, &file, room)?;
    if bytes.len() < room || room == most {
        return Ok(bytes);
    }
    read_beginning(alloc, &file, most)
}

/// Room for a file of that size and for one byte more, which shows that it has no more bytes, or the most that is asked for.
fn room_for(size: u64, most: usize) -> usize
    ensures { result ≤ most }
{
    match usize::try_from(size) {
        Ok(size) => size.saturating_add(1).min(most),
        Err(_) => most,
    }
}

/// The file's bytes up to so many.
fn read_beginning(alloc: Global, file: &File, most: usize) -> io::Result<Bytes>
    ensures { IfOk result (λ bytes. length bytes ≤ most) }
{
    let mut bytes = vec![in alloc; 0; most]?;
    let count = read_full(file, 0, bytes.as_mut_slice())?;
    bytes.truncate(count);
    bytes.shrink_to_fit();
    Ok(Bytes::new(bytes))
}
