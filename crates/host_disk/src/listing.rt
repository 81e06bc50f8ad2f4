use crate::folders::{Mount, is_refused};
use crate::names::is_entry;
use crate::outside::Outside;
use crate::strays::Remover;
use host_files::{LONGEST_NAME, Paths};
use nuc_base::FileName;
use std::fs::{File, Files};
use std::io::ErrorKind;
use std::time::Clock;
use std::{fs, io};

/// A folder into which the system does not let this program look, or on which something is mounted.
#[derive(Drop)]
pub struct Closed {
    pub folder: String,
    pub error: io::Error,
}

/// What a walk below a folder found.
#[derive(Drop)]
pub struct Found {
    /// Those that are not looked into yet.
    folders: Vec<String>,
    /// Folders in which nothing stands.
    pub empty: Vec<String>,
    pub closed: Vec<Closed>,
    /// Whatever is no folder, rising by the bytes.
    pub files: Vec<FileName>,
    /// Removes what no artifact can be, of a program that may write.
    remover: Option<Remover>,
}

/// The names of all that stands below a folder: files, and links, pipes and the like too, which are not followed. A name
/// that no artifact can have, as it is no UTF-8 or too long, is none of them: a program that may write removes what has it,
/// with all that stands below it. What is mounted below the folder is passed over whole, as is what the system does not let
/// this program look at.
pub fn list_files<R: Files<File = File> + AllocGlobal + Clock>(
    outside: &Outside<'_, R>,
    paths: &mut Paths<'_>,
    folder: &str,
) -> io::Result<Found> {
    let alloc = outside.rt.alloc();
    let mut found = Found {
        folders: Vec::new(alloc),
        empty: Vec::new(alloc),
        closed: Vec::new(alloc),
        files: Vec::new(alloc),
        remover: None,
    };
    let mount = match Mount::of(outside.rt, paths.below(folder)?, outside.access) {
        Ok(mount) => mount,
        Err(error) if error.kind() == ErrorKind::NotFound => return Ok(found),
        Err(error) => return Err(error),
    };
    if outside.access.writes() {
        let root = paths.below("")?.len();
        found.remover = Some(Remover::new(alloc, paths.below(folder)?, root)?);
    }
    found.folders.push(String::from_str(alloc, folder)?)?;
    for _ in 0..u64::MAX {
        let Some(name) = found.folders.pop() else {
            break;
        };
        list_folder(outside, &mount, paths, name, &mut found)?;
    }
    found.files.sort()?;
    Ok(found)
}

/// Adds what stands in one folder, and it where nothing does or it is closed.
fn list_folder<R: Files<File = File> + AllocGlobal + Clock>(
    outside: &Outside<'_, R>,
    mount: &Mount,
    paths: &mut Paths<'_>,
    folder: String,
    found: &mut Found,
) -> io::Result<()> {
    let names = match mount.names(outside.rt, paths.below(folder.as_str())?.as_bytes()) {
        Ok(names) => names,
        Err(error) if error.kind() == ErrorKind::NotFound => return Ok(()),
        Err(error) if is_refused(&error) => {
            found.closed.push(Closed { folder, error })?;
            return Ok(());
        }
        Err(error) => return Err(error),
    };
    if !add_entries(
        outside,
        mount,
        paths,
        folder.as_str(),
        names.as_slice(),
        found,
    )? {
        found.empty.push(folder)?;
    }
    Ok(())
}

/// Adds what has one of these names, each with a zero behind it, in the folder. Answers whether something has.
fn add_entries<R: Files<File = File> + AllocGlobal + Clock>(
    outside: &Outside<'_, R>,
    mount: &Mount,
    paths: &mut Paths<'_>,
    folder: &str,
    names: &[u8],
    found: &mut Found,
) -> io::Result<bool> {
    let mut is_there = false;
    for name in names.split(|byte| *byte == 0) {
        if is_entry(name) && add_entry(outside, mount, paths, folder, name, found)? {
            is_there = true;
        }
    }
    Ok(is_there)
}

/// Adds what has that name in the folder, or removes it. Answers whether it is there still. What is gone by now, as where a
/// component cleans up, is passed over.
fn add_entry<R: Files<File = File> + AllocGlobal + Clock>(
    outside: &Outside<'_, R>,
    mount: &Mount,
    paths: &mut Paths<'_>,
    folder: &str,
    name: &[u8],
    found: &mut Found,
) -> io::Result<bool> {
    match str::from_utf8(name) {
        Ok(text) if folder.len().saturating_add(text.len()) < LONGEST_NAME => {
            add_named(outside, paths, folder, text, found)
        }
        _ => match &mut found.remover {
            Some(remover) => remover.remove(outside, mount, paths.below(folder)?, name),
            None => Ok(true),
        },
    }
}

fn add_named<R: Files<File = File> + AllocGlobal + Clock>(
    outside: &Outside<'_, R>,
    paths: &mut Paths<'_>,
    folder: &str,
    name: &str,
    found: &mut Found,
) -> io::Result<bool> {
    let kind = fs::symlink_metadata(outside.rt, paths.entry(folder, name)?);
    let path = format!(in outside.rt.alloc(); "{folder}/{name}")?;
    match kind {
        Ok(metadata) if metadata.is_dir() => found.folders.push(path)?,
        Ok(_) => found.files.push(FileName::new(path))?,
        Err(error) if error.kind() == ErrorKind::NotFound => return Ok(false),
        Err(error) if is_refused(&error) => outside.tell_kept(path.as_str(), &error),
        Err(error) => return Err(error),
    }
    Ok(true)
}
