//! Where the output of children goes.
ghost use Rattle.std.specs.Process.{SameProgramAndArgs, SameEnv, SameDir};

use crate::anew::make_anew;
use host_files::{LOG_LIMIT, open_log, read_full};
use std::alloc::{AllocError, Global};
use std::fs::{File, Files, OpenOptions};
use std::io::Write;
use std::process::Stdio;
use std::{fs, io, process};

/// How many bytes of a log are copied at once, and how often at most: what a log may have.
const PART: usize = 65_536;

const PARTS: u64 = 16;

/// The component whose folder this is: the folder's last part.
pub(crate) fn component_of(folder: &str) -> &str {
    match folder.rsplit_once('/') {
        Some((_, name)) => name,
        None => folder,
    }
}

/// The name of a component's log. It is never that of the log of events, `events` or `events.1`, which end otherwise.
pub(crate) fn log_name(alloc: Global, component: &str) -> Result<String, AllocError> {
    format!(in alloc; "{component}.log")
}

/// Has what the child prints appended to the log of the component whose folder this is, where there is a folder `logs`. Where
/// there is none, or the log cannot be opened, it is dropped.
pub(crate) fn direct_output<R: Files<File = File>>(
    files: &R,
    alloc: Global,
    root: &str,
    folder: &str,
    child: &mut process::Command,
)
    ensures call { SameProgramAndArgs child.old child.new }
    ensures env { SameEnv child.old child.new }
    ensures folder { SameDir child.old child.new }
{
    if let Ok((out, errors)) = open_streams(files, alloc, root, folder) {
        child.stdout(Stdio::from(out));
        child.stderr(Stdio::from(errors));
    }
}

/// The log, opened for each of the two streams: what both print comes one after another.
fn open_streams<R: Files<File = File>>(
    files: &R,
    alloc: Global,
    root: &str,
    folder: &str,
) -> io::Result<(File, File)> {
    let name = log_name(alloc, component_of(folder))?;
    let out = open_log(files, alloc, root, name.as_str())?;
    let errors = open_log(files, alloc, root, name.as_str())?;
    Ok((out, errors))
}

/// Cuts the log of a component that has grown too long while its child lives, who goes on at its new end. The last MiB of it is
/// kept under its name with `.1`; what is printed in between is lost.
pub(crate) fn turn_log<R: Files<File = File>>(
    files: &R,
    alloc: Global,
    root: &str,
    component: &str,
) -> io::Result<()> {
    let root = if root.is_empty() { "." } else { root };
    let log = format!(in alloc; "{root}/logs/{component}.log")?;
    let found = fs::symlink_metadata(files, log.as_str())?;
    if !found.is_file() || found.len() <= LOG_LIMIT {
        return Ok(());
    }
    let before = format!(in alloc; "{log}.1")?;
    let mut options = OpenOptions::new();
    options.read(true).write(true);
    let file = options.open(files, log.as_str())?;
    let mut kept = make_anew(files, before.as_str())?;
    copy_end(
        alloc,
        &file,
        found.len().saturating_sub(LOG_LIMIT),
        &mut kept,
    )?;
    file.set_len(0)
}

/// Copies what stands in the file from there on, up to what a log may have.
fn copy_end(alloc: Global, file: &File, from: u64, into: &mut File) -> io::Result<()> {
    let mut part = vec![in alloc; 0; PART]?;
    for at in 0..PARTS {
        let place = from.saturating_add(at.saturating_mul(PART as u64));
        let count = read_full(file, place, part.as_mut_slice())?;
        into.write_all(&part[..count])?;
    }
    Ok(())
}
