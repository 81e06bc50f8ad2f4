//! The processes of the system, as its folder /proc tells of them.

use host_files::read_prefix;
use std::alloc::Global;
use std::fs::{DirEntry, File, Files};
use std::{fs, io, str};

/// A process.
#[derive(Clone, Copy)]
pub(crate) struct Seen {
    pub(crate) process: u32,
    /// The group that it is in, by its leader.
    pub(crate) group: u32,
    /// When it was started, in ticks of the system since that was.
    pub(crate) start: u64,
    /// Whether it has ended, and was not waited for.
    pub(crate) has_ended: bool,
}

/// How many bytes of a `stat` are read: more than any has.
const STAT_LENGTH: usize = 1_024;

/// What stands in the `stat` of a process (proc_pid_stat(5)). Its second field, the program's name in parentheses, may hold
/// anything, blanks and parentheses too, so the fields are counted behind the last parenthesis: there stand the state, which
/// is the third field, the group, which is the fifth, and the start, which is the twenty-second.
fn read_stat(process: u32, stat: &[u8]) -> Option<Seen> {
    let fields = stat.rsplit(|byte| *byte == b')').next()?;
    let fields = str::from_utf8(fields).ok()?;
    let mut words = fields.split_ascii_whitespace();
    let state = words.next()?;
    let group = u32::from_str_radix(words.nth(1)?, 10).ok()?;
    let start = u64::from_str_radix(words.nth(16)?, 10).ok()?;
    Some(Seen {
        process,
        group,
        start,
        has_ended: state == "Z" || state == "X",
    })
}

/// The process with this number, where there is one.
pub(crate) fn find_process<R: Files<File = File>>(
    files: &R,
    alloc: Global,
    process: u32,
) -> io::Result<Option<Seen>> {
    let path = format!(in alloc; "/proc/{process}/stat")?;
    let stat = read_prefix(alloc, files, path.as_str(), STAT_LENGTH)?;
    Ok(read_stat(process, stat.as_slice()))
}

/// All processes.
pub(crate) fn all_seen<R: Files<File = File> + AllocGlobal>(files: &R) -> io::Result<Vec<Seen>> {
    let mut all = Vec::new(files.alloc());
    for entry in fs::read_dir(&files, "/proc")? {
        if let Some(seen) = seen_at(files, &entry?) {
            all.push(seen)?;
        }
    }
    Ok(all)
}

/// The process of this entry. One that ends meanwhile is none.
fn seen_at<R: Files<File = File> + AllocGlobal>(files: &R, entry: &DirEntry<&R>) -> Option<Seen> {
    let process = u32::from_str_radix(entry.file_name(), 10).ok()?;
    find_process(files, files.alloc(), process).ok()?
}
