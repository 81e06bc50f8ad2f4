//! Notes of the children that live, for the next call: should this one be killed, that one ends them.
//!
//! They stand in the file `children` of DIR, a line of a fixed length for each: the process, its start as /proc tells it, what
//! tells this run of the system and its numbers of processes from others, and whether the process leads a group. A blank line
//! is a free place. Nothing is synced: once the power fails no child lives, and a note of another run of the system is none.
//! A line that was written in part is none either: only a kill between a start and its note loses one.

use crate::processes::{Seen, find_process};
use host_files::read_prefix;
use std::alloc::{AllocError, Global};
use std::fs::{File, Files, OpenOptions};
use std::io::ErrorKind;
use std::os::unix::fs::{FileExt, OpenOptionsExt};
use std::{fs, io, str};

/// How many bytes a line has, with its end.
const WIDTH: u64 = 96;

/// How many bytes of the file are read.
const NOTES_LIMIT: usize = 1 << 20;

/// The notes are their owner's alone.
const NOTES_MODE: u32 = 0o600;

/// What a note stands for.
#[derive(Clone, Copy, PartialEq, Eq)]
pub(crate) enum Extent {
    /// The process and the group that it leads.
    Group,
    /// The process alone.
    Process,
}

/// A child that was started.
#[derive(Clone, Copy)]
pub(crate) struct Note {
    pub(crate) process: u32,
    pub(crate) start: u64,
    pub(crate) extent: Extent,
}

impl Note {
    /// Whether what it stands for is among these: the process itself, or, where that has ended, another one of its group. A
    /// process with its number that was started at another time is another one, and so is a group with a member that was
    /// started before, and that of this program.
    pub(crate) fn lives(&self, all: &[Seen]) -> bool {
        // A container that is started again counts from 1 again, mostly under the same number of its space: what was noted before
        // its process 1 was started is of another life of it.
        if all
            .iter()
            .any(|seen| seen.process == 1 && seen.start > self.start)
        {
            return false;
        }
        match all.iter().find(|seen| seen.process == self.process) {
            Some(seen) if seen.start != self.start => false,
            Some(seen) if !seen.has_ended => true,
            _ => self.extent == Extent::Group && self.group_lives(all),
        }
    }

    /// Whether the process itself lives.
    pub(crate) fn leads_on<R: Files<File = File>>(
        &self,
        files: &R,
        alloc: Global,
    ) -> io::Result<bool> {
        Ok(match find_process(files, alloc, self.process)? {
            Some(seen) => seen.start == self.start && !seen.has_ended,
            None => false,
        })
    }

    fn group_lives(&self, all: &[Seen]) -> bool {
        let own = libc::getpid();
        let mut lives = false;
        for seen in all {
            if seen.group == self.process && !seen.has_ended {
                // The group of this program is not one that an earlier call left.
                if seen.start < self.start || i64::from(seen.process) == i64::from(own) {
                    return false;
                }
                lives = true;
            }
        }
        lives
    }
}

/// Which run of the system this is, and in which of its spaces of process numbers this program is: a container has its own.
#[derive(Drop)]
struct System {
    boot: String,
    numbers: String,
}

impl System {
    fn find<R: Files<File = File> + AllocGlobal>(files: &R) -> io::Result<Self> {
        let alloc = files.alloc();
        let boot = read_prefix(alloc, files, "/proc/sys/kernel/random/boot_id", 64)?;
        let Ok(text) = str::from_utf8(boot.as_slice()) else {
            return Err(io::Error::from(ErrorKind::InvalidData));
        };
        Ok(System {
            boot: String::from_str(alloc, text.trim())?,
            numbers: numbers_of(files)?,
        })
    }

    fn line(&self, alloc: Global, note: &Note) -> Result<String, AllocError> {
        let extent = match note.extent {
            Extent::Group => "group",
            Extent::Process => "process",
        };
        let (process, start) = (note.process, note.start);
        let (boot, numbers) = (self.boot.as_str(), self.numbers.as_str());
        format!(in alloc; "{process} {start} {boot} {numbers} {extent}")
    }

    /// The note on this line, where it has one of this run of the system. Process 1 and 0 are nobody's children.
    fn read_line(&self, line: &[u8]) -> Option<Note> {
        let mut words = str::from_utf8(line).ok()?.split_ascii_whitespace();
        let process = u32::from_str_radix(words.next()?, 10).ok()?;
        let start = u64::from_str_radix(words.next()?, 10).ok()?;
        let is_here = words.next()? == self.boot.as_str() && words.next()? == self.numbers.as_str();
        let extent = extent_of(words.next()?)?;
        if process < 2 || !is_here || words.next().is_some() {
            return None;
        }
        Some(Note {
            process,
            start,
            extent,
        })
    }

    /// The notes in these lines.
    fn read_lines(&self, alloc: Global, lines: &[u8]) -> Result<Vec<Option<Note>>, AllocError> {
        let mut notes = Vec::new(alloc);
        for line in lines.split(|byte| *byte == b'\n') {
            if let Some(note) = self.read_line(line) {
                notes.push(Some(note))?;
            }
        }
        Ok(notes)
    }
}

/// The name of the space of process numbers, and of the one and only where the system knows no others.
fn numbers_of<R: Files<File = File> + AllocGlobal>(files: &R) -> Result<String, AllocError> {
    match fs::read_link(files, "/proc/self/ns/pid") {
        Ok(name) => String::from_str(files.alloc(), name.as_str()),
        Err(_) => String::from_str(files.alloc(), "-"),
    }
}

fn extent_of(word: &str) -> Option<Extent> {
    match word {
        "group" => Some(Extent::Group),
        "process" => Some(Extent::Process),
        _ => None,
    }
}

fn notes_path(alloc: Global, root: &str) -> Result<String, AllocError> {
    let root = if root.is_empty() { "." } else { root };
    format!(in alloc; "{root}/children")
}

/// Opens the file, which is made where that is asked for. It fails where something else than a plain file stands there.
fn open_notes<R: Files<File = File>>(files: &R, path: &str, makes: bool) -> io::Result<File> {
    match fs::symlink_metadata(files, path) {
        Ok(found) if !found.is_file() => return Err(io::Error::from(ErrorKind::InvalidInput)),
        Ok(_) => {}
        Err(error) if makes && error.kind() == ErrorKind::NotFound => {}
        Err(error) => return Err(error),
    }
    let mut options = OpenOptions::new();
    options
        .read(true)
        .write(true)
        .create(makes)
        .mode(NOTES_MODE);
    options.open(files, path)
}

/// The notes of this call, each at its place in the file.
#[derive(Drop)]
pub(crate) struct Notes {
    system: Option<System>,
    file: Option<File>,
    places: Vec<Option<Note>>,
}

impl Notes {
    /// None, and none is read before that is asked for.
    pub(crate) fn new(alloc: Global) -> Self {
        Notes {
            system: None,
            file: None,
            places: Vec::new(alloc),
        }
    }

    /// Reads the notes of earlier calls. Where there is no file there are none.
    pub(crate) fn read<R: Files<File = File> + AllocGlobal>(
        &mut self,
        files: &R,
        root: &str,
    ) -> io::Result<()> {
        let alloc = files.alloc();
        let system = System::find(files)?;
        let path = notes_path(alloc, root)?;
        let found = match open_notes(files, path.as_str(), false) {
            Ok(file) => Some(file),
            Err(error) if error.kind() == ErrorKind::NotFound => None,
            Err(error) => return Err(error),
        };
        if found.is_some() {
            let lines = read_prefix(alloc, files, path.as_str(), NOTES_LIMIT)?;
            self.places = system.read_lines(alloc, lines.as_slice())?;
        }
        self.file = found;
        self.system = Some(system);
        Ok(())
    }

    /// The note at this place.
    pub(crate) fn at(&self, place: Option<usize>) -> Option<Note> {
        match self.places.get(place?) {
            Some(note) => *note,
            None => None,
        }
    }

    pub(crate) fn is_empty(&self) -> bool {
        self.places.is_empty()
    }

    /// Those that stand for something among these processes.
    pub(crate) fn living(&self, alloc: Global, all: &[Seen]) -> Result<Vec<Note>, AllocError> {
        let mut living = Vec::new(alloc);
        for place in self.places.iter() {
            if let Some(note) = place {
                if note.lives(all) {
                    living.push(*note)?;
                }
            }
        }
        Ok(living)
    }

    /// Has these notes alone, and writes them in the place of all. Where that ends in between, each is still there: none is
    /// written over one that was not written yet.
    pub(crate) fn keep(&mut self, alloc: Global, notes: &[Note]) -> io::Result<()> {
        self.places.clear();
        for (place, note) in notes.iter().enumerate() {
            self.places.push(Some(*note))?;
            self.write_at(alloc, place, Some(note))?;
        }
        self.cut()
    }

    /// Adds a note, and answers its place.
    pub(crate) fn add<R: Files<File = File> + AllocGlobal>(
        &mut self,
        files: &R,
        root: &str,
        note: Note,
    ) -> io::Result<usize> {
        let alloc = files.alloc();
        if self.file.is_none() {
            let path = notes_path(alloc, root)?;
            self.file = Some(open_notes(files, path.as_str(), true)?);
        }
        let place = self.put(note)?;
        self.write_at(alloc, place, Some(&note))?;
        Ok(place)
    }

    /// Puts it into the first place that is free.
    fn put(&mut self, note: Note) -> Result<usize, AllocError> {
        for (at, place) in self.places.iter_mut().enumerate() {
            if place.is_none() {
                *place = Some(note);
                return Ok(at);
            }
        }
        let at = self.places.len();
        self.places.push(Some(note))?;
        Ok(at)
    }

    /// Takes the note at this place away.
    pub(crate) fn remove(&mut self, alloc: Global, place: usize) -> io::Result<()> {
        if let Some(note) = self.places.get_mut(place) {
            *note = None;
        }
        let kept = match self.places.iter().rposition(|note| note.is_some()) {
            Some(last) => last.saturating_add(1),
            None => 0,
        };
        self.places.truncate(kept);
        if place < kept {
            return self.write_at(alloc, place, None);
        }
        self.cut()
    }

    /// Writes the line of this place, a blank one without a note.
    fn write_at(&self, alloc: Global, place: usize, note: Option<&Note>) -> io::Result<()> {
        let (Some(file), Some(system)) = (&self.file, &self.system) else {
            return Err(io::Error::from(ErrorKind::NotFound));
        };
        let said = match note {
            Some(note) => system.line(alloc, note)?,
            None => String::new(alloc),
        };
        let said = said.as_str();
        let line = format!(in alloc; "{said:<95}\n")?;
        file.write_all_at(line.as_bytes(), (place as u64).saturating_mul(WIDTH))
    }

    /// Cuts the file behind the last place.
    fn cut(&self) -> io::Result<()> {
        match &self.file {
            Some(file) => file.set_len((self.places.len() as u64).saturating_mul(WIDTH)),
            None => Ok(()),
        }
    }
}
