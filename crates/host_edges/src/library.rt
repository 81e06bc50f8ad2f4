ghost use Rattle.std.specs.Prelude.{◌≡◌, ◌≤◌, None, length, IfOk, IsErrOf};
ghost use Rattle.nuc_base.specs.Faults.{Rose};
ghost use Rattle.library_core.specs.Library.{IsWithin, most_given};
ghost use Rattle.host_edges.specs.Real.{library_faults};

use crate::told::Told;
use host_files::{Paths, is_file, json_names, read_full, read_prefix};
use library_core::{Library, LibraryFault, Piece};
use npm_ranges::Version;
use nuc_base::{Bytes, Label, Name, NoMemory};
use std::alloc::Global;
use std::fs::{File, Files};
use std::io::ErrorKind;
use std::rt::Clock;
use std::time::Duration;
use std::{io, thread};

/// Where recipes stand below the folder of the device.
const RECIPES: &str = "library/recipes";

/// The most bytes of a recipe that are given: one more than a recipe may have.
const MOST_GIVEN: usize = 65_537;

/// The most recipes that are held. Where there are more, none is: no document takes any of them.
const MOST_HELD: usize = 1024;

/// How often a call of the system is tried again that failed, and how many milliseconds lie between two tries. Whoever
/// replaces a file, or a folder that comes over a network, needs a moment.
const TRIES_MORE: usize = 2;

const PAUSE_MS: u64 = 100;

/// The artifact that was asked for last, which stays open while its pieces are read.
#[derive(Drop)]
struct Opened {
    name: String,
    file: File,
}

/// The files of a library.
#[derive(Drop)]
struct Shelf<'a, R: Files<File = File>> {
    rt: &'a R,
    paths: Paths<'a>,
    told: Told<'a, R>,
    /// The recipes, as they were read last.
    recipes: Vec<Bytes>,
    opened: Option<Opened>,
}

/// Whether a call that failed may do better at another try.
fn may_pass(error: &io::Error) -> bool {
    error.kind() != ErrorKind::OutOfMemory
}

impl<'a, R: Files<File = File> + Clock + AllocGlobal + Clone + Drop> Shelf<'a, R> {
    fn new(rt: &'a R, root: &'a str) -> Result<Self, NoMemory> {
        let alloc = rt.alloc();
        Ok(Shelf {
            rt,
            paths: Paths::new(alloc, root)?,
            told: Told::new(rt, root, "library"),
            recipes: Vec::new(alloc),
            opened: None,
        })
    }

    fn pause(&self) {
        thread::sleep(self.rt, Duration::from_millis(PAUSE_MS));
    }

    /// Tells of a fault of the call at the path that was used last.
    fn tell_fault(&self, call: &str, error: &io::Error) {
        self.told.fault(call, self.paths.last(), error);
    }

    /// Lets go of the recipes and of the artifact that is open.
    fn refresh(&mut self) {
        self.recipes.clear();
        self.opened = None;
    }

    /// Lists the recipes and reads them, and gives their count.
    fn count(&mut self) -> io::Result<u32> {
        self.refresh();
        let names = self.names()?;
        if names.len() <= MOST_HELD {
            self.read_all(names.as_slice())?;
        }
        u32::try_from(names.len()).map_err(|_| io::Error::from(ErrorKind::InvalidData))
    }

    /// The names of the recipes.
    fn names(&mut self) -> io::Result<Vec<String>> {
        for _ in 0..TRIES_MORE {
            match self.list() {
                Err(error) if may_pass(&error) => self.pause(),
                listed => return listed,
            }
        }
        self.list()
    }

    fn list(&mut self) -> io::Result<Vec<String>> {
        self.told.begin();
        let found = json_names(self.rt, self.paths.below(RECIPES)?)?;
        for name in &found.no_text {
            self.told.pass_over(RECIPES, name.as_str());
        }
        let mut names = Vec::new(self.rt.alloc());
        for name in found.names {
            if self.is_recipe(name.as_str())? {
                names.push(name)?;
            }
        }
        Ok(names)
    }

    /// Whether a file stands under that name or a link that leads to one. Anything else is passed over.
    fn is_recipe(&mut self, name: &str) -> io::Result<bool> {
        let is_there = leads_to_file(self.rt, self.paths.entry(RECIPES, name)?)?;
        if !is_there {
            self.told.pass_over(RECIPES, name);
        }
        Ok(is_there)
    }

    /// Reads the recipes of these names, one after another.
    fn read_all(&mut self, names: &[String]) -> io::Result<()> {
        for name in names {
            let recipe = self.read(name.as_str())?;
            self.recipes.push(recipe)?;
        }
        Ok(())
    }

    fn read(&mut self, name: &str) -> io::Result<Bytes> {
        for _ in 0..TRIES_MORE {
            match self.try_read(name) {
                Err(error) if may_pass(&error) => self.pause(),
                read => return read,
            }
        }
        self.try_read(name)
    }

    fn try_read(&mut self, name: &str) -> io::Result<Bytes> {
        let path = self.paths.entry(RECIPES, name)?;
        read_prefix(self.rt.alloc(), self.rt, path, MOST_GIVEN)
    }

    /// A copy of the recipe at that place, where it is held.
    fn recipe(&self, alloc: Global, at: u32) -> io::Result<Bytes>
        ensures short { IfOk result (λ bytes. length bytes ≤ most_given) }
    {
        let Some(recipe) = self.recipes.get(at as usize) else {
            return Err(io::Error::from(ErrorKind::NotFound));
        };
        let bytes = recipe.as_slice();
        let count = bytes.len().min(MOST_GIVEN);
        Bytes::from_slice(alloc, &bytes[..count]).map_err(|_| io::Error::from(
            ErrorKind::OutOfMemory,
        ))
    }

    /// Opens an artifact, where it is not open already. Answers whether it is there.
    fn open(&mut self, name: String) -> io::Result<bool> {
        if let Some(opened) = &self.opened {
            if opened.name == name {
                return Ok(true);
            }
        }
        self.opened = None;
        let path = self.paths.below(name.as_str())?;
        if !is_file(self.rt, path)? {
            return Ok(false);
        }
        let file = File::open(self.rt, path)?;
        self.opened = Some(Opened { name, file });
        Ok(true)
    }

    fn artifact(
        &mut self,
        alloc: Global,
        name: &Name,
        version: &Version,
        file: &Label,
        from: u64,
        into: &mut [u8],
    ) -> io::Result<Piece>
        ensures bound { IfOk result (IsWithin (length into.old)) }
    {
        for _ in 0..TRIES_MORE {
            let path = format!(in alloc; "library/artifacts/{name}/{version}/{file}")?;
            match self.try_artifact(path, from, into) {
                Err(error) if may_pass(&error) => self.pause(),
                read => return read,
            }
            // The file that is open may be one that is no more to be had.
            self.opened = None;
        }
        let path = format!(in alloc; "library/artifacts/{name}/{version}/{file}")?;
        self.try_artifact(path, from, into)
    }

    fn try_artifact(&mut self, path: String, from: u64, into: &mut [u8]) -> io::Result<Piece>
        ensures bound { IfOk result (IsWithin (length into.old)) }
    {
        if !self.open(path)? {
            return Ok(Piece::Missing);
        }
        match &self.opened {
            Some(opened) => Ok(Piece::Bytes(read_full(&opened.file, from, into)?)),
            None => Ok(Piece::Missing),
        }
    }
}

/// Whether a plain file stands there, or a link that leads to one. A link that leads nowhere, or to itself, is none.
fn leads_to_file<R: Files>(files: &R, path: &str) -> io::Result<bool> {
    match is_file(files, path) {
        Err(error)
            if error.kind() == ErrorKind::FilesystemLoop
                || error.kind() == ErrorKind::NotADirectory => Ok(false),
        answer => answer,
    }
}

/// The library in a folder: `library/recipes` has the recipes, its files that end in `.json` in byte order of their names, and
/// `library/artifacts/NAME/VERSION/FILE` the artifacts. A folder that is not there is empty, a link counts as what it leads to,
/// and what is no file, or has a name that is no text, is passed over. What cannot be read is tried three times, a tenth of a
/// second apart.
///
/// A count lists the recipes and reads them into memory, at most 1,024 of 65,537 bytes each, so that each is given as it stood
/// then, whatever becomes of its file. A refresh lets go of them, and of the artifact that is open. A count does so by itself
/// too, for callers that ask it once for a document and do not refresh between two documents: what came, went or was replaced
/// meanwhile counts from the next one on. So it tells nothing of what it holds, as what is told would have to stay after a
/// second count; it counts its faults.
#[derive(Drop)]
pub struct FolderLibrary<'a, R: Files<File = File>> {
    shelf: Shelf<'a, R>,
    faults: u64,
}

impl<'a, R: Files<File = File> + Clock + AllocGlobal + Clone + Drop> FolderLibrary<'a, R> {
    /// An empty root is the current folder. Nothing is read before the first call.
    pub fn new(rt: &'a R, root: &'a str) -> Result<Self, NoMemory>
        ensures faults { IfOk result (λ library. library_faults library ≡ 0) }
    {
        Ok(FolderLibrary {
            shelf: Shelf::new(rt, root)?,
            faults: 0,
        })
    }

    /// Hands the answer of that call on, and counts and tells a fault that is no want of memory.
    fn counted<T: Drop>(&mut self, call: &str, answer: io::Result<T>) -> Result<T, LibraryFault>
        ensures value { IfOk result (λ value. answer ≡ Ok value) }
        ensures cause { IsErrOf result LibraryFault.Failed → Rose self.old.faults self.new.faults }
        ensures quiet { ¬ (IsErrOf result LibraryFault.Failed) → self.new.faults ≡ self.old.faults }
        ensures later { self.old.faults ≤ self.new.faults }
    {
        match answer {
            Ok(value) => Ok(value),
            Err(error) if error.kind() == ErrorKind::OutOfMemory => Err(LibraryFault::NoMemory),
            Err(error) => {
                self.shelf.tell_fault(call, &error);
                self.faults = self.faults.saturating_add(1);
                Err(LibraryFault::Failed)
            }
        }
    }
}

impl<'a, R: Files<File = File> + Clock + AllocGlobal + Clone + Drop> Library
    for FolderLibrary<'a, R> {
    ghost use Rattle.library_core.specs.Nothing.{untold};

    ghost content = { λ library. untold };

    ghost coming = { λ library. None };

    ghost faults = { λ library. library_faults library };

    fn refresh(&mut self) {
        self.shelf.refresh();
    }

    fn count(&mut self, _alloc: Global) -> Result<u32, LibraryFault> {
        let count = self.shelf.count();
        self.counted("count", count)
    }

    fn recipe(&mut self, alloc: Global, at: u32) -> Result<Bytes, LibraryFault> {
        let recipe = self.shelf.recipe(alloc, at);
        self.counted("recipe", recipe)
    }

    fn artifact(
        &mut self,
        alloc: Global,
        name: &Name,
        version: &Version,
        file: &Label,
        from: u64,
        into: &mut [u8],
    ) -> Result<Piece, LibraryFault> {
        let piece = self.shelf.artifact(alloc, name, version, file, from, into);
        self.counted("artifact", piece)
    }
}
