//! What an object tells in the log of events, and of what it told already.

use host_files::{Event, EventLog};
use nuc_base::NoMemory;
use std::alloc::Global;
use std::fs::{File, Files};
use std::rt::Clock;
use std::{io, mem};

/// How many names of a listing are remembered. What is passed over beyond these is told of no more.
const MOST_REMEMBERED: usize = 64;

/// The log of events of one object. What a listing passes over is told once for as long as each listing passes it over.
#[derive(Drop)]
pub struct Told<'a, R> {
    log: EventLog<'a, R>,
    alloc: Global,
    object: &'a str,
    /// What the listing before passed over, and this one did not yet: folder, slash and name.
    before: Vec<String>,
    /// What this listing passed over.
    now: Vec<String>,
}

impl<'a, R: Files<File = File> + Clock + AllocGlobal> Told<'a, R> {
    pub fn new(rt: &'a R, root: &'a str, object: &'a str) -> Self {
        let alloc = rt.alloc();
        Told {
            log: EventLog::new(rt, alloc, root),
            alloc,
            object,
            before: Vec::new(alloc),
            now: Vec::new(alloc),
        }
    }

    /// Another listing begins.
    pub fn begin(&mut self) {
        self.before = mem::replace(&mut self.now, Vec::new(self.alloc));
    }

    /// Tells that what has this name in the folder is passed over.
    pub fn pass_over(&mut self, folder: &str, name: &str) {
        if self.is_new(folder, name) == Ok(true) {
            self.log.tell(&Event::PassedOver { folder, name });
        }
    }

    /// Tells so of what cannot be had.
    pub fn pass_over_for(&mut self, folder: &str, name: &str, error: &io::Error) {
        if self.is_new(folder, name) == Ok(true) {
            self.log.tell(&Event::PassedOverFor {
                folder,
                name,
                error,
            });
        }
    }

    /// Tells that a call failed at this path below the root.
    pub fn fault(&self, call: &str, path: &str, error: &io::Error) {
        self.log.tell(&Event::Failed {
            object: self.object,
            call,
            path,
            error,
        });
    }

    /// Tells of another event.
    pub fn tell(&self, event: &Event<'_>) {
        self.log.tell(event);
    }

    /// Whether it was not told of before, and can be remembered. It is remembered then.
    fn is_new(&mut self, folder: &str, name: &str) -> Result<bool, NoMemory> {
        let path = format!(in self.alloc; "{folder}/{name}")?;
        if self.now.contains(&path) || self.now.len() >= MOST_REMEMBERED {
            return Ok(false);
        }
        let is_new = !self.before.contains(&path);
        self.now.push(path)?;
        Ok(is_new)
    }
}
