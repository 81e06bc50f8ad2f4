//! What the disk reaches beside its files: the clock, locks that others hold, and the log of events.

use crate::access::Access;
use host_files::{Event, EventLog, Pauses};
use std::alloc::Global;
use std::fs::{File, Files, TryLockError};
use std::io;
use std::time::Clock;

/// How long a writer waits for the lock that readers hold on a journal's file.
const READERS_MS: u64 = 10_000;

/// How long the lock of the writers is tried, since one that only looks at it holds it for a moment.
const WRITERS_MS: u64 = 200;

/// From where on a wait is told.
const TOLD_MS: u64 = 100;

/// How a writer stands to the readers of a journal's file.
#[derive(Clone, Copy, Debug, PartialEq, Eq)]
pub enum Patience {
    /// It waits for them.
    Whole,
    /// It waited in vain, and does not wait again before it had the lock once.
    Spent,
}

/// What came of the tries of a lock, with the milliseconds that they took.
#[derive(Clone, Copy, Debug)]
enum Tried {
    Held(u64),
    Busy(u64),
}

/// The files and the clock of the system, and the log of events of a program with this access.
#[derive(Drop)]
pub struct Outside<'a, R> {
    pub rt: &'a R,
    pub access: Access,
    events: EventLog<'a, R>,
    /// Whether events are logged.
    tells: bool,
}

impl<'a, R: Files<File = File> + Clock> Outside<'a, R> {
    pub fn new(rt: &'a R, alloc: Global, root: &'a str, access: Access) -> Self {
        Outside {
            rt,
            access,
            events: EventLog::new(rt, alloc, root),
            tells: access.writes(),
        }
    }

    /// No event is logged from now on.
    pub fn hush(&mut self) {
        self.tells = false;
    }

    /// Logs an event. A program that only reads changes nothing, the log neither.
    pub fn tell(&self, event: &Event<'_>) {
        if self.tells {
            self.events.tell(event);
        }
    }

    /// Logs that something stays which the system does not let this program remove.
    pub fn tell_kept(&self, path: &str, error: &io::Error) {
        self.tell(&Event::NotRemoved { path, error });
    }

    /// Takes the lock of a journal's file, so that readers wait, or goes on without it once it waited for ten seconds: no
    /// reader stops a writer. Answers how it stands to them then.
    pub fn keep_readers_out(
        &self,
        file: &File,
        path: &str,
        patience: Patience,
    ) -> io::Result<Patience> {
        let most = match patience {
            Patience::Whole => READERS_MS,
            Patience::Spent => 0,
        };
        match self.try_lock(file, most)? {
            Tried::Held(millis) => {
                self.tell_wait(path, millis);
                Ok(Patience::Whole)
            }
            Tried::Busy(millis) => {
                if patience == Patience::Whole {
                    self.tell(&Event::WentOnWithoutLock { path, millis });
                }
                Ok(Patience::Spent)
            }
        }
    }

    /// Takes the lock of the writers. It fails where another one holds it.
    pub fn keep_writers_out(&self, file: &File, path: &str) -> io::Result<()> {
        match self.try_lock(file, WRITERS_MS)? {
            Tried::Held(millis) => {
                self.tell_wait(path, millis);
                Ok(())
            }
            Tried::Busy(_) => Err(io::Error::new(
                io::ErrorKind::WouldBlock,
                "another program holds the lock of the writers",
            )),
        }
    }

    fn tell_wait(&self, path: &str, millis: u64) {
        if millis >= TOLD_MS {
            self.tell(&Event::WaitedForLock { path, millis });
        }
    }

    /// Tries the lock again and again for so long.
    fn try_lock(&self, file: &File, most: u64) -> io::Result<Tried> {
        let mut pauses = Pauses::up_to(most);
        for _ in 0..u64::MAX {
            match file.try_lock() {
                Ok(()) => return Ok(Tried::Held(pauses.waited())),
                Err(TryLockError::Error(error)) => return Err(error),
                Err(TryLockError::WouldBlock) => {}
            }
            if !pauses.pause(self.rt) {
                break;
            }
        }
        Ok(Tried::Busy(pauses.waited()))
    }
}
