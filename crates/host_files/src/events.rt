//! The log of events: what the real objects did and met, for whoever looks after the device.

use crate::logs::open_log;
use jiff::Timestamp;
use nuc_base::Exit;
use std::alloc::{AllocError, Global};
use std::fmt::Display;
use std::fs::{File, Files};
use std::io::Write;
use std::rt::Clock;
use std::{fmt, io};

/// Something that happened. Names that others gave, and paths, are written as text in quotes, with escapes.
#[derive(Clone, Copy, Drop)]
pub enum Event<'e> {
    /// A component's step is about to be started: the head of what it prints.
    Starting {
        component: &'e str,
    },
    /// A component's step was started, as this process.
    Started {
        component: &'e str,
        process: u32,
    },
    /// A component's step could not be started.
    NotStarted {
        component: &'e str,
        error: &'e io::Error,
    },
    /// A component's step ended.
    Ended {
        component: &'e str,
        process: u32,
        exit: Exit,
    },
    /// A component's step was killed.
    Killed {
        component: &'e str,
        process: u32,
    },
    /// It was killed, and lives.
    LivesOn {
        component: &'e str,
        process: u32,
    },
    /// What lived of an earlier call, the group or the process alone, was killed.
    EndedEarlier {
        process: u32,
    },
    /// What was noted of children of an earlier call could not be read or written.
    NotesFailed {
        error: &'e io::Error,
    },
    /// A document was taken from the inbox.
    Taken {
        name: &'e str,
        bytes: usize,
    },
    /// A document was handled.
    Done {
        name: &'e str,
    },
    /// Something in a folder is none of what stands there for the program.
    PassedOver {
        folder: &'e str,
        name: &'e str,
    },
    /// Something in a folder cannot be had now, and is passed over.
    PassedOverFor {
        folder: &'e str,
        name: &'e str,
        error: &'e io::Error,
    },
    /// A call of an object failed.
    Failed {
        object: &'e str,
        call: &'e str,
        path: &'e str,
        error: &'e io::Error,
    },
    /// A lock was waited for, for so many milliseconds.
    WaitedForLock {
        path: &'e str,
        millis: u64,
    },
    /// A lock that others hold was not waited for any longer.
    WentOnWithoutLock {
        path: &'e str,
        millis: u64,
    },
    /// What a sweep, or the inbox behind a document, could not remove.
    NotRemoved {
        path: &'e str,
        error: &'e io::Error,
    },
}

/// How a child ended, in a word or two.
#[derive(Clone, Copy)]
struct End(Exit);

impl Display for End {
    fn fmt<W: fmt::Write>(&self, f: &mut fmt::Formatter<W>) -> fmt::Result {
        match self.0 {
            Exit::Code(code) => write!(f, "code {code}"),
            Exit::Signal => write!(f, "signal"),
            Exit::TimedOut => write!(f, "timeout"),
            Exit::NotStarted => write!(f, "notstarted"),
            Exit::Lost => write!(f, "lost"),
        }
    }
}

impl<'e> Display for Event<'e> {
    fn fmt<W: fmt::Write>(&self, f: &mut fmt::Formatter<W>) -> fmt::Result {
        match *self {
            Event::Starting { component } => write!(f, "start {component}"),
            Event::Started { component, process } => write!(f, "start {component} {process}"),
            Event::NotStarted { component, error } => {
                write!(f, "not-started {component}: {error}")
            }
            Event::Ended {
                component,
                process,
                exit,
            } => write!(f, "end {component} {process} {}", End(exit)),
            Event::Killed { component, process } => write!(f, "kill {component} {process}"),
            Event::LivesOn { component, process } => write!(f, "lives-on {component} {process}"),
            Event::EndedEarlier { process } => write!(f, "ended-earlier {process}"),
            Event::NotesFailed { error } => write!(f, "notes-failed {error}"),
            Event::Taken { name, bytes } => write!(f, "take {name:?} {bytes}"),
            Event::Done { name } => write!(f, "done {name:?}"),
            Event::PassedOver { folder, name } => write!(f, "pass-over {folder} {name:?}"),
            Event::PassedOverFor {
                folder,
                name,
                error,
            } => write!(f, "pass-over {folder} {name:?}: {error}"),
            Event::Failed {
                object,
                call,
                path,
                error,
            } => write!(f, "fault {object} {call} {path:?}: {error}"),
            Event::WaitedForLock { path, millis } => write!(f, "lock {path:?} {millis} ms"),
            Event::WentOnWithoutLock { path, millis } => {
                write!(f, "lock-ignored {path:?} {millis} ms")
            }
            Event::NotRemoved { path, error } => write!(f, "not-removed {path:?}: {error}"),
        }
    }
}

/// The file `logs/events` below the folder of a device. Where there is no folder `logs`, or a line cannot be written, nothing
/// happens: no answer of an object rests on it. A line is `TIME PROCESS EVENT`, with the time in UTC as RFC 3339 has it and
/// the number of the process that wrote it. A file of more than 1 MiB is set aside as `logs/events.1` before a line.
#[derive(Drop)]
pub struct EventLog<'a, R> {
    rt: &'a R,
    alloc: Global,
    root: &'a str,
}

impl<'a, R: Files<File = File> + Clock> EventLog<'a, R> {
    /// An empty root is the current folder. Nothing is opened before the first event.
    pub fn new(rt: &'a R, alloc: Global, root: &'a str) -> Self {
        EventLog { rt, alloc, root }
    }

    /// Appends a line, where that can be done.
    pub fn tell(&self, event: &Event<'_>) {
        self.tell_in("events", event);
    }

    /// Appends it to another log in that folder, by the log's name.
    pub fn tell_in(&self, name: &str, event: &Event<'_>) {
        let _untold = self.append(name, event);
    }

    fn append(&self, name: &str, event: &Event<'_>) -> io::Result<()> {
        let mut log = open_log(self.rt, self.alloc, self.root, name)?;
        let line = self.line(event)?;
        log.write_all(line.as_bytes())
    }

    fn line(&self, event: &Event<'_>) -> Result<String, AllocError> {
        let process = libc::getpid();
        match Timestamp::now(self.rt) {
            Ok(now) => format!(in self.alloc; "{now:.3} {process} {event}\n"),
            Err(_) => format!(in self.alloc; "- {process} {event}\n"),
        }
    }
}
