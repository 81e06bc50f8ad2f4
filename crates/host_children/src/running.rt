//! The file `running`: which components stand in which states while a call drives them, for whoever looks at the device.
//!
//! It stands in DIR from the first wait of a call to the call's end, and is another file each time that a line changes: it is
//! written beside its place and renamed. Nothing is synced: what it says holds for as long as the call that writes it.

use crate::anew::{make_anew, remove_old};
use host_files::{Event, EventLog};
use jiff::Timestamp;
use lifecycle::State;
use std::alloc::{AllocError, Global};
use std::fs::{File, Files};
use std::io::Write;
use std::rt::Clock;
use std::{fs, io};
use step_runner::{View, ViewedComponent};

/// What a call does that drives components.
#[derive(Clone, Copy, Debug, PartialEq, Eq)]
pub enum Driving {
    Deploying,
    Resuming,
    Serving,
}

impl Driving {
    fn word(self) -> &'static str {
        match self {
            Driving::Deploying => "deploying",
            Driving::Resuming => "resuming",
            Driving::Serving => "serving",
        }
    }
}

/// A state by its name in the developer guide of AWS IoT Greengrass V2, "Component lifecycle".
fn word_of(state: State) -> &'static str {
    match state {
        State::New => "NEW",
        State::Installed => "INSTALLED",
        State::Starting => "STARTING",
        State::Running => "RUNNING",
        State::Stopping => "STOPPING",
        State::Finished => "FINISHED",
        State::Errored => "ERRORED",
        State::Broken => "BROKEN",
    }
}

/// The time now, in UTC as RFC 3339 has it, or `-` where the system has none.
fn now_text<C: Clock>(clock: &C, alloc: Global) -> Result<String, AllocError> {
    match Timestamp::now(clock) {
        Ok(now) => format!(in alloc; "{now:.3}"),
        Err(_) => String::from_str(alloc, "-"),
    }
}

/// The line of a component.
#[derive(Drop)]
struct Line {
    name: String,
    version: String,
    state: State,
    failures: u8,
    /// Since when it is in that state.
    since: String,
}

impl Line {
    fn is_of(&self, component: &ViewedComponent<'_>) -> bool {
        self.state == component.state
            && self.name.as_str() == component.name
            && self.version.as_str() == component.version
    }

    fn shows(&self, component: &ViewedComponent<'_>) -> bool {
        self.failures == component.failures && self.is_of(component)
    }

    /// Whether it is in this state still: it did not leave it by a failure and come back.
    fn lasts(&self, component: &ViewedComponent<'_>) -> bool {
        component.failures <= self.failures && self.is_of(component)
    }

    fn text(&self, alloc: Global) -> Result<String, AllocError> {
        let (name, version) = (self.name.as_str(), self.version.as_str());
        let (state, failures) = (word_of(self.state), self.failures);
        let since = self.since.as_str();
        format!(in alloc; "component {name} {version} {state} {failures} {since}\n")
    }
}

/// The place, from that one on, of the first line whose name does not come before this one.
fn place_from(lines: &[Line], from: usize, name: &str) -> usize {
    for place in from..lines.len() {
        if lines[place].name.as_str() >= name {
            return place;
        }
    }
    lines.len()
}

/// Since when the component is in its state: since then as this line says it, or else since now.
fn since_of(
    alloc: Global,
    line: Option<&Line>,
    component: &ViewedComponent<'_>,
    now: &str,
) -> Result<String, AllocError> {
    match line {
        Some(line) if line.lasts(component) => String::from_str(alloc, line.since.as_str()),
        _ => String::from_str(alloc, now),
    }
}

/// The lines of a view, by those before it.
fn lines_of<V: View>(
    alloc: Global,
    before: &[Line],
    view: &V,
    now: &str,
) -> Result<Vec<Line>, AllocError> {
    let mut lines = Vec::new(alloc);
    let mut at = 0;
    for place in 0..view.places() {
        if let Some(component) = view.component(place) {
            at = place_from(before, at, component.name);
            lines.push(Line {
                name: String::from_str(alloc, component.name)?,
                version: String::from_str(alloc, component.version)?,
                state: component.state,
                failures: component.failures,
                since: since_of(alloc, before.get(at), &component, now)?,
            })?;
        }
    }
    Ok(lines)
}

/// Whether the lines are those of the view.
fn are_of<V: View>(lines: &[Line], view: &V) -> bool {
    let mut at: usize = 0;
    for place in 0..view.places() {
        if let Some(component) = view.component(place) {
            match lines.get(at) {
                Some(line) if line.shows(&component) => at = at.saturating_add(1),
                _ => return false,
            }
        }
    }
    at == lines.len()
}

/// What the file holds of a call.
#[derive(Drop)]
pub(crate) struct RunningFile {
    path: String,
    /// Where it is written before it comes to its place.
    beside: String,
    /// The first line.
    head: String,
    lines: Vec<Line>,
    /// Whether the file holds these lines.
    is_written: bool,
    /// Whether it was told that it cannot be written, since it could be.
    is_told: bool,
}

impl RunningFile {
    /// The file of a call that begins now. One that an earlier call left is taken away.
    pub(crate) fn begin<R: Files<File = File> + Clock + AllocGlobal>(
        rt: &R,
        root: &str,
        call: Driving,
    ) -> io::Result<RunningFile> {
        let alloc = rt.alloc();
        let root = if root.is_empty() { "." } else { root };
        let path = format!(in alloc; "{root}/running")?;
        remove_old(rt, path.as_str())?;
        let (word, process, now) = (call.word(), libc::getpid(), now_text(rt, alloc)?);
        Ok(RunningFile {
            beside: format!(in alloc; "{root}/running.new")?,
            head: format!(in alloc; "{word} {process} {now}\n")?,
            path,
            lines: Vec::new(alloc),
            is_written: false,
            is_told: false,
        })
    }

    /// Writes what is shown, where that is not what the file holds.
    pub(crate) fn show<R: Files<File = File> + Clock + AllocGlobal, V: View>(
        &mut self,
        rt: &R,
        log: &EventLog<'_, R>,
        view: &V,
    ) {
        if self.is_written && are_of(self.lines.as_slice(), view) {
            return;
        }
        match self.take(rt, view) {
            Ok(()) => self.is_told = false,
            Err(error) => {
                if !self.is_told {
                    tell(log, "show", &error);
                }
                self.is_told = true;
            }
        }
    }

    /// Has the lines of the view, and writes them.
    fn take<R: Files<File = File> + Clock + AllocGlobal, V: View>(
        &mut self,
        rt: &R,
        view: &V,
    ) -> io::Result<()> {
        let alloc = rt.alloc();
        self.is_written = false;
        let now = now_text(rt, alloc)?;
        self.lines = lines_of(alloc, self.lines.as_slice(), view, now.as_str())?;
        self.write(rt, alloc)?;
        self.is_written = true;
        Ok(())
    }

    fn text(&self, alloc: Global) -> Result<String, AllocError> {
        let mut text = String::from_str(alloc, self.head.as_str())?;
        for line in self.lines.iter() {
            text.push_str(line.text(alloc)?.as_str())?;
        }
        Ok(text)
    }

    fn write<R: Files<File = File>>(&self, files: &R, alloc: Global) -> io::Result<()> {
        let text = self.text(alloc)?;
        let mut file = make_anew(files, self.beside.as_str())?;
        file.write_all(text.as_bytes())?;
        fs::rename(files, self.beside.as_str(), self.path.as_str())
    }

    /// Takes the file away, and what was written beside it.
    pub(crate) fn end<R: Files>(&self, files: &R) -> io::Result<()> {
        remove_old(files, self.path.as_str())?;
        remove_old(files, self.beside.as_str())
    }
}

/// Tells that the file could not be written or taken away, of which nothing else comes.
pub(crate) fn tell<R: Files<File = File> + Clock>(
    log: &EventLog<'_, R>,
    call: &str,
    error: &io::Error,
) {
    log.tell(&Event::Failed {
        object: "runner",
        call,
        path: "running",
        error,
    });
}
