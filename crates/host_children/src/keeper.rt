//! What is done with the processes of steps: they are started, noted, told of and ended.

use crate::children::{Running, poll};
use crate::clock::{
    LITTLE_PATIENCE_MS, PATIENCE_MS, millis_since, pause_within, share_of, waited_since,
};
use crate::notes::{Extent, Note, Notes};
use crate::output::{component_of, log_name, turn_log};
use crate::processes::find_process;
use crate::programs::{Shell, group_killer, prepared};
use host_files::{Event, EventLog};
use nuc_base::Exit;
use std::alloc::Global;
use std::cell::Cell;
use std::fs::{DirBuilder, File, Files};
use std::io::ErrorKind;
use std::os::unix::fs::DirBuilderExt;
use std::process::{Child, OpenProcess, Processes};
use std::rt::Clock;
use std::time::{Duration, Instant};
use std::{fs, io, mem, process, thread};
use step_runner::Command;

/// Folders are their owner's alone.
const FOLDER_MODE: u32 = 0o700;

/// How often a start is tried again that the system cannot do now, and how many milliseconds lie between two tries: two seconds
/// in all.
const TRIES: u64 = 40;

const TRY_MS: u64 = 50;

/// How many milliseconds the program that ends a group may take.
const KILLER_MS: u64 = 2_000;

/// After how many milliseconds the logs of those that live are looked at again.
const TURN_MS: u64 = 60_000;

/// The process of a component's step.
#[derive(Drop)]
pub(crate) struct StepProcess<P: OpenProcess> {
    pub(crate) process: Child<P>,
    pub(crate) component: String,
    /// The place of its note, where there is one.
    place: Option<usize>,
}

/// How a wait for an end came out.
#[derive(Clone, Copy)]
struct Vigil {
    lives_on: bool,
    waited: u64,
}

/// Whoever starts the processes of steps, and ends them.
#[derive(Drop)]
pub(crate) struct Keeper<'a, R: Processes> {
    pub(crate) rt: &'a R,
    pub(crate) alloc: Global,
    pub(crate) root: &'a str,
    pub(crate) log: EventLog<'a, R>,
    pub(crate) notes: Notes,
    shell: Shell,
    /// Those that were killed and live on. They are asked now and then, so that none stays behind as ended and not waited for.
    let_go: Vec<StepProcess<R::Started>>,
    /// How many milliseconds kills may still wait.
    patience: u64,
    /// Whether what an earlier call left was ended.
    has_begun: bool,
    /// Whether the root was there then. It is not made again where it was moved away.
    had_root: bool,
    /// The moment at which the logs of those that live were looked at.
    turned: Cell<u64>,
}

/// Looks until it has ended, for so many milliseconds at most. An end that cannot be had is one.
fn wait_out<C: Clock, P: OpenProcess>(clock: &C, process: &mut Child<P>, most: u64) -> Vigil {
    let start = Instant::now(clock).ok();
    let mut waited: u64 = 0;
    for _ in 0..u64::MAX {
        let lives_on = poll(process).is_none();
        if !lives_on || waited >= most {
            return Vigil { lives_on, waited };
        }
        let pause = pause_within(waited).min(most - waited);
        thread::sleep(clock, Duration::from_millis(pause));
        waited = waited_since(clock, &start, waited.saturating_add(pause));
    }
    Vigil {
        lives_on: true,
        waited,
    }
}

/// Whether the system may do later what it refused: it had no room for one process more, or no memory.
fn may_pass(error: &io::Error) -> bool {
    matches!(error.raw_os_error(), Some(libc::EAGAIN | libc::ENOMEM))
}

/// Starts a program, and tries again where the system may do it later.
fn spawn_tried<R: Processes + Clock>(
    rt: &R,
    program: &mut process::Command,
) -> io::Result<Child<R::Started>> {
    for _ in 0..TRIES {
        match program.spawn(rt) {
            Err(error) if may_pass(&error) => {}
            answer => return answer,
        }
        thread::sleep(rt, Duration::from_millis(TRY_MS));
    }
    program.spawn(rt)
}

/// Runs a program that ends others.
pub(crate) fn run_killer<R: Processes + Clock>(
    rt: &R,
    mut killer: process::Command,
) -> io::Result<()> {
    let started = spawn_tried(rt, &mut killer);
    drop(killer);
    let mut process = started?;
    wait_out(rt, &mut process, KILLER_MS);
    Ok(())
}

fn make_folder<R: Files>(files: &R, folder: &str) -> io::Result<()> {
    DirBuilder::new()
        .recursive(true)
        .mode(FOLDER_MODE)
        .create(files, folder)
}

impl<'a, R: Processes + Clock + Files<File = File> + AllocGlobal> Keeper<'a, R> {
    pub(crate) fn new(rt: &'a R, root: &'a str, shell: Shell) -> Self {
        let alloc = rt.alloc();
        Keeper {
            rt,
            alloc,
            root,
            log: EventLog::new(rt, alloc, root),
            notes: Notes::new(alloc),
            shell,
            let_go: Vec::new(alloc),
            patience: PATIENCE_MS,
            has_begun: false,
            had_root: false,
            turned: Cell::new(0),
        }
    }

    /// Ends what an earlier call left, where that was not done, and looks at those that lived on.
    pub(crate) fn begin(&mut self) {
        if !self.has_begun {
            self.has_begun = true;
            self.had_root = self.check_root().is_ok();
            if let Err(error) = self.end_earlier() {
                self.log.tell(&Event::NotesFailed { error: &error });
            }
        }
        if !self.let_go.is_empty() {
            self.look_at_let_go();
        }
    }

    /// Fails where nothing stands at the root.
    fn check_root(&self) -> io::Result<()> {
        let root = if self.root.is_empty() { "." } else { self.root };
        fs::metadata(self.rt, root)?;
        Ok(())
    }

    /// The same, with all patience for the kills that follow, or, while one that was killed lives on, with a little at least: the
    /// kills of one stop are many, with starts and waits between them where there are steps of shutdowns.
    pub(crate) fn begin_anew(&mut self) {
        self.begin();
        self.patience = if self.let_go.is_empty() {
            PATIENCE_MS
        } else {
            self.patience.max(LITTLE_PATIENCE_MS)
        };
    }

    /// Tells an event in the log of events and in that of the component.
    fn tell(&self, component: &str, event: &Event<'_>) {
        self.log.tell(event);
        self.tell_component(component, event);
    }

    fn tell_component(&self, component: &str, event: &Event<'_>) {
        if let Ok(name) = log_name(self.alloc, component) {
            self.log.tell_in(name.as_str(), event);
        }
    }

    /// Starts the process of a step, and notes it.
    pub(crate) fn start(&mut self, command: &Command) -> io::Result<StepProcess<R::Started>> {
        let component = String::from_str(self.alloc, component_of(command.folder.as_str()))?;
        self.tell_component(
            component.as_str(),
            &Event::Starting {
                component: component.as_str(),
            },
        );
        match self.spawn(command) {
            Ok(process) => Ok(self.noted(process, component)),
            Err(error) => {
                self.tell(
                    component.as_str(),
                    &Event::NotStarted {
                        component: component.as_str(),
                        error: &error,
                    },
                );
                Err(error)
            }
        }
    }

    fn spawn(&self, command: &Command) -> io::Result<Child<R::Started>> {
        if self.had_root {
            self.check_root()?;
        }
        make_folder(self.rt, command.folder.as_str())?;
        let mut prepared = prepared(self.rt, self.alloc, self.root, &self.shell, command)?;
        let child = spawn_tried(self.rt, &mut prepared);
        drop(prepared);
        child
    }

    /// A process that was just started, with its note. One that cannot be noted runs as well.
    fn noted(&mut self, process: Child<R::Started>, component: String) -> StepProcess<R::Started> {
        self.log.tell(&Event::Started {
            component: component.as_str(),
            process: process.id(),
        });
        let place = match self.note(process.id()) {
            Ok(place) => place,
            Err(error) => {
                self.log.tell(&Event::NotesFailed { error: &error });
                None
            }
        };
        StepProcess {
            process,
            component,
            place,
        }
    }

    /// Notes this process. There is nothing to be noted of one that is not there.
    fn note(&mut self, process: u32) -> io::Result<Option<usize>> {
        let Some(seen) = find_process(self.rt, self.alloc, process)? else {
            return Ok(None);
        };
        let note = Note {
            process,
            start: seen.start,
            extent: if self.shell.setsid.is_some() {
                Extent::Group
            } else {
                Extent::Process
            },
        };
        Ok(Some(self.notes.add(self.rt, self.root, note)?))
    }

    fn forget(&mut self, place: Option<usize>) {
        if let Some(place) = place {
            if let Err(error) = self.notes.remove(self.alloc, place) {
                self.log.tell(&Event::NotesFailed { error: &error });
            }
        }
    }

    /// Takes a process back. One that has not ended is killed, with what else lives in its group; where it lives on it is told
    /// of, and let go.
    pub(crate) fn see_off(&mut self, mut step: StepProcess<R::Started>, ended: Option<Exit>) {
        if let Some(exit) = ended {
            return self.tell_end(&step, exit);
        }
        self.send_kill(&mut step.process);
        let (component, process) = (step.component.as_str(), step.process.id());
        self.tell(component, &Event::Killed { component, process });
        let vigil = wait_out(self.rt, &mut step.process, share_of(self.patience));
        self.patience = self.patience.saturating_sub(vigil.waited);
        if vigil.lives_on {
            let component = step.component.as_str();
            self.tell(component, &Event::LivesOn { component, process });
            let _ = self.let_go.push(step);
        } else if self.is_outlived(step.place) {
            // What lives of its group stays noted, so that the next call ends it.
            let component = step.component.as_str();
            self.tell(component, &Event::LivesOn { component, process });
        } else {
            self.forget(step.place);
        }
    }

    /// Whether others of the group of a process that has ended live on, once they had their share of the patience.
    fn is_outlived(&mut self, place: Option<usize>) -> bool {
        let Some(note) = self.notes.at(place) else {
            return false;
        };
        if note.extent == Extent::Process {
            return false;
        }
        let start = Instant::now(self.rt).ok();
        let most = share_of(self.patience);
        let found = self.await_ends(&[note], most);
        let waited = millis_since(self.rt, &start).unwrap_or(0);
        self.patience = self.patience.saturating_sub(waited);
        match found {
            Ok(all) => note.lives(all.as_slice()),
            Err(_) => true,
        }
    }

    /// Tells how it ended, and forgets its note.
    fn tell_end(&mut self, step: &StepProcess<R::Started>, exit: Exit) {
        let component = step.component.as_str();
        self.tell(
            component,
            &Event::Ended {
                component,
                process: step.process.id(),
                exit,
            },
        );
        self.forget(step.place);
    }

    /// Kills it, and what else lives in its group. It was not waited for, so its number is still its own.
    fn send_kill(&self, process: &mut Child<R::Started>) {
        let _ = process.kill();
        if self.shell.setsid.is_some() {
            let _ = self.end_group(process.id());
        }
    }

    pub(crate) fn end_group(&self, leader: u32) -> io::Result<()> {
        let killer = group_killer(self.alloc, leader)?;
        run_killer(self.rt, killer)
    }

    /// Looks at those that lived on. Whoever has ended is told of and forgotten.
    fn look_at_let_go(&mut self) {
        let let_go = mem::replace(&mut self.let_go, Vec::new(self.alloc));
        for mut step in let_go {
            match poll(&mut step.process) {
                Some(exit) => self.tell_end(&step, exit),
                None => {
                    let _ = self.let_go.push(step);
                }
            }
        }
    }

    /// Looks at the logs of those that live, once a minute, and cuts those that have grown too long.
    pub(crate) fn turn_logs(&self, children: &[Running<R::Started>], moment: u64) {
        if moment.saturating_sub(self.turned.get()) < TURN_MS {
            return;
        }
        self.turned.set(moment);
        for child in children {
            if let Some(component) = child.component() {
                let _ = turn_log(self.rt, self.alloc, self.root, component);
            }
        }
    }
}
