//! The children of an earlier call, which was killed before they ended.

use crate::clock::{PATIENCE_MS, pause_within, waited_since};
use crate::keeper::{Keeper, run_killer};
use crate::notes::{Extent, Note};
use crate::processes::{Seen, all_seen};
use crate::programs::process_killer;
use host_files::Event;
use std::fs::{File, Files};
use std::process::Processes;
use std::rt::Clock;
use std::time::{Duration, Instant};
use std::{io, thread};

/// What is told of a component where only its process is known.
const NO_NAME: &str = "-";

fn none_lives(notes: &[Note], all: &[Seen]) -> bool {
    notes.iter().all(|note| !note.lives(all))
}

impl<'a, R: Processes + Clock + Files<File = File> + AllocGlobal> Keeper<'a, R> {
    /// Ends what earlier calls have noted and what lives of it, and waits for that as long as all kills of a stop do. What lives
    /// on is told of, and stays noted.
    pub(crate) fn end_earlier(&mut self) -> io::Result<()> {
        self.notes.read(self.rt, self.root)?;
        if self.notes.is_empty() {
            return self.notes.keep(self.alloc, &[]);
        }
        let all = all_seen(self.rt)?;
        let found = self.notes.living(self.alloc, all.as_slice())?;
        for note in found.iter() {
            self.kill_noted(note);
        }
        let all = self.await_ends(found.as_slice(), PATIENCE_MS)?;
        for note in found.iter() {
            self.tell_noted(note, all.as_slice());
        }
        let left = self.notes.living(self.alloc, all.as_slice())?;
        self.notes.keep(self.alloc, left.as_slice())
    }

    /// Kills the process of a note, and its group.
    fn kill_noted(&self, note: &Note) {
        if note.extent == Extent::Group {
            let _ = self.end_group(note.process);
        }
        let _ = self.end_process(note);
    }

    /// Kills the process of a note alone, where it lives: its number may be another's by now, and it may have been killed before
    /// it led a group.
    fn end_process(&self, note: &Note) -> io::Result<()> {
        if note.leads_on(self.rt, self.alloc)? {
            let killer = process_killer(self.alloc, note.process)?;
            run_killer(self.rt, killer)?;
        }
        Ok(())
    }

    /// Looks until none of them lives, for so many milliseconds at most, and answers what was seen last.
    pub(crate) fn await_ends(&self, notes: &[Note], most: u64) -> io::Result<Vec<Seen>> {
        let start = Instant::now(self.rt).ok();
        let mut waited: u64 = 0;
        for _ in 0..u64::MAX {
            let all = all_seen(self.rt)?;
            if waited >= most || none_lives(notes, all.as_slice()) {
                return Ok(all);
            }
            let pause = pause_within(waited);
            thread::sleep(self.rt, Duration::from_millis(pause));
            waited = waited_since(self.rt, &start, waited.saturating_add(pause));
        }
        all_seen(self.rt)
    }

    fn tell_noted(&self, note: &Note, all: &[Seen]) {
        let process = note.process;
        if note.lives(all) {
            self.log.tell(&Event::LivesOn {
                component: NO_NAME,
                process,
            });
        } else {
            self.log.tell(&Event::EndedEarlier { process });
        }
    }
}
