ghost use Rattle.std.specs.Prelude.{◌≡◌, ◌++◌, ◌∷◌, [], IsTrue, IfOk, None, Some, true, false};
ghost use Rattle.step_runner.specs.Entries.{HasNoted};
ghost use Rattle.step_runner.specs.declared.entries.Seen.{Seen};
ghost use Rattle.step_runner.specs.declared.entries.Seen.TheVariants as seen;

use nuc_base::{Copied, List, NoMemory, Text};
use std::alloc::Global;
use step_runner::{Command, RunnerEntry, Seen};

/// The entries of a runner in memory. From the first one on for which there is no memory it tells them no more.
#[derive(Drop)]
pub(crate) struct EntryLog {
    alloc: Global,
    entries: List<RunnerEntry>,
    is_told: bool,
    pub(crate) moment: u64,
    pub(crate) asked: bool,
}

impl EntryLog {
    ghost use Rattle.workload.specs.EntryLog.{log_kept, log_list, log_told};

    pub(crate) fn new(alloc: Global) -> EntryLog
        ensures list { log_list result ≡ Some [] }
        ensures moment { result.moment ≡ 0 }
        ensures asked { result.asked ≡ false }
    {
        EntryLog {
            alloc,
            entries: List::empty(alloc),
            is_told: true,
            moment: 0,
            asked: false,
        }
    }

    /// The entries up to the first one without memory.
    pub(crate) fn entries(&self) -> &List<RunnerEntry>
        ensures { result.now ≡ log_kept self.now }
    {
        &self.entries
    }

    /// The moment was asked for.
    pub(crate) fn tell(&mut self, moment: u64)
        ensures list { log_list self.new ≡ log_list self.old }
        ensures moment { self.new.moment ≡ moment }
        ensures asked { self.new.asked ≡ true }
    {
        self.moment = moment;
        self.asked = true;
    }

    /// Adds an entry, for which a moment has to be asked for anew.
    pub(crate) fn note(&mut self, seen: Seen)
        ensures { HasNoted (log_told self.old) (log_told self.new) seen }
    {
        let entry = RunnerEntry {
            moment: self.moment,
            asked: self.asked,
            seen,
        };
        self.is_told = push_entry(&mut self.entries, self.is_told, entry);
        self.asked = false;
    }

    /// Tells the entries no more.
    fn lose(&mut self)
        ensures list { log_list self.new ≡ None }
        ensures moment { self.new.moment ≡ self.old.moment }
        ensures asked { self.new.asked ≡ false }
    {
        self.is_told = false;
        self.asked = false;
    }

    /// Adds an entry where there was memory for what it holds.
    fn note_made(&mut self, seen: Result<Seen, NoMemory>)
        ensures { (s : Seen) → IfOk seen (λ x. x ≡ s) → HasNoted (log_told self.old) (log_told self.new) s }
    {
        match seen {
            Ok(seen) => self.note(seen),
            Err(NoMemory) => self.lose(),
        }
    }

    pub(crate) fn note_start(&mut self, child: u64, command: &Command)
        ensures { HasNoted (log_told self.old) (log_told self.new) (seen.Started child command.now) }
    {
        let seen = started(self.alloc, child, command);
        self.note_made(seen);
    }

    pub(crate) fn note_refusal(&mut self, command: &Command)
        ensures { HasNoted (log_told self.old) (log_told self.new) (seen.Refused command.now) }
    {
        let seen = refused(self.alloc, command);
        self.note_made(seen);
    }

    /// Nothing stands at the path.
    pub(crate) fn note_absent_path(&mut self, path: &Text)
        ensures { HasNoted (log_told self.old) (log_told self.new) (seen.Exists path.now false) }
    {
        let seen = absent_path(self.alloc, path);
        self.note_made(seen);
    }

    /// No program of this name is found.
    pub(crate) fn note_absent_program(&mut self, word: &Text)
        ensures { HasNoted (log_told self.old) (log_told self.new) (seen.OnPath word.now false) }
    {
        let seen = absent_program(self.alloc, word);
        self.note_made(seen);
    }
}

/// Adds an entry where the list is still told and there is memory. Answers whether it was added.
fn push_entry(entries: &mut List<RunnerEntry>, is_told: bool, entry: RunnerEntry) -> bool
    ensures { IsTrue result → (is_told ≡ true) × (entries.new ≡ entries.old ++ entry ∷ []) }
{
    is_told && entries.push(entry).is_ok()
}

fn started(alloc: Global, child: u64, command: &Command) -> Result<Seen, NoMemory>
    ensures { IfOk result (λ s. s ≡ seen.Started child command.now) }
{
    Ok(Seen::Started(child, command.copy(alloc)?))
}

fn refused(alloc: Global, command: &Command) -> Result<Seen, NoMemory>
    ensures { IfOk result (λ s. s ≡ seen.Refused command.now) }
{
    Ok(Seen::Refused(command.copy(alloc)?))
}

fn absent_path(alloc: Global, path: &Text) -> Result<Seen, NoMemory>
    ensures { IfOk result (λ s. s ≡ seen.Exists path.now false) }
{
    Ok(Seen::Exists(path.copy(alloc)?, false))
}

fn absent_program(alloc: Global, word: &Text) -> Result<Seen, NoMemory>
    ensures { IfOk result (λ s. s ≡ seen.OnPath word.now false) }
{
    Ok(Seen::OnPath(word.copy(alloc)?, false))
}
