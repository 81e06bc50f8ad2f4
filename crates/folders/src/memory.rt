ghost use Rattle.std.specs.Prelude.{◌≡◌, ◌≤◌, ◌∷◌, [], Some, length, take, min, ◌+◌, ◌-◌, ◌^◌, IfOk, OnOk, OnErr, IsErrOf, option_map};
ghost use Rattle.nuc_base.specs.Faults.{Rose, HasCause};
ghost use Rattle.nuc_base.specs.Failing.{failing_numbers, calls_of, faults_of};
ghost use Rattle.folders.specs.History.{Saw, IsUntouched, Found};
ghost use Rattle.folders.specs.Calls.{IsListing, Opens, IsShort};
ghost use Rattle.folders.specs.Placed.{OpensFile};
ghost use Rattle.folders.specs.Lines.{history_of, with_changes, placed_file};

use crate::folder::{Folder, FolderFault, Opened};
use crate::lines::{Change, Line, Placed, Side, names_in, standing};
use nuc_base::{Bytes, Failing, List, NoMemory};
use std::alloc::Global;
use std::collections::VecDeque;

/// A folder in memory, with the folder of those that were taken out of it. It tells its history. A script says what others do
/// before each look, look by look. Two lists of numbers, counted from 0, say which listings fail, and which of the calls that
/// take away or make stable.
#[derive(Drop)]
pub struct MemoryFolder {
    pub(crate) alloc: Global,
    /// What happened, the newest first.
    pub(crate) lines: Vec<Line>,
    script: VecDeque<List<Change>>,
    pub(crate) failing: Failing,
    pub(crate) refusing: Failing,
    missed: u64,
}

impl MemoryFolder {
    ghost use Rattle.folders.specs.Memory.{folder_lines, folder_script, folder_failing, folder_refusing, folder_missed, folder_history, IsStirred, HasLooked};

    /// An empty folder.
    pub fn new(
        alloc: Global,
        script: VecDeque<List<Change>>,
        failing: List<u64>,
        refusing: List<u64>,
    ) -> Self
        ensures lines { folder_lines result ≡ [] }
        ensures script { folder_script result ≡ script.items }
        ensures failing { failing_numbers (folder_failing result) ≡ failing }
        ensures calls { calls_of (folder_failing result) ≡ 0 }
        ensures refusing { failing_numbers (folder_refusing result) ≡ refusing }
        ensures refused { calls_of (folder_refusing result) ≡ 0 }
    {
        MemoryFolder {
            alloc,
            lines: Vec::new(alloc),
            script,
            failing: Failing::new(failing),
            refusing: Failing::new(refusing),
            missed: 0,
        }
    }

    /// Others do what the script says comes now, and then the call looks. Where memory is refused nothing was looked at, and
    /// what others were to do may not have been done.
    pub(crate) fn stir(&mut self) -> Result<(), NoMemory>
        ensures stirred { OnOk result (IsStirred self.old self.new) }
        ensures looked { OnOk result (HasLooked self.old self.new) }
        ensures unseen { OnErr result (folder_history self.new ≡ folder_history self.old) }
        ensures failing { folder_failing self.new ≡ folder_failing self.old }
        ensures refusing { folder_refusing self.new ≡ folder_refusing self.old }
        ensures missed { folder_missed self.new ≡ folder_missed self.old }
    {
        if let Some(changes) = self.script.pop_front() {
            change_all(&mut self.lines, changes)?;
        }
        self.lines.insert(0, Line::Looked)?;
        Ok(())
    }
}

/// Adds what others do.
fn change_all(lines: &mut Vec<Line>, changes: List<Change>) -> Result<(), NoMemory>
    ensures all { OnOk result (lines.new.items ≡ with_changes changes lines.old.items) }
    ensures unseen { history_of lines.new.items ≡ history_of lines.old.items }
{
    for change in changes.into_vec() {
        lines.insert(0, Line::Changed(change))?;
    }
    Ok(())
}

/// The bytes, or the first so many of them.
pub(crate) fn prefix_of(alloc: Global, bytes: &[u8], most: usize) -> Result<Bytes, NoMemory>
    ensures prefix { IfOk result (λ prefix. prefix ≡ take most bytes.now) }
    ensures short { IfOk result (λ prefix. length prefix ≤ most) }
{
    let count = bytes.len().min(most);
    Bytes::from_slice(alloc, &bytes[..count])
}

/// The file's first bytes, where it is a plain file that can be read.
fn opened(
    alloc: Global,
    placed: Option<&Placed>,
    most: usize,
) -> Result<Option<Opened>, FolderFault>
    ensures opens { OpensFile (option_map (λ p. placed_file p.now) placed.entry) most result }
    ensures short { IfOk result (IsShort most) }
{
    match placed {
        Some(placed) if placed.is_plain => {
            if !placed.is_readable {
                return Err(FolderFault::Failed);
            }
            match prefix_of(alloc, placed.bytes.as_slice(), most) {
                Ok(bytes) => Ok(Some(Opened {
                    identity: placed.identity,
                    bytes,
                })),
                Err(NoMemory) => Err(FolderFault::NoMemory),
            }
        }
        _ => Ok(None),
    }
}

impl MemoryFolder {
    ghost use Rattle.folders.specs.Memory.{folder_failing, folder_refusing, folder_missed, folder_history};

    /// The names of all that stands in it.
    pub(crate) fn list_now(&mut self, alloc: Global) -> Result<List<Bytes>, FolderFault>
        ensures told { Saw (Some (folder_history self.old)) (Some (folder_history self.new)) (λ found. IsUntouched found × IfOk result (IsListing found)) }
        ensures cause { IsErrOf result FolderFault.Failed → Rose (faults_of (folder_failing self.old)) (faults_of (folder_failing self.new)) }
        ensures quiet { ¬ (IsErrOf result FolderFault.Failed) → faults_of (folder_failing self.new) ≡ faults_of (folder_failing self.old) }
        ensures later { faults_of (folder_failing self.old) ≤ faults_of (folder_failing self.new) }
        ensures refusing { folder_refusing self.new ≡ folder_refusing self.old }
        ensures missed { folder_missed self.new ≡ folder_missed self.old }
    {
        if self.failing.fails() {
            return Err(FolderFault::Failed);
        }
        match self.stir() {
            Ok(()) => match names_in(alloc, Side::Open, self.lines.as_slice()) {
                Ok(names) => Ok(names),
                Err(NoMemory) => Err(FolderFault::NoMemory),
            },
            Err(NoMemory) => Err(FolderFault::NoMemory),
        }
    }
}

impl Folder for MemoryFolder {
    ghost use Rattle.folders.specs.Memory.{folder_lines, folder_failing, folder_missed, folder_history};

    ghost history = { λ m. Some (folder_history m) };

    ghost faults = { λ m. faults_of (folder_failing m) };

    ghost missed = { λ m. folder_missed m };

    fn list(&mut self, alloc: Global) -> Result<List<Bytes>, FolderFault> {
        self.list_now(alloc)
    }

    fn open(
        &mut self,
        alloc: Global,
        name: &[u8],
        most: usize,
    ) -> Result<Option<Opened>, FolderFault> {
        if let Err(NoMemory) = self.stir() {
            return Err(FolderFault::NoMemory);
        }
        let answer = opened(
            alloc,
            standing(Side::Open, self.lines.as_slice(), name),
            most,
        );
        if let Err(FolderFault::Failed) = &answer {
            self.missed = self.missed.saturating_add(1);
        }
        answer
    }
}
