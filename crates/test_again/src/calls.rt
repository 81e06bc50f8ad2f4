// Calls that serve over disks, libraries, inboxes and children in memory, which are written in a few words.
ghost use Rattle.std.specs.Prelude.{◌≡◌, []};
ghost use Rattle.step_runner.specs.Scripted.{living_of};

use crate::late::LateInbox;
use disk_model::MemoryDisk;
use edges::{Inbox, MemoryInbox};
use library_core::MemoryLibrary;
use nuc_base::{Bytes, List};
use std::alloc::{AllocError, Global};
use std::test::Fail;
use step_runner::{RunnerEntry, ScriptedRunner, Seen};
use test_calls::{Failing, answer_with_inbox, document_of, recipes_of, runner_of};

/// A call over some disk.
#[derive(Clone, Copy, Drop)]
pub(crate) struct Asked<'a> {
    pub(crate) recipes: &'a str,
    pub(crate) command: &'a str,
    /// What the inbox has: a document, which is there from the first; a number, after so many questions a document that is no
    /// JSON; or nothing.
    pub(crate) inbox: &'a str,
    /// How children end, each by its number, its code and the moment.
    pub(crate) ends: &'a str,
}

/// Adds a start or a kill behind its moment.
fn add_entry(said: &mut String, entry: &RunnerEntry) -> Result<(), AllocError> {
    match &entry.seen {
        Seen::Started(child, command) => {
            write!(said, "{} start {child} ", entry.moment)?;
            said.push_str(command.script.as_str())?;
            said.push_str(",")
        }
        Seen::Killed(child) => write!(said, "{} kill {child},", entry.moment),
        _ => Ok(()),
    }
}

/// Adds a bar, and what was started and killed in turn.
fn add_entries(said: &mut String, entries: &[RunnerEntry]) -> Result<(), AllocError> {
    said.push_str("|")?;
    for entry in entries {
        add_entry(said, entry)?;
    }
    Ok(())
}

/// What was said, and behind a bar what was started and killed.
fn followed(said: Result<String, Fail>, entries: &[RunnerEntry]) -> Result<String, Fail> {
    let mut said = said?;
    match add_entries(&mut said, entries) {
        Ok(()) => Ok(said),
        Err(fault) => {
            drop(said);
            Err(fault.into())
        }
    }
}

/// The status of the call and what it prints.
fn answer_over<I: Inbox>(
    alloc: Global,
    disk: &mut MemoryDisk,
    inbox: &mut I,
    runner: &mut ScriptedRunner,
    asked: Asked<'_>,
) -> Result<String, Fail>
    requires none { living_of runner.old ≡ [] }
{
    let mut library = MemoryLibrary::new(
        recipes_of(alloc, asked.recipes)?,
        List::empty(alloc),
        List::empty(alloc),
    );
    let failing = Failing {
        source: &[],
        sink: &[],
    };
    let said = answer_with_inbox(
        alloc,
        disk,
        &mut library,
        inbox,
        runner,
        asked.command,
        "",
        failing,
    );
    drop(library);
    said
}

/// The document, where there is one.
fn documents_of(alloc: Global, document: &str) -> Result<List<Bytes>, Fail> {
    let mut all = List::empty(alloc);
    if document.is_empty() {
        return Ok(all);
    }
    let text = document_of(alloc, document)?;
    let bytes = Bytes::from_slice(alloc, text.as_bytes());
    drop(text);
    all.push(bytes?)?;
    Ok(all)
}

/// The same with an inbox of that document, or of one that comes late.
fn answer(
    alloc: Global,
    disk: &mut MemoryDisk,
    runner: &mut ScriptedRunner,
    asked: Asked<'_>,
) -> Result<String, Fail>
    requires none { living_of runner.old ≡ [] }
{
    match asked.inbox.parse::<u64>() {
        Ok(early) => {
            let mut inbox = LateInbox::new(early);
            let said = answer_over(alloc, disk, &mut inbox, runner, asked);
            drop(inbox);
            said
        }
        Err(_) => {
            let mut inbox = MemoryInbox::new(
                documents_of(alloc, asked.inbox)?,
                false,
                List::empty(alloc),
            );
            let said = answer_over(alloc, disk, &mut inbox, runner, asked);
            drop(inbox);
            said
        }
    }
}

/// The status of the call, what it prints, with `;` for each line feed, and what was started and killed, with bars between these.
pub(crate) fn call(alloc: Global, disk: &mut MemoryDisk, asked: Asked<'_>) -> Result<String, Fail> {
    let mut runner = runner_of(alloc, asked.ends)?;
    let said = answer(alloc, disk, &mut runner, asked);
    let said = followed(said, runner.entries().as_slice());
    drop(runner);
    said
}
