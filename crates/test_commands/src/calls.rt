// Calls of the top call whose words are written with one blank between two, and in which no child is started.
use disk_model::Disk;
use edges::{MemoryInbox, MemorySink, MemorySource};
use library_core::MemoryLibrary;
use nuc_base::{List, Status};
use nucleus_top::nucleus;
use std::alloc::{AllocError, Global};
use std::test::Fail;
use step_runner::ScriptedRunner;
use test_calls::{split_words, told};

/// The status of the call of these words.
pub(crate) fn call<D: Disk>(
    alloc: Global,
    words: &str,
    disk: &mut D,
    library: &mut MemoryLibrary,
    source: &mut MemorySource,
    sink: &mut MemorySink,
) -> Result<Status, AllocError> {
    let words = split_words(alloc, words)?;
    let mut runner = ScriptedRunner::new(
        alloc,
        List::empty(alloc),
        List::empty(alloc),
        List::empty(alloc),
    );
    let mut inbox = MemoryInbox::new(List::empty(alloc), true, List::empty(alloc));
    let status = nucleus(
        alloc,
        "1.0.0",
        &words,
        disk,
        library,
        source,
        &mut inbox,
        sink,
        &mut runner,
    );
    drop(inbox);
    drop(runner);
    drop(words);
    Ok(status)
}

/// What the call prints, with `;` for each line feed, behind the status.
pub(crate) fn answer<D: Disk>(
    alloc: Global,
    words: &str,
    disk: &mut D,
    library: &mut MemoryLibrary,
    source: &mut MemorySource,
) -> Result<String, Fail> {
    answer_to(alloc, words, disk, library, source, &[])
}

/// The same to a sink that fails these calls.
pub(crate) fn answer_to<D: Disk>(
    alloc: Global,
    words: &str,
    disk: &mut D,
    library: &mut MemoryLibrary,
    source: &mut MemorySource,
    failing: &[u64],
) -> Result<String, Fail> {
    let failing = List::new(Vec::from_slice(alloc, failing)?);
    let mut sink = MemorySink::new(alloc, failing);
    let text = match call(alloc, words, disk, library, source, &mut sink) {
        Ok(status) => told(alloc, status, sink.bytes()),
        Err(fault) => Err(fault),
    };
    drop(sink);
    Ok(text?)
}
