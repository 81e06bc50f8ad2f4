//! Scripts of what others do, as words `LOOK:NAME=FILE`: before the look of that number, counted from 1, this file comes under
//! the name. A file is a digit, which are its bytes, and `f`, `u` where it can't be read, or `d` for a folder; `0` is none.
use edges::{Inbox, Incoming};
use folder_edges::FolderInbox;
use folders::{Change, Identity, MemoryFolder, Placed};
use nuc_base::{Bytes, List, NoMemory};
use std::alloc::Global;
use std::collections::VecDeque;

/// How many looks a script may speak of.
const LOOKS: usize = 64;

/// The digits' number before the end of the word, or 0.
fn number(digits: &[u8]) -> usize {
    let mut number: usize = 0;
    for digit in digits {
        number = number
            .saturating_mul(10)
            .saturating_add(digit.saturating_sub(b'0') as usize);
    }
    number
}

/// The part before the first such byte, and that after it.
fn split_at(word: &[u8], byte: u8) -> (&[u8], &[u8]) {
    match word.iter().position(|other| *other == byte) {
        Some(at) => (&word[..at], &word[at + 1..]),
        None => (word, b""),
    }
}

fn placed(alloc: Global, file: &[u8]) -> Result<Option<Placed>, NoMemory> {
    match file {
        [digit, kind] => Ok(Some(Placed {
            identity: Identity {
                device: 1,
                number: *digit as u64,
            },
            is_plain: *kind != b'd',
            is_readable: *kind == b'f',
            bytes: Bytes::from_slice(alloc, &file[..1])?,
        })),
        _ => Ok(None),
    }
}

/// What others do before the look of that number.
fn changes(alloc: Global, script: &[u8], look: usize) -> Result<List<Change>, NoMemory> {
    let mut all = Vec::new(alloc);
    for word in script.split(|byte| *byte == b' ') {
        let (at, deed) = split_at(word, b':');
        if at.is_empty() || number(at) != look {
            continue;
        }
        let (name, file) = split_at(deed, b'=');
        all.push(Change {
            name: Bytes::from_slice(alloc, name)?,
            placed: placed(alloc, file)?,
        })?;
    }
    Ok(List::new(all))
}

fn numbers(alloc: Global, numbers: &[u64]) -> Result<List<u64>, NoMemory> {
    let mut all = Vec::new(alloc);
    all.extend_from_slice(numbers)?;
    Ok(List::new(all))
}

/// The folder of a script, with the numbers of the listings that fail and of the calls that take away or make stable.
pub fn folder(
    alloc: Global,
    script: &[u8],
    failing: &[u64],
    refusing: &[u64],
) -> Result<MemoryFolder, NoMemory> {
    let mut looks = VecDeque::new(alloc);
    for look in 1..LOOKS {
        looks.push_back(changes(alloc, script, look)?)?;
    }
    Ok(MemoryFolder::new(
        alloc,
        looks,
        numbers(alloc, failing)?,
        numbers(alloc, refusing)?,
    ))
}

/// Asks so many times, and ends each document: its digit, `-` where there is none, `.` where the inbox is closed, `?` where it
/// failed, `!` after a document whose end failed.
pub fn ask(
    alloc: Global,
    inbox: &mut FolderInbox<MemoryFolder>,
    questions: u32,
) -> Result<Vec<u8>, NoMemory> {
    let mut told = Vec::new(alloc);
    for _ in 0..questions {
        match inbox.next(alloc) {
            Ok(Incoming::Document(bytes)) => {
                told.extend_from_slice(bytes.as_slice())?;
                if inbox.done().is_err() {
                    told.push(b'!')?;
                }
            }
            Ok(Incoming::Nothing) => told.push(b'-')?,
            Ok(Incoming::Closed) => told.push(b'.')?,
            Err(_) => told.push(b'?')?,
        }
    }
    Ok(told)
}
