// What a folder in memory keeps of what happened in it.
ghost use Rattle.std.specs.Prelude.{◌≡◌, ◌↔◌, IsSome, Contains, IfOk, option_map, List, ℕ};
ghost use Rattle.folders.specs.Lines.{stands_in, mentions, names_it, about, placed_file, put_by, new_name_of};

use crate::identity::Identity;
use nuc_base::{Bytes, List, NoMemory};
use std::alloc::Global;

/// What others put under a name.
#[derive(Debug, Drop)]
pub struct Placed {
    pub identity: Identity,
    /// It is a file, and no folder, link or pipe.
    pub is_plain: bool,
    /// It can be opened and read now.
    pub is_readable: bool,
    pub bytes: Bytes,
}

/// From then on this stands under the name, or nothing.
#[derive(Debug, Drop)]
pub struct Change {
    pub name: Bytes,
    pub placed: Option<Placed>,
}

/// What happened.
#[derive(Debug, Drop)]
pub enum Line {
    /// Others changed something.
    Changed(Change),
    /// A call looked.
    Looked,
    /// What was moved became stable.
    Synced,
    /// A call moved a file to those that were taken.
    Took(Bytes, Placed),
    /// A call moved it back.
    Returned(Change),
    /// A call took away one that was taken.
    Ended(Bytes),
}

/// Of which of the two folders something is said: that in which others work, or that of those that were taken.
#[derive(Clone, Copy, Debug, PartialEq, Eq)]
pub enum Side {
    Open,
    Taken,
}

impl Placed {
    /// A copy of it.
    pub fn copy(&self, alloc: Global) -> Result<Placed, NoMemory>
        ensures { IfOk result (λ p. placed_file p ≡ placed_file self.now) }
    {
        Ok(Placed {
            identity: self.identity,
            is_plain: self.is_plain,
            is_readable: self.is_readable,
            bytes: Bytes::from_slice(alloc, self.bytes.as_slice())?,
        })
    }
}

/// The name under which the line says what stands in that folder.
fn name_of(side: Side, line: &Line) -> Option<&[u8]>
    ensures { option_map (λ n. n.now) result ≡ about side line.now }
{
    match side {
        Side::Open => match line {
            Line::Changed(change) | Line::Returned(change) => Some(change.name.as_slice()),
            Line::Took(name, _) => Some(name.as_slice()),
            Line::Looked | Line::Synced | Line::Ended(_) => None,
        },
        Side::Taken => match line {
            Line::Took(name, _) | Line::Ended(name) => Some(name.as_slice()),
            Line::Returned(change) => Some(change.name.as_slice()),
            Line::Changed(_) | Line::Looked | Line::Synced => None,
        },
    }
}

/// What it puts there.
fn placed_by(side: Side, line: &Line) -> Option<&Placed>
    ensures { option_map (λ p. placed_file p.now) result ≡ put_by side line.now }
{
    match side {
        Side::Open => match line {
            Line::Changed(change) | Line::Returned(change) => change.placed.as_ref(),
            _ => None,
        },
        Side::Taken => match line {
            Line::Took(_, placed) => Some(placed),
            _ => None,
        },
    }
}

fn is_about(side: Side, line: &Line, name: &[u8]) -> bool
    ensures { result ≡ names_it (about side line.now) name.now }
{
    match name_of(side, line) {
        Some(own) => own == name,
        None => false,
    }
}

/// What stands under the name after these lines, the newest of which is the first.
pub fn standing<'a>(side: Side, lines: &'a [Line], name: &[u8]) -> Option<&'a Placed>
    ensures { option_map (λ p. placed_file p.now) result ≡ stands_in side lines.now name.now }
{
    for line in lines {
        if is_about(side, line, name) {
            return placed_by(side, line);
        }
    }
    None
}

/// The names under which something stands.
pub fn names_in(alloc: Global, side: Side, lines: &[Line]) -> Result<List<Bytes>, NoMemory>
    ensures { IfOk result (λ names. (name : List ℕ) → Contains names name ↔ IsSome (stands_in side lines.now name)) }
{
    let mut names = Vec::new(alloc);
    for place in 0..lines.len() {
        if let Some(name) = new_name(side, &lines[..place], &lines[place]) {
            names.push(Bytes::from_slice(alloc, name)?)?;
        }
    }
    Ok(List::new(names))
}

/// The name under which the line puts something, where no newer line is about it.
fn new_name<'a>(side: Side, newer: &[Line], line: &'a Line) -> Option<&'a [u8]>
    ensures { option_map (λ n. n.now) result ≡ new_name_of side newer.now line.now }
{
    match name_of(side, line) {
        Some(name) if placed_by(side, line).is_some() && !is_mentioned(side, newer, name) => {
            Some(name)
        }
        _ => None,
    }
}

fn is_mentioned(side: Side, lines: &[Line], name: &[u8]) -> bool
    ensures { result ≡ mentions side lines.now name.now }
{
    for line in lines {
        if is_about(side, line, name) {
            return true;
        }
    }
    false
}
