//! The definitions of valid and preferred sets, computed by trying all sets of a small library. A row is a candidate, as
//! `A1 B12 C33`: the version 1 of `A` needs `B` in a version from 1 to 2 and `C` in 3. A set has a bit for each row.

use std::alloc::{AllocError, Global};

/// The pieces of a text.
pub fn pieces<'a>(alloc: Global, text: &'a str, by: char) -> Result<Vec<&'a str>, AllocError> {
    let mut list = Vec::new(alloc);
    for piece in text.split(by) {
        list.push(piece)?;
    }
    Ok(list)
}

pub fn byte(text: &str, at: usize) -> u8 {
    text.as_bytes().get(at).copied().unwrap_or(0)
}

pub fn bit(place: u32) -> u32 {
    if place < 32 { 1 << place } else { 0 }
}

fn has(set: u32, place: u32) -> bool {
    set & bit(place) != 0
}

/// The member of that name, or as many as there are rows.
fn member(rows: &[&str], set: u32, name: u8) -> u32 {
    let mut place = 0u32;
    for row in rows {
        if has(set, place) && byte(row, 0) == name {
            return place;
        }
        place = place.saturating_add(1);
    }
    place
}

fn row<'a>(rows: &[&'a str], place: u32) -> &'a str {
    rows.get(place as usize).copied().unwrap_or("")
}

/// Whether a member is of the need's name, in its range.
fn is_met(rows: &[&str], set: u32, need: &str) -> bool {
    let version = byte(row(rows, member(rows, set, byte(need, 0))), 1);
    byte(need, 1) <= version && version <= byte(need, 2)
}

fn are_met(rows: &[&str], set: u32, needs: &[&str]) -> bool {
    needs.iter().all(|need| is_met(rows, set, need))
}

/// The needs of a row.
fn needs_of<'a>(alloc: Global, row: &'a str) -> Result<Vec<&'a str>, AllocError> {
    let mut list = Vec::new(alloc);
    for need in row.split(' ') {
        // The first piece is the row's own name and version.
        if byte(need, 2) != 0 {
            list.push(need)?;
        }
    }
    Ok(list)
}

/// Each member is the only one of its name, and its needs are met.
fn members_hold(alloc: Global, rows: &[&str], set: u32) -> Result<bool, AllocError> {
    let mut place = 0u32;
    for row in rows {
        if has(set, place) {
            let needs = needs_of(alloc, row)?;
            if member(rows, set, byte(row, 0)) != place || !are_met(rows, set, &needs) {
                return Ok(false);
            }
        }
        place = place.saturating_add(1);
    }
    Ok(true)
}

/// The members of those names.
fn named(rows: &[&str], set: u32, needs: &[&str]) -> u32 {
    let mut found = 0;
    for need in needs {
        found |= bit(member(rows, set, byte(need, 0)));
    }
    found & set
}

/// The members that some of them need.
fn needed(alloc: Global, rows: &[&str], set: u32, some: u32) -> Result<u32, AllocError> {
    let mut found = 0;
    let mut place = 0u32;
    for row in rows {
        if has(some, place) {
            let needs = needs_of(alloc, row)?;
            found |= named(rows, set, &needs);
        }
        place = place.saturating_add(1);
    }
    Ok(found)
}

/// Whether each member is wanted, or needed by one that is reached.
fn is_reached(alloc: Global, rows: &[&str], set: u32, wanted: &[&str]) -> Result<bool, AllocError> {
    let mut reached = named(rows, set, wanted);
    for _row in rows {
        reached |= needed(alloc, rows, set, reached)?;
    }
    Ok(reached == set)
}

/// Whether no member needs itself, through others too: as often as there are rows, only those stay that another needs.
fn is_acyclic(alloc: Global, rows: &[&str], set: u32) -> Result<bool, AllocError> {
    let mut left = set;
    for _row in rows {
        left = needed(alloc, rows, set, left)?;
    }
    Ok(left == 0)
}

fn is_valid(alloc: Global, rows: &[&str], wanted: &[&str], set: u32) -> Result<bool, AllocError> {
    if !are_met(rows, set, wanted) || !members_hold(alloc, rows, set)? {
        return Ok(false);
    }
    if !is_reached(alloc, rows, set, wanted)? {
        return Ok(false);
    }
    is_acyclic(alloc, rows, set)
}

/// The member of the least required name that is not taken, or as many as there are rows.
fn next(
    alloc: Global,
    rows: &[&str],
    wanted: &[&str],
    set: u32,
    taken: u32,
) -> Result<u32, AllocError> {
    let open = (named(rows, set, wanted) | needed(alloc, rows, set, taken)?) & !taken;
    let mut place = 0u32;
    // The rows rise by name.
    for _row in rows {
        if has(open, place) {
            return Ok(place);
        }
        place = place.saturating_add(1);
    }
    Ok(place)
}

/// Whether the walk of a valid set has the greater version where it first differs from that of another.
fn is_ahead(
    alloc: Global,
    rows: &[&str],
    wanted: &[&str],
    set: u32,
    other: u32,
) -> Result<bool, AllocError> {
    let mut taken = 0;
    for _row in rows {
        let one = next(alloc, rows, wanted, set, taken)?;
        let two = next(alloc, rows, wanted, other, taken)?;
        if one != two {
            return Ok(byte(row(rows, one), 1) > byte(row(rows, two), 1));
        }
        taken |= bit(one);
    }
    Ok(false)
}

/// The preferred of all sets, or none.
pub fn preferred(alloc: Global, rows: &[&str], wanted: &[&str]) -> Result<Option<u32>, AllocError> {
    let mut best = None;
    for set in 0..bit((rows.len() % 16) as u32) {
        if is_valid(alloc, rows, wanted, set)? {
            best = match best {
                Some(other) if !is_ahead(alloc, rows, wanted, set, other)? => Some(other),
                _ => Some(set),
            };
        }
    }
    Ok(best)
}
