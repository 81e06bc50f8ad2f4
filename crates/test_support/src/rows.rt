// Small libraries from rows, as `A1 B12 C33`: the version 1.0.0 of `A`, which needs `B` in a version from 1.0.0 to 2.0.0 and
// `C` in 3.0.0. A version other than that is written as `A=1.2.3`, a range as `B:^1` with `_` for a blank; `B:` needs any
// `B`, and `B~` too, as a soft dependency.
ghost use Rattle.std.specs.Prelude.{IfOk};
ghost use Rattle.recipe_reader.specs.Candidates.{IsRead};

use crate::linux;
use npm_ranges::{Range, Version};
use nuc_base::{Bytes, List, Name, NoMemory};
use recipe_reader::{Candidate, Candidates, Platform, Recipe, Wanted};
use std::alloc::{AllocError, Global};
use std::test::Fail;

/// The word's byte so far from its end.
fn digit(word: &str, from_end: usize) -> u8 {
    word.as_bytes()
        .iter()
        .rev()
        .nth(from_end)
        .copied()
        .unwrap_or(0)
}

/// The word without so many bytes at its end.
fn prefix(word: &str, less: usize) -> &str {
    word.get(..word.len().saturating_sub(less)).unwrap_or("")
}

/// The name that a word asks for.
fn name_in(word: &str) -> &str {
    match word.split_once(':') {
        Some((name, _)) => name,
        None => match word.split_once('~') {
            Some((name, _)) => name,
            None => prefix(word, 2),
        },
    }
}

fn push_blanks(text: &mut String, range: &str) -> Result<(), AllocError> {
    for letter in range.chars() {
        text.push(if letter == '_' { ' ' } else { letter })?;
    }
    Ok(())
}

/// Adds the range of a word.
fn push_range(text: &mut String, word: &str) -> Result<(), AllocError> {
    if let Some((_, range)) = word.split_once(':') {
        return push_blanks(text, range);
    }
    text.push_str(">=")?;
    text.push(digit(word, 1) as char)?;
    text.push_str(".0.0 <=")?;
    text.push(digit(word, 0) as char)?;
    text.push_str(".0.0")?;
    Ok(())
}

/// Adds what a dependency asks for.
fn push_asked(text: &mut String, word: &str) -> Result<(), AllocError> {
    if digit(word, 0) == b'~' {
        text.push_str(r#""DependencyType":"SOFT""#)?;
    } else if digit(word, 0) != b':' {
        text.push_str(r#""VersionRequirement":""#)?;
        push_range(text, word)?;
        text.push_str("\"")?;
    }
    Ok(())
}

fn push_need(text: &mut String, word: &str) -> Result<(), AllocError> {
    text.push_str("\"")?;
    text.push_str(name_in(word))?;
    text.push_str("\":{")?;
    push_asked(text, word)?;
    text.push_str("}")?;
    Ok(())
}

fn push_needs(text: &mut String, needs: &str) -> Result<(), AllocError> {
    let mut is_first = true;
    for word in needs.split(' ') {
        if !word.is_empty() {
            if !is_first {
                text.push(',')?;
            }
            push_need(text, word)?;
            is_first = false;
        }
    }
    Ok(())
}

/// Adds the name and the version of a row.
fn push_head(text: &mut String, head: &str) -> Result<(), AllocError> {
    let between = r#"","ComponentVersion":""#;
    if let Some((name, version)) = head.split_once('=') {
        text.push_str(name)?;
        text.push_str(between)?;
        text.push_str(version)?;
    } else {
        text.push_str(prefix(head, 1))?;
        text.push_str(between)?;
        text.push(digit(head, 0) as char)?;
        text.push_str(".0.0")?;
    }
    Ok(())
}

/// The recipe of a row.
fn row_text(alloc: Global, row: &str) -> Result<String, AllocError> {
    let (head, needs) = row.split_once(' ').unwrap_or((row, ""));
    let mut text = String::new(alloc);
    text.push_str(r#"{"RecipeFormatVersion":"2020-01-25","ComponentName":""#)?;
    push_head(&mut text, head)?;
    text.push_str(r#"","ComponentDependencies":{"#)?;
    push_needs(&mut text, needs)?;
    text.push_str("}}")?;
    Ok(text)
}

/// The bytes of the recipe of a row.
fn row_bytes(alloc: Global, row: &str) -> Result<Bytes, NoMemory> {
    let text = row_text(alloc, row)?;
    Bytes::from_slice(alloc, text.as_bytes())
}

fn candidate_of(alloc: Global, platform: &Platform, row: &str) -> Result<Candidate, Fail>
    ensures { IfOk result IsRead }
{
    let bytes = row_bytes(alloc, row)?;
    match Recipe::read(alloc, bytes.as_slice(), platform) {
        Ok(recipe) => Ok(Candidate { recipe, bytes }),
        Err(_) => Err(Fail::from("recipe")),
    }
}

fn add(alloc: Global, candidates: &mut Candidates, row: &str) -> Result<(), Fail> {
    if candidates.list().len() > 2000 {
        return Err(Fail::from("many"));
    }
    let platform = linux(alloc)?;
    match candidates.add(candidate_of(alloc, &platform, row)?) {
        Ok(()) => Ok(()),
        Err(refusal) => {
            drop(refusal);
            Err(Fail::from("clash"))
        }
    }
}

/// The built-in candidate alone.
fn built_in(alloc: Global) -> Result<Candidates, NoMemory> {
    match Version::read(alloc, b"2.0.0") {
        Ok(version) => Candidates::with_nucleus(alloc, &version),
        Err(_) => Err(NoMemory),
    }
}

/// The candidates of the rows, and the built-in one.
pub fn library_of(alloc: Global, rows: &str) -> Result<Candidates, Fail> {
    let mut candidates = built_in(alloc)?;
    for row in rows.split(';') {
        add(alloc, &mut candidates, row)?;
    }
    Ok(candidates)
}

fn want_of(alloc: Global, word: &str) -> Result<Wanted, Fail> {
    let mut range = String::new(alloc);
    push_range(&mut range, word)?;
    let name = Name::read(alloc, name_in(word).as_bytes())?;
    let range = Range::read(alloc, range.as_bytes())?;
    Ok(Wanted { name, range })
}

pub fn wanted_of(alloc: Global, words: &str) -> Result<List<Wanted>, Fail> {
    let mut wanted = List::empty(alloc);
    for word in words.split(' ') {
        if !word.is_empty() {
            wanted.push(want_of(alloc, word)?)?;
        }
    }
    Ok(wanted)
}

/// Adds the places of a set.
pub fn push_places(text: &mut String, places: &[u32]) -> Result<(), AllocError> {
    let mut between = "";
    for place in places {
        text.push_str(between)?;
        write!(text, "{place}")?;
        between = " ";
    }
    Ok(())
}
