// A library in memory that holds something else after a refresh.
ghost use Rattle.std.specs.Prelude.{◌≤◌, length, map, All};
ghost use Rattle.records.specs.Stored.{item_view};
ghost use Rattle.library_core.specs.Sources.{IsKept};

use crate::rows::{gathered, is_piece, items, origin, recipe_of, stored};
use library_core::{Contents, Library, LibraryFault, MemoryLibrary};
use nuc_base::{Bytes, List, NoMemory};
use records::{Item, Origin};
use std::alloc::Global;
use std::test::Fail;

/// Each line has the recipes of a library and of what comes, with a comma between, and then the candidates that are gathered
/// before the first refresh and after each. There is one refresh more than contents come.
const ROWS: &str = "9|9N 9N
,9|N 9N 9N
9,X9,B|9N 9XN NB NB
9,,XB|9N N XNB XNB";

/// The recipes of these letters, and no artifact.
fn contents(alloc: Global, letters: &str) -> Result<Contents, NoMemory> {
    let mut recipes = List::empty(alloc);
    for letter in letters.as_bytes() {
        recipes.push(Bytes::from_slice(alloc, recipe_of(*letter).as_bytes())?)?;
    }
    Ok(Contents {
        recipes,
        artifacts: List::empty(alloc),
    })
}

/// The library that holds the first of these and then the others.
fn library(alloc: Global, rows: &str) -> Result<MemoryLibrary, NoMemory> {
    let mut parts = rows.split(',');
    let held = contents(alloc, parts.next().unwrap_or(""))?;
    let mut coming = List::empty(alloc);
    for letters in parts {
        coming.push(contents(alloc, letters)?)?;
    }
    Ok(MemoryLibrary::changing(held, coming, List::empty(alloc)))
}

/// Whether these candidates are gathered, one word for each time, with a refresh between two.
fn are_gathered(
    alloc: Global,
    library: &mut MemoryLibrary,
    origin: &Origin,
    kept: &List<Item>,
    words: &str,
) -> Result<bool, NoMemory>
    requires few { length kept.now ≤ 3 }
    requires read { All (IsKept origin.now.platform) (map item_view kept.now) }
{
    for word in words.split(' ') {
        let found = gathered(alloc, library, origin, kept)?;
        if found.as_str() != word {
            return Ok(false);
        }
        library.refresh();
    }
    Ok(true)
}

fn is_row(alloc: Global, row: &str) -> Result<bool, Fail> {
    let (rows, words) = row.split_once('|').unwrap_or((row, ""));
    let origin = origin(alloc)?;
    let kept = items(alloc, &origin.platform, "")?;
    let mut library = library(alloc, rows)?;
    let are = are_gathered(alloc, &mut library, &origin, &kept, words);
    drop(library);
    drop(kept);
    drop(origin);
    Ok(are?)
}

#[test]
fn what_comes_is_held_after_a_refresh(rt: HostRuntime) -> Result<(), Fail> {
    let alloc = rt.alloc();
    for row in ROWS.lines() {
        assert!(rt; is_row(alloc, row)?, "{row}");
    }
    Ok(())
}

/// Nothing, and then an artifact. The library's call 2 fails.
fn artifact_comes(alloc: Global) -> Result<MemoryLibrary, Fail> {
    let mut artifacts = List::empty(alloc);
    artifacts.push(stored(alloc, "A 1.9.0 f abcdef")?)?;
    let mut coming = List::empty(alloc);
    coming.push(Contents {
        recipes: List::empty(alloc),
        artifacts,
    })?;
    let failing = List::new(Vec::from_array(alloc, [2])?);
    Ok(MemoryLibrary::changing(contents(alloc, "")?, coming, failing))
}

/// Whether it comes with the first refresh and stays after the second, and a refresh is none of the calls that count.
fn is_there_later(alloc: Global, library: &mut MemoryLibrary) -> Result<bool, Fail> {
    let is_missing = is_piece(alloc, library, "A 1.9.0 f 0|Ok(Missing) ####")?;
    library.refresh();
    let is_there = is_piece(alloc, library, "A 1.9.0 f 0|Ok(Bytes(4)) abcd")?;
    library.refresh();
    let is_fault = library.count(alloc) == Err(LibraryFault::Failed);
    let stays = is_piece(alloc, library, "A 1.9.0 f 4|Ok(Bytes(2)) ef##")?;
    Ok(is_missing && is_there && is_fault && stays)
}

#[test]
fn an_artifact_comes_with_a_refresh(rt: HostRuntime) -> Result<(), Fail> {
    let mut library = artifact_comes(rt.alloc())?;
    let is_there = is_there_later(rt.alloc(), &mut library);
    drop(library);
    assert!(rt; is_there?);
    Ok(())
}
