// A document whose artifact cannot be taken in, and each failing call of the disk and of the library under a call that serves two
// documents. Components of another group stay up throughout.
use crate::calls::{Asked, call};
use disk_model::{FusedDisk, MemoryDisk, Pick};
use nuc_base::List;
use std::alloc::{AllocError, Global};
use std::test::Fail;
use test_calls::begin;

const RECIPES: &str = concat!(
    r#"K 1.0.0 run k;S 1.0.0 startup s;"#,
    r#"{"RecipeFormatVersion":"2020-01-25","ComponentName":"B","ComponentVersion":"1.0.0","Manifests":[{"Artifacts":[{"URI":"s3://b/f"}]}]}"#
);

/// The file of B.
const FILE: &str = "packages/artifacts/B/1.0.0/f";

/// The other group has K.
const FIRST: &str =
    r#"{"deploymentId":"k1","targetArn":"h","components":{"K":{"componentVersion":"1.0.0"}}}&closed"#;

const DOCUMENTS: &str = "d1 ROLLBACK B 1.0.0&d2 ROLLBACK S 1.0.0";

/// More calls than a device gets in this one.
const MOST_CALLS: u64 = 200;

const PLAIN: &str = concat!(
    "17|accepted d1;closed d1 SUCCESSFUL;accepted d2;closed d2 SUCCESSFUL;ended 17 3;|",
    "start 0 k,start 1 s,end 1,wait 1000,kill 0,"
);

/// The artifact could not be taken in, or no room was made for the records of the first document.
const UNFIT: &str = concat!(
    "17|fault 5 disk;accepted d2;closed d2 SUCCESSFUL;ended 17 3;|",
    "start 0 k,start 1 s,end 1,wait 1000,kill 0,"
);

/// No room was made for the records of the second document.
const SECOND_UNFIT: &str = concat!(
    "17|accepted d1;closed d1 SUCCESSFUL;fault 5 disk;ended 17 3;|",
    "start 0 k,wait 1000,kill 0,"
);

/// Nor could what was written of it be swept.
const UNSWEPT: &str = "5|fault 5 disk;fault 5 disk;|start 0 k,kill 0,";

/// The library failed for the first document, or for the second.
const UNREAD: [&str; 2] = [
    concat!(
        "17|refused 7 library;accepted d2;closed d2 SUCCESSFUL;ended 17 3;|",
        "start 0 k,start 1 s,end 1,wait 1000,kill 0,"
    ),
    concat!(
        "17|accepted d1;closed d1 SUCCESSFUL;refused 7 library;ended 17 3;|",
        "start 0 k,wait 1000,kill 0,"
    ),
];

/// What comes of a call in which one call of the disk fails.
#[derive(Clone, Copy, Debug, Drop, PartialEq, Eq)]
enum Outcome {
    /// The disk was not called so often.
    Unreached,
    /// One document is done with its fault, nothing of it is left, and the other one is deployed.
    Unfit,
    /// The call ends, as one whose disk failed.
    Ended,
    Wrong,
}

/// How often each came: the artifact that could not be taken in, and the first call of the disk at which it could not.
#[derive(Clone, Copy, Debug, Drop, PartialEq, Eq)]
struct Tally {
    unfit: u64,
    first: u64,
}

/// A disk like that one, which fails these calls.
fn fused(alloc: Global, disk: &MemoryDisk, failing: &[u64]) -> Result<FusedDisk, Fail> {
    let failing = List::new(Vec::from_slice(alloc, failing)?);
    Ok(FusedDisk::new(disk.image(alloc, Pick::New)?, u64::MAX, failing))
}

/// What the call says over that disk.
fn serve(alloc: Global, disk: &mut FusedDisk, outside: &str) -> Result<String, Fail> {
    let asked = Asked {
        recipes: RECIPES,
        command: "serve --turns 3",
        documents: DOCUMENTS,
        outside,
    };
    call(alloc, disk, asked)
}

fn outcome_of(said: &str, left: &[u8]) -> Outcome {
    if said == PLAIN {
        return Outcome::Unreached;
    }
    if said == UNFIT && left.is_empty() || said == SECOND_UNFIT {
        return Outcome::Unfit;
    }
    if said.starts_with("5|") {
        return Outcome::Ended;
    }
    Outcome::Wrong
}

/// What comes of the call over that disk.
fn outcome_over(alloc: Global, disk: &mut FusedDisk) -> Result<Outcome, Fail> {
    let said = serve(alloc, disk, "1 0 0")?;
    let outcome = outcome_of(said.as_str(), disk.disk().file(FILE));
    drop(said);
    Ok(outcome)
}

/// What comes of it where that call of the disk fails.
fn outcome_at(alloc: Global, store: &MemoryDisk, number: u64) -> Result<Outcome, Fail> {
    let mut disk = fused(alloc, store, &[number])?;
    let outcome = outcome_over(alloc, &mut disk);
    drop(disk);
    outcome
}

/// The outcomes of all calls of the disk, or none where something else comes.
fn tally_of(alloc: Global, store: &MemoryDisk) -> Result<Option<Tally>, Fail> {
    let mut tally = Tally { unfit: 0, first: 0 };
    for number in 0..MOST_CALLS {
        match outcome_at(alloc, store, number)? {
            Outcome::Unreached => return Ok(Some(tally)),
            Outcome::Unfit => {
                if tally.unfit == 0 {
                    tally.first = number;
                }
                tally.unfit = tally.unfit.saturating_add(1);
            }
            Outcome::Ended => {}
            Outcome::Wrong => return Ok(None),
        }
    }
    Ok(None)
}

/// Whether the call ends with 5 where the artifact could not be taken in and that later call of the disk fails too.
fn is_unswept(alloc: Global, store: &MemoryDisk, first: u64, later: u64) -> Result<bool, Fail> {
    let mut disk = fused(alloc, store, &[first, later])?;
    let said = serve(alloc, &mut disk, "1 0 0");
    drop(disk);
    let said = said?;
    let is_unswept = said.as_str() == UNSWEPT;
    drop(said);
    Ok(is_unswept)
}

/// Whether some later call does that.
fn ends_unswept(alloc: Global, store: &MemoryDisk, first: u64) -> Result<bool, Fail> {
    for later in first.saturating_add(1)..MOST_CALLS {
        if is_unswept(alloc, store, first, later)? {
            return Ok(true);
        }
    }
    Ok(false)
}

/// A store with K.
fn store(alloc: Global) -> Result<MemoryDisk, Fail> {
    let mut disk = begin(alloc)?;
    let asked = Asked {
        recipes: RECIPES,
        command: "serve --turns 2",
        documents: FIRST,
        outside: "",
    };
    match call(alloc, &mut disk, asked) {
        Ok(said) => {
            drop(said);
            Ok(disk)
        }
        Err(fault) => {
            drop(disk);
            Err(fault)
        }
    }
}

/// How often an artifact could not be taken in, and whether the call ended where it could not be swept either.
fn faults_over(alloc: Global, store: &MemoryDisk) -> Result<Option<(u64, bool)>, Fail> {
    match tally_of(alloc, store)? {
        Some(tally) => Ok(Some((tally.unfit, ends_unswept(alloc, store, tally.first)?))),
        None => Ok(None),
    }
}

/// What the call says where that call of the library fails.
fn unread_at(alloc: Global, store: &MemoryDisk, outside: &str) -> Result<String, Fail> {
    let mut disk = fused(alloc, store, &[])?;
    let said = serve(alloc, &mut disk, outside);
    drop(disk);
    said
}

/// How the library fails, and children end.
fn failing_library(alloc: Global, number: u64) -> Result<String, AllocError> {
    format!(in alloc; "1 0 0,library {number}")
}

/// Whether the library was not called so often, or that it failed is a line.
fn is_line(said: &str) -> Option<bool> {
    if said == PLAIN {
        return Some(false);
    }
    if said == UNREAD[0] || said == UNREAD[1] {
        return Some(true);
    }
    None
}

/// The same of that call of the library.
fn is_line_at(alloc: Global, store: &MemoryDisk, number: u64) -> Result<Option<bool>, Fail> {
    let outside = failing_library(alloc, number)?;
    let said = unread_at(alloc, store, outside.as_str());
    drop(outside);
    let said = said?;
    let line = is_line(said.as_str());
    drop(said);
    Ok(line)
}

/// How many calls of the library fail with a line, or none where something else comes.
fn library_lines(alloc: Global, store: &MemoryDisk) -> Result<Option<u64>, Fail> {
    for number in 0..MOST_CALLS {
        match is_line_at(alloc, store, number)? {
            Some(true) => {}
            Some(false) => return Ok(Some(number)),
            None => return Ok(None),
        }
    }
    Ok(None)
}

#[test]
fn an_artifact_that_does_not_fit_is_a_line(rt: HostRuntime) -> Result<(), Fail> {
    let store = store(rt.alloc())?;
    let faults = faults_over(rt.alloc(), &store);
    drop(store);
    match faults? {
        Some((unfit, ends_unswept)) => {
            assert!(rt; unfit > 0);
            assert!(rt; ends_unswept);
        }
        None => assert!(rt; false),
    }
    Ok(())
}

#[test]
fn a_library_that_fails_is_a_line(rt: HostRuntime) -> Result<(), Fail> {
    let store = store(rt.alloc())?;
    let lines = library_lines(rt.alloc(), &store);
    drop(store);
    match lines? {
        Some(lines) => assert!(rt; lines > 0),
        None => assert!(rt; false),
    }
    Ok(())
}
