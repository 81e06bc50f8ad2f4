// Certificates that the top call prints: of a large library, and where the sink fails.
use crate::calls;
use crate::plans::{holding, is_row, library_of, source_of};
use disk_model::MemoryDisk;
use edges::MemorySource;
use library_core::MemoryLibrary;
use std::alloc::{AllocError, Global};
use std::process::Abort;
use std::test::Fail;

const WHY: &str = "nucleus --root /gg why";

/// What is printed of the library below: the clash alone, and none of the names beside it.
const CLASH: &str =
    "3|split z 1;  try z 1.0.0;    split y 1;      try y 1.0.0;        refused y 1.0.0 by z 1.0.0;";

/// Forty names of four versions each, beside one that needs what does not exist.
fn clash_row(alloc: Global) -> Result<String, AllocError> {
    let mut recipes = String::from_str(alloc, "y 1.0.0;z 1.0.0 y ^2")?;
    let mut roots = String::from_str(alloc, r#""z":{"componentVersion":"*"}"#)?;
    for number in 0..40u32 {
        let root = format!(in alloc; r#","a{number:02}":{{"componentVersion":"*"}}"#)?;
        roots.push_str(root.as_str())?;
        for version in 1..5u32 {
            let recipe = format!(in alloc; ";a{number:02} {version}.0.0")?;
            recipes.push_str(recipe.as_str())?;
        }
    }
    format!(in alloc;
        r#"genesis|{recipes}|{{"deploymentId":"d1","targetArn":"g","components":{{{roots}}}}}|{CLASH}"#
    )
}

fn is_clash(alloc: Global) -> Result<bool, Fail> {
    let row = clash_row(alloc)?;
    let is_right = is_row(alloc, WHY, row.as_str());
    drop(row);
    is_right
}

/// Where a plain certificate would have 4 ^ 40 lines, the clash is told in five.
fn names_without_part_are_left_out(rt: &impl Abort, alloc: Global) -> Result<(), Fail> {
    assert!(rt; is_clash(alloc)?);
    Ok(())
}

#[test]
fn a_late_clash_has_a_small_certificate(rt: HostRuntime) -> Result<(), Fail> {
    let alloc = rt.alloc();
    names_without_part_are_left_out(&rt, alloc)
}

/// The journal of a new store.
const NEW: &[u8] =
    b"\x01\0\0\0\x2a\x11\0\0\0\x03/gg\0\0\0\x02t1\0\0\0\x062.12.0\0\0\0\x05linux\0\0\0\x05amd64\0";

/// The one `B` does not fit.
const RECIPES: &str = "A 1.0.0 B ^2;B 1.0.0";

const DOCUMENT: &str =
    r#"{"deploymentId":"d1","targetArn":"g","components":{"A":{"componentVersion":"*"}}}"#;

const WHOLE: &str =
    "3|split A 1;  try A 1.0.0;    split B 1;      try B 1.0.0;        refused B 1.0.0 by A 1.0.0;";

/// What is printed of these where the sink fails this call.
fn told_from(
    alloc: Global,
    disk: &mut MemoryDisk,
    library: &mut MemoryLibrary,
    source: &mut MemorySource,
    failing: u64,
) -> Result<String, Fail> {
    calls::answer_to(alloc, WHY, disk, library, source, &[failing])
}

fn told_over(
    alloc: Global,
    disk: &mut MemoryDisk,
    library: &mut MemoryLibrary,
    failing: u64,
) -> Result<String, Fail> {
    let mut source = source_of(alloc, DOCUMENT, &[])?;
    let text = told_from(alloc, disk, library, &mut source, failing);
    drop(source);
    text
}

fn told_by(alloc: Global, disk: &mut MemoryDisk, failing: u64) -> Result<String, Fail> {
    let mut library = library_of(alloc, RECIPES, &[])?;
    let text = told_over(alloc, disk, &mut library, failing);
    drop(library);
    text
}

fn told(alloc: Global, failing: u64) -> Result<String, Fail> {
    let mut disk = holding(alloc, NEW)?;
    let text = told_by(alloc, &mut disk, failing);
    drop(disk);
    text
}

/// Whether the text is cut off with status 6, and is a prefix of the certificate.
fn is_prefix(text: &str) -> bool {
    match (text.strip_prefix("6|"), WHOLE.strip_prefix("3|")) {
        (Some(prefix), Some(whole)) => whole.starts_with(prefix),
        _ => false,
    }
}

/// Whether the certificate is told whole.
fn is_whole(rt: &impl Abort, alloc: Global, failing: u64) -> Result<bool, Fail> {
    let text = told(alloc, failing)?;
    let is_told = text.as_str() == WHOLE;
    assert!(rt; is_told || is_prefix(text.as_str()), "{text}");
    drop(text);
    Ok(is_told)
}

#[test]
fn a_certificate_may_be_cut_off(rt: HostRuntime) -> Result<(), Fail> {
    for failing in 0..64u64 {
        if is_whole(&rt, rt.alloc(), failing)? {
            // Where no call of the sink succeeds nothing is told.
            assert!(rt; failing >= 1);
            return Ok(());
        }
    }
    assert!(rt; false, "the certificate does not end");
    Ok(())
}
