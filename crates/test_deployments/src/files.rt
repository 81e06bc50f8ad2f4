// The file of a component: one that the library has or lacks, and digests that recipes give.
use disk_model::MemoryDisk;
use library_core::MemoryLibrary;
use nuc_base::List;
use std::alloc::Global;
use std::process::Abort;
use std::test::Fail;
use test_calls::{answer_alone, begin, files_of, recipes_of};

/// A component with one file: without a digest, with the SHA-256 of `abc` in both spellings, and with that of no bytes (FIPS
/// 180-4).
const PLAIN: &str = concat!(
    r#"{"RecipeFormatVersion":"2020-01-25","ComponentName":"com.x","ComponentVersion":"1.0.0","#,
    r#""Manifests":[{"Lifecycle":{"run":"s"},"Artifacts":[{"URI":"s3://b/f"}]}]}"#
);

const GIVEN: &str = concat!(
    r#"{"RecipeFormatVersion":"2020-01-25","ComponentName":"com.x","ComponentVersion":"1.0.0","Manifests":[{"Lifecycle":{"run":"s"},"#,
    r#""Artifacts":[{"URI":"s3://b/f","Digest":"ungWv48Bz+pBQUDeXa4iI7ADYaOWF3qctBD/YfIAFa0="}]}]}"#
);

const SPELLED: &str = concat!(
    r#"{"RecipeFormatVersion":"2020-01-25","ComponentName":"com.x","ComponentVersion":"1.0.0","Manifests":[{"Lifecycle":{"run":"s"},"#,
    r#""Artifacts":[{"URI":"s3://b/f","Digest":"ba7816bf8f01cfea414140de5dae2223b00361a396177a9cb410ff61f20015ad"}]}]}"#
);

const OTHER: &str = concat!(
    r#"{"RecipeFormatVersion":"2020-01-25","ComponentName":"com.x","ComponentVersion":"1.0.0","Manifests":[{"Lifecycle":{"run":"s"},"#,
    r#""Artifacts":[{"URI":"s3://b/f","Digest":"e3b0c44298fc1c149afbf4c8996fb92427ae41e4649b934ca495991b7852b855"}]}]}"#
);

const FILE: &str = "packages/artifacts/com.x/1.0.0/f";

const DOCUMENT: &str =
    r#"{"deploymentId":"d1","targetArn":"g","components":{"com.x":{"componentVersion":"^1"}}}"#;

const CLOSED: &str = "0|accepted d1;closed d1 SUCCESSFUL;";

const MISSING: &str = "13|refused 13 Missing com.x/1.0.0/f;";

const MISMATCH: &str =
    "13|refused 13 Mismatch com.x/1.0.0/f ba7816bf8f01cfea414140de5dae2223b00361a396177a9cb410ff61f20015ad;";

/// A library of this recipe, and of the bytes `abc` as the component's file or of no file.
fn library_of(alloc: Global, recipe: &str, has_file: bool) -> Result<MemoryLibrary, Fail> {
    let recipes = recipes_of(alloc, recipe)?;
    let files = if has_file {
        files_of(alloc, b"com.x", b"f")?
    } else {
        List::empty(alloc)
    };
    Ok(MemoryLibrary::new(recipes, files, List::empty(alloc)))
}

/// Whether a call over that library prints this.
fn prints(
    alloc: Global,
    disk: &mut MemoryDisk,
    library: &mut MemoryLibrary,
    command: &str,
    want: &str,
) -> Result<bool, Fail> {
    let text = answer_alone(alloc, disk, library, command, DOCUMENT, &[])?;
    let is_wanted = text.as_str() == want;
    drop(text);
    Ok(is_wanted)
}

/// The same of a call over a library that is made for it.
fn says(
    alloc: Global,
    disk: &mut MemoryDisk,
    held: (&str, bool),
    command: &str,
    want: &str,
) -> Result<bool, Fail> {
    let mut library = library_of(alloc, held.0, held.1)?;
    let is_wanted = prints(alloc, disk, &mut library, command, want);
    drop(library);
    is_wanted
}

/// Whether `deploy` over that store prints this and leaves these bytes in the component's file, and what the next call leaves
/// there.
fn takes_in(
    alloc: Global,
    disk: &mut MemoryDisk,
    held: (&str, bool),
    lines: &str,
    file: &[u8],
    later: &[u8],
) -> Result<bool, Fail> {
    let is_said = says(alloc, disk, held, "deploy", lines)?;
    let is_left = disk.file(FILE) == file;
    let is_idle = says(alloc, disk, held, "resume", "0|idle;")?;
    let is_swept = disk.file(FILE) == later;
    Ok(is_said && is_idle && is_left && is_swept)
}

/// The same over a new store.
fn is_row(
    alloc: Global,
    recipe: &str,
    has_file: bool,
    lines: &str,
    file: &[u8],
    later: &[u8],
) -> Result<bool, Fail> {
    let mut disk = begin(alloc)?;
    let is_right = takes_in(alloc, &mut disk, (recipe, has_file), lines, file, later);
    drop(disk);
    is_right
}

/// A file that agrees with its digest or has none is taken in.
fn files_that_agree(rt: &impl Abort, alloc: Global) -> Result<(), Fail> {
    assert!(rt; is_row(alloc, PLAIN, true, CLOSED, b"abc", b"abc")?);
    assert!(rt; is_row(alloc, GIVEN, true, CLOSED, b"abc", b"abc")?);
    assert!(rt; is_row(alloc, SPELLED, true, CLOSED, b"abc", b"abc")?);
    Ok(())
}

#[test]
fn files_are_taken_in_by_their_digests(rt: HostRuntime) -> Result<(), Fail> {
    let alloc = rt.alloc();
    files_that_agree(&rt, alloc)?;
    assert!(rt; is_row(alloc, PLAIN, false, MISSING, b"", b"")?);
    // A file that was taken in for a plan that is refused stays until it is swept.
    assert!(rt; is_row(alloc, OTHER, true, MISMATCH, b"abc", b"")?);
    Ok(())
}
