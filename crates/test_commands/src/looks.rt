// What the program, its store and its components are, by the top call over stores in memory.
use crate::calls::answer;
use crate::plans::{holding, is_row, library_of, source_of};
use disk_model::{Disk, DiskFault, MemoryDisk};
use std::alloc::Global;
use std::test::Fail;

/// Each line has the words behind the root, the records of a journal, recipes and a document, which are not looked at, the
/// status, and what is printed, with `;` for each line feed. The entry of a start takes 47 bytes, and that of an activation 6.
const ROWS: &str = "\
components --json|genesis|X 1.0.0||1|usage: nucleus --root DIR COMMAND [OPTIONS];
components||X 1.0.0||8|refused 8 NotInitialised;
components|activate|X 1.0.0||9|refused 9 Damaged 0;
components|genesis|X 1.0.0||0|
components|genesis gc activate close|X 1.0.0||0|component C 1.0.0 STOPPED;
components|genesis d5|X 1.0.0||0|
about --seed 1|genesis|X 1.0.0||1|usage: nucleus --root DIR COMMAND [OPTIONS];
about||X 1.0.0||0|program 1.0.0;format 1;
about|genesis|X 1.0.0||0|program 1.0.0;format 1;root /gg;thing t1;os linux;arch amd64;nucleus 2.12.0;\
records 1;closed 0 of 131072;groups 0 of 512;
about|genesis gc activate close|X 1.0.0||0|program 1.0.0;format 1;root /gg;thing t1;os linux;arch amd64;nucleus 2.12.0;\
records 4;closed 1 of 131072;groups 1 of 512;
about|genesis d5|X 1.0.0||0|program 1.0.0;format 1;root /gg;thing t1;os linux;arch amd64;nucleus 2.12.0;\
records 2;closed 0 of 131072;groups 0 of 512;
about|activate|X 1.0.0||9|program 1.0.0;format 1;refused 9 Damaged 0;
about|genesis activate|X 1.0.0||9|program 1.0.0;format 1;refused 9 Damaged 47;
about|genesis newer close|X 1.0.0||9|program 1.0.0;format 1;refused 9 Damaged 47;unknown record 7f at 47;
about|genesis activate newer|X 1.0.0||9|program 1.0.0;format 1;refused 9 Damaged 47;unknown record 7f at 53;";

fn is_look(alloc: Global, line: &str) -> Result<bool, Fail> {
    let Some((words, row)) = line.split_once('|') else {
        return Ok(false);
    };
    let words = format!(in alloc; "nucleus --root /gg {words}")?;
    let is_right = is_row(alloc, words.as_str(), row);
    drop(words);
    is_right
}

/// The first line of which something else comes, or none.
fn first_wrong(alloc: Global) -> Result<&'static str, Fail> {
    for line in ROWS.lines() {
        if !is_look(alloc, line)? {
            return Ok(line);
        }
    }
    Ok("")
}

#[test]
fn a_store_is_looked_at(rt: HostRuntime) -> Result<(), Fail> {
    assert_eq!(rt; first_wrong(rt.alloc())?, "");
    Ok(())
}

/// What a program that runs a component says of it.
const VIEW: &[u8] =
    b"serving 7 2026-12-01T00:00:00.000Z\ncomponent C 1.0.0 RUNNING 0 2026-12-01T00:00:01.000Z\n";

/// The same as it is printed, behind the status.
const VIEWED: &str =
    "0|serving 7 2026-12-01T00:00:00.000Z;component C 1.0.0 RUNNING 0 2026-12-01T00:00:01.000Z;";

const NONE: &str = "8|refused 8 NotInitialised;";

/// Writes what a program says, and whether it still holds the lock.
fn run_by(disk: &mut MemoryDisk, view: &[u8], has_writer: bool) -> Result<(), DiskFault> {
    disk.write_at("running", 0, view)?;
    disk.set_writer(has_writer);
    Ok(())
}

/// Whether `components` over this disk prints this.
fn lists(alloc: Global, disk: &mut MemoryDisk, want: &str) -> Result<bool, Fail> {
    let mut library = library_of(alloc, "X 1.0.0", &[])?;
    let mut source = source_of(alloc, "", &[])?;
    let text = answer(
        alloc,
        "nucleus --root /gg components",
        disk,
        &mut library,
        &mut source,
    );
    drop(source);
    drop(library);
    let text = text?;
    let is_right = text.as_str() == want;
    drop(text);
    Ok(is_right)
}

/// The same of a disk without a store, with this view of a program that holds the lock or not.
fn lists_by(alloc: Global, view: &[u8], has_writer: bool, want: &str) -> Result<bool, Fail> {
    let mut disk = holding(alloc, b"")?;
    let is_right = match run_by(&mut disk, view, has_writer) {
        Ok(()) => lists(alloc, &mut disk, want),
        Err(fault) => Err(fault.into()),
    };
    drop(disk);
    is_right
}

#[test]
fn components_are_told_by_who_runs_them(rt: HostRuntime) -> Result<(), Fail> {
    let alloc = rt.alloc();
    assert!(rt; lists_by(alloc, VIEW, true, VIEWED)?);
    assert!(rt; lists_by(alloc, VIEW, false, NONE)?);
    assert!(rt; lists_by(alloc, b"", true, NONE)?);
    assert!(rt; lists_by(alloc, b"\xff", true, NONE)?);
    Ok(())
}
