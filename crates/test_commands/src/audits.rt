// Files of artifacts compared by the top call, over stores in memory.
use crate::calls;
use disk_model::{Disk, DiskFault, MemoryDisk};
use edges::MemorySource;
use library_core::MemoryLibrary;
use nuc_base::{Bytes, List};
use std::alloc::Global;
use std::process::Abort;
use std::test::Fail;

const AUDIT: &str = "nucleus --root /gg audit";

/// A journal: a start, and a deployment `d1` of the component `com.x` 1.0.0 with the file `f`, which is kept with the digest
/// of the bytes `abc` (the first example of FIPS 180-2) and closed as successful.
const JOURNAL: &[u8] =
    b"\x01\0\0\0\x2a\x11\0\0\0\x03/gg\0\0\0\x02t1\0\0\0\x062.12.0\0\0\0\x05linux\0\0\0\x05amd64\x01\0\0\0\xf4\x12\0\0\0\x02d1\0\0\0\x01g\0\0\0\0\x01\0\0\0\
    \x05com.x\0\0\0\x01*\0\0\0\x01\0\0\0\x05com.x\0\0\0\x051.0.0\0\0\0\x88{\"RecipeFormatVersion\":\"2020-01-25\",\"ComponentName\":\"com.x\",\
    \"ComponentVersion\":\"1.0.0\",\"Manifests\":[{\"Artifacts\":[{\"URI\":\"s3://b/f\"}]}]}\0\0\0\x02{}\0\0\0\x01\0\0\0\x01f\xba\x78\x16\xbf\x8f\x01\xcf\xea\
    \x41\x41\x40\xde\x5d\xae\x22\x23\xb0\x03\x61\xa3\x96\x17\x7a\x9c\xb4\x10\xff\x61\xf2\x00\x15\xad\0\0\0\0\x01\0\0\0\x01\x15\x01\0\0\0\x02\x18\x01\0";

const FILE: &str = "packages/artifacts/com.x/1.0.0/f";

/// The digest of no bytes.
const EMPTY: &str =
    "20|refused 20 Differs com.x/1.0.0/f e3b0c44298fc1c149afbf4c8996fb92427ae41e4649b934ca495991b7852b855;";

/// The digest of the bytes `abd`.
const OTHER: &str =
    "20|refused 20 Differs com.x/1.0.0/f a52d159f262b2c6ddb724a61840befc36eb30c88877a4030b65cbe86298449c9;";

/// Writes this journal and this file.
fn hold(disk: &mut MemoryDisk, journal: &[u8], file: &[u8]) -> Result<(), DiskFault> {
    disk.write_at("journal", 0, journal)?;
    disk.sync("journal")?;
    disk.write_at(FILE, 0, file)?;
    disk.sync(FILE)
}

/// A disk that holds them.
fn holding(alloc: Global, journal: &[u8], file: &[u8]) -> Result<MemoryDisk, Fail> {
    let mut disk = MemoryDisk::new(alloc);
    match hold(&mut disk, journal, file) {
        Ok(()) => Ok(disk),
        Err(fault) => {
            drop(disk);
            Err(fault.into())
        }
    }
}

/// The status and what is printed, with `;` for each line feed.
fn answer(alloc: Global, disk: &mut MemoryDisk) -> Result<String, Fail> {
    let mut source = MemorySource::new(Bytes::empty(alloc), List::empty(alloc));
    let mut library = MemoryLibrary::new(
        List::empty(alloc),
        List::empty(alloc),
        List::empty(alloc),
    );
    let text = calls::answer(alloc, AUDIT, disk, &mut library, &mut source);
    drop(library);
    drop(source);
    text
}

/// Whether the audit answers and prints this.
fn prints(alloc: Global, disk: &mut MemoryDisk, want: &str) -> Result<bool, Fail> {
    let text = answer(alloc, disk)?;
    let is_wanted = text.as_str() == want;
    drop(text);
    Ok(is_wanted)
}

/// Whether the audit over this journal and this file answers and prints this, and leaves both.
fn answers(alloc: Global, journal: &[u8], file: &[u8], want: &str) -> Result<bool, Fail> {
    let mut disk = holding(alloc, journal, file)?;
    let is_wanted = prints(alloc, &mut disk, want);
    let is_left = disk.file("journal") == journal && disk.file(FILE) == file;
    drop(disk);
    Ok(is_wanted? && is_left)
}

/// Audits of a store whose file is whole, is empty, or has other bytes.
fn files_are_compared(rt: &impl Abort, alloc: Global) -> Result<(), Fail> {
    assert!(rt; answers(alloc, JOURNAL, b"abc", "0|whole;")?);
    assert!(rt; answers(alloc, JOURNAL, b"", EMPTY)?);
    assert!(rt; answers(alloc, JOURNAL, b"abd", OTHER)?);
    Ok(())
}

#[test]
fn a_file_that_differs_is_named(rt: HostRuntime) -> Result<(), Fail> {
    let alloc = rt.alloc();
    files_are_compared(&rt, alloc)?;
    assert!(rt; answers(alloc, b"", b"abc", "8|refused 8 NotInitialised;")?);
    assert!(rt; answers(alloc, &JOURNAL[..40], b"abc", "9|refused 9 Damaged 0;")?);
    Ok(())
}
