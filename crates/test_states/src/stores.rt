// Stores whose journals hold records that are named.
use disk_model::{Disk, DiskFault, MemoryDisk};
use std::alloc::Global;
use std::test::Fail;
use test_support::journal_of;

/// Records by names, each as the bytes that the journal holds of it.
const RECORDS: &[(&str, &[u8])] = &[
    (
        "genesis",
        b"\x11\0\0\0\x03/gg\0\0\0\x02t1\0\0\0\x062.12.0\0\0\0\x05linux\0\0\0\x05amd64",
    ),
    // A plan of nothing.
    (
        "plan",
        b"\x12\0\0\0\x02d9\0\0\0\x01g\0\0\0\0\0\0\0\0\0\0\0\0\0",
    ),
    // A component `a`, of which a failure is rolled back, one more of the kind, and one that stays as it is where it fails.
    (
        "bare",
        b"\x12\0\0\0\x02d0\0\0\0\x01g\0\0\0\0\0\0\0\0\x01\0\0\0\x01a\0\0\0\x051.0.0\0\0\0\x81{\"RecipeFormatVersion\":\"2020-01-25\",\"ComponentName\":\"a\",\
        \"ComponentVersion\":\"1.0.0\",\"Manifests\":[{\"Lifecycle\":{\"bootstrap\":\"s\"}}]}\0\0\0\x02{}\0\0\0\0\0\0\0\0",
    ),
    (
        "bare-again",
        b"\x12\0\0\0\x02d1\0\0\0\x01g\0\0\0\0\0\0\0\0\x01\0\0\0\x01a\0\0\0\x051.0.0\0\0\0\x81{\"RecipeFormatVersion\":\"2020-01-25\",\"ComponentName\":\"a\",\
        \"ComponentVersion\":\"1.0.0\",\"Manifests\":[{\"Lifecycle\":{\"bootstrap\":\"s\"}}]}\0\0\0\x02{}\0\0\0\0\0\0\0\0",
    ),
    (
        "bare-keep",
        b"\x12\0\0\0\x02d1\0\0\0\x01g\x01\0\0\0\0\0\0\0\x01\0\0\0\x01a\0\0\0\x051.0.0\0\0\0\x81{\"RecipeFormatVersion\":\"2020-01-25\",\
        \"ComponentName\":\"a\",\"ComponentVersion\":\"1.0.0\",\"Manifests\":[{\"Lifecycle\":{\"bootstrap\":\"s\"}}]}\0\0\0\x02{}\0\0\0\0\0\0\0\0",
    ),
    // A bootstrap step of the component `a`, and one that stays as it is where it fails.
    (
        "boots",
        b"\x12\0\0\0\x02d1\0\0\0\x01g\0\0\0\0\0\0\0\0\x01\0\0\0\x01a\0\0\0\x051.0.0\0\0\0\x81{\"RecipeFormatVersion\":\"2020-01-25\",\"ComponentName\":\"a\",\
        \"ComponentVersion\":\"1.0.0\",\"Manifests\":[{\"Lifecycle\":{\"bootstrap\":\"s\"}}]}\0\0\0\x02{}\0\0\0\0\0\0\0\x01\0\0\0\x01a",
    ),
    (
        "boots-keep",
        b"\x12\0\0\0\x02d1\0\0\0\x01g\x01\0\0\0\0\0\0\0\x01\0\0\0\x01a\0\0\0\x051.0.0\0\0\0\x81{\"RecipeFormatVersion\":\"2020-01-25\",\
        \"ComponentName\":\"a\",\"ComponentVersion\":\"1.0.0\",\"Manifests\":[{\"Lifecycle\":{\"bootstrap\":\"s\"}}]}\0\0\0\x02{}\0\0\0\0\0\0\0\x01\0\0\0\x01a",
    ),
    // The bootstrap step of `a` runs again on the way back.
    (
        "back",
        b"\x12\0\0\0\x02d0\0\0\0\x01g\0\0\0\0\0\0\0\0\x01\0\0\0\x01a\0\0\0\x051.0.0\0\0\0\xa7{\"RecipeFormatVersion\":\"2020-01-25\",\"ComponentName\":\"a\",\
        \"ComponentVersion\":\"1.0.0\",\"Manifests\":[{\"Lifecycle\":{\"bootstrap\":{\"Script\":\"s\",\"BootstrapOnRollback\":true}}}]}\0\0\0\x02{}\0\0\0\0\0\
        \0\0\0",
    ),
    // Two bootstrap steps, of `a` and `b`.
    (
        "two",
        b"\x12\0\0\0\x02d5\0\0\0\x01g\0\0\0\0\x01\0\0\0\x01a\0\0\0\x01*\0\0\0\x02\0\0\0\x01a\0\0\0\x051.0.0\0\0\0\x81{\"RecipeFormatVersion\":\"2020-01-25\",\
        \"ComponentName\":\"a\",\"ComponentVersion\":\"1.0.0\",\"Manifests\":[{\"Lifecycle\":{\"bootstrap\":\"s\"}}]}\0\0\0\x02{}\0\0\0\0\0\0\0\x01b\0\0\0\
        \x051.0.0\0\0\0\x81{\"RecipeFormatVersion\":\"2020-01-25\",\"ComponentName\":\"b\",\"ComponentVersion\":\"1.0.0\",\
        \"Manifests\":[{\"Lifecycle\":{\"bootstrap\":\"s\"}}]}\0\0\0\x02{}\0\0\0\0\0\0\0\x02\0\0\0\x01a\0\0\0\x01b",
    ),
    ("begin-a", b"\x13\0\0\0\x01a"),
    ("end-a-100", b"\x14\0\0\0\x01a\0\0\0\0d"),
    ("end-a-1", b"\x14\0\0\0\x01a\0\0\0\0\x01"),
    ("begin-b", b"\x13\0\0\0\x01b"),
    ("end-b-0", b"\x14\0\0\0\x01b\0\0\0\0\0"),
    ("activate", b"\x15"),
    ("failing-back-a", b"\x1f\0\0\0\x01a"),
    ("close", b"\x18\x01"),
];

/// The bytes of the record with this name, or none.
pub(crate) fn record_named(name: &str) -> &'static [u8] {
    test_support::record_named(RECORDS, name)
}

/// Writes a journal of these bytes.
fn hold(disk: &mut MemoryDisk, journal: &[u8]) -> Result<(), DiskFault> {
    disk.write_at("journal", 0, journal)?;
    disk.sync("journal")
}

/// A disk with a journal of these records, all stable.
pub(crate) fn disk_of(alloc: Global, history: &str) -> Result<MemoryDisk, Fail> {
    let journal = journal_of(alloc, RECORDS, history)?;
    let mut disk = MemoryDisk::new(alloc);
    let held = hold(&mut disk, &journal);
    drop(journal);
    match held {
        Ok(()) => Ok(disk),
        Err(fault) => {
            drop(disk);
            Err(fault.into())
        }
    }
}
