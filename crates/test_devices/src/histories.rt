ghost use Rattle.std.specs.Prelude.{IfOk, IfSome};
ghost use Rattle.device.specs.Devices.{device_view};
ghost use Rattle.device.specs.Sound.{IsSound};

use device::{ApplyFault, Device, ReplayFault, replay};
use disk_model::{Disk, MemoryDisk};
use gate_log::{FindFault, Journal, Log};
use records::Record;
use std::alloc::Global;
use std::test::Fail;
use test_support::push_entry;

/// Records by names for the tables below, each as the bytes that the journal holds of it.
const RECORDS: &[(&str, &[u8])] = &[
    (
        "genesis",
        b"\x11\0\0\0\x03/gg\0\0\0\x02t1\0\0\0\x062.12.0\0\0\0\x05linux\0\0\0\x05amd64",
    ),
    (
        "first",
        b"\x12\0\0\0\x02d0\0\0\0\x01g\0\0\0\0\0\0\0\0\x01\0\0\0\x01a\0\0\0\x051.0.0\0\0\0\x81{\"RecipeFormatVersion\":\"2020-01-25\",\"ComponentName\":\"a\",\
        \"ComponentVersion\":\"1.0.0\",\"Manifests\":[{\"Lifecycle\":{\"bootstrap\":\"s\"}}]}\0\0\0\x02{}\0\0\0\0\0\0\0\0",
    ),
    (
        "boots",
        b"\x12\0\0\0\x02d1\0\0\0\x01g\0\0\0\0\x01\0\0\0\x01a\0\0\0\x01*\0\0\0\x02\0\0\0\x01a\0\0\0\x051.0.0\0\0\0\x81{\"RecipeFormatVersion\":\"2020-01-25\",\
        \"ComponentName\":\"a\",\"ComponentVersion\":\"1.0.0\",\"Manifests\":[{\"Lifecycle\":{\"bootstrap\":\"s\"}}]}\0\0\0\x02{}\0\0\0\0\0\0\0\x01b\0\0\0\
        \x051.0.0\0\0\0\x81{\"RecipeFormatVersion\":\"2020-01-25\",\"ComponentName\":\"b\",\"ComponentVersion\":\"1.0.0\",\
        \"Manifests\":[{\"Lifecycle\":{\"bootstrap\":\"s\"}}]}\0\0\0\x02{}\0\0\0\0\0\0\0\x02\0\0\0\x01b\0\0\0\x01a",
    ),
    (
        "boots-keep",
        b"\x12\0\0\0\x02d1\0\0\0\x01g\x01\0\0\0\0\0\0\0\x02\0\0\0\x01a\0\0\0\x051.0.0\0\0\0\x81{\"RecipeFormatVersion\":\"2020-01-25\",\
        \"ComponentName\":\"a\",\"ComponentVersion\":\"1.0.0\",\"Manifests\":[{\"Lifecycle\":{\"bootstrap\":\"s\"}}]}\0\0\0\x02{}\0\0\0\0\0\0\0\x01b\0\0\0\
        \x051.0.0\0\0\0\x81{\"RecipeFormatVersion\":\"2020-01-25\",\"ComponentName\":\"b\",\"ComponentVersion\":\"1.0.0\",\
        \"Manifests\":[{\"Lifecycle\":{\"bootstrap\":\"s\"}}]}\0\0\0\x02{}\0\0\0\0\0\0\0\x02\0\0\0\x01b\0\0\0\x01a",
    ),
    (
        "bare",
        b"\x12\0\0\0\x02d1\0\0\0\x01g\0\0\0\0\0\0\0\0\x02\0\0\0\x01a\0\0\0\x051.0.0\0\0\0\x81{\"RecipeFormatVersion\":\"2020-01-25\",\"ComponentName\":\"a\",\
        \"ComponentVersion\":\"1.0.0\",\"Manifests\":[{\"Lifecycle\":{\"bootstrap\":\"s\"}}]}\0\0\0\x02{}\0\0\0\0\0\0\0\x01b\0\0\0\x051.0.0\0\0\0\x81{\"Recip\
        eFormatVersion\":\"2020-01-25\",\"ComponentName\":\"b\",\"ComponentVersion\":\"1.0.0\",\"Manifests\":[{\"Lifecycle\":{\"bootstrap\":\"s\"}}]}\0\0\0\
        \x02{}\0\0\0\0\0\0\0\0",
    ),
    (
        "bare-keep",
        b"\x12\0\0\0\x02d1\0\0\0\x01g\x01\0\0\0\0\0\0\0\x02\0\0\0\x01a\0\0\0\x051.0.0\0\0\0\x81{\"RecipeFormatVersion\":\"2020-01-25\",\
        \"ComponentName\":\"a\",\"ComponentVersion\":\"1.0.0\",\"Manifests\":[{\"Lifecycle\":{\"bootstrap\":\"s\"}}]}\0\0\0\x02{}\0\0\0\0\0\0\0\x01b\0\0\0\
        \x051.0.0\0\0\0\x81{\"RecipeFormatVersion\":\"2020-01-25\",\"ComponentName\":\"b\",\"ComponentVersion\":\"1.0.0\",\
        \"Manifests\":[{\"Lifecycle\":{\"bootstrap\":\"s\"}}]}\0\0\0\x02{}\0\0\0\0\0\0\0\0",
    ),
    (
        "other",
        b"\x12\0\0\0\x02d2\0\0\0\x01h\0\0\0\0\0\0\0\0\x01\0\0\0\x01b\0\0\0\x051.0.0\0\0\0\x81{\"RecipeFormatVersion\":\"2020-01-25\",\"ComponentName\":\"b\",\
        \"ComponentVersion\":\"1.0.0\",\"Manifests\":[{\"Lifecycle\":{\"bootstrap\":\"s\"}}]}\0\0\0\x02{}\0\0\0\0\0\0\0\0",
    ),
    (
        "again",
        b"\x12\0\0\0\x02d0\0\0\0\x01g\0\0\0\0\0\0\0\0\x01\0\0\0\x01b\0\0\0\x051.0.0\0\0\0\x81{\"RecipeFormatVersion\":\"2020-01-25\",\"ComponentName\":\"b\",\
        \"ComponentVersion\":\"1.0.0\",\"Manifests\":[{\"Lifecycle\":{\"bootstrap\":\"s\"}}]}\0\0\0\x02{}\0\0\0\0\0\0\0\0",
    ),
    (
        "back",
        b"\x12\0\0\0\x02d0\0\0\0\x01g\0\0\0\0\0\0\0\0\x01\0\0\0\x01a\0\0\0\x051.0.0\0\0\0\xa7{\"RecipeFormatVersion\":\"2020-01-25\",\"ComponentName\":\"a\",\
        \"ComponentVersion\":\"1.0.0\",\"Manifests\":[{\"Lifecycle\":{\"bootstrap\":{\"Script\":\"s\",\"BootstrapOnRollback\":true}}}]}\0\0\0\x02{}\0\0\0\0\0\
        \0\0\0",
    ),
    (
        "r5",
        b"\x1d\0\0\0\x02d5\0\0\0\x01g\0\0\0\0\0\0\0\x05\0\0\0\0\0\0\0\0\0\0\0\0\0",
    ),
    (
        "r4",
        b"\x1d\0\0\0\x02d4\0\0\0\x01g\0\0\0\0\0\0\0\x04\0\0\0\0\0\0\0\0\0\0\0\0\0",
    ),
    (
        "r0",
        b"\x12\0\0\0\x02d9\0\0\0\x01g\0\0\0\0\0\0\0\0\0\0\0\0\0",
    ),
    (
        "scoped",
        b"\x12\0\0\0\x02d1\0\0\0\x02g1\0\0\0\0\0\0\0\0\x04\0\0\0\x01a\0\0\0\x051.0.0\0\0\0\xaf{\"RecipeFormatVersion\":\"2020-01-25\",\
        \"ComponentName\":\"a\",\"ComponentVersion\":\"1.0.0\",\"ComponentDependencies\":{\"d\":{\"DependencyType\":\"SOFT\"},\
        \"b\":{\"VersionRequirement\":\"^1.0.0\"}}}\0\0\0\x09{\"x\":\"y\"}\0\0\0\0\0\0\0\x01b\0\0\0\x051.1.0\0\0\0\0\0\0\0\x07{\"n\":7}\0\0\0\0\0\0\0\x01c\0\
        \0\0\x051.0.0\0\0\0\0\0\0\0\x02{}\0\0\0\0\0\0\0\x01d\0\0\0\x053.0.0\0\0\0\0\0\0\0\x0c{\"l\":[true]}\0\0\0\0\0\0\0\0",
    ),
    ("failing-back-a", b"\x1f\0\0\0\x01a"),
    ("failing-back-b", b"\x1f\0\0\0\x01b"),
    (
        "turned",
        b"\x19\0\0\0\0\0\0\0\x02\0\0\0\x03/gg\0\0\0\x02t1\0\0\0\x062.12.0\0\0\0\x05linux\0\0\0\x05amd64\0\0\0\x01\0\0\0\0\0\0\0\x01",
    ),
    (
        "turned-group",
        b"\x19\0\0\0\0\0\0\0\x01\0\0\0\x03/gg\0\0\0\x02t1\0\0\0\x062.12.0\0\0\0\x05linux\0\0\0\x05amd64\0\0\0\x01\0\0\0\0\0\0\0\0",
    ),
    (
        "turned-0",
        b"\x19\0\0\0\0\0\0\0\0\0\0\0\x03/gg\0\0\0\x02t1\0\0\0\x062.12.0\0\0\0\x05linux\0\0\0\x05amd64\0\0\0\0\0\0\0\0\0\0\0\0",
    ),
    ("grouped", b"\x1a\0\0\0\x01g\0\0\0\0"),
    (
        "falling",
        b"\x1a\0\0\0\x01g\0\0\0\x02\0\0\0\x01b\0\0\0\x01*\0\0\0\x01a\0\0\0\x01*",
    ),
    ("junk", b"\x99"),
    ("ended", b"\x1c\0\0\0\x01x\x01"),
    ("begin-a", b"\x13\0\0\0\x01a"),
    ("begin-b", b"\x13\0\0\0\x01b"),
    ("begin-c", b"\x13\0\0\0\x01c"),
    ("end-a-0", b"\x14\0\0\0\x01a\0\0\0\0\0"),
    ("end-a-100", b"\x14\0\0\0\x01a\0\0\0\0d"),
    ("end-a-101", b"\x14\0\0\0\x01a\0\0\0\0e"),
    ("end-a-1", b"\x14\0\0\0\x01a\0\0\0\0\x01"),
    ("end-a-signal", b"\x14\0\0\0\x01a\x01"),
    ("end-a-timeout", b"\x14\0\0\0\x01a\x02"),
    ("end-a-notstarted", b"\x14\0\0\0\x01a\x03"),
    ("end-a-lost", b"\x14\0\0\0\x01a\x04"),
    ("end-b-0", b"\x14\0\0\0\x01b\0\0\0\0\0"),
    ("end-b-100", b"\x14\0\0\0\x01b\0\0\0\0d"),
    ("end-b-101", b"\x14\0\0\0\x01b\0\0\0\0e"),
    ("end-b-1", b"\x14\0\0\0\x01b\0\0\0\0\x01"),
    ("end-b-signal", b"\x14\0\0\0\x01b\x01"),
    ("end-b-timeout", b"\x14\0\0\0\x01b\x02"),
    ("end-b-notstarted", b"\x14\0\0\0\x01b\x03"),
    ("end-b-lost", b"\x14\0\0\0\x01b\x04"),
    ("activate", b"\x15"),
    ("fail-a-install", b"\x16\0\0\0\x01a\x01\0\0\0\0\x01"),
    ("fail-a-run", b"\x16\0\0\0\x01a\x02\0\0\0\0\x01"),
    ("fail-a-startup", b"\x16\0\0\0\x01a\x03\0\0\0\0\x01"),
    ("fail-a-shutdown", b"\x16\0\0\0\x01a\x04\0\0\0\0\x01"),
    ("fail-a-recover", b"\x16\0\0\0\x01a\x05\0\0\0\0\x01"),
    ("fail-a-bootstrap", b"\x16\0\0\0\x01a\x06\0\0\0\0\x01"),
    ("fail-a", b"\x16\0\0\0\x01a\x03\x04"),
    ("fail-b", b"\x16\0\0\0\x01b\x03\x04"),
    ("fail-c", b"\x16\0\0\0\x01c\x03\x04"),
    ("fail-a-code-0", b"\x16\0\0\0\x01a\x03\0\0\0\0\0"),
    ("failing-a", b"\x17\0\0\0\x01a"),
    ("failing-b", b"\x17\0\0\0\x01b"),
    ("failing-c", b"\x17\0\0\0\x01c"),
    ("close-successful", b"\x18\x01"),
    ("close-rolled", b"\x18\x02"),
    ("close-kept", b"\x18\x03"),
    ("close-unable", b"\x18\x04"),
];

/// Histories, and records that are lawful after them.
const LAWFUL: &[(&str, &str)] = &[
    ("", "genesis"),
    ("genesis", "first"),
    ("genesis first activate close-successful", "boots"),
    ("genesis first activate close-successful", "other"),
    ("genesis boots", "begin-b"),
    ("genesis boots begin-b end-b-0", "begin-a"),
    ("genesis boots begin-b", "end-b-0"),
    ("genesis boots begin-b", "end-b-100"),
    ("genesis boots begin-b", "end-b-1"),
    ("genesis boots begin-b end-b-101", "begin-a"),
    ("genesis boots begin-b end-b-0 begin-a end-a-0", "activate"),
    ("genesis bare", "activate"),
    ("genesis bare activate", "fail-a-install"),
    ("genesis bare activate", "fail-a-run"),
    ("genesis bare activate fail-a fail-a", "fail-a-startup"),
    ("genesis bare activate fail-a fail-a fail-a", "fail-b"),
    (
        "genesis first activate close-successful boots begin-b end-b-1 failing-b",
        "fail-a",
    ),
    ("genesis boots begin-b end-b-signal", "failing-b"),
    ("genesis bare activate fail-a fail-a fail-a", "failing-a"),
    ("genesis bare activate fail-b fail-b fail-b", "failing-b"),
    ("genesis bare activate", "close-successful"),
    ("genesis bare activate fail-a fail-a", "close-successful"),
    ("genesis boots-keep begin-b end-b-timeout", "close-kept"),
    (
        "genesis bare-keep activate fail-a fail-a fail-a",
        "close-kept",
    ),
    (
        "genesis boots begin-b end-b-notstarted failing-b",
        "close-rolled",
    ),
    (
        "genesis first activate close-successful boots begin-b end-b-lost failing-b fail-a fail-a fail-a",
        "close-unable",
    ),
    // A revision that does not fall, and none.
    ("genesis r4 activate close-successful", "r5"),
    ("genesis r5 activate close-successful", "r0"),
    // The way back: of the bootstraps that had begun, that of a runs again. A journal that goes back without it stands.
    (
        "genesis back activate close-successful boots begin-b end-b-0 begin-a end-a-1",
        "failing-back-a",
    ),
    (
        "genesis back activate close-successful boots begin-b end-b-0 begin-a end-a-1",
        "failing-a",
    ),
    (
        "genesis back activate close-successful boots begin-b end-b-0 begin-a end-a-1 failing-a",
        "close-rolled",
    ),
    (
        "genesis back activate close-successful boots begin-b end-b-0 begin-a end-a-1 failing-back-a",
        "begin-a",
    ),
    (
        "genesis back activate close-successful boots begin-b end-b-0 begin-a end-a-1 failing-back-a begin-a",
        "end-a-100",
    ),
    (
        "genesis back activate close-successful boots begin-b end-b-0 begin-a end-a-1 failing-back-a begin-a end-a-100",
        "fail-a",
    ),
    (
        "genesis back activate close-successful boots begin-b end-b-0 begin-a end-a-1 failing-back-a begin-a end-a-0",
        "close-rolled",
    ),
    (
        "genesis back activate close-successful boots begin-b end-b-0 begin-a end-a-1 failing-back-a begin-a end-a-1",
        "close-unable",
    ),
];

/// Histories, and records that are not lawful after them, each for one condition of its row.
const UNLAWFUL: &[(&str, &str)] = &[
    // There is an origin.
    ("genesis", "genesis"),
    // No origin, a plan pending, an id that is closed.
    ("", "first"),
    ("genesis first", "other"),
    ("genesis first activate close-successful", "again"),
    // Nothing pending, not Booting, failed, another name, no boot left, begun.
    ("genesis", "begin-b"),
    ("genesis bare activate", "begin-b"),
    ("genesis boots begin-b end-b-1", "begin-b"),
    ("genesis boots", "begin-a"),
    ("genesis boots begin-b end-b-0 begin-a end-a-0", "begin-a"),
    ("genesis boots begin-b", "begin-b"),
    // Nothing pending, not Booting, another name, not begun, failed.
    ("genesis", "end-b-0"),
    ("genesis bare activate", "end-b-0"),
    ("genesis boots begin-b", "end-a-0"),
    ("genesis boots", "end-b-0"),
    ("genesis boots begin-b end-b-1", "end-b-0"),
    ("genesis boots begin-b end-b-0", "end-a-0"),
    // Nothing pending, not Booting, failed, a boot left.
    ("genesis", "activate"),
    ("genesis bare activate", "activate"),
    ("genesis boots begin-b end-b-0 begin-a end-a-1", "activate"),
    ("genesis boots begin-b end-b-0", "activate"),
    // Nothing pending, Booting, not among the plan's items, three failures, another step, no failure.
    ("genesis", "fail-a"),
    ("genesis bare", "fail-a"),
    ("genesis bare activate", "fail-c"),
    ("genesis bare activate fail-a fail-a fail-a", "fail-a"),
    ("genesis bare activate", "fail-a-shutdown"),
    ("genesis bare activate", "fail-a-recover"),
    ("genesis bare activate", "fail-a-bootstrap"),
    ("genesis bare activate", "fail-a-code-0"),
    // In Rolling: not in the set, though among the plan's items.
    (
        "genesis first activate close-successful boots begin-b end-b-1 failing-b",
        "fail-b",
    ),
    // Nothing pending, another policy, Booting and not failed, another name, fewer failures, not the least, Rolling.
    ("genesis", "failing-b"),
    ("genesis boots-keep begin-b end-b-1", "failing-b"),
    (
        "genesis bare-keep activate fail-a fail-a fail-a",
        "failing-a",
    ),
    ("genesis boots begin-b", "failing-b"),
    ("genesis boots begin-b end-b-1", "failing-a"),
    ("genesis bare activate fail-a fail-a", "failing-a"),
    (
        "genesis bare activate fail-b fail-b fail-b fail-a fail-a fail-a",
        "failing-b",
    ),
    ("genesis boots begin-b end-b-1 failing-b", "failing-b"),
    // Nothing pending, not Activating, a count of three.
    ("genesis", "close-successful"),
    ("genesis bare", "close-successful"),
    (
        "genesis bare activate fail-a fail-a fail-a",
        "close-successful",
    ),
    // Another policy, Booting and not failed, no count of three.
    ("genesis boots begin-b end-b-1", "close-kept"),
    ("genesis boots-keep begin-b", "close-kept"),
    ("genesis bare-keep activate fail-a fail-a", "close-kept"),
    // Not Rolling, a count of three.
    ("genesis bare activate", "close-rolled"),
    (
        "genesis first activate close-successful boots begin-b end-b-1 failing-b fail-a fail-a fail-a",
        "close-rolled",
    ),
    // Not Rolling, no count of three.
    ("genesis bare activate fail-a fail-a fail-a", "close-unable"),
    ("genesis boots begin-b end-b-1 failing-b", "close-unable"),
    // A revision that falls, also behind a deployment without one.
    ("genesis r5 activate close-successful", "r4"),
    (
        "genesis r5 activate close-successful r0 activate close-successful",
        "r4",
    ),
    // No back: the bootstrap of a had not begun, or its recipe does not ask for it; another name.
    (
        "genesis back activate close-successful boots begin-b end-b-1",
        "failing-back-b",
    ),
    (
        "genesis first activate close-successful boots begin-b end-b-0 begin-a end-a-1",
        "failing-back-a",
    ),
    (
        "genesis back activate close-successful boots begin-b end-b-0 begin-a end-a-1",
        "failing-back-b",
    ),
    // Backing: a failure of a step, another failure, an end before one of a bootstrap, and one that did not fail.
    (
        "genesis back activate close-successful boots begin-b end-b-0 begin-a end-a-1 failing-back-a",
        "fail-a",
    ),
    (
        "genesis back activate close-successful boots begin-b end-b-0 begin-a end-a-1 failing-back-a begin-a end-a-1",
        "failing-a",
    ),
    (
        "genesis back activate close-successful boots begin-b end-b-0 begin-a end-a-1 failing-back-a",
        "close-rolled",
    ),
    (
        "genesis back activate close-successful boots begin-b end-b-0 begin-a end-a-1 failing-back-a begin-a",
        "close-unable",
    ),
    // The records of a front.
    ("genesis", "grouped"),
    ("genesis", "ended"),
];

/// The bytes of the record with this name, or none.
pub(crate) fn record_named(name: &str) -> &'static [u8] {
    test_support::record_named(RECORDS, name)
}

/// Whether the record that the payload spells is lawful and is taken.
#[tactic(auto, using(crate::proofs::Reading::writable))]
fn is_taken(alloc: Global, device: &mut Device, payload: &[u8]) -> Result<bool, Fail> {
    let Some(entry) = Record::read(alloc, payload)? else {
        return Ok(false);
    };
    match device.apply(alloc, entry) {
        Ok(()) => Ok(true),
        Err(ApplyFault::NotLawful) => Ok(false),
        Err(ApplyFault::NoMemory) => Err(ApplyFault::NoMemory)?,
    }
}

/// Whether all records of the history are taken.
fn are_taken(alloc: Global, device: &mut Device, history: &str) -> Result<bool, Fail> {
    for name in history.split_whitespace() {
        if !is_taken(alloc, device, record_named(name))? {
            return Ok(false);
        }
    }
    Ok(true)
}

/// Whether the payload's record is lawful on this device after a history, all of which is.
fn follows_on(
    alloc: Global,
    device: &mut Device,
    history: &str,
    payload: &[u8],
) -> Result<Option<bool>, Fail> {
    if !are_taken(alloc, device, history)? {
        return Ok(None);
    }
    Ok(Some(is_taken(alloc, device, payload)?))
}

/// Whether the payload's record is lawful after a history, all of which is.
fn follows(alloc: Global, history: &str, payload: &[u8]) -> Result<Option<bool>, Fail> {
    let mut device = Device::empty(alloc);
    let answer = follows_on(alloc, &mut device, history, payload);
    drop(device);
    answer
}

/// The device of a journal with these records' entries, where it stands for one.
pub(crate) fn replayed(alloc: Global, history: &str) -> Result<Option<Device>, Fail>
    ensures { IfOk result (λ o. IfSome o (λ d. IsSound (device_view d))) }
{
    let mut journal = Vec::new(alloc);
    for name in history.split_whitespace() {
        push_entry(&mut journal, record_named(name))?;
    }
    journal.push(0)?;
    let mut disk = MemoryDisk::new(alloc);
    disk.write_at("journal", 0, &journal)?;
    match Log::find(&mut disk) {
        Ok(log) => Ok(replay(alloc, &log, &mut disk).ok()),
        Err(_) => Ok(None),
    }
}

/// How many rows of the table have a lawful history after which the record is lawful, or is not.
fn count_rows(alloc: Global, table: &[(&str, &str)], lawful: bool) -> Result<usize, Fail> {
    let mut count = 0usize;
    for (history, name) in table {
        if follows(alloc, history, record_named(name))? == Some(lawful) {
            count = count.saturating_add(1);
        }
    }
    Ok(count)
}

#[test]
fn each_row_is_lawful_where_its_conditions_hold(rt: HostRuntime) -> Result<(), Fail> {
    let alloc = rt.alloc();
    assert!(rt; count_rows(alloc, LAWFUL, true)? == LAWFUL.len());
    assert!(rt; count_rows(alloc, UNLAWFUL, false)? == UNLAWFUL.len());
    Ok(())
}

/// What is found of a journal: the first bad place, or how many deployments are closed.
#[derive(Clone, Copy, Debug, PartialEq, Eq)]
pub(crate) enum Found {
    NotInitialised,
    Damaged(u64),
    Failed,
    Device(usize),
}

/// Whether the device is of this thing, and is at rest with these many groups.
fn is_at_rest(device: &Device, thing: &str, groups: usize) -> bool {
    match &device.origin {
        Some(origin) => {
            origin.thing.as_str() == thing
                && device.pending.is_none()
                && device.groups.len() == groups
        }
        None => false,
    }
}

/// What is found where this is the journal's device, which is to be one at rest.
fn found_at_rest(device: &Device, groups: usize) -> Found {
    if is_at_rest(device, "t1", groups) {
        Found::Device(device.closed.len())
    } else {
        Found::Failed
    }
}

/// What is found of the journal on the disk, where its device is one at rest.
fn found_on(alloc: Global, disk: &mut MemoryDisk, groups: usize) -> Found {
    let log = match Log::find(disk) {
        Ok(log) => log,
        Err(FindFault::NotInitialised) => return Found::NotInitialised,
        Err(FindFault::Damaged(at)) => return Found::Damaged(at),
        Err(FindFault::Disk) => return Found::Failed,
    };
    match replay(alloc, &log, disk) {
        Ok(device) => {
            let found = found_at_rest(&device, groups);
            drop(device);
            found
        }
        Err(ReplayFault::Damaged(at)) => Found::Damaged(at),
        Err(_) => Found::Failed,
    }
}

/// What is found of a journal of these bytes, the first of them changed.
pub(crate) fn found_in(
    alloc: Global,
    first: u8,
    bytes: &[u8],
    groups: usize,
) -> Result<Found, Fail> {
    let mut disk = MemoryDisk::new(alloc);
    disk.write_at("journal", 0, bytes)?;
    disk.write_at("journal", 0, &[first])?;
    Ok(found_on(alloc, &mut disk, groups))
}

/// A journal of the one record of a device's start.
const STARTED: [u8; 48] = [
    0x01, 0x00, 0x00, 0x00, 0x2a, 0x11, 0x00, 0x00, 0x00, 0x03, 0x2f, 0x67, 0x67, 0x00, 0x00, 0x00,
    0x02, 0x74, 0x31, 0x00, 0x00, 0x00, 0x06, 0x32, 0x2e, 0x31, 0x32, 0x2e, 0x30, 0x00, 0x00, 0x00,
    0x05, 0x6c, 0x69, 0x6e, 0x75, 0x78, 0x00, 0x00, 0x00, 0x05, 0x61, 0x6d, 0x64, 0x36, 0x34, 0x00,
];

#[test]
fn a_journal_stands_for_its_device(rt: HostRuntime) -> Result<(), Fail> {
    let alloc = rt.alloc();
    assert!(rt; found_in(alloc, 0x07, &STARTED[..1], 0)? == Found::NotInitialised);
    assert!(rt; found_in(alloc, 0x01, &STARTED, 0)? == Found::Device(0));
    assert!(rt; found_in(alloc, 0xff, &STARTED, 0)? == Found::Device(0));
    assert!(rt; found_in(alloc, 0x00, &STARTED, 0)? == Found::NotInitialised);
    assert!(rt; found_in(alloc, 0x01, &STARTED[..47], 0)? == Found::Damaged(0));
    Ok(())
}

/// Adds a deployment of nothing to the group `g`, from its acceptance to its end.
fn push_closing(alloc: Global, journal: &mut Vec<u8>, id: &str) -> Result<(), Fail> {
    let len = id.len().min(256) as u32;
    let mut payload = Vec::new(alloc);
    payload.push(0x12)?;
    payload.extend_from_slice(&len.to_be_bytes())?;
    payload.extend_from_slice(id.as_bytes())?;
    payload.extend_from_slice(b"\0\0\0\x01g\0\0\0\0\0\0\0\0\0\0\0\0\0")?;
    push_entry(journal, &payload)?;
    push_entry(journal, b"\x15")?;
    Ok(push_entry(journal, b"\x18\x01")?)
}

/// A journal of so many closed deployments, and then of one with this id again.
fn closings(alloc: Global, count: u32, again: &str) -> Result<Vec<u8>, Fail> {
    let mut journal = Vec::new(alloc);
    push_entry(&mut journal, &STARTED[5..47])?;
    for n in 0..count {
        let id = format!(in alloc; "d{n}")?;
        push_closing(alloc, &mut journal, id.as_str())?;
    }
    if !again.is_empty() {
        push_closing(alloc, &mut journal, again)?;
    }
    journal.push(0)?;
    Ok(journal)
}

#[test]
fn many_closed_deployments_are_replayed(rt: HostRuntime) -> Result<(), Fail> {
    let alloc = rt.alloc();
    let few = closings(alloc, 300, "")?;
    assert!(rt; found_in(alloc, 1, &few, 1)? == Found::Device(300));
    // All 131,072 are taken, and behind their entries no more is accepted, whatever its id.
    let end = closings(alloc, 131_072, "")?.len().saturating_sub(1) as u64;
    let more = closings(alloc, 131_072, "more")?;
    assert!(rt; found_in(alloc, 1, &more, 1)? == Found::Damaged(end));
    // An id that is closed is not accepted again: the entry of d2 stands behind those of d0 and d1.
    let again = closings(alloc, 2, "d1")?;
    assert!(rt; found_in(alloc, 1, &again, 1)? == Found::Damaged(133));
    Ok(())
}

/// Plans and starts at the limits, in pieces that stand so often one after another, and whether they are lawful. In a
/// piece `###` is the number of its turn.
const SIZES: &[(&str, &[(usize, &[u8])], bool)] = &[
    (
        "",
        &[
            (1, b"\x11\0\0\x04\0"),
            (1024, b"x"),
            (
                1,
                b"\0\0\0\x02t1\0\0\0\x062.12.0\0\0\0\x05linux\0\0\0\x05amd64",
            ),
        ],
        true,
    ),
    (
        "",
        &[
            (1, b"\x11\0\0\x04\x01"),
            (1025, b"x"),
            (
                1,
                b"\0\0\0\x02t1\0\0\0\x062.12.0\0\0\0\x05linux\0\0\0\x05amd64",
            ),
        ],
        false,
    ),
    (
        "genesis",
        &[
            (1, b"\x12\0\0\0\x02d1\0\0\0\x02g1\0\0\0\0\x80"),
            (128, b"\0\0\0\x04n###\0\0\0\x01*"),
            (1, b"\0\0\0\x01"),
            (
                1,
                b"\0\0\0\x04n###\0\0\0\x051.0.0\0\0\0V{\"RecipeFormatVersion\":\"2020-01-25\",\"ComponentName\":\"n###\",\
                \"ComponentVersion\":\"1.0.0\"}\0\0\0\x02{}\0\0\0\0",
            ),
            (1, b"\0\0\0\0"),
        ],
        true,
    ),
    (
        "genesis",
        &[
            (1, b"\x12\0\0\0\x02d1\0\0\0\x02g1\0\0\0\0\x81"),
            (129, b"\0\0\0\x04n###\0\0\0\x01*"),
            (1, b"\0\0\0\x01"),
            (
                1,
                b"\0\0\0\x04n###\0\0\0\x051.0.0\0\0\0V{\"RecipeFormatVersion\":\"2020-01-25\",\"ComponentName\":\"n###\",\
                \"ComponentVersion\":\"1.0.0\"}\0\0\0\x02{}\0\0\0\0",
            ),
            (1, b"\0\0\0\0"),
        ],
        false,
    ),
    (
        "genesis",
        &[
            (1, b"\x12\0\0\0\x02d1\0\0\0\x02g1\0\0\0\0\0"),
            (1, b"\0\0\0\x80"),
            (
                128,
                b"\0\0\0\x04n###\0\0\0\x051.0.0\0\0\0V{\"RecipeFormatVersion\":\"2020-01-25\",\"ComponentName\":\"n###\",\
                \"ComponentVersion\":\"1.0.0\"}\0\0\0\x02{}\0\0\0\0",
            ),
            (1, b"\0\0\0\0"),
        ],
        true,
    ),
    (
        "genesis",
        &[
            (1, b"\x12\0\0\0\x02d1\0\0\0\x02g1\0\0\0\0\0"),
            (1, b"\0\0\0\x81"),
            (
                129,
                b"\0\0\0\x04n###\0\0\0\x051.0.0\0\0\0V{\"RecipeFormatVersion\":\"2020-01-25\",\"ComponentName\":\"n###\",\
                \"ComponentVersion\":\"1.0.0\"}\0\0\0\x02{}\0\0\0\0",
            ),
            (1, b"\0\0\0\0"),
        ],
        false,
    ),
    (
        "genesis",
        &[
            (
                1,
                b"\x12\0\0\0\x02d1\0\0\0\x02g1\0\0\0\0\0\0\0\0\x01\0\0\0\x04n###\0\0\0\x051.0.0\0\0\0V{\"RecipeFormatVersion\":\"2020-01-25\",\
                \"ComponentName\":\"n###\",\"ComponentVersion\":\"1.0.0\"}\0\x01\0\0{\"k\":\"",
            ),
            (65528, b"x"),
            (1, b"\"}\0\0\0\0\0\0\0\0"),
        ],
        true,
    ),
    (
        "genesis",
        &[
            (
                1,
                b"\x12\0\0\0\x02d1\0\0\0\x02g1\0\0\0\0\0\0\0\0\x01\0\0\0\x04n###\0\0\0\x051.0.0\0\0\0V{\"RecipeFormatVersion\":\"2020-01-25\",\
                \"ComponentName\":\"n###\",\"ComponentVersion\":\"1.0.0\"}\0\x01\0\x01{\"k\":\"",
            ),
            (65529, b"x"),
            (1, b"\"}\0\0\0\0\0\0\0\0"),
        ],
        false,
    ),
];

/// The digit of the number at this place of three.
fn digit(number: usize, place: usize) -> u8 {
    let digit = match place {
        0 => number / 100 % 10,
        1 => number / 10 % 10,
        _ => number % 10,
    };
    digit as u8 + b'0'
}

/// Adds a piece in its turn. The first turn has the number 100.
fn push_piece(bytes: &mut Vec<u8>, piece: &[u8], turn: usize) -> Result<(), Fail> {
    let number = turn.saturating_add(100);
    let mut place = 0usize;
    for byte in piece {
        if *byte == b'#' {
            bytes.push(digit(number, place % 3))?;
            place = place.saturating_add(1);
        } else {
            bytes.push(*byte)?;
        }
    }
    Ok(())
}

fn push_pieces(bytes: &mut Vec<u8>, piece: &[u8], count: usize) -> Result<(), Fail> {
    for turn in 0..count {
        push_piece(bytes, piece, turn)?;
    }
    Ok(())
}

/// The pieces, each so often as it says.
fn spelled(alloc: Global, pieces: &[(usize, &[u8])]) -> Result<Vec<u8>, Fail> {
    let mut bytes = Vec::new(alloc);
    for (count, piece) in pieces {
        push_pieces(&mut bytes, piece, *count)?;
    }
    Ok(bytes)
}

/// How many of the payloads are lawful after their history, or not, as they should be.
fn count_sizes(alloc: Global, table: &[(&str, &[(usize, &[u8])], bool)]) -> Result<usize, Fail> {
    let mut count = 0usize;
    for (history, pieces, lawful) in table {
        if follows(alloc, history, &spelled(alloc, pieces)?)? == Some(*lawful) {
            count = count.saturating_add(1);
        }
    }
    Ok(count)
}

#[test]
fn sizes_end_what_is_lawful(rt: HostRuntime) -> Result<(), Fail> {
    let alloc = rt.alloc();
    assert_eq!(rt; count_sizes(alloc, SIZES)?, SIZES.len());
    // Each deployment brings a group of its own. The 513th is not taken.
    let most = spelled(alloc, MOST_GROUPS)?;
    assert!(rt; found_in(alloc, 1, &most, 512)? == Found::Device(512));
    let more = spelled(alloc, MORE_GROUPS)?;
    assert!(rt; found_in(alloc, 1, &more, 512)? == Found::Damaged(24_623));
    Ok(())
}

/// Journals of so many deployments, each of a group of its own.
const MOST_GROUPS: &[(usize, &[u8])] = &[
    (
        1,
        b"\x01\0\0\0*\x11\0\0\0\x03/gg\0\0\0\x02t1\0\0\0\x062.12.0\0\0\0\x05linux\0\0\0\x05amd64",
    ),
    (
        512,
        b"\x01\0\0\0\x1e\x12\0\0\0\x04d###\0\0\0\x04g###\0\0\0\0\0\0\0\0\0\0\0\0\0\x01\0\0\0\x01\x15\x01\0\0\0\x02\x18\x01",
    ),
    (1, b"\0"),
];

const MORE_GROUPS: &[(usize, &[u8])] = &[
    (
        1,
        b"\x01\0\0\0*\x11\0\0\0\x03/gg\0\0\0\x02t1\0\0\0\x062.12.0\0\0\0\x05linux\0\0\0\x05amd64",
    ),
    (
        513,
        b"\x01\0\0\0\x1e\x12\0\0\0\x04d###\0\0\0\x04g###\0\0\0\0\0\0\0\0\0\0\0\0\0\x01\0\0\0\x01\x15\x01\0\0\0\x02\x18\x01",
    ),
    (1, b"\0"),
];

/// Pieces of plans, each with its letter: the head, counts, requirements of a and b, names of boots, and components: a,
/// which needs b softly and has a file with a digest of 32 bytes 0x11, b with a bootstrap step, and what is wrong of them.
const PIECES: &[(u8, &[u8])] = &[
    (b'P', b"\x12\0\0\0\x02d1\0\0\0\x02g1\0"),
    (b'0', b"\0\0\0\0"),
    (b'1', b"\0\0\0\x01"),
    (b'2', b"\0\0\0\x02"),
    (b'3', b"\0\0\0\x03"),
    (b'a', b"\0\0\0\x01a\0\0\0\x01*"),
    (b'b', b"\0\0\0\x01b\0\0\0\x01*"),
    (b'x', b"\0\0\0\x01a"),
    (b'y', b"\0\0\0\x01b"),
    (b'z', b"\0\0\0\x01c"),
    (
        b'A',
        b"\0\0\0\x01a\0\0\0\x051.0.0\0\0\x01<{\"RecipeFormatVersion\":\"2020-01-25\",\"ComponentName\":\"a\",\"ComponentVersion\":\"1.0.0\",\
        \"ComponentDependencies\":{\"b\":{\"VersionRequirement\":\"^1.0.0\",\"DependencyType\":\"SOFT\"}},\"Manifests\":[{\"Artifacts\":[{\"URI\":\"s3://x/f\
        \",\"Algorithm\":\"SHA-256\",\"Digest\":\"1111111111111111111111111111111111111111111111111111111111111111\"}]}]}\0\0\0\x07{\"k\":1}\0\0\0\x01\0\0\0\
        \x01f\x11\x11\x11\x11\x11\x11\x11\x11\x11\x11\x11\x11\x11\x11\x11\x11\x11\x11\x11\x11\x11\x11\x11\x11\x11\x11\x11\x11\x11\x11\x11\x11",
    ),
    (
        b'B',
        b"\0\0\0\x01b\0\0\0\x051.1.0\0\0\0\x81{\"RecipeFormatVersion\":\"2020-01-25\",\"ComponentName\":\"b\",\"ComponentVersion\":\"1.1.0\",\
        \"Manifests\":[{\"Lifecycle\":{\"bootstrap\":\"x\"}}]}\0\0\0\x02{}\0\0\0\0",
    ),
    (
        b'N',
        b"\0\0\0\x01b\0\0\0\x051.1.0\0\0\0\x02{}\0\0\0\x02{}\0\0\0\0",
    ),
    (
        b'M',
        b"\0\0\0\x01c\0\0\0\x051.1.0\0\0\0\x81{\"RecipeFormatVersion\":\"2020-01-25\",\"ComponentName\":\"b\",\"ComponentVersion\":\"1.1.0\",\
        \"Manifests\":[{\"Lifecycle\":{\"bootstrap\":\"x\"}}]}\0\0\0\x02{}\0\0\0\0",
    ),
    (
        b'V',
        b"\0\0\0\x01b\0\0\0\x051.1.1\0\0\0\x81{\"RecipeFormatVersion\":\"2020-01-25\",\"ComponentName\":\"b\",\"ComponentVersion\":\"1.1.0\",\
        \"Manifests\":[{\"Lifecycle\":{\"bootstrap\":\"x\"}}]}\0\0\0\x02{}\0\0\0\0",
    ),
    (
        b'D',
        b"\0\0\0\x01a\0\0\0\x051.0.0\0\0\x01<{\"RecipeFormatVersion\":\"2020-01-25\",\"ComponentName\":\"a\",\"ComponentVersion\":\"1.0.0\",\
        \"ComponentDependencies\":{\"b\":{\"VersionRequirement\":\"^1.0.0\",\"DependencyType\":\"SOFT\"}},\"Manifests\":[{\"Artifacts\":[{\"URI\":\"s3://x/f\
        \",\"Algorithm\":\"SHA-256\",\"Digest\":\"1111111111111111111111111111111111111111111111111111111111111111\"}]}]}\0\0\0\x07{\"k\":1}\0\0\0\0",
    ),
    (
        b'E',
        b"\0\0\0\x01a\0\0\0\x051.0.0\0\0\x01<{\"RecipeFormatVersion\":\"2020-01-25\",\"ComponentName\":\"a\",\"ComponentVersion\":\"1.0.0\",\
        \"ComponentDependencies\":{\"b\":{\"VersionRequirement\":\"^1.0.0\",\"DependencyType\":\"SOFT\"}},\"Manifests\":[{\"Artifacts\":[{\"URI\":\"s3://x/f\
        \",\"Algorithm\":\"SHA-256\",\"Digest\":\"1111111111111111111111111111111111111111111111111111111111111111\"}]}]}\0\0\0\x07{\"k\":1}\0\0\0\x01\0\0\0\
        \x01f\x12\x12\x12\x12\x12\x12\x12\x12\x12\x12\x12\x12\x12\x12\x12\x12\x12\x12\x12\x12\x12\x12\x12\x12\x12\x12\x12\x12\x12\x12\x12\x12",
    ),
    (
        b'F',
        b"\0\0\0\x01b\0\0\0\x051.1.0\0\0\0\x81{\"RecipeFormatVersion\":\"2020-01-25\",\"ComponentName\":\"b\",\"ComponentVersion\":\"1.1.0\",\
        \"Manifests\":[{\"Lifecycle\":{\"bootstrap\":\"x\"}}]}\0\0\0\x02{}\0\0\0\x01\0\0\0\x01f\x11\x11\x11\x11\x11\x11\x11\x11\x11\x11\x11\x11\x11\x11\x11\
        \x11\x11\x11\x11\x11\x11\x11\x11\x11\x11\x11\x11\x11\x11\x11\x11\x11",
    ),
    (
        b'O',
        b"\0\0\0\x01b\0\0\0\x051.1.0\0\0\0\x81{\"RecipeFormatVersion\":\"2020-01-25\",\"ComponentName\":\"b\",\"ComponentVersion\":\"1.1.0\",\
        \"Manifests\":[{\"Lifecycle\":{\"bootstrap\":\"x\"}}]}\0\0\0\x02[]\0\0\0\0",
    ),
    (
        b'L',
        b"\0\0\0\x01b\0\0\0\x052.0.0\0\0\0\x81{\"RecipeFormatVersion\":\"2020-01-25\",\"ComponentName\":\"b\",\"ComponentVersion\":\"2.0.0\",\
        \"Manifests\":[{\"Lifecycle\":{\"bootstrap\":\"x\"}}]}\0\0\0\x02{}\0\0\0\0",
    ),
    (
        b'C',
        b"\0\0\0\x01b\0\0\0\x051.1.0\0\0\0\xa2{\"RecipeFormatVersion\":\"2020-01-25\",\"ComponentName\":\"b\",\"ComponentVersion\":\"1.1.0\",\
        \"ComponentDependencies\":{\"a\":{}},\"Manifests\":[{\"Lifecycle\":{\"bootstrap\":\"x\"}}]}\0\0\0\x02{}\0\0\0\0",
    ),
];

/// Plans in letters, and whether a device takes them.
const PLANS: &[(&str, bool)] = &[
    // A plan of two components, and one of none.
    ("P2ab2AB1y", true),
    ("P000", true),
    // Names that do not rise.
    ("P2ba2AB1y", false),
    ("P2aa2AB1y", false),
    ("P1a2BA1y", false),
    ("P1a3ABB1y", false),
    // No recipe, and one of another name or version.
    ("P1a1N0", false),
    ("P1a1M0", false),
    ("P1a1V0", false),
    // A file too few, another digest, a file too many.
    ("P1a2DB1y", false),
    ("P1a2EB1y", false),
    ("P1a2AF1y", false),
    // A configuration that is no object.
    ("P1a2AO1y", false),
    // A dependency that is not there, or in another version, and a cycle.
    ("P1a1A0", false),
    ("P1a2AL1y", false),
    ("P1a2AC1y", false),
    // A boot that stands twice, has no step, or is no component's.
    ("P1a2AB2yy", false),
    ("P1a2AB1x", false),
    ("P1a2AB1z", false),
];

fn pieces() -> &'static [(u8, &'static [u8])] {
    PIECES
}

fn piece_of(letter: u8) -> &'static [u8] {
    for (other, piece) in pieces() {
        if *other == letter {
            return piece;
        }
    }
    b""
}

fn plan_of(alloc: Global, letters: &str) -> Result<Vec<u8>, Fail> {
    let mut plan = Vec::new(alloc);
    for letter in letters.as_bytes() {
        plan.extend_from_slice(piece_of(*letter))?;
    }
    Ok(plan)
}

/// How many plans a device that has started takes, or not, as it should.
fn count_plans(alloc: Global, table: &[(&str, bool)]) -> Result<usize, Fail> {
    let mut count = 0usize;
    for (letters, lawful) in table {
        if follows(alloc, "genesis", &plan_of(alloc, letters)?)? == Some(*lawful) {
            count = count.saturating_add(1);
        }
    }
    Ok(count)
}

#[test]
fn plans_are_taken_or_not(rt: HostRuntime) -> Result<(), Fail> {
    assert_eq!(rt; count_plans(rt.alloc(), PLANS)?, PLANS.len());
    Ok(())
}
