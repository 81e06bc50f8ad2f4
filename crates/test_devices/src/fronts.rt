// The fronts of devices, restored from their records and taken from a journal.
ghost use Rattle.std.specs.Prelude.{IfOk};
ghost use Rattle.std.specs.List.{AllByRecursion};
ghost use Rattle.device.specs.Devices.{IsRegularDevice, device_view};
ghost use Rattle.device.specs.Fronts.{HasFront, IsRegularEntry};

use crate::histories::{Found, found_in, record_named};
use device::{ApplyFault, Device, RestoreFault};
use nuc_base::List;
use records::Record;
use std::alloc::Global;
use std::test::Fail;
use test_support::push_entry;

/// The front, in turn 2, of a device behind the closes of d4 with revision 4 and of d0 with one item.
const FRONT: [&[u8]; 5] = [
    b"\x19\0\0\0\0\0\0\0\x02\0\0\0\x03/gg\0\0\0\x02t1\0\0\0\x062.12.0\0\0\0\x05linux\0\0\0\x05amd64\0\0\0\x01\0\0\0\x01\0\0\0\x02",
    b"\x1e\0\0\0\x01g\0\0\0\0\0\0\0\x04\0\0\0\0",
    b"\x1b\0\0\0\x01a\0\0\0\x051.0.0\0\0\0\x81{\"RecipeFormatVersion\":\"2020-01-25\",\"ComponentName\":\"a\",\"ComponentVersion\":\"1.0.0\",\
    \"Manifests\":[{\"Lifecycle\":{\"bootstrap\":\"s\"}}]}\0\0\0\x02{}\0\0\0\0",
    b"\x1c\0\0\0\x02d4\x01",
    b"\x1c\0\0\0\x02d0\x01",
];

/// The records that these payloads spell.
#[tactic(auto, using(crate::proofs::Reading::writable, crate::proofs::Reading::all_more))]
fn records_of(alloc: Global, payloads: &[&[u8]]) -> Result<List<Record>, Fail>
    ensures { IfOk result (λ records. AllByRecursion IsRegularEntry records) }
{
    let mut records = List::empty(alloc);
    for payload in payloads {
        if let Some(entry) = Record::read(alloc, payload)? {
            records.push(entry)?;
        }
    }
    Ok(records)
}

/// How many places of the front of the device have these bytes.
fn count_places(alloc: Global, device: &Device, payloads: &[&[u8]]) -> Result<usize, Fail>
    requires front { HasFront (device_view device.now) }
    requires regular { IsRegularDevice (device_view device.now) }
{
    let mut count = 0usize;
    for at in 0..device.front_count() {
        let bytes = device.front(alloc, 2, at)?;
        if payloads.get(at as usize) == Some(&bytes.as_slice()) {
            count = count.saturating_add(1);
        }
    }
    Ok(count)
}

/// The same of the restored device, or `None` where the bytes are no front.
fn count_restored(alloc: Global, payloads: &[&[u8]]) -> Result<Option<usize>, Fail> {
    match Device::restore(alloc, records_of(alloc, payloads)?) {
        Ok(device) => {
            let count = count_places(alloc, &device, payloads);
            drop(device);
            Ok(Some(count?))
        }
        Err(RestoreFault::NotSound) => Ok(None),
        Err(RestoreFault::NoMemory) => Err(ApplyFault::NoMemory)?,
    }
}

#[test]
fn a_front_is_restored_whole(rt: HostRuntime) -> Result<(), Fail> {
    let alloc = rt.alloc();
    assert!(rt; count_restored(alloc, &FRONT)? == Some(5));
    // Without its last closed deployment, and without its turn.
    assert!(rt; count_restored(alloc, &FRONT[..4])? == None);
    assert!(rt; count_restored(alloc, &FRONT[1..])? == None);
    Ok(())
}

/// Journals of these records, how many groups their device has, and what is found.
const JOURNALS: &[(&str, usize, Found)] = &[
    ("turned grouped ended", 1, Found::Device(1)),
    // In a log the turn may have any number.
    ("turned-0", 0, Found::Device(0)),
    ("turned-0 r5 activate close-successful", 1, Found::Device(1)),
    // A front cut short, its records in another order, and names of a group that fall.
    ("turned grouped", 1, Found::Damaged(0)),
    ("turned ended grouped", 1, Found::Damaged(0)),
    ("turned-group falling", 1, Found::Damaged(0)),
    ("junk", 0, Found::Damaged(0)),
    ("junk turned-0", 0, Found::Damaged(0)),
    // Behind a front nothing begins a device again, and a turn begins a journal or nothing.
    ("turned-0 genesis", 0, Found::Damaged(67)),
    ("genesis turned-0", 0, Found::Damaged(47)),
];

/// How many journals of the table are found so.
fn count_journals(alloc: Global, table: &[(&str, usize, Found)]) -> Result<usize, Fail> {
    let mut count = 0usize;
    for (history, groups, found) in table {
        let mut journal = Vec::new(alloc);
        for name in history.split_whitespace() {
            push_entry(&mut journal, record_named(name))?;
        }
        journal.push(0)?;
        if found_in(alloc, 1, &journal, *groups)? == *found {
            count = count.saturating_add(1);
        }
    }
    Ok(count)
}

#[test]
fn a_journal_begins_with_a_front(rt: HostRuntime) -> Result<(), Fail> {
    assert!(rt; count_journals(rt.alloc(), JOURNALS)? == JOURNALS.len());
    Ok(())
}
