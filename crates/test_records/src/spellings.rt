// Rows of the records' bytes, and a copy of each part of a plan.
ghost use Rattle.std.specs.Prelude.{IfSome};
ghost use Rattle.records.specs.Layout.{IsWritable};
ghost use Rattle.records.specs.Stored.{record_view};

use nuc_base::{Copied, NoMemory};
use records::{Group, Held, Item, Origin, Plan, Record, Requirement, bytes_spell_one_record};
use std::alloc::Global;
use std::test::Fail;
use tree_core::Tree;

const ACCEPTED: &[u8] =
    b"\x12\0\0\0\x02d1\0\0\0\x01g\x01\0\0\0\x01\0\0\0\x01a\0\0\0\x07>=1.0.0\0\0\0\x01\0\0\0\x01a\0\0\0\x051.2.0\0\0\0\x02{}\0\0\0\x07{\"k\":1}\0\0\0\x01\0\0\
    \0\x01f0123456789abcdef0123456789abcdef\0\0\0\x01\0\0\0\x01a";

const GENESIS: &[u8] =
    b"\x11\0\0\0\x03/gg\0\0\0\x02t1\0\0\0\x062.12.0\0\0\0\x05linux\0\0\0\x05amd64";

const GROUPED: &[u8] = b"\x1e\0\0\0\x01g\0\0\0\0\0\0\x01\x02\0\0\0\x01\0\0\0\x01a\0\0\0\x07>=1.0.0";

const SPELLINGS: &[&[u8]] = &[
    GENESIS,
    ACCEPTED,
    GROUPED,
    b"\x13\0\0\0\x01a",
    b"\x14\0\0\0\x01a\0\xff\xff\xff\xfe",
    b"\x15",
    b"\x16\0\0\0\x01a\x03\x02",
    b"\x17\0\0\0\x01a",
    b"\x18\x02",
    b"\x19\0\0\0\0\0\0\0\x07\0\0\0\x03/gg\0\0\0\x02t1\0\0\0\x062.12.0\0\0\0\x05linux\0\0\0\x05amd64\0\0\0\x01\0\0\0\x02\0\0\0\x03",
    b"\x1a\0\0\0\x01g\0\0\0\0",
    b"\x1b\0\0\0\x01a\0\0\0\x051.2.0\0\0\0\x02{}\0\0\0\x07{\"k\":1}\0\0\0\0",
    b"\x1c\0\0\0\x02d1\x04",
    b"\x1d\0\0\0\x02d1\0\0\0\x01g\0\0\0\0\0\0\0\x01\0\0\0\0\0\0\0\0\0\0\0\0\0",
    b"\x1f\0\0\0\x01a",
];

const OTHERS: &[&[u8]] = &[
    b"",
    b"\x13\0\0\0\x01a\0",
    b"\x13\0\0\0\x02a",
    b"\x13\x01\0\0\0a",
    b"\x14\0\0\0\x01a\x05",
    b"\x15\0",
    b"\x16\0\0\0\x01a\x07\x02",
    b"\x18\x05",
    b"\x19",
    // A front without its last count.
    b"\x19\0\0\0\0\0\0\0\x07\0\0\0\x03/gg\0\0\0\x02t1\0\0\0\x062.12.0\0\0\0\x05linux\0\0\0\x05amd64\0\0\0\x01\0\0\0\x02",
    // A revision of 0 that is written.
    b"\x1d\0\0\0\x02d1\0\0\0\x01g\0\0\0\0\0\0\0\0\0\0\0\0\0\0\0\0\0\0\0\0\0",
    b"\x1e\0\0\0\x01g\0\0\0\0\0\0\0\0\0\0\0\0",
    b"\x20",
    // A folder that is no UTF-8.
    b"\x11\0\0\0\x03/g\xff\0\0\0\x02t1\0\0\0\x062.12.0\0\0\0\x05linux\0\0\0\x05amd64",
    // A range of 33 parts.
    b"\x12\0\0\0\x02d1\0\0\0\x01g\x01\0\0\0\x01\0\0\0\x01a\0\0\0\x83>=1 >=1 >=1 >=1 >=1 >=1 >=1 >=1 >=1 >=1 >=1 >=1 >=1 >=1 >=1 >=1 >=1 >=1 >=1 >=1 >=1 >=1 >\
    =1 >=1 >=1 >=1 >=1 >=1 >=1 >=1 >=1 >=1 >=1\0\0\0\0\0\0\0\0",
];

/// Whether the record gives the bytes when it is written again.
fn gives(alloc: Global, found: &Record, bytes: &[u8]) -> Result<bool, NoMemory>
    requires { IsWritable (record_view found.now) }
{
    let written = found.write(alloc)?;
    Ok(written.as_slice() == bytes)
}

/// Whether there is a record, and then whether it gives the bytes when it is written again.
fn spells(alloc: Global, found: Option<&Record>, bytes: &[u8]) -> Result<Option<bool>, NoMemory>
    requires { IfSome found (λ r. IsWritable (record_view r.now)) }
{
    match found {
        Some(found) => Ok(Some(gives(alloc, found, bytes)?)),
        None => Ok(None),
    }
}

/// Whether the bytes are a record's, and then whether it gives them when it is written again.
fn spelled(alloc: Global, bytes: &[u8]) -> Result<Option<bool>, NoMemory> {
    let record = Record::read(alloc, bytes)?;
    let spelled = spells(alloc, record.as_ref(), bytes);
    drop(record);
    spelled
}

/// Whether the bytes are read, and give themselves when they are written again.
fn is_spelling(alloc: Global, bytes: &[u8]) -> Result<bool, NoMemory> {
    Ok(spelled(alloc, bytes)? == Some(true))
}

fn count_spellings(alloc: Global, table: &[&[u8]]) -> Result<usize, NoMemory> {
    let mut found = 0usize;
    for bytes in table {
        if is_spelling(alloc, bytes)? {
            found = found.saturating_add(1);
        }
    }
    Ok(found)
}

/// Whether the bytes are no record, or one that gives them when it is written again.
fn is_none_or_itself(alloc: Global, bytes: &[u8]) -> Result<bool, NoMemory> {
    Ok(spelled(alloc, bytes)? != Some(false))
}

fn are_prefixes_sound(alloc: Global, bytes: &[u8]) -> Result<bool, NoMemory> {
    for end in 0..bytes.len() {
        if !is_none_or_itself(alloc, &bytes[..end])? {
            return Ok(false);
        }
    }
    Ok(true)
}

fn changed(alloc: Global, bytes: &[u8], at: usize, value: u8) -> Result<Vec<u8>, NoMemory> {
    let mut copy = Vec::from_slice(alloc, bytes)?;
    if let Some(byte) = copy.get_mut(at) {
        *byte = value;
    }
    Ok(copy)
}

fn are_values_sound(alloc: Global, bytes: &[u8], at: usize) -> Result<bool, NoMemory> {
    for number in 0..256u16 {
        let value = u8::try_from(number).unwrap_or(0);
        let copy = changed(alloc, bytes, at, value)?;
        if !is_none_or_itself(alloc, copy.as_slice())? {
            return Ok(false);
        }
    }
    Ok(true)
}

fn are_changes_sound(alloc: Global, bytes: &[u8]) -> Result<bool, NoMemory> {
    for at in 0..bytes.len() {
        if !are_values_sound(alloc, bytes, at)? {
            return Ok(false);
        }
    }
    Ok(true)
}

#[test]
fn records_have_one_spelling(rt: HostRuntime) -> Result<(), Fail> {
    let alloc = rt.alloc();
    assert!(rt; count_spellings(alloc, SPELLINGS)? == 15);
    assert!(rt; count_spellings(alloc, OTHERS)? == 0);
    assert!(rt; are_prefixes_sound(alloc, ACCEPTED)?);
    assert!(rt; are_changes_sound(alloc, ACCEPTED)?);
    assert!(rt; are_changes_sound(alloc, GROUPED)?);
    bytes_spell_one_record();
    Ok(())
}

fn is_origin(origin: &Origin) -> bool {
    origin.root.as_str() == "/gg"
        && origin.thing.as_str() == "t1"
        && origin.nucleus.text().as_str() == "2.12.0"
        && origin.platform.os.as_str() == "linux"
        && origin.platform.architecture.as_str() == "amd64"
}

fn is_requirement(requirement: &Requirement) -> bool {
    requirement.name.as_str() == "a" && requirement.range.text().as_str() == ">=1.0.0"
}

fn is_held(held: &Held) -> bool {
    held.file.as_str() == "f" && held.digest == *b"0123456789abcdef0123456789abcdef"
}

fn is_item(item: &Item) -> bool {
    item.name.as_str() == "a"
        && item.version.text().as_str() == "1.2.0"
        && item.recipe.as_slice() == b"{}".as_slice()
        && matches!(item.config.member("k"), Some(Tree::Whole(1)))
        && matches!(item.artifacts.as_slice(), [held] if is_held(held))
}

fn is_group(group: &Group) -> bool {
    group.arn.as_str() == "g"
        && group.revision == 258
        && matches!(group.requirements.as_slice(), [requirement] if is_requirement(requirement))
}

/// Whether the origin and its copy are the one that is spelled.
fn is_origin_copied(alloc: Global, origin: &Origin) -> Result<bool, NoMemory> {
    let copy = origin.copy(alloc)?;
    let is_copied = is_origin(origin) && is_origin(&copy);
    drop(copy);
    Ok(is_copied)
}

fn is_requirement_copied(alloc: Global, requirement: &Requirement) -> Result<bool, NoMemory> {
    let copy = requirement.copy(alloc)?;
    let is_copied = is_requirement(&copy);
    drop(copy);
    Ok(is_copied)
}

fn is_item_copied(alloc: Global, item: &Item) -> Result<bool, NoMemory> {
    let copy = item.copy(alloc)?;
    let is_copied = is_item(&copy);
    drop(copy);
    Ok(is_copied)
}

fn is_held_copied(alloc: Global, held: &Held) -> Result<bool, NoMemory> {
    let copy = held.copy(alloc)?;
    let is_copied = is_held(&copy);
    drop(copy);
    Ok(is_copied)
}

/// Whether the copies of an item and of its held file are those that are spelled.
fn are_parts_copied(alloc: Global, item: &Item) -> Result<bool, NoMemory> {
    match item.artifacts.as_slice() {
        [held] => Ok(is_item_copied(alloc, item)? && is_held_copied(alloc, held)?),
        _ => Ok(false),
    }
}

/// Whether the copies of the plan's requirement, item and held file are those that are spelled.
fn is_plan_copied(alloc: Global, plan: &Plan) -> Result<bool, NoMemory> {
    match (plan.requirements.as_slice(), plan.items.as_slice()) {
        ([requirement], [item]) => Ok(
            is_requirement_copied(alloc, requirement)? && are_parts_copied(alloc, item)?,
        ),
        _ => Ok(false),
    }
}

/// Whether the group and its copy are the one that is spelled.
fn is_group_copied(alloc: Global, group: &Group) -> Result<bool, NoMemory> {
    let copy = group.copy(alloc)?;
    let is_copied = is_group(group) && is_group(&copy);
    drop(copy);
    Ok(is_copied)
}

/// Whether the parts of the record and their copies are those that are spelled.
fn is_copied(alloc: Global, record: &Record) -> Result<bool, NoMemory> {
    match record {
        Record::Genesis(origin) => is_origin_copied(alloc, origin),
        Record::Accepted(plan) => is_plan_copied(alloc, plan),
        Record::Grouped(group) => is_group_copied(alloc, group),
        _ => Ok(false),
    }
}

fn is_some_copied(alloc: Global, record: Option<&Record>) -> Result<bool, NoMemory> {
    match record {
        Some(record) => is_copied(alloc, record),
        None => Ok(false),
    }
}

fn are_bytes_copied(alloc: Global, bytes: &[u8]) -> Result<bool, NoMemory> {
    let record = Record::read(alloc, bytes)?;
    let is_copied = is_some_copied(alloc, record.as_ref());
    drop(record);
    is_copied
}

#[test]
fn copies_are_what_was_spelled(rt: HostRuntime) -> Result<(), Fail> {
    let alloc = rt.alloc();
    assert!(rt; are_bytes_copied(alloc, GENESIS)?);
    assert!(rt; are_bytes_copied(alloc, ACCEPTED)?);
    assert!(rt; are_bytes_copied(alloc, GROUPED)?);
    Ok(())
}

fn push_letters(out: &mut Vec<u8>, count: u32) -> Result<(), NoMemory> {
    for _ in 0..count {
        out.push(b'x')?;
    }
    Ok(())
}

/// The item "a" 1.2.0 without files, whose recipe has so many bytes and whose configuration is one text of so many
/// letters.
fn large_item(alloc: Global, recipe: u32, letters: u32) -> Result<Vec<u8>, NoMemory> {
    let mut out = Vec::from_slice(alloc, b"\0\0\0\x01a\0\0\0\x051.2.0")?;
    out.extend_from_slice(&recipe.to_be_bytes())?;
    push_letters(&mut out, recipe)?;
    out.extend_from_slice(&letters.saturating_add(2).to_be_bytes())?;
    out.push(b'"')?;
    push_letters(&mut out, letters)?;
    out.extend_from_slice(b"\"\0\0\0\0")?;
    Ok(out)
}

/// An accepted plan of so many of these items.
fn large_accepted(alloc: Global, count: u32, item: &[u8]) -> Result<Vec<u8>, NoMemory> {
    let mut out = Vec::from_slice(alloc, b"\x12\0\0\0\x02d1\0\0\0\x01g\x01\0\0\0\0")?;
    out.extend_from_slice(&count.to_be_bytes())?;
    for _ in 0..count {
        out.extend_from_slice(item)?;
    }
    out.extend_from_slice(b"\0\0\0\0")?;
    Ok(out)
}

/// Whether a record of 32 MiB and more has one spelling.
fn is_large_spelled(alloc: Global) -> Result<bool, NoMemory> {
    let item = large_item(alloc, 196_608, 65_534)?;
    let bytes = large_accepted(alloc, 128, item.as_slice())?;
    Ok(bytes.len() >= 33_554_432 && is_spelling(alloc, bytes.as_slice())?)
}

#[test]
fn a_record_of_32_mib_has_one_spelling(rt: HostRuntime) -> Result<(), Fail> {
    let alloc = rt.alloc();
    assert!(rt; is_large_spelled(alloc)?);
    Ok(())
}
