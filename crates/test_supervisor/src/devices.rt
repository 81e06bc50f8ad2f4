// Devices whose items are written in a few words.
ghost use Rattle.std.specs.Prelude.{IfOk};
ghost use Rattle.device.specs.Devices.{device_view, IsRegularDevice};
ghost use Rattle.device.specs.Sound.{IsSound};

use device::Device;
use nuc_base::NoMemory;
use std::alloc::Global;
use std::test::Fail;
use test_replays::device_from;

const GENESIS: &[u8] =
    b"\x11\0\0\0\x03/gg\0\0\0\x02t1\0\0\0\x062.12.0\0\0\0\x05linux\0\0\0\x05amd64";

/// Adds a member to the object that is written last.
fn push_member(recipe: &mut String, member: &str) -> Result<(), NoMemory> {
    if !recipe.ends_with('{') {
        recipe.push_str(",")?;
    }
    recipe.push_str(member)?;
    Ok(())
}

/// Adds the dependencies behind `hard` or `soft`: a letter is a name.
fn push_needs(alloc: Global, recipe: &mut String, key: &str, names: &str) -> Result<(), NoMemory> {
    let kind = match key {
        "hard" => "HARD",
        "soft" => "SOFT",
        _ => return Ok(()),
    };
    for name in names.chars() {
        let member = format!(in alloc; r#""{name}":{{"DependencyType":"{kind}"}}"#)?;
        push_member(recipe, &member)?;
    }
    Ok(())
}

/// Adds a step with its script. The step `probed` is an install that is skipped where `/opt/x` is there.
fn push_step(alloc: Global, recipe: &mut String, key: &str, script: &str) -> Result<(), NoMemory> {
    let member = match key {
        "hard" | "soft" => return Ok(()),
        "probed" => format!(in alloc;
            r#""install":{{"Script":"{script}","Skipif":"exists /opt/x"}}"#
        )?,
        step => format!(in alloc; r#""{step}":"{script}""#)?,
    };
    push_member(recipe, &member)
}

fn push_all_needs(alloc: Global, recipe: &mut String, pairs: &str) -> Result<(), NoMemory> {
    let mut words = pairs.split_whitespace();
    while let Some(key) = words.next() {
        push_needs(alloc, recipe, key, words.next().unwrap_or(""))?;
    }
    Ok(())
}

fn push_steps(alloc: Global, recipe: &mut String, pairs: &str) -> Result<(), NoMemory> {
    let mut words = pairs.split_whitespace();
    while let Some(key) = words.next() {
        push_step(alloc, recipe, key, words.next().unwrap_or(""))?;
    }
    Ok(())
}

/// The recipe of a name, a version and pairs of words.
fn recipe_of(alloc: Global, name: &str, version: &str, pairs: &str) -> Result<String, NoMemory> {
    let mut recipe = format!(in alloc;
        r#"{{"RecipeFormatVersion":"2020-01-25","ComponentName":"{name}","ComponentVersion":"{version}","ComponentDependencies":{{"#
    )?;
    push_all_needs(alloc, &mut recipe, pairs)?;
    recipe.push_str(r#"},"Manifests":[{"Lifecycle":{"#)?;
    push_steps(alloc, &mut recipe, pairs)?;
    recipe.push_str("}}]}")?;
    Ok(recipe)
}

fn put_size(bytes: &mut Vec<u8>, size: usize) -> Result<(), NoMemory> {
    let size = size.min(1_000_000) as u32;
    bytes.extend_from_slice(&size.to_be_bytes())?;
    Ok(())
}

fn put_text(bytes: &mut Vec<u8>, text: &str) -> Result<(), NoMemory> {
    put_size(bytes, text.len())?;
    bytes.extend_from_slice(text.as_bytes())?;
    Ok(())
}

/// Adds an item as records have it, without files.
fn put_parts(
    bytes: &mut Vec<u8>,
    name: &str,
    version: &str,
    recipe: &str,
    config: &str,
) -> Result<(), NoMemory> {
    put_text(bytes, name)?;
    put_text(bytes, version)?;
    put_text(bytes, recipe)?;
    put_text(bytes, config)?;
    put_size(bytes, 0)
}

/// Adds the item of a component.
fn put_item(alloc: Global, bytes: &mut Vec<u8>, component: &str) -> Result<(), NoMemory> {
    let mut words = component.splitn(4, ' ');
    let name = words.next().unwrap_or("");
    let version = words.next().unwrap_or("");
    let config = words.next().unwrap_or("");
    let recipe = recipe_of(alloc, name, version, words.next().unwrap_or(""))?;
    put_parts(bytes, name, version, &recipe, config)
}

/// Adds the items of components, and tells how many they are.
fn put_items(alloc: Global, bytes: &mut Vec<u8>, components: &str) -> Result<usize, NoMemory> {
    let mut many = 0usize;
    for component in components.split_terminator(';') {
        put_item(alloc, bytes, component)?;
        many = many.saturating_add(1);
    }
    Ok(many)
}

/// Adds the record of a plan of this id with so many items, and no bootstrap that is to run.
fn put_plan(bytes: &mut Vec<u8>, id: &str, many: usize, items: &[u8]) -> Result<(), NoMemory> {
    bytes.push(0x12)?;
    put_text(bytes, id)?;
    put_text(bytes, "g")?;
    bytes.push(0)?;
    put_size(bytes, 0)?;
    put_size(bytes, many)?;
    bytes.extend_from_slice(items)?;
    put_size(bytes, 0)
}

/// Adds the record of a plan of this id with these components.
fn put_accepted(
    alloc: Global,
    bytes: &mut Vec<u8>,
    id: &str,
    components: &str,
) -> Result<(), NoMemory> {
    let mut items = Vec::new(alloc);
    let many = put_items(alloc, &mut items, components)?;
    put_plan(bytes, id, many, &items)
}

/// The same alone.
fn accepted(alloc: Global, id: &str, components: &str) -> Result<Vec<u8>, NoMemory> {
    let mut bytes = Vec::new(alloc);
    put_accepted(alloc, &mut bytes, id, components)?;
    Ok(bytes)
}

/// Adds an entry to a journal.
fn put_entry(journal: &mut Vec<u8>, payload: &[u8]) -> Result<(), NoMemory> {
    journal.push(1)?;
    put_size(journal, payload.len())?;
    journal.extend_from_slice(payload)?;
    Ok(())
}

/// Adds the entry of a plan of this id with these components.
fn put_plan_entry(
    alloc: Global,
    journal: &mut Vec<u8>,
    id: &str,
    components: &str,
) -> Result<(), NoMemory> {
    let payload = accepted(alloc, id, components)?;
    put_entry(journal, &payload)
}

fn put_entries(
    alloc: Global,
    journal: &mut Vec<u8>,
    set: &str,
    plan: &str,
) -> Result<(), NoMemory> {
    put_entry(journal, GENESIS)?;
    put_plan_entry(alloc, journal, "d1", set)?;
    put_entry(journal, b"\x15")?;
    put_entry(journal, b"\x18\x01")?;
    put_plan_entry(alloc, journal, "d2", plan)?;
    journal.push(0)?;
    Ok(())
}

/// A journal of a deployment of the first components that closed, and one of the second ones that is pending.
fn journal_of(alloc: Global, set: &str, plan: &str) -> Result<Vec<u8>, NoMemory> {
    let mut journal = Vec::new(alloc);
    put_entries(alloc, &mut journal, set, plan)?;
    Ok(journal)
}

/// A device that has the first components, and is to have the second ones. Each is a name, a version, a configuration, and
/// any number of pairs: a step and its script, or `hard` or `soft` and the names that it needs so, a letter each.
pub(crate) fn device_of(alloc: Global, set: &str, plan: &str) -> Result<Device, Fail>
    ensures regular { IfOk result (λ d. IsRegularDevice (device_view d)) }
    ensures sound { IfOk result (λ d. IsSound (device_view d)) }
{
    let journal = journal_of(alloc, set, plan)?;
    let device = device_from(alloc, &journal);
    drop(journal);
    device
}
