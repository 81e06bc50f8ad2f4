ghost use Rattle.std.specs.Prelude.{◌≡◌, ◌++◌, ◌∷◌, [], IfOk, OnOk, IsSome, Some, map, option_map};
ghost use Rattle.std.specs.List.{flat_map};
ghost use Rattle.records.specs.Stored.{item_view};
ghost use Rattle.tree_core.specs.Regular.{IsRegular};
ghost use Rattle.tree_core.specs.View.{view};
ghost use Rattle.device.specs.Devices.{device_view, pending_view, IsRegularDevice};
ghost use Rattle.status_text.specs.Regularity.{AreRegular};
ghost use Rattle.status_text.specs.Lists.{texts};
ghost use Rattle.status_text.specs.Status.{line, origin_lines, requirement_line, revision_line, group_lines, component_line, closed_line, pending_lines};
ghost use Rattle.status_text.specs.Status.{status_text};

use crate::places::group_at;
use crate::words::{outcome_word, stage_word};
use device::{Device, Groups, Pending};
use nuc_base::{Label, NoMemory, Outcome, Text};
use records::{Group, Item, Origin, Requirement};
use std::alloc::Global;

/// The status of a device in lines, each with a line feed at its end: `thing THING`, `nucleus VERSION`, then for each
/// group `group ARN`, where its revision is 1 or more `revision R`, and a line `require NAME RANGE` for each of its
/// requirements, `component NAME VERSION CONFIG` for
/// each component, its configuration as compact JSON, `closed ID OUTCOME` for each closed deployment, and where one
/// is pending `pending ID STAGE`.
pub fn status_lines(alloc: Global, device: &Device) -> Result<Text, NoMemory>
    requires origin { IsSome device.now.origin }
    requires regular { IsRegularDevice (device_view device.now) }
    ensures { IfOk result (λ text. text ≡ status_text (device_view device.now)) }
{
    let mut out = Text::empty(alloc);
    put_origin(&mut out, device.origin.as_ref().unwrap())?;
    put_groups(alloc, &mut out, &device.groups)?;
    put_components(alloc, &mut out, device.set.as_slice())?;
    put_closed(&mut out, device.closed.as_slice())?;
    put_pending(&mut out, &device.pending)?;
    Ok(out)
}

/// Adds a line: a word, more words with a space before each, and a line feed.
pub fn put_line(out: &mut Text, word: &str, more: &[&str]) -> Result<(), NoMemory>
    ensures { OnOk result (out.new ≡ out.old ++ line word.now (texts more.now)) }
{
    out.push_str(word)?;
    for next in more {
        out.push_str(" ")?;
        out.push_str(next)?;
    }
    out.push_str("\n")
}

/// Adds a line of three words.
fn put_pair<'a>(out: &mut Text, word: &str, first: &'a str, second: &'a str) -> Result<(), NoMemory>
    ensures { OnOk result (out.new ≡ out.old ++ line word.now (first.now ∷ second.now ∷ [])) }
{
    put_line(out, word, &[first, second])
}

fn put_origin(out: &mut Text, origin: &Origin) -> Result<(), NoMemory>
    ensures { OnOk result (out.new ≡ out.old ++ origin_lines (Some origin.now)) }
{
    put_line(out, "thing", &[origin.thing.as_str()])?;
    put_line(out, "nucleus", &[origin.nucleus.text().as_str()])
}

fn put_groups(alloc: Global, out: &mut Text, groups: &Groups) -> Result<(), NoMemory>
    ensures { OnOk result (out.new ≡ out.old ++ flat_map group_lines groups.now.list) }
{
    for at in 0..groups.len() {
        put_group(alloc, out, group_at(groups, at))?;
    }
    Ok(())
}

fn put_group(alloc: Global, out: &mut Text, group: &Group) -> Result<(), NoMemory>
    ensures { OnOk result (out.new ≡ out.old ++ group_lines group.now) }
{
    put_line(out, "group", &[group.arn.as_str()])?;
    put_revision(alloc, out, group.revision)?;
    put_requirements(out, group.requirements.as_slice())
}

/// Adds the line of a revision, where there is one.
fn put_revision(alloc: Global, out: &mut Text, revision: u64) -> Result<(), NoMemory>
    ensures { OnOk result (out.new ≡ out.old ++ revision_line revision) }
{
    if revision == 0 {
        return Ok(());
    }
    let number = format!(in alloc; "{revision}")?;
    put_line(out, "revision", &[number.as_str()])
}

fn put_requirements(out: &mut Text, requirements: &[Requirement]) -> Result<(), NoMemory>
    ensures { OnOk result (out.new ≡ out.old ++ flat_map requirement_line requirements.now) }
{
    for requirement in requirements {
        let range = requirement.range.text();
        put_pair(out, "require", requirement.name.as_str(), range.as_str())?;
    }
    Ok(())
}

fn put_components(alloc: Global, out: &mut Text, items: &[Item]) -> Result<(), NoMemory>
    requires { AreRegular (map item_view items.now) }
    ensures { OnOk result (out.new ≡ out.old ++ flat_map component_line (map item_view items.now)) }
{
    for item in items {
        put_component(alloc, out, item)?;
    }
    Ok(())
}

fn put_component(alloc: Global, out: &mut Text, item: &Item) -> Result<(), NoMemory>
    requires { IsRegular (view item.now.config) }
    ensures { OnOk result (out.new ≡ out.old ++ component_line (item_view item.now)) }
{
    let config = item.config.write(alloc)?;
    let version = item.version.text();
    put_line(
        out,
        "component",
        &[item.name.as_str(), version.as_str(), config.as_str()],
    )
}

fn put_closed(out: &mut Text, closed: &[(Label, Outcome)]) -> Result<(), NoMemory>
    ensures { OnOk result (out.new ≡ out.old ++ flat_map closed_line closed.now) }
{
    for (id, outcome) in closed {
        put_pair(out, "closed", id.as_str(), outcome_word(*outcome))?;
    }
    Ok(())
}

fn put_pending(out: &mut Text, pending: &Option<Pending>) -> Result<(), NoMemory>
    ensures { OnOk result (out.new ≡ out.old ++ pending_lines (option_map pending_view pending.now)) }
{
    match pending {
        Some(pending) => {
            let stage = stage_word(pending.stage);
            put_pair(out, "pending", pending.plan.id.as_str(), stage)
        }
        None => Ok(()),
    }
}
