ghost use Rattle.std.specs.Prelude.{◌≡◌, ◌++◌, ◌∷◌, ◌<◌, ◌^◌, ℕ, IfOk, OnOk, IsSome, Some, [], map, nat_lt, decimal, codes, option_map, ⊤};
ghost use Rattle.std.specs.List.{AllByRecursion};
ghost use Rattle.json.specs.Print.{quoted};
ghost use Rattle.serde_json.specs.Data.{Data};
ghost use Rattle.serde_json.specs.Read.{read};
ghost use Rattle.serde_json.specs.Written.{compact_text, comma_if};
ghost use Rattle.records.specs.Stored.{item_view};
ghost use Rattle.tree_core.specs.Regular.{IsRegular};
ghost use Rattle.tree_core.specs.View.{view};
ghost use Rattle.device.specs.Devices.{device_view, pending_view, IsRegularDevice};
ghost use Rattle.status_text.specs.Regularity.{AreRegular, AreNumbers};
ghost use Rattle.status_text.specs.Status.{list_tree, closed_tree, component_tree, requirement_tree, group_tree, pending_tree, status_tree};

use crate::places::group_at;
use crate::words::{outcome_word, stage_word};
use device::{Device, Groups, Pending};
use nuc_base::{Label, NoMemory, Outcome, Text};
use records::{Group, Item, Origin, Requirement};
use std::alloc::Global;
use tree_core::Tree;

/// What is shown as a JSON value, written without a tree of it.
trait Shown {
    ghost tree: { Self → Data };

    ghost can_show: { Self → Type 0 };

    /// Adds its compact text.
    fn show(&self, alloc: Global, out: &mut Text) -> Result<(), NoMemory>
        requires { Self.can_show self.now }
        ensures { OnOk result (out.new ≡ out.old ++ compact_text (Self.tree self.now)) };
}

impl Shown for (Label, Outcome) {
    ghost tree = { closed_tree };

    ghost can_show = { λ c. ⊤ };

    fn show(&self, alloc: Global, out: &mut Text) -> Result<(), NoMemory> {
        let id = ("{\"id\":", self.0.as_str());
        put_pair(alloc, out, id, (",\"outcome\":", outcome_word(self.1)))
    }
}

impl Shown for Requirement {
    ghost tree = { requirement_tree };

    ghost can_show = { λ r. ⊤ };

    fn show(&self, alloc: Global, out: &mut Text) -> Result<(), NoMemory> {
        let range = self.range.text();
        let name = ("{\"name\":", self.name.as_str());
        put_pair(alloc, out, name, (",\"range\":", range.as_str()))
    }
}

impl Shown for Item {
    ghost tree = { λ i. component_tree (item_view i) };

    ghost can_show = { λ i. IsRegular (view i.config) };

    fn show(&self, alloc: Global, out: &mut Text) -> Result<(), NoMemory> {
        let config = self.config.write(alloc)?;
        let version = self.version.text();
        out.push_str("{\"config\":")?;
        out.push_str(config.as_str())?;
        let name = (",\"name\":", self.name.as_str());
        put_pair(alloc, out, name, (",\"version\":", version.as_str()))
    }
}

/// The status of a device as one JSON text (RFC 8259) without blanks and without a line feed at its end: an object with
/// the keys `closed`, `components`, `groups`, `nucleus`, `pending` and `thing`. A JSON reader gets that object back. It
/// is written as it goes, so it takes memory for the text and for one configuration at a time.
pub fn status_json(alloc: Global, device: &Device) -> Result<Text, NoMemory>
    requires origin { IsSome device.now.origin }
    requires regular { IsRegularDevice (device_view device.now) }
    ensures text { IfOk result (λ text. text ≡ compact_text (status_tree (device_view device.now))) }
    ensures reads_back { IfOk result (λ text. read text ≡ Some (status_tree (device_view device.now))) }
{
    let mut out = Text::empty(alloc);
    put_lists(alloc, &mut out, device)?;
    put_rest(
        alloc,
        &mut out,
        device.origin.as_ref().unwrap(),
        &device.pending,
    )?;
    Ok(out)
}

/// Adds a text in quotes, escaped.
fn put_text(alloc: Global, out: &mut Text, text: &str) -> Result<(), NoMemory>
    ensures { OnOk result (out.new ≡ out.old ++ quoted text.now) }
{
    let tree = Tree::Text(Text::from_str(alloc, text)?);
    let text = tree.write(alloc)?;
    out.push_str(text.as_str())
}

/// Adds a number in decimal digits.
fn put_number(alloc: Global, out: &mut Text, number: u64) -> Result<(), NoMemory>
    ensures { OnOk result (out.new ≡ out.old ++ decimal number) }
{
    let digits = format!(in alloc; "{number}")?;
    out.push_str(digits.as_str())
}

/// Adds two texts, each with what stands before it, and the end of an object.
fn put_pair(
    alloc: Global,
    out: &mut Text,
    first: (&str, &str),
    second: (&str, &str),
) -> Result<(), NoMemory>
    ensures { OnOk result (out.new ≡ out.old ++ (first.entry.0.now
        ++ (quoted first.entry.1.now ++ (second.entry.0.now ++ (quoted second.entry.1.now ++ codes "}"))))) }
{
    out.push_str(first.0)?;
    put_text(alloc, out, first.1)?;
    out.push_str(second.0)?;
    put_text(alloc, out, second.1)?;
    out.push_str("}")
}

/// Adds a comma, but not before the first element of a list.
fn put_comma(out: &mut Text, at: usize) -> Result<(), NoMemory>
    ensures { OnOk result (out.new ≡ out.old ++ comma_if (nat_lt 0 at)) }
{
    if 0 < at {
        return out.push_str(",");
    }
    Ok(())
}

fn put_list<T: Shown>(alloc: Global, out: &mut Text, items: &[T]) -> Result<(), NoMemory>
    requires { AllByRecursion T.can_show items.now }
    ensures { OnOk result (out.new ≡ out.old ++ compact_text (list_tree T.tree items.now)) }
{
    out.push_str("[")?;
    for (at, item) in items.iter().enumerate() {
        put_comma(out, at)?;
        item.show(alloc, out)?;
    }
    out.push_str("]")
}

fn put_groups(alloc: Global, out: &mut Text, groups: &Groups) -> Result<(), NoMemory>
    ensures text { OnOk result (out.new ≡ out.old ++ compact_text (list_tree group_tree groups.now.list)) }
    ensures numbers { OnOk result (AreNumbers groups.now.list) }
{
    out.push_str("[")?;
    for at in 0..groups.len() {
        put_comma(out, at)?;
        put_group(alloc, out, group_at(groups, at))?;
    }
    out.push_str("]")
}

fn put_group(alloc: Global, out: &mut Text, group: &Group) -> Result<(), NoMemory>
    ensures text { OnOk result (out.new ≡ out.old ++ compact_text (group_tree group.now)) }
    ensures number { OnOk result (group.now.revision < 2 ^ 64) }
{
    out.push_str("{\"arn\":")?;
    put_text(alloc, out, group.arn.as_str())?;
    out.push_str(",\"components\":")?;
    put_list(alloc, out, group.requirements.as_slice())?;
    out.push_str(",\"revision\":")?;
    put_number(alloc, out, group.revision)?;
    out.push_str("}")
}

/// Adds the beginning of the object, up to its third field.
fn put_lists(alloc: Global, out: &mut Text, device: &Device) -> Result<(), NoMemory>
    requires { IsRegularDevice (device_view device.now) }
    ensures text { OnOk result (out.new ≡ out.old ++ (codes "{\"closed\":"
        ++ (compact_text (list_tree closed_tree device.now.closed)
        ++ (codes ",\"components\":" ++ (compact_text (list_tree component_tree (map item_view device.now.set))
        ++ (codes ",\"groups\":" ++ compact_text (list_tree group_tree device.now.groups.list))))))) }
    ensures numbers { OnOk result (AreNumbers device.now.groups.list) }
{
    out.push_str("{\"closed\":")?;
    put_list(alloc, out, device.closed.as_slice())?;
    out.push_str(",\"components\":")?;
    put_list(alloc, out, device.set.as_slice())?;
    out.push_str(",\"groups\":")?;
    put_groups(alloc, out, &device.groups)
}

/// Adds the fields behind the third one, and the end of the object.
fn put_rest(
    alloc: Global,
    out: &mut Text,
    origin: &Origin,
    pending: &Option<Pending>,
) -> Result<(), NoMemory>
    ensures { OnOk result (out.new ≡ out.old ++ (codes ",\"nucleus\":"
        ++ (quoted origin.now.nucleus ++ (codes ",\"pending\":"
        ++ (compact_text (pending_tree (option_map pending_view pending.now)) ++ (codes ",\"thing\":" ++ (quoted origin.now.thing ++ codes "}"))))))) }
{
    out.push_str(",\"nucleus\":")?;
    put_text(alloc, out, origin.nucleus.text().as_str())?;
    out.push_str(",\"pending\":")?;
    put_pending(alloc, out, pending)?;
    out.push_str(",\"thing\":")?;
    put_text(alloc, out, origin.thing.as_str())?;
    out.push_str("}")
}

fn put_pending(alloc: Global, out: &mut Text, pending: &Option<Pending>) -> Result<(), NoMemory>
    ensures { OnOk result (out.new ≡ out.old ++ compact_text (pending_tree (option_map pending_view pending.now))) }
{
    match pending {
        Some(pending) => {
            let id = ("{\"id\":", pending.plan.id.as_str());
            put_pair(alloc, out, id, (",\"stage\":", stage_word(pending.stage)))
        }
        None => out.push_str("null"),
    }
}
