ghost use Rattle.std.specs.Prelude.{◌≡◌, ◌++◌, map, IfOk, OnOk};
ghost use Rattle.std.specs.List.{flat_map};
ghost use Rattle.records.specs.Stored.{draft_item_view, draft_view};
ghost use Rattle.refusal_lines.specs.Lines.{item_line, boot_line, plan_lines};

use nuc_base::{Name, NoMemory, Text};
use records::{Draft, DraftItem};
use status_text::put_line;
use std::alloc::Global;

fn put_item(out: &mut Text, item: &DraftItem) -> Result<(), NoMemory>
    ensures { OnOk result (out.new ≡ out.old ++ item_line (draft_item_view item.now)) }
{
    let version = item.version.text();
    put_line(out, "plan", &[item.name.as_str(), version.as_str()])
}

fn put_items(out: &mut Text, items: &[DraftItem]) -> Result<(), NoMemory>
    ensures { OnOk result (out.new ≡ out.old ++ flat_map item_line (map draft_item_view items.now)) }
{
    for item in items {
        put_item(out, item)?;
    }
    Ok(())
}

fn put_boot(out: &mut Text, name: &Name) -> Result<(), NoMemory>
    ensures { OnOk result (out.new ≡ out.old ++ boot_line name.now) }
{
    put_line(out, "boot", &[name.as_str()])
}

fn put_boots(out: &mut Text, boots: &[Name]) -> Result<(), NoMemory>
    ensures { OnOk result (out.new ≡ out.old ++ flat_map boot_line boots.now) }
{
    for name in boots {
        put_boot(out, name)?;
    }
    Ok(())
}

/// What a plan prints: `plan NAME VERSION` for each item in its order, and then `boot NAME` for each bootstrap in the
/// order in which they would run.
pub fn plan_text(alloc: Global, draft: &Draft) -> Result<Text, NoMemory>
    ensures { IfOk result (λ text. text ≡ plan_lines (draft_view draft.now)) }
{
    let mut out = Text::empty(alloc);
    put_items(&mut out, draft.items.as_slice())?;
    put_boots(&mut out, draft.boots.as_slice())?;
    Ok(out)
}
