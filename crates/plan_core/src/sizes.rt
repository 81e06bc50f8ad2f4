//! The checks of a plan.
ghost use Rattle.std.specs.Prelude.{◌≡◌, ◌⊎◌, ℕ, ◌≤◌, ◌<◌, ◌^◌, map, length, MatchResult};
ghost use Rattle.serde_json.specs.Written.{compact_text};
ghost use Rattle.nuc_base.specs.Tables.{AllHold, IsFirst, IsFaultBy, each};
ghost use Rattle.tree_core.specs.View.{view};
ghost use Rattle.tree_core.specs.Regular.{IsRegular};
ghost use Rattle.records.specs.Stored.{item_view};
ghost use Rattle.device.specs.Devices.{device_view};
ghost use Rattle.device.specs.Plans.{AreRegularItems};
ghost use Rattle.plan_core.specs.Plans.{room_lines, config_lines};
ghost use Rattle.plan_core.specs.declared.fault.PlanFault.TheVariants.{NoMemory as OutOfMemory};

use crate::fault::PlanFault;
use deployment_doc::Document;
use device::{Device, MOST_CLOSED, MOST_CONFIG, MOST_ELEMENTS, MOST_GROUPS};
use nuc_base::{Copied, NoMemory};
use records::Item;
use std::alloc::Global;

/// Whether one more deployment may close, of this group.
pub(crate) fn check_room(device: &Device, document: &Document) -> Result<(), PlanFault>
    ensures { MatchResult result (λ _. AllHold (room_lines (device_view device.now) document.now))
        (IsFirst (room_lines (device_view device.now) document.now)) }
{
    if device.closed.len() >= MOST_CLOSED {
        return Err(PlanFault::TooManyClosed(MOST_CLOSED as u32));
    }
    if device.groups.contains(&document.group) {
        return Ok(());
    }
    if device.groups.len() >= MOST_GROUPS {
        return Err(PlanFault::TooManyGroups(MOST_GROUPS as u32 + 1));
    }
    Ok(())
}

/// Whether these are few enough items.
pub(crate) fn check_count(count: usize) -> Result<(), PlanFault>
    requires { count < 2 ^ 32 }
    ensures { MatchResult result (λ _. count ≤ 128) (λ f. (f ≡ PlanFault.TooManyComponents count) × (128 < count)) }
{
    if count > MOST_ELEMENTS {
        return Err(PlanFault::TooManyComponents(count as u32));
    }
    Ok(())
}

fn check_config(alloc: Global, item: &Item) -> Result<(), PlanFault>
    requires { IsRegular (view item.now.config) }
    ensures { MatchResult result (λ _. AllHold (config_lines (item_view item.now))) (IsFaultBy OutOfMemory (config_lines (item_view item.now))) }
{
    let text = item.config.write(alloc)?;
    if text.len() > MOST_CONFIG {
        let name = item.name.copy(alloc)?;
        return Err(PlanFault::ConfigTooLarge(name, text.len() as u64));
    }
    Ok(())
}

/// Whether each configuration is short.
pub(crate) fn check_configs(alloc: Global, items: &[Item]) -> Result<(), PlanFault>
    requires { AreRegularItems (map item_view items.now) }
    ensures { MatchResult result
        (λ _. AllHold (each config_lines (map item_view items.now)))
        (IsFaultBy OutOfMemory (each config_lines (map item_view items.now))) }
{
    for item in items {
        check_config(alloc, item)?;
    }
    Ok(())
}
