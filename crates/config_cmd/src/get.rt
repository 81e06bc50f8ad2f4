//! A node of a component's configuration.
ghost use Rattle.std.specs.Prelude.{◌≡◌, map, option_map};
ghost use Rattle.nuc_base.specs.Tables.{AnswerBy};
ghost use Rattle.records.specs.Stored.{item_view};
ghost use Rattle.device.specs.Devices.{device_view, IsRegularDevice};
ghost use Rattle.device.specs.Lawful.{item_named as item_by};
ghost use Rattle.config_cmd.specs.declared.fault.GetFault.TheVariants.{NoMemory as OutOfMemory};
ghost use Rattle.config_cmd.specs.Nodes.{get_lines, IsNodeText};

use crate::fault::GetFault;
use device::Device;
use nuc_base::{Name, Pointer, Text};
use records::Item;
use std::alloc::Global;

/// The item of that name.
pub(crate) fn item_named<'a>(items: &'a [Item], name: &Name) -> Option<&'a Item>
    ensures { option_map (λ i. item_view i.now) result ≡ item_by name.now (map item_view items.now) }
{
    for item in items {
        if *name == item.name {
            return Some(item);
        }
    }
    None
}

/// The compact JSON text of the node that the pointer names in the configuration of the component of this name, as the
/// device's set has it.
pub fn config_get(
    alloc: Global,
    device: &Device,
    name: &Name,
    at: &Pointer,
) -> Result<Text, GetFault>
    requires { IsRegularDevice (device_view device.now) }
    ensures { AnswerBy OutOfMemory
        (get_lines (device_view device.now) name.now at.now)
        (IsNodeText (device_view device.now) name.now at.now)
        result }
{
    let Some(item) = item_named(device.set.as_slice(), name) else {
        return Err(GetFault::NoComponent);
    };
    let Some(node) = item.config.get(at) else {
        return Err(GetFault::NoNode);
    };
    Ok(node.write(alloc)?)
}
