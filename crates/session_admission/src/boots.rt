//! Making ready the bootstrap steps of a plan.
ghost use Rattle.std.specs.Prelude.{◌≡◌, ◌≤◌, IfOk, length, map};
ghost use Rattle.records.specs.Stored.{item_view};
ghost use Rattle.device.specs.Lawful.{place};
ghost use Rattle.device.specs.Plans.{AreBoots, AreItems, AreRegularItems, IsBoot};
ghost use Rattle.session_boots.specs.Made.{AreBootsOf, IsBootOf};

use components::{Prepared, step_of};
use nuc_base::{List, Name, NoMemory, Step};
use recipe_reader::recipe_laws;
use records::{Item, Origin};
use std::alloc::Global;

/// The place of the first item with this name.
pub(crate) fn place_of(items: &[Item], name: &Name) -> Option<u32>
    requires few { length items.now ≤ 128 }
    ensures { result ≡ place name.now (map item_view items.now) }
{
    let mut at = 0u32;
    for item in items {
        if *name == item.name {
            return Some(at);
        }
        at += 1;
    }
    None
}

/// The bootstrap step of the item of this name, which has one.
pub(crate) fn prepare_boot(
    alloc: Global,
    origin: &Origin,
    items: &List<Item>,
    name: &Name,
) -> Result<Prepared, NoMemory>
    requires items { AreItems origin.now.platform (map item_view items.now) }
    requires regular { AreRegularItems (map item_view items.now) }
    requires boot { IsBoot origin.now.platform (map item_view items.now) name.now }
    ensures { IfOk result (IsBootOf origin.now (map item_view items.now) name.now) }
{
    recipe_laws();
    let Some(at) = place_of(items.as_slice(), name) else {
        unreachable!();
    };
    let Some(made) = step_of(alloc, origin, items, at, Step::Bootstrap)? else {
        unreachable!();
    };
    Ok(made)
}

/// The bootstrap steps of items, by these names, each with its texts expanded over the scope of its item.
pub fn prepare_boots(
    alloc: Global,
    origin: &Origin,
    items: &List<Item>,
    names: &List<Name>,
) -> Result<List<Prepared>, NoMemory>
    requires items { AreItems origin.now.platform (map item_view items.now) }
    requires regular { AreRegularItems (map item_view items.now) }
    requires boots { AreBoots origin.now.platform (map item_view items.now) names.now }
    ensures { IfOk result (AreBootsOf origin.now (map item_view items.now) names.now) }
{
    let mut made = Vec::new(alloc);
    for name in names.as_slice() {
        made.push(prepare_boot(alloc, origin, items, name)?)?;
    }
    Ok(List::new(made))
}
