// Which bootstrap steps run again on the way back.
ghost use Rattle.std.specs.Prelude.{◌≡◌, ◌≤◌, length, map, IfOk};
ghost use Rattle.records.specs.Stored.{item_view};
ghost use Rattle.device.specs.Backing.{SaysBack, TellsBack, TellBacks};

use crate::named::item_named;
use crate::plan_recipes::recipe_in;
use nuc_base::{Name, NoMemory, Platform};
use recipe_reader::recipe_laws;
use records::Item;
use std::alloc::Global;

/// Whether the bootstrap step of the item does. It is `None` where its bytes are no recipe.
fn says_back(alloc: Global, platform: &Platform, item: &Item) -> Result<Option<bool>, NoMemory>
    ensures { IfOk result (SaysBack platform.now (item_view item.now)) }
{
    recipe_laws();
    match recipe_in(alloc, platform, item.recipe.as_slice())? {
        Some(recipe) => Ok(Some(recipe.boot_back)),
        None => Ok(None),
    }
}

/// Whether that of the item of this name does.
fn goes_back(
    alloc: Global,
    platform: &Platform,
    set: &[Item],
    name: &Name,
) -> Result<Option<bool>, NoMemory>
    ensures { IfOk result (TellsBack platform.now (map item_view set.now) name.now) }
{
    match item_named(set, name) {
        Some(item) => says_back(alloc, platform, item),
        None => Ok(Some(false)),
    }
}

/// Whether each of the names does, flag by flag. It is false where the bytes of one are no recipe.
pub(crate) fn tell_backs(
    alloc: Global,
    platform: &Platform,
    set: &[Item],
    names: &[Name],
    flags: &mut [bool; 128],
) -> Result<bool, NoMemory>
    requires { length names.now ≤ 128 }
    ensures { IfOk result (TellBacks platform.now (map item_view set.now) names.now flags.new) }
{
    for (at, name) in names.iter().enumerate() {
        let Some(back) = goes_back(alloc, platform, set, name)? else {
            return Ok(false);
        };
        flags[at] = back;
    }
    Ok(true)
}
