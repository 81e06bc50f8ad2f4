//! Making ready the bootstrap steps that may run again on the way back.
ghost use Rattle.std.specs.Prelude.{◌≡◌, filter, map, IfOk};
ghost use Rattle.records.specs.Stored.{item_view};
ghost use Rattle.device.specs.Lawful.{goes_back};
ghost use Rattle.device.specs.Plans.{AreItems, AreRegularItems};
ghost use Rattle.session_boots.specs.Made.{AreBootsOf};

use crate::boots::{place_of, prepare_boot};
use components::Prepared;
use nuc_base::{List, Name, NoMemory};
use recipe_reader::{Recipe, recipe_laws};
use records::{Item, Origin};
use std::alloc::Global;

/// Whether the item of this name has a bootstrap step that runs again on the way back.
fn goes_back(alloc: Global, origin: &Origin, set: &[Item], name: &Name) -> Result<bool, NoMemory>
    requires { AreItems origin.now.platform (map item_view set.now) }
    ensures { IfOk result (λ back. back ≡ goes_back origin.now.platform (map item_view set.now) name.now) }
{
    recipe_laws();
    let Some(at) = place_of(set, name) else {
        return Ok(false);
    };
    let item = &set[at as usize];
    match Recipe::read(alloc, item.recipe.as_slice(), &origin.platform) {
        Ok(recipe) => Ok(recipe.boot_back),
        // The bytes of each item are a recipe.
        Err(_) => Err(NoMemory),
    }
}

/// The bootstrap steps of the items of the set that run again on the way back, of those that these names have, in the order of
/// the names.
pub fn prepare_backs(
    alloc: Global,
    origin: &Origin,
    set: &List<Item>,
    names: &List<Name>,
) -> Result<List<Prepared>, NoMemory>
    requires items { AreItems origin.now.platform (map item_view set.now) }
    requires regular { AreRegularItems (map item_view set.now) }
    ensures { IfOk result (AreBootsOf origin.now (map item_view set.now) (filter (goes_back origin.now.platform (map item_view set.now)) names.now)) }
{
    recipe_laws();
    let mut made = Vec::new(alloc);
    for name in names.as_slice() {
        let back = goes_back(alloc, origin, set.as_slice(), name)?;
        if back {
            made.push(prepare_boot(alloc, origin, set, name)?)?;
        }
    }
    Ok(List::new(made))
}
