//! What a later change takes.
ghost use Rattle.std.specs.Prelude.{◌≤◌, length, map, IfOk};
ghost use Rattle.std.specs.List.{AllByRecursion};
ghost use Rattle.records.specs.Stored.{item_view};
ghost use Rattle.device.specs.Plans.{AreRegularItems, HasSomeRecipe, AreRising, item_name};
ghost use Rattle.device.specs.Scopes.{HasScope};
ghost use Rattle.components.specs.Made.{AreFitted, IsFittedAt};
ghost use Rattle.components.specs.Readied.{IsFresh, AreFresh};
ghost use Rattle.components.specs.Components.{ComponentState};

use crate::children::Children;
use crate::fitted::fit;
use crate::slot::Slot;
use nuc_base::{List, NoMemory};
use records::{Item, Origin};
use std::alloc::Global;
use std::marker::Model;

/// Items that are ready to run, and room for the components that stand.
#[derive(Drop)]
pub struct Ready {
    pub(crate) coming: Vec<Slot>,
    pub(crate) room: Vec<Slot>,
    pub(crate) flags: Vec<bool>,
}

impl Model for Ready {
    ghost use Rattle.std.specs.Prelude.{◌≡◌, ◌<◌, ◌≤◌, ◌-◌, ◌^◌, [], length, map, vec_capacity};
    ghost use Rattle.components.specs.Components.{ComponentState, component_name};
    ghost use Rattle.components.specs.Readied.{Readied, AreFresh, AreNamesApart};
    ghost use Rattle.std.specs.Coded.{codes};
    ghost use Rattle.supervisor.specs.Coding.{data_code};

    ghost Value = { Readied };

    ghost coded = { Prim.hlevel (codes, data_code) };

    ghost view = { λ r. record { coming = map (λ (p : ComponentState). p.fitted) r.coming.items; room = vec_capacity r.room - length r.coming.items } };

    ghost invariant = { λ r. (r.room.items ≡ []) × (r.flags.items ≡ []) × (length r.coming.items ≤ vec_capacity r.room) ×
        (vec_capacity r.room ≤ vec_capacity r.flags) × (vec_capacity r.room < 2 ^ 32) × (length r.coming.items ≤ 128) × AreFresh r.coming.items ×
        AreNamesApart (map component_name r.coming.items) };
}

/// The item at that place made ready, as a component that did not stand before.
fn fit_one(alloc: Global, origin: &Origin, items: &List<Item>, at: u32) -> Result<Slot, NoMemory>
    requires recipe { HasScope origin.now (map item_view items.now) at }
    requires regular { AreRegularItems (map item_view items.now) }
    ensures fitted { IfOk result (λ slot. IsFittedAt origin.now (map item_view items.now) at slot.fitted) }
    ensures fresh { IfOk result (λ slot. IsFresh slot) }
{
    let children = Children::none(alloc)?;
    let fitted = fit(alloc, origin, items, at)?;
    Ok(Slot::fresh(fitted, children, 0))
}

/// The items made ready, each as a component that did not stand before.
fn fit_all(alloc: Global, origin: &Origin, items: &List<Item>) -> Result<Vec<Slot>, NoMemory>
    requires few { length items.now ≤ 128 }
    requires recipes { AllByRecursion (λ i. HasSomeRecipe origin.now.platform i.recipe) (map item_view items.now) }
    requires regular { AreRegularItems (map item_view items.now) }
    ensures fitted { IfOk result (λ slots. AreFitted origin.now (map item_view items.now) (map (λ (p : ComponentState). p.fitted) slots.items)) }
    ensures fresh { IfOk result (λ slots. AreFresh slots.items) }
{
    let mut slots = Vec::with_capacity(alloc, items.len())?;
    for at in 0..items.len() as u32 {
        slots.push(fit_one(alloc, origin, items, at)?)?;
    }
    Ok(slots)
}

/// Takes all memory that a later change to these items needs, beside so many components that stand.
pub(crate) fn make_ready(
    alloc: Global,
    origin: &Origin,
    items: &List<Item>,
    standing: usize,
) -> Result<Ready, NoMemory>
    requires rise { AreRising (map item_name (map item_view items.now)) }
    requires few { length items.now ≤ 128 }
    requires recipes { AllByRecursion (λ i. HasSomeRecipe origin.now.platform i.recipe) (map item_view items.now) }
    requires regular { AreRegularItems (map item_view items.now) }
    ensures made { IfOk result (λ r. AreFitted origin.now (map item_view items.now) r.coming) }
    ensures room { IfOk result (λ r. standing ≤ r.room) }
{
    let coming = fit_all(alloc, origin, items)?;
    let Some(many) = standing.checked_add(coming.len()) else {
        return Err(NoMemory);
    };
    if many > 0xffff_ffff {
        return Err(NoMemory);
    }
    let room = Vec::with_capacity(alloc, many)?;
    let flags = Vec::with_capacity(alloc, many)?;
    Ok(Ready {
        coming,
        room,
        flags,
    })
}
