//! Making ready all that the steps of a deployment need.
ghost use Rattle.std.specs.Prelude.{◌≤◌, map, IfOk};
ghost use Rattle.records.specs.Stored.{item_view, plan_view};
ghost use Rattle.device.specs.Plans.{AreItems, AreRegularItems, IsPlan};
ghost use Rattle.components.specs.Answers.{standing_count};
ghost use Rattle.session_admission.specs.Readied.{IsReadied};

use crate::backs::prepare_backs;
use crate::boots::prepare_boots;
use components::{Prepared, Supervise};
use nuc_base::{List, NoMemory};
use records::{Item, Origin, Plan};
use std::alloc::Global;

/// What the steps of a deployment need that takes memory, made beforehand.
#[derive(Drop)]
pub struct Readied<Ready: Drop> {
    /// The bootstrap steps of the plan, by their places in it.
    pub boots: List<Prepared>,
    /// Those of the set that may run again on the way back, in the plan's order.
    pub backs: List<Prepared>,
    /// What the change to the plan's items takes.
    pub items: Ready,
    /// What the change back to the items of the set takes.
    pub earlier: Ready,
}

/// Takes all memory that the steps of this plan need up to its close, on a device that has these items.
pub fn prepare<S: Supervise>(
    alloc: Global,
    supervisor: &S,
    origin: &Origin,
    set: &List<Item>,
    plan: &Plan,
) -> Result<Readied<S::Ready>, NoMemory>
where
    S::Ready: Drop,
    requires set { AreItems origin.now.platform (map item_view set.now) }
    requires set_regular { AreRegularItems (map item_view set.now) }
    requires plan { IsPlan origin.now.platform (plan_view plan.now) }
    requires plan_regular { AreRegularItems (plan_view plan.now).items }
    ensures readied { IfOk result (λ r. IsReadied origin.now (map item_view set.now) (plan_view plan.now) r.boots r.backs (S.coming r.items)
        (S.coming r.earlier)) }
    ensures room { IfOk result (λ r. standing_count (S.world supervisor.now) ≤ S.room r.items) }
    ensures room_back { IfOk result (λ r. standing_count (S.world supervisor.now) ≤ S.room r.earlier) }
{
    let boots = prepare_boots(alloc, origin, &plan.items, &plan.boots)?;
    let backs = prepare_backs(alloc, origin, set, &plan.boots)?;
    let items = supervisor.ready(alloc, origin, &plan.items)?;
    let earlier = supervisor.ready(alloc, origin, set)?;
    Ok(Readied {
        boots,
        backs,
        items,
        earlier,
    })
}
