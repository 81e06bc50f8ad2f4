//! What befalls all components at once. Those that took another item since the last change may need other components, so
//! each is linked anew.
ghost use Rattle.std.specs.Prelude.{◌≡◌, map};
ghost use Rattle.components.specs.Changes.{leaving, forgetting};

use crate::places::link;
use crate::slot::Slot;

fn leave_each(slots: &mut [Slot])
    ensures { slots.new ≡ map leaving slots.old }
{
    for slot in slots.iter_mut() {
        slot.leave();
    }
}

fn forget_each(slots: &mut [Slot])
    ensures { slots.new ≡ map forgetting slots.old }
{
    for slot in slots.iter_mut() {
        slot.forget();
    }
}

/// All are to be stopped for good.
pub(crate) fn leave_all(slots: &mut Vec<Slot>)
    ensures { slots.new.items ≡ map leaving slots.old.items }
{
    leave_each(slots.as_mut_slice());
    link(slots.as_slice());
}

/// The failures of all are forgotten.
pub(crate) fn forget_all(slots: &mut Vec<Slot>)
    ensures { slots.new.items ≡ map forgetting slots.old.items }
{
    forget_each(slots.as_mut_slice());
    link(slots.as_slice());
}
