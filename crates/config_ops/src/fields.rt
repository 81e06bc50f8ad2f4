// The fields of an object, from the beginning in key order.
ghost use Rattle.std.specs.Prelude.{◌≡◌, ◌∷◌, ◌++◌, OnOk, IfSome, IfNone, Some};
ghost use Rattle.std.specs.Ordering.{nat_cmp};
ghost use Rattle.std.specs.Cmp.Lexicographic.{slice_cmp};
ghost use Rattle.config_ops.specs.Places.{ranks, fields_before, fields_from};

use nuc_base::{NoMemory, Text};
use std::cmp::Ordering;
use std::collections::VecDeque;
use tree_core::Tree;

/// Moves the fields whose keys come before the name.
pub(crate) fn move_before(
    name: &Text,
    rest: &mut VecDeque<(Text, Tree)>,
    done: &mut Vec<(Text, Tree)>,
) -> Result<(), NoMemory>
    ensures rest { OnOk result (rest.new.items ≡ fields_from name.now rest.old.items) }
    ensures done { OnOk result (done.new.items
        ≡ done.old.items ++ fields_before name.now rest.old.items) }
{
    'moving: while let Some(field) = pop_where(Ordering::Greater, name, rest) {
        done.push(field)?;
    }
    Ok(())
}

/// Takes the first field where the name stands so to its key.
pub(crate) fn pop_where(
    order: Ordering,
    name: &Text,
    rest: &mut VecDeque<(Text, Tree)>,
) -> Option<(Text, Tree)>
    ensures some { IfSome result (λ f. (rest.old.items ≡ f ∷ rest.new.items)
        × (slice_cmp nat_cmp name.now f.0 ≡ order)) }
    ensures none { IfNone result ((rest.new.items ≡ rest.old.items)
        × (ranks name.now rest.old.items ≡ Some order → ⊥)) }
{
    let (key, _) = rest.front()?;
    if name.cmp(key) != order {
        return None;
    }
    rest.pop_front()
}

pub(crate) fn move_all(
    rest: VecDeque<(Text, Tree)>,
    done: &mut Vec<(Text, Tree)>,
) -> Result<(), NoMemory>
    ensures { OnOk result (done.new.items ≡ done.old.items ++ rest.items) }
{
    for field in rest {
        done.push(field)?;
    }
    Ok(())
}
