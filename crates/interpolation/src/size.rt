ghost use Rattle.std.specs.Prelude.{◌≡◌, ◌+◌, ◌<◌, MatchOption};
ghost use Rattle.interpolation.specs.Sizes.{least_size, items_least, members_least};
ghost use Rattle.tree_core.specs.View.{view, items_view, fields_view};

use nuc_base::Text;
use tree_core::Tree;

/// The room that is left behind the tree's text, if that has no more bytes than its texts and keys and one for each
/// item and field; None where there is not even that room. It visits no more nodes than the room has bytes.
#[cycle(size)]
pub(crate) fn room_left(tree: &Tree, room: usize) -> Option<usize>
    ensures { MatchOption result (room < least_size (view tree.now))
        (λ left. left + least_size (view tree.now) ≡ room) }
{
    match tree {
        Tree::Text(text) => room.checked_sub(text.len()),
        Tree::Items(items) => room_behind_items(items, room),
        Tree::Fields(fields) => room_behind_fields(fields, room),
        _ => Some(room),
    }
}

#[cycle(size)]
fn room_behind_items(items: &Vec<Tree>, room: usize) -> Option<usize>
    ensures { MatchOption result (room < items_least (items_view items.now.items))
        (λ left. left + items_least (items_view items.now.items) ≡ room) }
{
    let mut left = room;
    for item in items {
        left = room_left(item, left.checked_sub(1)?)?;
    }
    Some(left)
}

#[cycle(size)]
fn room_behind_fields(fields: &Vec<(Text, Tree)>, room: usize) -> Option<usize>
    ensures { MatchOption result (room < members_least (fields_view fields.now.items))
        (λ left. left + members_least (fields_view fields.now.items) ≡ room) }
{
    let mut left = room;
    for (name, field) in fields {
        let after_name = left.checked_sub(1)?.checked_sub(name.len())?;
        left = room_left(field, after_name)?;
    }
    Some(left)
}
