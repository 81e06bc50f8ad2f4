// Items by their names, whether they stand in order or not.
ghost use Rattle.std.specs.Prelude.{◌≡◌, map, option_map};
ghost use Rattle.records.specs.Stored.{item_view};
ghost use Rattle.device.specs.Lawful.{place, item_named};

use nuc_base::Name;
use records::Item;

/// The place of the first item with this name.
pub(crate) fn place_of(items: &[Item], name: &Name) -> Option<usize>
    ensures { result ≡ place name.now (map item_view items.now) }
{
    let mut at = 0;
    for item in items {
        if *name == item.name {
            return Some(at);
        }
        at += 1;
    }
    None
}

/// The first item with this name.
pub(crate) fn item_named<'a>(items: &'a [Item], name: &Name) -> Option<&'a Item>
    ensures { option_map (λ i. item_view i.now) result ≡ item_named name.now (map item_view items.now) }
{
    for item in items {
        if *name == item.name {
            return Some(item);
        }
    }
    None
}
