// Values of keys that are spelled exactly, and that they are regular where the whole is.
ghost use Rattle.std.specs.Prelude.{◌≡◌, option_map, IfSome};
ghost use Rattle.serde_json.specs.Find.{get as member_of};
ghost use Rattle.tree_core.specs.View.{view};
ghost use Rattle.tree_core.specs.Parts.{present};
ghost use Rattle.tree_core.specs.Regular.{IsRegular};
ghost use Rattle.recipe_reader.specs.Spelled.{spelled};

use crate::fault::Key;
use tree_core::Tree;

/// The value of a key.
pub fn member(tree: &Tree, key: Key) -> Option<&Tree>
    ensures { option_map (λ t. view t.now) result ≡ member_of (spelled key) (view tree.now) }
{
    tree.member(key.text())
}

/// The value of a key, where it is there and not null.
pub fn optional(tree: &Tree, key: Key) -> Option<&Tree>
    ensures value { option_map (λ t. view t.now) result ≡ present (member_of (spelled key) (view tree.now)) }
    ensures regular { IsRegular (view tree.now) → IfSome result (λ t. IsRegular (view t.now)) }
{
    tree.present(key.text())
}
