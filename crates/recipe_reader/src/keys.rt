// Keys that are compared without the case of ASCII letters.
ghost use Rattle.std.specs.Prelude.{◌≡◌, option_map, IfSome};
ghost use Rattle.tree_core.specs.View.{view, fields_view};
ghost use Rattle.tree_core.specs.Regular.{IsRegular};
ghost use Rattle.recipe_reader.specs.Spelled.{spelled};
ghost use Rattle.recipe_reader.specs.Keys.{is_same as are_same, has_key as key_of, has_two as two_of, value_of as first_of, any_case as case_of};
ghost use Rattle.recipe_reader.specs.Keys.{keyed as keyed_of, is_doubled as doubled_of};

use crate::fault::Key;
use nuc_base::Text;
use tree_core::Tree;

pub fn is_same(key: &str, other: &str) -> bool
    ensures { result ≡ are_same key.now other.now }
{
    key.eq_ignore_ascii_case(other)
}

/// The value of the first spelling of a key.
fn value_of<'t>(fields: &'t Vec<(Text, Tree)>, key: &str) -> Option<&'t Tree>
    ensures { option_map (λ t. view t.now) result ≡ first_of key.now (fields_view fields.now.items) }
{
    for (name, tree) in fields {
        if is_same(key, name.as_str()) {
            return Some(tree);
        }
    }
    None
}

/// Whether a field spells the key.
fn has_key(fields: &[(Text, Tree)], key: &str) -> bool
    ensures { result ≡ key_of key.now (fields_view fields.now) }
{
    for (name, _tree) in fields {
        if is_same(key, name.as_str()) {
            return true;
        }
    }
    false
}

/// Whether two fields spell one key.
fn has_two(fields: &[(Text, Tree)], key: &str) -> bool
    ensures { result ≡ two_of key.now (fields_view fields.now) }
{
    for (i, (name, _tree)) in fields.iter().enumerate() {
        if is_same(key, name.as_str()) {
            return has_key(&fields[i + 1..], key);
        }
    }
    false
}

/// The value of an object's key, in any case.
pub fn any_case(tree: &Tree, key: Key) -> Option<&Tree>
    requires { IsRegular (view tree.now) }
    ensures value { option_map (λ t. view t.now) result ≡ case_of (spelled key) (view tree.now) }
    ensures regular { IfSome result (λ t. IsRegular (view t.now)) }
{
    let Tree::Fields(fields) = tree else {
        return None;
    };
    value_of(fields, key.text())
}

/// The value of an object's key, in any case, where it is there and not null.
pub fn keyed(tree: &Tree, key: Key) -> Option<&Tree>
    requires { IsRegular (view tree.now) }
    ensures value { option_map (λ t. view t.now) result ≡ keyed_of (spelled key) (view tree.now) }
    ensures regular { IfSome result (λ t. IsRegular (view t.now)) }
{
    match any_case(tree, key) {
        Some(Tree::Null) | None => None,
        Some(value) => Some(value),
    }
}

/// Whether an object spells the key twice.
pub fn is_doubled(tree: &Tree, key: Key) -> bool
    ensures { result ≡ doubled_of (spelled key) (view tree.now) }
{
    let Tree::Fields(fields) = tree else {
        return false;
    };
    has_two(fields, key.text())
}
