//! Trees that are put together from texts, as what the nucleus prints and stores is.

ghost use Rattle.std.specs.Prelude.{◌≡◌, ◌++◌, ◌∷◌, [], IfOk, OnOk, OnErr, IsUtf8, map};
ghost use Rattle.std.specs.Cmp.Lexicographic.{slice_cmp};
ghost use Rattle.std.specs.Ordering.{nat_cmp};
ghost use Rattle.std.specs.declared.cmp.Ordering.TheVariants.{Less};
ghost use Rattle.serde_json.specs.Data.{string};
ghost use Rattle.tree_core.specs.Regular.{IsRegular};
ghost use Rattle.tree_core.specs.View.{view, field_view, pair_data};

use crate::tree::Tree;
use nuc_base::{NoMemory, Text};
use std::alloc::Global;

/// Adds a field behind the others. No look is taken whether one of them has its key.
pub fn put_field(
    alloc: Global,
    fields: &mut Vec<(Text, Tree)>,
    key: &str,
    value: Tree,
) -> Result<(), NoMemory>
    ensures put { OnOk result (map field_view fields.new.items ≡ map field_view fields.old.items ++ (key.now, view value) ∷ []) }
    ensures refused { OnErr result (fields.new.items ≡ fields.old.items) }
{
    fields.push(field(alloc, key, value)?)?;
    Ok(())
}

fn field(alloc: Global, key: &str, value: Tree) -> Result<(Text, Tree), NoMemory>
    ensures field { IfOk result (λ f. field_view f ≡ (key.now, view value)) }
    ensures utf8 { IfOk result (λ f. IsUtf8 f.0) }
{
    Ok((Text::from_str(alloc, key)?, value))
}

/// A text, regular as each is.
pub fn text_tree(alloc: Global, text: &str) -> Result<Tree, NoMemory>
    ensures value { IfOk result (λ tree. view tree ≡ string text.now) }
    ensures regular { IfOk result (λ tree. IsRegular (view tree)) }
{
    Ok(Tree::Text(Text::from_str(alloc, text)?))
}

/// An object of two texts: each key with its text, in this order. It is regular where the first key comes before the
/// second.
pub fn pair_tree(alloc: Global, first: (&str, &str), second: (&str, &str)) -> Result<Tree, NoMemory>
    ensures value { IfOk result (λ tree. view tree ≡ pair_data first.entry.0.now first.entry.1.now second.entry.0.now second.entry.1.now) }
    ensures regular { IfOk result (λ tree. slice_cmp nat_cmp first.entry.0.now second.entry.0.now ≡ Less → IsRegular (view tree)) }
{
    let mut fields = Vec::with_capacity(alloc, 2)?;
    fields.push(field(alloc, first.0, text_tree(alloc, first.1)?)?)?;
    fields.push(field(alloc, second.0, text_tree(alloc, second.1)?)?)?;
    Ok(Tree::Fields(fields))
}
