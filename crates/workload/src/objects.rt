ghost use Rattle.std.specs.Prelude.{◌≡◌, ◌++◌, ◌∷◌, [], map, IfOk, OnOk};
ghost use Rattle.serde_json.specs.Data.{string};
ghost use Rattle.serde_json.specs.Written.{compact_text};
ghost use Rattle.tree_core.specs.Regular.{IsOrderly};
ghost use Rattle.tree_core.specs.View.{view, field_view};
ghost use Rattle.workload.specs.Objects.{object_of as one_member};

use nuc_base::{Bytes, NoMemory, Text};
use std::alloc::Global;
use tree_core::{Tree, put_field, text_tree};

/// An object of one field.
pub(crate) fn object_of(alloc: Global, key: &str, value: Tree) -> Result<Tree, NoMemory>
    ensures { IfOk result (λ t. view t ≡ one_member key.now (view value)) }
{
    let mut fields = Vec::with_capacity(alloc, 1)?;
    put_field(alloc, &mut fields, key, value)?;
    Ok(Tree::Fields(fields))
}

/// An object of one text.
pub(crate) fn text_object(alloc: Global, key: &str, text: &str) -> Result<Tree, NoMemory>
    ensures { IfOk result (λ t. view t ≡ one_member key.now (string text.now)) }
{
    object_of(alloc, key, text_tree(alloc, text)?)
}

/// Adds a field of a text behind the others.
pub(crate) fn put_text(
    alloc: Global,
    fields: &mut Vec<(Text, Tree)>,
    key: &str,
    text: &str,
) -> Result<(), NoMemory>
    ensures { OnOk result (map field_view fields.new.items ≡ map field_view fields.old.items ++ (key.now, string text.now) ∷ []) }
{
    put_field(alloc, fields, key, text_tree(alloc, text)?)
}

/// The tree's compact text.
pub(crate) fn bytes_of(alloc: Global, tree: &Tree) -> Result<Bytes, NoMemory>
    requires { IsOrderly (view tree.now) }
    ensures { IfOk result (λ b. b ≡ compact_text (view tree.now)) }
{
    let text = tree.write(alloc)?;
    Ok(Bytes::new(text.into_string().into_bytes()))
}
