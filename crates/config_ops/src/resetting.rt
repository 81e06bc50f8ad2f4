// Nodes set back to the default's.
ghost use Rattle.std.specs.Prelude.{◌≡◌, ◌++◌, Some, IfOk, OnOk, IfSome, option_map};
ghost use Rattle.std.specs.Option.{option_to_list};
ghost use Rattle.tree_core.specs.View.{view, fields_view};
ghost use Rattle.tree_core.specs.Regular.{IsRegular, IsOrderly, MembersAreOrderly};
ghost use Rattle.config_ops.specs.Reset.{reset_at, is_due as is_set, members_of, set_node as with_node, node_at as node_once_set};

use crate::fields::{move_all, move_before, pop_where};
use crate::walk::{is_open, node_of};
use nuc_base::{Copied, NoMemory, Pointer, Text};
use std::alloc::Global;
use std::cmp::Ordering;
use std::collections::VecDeque;
use tree_core::Tree;

/// The tree with the node at the pointer set back to the default's. The pointer's tokens are keys of objects alone,
/// and no places in lists. The empty pointer gives the default. Where the default has a node there and no proper
/// prefix of the pointer names a node of the tree that is no object, that node is put in, with objects made on the
/// way. Where the default has none, the tree's is removed. In every other case the tree stays as it is.
pub fn reset(alloc: Global, tree: Tree, default: &Tree, at: &Pointer) -> Result<Tree, NoMemory>
    requires tree { IsRegular (view tree) }
    requires default { IsRegular (view default.now) }
    ensures value { IfOk result (λ t. view t ≡ reset_at (view tree) (view default.now) at.now) }
    ensures regular { IfOk result (λ t. IsRegular (view t)) }
{
    reset_keys(alloc, tree, default, at.tokens().as_slice())
}

fn reset_keys(alloc: Global, tree: Tree, default: &Tree, keys: &[Text]) -> Result<Tree, NoMemory>
    requires tree { IsRegular (view tree) }
    requires default { IsRegular (view default.now) }
    ensures { IfOk result (λ t. view t ≡ reset_at (view tree) (view default.now) keys.now) }
{
    let [key, below @ ..] = keys else {
        return default.copy(alloc);
    };
    let node = node_of(default, keys);
    if !is_due(&tree, node, keys) {
        return Ok(tree);
    }
    let new = copy_of(alloc, node)?;
    let fields = fields_of(alloc, tree);
    Ok(Tree::Fields(set_node(below, alloc, fields, key, new)?))
}

/// Whether the node at the keys is to be set to the default's.
fn is_due(tree: &Tree, node: Option<&Tree>, keys: &[Text]) -> bool
    requires { IsRegular (view tree.now) }
    ensures { result ≡ is_set keys.now (option_map (λ t. view t.now) node.entry) (view tree.now) }
{
    match node {
        Some(_) => is_open(tree, keys),
        None => node_of(tree, keys).is_some(),
    }
}

fn copy_of(alloc: Global, node: Option<&Tree>) -> Result<Option<Tree>, NoMemory>
    ensures { IfOk result (λ new. option_map view new ≡ option_map (λ t. view t.now) node.entry) }
{
    match node {
        Some(node) => Ok(Some(node.copy(alloc)?)),
        None => Ok(None),
    }
}

/// The fields with a node set at a key and the keys below it.
#[cycle(set)]
fn set_node(
    below: &[Text],
    alloc: Global,
    fields: Vec<(Text, Tree)>,
    key: &Text,
    new: Option<Tree>,
) -> Result<Vec<(Text, Tree)>, NoMemory>
    requires { MembersAreOrderly (fields_view fields.items) }
    ensures { IfOk result (λ v. fields_view v.items
        ≡ with_node key.now below.now (option_map view new) (fields_view fields.items)) }
{
    let mut rest = VecDeque::from_vec(fields);
    let mut done = Vec::with_capacity(alloc, rest.len())?;
    move_before(key, &mut rest, &mut done)?;
    let found = pop_where(Ordering::Equal, key, &mut rest);
    let (name, old) = name_and_value(alloc, found, key)?;
    let node = node_at(below, alloc, old, new)?;
    push_node(&mut done, name, node)?;
    move_all(rest, &mut done)?;
    Ok(done)
}

/// The key, which is not copied where a field has it, and the value of that field.
fn name_and_value(
    alloc: Global,
    found: Option<(Text, Tree)>,
    key: &Text,
) -> Result<(Text, Option<Tree>), NoMemory>
    requires { IfSome found (λ f. f.0 ≡ key.now) }
    ensures { IfOk result (λ p. (p.0 ≡ key.now)
        × (option_map view p.1 ≡ option_map (λ f. view f.1) found)) }
{
    match found {
        Some((name, tree)) => Ok((name, Some(tree))),
        None => Ok((key.copy(alloc)?, None)),
    }
}

/// What stands at a key once a node is set at the keys below it, by the value that stood there.
#[cycle(set)]
fn node_at(
    below: &[Text],
    alloc: Global,
    old: Option<Tree>,
    new: Option<Tree>,
) -> Result<Option<Tree>, NoMemory>
    requires { IfSome old (λ t. IsOrderly (view t)) }
    ensures { IfOk result (λ node. option_map view node
        ≡ node_once_set below.now (option_map view new) (option_map view old)) }
{
    match below {
        [] => Ok(new),
        [key, below @ ..] => {
            let fields = fields_at(alloc, old);
            Ok(Some(Tree::Fields(set_node(below, alloc, fields, key, new)?)))
        }
    }
}

fn push_node(done: &mut Vec<(Text, Tree)>, name: Text, node: Option<Tree>) -> Result<(), NoMemory>
    ensures { OnOk result (done.new.items
        ≡ done.old.items ++ option_to_list (option_map (λ t. (name, t)) node)) }
{
    if let Some(tree) = node {
        done.push((name, tree))?;
    }
    Ok(())
}

/// The fields of the tree at a key, where it is an object.
fn fields_at(alloc: Global, old: Option<Tree>) -> Vec<(Text, Tree)>
    ensures { fields_view result.items ≡ members_of (option_map view old) }
{
    match old {
        Some(tree) => fields_of(alloc, tree),
        None => Vec::new(alloc),
    }
}

fn fields_of(alloc: Global, tree: Tree) -> Vec<(Text, Tree)>
    ensures { fields_view result.items ≡ members_of (Some (view tree)) }
{
    match tree {
        Tree::Fields(fields) => fields,
        _ => Vec::new(alloc),
    }
}
