// Two trees joined key by key.
ghost use Rattle.std.specs.Prelude.{◌≡◌, IfOk, IfSome, Some, option_map};
ghost use Rattle.tree_core.specs.View.{view, fields_view};
ghost use Rattle.tree_core.specs.Regular.{IsRegular, IsOrderly, MembersAreOrderly};
ghost use Rattle.config_ops.specs.Join.{merged, filled, joined, joined_members, joined_at, kept_by};

use crate::fields::{move_all, move_before, pop_where};
use nuc_base::{Copied, NoMemory, Text};
use std::alloc::Global;
use std::cmp::Ordering;
use std::collections::VecDeque;
use tree_core::Tree;

/// Which of two values stays where they are not both objects.
#[derive(Clone, Copy)]
enum Rule {
    /// The second.
    Merge,
    /// The first.
    Fill,
}

/// The tree with an update merged in. Two objects are joined key by key; any other value of the update replaces,
/// null and lists among them.
pub fn merge(alloc: Global, tree: Tree, update: &Tree) -> Result<Tree, NoMemory>
    requires tree { IsRegular (view tree) }
    requires update { IsRegular (view update.now) }
    ensures value { IfOk result (λ t. view t ≡ merged (view tree) (view update.now)) }
    ensures regular { IfOk result (λ t. IsRegular (view t)) }
{
    join(update, alloc, tree, Rule::Merge)
}

/// The tree filled from the default. To an object the keys are added that only the default has, and what both have is
/// filled in the same way where both values are objects; any other value of the tree stays.
pub fn fill(alloc: Global, tree: Tree, default: &Tree) -> Result<Tree, NoMemory>
    requires tree { IsRegular (view tree) }
    requires default { IsRegular (view default.now) }
    ensures value { IfOk result (λ t. view t ≡ filled (view tree) (view default.now)) }
    ensures regular { IfOk result (λ t. IsRegular (view t)) }
{
    join(default, alloc, tree, Rule::Fill)
}

#[cycle(join)]
fn join(other: &Tree, alloc: Global, tree: Tree, rule: Rule) -> Result<Tree, NoMemory>
    requires tree { IsOrderly (view tree) }
    requires other { IsOrderly (view other.now) }
    ensures { IfOk result (λ t. view t ≡ joined (kept_by rule) (view tree) (view other.now)) }
{
    match (other, tree) {
        (Tree::Fields(others), Tree::Fields(fields)) => {
            Ok(Tree::Fields(join_fields(others, alloc, fields, rule)?))
        }
        (_, tree) => keep(other, alloc, tree, rule),
    }
}

fn keep(other: &Tree, alloc: Global, tree: Tree, rule: Rule) -> Result<Tree, NoMemory>
    ensures { IfOk result (λ t. view t ≡ kept_by rule (view tree) (view other.now)) }
{
    match rule {
        Rule::Merge => other.copy(alloc),
        Rule::Fill => Ok(tree),
    }
}

#[cycle(join)]
fn join_fields(
    others: &Vec<(Text, Tree)>,
    alloc: Global,
    fields: Vec<(Text, Tree)>,
    rule: Rule,
) -> Result<Vec<(Text, Tree)>, NoMemory>
    requires fields { MembersAreOrderly (fields_view fields.items) }
    requires others { MembersAreOrderly (fields_view others.now.items) }
    ensures { IfOk result (λ v. fields_view v.items
        ≡ joined_members (kept_by rule) (fields_view fields.items) (fields_view others.now.items)) }
{
    let mut rest = VecDeque::from_vec(fields);
    let mut joined = Vec::with_capacity(alloc, rest.len())?;
    for (name, other) in others {
        move_before(name, &mut rest, &mut joined)?;
        let found = pop_where(Ordering::Equal, name, &mut rest);
        joined.push(join_field(other, alloc, found, name, rule)?)?;
    }
    move_all(rest, &mut joined)?;
    Ok(joined)
}

/// The field of a name, of which the first object may have a value.
#[cycle(join)]
fn join_field(
    other: &Tree,
    alloc: Global,
    found: Option<(Text, Tree)>,
    name: &Text,
    rule: Rule,
) -> Result<(Text, Tree), NoMemory>
    requires found { IfSome found (λ f. (f.0 ≡ name.now) × IsOrderly (view f.1)) }
    requires other { IsOrderly (view other.now) }
    ensures { IfOk result (λ f. (f.0 ≡ name.now)
        × (Some (view f.1) ≡ joined_at (kept_by rule) (option_map (λ f. view f.1) found) (Some (view other.now)))) }
{
    match found {
        Some((key, tree)) => Ok((key, join(other, alloc, tree, rule)?)),
        None => Ok((name.copy(alloc)?, other.copy(alloc)?)),
    }
}
