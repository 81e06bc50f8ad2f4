// Each call once.
ghost use Rattle.std.specs.Prelude.{IfOk};
ghost use Rattle.tree_core.specs.Regular.{IsRegular};
ghost use Rattle.tree_core.specs.View.{view};

use config_ops::{Update, fill, merge, new_config, reset};
use nuc_base::{List, Pointer};
use std::alloc::Global;
use std::test::Fail;
use tree_core::Tree;

fn read(alloc: Global, text: &str) -> Result<Tree, Fail>
    ensures { IfOk result (λ t. IsRegular (view t)) }
{
    Ok(Tree::read(alloc, text.as_bytes(), 99)?)
}

/// The change merged into the default.
fn merged(alloc: Global, default: &Tree, change: &Tree) -> Result<Tree, Fail>
    requires default { IsRegular (view default.now) }
    requires change { IsRegular (view change.now) }
    ensures { IfOk result (λ t. IsRegular (view t)) }
{
    let begun = new_config(alloc, None, default, None)?;
    Ok(merge(alloc, begun, change)?)
}

/// The same, set back at the pointer.
fn set_back(alloc: Global, default: &Tree, change: &Tree, at: &Pointer) -> Result<Tree, Fail>
    requires default { IsRegular (view default.now) }
    requires change { IsRegular (view change.now) }
    ensures { IfOk result (λ t. IsRegular (view t)) }
{
    let merged = merged(alloc, default, change)?;
    Ok(reset(alloc, merged, default, at)?)
}

/// The same, filled from both.
fn filled(alloc: Global, default: &Tree, change: &Tree, both: &Tree) -> Result<Tree, Fail>
    requires default { IsRegular (view default.now) }
    requires change { IsRegular (view change.now) }
    requires both { IsRegular (view both.now) }
    ensures { IfOk result (λ t. IsRegular (view t)) }
{
    let at = Pointer::read(alloc, "/o/q")?;
    let set_back = set_back(alloc, default, change, &at);
    drop(at);
    Ok(fill(alloc, set_back?, both)?)
}

fn is_merged(alloc: Global, default: &Tree, change: &Tree, both: &Tree) -> Result<bool, Fail>
    requires default { IsRegular (view default.now) }
    requires change { IsRegular (view change.now) }
{
    let merged = merged(alloc, default, change)?;
    Ok(merged == *both)
}

/// Whether both are made where they are kept and the update asks for nothing.
fn is_kept(alloc: Global, kept: &Tree, default: &Tree, both: &Tree) -> Result<bool, Fail>
    requires kept { IsRegular (view kept.now) }
    requires default { IsRegular (view default.now) }
{
    let update = Update {
        resets: List::empty(alloc),
        merge: None,
    };
    let made = new_config(alloc, Some(kept), default, Some(&update));
    drop(update);
    Ok(made? == *both)
}

/// Whether both are made by filling, and then by an update.
fn are_filled_and_kept(
    alloc: Global,
    default: &Tree,
    change: &Tree,
    both: &Tree,
) -> Result<(bool, bool), Fail>
    requires default { IsRegular (view default.now) }
    requires change { IsRegular (view change.now) }
    requires both { IsRegular (view both.now) }
{
    let filled = filled(alloc, default, change, both)?;
    let is_filled = filled == *both;
    let is_kept = is_kept(alloc, &filled, default, both);
    drop(filled);
    Ok((is_filled, is_kept?))
}

/// Whether both are made by merging, by filling, and by an update.
fn called_on(
    alloc: Global,
    default: &Tree,
    change: &Tree,
    both: &Tree,
) -> Result<(bool, bool, bool), Fail>
    requires default { IsRegular (view default.now) }
    requires change { IsRegular (view change.now) }
    requires both { IsRegular (view both.now) }
{
    let is_merged = is_merged(alloc, default, change, both)?;
    let (is_filled, is_kept) = are_filled_and_kept(alloc, default, change, both)?;
    Ok((is_merged, is_filled, is_kept))
}

/// The same, of a default and a change that are written out.
fn called(alloc: Global) -> Result<(bool, bool, bool), Fail> {
    let default = read(alloc, r#"{"l":[1],"o":{"p":1}}"#)?;
    let change = read(alloc, r#"{"l":[3],"o":{"q":2}}"#)?;
    let both = read(alloc, r#"{"l":[3],"o":{"p":1,"q":2}}"#)?;
    let called = called_on(alloc, &default, &change, &both);
    drop(both);
    drop(change);
    drop(default);
    called
}

#[test]
fn calls(rt: HostRuntime) -> Result<(), Fail> {
    let (is_merged, is_filled, is_kept) = called(rt.alloc())?;
    assert!(rt; is_merged);
    assert!(rt; is_filled);
    assert!(rt; is_kept);
    Ok(())
}
