// The configuration that an update makes.
ghost use Rattle.std.specs.Prelude.{◌≡◌, IfOk, IfSome, option_map};
ghost use Rattle.tree_core.specs.View.{view};
ghost use Rattle.tree_core.specs.Regular.{IsRegular};
ghost use Rattle.config_ops.specs.NewConfig.{IsRegularUpdate, change_of, start as start_of, after_resets, after_merge, changed as once_changed};
ghost use Rattle.config_ops.specs.NewConfig.{new_config as config_of};

use crate::join::{fill, merge};
use crate::resetting::reset;
use crate::update::Update;
use nuc_base::{Copied, List, NoMemory, Pointer};
use std::alloc::Global;
use tree_core::Tree;

/// The configuration of a component: what is kept of it, filled from the default, or the default alone where nothing
/// is kept; then each reset in order; then the merge; and last the default's keys filled in once more. So a kept
/// configuration stays as it is while the version stays and no update comes.
pub fn new_config(
    alloc: Global,
    kept: Option<&Tree>,
    default: &Tree,
    update: Option<&Update>,
) -> Result<Tree, NoMemory>
    requires kept { IfSome kept (λ t. IsRegular (view t.now)) }
    requires default { IsRegular (view default.now) }
    requires update { IfSome update (λ u. IsRegularUpdate u.now) }
    ensures value { IfOk result (λ t. view t
        ≡ config_of (option_map (λ k. view k.now) kept.entry) (view default.now)
        (option_map (λ u. change_of u.now) update.entry)) }
    ensures regular { IfOk result (λ t. IsRegular (view t)) }
{
    let begun = start(alloc, kept, default)?;
    let updated = change(alloc, begun, default, update)?;
    fill(alloc, updated, default)
}

fn start(alloc: Global, kept: Option<&Tree>, default: &Tree) -> Result<Tree, NoMemory>
    requires kept { IfSome kept (λ t. IsRegular (view t.now)) }
    requires default { IsRegular (view default.now) }
    ensures value { IfOk result (λ t. view t
        ≡ start_of (option_map (λ k. view k.now) kept.entry) (view default.now)) }
    ensures regular { IfOk result (λ t. IsRegular (view t)) }
{
    match kept {
        Some(kept) => fill(alloc, kept.copy(alloc)?, default),
        None => default.copy(alloc),
    }
}

fn change(
    alloc: Global,
    tree: Tree,
    default: &Tree,
    update: Option<&Update>,
) -> Result<Tree, NoMemory>
    requires tree { IsRegular (view tree) }
    requires default { IsRegular (view default.now) }
    requires update { IfSome update (λ u. IsRegularUpdate u.now) }
    ensures value { IfOk result (λ t. view t
        ≡ once_changed (view default.now) (option_map (λ u. change_of u.now) update.entry) (view tree)) }
    ensures regular { IfOk result (λ t. IsRegular (view t)) }
{
    match update {
        Some(update) => {
            let set_back = reset_all(alloc, tree, default, &update.resets)?;
            merge_in(alloc, set_back, &update.merge)
        }
        None => Ok(tree),
    }
}

fn reset_all(
    alloc: Global,
    tree: Tree,
    default: &Tree,
    resets: &List<Pointer>,
) -> Result<Tree, NoMemory>
    requires tree { IsRegular (view tree) }
    requires default { IsRegular (view default.now) }
    ensures value { IfOk result (λ t. view t
        ≡ after_resets (view default.now) resets.now (view tree)) }
    ensures regular { IfOk result (λ t. IsRegular (view t)) }
{
    let mut set_back = tree;
    for at in resets.as_slice() {
        set_back = reset(alloc, set_back, default, at)?;
    }
    Ok(set_back)
}

fn merge_in(alloc: Global, tree: Tree, update: &Option<Tree>) -> Result<Tree, NoMemory>
    requires tree { IsRegular (view tree) }
    requires update { IfSome update.now (λ t. IsRegular (view t)) }
    ensures value { IfOk result (λ t. view t
        ≡ after_merge (option_map view update.now) (view tree)) }
    ensures regular { IfOk result (λ t. IsRegular (view t)) }
{
    match update {
        Some(update) => merge(alloc, tree, update),
        None => Ok(tree),
    }
}
