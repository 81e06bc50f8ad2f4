//! A request as it is read.
ghost use Rattle.std.specs.Prelude.{⊤, IfOk};
ghost use Rattle.nuc_base.specs.Tables.{AnswerBy, each};
ghost use Rattle.tree_core.specs.View.{view};
ghost use Rattle.tree_core.specs.Regular.{IsRegular};
ghost use Rattle.local_deploy.specs.Lines.{request_lines, names_apart};
ghost use Rattle.local_deploy.specs.Named.{IsRequest};
ghost use Rattle.local_deploy.specs.Reads.{ReadsRequest};
ghost use Rattle.local_deploy.specs.Sound.{IsSoundRequest};
ghost use Rattle.local_deploy.specs.declared.fault.LocalFault.TheVariants.{NoMemory as OutOfMemory};

use crate::fault::{Key, LocalFault};
use crate::heads::{id_of, policy_of};
use crate::merge::merge_of;
use crate::remove::{has_name, remove_of};
use crate::updates::updates_of;
use config_ops::Update;
use npm_ranges::Range;
use nuc_base::{Copied, DOCUMENT_LIMIT, Label, List, Name, Policy};
use std::alloc::Global;
use tree_core::{Tree, TreeFault};

/// What an operator at the device asks of its components.
#[derive(Debug, Drop)]
pub struct LocalRequest {
    /// The id of the deployment that it makes.
    pub id: Label,
    pub policy: Policy,
    /// The components that are to be there from then on, each in a version of this range: at most 128, with names that
    /// rise strictly in byte order.
    pub merge: List<(Name, Range)>,
    /// The components that are no longer asked for, each once, in the order in which they are named.
    pub remove: List<Name>,
    /// What is to change in the configurations of components: at most 128, with names that rise strictly in byte order.
    pub updates: List<(Name, Update)>,
}

impl LocalRequest {
    /// Reads a request: a JSON object of at most 524,288 bytes with the keys `deploymentId`, `failureHandlingPolicy` (or
    /// ROLLBACK), `merge`, `remove` and `updateConfig`, of which only the first has to be there. The first fault answers:
    /// first of the bytes, then key by key in the order of `Key`, and last the least name that is merged and removed. Keys
    /// that are not named are ignored, and a key that may be absent is so where its value is null.
    pub fn read(alloc: Global, bytes: &[u8]) -> Result<LocalRequest, LocalFault>
        ensures exact { ReadsRequest bytes.now result }
        ensures sound { IfOk result IsSoundRequest }
    {
        let tree = match Tree::read(alloc, bytes, DOCUMENT_LIMIT) {
            Ok(tree) => tree,
            Err(TreeFault::NoMemory) => return Err(LocalFault::NoMemory),
            Err(fault) => return Err(LocalFault::Tree(fault)),
        };
        request_of(alloc, &tree)
    }
}

fn request_of(alloc: Global, tree: &Tree) -> Result<LocalRequest, LocalFault>
    requires { IsRegular (view tree.now) }
    ensures { AnswerBy OutOfMemory (request_lines (view tree.now)) (IsRequest (view tree.now)) result }
{
    let Tree::Fields(_) = tree else {
        return Err(LocalFault::WrongKind(Key::Request));
    };
    let id = id_of(alloc, tree)?;
    let policy = policy_of(tree)?;
    let merge = merge_of(alloc, tree)?;
    let remove = remove_of(alloc, tree)?;
    let updates = updates_of(alloc, tree)?;
    check_apart(alloc, merge.as_slice(), remove.as_slice())?;
    Ok(LocalRequest {
        id,
        policy,
        merge,
        remove,
        updates,
    })
}

/// That no name is merged and removed.
fn check_apart(alloc: Global, merge: &[(Name, Range)], remove: &[Name]) -> Result<(), LocalFault>
    ensures { AnswerBy OutOfMemory (each (names_apart remove.now) merge.now) (λ _. ⊤) result }
{
    for (name, _) in merge {
        if has_name(remove, name) {
            return Err(LocalFault::Both(name.copy(alloc)?));
        }
    }
    Ok(())
}
