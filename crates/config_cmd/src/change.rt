//! The change of one component's configuration, as it is asked for.
ghost use Rattle.std.specs.Prelude.{◌≡◌, Some, IfOk};
ghost use Rattle.serde_json.specs.Data.{string};
ghost use Rattle.serde_json.specs.Find.{get};
ghost use Rattle.nuc_base.specs.Tables.{AnswerBy};
ghost use Rattle.tree_core.specs.View.{view};
ghost use Rattle.tree_core.specs.Regular.{IsRegular};
ghost use Rattle.deployment_doc.specs.Lines.{at_required, label_lines};
ghost use Rattle.deployment_doc.specs.Sound.{MergesObject};
ghost use Rattle.deployment_doc.specs.Spelled.{spelled};
ghost use Rattle.deployment_doc.specs.declared.fault.DocFault.TheVariants.{NoMemory as OutOfMemory};
ghost use Rattle.deployment_doc.specs.declared.fault.Key.TheVariants as key;
ghost use Rattle.config_cmd.specs.Changes.{change_lines, IsChange, ReadsChange};

use config_ops::Update;
use deployment_doc::{DocFault, Key, read_update};
use nuc_base::{DOCUMENT_LIMIT, Label, Name, NameFault};
use std::alloc::Global;
use tree_core::{Tree, TreeFault};

/// What is to change in one component's configuration.
#[derive(Debug, Drop)]
pub struct Change {
    /// The id of the deployment that makes the change.
    pub id: Label,
    pub update: Update,
}

impl Change {
    /// Reads a change of this component: an object with a `deploymentId`, and with `reset` and `merge` as the update of a
    /// component in a document has them. The first fault answers: first of the bytes, then of the id, then of the update.
    /// Keys that are not named are ignored.
    pub fn read(alloc: Global, bytes: &[u8], name: &Name) -> Result<Change, DocFault>
        ensures exact { ReadsChange name.now bytes.now result }
        ensures object { IfOk result (λ change. MergesObject change.update) }
    {
        let tree = match Tree::read(alloc, bytes, DOCUMENT_LIMIT) {
            Ok(tree) => tree,
            Err(TreeFault::NoMemory) => return Err(DocFault::NoMemory),
            Err(fault) => return Err(DocFault::Tree(fault)),
        };
        change_of(alloc, &tree, name)
    }
}

fn change_of(alloc: Global, tree: &Tree, name: &Name) -> Result<Change, DocFault>
    requires { IsRegular (view tree.now) }
    ensures { AnswerBy OutOfMemory (change_lines name.now (view tree.now)) (IsChange (view tree.now)) result }
{
    let Tree::Fields(_) = tree else {
        return Err(DocFault::WrongKind(Key::Document));
    };
    let id = id_of(alloc, tree)?;
    let update = read_update(alloc, tree, name)?;
    Ok(Change { id, update })
}

fn id_of(alloc: Global, tree: &Tree) -> Result<Label, DocFault>
    ensures { AnswerBy OutOfMemory
        (at_required key.DeploymentId (view tree.now) (label_lines key.DeploymentId))
        (λ id. get (spelled key.DeploymentId) (view tree.now) ≡ Some (string id))
        result }
{
    match tree.member(Key::DeploymentId.text()) {
        Some(value) => label_of(alloc, value),
        None => Err(DocFault::Missing(Key::DeploymentId)),
    }
}

fn label_of(alloc: Global, tree: &Tree) -> Result<Label, DocFault>
    ensures { AnswerBy OutOfMemory (label_lines key.DeploymentId (view tree.now)) (λ l. view tree.now ≡ string l) result }
{
    let Tree::Text(text) = tree else {
        return Err(DocFault::WrongKind(Key::DeploymentId));
    };
    match Label::read(alloc, text.as_str().as_bytes()) {
        Ok(label) => Ok(label),
        Err(NameFault::Bad) => Err(DocFault::BadName(Key::DeploymentId)),
        Err(NameFault::NoMemory) => Err(DocFault::NoMemory),
    }
}
