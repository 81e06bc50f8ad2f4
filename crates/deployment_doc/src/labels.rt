ghost use Rattle.std.specs.Prelude.{◌≡◌, Some, None, []};
ghost use Rattle.serde_json.specs.Data.{string};
ghost use Rattle.serde_json.specs.Find.{get};
ghost use Rattle.hex.specs.Hex.{encode_lower};
ghost use Rattle.nuc_base.specs.Tables.{AnswerBy};
ghost use Rattle.tree_core.specs.View.{view};
ghost use Rattle.tree_core.specs.Parts.{present};
ghost use Rattle.deployment_doc.specs.Spelled.{spelled};
ghost use Rattle.deployment_doc.specs.Lines.{label_lines, at_optional, at_required};
ghost use Rattle.deployment_doc.specs.Named.{IsId};
ghost use Rattle.deployment_doc.specs.declared.fault.DocFault.TheVariants.{NoMemory as OutOfMemory};
ghost use Rattle.deployment_doc.specs.declared.fault.Key.TheVariants as key;

use crate::fault::{DocFault, Key};
use nuc_base::{Label, NameFault};
use sha2::{Digest, Sha256};
use std::alloc::Global;
use tree_core::Tree;

pub(crate) fn id_of(alloc: Global, bytes: &[u8], tree: &Tree) -> Result<Label, DocFault>
    ensures { AnswerBy OutOfMemory
        (at_optional key.DeploymentId (view tree.now) (label_lines key.DeploymentId))
        (λ id. IsId bytes.now (present (get (spelled key.DeploymentId) (view tree.now))) id)
        result }
{
    match tree.present(Key::DeploymentId.text()) {
        Some(value) => label_of(alloc, value, Key::DeploymentId),
        None => digest_label(alloc, bytes),
    }
}

fn digest_label(alloc: Global, bytes: &[u8]) -> Result<Label, DocFault>
    ensures { AnswerBy OutOfMemory [] (IsId bytes.now None) result }
{
    hex_label(alloc, &Sha256::digest(bytes))
}

fn hex_label(alloc: Global, digest: &[u8; 32]) -> Result<Label, DocFault>
    ensures { AnswerBy OutOfMemory [] (λ id. id ≡ encode_lower digest.now) result }
{
    let text = hex::encode(alloc, digest.as_slice())?;
    match Label::read(alloc, text.as_bytes()) {
        Ok(label) => Ok(label),
        Err(NameFault::Bad) => unreachable!(),
        Err(NameFault::NoMemory) => Err(DocFault::NoMemory),
    }
}

pub(crate) fn group_of(alloc: Global, tree: &Tree) -> Result<Label, DocFault>
    ensures { AnswerBy OutOfMemory
        (at_required key.TargetArn (view tree.now) (label_lines key.TargetArn))
        (λ group. get (spelled key.TargetArn) (view tree.now) ≡ Some (string group))
        result }
{
    match tree.member(Key::TargetArn.text()) {
        Some(value) => label_of(alloc, value, Key::TargetArn),
        None => Err(DocFault::Missing(Key::TargetArn)),
    }
}

fn label_of(alloc: Global, tree: &Tree, key: Key) -> Result<Label, DocFault>
    ensures { AnswerBy OutOfMemory (label_lines key (view tree.now)) (λ l. view tree.now ≡ string l) result }
{
    let Tree::Text(text) = tree else {
        return Err(DocFault::WrongKind(key));
    };
    match Label::read(alloc, text.as_str().as_bytes()) {
        Ok(label) => Ok(label),
        Err(NameFault::Bad) => Err(DocFault::BadName(key)),
        Err(NameFault::NoMemory) => Err(DocFault::NoMemory),
    }
}
