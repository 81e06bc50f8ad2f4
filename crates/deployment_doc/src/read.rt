ghost use Rattle.std.specs.Prelude.{IfOk};
ghost use Rattle.nuc_base.specs.Tables.{AnswerBy};
ghost use Rattle.tree_core.specs.View.{view};
ghost use Rattle.tree_core.specs.Regular.{IsRegular};
ghost use Rattle.deployment_doc.specs.Lines.{document_lines};
ghost use Rattle.deployment_doc.specs.Named.{IsDocument};
ghost use Rattle.deployment_doc.specs.Reads.{ReadsDocument};
ghost use Rattle.deployment_doc.specs.Sound.{AreSound};
ghost use Rattle.deployment_doc.specs.declared.fault.DocFault.TheVariants.{NoMemory as OutOfMemory};

use crate::document::Document;
use crate::fault::{DocFault, Key};
use crate::labels::{group_of, id_of};
use crate::policy::policy_of;
use crate::revision::revision_of;
use crate::roots::roots_of;
use nuc_base::DOCUMENT_LIMIT;
use std::alloc::Global;
use tree_core::{Tree, TreeFault};

impl Document {
    /// Reads a document (AWS IoT Greengrass V2 developer guide, "Create deployments"). The first fault answers: first
    /// of the bytes, then key by key in the order of `Key`, and of components one after the other in key order. Keys
    /// that are not named are ignored, and a key that may be absent is so where its value is null.
    pub fn read(alloc: Global, bytes: &[u8]) -> Result<Document, DocFault>
        ensures exact { ReadsDocument bytes.now result }
        ensures sound { IfOk result (λ document. AreSound document.roots) }
    {
        let tree = match Tree::read(alloc, bytes, DOCUMENT_LIMIT) {
            Ok(tree) => tree,
            Err(TreeFault::NoMemory) => return Err(DocFault::NoMemory),
            Err(fault) => return Err(DocFault::Tree(fault)),
        };
        document_of(alloc, bytes, &tree)
    }
}

fn document_of(alloc: Global, bytes: &[u8], tree: &Tree) -> Result<Document, DocFault>
    requires { IsRegular (view tree.now) }
    ensures { AnswerBy OutOfMemory (document_lines (view tree.now)) (λ document. IsDocument bytes.now (view tree.now) document) result }
{
    let Tree::Fields(_) = tree else {
        return Err(DocFault::WrongKind(Key::Document));
    };
    let id = id_of(alloc, bytes, tree)?;
    let group = group_of(alloc, tree)?;
    let revision = revision_of(tree)?;
    let policy = policy_of(tree)?;
    let roots = roots_of(alloc, tree)?;
    Ok(Document {
        id,
        group,
        revision,
        policy,
        roots,
    })
}
