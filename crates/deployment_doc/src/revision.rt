// Which of a group's lists a document brings.
ghost use Rattle.std.specs.Prelude.{◌≡◌};
ghost use Rattle.serde_json.specs.Data.{number, unsigned};
ghost use Rattle.serde_json.specs.Find.{get};
ghost use Rattle.nuc_base.specs.Tables.{AnswerBy};
ghost use Rattle.tree_core.specs.View.{view};
ghost use Rattle.tree_core.specs.Parts.{present};
ghost use Rattle.deployment_doc.specs.Spelled.{spelled};
ghost use Rattle.deployment_doc.specs.Lines.{revision_lines, at_optional};
ghost use Rattle.deployment_doc.specs.Named.{IsRevision};
ghost use Rattle.deployment_doc.specs.declared.fault.DocFault.TheVariants.{NoMemory as OutOfMemory};
ghost use Rattle.deployment_doc.specs.declared.fault.Key.TheVariants as key;

use crate::fault::{DocFault, Key};
use tree_core::{CountFault, Tree};

/// The greatest revision, 2^63 - 1.
const GREATEST_REVISION: u64 = 9_223_372_036_854_775_807;

/// The revision of a document that names none.
const UNNUMBERED: u64 = 0;

pub(crate) fn revision_of(tree: &Tree) -> Result<u64, DocFault>
    ensures { AnswerBy OutOfMemory
        (at_optional key.Revision (view tree.now) revision_lines)
        (IsRevision (present (get (spelled key.Revision) (view tree.now))))
        result }
{
    match tree.present(Key::Revision.text()) {
        Some(revision) => revision_in(revision),
        None => Ok(UNNUMBERED),
    }
}

fn revision_in(revision: &Tree) -> Result<u64, DocFault>
    ensures { AnswerBy OutOfMemory (revision_lines (view revision.now)) (λ n. view revision.now ≡ number (unsigned n)) result }
{
    match revision.count(GREATEST_REVISION) {
        Ok(revision) => Ok(revision),
        Err(CountFault::NoNumber) => Err(DocFault::WrongKind(Key::Revision)),
        Err(CountFault::OutOfRange) => Err(DocFault::BadRevision),
    }
}
