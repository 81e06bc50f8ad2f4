ghost use Rattle.deployment_doc.specs.Laws.{IsOneFault, HasNoFault};
ghost use Rattle.deployment_doc.specs.OneDocument.{IsOneDocument};

use tree_core::tree_laws;

/// Laws of reading a document. It does nothing.
pub fn document_laws()
    ensures one_document { IsOneDocument }
    ensures one_fault { IsOneFault }
    ensures no_fault { HasNoFault }
{
    tree_laws();
}
