ghost use Rattle.std.specs.Prelude.{◌≡◌, ◌++◌, IfOk, OnOk, map};
ghost use Rattle.serde_json.specs.Data.{object};
ghost use Rattle.tree_core.specs.Regular.{IsOrderly};
ghost use Rattle.tree_core.specs.View.{view, field_view, members_of};
ghost use Rattle.workload.specs.Documents.{component_count, root_list, root_fields, document_tree as tree_of_document};
ghost use Rattle.workload.specs.Documents.{drawn_root_list, drawn_document, drawn_documents};

use crate::generator::Generator;
use crate::names::{REQUIREMENT, component_name, deployment_id, group_name};
use crate::objects::{bytes_of, put_text, text_object};
use nuc_base::{Bytes, NoMemory, Text};
use std::alloc::Global;
use tree_core::{Tree, put_field};

/// How many components there are.
pub(crate) const COMPONENTS: u64 = 24;

/// Draws so many documents.
pub(crate) fn draw_documents(
    alloc: Global,
    generator: &mut Generator,
    documents: u64,
) -> Result<Vec<Bytes>, NoMemory>
    ensures documents { IfOk result (λ drawn. drawn.items ≡ (drawn_documents documents generator.old.state).value) }
    ensures state { OnOk result (generator.new.state ≡ (drawn_documents documents generator.old.state).state) }
{
    let mut drawn = Vec::new(alloc);
    for number in 0..documents {
        drawn.push(draw_document(alloc, generator, number)?)?;
    }
    Ok(drawn)
}

/// Draws the group and the roots of a document.
fn draw_document(alloc: Global, generator: &mut Generator, number: u64) -> Result<Bytes, NoMemory>
    ensures document { IfOk result (λ document. document ≡ (drawn_document number generator.old.state).value) }
    ensures state { OnOk result (generator.new.state ≡ (drawn_document number generator.old.state).state) }
{
    let group = generator.draw_below(3);
    let roots = draw_roots(alloc, generator)?;
    let tree = document_tree(alloc, number, group, roots.as_slice())?;
    bytes_of(alloc, &tree)
}

/// Draws how many roots there are, and each of them. Some may be the same.
fn draw_roots(alloc: Global, generator: &mut Generator) -> Result<Vec<u64>, NoMemory>
    ensures roots { IfOk result (λ roots. roots.items ≡ (drawn_root_list generator.old.state).value) }
    ensures state { OnOk result (generator.new.state ≡ (drawn_root_list generator.old.state).state) }
{
    let count = 1 + generator.draw_below(4);
    let mut roots = Vec::new(alloc);
    for _root in 0..count {
        roots.push(generator.draw_below(COMPONENTS))?;
    }
    Ok(roots)
}

fn document_tree(alloc: Global, number: u64, group: u64, roots: &[u64]) -> Result<Tree, NoMemory>
    ensures tree { IfOk result (λ tree. view tree ≡ tree_of_document number group roots.now) }
    ensures orderly { IfOk result (λ tree. IsOrderly (view tree)) }
{
    let id = deployment_id(alloc, number)?;
    let target = group_name(alloc, group)?;
    let mut fields = Vec::new(alloc);
    put_field(alloc, &mut fields, "components", root_object(alloc, roots)?)?;
    put_text(alloc, &mut fields, "deploymentId", id.as_str())?;
    put_text(alloc, &mut fields, "targetArn", target.as_str())?;
    Ok(Tree::Fields(fields))
}

/// The object of the roots. A component that is a root more than once stands in it once.
fn root_object(alloc: Global, roots: &[u64]) -> Result<Tree, NoMemory>
    ensures tree { IfOk result (λ tree. view tree ≡ object (members_of (root_fields roots.now 0 component_count))) }
    ensures orderly { IfOk result (λ tree. IsOrderly (view tree)) }
{
    let mut fields = Vec::new(alloc);
    for component in 0..COMPONENTS {
        put_root(alloc, &mut fields, roots, component)?;
    }
    Ok(Tree::Fields(fields))
}

/// Adds the field of a component where it is a root.
fn put_root(
    alloc: Global,
    fields: &mut Vec<(Text, Tree)>,
    roots: &[u64],
    component: u64,
) -> Result<(), NoMemory>
    ensures { OnOk result (map field_view fields.new.items ≡ map field_view fields.old.items ++ root_list roots.now component) }
{
    if !roots.contains(&component) {
        return Ok(());
    }
    let name = component_name(alloc, component)?;
    let asked = text_object(alloc, "componentVersion", REQUIREMENT)?;
    put_field(alloc, fields, name.as_str(), asked)
}
