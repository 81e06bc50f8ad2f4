ghost use Rattle.std.specs.Prelude.{◌≡◌, Some, map};
ghost use Rattle.std.specs.List.{AllZip};
ghost use Rattle.serde_json.specs.Data.{string, object};
ghost use Rattle.serde_json.specs.Find.{get};
ghost use Rattle.nuc_base.specs.Tables.{AnswerBy, each};
ghost use Rattle.tree_core.specs.View.{view, field_view, fields_view};
ghost use Rattle.tree_core.specs.Parts.{present, members};
ghost use Rattle.tree_core.specs.Regular.{IsRegular};
ghost use Rattle.deployment_doc.specs.Spelled.{spelled};
ghost use Rattle.deployment_doc.specs.Lines.{range_lines, component_lines, components_lines, at_optional, at_required};
ghost use Rattle.deployment_doc.specs.Named.{IsRoot, components as components_in};
ghost use Rattle.deployment_doc.specs.declared.fault.DocFault.TheVariants.{NoMemory as OutOfMemory};
ghost use Rattle.deployment_doc.specs.declared.fault.Key.TheVariants as key;

use crate::document::Root;
use crate::fault::{DocFault, Key};
use crate::update::update_of;
use npm_ranges::{Range, RangeFault};
use nuc_base::{Copied, List, Name, NameFault, Text};
use std::alloc::Global;
use tree_core::Tree;

const MOST_COMPONENTS: usize = 128;

pub(crate) fn roots_of(alloc: Global, tree: &Tree) -> Result<List<Root>, DocFault>
    requires { IsRegular (view tree.now) }
    ensures { AnswerBy OutOfMemory
        (at_optional key.Components (view tree.now) components_lines)
        (AllZip IsRoot (components_in (present (get (spelled key.Components) (view tree.now)))))
        result }
{
    match tree.present(Key::Components.text()) {
        Some(components) => roots_in(alloc, components),
        None => Ok(List::empty(alloc)),
    }
}

fn roots_in(alloc: Global, components: &Tree) -> Result<List<Root>, DocFault>
    requires { IsRegular (view components.now) }
    ensures { AnswerBy OutOfMemory (components_lines (view components.now)) (AllZip IsRoot (members (view components.now))) result }
{
    let Tree::Fields(fields) = components else {
        return Err(DocFault::WrongKind(Key::Components));
    };
    if fields.len() > MOST_COMPONENTS {
        return Err(DocFault::TooMany(Key::Components));
    }
    roots_among(alloc, fields)
}

fn roots_among(alloc: Global, fields: &Vec<(Text, Tree)>) -> Result<List<Root>, DocFault>
    requires { IsRegular (object (fields_view fields.now.items)) }
    ensures { AnswerBy OutOfMemory
        (each component_lines (map field_view fields.now.items))
        (AllZip IsRoot (map field_view fields.now.items))
        result }
{
    let mut roots = Vec::with_capacity(alloc, fields.len())?;
    for (name, component) in fields {
        let root = root_of(alloc, name, component)?;
        roots.push(root)?;
    }
    Ok(List::new(roots))
}

fn root_of(alloc: Global, name: &Text, component: &Tree) -> Result<Root, DocFault>
    requires { IsRegular (view component.now) }
    ensures { AnswerBy OutOfMemory (component_lines (name.now, view component.now)) (IsRoot (name.now, view component.now)) result }
{
    let name = match Name::read(alloc, name.as_str().as_bytes()) {
        Ok(name) => name,
        Err(NameFault::Bad) => return Err(DocFault::BadName(Key::Components)),
        Err(NameFault::NoMemory) => return Err(DocFault::NoMemory),
    };
    let Tree::Fields(_) = component else {
        return Err(DocFault::WrongKind(Key::Components));
    };
    let range = version_of(alloc, &name, component)?;
    let update = update_of(alloc, &name, component)?;
    Ok(Root {
        name,
        range,
        update,
    })
}

fn version_of(alloc: Global, name: &Name, component: &Tree) -> Result<Range, DocFault>
    ensures { AnswerBy OutOfMemory
        (at_required key.ComponentVersion (view component.now) (range_lines name.now))
        (λ range. get (spelled key.ComponentVersion) (view component.now) ≡ Some (string range))
        result }
{
    match component.member(Key::ComponentVersion.text()) {
        Some(version) => range_of(alloc, name, version),
        None => Err(DocFault::Missing(Key::ComponentVersion)),
    }
}

fn range_of(alloc: Global, name: &Name, version: &Tree) -> Result<Range, DocFault>
    ensures { AnswerBy OutOfMemory (range_lines name.now (view version.now)) (λ range. view version.now ≡ string range) result }
{
    let Tree::Text(text) = version else {
        return Err(DocFault::WrongKind(Key::ComponentVersion));
    };
    match Range::read(alloc, text.as_str().as_bytes()) {
        Ok(range) => Ok(range),
        Err(RangeFault::Bad | RangeFault::TooManyParts) => Err(DocFault::BadRange(name.copy(
            alloc,
        )?)),
        Err(RangeFault::NoMemory) => Err(DocFault::NoMemory),
    }
}
