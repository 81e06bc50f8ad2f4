ghost use Rattle.std.specs.Prelude.{◌≡◌, ◌⊎◌, ◌↔◌, map, option_map, MatchResult, IsTrue};
ghost use Rattle.std.specs.List.{AllZip};
ghost use Rattle.serde_json.specs.Data.{Data};
ghost use Rattle.serde_json.specs.Find.{get};
ghost use Rattle.nuc_base.specs.Tables.{AnswerBy, each, on};
ghost use Rattle.tree_core.specs.View.{view};
ghost use Rattle.tree_core.specs.Parts.{present, values, IsObject};
ghost use Rattle.tree_core.specs.Reading.{IsTreeOf};
ghost use Rattle.tree_core.specs.Regular.{IsRegular};
ghost use Rattle.deployment_doc.specs.Spelled.{spelled};
ghost use Rattle.deployment_doc.specs.Lines.{text_limit, pointer_lines, reset_lines, merge_lines, update_lines, reset_in as reset_value};
ghost use Rattle.deployment_doc.specs.Lines.{merge_in as merge_value, either as one_of, HasBoth, IsMergeObject, at_optional};
ghost use Rattle.deployment_doc.specs.Named.{IsUpdate, IsUpdateOf, AreResets, IsReset, IsMerge};
ghost use Rattle.deployment_doc.specs.declared.fault.DocFault.TheVariants.{NoMemory as OutOfMemory, BadMerge};
ghost use Rattle.deployment_doc.specs.declared.fault.Key.TheVariants as key;

use crate::fault::{DocFault, Key};
use config_ops::Update;
use nuc_base::{Copied, DOCUMENT_LIMIT, List, Name, Pointer, PointerFault};
use std::alloc::Global;
use tree_core::{Tree, TreeFault};

const MOST_RESETS: usize = 256;

pub(crate) fn update_of(
    alloc: Global,
    name: &Name,
    component: &Tree,
) -> Result<Option<Update>, DocFault>
    requires { IsRegular (view component.now) }
    ensures { AnswerBy OutOfMemory
        (at_optional key.ConfigurationUpdate (view component.now) (update_lines name.now))
        (IsUpdate (present (get (spelled key.ConfigurationUpdate) (view component.now))))
        result }
{
    match component.present(Key::ConfigurationUpdate.text()) {
        Some(update) => Ok(Some(read_update(alloc, update, name)?)),
        None => Ok(None),
    }
}

/// Reads the update of one component (AWS IoT Greengrass V2 developer guide, "Update component configurations"):
/// an object with a list of JSON pointers under `reset` or `RESET`, and with an object, or the JSON text of one, under
/// `merge` or `MERGE`. A fault names the component where it is of a pointer or of the merge.
pub fn read_update(alloc: Global, tree: &Tree, name: &Name) -> Result<Update, DocFault>
    requires { IsRegular (view tree.now) }
    ensures { AnswerBy OutOfMemory (update_lines name.now (view tree.now)) (IsUpdateOf (view tree.now)) result }
{
    let Tree::Fields(_) = tree else {
        return Err(DocFault::WrongKind(Key::ConfigurationUpdate));
    };
    if has_both(tree, "reset", "RESET") {
        return Err(DocFault::DuplicateKey(Key::Reset));
    }
    if has_both(tree, "merge", "MERGE") {
        return Err(DocFault::DuplicateKey(Key::Merge));
    }
    let resets = resets_of(alloc, name, tree)?;
    let merge = merge_of(alloc, name, tree)?;
    Ok(Update { resets, merge })
}

/// The value of a key that has two spellings, where it is there and not null.
fn either<'t>(tree: &'t Tree, small: &str, large: &str) -> Option<&'t Tree>
    ensures { option_map (λ t. view t.now) result ≡ one_of small.now large.now (view tree.now) }
{
    let found = match tree.member(small) {
        Some(value) => Some(value),
        None => tree.member(large),
    };
    match found {
        Some(Tree::Null) | None => None,
        Some(value) => Some(value),
    }
}

fn has_both(tree: &Tree, small: &str, large: &str) -> bool
    ensures { IsTrue result ↔ HasBoth small.now large.now (view tree.now) }
{
    tree.member(small).is_some() && tree.member(large).is_some()
}

fn resets_of(alloc: Global, name: &Name, tree: &Tree) -> Result<List<Pointer>, DocFault>
    ensures { AnswerBy OutOfMemory (on (reset_value (view tree.now)) (reset_lines name.now)) (AreResets (reset_value (view tree.now))) result }
{
    match either(tree, "reset", "RESET") {
        Some(resets) => resets_in(alloc, name, resets),
        None => Ok(List::empty(alloc)),
    }
}

fn resets_in(alloc: Global, name: &Name, resets: &Tree) -> Result<List<Pointer>, DocFault>
    ensures { AnswerBy OutOfMemory (reset_lines name.now (view resets.now)) (AllZip IsReset (values (view resets.now))) result }
{
    let Tree::Items(items) = resets else {
        return Err(DocFault::WrongKind(Key::Reset));
    };
    if items.len() > MOST_RESETS {
        return Err(DocFault::TooMany(Key::Reset));
    }
    resets_among(alloc, name, items)
}

fn resets_among(alloc: Global, name: &Name, items: &Vec<Tree>) -> Result<List<Pointer>, DocFault>
    ensures { AnswerBy OutOfMemory
        (each (pointer_lines name.now) (map view items.now.items))
        (AllZip IsReset (map view items.now.items))
        result }
{
    let mut resets = Vec::with_capacity(alloc, items.len())?;
    for item in items {
        let reset = reset_of(alloc, name, item)?;
        resets.push(reset)?;
    }
    Ok(List::new(resets))
}

fn reset_of(alloc: Global, name: &Name, item: &Tree) -> Result<Pointer, DocFault>
    ensures { AnswerBy OutOfMemory (pointer_lines name.now (view item.now)) (IsReset (view item.now)) result }
{
    let Tree::Text(text) = item else {
        return Err(DocFault::WrongKind(Key::Reset));
    };
    match Pointer::read(alloc, text.as_str()) {
        Ok(pointer) => Ok(pointer),
        Err(PointerFault::NoMemory) => Err(DocFault::NoMemory),
        Err(_) => Err(DocFault::BadPointer(name.copy(alloc)?)),
    }
}

fn merge_of(alloc: Global, name: &Name, tree: &Tree) -> Result<Option<Tree>, DocFault>
    requires { IsRegular (view tree.now) }
    ensures { AnswerBy OutOfMemory (on (merge_value (view tree.now)) (merge_lines name.now)) (IsMerge (merge_value (view tree.now))) result }
{
    match either(tree, "merge", "MERGE") {
        Some(value) => Ok(Some(merge_in(alloc, name, value)?)),
        None => Ok(None),
    }
}

fn merge_in(alloc: Global, name: &Name, value: &Tree) -> Result<Tree, DocFault>
    requires { IsRegular (view value.now) }
    ensures { AnswerBy OutOfMemory (merge_lines name.now (view value.now)) (λ t. IsMergeObject (view value.now) (view t) × IsRegular (view t)) result }
{
    match value {
        Tree::Fields(_) => Ok(value.copy(alloc)?),
        Tree::Text(text) => merge_read(alloc, name, text.as_str().as_bytes()),
        _ => Err(bad_merge(alloc, name)),
    }
}

/// The object that a text is.
fn merge_read(alloc: Global, name: &Name, text: &[u8]) -> Result<Tree, DocFault>
    ensures { MatchResult result
        (λ t. IsTreeOf text.now text_limit (view t) × IsObject (view t) × IsRegular (view t))
        (λ f. (f ≡ OutOfMemory) ⊎ ((f ≡ BadMerge name.now) × ((d : Data) → IsTreeOf text.now text_limit d → IsObject d → ⊥))) }
{
    match Tree::read(alloc, text, DOCUMENT_LIMIT) {
        Ok(tree) => {
            if tree.is_object() {
                Ok(tree)
            } else {
                Err(bad_merge(alloc, name))
            }
        }
        Err(TreeFault::NoMemory) => Err(DocFault::NoMemory),
        Err(_) => Err(bad_merge(alloc, name)),
    }
}

fn bad_merge(alloc: Global, name: &Name) -> DocFault
    ensures { (result ≡ OutOfMemory) ⊎ (result ≡ BadMerge name.now) }
{
    match name.copy(alloc) {
        Ok(name) => DocFault::BadMerge(name),
        Err(_) => DocFault::NoMemory,
    }
}
