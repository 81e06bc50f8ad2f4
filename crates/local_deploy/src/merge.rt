//! What a request merges.
ghost use Rattle.std.specs.Prelude.{◌≡◌, map};
ghost use Rattle.std.specs.List.{AllZip};
ghost use Rattle.serde_json.specs.Data.{string};
ghost use Rattle.nuc_base.specs.Names.{IsName};
ghost use Rattle.nuc_base.specs.Tables.{AnswerBy, each};
ghost use Rattle.tree_core.specs.View.{view, field_view};
ghost use Rattle.tree_core.specs.Parts.{members, check};
ghost use Rattle.deployment_doc.specs.Named.{components as members_in};
ghost use Rattle.local_deploy.specs.Lines.{at_optional, merge_lines, merged_lines, range_lines, value_of};
ghost use Rattle.local_deploy.specs.Named.{IsMerged};
ghost use Rattle.local_deploy.specs.declared.fault.Key.TheVariants as key;
ghost use Rattle.local_deploy.specs.declared.fault.LocalFault.TheVariants.{BadName, NoMemory as OutOfMemory};

use crate::fault::{Key, LocalFault};
use npm_ranges::{Range, RangeFault};
use nuc_base::{Copied, List, Name, NameFault, Text};
use std::alloc::Global;
use tree_core::Tree;

/// The most names that are merged, removed or updated.
pub(crate) const MOST_NAMES: usize = 128;

pub(crate) fn merge_of(alloc: Global, tree: &Tree) -> Result<List<(Name, Range)>, LocalFault>
    ensures { AnswerBy OutOfMemory
        (at_optional key.Merge (view tree.now) merge_lines)
        (AllZip IsMerged (members_in (value_of key.Merge (view tree.now))))
        result }
{
    match tree.present(Key::Merge.text()) {
        Some(merge) => merge_in(alloc, merge),
        None => Ok(List::empty(alloc)),
    }
}

fn merge_in(alloc: Global, merge: &Tree) -> Result<List<(Name, Range)>, LocalFault>
    ensures { AnswerBy OutOfMemory (merge_lines (view merge.now)) (AllZip IsMerged (members (view merge.now))) result }
{
    let Tree::Fields(fields) = merge else {
        return Err(LocalFault::WrongKind(Key::Merge));
    };
    if fields.len() > MOST_NAMES {
        return Err(LocalFault::TooMany(Key::Merge));
    }
    merge_among(alloc, fields)
}

fn merge_among(alloc: Global, fields: &Vec<(Text, Tree)>) -> Result<List<(Name, Range)>, LocalFault>
    ensures { AnswerBy OutOfMemory
        (each merged_lines (map field_view fields.now.items))
        (AllZip IsMerged (map field_view fields.now.items))
        result }
{
    let mut merge = Vec::with_capacity(alloc, fields.len())?;
    for (name, range) in fields {
        let merged = merged_of(alloc, name, range)?;
        merge.push(merged)?;
    }
    Ok(List::new(merge))
}

fn merged_of(alloc: Global, name: &Text, range: &Tree) -> Result<(Name, Range), LocalFault>
    ensures { AnswerBy OutOfMemory (merged_lines (name.now, view range.now)) (IsMerged (name.now, view range.now)) result }
{
    let name = name_of(alloc, name.as_str().as_bytes(), Key::Merge)?;
    let range = range_of(alloc, &name, range)?;
    Ok((name, range))
}

/// The name that a text is, in the value of this key.
pub(crate) fn name_of(alloc: Global, bytes: &[u8], key: Key) -> Result<Name, LocalFault>
    ensures { AnswerBy OutOfMemory (check (IsName bytes.now) (BadName key)) (λ name. name ≡ bytes.now) result }
{
    match Name::read(alloc, bytes) {
        Ok(name) => Ok(name),
        Err(NameFault::Bad) => Err(LocalFault::BadName(key)),
        Err(NameFault::NoMemory) => Err(LocalFault::NoMemory),
    }
}

fn range_of(alloc: Global, name: &Name, value: &Tree) -> Result<Range, LocalFault>
    ensures { AnswerBy OutOfMemory (range_lines name.now (view value.now)) (λ range. view value.now ≡ string range) result }
{
    let Tree::Text(text) = value else {
        return Err(LocalFault::WrongKind(Key::Merge));
    };
    match Range::read(alloc, text.as_str().as_bytes()) {
        Ok(range) => Ok(range),
        Err(RangeFault::Bad | RangeFault::TooManyParts) => Err(LocalFault::BadRange(name.copy(
            alloc,
        )?)),
        Err(RangeFault::NoMemory) => Err(LocalFault::NoMemory),
    }
}
