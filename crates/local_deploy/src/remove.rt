//! What a request removes.
ghost use Rattle.std.specs.Prelude.{◌≡◌, Some, map, IfOk, OnOk};
ghost use Rattle.std.specs.List.{AllZip, list_any};
ghost use Rattle.std.specs.Str.{bytes_eq};
ghost use Rattle.serde_json.specs.Data.{string};
ghost use Rattle.nuc_base.specs.Tables.{AnswerBy, each};
ghost use Rattle.tree_core.specs.View.{view};
ghost use Rattle.tree_core.specs.Parts.{values};
ghost use Rattle.local_deploy.specs.Lines.{at_optional, remove_lines, removed_lines, value_of};
ghost use Rattle.local_deploy.specs.Named.{AreRemoved, IsNamed, once, with_name};
ghost use Rattle.local_deploy.specs.declared.fault.Key.TheVariants as key;
ghost use Rattle.local_deploy.specs.declared.fault.LocalFault.TheVariants.{NoMemory as OutOfMemory};

use crate::fault::{Key, LocalFault};
use crate::merge::MOST_NAMES;
use nuc_base::{List, Name, NameFault, NoMemory};
use std::alloc::Global;
use tree_core::Tree;

pub(crate) fn remove_of(alloc: Global, tree: &Tree) -> Result<List<Name>, LocalFault>
    ensures { AnswerBy OutOfMemory
        (at_optional key.Remove (view tree.now) remove_lines)
        (AreRemoved (value_of key.Remove (view tree.now)))
        result }
{
    match tree.present(Key::Remove.text()) {
        Some(remove) => remove_in(alloc, remove),
        None => Ok(List::empty(alloc)),
    }
}

fn remove_in(alloc: Global, remove: &Tree) -> Result<List<Name>, LocalFault>
    ensures { AnswerBy OutOfMemory (remove_lines (view remove.now)) (AreRemoved (Some (view remove.now))) result }
{
    let names = names_in(alloc, remove)?;
    Ok(each_once(alloc, names)?)
}

fn names_in(alloc: Global, remove: &Tree) -> Result<List<Name>, LocalFault>
    ensures { AnswerBy OutOfMemory (remove_lines (view remove.now)) (AllZip IsNamed (values (view remove.now))) result }
{
    let Tree::Items(items) = remove else {
        return Err(LocalFault::WrongKind(Key::Remove));
    };
    if items.len() > MOST_NAMES {
        return Err(LocalFault::TooMany(Key::Remove));
    }
    names_among(alloc, items)
}

fn names_among(alloc: Global, items: &Vec<Tree>) -> Result<List<Name>, LocalFault>
    ensures { AnswerBy OutOfMemory
        (each removed_lines (map view items.now.items))
        (AllZip IsNamed (map view items.now.items))
        result }
{
    let mut names = Vec::with_capacity(alloc, items.len())?;
    for item in items {
        let name = removed_of(alloc, item)?;
        names.push(name)?;
    }
    Ok(List::new(names))
}

fn removed_of(alloc: Global, item: &Tree) -> Result<Name, LocalFault>
    ensures { AnswerBy OutOfMemory (removed_lines (view item.now)) (λ name. view item.now ≡ string name) result }
{
    let Tree::Text(text) = item else {
        return Err(LocalFault::WrongKind(Key::Remove));
    };
    match Name::read(alloc, text.as_str().as_bytes()) {
        Ok(name) => Ok(name),
        Err(NameFault::Bad) => Err(LocalFault::BadName(Key::Remove)),
        Err(NameFault::NoMemory) => Err(LocalFault::NoMemory),
    }
}

pub(crate) fn has_name(names: &[Name], name: &Name) -> bool
    ensures { result ≡ list_any (bytes_eq name.now) names.now }
{
    for other in names {
        if *name == *other {
            return true;
        }
    }
    false
}

/// Each of the names once, where it stands first.
fn each_once(alloc: Global, names: List<Name>) -> Result<List<Name>, NoMemory>
    ensures { IfOk result (λ list. list ≡ once names) }
{
    let mut list = Vec::new(alloc);
    for name in names.into_vec() {
        add_name(&mut list, name)?;
    }
    Ok(List::new(list))
}

/// Adds a name at the end, unless it is there.
fn add_name(list: &mut Vec<Name>, name: Name) -> Result<(), NoMemory>
    ensures { OnOk result (list.new.items ≡ with_name list.old.items name) }
{
    if has_name(list.as_slice(), &name) {
        return Ok(());
    }
    list.push(name)?;
    Ok(())
}
