//! What a request changes in the configurations of components.
ghost use Rattle.std.specs.Prelude.{map};
ghost use Rattle.std.specs.List.{AllZip};
ghost use Rattle.serde_json.specs.Data.{object};
ghost use Rattle.nuc_base.specs.Tables.{AnswerBy, each};
ghost use Rattle.tree_core.specs.View.{view, field_view, fields_view};
ghost use Rattle.tree_core.specs.Parts.{members};
ghost use Rattle.tree_core.specs.Regular.{IsRegular};
ghost use Rattle.deployment_doc.specs.Lines.{update_lines};
ghost use Rattle.deployment_doc.specs.Named.{IsUpdateOf, components as members_in};
ghost use Rattle.local_deploy.specs.Lines.{at_optional, handed, update_fault, updates_lines, updated_lines, value_of};
ghost use Rattle.local_deploy.specs.Named.{IsUpdated};
ghost use Rattle.local_deploy.specs.declared.fault.Key.TheVariants as key;
ghost use Rattle.local_deploy.specs.declared.fault.LocalFault.TheVariants.{NoMemory as OutOfMemory};

use crate::fault::{Key, LocalFault};
use crate::merge::{MOST_NAMES, name_of};
use config_ops::Update;
use deployment_doc::read_update;
use nuc_base::{List, Name, Text};
use std::alloc::Global;
use tree_core::Tree;

pub(crate) fn updates_of(alloc: Global, tree: &Tree) -> Result<List<(Name, Update)>, LocalFault>
    requires { IsRegular (view tree.now) }
    ensures { AnswerBy OutOfMemory
        (at_optional key.UpdateConfig (view tree.now) updates_lines)
        (AllZip IsUpdated (members_in (value_of key.UpdateConfig (view tree.now))))
        result }
{
    match tree.present(Key::UpdateConfig.text()) {
        Some(updates) => updates_in(alloc, updates),
        None => Ok(List::empty(alloc)),
    }
}

fn updates_in(alloc: Global, updates: &Tree) -> Result<List<(Name, Update)>, LocalFault>
    requires { IsRegular (view updates.now) }
    ensures { AnswerBy OutOfMemory (updates_lines (view updates.now)) (AllZip IsUpdated (members (view updates.now))) result }
{
    let Tree::Fields(fields) = updates else {
        return Err(LocalFault::WrongKind(Key::UpdateConfig));
    };
    if fields.len() > MOST_NAMES {
        return Err(LocalFault::TooMany(Key::UpdateConfig));
    }
    updates_among(alloc, fields)
}

fn updates_among(
    alloc: Global,
    fields: &Vec<(Text, Tree)>,
) -> Result<List<(Name, Update)>, LocalFault>
    requires { IsRegular (object (fields_view fields.now.items)) }
    ensures { AnswerBy OutOfMemory
        (each updated_lines (map field_view fields.now.items))
        (AllZip IsUpdated (map field_view fields.now.items))
        result }
{
    let mut updates = Vec::with_capacity(alloc, fields.len())?;
    for (name, update) in fields {
        let updated = updated_of(alloc, name, update)?;
        updates.push(updated)?;
    }
    Ok(List::new(updates))
}

fn updated_of(alloc: Global, name: &Text, update: &Tree) -> Result<(Name, Update), LocalFault>
    requires { IsRegular (view update.now) }
    ensures { AnswerBy OutOfMemory (updated_lines (name.now, view update.now)) (IsUpdated (name.now, view update.now)) result }
{
    let name = name_of(alloc, name.as_str().as_bytes(), Key::UpdateConfig)?;
    let Tree::Fields(_) = update else {
        return Err(LocalFault::WrongKind(Key::UpdateConfig));
    };
    let update = update_of(alloc, &name, update)?;
    Ok((name, update))
}

fn update_of(alloc: Global, name: &Name, update: &Tree) -> Result<Update, LocalFault>
    requires { IsRegular (view update.now) }
    ensures { AnswerBy OutOfMemory (handed update_fault (update_lines name.now (view update.now))) (IsUpdateOf (view update.now)) result }
{
    match read_update(alloc, update, name) {
        Ok(update) => Ok(update),
        Err(fault) => Err(LocalFault::from(fault)),
    }
}
