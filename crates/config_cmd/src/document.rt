//! The document of a change.
ghost use Rattle.std.specs.Prelude.{◌≡◌, ◌<◌, length, map, option_map, slice_index_or, IfOk, None, if◌then◌else◌};
ghost use Rattle.nuc_base.specs.Tables.{AnswerBy};
ghost use Rattle.deployment_doc.specs.Sound.{AreSound, MergesObject};
ghost use Rattle.device.specs.Devices.{device_view};
ghost use Rattle.device.specs.Plans.{requirement_name, AreRising};
ghost use Rattle.device.specs.Sound.{IsSound};
ghost use Rattle.config_cmd.specs.declared.fault.SetFault.TheVariants.{NoMemory as OutOfMemory};
ghost use Rattle.config_cmd.specs.Documents.{set_lines, requires_name as requires_by, group_for as group_by, root_for, IsChangeDocument};

use crate::change::Change;
use crate::fault::SetFault;
use crate::get::item_named;
use config_ops::Update;
use deployment_doc::{Document, Root};
use device::{Device, Group, Groups};
use nuc_base::{Copied, List, Name, NoMemory, Policy};
use records::Requirement;
use std::alloc::Global;

/// The document that makes the change on the device: of the first group that requires the component, with what the group
/// requires as it stands and the update at this component alone, of no revision, and rolled back where it fails.
pub fn config_document(
    alloc: Global,
    device: &Device,
    name: &Name,
    change: Change,
) -> Result<Document, SetFault>
    requires sound { IsSound (device_view device.now) }
    requires object { MergesObject change.update }
    ensures exact { AnswerBy OutOfMemory (set_lines (device_view device.now) name.now) (IsChangeDocument (device_view device.now) name.now change) result }
    ensures sound { IfOk result (λ document. AreSound document.roots) }
{
    if item_named(device.set.as_slice(), name).is_none() {
        return Err(SetFault::NoComponent);
    }
    let Some(group) = group_for(&device.groups, name) else {
        return Err(SetFault::NotListed);
    };
    let arn = group.arn.copy(alloc)?;
    let roots = roots_for(alloc, group.requirements.as_slice(), name, change.update)?;
    Ok(Document {
        id: change.id,
        group: arn,
        revision: 0,
        policy: Policy::Rollback,
        roots,
    })
}

fn requires_name(group: &Group, name: &Name) -> bool
    ensures { result ≡ requires_by name.now group.now }
{
    for requirement in group.requirements.as_slice() {
        if *name == requirement.name {
            return true;
        }
    }
    false
}

fn group_at(groups: &Groups, at: usize) -> &Group
    requires { at < length groups.now.list }
    ensures { result.now ≡ slice_index_or groups.now.list at result.now }
{
    groups.nth(at).unwrap()
}

/// The first group that requires the component.
fn group_for<'a>(groups: &'a Groups, name: &Name) -> Option<&'a Group>
    ensures { option_map (λ g. g.now) result ≡ group_by name.now groups.now.list }
{
    for at in 0..groups.len() {
        let group = group_at(groups, at);
        if requires_name(group, name) {
            return Some(group);
        }
    }
    None
}

/// What is left to give, given where this is the place.
fn given(left: &mut Option<Update>, here: bool) -> Option<Update>
    ensures value { result ≡ (if here then left.old else None) }
    ensures after { left.new ≡ (if here then None else left.old) }
{
    if here { left.take() } else { None }
}

fn root_with(
    alloc: Global,
    requirement: &Requirement,
    update: Option<Update>,
) -> Result<Root, NoMemory>
    ensures name { IfOk result (λ root. root.name ≡ requirement.now.name) }
    ensures range { IfOk result (λ root. root.range ≡ requirement.now.range) }
    ensures update { IfOk result (λ root. root.update ≡ update) }
{
    Ok(Root {
        name: requirement.name.copy(alloc)?,
        range: requirement.range.copy(alloc)?,
        update,
    })
}

/// The requirements as roots, the update at the one of this name.
fn roots_for(
    alloc: Global,
    requirements: &[Requirement],
    name: &Name,
    update: Update,
) -> Result<List<Root>, NoMemory>
    requires { AreRising (map requirement_name requirements.now) }
    ensures { IfOk result (λ roots. roots ≡ map (root_for name.now update) requirements.now) }
{
    let mut left = Some(update);
    let mut roots = Vec::with_capacity(alloc, requirements.len())?;
    for requirement in requirements {
        let here = *name == requirement.name;
        let root = root_with(alloc, requirement, given(&mut left, here))?;
        roots.push(root)?;
    }
    Ok(List::new(roots))
}
