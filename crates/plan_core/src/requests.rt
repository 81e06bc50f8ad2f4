//! What is wanted of the candidates.
ghost use Rattle.std.specs.Prelude.{◌≡◌, ◌<◌, ◌++◌, map, length, slice_index_or, IfOk};
ghost use Rattle.recipe_reader.specs.Sets.{asked, wanted_need};
ghost use Rattle.plan_core.specs.Requests.{requirement_need, root_need, asked_beside, wanted_of as wanted_by, root_requirement};

use conflict_search::Wanted;
use deployment_doc::{Document, Root};
use device::{Group, Groups};
use nuc_base::{Copied, Label, List, NoMemory};
use records::Requirement;
use std::alloc::Global;

fn wanted_requirement(alloc: Global, requirement: &Requirement) -> Result<Wanted, NoMemory>
    ensures { IfOk result (λ w. wanted_need w ≡ requirement_need requirement.now) }
{
    Ok(Wanted {
        name: requirement.name.copy(alloc)?,
        range: requirement.range.copy(alloc)?,
    })
}

fn wanted_root(alloc: Global, root: &Root) -> Result<Wanted, NoMemory>
    ensures { IfOk result (λ w. wanted_need w ≡ root_need root.now) }
{
    Ok(Wanted {
        name: root.name.copy(alloc)?,
        range: root.range.copy(alloc)?,
    })
}

#[tactic(auto, using(crate::proofs::Facts::asked_push))]
fn push_requirements(
    alloc: Global,
    requirements: &[Requirement],
    wanted: &mut Vec<Wanted>,
) -> Result<(), NoMemory>
    ensures { IfOk result (λ _. asked wanted.new.items ≡ asked wanted.old.items ++ map requirement_need requirements.now) }
{
    for requirement in requirements {
        wanted.push(wanted_requirement(alloc, requirement)?)?;
    }
    Ok(())
}

#[tactic(auto, using(crate::proofs::Facts::asked_push))]
fn push_roots(alloc: Global, roots: &[Root], wanted: &mut Vec<Wanted>) -> Result<(), NoMemory>
    ensures { IfOk result (λ _. asked wanted.new.items ≡ asked wanted.old.items ++ map root_need roots.now) }
{
    for root in roots {
        wanted.push(wanted_root(alloc, root)?)?;
    }
    Ok(())
}

/// Adds what the group asks, unless it is the one of this name.
fn push_group(
    alloc: Global,
    arn: &Label,
    group: &Group,
    wanted: &mut Vec<Wanted>,
) -> Result<(), NoMemory>
    ensures { IfOk result (λ _. asked wanted.new.items ≡ asked wanted.old.items ++ asked_beside arn.now group.now) }
{
    if *arn == group.arn {
        return Ok(());
    }
    push_requirements(alloc, group.requirements.as_slice(), wanted)
}

fn group_at(groups: &Groups, at: usize) -> &Group
    requires { at < length groups.now.list }
    ensures { result.now ≡ slice_index_or groups.now.list at result.now }
{
    groups.nth(at).unwrap()
}

/// What is wanted: the requirements of all groups but the document's, and the document's roots.
pub(crate) fn wanted_of(
    alloc: Global,
    groups: &Groups,
    document: &Document,
) -> Result<List<Wanted>, NoMemory>
    ensures { IfOk result (λ wanted. asked wanted ≡ wanted_by groups.now.list document.now) }
{
    let mut wanted = Vec::new(alloc);
    for at in 0..groups.len() {
        push_group(alloc, &document.group, group_at(groups, at), &mut wanted)?;
    }
    push_roots(alloc, document.roots.as_slice(), &mut wanted)?;
    Ok(List::new(wanted))
}

/// What the document's group asks from then on.
pub(crate) fn requirements_of(alloc: Global, roots: &[Root]) -> Result<List<Requirement>, NoMemory>
    ensures { IfOk result (λ list. list ≡ map root_requirement roots.now) }
{
    let mut list = Vec::with_capacity(alloc, roots.len())?;
    for root in roots {
        list.push(Requirement {
            name: root.name.copy(alloc)?,
            range: root.range.copy(alloc)?,
        })?;
    }
    Ok(List::new(list))
}
