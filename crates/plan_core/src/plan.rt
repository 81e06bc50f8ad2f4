//! The plan.
ghost use Rattle.std.specs.Prelude.{◌≡◌, ◌⊎◌, Some, IfOk, MatchResult};
ghost use Rattle.std.specs.Option.{IsSomeAnd};
ghost use Rattle.records.specs.Stored.{draft_view};
ghost use Rattle.records.specs.declared.record.Origin.{Origin};
ghost use Rattle.device.specs.Devices.{device_view};
ghost use Rattle.plan_core.specs.Looks.{candidates_of};
ghost use Rattle.plan_core.specs.Plans.{PlanOutcome, IsHeadOf};
ghost use Rattle.plan_core.specs.Ready.{MayPlan};
ghost use Rattle.plan_core.specs.Parts.{IsFewChoice, HasNoFewChoice, ChoiceOutcome, MayMake, ItemsOutcome};
ghost use Rattle.plan_core.specs.declared.fault.PlanFault.TheVariants.{NoMemory as OutOfMemory};

use crate::boots::boots_of;
use crate::drafts::drafts_of;
use crate::fault::PlanFault;
use crate::items::{bare_items, choice_of};
use crate::requests::{requirements_of, wanted_of};
use crate::sizes::{check_configs, check_count, check_room};
use conflict_search::{SearchFault, search};
use deployment_doc::Document;
use device::Device;
use nuc_base::{Copied, List, Name, NoMemory};
use recipe_reader::{Candidate, Candidates, recipe_laws};
use records::{Draft, DraftItem, Origin};
use std::alloc::Global;

/// The preferred set for what all groups ask.
fn set_of(
    alloc: Global,
    device: &Device,
    candidates: &Candidates,
    document: &Document,
) -> Result<List<u32>, PlanFault>
    ensures { ChoiceOutcome (device_view device.now) candidates.now document.now result }
{
    let wanted = wanted_of(alloc, &device.groups, document)?;
    let mut tries = 0;
    match search(alloc, candidates, &wanted, &mut tries) {
        Ok(set) => Ok(set),
        Err(SearchFault::NoVersion) => Err(PlanFault::NoVersion),
        Err(SearchFault::NoMemory) => Err(PlanFault::NoMemory),
    }
}

/// The candidates of the preferred set for what all groups ask, where they are few enough.
fn choose<'a>(
    alloc: Global,
    device: &Device,
    candidates: &'a Candidates,
    document: &Document,
) -> Result<Vec<&'a Candidate>, PlanFault>
    ensures { MatchResult result
        (λ choice. IsFewChoice (device_view device.now) candidates.now document.now (candidates_of choice.items))
        (λ f. (f ≡ OutOfMemory) ⊎ HasNoFewChoice (device_view device.now) candidates.now document.now f) }
{
    let list = candidates.list().as_slice();
    let set = set_of(alloc, device, candidates, document)?;
    check_count(set.len())?;
    let choice = choice_of(alloc, list, set.as_slice())?;
    Ok(choice)
}

/// The items of a choice and their bootstraps.
fn parts_of(
    alloc: Global,
    origin: &Origin,
    device: &Device,
    document: &Document,
    choice: &[&Candidate],
) -> Result<(List<DraftItem>, List<Name>), PlanFault>
    requires may { MayMake origin.now (device_view device.now) document.now (candidates_of choice.now) }
    ensures { ItemsOutcome origin.now (device_view device.now) document.now (candidates_of choice.now) result }
{
    recipe_laws();
    let set = &device.set;
    let items = bare_items(alloc, set.as_slice(), document.roots.as_slice(), choice)?;
    check_configs(alloc, items.as_slice())?;
    let boots = boots_of(alloc, origin, set, choice, &items)?;
    let drafts = drafts_of(alloc, set.as_slice(), choice, items)?;
    Ok((drafts, boots))
}

fn draft_of(
    alloc: Global,
    document: &Document,
    items: List<DraftItem>,
    boots: List<Name>,
) -> Result<Draft, NoMemory>
    ensures { IfOk result (λ draft. IsHeadOf document.now (draft_view draft) × (draft.items ≡ items) × (draft.boots ≡ boots)) }
{
    Ok(Draft {
        id: document.id.copy(alloc)?,
        group: document.group.copy(alloc)?,
        revision: document.revision,
        policy: document.policy,
        requirements: requirements_of(alloc, document.roots.as_slice())?,
        items,
        boots,
    })
}

/// The draft of the plan that the document makes of the device: the preferred set of the candidates for what all other
/// groups and the document's roots ask, each item with its configuration and its files, and the bootstraps to run.
///
/// The first check that fails answers: as many deployments closed as may; a group more than there may be; no set is
/// valid; the set has too many components; the first, by name, whose configuration is too long.
pub fn make_plan(
    alloc: Global,
    device: &Device,
    candidates: &Candidates,
    document: &Document,
) -> Result<Draft, PlanFault>
    requires { IsSomeAnd device.now.origin (λ o. MayPlan o (device_view device.now) candidates.now document.now) }
    ensures { (o : Origin) → device.now.origin ≡ Some o → PlanOutcome o (device_view device.now) candidates.now document.now result }
{
    let Some(origin) = &device.origin else {
        unreachable!()
    };
    check_room(device, document)?;
    let choice = choose(alloc, device, candidates, document)?;
    let (items, boots) = parts_of(alloc, origin, device, document, choice.as_slice())?;
    let draft = draft_of(alloc, document, items, boots)?;
    Ok(draft)
}
