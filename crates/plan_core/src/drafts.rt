//! The items of a plan with their files.
ghost use Rattle.std.specs.Prelude.{◌≡◌, List, map, length, option_map, IfOk};
ghost use Rattle.records.specs.Stored.{item_view, draft_item_view};
ghost use Rattle.deployment_doc.specs.declared.document.Root.{Root};
ghost use Rattle.plan_core.specs.Looks.{candidates_of};
ghost use Rattle.plan_core.specs.Set.{item_in as item_by, kept_digest as digest_by, artifact_of as artifact_by, item_of, items_of, bare};

use npm_ranges::Version;
use nuc_base::{Artifact, Copied, Label, List, Name, NoMemory};
use recipe_reader::Candidate;
use records::{DraftItem, Held, Item};
use std::alloc::Global;

/// The item of that name, where it is in that version.
fn item_in<'a>(items: &'a [Item], name: &Name, version: &Version) -> Option<&'a Item>
    ensures { option_map (λ i. item_view i.now) result ≡ item_by name.now version.now (map item_view items.now) }
{
    for item in items {
        if *name == item.name && *version == item.version {
            return Some(item);
        }
    }
    None
}

/// The digest that is kept of the file.
fn kept_digest(file: &Label, held: &[Held]) -> Option<[u8; 32]>
    ensures { result ≡ digest_by file.now held.now }
{
    for one in held {
        if *file == one.file {
            return Some(one.digest);
        }
    }
    None
}

fn artifact_of(
    alloc: Global,
    kept: Option<&Item>,
    artifact: &Artifact,
) -> Result<Artifact, NoMemory>
    ensures { IfOk result (λ a. a ≡ artifact_by (option_map (λ i. item_view i.now) kept.entry) artifact.now) }
{
    let file = artifact.file.copy(alloc)?;
    let held = match kept {
        Some(item) => kept_digest(&artifact.file, item.artifacts.as_slice()),
        None => None,
    };
    let digest = match held {
        Some(digest) => Some(digest),
        None => artifact.digest,
    };
    Ok(Artifact { file, digest })
}

fn artifacts_of(
    alloc: Global,
    kept: Option<&Item>,
    artifacts: &[Artifact],
) -> Result<List<Artifact>, NoMemory>
    ensures { IfOk result (λ list. list ≡ map (artifact_by (option_map (λ i. item_view i.now) kept.entry)) artifacts.now) }
{
    let mut list = Vec::with_capacity(alloc, artifacts.len())?;
    for artifact in artifacts {
        list.push(artifact_of(alloc, kept, artifact)?)?;
    }
    Ok(List::new(list))
}

/// The item with the files of its candidate.
fn drafted(
    alloc: Global,
    set: &[Item],
    candidate: &Candidate,
    item: Item,
) -> Result<DraftItem, NoMemory>
    ensures { (roots : List Root) → item_view item ≡ bare (item_of (map item_view set.now) roots candidate.now)
        → IfOk result (λ i. draft_item_view i ≡ item_of (map item_view set.now) roots candidate.now) }
{
    let kept = item_in(set, &item.name, &item.version);
    let artifacts = artifacts_of(alloc, kept, candidate.recipe.artifacts.as_slice())?;
    Ok(DraftItem {
        name: item.name,
        version: item.version,
        recipe: item.recipe,
        config: item.config,
        artifacts,
    })
}

/// The items with their files, each that of the candidate beside it.
pub(crate) fn drafts_of(
    alloc: Global,
    set: &[Item],
    choice: &[&Candidate],
    items: List<Item>,
) -> Result<List<DraftItem>, NoMemory>
    requires { length items ≡ length choice.now }
    ensures { (roots : List Root) → map item_view items ≡ map bare (items_of (map item_view set.now) roots (candidates_of choice.now))
        → IfOk result (λ list. map draft_item_view list ≡ items_of (map item_view set.now) roots (candidates_of choice.now)) }
{
    let mut list = Vec::with_capacity(alloc, choice.len())?;
    let mut rest = items.into_vec();
    for candidate in choice {
        let item = rest.remove(0);
        list.push(drafted(alloc, set, candidate, item)?)?;
    }
    Ok(List::new(list))
}
