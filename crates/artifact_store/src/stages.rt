//! Taking in the files of a draft.
ghost use Rattle.std.specs.Prelude.{◌≡◌, ℕ, ◌≤◌, List, IsTrue, length, map, Some, None, IfOk, IfSome};
ghost use Rattle.std.specs.List.{AllByRecursion, AllZip};
ghost use Rattle.disk_model.specs.Disk.{Image, IsAfter, HasLeft};
ghost use Rattle.disk_model.specs.Spares.{IsSameBut};
ghost use Rattle.library_core.specs.Library.{Artifacts, StandsStill};
ghost use Rattle.nuc_base.specs.Tables.{each};
ghost use Rattle.records.specs.Stored.{item_view, draft_item_view, draft_view, plan_view};
ghost use Rattle.device.specs.Devices as stored;
ghost use Rattle.device.specs.Plans.{IsHeldFor, AreRising};
ghost use Rattle.device.specs.Filled.{ItemFilled, PlanFilled};
ghost use Rattle.artifact_store.specs.Filled.{FillsFile, FillsFiles, Filled};
ghost use Rattle.artifact_store.specs.Holding.{HoldsFiles, HoldsItem, HoldsDevice, AllHoldItems, AllHoldDevice};
ghost use Rattle.artifact_store.specs.Paths.{IsNamed, IsNamedDraft};
ghost use Rattle.artifact_store.specs.Staged.{HasCounted, StagesBy, IsFileOfDraft, IsStaged, IsStagedOf, IsStagedAmong, KeepsFiles, HasItsFiles, IsGiven};
ghost use Rattle.artifact_store.specs.Staged.{draft_name, artifact_lines, item_lines, draft_lines, is_kept};

use crate::copies::stage_file;
use crate::fault::StageFault;
use disk_model::Disk;
use library_core::Library;
use nuc_base::{Artifact, Copied, List, NoMemory};
use records::{Draft, DraftItem, Held, Item, Plan};
use std::alloc::Global;

fn held_of(alloc: Global, artifact: &Artifact, digest: [u8; 32]) -> Result<Held, NoMemory>
    ensures { IfOk result (λ h. (h.file ≡ artifact.now.file) × (h.digest ≡ digest)) }
{
    let file = artifact.file.copy(alloc)?;
    Ok(Held { file, digest })
}

/// The files of an item of which each has its digest.
fn given_files(alloc: Global, item: &DraftItem) -> Result<List<Held>, NoMemory>
    requires { AllByRecursion IsGiven item.now.artifacts }
    ensures { IfOk result (λ helds. AllZip (λ a h. (h.file ≡ a.file) × (a.digest ≡ Some h.digest)) item.now.artifacts helds) }
{
    let mut helds = Vec::new(alloc);
    for artifact in item.artifacts.as_slice() {
        match artifact.digest {
            Some(digest) => helds.push(held_of(alloc, artifact, digest)?)?,
            None => unreachable!(),
        }
    }
    Ok(List::new(helds))
}

/// Takes in the files of an item, one after another.
fn stage_files<D: Disk, L: Library>(
    alloc: Global,
    disk: &mut D,
    library: &mut L,
    item: &DraftItem,
) -> Result<List<Held>, StageFault>
    requires differ { HasItsFiles (draft_item_view item.now) }
    ensures moments { HasLeft D.moment D.left_since disk.old disk.new (IsAfter (D.may_leave disk.old) (IsSameBut (IsFileOfDraft (draft_item_view item.now)))) }
    ensures others { IsTrue D.is_modelled → IsSameBut (IsFileOfDraft (draft_item_view item.now)) (D.seen disk.old) (D.seen disk.new) }
    ensures held { IfOk result (λ helds. (c : Image) → D.may_leave disk.new c → HoldsFiles c item.now.name item.now.version helds) }
    ensures given { IfOk result (λ helds. AllZip IsHeldFor item.now.artifacts helds) }
    ensures staged { (l : Artifacts) → (L.content library.old).artifacts ≡ Some l →
        StagesBy (each (artifact_lines l (draft_item_view item.now)) item.now.artifacts)
        (λ helds. AllZip (FillsFile l (draft_item_view item.now)) item.now.artifacts helds) result }
    ensures kept { StandsStill L.content L.coming library.old library.new }
    ensures counts { HasCounted (D.faults disk.old) (D.faults disk.new) (L.faults library.old) (L.faults library.new) result }
{
    let mut helds = Vec::new(alloc);
    for artifact in item.artifacts.as_slice() {
        let digest = stage_file(alloc, disk, library, item, artifact)?;
        let held = held_of(alloc, artifact, digest)?;
        helds.push(held)?;
    }
    Ok(List::new(helds))
}

/// Whether the set has the item in this version.
fn is_kept(kept: &List<Item>, item: &DraftItem) -> bool
    ensures { result ≡ is_kept (map item_view kept.now) (draft_item_view item.now) }
{
    for other in kept.as_slice() {
        if other.name == item.name && other.version == item.version {
            return true;
        }
    }
    false
}

/// Takes in the files of an item, unless the set has it in this version.
fn item_files<D: Disk, L: Library>(
    alloc: Global,
    disk: &mut D,
    library: &mut L,
    kept: &List<Item>,
    item: &DraftItem,
) -> Result<List<Held>, StageFault>
    requires keeps { KeepsFiles (map item_view kept.now) (draft_item_view item.now) }
    requires differ { HasItsFiles (draft_item_view item.now) }
    ensures moments { HasLeft D.moment D.left_since disk.old disk.new
        (IsAfter (D.may_leave disk.old) (IsSameBut (IsStagedOf (map item_view kept.now) (draft_item_view item.now)))) }
    ensures others { IsTrue D.is_modelled → IsSameBut (IsStagedOf (map item_view kept.now) (draft_item_view item.now)) (D.seen disk.old) (D.seen disk.new) }
    ensures held { IfOk result (λ helds. AllHoldItems (D.may_leave disk.old) (map item_view kept.now) → (c : Image) → D.may_leave disk.new c →
        HoldsFiles c item.now.name item.now.version helds) }
    ensures given { IfOk result (λ helds. AllZip IsHeldFor item.now.artifacts helds) }
    ensures staged { (l : Artifacts) → (L.content library.old).artifacts ≡ Some l →
        StagesBy (item_lines l (map item_view kept.now) (draft_item_view item.now))
        (λ helds. AllZip (FillsFile l (draft_item_view item.now)) item.now.artifacts helds) result }
    ensures kept { StandsStill L.content L.coming library.old library.new }
    ensures counts { HasCounted (D.faults disk.old) (D.faults disk.new) (L.faults library.old) (L.faults library.new) result }
{
    if is_kept(kept, item) {
        let helds = given_files(alloc, item)?;
        return Ok(helds);
    }
    stage_files(alloc, disk, library, item)
}

/// The item of a draft, when its files are taken in.
fn stage_item<D: Disk, L: Library>(
    alloc: Global,
    disk: &mut D,
    library: &mut L,
    kept: &List<Item>,
    item: DraftItem,
) -> Result<Item, StageFault>
    requires keeps { KeepsFiles (map item_view kept.now) (draft_item_view item) }
    requires differ { HasItsFiles (draft_item_view item) }
    ensures moments { HasLeft D.moment D.left_since disk.old disk.new
        (IsAfter (D.may_leave disk.old) (IsSameBut (IsStagedOf (map item_view kept.now) (draft_item_view item)))) }
    ensures others { IsTrue D.is_modelled → IsSameBut (IsStagedOf (map item_view kept.now) (draft_item_view item)) (D.seen disk.old) (D.seen disk.new) }
    ensures held { IfOk result (λ made. AllHoldItems (D.may_leave disk.old) (map item_view kept.now) → (c : Image) → D.may_leave disk.new c →
        HoldsItem c (item_view made)) }
    ensures fills { IfOk result (λ made. ItemFilled (draft_item_view item) (item_view made)) }
    ensures staged { (l : Artifacts) → (L.content library.old).artifacts ≡ Some l →
        StagesBy (item_lines l (map item_view kept.now) (draft_item_view item)) (λ made. FillsFiles l (draft_item_view item) (item_view made)) result }
    ensures kept { StandsStill L.content L.coming library.old library.new }
    ensures counts { HasCounted (D.faults disk.old) (D.faults disk.new) (L.faults library.old) (L.faults library.new) result }
{
    let artifacts = item_files(alloc, disk, library, kept, &item)?;
    let DraftItem {
        name,
        version,
        recipe,
        config,
        artifacts: _,
    } = item;
    Ok(Item {
        name,
        version,
        recipe,
        config,
        artifacts,
    })
}

/// Takes in the files of a draft: in the order of the items, and of an item's artifacts. A file of an item that `kept`
/// has in the same version is neither read nor written; any other is cut to nothing, written in pieces of 65,536 bytes
/// and made stable. A digest that the draft does not give is the one found.
///
/// The library lacks a file: `Missing`. More than 67,108,864 bytes: `TooLarge` with that number. Another digest than the
/// given one (SHA-256, FIPS 180-4): `Mismatch` with the one found. The first of these answers, and the files that were
/// taken in stay until they are swept.
pub fn stage<D: Disk, L: Library>(
    alloc: Global,
    disk: &mut D,
    library: &mut L,
    kept: &List<Item>,
    draft: Draft,
) -> Result<Plan, StageFault>
    requires named { AllByRecursion IsNamed (map item_view kept.now) }
    requires drafted { AllByRecursion IsNamedDraft (map draft_item_view draft.items) }
    requires rise { AreRising (map draft_name (map draft_item_view draft.items)) }
    requires differ { AllByRecursion HasItsFiles (map draft_item_view draft.items) }
    requires keeps { AllByRecursion (KeepsFiles (map item_view kept.now)) (map draft_item_view draft.items) }
    // A crash at any moment of the call changes staged files alone.
    ensures moments { HasLeft D.moment D.left_since disk.old disk.new
        (IsAfter (D.may_leave disk.old) (IsSameBut (IsStaged (map item_view kept.now) (draft_view draft)))) }
    ensures others { IsTrue D.is_modelled → IsSameBut (IsStaged (map item_view kept.now) (draft_view draft)) (D.seen disk.old) (D.seen disk.new) }
    // So a device that has these items and nothing pending has its files at each moment, where it had them before.
    ensures safe { (d : stored.Device) → d.set ≡ map item_view kept.now → d.pending ≡ None → AllHoldDevice (D.may_leave disk.old) d
        → HasLeft D.moment D.left_since disk.old disk.new (λ c. HoldsDevice c d) }
    // Where a crash before left each kept file with its digest, a crash then leaves each file of the plan with its own.
    ensures held { IfOk result (λ plan. AllHoldItems (D.may_leave disk.old) (map item_view kept.now) →
        AllHoldItems (D.may_leave disk.new) (map item_view plan.items)) }
    ensures fills { IfOk result (λ plan. PlanFilled (draft_view draft) (plan_view plan)) }
    ensures staged { (l : Artifacts) → (L.content library.old).artifacts ≡ Some l →
        StagesBy (draft_lines l (map item_view kept.now) (draft_view draft)) (λ plan. Filled l (draft_view draft) (plan_view plan)) result }
    ensures kept { StandsStill L.content L.coming library.old library.new }
    ensures counts { HasCounted (D.faults disk.old) (D.faults disk.new) (L.faults library.old) (L.faults library.new) result }
{
    let Draft {
        id,
        group,
        revision,
        policy,
        requirements,
        items,
        boots,
    } = draft;
    let items = stage_items(alloc, disk, library, kept, items)?;
    Ok(Plan {
        id,
        group,
        revision,
        policy,
        requirements,
        items,
        boots,
    })
}

/// Takes in the files of items, one after another.
fn stage_items<D: Disk, L: Library>(
    alloc: Global,
    disk: &mut D,
    library: &mut L,
    kept: &List<Item>,
    drafts: List<DraftItem>,
) -> Result<List<Item>, StageFault>
    requires named { AllByRecursion IsNamed (map item_view kept.now) }
    requires drafted { AllByRecursion IsNamedDraft (map draft_item_view drafts) }
    requires rise { AreRising (map draft_name (map draft_item_view drafts)) }
    requires differ { AllByRecursion HasItsFiles (map draft_item_view drafts) }
    requires keeps { AllByRecursion (KeepsFiles (map item_view kept.now)) (map draft_item_view drafts) }
    ensures moments { HasLeft D.moment D.left_since disk.old disk.new
        (IsAfter (D.may_leave disk.old) (IsSameBut (IsStagedAmong (map item_view kept.now) (map draft_item_view drafts)))) }
    ensures others { IsTrue D.is_modelled → IsSameBut (IsStagedAmong (map item_view kept.now) (map draft_item_view drafts)) (D.seen disk.old)
        (D.seen disk.new) }
    ensures held { IfOk result (λ items. AllHoldItems (D.may_leave disk.old) (map item_view kept.now) →
        AllHoldItems (D.may_leave disk.new) (map item_view items)) }
    ensures fills { IfOk result (λ items. AllZip ItemFilled (map draft_item_view drafts) (map item_view items)) }
    ensures staged { (l : Artifacts) → (L.content library.old).artifacts ≡ Some l →
        StagesBy (each (item_lines l (map item_view kept.now)) (map draft_item_view drafts))
        (λ items. AllZip (FillsFiles l) (map draft_item_view drafts) (map item_view items)) result }
    ensures kept { StandsStill L.content L.coming library.old library.new }
    ensures counts { HasCounted (D.faults disk.old) (D.faults disk.new) (L.faults library.old) (L.faults library.new) result }
{
    let mut items = Vec::new(alloc);
    for draft in drafts.into_vec() {
        let item = stage_item(alloc, disk, library, kept, draft)?;
        items.push(item)?;
    }
    Ok(List::new(items))
}
