//! Taking in a document.
ghost use Rattle.std.specs.Prelude.{◌≡◌, ◌≤◌, IsTrue, IsErrOf, IsSome, map, None, Some, IfOk};
ghost use Rattle.nuc_base.specs.Faults.{Rose};
ghost use Rattle.disk_model.specs.Disk.{IsAfter, HasLeft};
ghost use Rattle.disk_model.specs.Listing.{artifacts, IsBelow};
ghost use Rattle.disk_model.specs.Spares.{IsSameBut};
ghost use Rattle.records.specs.Stored as stored;
ghost use Rattle.records.specs.Stored.{plan_view, draft_view, item_view};
ghost use Rattle.records.specs.declared.record.Origin.{Origin};
ghost use Rattle.device.specs.Devices.{device_view, IsRegularDevice};
ghost use Rattle.device.specs.Lawful.{Allowed};
ghost use Rattle.device.specs.Regularity.{IsRegularRecord};
ghost use Rattle.device.specs.Sound.{IsSound};
ghost use Rattle.library_core.specs.Library.{StaysTold};
ghost use Rattle.library_core.specs.declared.fault.CandidatesFault.TheVariants.{Library as LibraryFailed};
ghost use Rattle.plan_core.specs.Checks.{DraftOfDocument};
ghost use Rattle.deployment_doc.specs.Sound.{AreSound};
ghost use Rattle.artifact_store.specs.Holding.{AllHoldDevice, AllHoldItems, HoldsDevice};
ghost use Rattle.deploy_state.specs.Objects.{OwnsOver};
ghost use Rattle.deploy_state.specs.States.{OwnsIdle, idle_device};
ghost use Rattle.admission.specs.Drafts.{MayStage, MayTakeFilled};
ghost use Rattle.admission.specs.Takes.{HasDiskFailed, HasLibraryFailed, IsRefused, LieElsewhere, TakesIn};

use crate::fault::Declined;
use artifact_store::{needed_files_stay, stage};
use deploy_state::Idle;
use deployment_doc::Document;
use device::Device;
use disk_model::Disk;
use gate_log::Journal;
use library_core::Library;
use plan_core::{Refusal, filled_drafts_may_be_accepted, gathered_candidates_make_plans, propose};
use recipe_reader::recipe_laws;
use records::{Draft, Plan};
use std::alloc::Global;

/// The draft of a document on a device with nothing pending, which may be accepted as soon as its files are there.
fn draft_for<L: Library>(
    alloc: Global,
    device: &Device,
    library: &mut L,
    document: &Document,
) -> Result<Draft, Refusal>
    requires origin { IsSome device.now.origin }
    requires idle { device.now.pending ≡ None }
    requires sound { IsSound (device_view device.now) }
    requires regular { IsRegularDevice (device_view device.now) }
    requires roots { AreSound document.now.roots }
    ensures proposes { (o : Origin) → device.now.origin ≡ Some o → DraftOfDocument (device_view device.now) o (L.content library.new) (L.faults library.old)
        (L.faults library.new) document.now result }
    ensures stages { IfOk result (λ draft. MayStage (device_view device.now).set (draft_view draft).items) }
    ensures takes { IfOk result (λ draft. MayTakeFilled (device_view device.now) (draft_view draft)) }
    ensures kept { StaysTold L.content L.coming library.old library.new }
    ensures cause { IsErrOf result (Refusal.Candidates LibraryFailed) → Rose (L.faults library.old) (L.faults library.new) }
    ensures quiet { ¬ (IsErrOf result (Refusal.Candidates LibraryFailed)) → L.faults library.new ≡ L.faults library.old }
    ensures later { L.faults library.old ≤ L.faults library.new }
{
    recipe_laws();
    gathered_candidates_make_plans();
    filled_drafts_may_be_accepted();
    propose(alloc, device, library, document)
}

/// Makes the plan of a document on a device with nothing pending, and takes its files in, so that it may be accepted.
///
/// The first check that fails declines the document, in the order of `propose`; then the first fault of its files, in the
/// order of `stage`. Whatever is answered the journal stays in hand. Files that were taken in stay until they are swept.
pub fn take_in<D: Disk, J: Journal + Drop, L: Library>(
    alloc: Global,
    idle: &Idle<J>,
    document: &Document,
    disk: &mut D,
    library: &mut L,
) -> Result<Plan, Declined>
    requires held { OwnsOver D.Disk J.Journal OwnsIdle idle.now disk.old }
    // The journal does not lie among the files of artifacts.
    requires apart { LieElsewhere J.files }
    requires roots { AreSound document.now.roots }
    ensures takes { (o : Origin) → (idle_device idle.now).origin ≡ Some o → TakesIn (idle_device idle.now) o (L.content library.new) (L.faults library.old)
        (L.faults library.new) document.now result }
    // The plan may be accepted.
    ensures lawful { IfOk result (λ plan. Allowed (idle_device idle.now) (stored.Accepted (plan_view plan))) }
    ensures regular { IfOk result (λ plan. IsRegularRecord (stored.Accepted (plan_view plan))) }
    ensures held { OwnsOver D.Disk J.Journal OwnsIdle idle.now disk.new }
    // A crash at any moment of the call changes files of artifacts alone.
    ensures moments { HasLeft D.moment D.left_since disk.old disk.new (IsAfter (D.may_leave disk.old) (IsSameBut (IsBelow artifacts))) }
    ensures others { IsTrue D.is_modelled → IsSameBut (IsBelow artifacts) (D.seen disk.old) (D.seen disk.new) }
    // Where a check fails no file is touched.
    ensures untouched { IsRefused result → disk.new ≡ disk.old }
    // The device has its files at each moment, where it had them before, and the plan then has its own.
    ensures safe { AllHoldDevice (D.may_leave disk.old) (idle_device idle.now) → HasLeft D.moment D.left_since disk.old disk.new
        (λ c. HoldsDevice c (idle_device idle.now)) }
    ensures files { IfOk result (λ plan. AllHoldDevice (D.may_leave disk.old) (idle_device idle.now) →
        AllHoldItems (D.may_leave disk.new) (map item_view plan.items)) }
    ensures kept { StaysTold L.content L.coming library.old library.new }
    ensures disk_cause { HasDiskFailed result → Rose (D.faults disk.old) (D.faults disk.new) }
    ensures disk_quiet { ¬ (HasDiskFailed result) → D.faults disk.new ≡ D.faults disk.old }
    ensures disk_later { D.faults disk.old ≤ D.faults disk.new }
    ensures library_cause { HasLibraryFailed result → Rose (L.faults library.old) (L.faults library.new) }
    ensures library_quiet { ¬ (HasLibraryFailed result) → L.faults library.new ≡ L.faults library.old }
    ensures library_later { L.faults library.old ≤ L.faults library.new }
{
    needed_files_stay();
    let device = idle.device();
    let draft = draft_for(alloc, device, library, document)?;
    let plan = stage(alloc, disk, library, &device.set, draft)?;
    Ok(plan)
}
