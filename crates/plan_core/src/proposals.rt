//! From a document to a draft.
ghost use Rattle.std.specs.Prelude.{◌≡◌, ◌≤◌, ◌↔◌, None, Some, IsSome, IsErrOf, IsTrue};
ghost use Rattle.nuc_base.specs.Faults.{Rose};
ghost use Rattle.records.specs.declared.record.Origin.{Origin};
ghost use Rattle.device.specs.Devices.{device_view, IsRegularDevice};
ghost use Rattle.device.specs.Sound.{IsSound};
ghost use Rattle.deployment_doc.specs.Sound.{AreSound};
ghost use Rattle.plan_core.specs.Ready.{IsFresh};
ghost use Rattle.plan_core.specs.Checks.{DeviceChecks, OpensId, DraftOfDocument, ProposesRead};
ghost use Rattle.library_core.specs.Library.{StaysTold};
ghost use Rattle.library_core.specs.declared.fault.CandidatesFault.TheVariants.{Library as LibraryFailed};

use crate::fault::Refusal;
use crate::plan::make_plan;
use deployment_doc::Document;
use device::Device;
use library_core::{Library, candidates};
use nuc_base::{Copied, Label};
use records::Draft;
use std::alloc::Global;

/// Whether the document has no revision, or none before its group's.
fn is_fresh(device: &Device, document: &Document) -> bool
    ensures { IsTrue result ↔ IsFresh (device_view device.now) document.now }
{
    document.revision == 0 || device.groups.revision_of(&document.group) <= document.revision
}

/// Whether no deployment of this id is closed on the device. One that is closed is answered with its outcome: nothing is
/// wrong with what has the id.
pub fn open_id(alloc: Global, device: &Device, id: &Label) -> Result<(), Refusal>
    ensures { OpensId (device_view device.now) id.now result }
{
    if let Some(outcome) = device.closed.outcome_of(id) {
        return Err(Refusal::Repeated(id.copy(alloc)?, outcome));
    }
    Ok(())
}

/// Whether the document is new to the device: no deployment of its id is closed, and it is no older than its group.
pub(crate) fn open(alloc: Global, device: &Device, document: &Document) -> Result<(), Refusal>
    ensures { DeviceChecks (device_view device.now) document.now result }
{
    open_id(alloc, device, &document.id)?;
    if !is_fresh(device, document) {
        let revision = device.groups.revision_of(&document.group);
        return Err(Refusal::Stale(document.id.copy(alloc)?, revision));
    }
    Ok(())
}

/// The draft of the plan that the document makes of the device and the candidates that it has with the library.
///
/// The first check that fails answers: a deployment of the document's id closed before; the document is older than its
/// group; what gathering the candidates refuses; what making the plan refuses. Nothing but the library is touched.
pub fn propose<L: Library>(
    alloc: Global,
    device: &Device,
    library: &mut L,
    document: &Document,
) -> Result<Draft, Refusal>
    requires origin { IsSome device.now.origin }
    requires idle { device.now.pending ≡ None }
    requires sound { IsSound (device_view device.now) }
    requires regular { IsRegularDevice (device_view device.now) }
    requires roots { AreSound document.now.roots }
    ensures proposes { (o : Origin) → device.now.origin ≡ Some o → DraftOfDocument (device_view device.now) o (L.content library.new) (L.faults library.old)
        (L.faults library.new) document.now result }
    ensures kept { StaysTold L.content L.coming library.old library.new }
    ensures cause { IsErrOf result (Refusal.Candidates LibraryFailed) → Rose (L.faults library.old) (L.faults library.new) }
    ensures quiet { ¬ (IsErrOf result (Refusal.Candidates LibraryFailed)) → L.faults library.new ≡ L.faults library.old }
    ensures later { L.faults library.old ≤ L.faults library.new }
{
    let Some(origin) = &device.origin else {
        unreachable!()
    };
    open(alloc, device, document)?;
    let candidates = candidates(alloc, library, origin, &device.set)?;
    let draft = make_plan(alloc, device, &candidates, document)?;
    Ok(draft)
}

/// The same of the bytes of a document. That they are none is the first refusal.
pub fn propose_read<L: Library>(
    alloc: Global,
    device: &Device,
    library: &mut L,
    bytes: &[u8],
) -> Result<Draft, Refusal>
    requires origin { IsSome device.now.origin }
    requires idle { device.now.pending ≡ None }
    requires sound { IsSound (device_view device.now) }
    requires regular { IsRegularDevice (device_view device.now) }
    ensures proposes { (o : Origin) → device.now.origin ≡ Some o → ProposesRead (device_view device.now) o (L.content library.new) (L.faults library.old)
        (L.faults library.new) bytes.now result }
    ensures kept { StaysTold L.content L.coming library.old library.new }
    ensures cause { IsErrOf result (Refusal.Candidates LibraryFailed) → Rose (L.faults library.old) (L.faults library.new) }
    ensures quiet { ¬ (IsErrOf result (Refusal.Candidates LibraryFailed)) → L.faults library.new ≡ L.faults library.old }
    ensures later { L.faults library.old ≤ L.faults library.new }
{
    let document = Document::read(alloc, bytes)?;
    propose(alloc, device, library, &document)
}
