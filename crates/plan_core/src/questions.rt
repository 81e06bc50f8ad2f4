//! What a document asks of the candidates.
ghost use Rattle.std.specs.Prelude.{◌≡◌, ◌≤◌, Some, IsSome, IsErrOf};
ghost use Rattle.nuc_base.specs.Faults.{Rose};
ghost use Rattle.records.specs.declared.record.Origin.{Origin};
ghost use Rattle.device.specs.Devices.{device_view};
ghost use Rattle.device.specs.Sound.{IsSound};
ghost use Rattle.plan_core.specs.Questions.{QuestionOfDocument, QuestionsRead};
ghost use Rattle.library_core.specs.Library.{StaysTold};
ghost use Rattle.library_core.specs.declared.fault.CandidatesFault.TheVariants.{Library as LibraryFailed};

use crate::fault::Refusal;
use crate::proposals::open;
use crate::requests::wanted_of;
use crate::sizes::check_room;
use conflict_search::Wanted;
use deployment_doc::Document;
use device::Device;
use library_core::{Library, candidates};
use nuc_base::List;
use recipe_reader::Candidates;
use std::alloc::Global;

/// The candidates that a device has with a library, and what all groups want of them once a document is taken.
#[derive(Drop)]
pub struct Question {
    pub candidates: Candidates,
    pub wanted: List<Wanted>,
}

/// What the document asks of the candidates that the device has with the library.
///
/// The checks are those of `propose` up to the room for one more deployment and its group, in their order. Whether a set is
/// valid is not looked at.
pub fn ask<L: Library>(
    alloc: Global,
    device: &Device,
    library: &mut L,
    document: &Document,
) -> Result<Question, Refusal>
    requires origin { IsSome device.now.origin }
    requires sound { IsSound (device_view device.now) }
    ensures asks { (o : Origin) → device.now.origin ≡ Some o → QuestionOfDocument (device_view device.now) o (L.content library.new) (L.faults library.old)
        (L.faults library.new) document.now result }
    ensures kept { StaysTold L.content L.coming library.old library.new }
    ensures cause { IsErrOf result (Refusal.Candidates LibraryFailed) → Rose (L.faults library.old) (L.faults library.new) }
    ensures quiet { ¬ (IsErrOf result (Refusal.Candidates LibraryFailed)) → L.faults library.new ≡ L.faults library.old }
    ensures later { L.faults library.old ≤ L.faults library.new }
{
    let Some(origin) = &device.origin else {
        unreachable!()
    };
    open(alloc, device, document)?;
    let candidates = candidates(alloc, library, origin, &device.set)?;
    check_room(device, document)?;
    let wanted = wanted_of(alloc, &device.groups, document)?;
    Ok(Question { candidates, wanted })
}

/// The same of the bytes of a document. That they are none is the first refusal.
pub fn ask_read<L: Library>(
    alloc: Global,
    device: &Device,
    library: &mut L,
    bytes: &[u8],
) -> Result<Question, Refusal>
    requires origin { IsSome device.now.origin }
    requires sound { IsSound (device_view device.now) }
    ensures asks { (o : Origin) → device.now.origin ≡ Some o → QuestionsRead (device_view device.now) o (L.content library.new) (L.faults library.old)
        (L.faults library.new) bytes.now result }
    ensures kept { StaysTold L.content L.coming library.old library.new }
    ensures cause { IsErrOf result (Refusal.Candidates LibraryFailed) → Rose (L.faults library.old) (L.faults library.new) }
    ensures quiet { ¬ (IsErrOf result (Refusal.Candidates LibraryFailed)) → L.faults library.new ≡ L.faults library.old }
    ensures later { L.faults library.old ≤ L.faults library.new }
{
    let document = Document::read(alloc, bytes)?;
    ask(alloc, device, library, &document)
}
