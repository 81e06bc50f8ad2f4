// The command `plan`.
ghost use Rattle.std.specs.Prelude.{◌≡◌, ◌≢◌, ◌≤◌, None};
ghost use Rattle.std.specs.Option.{IsSome};
ghost use Rattle.disk_model.specs.Disk.{HasLeft};
ghost use Rattle.command_words.specs.declared.order.Order.TheVariants as order;
ghost use Rattle.library_core.specs.Library.{StaysTold};
ghost use Rattle.deploy_state.specs.Loading.{IsReady};
ghost use Rattle.device.specs.Devices.{device_view, IsRegularDevice};
ghost use Rattle.device.specs.Sound.{IsSound};
ghost use Rattle.edges.specs.Reading.{ReadsUpTo};
ghost use Rattle.nucleus_top.specs.Answers.{store_over, input_over, shelf_over, IsQuiet, IsStill};
ghost use Rattle.nucleus_top.specs.Leaving.{IsDurableIfDone};
ghost use Rattle.nucleus_top.specs.Planning.{TellsDraft, TellsRefusal, ProposalAnswer, NamesPending, PlanAnswerOn, PlanAnswer};

use crate::answer::Answer;
use crate::opening::{HasDevice, open, refused};
use device::Device;
use disk_model::Disk;
use edges::{ReadFault, Source, read_up_to};
use library_core::Library;
use nuc_base::{Copied, DOCUMENT_LIMIT, Label, Status};
use plan_core::{Refusal, propose_read};
use records::Draft;
use refusal_lines::{plan_text, refusal_status, refusal_text};
use std::alloc::Global;

fn planned(alloc: Global, draft: &Draft) -> Answer
    ensures { TellsDraft draft.now result }
{
    match plan_text(alloc, draft) {
        Ok(text) => Answer::Planned(text),
        Err(_) => Answer::NoMemory,
    }
}

/// The first refusal of a document. That the library failed is told without memory.
pub(crate) fn unplanned(alloc: Global, refusal: Refusal) -> Answer
    ensures { TellsRefusal refusal result }
{
    match refusal_status(&refusal) {
        Status::Library => {
            drop(refusal);
            Answer::LibraryFailed
        }
        _ => match refusal_text(alloc, &refusal) {
            Ok(text) => Answer::Unplanned(refusal, text),
            Err(_) => {
                drop(refusal);
                Answer::NoMemory
            }
        },
    }
}

fn told(alloc: Global, proposal: Result<Draft, Refusal>) -> Answer
    ensures { ProposalAnswer proposal result }
{
    match proposal {
        Ok(draft) => planned(alloc, &draft),
        Err(refusal) => unplanned(alloc, refusal),
    }
}

/// The plan of the document that the source has, on a device without a pending deployment.
fn plan_idle<L: Library, S: Source>(
    alloc: Global,
    device: &Device,
    library: &mut L,
    source: &mut S,
) -> Answer
    requires origin { IsSome device.now.origin }
    requires idle { device.now.pending ≡ None }
    requires sound { IsSound (device_view device.now) }
    requires regular { IsRegularDevice (device_view device.now) }
    ensures comes { PlanAnswerOn (device_view device.now) (input_over S.Source source.old source.new) (shelf_over L.Library library.old library.new)
        result }
    ensures still { IsStill (shelf_over L.Library library.old library.new) result }
    ensures kept { StaysTold L.content L.coming library.old library.new }
    ensures quiet { result ≢ Answer.SourceFailed → S.faults source.new ≡ S.faults source.old }
    ensures library_later { L.faults library.old ≤ L.faults library.new }
    ensures read { ReadsUpTo 524289 (S.left source.old) (S.left source.new) }
    ensures source_later { S.faults source.old ≤ S.faults source.new }
{
    let bytes = match read_up_to(alloc, source, DOCUMENT_LIMIT + 1) {
        Ok(bytes) => bytes,
        Err(ReadFault::Edge) => return Answer::SourceFailed,
        Err(ReadFault::NoMemory) => return Answer::NoMemory,
    };
    let proposal = propose_read(alloc, device, library, bytes.as_slice());
    told(alloc, proposal)
}

/// The refusal of a device with a pending deployment of this id.
pub(crate) fn pending(alloc: Global, id: &Label) -> Answer
    ensures { NamesPending id.now result }
{
    match id.copy(alloc) {
        Ok(id) => Answer::Pending(id),
        Err(_) => Answer::NoMemory,
    }
}

#[tactic(auto, using(crate::proofs::Reading::reads_none))]
fn plan_on<L: Library, S: Source>(
    alloc: Global,
    device: &Device,
    library: &mut L,
    source: &mut S,
) -> Answer
    requires origin { IsSome device.now.origin }
    requires sound { IsSound (device_view device.now) }
    requires regular { IsRegularDevice (device_view device.now) }
    ensures comes { PlanAnswerOn (device_view device.now) (input_over S.Source source.old source.new) (shelf_over L.Library library.old library.new)
        result }
    ensures still { IsStill (shelf_over L.Library library.old library.new) result }
    ensures kept { StaysTold L.content L.coming library.old library.new }
    ensures quiet { result ≢ Answer.SourceFailed → S.faults source.new ≡ S.faults source.old }
    ensures library_later { L.faults library.old ≤ L.faults library.new }
    ensures read { ReadsUpTo 524289 (S.left source.old) (S.left source.new) }
    ensures source_later { S.faults source.old ≤ S.faults source.new }
{
    match &device.pending {
        Some(deployment) => pending(alloc, &deployment.plan.id),
        None => plan_idle(alloc, device, library, source),
    }
}

/// The same of a state's device.
fn plan_stored<T: HasDevice + Drop, L: Library, S: Source>(
    alloc: Global,
    state: T,
    library: &mut L,
    source: &mut S,
) -> Answer
    requires ready { IsReady (T.stands_for state) }
    ensures comes { PlanAnswerOn (T.stands_for state) (input_over S.Source source.old source.new) (shelf_over L.Library library.old library.new) result }
    ensures still { IsStill (shelf_over L.Library library.old library.new) result }
    ensures kept { StaysTold L.content L.coming library.old library.new }
    ensures quiet { result ≢ Answer.SourceFailed → S.faults source.new ≡ S.faults source.old }
    ensures library_later { L.faults library.old ≤ L.faults library.new }
    ensures read { ReadsUpTo 524289 (S.left source.old) (S.left source.new) }
    ensures source_later { S.faults source.old ≤ S.faults source.new }
{
    plan_on(alloc, state.stored(), library, source)
}

/// What the document of the source would do to the device for which the journal stands, with the recipes of the library.
/// It writes nothing to the disk, and a pending deployment is refused before the source is read.
#[tactic(auto, using(crate::proofs::Reading::reads_none))]
pub fn plan<D: Disk, L: Library, S: Source>(
    alloc: Global,
    disk: &mut D,
    library: &mut L,
    source: &mut S,
) -> Answer
    ensures comes { PlanAnswer (store_over D.Disk disk.old disk.new) (input_over S.Source source.old source.new)
        (shelf_over L.Library library.old library.new) result }
    ensures quiet { IsQuiet (store_over D.Disk disk.old disk.new) (input_over S.Source source.old source.new) result }
    ensures still { IsStill (shelf_over L.Library library.old library.new) result }
    ensures kept { StaysTold L.content L.coming library.old library.new }
    ensures moments { HasLeft D.moment D.left_since disk.old disk.new (D.may_leave disk.old) }
    ensures keeps { IsDurableIfDone order.Plan (D.may_leave disk.new) (D.seen disk.new) result }
    ensures seen { D.seen disk.new ≡ D.seen disk.old }
    ensures disk_later { D.faults disk.old ≤ D.faults disk.new }
    ensures library_later { L.faults library.old ≤ L.faults library.new }
    ensures read { ReadsUpTo 524289 (S.left source.old) (S.left source.new) }
    ensures source_later { S.faults source.old ≤ S.faults source.new }
{
    match open(alloc, disk) {
        Ok(state) => plan_stored(alloc, state, library, source),
        Err(fault) => refused(alloc, fault),
    }
}
