// The command `why`.
ghost use Rattle.std.specs.Prelude.{◌≡◌, ◌≢◌, ◌≤◌, None};
ghost use Rattle.std.specs.Option.{IsSome};
ghost use Rattle.disk_model.specs.Disk.{HasLeft};
ghost use Rattle.command_words.specs.declared.order.Order.TheVariants as order;
ghost use Rattle.library_core.specs.Library.{StaysTold};
ghost use Rattle.deploy_state.specs.Loading.{IsReady};
ghost use Rattle.device.specs.Devices.{device_view};
ghost use Rattle.device.specs.Sound.{IsSound};
ghost use Rattle.edges.specs.Reading.{ReadsUpTo};
ghost use Rattle.nucleus_top.specs.Answers.{store_over, input_over, shelf_over, IsQuiet, IsStill};
ghost use Rattle.nucleus_top.specs.Leaving.{IsDurableIfDone};
ghost use Rattle.nucleus_top.specs.Why.{TellsAsked, TellsWhy, WhyAnswerOn, WhyAnswer};

use crate::answer::Answer;
use crate::explanation::Explanation;
use crate::opening::{HasDevice, open, refused};
use crate::planning::{pending, unplanned};
use device::Device;
use disk_model::Disk;
use edges::{ReadFault, Source, read_up_to};
use library_core::Library;
use nuc_base::DOCUMENT_LIMIT;
use plan_core::{Question, Refusal, ask_read};
use std::alloc::Global;
use why_not::explain;

/// Whether a set is valid for the question, or why none is. The lines that tell why take no memory, so that all that is wanted is
/// taken before the first of them is printed.
fn explained(alloc: Global, question: Question) -> Answer
    ensures { TellsWhy question result }
{
    let Question { candidates, wanted } = question;
    match explain(alloc, &candidates, &wanted) {
        Ok(None) => Answer::Possible,
        Ok(Some(why)) => Answer::Impossible(Explanation { candidates, why }),
        Err(_) => Answer::NoMemory,
    }
}

/// The same, or the first refusal of the document.
fn told(alloc: Global, asked: Result<Question, Refusal>) -> Answer
    ensures { TellsAsked asked result }
{
    match asked {
        Ok(question) => explained(alloc, question),
        Err(refusal) => unplanned(alloc, refusal),
    }
}

/// What stands against the document that the source has, on a device without a pending deployment.
fn why_idle<L: Library, S: Source>(
    alloc: Global,
    device: &Device,
    library: &mut L,
    source: &mut S,
) -> Answer
    requires origin { IsSome device.now.origin }
    requires idle { device.now.pending ≡ None }
    requires sound { IsSound (device_view device.now) }
    ensures comes { WhyAnswerOn (device_view device.now) (input_over S.Source source.old source.new) (shelf_over L.Library library.old library.new)
        result }
    ensures still { IsStill (shelf_over L.Library library.old library.new) result }
    ensures kept { StaysTold L.content L.coming library.old library.new }
    ensures quiet { result ≢ Answer.SourceFailed → S.faults source.new ≡ S.faults source.old }
    ensures library_later { L.faults library.old ≤ L.faults library.new }
    ensures read { ReadsUpTo 524289 (S.left source.old) (S.left source.new) }
    ensures source_later { S.faults source.old ≤ S.faults source.new }
{
    let bytes = match read_up_to(alloc, source, DOCUMENT_LIMIT + 1) {
        Ok(bytes) => bytes,
        Err(ReadFault::Edge) => return Answer::SourceFailed,
        Err(ReadFault::NoMemory) => return Answer::NoMemory,
    };
    let asked = ask_read(alloc, device, library, bytes.as_slice());
    told(alloc, asked)
}

#[tactic(auto, using(crate::proofs::Reading::reads_none))]
fn why_on<L: Library, S: Source>(
    alloc: Global,
    device: &Device,
    library: &mut L,
    source: &mut S,
) -> Answer
    requires origin { IsSome device.now.origin }
    requires sound { IsSound (device_view device.now) }
    ensures comes { WhyAnswerOn (device_view device.now) (input_over S.Source source.old source.new) (shelf_over L.Library library.old library.new)
        result }
    ensures still { IsStill (shelf_over L.Library library.old library.new) result }
    ensures kept { StaysTold L.content L.coming library.old library.new }
    ensures quiet { result ≢ Answer.SourceFailed → S.faults source.new ≡ S.faults source.old }
    ensures library_later { L.faults library.old ≤ L.faults library.new }
    ensures read { ReadsUpTo 524289 (S.left source.old) (S.left source.new) }
    ensures source_later { S.faults source.old ≤ S.faults source.new }
{
    match &device.pending {
        Some(deployment) => pending(alloc, &deployment.plan.id),
        None => why_idle(alloc, device, library, source),
    }
}

/// The same of a state's device.
fn why_stored<T: HasDevice + Drop, L: Library, S: Source>(
    alloc: Global,
    state: T,
    library: &mut L,
    source: &mut S,
) -> Answer
    requires ready { IsReady (T.stands_for state) }
    ensures comes { WhyAnswerOn (T.stands_for state) (input_over S.Source source.old source.new) (shelf_over L.Library library.old library.new)
        result }
    ensures still { IsStill (shelf_over L.Library library.old library.new) result }
    ensures kept { StaysTold L.content L.coming library.old library.new }
    ensures quiet { result ≢ Answer.SourceFailed → S.faults source.new ≡ S.faults source.old }
    ensures library_later { L.faults library.old ≤ L.faults library.new }
    ensures read { ReadsUpTo 524289 (S.left source.old) (S.left source.new) }
    ensures source_later { S.faults source.old ≤ S.faults source.new }
{
    why_on(alloc, state.stored(), library, source)
}

/// Whether the document of the source has a valid set on the device for which the journal stands, with the recipes of the
/// library, and if it has none, why. It makes the checks of `plan` in their order up to the room for one more deployment, and
/// writes nothing to the disk.
#[tactic(auto, using(crate::proofs::Reading::reads_none))]
pub fn why<D: Disk, L: Library, S: Source>(
    alloc: Global,
    disk: &mut D,
    library: &mut L,
    source: &mut S,
) -> Answer
    ensures comes { WhyAnswer (store_over D.Disk disk.old disk.new) (input_over S.Source source.old source.new)
        (shelf_over L.Library library.old library.new) result }
    ensures quiet { IsQuiet (store_over D.Disk disk.old disk.new) (input_over S.Source source.old source.new) result }
    ensures still { IsStill (shelf_over L.Library library.old library.new) result }
    ensures kept { StaysTold L.content L.coming library.old library.new }
    ensures moments { HasLeft D.moment D.left_since disk.old disk.new (D.may_leave disk.old) }
    ensures keeps { IsDurableIfDone order.Why (D.may_leave disk.new) (D.seen disk.new) result }
    ensures seen { D.seen disk.new ≡ D.seen disk.old }
    ensures disk_later { D.faults disk.old ≤ D.faults disk.new }
    ensures library_later { L.faults library.old ≤ L.faults library.new }
    ensures read { ReadsUpTo 524289 (S.left source.old) (S.left source.new) }
    ensures source_later { S.faults source.old ≤ S.faults source.new }
{
    match open(alloc, disk) {
        Ok(state) => why_stored(alloc, state, library, source),
        Err(fault) => refused(alloc, fault),
    }
}
