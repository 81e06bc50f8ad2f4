// The commands that drive a deployment: those that deploy what the source has, and `resume`.
ghost use Rattle.std.specs.Prelude.{◌≡◌, ◌≢◌, ◌⊎◌, ◌≤◌, [], ℕ, List, IsTrue, IfOk, IfErr, IsErrOf};
ghost use Rattle.library_core.specs.Library.{StaysTold};
ghost use Rattle.admission.specs.Requests.{IsInside, AskOutcome};
ghost use Rattle.admission.specs.declared.ask.Ask.TheVariants as asks;
ghost use Rattle.deployment_doc.specs.Sound.{AreSound};
ghost use Rattle.artifact_store.specs.Holding.{AllHoldDevice, HoldsDevice};
ghost use Rattle.artifact_store.specs.Swept.{IsSwept, items_of};
ghost use Rattle.disk_model.specs.Disk.{HasLeft};
ghost use Rattle.nuc_base.specs.Faults.{Rose};
ghost use Rattle.nuc_base.specs.declared.status.Status.TheVariants as statuses;
ghost use Rattle.checkpoint_log.specs.Slots.{slots_entries, slots_files};
ghost use Rattle.deploy_state.specs.Accepting.{idle_log};
ghost use Rattle.deploy_state.specs.States.{OwnsIdle, OwnsLoaded, idle_device, loaded_device};
ghost use Rattle.session.specs.Calls.{AreOthersSame, ChangesArtifactsAlone, HasNotFallen};
ghost use Rattle.session.specs.Sweeping.{LeavesNoStray};
ghost use Rattle.checkpoint_log.specs.declared.slots.Slots.{Slots as Journal};
ghost use Rattle.deploy_state.specs.declared.state.Idle as idles;
ghost use Rattle.edges.specs.Reading.{ReadsUpTo};
ghost use Rattle.nucleus_top.specs.Answers.{input_over, printed_over, shelf_over, store_over};
ghost use Rattle.nucleus_top.specs.Crashes.{KeepsJournal, KeepsJournalOrFiles, KeepsSameWhole, LeavesSame};
ghost use Rattle.nucleus_top.specs.Objects.{HoldsSlots, IsDeployedFrom, IsDeployedOver, IsInputDeployedOver, IsRefusedOver, IsResumedOver};
ghost use Rattle.nucleus_top.specs.Opening.{HasEntry, IsImageOf};
ghost use Rattle.nucleus_top.specs.Drives.{IsMade, IsUnread, IsUnswept, NamesPendingOf, StartsFrom};
ghost use Rattle.nucleus_top.specs.Drives.{TellsSweep, TellsUnread, MayNotDeploy, MayNotOpen, MayNotOpenIdle, shelf_for, slots_start};

use crate::answer::Answer;
use crate::opening::{HasDevice, open, refused};
use admission::{Ask, Declined, make_document, plans_are_met};
use artifact_store::{SweepFault, needed_files_stay, sweep};
use checkpoint_log::Slots;
use deploy_state::{Idle, Loaded};
use deployment_doc::Document;
use disk_model::Disk;
use edges::{ReadFault, Sink, Source, read_up_to};
use law_whole::plans_are_whole;
use library_core::{Library, NoLibrary};
use nuc_base::{Copied, DOCUMENT_LIMIT, Status};
use session::{resume_to_end, run_made_to_end};
use std::alloc::Global;
use step_runner::Runner;
use supervisor::Supervisor;

/// What is answered where stray files are not swept.
fn unswept(fault: SweepFault) -> Answer
    ensures { TellsSweep fault result }
{
    match fault {
        SweepFault::Disk => Answer::DiskFailed,
        SweepFault::NoMemory => Answer::NoMemory,
    }
}

/// The state, once files are swept that are strays of its device.
fn swept<T: HasDevice + Drop, D: Disk>(alloc: Global, state: T, disk: &mut D) -> Result<T, Answer>
    ensures kept { IfOk result (λ s. s ≡ state) }
    ensures spared { ChangesArtifactsAlone D.may_leave D.moment D.left_since disk.old disk.new }
    ensures safe { AllHoldDevice (D.may_leave disk.old) (T.stands_for state) → HasLeft D.moment D.left_since disk.old disk.new
        (λ c. HoldsDevice c (T.stands_for state)) }
    ensures clean { IsTrue D.is_modelled → IfOk result (λ s. IsSwept (items_of (T.stands_for s)) (D.seen disk.new)) }
    ensures others { IsTrue D.is_modelled → AreOthersSame slots_files (D.seen disk.old) (D.seen disk.new) }
    ensures disk { IsErrOf result Answer.DiskFailed → Rose (D.faults disk.old) (D.faults disk.new) }
    ensures quiet { ¬ (IsErrOf result Answer.DiskFailed) → D.faults disk.new ≡ D.faults disk.old }
    ensures later { D.faults disk.old ≤ D.faults disk.new }
    ensures answers { IfErr result (λ a. IsUnswept a) }
{
    match sweep(alloc, disk, state.stored()) {
        Ok(()) => Ok(state),
        Err(fault) => Err(unswept(fault)),
    }
}

/// The device for which the journal stands, once stray files are swept.
pub(crate) fn open_swept<D: Disk>(alloc: Global, disk: &mut D) -> Result<Loaded<Slots>, Answer>
    ensures opened { IsTrue D.is_modelled → IfOk result (λ s. HasEntry (D.seen disk.old) × IsImageOf (D.seen disk.old) (loaded_device s)) }
    ensures start { IsTrue D.is_modelled → IfOk result (λ s. (idle : idles.Idle Journal) → s ≡ Loaded.Idle idle →
        StartsFrom (D.seen disk.old) (idle_device idle) (slots_start (idle_log idle) (idle_device idle))) }
    ensures held { IfOk result (λ s. HoldsSlots D.Disk OwnsLoaded s disk.new) }
    ensures images { LeavesSame D.may_leave D.moment D.left_since D.seen disk.old disk.new }
    ensures whole { KeepsSameWhole D.may_leave D.moment D.left_since D.seen disk.old disk.new }
    ensures ends { ¬ (IsErrOf result Answer.DiskFailed) → KeepsJournal D.may_leave D.seen disk.old disk.new }
    ensures reads { KeepsJournalOrFiles D.may_leave D.seen disk.old disk.new }
    ensures spared { ChangesArtifactsAlone D.may_leave D.moment D.left_since disk.old disk.new }
    ensures clean { IsTrue D.is_modelled → IfOk result (λ s. IsSwept (items_of (loaded_device s)) (D.seen disk.new)) }
    ensures others { IsTrue D.is_modelled → AreOthersSame slots_files (D.seen disk.old) (D.seen disk.new) }
    ensures disk { IsErrOf result Answer.DiskFailed → Rose (D.faults disk.old) (D.faults disk.new) }
    ensures quiet { ¬ (IsErrOf result Answer.DiskFailed) → D.faults disk.new ≡ D.faults disk.old }
    ensures later { D.faults disk.old ≤ D.faults disk.new }
    ensures answers { IfErr result (λ a. MayNotOpen (store_over D.Disk disk.old disk.new) a) }
{
    // The journal does not lie among the files of artifacts.
    needed_files_stay();
    match open(alloc, disk) {
        Ok(state) => swept(alloc, state, disk),
        Err(fault) => Err(refused(alloc, fault)),
    }
}

/// The refusal that names the pending deployment.
fn pending<T: HasDevice + Drop>(alloc: Global, state: T) -> Answer
    ensures { NamesPendingOf (T.stands_for state) result }
{
    let Some(pending) = &state.stored().pending else {
        return Answer::NoMemory;
    };
    match pending.plan.id.copy(alloc) {
        Ok(id) => Answer::Pending(id),
        Err(_) => Answer::NoMemory,
    }
}

fn idle_of(alloc: Global, state: Loaded<Slots>) -> Result<Idle<Slots>, Answer>
    ensures idle { IfOk result (λ s. state ≡ Loaded.Idle s) }
    ensures answers { IfErr result (λ a. NamesPendingOf (loaded_device state) a) }
{
    match state {
        Loaded::Idle(idle) => Ok(idle),
        state => Err(pending(alloc, state)),
    }
}

/// The same of a device without a pending deployment. One with a pending deployment is refused.
fn open_idle<D: Disk>(alloc: Global, disk: &mut D) -> Result<Idle<Slots>, Answer>
    ensures opened { IsTrue D.is_modelled → IfOk result (λ s. HasEntry (D.seen disk.old) × IsImageOf (D.seen disk.old) (idle_device s)) }
    ensures start { IsTrue D.is_modelled → IfOk result (λ s. StartsFrom (D.seen disk.old) (idle_device s) (slots_start (idle_log s) (idle_device s))) }
    ensures held { IfOk result (λ s. HoldsSlots D.Disk OwnsIdle s disk.new) }
    ensures images { LeavesSame D.may_leave D.moment D.left_since D.seen disk.old disk.new }
    ensures whole { KeepsSameWhole D.may_leave D.moment D.left_since D.seen disk.old disk.new }
    ensures ends { ¬ (IsErrOf result Answer.DiskFailed) → KeepsJournal D.may_leave D.seen disk.old disk.new }
    ensures reads { KeepsJournalOrFiles D.may_leave D.seen disk.old disk.new }
    ensures spared { ChangesArtifactsAlone D.may_leave D.moment D.left_since disk.old disk.new }
    ensures clean { IsTrue D.is_modelled → IfOk result (λ s. IsSwept (items_of (idle_device s)) (D.seen disk.new)) }
    ensures others { IsTrue D.is_modelled → AreOthersSame slots_files (D.seen disk.old) (D.seen disk.new) }
    ensures disk { IsErrOf result Answer.DiskFailed → Rose (D.faults disk.old) (D.faults disk.new) }
    ensures quiet { ¬ (IsErrOf result Answer.DiskFailed) → D.faults disk.new ≡ D.faults disk.old }
    ensures later { D.faults disk.old ≤ D.faults disk.new }
    ensures answers { IfErr result (λ a. MayNotOpenIdle (store_over D.Disk disk.old disk.new) a) }
{
    match open_swept(alloc, disk) {
        Ok(state) => idle_of(alloc, state),
        Err(answer) => Err(answer),
    }
}

/// What is answered where the document cannot be read.
fn unread(fault: ReadFault) -> Answer
    ensures { TellsUnread fault result }
{
    match fault {
        ReadFault::Edge => Answer::SourceFailed,
        ReadFault::NoMemory => Answer::NoMemory,
    }
}

/// Deploys the document to which a request came, with no component from before.
fn deploy_made<D: Disk, L: Library, K: Sink, R: Runner>(
    alloc: Global,
    idle: Idle<Slots>,
    made: Result<Document, Declined>,
    disk: &mut D,
    library: &mut L,
    sink: &mut K,
    runner: &mut R,
) -> Status
    requires held { HoldsSlots D.Disk OwnsIdle idle disk.old }
    requires none { R.living runner.old ≡ [] }
    requires roots { IfOk made (λ document. AreSound document.roots) }
    requires inside { IfErr made (λ x. IsInside x) }
    ensures driven { IsDeployedOver D.Disk K.Sink R.Runner disk.old disk.new sink.old sink.new runner.old runner.new result
        (idle_device idle) (slots_start (idle_log idle) (idle_device idle)) (shelf_over L.Library library.old library.new)
        (IsMade made) }
    ensures none { R.living runner.new ≡ [] }
    ensures others { IsTrue D.is_modelled → AreOthersSame slots_files (D.seen disk.old) (D.seen disk.new) }
    ensures disk { result ≡ statuses.Disk → Rose (D.faults disk.old) (D.faults disk.new) }
    ensures edge { result ≡ statuses.Edge → Rose (K.faults sink.old) (K.faults sink.new) }
    ensures quiet_disk { result ≢ statuses.Disk → result ≢ statuses.Edge → D.faults disk.new ≡ D.faults disk.old }
    ensures quiet_sink { result ≢ statuses.Edge → K.faults sink.new ≡ K.faults sink.old }
    ensures later { HasNotFallen (D.faults disk.old) (D.faults disk.new) × HasNotFallen (K.faults sink.old) (K.faults sink.new) }
    ensures library { result ≡ statuses.Library → Rose (L.faults library.old) (L.faults library.new) }
    ensures library_quiet { result ≢ statuses.Library → result ≢ statuses.Edge → L.faults library.new ≡ L.faults library.old }
    ensures library_later { L.faults library.old ≤ L.faults library.new }
    ensures kept { StaysTold L.content L.coming library.old library.new }
    // No stray file is left where none was there at the start.
    ensures swept { (IsTrue D.is_modelled → IsSwept (items_of (idle_device idle)) (D.seen disk.old)) → LeavesNoStray D.is_modelled slots_entries result
        (D.seen disk.new) }
{
    // The journal does not lie among the files of artifacts, and a plan that is taken in is met and whole.
    needed_files_stay();
    plans_are_met();
    plans_are_whole();
    let mut supervisor = Supervisor::new(alloc);
    run_made_to_end(
        alloc,
        idle,
        made,
        disk,
        library,
        sink,
        runner,
        &mut supervisor,
    )
}

/// Deploys what these bytes ask, with no component from before. A change of a configuration is deployed over no library.
fn deploy_bytes<D: Disk, L: Library, K: Sink, R: Runner>(
    alloc: Global,
    what: &Ask,
    idle: Idle<Slots>,
    bytes: &[u8],
    disk: &mut D,
    library: &mut L,
    sink: &mut K,
    runner: &mut R,
) -> Status
    requires held { HoldsSlots D.Disk OwnsIdle idle disk.old }
    requires none { R.living runner.old ≡ [] }
    ensures driven { IsDeployedOver D.Disk K.Sink R.Runner disk.old disk.new sink.old sink.new runner.old runner.new result
        (idle_device idle) (slots_start (idle_log idle) (idle_device idle)) (shelf_for what.now (shelf_over L.Library library.old library.new))
        (AskOutcome what.now bytes.now) }
    ensures none { R.living runner.new ≡ [] }
    ensures others { IsTrue D.is_modelled → AreOthersSame slots_files (D.seen disk.old) (D.seen disk.new) }
    ensures disk { result ≡ statuses.Disk → Rose (D.faults disk.old) (D.faults disk.new) }
    ensures edge { result ≡ statuses.Edge → Rose (K.faults sink.old) (K.faults sink.new) }
    ensures quiet_disk { result ≢ statuses.Disk → result ≢ statuses.Edge → D.faults disk.new ≡ D.faults disk.old }
    ensures quiet_sink { result ≢ statuses.Edge → K.faults sink.new ≡ K.faults sink.old }
    ensures later { HasNotFallen (D.faults disk.old) (D.faults disk.new) × HasNotFallen (K.faults sink.old) (K.faults sink.new) }
    ensures library { result ≡ statuses.Library → Rose (L.faults library.old) (L.faults library.new) }
    ensures library_quiet { result ≢ statuses.Library → result ≢ statuses.Edge → L.faults library.new ≡ L.faults library.old }
    ensures library_later { L.faults library.old ≤ L.faults library.new }
    ensures kept { StaysTold L.content L.coming library.old library.new }
    ensures unasked { (name : List ℕ) → what.now ≡ asks.Change name → library.new ≡ library.old }
    // No stray file is left where none was there at the start.
    ensures swept { (IsTrue D.is_modelled → IsSwept (items_of (idle_device idle)) (D.seen disk.old)) → LeavesNoStray D.is_modelled slots_entries result
        (D.seen disk.new) }
{
    let made = make_document(alloc, what, idle.device(), bytes);
    match what {
        Ask::Document | Ask::Local => deploy_made(alloc, idle, made, disk, library, sink, runner),
        Ask::Change(_) => deploy_made(alloc, idle, made, disk, &mut NoLibrary, sink, runner),
    }
}

/// Deploys what the source has.
fn deploy_read<D: Disk, L: Library, S: Source, K: Sink, R: Runner>(
    alloc: Global,
    what: &Ask,
    idle: Idle<Slots>,
    disk: &mut D,
    library: &mut L,
    source: &mut S,
    sink: &mut K,
    runner: &mut R,
) -> Status
    requires held { HoldsSlots D.Disk OwnsIdle idle disk.old }
    requires none { R.living runner.old ≡ [] }
    ensures ran { (IsUnread disk.old disk.new (input_over S.Source source.old source.new) (printed_over K.Sink sink.old sink.new) result ×
        (runner.new ≡ runner.old))
        ⊎ IsInputDeployedOver D.Disk K.Sink R.Runner disk.old disk.new sink.old sink.new runner.old runner.new result what.now
        (idle_device idle) (slots_start (idle_log idle) (idle_device idle)) (input_over S.Source source.old source.new)
        (shelf_for what.now (shelf_over L.Library library.old library.new)) }
    ensures none { R.living runner.new ≡ [] }
    ensures others { IsTrue D.is_modelled → AreOthersSame slots_files (D.seen disk.old) (D.seen disk.new) }
    ensures disk { result ≡ statuses.Disk → Rose (D.faults disk.old) (D.faults disk.new) }
    ensures quiet_disk { result ≢ statuses.Disk → result ≢ statuses.Edge → D.faults disk.new ≡ D.faults disk.old }
    ensures quiet_sink { result ≢ statuses.Edge → K.faults sink.new ≡ K.faults sink.old }
    ensures later { HasNotFallen (D.faults disk.old) (D.faults disk.new) × HasNotFallen (K.faults sink.old) (K.faults sink.new) }
    ensures library { result ≡ statuses.Library → Rose (L.faults library.old) (L.faults library.new) }
    ensures library_quiet { result ≢ statuses.Library → result ≢ statuses.Edge → L.faults library.new ≡ L.faults library.old }
    ensures library_later { L.faults library.old ≤ L.faults library.new }
    ensures kept { StaysTold L.content L.coming library.old library.new }
    ensures unasked { (name : List ℕ) → what.now ≡ asks.Change name → library.new ≡ library.old }
    // No stray file is left where none was there at the start.
    ensures swept { (IsTrue D.is_modelled → IsSwept (items_of (idle_device idle)) (D.seen disk.old)) → LeavesNoStray D.is_modelled slots_entries result
        (D.seen disk.new) }
    ensures edge { result ≡ statuses.Edge → Rose (S.faults source.old) (S.faults source.new) ⊎ Rose (K.faults sink.old) (K.faults sink.new) }
    ensures quiet_source { result ≢ statuses.Edge → S.faults source.new ≡ S.faults source.old }
    ensures read { ReadsUpTo 524289 (S.left source.old) (S.left source.new) }
    ensures source_later { S.faults source.old ≤ S.faults source.new }
{
    match read_up_to(alloc, source, DOCUMENT_LIMIT + 1) {
        Ok(bytes) => deploy_bytes(
            alloc,
            what,
            idle,
            bytes.as_slice(),
            disk,
            library,
            sink,
            runner,
        ),
        Err(fault) => {
            drop(idle);
            let answer = unread(fault);
            let status = answer.tell(sink);
            drop(answer);
            status
        }
    }
}

/// Deploys one document, request or change. A pending deployment is refused before the source is read.
pub(crate) fn deploy<D: Disk, L: Library, S: Source, K: Sink, R: Runner>(
    alloc: Global,
    what: &Ask,
    disk: &mut D,
    library: &mut L,
    source: &mut S,
    sink: &mut K,
    runner: &mut R,
) -> Status
    requires none { R.living runner.old ≡ [] }
    ensures ran { (IsRefusedOver D.Disk K.Sink disk.old disk.new sink.old sink.new result
        (λ store answer. MayNotDeploy store (input_over S.Source source.old source.new) answer) × (runner.new ≡ runner.old))
        ⊎ IsDeployedFrom D.Disk K.Sink R.Runner disk.old disk.new sink.old sink.new runner.old runner.new result what.now
        (input_over S.Source source.old source.new)
        (shelf_over L.Library library.old library.new) }
    ensures none { R.living runner.new ≡ [] }
    ensures others { IsTrue D.is_modelled → AreOthersSame slots_files (D.seen disk.old) (D.seen disk.new) }
    ensures disk { result ≡ statuses.Disk → Rose (D.faults disk.old) (D.faults disk.new) }
    ensures quiet_disk { result ≢ statuses.Disk → result ≢ statuses.Edge → D.faults disk.new ≡ D.faults disk.old }
    ensures quiet_sink { result ≢ statuses.Edge → K.faults sink.new ≡ K.faults sink.old }
    ensures later { HasNotFallen (D.faults disk.old) (D.faults disk.new) × HasNotFallen (K.faults sink.old) (K.faults sink.new) }
    ensures library { result ≡ statuses.Library → Rose (L.faults library.old) (L.faults library.new) }
    ensures library_quiet { result ≢ statuses.Library → result ≢ statuses.Edge → L.faults library.new ≡ L.faults library.old }
    ensures library_later { L.faults library.old ≤ L.faults library.new }
    ensures kept { StaysTold L.content L.coming library.old library.new }
    ensures unasked { (name : List ℕ) → what.now ≡ asks.Change name → library.new ≡ library.old }
    ensures swept { LeavesNoStray D.is_modelled slots_entries result (D.seen disk.new) }
    ensures edge { result ≡ statuses.Edge → Rose (S.faults source.old) (S.faults source.new) ⊎ Rose (K.faults sink.old) (K.faults sink.new) }
    ensures quiet_source { result ≢ statuses.Edge → S.faults source.new ≡ S.faults source.old }
    ensures read { ReadsUpTo 524289 (S.left source.old) (S.left source.new) }
    ensures source_later { S.faults source.old ≤ S.faults source.new }
{
    match open_idle(alloc, disk) {
        Ok(idle) => deploy_read(alloc, what, idle, disk, library, source, sink, runner),
        Err(answer) => {
            let status = answer.tell(sink);
            drop(answer);
            status
        }
    }
}

/// Drives the pending deployment on, and where none is pending says so.
pub(crate) fn resume<D: Disk, K: Sink, R: Runner>(
    alloc: Global,
    disk: &mut D,
    sink: &mut K,
    runner: &mut R,
) -> Status
    requires none { R.living runner.old ≡ [] }
    ensures ran { (IsRefusedOver D.Disk K.Sink disk.old disk.new sink.old sink.new result (λ store answer. MayNotOpen store answer) × (runner.new ≡ runner.old))
        ⊎ IsResumedOver D.Disk K.Sink R.Runner disk.old disk.new sink.old sink.new runner.old runner.new result }
    ensures none { R.living runner.new ≡ [] }
    ensures others { IsTrue D.is_modelled → AreOthersSame slots_files (D.seen disk.old) (D.seen disk.new) }
    ensures disk { result ≡ statuses.Disk → Rose (D.faults disk.old) (D.faults disk.new) }
    ensures edge { result ≡ statuses.Edge → Rose (K.faults sink.old) (K.faults sink.new) }
    ensures own { result ≢ statuses.Library }
    ensures quiet_disk { result ≢ statuses.Disk → result ≢ statuses.Edge → D.faults disk.new ≡ D.faults disk.old }
    ensures quiet_sink { result ≢ statuses.Edge → K.faults sink.new ≡ K.faults sink.old }
    ensures later { HasNotFallen (D.faults disk.old) (D.faults disk.new) × HasNotFallen (K.faults sink.old) (K.faults sink.new) }
    ensures swept { LeavesNoStray D.is_modelled slots_entries result (D.seen disk.new) }
{
    match open_swept(alloc, disk) {
        Ok(state) => {
            // The journal does not lie among the files of artifacts.
            needed_files_stay();
            let mut supervisor = Supervisor::new(alloc);
            resume_to_end(alloc, state, disk, sink, runner, &mut supervisor)
        }
        Err(answer) => {
            let status = answer.tell(sink);
            drop(answer);
            status
        }
    }
}
