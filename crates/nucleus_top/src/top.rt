ghost use Rattle.std.specs.Prelude.{◌≡◌, ◌⊎◌, ◌≤◌, [], ℕ, List, map, string_bytes, IsTrue};
ghost use Rattle.disk_model.specs.Disk.{HasLeft};
ghost use Rattle.nuc_base.specs.declared.status.Status.TheVariants as status;
ghost use Rattle.library_core.specs.Library.{StaysTold};
ghost use Rattle.admission.specs.declared.ask.Ask.{Ask};
ghost use Rattle.command_words.specs.Words.{IsOrder};
ghost use Rattle.command_words.specs.declared.order.Order.{Order};
ghost use Rattle.command_words.specs.declared.order.Order.TheVariants as order;
ghost use Rattle.session.specs.Calls.{HasNotFallen};
ghost use Rattle.edges.specs.Reading.{ReadsUpTo};
ghost use Rattle.nucleus_top.specs.Drives.{AsksTo, AsksToServe, AsksToDeploy, AsksWithLibrary, DriveParts, AsksToDrive, AsksToDriveOne, AsksToServeTurns};
ghost use Rattle.nucleus_top.specs.Drives.{PendingParts, RefusedParts, MayNotDeploy};
ghost use Rattle.nucleus_top.specs.Drives.{MayNotOpen};
ghost use Rattle.nucleus_top.specs.Words.{AsksOrder};
ghost use Rattle.nucleus_top.specs.Answers.{store_over, input_over, shelf_over, printed_over};
ghost use Rattle.nucleus_top.specs.Leaving.{IsDurable, MayLeave, files_of};
ghost use Rattle.nucleus_top.specs.Parts.{Parts, setting_of};
ghost use Rattle.nucleus_top.specs.Serving.{IsQuietBefore, IsServed};
ghost use Rattle.checkpoint_log.specs.Slots.{slots_files};
ghost use Rattle.session_serving.specs.Causes.{IsCaused, observation};
ghost use Rattle.nucleus_top.specs.Objects.{IsDeployedFrom, IsRefusedOver, IsResumedOver};
ghost use Rattle.session_serving.specs.Parts.{outside};

use crate::asking::{Asked, read_asked};
use crate::driving::{deploy, resume};
use crate::looking::look;
use crate::serving::serve;
use command_words::words_ask_one_thing;
use disk_model::Disk;
use edges::{Inbox, Sink, Source};
use library_core::Library;
use nuc_base::Status;
use std::alloc::Global;
use step_runner::Runner;

/// Does what the words of the command line say over these devices, and answers the status that the program ends with.
///
/// `nucleus --root DIR init --thing NAME --nucleus VERSION --os OS --arch ARCH` makes a store and prints
/// `initialised NAME`. `nucleus --root DIR status`, with `--json` or without, prints the status of the device for which
/// the journal stands. `nucleus --root DIR plan` reads one document from the source and prints what it would make of the
/// device with the recipes of the library, `plan NAME VERSION` for each component and `boot NAME` for each bootstrap, or
/// the first reason why it would not. `nucleus --root DIR why` makes the same checks up to the set, and prints `possible` where
/// some set of the candidates is valid, or else why none is. `nucleus --root DIR config-get --component NAME`, with
/// `--pointer P` or without, prints a node of a component's configuration. `nucleus --root DIR audit` compares the files of the
/// device's artifacts with the digests that are kept, and prints `whole` or the first file that differs. `nucleus --root DIR
/// components` prints what another program says of the components that it runs, or `component NAME VERSION STOPPED` for each of
/// the set. `nucleus --root DIR about` prints what the program is, whose version the caller gives, and what the store is, where
/// there is one. `nucleus --root DIR workload --seed N` runs 32 deployments that are drawn from the seed over objects in memory,
/// by what `deploy` does, and prints how they closed: it
/// touches the sink alone. The clause `parts` says of these when each status comes, what it prints and what it leaves on the disk.
///
/// `nucleus --root DIR deploy` reads one document from the source and deploys it: it prints `accepted ID` once the plan is
/// stable, a line for each failure, and `closed ID OUTCOME`; or the first reason why the document is not taken.
/// `nucleus --root DIR resume` goes on with a deployment that an earlier call left pending, and prints `resumed ID` first;
/// where none is, it prints `idle`. Both print the refusals of `status` where the journal gives no device, and `deploy`
/// `refused 4 pending ID` where a deployment is pending. The clauses `deploys`, `resumes`, `refused`, `pending` and
/// `driven` say what these do.
///
/// `nucleus --root DIR local` deploys what the group of the device itself is to ask for from then on, by the request in the source
/// (`local_deploy`), and `nucleus --root DIR config-set --component NAME` a change of one component's configuration (`config_cmd`),
/// over no library. Both go on as `deploy` does; a request that comes to no document is refused with 2, and a component that is
/// not there or that no group requires with 19. The clauses are those of `deploy`, for what the words ask to deploy.
///
/// `nucleus --root DIR serve --turns N` goes on with a pending deployment as `resume` does, then brings the set up and keeps it up,
/// and deploys the documents of the inbox one after another, for N turns or until the inbox is closed (`session_serving`). The library is
/// refreshed once for each of them, and what it holds from there on is what that document is deployed by. A document that is refused, or
/// whose deployment fails, is a line, and the call goes on. The clauses `serves`, `refused` and `causes` say of it what happens, when the
/// refusals of a journal come, and when 5 and 6. It reads nothing of the source.
pub fn nucleus<D: Disk, L: Library, S: Source, I: Inbox, K: Sink, R: Runner>(
    alloc: Global,
    version: &str,
    words: &Vec<String>,
    disk: &mut D,
    library: &mut L,
    source: &mut S,
    inbox: &mut I,
    sink: &mut K,
    runner: &mut R,
) -> Status
    // No child lives yet.
    requires none { R.living runner.old ≡ [] }
    ensures parts { (AsksToDrive (map string_bytes words.now.items) → ⊥) →
        Parts (setting_of version.now (D.writer disk.old)) (map string_bytes words.now.items) (store_over D.Disk disk.old disk.new)
        (input_over S.Source source.old source.new) (shelf_over L.Library library.old library.new)
        (printed_over K.Sink sink.old sink.new) result }
    // The commands that deploy what the source has, `plan` and `why` alone read from it. They and `serve` ask the library, but for a
    // change of a configuration. `serve` alone asks the inbox.
    ensures unread { (AsksToDeploy (map string_bytes words.now.items) → ⊥) → (AsksOrder (map string_bytes words.now.items) order.Plan → ⊥)
        → (AsksOrder (map string_bytes words.now.items) order.Why → ⊥) → source.new ≡ source.old }
    ensures unasked { (AsksWithLibrary (map string_bytes words.now.items) → ⊥) → (AsksOrder (map string_bytes words.now.items) order.Plan → ⊥)
        → (AsksOrder (map string_bytes words.now.items) order.Why → ⊥) → library.new ≡ library.old }
    ensures uninboxed { (AsksToServe (map string_bytes words.now.items) → ⊥) → inbox.new ≡ inbox.old }
    // `workload` does not touch the disk.
    ensures alone { (seed : ℕ) → AsksOrder (map string_bytes words.now.items) (order.Workload seed) → disk.new ≡ disk.old }
    // Of all but `serve`, none of which refreshes the library: what it tells stays told, and so does what is to come.
    ensures library_kept { (AsksToServe (map string_bytes words.now.items) → ⊥) → StaysTold L.content L.coming library.old library.new }
    // Whenever a crash comes during the call, it leaves an image that the start allowed, or what the command may make of one.
    ensures moments { (AsksToDrive (map string_bytes words.now.items) → ⊥) → HasLeft D.moment D.left_since disk.old disk.new
        (MayLeave (map string_bytes words.now.items) (D.may_leave disk.old)) }
    // Once the lines of finished work are printed, a crash does not undo it.
    ensures durable { (order : Order) → AsksOrder (map string_bytes words.now.items) order → result ≡ status.Done →
        IsDurable order (D.may_leave disk.new) (D.seen disk.new) }
    ensures others { (order : Order) → AsksOrder (map string_bytes words.now.items) order → IsTrue D.is_modelled →
        (name : List ℕ) → ¬ (files_of order name) → D.seen disk.new name ≡ D.seen disk.old name }
    // To deploy: refused before anything begins, with an answer that has its cause; or the document to which the bytes of the
    // source come is taken in by the checks in their order or not, and its deployment goes on from the start of the call. Whenever
    // a crash comes during it, it leaves an image that the start allowed, or one whose journal stands for what the call's
    // records, up to one of them, make of the device: with none of them where the call is refused.
    ensures deploys { (what : Ask) → AsksTo (map string_bytes words.now.items) what →
        (IsRefusedOver D.Disk K.Sink disk.old disk.new sink.old sink.new result
        (λ store answer. MayNotDeploy store (input_over S.Source source.old source.new) answer) × (runner.new ≡ runner.old))
        ⊎ IsDeployedFrom D.Disk K.Sink R.Runner disk.old disk.new sink.old sink.new runner.old runner.new result what
        (input_over S.Source source.old source.new)
        (shelf_over L.Library library.old library.new) }
    // `resume`: so it is with the pending deployment, which goes on where there is one.
    ensures resumes { (root : List ℕ) → IsOrder (map string_bytes words.now.items) root order.Resume →
        (IsRefusedOver D.Disk K.Sink disk.old disk.new sink.old sink.new result (λ store answer. MayNotOpen store answer) × (runner.new ≡ runner.old))
        ⊎ IsResumedOver D.Disk K.Sink R.Runner disk.old disk.new sink.old sink.new runner.old runner.new result }
    // `serve`: so it is with the pending deployment, where there is one, and then with the set and the documents of the inbox. Each is
    // taken in by what the library holds behind its refresh, which is the first of what was to come.
    ensures serves { (turns : ℕ) → AsksToServeTurns (map string_bytes words.now.items) turns →
        (IsRefusedOver D.Disk K.Sink disk.old disk.new sink.old sink.new result (λ store answer. MayNotOpen store answer)
        × (runner.new ≡ runner.old) × (library.new ≡ library.old) × (inbox.new ≡ inbox.old)
        × IsQuietBefore (store_over D.Disk disk.old disk.new) result)
        ⊎ IsServed D.Disk
        (outside D.Disk K.Sink R.Runner L.Library I.Inbox disk.old sink.old runner.old library.old inbox.old)
        (outside D.Disk K.Sink R.Runner L.Library I.Inbox disk.new sink.new runner.new library.new inbox.new)
        result (store_over D.Disk disk.old disk.new) turns }
    // Of all: when the refusals of a journal that gives no device come, and of those that deploy that of a pending deployment.
    ensures refused { AsksToDrive (map string_bytes words.now.items) → RefusedParts (store_over D.Disk disk.old disk.new)
        (printed_over K.Sink sink.old sink.new) result }
    ensures pending { AsksToDeploy (map string_bytes words.now.items) →
        PendingParts (store_over D.Disk disk.old disk.new) (input_over S.Source source.old source.new)
        (printed_over K.Sink sink.old sink.new) result }
    // When 5, 6 and 7 come, and which files change.
    ensures causes { AsksToServe (map string_bytes words.now.items) → IsCaused D.is_modelled slots_files result
        (observation D.Disk K.Sink L.Library I.Inbox disk.old sink.old library.old inbox.old)
        (observation D.Disk K.Sink L.Library I.Inbox disk.new sink.new library.new inbox.new) }
    ensures driven { AsksToDriveOne (map string_bytes words.now.items) → DriveParts (store_over D.Disk disk.old disk.new)
        (input_over S.Source source.old source.new) (shelf_over L.Library library.old library.new)
        (printed_over K.Sink sink.old sink.new) result }
    // No other command runs a child, and none lives at the end.
    ensures still { (AsksToDrive (map string_bytes words.now.items) → ⊥) → runner.new ≡ runner.old }
    ensures none { R.living runner.new ≡ [] }
    // No count falls: those of the disk and the sink up to their type's end where a deployment is driven.
    ensures disk_later { HasNotFallen (D.faults disk.old) (D.faults disk.new) }
    ensures disk_grows { (AsksToDrive (map string_bytes words.now.items) → ⊥) → D.faults disk.old ≤ D.faults disk.new }
    ensures library_later { L.faults library.old ≤ L.faults library.new }
    // At most one byte past the limit of a document is read, whatever is answered.
    ensures read { ReadsUpTo 524289 (S.left source.old) (S.left source.new) }
    ensures source_later { S.faults source.old ≤ S.faults source.new }
    ensures sink_later { HasNotFallen (K.faults sink.old) (K.faults sink.new) }
    ensures sink_grows { (AsksToDrive (map string_bytes words.now.items) → ⊥) → K.faults sink.old ≤ K.faults sink.new }
{
    words_ask_one_thing();
    match read_asked(alloc, words) {
        Asked::Deploy(what) => deploy(alloc, &what, disk, library, source, sink, runner),
        Asked::Resume => resume(alloc, disk, sink, runner),
        Asked::Serve(turns) => serve(alloc, turns, disk, library, inbox, sink, runner),
        Asked::Other => look(alloc, version, words, disk, library, source, sink),
        Asked::NoMemory => Status::Memory,
    }
}
