// The commands that drive no component: `init`, `status`, `plan`, `audit`, `config-get`, `why`, `components`, `about` and `workload`.
ghost use Rattle.std.specs.Prelude.{◌≡◌, ◌≢◌, ◌≤◌, ℕ, List, map, string_bytes, IsTrue};
ghost use Rattle.disk_model.specs.Disk.{HasLeft};
ghost use Rattle.nuc_base.specs.declared.status.Status.TheVariants as status;
ghost use Rattle.command_words.specs.declared.order.Order.{Order};
ghost use Rattle.command_words.specs.declared.order.Order.TheVariants as order;
ghost use Rattle.edges.specs.Reading.{ReadsUpTo};
ghost use Rattle.library_core.specs.Library.{StaysTold};
ghost use Rattle.nucleus_top.specs.Words.{AsksOrder};
ghost use Rattle.nucleus_top.specs.Answers.{store_over, input_over, shelf_over, printed_over, IsQuiet, IsStill};
ghost use Rattle.nucleus_top.specs.Leaving.{IsDurable, IsDurableIfDone, MayLeave, files_of};
ghost use Rattle.nucleus_top.specs.Parts.{WordsAnswer, Parts, setting_of};

use crate::about::about;
use crate::answer::Answer;
use crate::auditing::audit;
use crate::component_lines::components;
use crate::config_getting::get;
use crate::init::init;
use crate::planning::plan;
use crate::status::status;
use crate::why::why;
use crate::workload_run::draw_workload;
use command_words::{Order, WordsFault, read_words, words_ask_one_thing};
use disk_model::Disk;
use edges::{Sink, Source};
use library_core::Library;
use nuc_base::Status;
use std::alloc::Global;

/// Does all but the printing.
#[tactic(auto, using(crate::proofs::Reading::reads_none))]
fn answer<D: Disk, L: Library, S: Source>(
    alloc: Global,
    version: &str,
    words: &Vec<String>,
    disk: &mut D,
    library: &mut L,
    source: &mut S,
) -> Answer
    ensures comes { WordsAnswer (setting_of version.now (D.writer disk.old)) (map string_bytes words.now.items) (store_over D.Disk disk.old disk.new)
        (input_over S.Source source.old source.new) (shelf_over L.Library library.old library.new) result }
    ensures quiet { IsQuiet (store_over D.Disk disk.old disk.new) (input_over S.Source source.old source.new) result }
    ensures still { IsStill (shelf_over L.Library library.old library.new) result }
    ensures unread { (AsksOrder (map string_bytes words.now.items) order.Plan → ⊥) → (AsksOrder (map string_bytes words.now.items) order.Why → ⊥)
        → source.new ≡ source.old }
    ensures unasked { (AsksOrder (map string_bytes words.now.items) order.Plan → ⊥) → (AsksOrder (map string_bytes words.now.items) order.Why → ⊥)
        → library.new ≡ library.old }
    // `workload` does not touch the disk.
    ensures alone { (seed : ℕ) → AsksOrder (map string_bytes words.now.items) (order.Workload seed) → disk.new ≡ disk.old }
    ensures kept { StaysTold L.content L.coming library.old library.new }
    ensures moments { HasLeft D.moment D.left_since disk.old disk.new (MayLeave (map string_bytes words.now.items) (D.may_leave disk.old)) }
    ensures keeps { (order : Order) → AsksOrder (map string_bytes words.now.items) order →
        IsDurableIfDone order (D.may_leave disk.new) (D.seen disk.new) result }
    ensures others { (order : Order) → AsksOrder (map string_bytes words.now.items) order → IsTrue D.is_modelled →
        (name : List ℕ) → ¬ (files_of order name) → D.seen disk.new name ≡ D.seen disk.old name }
    ensures disk_later { D.faults disk.old ≤ D.faults disk.new }
    ensures library_later { L.faults library.old ≤ L.faults library.new }
    ensures read { ReadsUpTo 524289 (S.left source.old) (S.left source.new) }
    ensures source_later { S.faults source.old ≤ S.faults source.new }
{
    words_ask_one_thing();
    let order = match read_words(alloc, words) {
        Ok((_root, order)) => order,
        Err(WordsFault::Usage) => return Answer::WrongWords,
        Err(WordsFault::NoMemory) => return Answer::NoMemory,
    };
    match order {
        Order::Init(origin) => init(alloc, origin, disk),
        Order::Status(json) => status(alloc, json, disk),
        Order::Plan => plan(alloc, disk, library, source),
        Order::Audit => audit(alloc, disk),
        Order::ConfigGet(name, at) => get(alloc, &name, &at, disk),
        Order::Workload(seed) => draw_workload(alloc, seed),
        Order::Why => why(alloc, disk, library, source),
        Order::Components => components(alloc, disk),
        Order::About => about(alloc, version, disk),
        // These drive components: they are dispatched before.
        Order::Deploy | Order::Resume | Order::Serve(_) | Order::Local | Order::ConfigSet(_) =>
            Answer::WrongWords,
    }
}

/// Does what the words of the command line ask where that drives no component, and answers the status that the program
/// ends with. Words that ask another command are wrong words here.
pub(crate) fn look<D: Disk, L: Library, S: Source, K: Sink>(
    alloc: Global,
    version: &str,
    words: &Vec<String>,
    disk: &mut D,
    library: &mut L,
    source: &mut S,
    sink: &mut K,
) -> Status
    ensures parts { Parts (setting_of version.now (D.writer disk.old)) (map string_bytes words.now.items) (store_over D.Disk disk.old disk.new)
        (input_over S.Source source.old source.new) (shelf_over L.Library library.old library.new)
        (printed_over K.Sink sink.old sink.new) result }
    // `plan` and `why` alone read from the source and ask the library.
    ensures unread { (AsksOrder (map string_bytes words.now.items) order.Plan → ⊥) → (AsksOrder (map string_bytes words.now.items) order.Why → ⊥)
        → source.new ≡ source.old }
    ensures unasked { (AsksOrder (map string_bytes words.now.items) order.Plan → ⊥) → (AsksOrder (map string_bytes words.now.items) order.Why → ⊥)
        → library.new ≡ library.old }
    // `workload` does not touch the disk.
    ensures alone { (seed : ℕ) → AsksOrder (map string_bytes words.now.items) (order.Workload seed) → disk.new ≡ disk.old }
    ensures library_kept { StaysTold L.content L.coming library.old library.new }
    // Whenever a crash comes during the call, it leaves an image that the start allowed, or what the command may make of one.
    ensures moments { HasLeft D.moment D.left_since disk.old disk.new (MayLeave (map string_bytes words.now.items) (D.may_leave disk.old)) }
    // Once the lines of finished work are printed, a crash does not undo it.
    ensures durable { (order : Order) → AsksOrder (map string_bytes words.now.items) order → result ≡ status.Done →
        IsDurable order (D.may_leave disk.new) (D.seen disk.new) }
    ensures others { (order : Order) → AsksOrder (map string_bytes words.now.items) order → IsTrue D.is_modelled →
        (name : List ℕ) → ¬ (files_of order name) → D.seen disk.new name ≡ D.seen disk.old name }
    ensures disk_later { D.faults disk.old ≤ D.faults disk.new }
    ensures library_later { L.faults library.old ≤ L.faults library.new }
    ensures read { ReadsUpTo 524289 (S.left source.old) (S.left source.new) }
    ensures source_later { S.faults source.old ≤ S.faults source.new }
    ensures sink_later { K.faults sink.old ≤ K.faults sink.new }
{
    words_ask_one_thing();
    let answer = answer(alloc, version, words, disk, library, source);
    let status = answer.tell(sink);
    drop(answer);
    status
}
