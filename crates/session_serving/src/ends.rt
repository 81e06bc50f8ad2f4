// How a call that serves ends: what is printed, and what becomes of the components.
ghost use Rattle.std.specs.Prelude.{◌≡◌, ◌≢◌, ◌≤◌, [], Bool, List, OnErr, OnOk, false, true};
ghost use Rattle.std.specs.Io.KnownBytes.{Appends};
ghost use Rattle.nuc_base.specs.Faults.{Rose};
ghost use Rattle.nuc_base.specs.declared.status.Status.{Status as StatusOf};
ghost use Rattle.nuc_base.specs.declared.status.Status.TheVariants as statuses;
ghost use Rattle.edges.specs.Pieces.{AppendsPrefix};
ghost use Rattle.device.specs.Devices.{Device};
ghost use Rattle.histories.specs.Courses.{IsEnd, gives_up, is_restart};
ghost use Rattle.histories.specs.States.{SessionState, state_after};
ghost use Rattle.histories.specs.TraceEvents.{TraceEvent};
ghost use Rattle.session_boots.specs.Stages.{AsTold};
ghost use Rattle.session_boots.specs.Traces.{ActTrace};
ghost use Rattle.session_shutdown.specs.Stops.{MayStop};
ghost use Rattle.session_steady.specs.Serves.{IsAsking, IsServing};
ghost use Rattle.session.specs.Calls.{IsOrEdge, SaysLine};
ghost use Rattle.session.specs.Parts.{IsReturned};
ghost use Rattle.session_serving.specs.States.{AreUp};
ghost use Rattle.session_serving.specs.Served.{ended_line};
ghost use Rattle.session_serving.specs.Documents.{found_no_memory, memory_line, no_memory_line};
ghost use Rattle.session_serving.specs.Turns.{GivesUpBy, inbox_line, line_of_fault};

use components::Supervise;
use edges::{EdgeFault, InboxFault, Sink, write_pieces};
use itoa::Buffer;
use law_supervisor::{events_keep_order, tellings_keep};
use nuc_base::Status;
use session::{Standing, say};
use session_shutdown::stop_components;
use session_steady::settle;
use session_transitions::kill_all;
use step_runner::Runner;

/// Prints that the inbox failed, and answers the status of that.
pub(crate) fn say_inbox<K: Sink>(sink: &mut K) -> Status
    ensures line { AppendsPrefix (K.held sink.old) (K.held sink.new) inbox_line }
    // All of it, unless the sink fails.
    ensures whole { ¬ (Rose (K.faults sink.old) (K.faults sink.new)) → Appends (K.held sink.old) (K.held sink.new) inbox_line }
    ensures status { result ≡ statuses.Edge }
    ensures later { K.faults sink.old ≤ K.faults sink.new }
{
    match write_pieces(sink, &["fault 6 inbox\n"]) {
        Ok(()) => Status::Edge,
        Err(_) => Status::Edge,
    }
}

/// Whether there was no memory for a document, where a deployment comes back so.
fn found_no_memory(status: Status, standing: Standing) -> bool
    ensures { result ≡ found_no_memory status standing }
{
    match status {
        Status::Memory => match standing {
            Standing::AsBefore => true,
            Standing::OfSet | Standing::Nobody => false,
        },
        _ => false,
    }
}

/// Prints that there was no memory for a document.
fn say_memory<K: Sink>(sink: &mut K) -> Result<(), EdgeFault>
    ensures line { AppendsPrefix (K.held sink.old) (K.held sink.new) memory_line }
    // All of it, unless the sink fails.
    ensures whole { OnOk result (Appends (K.held sink.old) (K.held sink.new) memory_line) }
    ensures edge { OnErr result (Rose (K.faults sink.old) (K.faults sink.new)) }
    ensures quiet { OnOk result (K.faults sink.new ≡ K.faults sink.old) }
    ensures later { K.faults sink.old ≤ K.faults sink.new }
{
    match write_pieces(sink, &["fault 15 memory\n"]) {
        Ok(()) => Ok(()),
        Err(fault) => Err(fault),
    }
}

/// Prints that there was no memory for a document, where a deployment comes back so.
pub(crate) fn say_if_no_memory<K: Sink>(
    status: Status,
    standing: Standing,
    sink: &mut K,
) -> Result<(), EdgeFault>
    ensures line { AppendsPrefix (K.held sink.old) (K.held sink.new) (no_memory_line status standing) }
    // All of it, unless the sink fails.
    ensures whole { OnOk result (Appends (K.held sink.old) (K.held sink.new) (no_memory_line status standing)) }
    ensures edge { OnErr result (Rose (K.faults sink.old) (K.faults sink.new)) }
    ensures quiet { OnOk result (K.faults sink.new ≡ K.faults sink.old) }
    ensures later { K.faults sink.old ≤ K.faults sink.new }
{
    if !found_no_memory(status, standing) {
        return Ok(());
    }
    say_memory(sink)
}

/// Prints that the turns are over, and answers that: 6 where the line could not be written.
pub(crate) fn say_ended<K: Sink>(turns: u32, sink: &mut K) -> Status
    ensures says { SaysLine (K.held sink.old) (K.held sink.new) result (ended_line turns) }
    ensures answers { IsOrEdge result statuses.TurnsOver }
    ensures edge { result ≡ statuses.Edge → Rose (K.faults sink.old) (K.faults sink.new) }
    ensures quiet { result ≢ statuses.Edge → K.faults sink.new ≡ K.faults sink.old }
    ensures later { K.faults sink.old ≤ K.faults sink.new }
{
    let mut digits = Buffer::new();
    say(
        sink,
        &["ended 17 ", digits.format(turns), "\n"],
        Status::TurnsOver,
    )
}

/// Kills all children that live, from where no component may act or a document was just handled: the call gives up.
pub(crate) fn give_up<R: Runner, S: Supervise>(runner: &mut R, supervisor: &S)
    requires from_state { (p : SessionState) × (d : Device) × AsTold R.Runner runner.old (IsReturned p d (S.world supervisor.now)) }
    ensures trace { (p : SessionState) → (d : Device) → AsTold R.Runner runner.old (IsReturned p d (S.world supervisor.now)) →
        (h : List TraceEvent) × ActTrace p h (R.list runner.old) (R.list runner.new) ×
        ((status : StatusOf) → (rose : Bool) → gives_up status ≡ true → IsEnd (state_after p h) status rose) }
    ensures none { R.living runner.new ≡ [] }
{
    kill_all(runner, supervisor);
}

/// The inbox gave no answer: kills all children, and prints that it failed, where it did. For want of memory nothing is printed.
pub(crate) fn give_up_asking<K: Sink, R: Runner, S: Supervise>(
    fault: InboxFault,
    sink: &mut K,
    runner: &mut R,
    supervisor: &S,
) -> Status
    requires from_state { (p : SessionState) × (d : Device) × AsTold R.Runner runner.old (IsAsking p d (S.world supervisor.now)) }
    ensures trace { (p : SessionState) → (d : Device) → AsTold R.Runner runner.old (IsAsking p d (S.world supervisor.now)) →
        (h : List TraceEvent) × ActTrace p h (R.list runner.old) (R.list runner.new) × IsEnd (state_after p h) result false }
    ensures none { R.living runner.new ≡ [] }
    ensures status { GivesUpBy fault result }
    ensures line { AppendsPrefix (K.held sink.old) (K.held sink.new) (line_of_fault fault) }
    ensures whole { result ≢ statuses.Edge → Appends (K.held sink.old) (K.held sink.new) (line_of_fault fault) }
    ensures quiet { result ≢ statuses.Edge → K.faults sink.new ≡ K.faults sink.old }
    ensures later { K.faults sink.old ≤ K.faults sink.new }
{
    give_up(runner, supervisor);
    match fault {
        InboxFault::Failed => say_inbox(sink),
        InboxFault::NoMemory => Status::Memory,
    }
}

/// Kills all children that live, from between two turns, where failures may still be owed: the call gives up.
pub(crate) fn give_up_serving<R: Runner, S: Supervise>(runner: &mut R, supervisor: &S)
    requires from_state { (p : SessionState) × (d : Device) × AsTold R.Runner runner.old (IsServing p d (S.world supervisor.now)) }
    ensures trace { (p : SessionState) → (d : Device) → AsTold R.Runner runner.old (IsServing p d (S.world supervisor.now)) →
        (h : List TraceEvent) × ActTrace p h (R.list runner.old) (R.list runner.new) ×
        ((status : StatusOf) → (rose : Bool) → gives_up status ≡ true → IsEnd (state_after p h) status rose) }
    ensures none { R.living runner.new ≡ [] }
{
    events_keep_order();
    tellings_keep();
    kill_all(runner, supervisor);
}

/// Stops all components at the end of the call.
pub(crate) fn stop_all<R: Runner, S: Supervise>(runner: &mut R, supervisor: &mut S)
    requires up { (d : Device) × AreUp d (S.world supervisor.old) }
    requires from_state { (p : SessionState) × (d : Device) × AsTold R.Runner runner.old (MayStop p d (S.world supervisor.old)) }
    ensures trace { (p : SessionState) → (d : Device) → AsTold R.Runner runner.old (MayStop p d (S.world supervisor.old)) →
        (h : List TraceEvent) × ActTrace p h (R.list runner.old) (R.list runner.new) ×
        ((status : StatusOf) → is_restart status ≡ false → IsEnd (state_after p h) status false) }
    ensures none { R.living runner.new ≡ [] }
{
    stop_components(runner, supervisor);
}

/// The inbox was asked often enough: what is due is done once more, so that each failure is heard of, and all components are
/// stopped. Answers whether they were: at the end of the clock all children are killed.
pub(crate) fn stop_spent<R: Runner, S: Supervise>(runner: &mut R, supervisor: &mut S) -> bool
    requires up { (d : Device) × AreUp d (S.world supervisor.old) }
    requires from_state { (p : SessionState) × (d : Device) × AsTold R.Runner runner.old (IsServing p d (S.world supervisor.old)) × (p.turns ≡ 0) }
    ensures stopped { result ≡ true → (p : SessionState) → (d : Device) → AsTold R.Runner runner.old (IsServing p d (S.world supervisor.old)) → p.turns ≡ 0 →
        (h : List TraceEvent) × ActTrace p h (R.list runner.old) (R.list runner.new) ×
        ((status : StatusOf) → is_restart status ≡ false → IsEnd (state_after p h) status false) }
    ensures killed { result ≡ false → (p : SessionState) → (d : Device) → AsTold R.Runner runner.old (IsServing p d (S.world supervisor.old)) →
        (h : List TraceEvent) × ActTrace p h (R.list runner.old) (R.list runner.new) × IsEnd (state_after p h) statuses.Memory false }
    ensures none { R.living runner.new ≡ [] }
{
    match settle(runner, supervisor) {
        Some(_settled) => {
            stop_all(runner, supervisor);
            true
        }
        None => {
            give_up_serving(runner, supervisor);
            false
        }
    }
}
