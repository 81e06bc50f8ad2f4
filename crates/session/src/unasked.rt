// A request at the device that comes to no document.
ghost use Rattle.std.specs.Prelude.{◌≡◌, ◌≢◌, ◌≤◌};
ghost use Rattle.nuc_base.specs.Faults.{Rose};
ghost use Rattle.nuc_base.specs.declared.status.Status.TheVariants as statuses;
ghost use Rattle.local_deploy.specs.Reasons.{reason_of};
ghost use Rattle.session.specs.Calls.{IsOrEdge, SaysLine};
ghost use Rattle.session.specs.Unasked.{line_of_unasked, said_of, status_of_unasked};

use crate::lines::say;
use admission::Unasked;
use edges::Sink;
use itoa::Buffer;
use local_deploy::LocalFault;
use nuc_base::{Name, Status};

/// Prints a word and a name.
fn say_named<K: Sink>(word: &str, name: &Name, status: Status, sink: &mut K) -> Status
    requires other { status ≢ statuses.Edge }
    ensures says { SaysLine (K.held sink.old) (K.held sink.new) result (said_of word.now name.now) }
    ensures edge { result ≡ statuses.Edge → Rose (K.faults sink.old) (K.faults sink.new) }
    ensures quiet { result ≢ statuses.Edge → K.faults sink.new ≡ K.faults sink.old }
    ensures later { K.faults sink.old ≤ K.faults sink.new }
    ensures answers { IsOrEdge result status }
{
    say(sink, &[word, name.as_str(), "\n"], status)
}

/// Prints the fault of a request.
fn say_fault<K: Sink>(fault: &LocalFault, sink: &mut K) -> Status
    ensures says { SaysLine (K.held sink.old) (K.held sink.new) result (line_of_unasked (Unasked.Local fault.now)) }
    ensures edge { result ≡ statuses.Edge → Rose (K.faults sink.old) (K.faults sink.new) }
    ensures quiet { result ≢ statuses.Edge → K.faults sink.new ≡ K.faults sink.old }
    ensures later { K.faults sink.old ≤ K.faults sink.new }
    ensures answers { IsOrEdge result statuses.BadInput }
{
    let (word, space, field) = fault.reason();
    say(
        sink,
        &["refused 2 local ", word, space, field, "\n"],
        Status::BadInput,
    )
}

/// Prints that the group would require too many components.
fn say_too_many<K: Sink>(count: u32, sink: &mut K) -> Status
    ensures says { SaysLine (K.held sink.old) (K.held sink.new) result (line_of_unasked (Unasked.TooManyLocal count)) }
    ensures edge { result ≡ statuses.Edge → Rose (K.faults sink.old) (K.faults sink.new) }
    ensures quiet { result ≢ statuses.Edge → K.faults sink.new ≡ K.faults sink.old }
    ensures later { K.faults sink.old ≤ K.faults sink.new }
    ensures answers { IsOrEdge result statuses.BadInput }
{
    let mut digits = Buffer::new();
    say(
        sink,
        &["refused 2 local TooManyLocal ", digits.format(count), "\n"],
        Status::BadInput,
    )
}

/// Prints why a request at the device comes to no document.
pub(crate) fn say_unasked<K: Sink>(unasked: &Unasked, sink: &mut K) -> Status
    ensures says { SaysLine (K.held sink.old) (K.held sink.new) result (line_of_unasked unasked.now) }
    ensures edge { result ≡ statuses.Edge → Rose (K.faults sink.old) (K.faults sink.new) }
    ensures quiet { result ≢ statuses.Edge → K.faults sink.new ≡ K.faults sink.old }
    ensures later { K.faults sink.old ≤ K.faults sink.new }
    ensures answers { IsOrEdge result (status_of_unasked unasked.now) }
{
    match unasked {
        Unasked::Local(fault) => say_fault(fault, sink),
        Unasked::NotLocal(name) => {
            say_named("refused 2 local NotLocal ", name, Status::BadInput, sink)
        }
        Unasked::TooManyLocal(count) => say_too_many(*count, sink),
        Unasked::Unlisted(name) => {
            say_named("refused 2 local Unlisted ", name, Status::BadInput, sink)
        }
        Unasked::NoComponent(name) => {
            say_named("refused 19 NoComponent ", name, Status::Absent, sink)
        }
        Unasked::NotListed(name) => say_named("refused 19 NotListed ", name, Status::Absent, sink),
    }
}
