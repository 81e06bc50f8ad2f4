// A fleet driven by lines.
ghost use Rattle.std.specs.Prelude.{◌≡◌, ◌≤◌, ◌<◌, [], List, length, vec_len};
ghost use Rattle.edges.specs.Reading.{ReadsUpTo};
ghost use Rattle.nuc_base.specs.declared.status.Status.TheVariants as status;
ghost use Rattle.fleet_core.specs.Events.{Event};
ghost use Rattle.fleet_core.specs.Fleets.{StandsFor, device_count};
ghost use Rattle.fleet.specs.Commands.{lines_of};
ghost use Rattle.fleet.specs.Course.{refused_line};
ghost use Rattle.fleet.specs.Runs.{stream_of, PrintedEnd, EndOrMemory, EndsAtFault, LineOutcome, EndOfLines, StartsOff, BeginsWith, ProgramOutcome};

use crate::commands::{command, first_line, numbered};
use crate::printing::{numbered_line, reply_text};
use edges::{ReadFault, Sink, Source, read_up_to, write_all};
use fleet_core::{Fleet, StepFault};
use nuc_base::Status;
use std::alloc::Global;

/// The most bytes of lines.
const MOST_BYTES: usize = 1_048_576;

/// Prints one last line, and answers the status: 6 where it could not be written.
fn end_with<K: Sink>(sink: &mut K, line: &str, status: Status) -> Status
    ensures { PrintedEnd (stream_of K.held K.faults sink.old sink.new) line.now status result }
{
    match write_all(sink, line.as_bytes()) {
        Ok(()) => status,
        Err(_) => Status::Edge,
    }
}

/// Refuses the line with this number.
fn refuse<K: Sink>(alloc: Global, number: u32, sink: &mut K) -> Status
    ensures { EndOrMemory (stream_of K.held K.faults sink.old sink.new) (refused_line number) status.BadInput result }
{
    match numbered_line(alloc, "refused 2 line", number) {
        Ok(line) => end_with(sink, line.as_str(), Status::BadInput),
        Err(_) => Status::Memory,
    }
}

/// Ends at the line with this number, which a fault refuses.
fn end_at_fault<K: Sink>(alloc: Global, number: u32, fault: &StepFault, sink: &mut K) -> Status
    ensures { EndsAtFault number (stream_of K.held K.faults sink.old sink.new) result fault.now }
{
    match fault {
        StepFault::Full => end_with(sink, "refused 14 Full 65536\n", Status::Limit),
        StepFault::NoMemory => Status::Memory,
        _ => refuse(alloc, number, sink),
    }
}

/// Does what one line says, and prints the reply; or answers the status with which the program ends.
fn take_line<K: Sink>(
    alloc: Global,
    fleet: &mut Fleet,
    number: u32,
    line: &[u8],
    sink: &mut K,
) -> Result<(), Status>
    ensures goes { (past : List Event) → StandsFor fleet.old past
        → LineOutcome (device_count fleet.old) number past line.now fleet.new (stream_of K.held K.faults sink.old sink.new) result }
    ensures devices { device_count fleet.new ≡ device_count fleet.old }
{
    let happening = match command(alloc, line) {
        Ok(Some(happening)) => happening,
        Ok(None) => return Err(refuse(alloc, number, sink)),
        Err(_) => return Err(Status::Memory),
    };
    let reply = match fleet.step(happening) {
        Ok(reply) => reply,
        Err(fault) => return Err(end_at_fault(alloc, number, &fault, sink)),
    };
    let Ok(text) = reply_text(alloc, &reply) else {
        return Err(Status::Memory);
    };
    match write_all(sink, text.as_str().as_bytes()) {
        Ok(()) => Ok(()),
        Err(_) => Err(Status::Edge),
    }
}

/// Does what the lines behind the first say, up to the one that is refused.
fn run_lines<K: Sink>(alloc: Global, mut fleet: Fleet, lines: &[u8], sink: &mut K) -> Status
    requires stands { StandsFor fleet [] }
    requires short { length lines.now ≤ 1048576 }
    ensures { EndOfLines (device_count fleet) (lines_of lines.now) (stream_of K.held K.faults sink.old sink.new) result }
{
    let mut rest = lines;
    let mut number = 2;
    'lines: while let Some((line, behind)) = first_line(rest) {
        if let Err(status) = take_line(alloc, &mut fleet, number, line, sink) {
            return status;
        }
        rest = behind;
        number += 1;
    }
    if rest.is_empty() {
        return Status::Done;
    }
    refuse(alloc, number, sink)
}

/// The number of devices in the line that begins a fleet.
fn device_number(line: &[u8]) -> Option<u32>
    ensures { BeginsWith line.now result }
{
    let devices = numbered(line, b"devices ")?;
    if devices < 1 || devices > 1024 {
        return None;
    }
    Some(devices)
}

/// Does what the lines say.
fn run<K: Sink>(alloc: Global, bytes: &[u8], sink: &mut K) -> Status
    requires { length bytes.now ≤ 1048576 }
    ensures { StartsOff (lines_of bytes.now) (stream_of K.held K.faults sink.old sink.new) result }
{
    let Some((line, lines)) = first_line(bytes) else {
        return refuse(alloc, 1, sink);
    };
    let Some(devices) = device_number(line) else {
        return refuse(alloc, 1, sink);
    };
    match Fleet::new(alloc, devices) {
        Ok(fleet) => run_lines(alloc, fleet, lines, sink),
        Err(_) => Status::Memory,
    }
}

/// Drives a fleet by the lines of the source, and prints to the sink what comes of each.
///
/// There is no word but the program's name. The source holds at most 1,048,576 bytes of lines, each ended by a line feed:
/// `devices N` first, with N from 1 to 1,024, then `send D DOCUMENT`, `deliver P`, `lose P`, `restart D`, `report D` and
/// `hear R`. All of it is read before the first line is printed. A line that is none of these, or that is refused by
/// `Fleet::step`, ends it with status 2, one packet or report too many with status 14. Where the source or the sink fails
/// the status is 6, and where memory is refused 15.
pub fn fleet<S: Source, K: Sink>(
    alloc: Global,
    words: &Vec<String>,
    source: &mut S,
    sink: &mut K,
) -> Status
    ensures runs { ProgramOutcome (vec_len words.now) (stream_of S.left S.faults source.old source.new) (stream_of K.held K.faults sink.old sink.new) result }
    // At most one byte more than may come is read, whatever is answered, and none where there is another word.
    ensures read { ReadsUpTo 1048577 (S.left source.old) (S.left source.new) }
    ensures unread { 1 < vec_len words.now → source.new ≡ source.old }
{
    if words.len() > 1 {
        return end_with(sink, "usage: fleet\n", Status::Usage);
    }
    match read_up_to(alloc, source, MOST_BYTES + 1) {
        Ok(bytes) if bytes.len() > MOST_BYTES => {
            end_with(sink, "refused 14 TooLong 1048576\n", Status::Limit)
        }
        Ok(bytes) => run(alloc, bytes.as_slice(), sink),
        Err(ReadFault::Edge) => Status::Edge,
        Err(ReadFault::NoMemory) => Status::Memory,
    }
}
