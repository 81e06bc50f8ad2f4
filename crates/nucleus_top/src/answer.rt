ghost use Rattle.std.specs.Prelude.{◌≡◌, ◌≤◌, OnOk};
ghost use Rattle.nuc_base.specs.Faults.{HasCause};
ghost use Rattle.edges.specs.Pieces.{WriteOutcome};
ghost use Rattle.nucleus_top.specs.Answers.{status_of, lines_of, printed_over, IsPrinted};

use crate::explanation::Explanation;
use edges::{EdgeFault, Sink, write_all, write_pieces};
use nuc_base::{Bytes, Label, Status, Text};
use plan_core::Refusal;
use refusal_lines::refusal_status;
use why_not::write_why;

/// What a call has come to, with what its lines say.
#[derive(Drop)]
pub enum Answer {
    /// The store of this thing was made.
    Made(Label),
    /// The status is this text.
    Shown(Text),
    /// The plan is this text.
    Planned(Text),
    /// The document comes to no plan, as this text says.
    Unplanned(Refusal, Text),
    /// The deployments of a workload closed as this line says.
    Drawn(Text),
    /// A set of the candidates is valid.
    Possible,
    /// None is valid, as this says.
    Impossible(Explanation),
    /// The node of the configuration is this text.
    Got(Text),
    /// There is no such node, as this line says.
    Absent(Bytes),
    /// Each artifact has its digest.
    Whole,
    /// A file of an artifact has another digest, as this text says.
    Differs(Text),
    /// The deployment of this id is pending.
    Pending(Label),
    WrongWords,
    DiskFailed,
    SourceFailed,
    LibraryFailed,
    /// The journal holds no entry.
    NotInitialised,
    /// The journal stands for no device, by the fault at this place in decimal digits.
    Damaged(Text),
    /// It stands for none, as this text says, which begins with what the program is.
    Unreadable(Text),
    /// The journal stands for a device of this thing.
    Initialised(Label),
    NoMemory,
}

impl Answer {
    /// The status that the answer ends with.
    pub fn status(&self) -> Status
        ensures { result ≡ status_of self.now }
    {
        match self {
            Answer::Made(_) => Status::Done,
            Answer::Shown(_) => Status::Done,
            Answer::Planned(_) => Status::Done,
            Answer::Unplanned(refusal, _) => refusal_status(refusal),
            Answer::Drawn(_) => Status::Done,
            Answer::Possible => Status::Done,
            Answer::Impossible(_) => Status::NoVersion,
            Answer::Got(_) => Status::Done,
            Answer::Absent(_) => Status::Absent,
            Answer::Whole => Status::Done,
            Answer::Differs(_) => Status::Differs,
            Answer::Pending(_) => Status::PendingStands,
            Answer::WrongWords => Status::Usage,
            Answer::DiskFailed => Status::Disk,
            Answer::SourceFailed => Status::Edge,
            Answer::LibraryFailed => Status::Library,
            Answer::NotInitialised => Status::NotInitialised,
            Answer::Damaged(_) => Status::Damaged,
            Answer::Unreadable(_) => Status::Damaged,
            Answer::Initialised(_) => Status::Initialised,
            Answer::NoMemory => Status::Memory,
        }
    }

    /// Prints the lines of the answer.
    fn print<K: Sink>(&self, sink: &mut K) -> Result<(), EdgeFault>
        ensures lines { WriteOutcome (K.held sink.old) (K.held sink.new) (lines_of self.now) result }
        ensures cause { HasCause (K.faults sink.old) (K.faults sink.new) result }
        ensures quiet { OnOk result (K.faults sink.new ≡ K.faults sink.old) }
    {
        match self {
            Answer::Made(thing) => write_pieces(sink, &["initialised ", thing.as_str(), "\n"]),
            Answer::Shown(text) => write_pieces(sink, &[text.as_str()]),
            Answer::Planned(text) => write_pieces(sink, &[text.as_str()]),
            Answer::Unplanned(_, text) => write_pieces(sink, &[text.as_str()]),
            Answer::Drawn(text) => write_pieces(sink, &[text.as_str()]),
            Answer::Possible => write_pieces(sink, &["possible\n"]),
            Answer::Impossible(told) => write_why(sink, &told.candidates, &told.why),
            Answer::Got(text) => write_pieces(sink, &[text.as_str()]),
            Answer::Absent(line) => write_all(sink, line.as_slice()),
            Answer::Whole => write_pieces(sink, &["whole\n"]),
            Answer::Differs(text) => write_pieces(sink, &[text.as_str()]),
            Answer::Pending(id) => {
                write_pieces(sink, &["refused 4 pending ", id.as_str(), "\n"])
            }
            Answer::WrongWords => {
                write_pieces(sink, &["usage: nucleus --root DIR COMMAND [OPTIONS]\n"])
            }
            Answer::DiskFailed => write_pieces(sink, &["fault 5 disk\n"]),
            Answer::SourceFailed => write_pieces(sink, &["fault 6 source\n"]),
            Answer::LibraryFailed => write_pieces(sink, &["refused 7 library\n"]),
            Answer::NotInitialised => write_pieces(sink, &["refused 8 NotInitialised\n"]),
            Answer::Damaged(place) => {
                write_pieces(sink, &["refused 9 Damaged ", place.as_str(), "\n"])
            }
            Answer::Unreadable(text) => write_pieces(sink, &[text.as_str()]),
            Answer::Initialised(thing) => {
                write_pieces(sink, &["refused 16 Initialised ", thing.as_str(), "\n"])
            }
            Answer::NoMemory => write_pieces(sink, &[]),
        }
    }

    /// Prints the lines, and answers the status: 6 where they could not be written.
    pub fn tell<K: Sink>(&self, sink: &mut K) -> Status
        ensures is_printed { IsPrinted (printed_over K.Sink sink.old sink.new) result self.now }
        ensures later { K.faults sink.old ≤ K.faults sink.new }
    {
        match self.print(sink) {
            Ok(()) => self.status(),
            Err(_) => Status::Edge,
        }
    }
}
