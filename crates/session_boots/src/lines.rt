// Lines of records.
ghost use Rattle.std.specs.Prelude.{◌≡◌, ◌++◌, OnOk, codes};
ghost use Rattle.nuc_base.specs.Faults.{HasCause};
ghost use Rattle.nuc_base.specs.declared.kinds.Step.TheVariants as kinds;
ghost use Rattle.edges.specs.Pieces.{WriteOutcome};
ghost use Rattle.deploy_state.specs.Accepting.{receipt_id};
ghost use Rattle.session_boots.specs.Lines.{accepted_line, exit_text, failed_line};

use deploy_state::Receipt;
use edges::{EdgeFault, Sink, write_pieces};
use itoa::Buffer;
use nuc_base::{Exit, Label, Name};

/// Prints that a deployment was accepted.
pub fn acknowledge<K: Sink>(sink: &mut K, receipt: &Receipt) -> Result<(), EdgeFault>
    ensures line { WriteOutcome (K.held sink.old) (K.held sink.new) (accepted_line (receipt_id receipt.now)) result }
    ensures cause { HasCause (K.faults sink.old) (K.faults sink.new) result }
    ensures quiet { OnOk result (K.faults sink.new ≡ K.faults sink.old) }
{
    write_pieces(sink, &["accepted ", receipt.id().as_str(), "\n"])
}

/// Prints how a step ended, and the line's end.
pub fn tell_exit<K: Sink>(sink: &mut K, exit: Exit) -> Result<(), EdgeFault>
    ensures line { WriteOutcome (K.held sink.old) (K.held sink.new) (exit_text exit ++ codes "\n") result }
    ensures cause { HasCause (K.faults sink.old) (K.faults sink.new) result }
    ensures quiet { OnOk result (K.faults sink.new ≡ K.faults sink.old) }
{
    match exit {
        Exit::Code(code) => {
            let mut digits = Buffer::new();
            write_pieces(sink, &["code ", digits.format(code), "\n"])
        }
        Exit::Signal => write_pieces(sink, &["signal\n"]),
        Exit::TimedOut => write_pieces(sink, &["timeout\n"]),
        Exit::NotStarted => write_pieces(sink, &["notstarted\n"]),
        Exit::Lost => write_pieces(sink, &["lost\n"]),
    }
}

/// Prints that the bootstrap step of a component failed.
pub(crate) fn tell_failed_boot<K: Sink>(
    sink: &mut K,
    id: &Label,
    name: &Name,
    exit: Exit,
) -> Result<(), EdgeFault>
    ensures line { WriteOutcome (K.held sink.old) (K.held sink.new) (failed_line id.now name.now kinds.Bootstrap exit) result }
    ensures cause { HasCause (K.faults sink.old) (K.faults sink.new) result }
    ensures quiet { OnOk result (K.faults sink.new ≡ K.faults sink.old) }
{
    write_pieces(
        sink,
        &["failed ", id.as_str(), " ", name.as_str(), " bootstrap "],
    )?;
    tell_exit(sink, exit)
}
