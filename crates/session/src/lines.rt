// Lines that are no record's.
ghost use Rattle.std.specs.Prelude.{◌≡◌, ◌≢◌, ◌≤◌};
ghost use Rattle.nuc_base.specs.Faults.{Rose};
ghost use Rattle.nuc_base.specs.declared.status.Status.TheVariants as statuses;
ghost use Rattle.edges.specs.Pieces.{joined};
ghost use Rattle.deploy_state.specs.States.{loaded_device};
ghost use Rattle.session_boots.specs.Lines.{id_of};
ghost use Rattle.session.specs.Calls.{IsOrEdge, SaysLine};
ghost use Rattle.session.specs.Declines.{disk_line};

use deploy_state::Loaded;
use edges::{Sink, write_pieces};
use gate_log::Journal;
use nuc_base::Status;

/// Prints the line in these pieces, and answers the status: 6 where it could not be written.
pub fn say<K: Sink>(sink: &mut K, pieces: &[&str], status: Status) -> Status
    requires other { status ≢ statuses.Edge }
    ensures says { SaysLine (K.held sink.old) (K.held sink.new) result (joined pieces.now) }
    ensures answers { IsOrEdge result status }
    ensures edge { result ≡ statuses.Edge → Rose (K.faults sink.old) (K.faults sink.new) }
    ensures quiet { result ≢ statuses.Edge → K.faults sink.new ≡ K.faults sink.old }
    ensures later { K.faults sink.old ≤ K.faults sink.new }
{
    match write_pieces(sink, pieces) {
        Ok(()) => status,
        Err(_) => Status::Edge,
    }
}

/// The id of the pending deployment, and nothing where none is pending.
pub(crate) fn pending_id<J: Journal + Drop>(state: &Loaded<J>) -> &str
    ensures { result.now ≡ id_of (loaded_device state.now) }
{
    match &state.device().pending {
        Some(pending) => pending.plan.id.as_str(),
        None => "",
    }
}

/// Prints that the disk failed.
pub(crate) fn say_disk<K: Sink>(sink: &mut K) -> Status
    ensures says { SaysLine (K.held sink.old) (K.held sink.new) result disk_line }
    ensures answers { IsOrEdge result statuses.Disk }
    ensures edge { result ≡ statuses.Edge → Rose (K.faults sink.old) (K.faults sink.new) }
    ensures quiet { result ≢ statuses.Edge → K.faults sink.new ≡ K.faults sink.old }
    ensures later { K.faults sink.old ≤ K.faults sink.new }
{
    say(sink, &["fault 5 disk\n"], Status::Disk)
}
