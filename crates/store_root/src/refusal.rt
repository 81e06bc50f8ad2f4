// The refusals of a store whose root is not its folder, or cannot be read.
ghost use Rattle.std.specs.Prelude.{◌≡◌, ◌≢◌, ◌≤◌, codes};
ghost use Rattle.std.specs.Io.KnownBytes.{Appends};
ghost use Rattle.nuc_base.specs.Faults.{Rose};
ghost use Rattle.nuc_base.specs.declared.status.Status.TheVariants as status;
ghost use Rattle.edges.specs.Pieces.{AppendsPrefix};
ghost use Rattle.store_root.specs.Roots.{moved_line};

use edges::{Sink, write_pieces};
use nuc_base::Status;

/// Prints that the store was made in this folder, which is not the one that it was opened in. The status is 21, and 6 where
/// the line could not be written.
pub fn refuse_moved<K: Sink>(root: &str, sink: &mut K) -> Status
    ensures moved { result ≡ status.Moved → Appends (K.held sink.old) (K.held sink.new) (moved_line root.now) }
    ensures broken { result ≢ status.Moved →
        (result ≡ status.Edge) × Rose (K.faults sink.old) (K.faults sink.new) × AppendsPrefix (K.held sink.old) (K.held sink.new) (moved_line root.now) }
    ensures later { K.faults sink.old ≤ K.faults sink.new }
{
    match write_pieces(sink, &["refused 21 Moved ", root, "\n"]) {
        Ok(()) => Status::Moved,
        Err(_) => Status::Edge,
    }
}

/// Prints that the disk failed. The status is 5, and 6 where the line could not be written.
pub fn refuse_unread<K: Sink>(sink: &mut K) -> Status
    ensures unread { result ≡ status.Disk → Appends (K.held sink.old) (K.held sink.new) (codes "fault 5 disk\n") }
    ensures broken { result ≢ status.Disk → (result ≡ status.Edge) × Rose (K.faults sink.old) (K.faults sink.new) }
    ensures later { K.faults sink.old ≤ K.faults sink.new }
{
    match write_pieces(sink, &["fault 5 disk\n"]) {
        Ok(()) => Status::Disk,
        Err(_) => Status::Edge,
    }
}
