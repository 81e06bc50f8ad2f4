// The command that keeps a set up, and deploys what an inbox has.
ghost use Rattle.std.specs.Prelude.{◌≡◌, ◌⊎◌, []};
ghost use Rattle.checkpoint_log.specs.Slots.{slots_files};
ghost use Rattle.nucleus_top.specs.Answers.{store_over};
ghost use Rattle.nucleus_top.specs.Drives.{MayNotOpen};
ghost use Rattle.nucleus_top.specs.Serving.{IsQuietBefore, IsServed};
ghost use Rattle.session_serving.specs.Causes.{IsCaused, observation};
ghost use Rattle.nucleus_top.specs.Objects.{IsRefusedOver};
ghost use Rattle.session_serving.specs.Parts.{outside};

use crate::driving::open_swept;
use admission::plans_are_met;
use artifact_store::needed_files_stay;
use disk_model::Disk;
use edges::{Inbox, Sink};
use law_whole::plans_are_whole;
use library_core::Library;
use nuc_base::Status;
use std::alloc::Global;
use step_runner::Runner;
use supervisor::Supervisor;
use tree_core::tree_laws;

/// Drives the pending deployment on, where there is one, and then keeps the set up and deploys the documents of the inbox, each by what
/// the library holds in its turn, for so many turns or until the inbox is closed.
pub(crate) fn serve<D: Disk, L: Library, I: Inbox, K: Sink, R: Runner>(
    alloc: Global,
    turns: u32,
    disk: &mut D,
    library: &mut L,
    inbox: &mut I,
    sink: &mut K,
    runner: &mut R,
) -> Status
    requires none { R.living runner.old ≡ [] }
    ensures ran { (IsRefusedOver D.Disk K.Sink disk.old disk.new sink.old sink.new result (λ store answer. MayNotOpen store answer)
        × (runner.new ≡ runner.old) × (library.new ≡ library.old) × (inbox.new ≡ inbox.old)
        × IsQuietBefore (store_over D.Disk disk.old disk.new) result)
        ⊎ IsServed D.Disk
        (outside D.Disk K.Sink R.Runner L.Library I.Inbox disk.old sink.old runner.old library.old inbox.old)
        (outside D.Disk K.Sink R.Runner L.Library I.Inbox disk.new sink.new runner.new library.new inbox.new)
        result (store_over D.Disk disk.old disk.new) turns }
    ensures none { R.living runner.new ≡ [] }
    ensures caused { IsCaused D.is_modelled slots_files result
        (observation D.Disk K.Sink L.Library I.Inbox disk.old sink.old library.old inbox.old)
        (observation D.Disk K.Sink L.Library I.Inbox disk.new sink.new library.new inbox.new) }
{
    match open_swept(alloc, disk) {
        Ok(state) => {
            // The journal does not lie among the files of artifacts, a plan that is taken in is met and whole, and what is read is
            // a regular tree.
            needed_files_stay();
            plans_are_met();
            plans_are_whole();
            tree_laws();
            let mut supervisor = Supervisor::new(alloc);
            session_serving::serve(
                alloc,
                state,
                turns,
                disk,
                library,
                inbox,
                sink,
                runner,
                &mut supervisor,
            )
        }
        Err(answer) => {
            let status = answer.tell(sink);
            drop(answer);
            status
        }
    }
}
