// Laws over what a crash may leave.
ghost use Rattle.std.specs.Prelude.{◌↔◌, List, ℕ};
ghost use Rattle.disk_model.specs.Crash.{MayHold, unsynced_after, all_stable};
ghost use Rattle.disk_model.specs.Disk.{Image};
ghost use Rattle.disk_model.specs.Record.{left_after};
ghost use Rattle.disk_model.specs.declared.record.Call.{Call as Recorded};

/// The steps that the calls make of the images, one after another, and the one sentence on each file say the same:
/// since it was last made stable, any byte in a written range or past the old end, any length from the least to the
/// greatest that it had, and every other byte as it was.
pub fn steps_are_one_sentence()
    ensures { (calls : List Recorded) (start c : Image) →
        left_after calls start c ↔ ((name : List ℕ) → MayHold (unsynced_after calls start (all_stable start) name) (c name)) }
{}
