// Room for entries.
ghost use Rattle.std.specs.Prelude.{◌≡◌, ◌≢◌, ◌≤◌, ℕ, List, IsTrue, length, OnOk};
ghost use Rattle.nuc_base.specs.Faults.{HasCause};
ghost use Rattle.disk_model.specs.Disk.{IsAfter, HasLeft};

use crate::log::Log;
use disk_model::{Disk, DiskFault};

impl Log {
    ghost use Rattle.gate_log.specs.Journal.{IsChangeIn, IsBehind, files_of, stands_in, entries_in};

    /// Sees to it that the journal's file goes on up to this place, so that entries up to there need no new room. The entries
    /// stay, also where it fails: what is added stands behind the closed gate.
    pub fn reserve_in<D: Disk>(&self, disk: &mut D, file: &str, to: u64) -> Result<(), DiskFault>
        requires open { (payloads : List (List ℕ)) × IsBehind D.may_leave (stands_in file.now) self.now disk.old payloads }
        ensures any_moment { (payloads : List (List ℕ)) → IsBehind D.may_leave (stands_in file.now) self.now disk.old payloads →
            HasLeft D.moment D.left_since disk.old disk.new
            (IsAfter (D.may_leave disk.old) (IsChangeIn (files_of file.now) (λ c. entries_in file.now c payloads))) }
        ensures stays { (payloads : List (List ℕ)) → IsBehind D.may_leave (stands_in file.now) self.now disk.old payloads →
            IsBehind D.may_leave (stands_in file.now) self.now disk.new payloads }
        ensures room { IsTrue D.is_modelled → OnOk result (to ≤ length (D.seen disk.new file.now)) }
        ensures others { IsTrue D.is_modelled → (name : List ℕ) → name ≢ file.now → D.seen disk.new name ≡ D.seen disk.old name }
        ensures cause { HasCause (D.faults disk.old) (D.faults disk.new) result }
        ensures quiet { OnOk result (D.faults disk.new ≡ D.faults disk.old) }
    {
        disk.reserve(file, to)
    }
}
