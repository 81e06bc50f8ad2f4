// The log, and adding an entry.
ghost use Rattle.std.specs.Prelude.{◌≡◌, ◌≢◌, ◌<◌, ◌≤◌, ◌+◌, ◌++◌, ◌∷◌, [], ◌↔◌, ℕ, List, IsTrue, IsErrOf, length, take, OnOk};
ghost use Rattle.std.specs.Int.{w32, to_be_bytes};
ghost use Rattle.nuc_base.specs.Faults.{HasCause, Rose};
ghost use Rattle.disk_model.specs.Disk.{IsPutAt, Torn, Step, IsAfter, Settled, HasLeft};
ghost use Rattle.gate_log.specs.Entries.{most_file, most_payload};

use disk_model::{Disk, DiskFault};

/// The journal file.
pub const JOURNAL: &str = "journal";

/// The most bytes that a file of a journal has.
pub const MOST_FILE: u64 = 1_073_741_824;

/// The most bytes of a payload.
pub const MOST_PAYLOAD: u64 = 33_554_432;

/// A journal in one file, whose entries are known to end at this place, where a closed gate byte stands.
#[derive(Debug, Drop, PartialEq, Eq)]
pub struct Log {
    pub end: u64,
}

/// Why an entry was not added.
#[derive(Clone, Copy, Debug, Drop, PartialEq, Eq)]
pub enum AppendFault {
    /// The disk failed. Before any other use the log is to be found again.
    Disk,
    /// The file would have more than 1,073,741,824 bytes. It carries the log's end; nothing was written.
    Full(u64),
}

impl From<DiskFault> for AppendFault {
    ghost use Rattle.gate_log.specs.declared.log.AppendFault.TheVariants.{Disk};

    ghost from_gives = { λ _ e. e ≡ Disk };

    fn from(_fault: DiskFault) -> AppendFault {
        AppendFault::Disk
    }
}

/// Writes the length, the payload and a closed gate behind the closed gate at `end`, and makes them stable.
fn stage<D: Disk>(disk: &mut D, file: &str, end: u64, payload: &[u8]) -> Result<(), DiskFault>
    requires within { IsTrue D.is_modelled → end + 1 ≤ length (D.seen disk.old file.now) }
    requires room { end + 6 + length payload.now ≤ most_file }
    ensures written { IsTrue D.is_modelled → Step file.now (λ old new. OnOk result ((rest : List ℕ) ×
        (new ≡ take (end + 1) old ++ to_be_bytes w32 (length payload.now) ++ payload.now ++ 0 ∷ rest))) (D.seen disk.old) (D.seen disk.new) }
    ensures durable { OnOk result (Settled (D.may_leave disk.new) file.now (D.seen disk.new file.now)) }
    ensures moments { HasLeft D.moment D.left_since disk.old disk.new
        (IsAfter (D.may_leave disk.old) (Step file.now (λ old new. take (end + 1) new ≡ take (end + 1) old))) }
    ensures fits { IsTrue D.is_modelled → end + 6 + length payload.now ≤ length (D.seen disk.old file.now) → D.shortages disk.new ≡ D.shortages disk.old }
    ensures longer { IsTrue D.is_modelled → OnOk result (length (D.seen disk.old file.now) ≤ length (D.seen disk.new file.now)) }
    ensures cause { HasCause (D.faults disk.old) (D.faults disk.new) result }
    ensures quiet { OnOk result (D.faults disk.new ≡ D.faults disk.old) }
{
    let size = payload.len() as u32;
    disk.write_at(file, end + 1, &size.to_be_bytes())?;
    disk.write_at(file, end + 5, payload)?;
    disk.write_at(file, end + 5 + size as u64, &[0])?;
    disk.sync(file)
}

/// Opens the closed gate at `end`, and makes that stable.
pub fn open_gate<D: Disk>(disk: &mut D, file: &str, end: u64) -> Result<(), DiskFault>
    requires within { IsTrue D.is_modelled → end ≤ length (D.seen disk.old file.now) }
    ensures written { IsTrue D.is_modelled → Step file.now (λ old new. OnOk result (IsPutAt end (1 ∷ []) old new)) (D.seen disk.old) (D.seen disk.new) }
    ensures durable { OnOk result (Settled (D.may_leave disk.new) file.now (D.seen disk.new file.now)) }
    ensures moments { HasLeft D.moment D.left_since disk.old disk.new (IsAfter (D.may_leave disk.old) (Step file.now (Torn end 1))) }
    ensures fits { end + 1 ≤ length (D.seen disk.old file.now) → D.shortages disk.new ≡ D.shortages disk.old }
    ensures longer { IsTrue D.is_modelled → OnOk result (length (D.seen disk.old file.now) ≤ length (D.seen disk.new file.now)) }
    ensures cause { HasCause (D.faults disk.old) (D.faults disk.new) result }
    ensures quiet { OnOk result (D.faults disk.new ≡ D.faults disk.old) }
{
    disk.write_at(file, end, &[1])?;
    disk.sync(file)
}

impl Log {
    ghost use Rattle.gate_log.specs.Journal.{IsChangeIn, IsBehind, BeforeOrAfter, files_of, stands_in, entries_in};

    /// Adds an entry with this payload of 1 to 33,554,432 bytes to the journal in this file. It is there, whole, or not there, whenever a crash
    /// comes: all but its gate is stable before the gate is opened.
    pub fn append_in<D: Disk>(
        &mut self,
        disk: &mut D,
        file: &str,
        payload: &[u8],
    ) -> Result<(), AppendFault>
        requires open { (payloads : List (List ℕ)) × IsBehind D.may_leave (stands_in file.now) self.old disk.old payloads }
        requires some { 1 ≤ length payload.now }
        requires fits { length payload.now ≤ most_payload }
        // A crash at any moment of the call leaves the entries from before it, with the new one or without, and the other files.
        ensures any_moment { (payloads : List (List ℕ)) → IsBehind D.may_leave (stands_in file.now) self.old disk.old payloads →
            HasLeft D.moment D.left_since disk.old disk.new
            (IsAfter (D.may_leave disk.old) (IsChangeIn (files_of file.now) (BeforeOrAfter (entries_in file.now) payloads payload.now))) }
        // After `Ok` it is there.
        ensures added { (payloads : List (List ℕ)) → IsBehind D.may_leave (stands_in file.now) self.old disk.old payloads →
            OnOk result (IsBehind D.may_leave (stands_in file.now) self.new disk.new (payloads ++ payload.now ∷ [])) }
        ensures place { OnOk result (self.new.end ≡ self.old.end + 5 + length payload.now) }
        ensures others { IsTrue D.is_modelled → (name : List ℕ) → name ≢ file.now → D.seen disk.new name ≡ D.seen disk.old name }
        ensures full { (end : ℕ) → IsErrOf result (AppendFault.Full end) ↔ ((end ≡ self.old.end) × (most_file < self.old.end + 6 + length payload.now)) }
        ensures untouched { most_file < self.old.end + 6 + length payload.now → (disk.new ≡ disk.old) × (self.new ≡ self.old) }
        // Within the length that the file has it does not fail for want of room.
        ensures fits { IsTrue D.is_modelled → self.old.end + 6 + length payload.now ≤ length (D.seen disk.old file.now) →
            D.shortages disk.new ≡ D.shortages disk.old }
        ensures longer { IsTrue D.is_modelled → OnOk result (length (D.seen disk.old file.now) ≤ length (D.seen disk.new file.now)) }
        ensures cause { IsErrOf result AppendFault.Disk → Rose (D.faults disk.old) (D.faults disk.new) }
        ensures quiet { ¬ (IsErrOf result AppendFault.Disk) → D.faults disk.new ≡ D.faults disk.old }
        ensures later { D.faults disk.old ≤ D.faults disk.new }
    {
        let size = payload.len() as u64;
        if self.end > MOST_FILE || self.end + 6 + size > MOST_FILE {
            return Err(AppendFault::Full(self.end));
        }
        stage(disk, file, self.end, payload)?;
        open_gate(disk, file, self.end)?;
        self.end += 5 + size;
        Ok(())
    }
}
