// Reading an entry.
ghost use Rattle.std.specs.Prelude.{◌≡◌, ◌<◌, ◌≤◌, ◌+◌, ◌^◌, ◌++◌, ℕ, List, IsTrue, length, drop, IfOk, IsErrOf};
ghost use Rattle.nuc_base.specs.Faults.{Rose};
ghost use Rattle.disk_model.specs.Disk.{HasLeft};
ghost use Rattle.gate_log.specs.Entries.{most_payload};
ghost use Rattle.gate_log.specs.Place.{EntryAt};

use crate::find::length_in;
use crate::log::{Log, MOST_PAYLOAD};
use disk_model::{Disk, DiskFault};
use nuc_base::Bytes;
use std::alloc::{AllocError, Global};

/// Why an entry was not read.
#[derive(Clone, Copy, Debug, Drop, PartialEq, Eq)]
pub enum EntryFault {
    Disk,
    NoMemory,
}

impl From<DiskFault> for EntryFault {
    ghost use Rattle.gate_log.specs.declared.entry.EntryFault.TheVariants.{Disk};

    ghost from_gives = { λ _ e. e ≡ Disk };

    fn from(_: DiskFault) -> Self {
        EntryFault::Disk
    }
}

impl From<AllocError> for EntryFault {
    ghost use Rattle.gate_log.specs.declared.entry.EntryFault.TheVariants.{NoMemory};

    ghost from_gives = { λ _ e. e ≡ NoMemory };

    fn from(_: AllocError) -> Self {
        EntryFault::NoMemory
    }
}

/// This length where the format allows it, else 0.
fn allowed(len: u32) -> u32
    ensures same { len ≤ most_payload → result ≡ len }
    ensures fits { result ≤ most_payload }
{
    if len as u64 > MOST_PAYLOAD { 0 } else { len }
}

impl Log {
    /// The payload of the entry at this place of the journal in this file, and the place behind it, where the next entry or the closed gate is.
    pub fn entry_in<D: Disk>(
        &self,
        alloc: Global,
        disk: &mut D,
        file: &str,
        at: u64,
    ) -> Result<(Bytes, u64), EntryFault>
        requires place { IsTrue D.is_modelled → (e : ℕ × List ℕ) × EntryAt (D.seen disk.old file.now) at self.now.end e }
        ensures told { IsTrue D.is_modelled → (e : ℕ × List ℕ) → EntryAt (D.seen disk.old file.now) at self.now.end e →
            IfOk result (λ r. (r.0 ≡ e.1) × (r.1 ≡ at + 5 + length e.1)) }
        ensures goes_on { at < self.now.end → IfOk result (λ r. at < r.1) }
        // The place behind is no further than the payload goes, also where the disk tells nothing.
        ensures no_further { IfOk result (λ r. r.1 ≤ at + 5 + length r.0) }
        ensures fits { IfOk result (λ r. length r.0 ≤ most_payload) }
        ensures seen { D.seen disk.new ≡ D.seen disk.old }
        ensures moments { HasLeft D.moment D.left_since disk.old disk.new (D.may_leave disk.old) }
        ensures cause { IsErrOf result EntryFault.Disk → Rose (D.faults disk.old) (D.faults disk.new) }
        ensures quiet { ¬ (IsErrOf result EntryFault.Disk) → D.faults disk.new ≡ D.faults disk.old }
        ensures later { D.faults disk.old ≤ D.faults disk.new }
    {
        // The place behind an entry is at most the log's end, so no sum below stops short.
        let _end = self.end;
        let mut head = [0u8; 5];
        let _read = disk.read(file, at, &mut head)?;
        // Where the disk tells nothing, any length may stand here. For one that is not allowed no memory is taken: the
        // payload is empty, as none is.
        let len = allowed(length_in(&head));
        let mut payload = vec![in alloc; 0u8; len as usize]?;
        let _filled = disk.read(file, at.saturating_add(5), &mut payload)?;
        let next = at.saturating_add(5 + len as u64);
        Ok((Bytes::new(payload), next))
    }
}
