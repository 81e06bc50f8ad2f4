// The beginning of a slot.
ghost use Rattle.std.specs.Prelude.{◌≡◌, ◌≢◌, ◌<◌, ◌≤◌, ◌∷◌, [], ℕ, List, slice_index, length, IsTrue, IsErrOf, OnOk, Ok};
ghost use Rattle.std.specs.Int.{w64, from_be_bytes};
ghost use Rattle.nuc_base.specs.Faults.{HasCause, Rose};
ghost use Rattle.disk_model.specs.Disk.{Image, HasLeft};
ghost use Rattle.checkpoint_log.specs.Beginnings.{second, slot};
ghost use Rattle.gate_log.specs.Entries.{journal};
ghost use Rattle.gate_log.specs.Journal.{AreSettled};
ghost use Rattle.checkpoint_log.specs.Slots.{slots_files};
ghost use Rattle.checkpoint_log.specs.Look.{IsHead, IsBeginning, IsLook, IsNumber};

use crate::names::{SECOND, slot_name};
use disk_model::{Disk, DiskFault};
use gate_log::{FindFault, JOURNAL, MOST_PAYLOAD, length_in};

/// The number that stands behind the first byte of a first payload.
fn number_in(head: &[u8]) -> u64
    requires { length head.now ≡ 14 }
    ensures value { result ≡ from_be_bytes w64 (slice_index head.now 6 ∷ slice_index head.now 7 ∷ slice_index head.now 8 ∷ slice_index head.now 9
        ∷ slice_index head.now 10 ∷ slice_index head.now 11 ∷ slice_index head.now 12 ∷ slice_index head.now 13 ∷ []) }
    ensures small { (i : ℕ) → slice_index head.now i < 256 }
{
    u64::from_be_bytes([
        head[6], head[7], head[8], head[9], head[10], head[11], head[12], head[13],
    ])
}

/// The number that a slot with this parity and size begins with, by its first bytes. None where its first entry is cut,
/// or where its payload has no beginning that it may have there.
fn beginning(head: &[u8], size: u64, odd: u64) -> Option<u64>
    requires parity { odd < 2 }
    requires long { length head.now ≡ 14 }
    requires open { slice_index head.now 0 ≢ 0 }
    ensures { (file : List ℕ) → size ≡ length file → IsHead head.now file → IsBeginning (slot odd) file result }
{
    let len = length_in(head) as u64;
    if len == 0 || len > MOST_PAYLOAD || size < 5 + len {
        return None;
    }
    if odd == 0 && head[5] == 0x11 {
        return Some(0);
    }
    let number = number_in(head);
    if len < 9 || head[5] != 0x19 || number == 0 || number % 2 != odd {
        return None;
    }
    Some(number)
}

/// The number of the slot with this parity, None where it holds no entry. No more than the beginning of the first payload
/// is read, and the size after it: beside a program that appends, an open gate has its whole entry behind it.
pub fn look<D: Disk>(disk: &mut D, odd: u64) -> Result<Option<u64>, FindFault>
    requires parity { odd < 2 }
    ensures told { IsTrue D.is_modelled → IsLook (slot odd) (D.seen disk.old (slot odd)) result }
    ensures seen { D.seen disk.new ≡ D.seen disk.old }
    ensures moments { HasLeft D.moment D.left_since disk.old disk.new (D.may_leave disk.old) }
    ensures cause { IsErrOf result FindFault.Disk → Rose (D.faults disk.old) (D.faults disk.new) }
    ensures quiet { ¬ (IsErrOf result FindFault.Disk) → D.faults disk.new ≡ D.faults disk.old }
    ensures later { D.faults disk.old ≤ D.faults disk.new }
{
    let file = slot_name(odd);
    let mut head = [0u8; 14];
    let _read = disk.read(file, 0, &mut head)?;
    let size = disk.length(file)?;
    if size <= 1 || head[0] == 0 {
        return Ok(None);
    }
    match beginning(&head, size, odd) {
        Some(number) => Ok(Some(number)),
        None => Err(FindFault::Damaged(0)),
    }
}

/// Makes both slots stable.
pub fn settle<D: Disk>(disk: &mut D) -> Result<(), DiskFault>
    ensures settled { OnOk result (AreSettled D.seen D.may_leave slots_files disk.new) }
    ensures seen { D.seen disk.new ≡ D.seen disk.old }
    ensures moments { HasLeft D.moment D.left_since disk.old disk.new (D.may_leave disk.old) }
    ensures cause { HasCause (D.faults disk.old) (D.faults disk.new) result }
    ensures quiet { OnOk result (D.faults disk.new ≡ D.faults disk.old) }
{
    disk.sync(JOURNAL)?;
    disk.sync(SECOND)
}

/// The greater of the slots' numbers.
fn greater(first: Option<u64>, other: Option<u64>) -> Result<u64, FindFault>
    ensures answers { (image : Image) → IsLook journal (image journal) (Ok first) → IsLook second (image second) (Ok other) → IsNumber image result }
    ensures no_fault { ¬ (IsErrOf result FindFault.Disk) }
{
    match first {
        None => match other {
            None => Err(FindFault::NotInitialised),
            Some(number) => Ok(number),
        },
        Some(one) => match other {
            None => Ok(one),
            Some(number) if one < number => Ok(number),
            Some(_) => Ok(one),
        },
    }
}

/// The number of the live slot.
pub fn live_number<D: Disk>(disk: &mut D) -> Result<u64, FindFault>
    ensures told { IsTrue D.is_modelled → IsNumber (D.seen disk.old) result }
    ensures seen { D.seen disk.new ≡ D.seen disk.old }
    ensures moments { HasLeft D.moment D.left_since disk.old disk.new (D.may_leave disk.old) }
    ensures cause { IsErrOf result FindFault.Disk → Rose (D.faults disk.old) (D.faults disk.new) }
    ensures quiet { ¬ (IsErrOf result FindFault.Disk) → D.faults disk.new ≡ D.faults disk.old }
    ensures later { D.faults disk.old ≤ D.faults disk.new }
{
    match look(disk, 0) {
        Err(fault) => Err(fault),
        Ok(first) => match look(disk, 1) {
            Err(fault) => Err(fault),
            Ok(other) => greater(first, other),
        },
    }
}
