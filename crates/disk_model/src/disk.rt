ghost use Rattle.std.specs.Prelude.{◌≡◌, ◌+◌, ◌-◌, ◌≤◌, ◌++◌, [], min, ℕ, Bool, List, Option, IsTrue, IsErrOf, length, take, drop, IfOk, OnOk};
ghost use Rattle.std.specs.Option.{IfSome};
ghost use Rattle.nuc_base.specs.Faults.{HasCause, Rose};
ghost use Rattle.disk_model.specs.Disk.{Image, IsPutAt, Torn, Cut, Lengthened, Step, IsAfter, Settled, HasLeft, DiskLaws};
ghost use Rattle.disk_model.specs.Listing.{artifacts, IsListing};

use nuc_base::{FileName, List, NoMemory};
use std::alloc::Global;
use std::fmt;

/// The disk failed. It says no more.
#[derive(Clone, Copy, Debug, Drop, PartialEq, Eq)]
pub struct DiskFault;

impl fmt::Display for DiskFault {
    fn fmt<W: fmt::Write>(&self, f: &mut fmt::Formatter<W>) -> fmt::Result {
        write!(f, "the disk failed")
    }
}

impl std::error::Error for DiskFault {}

/// Why the files were not listed.
#[derive(Clone, Copy, Debug, Drop, PartialEq, Eq)]
pub enum ListFault {
    Disk,
    NoMemory,
}

impl From<DiskFault> for ListFault {
    ghost use Rattle.disk_model.specs.declared.disk.ListFault.TheVariants.{Disk};

    ghost from_gives = { λ _ e. e ≡ Disk };

    fn from(_fault: DiskFault) -> ListFault {
        ListFault::Disk
    }
}

impl From<NoMemory> for ListFault {
    ghost use Rattle.disk_model.specs.declared.disk.ListFault.TheVariants.{NoMemory};

    ghost from_gives = { λ _ e. e ≡ NoMemory };

    fn from(_refused: NoMemory) -> ListFault {
        ListFault::NoMemory
    }
}

/// A device with named files. A file that is absent and one that is empty are the same.
///
/// A call answers its fault where the count of faults rose, and else not. After a fault the file of that call may be changed
/// in part, within what a crash may leave of the call; every other file is as before.
///
/// A write within the length that a file has needs no new room. What may be written later is made sure of by `reserve`.
pub trait Disk {
    /// Whether the disk tells what its files hold. Where it does not, it has no images.
    ghost is_modelled: { Bool };

    /// What each file reads as.
    ghost seen: { Self → Image };

    /// The images that a crash at this moment may leave.
    ghost may_leave: { Self → Image → Type 0 };

    /// The moment, as a number that does not fall.
    ghost moment: { Self → ℕ };

    /// The images that a crash at some moment from that one on might have left, during a call or between two.
    ghost left_since: { Self → ℕ → Image → Type 0 };

    /// How often the disk has failed.
    ghost faults: { Self → ℕ };

    /// How often it failed for want of room, where it tells that.
    ghost shortages: { Self → ℕ };

    /// Whether another program holds the lock of the writers, where the disk tells it.
    ghost writer: { Self → Option Bool };

    /// How many bytes the file has.
    fn length(&mut self, file: &str) -> Result<u64, DiskFault>
        ensures told { IsTrue is_modelled → IfOk result (λ n. n ≡ length (seen self.old file.now)) }
        ensures seen { seen self.new ≡ seen self.old }
        ensures moments { HasLeft moment left_since self.old self.new (may_leave self.old) }
        ensures room { shortages self.new ≡ shortages self.old }
        ensures cause { HasCause (faults self.old) (faults self.new) result }
        ensures quiet { OnOk result (faults self.new ≡ faults self.old) };

    /// Reads as many bytes as there are from that place on, up to the slice, whose rest stays.
    fn read(&mut self, file: &str, at: u64, into: &mut [u8]) -> Result<usize, DiskFault>
        ensures bound { IfOk result (λ n. n ≤ length into.old) }
        ensures told { IsTrue is_modelled → IfOk result (λ n.
            (n ≡ min (length into.old) (length (drop at (seen self.old file.now))))
            × (into.new ≡ take n (drop at (seen self.old file.now)) ++ drop n into.old)) }
        ensures seen { seen self.new ≡ seen self.old }
        ensures moments { HasLeft moment left_since self.old self.new (may_leave self.old) }
        ensures room { shortages self.new ≡ shortages self.old }
        ensures cause { HasCause (faults self.old) (faults self.new) result }
        ensures quiet { OnOk result (faults self.new ≡ faults self.old) };

    /// Writes over what is there and past the end. Until a sync, a crash may leave any bytes in the range.
    fn write_at(&mut self, file: &str, at: u64, bytes: &[u8]) -> Result<(), DiskFault>
        requires { IsTrue is_modelled → at ≤ length (seen self.old file.now) }
        ensures told { IsTrue is_modelled → Step file.now (λ old new. OnOk result (IsPutAt at bytes.now old new)) (seen self.old) (seen self.new) }
        ensures moments { HasLeft moment left_since self.old self.new (IsAfter (may_leave self.old) (Step file.now (Torn at (length bytes.now)))) }
        ensures room { at + length bytes.now ≤ length (seen self.old file.now) → shortages self.new ≡ shortages self.old }
        ensures cause { HasCause (faults self.old) (faults self.new) result }
        ensures quiet { OnOk result (faults self.new ≡ faults self.old) };

    /// Sees to it that the file goes on up to this place, so that a write up to there needs no new room. What it held stays in
    /// front; what is added has no meaning. Until a sync, a crash may leave any bytes there, and any length between.
    fn reserve(&mut self, file: &str, to: u64) -> Result<(), DiskFault>
        ensures told { IsTrue is_modelled → Step file.now (λ old new. Lengthened to old new × OnOk result (to ≤ length new)) (seen self.old) (seen self.new) }
        ensures moments { HasLeft moment left_since self.old self.new (IsAfter (may_leave self.old)
            (Step file.now (Torn (length (seen self.old file.now)) (to - length (seen self.old file.now))))) }
        ensures cause { HasCause (faults self.old) (faults self.new) result }
        ensures quiet { OnOk result (faults self.new ≡ faults self.old) };

    /// Keeps the first bytes of the file. Until a sync, a crash may leave any prefix of it that is no shorter.
    fn cut(&mut self, file: &str, len: u64) -> Result<(), DiskFault>
        requires { IsTrue is_modelled → len ≤ length (seen self.old file.now) }
        ensures told { IsTrue is_modelled → Step file.now (λ old new. OnOk result (new ≡ take len old)) (seen self.old) (seen self.new) }
        ensures moments { HasLeft moment left_since self.old self.new (IsAfter (may_leave self.old) (Step file.now (Cut len))) }
        ensures room { shortages self.new ≡ shortages self.old }
        ensures cause { HasCause (faults self.old) (faults self.new) result }
        ensures quiet { OnOk result (faults self.new ≡ faults self.old) };

    /// Makes the file stable: a crash after it leaves of this file what a read gives.
    fn sync(&mut self, file: &str) -> Result<(), DiskFault>
        ensures durable { OnOk result (Settled (may_leave self.new) file.now (seen self.new file.now)) }
        ensures seen { seen self.new ≡ seen self.old }
        ensures moments { HasLeft moment left_since self.old self.new (may_leave self.old) }
        ensures room { shortages self.new ≡ shortages self.old }
        ensures cause { HasCause (faults self.old) (faults self.new) result }
        ensures quiet { OnOk result (faults self.new ≡ faults self.old) };

    /// Leaves the file empty, which is the same as absent. Until a sync, a crash may leave any prefix of it.
    fn remove(&mut self, file: &str) -> Result<(), DiskFault>
        ensures told { IsTrue is_modelled → Step file.now (λ _ new. OnOk result (new ≡ [])) (seen self.old) (seen self.new) }
        ensures moments { HasLeft moment left_since self.old self.new (IsAfter (may_leave self.old) (Step file.now (Cut 0))) }
        ensures room { shortages self.new ≡ shortages self.old }
        ensures cause { HasCause (faults self.old) (faults self.new) result }
        ensures quiet { OnOk result (faults self.new ≡ faults self.old) };

    /// The names below `packages/artifacts/` of files that are not empty, rising in byte order.
    fn list(&mut self, alloc: Global) -> Result<List<FileName>, ListFault>
        ensures told { IsTrue is_modelled → IfOk result (λ names. IsListing artifacts (seen self.old) names) }
        ensures seen { seen self.new ≡ seen self.old }
        ensures moments { HasLeft moment left_since self.old self.new (may_leave self.old) }
        ensures room { shortages self.new ≡ shortages self.old }
        ensures cause { IsErrOf result ListFault.Disk → Rose (faults self.old) (faults self.new) }
        ensures later { faults self.old ≤ faults self.new }
        ensures quiet { ¬ (IsErrOf result ListFault.Disk) → faults self.new ≡ faults self.old };

    /// Whether another program holds the lock of the writers. It answers no fault: where that can't be seen, none does.
    fn has_writer(&mut self) -> bool
        ensures told { IfSome (writer self.old) (λ writer. result ≡ writer) }
        ensures seen { seen self.new ≡ seen self.old }
        ensures moments { HasLeft moment left_since self.old self.new (may_leave self.old) }
        ensures room { shortages self.new ≡ shortages self.old }
        ensures quiet { faults self.new ≡ faults self.old };

    ghost laws: { DiskLaws is_modelled seen may_leave moment left_since };
}
