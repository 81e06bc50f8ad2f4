// What a failing call does half way.
ghost use Rattle.std.specs.Prelude.{◌≡◌, ◌≤◌, ◌-◌, ⊤, length, take, OnOk};
ghost use Rattle.nuc_base.specs.Faults.{HasCause};
ghost use Rattle.disk_model.specs.Disk.{Cut, Torn, Lengthened, Step, IsAfter, HasLeft};
ghost use Rattle.disk_model.specs.Fuse.{half_way, middle};
ghost use Rattle.disk_model.specs.Memory.{seen_by, left_by, left_since_by, moment_by, faults_by, shortages_by, Changed, IsZeroedTo};

use crate::disk::{Disk, DiskFault};
use crate::memory::MemoryDisk;

/// Cuts the file to the middle between its length and the asked one, rounded up.
pub fn cut_half(disk: &mut MemoryDisk, file: &str, len: u64) -> Result<(), DiskFault>
    requires { len ≤ length (seen_by disk.old file.now) }
    ensures ok { OnOk result (let reached = middle (length (seen_by disk.old file.now)) len in
        Changed file.now (λ old new. new ≡ take reached old) (Cut reached) disk.old disk.new) }
    ensures told { Step file.now (λ old new. ⊤) (seen_by disk.old) (seen_by disk.new) }
    ensures moments { HasLeft moment_by left_since_by disk.old disk.new (IsAfter (left_by disk.old) (Step file.now (Cut len))) }
    ensures room { shortages_by disk.new ≡ shortages_by disk.old }
    ensures cause { HasCause (faults_by disk.old) (faults_by disk.new) result }
{
    let old = disk.file(file).len() as u64;
    disk.cut(file, len + (old - len).div_ceil(2))
}

/// Makes room for half of what is asked for beyond the file's length, rounded down.
pub fn reserve_half(disk: &mut MemoryDisk, file: &str, to: u64) -> Result<(), DiskFault>
    ensures ok { OnOk result (Step file.now (IsZeroedTo (half_way (length (seen_by disk.old file.now)) to)) (seen_by disk.old) (seen_by disk.new)) }
    ensures told { Step file.now (Lengthened to) (seen_by disk.old) (seen_by disk.new) }
    ensures moments { HasLeft moment_by left_since_by disk.old disk.new (IsAfter (left_by disk.old)
        (Step file.now (Torn (length (seen_by disk.old file.now)) (to - length (seen_by disk.old file.now))))) }
    ensures cause { HasCause (faults_by disk.old) (faults_by disk.new) result }
{
    let old = disk.file(file).len() as u64;
    disk.reserve(file, old + to.saturating_sub(old) / 2)
}
