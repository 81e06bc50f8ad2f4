// A disk that stops after so many calls, and fails those that it was told to fail.
ghost use Rattle.std.specs.Option.{IfSome};
ghost use Rattle.std.specs.Prelude.{◌≡◌, ◌⊎◌, ◌++◌, [], ◌+◌, ◌-◌, ◌≤◌, ◌/◌, ℕ, min, true, length, take, drop, IsErr, IfOk, OnOk, OnErr, IsErrOf};
ghost use Rattle.nuc_base.specs.Faults.{HasCause, Rose};

use crate::disk::{Disk, DiskFault, ListFault};
use crate::fuse::Fuse;
use crate::half::{cut_half, reserve_half};
use crate::memory::MemoryDisk;
use nuc_base::{FileName, List};
use std::alloc::Global;

/// A disk in memory that fails the calls that it was told to fail, and all from one on. Calls are counted from 0.
///
/// A failing write writes the first half of its bytes, rounded down. A failing cut or removal cuts the file to the
/// middle between its old length and the asked one, rounded up; for a removal the asked one is 0. A failing call for room
/// makes half of what is missing, rounded down. Nothing of this is stable. The question for a writer is not counted.
#[derive(Drop)]
pub struct FusedDisk {
    disk: MemoryDisk,
    fuse: Fuse,
}

impl FusedDisk {
    ghost use Rattle.disk_model.specs.Fused.{inside, fuse_of};

    /// Call number `stop_after` and all later ones fail, and so does each call whose number is in `failing`.
    pub fn new(disk: MemoryDisk, stop_after: u64, failing: List<u64>) -> FusedDisk
        ensures inside { inside result ≡ disk }
        ensures fuse { fuse_of result ≡ record { stop_after = stop_after; failing = failing; calls = 0; faults = 0 } }
    {
        FusedDisk {
            disk,
            fuse: Fuse {
                stop_after,
                failing,
                calls: 0,
                faults: 0,
            },
        }
    }

    /// The disk inside.
    pub fn disk(&self) -> &MemoryDisk
        ensures { result.now ≡ inside self.now }
    {
        &self.disk
    }
}

impl Disk for FusedDisk {
    ghost use Rattle.disk_model.specs.Disk.{IsPutAt, Torn, Cut, Lengthened, Step, IsAfter, Settled, HasLeft};
    ghost use Rattle.disk_model.specs.Fuse.{IsCounted, half_way, middle};
    ghost use Rattle.disk_model.specs.Fused.{inside, fuse_of, IsDue, InsideFailed, fused_seen, fused_left, fused_left_since, fused_moment, fused_faults, fused_shortages, fused_writer};
    ghost use Rattle.disk_model.specs.Laws.Inside.{laws_inside};
    ghost use Rattle.disk_model.specs.Listing.{artifacts, IsListing};
    ghost use Rattle.disk_model.specs.Memory.{Changed, Stable, IsZeroedTo};
    ghost use Rattle.disk_model.specs.Laws.MemoryLaws.{memory_laws};

    ghost is_modelled = { true };

    ghost seen = { fused_seen };

    ghost may_leave = { fused_left };

    ghost moment = { fused_moment };

    ghost left_since = { fused_left_since };

    ghost faults = { fused_faults };

    ghost shortages = { fused_shortages };

    ghost writer = { fused_writer };

    ghost laws = { laws_inside inside memory_laws };

    fn length(&mut self, file: &str) -> Result<u64, DiskFault>
        ensures due { IsDue self.old → IsErr result }
        ensures only { OnErr result (IsDue self.old) }
        ensures counted { IsCounted (fuse_of self.old) (fuse_of self.new) }
        ensures same { inside self.new ≡ inside self.old }
        ensures told { IfOk result (λ n. n ≡ length (fused_seen self.old file.now)) }
        ensures seen { fused_seen self.new ≡ fused_seen self.old }
        ensures moments { HasLeft fused_moment fused_left_since self.old self.new (fused_left self.old) }
        ensures room { fused_shortages self.new ≡ fused_shortages self.old }
        ensures cause { HasCause (fused_faults self.old) (fused_faults self.new) result }
        ensures quiet { OnOk result (fused_faults self.new ≡ fused_faults self.old) }
    {
        if self.fuse.blows() {
            return Err(self.fuse.fault());
        }
        self.fuse.pass(self.disk.length(file))
    }

    fn read(&mut self, file: &str, at: u64, into: &mut [u8]) -> Result<usize, DiskFault>
        ensures due { IsDue self.old → IsErr result }
        ensures only { OnErr result (IsDue self.old) }
        ensures counted { IsCounted (fuse_of self.old) (fuse_of self.new) }
        ensures same { inside self.new ≡ inside self.old }
        ensures bound { IfOk result (λ n. n ≤ length into.old) }
        ensures told { IfOk result (λ n.
            (n ≡ min (length into.old) (length (drop at (fused_seen self.old file.now))))
            × (into.new ≡ take n (drop at (fused_seen self.old file.now)) ++ drop n into.old)) }
        ensures untouched { OnErr result (into.new ≡ into.old) }
        ensures seen { fused_seen self.new ≡ fused_seen self.old }
        ensures moments { HasLeft fused_moment fused_left_since self.old self.new (fused_left self.old) }
        ensures room { fused_shortages self.new ≡ fused_shortages self.old }
        ensures cause { HasCause (fused_faults self.old) (fused_faults self.new) result }
        ensures quiet { OnOk result (fused_faults self.new ≡ fused_faults self.old) }
    {
        if self.fuse.blows() {
            return Err(self.fuse.fault());
        }
        self.fuse.pass(self.disk.read(file, at, into))
    }

    fn write_at(&mut self, file: &str, at: u64, bytes: &[u8]) -> Result<(), DiskFault>
        requires { at ≤ length (fused_seen self.old file.now) }
        ensures due { IsDue self.old → IsErr result }
        ensures only { OnErr result (IsDue self.old ⊎ InsideFailed self.old self.new) }
        ensures counted { IsCounted (fuse_of self.old) (fuse_of self.new) }
        ensures ok { OnOk result (Changed file.now (IsPutAt at bytes.now) (Torn at (length bytes.now)) (inside self.old) (inside self.new)) }
        // A failing write leaves the first half of its bytes, and nothing of that is stable.
        ensures half { IsDue self.old → ¬ (InsideFailed self.old self.new) →
            Changed file.now (IsPutAt at (take (length bytes.now / 2) bytes.now)) (Torn at (length bytes.now / 2)) (inside self.old) (inside self.new) }
        ensures told { Step file.now (λ old new. OnOk result (IsPutAt at bytes.now old new)) (fused_seen self.old) (fused_seen self.new) }
        ensures moments { HasLeft fused_moment fused_left_since self.old self.new (IsAfter (fused_left self.old) (Step file.now (Torn at (length bytes.now)))) }
        ensures room { at + length bytes.now ≤ length (fused_seen self.old file.now) → fused_shortages self.new ≡ fused_shortages self.old }
        ensures cause { HasCause (fused_faults self.old) (fused_faults self.new) result }
        ensures quiet { OnOk result (fused_faults self.new ≡ fused_faults self.old) }
    {
        if self.fuse.blows() {
            let _half = self.disk.write_at(file, at, &bytes[..bytes.len() / 2]);
            return Err(self.fuse.fault());
        }
        self.fuse.pass(self.disk.write_at(file, at, bytes))
    }

    fn reserve(&mut self, file: &str, to: u64) -> Result<(), DiskFault>
        ensures due { IsDue self.old → IsErr result }
        ensures only { OnErr result (IsDue self.old ⊎ InsideFailed self.old self.new) }
        ensures counted { IsCounted (fuse_of self.old) (fuse_of self.new) }
        ensures ok { OnOk result (Step file.now (IsZeroedTo to) (fused_seen self.old) (fused_seen self.new)) }
        // A failing one makes half of the room that is missing, and nothing of that is stable.
        ensures half { IsDue self.old → ¬ (InsideFailed self.old self.new) →
            Step file.now (IsZeroedTo (half_way (length (fused_seen self.old file.now)) to)) (fused_seen self.old) (fused_seen self.new) }
        ensures told { Step file.now (λ old new. Lengthened to old new × OnOk result (to ≤ length new)) (fused_seen self.old) (fused_seen self.new) }
        ensures moments { HasLeft fused_moment fused_left_since self.old self.new (IsAfter (fused_left self.old)
            (Step file.now (Torn (length (fused_seen self.old file.now)) (to - length (fused_seen self.old file.now))))) }
        ensures cause { HasCause (fused_faults self.old) (fused_faults self.new) result }
        ensures quiet { OnOk result (fused_faults self.new ≡ fused_faults self.old) }
    {
        if self.fuse.blows() {
            let _half = reserve_half(&mut self.disk, file, to);
            return Err(self.fuse.fault());
        }
        self.fuse.pass(self.disk.reserve(file, to))
    }

    fn cut(&mut self, file: &str, len: u64) -> Result<(), DiskFault>
        requires { len ≤ length (fused_seen self.old file.now) }
        ensures due { IsDue self.old → IsErr result }
        ensures only { OnErr result (IsDue self.old ⊎ InsideFailed self.old self.new) }
        ensures counted { IsCounted (fuse_of self.old) (fuse_of self.new) }
        ensures ok { OnOk result (Changed file.now (λ old new. new ≡ take len old) (Cut len) (inside self.old) (inside self.new)) }
        // A failing cut goes half way, and nothing of that is stable.
        ensures half { IsDue self.old → ¬ (InsideFailed self.old self.new) → let reached = middle (length (fused_seen self.old file.now)) len in
            Changed file.now (λ old new. new ≡ take reached old) (Cut reached) (inside self.old) (inside self.new) }
        ensures told { Step file.now (λ old new. OnOk result (new ≡ take len old)) (fused_seen self.old) (fused_seen self.new) }
        ensures moments { HasLeft fused_moment fused_left_since self.old self.new (IsAfter (fused_left self.old) (Step file.now (Cut len))) }
        ensures room { fused_shortages self.new ≡ fused_shortages self.old }
        ensures cause { HasCause (fused_faults self.old) (fused_faults self.new) result }
        ensures quiet { OnOk result (fused_faults self.new ≡ fused_faults self.old) }
    {
        if self.fuse.blows() {
            let _half = cut_half(&mut self.disk, file, len);
            return Err(self.fuse.fault());
        }
        self.fuse.pass(self.disk.cut(file, len))
    }

    fn sync(&mut self, file: &str) -> Result<(), DiskFault>
        ensures due { IsDue self.old → IsErr result }
        ensures only { OnErr result (IsDue self.old ⊎ InsideFailed self.old self.new) }
        ensures counted { IsCounted (fuse_of self.old) (fuse_of self.new) }
        ensures ok { OnOk result (Stable file.now (inside self.old) (inside self.new)) }
        ensures none { IsDue self.old → inside self.new ≡ inside self.old }
        ensures durable { OnOk result (Settled (fused_left self.new) file.now (fused_seen self.new file.now)) }
        ensures seen { fused_seen self.new ≡ fused_seen self.old }
        ensures moments { HasLeft fused_moment fused_left_since self.old self.new (fused_left self.old) }
        ensures room { fused_shortages self.new ≡ fused_shortages self.old }
        ensures cause { HasCause (fused_faults self.old) (fused_faults self.new) result }
        ensures quiet { OnOk result (fused_faults self.new ≡ fused_faults self.old) }
    {
        if self.fuse.blows() {
            return Err(self.fuse.fault());
        }
        self.fuse.pass(self.disk.sync(file))
    }

    fn remove(&mut self, file: &str) -> Result<(), DiskFault>
        ensures due { IsDue self.old → IsErr result }
        ensures only { OnErr result (IsDue self.old ⊎ InsideFailed self.old self.new) }
        ensures counted { IsCounted (fuse_of self.old) (fuse_of self.new) }
        ensures ok { OnOk result (Changed file.now (λ _ new. new ≡ []) (Cut 0) (inside self.old) (inside self.new)) }
        // A failing removal goes half way, and nothing of that is stable.
        ensures half { IsDue self.old → ¬ (InsideFailed self.old self.new) → let reached = middle (length (fused_seen self.old file.now)) 0 in
            Changed file.now (λ old new. new ≡ take reached old) (Cut reached) (inside self.old) (inside self.new) }
        ensures told { Step file.now (λ _ new. OnOk result (new ≡ [])) (fused_seen self.old) (fused_seen self.new) }
        ensures moments { HasLeft fused_moment fused_left_since self.old self.new (IsAfter (fused_left self.old) (Step file.now (Cut 0))) }
        ensures room { fused_shortages self.new ≡ fused_shortages self.old }
        ensures cause { HasCause (fused_faults self.old) (fused_faults self.new) result }
        ensures quiet { OnOk result (fused_faults self.new ≡ fused_faults self.old) }
    {
        if self.fuse.blows() {
            let _half = cut_half(&mut self.disk, file, 0);
            return Err(self.fuse.fault());
        }
        self.fuse.pass(self.disk.remove(file))
    }

    fn list(&mut self, alloc: Global) -> Result<List<FileName>, ListFault>
        ensures due { IsDue self.old → IsErrOf result ListFault.Disk }
        ensures only { IsErrOf result ListFault.Disk → IsDue self.old }
        ensures counted { IsCounted (fuse_of self.old) (fuse_of self.new) }
        ensures same { inside self.new ≡ inside self.old }
        ensures told { IfOk result (λ names. IsListing artifacts (fused_seen self.old) names) }
        ensures seen { fused_seen self.new ≡ fused_seen self.old }
        ensures moments { HasLeft fused_moment fused_left_since self.old self.new (fused_left self.old) }
        ensures room { fused_shortages self.new ≡ fused_shortages self.old }
        ensures cause { IsErrOf result ListFault.Disk → Rose (fused_faults self.old) (fused_faults self.new) }
        ensures later { fused_faults self.old ≤ fused_faults self.new }
        ensures quiet { ¬ (IsErrOf result ListFault.Disk) → fused_faults self.new ≡ fused_faults self.old }
    {
        if self.fuse.blows() {
            return Err(self.fuse.fault().into());
        }
        self.disk.list(alloc)
    }

    fn has_writer(&mut self) -> bool
        ensures told { IfSome (fused_writer self.old) (λ writer. result ≡ writer) }
        ensures same { self.new ≡ self.old }
        ensures seen { fused_seen self.new ≡ fused_seen self.old }
        ensures moments { HasLeft fused_moment fused_left_since self.old self.new (fused_left self.old) }
        ensures room { fused_shortages self.new ≡ fused_shortages self.old }
        ensures quiet { fused_faults self.new ≡ fused_faults self.old }
    {
        self.disk.has_writer()
    }
}
