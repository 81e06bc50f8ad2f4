// A disk in memory. It keeps a record of its calls, so that it can answer for every moment.
ghost use Rattle.std.specs.Prelude.{◌≡◌, ◌↔◌, ◌++◌, [], ◌∷◌, ◌<◌, ◌+◌, ◌-◌, ◌≤◌, ℕ, min, true, IsTrue, List, Some, length, replicate, take, drop, ◌^◌, IsOk, IsErr, IfOk, OnOk, OnErr, IsErrOf, is_ok};
ghost use Rattle.std.specs.Option.{IfSome};
ghost use Rattle.disk_model.specs.Files.{image_of};
ghost use Rattle.disk_model.specs.Record.{Recorded, Kept, seen_after};
ghost use Rattle.nuc_base.specs.Faults.{HasCause, Rose};

use crate::disk::{Disk, DiskFault, ListFault};
use crate::files::Files;
use crate::image::replay;
use crate::record::Call;
use nuc_base::{Bytes, FileName, List, NoMemory};
use std::alloc::Global;

/// A disk in memory, which tells everything. It fails only for want of memory, or of room where it was made with so much,
/// and counts that.
///
/// It keeps a record of every call that changed a file or made it stable. A crash may leave, of each file, what the
/// calls since its last `sync` allow: see `MemoryDisk::image`.
#[derive(Drop)]
pub struct MemoryDisk {
    alloc: Global,
    start: Files,
    files: Files,
    calls: Vec<Call>,
    faults: u64,
    /// How many bytes all files together may have.
    room: u64,
    shortages: u64,
    has_writer: bool,
    ghost cached: { (name : List ℕ) → image_of files name ≡ seen_after calls.items (image_of start) name },
}

impl MemoryDisk {
    ghost use Rattle.disk_model.specs.Disk.{Settled};
    ghost use Rattle.disk_model.specs.Images.{picked_by};
    ghost use Rattle.disk_model.specs.Memory.{seen_by, left_by, faults_by, shortages_by, room_by, used_by, writer_by, HasRoomTo, Unchanged};

    /// A disk without files.
    pub fn new(alloc: Global) -> MemoryDisk
        ensures empty { (name : List ℕ) → seen_by result name ≡ [] }
        ensures settled { (name : List ℕ) → Settled (left_by result) name [] }
        ensures faults { faults_by result ≡ 0 }
    {
        MemoryDisk {
            alloc,
            start: Files::new(alloc),
            files: Files::new(alloc),
            calls: Vec::new(alloc),
            faults: 0,
            room: u64::MAX,
            shortages: 0,
            has_writer: false,
        }
    }

    /// The disk with room for so many bytes of all files together. It fails where a write would take more.
    pub fn with_room(self, room: u64) -> MemoryDisk
        ensures same { Unchanged self result }
        ensures room { room_by result ≡ room }
        ensures faults { faults_by result ≡ faults_by self }
    {
        let mut disk = self;
        disk.room = room;
        disk
    }

    /// From now on another program holds the lock of the writers, or none.
    pub fn set_writer(&mut self, has_writer: bool)
        ensures same { Unchanged self.old self.new }
        ensures writer { writer_by self.new ≡ Some has_writer }
        ensures faults { faults_by self.new ≡ faults_by self.old }
    {
        self.has_writer = has_writer;
    }

    /// How many bytes all files together have.
    pub fn used(&self) -> u64
        ensures { result ≡ min (used_by self.now) (2 ^ 64 - 1) }
    {
        self.files.size()
    }

    /// A disk that holds these files, all of them stable.
    fn holding(alloc: Global, files: Files) -> Result<MemoryDisk, NoMemory>
        ensures holds { IfOk result (λ d. (name : List ℕ) → seen_by d name ≡ image_of files name) }
        ensures settled { IfOk result (λ d. (name : List ℕ) → Settled (left_by d) name (seen_by d name)) }
        ensures faults { IfOk result (λ d. faults_by d ≡ 0) }
    {
        Ok(MemoryDisk {
            alloc,
            start: files.copy(alloc)?,
            files,
            calls: Vec::new(alloc),
            faults: 0,
            room: u64::MAX,
            shortages: 0,
            has_writer: false,
        })
    }

    /// A disk that holds what the files read as.
    pub(crate) fn kept(&self, alloc: Global) -> Result<MemoryDisk, NoMemory>
        ensures holds { IfOk result (λ d. (name : List ℕ) → seen_by d name ≡ seen_by self.now name) }
        ensures settled { IfOk result (λ d. (name : List ℕ) → Settled (left_by d) name (seen_by d name)) }
        ensures faults { IfOk result (λ d. faults_by d ≡ 0) }
    {
        MemoryDisk::holding(alloc, self.files.copy(alloc)?)
    }

    /// A disk that holds the files after the recorded calls, where the writes that are not stable are lost, or fill
    /// their range with one byte.
    pub(crate) fn replayed(&self, alloc: Global, fill: Option<u8>) -> Result<MemoryDisk, NoMemory>
        ensures holds { IfOk result (λ d. (name : List ℕ) → seen_by d name ≡ picked_by fill self.now name) }
        ensures settled { IfOk result (λ d. (name : List ℕ) → Settled (left_by d) name (seen_by d name)) }
        ensures faults { IfOk result (λ d. faults_by d ≡ 0) }
    {
        MemoryDisk::holding(alloc, replay(alloc, &self.start, &self.calls, fill)?)
    }

    /// Whether there is room to write these bytes at that place of the file.
    fn has_room_for(&self, file: &str, at: u64, bytes: &[u8]) -> bool
        requires { at ≤ length (seen_by self.now file.now) }
        ensures { IsTrue result ↔ HasRoomTo self.now file.now (at + length bytes.now) }
    {
        let length = self.file(file).len() as u64;
        let end = at + bytes.len() as u64;
        end <= length || self.used().saturating_add(end - length) <= self.room
    }

    /// What the file of this name reads as.
    pub fn file(&self, name: &str) -> &[u8]
        ensures { result.now ≡ seen_by self.now name.now }
    {
        self.files.get(name)
    }
}

impl Disk for MemoryDisk {
    ghost use Rattle.disk_model.specs.Disk.{IsPutAt, Torn, Cut, Lengthened, Step, IsAfter, Settled, HasLeft};
    ghost use Rattle.disk_model.specs.Listing.{artifacts, IsListing};
    ghost use Rattle.disk_model.specs.Memory.{seen_by, left_by, left_since_by, moment_by, faults_by, shortages_by, writer_by, Changed, Stable, Unchanged, HasRoomTo, IsZeroedTo};
    ghost use Rattle.disk_model.specs.Laws.MemoryLaws.{memory_laws};

    ghost is_modelled = { true };

    ghost seen = { seen_by };

    ghost may_leave = { left_by };

    ghost moment = { moment_by };

    ghost left_since = { left_since_by };

    ghost faults = { faults_by };

    ghost shortages = { shortages_by };

    ghost writer = { writer_by };

    ghost laws = { memory_laws };

    fn length(&mut self, file: &str) -> Result<u64, DiskFault>
        ensures works { IsOk result }
        ensures same { self.new ≡ self.old }
        ensures told { IfOk result (λ n. n ≡ length (seen_by self.old file.now)) }
        ensures seen { seen_by self.new ≡ seen_by self.old }
        ensures moments { HasLeft moment_by left_since_by self.old self.new (left_by self.old) }
        ensures room { shortages_by self.new ≡ shortages_by self.old }
        ensures cause { HasCause (faults_by self.old) (faults_by self.new) result }
        ensures quiet { OnOk result (faults_by self.new ≡ faults_by self.old) }
    {
        Ok(self.file(file).len() as u64)
    }

    fn read(&mut self, file: &str, at: u64, into: &mut [u8]) -> Result<usize, DiskFault>
        ensures works { IsOk result }
        ensures same { self.new ≡ self.old }
        ensures bound { IfOk result (λ n. n ≤ length into.old) }
        ensures told { IfOk result (λ n.
            (n ≡ min (length into.old) (length (drop at (seen_by self.old file.now))))
            × (into.new ≡ take n (drop at (seen_by self.old file.now)) ++ drop n into.old)) }
        ensures seen { seen_by self.new ≡ seen_by self.old }
        ensures moments { HasLeft moment_by left_since_by self.old self.new (left_by self.old) }
        ensures room { shortages_by self.new ≡ shortages_by self.old }
        ensures cause { HasCause (faults_by self.old) (faults_by self.new) result }
        ensures quiet { OnOk result (faults_by self.new ≡ faults_by self.old) }
    {
        let bytes = self.file(file);
        if at >= bytes.len() as u64 {
            return Ok(0);
        }
        let rest = &bytes[at as usize..];
        let n = into.len().min(rest.len());
        into[..n].copy_from_slice(&rest[..n]);
        Ok(n)
    }

    fn write_at(&mut self, file: &str, at: u64, bytes: &[u8]) -> Result<(), DiskFault>
        requires { at ≤ length (seen_by self.old file.now) }
        ensures ok { OnOk result (Changed file.now (IsPutAt at bytes.now) (Torn at (length bytes.now)) self.old self.new) }
        ensures err { OnErr result (Unchanged self.old self.new) }
        ensures told { Step file.now (λ old new. OnOk result (IsPutAt at bytes.now old new)) (seen_by self.old) (seen_by self.new) }
        ensures moments { HasLeft moment_by left_since_by self.old self.new (IsAfter (left_by self.old) (Step file.now (Torn at (length bytes.now)))) }
        ensures room { at + length bytes.now ≤ length (seen_by self.old file.now) → shortages_by self.new ≡ shortages_by self.old }
        // It runs short exactly where it would go beyond its room.
        ensures fits { HasRoomTo self.old file.now (at + length bytes.now) → shortages_by self.new ≡ shortages_by self.old }
        ensures short { ¬ (HasRoomTo self.old file.now (at + length bytes.now)) → IsErr result × Rose (shortages_by self.old) (shortages_by self.new) }
        ensures cause { HasCause (faults_by self.old) (faults_by self.new) result }
        ensures quiet { OnOk result (faults_by self.new ≡ faults_by self.old) }
    {
        if !self.has_room_for(file, at, bytes) {
            self.shortages = self.shortages.saturating_add(1);
            return counted(Err(NoMemory), &mut self.faults);
        }
        let done = write(
            self.alloc,
            &mut self.files,
            &mut self.calls,
            file,
            at as usize,
            bytes,
        );
        counted(done, &mut self.faults)
    }

    fn reserve(&mut self, file: &str, to: u64) -> Result<(), DiskFault>
        ensures ok { OnOk result (Step file.now (IsZeroedTo to) (seen_by self.old) (seen_by self.new)) }
        ensures err { OnErr result (Unchanged self.old self.new) }
        ensures told { Step file.now (λ old new. Lengthened to old new × OnOk result (to ≤ length new)) (seen_by self.old) (seen_by self.new) }
        ensures moments { HasLeft moment_by left_since_by self.old self.new (IsAfter (left_by self.old)
            (Step file.now (Torn (length (seen_by self.old file.now)) (to - length (seen_by self.old file.now))))) }
        ensures cause { HasCause (faults_by self.old) (faults_by self.new) result }
        ensures quiet { OnOk result (faults_by self.new ≡ faults_by self.old) }
    {
        let length = self.file(file).len() as u64;
        if to <= length {
            return Ok(());
        }
        match zeros(self.alloc, (to - length) as usize) {
            Ok(zeros) => self.write_at(file, length, &zeros),
            Err(refused) => counted(Err(refused), &mut self.faults),
        }
    }

    fn cut(&mut self, file: &str, len: u64) -> Result<(), DiskFault>
        ensures ok { OnOk result (Changed file.now (λ old new. new ≡ take len old) (Cut len) self.old self.new) }
        ensures err { OnErr result (Unchanged self.old self.new) }
        ensures told { Step file.now (λ old new. OnOk result (new ≡ take len old)) (seen_by self.old) (seen_by self.new) }
        ensures moments { HasLeft moment_by left_since_by self.old self.new (IsAfter (left_by self.old) (Step file.now (Cut len))) }
        ensures room { shortages_by self.new ≡ shortages_by self.old }
        ensures cause { HasCause (faults_by self.old) (faults_by self.new) result }
        ensures quiet { OnOk result (faults_by self.new ≡ faults_by self.old) }
    {
        let done = cut(
            self.alloc,
            &mut self.files,
            &mut self.calls,
            file,
            len as usize,
        );
        counted(done, &mut self.faults)
    }

    fn sync(&mut self, file: &str) -> Result<(), DiskFault>
        ensures ok { OnOk result (Stable file.now self.old self.new) }
        ensures err { OnErr result (Unchanged self.old self.new) }
        ensures durable { OnOk result (Settled (left_by self.new) file.now (seen_by self.new file.now)) }
        ensures seen { seen_by self.new ≡ seen_by self.old }
        ensures moments { HasLeft moment_by left_since_by self.old self.new (left_by self.old) }
        ensures room { shortages_by self.new ≡ shortages_by self.old }
        ensures cause { HasCause (faults_by self.old) (faults_by self.new) result }
        ensures quiet { OnOk result (faults_by self.new ≡ faults_by self.old) }
    {
        let done = sync(self.alloc, &mut self.calls, file);
        counted(done, &mut self.faults)
    }

    fn remove(&mut self, file: &str) -> Result<(), DiskFault>
        ensures ok { OnOk result (Changed file.now (λ _ new. new ≡ []) (Cut 0) self.old self.new) }
        ensures err { OnErr result (Unchanged self.old self.new) }
        ensures told { Step file.now (λ _ new. OnOk result (new ≡ [])) (seen_by self.old) (seen_by self.new) }
        ensures moments { HasLeft moment_by left_since_by self.old self.new (IsAfter (left_by self.old) (Step file.now (Cut 0))) }
        ensures room { shortages_by self.new ≡ shortages_by self.old }
        ensures cause { HasCause (faults_by self.old) (faults_by self.new) result }
        ensures quiet { OnOk result (faults_by self.new ≡ faults_by self.old) }
    {
        let done = cut(self.alloc, &mut self.files, &mut self.calls, file, 0);
        counted(done, &mut self.faults)
    }

    fn list(&mut self, alloc: Global) -> Result<List<FileName>, ListFault>
        ensures works { IsErrOf result ListFault.Disk → ⊥ }
        ensures same { self.new ≡ self.old }
        ensures told { IfOk result (λ names. IsListing artifacts (seen_by self.old) names) }
        ensures seen { seen_by self.new ≡ seen_by self.old }
        ensures moments { HasLeft moment_by left_since_by self.old self.new (left_by self.old) }
        ensures room { shortages_by self.new ≡ shortages_by self.old }
        ensures later { faults_by self.old ≤ faults_by self.new }
        ensures quiet { ¬ (IsErrOf result ListFault.Disk) → faults_by self.new ≡ faults_by self.old }
    {
        Ok(self.files.listed(alloc, ARTIFACTS)?)
    }

    fn has_writer(&mut self) -> bool
        ensures told { IfSome (writer_by self.old) (λ writer. result ≡ writer) }
        ensures same { self.new ≡ self.old }
        ensures seen { seen_by self.new ≡ seen_by self.old }
        ensures moments { HasLeft moment_by left_since_by self.old self.new (left_by self.old) }
        ensures room { shortages_by self.new ≡ shortages_by self.old }
        ensures quiet { faults_by self.new ≡ faults_by self.old }
    {
        self.has_writer
    }
}

/// The folder of the artifacts.
const ARTIFACTS: &str = "packages/artifacts/";

/// So many zeros.
fn zeros(alloc: Global, count: usize) -> Result<Vec<u8>, NoMemory>
    ensures { IfOk result (λ zeros. zeros.items ≡ replicate count 0) }
{
    Ok(vec![in alloc; 0u8; count]?)
}

/// Writes, and records it.
fn write(
    alloc: Global,
    files: &mut Files,
    calls: &mut Vec<Call>,
    file: &str,
    at: usize,
    bytes: &[u8],
) -> Result<(), NoMemory>
    ensures ok { OnOk result (Recorded (Call.Write file.now at bytes.now) (image_of files.old) (image_of files.new) calls.old.items calls.new.items) }
    ensures err { OnErr result (Kept (image_of files.old) (image_of files.new) calls.old.items calls.new.items) }
{
    let call = Call::Write(
        FileName::from_str(alloc, file)?,
        at,
        Bytes::from_slice(alloc, bytes)?,
    );
    calls.reserve(1)?;
    files.write(alloc, file, at, bytes)?;
    calls.push_reserved(call);
    Ok(())
}

/// Cuts, and records it.
fn cut(
    alloc: Global,
    files: &mut Files,
    calls: &mut Vec<Call>,
    file: &str,
    len: usize,
) -> Result<(), NoMemory>
    ensures ok { OnOk result (Recorded (Call.Cut file.now len) (image_of files.old) (image_of files.new) calls.old.items calls.new.items) }
    ensures err { OnErr result (Kept (image_of files.old) (image_of files.new) calls.old.items calls.new.items) }
{
    calls.push(Call::Cut(FileName::from_str(alloc, file)?, len))?;
    files.cut(file, len);
    Ok(())
}

/// Records that a file is stable.
fn sync(alloc: Global, calls: &mut Vec<Call>, file: &str) -> Result<(), NoMemory>
    ensures ok { OnOk result (calls.new.items ≡ calls.old.items ++ Call.Sync file.now ∷ []) }
    ensures err { OnErr result (calls.new.items ≡ calls.old.items) }
{
    calls.push(Call::Sync(FileName::from_str(alloc, file)?))?;
    Ok(())
}

/// The answer of a call, whose failure is counted.
fn counted(done: Result<(), NoMemory>, faults: &mut u64) -> Result<(), DiskFault>
    ensures variant { is_ok result ≡ is_ok done }
    ensures cause { HasCause faults.old faults.new result }
    ensures quiet { OnOk result (faults.new ≡ faults.old) }
{
    if done.is_err() {
        *faults = faults.saturating_add(1);
        return Err(DiskFault);
    }
    Ok(())
}
