// The images that a crash may leave of a disk in memory.
ghost use Rattle.std.specs.Prelude.{◌≡◌, ◌++◌, [], ◌∷◌, ◌≤◌, ℕ, List, length, IfOk, OnOk, OnErr};
ghost use Rattle.disk_model.specs.Files.{image_of};
ghost use Rattle.disk_model.specs.Picked.{filled, picked_step, picked_after};
ghost use Rattle.disk_model.specs.Record.{seen_step};

use crate::files::Files;
use crate::memory::MemoryDisk;
use crate::record::Call;
use nuc_base::NoMemory;
use std::alloc::Global;

/// One of the images that a crash may leave.
#[derive(Clone, Copy, Debug, Drop, PartialEq, Eq)]
pub enum Pick {
    /// Every change since the last `sync` of its file is lost.
    Old,
    /// Every change is kept.
    New,
    /// Every byte that is not stable is this one, and each file has the greatest length that it had.
    Fill(u8),
}

impl MemoryDisk {
    ghost use Rattle.disk_model.specs.Disk.{Settled};
    ghost use Rattle.disk_model.specs.Images.{unsynced_of, PickedAs};
    ghost use Rattle.disk_model.specs.Memory.{seen_by, left_by, faults_by};

    /// A disk that holds one of the images that a crash at this moment may leave, all of it stable.
    pub fn image(&self, alloc: Global, pick: Pick) -> Result<MemoryDisk, NoMemory>
        ensures left { IfOk result (λ d. left_by self.now (seen_by d)) }
        ensures picked { IfOk result (λ d. (name : List ℕ) → PickedAs pick (unsynced_of self.now name) (seen_by self.now name) (seen_by d name)) }
        ensures settled { IfOk result (λ d. (name : List ℕ) → Settled (left_by d) name (seen_by d name)) }
        ensures faults { IfOk result (λ d. faults_by d ≡ 0) }
    {
        match pick {
            Pick::Old => self.replayed(alloc, None),
            Pick::New => self.kept(alloc),
            Pick::Fill(byte) => self.replayed(alloc, Some(byte)),
        }
    }
}

/// The files after these calls, where the writes that are not stable are lost, or fill their range with one byte.
pub fn replay(
    alloc: Global,
    start: &Files,
    calls: &[Call],
    fill: Option<u8>,
) -> Result<Files, NoMemory>
    ensures { IfOk result (λ f. (name : List ℕ) → image_of f name ≡ picked_after fill calls.now (image_of start.now) (image_of start.now) name) }
{
    let mut seen = start.copy(alloc)?;
    let mut image = start.copy(alloc)?;
    for call in calls {
        pick_on(alloc, call, fill, &seen, &mut image)?;
        step_on(alloc, call, &mut seen)?;
    }
    Ok(image)
}

/// What the call makes of the image, where this is what is read before it.
fn pick_on(
    alloc: Global,
    call: &Call,
    fill: Option<u8>,
    seen: &Files,
    image: &mut Files,
) -> Result<(), NoMemory>
    ensures { OnOk result ((name : List ℕ) → image_of image.new name ≡ picked_step fill call.now (image_of seen.now) (image_of image.old) name) }
{
    match call {
        Call::Write(file, at, bytes) => {
            let place = (*at).min(seen.get(file.as_str()).len());
            fill_on(alloc, fill, file.as_str(), place, bytes.len(), image)
        }
        Call::Cut(_, _) => Ok(()),
        Call::Sync(file) => {
            let bytes = seen.get(file.as_str()).to_vec(alloc)?;
            image.set(alloc, file.as_str(), bytes)
        }
    }
}

/// Fills a range of the file with the byte, if there is one.
fn fill_on(
    alloc: Global,
    fill: Option<u8>,
    file: &str,
    at: usize,
    len: usize,
    image: &mut Files,
) -> Result<(), NoMemory>
    ensures { OnOk result ((name : List ℕ) → image_of image.new name ≡ filled fill file.now at len (image_of image.old) name) }
{
    match fill {
        Some(byte) => {
            let bytes = vec![in alloc; byte; len]?;
            image.write(alloc, file, at, &bytes)
        }
        None => Ok(()),
    }
}

/// What the call makes of what is read.
fn step_on(alloc: Global, call: &Call, seen: &mut Files) -> Result<(), NoMemory>
    ensures { OnOk result ((name : List ℕ) → image_of seen.new name ≡ seen_step call.now (image_of seen.old) name) }
{
    match call {
        Call::Write(file, at, bytes) => seen.write(alloc, file.as_str(), *at, bytes.as_slice()),
        Call::Cut(file, len) => {
            seen.cut(file.as_str(), *len);
            Ok(())
        }
        Call::Sync(_) => Ok(()),
    }
}
