// The command `audit`.
ghost use Rattle.std.specs.Prelude.{◌≡◌, ◌≢◌, ◌≤◌, ◌++◌, ◌∷◌, [], ℕ, List, IfOk};
ghost use Rattle.disk_model.specs.Disk.{HasLeft};
ghost use Rattle.disk_model.specs.Listing.{artifacts};
ghost use Rattle.nuc_base.specs.Faults.{Rose};
ghost use Rattle.command_words.specs.declared.order.Order.TheVariants as order;
ghost use Rattle.device.specs.Devices.{device_view};
ghost use Rattle.status_text.specs.Status.{line};
ghost use Rattle.nucleus_top.specs.Answers.{store_over};
ghost use Rattle.nucleus_top.specs.Audits.{AuditAnswer, ComparisonAnswer, differs_line};
ghost use Rattle.nucleus_top.specs.Leaving.{IsDurableIfDone};

use crate::answer::Answer;
use crate::opening::{HasDevice, open, refused};
use artifact_store::AuditFault;
use device::Device;
use disk_model::Disk;
use nuc_base::{FileName, NoMemory, Text};
use status_text::put_line;
use std::alloc::Global;

/// The file without the folder of the artifacts.
fn shown(file: &FileName) -> &str
    ensures { (rest : List ℕ) → file.now ≡ artifacts ++ rest → result.now ≡ rest }
{
    let name = file.as_str();
    match name.strip_prefix("packages/artifacts/") {
        Some(rest) => rest,
        None => name,
    }
}

/// A line of a word and two more.
fn paired<'a>(alloc: Global, word: &str, first: &'a str, second: &'a str) -> Result<Text, NoMemory>
    ensures { IfOk result (λ text. text ≡ line word.now (first.now ∷ second.now ∷ [])) }
{
    let mut out = Text::empty(alloc);
    put_line(&mut out, word, &[first, second])?;
    Ok(out)
}

/// The line of a file of an artifact that has this digest.
fn differs_text(alloc: Global, file: &FileName, digest: &[u8; 32]) -> Result<Text, NoMemory>
    ensures { IfOk result (λ text. (rest : List ℕ) → file.now ≡ artifacts ++ rest → text ≡ differs_line rest digest.now) }
{
    let digits = hex::encode(alloc, digest.as_slice())?;
    paired(alloc, "refused 20 Differs", shown(file), digits.as_str())
}

/// Compares the files of the device's artifacts with their digests.
fn compare<D: Disk>(alloc: Global, disk: &mut D, device: &Device) -> Answer
    ensures comes { ComparisonAnswer D.is_modelled (D.seen disk.old) (device_view device.now) result }
    ensures seen { D.seen disk.new ≡ D.seen disk.old }
    ensures moments { HasLeft D.moment D.left_since disk.old disk.new (D.may_leave disk.old) }
    ensures cause { result ≡ Answer.DiskFailed → Rose (D.faults disk.old) (D.faults disk.new) }
    ensures quiet { result ≢ Answer.DiskFailed → D.faults disk.new ≡ D.faults disk.old }
    ensures later { D.faults disk.old ≤ D.faults disk.new }
{
    let (file, digest) = match artifact_store::audit(alloc, disk, device) {
        Ok(None) => return Answer::Whole,
        Ok(Some(found)) => found,
        Err(AuditFault::Disk) => return Answer::DiskFailed,
        Err(AuditFault::NoMemory) => return Answer::NoMemory,
    };
    match differs_text(alloc, &file, &digest) {
        Ok(text) => Answer::Differs(text),
        Err(_) => Answer::NoMemory,
    }
}

/// The same of a state's device.
fn compare_stored<D: Disk, S: HasDevice + Drop>(alloc: Global, disk: &mut D, state: S) -> Answer
    ensures comes { ComparisonAnswer D.is_modelled (D.seen disk.old) (S.stands_for state) result }
    ensures seen { D.seen disk.new ≡ D.seen disk.old }
    ensures moments { HasLeft D.moment D.left_since disk.old disk.new (D.may_leave disk.old) }
    ensures cause { result ≡ Answer.DiskFailed → Rose (D.faults disk.old) (D.faults disk.new) }
    ensures quiet { result ≢ Answer.DiskFailed → D.faults disk.new ≡ D.faults disk.old }
    ensures later { D.faults disk.old ≤ D.faults disk.new }
{
    compare(alloc, disk, state.stored())
}

/// Compares the files of the artifacts of the device for which the journal stands, those of its set and of its pending
/// plan, with the digests that are kept. It writes nothing to the disk.
pub fn audit<D: Disk>(alloc: Global, disk: &mut D) -> Answer
    ensures comes { AuditAnswer (store_over D.Disk disk.old disk.new) result }
    ensures moments { HasLeft D.moment D.left_since disk.old disk.new (D.may_leave disk.old) }
    ensures keeps { IsDurableIfDone order.Audit (D.may_leave disk.new) (D.seen disk.new) result }
    ensures seen { D.seen disk.new ≡ D.seen disk.old }
    ensures quiet { result ≢ Answer.DiskFailed → D.faults disk.new ≡ D.faults disk.old }
    ensures later { D.faults disk.old ≤ D.faults disk.new }
{
    match open(alloc, disk) {
        Ok(state) => compare_stored(alloc, disk, state),
        Err(fault) => refused(alloc, fault),
    }
}
