//! Comparing the files of artifacts with the digests that are kept.
ghost use Rattle.std.specs.Prelude.{◌≡◌, ◌≤◌, ◌↔◌, ℕ, length, map, None, IsTrue, IsErrOf, IfOk, OnOk};
ghost use Rattle.sha2.specs.Sha256.{sha256};
ghost use Rattle.nuc_base.specs.Faults.{HasCause, Rose};
ghost use Rattle.disk_model.specs.Disk.{HasLeft};
ghost use Rattle.records.specs.Stored.{item_view};
ghost use Rattle.device.specs.Devices.{device_view};
ghost use Rattle.artifact_store.specs.Audited.{AuditOutcome, item_line, items_lines};
ghost use Rattle.artifact_store.specs.Holding.{HoldsDevice};
ghost use Rattle.artifact_store.specs.Swept.{items_of, pending_items};

use crate::copies::PIECE;
use crate::fault::AuditFault;
use crate::paths::file_name;
use device::Device;
use disk_model::{Disk, DiskFault};
use nuc_base::FileName;
use records::Item;
use sha2::{Digest, Sha256};
use std::alloc::Global;

/// The digest of a file's bytes, which are read in pieces; of an absent file that of no bytes.
fn digest_of<D: Disk>(disk: &mut D, file: &str, piece: &mut [u8]) -> Result<[u8; 32], DiskFault>
    requires { length piece.old ≡ 65536 }
    ensures told { IsTrue D.is_modelled → IfOk result (λ digest. digest ≡ sha256 (D.seen disk.old file.now)) }
    ensures long { length piece.new ≡ 65536 }
    ensures seen { D.seen disk.new ≡ D.seen disk.old }
    ensures moments { HasLeft D.moment D.left_since disk.old disk.new (D.may_leave disk.old) }
    ensures cause { HasCause (D.faults disk.old) (D.faults disk.new) result }
    ensures quiet { OnOk result (D.faults disk.new ≡ D.faults disk.old) }
{
    let mut hasher = Sha256::new();
    let end = disk.length(file)?;
    let mut at: u64 = 0;
    while at < end {
        let count = disk.read(file, at, piece)?;
        if count == 0 {
            return Ok(hasher.finalize());
        }
        hasher.update(&piece[..count]);
        at += (count as u64).min(end - at);
    }
    Ok(hasher.finalize())
}

/// The first file of the item's artifacts whose digest is not the kept one, with the digest found.
fn audit_item<D: Disk>(
    alloc: Global,
    disk: &mut D,
    item: &Item,
    piece: &mut [u8],
) -> Result<Option<(FileName, [u8; 32])>, AuditFault>
    requires { length piece.old ≡ 65536 }
    ensures told { IsTrue D.is_modelled → IfOk result (AuditOutcome (item_line (D.seen disk.old) (item_view item.now))) }
    ensures long { length piece.new ≡ 65536 }
    ensures seen { D.seen disk.new ≡ D.seen disk.old }
    ensures moments { HasLeft D.moment D.left_since disk.old disk.new (D.may_leave disk.old) }
    ensures cause { IsErrOf result AuditFault.Disk → Rose (D.faults disk.old) (D.faults disk.new) }
    ensures quiet { ¬ (IsErrOf result AuditFault.Disk) → D.faults disk.new ≡ D.faults disk.old }
    ensures later { D.faults disk.old ≤ D.faults disk.new }
{
    for held in item.artifacts.as_slice() {
        let file = file_name(alloc, &item.name, &item.version, &held.file)?;
        let digest = digest_of(disk, file.as_str(), piece)?;
        if digest != held.digest {
            return Ok(Some((file, digest)));
        }
    }
    Ok(None)
}

/// The first file of the items' artifacts whose digest is not the kept one, with the digest found.
pub(crate) fn audit_items<D: Disk>(
    alloc: Global,
    disk: &mut D,
    items: &[Item],
    piece: &mut [u8],
) -> Result<Option<(FileName, [u8; 32])>, AuditFault>
    requires { length piece.old ≡ 65536 }
    ensures told { IsTrue D.is_modelled → IfOk result (AuditOutcome (items_lines (D.seen disk.old) (map item_view items.now))) }
    ensures long { length piece.new ≡ 65536 }
    ensures seen { D.seen disk.new ≡ D.seen disk.old }
    ensures moments { HasLeft D.moment D.left_since disk.old disk.new (D.may_leave disk.old) }
    ensures cause { IsErrOf result AuditFault.Disk → Rose (D.faults disk.old) (D.faults disk.new) }
    ensures quiet { ¬ (IsErrOf result AuditFault.Disk) → D.faults disk.new ≡ D.faults disk.old }
    ensures later { D.faults disk.old ≤ D.faults disk.new }
{
    for item in items {
        match audit_item(alloc, disk, item, piece)? {
            Some(found) => return Ok(Some(found)),
            None => {}
        }
    }
    Ok(None)
}

/// The first file of the pending plan's artifacts whose digest is not the kept one, with the digest found.
fn audit_pending<D: Disk>(
    alloc: Global,
    disk: &mut D,
    device: &Device,
    piece: &mut [u8],
) -> Result<Option<(FileName, [u8; 32])>, AuditFault>
    requires { length piece.old ≡ 65536 }
    ensures told { IsTrue D.is_modelled → IfOk result (AuditOutcome (items_lines (D.seen disk.old) (pending_items (device_view device.now).pending))) }
    ensures seen { D.seen disk.new ≡ D.seen disk.old }
    ensures moments { HasLeft D.moment D.left_since disk.old disk.new (D.may_leave disk.old) }
    ensures cause { IsErrOf result AuditFault.Disk → Rose (D.faults disk.old) (D.faults disk.new) }
    ensures quiet { ¬ (IsErrOf result AuditFault.Disk) → D.faults disk.new ≡ D.faults disk.old }
    ensures later { D.faults disk.old ≤ D.faults disk.new }
{
    match &device.pending {
        Some(pending) => audit_items(alloc, disk, pending.plan.items.as_slice(), piece),
        None => Ok(None),
    }
}

/// The first file of the device's artifacts whose digest is not the kept one, with the digest found.
fn audit_device<D: Disk>(
    alloc: Global,
    disk: &mut D,
    device: &Device,
    piece: &mut [u8],
) -> Result<Option<(FileName, [u8; 32])>, AuditFault>
    requires { length piece.old ≡ 65536 }
    ensures told { IsTrue D.is_modelled → IfOk result (AuditOutcome (items_lines (D.seen disk.old) (items_of (device_view device.now)))) }
    ensures seen { D.seen disk.new ≡ D.seen disk.old }
    ensures moments { HasLeft D.moment D.left_since disk.old disk.new (D.may_leave disk.old) }
    ensures cause { IsErrOf result AuditFault.Disk → Rose (D.faults disk.old) (D.faults disk.new) }
    ensures quiet { ¬ (IsErrOf result AuditFault.Disk) → D.faults disk.new ≡ D.faults disk.old }
    ensures later { D.faults disk.old ≤ D.faults disk.new }
{
    match audit_items(alloc, disk, device.set.as_slice(), piece)? {
        Some(found) => Ok(Some(found)),
        None => audit_pending(alloc, disk, device, piece),
    }
}

/// Compares the file of each artifact of the set, then of the pending plan, in the order of the items: none where each
/// has its digest, else the first that has another, with the digest found, which for an absent file is that of no bytes.
/// It writes nothing. It takes memory for one piece of 65,536 bytes and the name of a file.
pub fn audit<D: Disk>(
    alloc: Global,
    disk: &mut D,
    device: &Device,
) -> Result<Option<(FileName, [u8; 32])>, AuditFault>
    ensures told { IsTrue D.is_modelled → IfOk result (AuditOutcome (items_lines (D.seen disk.old) (items_of (device_view device.now)))) }
    ensures whole { IsTrue D.is_modelled → IfOk result (λ found. (found ≡ None) ↔ HoldsDevice (D.seen disk.old) (device_view device.now)) }
    ensures seen { D.seen disk.new ≡ D.seen disk.old }
    ensures moments { HasLeft D.moment D.left_since disk.old disk.new (D.may_leave disk.old) }
    ensures cause { IsErrOf result AuditFault.Disk → Rose (D.faults disk.old) (D.faults disk.new) }
    ensures quiet { ¬ (IsErrOf result AuditFault.Disk) → D.faults disk.new ≡ D.faults disk.old }
    ensures later { D.faults disk.old ≤ D.faults disk.new }
{
    let mut piece = vec![in alloc; 0u8; PIECE]?;
    audit_device(alloc, disk, device, &mut piece)
}
