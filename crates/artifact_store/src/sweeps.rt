//! Removing the files of artifacts that nothing needs.
ghost use Rattle.std.specs.Prelude.{◌≡◌, ◌≤◌, ◌||◌, ℕ, List, [], false, map, IsTrue, IsErrOf, OnOk, IfOk};
ghost use Rattle.std.specs.List.{list_any};
ghost use Rattle.std.specs.Ordering.{nat_cmp};
ghost use Rattle.std.specs.Cmp.Lexicographic.{slice_cmp};
ghost use Rattle.std.specs.BTreeSet.{contains};
ghost use Rattle.nuc_base.specs.Faults.{HasCause, Rose};
ghost use Rattle.disk_model.specs.Disk.{IsAfter, HasLeft};
ghost use Rattle.disk_model.specs.Spares.{IsSameBut};
ghost use Rattle.records.specs.Stored.{item_view};
ghost use Rattle.device.specs.Devices.{device_view};
ghost use Rattle.artifact_store.specs.Holding.{HoldsDevice, AllHoldDevice};
ghost use Rattle.artifact_store.specs.Needed.{is_file_of, is_file_among};
ghost use Rattle.artifact_store.specs.Swept.{items_of, IsStray, IsSwept, IsUnneeded};

use crate::fault::SweepFault;
use crate::paths::file_name;
use device::Device;
use disk_model::{Disk, DiskFault};
use nuc_base::{FileName, NoMemory};
use records::Item;
use std::alloc::Global;
use std::collections::BTreeSet;

/// Adds the files of an item.
fn need_item(alloc: Global, needed: &mut BTreeSet<FileName>, item: &Item) -> Result<(), NoMemory>
    ensures { OnOk result ((file : List ℕ) → contains (slice_cmp nat_cmp) needed.new file ≡ (contains (slice_cmp nat_cmp) needed.old file ||
        is_file_of (item_view item.now) file)) }
{
    for held in item.artifacts.as_slice() {
        let file = file_name(alloc, &item.name, &item.version, &held.file)?;
        needed.insert(file)?;
    }
    Ok(())
}

/// Adds the files of items.
fn need_items(
    alloc: Global,
    needed: &mut BTreeSet<FileName>,
    items: &[Item],
) -> Result<(), NoMemory>
    ensures { OnOk result ((file : List ℕ) → contains (slice_cmp nat_cmp) needed.new file ≡ (contains (slice_cmp nat_cmp) needed.old file ||
        is_file_among (map item_view items.now) file)) }
{
    for item in items {
        need_item(alloc, needed, item)?;
    }
    Ok(())
}

/// The files that the set and the pending plan name.
fn needed_files(alloc: Global, device: &Device) -> Result<BTreeSet<FileName>, NoMemory>
    ensures { IfOk result (λ needed. (file : List ℕ) → contains (slice_cmp nat_cmp) needed file ≡ is_file_among (items_of (device_view device.now)) file) }
{
    let mut needed = BTreeSet::new(alloc);
    need_items(alloc, &mut needed, device.set.as_slice())?;
    if let Some(pending) = &device.pending {
        need_items(alloc, &mut needed, pending.plan.items.as_slice())?;
    }
    Ok(needed)
}

/// Removes the file unless it is needed.
pub(crate) fn sweep_file<D: Disk>(
    disk: &mut D,
    needed: &BTreeSet<FileName>,
    file: &FileName,
) -> Result<(), DiskFault>
    ensures moments { HasLeft D.moment D.left_since disk.old disk.new
        (IsAfter (D.may_leave disk.old) (IsSameBut (IsUnneeded (contains (slice_cmp nat_cmp) needed.now file.now) file.now))) }
    ensures others { IsTrue D.is_modelled → IsSameBut (IsUnneeded (contains (slice_cmp nat_cmp) needed.now file.now) file.now) (D.seen disk.old)
        (D.seen disk.new) }
    ensures gone { IsTrue D.is_modelled → OnOk result (contains (slice_cmp nat_cmp) needed.now file.now ≡ false → D.seen disk.new file.now ≡ []) }
    ensures cause { HasCause (D.faults disk.old) (D.faults disk.new) result }
    ensures quiet { OnOk result (D.faults disk.new ≡ D.faults disk.old) }
{
    if needed.contains(file) {
        return Ok(());
    }
    disk.remove(file.as_str())
}

/// Removes each file below `packages/artifacts/` that neither the set nor the pending plan names. A removal is not made
/// stable: what a crash brings back is removed by the next sweep.
///
/// It takes memory for the list of the files and for the names of those that are needed, before it removes one.
pub fn sweep<D: Disk>(alloc: Global, disk: &mut D, device: &Device) -> Result<(), SweepFault>
    // A crash at any moment of the call changes stray files alone.
    ensures moments { HasLeft D.moment D.left_since disk.old disk.new
        (IsAfter (D.may_leave disk.old) (IsSameBut (IsStray (items_of (device_view device.now))))) }
    ensures others { IsTrue D.is_modelled → IsSameBut (IsStray (items_of (device_view device.now))) (D.seen disk.old) (D.seen disk.new) }
    // So the device has its files at each moment, where it had them before.
    ensures safe { AllHoldDevice (D.may_leave disk.old) (device_view device.now) → HasLeft D.moment D.left_since disk.old disk.new
        (λ c. HoldsDevice c (device_view device.now)) }
    ensures swept { IsTrue D.is_modelled → OnOk result (IsSwept (items_of (device_view device.now)) (D.seen disk.new)) }
    ensures cause { IsErrOf result SweepFault.Disk → Rose (D.faults disk.old) (D.faults disk.new) }
    ensures quiet { ¬ (IsErrOf result SweepFault.Disk) → D.faults disk.new ≡ D.faults disk.old }
    ensures later { D.faults disk.old ≤ D.faults disk.new }
{
    let needed = needed_files(alloc, device)?;
    let listed = disk.list(alloc)?;
    for file in listed.as_slice() {
        sweep_file(disk, &needed, file)?;
    }
    Ok(())
}
