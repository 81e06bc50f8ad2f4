// The root in the first entry.
ghost use Rattle.std.specs.Prelude.{◌≡◌, ◌≢◌, ◌≤◌, [], ℕ, List, IfOk, IsErrOf, IsTrue};
ghost use Rattle.nuc_base.specs.Faults.{Rose};
ghost use Rattle.disk_model.specs.Disk.{HasLeft};
ghost use Rattle.checkpoint_log.specs.Slots.{slots_stands};
ghost use Rattle.records.specs.Stored.{record_view};
ghost use Rattle.store_root.specs.Roots.{root_named, NamedBy, RootAnswer};

use checkpoint_log::Slots;
use disk_model::Disk;
use gate_log::{EntryFault, FindFault, Journal};
use nuc_base::{NoMemory, Text};
use records::Record;
use std::alloc::Global;

/// Why no root was read.
#[derive(Clone, Copy, Debug, Drop, PartialEq, Eq)]
pub enum RootFault {
    Disk,
    NoMemory,
}

/// The root that the record names, if it begins a store or a turn of it.
fn root_of(entry: Record) -> Option<Text>
    ensures { result ≡ root_named (record_view entry) }
{
    match entry {
        Record::Genesis(origin) => Some(origin.root),
        Record::Turned(_number, origin, _groups, _items, _closed) => Some(origin.root),
        _ => None,
    }
}

/// The root that this payload names, if it spells a record that names one.
fn root_in_payload(alloc: Global, payload: &[u8]) -> Result<Option<Text>, NoMemory>
    ensures { IfOk result (NamedBy payload.now) }
{
    match Record::read(alloc, payload)? {
        Some(entry) => Ok(root_of(entry)),
        None => Ok(None),
    }
}

/// The root that the first entry of the journal names, of those behind which it stands.
fn first_root<D: Disk>(alloc: Global, log: &Slots, disk: &mut D) -> Result<Option<Text>, RootFault>
    requires stands { IsTrue D.is_modelled → (payloads : List (List ℕ)) × slots_stands log.now (D.seen disk.old) payloads × (payloads ≢ []) }
    ensures told { IsTrue D.is_modelled → RootAnswer (D.seen disk.old) result }
    ensures seen { D.seen disk.new ≡ D.seen disk.old }
    ensures moments { HasLeft D.moment D.left_since disk.old disk.new (D.may_leave disk.old) }
    ensures cause { IsErrOf result RootFault.Disk → Rose (D.faults disk.old) (D.faults disk.new) }
    ensures quiet { ¬ (IsErrOf result RootFault.Disk) → D.faults disk.new ≡ D.faults disk.old }
    ensures later { D.faults disk.old ≤ D.faults disk.new }
{
    let payload = match log.entry(alloc, disk, 0) {
        Ok((payload, _next)) => payload,
        Err(EntryFault::Disk) => return Err(RootFault::Disk),
        Err(EntryFault::NoMemory) => return Err(RootFault::NoMemory),
    };
    match root_in_payload(alloc, payload.as_slice()) {
        Ok(root) => Ok(root),
        Err(NoMemory) => Err(RootFault::NoMemory),
    }
}

/// The folder that the first entry of the live slot names: the one that the store was made in, and that steps run in. None
/// where the journal has no entry, is damaged, or begins with another record. Nothing is replayed, and nothing is written.
///
/// `Disk` comes where the disk failed, `NoMemory` where there is no room for the first entry.
pub fn root_in<D: Disk>(alloc: Global, disk: &mut D) -> Result<Option<Text>, RootFault>
    ensures told { IsTrue D.is_modelled → RootAnswer (D.seen disk.old) result }
    ensures seen { D.seen disk.new ≡ D.seen disk.old }
    ensures moments { HasLeft D.moment D.left_since disk.old disk.new (D.may_leave disk.old) }
    ensures cause { IsErrOf result RootFault.Disk → Rose (D.faults disk.old) (D.faults disk.new) }
    ensures quiet { ¬ (IsErrOf result RootFault.Disk) → D.faults disk.new ≡ D.faults disk.old }
    ensures later { D.faults disk.old ≤ D.faults disk.new }
{
    match Slots::find(disk) {
        Ok(log) => first_root(alloc, &log, disk),
        Err(FindFault::Disk) => Err(RootFault::Disk),
        Err(FindFault::NotInitialised) => Ok(None),
        Err(FindFault::Damaged(_)) => Ok(None),
    }
}
