// A new store.
ghost use Rattle.std.specs.Prelude.{◌≡◌, ◌≤◌, IsTrue, IsErrOf, IfOk, OnOk, length};
ghost use Rattle.nuc_base.specs.Faults.{HasCause, Rose};
ghost use Rattle.gate_log.specs.Journal.{AreSettled};
ghost use Rattle.records.specs.Layout.{Spelled};
ghost use Rattle.records.specs.Stored as stored;
ghost use Rattle.records.specs.declared.record.Origin.{Origin as Shown};
ghost use Rattle.device.specs.Devices.{device_view, no_device};
ghost use Rattle.device.specs.Lawful.{Allowed, applied};
ghost use Rattle.deploy_state.specs.Objects.{OwnsOver, KeepsOthers, LeavesOneOf, OwnsJournalOn};
ghost use Rattle.deploy_state.specs.States.{OwnsIdle, idle_device};

use crate::fault::CreateFault;
use crate::state::Idle;
use device::Device;
use disk_model::{Disk, DiskFault};
use gate_log::Journal;
use nuc_base::{Bytes, Copied, NoMemory};
use records::{Origin, Record};
use std::alloc::Global;

/// A device of this origin, and the payload of its first record.
fn begun(alloc: Global, origin: Origin) -> Result<(Device, Bytes), NoMemory>
    requires { length origin.root ≤ 1024 }
    ensures device { IfOk result (λ r. device_view r.0 ≡ applied no_device (stored.Genesis origin)) }
    ensures payload { IfOk result (λ r. Spelled r.1 (stored.Genesis origin)) }
{
    let payload = Record::Genesis(origin.copy(alloc)?).write(alloc)?;
    let mut device = Device::empty(alloc);
    device.origin = Some(origin);
    Ok((device, payload))
}

/// Makes an empty journal and adds its first entry.
fn make<D: Disk, J: Journal + Drop>(disk: &mut D, payload: &[u8]) -> Result<J, DiskFault>
    requires none { IsTrue D.is_modelled → J.holds_none (D.seen disk.old) }
    requires settled { AreSettled D.seen D.may_leave J.files disk.old }
    requires first { (o : Shown) × Spelled payload.now (stored.Genesis o) × Allowed no_device (stored.Genesis o) }
    ensures moments { (o : Shown) → Spelled payload.now (stored.Genesis o) →
        LeavesOneOf D.Disk J.Journal disk.old disk.new no_device (applied no_device (stored.Genesis o)) }
    ensures hand { (o : Shown) → Spelled payload.now (stored.Genesis o) →
        IfOk result (λ log. OwnsJournalOn D.Disk J.Journal log disk.new (applied no_device (stored.Genesis o))) }
    ensures others { KeepsOthers D.Disk J.Journal disk.old disk.new }
    ensures cause { HasCause (D.faults disk.old) (D.faults disk.new) result }
    ensures quiet { OnOk result (D.faults disk.new ≡ D.faults disk.old) }
{
    let mut log = J::create(disk)?;
    match log.append(disk, payload) {
        Ok(()) => Ok(log),
        // A first entry never fills the journal, so the disk failed.
        Err(_) => Err(DiskFault),
    }
}

impl<J: Journal + Drop> Idle<J> {
    /// Makes the store of this origin. All memory is taken before the first write.
    pub fn create<D: Disk>(
        alloc: Global,
        disk: &mut D,
        origin: Origin,
    ) -> Result<Idle<J>, CreateFault>
        requires none { IsTrue D.is_modelled → J.holds_none (D.seen disk.old) }
        requires settled { AreSettled D.seen D.may_leave J.files disk.old }
        requires short { length origin.root ≤ 1024 }
        ensures made { IfOk result (λ s. idle_device s ≡ applied no_device (stored.Genesis origin)) }
        ensures held { IfOk result (λ s. OwnsOver D.Disk J.Journal OwnsIdle s disk.new) }
        // An image that holds no entry stands for the device before its first record.
        ensures moments { ¬ (IsErrOf result CreateFault.NoMemory) →
            LeavesOneOf D.Disk J.Journal disk.old disk.new no_device
            (applied no_device (stored.Genesis origin)) }
        ensures others { KeepsOthers D.Disk J.Journal disk.old disk.new }
        // Without memory nothing was written.
        ensures memory { IsErrOf result CreateFault.NoMemory → disk.new ≡ disk.old }
        ensures cause { IsErrOf result CreateFault.Disk → Rose (D.faults disk.old) (D.faults disk.new) }
        ensures quiet { ¬ (IsErrOf result CreateFault.Disk) → D.faults disk.new ≡ D.faults disk.old }
        ensures later { D.faults disk.old ≤ D.faults disk.new }
    {
        let Ok((device, payload)) = begun(alloc, origin) else {
            return Err(CreateFault::NoMemory);
        };
        match make(disk, payload.as_slice()) {
            Ok(log) => Ok(Idle { log, device }),
            Err(_) => Err(CreateFault::Disk),
        }
    }
}
