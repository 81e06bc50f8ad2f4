// The journal is begun anew with a device.
ghost use Rattle.std.specs.Prelude.{◌≡◌, ◌≤◌, ◌<◌, ◌+◌, [], None, ℕ, List, IsTrue, IsErrOf, OnOk, length, take};
ghost use Rattle.std.specs.List.{AllZip};
ghost use Rattle.nuc_base.specs.Faults.{Rose};
ghost use Rattle.disk_model.specs.Disk.{IsAfter, HasLeft};
ghost use Rattle.gate_log.specs.Entries.{most_file};
ghost use Rattle.gate_log.specs.Journal.{IsBehind, IsChangeIn};
ghost use Rattle.gate_log.specs.Place.{place_behind};
ghost use Rattle.gate_log.specs.Turned.{IsPut};
ghost use Rattle.records.specs.Layout.{Spelled};
ghost use Rattle.device.specs.Devices.{device_view, IsRegularDevice};
ghost use Rattle.device.specs.Fronts.{Front, HasFront};
ghost use Rattle.device.specs.Standing.{StandsFor};
ghost use Rattle.deploy_state.specs.Objects.{HasRoomTo, KeepsOthers, OwnsJournalOn};
ghost use Rattle.deploy_state.specs.Turning.{AreSpelled, can_turn, front_bytes, front_payloads};

use device::Device;
use disk_model::{Disk, DiskFault};
use gate_log::Journal;
use nuc_base::NoMemory;
use std::alloc::Global;

/// Why a journal was not begun anew. It is then as it was.
#[derive(Clone, Copy, Debug, Drop, PartialEq, Eq)]
pub enum TurnFault {
    Disk,
    NoMemory,
    /// The disk failed where it was asked for room.
    NoRoom,
}

impl From<DiskFault> for TurnFault {
    ghost use Rattle.std.specs.Prelude.{◌≡◌};
    ghost use Rattle.deploy_state.specs.declared.turn.TurnFault.TheVariants.{Disk};

    ghost from_gives = { λ _ e. e ≡ Disk };

    fn from(_fault: DiskFault) -> TurnFault {
        TurnFault::Disk
    }
}

impl From<NoMemory> for TurnFault {
    ghost use Rattle.std.specs.Prelude.{◌≡◌};
    ghost use Rattle.deploy_state.specs.declared.turn.TurnFault.TheVariants.{NoMemory as OutOfMemory};

    ghost from_gives = { λ _ e. e ≡ OutOfMemory };

    fn from(_refused: NoMemory) -> TurnFault {
        TurnFault::NoMemory
    }
}

/// Puts the record of the front at this place.
fn put_next<J: Journal, D: Disk>(
    alloc: Global,
    log: &mut J,
    device: &Device,
    disk: &mut D,
    number: u64,
    at: u32,
) -> Result<(), TurnFault>
    requires has { HasFront (device_view device.now) }
    requires regular { IsRegularDevice (device_view device.now) }
    requires below { at < length (Front number (device_view device.now)) }
    requires open { (payloads : List (List ℕ)) × IsBehind D.may_leave J.stands log.old disk.old payloads }
    requires begun { IsTrue (J.turns log.old) }
    requires put { IsPut D.is_modelled D.seen J.put_there log.old disk.old (take at (front_payloads number (device_view device.now))) }
    requires put_end { J.put_end log.old ≡ place_behind (take at (front_payloads number (device_view device.now))) }
    requires spelled { AreSpelled number (device_view device.now) at }
    requires room { front_bytes number (device_view device.now) < most_file }
    ensures spelled { OnOk result (AreSpelled number (device_view device.now) (at + 1)) }
    ensures put { OnOk result (IsPut D.is_modelled D.seen J.put_there log.new disk.new (take (at + 1) (front_payloads number (device_view device.now)))) }
    ensures put_end { OnOk result (J.put_end log.new ≡ place_behind (take (at + 1) (front_payloads number (device_view device.now)))) }
    ensures moments { (payloads : List (List ℕ)) → IsBehind D.may_leave J.stands log.old disk.old payloads →
        HasLeft D.moment D.left_since disk.old disk.new (IsAfter (D.may_leave disk.old) (IsChangeIn J.files (λ c. J.entries c payloads))) }
    ensures stays { ¬ (IsErrOf result TurnFault.Disk) → (payloads : List (List ℕ)) → IsBehind D.may_leave J.stands log.old disk.old payloads →
        IsBehind D.may_leave J.stands log.new disk.new payloads }
    ensures same { (J.end log.new ≡ J.end log.old) × (J.number log.new ≡ J.number log.old) × (J.turns log.new ≡ J.turns log.old) }
    ensures room { IsTrue D.is_modelled → OnOk result (J.put_room log.old (D.seen disk.old) ≤ J.put_room log.new (D.seen disk.new)) }
    ensures apart { IsErrOf result TurnFault.NoRoom → ⊥ }
    ensures others { KeepsOthers D.Disk J.Journal disk.old disk.new }
    ensures cause { IsErrOf result TurnFault.Disk → Rose (D.faults disk.old) (D.faults disk.new) }
    ensures quiet { ¬ (IsErrOf result TurnFault.Disk) → D.faults disk.new ≡ D.faults disk.old }
    ensures later { D.faults disk.old ≤ D.faults disk.new }
{
    let Ok(payload) = device.front(alloc, number, at) else {
        return Err(TurnFault::NoMemory);
    };
    match log.put(disk, payload.as_slice()) {
        Ok(()) => Ok(()),
        Err(_) => Err(TurnFault::Disk),
    }
}

/// Puts all records of the front.
fn put_front<J: Journal, D: Disk>(
    alloc: Global,
    log: &mut J,
    device: &Device,
    disk: &mut D,
    number: u64,
) -> Result<(), TurnFault>
    requires has { HasFront (device_view device.now) }
    requires regular { IsRegularDevice (device_view device.now) }
    requires open { (payloads : List (List ℕ)) × IsBehind D.may_leave J.stands log.old disk.old payloads }
    requires begun { IsTrue (J.turns log.old) }
    requires put { IsPut D.is_modelled D.seen J.put_there log.old disk.old [] }
    requires put_end { J.put_end log.old ≡ 0 }
    requires room { front_bytes number (device_view device.now) < most_file }
    ensures spelled { OnOk result (AllZip Spelled (front_payloads number (device_view device.now)) (Front number (device_view device.now))) }
    ensures put { OnOk result (IsPut D.is_modelled D.seen J.put_there log.new disk.new (front_payloads number (device_view device.now))) }
    ensures put_end { OnOk result (J.put_end log.new ≡ front_bytes number (device_view device.now)) }
    ensures moments { (payloads : List (List ℕ)) → IsBehind D.may_leave J.stands log.old disk.old payloads →
        HasLeft D.moment D.left_since disk.old disk.new (IsAfter (D.may_leave disk.old) (IsChangeIn J.files (λ c. J.entries c payloads))) }
    ensures stays { ¬ (IsErrOf result TurnFault.Disk) → (payloads : List (List ℕ)) → IsBehind D.may_leave J.stands log.old disk.old payloads →
        IsBehind D.may_leave J.stands log.new disk.new payloads }
    ensures same { (J.end log.new ≡ J.end log.old) × (J.number log.new ≡ J.number log.old) × (J.turns log.new ≡ J.turns log.old) }
    ensures room { IsTrue D.is_modelled → OnOk result (J.put_room log.old (D.seen disk.old) ≤ J.put_room log.new (D.seen disk.new)) }
    ensures apart { IsErrOf result TurnFault.NoRoom → ⊥ }
    ensures others { KeepsOthers D.Disk J.Journal disk.old disk.new }
    ensures cause { IsErrOf result TurnFault.Disk → Rose (D.faults disk.old) (D.faults disk.new) }
    ensures quiet { ¬ (IsErrOf result TurnFault.Disk) → D.faults disk.new ≡ D.faults disk.old }
    ensures later { D.faults disk.old ≤ D.faults disk.new }
{
    let count = device.front_count();
    for at in 0..count {
        put_next(alloc, log, device, disk, number, at)?;
    }
    Ok(())
}

/// Begins the journal anew with the front of the device, in the turn of the next number, with room up to this place. Where it
/// fails for want of memory or where it asks for room, the journal is as it was.
pub(crate) fn turn<J: Journal, D: Disk>(
    alloc: Global,
    log: &mut J,
    device: &Device,
    disk: &mut D,
    to: u64,
) -> Result<(), TurnFault>
    requires hand { OwnsJournalOn D.Disk J.Journal log.old disk.old (device_view device.now) }
    requires idle { (device_view device.now).pending ≡ None }
    requires can { IsTrue (can_turn (J.turns log.old) (J.number log.old)) }
    requires room { front_bytes (J.number log.old + 1) (device_view device.now) < most_file }
    ensures hand { ¬ (IsErrOf result TurnFault.Disk) → OwnsJournalOn D.Disk J.Journal log.new disk.new (device_view device.now) }
    ensures end { OnOk result (J.end log.new ≡ front_bytes (J.number log.old + 1) (device_view device.now)) }
    ensures number { OnOk result (J.number log.new ≡ J.number log.old + 1) }
    ensures moments { HasLeft D.moment D.left_since disk.old disk.new
        (IsAfter (D.may_leave disk.old) (IsChangeIn J.files (λ c. StandsFor J.entries c (device_view device.now)))) }
    // The new file of live entries goes on up to the place that was asked for.
    ensures ready { OnOk result (HasRoomTo D.Disk J.Journal log.new disk.new to) }
    ensures others { KeepsOthers D.Disk J.Journal disk.old disk.new }
    ensures cause { IsErrOf result TurnFault.Disk → Rose (D.faults disk.old) (D.faults disk.new) }
    ensures room { IsErrOf result TurnFault.NoRoom → Rose (D.faults disk.old) (D.faults disk.new) }
    ensures quiet { ¬ (IsErrOf result TurnFault.Disk) → ¬ (IsErrOf result TurnFault.NoRoom) → D.faults disk.new ≡ D.faults disk.old }
    ensures later { D.faults disk.old ≤ D.faults disk.new }
{
    let number = log.number() + 1;
    log.begin_turn(disk)?;
    let Ok(()) = log.reserve_turn(disk, to) else {
        return Err(TurnFault::NoRoom);
    };
    put_front(alloc, log, device, disk, number)?;
    log.end_turn(disk)?;
    Ok(())
}
