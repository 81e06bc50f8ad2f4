// The device for which a journal stands.
ghost use Rattle.std.specs.Prelude.{◌≡◌, ◌≤◌, ◌<◌, ◌+◌, ◌&&◌, nat_lt, is_some, ℕ, List, None, IsTrue, IsErrOf, IfOk, OnOk};
ghost use Rattle.nuc_base.specs.Faults.{Rose};
ghost use Rattle.disk_model.specs.Disk.{HasLeft};
ghost use Rattle.gate_log.specs.Entries.{most_file};
ghost use Rattle.gate_log.specs.Journal.{IsBehind};
ghost use Rattle.gate_log.specs.Place.{IsEntryAt};
ghost use Rattle.records.specs.Stored.{record_view};
ghost use Rattle.device.specs.Devices.{device_view, IsRegularDevice};
ghost use Rattle.device.specs.Limits.{room_of_plan};
ghost use Rattle.device.specs.Rooms.{HasRoom, TakesRoom};
ghost use Rattle.device.specs.Sound.{IsSound};
ghost use Rattle.device.specs.Rebuilt.{building_view, IsOrderly};
ghost use Rattle.device.specs.Standing.{BegunAt, CameEntry, CamePayload, Replayed, TakeOutcome, TookEntry, TookFront, TurnOf, Walked, is_turned};

use crate::device::Device;
use crate::fault::{ApplyFault, ReplayFault, RestoreFault};
use crate::limits::ROOM_OF_PLAN;
use crate::rebuilding::Rebuilding;
use disk_model::Disk;
use gate_log::{Journal, MOST_FILE};
use nuc_base::NoMemory;
use records::Record;
use std::alloc::Global;

/// The last place behind the entry of an accepted plan with room for the records up to its close: 1,048,576 bytes, in
/// a journal of at most 1,073,741,824.
const LAST_WITH_ROOM: u64 = MOST_FILE - ROOM_OF_PLAN;

impl Device {
    /// Takes the record that the payload spells.
    #[tactic(auto, using(crate::proofs::Regular::writable))]
    pub(crate) fn take_payload(&mut self, alloc: Global, payload: &[u8]) -> Result<(), ApplyFault>
        ensures took { TakeOutcome (device_view self.old) payload.now (device_view self.new) result }
        ensures regular { IsRegularDevice (device_view self.old) → IsRegularDevice (device_view self.new) }
        ensures sound { IsSound (device_view self.old) → IsSound (device_view self.new) }
    {
        match Record::read(alloc, payload) {
            Ok(Some(record)) => self.apply(alloc, record),
            Ok(None) => Err(ApplyFault::NotLawful),
            Err(NoMemory) => Err(ApplyFault::NoMemory),
        }
    }
}

/// Takes the record of the entry at this place, and gives the place behind it.
fn take_entry<J: Journal, D: Disk>(
    device: &mut Device,
    alloc: Global,
    log: &J,
    disk: &mut D,
    at: u64,
) -> Result<u64, ReplayFault>
    requires below { at < J.end log.now }
    requires place { IsTrue D.is_modelled → (payload : List ℕ) × IsEntryAt J.stands log.now (D.seen disk.old) at payload }
    ensures told { IsTrue D.is_modelled → (payload : List ℕ) → IsEntryAt J.stands log.now (D.seen disk.old) at payload →
        TookEntry (device_view device.old) at payload (device_view device.new) result }
    ensures goes_on { IfOk result (λ next. at < next) }
    ensures regular { IsRegularDevice (device_view device.old) → IsRegularDevice (device_view device.new) }
    ensures sound { IsSound (device_view device.old) → IsSound (device_view device.new) }
    ensures room { IsSound (device_view device.old) → IfOk result (λ next. TakesRoom at next (device_view device.old) (device_view device.new)) }
    ensures seen { D.seen disk.new ≡ D.seen disk.old }
    ensures moments { HasLeft D.moment D.left_since disk.old disk.new (D.may_leave disk.old) }
    ensures cause { IsErrOf result ReplayFault.Disk → Rose (D.faults disk.old) (D.faults disk.new) }
    ensures quiet { ¬ (IsErrOf result ReplayFault.Disk) → D.faults disk.new ≡ D.faults disk.old }
    ensures later { D.faults disk.old ≤ D.faults disk.new }
{
    let (payload, next) = log.entry(alloc, disk, at)?;
    match device.take_payload(alloc, payload.as_slice()) {
        Ok(()) => Ok(next),
        Err(ApplyFault::NotLawful) => Err(ReplayFault::Damaged(at)),
        Err(ApplyFault::NoMemory) => Err(ReplayFault::NoMemory),
    }
}

impl Rebuilding {
    /// Takes the record of a front that the payload spells.
    #[tactic(auto, using(crate::proofs::Regular::writable))]
    pub(crate) fn take_payload(&mut self, alloc: Global, payload: &[u8]) -> Result<(), RestoreFault>
        requires orderly { IsOrderly (building_view self.old) }
        ensures came { CamePayload (building_view self.old) payload.now (building_view self.new) result }
        ensures orderly { OnOk result (IsOrderly (building_view self.new)) }
    {
        match Record::read(alloc, payload) {
            Ok(Some(entry)) => self.take(alloc, entry),
            Ok(None) => Err(RestoreFault::NotSound),
            Err(NoMemory) => Err(RestoreFault::NoMemory),
        }
    }
}

/// Takes the entry of a front at this place, and gives the place behind it.
fn take_front_entry<J: Journal, D: Disk>(
    building: &mut Rebuilding,
    alloc: Global,
    log: &J,
    disk: &mut D,
    at: u64,
) -> Result<u64, ReplayFault>
    requires below { at < J.end log.now }
    requires place { IsTrue D.is_modelled → (payload : List ℕ) × IsEntryAt J.stands log.now (D.seen disk.old) at payload }
    requires orderly { IsOrderly (building_view building.old) }
    ensures told { IsTrue D.is_modelled → (payload : List ℕ) → IsEntryAt J.stands log.now (D.seen disk.old) at payload →
        CameEntry (building_view building.old) at payload (building_view building.new) result }
    ensures orderly { OnOk result (IsOrderly (building_view building.new)) }
    ensures goes_on { IfOk result (λ next. at < next) }
    ensures seen { D.seen disk.new ≡ D.seen disk.old }
    ensures moments { HasLeft D.moment D.left_since disk.old disk.new (D.may_leave disk.old) }
    ensures cause { IsErrOf result ReplayFault.Disk → Rose (D.faults disk.old) (D.faults disk.new) }
    ensures quiet { ¬ (IsErrOf result ReplayFault.Disk) → D.faults disk.new ≡ D.faults disk.old }
    ensures later { D.faults disk.old ≤ D.faults disk.new }
{
    let (payload, next) = log.entry(alloc, disk, at)?;
    match building.take_payload(alloc, payload.as_slice()) {
        Ok(()) => Ok(next),
        Err(RestoreFault::NotSound) => Err(ReplayFault::Damaged(0)),
        Err(RestoreFault::NoMemory) => Err(ReplayFault::NoMemory),
    }
}

/// Takes the entries of a front behind its first, up to its last or the end of the journal, and gives the place behind
/// them with the device.
fn take_front<J: Journal, D: Disk>(
    mut building: Rebuilding,
    alloc: Global,
    log: &J,
    disk: &mut D,
    mut at: u64,
) -> Result<(Device, u64), ReplayFault>
    requires stands { IsTrue D.is_modelled → (payloads : List (List ℕ)) × J.stands log.now (D.seen disk.old) payloads }
    requires orderly { IsOrderly (building_view building) }
    requires walked { IsTrue D.is_modelled → (payloads : List (List ℕ)) → J.stands log.now (D.seen disk.old) payloads →
        Walked payloads at (building_view building) }
    ensures told { IsTrue D.is_modelled → (payloads : List (List ℕ)) → J.stands log.now (D.seen disk.old) payloads → TookFront payloads result }
    ensures regular { IfOk result (λ r. IsRegularDevice (device_view r.0)) }
    ensures sound { IfOk result (λ r. IsSound (device_view r.0)) }
    ensures idle { IfOk result (λ r. r.0.pending ≡ None) }
    ensures seen { D.seen disk.new ≡ D.seen disk.old }
    ensures moments { HasLeft D.moment D.left_since disk.old disk.new (D.may_leave disk.old) }
    ensures cause { IsErrOf result ReplayFault.Disk → Rose (D.faults disk.old) (D.faults disk.new) }
    ensures quiet { ¬ (IsErrOf result ReplayFault.Disk) → D.faults disk.new ≡ D.faults disk.old }
    ensures later { D.faults disk.old ≤ D.faults disk.new }
{
    let end = log.end();
    while building.lacks_some() && at < end {
        at = take_front_entry(&mut building, alloc, log, disk, at)?;
    }
    match building.finish(alloc) {
        Ok(device) => Ok((device, at)),
        Err(RestoreFault::NotSound) => Err(ReplayFault::Damaged(0)),
        Err(RestoreFault::NoMemory) => Err(ReplayFault::NoMemory),
    }
}

/// Whether the record begins a front.
fn is_turn(entry: &Record) -> bool
    ensures { result ≡ is_turned (record_view entry.now) }
{
    matches!(entry, Record::Turned(..))
}

/// The record, where the payload spells one that begins a front.
fn turn_of(alloc: Global, payload: &[u8]) -> Result<Option<Record>, NoMemory>
    ensures { IfOk result (TurnOf payload.now) }
{
    match Record::read(alloc, payload) {
        Ok(Some(entry)) => {
            if is_turn(&entry) {
                Ok(Some(entry))
            } else {
                Ok(None)
            }
        }
        Ok(None) => Ok(None),
        Err(NoMemory) => Err(NoMemory),
    }
}

/// The device of the front that begins the journal, and the place behind it; or no device, where no front does.
fn begin<J: Journal, D: Disk>(
    alloc: Global,
    log: &J,
    disk: &mut D,
) -> Result<(Device, u64), ReplayFault>
    requires open { (payloads : List (List ℕ)) × IsBehind D.may_leave J.stands log.now disk.old payloads }
    ensures told { IsTrue D.is_modelled → (payloads : List (List ℕ)) → J.stands log.now (D.seen disk.old) payloads → BegunAt payloads result }
    ensures regular { IfOk result (λ r. IsRegularDevice (device_view r.0)) }
    ensures sound { IfOk result (λ r. IsSound (device_view r.0)) }
    ensures idle { IfOk result (λ r. r.0.pending ≡ None) }
    ensures seen { D.seen disk.new ≡ D.seen disk.old }
    ensures moments { HasLeft D.moment D.left_since disk.old disk.new (D.may_leave disk.old) }
    ensures cause { IsErrOf result ReplayFault.Disk → Rose (D.faults disk.old) (D.faults disk.new) }
    ensures quiet { ¬ (IsErrOf result ReplayFault.Disk) → D.faults disk.new ≡ D.faults disk.old }
    ensures later { D.faults disk.old ≤ D.faults disk.new }
{
    if log.end() == 0 {
        return Ok((Device::empty(alloc), 0));
    }
    let (payload, next) = log.entry(alloc, disk, 0)?;
    match turn_of(alloc, payload.as_slice()) {
        Ok(Some(entry)) => match Rebuilding::begin(alloc, entry) {
            Ok(building) => take_front(building, alloc, log, disk, next),
            Err(RestoreFault::NotSound) => Err(ReplayFault::Damaged(0)),
            Err(RestoreFault::NoMemory) => Err(ReplayFault::NoMemory),
        },
        Ok(None) => Ok((Device::empty(alloc), 0)),
        Err(NoMemory) => Err(ReplayFault::NoMemory),
    }
}

/// Whether a plan is pending, and the room behind its entry, at this place, is missing.
fn lacks_room(device: &Device, behind: u64) -> bool
    ensures { result ≡ (is_some device.now.pending && nat_lt most_file (behind + room_of_plan)) }
{
    device.pending.is_some() && behind > LAST_WITH_ROOM
}

/// The device for which the journal stands: a front first, where one begins it, and each further entry's record in its
/// turn. It writes nothing.
pub fn replay<J: Journal, D: Disk>(
    alloc: Global,
    log: &J,
    disk: &mut D,
) -> Result<Device, ReplayFault>
    requires open { (payloads : List (List ℕ)) × IsBehind D.may_leave J.stands log.now disk.old payloads }
    ensures told { IsTrue D.is_modelled → (payloads : List (List ℕ)) → J.stands log.now (D.seen disk.old) payloads → Replayed payloads result }
    ensures regular { IfOk result (λ d. IsRegularDevice (device_view d)) }
    // Also where the disk tells nothing.
    ensures sound { IfOk result (λ d. IsSound (device_view d)) }
    ensures room { IfOk result (λ d. HasRoom (J.end log.now) (device_view d)) }
    ensures seen { D.seen disk.new ≡ D.seen disk.old }
    ensures moments { HasLeft D.moment D.left_since disk.old disk.new (D.may_leave disk.old) }
    ensures cause { IsErrOf result ReplayFault.Disk → Rose (D.faults disk.old) (D.faults disk.new) }
    ensures quiet { ¬ (IsErrOf result ReplayFault.Disk) → D.faults disk.new ≡ D.faults disk.old }
    ensures later { D.faults disk.old ≤ D.faults disk.new }
{
    let (mut device, mut at) = begin(alloc, log, disk)?;
    // Where a plan is pending, the place just behind its entry.
    let mut behind = at;
    let end = log.end();
    while at < end {
        let was_pending = device.pending.is_some();
        let next = take_entry(&mut device, alloc, log, disk, at)?;
        if !was_pending {
            behind = next;
        }
        at = next;
    }
    if lacks_room(&device, behind) {
        return Err(ReplayFault::Damaged(behind));
    }
    Ok(device)
}
