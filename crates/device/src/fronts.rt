// The front of a device: the records that begin a journal anew with it.
ghost use Rattle.std.specs.Prelude.{◌≡◌, ◌<◌, ◌+◌, ◌++◌, ℕ, Some, length, map, slice_get, IfOk};
ghost use Rattle.std.specs.List.{AllByRecursion};
ghost use Rattle.records.specs.Stored.{item_view, record_view, Kept};
ghost use Rattle.device.specs.Devices.{device_view, IsRegularDevice};
ghost use Rattle.device.specs.Fronts.{Front, HasFront, FrontsAreOne, IsRegularEntry, Restored, SpellsAt, ended, stock_of};
ghost use Rattle.device.specs.Sound.{IsSound};

use crate::device::Device;
use crate::fault::RestoreFault;
use crate::rebuilding::Rebuilding;
use nuc_base::{Bytes, Copied, List, NoMemory};
use records::{Origin, Record};
use std::alloc::Global;

impl Device {
    /// How many records its front has.
    pub fn front_count(&self) -> u32
        requires { HasFront (device_view self.now) }
        ensures { (number : ℕ) → result ≡ length (Front number (device_view self.now)) }
    {
        1 + self.groups.len() as u32 + self.set.len() as u32 + self.closed.len() as u32
    }

    /// The first record of the front.
    fn turned(&self, alloc: Global, number: u64, origin: &Origin) -> Result<Record, NoMemory>
        requires has { HasFront (device_view self.now) }
        requires origin { self.now.origin ≡ Some origin.now }
        ensures { IfOk result (λ r. slice_get (Front number (device_view self.now)) 0 ≡ Some (record_view r)) }
    {
        Ok(Record::Turned(
            number,
            origin.copy(alloc)?,
            self.groups.len() as u32,
            self.set.len() as u32,
            self.closed.len() as u32,
        ))
    }

    /// The record of the closed deployment at this place.
    fn ended_at(&self, alloc: Global, at: usize) -> Result<Record, NoMemory>
        requires { at < length self.now.closed }
        ensures { IfOk result (λ r. slice_get (map ended self.now.closed) at ≡ Some (record_view r)) }
    {
        let (id, outcome) = &self.closed.as_slice()[at];
        Ok(Record::Ended(id.copy(alloc)?, *outcome))
    }

    /// The record at this place of those of the items and of the closed deployments.
    fn kept_at(&self, alloc: Global, at: usize) -> Result<Record, NoMemory>
        requires { at < length self.now.set + length self.now.closed }
        ensures { IfOk result (λ r. slice_get (map Kept (map item_view self.now.set) ++ map ended self.now.closed) at ≡ Some (record_view r)) }
    {
        match self.set.as_slice().get(at) {
            Some(item) => Ok(Record::Kept(item.copy(alloc)?)),
            None => self.ended_at(alloc, at - self.set.len()),
        }
    }

    /// The record at this place behind the first.
    fn stocked_at(&self, alloc: Global, at: usize) -> Result<Record, NoMemory>
        requires { at < length self.now.groups.list + (length self.now.set + length self.now.closed) }
        ensures { IfOk result (λ r. slice_get (stock_of (device_view self.now)) at ≡ Some (record_view r)) }
    {
        match self.groups.nth(at) {
            Some(group) => Ok(Record::Grouped(group.copy(alloc)?)),
            None => self.kept_at(alloc, at - self.groups.len()),
        }
    }

    fn front_record(&self, alloc: Global, number: u64, at: u32) -> Result<Record, NoMemory>
        requires has { HasFront (device_view self.now) }
        requires below { at < length (Front number (device_view self.now)) }
        ensures { IfOk result (λ r. slice_get (Front number (device_view self.now)) at ≡ Some (record_view r)) }
    {
        match &self.origin {
            Some(origin) if at == 0 => self.turned(alloc, number, origin),
            _ => self.stocked_at(alloc, at as usize - 1),
        }
    }

    /// The spelling of the record of the front that stands at this place, in the turn of this number.
    pub fn front(&self, alloc: Global, number: u64, at: u32) -> Result<Bytes, NoMemory>
        requires has { HasFront (device_view self.now) }
        requires regular { IsRegularDevice (device_view self.now) }
        requires below { at < length (Front number (device_view self.now)) }
        ensures { IfOk result (SpellsAt (Front number (device_view self.now)) at) }
    {
        let entry = self.front_record(alloc, number, at)?;
        entry.write(alloc)
    }

    /// The device whose front these records are, in the turn of any number. The trees of the records are regular, as
    /// those of records that were read are.
    pub fn restore(alloc: Global, front: List<Record>) -> Result<Device, RestoreFault>
        requires regular { AllByRecursion IsRegularEntry front }
        ensures restored { Restored (map record_view front) result }
        ensures regular { IfOk result (λ d. IsRegularDevice (device_view d)) }
        ensures sound { IfOk result (λ d. IsSound (device_view d)) }
    {
        let mut records = front.into_vec().into_iter();
        let Some(first) = records.next() else {
            return Err(RestoreFault::NotSound);
        };
        let mut building = Rebuilding::begin(alloc, first)?;
        for entry in records {
            building.take(alloc, entry)?;
        }
        building.finish(alloc)
    }
}

/// Records are the front of one device at most. It does nothing.
pub fn fronts_are_one()
    ensures { FrontsAreOne }
{}
