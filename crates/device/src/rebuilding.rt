// A device that is rebuilt from the records of its front, one after another.
ghost use Rattle.std.specs.Prelude.{◌≡◌, ◌<◌, ◌+◌, IsTrue, ◌↔◌, None, OnOk, IfOk};
ghost use Rattle.records.specs.Stored.{record_view, item_view};
ghost use Rattle.records.specs.Stored as stored;
ghost use Rattle.device.specs.Devices.{device_view, IsRegularDevice};
ghost use Rattle.device.specs.Regularity.{IsRegularRecord};
ghost use Rattle.device.specs.Rebuilt.{building_view, BeginOutcome, NextOutcome, FinishOutcome, IsOrderly};
ghost use Rattle.device.specs.Sound.{IsSound};

use crate::closed::Closed;
use crate::device::Device;
use crate::fault::RestoreFault;
use crate::groups::Groups;
use crate::limits::{MOST_CLOSED, MOST_ELEMENTS, MOST_GROUPS, MOST_ROOT};
use crate::plans::{are_items, are_requirements};
use crate::spare::join;
use nuc_base::{Label, List, Outcome};
use records::{Group, Item, Origin, Record};
use std::alloc::Global;

/// What came of a front so far, and how many groups, items and closed deployments are still to come, in this order.
#[derive(Drop)]
pub(crate) struct Rebuilding {
    origin: Origin,
    groups: Groups,
    set: List<Item>,
    closed: Closed,
    groups_to_come: u32,
    items_to_come: u32,
    closed_to_come: u32,
}

impl Rebuilding {
    /// Begins with a turn that counts no more than a device may have.
    pub(crate) fn begin(alloc: Global, entry: Record) -> Result<Rebuilding, RestoreFault>
        ensures began { BeginOutcome (record_view entry) result }
        ensures orderly { IfOk result (λ b. IsOrderly (building_view b)) }
    {
        let Record::Turned(_, origin, groups, items, closed) = entry else {
            return Err(RestoreFault::NotSound);
        };
        if origin.root.len() > MOST_ROOT
            || groups as usize > MOST_GROUPS
            || items as usize > MOST_ELEMENTS
            || closed as usize > MOST_CLOSED
        {
            return Err(RestoreFault::NotSound);
        }
        Ok(Rebuilding {
            origin,
            groups: Groups::empty(alloc),
            set: List::empty(alloc),
            closed: Closed::empty(alloc),
            groups_to_come: groups,
            items_to_come: items,
            closed_to_come: closed,
        })
    }

    fn take_group(&mut self, alloc: Global, group: Group) -> Result<(), RestoreFault>
        ensures { NextOutcome (stored.Grouped group) (building_view self.old) (building_view self.new) result }
    {
        if self.groups_to_come == 0
            || self.groups.contains(&group.arn)
            || !are_requirements(group.requirements.as_slice())
        {
            return Err(RestoreFault::NotSound);
        }
        join(alloc, &mut self.groups, group)?;
        self.groups_to_come -= 1;
        Ok(())
    }

    fn take_item(&mut self, item: Item) -> Result<(), RestoreFault>
        ensures { NextOutcome (stored.Kept (item_view item)) (building_view self.old) (building_view self.new) result }
    {
        if self.groups_to_come > 0 || self.items_to_come == 0 {
            return Err(RestoreFault::NotSound);
        }
        if self.set.push(item).is_err() {
            return Err(RestoreFault::NoMemory);
        }
        self.items_to_come -= 1;
        Ok(())
    }

    fn take_closed(
        &mut self,
        alloc: Global,
        id: Label,
        outcome: Outcome,
    ) -> Result<(), RestoreFault>
        ensures { NextOutcome (stored.Ended id outcome) (building_view self.old) (building_view self.new) result }
    {
        if self.groups_to_come > 0 || self.items_to_come > 0 || self.closed_to_come == 0 {
            return Err(RestoreFault::NotSound);
        }
        if !self.closed.add_new(alloc, id, outcome)? {
            return Err(RestoreFault::NotSound);
        }
        self.closed_to_come -= 1;
        Ok(())
    }

    /// Takes one record more.
    pub(crate) fn take(&mut self, alloc: Global, entry: Record) -> Result<(), RestoreFault>
        requires regular { IsRegularRecord (record_view entry) }
        requires orderly { IsOrderly (building_view self.old) }
        ensures came { NextOutcome (record_view entry) (building_view self.old) (building_view self.new) result }
        ensures orderly { OnOk result (IsOrderly (building_view self.new)) }
    {
        match entry {
            Record::Grouped(group) => self.take_group(alloc, group),
            Record::Kept(item) => self.take_item(item),
            Record::Ended(id, outcome) => self.take_closed(alloc, id, outcome),
            _ => Err(RestoreFault::NotSound),
        }
    }

    /// Whether records are still to come.
    pub(crate) fn lacks_some(&self) -> bool
        ensures { IsTrue result ↔ (0 < self.now.groups_to_come + self.now.items_to_come + self.now.closed_to_come) }
    {
        self.groups_to_come > 0 || self.items_to_come > 0 || self.closed_to_come > 0
    }

    /// The device, where all came and it runs such items.
    pub(crate) fn finish(self, alloc: Global) -> Result<Device, RestoreFault>
        requires { IsOrderly (building_view self) }
        ensures finished { FinishOutcome (building_view self) result }
        ensures idle { IfOk result (λ d. d.pending ≡ None) }
        ensures regular { IfOk result (λ d. IsRegularDevice (device_view d)) }
        ensures sound { IfOk result (λ d. IsSound (device_view d)) }
    {
        if self.lacks_some() {
            return Err(RestoreFault::NotSound);
        }
        let fit = are_items(alloc, &self.origin.platform, self.set.as_slice())?;
        if !fit {
            return Err(RestoreFault::NotSound);
        }
        Ok(Device {
            origin: Some(self.origin),
            groups: self.groups,
            set: self.set,
            closed: self.closed,
            pending: None,
        })
    }
}
