// The device takes a record.
ghost use Rattle.std.specs.Prelude.{◌≡◌, ◌<◌, ◌↔◌, IsTrue, map, Some, IfOk, if◌then◌else◌};
ghost use Rattle.std.specs.Option.{IsSomeAnd};
ghost use Rattle.records.specs.Stored.{item_view, plan_view, record_view};
ghost use Rattle.records.specs.Stored as stored;
ghost use Rattle.device.specs.Devices.{Device as Shown, device_view, no_device, IsRegularDevice};
ghost use Rattle.device.specs.Does.{DoesRecord};
ghost use Rattle.device.specs.Grouped.{with_group, revision_after};
ghost use Rattle.device.specs.Lawful.{Allowed, HasRoomFor, IsNotOlder, MayAccept, applied, takes_plan};
ghost use Rattle.device.specs.Plans.{AreRegularItems};
ghost use Rattle.device.specs.Regularity.{IsRegularRecord};
ghost use Rattle.device.specs.Sound.{IsSound};

use crate::closed::Closed;
use crate::device::Device;
use crate::fault::ApplyFault;
use crate::groups::Groups;
use crate::limits::{MOST_CLOSED, MOST_GROUPS, MOST_ROOT};
use crate::plans::is_plan;
use crate::staged::{Pending, Stage};
use crate::steps::{activate, begin, break_off, end, fail, go_back, may_close, takes_plan};
use nuc_base::{Copied, Exit, Label, List, Name, NoMemory, Outcome, Step};
use records::{Group, Origin, Plan, Record};
use std::alloc::Global;

impl Device {
    /// A device before its first record.
    pub fn empty(alloc: Global) -> Device
        ensures { device_view result ≡ no_device }
    {
        Device {
            origin: None,
            groups: Groups::empty(alloc),
            set: List::empty(alloc),
            closed: Closed::empty(alloc),
            pending: None,
        }
    }

    fn set_origin(&mut self, origin: Origin) -> Result<(), ApplyFault>
        ensures { DoesRecord (stored.Genesis origin) (device_view self.old) (device_view self.new) result }
    {
        if self.origin.is_some() || origin.root.len() > MOST_ROOT {
            drop(origin);
            return Err(ApplyFault::NotLawful);
        }
        self.origin = Some(origin);
        Ok(())
    }

    fn begin_boot(&mut self, name: &Name) -> Result<(), ApplyFault>
        ensures { DoesRecord (stored.BootBegun name.now) (device_view self.old) (device_view self.new) result }
    {
        match &mut self.pending {
            Some(pending) => begin(pending, name),
            None => Err(ApplyFault::NotLawful),
        }
    }

    fn end_boot(&mut self, name: &Name, exit: Exit) -> Result<(), ApplyFault>
        ensures { DoesRecord (stored.BootEnded name.now exit) (device_view self.old) (device_view self.new) result }
    {
        match &mut self.pending {
            Some(pending) => end(pending, name, exit),
            None => Err(ApplyFault::NotLawful),
        }
    }

    fn fail_step(&mut self, name: &Name, step: Step, exit: Exit) -> Result<(), ApplyFault>
        ensures { DoesRecord (stored.StepFailed name.now step exit) (device_view self.old) (device_view self.new) result }
    {
        match &mut self.pending {
            Some(pending) => fail(self.set.as_slice(), pending, name, step, exit),
            None => Err(ApplyFault::NotLawful),
        }
    }

    fn activate_plan(&mut self) -> Result<(), ApplyFault>
        ensures { DoesRecord stored.Activating (device_view self.old) (device_view self.new) result }
    {
        match &mut self.pending {
            Some(pending) => activate(pending),
            None => Err(ApplyFault::NotLawful),
        }
    }

    fn break_plan(&mut self, name: &Name) -> Result<(), ApplyFault>
        ensures { DoesRecord (stored.Failing name.now) (device_view self.old) (device_view self.new) result }
    {
        match &mut self.pending {
            Some(pending) => break_off(pending, name),
            None => Err(ApplyFault::NotLawful),
        }
    }

    fn break_back(&mut self, alloc: Global, name: &Name) -> Result<(), ApplyFault>
        ensures { DoesRecord (stored.FailingBack name.now) (device_view self.old) (device_view self.new) result }
    {
        match &mut self.pending {
            Some(pending) => go_back(alloc, &self.origin, self.set.as_slice(), pending, name),
            None => Err(ApplyFault::NotLawful),
        }
    }

    /// Whether nothing is pending, the plan's id is not closed, and one more deployment may close, of its group.
    fn has_room_for(&self, plan: &Plan) -> bool
        ensures { IsTrue result ↔ HasRoomFor (device_view self.now) (plan_view plan.now) }
    {
        if self.pending.is_some() || self.closed.outcome_of(&plan.id).is_some() {
            return false;
        }
        if self.closed.len() >= MOST_CLOSED {
            return false;
        }
        self.groups.contains(&plan.group) || self.groups.len() < MOST_GROUPS
    }

    /// Whether the plan has no revision, or none before its group's.
    fn is_not_older(&self, plan: &Plan) -> bool
        ensures { IsTrue result ↔ IsNotOlder (device_view self.now).groups (plan_view plan.now) }
    {
        plan.revision == 0 || self.groups.revision_of(&plan.group) <= plan.revision
    }

    fn is_fresh_and_fits(&self, plan: &Plan) -> bool
        ensures { IsTrue result ↔ (HasRoomFor (device_view self.now) (plan_view plan.now) × IsNotOlder (device_view self.now).groups (plan_view plan.now)) }
    {
        self.has_room_for(plan) && self.is_not_older(plan)
    }

    fn may_accept(&self, alloc: Global, plan: &Plan) -> Result<bool, NoMemory>
        requires regular { AreRegularItems (map item_view plan.now.items) }
        ensures { IfOk result (λ b. IsTrue b ↔ IsSomeAnd self.now.origin (MayAccept (device_view self.now) (plan_view plan.now))) }
    {
        let Some(origin) = &self.origin else {
            return Ok(false);
        };
        if !self.is_fresh_and_fits(plan) {
            return Ok(false);
        }
        is_plan(alloc, &origin.platform, plan)
    }

    /// Takes the plan without taking memory: the step of its Accepted, which is lawful.
    pub fn take_plan(&mut self, plan: Plan)
        requires { Allowed (device_view self.old) (stored.Accepted (plan_view plan)) }
        ensures { device_view self.new ≡ applied (device_view self.old) (stored.Accepted (plan_view plan)) }
    {
        self.pending = Some(Pending {
            plan,
            stage: Stage::Booting,
            ended: 0,
            begun: false,
            boot_failed: false,
            reach: 0,
            back_flags: [false; 128],
            failures: [0; 128],
        });
    }

    fn accept(&mut self, alloc: Global, plan: Plan) -> Result<(), ApplyFault>
        requires regular { AreRegularItems (map item_view plan.items) }
        ensures { DoesRecord (stored.Accepted (plan_view plan)) (device_view self.old) (device_view self.new) result }
    {
        match self.may_accept(alloc, &plan) {
            Ok(true) => {
                self.take_plan(plan);
                Ok(())
            }
            Ok(false) => Err(ApplyFault::NotLawful),
            Err(NoMemory) => Err(ApplyFault::NoMemory),
        }
    }

    /// The revision of the plan's group behind it.
    pub(crate) fn revision_after(&self, plan: &Plan) -> u64
        ensures { result ≡ revision_after self.now.groups.list (plan_view plan.now) }
    {
        if plan.revision == 0 {
            self.groups.revision_of(&plan.group)
        } else {
            plan.revision
        }
    }

    /// The plan takes the place of the set and of its group's requirements where the outcome says so. `key` is its
    /// group once more.
    fn settle(&mut self, key: Label, plan: Plan, outcome: Outcome)
        requires arn { key ≡ plan.group }
        requires room { 0 < self.old.groups.room }
        ensures origin { self.new.origin ≡ self.old.origin }
        ensures groups { self.new.groups.list ≡ (if takes_plan outcome then with_group self.old.groups.list (plan_view plan) else self.old.groups.list) }
        ensures set { self.new.set ≡ (if takes_plan outcome then plan.items else self.old.set) }
        ensures closed { self.new.closed ≡ self.old.closed }
        ensures pending { self.new.pending ≡ self.old.pending }
    {
        if !takes_plan(outcome) {
            return;
        }
        let revision = self.revision_after(&plan);
        self.groups.put(
            key,
            Group {
                arn: plan.group,
                revision,
                requirements: plan.requirements,
            },
        );
        self.set = plan.items;
    }

    fn close(&mut self, alloc: Global, outcome: Outcome) -> Result<(), ApplyFault>
        ensures { DoesRecord (stored.Closed outcome) (device_view self.old) (device_view self.new) result }
    {
        let Some(pending) = &self.pending else {
            return Err(ApplyFault::NotLawful);
        };
        if !may_close(pending, outcome) {
            return Err(ApplyFault::NotLawful);
        }
        // All memory is taken before anything changes.
        let key = pending.plan.group.copy(alloc)?;
        self.groups.make_room()?;
        self.closed.add(alloc, &pending.plan.id, outcome)?;
        if let Some(pending) = self.pending.take() {
            self.settle(key, pending.plan, outcome);
        }
        Ok(())
    }

    fn take_record(&mut self, alloc: Global, entry: Record) -> Result<(), ApplyFault>
        requires regular { IsRegularRecord (record_view entry) }
        ensures { DoesRecord (record_view entry) (device_view self.old) (device_view self.new) result }
    {
        match entry {
            Record::Genesis(origin) => self.set_origin(origin),
            Record::Accepted(plan) => self.accept(alloc, plan),
            Record::BootBegun(name) => self.begin_boot(&name),
            Record::BootEnded(name, exit) => self.end_boot(&name, exit),
            Record::Activating => self.activate_plan(),
            Record::StepFailed(name, step, exit) => self.fail_step(&name, step, exit),
            Record::Failing(name) => self.break_plan(&name),
            Record::FailingBack(name) => self.break_back(alloc, &name),
            Record::Closed(outcome) => self.close(alloc, outcome),
            Record::Turned(..) | Record::Grouped(_) | Record::Kept(_) | Record::Ended(..) => {
                Err(ApplyFault::NotLawful)
            }
        }
    }

    /// Takes a record where it is lawful. It is `NotLawful` exactly where it is not, and a refusal leaves the device as
    /// it was. The trees of the record are regular, as those of a record that was read are.
    pub fn apply(&mut self, alloc: Global, entry: Record) -> Result<(), ApplyFault>
        requires regular { IsRegularRecord (record_view entry) }
        ensures taken { DoesRecord (record_view entry) (device_view self.old) (device_view self.new) result }
        ensures regular { IsRegularDevice (device_view self.old) → IsRegularDevice (device_view self.new) }
        ensures sound { IsSound (device_view self.old) → IsSound (device_view self.new) }
    {
        self.take_record(alloc, entry)
    }
}
