// A plan is accepted.
ghost use Rattle.std.specs.Prelude.{◌≡◌, ◌≤◌, ◌+◌, ◌*◌, Some, ℕ, max, IsTrue, IfOk, OnOk, length};
ghost use Rattle.nuc_base.specs.Faults.{HasCause, Rose};
ghost use Rattle.gate_log.specs.Entries.{most_file};
ghost use Rattle.records.specs.Layout.{IsWritable, Spelled};
ghost use Rattle.records.specs.Stored as stored;
ghost use Rattle.records.specs.Stored.{plan_view};
ghost use Rattle.device.specs.Devices.{device_view};
ghost use Rattle.device.specs.Lawful.{Allowed, applied};
ghost use Rattle.device.specs.Regularity.{IsRegularRecord};
ghost use Rattle.device.specs.Sound.{IsSound};
ghost use Rattle.device.specs.Spares.{IsSpareFor};
ghost use Rattle.deploy_state.specs.Accepting.{HandsBack, HasDiskFailed, IsFullAt, IsFullOrShort, IsHandedBack, booting_log, idle_log, receipt_id};
ghost use Rattle.deploy_state.specs.Objects.{OwnsOver, HasRoomTo, IsReady, KeepsOthers, LeavesDevice, LeavesOneOf, entry_start};
ghost use Rattle.deploy_state.specs.States.{OwnsBooting, OwnsIdle, booting_device, idle_device};
ghost use Rattle.deploy_state.specs.Turning.{IsTooFar, can_turn, is_turning, next_front, plan_bytes};

use crate::fault::AcceptRefusal;
use crate::measure::{Site, site_of};
use crate::state::{Booting, Hand, Idle, Receipt, Stopped};
use crate::turn::{TurnFault, turn};
use device::{Device, Spare};
use disk_model::Disk;
use gate_log::{Journal, MOST_FILE};
use nuc_base::{Bytes, Copied, Label, NoMemory};
use records::{Plan, Record};
use std::alloc::Global;
use std::marker::PhantomData;

/// What is kept free behind an accepted plan for the records up to its close, and made room for.
const KEPT: u64 = 2_097_152;

/// What accepting a plan takes of memory, and the plan.
#[derive(Drop)]
struct Kit {
    plan: Plan,
    payload: Bytes,
    id: Label,
    spare: Spare,
}

fn plan_in(entry: Record) -> Option<Plan>
    ensures { (plan : Plan) → entry ≡ Record.Accepted plan → result ≡ Some plan }
{
    match entry {
        Record::Accepted(plan) => Some(plan),
        other => {
            drop(other);
            None
        }
    }
}

/// The plan, and the payload of its record.
fn spell(alloc: Global, plan: Plan) -> Result<(Plan, Bytes), NoMemory>
    requires { IsWritable (stored.Accepted (plan_view plan)) }
    ensures { IfOk result (λ r. (r.0 ≡ plan) × Spelled r.1 (stored.Accepted (plan_view plan))) }
{
    let entry = Record::Accepted(plan);
    let written = entry.write(alloc);
    match plan_in(entry) {
        Some(plan) => match written {
            Ok(payload) => Ok((plan, payload)),
            Err(_) => {
                drop(plan);
                Err(NoMemory)
            }
        },
        None => {
            drop(written);
            Err(NoMemory)
        }
    }
}

fn prepare(alloc: Global, device: &Device, plan: Plan) -> Result<Kit, NoMemory>
    requires lawful { Allowed (device_view device.now) (stored.Accepted (plan_view plan)) }
    requires regular { IsRegularRecord (stored.Accepted (plan_view plan)) }
    requires sound { IsSound (device_view device.now) }
    ensures plan { IfOk result (λ k. k.plan ≡ plan) }
    ensures payload { IfOk result (λ k. Spelled k.payload (stored.Accepted (plan_view plan))) }
    ensures id { IfOk result (λ k. k.id ≡ plan.id) }
    ensures spare { IfOk result (λ k. IsSpareFor k.spare (device_view device.now) (plan_view plan)) }
{
    let id = plan.id.copy(alloc)?;
    let spare = device.spare(alloc, &plan)?;
    let (plan, payload) = spell(alloc, plan)?;
    Ok(Kit {
        plan,
        payload,
        id,
        spare,
    })
}

impl<J: Journal + Drop> Idle<J> {
    /// Adds the entry of the plan, and lets the device take it.
    fn enter<D: Disk>(self, disk: &mut D, kit: Kit) -> Result<(Booting<J>, Receipt), Stopped<J>>
        requires held { OwnsOver D.Disk J.Journal OwnsIdle self disk.old }
        requires lawful { Allowed (idle_device self) (stored.Accepted (plan_view kit.plan)) }
        requires regular { IsRegularRecord (stored.Accepted (plan_view kit.plan)) }
        requires payload { Spelled kit.payload (stored.Accepted (plan_view kit.plan)) }
        requires spare { IsSpareFor kit.spare (idle_device self) (plan_view kit.plan) }
        requires room { J.end (idle_log self) + 6 + length kit.payload + 2097152 ≤ most_file }
        ensures moments { LeavesOneOf D.Disk J.Journal disk.old disk.new (idle_device self)
            (applied (idle_device self) (stored.Accepted (plan_view kit.plan))) }
        ensures taken { IfOk result (λ r. booting_device r.0 ≡ applied (idle_device self) (stored.Accepted (plan_view kit.plan))) }
        ensures held { IfOk result (λ r. OwnsOver D.Disk J.Journal OwnsBooting r.0 disk.new) }
        ensures receipt { IfOk result (λ r. receipt_id r.1 ≡ kit.id) }
        ensures end { IfOk result (λ r. J.end (booting_log r.0) ≡ J.end (idle_log self) + 5 + length kit.payload) }
        ensures number { IfOk result (λ r. J.number (booting_log r.0) ≡ J.number (idle_log self)) }
        ensures ready { HasRoomTo D.Disk J.Journal (idle_log self) disk.old (J.end (idle_log self) + 6 + length kit.payload + 2097152) →
            IsTrue D.is_modelled → IfOk result (λ r. IsReady D.Disk J.Journal (booting_log r.0) disk.new (booting_device r.0)) }
        ensures others { KeepsOthers D.Disk J.Journal disk.old disk.new }
        ensures cause { HasCause (D.faults disk.old) (D.faults disk.new) result }
        ensures quiet { OnOk result (D.faults disk.new ≡ D.faults disk.old) }
    {
        let Kit {
            plan,
            payload,
            id,
            spare,
        } = kit;
        let mut log = self.log;
        let mut device = self.device;
        let appended = log.append(disk, payload.as_slice());
        drop(payload);
        match appended {
            Ok(()) => {
                device.take_plan(plan);
                let hand = Hand { log, device, spare };
                Ok((Booting { hand }, Receipt { id }))
            }
            // There is room, so the disk failed.
            Err(_) => {
                drop(plan);
                drop(id);
                drop(spare);
                drop(device);
                drop(log);
                Err(Stopped { of: PhantomData })
            }
        }
    }

    /// Begins the journal anew with the device, and goes on with that of the plan.
    fn enter_anew<D: Disk>(
        self,
        alloc: Global,
        disk: &mut D,
        kit: Kit,
        to: u64,
    ) -> Result<(Booting<J>, Receipt), AcceptRefusal<J>>
        requires held { OwnsOver D.Disk J.Journal OwnsIdle self disk.old }
        requires lawful { Allowed (idle_device self) (stored.Accepted (plan_view kit.plan)) }
        requires regular { IsRegularRecord (stored.Accepted (plan_view kit.plan)) }
        requires payload { Spelled kit.payload (stored.Accepted (plan_view kit.plan)) }
        requires spare { IsSpareFor kit.spare (idle_device self) (plan_view kit.plan) }
        requires can { IsTrue (can_turn (J.turns (idle_log self)) (J.number (idle_log self))) }
        requires room { next_front J.number (idle_log self) (idle_device self) + 6 + length kit.payload + 2097152 ≤ most_file }
        requires to { to ≡ next_front J.number (idle_log self) (idle_device self) + 6 + length kit.payload + 2097152 }
        ensures moments { LeavesOneOf D.Disk J.Journal disk.old disk.new (idle_device self)
            (applied (idle_device self) (stored.Accepted (plan_view kit.plan))) }
        ensures unmade { IsHandedBack result → LeavesDevice D.Disk J.Journal disk.old disk.new (idle_device self) }
        ensures taken { IfOk result (λ r. booting_device r.0 ≡ applied (idle_device self) (stored.Accepted (plan_view kit.plan))) }
        ensures held { IfOk result (λ r. OwnsOver D.Disk J.Journal OwnsBooting r.0 disk.new) }
        ensures receipt { IfOk result (λ r. receipt_id r.1 ≡ kit.id) }
        ensures end { IfOk result (λ r. J.end (booting_log r.0) ≡ next_front J.number (idle_log self) (idle_device self) + 5 + length kit.payload) }
        ensures number { IfOk result (λ r. J.number (booting_log r.0) ≡ J.number (idle_log self) + 1) }
        ensures back { HandsBack (λ s. OwnsOver D.Disk J.Journal OwnsIdle s disk.new × (idle_device s ≡ idle_device self)) result }
        ensures fits { (at : ℕ) → IsFullAt result at → ⊥ }
        ensures ready { IsTrue D.is_modelled → IfOk result (λ r. IsReady D.Disk J.Journal (booting_log r.0) disk.new (booting_device r.0)) }
        ensures others { KeepsOthers D.Disk J.Journal disk.old disk.new }
        ensures cause { HasDiskFailed result → Rose (D.faults disk.old) (D.faults disk.new) }
        ensures quiet { ¬ (HasDiskFailed result) → D.faults disk.new ≡ D.faults disk.old }
        ensures later { D.faults disk.old ≤ D.faults disk.new }
    {
        let mut state = self;
        match turn(alloc, &mut state.log, &state.device, disk, to) {
            Ok(()) => match state.enter(disk, kit) {
                Ok(entered) => Ok(entered),
                Err(stopped) => Err(AcceptRefusal::Stopped(stopped)),
            },
            Err(TurnFault::NoMemory) => {
                drop(kit);
                Err(AcceptRefusal::NoMemory(state))
            }
            Err(TurnFault::NoRoom) => {
                drop(kit);
                Err(AcceptRefusal::NoRoom(state))
            }
            Err(TurnFault::Disk) => {
                drop(kit);
                drop(state);
                Err(AcceptRefusal::Stopped(Stopped { of: PhantomData }))
            }
        }
    }

    /// Adds the entry of the plan at its site, where it has room. The disk is asked first for that room, and for what may follow.
    fn enter_at<D: Disk>(
        self,
        alloc: Global,
        disk: &mut D,
        kit: Kit,
        site: Site,
    ) -> Result<(Booting<J>, Receipt), AcceptRefusal<J>>
        requires held { OwnsOver D.Disk J.Journal OwnsIdle self disk.old }
        requires lawful { Allowed (idle_device self) (stored.Accepted (plan_view kit.plan)) }
        requires regular { IsRegularRecord (stored.Accepted (plan_view kit.plan)) }
        requires payload { Spelled kit.payload (stored.Accepted (plan_view kit.plan)) }
        requires spare { IsSpareFor kit.spare (idle_device self) (plan_view kit.plan) }
        requires turns { site.turns ≡ is_turning J.end J.number J.turns (idle_log self) (idle_device self) (length kit.payload) }
        requires start { site.start ≡ entry_start J.Journal self (length kit.payload) }
        requires room { site.start + 6 + length kit.payload + 2097152 ≤ most_file }
        ensures moments { LeavesOneOf D.Disk J.Journal disk.old disk.new (idle_device self)
            (applied (idle_device self) (stored.Accepted (plan_view kit.plan))) }
        ensures unmade { IsHandedBack result → LeavesDevice D.Disk J.Journal disk.old disk.new (idle_device self) }
        ensures taken { IfOk result (λ r. booting_device r.0 ≡ applied (idle_device self) (stored.Accepted (plan_view kit.plan))) }
        ensures held { IfOk result (λ r. OwnsOver D.Disk J.Journal OwnsBooting r.0 disk.new) }
        ensures receipt { IfOk result (λ r. receipt_id r.1 ≡ kit.id) }
        ensures end { IfOk result (λ r. J.end (booting_log r.0) ≡ site.start + 5 + length kit.payload) }
        ensures back { HandsBack (λ s. OwnsOver D.Disk J.Journal OwnsIdle s disk.new × (idle_device s ≡ idle_device self)) result }
        ensures fits { (at : ℕ) → IsFullAt result at → ⊥ }
        ensures ready { IsTrue D.is_modelled → IfOk result (λ r. IsReady D.Disk J.Journal (booting_log r.0) disk.new (booting_device r.0)) }
        ensures others { KeepsOthers D.Disk J.Journal disk.old disk.new }
        ensures cause { HasDiskFailed result → Rose (D.faults disk.old) (D.faults disk.new) }
        ensures quiet { ¬ (HasDiskFailed result) → D.faults disk.new ≡ D.faults disk.old }
        ensures later { D.faults disk.old ≤ D.faults disk.new }
    {
        let to = site.start + 6 + kit.payload.len() as u64 + KEPT;
        if site.turns {
            return self.enter_anew(alloc, disk, kit, to);
        }
        let Ok(()) = self.log.reserve(disk, to) else {
            drop(kit);
            return Err(AcceptRefusal::NoRoom(self));
        };
        match self.enter(disk, kit) {
            Ok(entered) => Ok(entered),
            Err(stopped) => Err(AcceptRefusal::Stopped(stopped)),
        }
    }

    /// The device for which the journal stands.
    pub fn device(&self) -> &Device
        ensures { device_view result.now ≡ idle_device self.now }
    {
        &self.device
    }

    /// Accepts a plan, and answers a receipt once its entry is stable. All memory for the steps up to the close is taken
    /// before that entry is written, and the disk is asked for their room before its first write. The journal is begun anew first where the entry would take it beyond twice the front of
    /// the device and 1,048,576 bytes more.
    pub fn accept<D: Disk>(
        self,
        alloc: Global,
        disk: &mut D,
        plan: Plan,
    ) -> Result<(Booting<J>, Receipt), AcceptRefusal<J>>
        requires held { OwnsOver D.Disk J.Journal OwnsIdle self disk.old }
        requires lawful { Allowed (idle_device self) (stored.Accepted (plan_view plan)) }
        requires regular { IsRegularRecord (stored.Accepted (plan_view plan)) }
        ensures moments { LeavesOneOf D.Disk J.Journal disk.old disk.new (idle_device self) (applied (idle_device self) (stored.Accepted (plan_view plan))) }
        // Where the plan is handed back a crash at any moment leaves the device without it.
        ensures unmade { IsHandedBack result → LeavesDevice D.Disk J.Journal disk.old disk.new (idle_device self) }
        ensures taken { IfOk result (λ r. booting_device r.0 ≡ applied (idle_device self) (stored.Accepted (plan_view plan))) }
        ensures held { IfOk result (λ r. OwnsOver D.Disk J.Journal OwnsBooting r.0 disk.new) }
        ensures receipt { IfOk result (λ r. receipt_id r.1 ≡ plan.id) }
        ensures back { HandsBack (λ s. OwnsOver D.Disk J.Journal OwnsIdle s disk.new × (idle_device s ≡ idle_device self)) result }
        // Full, with nothing written, exactly where the plan does not fit with what may follow it, want of memory aside.
        ensures full { (at : ℕ) → IsFullAt result at → (at ≡ entry_start J.Journal self (plan_bytes (plan_view plan)))
            × IsTooFar at (plan_bytes (plan_view plan)) × (disk.new ≡ disk.old) }
        ensures fills { IsTooFar (entry_start J.Journal self (plan_bytes (plan_view plan)))
            (plan_bytes (plan_view plan))
            → IsFullOrShort result (entry_start J.Journal self (plan_bytes (plan_view plan))) }
        // The plan's entry stands at this place.
        ensures end { IfOk result (λ r. J.end (booting_log r.0) ≡ entry_start J.Journal self
            (plan_bytes (plan_view plan)) + 5 + plan_bytes (plan_view plan)) }
        // A journal that turns does not grow for ever.
        ensures bound { IsTrue (can_turn (J.turns (idle_log self)) (J.number (idle_log self))) → IfOk result (λ r. J.end (booting_log r.0)
            ≤ max (2 * next_front J.number (idle_log self) (idle_device self) + 1048576)
            (next_front J.number (idle_log self) (idle_device self) + 6 + plan_bytes (plan_view plan))) }
        // Room stands ready then for each record up to the close.
        ensures ready { IsTrue D.is_modelled → IfOk result (λ r. IsReady D.Disk J.Journal (booting_log r.0) disk.new (booting_device r.0)) }
        ensures others { KeepsOthers D.Disk J.Journal disk.old disk.new }
        ensures cause { HasDiskFailed result → Rose (D.faults disk.old) (D.faults disk.new) }
        ensures quiet { ¬ (HasDiskFailed result) → D.faults disk.new ≡ D.faults disk.old }
        ensures later { D.faults disk.old ≤ D.faults disk.new }
    {
        let Ok(kit) = prepare(alloc, &self.device, plan) else {
            return Err(AcceptRefusal::NoMemory(self));
        };
        let size = kit.payload.len() as u64;
        let Ok(site) = site_of(alloc, &self.log, &self.device, size) else {
            drop(kit);
            return Err(AcceptRefusal::NoMemory(self));
        };
        if site.start.saturating_add(6 + size + KEPT) > MOST_FILE {
            drop(kit);
            return Err(AcceptRefusal::Full(self, site.start));
        }
        self.enter_at(alloc, disk, kit, site)
    }
}

impl Receipt {
    /// The id of the deployment.
    pub fn id(&self) -> &Label
        ensures { result.now ≡ receipt_id self.now }
    {
        &self.id
    }
}
