// Plans are accepted one after another, over a journal that is begun anew.
ghost use Rattle.std.specs.Prelude.{◌≡◌, ◌≤◌, IfSome, length};
ghost use Rattle.records.specs.Layout.{Spelled};
ghost use Rattle.records.specs.Stored as stored;
ghost use Rattle.records.specs.Stored.{plan_view};
ghost use Rattle.device.specs.Devices.{device_view, no_device};
ghost use Rattle.device.specs.Lawful.{Allowed, applied};
ghost use Rattle.device.specs.Regularity.{IsRegularRecord};
ghost use Rattle.deploy_state.specs.Objects.{OwnsOver};
ghost use Rattle.deploy_state.specs.States.{OwnsBooting, OwnsIdle, booting_device, idle_device};

use crate::stores::record_named;
use checkpoint_log::Slots;
use deploy_state::{Booting, Idle};
use device::Device;
use disk_model::{Disk, MemoryDisk};
use gate_log::{FindFault, Journal};
use nuc_base::{Copied, NoMemory, Outcome};
use records::{Origin, Plan, Record};
use std::alloc::Global;
use std::test::Fail;

/// Makes a store, where the disk has none.
fn create<D: Disk, J: Journal + Drop>(
    alloc: Global,
    disk: &mut D,
    origin: Origin,
) -> Option<Idle<J>>
    requires short { length origin.root ≤ 1024 }
    ensures held { IfSome result (λ s. OwnsOver D.Disk J.Journal OwnsIdle s disk.new) }
    ensures made { IfSome result (λ s. idle_device s ≡ applied no_device (stored.Genesis origin)) }
{
    let found: Result<J, FindFault> = J::find(disk);
    let Err(FindFault::NotInitialised) = found else {
        drop(origin);
        return None;
    };
    match Idle::<J>::create(alloc, disk, origin) {
        Ok(idle) => Some(idle),
        Err(_) => None,
    }
}

/// The origin of the record `genesis`.
fn origin_of(alloc: Global) -> Option<Origin> {
    let Ok(read) = Record::read(alloc, record_named("genesis")) else {
        return None;
    };
    match read? {
        Record::Genesis(origin) => Some(origin),
        record => {
            drop(record);
            None
        }
    }
}

/// Makes a store, where the disk has none, and the device for which its journal stands once more.
pub(crate) fn begin<D: Disk, J: Journal + Drop>(
    alloc: Global,
    disk: &mut D,
) -> Option<(Idle<J>, Device)>
    ensures held { IfSome result (λ r. OwnsOver D.Disk J.Journal OwnsIdle r.0 disk.new) }
    ensures twin { IfSome result (λ r. device_view r.1 ≡ idle_device r.0) }
{
    let origin = origin_of(alloc)?;
    if origin.root.as_str().len() > 1024 {
        drop(origin);
        return None;
    }
    let Ok(copy) = origin.copy(alloc) else {
        drop(origin);
        return None;
    };
    let Some(idle) = create(alloc, disk, origin) else {
        drop(copy);
        return None;
    };
    let mut twin = Device::empty(alloc);
    twin.origin = Some(copy);
    Some((idle, twin))
}

/// The plan of an Accepted with these bytes.
#[tactic(auto, using(crate::proofs::Tested::plain_record))]
fn plan_of(alloc: Global, bytes: &[u8]) -> Option<Plan>
    ensures spelled { IfSome result (λ p. Spelled bytes.now (stored.Accepted (plan_view p))) }
    ensures regular { IfSome result (λ p. IsRegularRecord (stored.Accepted (plan_view p))) }
{
    let Ok(read) = Record::read(alloc, bytes) else {
        return None;
    };
    match read? {
        Record::Accepted(plan) => Some(plan),
        record => {
            drop(record);
            None
        }
    }
}

/// The plan of an Accepted with these bytes, which the device takes.
#[tactic(auto, using(crate::proofs::Tested::same_plan))]
pub(crate) fn take_plan(alloc: Global, twin: &mut Device, bytes: &[u8]) -> Option<Plan>
    ensures lawful { IfSome result (λ p. Allowed (device_view twin.old) (stored.Accepted (plan_view p))) }
    ensures taken { IfSome result (λ p. device_view twin.new ≡ applied (device_view twin.old) (stored.Accepted (plan_view p))) }
    ensures regular { IfSome result (λ p. IsRegularRecord (stored.Accepted (plan_view p))) }
{
    let taken = plan_of(alloc, bytes)?;
    let plan = plan_of(alloc, bytes)?;
    match twin.apply(alloc, Record::Accepted(taken)) {
        Ok(()) => Some(plan),
        Err(_) => {
            drop(plan);
            None
        }
    }
}

/// Accepts the plan of these bytes, whose deployment has this id.
pub(crate) fn accept<D: Disk, J: Journal + Drop>(
    alloc: Global,
    disk: &mut D,
    idle: Idle<J>,
    twin: &mut Device,
    bytes: &[u8],
    id: &[u8],
) -> Option<Booting<J>>
    requires held { OwnsOver D.Disk J.Journal OwnsIdle idle disk.old }
    requires twin { device_view twin.old ≡ idle_device idle }
    ensures held { IfSome result (λ s. OwnsOver D.Disk J.Journal OwnsBooting s disk.new) }
    ensures twin { IfSome result (λ s. device_view twin.new ≡ booting_device s) }
{
    let Some(plan) = take_plan(alloc, twin, bytes) else {
        drop(idle);
        return None;
    };
    match idle.accept(alloc, disk, plan) {
        Ok((booting, receipt)) => {
            let is_its_own = receipt.id().as_str().as_bytes() == id;
            drop(receipt);
            if is_its_own {
                Some(booting)
            } else {
                drop(booting);
                None
            }
        }
        Err(_) => None,
    }
}

/// Brings a deployment without bootstrap steps to its close.
pub(crate) fn close<D: Disk, J: Journal + Drop>(
    alloc: Global,
    disk: &mut D,
    booting: Booting<J>,
    twin: &mut Device,
) -> Option<Idle<J>>
    requires held { OwnsOver D.Disk J.Journal OwnsBooting booting disk.old }
    requires twin { device_view twin.old ≡ booting_device booting }
    ensures held { IfSome result (λ s. OwnsOver D.Disk J.Journal OwnsIdle s disk.new) }
    ensures twin { IfSome result (λ s. device_view twin.new ≡ idle_device s) }
{
    let Ok(()) = twin.apply(alloc, Record::Activating) else {
        drop(booting);
        return None;
    };
    let Ok(activating) = booting.activate(disk) else {
        return None;
    };
    let Ok(()) = twin.apply(alloc, Record::Closed(Outcome::Successful)) else {
        drop(activating);
        return None;
    };
    match activating.complete(disk) {
        Ok(idle) => Some(idle),
        Err(_) => None,
    }
}

/// Puts a length and so many bytes.
fn put(bytes: &mut Vec<u8>, part: &[u8]) -> Result<(), NoMemory> {
    let len = part.len().min(1_000_000) as u32;
    bytes.extend_from_slice(&len.to_be_bytes())?;
    bytes.extend_from_slice(part)?;
    Ok(())
}

/// A recipe of 65,536 bytes of the component `a`.
fn long_recipe(alloc: Global) -> Result<Vec<u8>, Fail> {
    let mut recipe = Vec::new(alloc);
    recipe.extend_from_slice(
        b"{\"RecipeFormatVersion\":\"2020-01-25\",\"ComponentName\":\"a\",\"ComponentVersion\":\"1.0.0\",\"ComponentDescription\":\"",
    )?;
    for _ in 0..65_427u32 {
        recipe.push(b'x')?;
    }
    recipe.extend_from_slice(b"\"}")?;
    Ok(recipe)
}

/// Puts what stands before the recipe of a plan of the component `a`, whose id has this number.
fn put_beginning(bytes: &mut Vec<u8>, number: [u8; 2]) -> Result<(), NoMemory> {
    let [tens, ones] = number;
    bytes.push(0x12)?;
    put(bytes, &[b'c', tens, ones])?;
    put(bytes, b"g")?;
    bytes.extend_from_slice(&[0, 0, 0, 0, 0, 0, 0, 0, 1])?;
    put(bytes, b"a")?;
    put(bytes, b"1.0.0")
}

/// Puts that plan with this recipe, whose configuration has the number too.
fn put_plan(bytes: &mut Vec<u8>, recipe: &[u8], number: [u8; 2]) -> Result<(), NoMemory> {
    let [tens, ones] = number;
    put_beginning(bytes, number)?;
    put(bytes, recipe)?;
    put(bytes, &[b'{', b'"', b'n', b'"', b':', tens, ones, b'}'])?;
    Ok(bytes.extend_from_slice(&[0, 0, 0, 0, 0, 0, 0, 0])?)
}

/// The bytes of a plan of the component `a` with this recipe, whose id and configuration have this number.
fn plan_bytes(alloc: Global, recipe: &[u8], number: [u8; 2]) -> Result<Vec<u8>, NoMemory> {
    let mut bytes = Vec::new(alloc);
    match put_plan(&mut bytes, recipe, number) {
        Ok(()) => Ok(bytes),
        Err(fault) => {
            drop(bytes);
            Err(fault)
        }
    }
}

/// Accepts the plan of this number and brings its deployment to its close.
fn deploy<D: Disk, J: Journal + Drop>(
    alloc: Global,
    disk: &mut D,
    idle: Idle<J>,
    twin: &mut Device,
    recipe: &[u8],
    number: [u8; 2],
) -> Option<Idle<J>>
    requires held { OwnsOver D.Disk J.Journal OwnsIdle idle disk.old }
    requires twin { device_view twin.old ≡ idle_device idle }
    ensures held { IfSome result (λ s. OwnsOver D.Disk J.Journal OwnsIdle s disk.new) }
    ensures twin { IfSome result (λ s. device_view twin.new ≡ idle_device s) }
{
    let Ok(bytes) = plan_bytes(alloc, recipe, number) else {
        drop(idle);
        return None;
    };
    let [tens, ones] = number;
    let accepted = accept(alloc, disk, idle, twin, &bytes, &[b'c', tens, ones]);
    drop(bytes);
    let booting = accepted?;
    close(alloc, disk, booting, twin)
}

/// Deploys 40 plans, one after another, and counts those that closed.
fn deploy_all<D: Disk, J: Journal + Drop>(
    alloc: Global,
    disk: &mut D,
    idle: Idle<J>,
    twin: &mut Device,
    recipe: &[u8],
) -> u8
    requires held { OwnsOver D.Disk J.Journal OwnsIdle idle disk.old }
    requires twin { device_view twin.old ≡ idle_device idle }
{
    let mut idle = idle;
    for at in 0..40u8 {
        let number = [b'1' + at / 10, b'0' + at % 10];
        match deploy(alloc, disk, idle, twin, recipe, number) {
            Some(next) => idle = next,
            None => return at,
        }
    }
    40
}

/// Makes a store and deploys 40 plans of this recipe: how many closed.
fn count_closed<D: Disk, J: Journal + Drop>(alloc: Global, disk: &mut D, recipe: &[u8]) -> u8 {
    match begin::<D, J>(alloc, disk) {
        Some((idle, twin)) => {
            let mut twin = twin;
            deploy_all(alloc, disk, idle, &mut twin, recipe)
        }
        None => 0,
    }
}

#[test]
fn forty_deployments_turn_twice(rt: HostRuntime) -> Result<(), Fail> {
    let alloc = rt.alloc();
    let recipe = long_recipe(alloc)?;
    let mut disk = MemoryDisk::new(alloc);
    assert!(rt; count_closed::<MemoryDisk, Slots>(alloc, &mut disk, &recipe) == 40);
    // There is a store now.
    assert!(rt; count_closed::<MemoryDisk, Slots>(alloc, &mut disk, &recipe) == 0);
    // Each slot begins with the record of a turn.
    assert!(rt; disk.file("journal").get(5..14) == Some(b"\x19\0\0\0\0\0\0\0\x02"));
    assert!(rt; disk.file("journal.b").get(5..14) == Some(b"\x19\0\0\0\0\0\0\0\x01"));
    Ok(())
}
