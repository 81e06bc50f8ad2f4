// The state that a journal stands for.
ghost use Rattle.std.specs.Prelude.{◌≡◌, ◌≤◌, ◌≢◌, [], ℕ, List, IsTrue, IsErrOf, IfOk};
ghost use Rattle.nuc_base.specs.Faults.{Rose};
ghost use Rattle.disk_model.specs.Disk.{HasLeft};
ghost use Rattle.gate_log.specs.Journal.{AreSettled, IsBehind};
ghost use Rattle.device.specs.Devices.{device_view};
ghost use Rattle.device.specs.Sound.{IsSound};
ghost use Rattle.device.specs.Spares.{IsSpareOf};
ghost use Rattle.deploy_state.specs.Loading.{IsOf, IsReady, LoadOutcome};
ghost use Rattle.deploy_state.specs.Objects.{OwnsOver};
ghost use Rattle.deploy_state.specs.States.{OwnsLoaded, IsIn, device_of, loaded_device};

use crate::fault::LoadFault;
use crate::state::{Activating, Backing, Booting, Hand, Idle, Loaded, Rolling};
use device::{Device, ReplayFault, Stage, replay};
use disk_model::Disk;
use gate_log::{FindFault, Journal};
use nuc_base::NoMemory;
use std::alloc::Global;

impl<J: Journal + Drop> Loaded<J> {
    /// The device for which the journal stands.
    pub fn device(&self) -> &Device
        ensures { device_view result.now ≡ loaded_device self.now }
    {
        match self {
            Loaded::Idle(state) => state.device(),
            Loaded::Booting(state) => state.device(),
            Loaded::Activating(state) => state.device(),
            Loaded::Backing(state) => state.device(),
            Loaded::Rolling(state) => state.device(),
        }
    }
}

fn in_stage<J: Journal + Drop>(stage: Stage, hand: Hand<J>) -> Loaded<J>
    requires stage { IsIn stage (device_of hand) }
    requires spare { IsSpareOf hand.spare (device_of hand) }
    ensures { IsOf hand.log (device_of hand) result }
{
    match stage {
        Stage::Booting => Loaded::Booting(Booting { hand }),
        Stage::Activating => Loaded::Activating(Activating { hand }),
        Stage::Backing => Loaded::Backing(Backing { hand }),
        Stage::Rolling => Loaded::Rolling(Rolling { hand }),
    }
}

/// The state of this device. Where a deployment is pending, what its steps need is made ready.
fn stated<J: Journal + Drop>(alloc: Global, log: J, device: Device) -> Result<Loaded<J>, NoMemory>
    requires sound { IsSound (device_view device) }
    ensures { IfOk result (IsOf log (device_view device)) }
{
    let Some(pending) = &device.pending else {
        return Ok(Loaded::Idle(Idle { log, device }));
    };
    let stage = pending.stage;
    match device.spare(alloc, &pending.plan) {
        Ok(spare) => Ok(in_stage(stage, Hand { log, device, spare })),
        Err(NoMemory) => {
            drop(device);
            drop(log);
            Err(NoMemory)
        }
    }
}

/// Replays the entries behind which the journal stands. Those of a disk that does not keep what it holds may give a
/// device without an origin, which is a fault of the first entry.
fn replayed<D: Disk, J: Journal + Drop>(
    alloc: Global,
    log: J,
    disk: &mut D,
) -> Result<Loaded<J>, LoadFault>
    requires open { (payloads : List (List ℕ)) × IsBehind D.may_leave J.stands log disk.old payloads }
    requires some { IsTrue D.is_modelled → (payloads : List (List ℕ)) × J.stands log (D.seen disk.old) payloads × (payloads ≢ []) }
    requires settled { AreSettled D.seen D.may_leave J.files disk.old }
    ensures told { IsTrue D.is_modelled → LoadOutcome J.entries J.holds_none J.is_damaged (D.seen disk.old) result }
    ensures held { IfOk result (λ s. OwnsOver D.Disk J.Journal OwnsLoaded s disk.new) }
    ensures ready { IfOk result (λ s. IsReady (loaded_device s)) }
    ensures settled { AreSettled D.seen D.may_leave J.files disk.new }
    ensures seen { D.seen disk.new ≡ D.seen disk.old }
    ensures moments { HasLeft D.moment D.left_since disk.old disk.new (D.may_leave disk.old) }
    ensures found { IsErrOf result LoadFault.NotInitialised → ⊥ }
    ensures cause { IsErrOf result LoadFault.Disk → Rose (D.faults disk.old) (D.faults disk.new) }
    ensures quiet { ¬ (IsErrOf result LoadFault.Disk) → D.faults disk.new ≡ D.faults disk.old }
    ensures later { D.faults disk.old ≤ D.faults disk.new }
{
    match replay(alloc, &log, disk) {
        Ok(device) => {
            if device.origin.is_none() {
                return Err(LoadFault::Damaged(0));
            }
            match stated(alloc, log, device) {
                Ok(state) => Ok(state),
                Err(NoMemory) => Err(LoadFault::NoMemory),
            }
        }
        Err(ReplayFault::Disk) => Err(LoadFault::Disk),
        Err(ReplayFault::Damaged(at)) => Err(LoadFault::Damaged(at)),
        Err(ReplayFault::NoMemory) => Err(LoadFault::NoMemory),
    }
}

/// Makes the journal stable, finds it and replays it. It writes nothing.
pub fn load<D: Disk, J: Journal + Drop>(alloc: Global, disk: &mut D) -> Result<Loaded<J>, LoadFault>
    ensures told { IsTrue D.is_modelled → LoadOutcome J.entries J.holds_none J.is_damaged (D.seen disk.old) result }
    ensures held { IfOk result (λ s. OwnsOver D.Disk J.Journal OwnsLoaded s disk.new) }
    ensures ready { IfOk result (λ s. IsReady (loaded_device s)) }
    // A crash leaves the journal's files as they read.
    ensures settled { ¬ (IsErrOf result LoadFault.Disk) → AreSettled D.seen D.may_leave J.files disk.new }
    ensures seen { D.seen disk.new ≡ D.seen disk.old }
    ensures moments { HasLeft D.moment D.left_since disk.old disk.new (D.may_leave disk.old) }
    ensures cause { IsErrOf result LoadFault.Disk → Rose (D.faults disk.old) (D.faults disk.new) }
    ensures quiet { ¬ (IsErrOf result LoadFault.Disk) → D.faults disk.new ≡ D.faults disk.old }
    ensures later { D.faults disk.old ≤ D.faults disk.new }
{
    match J::find(disk) {
        Ok(log) => replayed(alloc, log, disk),
        Err(FindFault::Disk) => Err(LoadFault::Disk),
        Err(FindFault::NotInitialised) => Err(LoadFault::NotInitialised),
        Err(FindFault::Damaged(at)) => Err(LoadFault::Damaged(at)),
    }
}
