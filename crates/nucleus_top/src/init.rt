// The command `init`.
ghost use Rattle.std.specs.Prelude.{◌≡◌, ◌≢◌, ◌≤◌, ℕ, List, IsTrue, length};
ghost use Rattle.std.specs.Option.{IsSome};
ghost use Rattle.disk_model.specs.Disk.{HasLeft};
ghost use Rattle.gate_log.specs.Journal.{AreSettled};
ghost use Rattle.checkpoint_log.specs.Slots.{slots_files, slots_none};
ghost use Rattle.records.specs.declared.record.Origin.{Origin};
ghost use Rattle.command_words.specs.declared.order.Order.TheVariants as order;
ghost use Rattle.deploy_state.specs.Loading.{IsReady};
ghost use Rattle.device.specs.Devices.{device_view};
ghost use Rattle.nucleus_top.specs.Answers.{store_over};
ghost use Rattle.nucleus_top.specs.Inits.{InitAnswer, NamesThing};
ghost use Rattle.nucleus_top.specs.Leaving.{IsDurableIfDone, MayBeLeftAfter};

use crate::answer::Answer;
use crate::opening::{HasDevice, open, refused};
use checkpoint_log::Slots;
use deploy_state::{CreateFault, Idle, LoadFault};
use device::Device;
use disk_model::Disk;
use nuc_base::Copied;
use records::Origin;
use std::alloc::Global;

/// Begins a store whose journal holds no entry. All memory is taken before the first write.
fn begin<D: Disk>(alloc: Global, origin: Origin, disk: &mut D) -> Answer
    requires none { IsTrue D.is_modelled → slots_none (D.seen disk.old) }
    requires settled { AreSettled D.seen D.may_leave slots_files disk.old }
    requires short { length origin.root ≤ 1024 }
    ensures comes { InitAnswer origin (store_over D.Disk disk.old disk.new) result }
    ensures moments { HasLeft D.moment D.left_since disk.old disk.new (MayBeLeftAfter (order.Init origin) (D.may_leave disk.old)) }
    ensures keeps { IsDurableIfDone (order.Init origin) (D.may_leave disk.new) (D.seen disk.new) result }
    ensures others { IsTrue D.is_modelled → (name : List ℕ) → ¬ (slots_files name) → D.seen disk.new name ≡ D.seen disk.old name }
    ensures quiet { result ≢ Answer.DiskFailed → D.faults disk.new ≡ D.faults disk.old }
    ensures later { D.faults disk.old ≤ D.faults disk.new }
{
    let Ok(thing) = origin.thing.copy(alloc) else {
        return Answer::NoMemory;
    };
    let made: Result<Idle<Slots>, CreateFault> = Idle::create(alloc, disk, origin);
    match made {
        Ok(idle) => {
            drop(idle);
            Answer::Made(thing)
        }
        Err(fault) => match fault {
            CreateFault::Disk => Answer::DiskFailed,
            CreateFault::NoMemory => Answer::NoMemory,
        },
    }
}

/// The refusal of a store that stands for a device.
fn initialised(alloc: Global, device: &Device) -> Answer
    requires { IsSome device.now.origin }
    ensures { NamesThing (device_view device.now) result }
{
    match device.origin.as_ref().unwrap().thing.copy(alloc) {
        Ok(thing) => Answer::Initialised(thing),
        Err(_) => Answer::NoMemory,
    }
}

/// The same of a state's device.
fn initialised_stored<S: HasDevice + Drop>(alloc: Global, state: S) -> Answer
    requires ready { IsReady (S.stands_for state) }
    ensures { NamesThing (S.stands_for state) result }
{
    initialised(alloc, state.stored())
}

/// Makes the store of this origin, unless there is one.
pub fn init<D: Disk>(alloc: Global, origin: Origin, disk: &mut D) -> Answer
    requires { length origin.root ≤ 1024 }
    ensures comes { InitAnswer origin (store_over D.Disk disk.old disk.new) result }
    ensures moments { HasLeft D.moment D.left_since disk.old disk.new (MayBeLeftAfter (order.Init origin) (D.may_leave disk.old)) }
    ensures keeps { IsDurableIfDone (order.Init origin) (D.may_leave disk.new) (D.seen disk.new) result }
    ensures others { IsTrue D.is_modelled → (name : List ℕ) → ¬ (slots_files name) → D.seen disk.new name ≡ D.seen disk.old name }
    ensures quiet { result ≢ Answer.DiskFailed → D.faults disk.new ≡ D.faults disk.old }
    ensures later { D.faults disk.old ≤ D.faults disk.new }
{
    match open(alloc, disk) {
        Ok(state) => initialised_stored(alloc, state),
        Err(fault) => match fault {
            LoadFault::NotInitialised => begin(alloc, origin, disk),
            other => refused(alloc, other),
        },
    }
}
