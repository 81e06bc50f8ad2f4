// The device for which the journal stands when a command begins.
ghost use Rattle.std.specs.Prelude.{◌≡◌, ◌≤◌, IfOk, IsErrOf, IsTrue};
ghost use Rattle.device.specs.Devices.{Device as Stored, device_view};
ghost use Rattle.nuc_base.specs.Faults.{Rose};
ghost use Rattle.disk_model.specs.Disk.{HasLeft};
ghost use Rattle.gate_log.specs.Journal.{AreSettled};
ghost use Rattle.checkpoint_log.specs.Slots.{slots_files, slots_stands};
ghost use Rattle.deploy_state.specs.Loading.{IsReady};
ghost use Rattle.deploy_state.specs.States.{OwnsLoaded, loaded_device};
ghost use Rattle.nucleus_top.specs.Opening.{OpenAnswer};
ghost use Rattle.nucleus_top.specs.Inits.{IsPlace};
ghost use Rattle.nucleus_top.specs.Refusing.{TellsFault};

use crate::answer::Answer;
use checkpoint_log::Slots;
use deploy_state::{LoadFault, Loaded, load};
use device::Device;
use disk_model::Disk;
use nuc_base::Text;
use std::alloc::Global;

/// A state that stands for a device. The commands that only look at the device take any, so that what else a state owns is
/// no concern of theirs.
pub trait HasDevice {
    /// The device.
    ghost stands_for: { Self → Stored };

    fn stored(&self) -> &Device
        ensures { device_view result.now ≡ stands_for self.now };
}

impl HasDevice for Loaded<Slots> {
    ghost use Rattle.deploy_state.specs.States.{loaded_device};

    ghost stands_for = { loaded_device };

    fn stored(&self) -> &Device {
        self.device()
    }
}

/// Makes the journal stable and replays it. It writes nothing.
pub fn open<D: Disk>(alloc: Global, disk: &mut D) -> Result<Loaded<Slots>, LoadFault>
    ensures told { IsTrue D.is_modelled → OpenAnswer (D.seen disk.old) result }
    ensures held { IfOk result (λ s. OwnsLoaded D.is_modelled D.may_leave slots_stands (λ log. log.live.end) s disk.new) }
    ensures ready { IfOk result (λ s. IsReady (loaded_device s)) }
    // A crash leaves the journal as it reads.
    ensures settled { ¬ (IsErrOf result LoadFault.Disk) → AreSettled D.seen D.may_leave slots_files disk.new }
    ensures seen { D.seen disk.new ≡ D.seen disk.old }
    ensures moments { HasLeft D.moment D.left_since disk.old disk.new (D.may_leave disk.old) }
    ensures cause { IsErrOf result LoadFault.Disk → Rose (D.faults disk.old) (D.faults disk.new) }
    ensures quiet { ¬ (IsErrOf result LoadFault.Disk) → D.faults disk.new ≡ D.faults disk.old }
    ensures later { D.faults disk.old ≤ D.faults disk.new }
{
    load(alloc, disk)
}

/// The refusal of a journal that stands for no device.
fn damaged(alloc: Global, at: u64) -> Answer
    ensures { IsPlace at result }
{
    match format!(in alloc; "{at}") {
        Ok(place) => Answer::Damaged(Text::new(place)),
        Err(_) => Answer::NoMemory,
    }
}

/// What is answered where the journal gives no device.
pub fn refused(alloc: Global, fault: LoadFault) -> Answer
    ensures { TellsFault fault result }
{
    match fault {
        LoadFault::Disk => Answer::DiskFailed,
        LoadFault::NotInitialised => Answer::NotInitialised,
        LoadFault::Damaged(at) => damaged(alloc, at),
        LoadFault::NoMemory => Answer::NoMemory,
    }
}
