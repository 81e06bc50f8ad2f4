// Which calls fail.
ghost use Rattle.std.specs.Prelude.{◌≡◌, ◌≤◌, ◌↔◌, IsTrue, OnOk};
ghost use Rattle.nuc_base.specs.Faults.{HasCause, Rose};

use crate::disk::DiskFault;
use nuc_base::List;

/// From which call on every call fails, which others fail, how many calls came, and how many faults were answered.
/// The counts stand still at the greatest 64-bit number.
#[derive(Drop)]
pub struct Fuse {
    pub stop_after: u64,
    pub failing: List<u64>,
    pub calls: u64,
    pub faults: u64,
}

impl Fuse {
    ghost use Rattle.disk_model.specs.Fuse.{IsBlown, IsCounted, HasFuse};

    /// Whether this call fails. Counts the call.
    pub fn blows(&mut self) -> bool
        ensures blown { IsTrue result ↔ IsBlown self.old }
        ensures counted { IsCounted self.old self.new }
        ensures faults { self.new.faults ≡ self.old.faults }
    {
        let call = self.calls;
        self.calls = call.saturating_add(1);
        self.stop_after <= call || self.failing.as_slice().contains(&call)
    }

    /// Counts a fault.
    pub fn fault(&mut self) -> DiskFault
        ensures rose { Rose self.old.faults self.new.faults }
        ensures later { self.old.faults ≤ self.new.faults }
        ensures fuse { HasFuse self.old self.new }
    {
        self.faults = self.faults.saturating_add(1);
        DiskFault
    }

    /// The answer of the disk inside, whose fault is counted.
    pub fn pass<T: Drop>(&mut self, answer: Result<T, DiskFault>) -> Result<T, DiskFault>
        ensures same { result ≡ answer }
        ensures cause { HasCause self.old.faults self.new.faults result }
        ensures quiet { OnOk result (self.new.faults ≡ self.old.faults) }
        ensures fuse { HasFuse self.old self.new }
    {
        if answer.is_err() {
            self.faults = self.faults.saturating_add(1);
        }
        answer
    }
}
