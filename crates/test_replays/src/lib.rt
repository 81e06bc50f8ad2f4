//! Devices that journals in memory leave, for the tests of crates above `device`.
//!
//! It promises of such a device that it is sound and regular. Tests take their expected values from elsewhere.
#![tactic(auto)]

ghost use Rattle.std.specs.Prelude.{IfOk};
ghost use Rattle.device.specs.Devices.{device_view, IsRegularDevice};
ghost use Rattle.device.specs.Sound.{IsSound};

use device::{Device, replay};
use disk_model::{Disk, MemoryDisk};
use gate_log::{Journal, Log};
use std::alloc::Global;
use std::test::Fail;
use test_support::journal_of;

fn replayed(alloc: Global, disk: &mut MemoryDisk) -> Result<Device, Fail>
    ensures regular { IfOk result (λ d. IsRegularDevice (device_view d)) }
    ensures sound { IfOk result (λ d. IsSound (device_view d)) }
{
    let log = Log::find(disk)?;
    Ok(replay(alloc, &log, disk)?)
}

/// The device whose journal has these bytes.
pub fn device_from(alloc: Global, journal: &[u8]) -> Result<Device, Fail>
    ensures regular { IfOk result (λ d. IsRegularDevice (device_view d)) }
    ensures sound { IfOk result (λ d. IsSound (device_view d)) }
{
    let mut disk = MemoryDisk::new(alloc);
    disk.write_at("journal", 0, journal)?;
    let device = replayed(alloc, &mut disk);
    drop(disk);
    device
}

/// The device of a journal of the records with these names, which blanks part.
pub fn device_of(
    alloc: Global,
    records: &'static [(&'static str, &'static [u8])],
    history: &str,
) -> Result<Device, Fail>
    ensures regular { IfOk result (λ d. IsRegularDevice (device_view d)) }
    ensures sound { IfOk result (λ d. IsSound (device_view d)) }
{
    let journal = journal_of(alloc, records, history)?;
    let device = device_from(alloc, &journal);
    drop(journal);
    device
}
