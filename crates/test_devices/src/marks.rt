// A deployment that closes by a mark.
ghost use Rattle.std.specs.Prelude.{IsTrue};
ghost use Rattle.nuc_base.specs.declared.kinds.Outcome.TheVariants as outcomes;
ghost use Rattle.device.specs.Devices.{device_view, pending_view};
ghost use Rattle.device.specs.Lawful.{MayClose};
ghost use Rattle.device.specs.Sound.{IsSound};

use crate::histories::{record_named, replayed};
use device::{Device, Mark, Pending, Stage, broken_of};
use nuc_base::Outcome;
use std::alloc::Global;
use std::test::Fail;

/// Whether the pending deployment may close as successful.
fn may_close(pending: &Pending) -> bool
    ensures { IsTrue result → MayClose (pending_view pending.now) outcomes.Successful }
{
    pending.stage == Stage::Activating && broken_of(&pending.failures).is_none()
}

/// Closes the pending deployment by a mark, where that is lawful, and says whether the mark was written as its record.
fn close(alloc: Global, device: &mut Device) -> Result<bool, Fail>
    requires { IsSound (device_view device.old) }
{
    let mark = Mark::Closed(Outcome::Successful);
    let Some(pending) = &device.pending else {
        return Ok(false);
    };
    if !may_close(pending) {
        return Ok(false);
    }
    let mut spare = device.spare(alloc, &pending.plan)?;
    let mut bytes = [0; 1024];
    let size = device.write_mark(mark, &spare, &mut bytes);
    device.apply_mark(mark, &mut spare);
    Ok(&bytes[..size] == record_named("close-successful"))
}

/// What came of a close: whether its mark was written, and how many closed deployments, groups and components there are then.
type Close = (bool, usize, usize, usize);

/// What comes of a close on this device.
fn closed_on(alloc: Global, device: &mut Device) -> Result<Close, Fail>
    requires { IsSound (device_view device.old) }
{
    let is_written = close(alloc, device)?;
    Ok((
        is_written,
        device.closed.len(),
        device.groups.len(),
        device.set.len(),
    ))
}

/// What comes of a close on the device of a journal.
fn closed(alloc: Global) -> Result<Close, Fail> {
    match replayed(alloc, "genesis bare activate")? {
        Some(mut device) => {
            let answer = closed_on(alloc, &mut device);
            drop(device);
            answer
        }
        None => Ok((false, 0, 0, 0)),
    }
}

#[test]
fn a_plan_closes_by_a_mark(rt: HostRuntime) -> Result<(), Fail> {
    assert!(rt; closed(rt.alloc())? == (true, 1, 1, 2));
    Ok(())
}
