// The command `status`.
ghost use Rattle.std.specs.Prelude.{◌≡◌, ◌≢◌, ◌≤◌, IfOk};
ghost use Rattle.std.specs.Option.{IsSome};
ghost use Rattle.disk_model.specs.Disk.{HasLeft};
ghost use Rattle.command_words.specs.declared.order.Order.TheVariants as order;
ghost use Rattle.deploy_state.specs.Loading.{IsReady};
ghost use Rattle.device.specs.Devices.{device_view, IsRegularDevice};
ghost use Rattle.nucleus_top.specs.Answers.{store_over};
ghost use Rattle.nucleus_top.specs.Shows.{StatusAnswer, ShowsDevice, shown};
ghost use Rattle.nucleus_top.specs.Leaving.{IsDurableIfDone};

use crate::answer::Answer;
use crate::opening::{HasDevice, open, refused};
use device::Device;
use disk_model::Disk;
use nuc_base::{NoMemory, Text};
use status_text::{status_json, status_lines};
use std::alloc::Global;

/// The status of a device: its lines, or one line of JSON.
fn status_of(alloc: Global, json: bool, device: &Device) -> Result<Text, NoMemory>
    requires origin { IsSome device.now.origin }
    requires regular { IsRegularDevice (device_view device.now) }
    ensures { IfOk result (λ text. text ≡ shown json (device_view device.now)) }
{
    if !json {
        return status_lines(alloc, device);
    }
    let mut text = status_json(alloc, device)?;
    text.push_str("\n")?;
    Ok(text)
}

fn show<S: HasDevice + Drop>(alloc: Global, json: bool, state: S) -> Answer
    requires ready { IsReady (S.stands_for state) }
    ensures { ShowsDevice json (S.stands_for state) result }
{
    match status_of(alloc, json, state.stored()) {
        Ok(text) => Answer::Shown(text),
        Err(_) => Answer::NoMemory,
    }
}

/// Shows the device for which the journal stands. It writes nothing to the disk.
pub fn status<D: Disk>(alloc: Global, json: bool, disk: &mut D) -> Answer
    ensures comes { StatusAnswer json (store_over D.Disk disk.old disk.new) result }
    ensures moments { HasLeft D.moment D.left_since disk.old disk.new (D.may_leave disk.old) }
    ensures keeps { IsDurableIfDone (order.Status json) (D.may_leave disk.new) (D.seen disk.new) result }
    ensures seen { D.seen disk.new ≡ D.seen disk.old }
    ensures quiet { result ≢ Answer.DiskFailed → D.faults disk.new ≡ D.faults disk.old }
    ensures later { D.faults disk.old ≤ D.faults disk.new }
{
    match open(alloc, disk) {
        Ok(state) => show(alloc, json, state),
        Err(fault) => refused(alloc, fault),
    }
}
