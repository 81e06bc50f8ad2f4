// The command `components`.
ghost use Rattle.std.specs.Prelude.{◌≡◌, ◌≢◌, ◌≤◌, ◌⊎◌, ◌++◌, IfOk, IfErr, IsErrOf, IsTrue, OnOk, length, map};
ghost use Rattle.std.specs.List.{flat_map};
ghost use Rattle.disk_model.specs.Disk.{HasLeft};
ghost use Rattle.nuc_base.specs.Faults.{Rose};
ghost use Rattle.device.specs.Devices.{device_view};
ghost use Rattle.records.specs.Stored.{item_view};
ghost use Rattle.nucleus_top.specs.Answers.{store_over};
ghost use Rattle.nucleus_top.specs.Components.{ComponentsAnswer, ListsStopped, RunningOutcome, running_text, stopped_line};
ghost use Rattle.nucleus_top.specs.Looks.{LookAnswer};

use crate::answer::Answer;
use crate::opening::{HasDevice, open, refused};
use device::Device;
use disk_model::Disk;
use nuc_base::{NoMemory, Text};
use records::Item;
use status_text::put_line;
use std::alloc::Global;

/// The most bytes of the file `running` that are read.
const MOST_RUNNING: usize = 262_144;

/// The text that the bytes are, where they are some and UTF-8.
fn text_of(alloc: Global, bytes: &[u8]) -> Result<Option<Text>, NoMemory>
    ensures { IfOk result (RunningOutcome bytes.now) }
{
    if bytes.is_empty() {
        return Ok(None);
    }
    match str::from_utf8(bytes) {
        Ok(text) => Ok(Some(Text::from_str(alloc, text)?)),
        Err(_) => Ok(None),
    }
}

/// Adds the line of a component that nobody runs.
fn put_stopped(out: &mut Text, item: &Item) -> Result<(), NoMemory>
    ensures { OnOk result (out.new ≡ out.old ++ stopped_line (item_view item.now)) }
{
    let version = item.version.text();
    put_line(
        out,
        "component",
        &[item.name.as_str(), version.as_str(), "STOPPED"],
    )
}

fn put_all_stopped(out: &mut Text, items: &[Item]) -> Result<(), NoMemory>
    ensures { OnOk result (out.new ≡ out.old ++ flat_map stopped_line (map item_view items.now)) }
{
    for item in items {
        put_stopped(out, item)?;
    }
    Ok(())
}

/// The components of the device's set, none of which runs.
fn list_stopped(alloc: Global, device: &Device) -> Answer
    ensures { ListsStopped (device_view device.now) result }
{
    let mut out = Text::empty(alloc);
    match put_all_stopped(&mut out, device.set.as_slice()) {
        Ok(()) => Answer::Shown(out),
        Err(_) => Answer::NoMemory,
    }
}

/// The same of a state's device.
fn list_stored<S: HasDevice + Drop>(alloc: Global, state: S) -> Answer
    ensures { ListsStopped (S.stands_for state) result }
{
    list_stopped(alloc, state.stored())
}

/// The components of the set of the device for which the journal stands.
fn list_set<D: Disk>(alloc: Global, disk: &mut D) -> Answer
    ensures comes { LookAnswer (store_over D.Disk disk.old disk.new) ListsStopped result }
    ensures moments { HasLeft D.moment D.left_since disk.old disk.new (D.may_leave disk.old) }
    ensures seen { D.seen disk.new ≡ D.seen disk.old }
    ensures quiet { result ≢ Answer.DiskFailed → D.faults disk.new ≡ D.faults disk.old }
    ensures later { D.faults disk.old ≤ D.faults disk.new }
{
    match open(alloc, disk) {
        Ok(state) => list_stored(alloc, state),
        Err(fault) => refused(alloc, fault),
    }
}

/// What a program that runs the components says of them: the file `running`, in one read, so that one view is told whole also
/// where another takes its place meanwhile. None where the file is not there or no text.
fn running_in<D: Disk>(
    alloc: Global,
    disk: &mut D,
    piece: &mut [u8],
) -> Result<Option<Text>, Answer>
    requires { length piece.old ≡ 262144 }
    ensures told { IsTrue D.is_modelled → IfOk result (RunningOutcome (running_text (D.seen disk.old))) }
    ensures failed { IfErr result (λ a. (a ≡ Answer.DiskFailed) ⊎ (a ≡ Answer.NoMemory)) }
    ensures seen { D.seen disk.new ≡ D.seen disk.old }
    ensures moments { HasLeft D.moment D.left_since disk.old disk.new (D.may_leave disk.old) }
    ensures cause { IsErrOf result Answer.DiskFailed → Rose (D.faults disk.old) (D.faults disk.new) }
    ensures quiet { ¬ (IsErrOf result Answer.DiskFailed) → D.faults disk.new ≡ D.faults disk.old }
    ensures later { D.faults disk.old ≤ D.faults disk.new }
{
    let Ok(count) = disk.read("running", 0, piece) else {
        return Err(Answer::DiskFailed);
    };
    match text_of(alloc, &piece[..count]) {
        Ok(text) => Ok(text),
        Err(NoMemory) => Err(Answer::NoMemory),
    }
}

/// The same, with room for the read.
fn running<D: Disk>(alloc: Global, disk: &mut D) -> Result<Option<Text>, Answer>
    ensures told { IsTrue D.is_modelled → IfOk result (RunningOutcome (running_text (D.seen disk.old))) }
    ensures failed { IfErr result (λ a. (a ≡ Answer.DiskFailed) ⊎ (a ≡ Answer.NoMemory)) }
    ensures seen { D.seen disk.new ≡ D.seen disk.old }
    ensures moments { HasLeft D.moment D.left_since disk.old disk.new (D.may_leave disk.old) }
    ensures cause { IsErrOf result Answer.DiskFailed → Rose (D.faults disk.old) (D.faults disk.new) }
    ensures quiet { ¬ (IsErrOf result Answer.DiskFailed) → D.faults disk.new ≡ D.faults disk.old }
    ensures later { D.faults disk.old ≤ D.faults disk.new }
{
    let Ok(mut piece) = vec![in alloc; 0u8; MOST_RUNNING] else {
        return Err(Answer::NoMemory);
    };
    running_in(alloc, disk, &mut piece)
}

/// Lists the components. Where another program holds the lock of the writers, the lines of the file `running` are printed, if it
/// is there: how that program last saw them. Else they are those of the set of the device for which the journal stands, which
/// nobody runs. It writes nothing to the disk.
pub fn components<D: Disk>(alloc: Global, disk: &mut D) -> Answer
    ensures comes { ComponentsAnswer (D.writer disk.old) (store_over D.Disk disk.old disk.new) result }
    ensures moments { HasLeft D.moment D.left_since disk.old disk.new (D.may_leave disk.old) }
    ensures seen { D.seen disk.new ≡ D.seen disk.old }
    ensures quiet { result ≢ Answer.DiskFailed → D.faults disk.new ≡ D.faults disk.old }
    ensures later { D.faults disk.old ≤ D.faults disk.new }
{
    if !disk.has_writer() {
        return list_set(alloc, disk);
    }
    match running(alloc, disk) {
        Ok(Some(text)) => Answer::Shown(text),
        Ok(None) => list_set(alloc, disk),
        Err(failed) => failed,
    }
}
