// The command `workload`.
ghost use Rattle.std.specs.Prelude.{◌≡◌, [], false, IfOk, OnOk};
ghost use Rattle.disk_model.specs.Memory.{seen_by};
ghost use Rattle.library_core.specs.Memory.{library_content};
ghost use Rattle.device.specs.Devices.{Device as Stored, device_view};
ghost use Rattle.workload.specs.Answers.{is_want};
ghost use Rattle.workload.specs.Runner.{living_of};
ghost use Rattle.workload.specs.Tallies.{tally_line, tally_of};
ghost use Rattle.nucleus_top.specs.Begun.{begun_device};
ghost use Rattle.nucleus_top.specs.Workloads.{DeviceAfterOne, DeviceAfterAll, IsBegunAs, IsTally, TellsTally, workload_origin};

use crate::answer::Answer;
use crate::driving::deploy;
use crate::init::init;
use crate::opening::{HasDevice, open};
use admission::Ask;
use device::Device;
use disk_model::MemoryDisk;
use edges::{MemorySink, MemorySource};
use library_core::MemoryLibrary;
use npm_ranges::Version;
use nuc_base::{Bytes, Label, List, NoMemory, Platform, Status, Text};
use records::Origin;
use std::alloc::Global;
use workload::{DrawRunner, count_outcomes, draw, tally_text, wants_memory};

fn label_of(alloc: Global, text: &str) -> Result<Label, NoMemory>
    ensures { IfOk result (λ l. l ≡ text.now) }
{
    Label::read(alloc, text.as_bytes()).map_err(|_| NoMemory)
}

/// What the store of a workload begins with.
fn origin_of(alloc: Global) -> Result<Origin, NoMemory>
    ensures { IfOk result (λ o. o ≡ workload_origin) }
{
    let root = Text::from_str(alloc, "/w")?;
    let thing = label_of(alloc, "w")?;
    let nucleus = Version::read(alloc, "2.12.0".as_bytes()).map_err(|_| NoMemory)?;
    let os = label_of(alloc, "linux")?;
    let architecture = label_of(alloc, "amd64")?;
    Ok(Origin {
        root,
        thing,
        nucleus,
        platform: Platform { os, architecture },
    })
}

/// Makes the store of a workload.
fn begin(alloc: Global, disk: &mut MemoryDisk) -> Result<(), NoMemory>
    ensures { OnOk result (IsBegunAs (seen_by disk.new) (begun_device workload_origin)) }
{
    let origin = origin_of(alloc)?;
    match init(alloc, origin, disk) {
        Answer::Made(_) => Ok(()),
        _ => Err(NoMemory),
    }
}

/// Deploys one document.
fn deploy_one(
    alloc: Global,
    document: Bytes,
    disk: &mut MemoryDisk,
    library: &mut MemoryLibrary,
    runner: &mut DrawRunner,
) -> Status
    requires none { living_of runner.old ≡ [] }
    ensures none { living_of runner.new ≡ [] }
    ensures kept { library_content library.new ≡ library_content library.old }
    ensures through { is_want result ≡ false → (d : Stored) → IsBegunAs (seen_by disk.old) d
        → (e : Stored) × IsBegunAs (seen_by disk.new) e × DeviceAfterOne (library_content library.old) document d e }
{
    let mut source = MemorySource::new(document, List::empty(alloc));
    let mut lines = MemorySink::new(alloc, List::empty(alloc));
    deploy(
        alloc,
        &Ask::Document,
        disk,
        library,
        &mut source,
        &mut lines,
        runner,
    )
}

/// Deploys the documents one after another, as long as there is memory.
fn deploy_all(
    alloc: Global,
    documents: List<Bytes>,
    disk: &mut MemoryDisk,
    library: &mut MemoryLibrary,
    runner: &mut DrawRunner,
) -> Result<(), NoMemory>
    requires none { living_of runner.old ≡ [] }
    ensures { OnOk result ((d : Stored) → IsBegunAs (seen_by disk.old) d
        → (e : Stored) × IsBegunAs (seen_by disk.new) e × DeviceAfterAll (library_content library.old) documents d e) }
{
    for document in documents.into_vec() {
        if wants_memory(deploy_one(alloc, document, disk, library, runner)) {
            return Err(NoMemory);
        }
    }
    Ok(())
}

/// The line of the deployments that are closed on the device.
fn line_on(alloc: Global, seed: u64, device: &Device) -> Result<Text, NoMemory>
    ensures { IfOk result (λ text. text ≡ tally_line seed (tally_of (device_view device.now).closed)) }
{
    let tally = count_outcomes(device.closed.as_slice());
    tally_text(alloc, seed, tally)
}

/// The same of a state's device.
fn line_stored<T: HasDevice + Drop>(alloc: Global, seed: u64, state: T) -> Result<Text, NoMemory>
    ensures { IfOk result (λ text. text ≡ tally_line seed (tally_of (T.stands_for state).closed)) }
{
    line_on(alloc, seed, state.stored())
}

/// The same of the device for which the journal stands.
fn line_of(alloc: Global, seed: u64, disk: &mut MemoryDisk) -> Result<Text, NoMemory>
    ensures { IfOk result (λ text. (d : Stored) → IsBegunAs (seen_by disk.old) d → text ≡ tally_line seed (tally_of d.closed)) }
{
    match open(alloc, disk) {
        Ok(state) => line_stored(alloc, seed, state),
        Err(_) => Err(NoMemory),
    }
}

/// Runs the workload of the seed over objects in memory, and gives its line.
fn ran(alloc: Global, seed: u64) -> Result<Text, NoMemory>
    ensures { IfOk result (λ text. IsTally seed text) }
{
    let drawn = draw(alloc, seed)?;
    let mut disk = MemoryDisk::new(alloc);
    begin(alloc, &mut disk)?;
    let mut library = MemoryLibrary::new(drawn.recipes, List::empty(alloc), List::empty(alloc));
    let mut runner = DrawRunner::new(alloc, drawn.state);
    deploy_all(alloc, drawn.documents, &mut disk, &mut library, &mut runner)?;
    line_of(alloc, seed, &mut disk)
}

/// Runs 32 deployments that a seed draws, over objects in memory, by what `deploy` does, and tells how they closed.
pub(crate) fn draw_workload(alloc: Global, seed: u64) -> Answer
    ensures { TellsTally seed result }
{
    match ran(alloc, seed) {
        Ok(line) => Answer::Drawn(line),
        Err(_) => Answer::NoMemory,
    }
}
