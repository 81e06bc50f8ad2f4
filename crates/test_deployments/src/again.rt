// A bootstrap that was begun before a stop, and whose end was not recorded.
ghost use Rattle.std.specs.Prelude.{◌≡◌, []};
ghost use Rattle.step_runner.specs.Scripted.{living_of};

use disk_model::{Disk, FusedDisk, MemoryDisk, Pick};
use nuc_base::List;
use std::alloc::Global;
use std::test::Fail;
use step_runner::{ScriptedRunner, Seen};
use test_calls::{Asked, begin, call_with, runner_of};

const RECIPES: &str = "A 1.0.0 bootstrap a";

const ENDS: &str = "0 0 0";

/// The entry of a journal that the bootstrap of A begins: an open gate, the length, and the record.
const BEGUN: &[u8] = &[1, 0, 0, 0, 6, 0x13, 0, 0, 0, 1, 0x41];

/// What a call over that library prints. Its one child ends well, and the runner tells what it started.
fn call<D: Disk>(
    alloc: Global,
    disk: &mut D,
    command: &str,
    runner: &mut ScriptedRunner,
) -> Result<String, Fail>
    requires none { living_of runner.old ≡ [] }
{
    let asked = Asked {
        recipes: RECIPES,
        command,
        document: "d1 ROLLBACK A 1.0.0",
        ends: ENDS,
    };
    call_with(alloc, disk, asked, runner)
}

/// Whether the first thing that the runner did was to start that bootstrap.
fn starts(runner: &ScriptedRunner) -> bool {
    match runner.entries().as_slice() {
        [first, ..] => match &first.seen {
            Seen::Started(0, command) => command.script.as_str() == "a",
            _ => false,
        },
        _ => false,
    }
}

/// Whether the journal has one entry with which the bootstrap begins.
fn begins_once(disk: &MemoryDisk) -> bool {
    let entries = disk.file("journal").windows(BEGUN.len());
    entries.filter(|bytes| *bytes == BEGUN).count() == 1
}

/// Whether `resume` over that image says that it goes on and restarts, and starts the bootstrap again.
fn starts_again(alloc: Global, image: &mut MemoryDisk) -> Result<bool, Fail> {
    let mut runner = runner_of(alloc, ENDS)?;
    let said = call(alloc, image, "resume", &mut runner);
    let is_started = starts(&runner);
    drop(runner);
    let said = said?;
    let is_said = said.as_str() == "100|resumed d1;restart d1;";
    drop(said);
    Ok(is_said && is_started)
}

/// Whether `resume` starts the bootstrap again, behind the one entry that says that it began.
fn runs_again(alloc: Global, disk: &FusedDisk) -> Result<bool, Fail> {
    let mut image = disk.disk().image(alloc, Pick::Old)?;
    let is_started = starts_again(alloc, &mut image);
    let is_once = begins_once(&image);
    drop(image);
    Ok(is_started? && is_once)
}

/// What comes of the bootstrap where the disk stops.
#[derive(Clone, Copy, Drop)]
enum Cut {
    /// The deployment ended before the stop.
    Never,
    /// The bootstrap was not started.
    Before,
    /// It was started, and runs again.
    Again,
    /// It was started, and does not run again as it should.
    Lost,
}

/// Whether the deployment over that disk was stopped, and whether it started the bootstrap.
fn deploy(alloc: Global, disk: &mut FusedDisk) -> Result<(bool, bool), Fail> {
    let mut runner = runner_of(alloc, ENDS)?;
    let said = call(alloc, disk, "deploy", &mut runner);
    let is_started = starts(&runner);
    drop(runner);
    let said = said?;
    let is_stopped = said.as_str().starts_with("5|");
    drop(said);
    Ok((is_stopped, is_started))
}

/// Deploys over that disk, and goes on where it stopped behind the start of the bootstrap.
fn cut_off(alloc: Global, disk: &mut FusedDisk) -> Result<Cut, Fail> {
    let (is_stopped, is_started) = deploy(alloc, disk)?;
    if !is_stopped {
        return Ok(Cut::Never);
    }
    if !is_started {
        return Ok(Cut::Before);
    }
    Ok(if runs_again(alloc, disk)? {
        Cut::Again
    } else {
        Cut::Lost
    })
}

/// The same over a disk that stops after so many calls.
fn stopped(alloc: Global, store: &MemoryDisk, stop: u64) -> Result<Cut, Fail> {
    let stable = store.image(alloc, Pick::New)?;
    let mut disk = FusedDisk::new(stable, stop, List::empty(alloc));
    let stopped = cut_off(alloc, &mut disk);
    drop(disk);
    stopped
}

/// How often a stop cut the bootstrap off, where it runs again behind each of them.
fn count_over(alloc: Global, store: &MemoryDisk) -> Result<Option<u64>, Fail> {
    let mut found = 0u64;
    for stop in 0..400u64 {
        match stopped(alloc, store, stop)? {
            Cut::Never => return Ok(Some(found)),
            Cut::Before => {}
            Cut::Again => found = found.saturating_add(1),
            Cut::Lost => return Ok(None),
        }
    }
    Ok(None)
}

/// The same over a new store.
fn count_again(alloc: Global) -> Result<Option<u64>, Fail> {
    let store = begin(alloc)?;
    let count = count_over(alloc, &store);
    drop(store);
    count
}

#[test]
fn a_begun_bootstrap_runs_again(rt: HostRuntime) -> Result<(), Fail> {
    // The end is one entry: three writes, the sync of these, the gate and its sync.
    assert_eq!(rt; count_again(rt.alloc())?, Some(6));
    Ok(())
}
