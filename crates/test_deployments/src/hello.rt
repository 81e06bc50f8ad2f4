// The first component of the developer guide, with its file, and files that the library lacks or has otherwise.
ghost use Rattle.std.specs.Prelude.{◌≡◌, []};
ghost use Rattle.step_runner.specs.Scripted.{living_of};

use disk_model::{Disk, FusedDisk, MemoryDisk, Pick};
use nuc_base::List;
use std::alloc::Global;
use std::process::Abort;
use std::test::Fail;
use step_runner::{RunnerEntry, ScriptedRunner, Seen};
use test_calls::{HELLO, answer, answer_alone, begin, hello_library, runner_of};

const NOTHING: &str =
    r#"{"deploymentId":"d2","targetArn":"arn:aws:iot:us-east-1:123456789012:thinggroup/g1","components":{}}"#;

const FILE: &str = "packages/artifacts/com.example.HelloWorld/1.0.0/hello_world.py";

const SCRIPT: &str =
    "python3 -u /gg/packages/artifacts/com.example.HelloWorld/1.0.0/hello_world.py \"world\"";

const CHANGE: &str = r#"{"deploymentId":"c1","merge":{"Message":"you"}}"#;

const OTHER_CHANGE: &str = r#"{"deploymentId":"c2"}"#;

/// The script that the component has behind the first of these.
const CHANGED_SCRIPT: &str =
    "python3 -u /gg/packages/artifacts/com.example.HelloWorld/1.0.0/hello_world.py \"you\"";

const STATUS: &str =
    "0|thing t1;nucleus 2.12.0;group arn:aws:iot:us-east-1:123456789012:thinggroup/g1;require com.example.HelloWorld 1.0.0;\
    component com.example.HelloWorld 1.0.0 {\"Message\":\"world\"};closed d1 SUCCESSFUL;";

/// What a call over that library prints, where the library and the sink fail these calls.
fn answer_to(
    alloc: Global,
    disk: &mut MemoryDisk,
    command: &str,
    document: &str,
    faults: (&[u64], &[u64]),
) -> Result<String, Fail> {
    let mut library = hello_library(alloc, faults.0)?;
    let text = answer_alone(alloc, disk, &mut library, command, document, faults.1);
    drop(library);
    text
}

/// Whether that is this.
fn prints(
    alloc: Global,
    disk: &mut MemoryDisk,
    command: &str,
    document: &str,
    faults: (&[u64], &[u64]),
    want: &str,
) -> Result<bool, Fail> {
    let text = answer_to(alloc, disk, command, document, faults)?;
    let is_wanted = text.as_str() == want;
    drop(text);
    Ok(is_wanted)
}

/// What `deploy` over that library prints with this runner.
fn deploy<D: Disk>(alloc: Global, disk: &mut D, runner: &mut ScriptedRunner) -> Result<String, Fail>
    requires none { living_of runner.old ≡ [] }
{
    let mut library = hello_library(alloc, &[])?;
    let text = answer(alloc, disk, &mut library, runner, "deploy", HELLO, &[]);
    drop(library);
    text
}

/// Whether child 0 was started with this script, in the component's folder.
fn starts(entry: &RunnerEntry, script: &str) -> bool {
    match &entry.seen {
        Seen::Started(0, command) => {
            command.script.as_str() == script
                && command.env.is_empty()
                && command.folder.as_str() == "/gg/work/com.example.HelloWorld"
        }
        _ => false,
    }
}

/// Whether child 0 was started so, and then killed.
fn starts_and_kills(runner: &ScriptedRunner, script: &str) -> bool {
    match runner.entries().as_slice() {
        [first, last] => starts(first, script) && matches!(last.seen, Seen::Killed(0)),
        _ => false,
    }
}

/// Deploys the component with this runner.
fn hello_world_runs(
    rt: &impl Abort,
    alloc: Global,
    disk: &mut MemoryDisk,
    runner: &mut ScriptedRunner,
) -> Result<(), Fail>
    requires none { living_of runner.old ≡ [] }
{
    let said = deploy(alloc, disk, runner)?;
    assert_eq!(rt; said.as_str(), "0|accepted d1;closed d1 SUCCESSFUL;");
    drop(said);
    assert!(rt; starts_and_kills(runner, SCRIPT));
    Ok(())
}

/// Deploys the component.
fn hello_world_comes(rt: &impl Abort, alloc: Global, disk: &mut MemoryDisk) -> Result<(), Fail> {
    let mut runner = runner_of(alloc, "")?;
    let run = hello_world_runs(rt, alloc, disk, &mut runner);
    drop(runner);
    run
}

/// Looks at what the device has then.
fn hello_world_is_there(rt: &impl Abort, alloc: Global, disk: &mut MemoryDisk) -> Result<(), Fail> {
    assert!(rt; prints(alloc, disk, "status", "", (&[], &[]), STATUS)?);
    assert!(rt; prints(alloc, disk, "audit", "", (&[], &[]), "0|whole;")?);
    let stopped = "0|component com.example.HelloWorld 1.0.0 STOPPED;";
    assert!(rt; prints(alloc, disk, "components", "", (&[], &[]), stopped)?);
    assert!(rt; disk.file(FILE) == b"abc".as_slice());
    Ok(())
}

/// A document without components takes all away.
fn hello_world_is_taken_away(
    rt: &impl Abort,
    alloc: Global,
    disk: &mut MemoryDisk,
) -> Result<(), Fail> {
    let closed = "0|accepted d2;closed d2 SUCCESSFUL;";
    assert!(rt; prints(alloc, disk, "deploy", NOTHING, (&[], &[]), closed)?);
    assert!(rt; disk.file(FILE).is_empty());
    Ok(())
}

/// Deploys the component, and then nothing.
fn hello_world_comes_and_goes(
    rt: &impl Abort,
    alloc: Global,
    disk: &mut MemoryDisk,
) -> Result<(), Fail> {
    hello_world_comes(rt, alloc, disk)?;
    hello_world_is_there(rt, alloc, disk)?;
    hello_world_is_taken_away(rt, alloc, disk)
}

#[test]
fn hello_world_is_deployed(rt: HostRuntime) -> Result<(), Fail> {
    let mut disk = begin(rt.alloc())?;
    let gone = hello_world_comes_and_goes(&rt, rt.alloc(), &mut disk);
    drop(disk);
    gone
}

/// Reads the component's configuration, and a node that it has not.
fn configuration_is_read(
    rt: &impl Abort,
    alloc: Global,
    disk: &mut MemoryDisk,
) -> Result<(), Fail> {
    let get = "config-get --component com.example.HelloWorld --pointer /Message";
    assert!(rt; prints(alloc, disk, get, "", (&[], &[]), "0|\"world\";")?);
    let get = "config-get --component com.example.HelloWorld --pointer /x";
    let refused = "19|refused 19 NoNode com.example.HelloWorld /x;";
    assert!(rt; prints(alloc, disk, get, "", (&[], &[]), refused)?);
    Ok(())
}

/// What the change prints with this runner, over a library that would fail its first call.
fn change(alloc: Global, disk: &mut MemoryDisk, runner: &mut ScriptedRunner) -> Result<String, Fail>
    requires none { living_of runner.old ≡ [] }
{
    let set = "config-set --component com.example.HelloWorld";
    let mut library = hello_library(alloc, &[0])?;
    let text = answer(alloc, disk, &mut library, runner, set, CHANGE, &[]);
    drop(library);
    text
}

/// Changes the component's configuration, which its script has then.
fn configuration_is_changed(
    rt: &impl Abort,
    alloc: Global,
    disk: &mut MemoryDisk,
) -> Result<(), Fail> {
    let mut runner = runner_of(alloc, "")?;
    let said = change(alloc, disk, &mut runner);
    let is_started = starts_and_kills(&runner, CHANGED_SCRIPT);
    drop(runner);
    let said = said?;
    assert_eq!(rt; said.as_str(), "0|accepted c1;closed c1 SUCCESSFUL;");
    drop(said);
    assert!(rt; is_started);
    Ok(())
}

/// Deploys the component, and then reads and changes its configuration.
fn hello_world_is_configured(
    rt: &impl Abort,
    alloc: Global,
    disk: &mut MemoryDisk,
) -> Result<(), Fail> {
    hello_world_comes(rt, alloc, disk)?;
    configuration_is_read(rt, alloc, disk)?;
    configuration_is_changed(rt, alloc, disk)?;
    let set = "config-set --component Y";
    let refused = "19|refused 19 NoComponent Y;";
    assert!(rt; prints(alloc, disk, set, OTHER_CHANGE, (&[0], &[]), refused)?);
    Ok(())
}

#[test]
fn a_configuration_is_read_and_changed(rt: HostRuntime) -> Result<(), Fail> {
    let mut disk = begin(rt.alloc())?;
    let configured = hello_world_is_configured(&rt, rt.alloc(), &mut disk);
    drop(disk);
    configured
}

/// Whether `resume` closes the deployment, or there is none.
fn resumes(alloc: Global, image: &mut MemoryDisk) -> Result<bool, Fail> {
    let resume = answer_to(alloc, image, "resume", "", (&[], &[]))?;
    let is_idle = resume.as_str() == "0|idle;";
    let is_resumed = resume.as_str() == "0|resumed d1;closed d1 SUCCESSFUL;";
    drop(resume);
    Ok(is_idle || is_resumed)
}

/// Whether this image has the files of its device, and is resumed to the close of the deployment, or to none where it was not
/// acknowledged.
fn is_resumed(alloc: Global, image: &mut MemoryDisk, is_said: bool) -> Result<bool, Fail> {
    let is_whole = prints(alloc, image, "audit", "", (&[], &[]), "0|whole;")?;
    let is_right = resumes(alloc, image)?;
    let is_closed = prints(alloc, image, "status", "", (&[], &[]), STATUS)?;
    Ok(is_whole && is_right && (is_closed || !is_said))
}

/// Whether each image that the stop may leave goes on so.
pub(crate) fn goes_on(alloc: Global, disk: &MemoryDisk, is_said: bool) -> Result<bool, Fail> {
    for pick in [Pick::Old, Pick::New, Pick::Fill(0x01)] {
        let mut image = disk.image(alloc, pick)?;
        let is_right = is_resumed(alloc, &mut image, is_said);
        drop(image);
        if !is_right? {
            return Ok(false);
        }
    }
    Ok(true)
}

/// What comes of a deployment over a disk that stops.
#[derive(Clone, Copy, Drop)]
struct Cut {
    /// Whether the device goes on from each image that the stop may leave.
    goes_on: bool,
    /// Whether the deployment ended before the stop.
    has_ended: bool,
}

/// What the deployment says over that disk.
fn said(alloc: Global, disk: &mut FusedDisk) -> Result<String, Fail> {
    let mut runner = runner_of(alloc, "")?;
    let text = deploy(alloc, disk, &mut runner);
    drop(runner);
    text
}

/// The deployment over that disk.
fn cut_off(alloc: Global, disk: &mut FusedDisk) -> Result<Cut, Fail> {
    let said = said(alloc, disk)?;
    let is_said = said.as_str().contains("|accepted d1;");
    let has_ended = !said.as_str().starts_with("5|");
    drop(said);
    Ok(Cut {
        goes_on: goes_on(alloc, disk.disk(), is_said)?,
        has_ended,
    })
}

/// The deployment over a disk that stops after so many calls.
fn stopped(alloc: Global, store: &MemoryDisk, stop: u64) -> Result<Cut, Fail> {
    let stable = store.image(alloc, Pick::New)?;
    let mut disk = FusedDisk::new(stable, stop, List::empty(alloc));
    let stopped = cut_off(alloc, &mut disk);
    drop(disk);
    stopped
}

/// Stops the deployment after each count of calls, up to its end.
fn each_stop_is_resumed(rt: &impl Abort, alloc: Global, store: &MemoryDisk) -> Result<(), Fail> {
    for stop in 0..400u64 {
        let stopped = stopped(alloc, store, stop)?;
        assert!(rt; stopped.goes_on, "after {stop} calls");
        if stopped.has_ended {
            return Ok(());
        }
    }
    assert!(rt; false, "the deployment does not end");
    Ok(())
}

#[test]
fn a_stopped_hello_world_is_resumed(rt: HostRuntime) -> Result<(), Fail> {
    let store = begin(rt.alloc())?;
    let resumed = each_stop_is_resumed(&rt, rt.alloc(), &store);
    drop(store);
    resumed
}

/// Fails a call of the library, which leaves nothing to resume.
fn library_fails(rt: &impl Abort, alloc: Global, disk: &mut MemoryDisk) -> Result<(), Fail> {
    // Call 0 of the library counts its recipes, and call 1 reads the first.
    let refused = "7|refused 7 library;";
    assert!(rt; prints(alloc, disk, "deploy", HELLO, (&[1], &[]), refused)?);
    assert!(rt; prints(alloc, disk, "resume", "", (&[], &[]), "0|idle;")?);
    Ok(())
}

/// Fails a call of the sink, and resumes behind it.
fn sink_fails(rt: &impl Abort, alloc: Global, disk: &mut MemoryDisk) -> Result<(), Fail> {
    assert!(rt; prints(alloc, disk, "deploy", HELLO, (&[], &[0]), "6|")?);
    let closed = "0|resumed d1;closed d1 SUCCESSFUL;";
    assert!(rt; prints(alloc, disk, "resume", "", (&[], &[]), closed)?);
    Ok(())
}

/// Both, one after the other.
fn faults_are_told(rt: &impl Abort, alloc: Global, disk: &mut MemoryDisk) -> Result<(), Fail> {
    library_fails(rt, alloc, disk)?;
    sink_fails(rt, alloc, disk)
}

#[test]
fn faults_of_the_library_and_the_sink_are_told(rt: HostRuntime) -> Result<(), Fail> {
    let mut disk = begin(rt.alloc())?;
    let told = faults_are_told(&rt, rt.alloc(), &mut disk);
    drop(disk);
    told
}
