// Deployments that are cut off: a disk that stops after each count of its calls, each image that a crash may leave then, and
// what `resume` makes of it.
use disk_model::{FusedDisk, MemoryDisk, Pick};
use nuc_base::List;
use std::alloc::{AllocError, Global};
use std::test::Fail;
use step_runner::{ScriptedRunner, Seen};
use test_calls::{Asked, begin, call, call_with, runner_of};

/// Deployments to be cut off: the recipes of the library; a script, and how the children of a call end whose first one runs it,
/// or of each call where the script is `*`, while in other calls all end well; the versions of a deployment `d1` that closed
/// before, and the policy and the versions of a deployment `d2`; and what `status` prints of the components and closed
/// deployments before `d2` and behind its close, with `;` for each line feed.
const SCENES: &str =
    "A 1.0.0 startup s1;A 2.0.0 startup s2 shutdown q2||A 1.0.0|d2 ROLLBACK A 2.0.0|require A 1.0.0;component A 1.0.0 {};closed d1 SUCCESSFUL;\
    |require A 2.0.0;component A 2.0.0 {};closed d1 SUCCESSFUL;closed d2 SUCCESSFUL;
A 1.0.0;A 2.0.0 startup s2 recover r2|s2 0 1 0,1 0 0,2 1 0,3 0 0,4 1 0|A 1.0.0|d2 DO_NOTHING A 2.0.0|require A 1.0.0;component A 1.0.0 {};\
    closed d1 SUCCESSFUL;|require A 2.0.0;component A 2.0.0 {};closed d1 SUCCESSFUL;closed d2 FAILED_ROLLBACK_NOT_REQUESTED;
";

/// The same of one that fails three times and is rolled back.
pub(crate) const ROLLBACK: &str =
    "A 1.0.0 startup s1;A 2.0.0 startup s2 recover r2|s2 0 1 0,1 0 0,2 1 0,3 0 0,4 1 0,5 0 0|A 1.0.0|d2 ROLLBACK A 2.0.0|\
    require A 1.0.0;component A 1.0.0 {};closed d1 SUCCESSFUL;|require A 1.0.0;component A 1.0.0 {};closed d1 SUCCESSFUL;closed d2 FAILED_ROLLBACK_COMPLETE;";

/// The same of one with two bootstraps, the first of which asks for a restart.
const BOOTSTRAPS: &str =
    "A 1.0.0;A 2.0.0 bootstrap a;B 1.0.0 bootstrap b|a 0 100 0|A 1.0.0|d2 ROLLBACK A 2.0.0 B 1.0.0|require A 1.0.0;component A 1.0.0 {};closed d1 SUCCESSFUL;|\
    require A 2.0.0;require B 1.0.0;component A 2.0.0 {};component B 1.0.0 {};closed d1 SUCCESSFUL;closed d2 SUCCESSFUL;";

/// The same of those whose bootstrap fails, and the set's runs again on the way back.
const BACKS: &str =
    "A 1.0.0 startup s1 again b1;A 2.0.0 bootstrap b2|b2 0 7 0,1 0 0|A 1.0.0|d2 ROLLBACK A 2.0.0|require A 1.0.0;component A 1.0.0 {};closed d1 SUCCESSFUL;|\
    require A 1.0.0;component A 1.0.0 {};closed d1 SUCCESSFUL;closed d2 FAILED_ROLLBACK_COMPLETE;
A 1.0.0 again b1;A 2.0.0 bootstrap b2|* 0 7 0,1 7 0|A 1.0.0|d2 ROLLBACK A 2.0.0|require A 1.0.0;component A 1.0.0 {};closed d1 SUCCESSFUL;|\
    require A 1.0.0;component A 1.0.0 {};closed d1 SUCCESSFUL;closed d2 FAILED_UNABLE_TO_ROLLBACK;
";

/// The same of requests made at the device: the command, and then the request.
const REQUEST_SCENES: &str = concat!(
    r#"A 1.0.0 startup s1;B 1.0.0 startup s2||A 1.0.0|local {"deploymentId":"d2","merge":{"B":"1.0.0"}}|require A 1.0.0;component A 1.0.0 {};"#,
    r#"closed d1 SUCCESSFUL;|require A 1.0.0;group local;require B 1.0.0;component A 1.0.0 {};component B 1.0.0 {};closed d1 SUCCESSFUL;closed d2 SUCCESSFUL;
A 1.0.0;B 1.0.0 startup s2|* 0 1 0,1 1 0,2 1 0|A 1.0.0|local {"deploymentId":"d2","merge":{"B":"1.0.0"}}|require A 1.0.0;"#,
    r#"component A 1.0.0 {};closed d1 SUCCESSFUL;|require A 1.0.0;component A 1.0.0 {};closed d1 SUCCESSFUL;closed d2 FAILED_ROLLBACK_COMPLETE;
A 1.0.0 startup s1||A 1.0.0|config-set --component A {"deploymentId":"d2","merge":{"p":1}}|"#,
    r#"require A 1.0.0;component A 1.0.0 {};closed d1 SUCCESSFUL;|require A 1.0.0;component A 1.0.0 {"p":1};closed d1 SUCCESSFUL;closed d2 SUCCESSFUL;
"#
);

/// A deployment to be cut off.
#[derive(Clone, Copy, Drop)]
pub(crate) struct Scene {
    command: &'static str,
    recipes: &'static str,
    script: &'static str,
    ends: &'static str,
    document: &'static str,
    before: &'static str,
    behind: &'static str,
}

const ALL_WELL: &str = "0 0 0,1 0 0,2 0 0,3 0 0,4 0 0,5 0 0,6 0 0,7 0 0,8 0 0,9 0 0";

pub(crate) fn asked_of<'a>(scene: Scene, command: &'a str, ends: &'a str) -> Asked<'a> {
    Asked {
        recipes: scene.recipes,
        command,
        document: scene.document,
        ends,
    }
}

/// Whether the first child that was started runs that script.
fn begins_with(runner: &ScriptedRunner, script: &str) -> bool {
    match runner.entries().as_slice() {
        [first, ..] => match &first.seen {
            Seen::Started(0, command) => command.script.as_str() == script,
            _ => false,
        },
        _ => false,
    }
}

/// The same of the call over that disk.
fn begins(
    alloc: Global,
    scene: Scene,
    command: &str,
    image: &mut MemoryDisk,
) -> Result<bool, Fail> {
    let mut runner = runner_of(alloc, "")?;
    let said = call_with(alloc, image, asked_of(scene, command, ""), &mut runner);
    let is_first = begins_with(&runner, scene.script);
    drop(runner);
    drop(said?);
    Ok(is_first)
}

/// How children end where this call is given over that disk.
pub(crate) fn ends_of(
    alloc: Global,
    scene: Scene,
    command: &str,
    disk: &MemoryDisk,
) -> Result<&'static str, Fail> {
    if scene.script == "*" {
        return Ok(scene.ends);
    }
    if scene.script.is_empty() {
        return Ok(ALL_WELL);
    }
    let mut image = disk.image(alloc, Pick::New)?;
    let is_first = begins(alloc, scene, command, &mut image);
    drop(image);
    Ok(if is_first? { scene.ends } else { ALL_WELL })
}

/// Deploys `d1`, with a restart where its bootstraps ask for one.
fn deploy_first(
    alloc: Global,
    scene: Scene,
    disk: &mut MemoryDisk,
    document: &str,
) -> Result<(), Fail> {
    for command in ["deploy", "resume"] {
        let asked = Asked {
            recipes: scene.recipes,
            command,
            document,
            ends: ALL_WELL,
        };
        drop(call(alloc, disk, asked)?);
    }
    Ok(())
}

/// The disk behind `d1`.
pub(crate) fn first(alloc: Global, scene: Scene, document: &str) -> Result<MemoryDisk, Fail> {
    let mut disk = begin(alloc)?;
    match deploy_first(alloc, scene, &mut disk, document) {
        Ok(()) => Ok(disk),
        Err(fault) => {
            drop(disk);
            Err(fault)
        }
    }
}

/// Gives the command, and whether the device asks to be restarted.
fn restarts(
    alloc: Global,
    scene: Scene,
    command: &str,
    disk: &mut MemoryDisk,
) -> Result<bool, Fail> {
    let ends = ends_of(alloc, scene, command, disk)?;
    let answer = call(alloc, disk, asked_of(scene, command, ends))?;
    let is_asked = answer.as_str().starts_with("100|");
    drop(answer);
    Ok(is_asked)
}

/// Gives `resume` until the device does not ask to be restarted, and then `status`.
fn resumed(alloc: Global, scene: Scene, disk: &mut MemoryDisk) -> Result<String, Fail> {
    for _call in 0..4u8 {
        if !restarts(alloc, scene, "resume", disk)? {
            break;
        }
    }
    call(alloc, disk, asked_of(scene, "status", ""))
}

/// Whether `status` has these lines behind those of the device and its group.
fn shows(alloc: Global, status: &str, lines: &str) -> Result<bool, AllocError> {
    let whole = format!(in alloc; "0|thing t1;nucleus 2.12.0;group g;{lines}")?;
    let is_shown = status == whole.as_str();
    drop(whole);
    Ok(is_shown)
}

/// Whether `status` shows the device of before or of behind, and the latter where the deployment was acknowledged.
fn is_device(alloc: Global, scene: Scene, status: &str, said: bool) -> Result<bool, AllocError> {
    let is_behind = shows(alloc, status, scene.behind)?;
    let is_before = shows(alloc, status, scene.before)?;
    Ok(is_behind || (is_before && !said))
}

/// Whether the image is resumed to that device.
pub(crate) fn goes_on_over(
    alloc: Global,
    scene: Scene,
    image: &mut MemoryDisk,
    said: bool,
) -> Result<bool, Fail> {
    let status = resumed(alloc, scene, image)?;
    let is_device = is_device(alloc, scene, status.as_str(), said);
    drop(status);
    Ok(is_device?)
}

/// Whether each image that the stop may leave is resumed to the device of before or of behind, and to the latter where the
/// deployment was acknowledged.
pub(crate) fn goes_on(
    alloc: Global,
    scene: Scene,
    disk: &MemoryDisk,
    said: bool,
) -> Result<bool, Fail> {
    for pick in [Pick::Old, Pick::New, Pick::Fill(0x01), Pick::Fill(0xff)] {
        let mut image = disk.image(alloc, pick)?;
        let is_right = goes_on_over(alloc, scene, &mut image, said);
        drop(image);
        if !is_right? {
            return Ok(false);
        }
    }
    Ok(true)
}

/// What comes of a call over a disk that stops.
#[derive(Clone, Copy, Drop)]
struct Cut {
    /// Whether the device goes on from each image that the stop may leave.
    goes_on: bool,
    /// Whether the call ended before the stop.
    has_ended: bool,
}

/// That call over that disk. A call that resumes has a deployment that was acknowledged.
fn cut_off(
    alloc: Global,
    scene: Scene,
    asked: Asked<'_>,
    fused: &mut FusedDisk,
) -> Result<Cut, Fail> {
    let answer = call(alloc, fused, asked)?;
    let said = asked.command == "resume" || answer.as_str().contains("|accepted d2;");
    let has_ended = !answer.as_str().starts_with("5|");
    drop(answer);
    Ok(Cut {
        goes_on: goes_on(alloc, scene, fused.disk(), said)?,
        has_ended,
    })
}

/// That call over a disk that stops after so many calls.
fn stopped(
    alloc: Global,
    scene: Scene,
    asked: Asked<'_>,
    disk: &MemoryDisk,
    stop: u64,
) -> Result<Cut, Fail> {
    let stable = disk.image(alloc, Pick::New)?;
    let mut fused = FusedDisk::new(stable, stop, List::empty(alloc));
    let stopped = cut_off(alloc, scene, asked, &mut fused);
    drop(fused);
    stopped
}

/// Stops that call after each count of calls of the disk. The first count of which a device is lost, or none; the calls that it
/// makes in all are fewer than these.
fn first_lost(
    alloc: Global,
    scene: Scene,
    command: &str,
    disk: &MemoryDisk,
) -> Result<Option<u64>, Fail> {
    let asked = asked_of(scene, command, ends_of(alloc, scene, command, disk)?);
    for stop in 0..400u64 {
        let stopped = stopped(alloc, scene, asked, disk, stop)?;
        if !stopped.goes_on {
            return Ok(Some(stop));
        }
        if stopped.has_ended {
            return Ok(None);
        }
    }
    Ok(Some(400))
}

/// The same of the call of the scene, and of each `resume` behind it where the device asks to be restarted.
fn first_lost_of_all(
    alloc: Global,
    scene: Scene,
    disk: &mut MemoryDisk,
) -> Result<Option<u64>, Fail> {
    let mut command = scene.command;
    for _call in 0..4u8 {
        if let Some(stop) = first_lost(alloc, scene, command, disk)? {
            return Ok(Some(stop));
        }
        if !restarts(alloc, scene, command, disk)? {
            return Ok(None);
        }
        command = "resume";
    }
    Ok(Some(0))
}

/// The command of a scene, and what it deploys: a request, or the words of a document.
fn command_of(words: &'static str) -> (&'static str, &'static str) {
    match words.split_once(" {") {
        Some((command, _)) => (command, words.get(command.len() + 1..).unwrap_or("")),
        None => ("deploy", words),
    }
}

/// The script of a scene, and how the children of a call end whose first one runs it.
fn script_of(words: &'static str) -> (&'static str, &'static str) {
    words.split_once(' ').unwrap_or(("", ""))
}

/// The scene of a line, and the deployment before it.
pub(crate) fn scene_of(line: &'static str) -> (Scene, &'static str) {
    let mut fields = line.splitn(6, '|');
    let recipes = fields.next().unwrap_or("");
    let (script, ends) = script_of(fields.next().unwrap_or(""));
    let earlier = fields.next().unwrap_or("");
    let (command, document) = command_of(fields.next().unwrap_or(""));
    let before = fields.next().unwrap_or("");
    let behind = fields.next().unwrap_or("?");
    (
        Scene {
            command,
            recipes,
            script,
            ends,
            document,
            before,
            behind,
        },
        earlier,
    )
}

/// The first count of calls of which the device of the scene is lost, behind this deployment, or none.
fn lost_behind(alloc: Global, scene: Scene, earlier: &str) -> Result<Option<u64>, Fail> {
    let mut disk = first(alloc, scene, earlier)?;
    let lost = first_lost_of_all(alloc, scene, &mut disk);
    drop(disk);
    lost
}

/// The same of the scene of a line.
fn lost_of(alloc: Global, line: &'static str) -> Result<Option<u64>, Fail> {
    let (scene, earlier) = scene_of(line);
    let named = format!(in alloc; "d1 ROLLBACK {earlier}")?;
    let lost = lost_behind(alloc, scene, named.as_str());
    drop(named);
    lost
}

/// The first of these scenes of which a device is lost, with the count of calls, or none.
fn first_wrong(alloc: Global, scenes: &'static str) -> Result<Option<(&'static str, u64)>, Fail> {
    for line in scenes.lines() {
        if let Some(stop) = lost_of(alloc, line)? {
            return Ok(Some((line, stop)));
        }
    }
    Ok(None)
}

#[test]
fn no_stop_strands_a_device(rt: HostRuntime) -> Result<(), Fail> {
    assert_eq!(rt; first_wrong(rt.alloc(), SCENES)?, None);
    Ok(())
}

#[test]
fn no_stop_of_a_rollback_strands_a_device(rt: HostRuntime) -> Result<(), Fail> {
    assert_eq!(rt; first_wrong(rt.alloc(), ROLLBACK)?, None);
    Ok(())
}

#[test]
fn no_stop_of_a_bootstrap_strands_a_device(rt: HostRuntime) -> Result<(), Fail> {
    assert_eq!(rt; first_wrong(rt.alloc(), BOOTSTRAPS)?, None);
    Ok(())
}

#[test]
fn no_stop_on_the_way_back_strands_a_device(rt: HostRuntime) -> Result<(), Fail> {
    assert_eq!(rt; first_wrong(rt.alloc(), BACKS)?, None);
    Ok(())
}

#[test]
fn no_stop_of_a_request_strands_a_device(rt: HostRuntime) -> Result<(), Fail> {
    assert_eq!(rt; first_wrong(rt.alloc(), REQUEST_SCENES)?, None);
    Ok(())
}
