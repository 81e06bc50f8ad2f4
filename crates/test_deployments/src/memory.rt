// Deployments in which an allocation may be refused, which leaves a store that goes on. `examples/want-of-memory/run` refuses
// each allocation between the two marks in turn; with ample memory they end well.
use crate::hello;
use crate::stops::{ROLLBACK, Scene, asked_of, ends_of, first, goes_on, goes_on_over, scene_of};
use disk_model::MemoryDisk;
use std::alloc::Global;
use std::test::Fail;
use test_calls::{HELLO, answer_alone, begin, call, hello_library, mark};

/// Whether a call may answer so that answers this with ample memory: for want of memory, or because the disk or the sink found
/// none.
fn may_answer(said: &str, well: &str) -> bool {
    said.starts_with(well)
        || said.starts_with("15|")
        || said.starts_with("5|")
        || said.starts_with("6|")
}

/// Whether the runner found none for a start, and the deployment closed all the same: with either outcome, since the ends that the scene
/// lists are then those of other starts.
fn closes_behind_a_refused_start(said: &str) -> bool {
    said.contains(" notstarted;") && (said.starts_with("10|") || said.starts_with("0|"))
}

/// Whether the deployment over that disk ends as it does with ample memory.
fn ends_again(
    alloc: Global,
    scene: Scene,
    ends: &str,
    disk: &mut MemoryDisk,
) -> Result<bool, Fail> {
    let said = call(alloc, disk, asked_of(scene, "deploy", ends))?;
    let is_well = said.as_str().starts_with("10|");
    drop(said);
    Ok(is_well)
}

/// Whether the deployment of the scene answers as it may, each image goes on, and the disk too up to the close.
fn rolls_back(alloc: Global, scene: Scene, disk: &mut MemoryDisk) -> Result<bool, Fail> {
    let ends = ends_of(alloc, scene, "deploy", disk)?;
    mark(alloc);
    let said = call(alloc, disk, asked_of(scene, "deploy", ends))?;
    mark(alloc);
    let may_answer = may_answer(said.as_str(), "10|");
    let is_told = said.as_str().contains("|accepted d2;");
    let is_of_runner = closes_behind_a_refused_start(said.as_str());
    drop(said);
    if is_of_runner {
        return Ok(true);
    }
    let goes_on = goes_on(alloc, scene, disk, is_told)?;
    let is_resumed = goes_on_over(alloc, scene, disk, is_told)?;
    Ok(may_answer && goes_on && is_resumed && ends_again(alloc, scene, ends, disk)?)
}

#[test]
fn a_rollback_bears_want_of_memory(rt: HostRuntime) -> Result<(), Fail> {
    let (scene, _earlier) = scene_of(ROLLBACK);
    let mut disk = first(rt.alloc(), scene, "d1 ROLLBACK A 1.0.0")?;
    let bears = rolls_back(rt.alloc(), scene, &mut disk);
    drop(disk);
    assert!(rt; bears?);
    Ok(())
}

/// What the command says over a library of the first component.
fn say(alloc: Global, disk: &mut MemoryDisk, command: &str) -> Result<String, Fail> {
    let mut library = hello_library(alloc, &[])?;
    let said = answer_alone(alloc, disk, &mut library, command, HELLO, &[]);
    drop(library);
    said
}

/// Whether it answers 0.
fn goes_well(alloc: Global, disk: &mut MemoryDisk, command: &str) -> Result<bool, Fail> {
    let said = say(alloc, disk, command)?;
    let is_well = said.as_str().starts_with("0|");
    drop(said);
    Ok(is_well)
}

/// Whether the deployment of that component answers as it may, each image goes on, and the disk too up to the close.
fn hello_world_comes(alloc: Global, disk: &mut MemoryDisk) -> Result<bool, Fail> {
    mark(alloc);
    let said = say(alloc, disk, "deploy")?;
    mark(alloc);
    let may_answer = may_answer(said.as_str(), "0|");
    let is_told = said.as_str().contains("|accepted d1;");
    drop(said);
    let goes_on = hello::goes_on(alloc, disk, is_told)?;
    let is_resumed = goes_well(alloc, disk, "resume")?;
    Ok(may_answer && goes_on && is_resumed && goes_well(alloc, disk, "deploy")?)
}

#[test]
fn hello_world_bears_want_of_memory(rt: HostRuntime) -> Result<(), Fail> {
    let mut disk = begin(rt.alloc())?;
    let bears = hello_world_comes(rt.alloc(), &mut disk);
    drop(disk);
    assert!(rt; bears?);
    Ok(())
}
