// One failing call at a time of each object under the deployment of the first component: what it answers, and what `resume`
// makes of what is left.
use disk_model::{FusedDisk, MemoryDisk, Pick};
use library_core::MemoryLibrary;
use nuc_base::List;
use std::alloc::Global;
use std::test::Fail;
use test_calls::{Failing, HELLO, answer_alone, answer_failing, begin, hello_library, runner_of};

/// What fails.
#[derive(Clone, Copy, Debug, Drop, PartialEq, Eq)]
enum Object {
    Disk,
    Library,
    Source,
    Sink,
}

/// Each with a number of calls that it does not get.
const OBJECTS: [(Object, u64); 4] = [
    (Object::Disk, 160),
    (Object::Library, 16),
    (Object::Source, 8),
    (Object::Sink, 16),
];

/// What the call answers where a call of the object fails, if not 0.
fn status_of(object: Object) -> &'static str {
    match object {
        Object::Disk => "5|",
        Object::Library => "7|",
        Object::Source | Object::Sink => "6|",
    }
}

/// These calls where this object fails, and none where another one does.
fn calls_of(object: Object, failing: Object, calls: &[u64]) -> &[u64] {
    if object == failing { calls } else { &[] }
}

/// What the deployment says where a call of the source or the sink fails, over a library that may fail one.
fn deploy(
    alloc: Global,
    disk: &mut FusedDisk,
    library: &mut MemoryLibrary,
    object: Object,
    calls: &[u64],
) -> Result<String, Fail> {
    let mut runner = runner_of(alloc, "")?;
    let failing = Failing {
        source: calls_of(Object::Source, object, calls),
        sink: calls_of(Object::Sink, object, calls),
    };
    let said = answer_failing(alloc, disk, library, &mut runner, "deploy", HELLO, failing);
    drop(runner);
    said
}

/// What it says where that call of the object fails.
fn said(alloc: Global, disk: &mut FusedDisk, object: Object, number: u64) -> Result<String, Fail> {
    let calls = [number];
    let mut library = hello_library(alloc, calls_of(Object::Library, object, &calls))?;
    let said = deploy(alloc, disk, &mut library, object, &calls);
    drop(library);
    said
}

/// What `resume` says over that image.
fn resume(alloc: Global, image: &mut MemoryDisk) -> Result<String, Fail> {
    let mut library = hello_library(alloc, &[])?;
    let said = answer_alone(alloc, image, &mut library, "resume", "", &[]);
    drop(library);
    said
}

/// Whether it goes on there, or finds nothing to go on with.
fn goes_on_over(alloc: Global, image: &mut MemoryDisk) -> Result<bool, Fail> {
    let said = resume(alloc, image)?;
    let is_idle = said.as_str() == "0|idle;";
    let is_resumed = said.as_str() == "0|resumed d1;closed d1 SUCCESSFUL;";
    drop(said);
    Ok(is_idle || is_resumed)
}

/// Whether it goes on from what the disk reads as, and from what a crash leaves where all that is not stable is lost.
fn goes_on(alloc: Global, disk: &FusedDisk) -> Result<bool, Fail> {
    for pick in [Pick::New, Pick::Old] {
        let mut image = disk.disk().image(alloc, pick)?;
        let is_right = goes_on_over(alloc, &mut image);
        drop(image);
        if !is_right? {
            return Ok(false);
        }
    }
    Ok(true)
}

/// What comes of a deployment one of whose calls fails.
#[derive(Clone, Copy, Debug, Drop, PartialEq, Eq)]
enum Outcome {
    /// It answers 0.
    Well,
    /// It answers the fault of the object.
    Fault,
    /// It answers something else, or does not go on.
    Wrong,
}

/// What comes of it over that disk.
fn comes_over(
    alloc: Global,
    disk: &mut FusedDisk,
    object: Object,
    number: u64,
) -> Result<Outcome, Fail> {
    let said = said(alloc, disk, object, number)?;
    let is_well = said.as_str() == "0|accepted d1;closed d1 SUCCESSFUL;";
    let is_fault = said.as_str().starts_with(status_of(object));
    drop(said);
    if !goes_on(alloc, disk)? {
        return Ok(Outcome::Wrong);
    }
    Ok(if is_well {
        Outcome::Well
    } else if is_fault {
        Outcome::Fault
    } else {
        Outcome::Wrong
    })
}

/// The same where that call of the object fails.
fn comes(alloc: Global, store: &MemoryDisk, object: Object, number: u64) -> Result<Outcome, Fail> {
    let mut failing = List::empty(alloc);
    if object == Object::Disk {
        failing.push(number)?;
    }
    let mut disk = FusedDisk::new(store.image(alloc, Pick::New)?, u64::MAX, failing);
    let comes = comes_over(alloc, &mut disk, object, number);
    drop(disk);
    comes
}

/// The first call of the object at whose failure something else comes, or none. It gets fewer than these.
fn first_wrong_of(
    alloc: Global,
    store: &MemoryDisk,
    object: Object,
    most: u64,
) -> Result<Option<u64>, Fail> {
    for number in 0..most {
        if comes(alloc, store, object, number)? == Outcome::Wrong {
            return Ok(Some(number));
        }
    }
    let is_most = comes(alloc, store, object, most)? == Outcome::Well;
    Ok(if is_most { None } else { Some(most) })
}

/// The same of all objects.
fn first_wrong(alloc: Global, store: &MemoryDisk) -> Result<Option<(Object, u64)>, Fail> {
    for (object, most) in OBJECTS {
        if let Some(number) = first_wrong_of(alloc, store, object, most)? {
            return Ok(Some((object, number)));
        }
    }
    Ok(None)
}

#[test]
fn each_failing_call_is_told_and_resumed(rt: HostRuntime) -> Result<(), Fail> {
    let store = begin(rt.alloc())?;
    let wrong = first_wrong(rt.alloc(), &store);
    drop(store);
    assert_eq!(rt; wrong?, None);
    Ok(())
}
