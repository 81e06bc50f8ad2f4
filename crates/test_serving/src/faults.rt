// One failing call at a time of each device under a call that serves, and one that stops with the disk at each of its calls:
// what it answers, and what `resume` makes of what is left.
use crate::calls::{Asked, call};
use disk_model::{FusedDisk, MemoryDisk, Pick};
use nuc_base::List;
use std::alloc::{AllocError, Global};
use std::test::Fail;
use test_calls::begin;

const RECIPES: &str =
    r#"D 1.0.0 run d;H 1.0.0 {"D":{}} run h;S 1.0.0 {"D":{"DependencyType":"SOFT"}} run s"#;

const FIRST: &str = "d1 ROLLBACK D 1.0.0 H 1.0.0 S 1.0.0&closed";

const SECOND: &str = r#"d2 ROLLBACK D 1.0.0{"k":2} H 1.0.0 S 1.0.0&closed"#;

/// More calls than a device gets in this one.
const MOST_CALLS: u64 = 200;

/// What fails under the call.
#[derive(Clone, Copy, Debug, Drop, PartialEq, Eq)]
enum Device {
    Disk,
    /// The disk, with all its later calls.
    Stop,
    Library,
    Inbox,
    Sink,
    /// A start is refused.
    Runner,
}

/// A call of a device that fails, counted from 0.
#[derive(Clone, Copy, Drop)]
struct Fault {
    device: Device,
    number: u64,
}

/// A start that never comes.
const NO_FAULT: Fault = Fault {
    device: Device::Runner,
    number: MOST_CALLS,
};

const DEVICES: [Device; 6] = [
    Device::Disk,
    Device::Stop,
    Device::Library,
    Device::Inbox,
    Device::Sink,
    Device::Runner,
];

/// Whether a call that serves may so answer where one call of the device fails. A library that fails is a line.
fn may_answer(device: Device, said: &str) -> bool {
    let status = match device {
        Device::Disk | Device::Stop => "5|",
        Device::Inbox | Device::Sink => "6|",
        Device::Library | Device::Runner => "0|",
    };
    said.starts_with("0|") || said.starts_with(status)
}

/// How the call of a device in memory fails.
fn failing_of(alloc: Global, fault: Fault) -> Result<String, AllocError> {
    let number = fault.number;
    match fault.device {
        Device::Library => format!(in alloc; "library {number}"),
        Device::Inbox => format!(in alloc; "inbox {number}"),
        Device::Sink => format!(in alloc; "sink {number}"),
        Device::Runner => format!(in alloc; "refuse {number}"),
        Device::Disk | Device::Stop => Ok(String::new(alloc)),
    }
}

/// A disk like that one. Where the disk is what fails, that call of it does.
fn fused(alloc: Global, disk: &MemoryDisk, fault: Fault) -> Result<FusedDisk, Fail> {
    let stop = if fault.device == Device::Stop {
        fault.number
    } else {
        u64::MAX
    };
    let mut failing = List::empty(alloc);
    if fault.device == Device::Disk {
        failing.push(fault.number)?;
    }
    Ok(FusedDisk::new(disk.image(alloc, Pick::New)?, stop, failing))
}

pub(crate) fn asked_of<'a>(command: &'a str, documents: &'a str, outside: &'a str) -> Asked<'a> {
    Asked {
        recipes: RECIPES,
        command,
        documents,
        outside,
    }
}

/// What the call says that changes a configuration.
fn serve(alloc: Global, disk: &mut FusedDisk, fault: Fault) -> Result<String, Fail> {
    let outside = failing_of(alloc, fault)?;
    let said = call(
        alloc,
        disk,
        asked_of("serve --turns 3", SECOND, outside.as_str()),
    );
    drop(outside);
    said
}

/// Whether `resume` on that image answers 0: nothing is pending, or the deployment closes.
fn resumes(alloc: Global, image: &mut MemoryDisk) -> Result<bool, Fail> {
    let said = call(alloc, image, asked_of("resume", "", ""))?;
    let is_idle = said.as_str() == "0|idle;|";
    let is_resumed = said
        .as_str()
        .starts_with("0|resumed d2;closed d2 SUCCESSFUL;|");
    drop(said);
    Ok(is_idle || is_resumed)
}

/// Whether the deployment is among the closed ones.
fn is_closed(alloc: Global, image: &mut MemoryDisk) -> Result<bool, Fail> {
    let said = call(alloc, image, asked_of("status", "", ""))?;
    let is_closed = said.as_str().contains(";closed d2 SUCCESSFUL;|");
    drop(said);
    Ok(is_closed)
}

/// Whether that image is resumed, and the deployment is closed then where it was acknowledged.
fn is_resumed(alloc: Global, image: &mut MemoryDisk, is_told: bool) -> Result<bool, Fail> {
    Ok(resumes(alloc, image)? && (is_closed(alloc, image)? || !is_told))
}

/// Whether each image that a crash may leave is resumed so.
fn goes_on(alloc: Global, disk: &FusedDisk, is_told: bool) -> Result<bool, Fail> {
    for pick in [Pick::Old, Pick::New, Pick::Fill(0x01), Pick::Fill(0xff)] {
        let mut image = disk.disk().image(alloc, pick)?;
        let is_right = is_resumed(alloc, &mut image, is_told);
        drop(image);
        if !is_right? {
            return Ok(false);
        }
    }
    Ok(true)
}

/// What comes of a call of a device that fails.
#[derive(Clone, Copy, Drop, PartialEq, Eq)]
enum Outcome {
    /// The device was not called so often.
    Unreached,
    /// The call answers as it may, and what it leaves is resumed.
    Resumed,
    Lost,
}

/// What the call says over a disk: that which it says where nothing fails, or an answer that may be.
#[derive(Clone, Copy, Drop)]
struct Said {
    is_plain: bool,
    is_answer: bool,
    is_told: bool,
}

fn said_of(device: Device, said: &str, plain: &str) -> Said {
    Said {
        is_plain: said == plain,
        is_answer: may_answer(device, said),
        is_told: said.contains("|accepted d2;"),
    }
}

/// The same of the call over this disk.
fn said_over(alloc: Global, disk: &mut FusedDisk, fault: Fault, plain: &str) -> Result<Said, Fail> {
    let text = serve(alloc, disk, fault)?;
    let said = said_of(fault.device, text.as_str(), plain);
    drop(text);
    Ok(said)
}

/// What comes of the fault over this disk, of which a call without one says the text.
fn outcome_over(
    alloc: Global,
    disk: &mut FusedDisk,
    fault: Fault,
    plain: &str,
) -> Result<Outcome, Fail> {
    let said = said_over(alloc, disk, fault, plain)?;
    if said.is_plain {
        return Ok(Outcome::Unreached);
    }
    Ok(if said.is_answer && goes_on(alloc, disk, said.is_told)? {
        Outcome::Resumed
    } else {
        Outcome::Lost
    })
}

/// The same over a disk like that one.
fn outcome_of(
    alloc: Global,
    store: &MemoryDisk,
    fault: Fault,
    plain: &str,
) -> Result<Outcome, Fail> {
    let mut disk = fused(alloc, store, fault)?;
    let outcome = outcome_over(alloc, &mut disk, fault, plain);
    drop(disk);
    outcome
}

/// The first call of the device at whose failure something else comes, or none. The device is called at least once.
fn first_wrong_of(
    alloc: Global,
    store: &MemoryDisk,
    device: Device,
    plain: &str,
) -> Result<Option<u64>, Fail> {
    for number in 0..MOST_CALLS {
        match outcome_of(alloc, store, Fault { device, number }, plain)? {
            Outcome::Unreached if number > 0 => return Ok(None),
            Outcome::Resumed => {}
            _ => return Ok(Some(number)),
        }
    }
    Ok(Some(MOST_CALLS))
}

/// The same of all devices.
fn first_wrong_from(
    alloc: Global,
    store: &MemoryDisk,
    plain: &str,
) -> Result<Option<(Device, u64)>, Fail> {
    for device in DEVICES {
        if let Some(number) = first_wrong_of(alloc, store, device, plain)? {
            return Ok(Some((device, number)));
        }
    }
    Ok(None)
}

/// What the call says where nothing fails.
fn plain_over(alloc: Global, store: &MemoryDisk) -> Result<String, Fail> {
    let mut disk = fused(alloc, store, NO_FAULT)?;
    let said = serve(alloc, &mut disk, NO_FAULT);
    drop(disk);
    said
}

/// The first call of a device at whose failure something else comes, or none.
fn first_wrong(alloc: Global, store: &MemoryDisk) -> Result<Option<(Device, u64)>, Fail> {
    let plain = plain_over(alloc, store)?;
    let wrong = first_wrong_from(alloc, store, plain.as_str());
    drop(plain);
    wrong
}

/// A store with the components.
pub(crate) fn begun(alloc: Global) -> Result<MemoryDisk, Fail> {
    let mut disk = begin(alloc)?;
    match call(alloc, &mut disk, asked_of("serve --turns 2", FIRST, "")) {
        Ok(said) => {
            drop(said);
            Ok(disk)
        }
        Err(fault) => {
            drop(disk);
            Err(fault)
        }
    }
}

#[test]
fn each_failing_call_is_resumed(rt: HostRuntime) -> Result<(), Fail> {
    let store = begun(rt.alloc())?;
    let wrong = first_wrong(rt.alloc(), &store);
    drop(store);
    assert_eq!(rt; wrong?, None);
    Ok(())
}
