// A component whose recipe is as long as one may be, deployed 40 times, and the two deployments that begin the journal anew.
use checkpoint_log::Slots;
use deploy_state::{Loaded, load};
use device::Device;
use disk_model::{Disk, FusedDisk, MemoryDisk, Pick};
use library_core::MemoryLibrary;
use nuc_base::{Bytes, List};
use std::alloc::{AllocError, Global};
use std::test::Fail;
use test_calls::{answer_alone, begin};

/// The recipe, up to its blanks.
const RECIPE: &str =
    r#"{"RecipeFormatVersion":"2020-01-25","ComponentName":"a","ComponentVersion":"1.0.0"}"#;

/// The recipe of 65,536 bytes.
fn recipe(alloc: Global) -> Result<Bytes, AllocError> {
    let mut recipe = Vec::from_slice(alloc, RECIPE.as_bytes())?;
    recipe.resize(65_536, b' ')?;
    Ok(Bytes::new(recipe))
}

/// A library of that recipe.
fn library(alloc: Global) -> Result<MemoryLibrary, Fail> {
    let recipe = recipe(alloc)?;
    let mut recipes = List::empty(alloc);
    recipes.push(recipe)?;
    Ok(MemoryLibrary::new(recipes, List::empty(alloc), List::empty(alloc)))
}

/// The document of this number, which sets a configuration of its own.
fn document(alloc: Global, number: u32) -> Result<String, AllocError> {
    format!(in alloc;
        r#"{{"deploymentId":"c{}","targetArn":"g","components":{{"a":{{"componentVersion":"1.0.0","configurationUpdate":{{"merge":{{"n":{}}}}}}}}}}}"#,
        number, number
    )
}

/// What its deployment says.
fn deploy<D: Disk>(
    alloc: Global,
    disk: &mut D,
    library: &mut MemoryLibrary,
    number: u32,
) -> Result<String, Fail> {
    let document = document(alloc, number)?;
    let said = answer_alone(alloc, disk, library, "deploy", document.as_str(), &[]);
    drop(document);
    said
}

/// Whether it closes as successful.
fn closes(
    alloc: Global,
    disk: &mut MemoryDisk,
    library: &mut MemoryLibrary,
    number: u32,
) -> Result<bool, Fail> {
    let said = deploy(alloc, disk, library, number)?;
    let is_accepted = said.as_str().starts_with("0|accepted c");
    let is_closed = said.as_str().ends_with(" SUCCESSFUL;");
    drop(said);
    Ok(is_accepted && is_closed)
}

/// Makes so many deployments, one after another.
fn deploy_all(
    alloc: Global,
    disk: &mut MemoryDisk,
    library: &mut MemoryLibrary,
    count: u32,
) -> Result<(), Fail> {
    for number in 0..count {
        if !closes(alloc, disk, library, number)? {
            return Err(Fail::from("a deployment does not close"));
        }
    }
    Ok(())
}

/// The same over a library of that recipe.
fn deploy_over(alloc: Global, disk: &mut MemoryDisk, count: u32) -> Result<(), Fail> {
    let mut library = library(alloc)?;
    let done = deploy_all(alloc, disk, &mut library, count);
    drop(library);
    done
}

/// A store behind so many deployments.
pub(crate) fn store_after(alloc: Global, count: u32) -> Result<MemoryDisk, Fail> {
    let mut disk = begin(alloc)?;
    match deploy_over(alloc, &mut disk, count) {
        Ok(()) => Ok(disk),
        Err(fault) => {
            drop(disk);
            Err(fault)
        }
    }
}

/// Whether the slot begins with the turn of this number.
fn begins_with(slot: &[u8], number: u8) -> bool {
    matches!(slot, [_, _, _, _, _, 0x19, 0, 0, 0, 0, 0, 0, 0, last, ..] if *last == number)
}

#[test]
fn forty_deployments_turn_twice(rt: HostRuntime) -> Result<(), Fail> {
    let store = store_after(rt.alloc(), 40)?;
    let first = begins_with(store.file("journal"), 2);
    let second = begins_with(store.file("journal.b"), 1);
    drop(store);
    assert!(rt; first && second);
    Ok(())
}

/// The first deployment whose acceptance begins the journal anew. Where n of them are closed the journal has 47 + 65,626 n bytes
/// or a few more, and its front about 65,670 + 13 n. With an entry more, of 65,610 bytes, the journal is longer than twice the
/// front and 1,048,576 bytes first where n is 17.
const TURNING: u32 = 17;

/// How the store stands.
#[derive(Clone, Copy, Debug, Drop, PartialEq, Eq)]
enum Standing {
    /// Before that acceptance.
    Before,
    /// Behind it.
    Behind,
    /// Neither.
    Wrong,
}

/// How this device stands.
fn stands(device: &Device) -> Standing {
    if device.closed.len() != TURNING as usize {
        return Standing::Wrong;
    }
    match &device.pending {
        Some(pending) if pending.plan.id.as_str() == "c17" => Standing::Behind,
        Some(_) => Standing::Wrong,
        None => Standing::Before,
    }
}

fn state_stands(state: &Loaded<Slots>) -> Standing {
    match state {
        Loaded::Idle(idle) => stands(idle.device()),
        Loaded::Booting(booting) => stands(booting.device()),
        _ => Standing::Wrong,
    }
}

/// How the image stands that is picked.
fn image_stands(alloc: Global, disk: &FusedDisk, pick: Pick) -> Result<Standing, Fail> {
    let mut image = disk.disk().image(alloc, pick)?;
    let loaded = load::<MemoryDisk, Slots>(alloc, &mut image);
    drop(image);
    match loaded {
        Ok(state) => {
            let stands = state_stands(&state);
            drop(state);
            Ok(stands)
        }
        Err(_) => Ok(Standing::Wrong),
    }
}

/// Whether each image that the stop may leave stands before the acceptance or behind it, and behind it where it was told.
fn all_stand(alloc: Global, disk: &FusedDisk, is_told: bool) -> Result<bool, Fail> {
    for pick in [Pick::Old, Pick::New, Pick::Fill(0x01), Pick::Fill(0xff)] {
        let stands = image_stands(alloc, disk, pick)?;
        if stands == Standing::Wrong || (is_told && stands == Standing::Before) {
            return Ok(false);
        }
    }
    Ok(true)
}

/// What comes of the deployment over a disk that stops.
#[derive(Clone, Copy, Debug, Drop, PartialEq, Eq)]
enum Outcome {
    /// It stopped before it wrote anything.
    Unwritten,
    /// It stopped before it told that it is accepted, and each image stands.
    Stopped,
    /// It told that it is accepted, and each image stands.
    Told,
    /// An image does not stand.
    Wrong,
}

/// Whether the journal is on both disks the same.
fn is_unwritten(store: &MemoryDisk, disk: &MemoryDisk) -> bool {
    disk.file("journal") == store.file("journal")
        && disk.file("journal.b") == store.file("journal.b")
}

/// What comes of it over that disk.
fn comes_over(
    alloc: Global,
    store: &MemoryDisk,
    disk: &mut FusedDisk,
    library: &mut MemoryLibrary,
) -> Result<Outcome, Fail> {
    let said = deploy(alloc, disk, library, TURNING)?;
    let is_told = said.as_str().contains("|accepted c17;");
    drop(said);
    if is_unwritten(store, disk.disk()) {
        return Ok(Outcome::Unwritten);
    }
    if !all_stand(alloc, disk, is_told)? {
        return Ok(Outcome::Wrong);
    }
    Ok(if is_told {
        Outcome::Told
    } else {
        Outcome::Stopped
    })
}

/// The same over that store on a disk that stops after so many calls.
fn comes(
    alloc: Global,
    store: &MemoryDisk,
    library: &mut MemoryLibrary,
    stop: u64,
) -> Result<Outcome, Fail> {
    let stable = store.image(alloc, Pick::New)?;
    let mut disk = FusedDisk::new(stable, stop, List::empty(alloc));
    let comes = comes_over(alloc, store, &mut disk, library);
    drop(disk);
    comes
}

/// A number of calls, at most 16 fewer than those before the first write.
fn calls_before(
    alloc: Global,
    store: &MemoryDisk,
    library: &mut MemoryLibrary,
) -> Result<u64, Fail> {
    for step in 1..64u64 {
        if comes(alloc, store, library, 16 * step)? != Outcome::Unwritten {
            return Ok(16 * (step - 1));
        }
    }
    Ok(0)
}

/// How many stops cut the acceptance off behind its first write, or 0 where an image does not stand behind one of them.
fn count_stops(
    alloc: Global,
    store: &MemoryDisk,
    library: &mut MemoryLibrary,
) -> Result<u64, Fail> {
    let before = calls_before(alloc, store, library)?;
    let mut stopped = 0u64;
    for more in 0..200u64 {
        let stop = before.saturating_add(more);
        match comes(alloc, store, library, stop)? {
            Outcome::Unwritten => {}
            Outcome::Stopped => stopped = stopped.saturating_add(1),
            Outcome::Told => return Ok(stopped),
            Outcome::Wrong => return Ok(0),
        }
    }
    Ok(0)
}

/// The same over a library of that recipe.
fn count_over(alloc: Global, store: &MemoryDisk) -> Result<u64, Fail> {
    let mut library = library(alloc)?;
    let count = count_stops(alloc, store, &mut library);
    drop(library);
    count
}

#[test]
fn no_stop_of_a_turn_loses_the_device(rt: HostRuntime) -> Result<(), Fail> {
    let store = store_after(rt.alloc(), TURNING)?;
    let count = count_over(rt.alloc(), &store);
    drop(store);
    // The front has a turn, a group, a component and 17 closed deployments, each with a write at least, behind one of a gate.
    assert!(rt; count? > 20);
    Ok(())
}
