// Steps of an item with their variables expanded.
ghost use Rattle.std.specs.Prelude.{map};
ghost use Rattle.records.specs.Stored.{item_view};
ghost use Rattle.device.specs.Devices.{device_view, IsRegularDevice};
ghost use Rattle.device.specs.Plans.{AreRegularItems};
ghost use Rattle.device.specs.Scopes.{HasScope};
ghost use Rattle.device.specs.Sound.{IsSound};

use crate::devices::device_of;
use components::{Prepared, step_of};
use device::Device;
use nuc_base::{List, NoMemory, Step};
use recipe_reader::{Recipe, Skip};
use records::{Item, Origin};
use std::alloc::Global;
use std::test::Fail;

/// A component with a bootstrap that names its configuration and its folder, and an install with a probe.
const COMPONENT: &str = r#"A 1.0.0 {"v":1} bootstrap {configuration:/v}{work:path} probed i"#;

/// Steps of it, and what each is.
const STEPS: &[(Step, &str)] = &[
    (
        Step::Bootstrap,
        "1/gg/work/A in /gg/work/A, Some(120000) ms",
    ),
    (
        Step::Install,
        "i in /gg/work/A, Some(120000) ms, but for /opt/x",
    ),
    (Step::Run, "none"),
];

/// The step in words.
fn text_of(alloc: Global, prepared: &Option<Prepared>) -> Result<String, NoMemory> {
    let Some(step) = prepared else {
        return Ok(format!(in alloc; "none")?);
    };
    let script = step.command.script.as_str();
    let folder = step.command.folder.as_str();
    let text = format!(in alloc; "{script} in {folder}, {:?} ms", step.limit_ms)?;
    match &step.skip {
        Some(Skip::Exists(path)) => Ok(format!(in alloc; "{text}, but for {path}")?),
        _ => Ok(text),
    }
}

/// Whether the step of the first item is so.
fn is_step(
    alloc: Global,
    origin: &Origin,
    items: &List<Item>,
    step: Step,
    want: &str,
) -> Result<bool, NoMemory>
    requires recipe { HasScope origin.now (map item_view items.now) 0 }
    requires regular { AreRegularItems (map item_view items.now) }
{
    let prepared = step_of(alloc, origin, items, 0, step)?;
    let text = text_of(alloc, &prepared);
    drop(prepared);
    Ok(text?.as_str() == want)
}

/// How many steps of the first item are so.
fn count_steps(alloc: Global, origin: &Origin, items: &List<Item>) -> Result<usize, NoMemory>
    requires recipe { HasScope origin.now (map item_view items.now) 0 }
    requires regular { AreRegularItems (map item_view items.now) }
{
    let mut count = 0usize;
    for (step, want) in STEPS {
        if is_step(alloc, origin, items, *step, want)? {
            count = count.saturating_add(1);
        }
    }
    Ok(count)
}

/// The same where its recipe can be read.
fn count_in(alloc: Global, origin: &Origin, items: &List<Item>) -> Result<usize, NoMemory>
    requires { AreRegularItems (map item_view items.now) }
{
    let Some(item) = items.as_slice().first() else {
        return Ok(0);
    };
    match Recipe::read(alloc, item.recipe.as_slice(), &origin.platform) {
        Ok(recipe) => {
            drop(recipe);
            count_steps(alloc, origin, items)
        }
        Err(fault) => {
            drop(fault);
            Ok(0)
        }
    }
}

/// The same of the items that are pending on the device.
fn counted_on(alloc: Global, device: &Device) -> Result<usize, NoMemory>
    requires sound { IsSound (device_view device.now) }
    requires regular { IsRegularDevice (device_view device.now) }
{
    match (&device.origin, &device.pending) {
        (Some(origin), Some(pending)) => count_in(alloc, origin, &pending.plan.items),
        _ => Ok(0),
    }
}

/// The same of a device with the component.
fn counted(alloc: Global) -> Result<usize, Fail> {
    let device = device_of(alloc, "", COMPONENT)?;
    let count = counted_on(alloc, &device);
    drop(device);
    Ok(count?)
}

#[test]
fn a_step_is_expanded(rt: HostRuntime) -> Result<(), Fail> {
    assert_eq!(rt; counted(rt.alloc())?, STEPS.len());
    Ok(())
}
