// What a supervisor hands out, in words, and how that is answered.
ghost use Rattle.std.specs.Prelude.{◌≡◌, ◌<◌, ◌^◌, ℕ, All, None, IsSome, IfSome, OnOk, is_some, length, map};
ghost use Rattle.nuc_base.specs.declared.platform.Platform.{Platform};
ghost use Rattle.records.specs.Stored.{item_view};
ghost use Rattle.device.specs.Devices.{device_view, IsRegularDevice};
ghost use Rattle.device.specs.Plans.{AreItems, AreRegularItems};
ghost use Rattle.device.specs.Sound.{IsSound};
ghost use Rattle.components.specs.Acts.{HasStart};
ghost use Rattle.components.specs.Answers.{IsExpected, HasHanded};
ghost use Rattle.components.specs.Events.{handed_at, noticed};
ghost use Rattle.components.specs.Fitted.{prepared_of};
ghost use Rattle.components.specs.Platforms.{AllRunFor};
ghost use Rattle.components.specs.Components.{At, Components, owner};
ghost use Rattle.test_supervisor.specs.Stands.{AreAnswered, IsReadyFor};

use components::{Act, Event, Mode, one_platform};
use device::Device;
use nuc_base::{Exit, List, NoMemory, Step};
use recipe_reader::Skip;
use records::{Item, Origin};
use std::alloc::Global;
use supervisor::Supervisor;

/// What was handed out, in words, and the number of the next child.
#[derive(Drop)]
pub(crate) struct Seen {
    pub(crate) text: String,
    /// Of a start the name alone is noted.
    pub(crate) is_brief: bool,
    pub(crate) next: u64,
}

impl Seen {
    pub(crate) fn new(alloc: Global, is_brief: bool) -> Seen {
        Seen {
            text: String::new(alloc),
            is_brief,
            next: 0,
        }
    }

    fn note(&mut self, text: &str) -> Result<(), NoMemory> {
        self.text.push_str(text)?;
        Ok(())
    }

    /// What was noted since it was asked before.
    pub(crate) fn take(&mut self, alloc: Global) -> String {
        let text = String::new(alloc);
        std::mem::replace(&mut self.text, text)
    }
}

/// Whether the child of this number lives.
fn lives(supervisor: &Supervisor, number: u64) -> bool
    ensures { result ≡ is_some (owner number supervisor.now.parts) }
{
    supervisor.next_living(number.checked_sub(1)) == Some(number)
}

/// How the start of a step is answered. A step with a probe is skipped, and the script `no` can't be started.
fn answer_of(supervisor: &Supervisor, who: u32, step: Step, child: u64) -> Event
    requires handed { HasHanded who step supervisor.now }
    requires prepared { At who (λ p. IsSome (prepared_of p.fitted step)) supervisor.now.parts }
    requires free { owner child supervisor.now.parts ≡ None }
    ensures answers { IsExpected supervisor.now result }
    ensures answered { (w : Components) → AreAnswered w.parts → AreAnswered (noticed result (handed_at who w)).parts }
{
    if supervisor.skip(who, step).is_some() {
        return Event::Skipped(who, step);
    }
    if supervisor.command(who, step).script.as_str() == "no" {
        return Event::Refused(who, step);
    }
    Event::Started(who, step, child)
}

/// The file that the step's probe looks for.
fn probed(skip: Option<&Skip>) -> &str {
    match skip {
        Some(Skip::Exists(path)) => path.as_str(),
        _ => "",
    }
}

/// Notes a start and its answer.
fn note_start(
    alloc: Global,
    supervisor: &Supervisor,
    seen: &mut Seen,
    who: u32,
    step: Step,
    answer: Event,
) -> Result<(), NoMemory>
    requires prepared { At who (λ p. IsSome (prepared_of p.fitted step)) supervisor.now.parts }
{
    let name = supervisor.name(who);
    if seen.is_brief {
        return seen.note(name.as_str());
    }
    let script = supervisor.command(who, step).script.as_str();
    let file = probed(supervisor.skip(who, step));
    let text = match answer {
        Event::Started(_who, _step, child) => {
            format!(in alloc; "{name} {step:?} {script} as {child};")?
        }
        Event::Skipped(_who, _step) => format!(in alloc;
            "{name} {step:?} {script} skipped {file};"
        )?,
        _ => format!(in alloc; "{name} {step:?} {script} refused;")?,
    };
    seen.note(&text)
}

/// Answers the start that was handed out, and notes both.
fn start(
    alloc: Global,
    supervisor: &mut Supervisor,
    seen: &mut Seen,
    who: u32,
    step: Step,
    now: u64,
) -> Result<(), NoMemory>
    requires moment { supervisor.old.moment ≡ now }
    requires in_time { now < 2 ^ 62 }
    requires handed { (w : Components) × (supervisor.old ≡ handed_at who w) × At who (HasStart step) w.parts }
    ensures moment { OnOk result (supervisor.new.moment ≡ now) }
    ensures answered { OnOk result ((w : Components) → supervisor.old ≡ handed_at who w → AreAnswered w.parts → AreAnswered supervisor.new.parts) }
    ensures ready { (p : Platform) → AllRunFor p supervisor.old.parts → AllRunFor p supervisor.new.parts }
{
    let child = seen.next;
    if lives(supervisor, child) {
        // No number is given twice.
        return Err(NoMemory);
    }
    let answer = answer_of(supervisor, who, step, child);
    note_start(alloc, supervisor, seen, who, step, answer)?;
    if matches!(answer, Event::Started(..)) {
        seen.next = child.saturating_add(1);
    }
    supervisor.event(answer, now);
    Ok(())
}

fn note_failure(
    alloc: Global,
    supervisor: &Supervisor,
    seen: &mut Seen,
    word: &str,
    who: u32,
    step: Step,
    exit: Exit,
) -> Result<(), NoMemory>
    requires { who < length supervisor.now.parts }
{
    let name = supervisor.name(who);
    let text = format!(in alloc; "{word} {name} {step:?} {exit:?};")?;
    seen.note(&text)
}

fn note_kill(alloc: Global, seen: &mut Seen, child: u64) -> Result<(), NoMemory> {
    let text = format!(in alloc; "kill {child};")?;
    seen.note(&text)
}

/// Takes the next act and notes it. Tells whether there was one.
fn take_act(
    alloc: Global,
    supervisor: &mut Supervisor,
    seen: &mut Seen,
    now: u64,
) -> Result<bool, NoMemory>
    requires moment { supervisor.old.moment ≡ now }
    requires in_time { now < 2 ^ 62 }
    ensures moment { OnOk result (supervisor.new.moment ≡ now) }
    ensures stands { OnOk result ((p : Platform) → IsReadyFor p supervisor.old → IsReadyFor p supervisor.new) }
{
    match supervisor.next_act() {
        None => return Ok(false),
        Some(act) => match act {
            Act::Start(who, step) => start(alloc, supervisor, seen, who, step, now)?,
            Act::Kill(child) => note_kill(alloc, seen, child)?,
            Act::Failed(who, step, exit) => {
                note_failure(alloc, supervisor, seen, "failed", who, step, exit)?
            }
            Act::Broke(who, step, exit) => {
                note_failure(alloc, supervisor, seen, "broke", who, step, exit)?
            }
        },
    }
    Ok(true)
}

/// Takes acts until there is none.
pub(crate) fn take_acts(
    alloc: Global,
    supervisor: &mut Supervisor,
    seen: &mut Seen,
    now: u64,
) -> Result<(), NoMemory>
    requires moment { supervisor.old.moment ≡ now }
    requires in_time { now < 2 ^ 62 }
    ensures moment { OnOk result (supervisor.new.moment ≡ now) }
    ensures stands { OnOk result ((p : Platform) → IsReadyFor p supervisor.old → IsReadyFor p supervisor.new) }
{
    for _act in 0..1000 {
        if !take_act(alloc, supervisor, seen, now)? {
            return Ok(());
        }
    }
    Ok(())
}

/// The child of this number ended so. Tells whether it lived.
pub(crate) fn end(supervisor: &mut Supervisor, child: u64, exit: Exit, now: u64) -> bool
    requires moment { supervisor.old.moment ≡ now }
    requires in_time { now < 2 ^ 62 }
    ensures moment { supervisor.new.moment ≡ now }
    ensures stands { (p : Platform) → IsReadyFor p supervisor.old → IsReadyFor p supervisor.new }
{
    if !lives(supervisor, child) {
        return false;
    }
    supervisor.event(Event::Ended(child, exit), now);
    true
}

/// No failures of any item.
fn no_failures() -> [u8; 128]
    ensures { All (λ (n : ℕ). n < 3) result }
{
    [0; 128]
}

/// Other items are to run.
fn change_to(
    alloc: Global,
    supervisor: &mut Supervisor,
    origin: &Origin,
    items: &List<Item>,
    mode: Mode,
) -> Result<(), NoMemory>
    requires items { AreItems origin.now.platform (map item_view items.now) }
    requires regular { AreRegularItems (map item_view items.now) }
    requires stands { IsReadyFor origin.now.platform supervisor.old }
    ensures moment { supervisor.new.moment ≡ supervisor.old.moment }
    ensures stands { IsReadyFor origin.now.platform supervisor.new }
{
    one_platform();
    let ready = supervisor.ready(alloc, origin, items)?;
    supervisor.change(ready, &no_failures(), mode);
    Ok(())
}

/// The items of the device are to run, or those of its plan. Tells whether it has them.
pub(crate) fn change(
    alloc: Global,
    supervisor: &mut Supervisor,
    device: &Device,
    is_plan: bool,
    mode: Mode,
) -> Result<bool, NoMemory>
    requires sound { IsSound (device_view device.now) }
    requires regular { IsRegularDevice (device_view device.now) }
    requires stands { IfSome device.now.origin (λ o. IsReadyFor o.platform supervisor.old) }
    ensures moment { supervisor.new.moment ≡ supervisor.old.moment }
    ensures stands { IfSome device.now.origin (λ o. IsReadyFor o.platform supervisor.new) }
{
    let (Some(origin), Some(pending)) = (&device.origin, &device.pending) else {
        return Ok(false);
    };
    let items = if is_plan {
        &pending.plan.items
    } else {
        &device.set
    };
    change_to(alloc, supervisor, origin, items, mode)?;
    Ok(true)
}
