// The command `about`.
ghost use Rattle.std.specs.Prelude.{◌≡◌, ◌≢◌, ◌≤◌, ◌++◌, ◌∷◌, [], Some, Ok, decimal, IsTrue, IfOk, OnOk};
ghost use Rattle.std.specs.Option.{IsSome};
ghost use Rattle.disk_model.specs.Disk.{HasLeft};
ghost use Rattle.command_words.specs.declared.order.Order.TheVariants as order;
ghost use Rattle.deploy_state.specs.Loading.{IsReady};
ghost use Rattle.device.specs.Devices.{device_view};
ghost use Rattle.status_text.specs.Status.{line};
ghost use Rattle.nucleus_top.specs.Answers.{damaged_line, store_over};
ghost use Rattle.nucleus_top.specs.Abouts.{AboutAnswer, TellsNoDevice, TellsProgram, TellsStore, TellsUnread, about_text, origin_lines};
ghost use Rattle.nucleus_top.specs.Abouts.{program_lines, share_line, unknown_line, unknown_lines, unread_text};
ghost use Rattle.nucleus_top.specs.Leaving.{IsDurableIfDone};
ghost use Rattle.store_root.specs.Tallies.{TallyAnswer};

use crate::answer::Answer;
use crate::opening::{HasDevice, open};
use deploy_state::LoadFault;
use device::{Device, MOST_CLOSED, MOST_GROUPS};
use disk_model::Disk;
use gate_log::EntryFault;
use nuc_base::{NoMemory, Text};
use records::Origin;
use status_text::put_line;
use std::alloc::Global;
use store_root::{Tally, UnknownRecord, count_records};

/// Adds what the program is: its version, and that of the format of what it keeps.
fn put_program(out: &mut Text, version: &str) -> Result<(), NoMemory>
    ensures { OnOk result (out.new ≡ out.old ++ program_lines version.now) }
{
    put_line(out, "program", &[version])?;
    put_line(out, "format", &["1"])
}

/// Adds what a store was made as.
fn put_origin(out: &mut Text, origin: &Origin) -> Result<(), NoMemory>
    ensures { OnOk result (out.new ≡ out.old ++ origin_lines (Some origin.now)) }
{
    put_line(out, "root", &[origin.root.as_str()])?;
    put_line(out, "thing", &[origin.thing.as_str()])?;
    put_line(out, "os", &[origin.platform.os.as_str()])?;
    put_line(out, "arch", &[origin.platform.architecture.as_str()])?;
    put_line(out, "nucleus", &[origin.nucleus.text().as_str()])
}

/// Adds a line of a word and a number.
fn put_number(alloc: Global, out: &mut Text, word: &str, number: u64) -> Result<(), NoMemory>
    ensures { OnOk result (out.new ≡ out.old ++ line word.now (decimal number ∷ [])) }
{
    let digits = format!(in alloc; "{number}")?;
    put_line(out, word, &[digits.as_str()])
}

/// Adds how many there are of the most that there may be.
fn put_share(
    alloc: Global,
    out: &mut Text,
    word: &str,
    count: usize,
    most: usize,
) -> Result<(), NoMemory>
    ensures { OnOk result (out.new ≡ out.old ++ share_line word.now count most) }
{
    let digits = format!(in alloc; "{count}")?;
    let limit = format!(in alloc; "{most}")?;
    put_line(out, word, &[digits.as_str(), "of", limit.as_str()])
}

/// What the program and the store of this device are, whose live slot holds so many records.
fn store_text(alloc: Global, version: &str, device: &Device, records: u64) -> Result<Text, NoMemory>
    requires origin { IsSome device.now.origin }
    ensures { IfOk result (λ text. text ≡ about_text version.now (device_view device.now) records) }
{
    let mut out = Text::empty(alloc);
    put_program(&mut out, version)?;
    put_origin(&mut out, device.origin.as_ref().unwrap())?;
    put_number(alloc, &mut out, "records", records)?;
    put_share(alloc, &mut out, "closed", device.closed.len(), MOST_CLOSED)?;
    put_share(alloc, &mut out, "groups", device.groups.len(), MOST_GROUPS)?;
    Ok(out)
}

/// What the program is, where there is no store.
fn program_text(alloc: Global, version: &str) -> Result<Text, NoMemory>
    ensures { IfOk result (λ text. text ≡ program_lines version.now) }
{
    let mut out = Text::empty(alloc);
    put_program(&mut out, version)?;
    Ok(out)
}

/// Adds that a record's kind is unknown.
fn put_unknown(alloc: Global, out: &mut Text, unknown: &UnknownRecord) -> Result<(), NoMemory>
    ensures { OnOk result (out.new ≡ out.old ++ unknown_line unknown.now) }
{
    let kind = hex::encode(alloc, &[unknown.kind])?;
    let at = unknown.at;
    let place = format!(in alloc; "{at}")?;
    put_line(
        out,
        "unknown record",
        &[kind.as_str(), "at", place.as_str()],
    )
}

/// Adds the first record of an unknown kind, where there is one.
fn put_first_unknown(
    alloc: Global,
    out: &mut Text,
    unknown: &Option<UnknownRecord>,
) -> Result<(), NoMemory>
    ensures { OnOk result (out.new ≡ out.old ++ unknown_lines unknown.now) }
{
    match unknown {
        Some(unknown) => put_unknown(alloc, out, unknown),
        None => Ok(()),
    }
}

/// Adds the refusal of a journal that is damaged at this place.
fn put_damage(alloc: Global, out: &mut Text, at: u64) -> Result<(), NoMemory>
    ensures { OnOk result (out.new ≡ out.old ++ damaged_line (decimal at)) }
{
    put_number(alloc, out, "refused 9 Damaged", at)
}

/// What the program is, and that the journal stands for no device, by the fault at this place.
fn unread_told(alloc: Global, version: &str, at: u64, tally: &Tally) -> Result<Text, NoMemory>
    ensures { IfOk result (λ text. text ≡ unread_text version.now at tally.now.unknown) }
{
    let mut out = Text::empty(alloc);
    put_program(&mut out, version)?;
    put_damage(alloc, &mut out, at)?;
    put_first_unknown(alloc, &mut out, &tally.unknown)?;
    Ok(out)
}

/// What is told of a state's device.
fn tell_stored<S: HasDevice + Drop>(alloc: Global, version: &str, tally: &Tally, state: S) -> Answer
    requires ready { IsReady (S.stands_for state) }
    ensures { TellsStore version.now tally.now (S.stands_for state) result }
{
    match store_text(alloc, version, state.stored(), tally.records) {
        Ok(text) => Answer::Shown(text),
        Err(_) => Answer::NoMemory,
    }
}

fn tell_program(alloc: Global, version: &str) -> Answer
    ensures { TellsProgram version.now result }
{
    match program_text(alloc, version) {
        Ok(text) => Answer::Shown(text),
        Err(_) => Answer::NoMemory,
    }
}

fn tell_unread(alloc: Global, version: &str, at: u64, tally: &Tally) -> Answer
    ensures { TellsUnread version.now at tally.now.unknown result }
{
    match unread_told(alloc, version, at, tally) {
        Ok(text) => Answer::Unreadable(text),
        Err(_) => Answer::NoMemory,
    }
}

/// What is told where the journal gives no device.
fn tell_fault(alloc: Global, version: &str, tally: &Tally, fault: LoadFault) -> Answer
    ensures { TellsNoDevice version.now tally.now.unknown fault result }
{
    match fault {
        LoadFault::Disk => Answer::DiskFailed,
        LoadFault::NotInitialised => tell_program(alloc, version),
        LoadFault::Damaged(at) => tell_unread(alloc, version, at, tally),
        LoadFault::NoMemory => Answer::NoMemory,
    }
}

/// What is told of a store whose journal was counted.
fn tell_opened<D: Disk>(alloc: Global, version: &str, counted: &Tally, disk: &mut D) -> Answer
    requires counted { IsTrue D.is_modelled → TallyAnswer (D.seen disk.old) (Ok counted.now) }
    ensures comes { AboutAnswer version.now (store_over D.Disk disk.old disk.new) result }
    ensures moments { HasLeft D.moment D.left_since disk.old disk.new (D.may_leave disk.old) }
    ensures keeps { IsDurableIfDone order.About (D.may_leave disk.new) (D.seen disk.new) result }
    ensures seen { D.seen disk.new ≡ D.seen disk.old }
    ensures quiet { result ≢ Answer.DiskFailed → D.faults disk.new ≡ D.faults disk.old }
    ensures later { D.faults disk.old ≤ D.faults disk.new }
{
    match open(alloc, disk) {
        Ok(state) => tell_stored(alloc, version, counted, state),
        Err(fault) => tell_fault(alloc, version, counted, fault),
    }
}

/// Says what the program is, whose version this is, and what the store is, where there is one. Of a journal that stands for no
/// device it says besides which is the first record of a kind that this program does not know, so that a store which a newer
/// program wrote is not taken for a damaged one. It writes nothing to the disk.
pub fn about<D: Disk>(alloc: Global, version: &str, disk: &mut D) -> Answer
    ensures comes { AboutAnswer version.now (store_over D.Disk disk.old disk.new) result }
    ensures moments { HasLeft D.moment D.left_since disk.old disk.new (D.may_leave disk.old) }
    ensures keeps { IsDurableIfDone order.About (D.may_leave disk.new) (D.seen disk.new) result }
    ensures seen { D.seen disk.new ≡ D.seen disk.old }
    ensures quiet { result ≢ Answer.DiskFailed → D.faults disk.new ≡ D.faults disk.old }
    ensures later { D.faults disk.old ≤ D.faults disk.new }
{
    match count_records(alloc, disk) {
        Ok(counted) => tell_opened(alloc, version, &counted, disk),
        Err(EntryFault::Disk) => Answer::DiskFailed,
        Err(EntryFault::NoMemory) => Answer::NoMemory,
    }
}
