// What a reply prints.
ghost use Rattle.std.specs.Prelude.{◌≡◌, ◌++◌, IfOk, OnOk};
ghost use Rattle.fleet.specs.Course.{number_line, revision_line, known_lines, shown};

use fleet_core::Reply;
use nuc_base::{Label, NoMemory, Text};
use std::alloc::Global;

/// A line of a word and a number.
pub fn numbered_line(alloc: Global, word: &str, number: u32) -> Result<Text, NoMemory>
    ensures { IfOk result (λ text. text ≡ number_line word.now number) }
{
    Ok(Text::new(format!(in alloc; "{word} {number}\n")?))
}

/// A line of a word, a device, a group and a revision.
fn graded_line(
    alloc: Global,
    word: &str,
    device: u32,
    group: &Label,
    revision: u64,
) -> Result<Text, NoMemory>
    ensures { IfOk result (λ text. text ≡ revision_line word.now device group.now revision) }
{
    let group = group.as_str();
    Ok(Text::new(format!(in alloc; "{word} {device} {group} {revision}\n")?))
}

/// A line for each group that is known of a device, or one for none.
fn known_text(alloc: Global, device: u32, list: &[(Label, u64)]) -> Result<Text, NoMemory>
    ensures { IfOk result (λ text. text ≡ known_lines device list.now) }
{
    if list.is_empty() {
        return numbered_line(alloc, "known", device);
    }
    let mut text = Text::empty(alloc);
    for (group, revision) in list {
        let line = graded_line(alloc, "known", device, group, *revision)?;
        text.push_str(line.as_str())?;
    }
    Ok(text)
}

/// The lines of a reply.
pub fn reply_text(alloc: Global, reply: &Reply) -> Result<Text, NoMemory>
    ensures { IfOk result (λ text. text ≡ shown reply.now) }
{
    match reply {
        Reply::Sent(number) => numbered_line(alloc, "sent", *number),
        Reply::Taken(device, group, revision) => {
            graded_line(alloc, "taken", *device, group, *revision)
        }
        Reply::Stale(device, group, revision) => {
            graded_line(alloc, "stale", *device, group, *revision)
        }
        Reply::Again(device, group, revision) => {
            graded_line(alloc, "again", *device, group, *revision)
        }
        Reply::Gone(number) => numbered_line(alloc, "gone", *number),
        Reply::Lost(number) => numbered_line(alloc, "lost", *number),
        Reply::Restarted(device) => numbered_line(alloc, "restarted", *device),
        Reply::Reported(number) => numbered_line(alloc, "reported", *number),
        Reply::Known(device, list) => known_text(alloc, *device, list.as_slice()),
    }
}
