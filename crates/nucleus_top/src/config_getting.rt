// The command `config-get`.
ghost use Rattle.std.specs.Prelude.{◌≡◌, ◌≢◌, ◌≤◌, ◌++◌, ◌∷◌, [], codes, IfOk, OnOk};
ghost use Rattle.disk_model.specs.Disk.{HasLeft};
ghost use Rattle.command_words.specs.declared.order.Order.TheVariants as order;
ghost use Rattle.deploy_state.specs.Loading.{IsReady};
ghost use Rattle.device.specs.Devices.{device_view, IsRegularDevice};
ghost use Rattle.status_text.specs.Status.{line};
ghost use Rattle.nucleus_top.specs.Answers.{store_over};
ghost use Rattle.nucleus_top.specs.Gets.{GetAnswer, GetAnswerOn, TellsAbsence, TellsNode, escaped, escaped_byte, pointer_text};
ghost use Rattle.nucleus_top.specs.Leaving.{IsDurableIfDone};

use crate::answer::Answer;
use crate::opening::{HasDevice, open, refused};
use config_cmd::{GetFault, config_get};
use device::Device;
use disk_model::Disk;
use nuc_base::{Bytes, Name, NoMemory, Pointer, Text};
use std::alloc::Global;

fn put_escaped(out: &mut Bytes, byte: u8) -> Result<(), NoMemory>
    ensures { OnOk result (out.new ≡ out.old ++ escaped_byte byte) }
{
    match byte {
        b'~' => out.append("~0".as_bytes()),
        b'/' => out.append("~1".as_bytes()),
        other => out.append(&[other]),
    }
}

fn put_bytes(out: &mut Bytes, bytes: &[u8]) -> Result<(), NoMemory>
    ensures { OnOk result (out.new ≡ out.old ++ escaped bytes.now) }
{
    for byte in bytes {
        put_escaped(out, *byte)?;
    }
    Ok(())
}

/// Adds a token as a pointer has it.
fn put_token(out: &mut Bytes, token: &Text) -> Result<(), NoMemory>
    ensures { OnOk result (out.new ≡ out.old ++ 47 ∷ escaped token.now) }
{
    out.append("/".as_bytes())?;
    put_bytes(out, token.as_bytes())
}

/// Adds the text of the pointer of these tokens (RFC 6901, section 3).
fn put_tokens(out: &mut Bytes, tokens: &[Text]) -> Result<(), NoMemory>
    ensures { OnOk result (out.new ≡ out.old ++ pointer_text tokens.now) }
{
    for token in tokens {
        put_token(out, token)?;
    }
    Ok(())
}

fn no_component(alloc: Global, name: &Name) -> Result<Bytes, NoMemory>
    ensures { IfOk result (λ text. text ≡ line (codes "refused 19 NoComponent") (name.now ∷ [])) }
{
    let mut out = Bytes::empty(alloc);
    out.append("refused 19 NoComponent ".as_bytes())?;
    out.append(name.as_str().as_bytes())?;
    out.append("\n".as_bytes())?;
    Ok(out)
}

fn no_node(alloc: Global, name: &Name, at: &Pointer) -> Result<Bytes, NoMemory>
    ensures { IfOk result (λ text. text ≡ line (codes "refused 19 NoNode") (name.now ∷ pointer_text at.now ∷ [])) }
{
    let mut out = Bytes::empty(alloc);
    out.append("refused 19 NoNode ".as_bytes())?;
    out.append(name.as_str().as_bytes())?;
    out.append(" ".as_bytes())?;
    put_tokens(&mut out, at.tokens().as_slice())?;
    out.append("\n".as_bytes())?;
    Ok(out)
}

fn absent(line: Result<Bytes, NoMemory>) -> Answer
    ensures { TellsAbsence line result }
{
    match line {
        Ok(line) => Answer::Absent(line),
        Err(_) => Answer::NoMemory,
    }
}

/// The node as a line.
fn got(node: Text) -> Answer
    ensures { TellsNode node result }
{
    let mut line = node;
    match line.push_str("\n") {
        Ok(()) => Answer::Got(line),
        Err(_) => Answer::NoMemory,
    }
}

/// The node that the pointer names in the configuration of the component.
fn get_on(alloc: Global, name: &Name, at: &Pointer, device: &Device) -> Answer
    requires regular { IsRegularDevice (device_view device.now) }
    ensures { GetAnswerOn (device_view device.now) name.now at.now result }
{
    match config_get(alloc, device, name, at) {
        Ok(node) => got(node),
        Err(GetFault::NoComponent) => absent(no_component(alloc, name)),
        Err(GetFault::NoNode) => absent(no_node(alloc, name, at)),
        Err(GetFault::NoMemory) => Answer::NoMemory,
    }
}

/// The same of a state's device.
fn get_stored<S: HasDevice + Drop>(alloc: Global, name: &Name, at: &Pointer, state: S) -> Answer
    requires ready { IsReady (S.stands_for state) }
    ensures { GetAnswerOn (S.stands_for state) name.now at.now result }
{
    get_on(alloc, name, at, state.stored())
}

/// Prints a node of the configuration of a component of the device for which the journal stands. It writes nothing to the
/// disk.
pub fn get<D: Disk>(alloc: Global, name: &Name, at: &Pointer, disk: &mut D) -> Answer
    ensures comes { GetAnswer name.now at.now (store_over D.Disk disk.old disk.new) result }
    ensures moments { HasLeft D.moment D.left_since disk.old disk.new (D.may_leave disk.old) }
    ensures keeps { IsDurableIfDone (order.ConfigGet name.now at.now) (D.may_leave disk.new) (D.seen disk.new) result }
    ensures seen { D.seen disk.new ≡ D.seen disk.old }
    ensures quiet { result ≢ Answer.DiskFailed → D.faults disk.new ≡ D.faults disk.old }
    ensures later { D.faults disk.old ≤ D.faults disk.new }
{
    match open(alloc, disk) {
        Ok(state) => get_stored(alloc, name, at, state),
        Err(fault) => refused(alloc, fault),
    }
}
