//! From the bytes of a call to a document.
ghost use Rattle.std.specs.Prelude.{◌≡◌, ◌⊎◌, IfOk, IfErr};
ghost use Rattle.deployment_doc.specs.Sound.{AreSound};
ghost use Rattle.device.specs.Devices.{device_view};
ghost use Rattle.device.specs.Sound.{IsSound};
ghost use Rattle.plan_core.specs.declared.fault.Refusal.TheVariants.{NoMemory as OutOfMemory};
ghost use Rattle.admission.specs.Requests.{IsInside, AnswerOfAsk, unset};
ghost use Rattle.admission.specs.declared.ask.Ask.TheVariants as asks;
ghost use Rattle.admission.specs.declared.fault.Declined.TheVariants.{Refused};

use crate::ask::Ask;
use crate::fault::Declined;
use crate::unasked::Unasked;
use config_cmd::{Change, SetFault, config_document};
use deployment_doc::Document;
use device::Device;
use local_deploy::{LocalRequest, local_document};
use nuc_base::{Copied, Name};
use plan_core::{Refusal, open_id};
use std::alloc::Global;

/// Why a change makes no document, with the name of its component.
fn unset(alloc: Global, fault: SetFault, name: &Name) -> Declined
    ensures { (result ≡ unset name.now fault) ⊎ (result ≡ Refused OutOfMemory) }
{
    match (fault, name.copy(alloc)) {
        (SetFault::NoComponent, Ok(name)) => Declined::Unasked(Unasked::NoComponent(name)),
        (SetFault::NotListed, Ok(name)) => Declined::Unasked(Unasked::NotListed(name)),
        _ => Declined::Refused(Refusal::NoMemory),
    }
}

fn read_document(alloc: Global, device: &Device, bytes: &[u8]) -> Result<Document, Declined>
    ensures makes { AnswerOfAsk asks.Document bytes.now (device_view device.now) result }
    ensures sound { IfOk result (λ document. AreSound document.roots) }
    ensures inside { IfErr result (λ x. IsInside x) }
{
    let document = Document::read(alloc, bytes)?;
    Ok(document)
}

fn read_local(alloc: Global, device: &Device, bytes: &[u8]) -> Result<Document, Declined>
    requires { IsSound (device_view device.now) }
    ensures makes { AnswerOfAsk asks.Local bytes.now (device_view device.now) result }
    ensures sound { IfOk result (λ document. AreSound document.roots) }
    ensures inside { IfErr result (λ x. IsInside x) }
{
    let request = LocalRequest::read(alloc, bytes)?;
    open_id(alloc, device, &request.id)?;
    let document = local_document(alloc, device, request)?;
    Ok(document)
}

fn read_change(
    alloc: Global,
    device: &Device,
    name: &Name,
    bytes: &[u8],
) -> Result<Document, Declined>
    requires { IsSound (device_view device.now) }
    ensures makes { AnswerOfAsk (asks.Change name.now) bytes.now (device_view device.now) result }
    ensures sound { IfOk result (λ document. AreSound document.roots) }
    ensures inside { IfErr result (λ x. IsInside x) }
{
    let change = Change::read(alloc, bytes, name)?;
    open_id(alloc, device, &change.id)?;
    match config_document(alloc, device, name, change) {
        Ok(document) => Ok(document),
        Err(fault) => Err(unset(alloc, fault, name)),
    }
}

/// The document to which the bytes come on the device, or the first reason why they come to none.
///
/// A document is read. A request of the group of the device itself, or a change of one component's configuration, is read,
/// then answered again where a deployment of its id is closed, and then made a document of the device.
pub fn make_document(
    alloc: Global,
    ask: &Ask,
    device: &Device,
    bytes: &[u8],
) -> Result<Document, Declined>
    requires { IsSound (device_view device.now) }
    ensures makes { AnswerOfAsk ask.now bytes.now (device_view device.now) result }
    ensures sound { IfOk result (λ document. AreSound document.roots) }
    ensures inside { IfErr result (λ x. IsInside x) }
{
    match ask {
        Ask::Document => read_document(alloc, device, bytes),
        Ask::Local => read_local(alloc, device, bytes),
        Ask::Change(name) => read_change(alloc, device, name, bytes),
    }
}
