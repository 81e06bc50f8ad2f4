ghost use Rattle.std.specs.Prelude.{◌≡◌, ◌≤◌, List, [], length, MatchResult, IfOk, OnErr};
ghost use Rattle.fleet_core.specs.Events.{Event};
ghost use Rattle.fleet_core.specs.Fleets.{device_count, AreFresh, StandsFor, Stepped};
ghost use Rattle.fleet_core.specs.Replies.{IsPacketOf, IsUnread};
ghost use Rattle.fleet_core.specs.declared.happening.Happening.TheVariants as happening;

use crate::device::Device;
use crate::happening::{Happening, Reply, StepFault};
use crate::packet::{Packet, Sent};
use deployment_doc::{DocFault, Document};
use nuc_base::NoMemory;
use std::alloc::Global;
use std::marker::Model;

/// How many packets are sent at most, and how many reports.
const MOST: usize = 65_536;

/// A fleet of devices, with the network that holds every packet and every report that was ever sent: any of them may
/// arrive, again and in any order.
#[derive(Drop)]
pub struct Fleet {
    alloc: Global,
    devices: Vec<Device>,
    sent: Vec<Sent>,
    reports: Vec<u32>,
}

impl Model for Fleet {
    ghost use Rattle.fleet_core.specs.Fleets.{FleetState, IsSound};

    ghost Value = { FleetState };

    ghost view = { λ f. record { devices = f.devices.items; sent = f.sent.items; reports = f.reports.items } };

    ghost invariant = { λ f. IsSound (record { devices = f.devices.items; sent = f.sent.items; reports = f.reports.items }) };
}

/// The packet of a document to a device.
fn packet_of(alloc: Global, device: u32, bytes: &[u8]) -> Result<Packet, StepFault>
    ensures { MatchResult result (IsPacketOf device bytes.now) (IsUnread bytes.now) }
{
    let document = match Document::read(alloc, bytes) {
        Ok(document) => document,
        Err(DocFault::NoMemory) => return Err(StepFault::NoMemory),
        Err(fault) => return Err(StepFault::Document(fault)),
    };
    let Document {
        group,
        revision,
        ..
    } = document;
    if revision == 0 {
        return Err(StepFault::NoRevision);
    }
    Ok(Packet {
        device,
        group,
        revision,
    })
}

/// Devices that took nothing yet.
fn fresh_devices(alloc: Global, count: u32) -> Result<Vec<Device>, NoMemory>
    ensures count { IfOk result (λ devices. length devices.items ≡ count) }
    ensures fresh { IfOk result (λ devices. AreFresh devices.items) }
{
    let count = count as usize;
    let mut devices = Vec::with_capacity(alloc, count)?;
    'making: while devices.len() < count {
        devices.push(Device::new(alloc))?;
    }
    Ok(devices)
}

impl Fleet {
    /// A fleet of so many devices, numbered from 0, in which nothing happened yet.
    pub fn new(alloc: Global, devices: u32) -> Result<Fleet, NoMemory>
        requires some { 1 ≤ devices }
        requires few { devices ≤ 1024 }
        ensures devices { IfOk result (λ fleet. device_count fleet ≡ devices) }
        ensures empty { IfOk result (λ fleet. StandsFor fleet []) }
    {
        let list = fresh_devices(alloc, devices)?;
        Ok(Fleet {
            alloc,
            devices: list,
            sent: Vec::new(alloc),
            reports: Vec::new(alloc),
        })
    }

    /// What comes of the next happening. Where the fleet stands for the events so far, it stands for them with this one at
    /// their end, and the reply is the one that they give; or the first fault answers, and nothing changes. Of a document
    /// that is sent `NoDevice` is looked for first, then `Document`, `NoRevision` and `Full`; of a report `NoDevice`, then
    /// `Full`. `NoMemory` may come at any step. A step takes time by the logarithm of what there is, but that `Hear` goes
    /// over the groups of the device.
    pub fn step(&mut self, happening: Happening) -> Result<Reply, StepFault>
        ensures steps { (past : List Event) → StandsFor self.old past → Stepped self.old past happening result self.new }
        ensures devices { device_count self.new ≡ device_count self.old }
        ensures unchanged { OnErr result (self.new ≡ self.old) }
    {
        match happening {
            Happening::Send(device, bytes) => self.send(device, bytes.as_slice()),
            Happening::Deliver(number) => self.deliver(number),
            Happening::Lose(number) => self.lose(number),
            Happening::Restart(device) => self.restart(device),
            Happening::Report(device) => self.report(device),
            Happening::Hear(number) => self.hear(number),
        }
    }

    fn send(&mut self, device: u32, bytes: &[u8]) -> Result<Reply, StepFault>
        ensures steps { (past : List Event) → StandsFor self.old past → Stepped self.old past (happening.Send device bytes.now) result self.new }
        ensures devices { device_count self.new ≡ device_count self.old }
        ensures unchanged { OnErr result (self.new ≡ self.old) }
    {
        if device as usize >= self.devices.len() {
            return Err(StepFault::NoDevice);
        }
        let packet = packet_of(self.alloc, device, bytes)?;
        let number = self.sent.len();
        if number >= MOST {
            return Err(StepFault::Full);
        }
        let sent = Sent {
            packet,
            is_lost: false,
        };
        self.sent.push(sent)?;
        Ok(Reply::Sent(number as u32))
    }

    fn deliver(&mut self, number: u32) -> Result<Reply, StepFault>
        ensures steps { (past : List Event) → StandsFor self.old past → Stepped self.old past (happening.Deliver number) result self.new }
        ensures devices { device_count self.new ≡ device_count self.old }
        ensures unchanged { OnErr result (self.new ≡ self.old) }
    {
        let Some(sent) = self.sent.get(number as usize) else {
            return Err(StepFault::NoPacket);
        };
        if sent.is_lost {
            return Ok(Reply::Gone(number));
        }
        let reports = self.reports.len() as u32;
        let device = &mut self.devices[sent.packet.device as usize];
        Ok(device.offer(self.alloc, &sent.packet, reports)?)
    }

    fn lose(&mut self, number: u32) -> Result<Reply, StepFault>
        ensures steps { (past : List Event) → StandsFor self.old past → Stepped self.old past (happening.Lose number) result self.new }
        ensures devices { device_count self.new ≡ device_count self.old }
        ensures unchanged { OnErr result (self.new ≡ self.old) }
    {
        if number as usize >= self.sent.len() {
            return Err(StepFault::NoPacket);
        }
        self.sent[number as usize].is_lost = true;
        Ok(Reply::Lost(number))
    }

    /// What a device keeps outlives its restart.
    fn restart(&mut self, device: u32) -> Result<Reply, StepFault>
        ensures steps { (past : List Event) → StandsFor self.old past → Stepped self.old past (happening.Restart device) result self.new }
        ensures devices { device_count self.new ≡ device_count self.old }
        ensures unchanged { OnErr result (self.new ≡ self.old) }
    {
        if device as usize >= self.devices.len() {
            return Err(StepFault::NoDevice);
        }
        Ok(Reply::Restarted(device))
    }

    fn report(&mut self, device: u32) -> Result<Reply, StepFault>
        ensures steps { (past : List Event) → StandsFor self.old past → Stepped self.old past (happening.Report device) result self.new }
        ensures devices { device_count self.new ≡ device_count self.old }
        ensures unchanged { OnErr result (self.new ≡ self.old) }
    {
        if device as usize >= self.devices.len() {
            return Err(StepFault::NoDevice);
        }
        let number = self.reports.len();
        if number >= MOST {
            return Err(StepFault::Full);
        }
        self.reports.push(device)?;
        Ok(Reply::Reported(number as u32))
    }

    fn hear(&mut self, number: u32) -> Result<Reply, StepFault>
        ensures steps { (past : List Event) → StandsFor self.old past → Stepped self.old past (happening.Hear number) result self.new }
        ensures devices { device_count self.new ≡ device_count self.old }
        ensures unchanged { OnErr result (self.new ≡ self.old) }
    {
        let Some(reporter) = self.reports.get(number as usize) else {
            return Err(StepFault::NoReport);
        };
        let reporter = *reporter;
        let list = self.devices[reporter as usize].hear(self.alloc, number)?;
        Ok(Reply::Known(reporter, list))
    }
}
