// What a device keeps, and what the controller has heard of it.
ghost use Rattle.std.specs.Prelude.{◌≡◌, ◌+◌, ◌<◌, ◌^◌, ◌-◌, max, [], IfOk, OnOk, OnErr};
ghost use Rattle.fleet_core.specs.Takings.{level};
ghost use Rattle.fleet_core.specs.Keeping.{takings_of, HasTakenOne, IsBy, level_before, IsOffered};
ghost use Rattle.fleet_core.specs.Replies.{verdict, IsListing};

use crate::happening::Reply;
use crate::history::{History, Taking};
use crate::packet::Packet;
use nuc_base::{Copied, Label, List, NoMemory};
use std::alloc::Global;
use std::collections::BTreeMap;
use std::marker::Model;

/// A device: what it took of each group, and one more than the number of its last report that was heard.
#[derive(Debug, Drop)]
pub(crate) struct Device {
    groups: BTreeMap<Label, History>,
    heard: u32,
}

impl Model for Device {
    ghost use Rattle.fleet_core.specs.Keeping.{Keeping};

    ghost Value = { Keeping };

    ghost view = { λ d. record { groups = d.groups.entries; heard = d.heard } };
}

impl Device {
    /// It took nothing yet, and nothing was heard of it.
    pub(crate) fn new(alloc: Global) -> Device
        ensures groups { result.groups ≡ [] }
        ensures heard { result.heard ≡ 0 }
    {
        Device {
            groups: BTreeMap::new(alloc),
            heard: 0,
        }
    }

    /// The revision of a group that it kept when fewer than so many reports had been sent: 0 where it had none then.
    fn level(&self, group: &Label, reports: u32) -> u64
        ensures { result ≡ level reports (takings_of self.now group.now) }
    {
        match self.groups.get(group) {
            Some(history) => history.level(reports),
            None => 0,
        }
    }

    /// Takes a document of a group that is newer than all before it. Where memory is refused nothing changes.
    fn take(&mut self, alloc: Global, group: &Label, taking: Taking) -> Result<(), NoMemory>
        requires later { IsBy taking.reports self.old }
        requires newer { level (taking.reports + 1) (takings_of self.old group.now) < taking.revision }
        ensures ok { OnOk result (HasTakenOne self.old group.now taking self.new) }
        ensures err { OnErr result (self.new ≡ self.old) }
    {
        if let Some(history) = self.groups.get_mut(group) {
            return history.add(taking);
        }
        let mut history = History::empty(alloc);
        history.add(taking)?;
        drop(self.groups.insert(group.copy(alloc)?, history)?);
        Ok(())
    }

    /// A packet arrives when so many reports have been sent. The device takes its document where that is newer than what
    /// it keeps of the group. Where memory is refused nothing changes.
    pub(crate) fn offer(
        &mut self,
        alloc: Global,
        packet: &Packet,
        reports: u32,
    ) -> Result<Reply, NoMemory>
        requires later { IsBy reports self.old }
        requires few { reports < 2 ^ 32 - 1 }
        ensures reply { IfOk result (λ reply. reply ≡ verdict packet.now (level_before self.old packet.now reports)) }
        ensures device { OnOk result (IsOffered self.old packet.now reports self.new) }
        ensures err { OnErr result (self.new ≡ self.old) }
    {
        let kept = self.level(&packet.group, reports + 1);
        let group = packet.group.copy(alloc)?;
        if kept < packet.revision {
            let taking = Taking {
                reports,
                revision: packet.revision,
            };
            self.take(alloc, &packet.group, taking)?;
            return Ok(Reply::Taken(packet.device, group, packet.revision));
        }
        if packet.revision < kept {
            return Ok(Reply::Stale(packet.device, group, kept));
        }
        Ok(Reply::Again(packet.device, group, kept))
    }

    /// The groups of which it kept a revision when fewer than so many reports had been sent, each with the highest.
    fn listing(&self, alloc: Global, reports: u32) -> Result<List<(Label, u64)>, NoMemory>
        ensures { IfOk result (λ list. IsListing (λ group. level reports (takings_of self.now group)) list) }
    {
        let mut list = List::empty(alloc);
        for (group, history) in self.groups.iter() {
            let level = history.level(reports);
            if level > 0 {
                list.push((group.copy(alloc)?, level))?;
            }
        }
        Ok(list)
    }

    /// The report with this number is heard: what is known then. Where memory is refused nothing changes.
    pub(crate) fn hear(
        &mut self,
        alloc: Global,
        number: u32,
    ) -> Result<List<(Label, u64)>, NoMemory>
        requires { number < 2 ^ 32 - 1 }
        ensures list { IfOk result (λ list. IsListing (λ group. level (max self.old.heard (number + 1)) (takings_of self.old group)) list) }
        ensures heard { OnOk result (self.new ≡ record self.old { heard = max self.old.heard (number + 1) }) }
        ensures err { OnErr result (self.new ≡ self.old) }
    {
        let heard = self.heard.max(number + 1);
        let list = self.listing(alloc, heard)?;
        self.heard = heard;
        Ok(list)
    }
}
