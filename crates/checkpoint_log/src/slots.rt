// Two slots as a journal.
use crate::look::{live_number, settle};
use crate::names::slot_name;
use crate::turn::{close_behind, put_behind, reserve_behind, shut_start};
use disk_model::{Disk, DiskFault};
use gate_log::{AppendFault, EntryFault, FindFault, JOURNAL, Journal, Log, open_gate};
use nuc_base::Bytes;
use std::alloc::Global;

/// A journal of two slots, whose live one has this number and these entries. While a turn is begun, the entries that
/// were put end at `put_end` of the other slot.
#[derive(Debug, Drop, PartialEq, Eq)]
pub struct Slots {
    pub live: Log,
    pub number: u64,
    pub put_end: u64,
    pub begun: bool,
}

impl Journal for Slots {
    ghost use Rattle.checkpoint_log.specs.Slots.{slots_files, slots_entries, slots_none, slots_damaged, slots_stands, slots_put, slots_put_room, slots_room, slots_turn};
    ghost use Rattle.checkpoint_log.specs.Laws.{slots_laws};

    ghost files = { slots_files };

    ghost entries = { slots_entries };

    ghost holds_none = { slots_none };

    ghost is_damaged = { slots_damaged };

    ghost stands = { slots_stands };

    ghost put_there = { slots_put };

    ghost end = { λ log. log.live.end };

    ghost put_end = { λ log. log.put_end };

    ghost room = { slots_room };

    ghost put_room = { slots_put_room };

    ghost number = { λ log. log.number };

    ghost turns = { slots_turn };

    ghost laws = { slots_laws };

    fn find<D: Disk>(disk: &mut D) -> Result<Self, FindFault> {
        settle(disk)?;
        let number = live_number(disk)?;
        match Log::end_in(disk, slot_name(number)) {
            Ok(live) => Ok(Slots {
                live,
                number,
                put_end: 0,
                begun: false,
            }),
            Err(fault) => Err(fault),
        }
    }

    fn create<D: Disk>(disk: &mut D) -> Result<Self, DiskFault> {
        let live = Log::create_in(disk, JOURNAL)?;
        Ok(Slots {
            live,
            number: 0,
            put_end: 0,
            begun: false,
        })
    }

    fn append<D: Disk>(&mut self, disk: &mut D, payload: &[u8]) -> Result<(), AppendFault> {
        self.live.append_in(disk, slot_name(self.number), payload)
    }

    fn reserve<D: Disk>(&self, disk: &mut D, to: u64) -> Result<(), DiskFault> {
        self.live.reserve_in(disk, slot_name(self.number), to)
    }

    fn entry<D: Disk>(
        &self,
        alloc: Global,
        disk: &mut D,
        at: u64,
    ) -> Result<(Bytes, u64), EntryFault> {
        self.live.entry_in(alloc, disk, slot_name(self.number), at)
    }

    fn end(&self) -> u64 {
        self.live.end
    }

    fn number(&self) -> u64 {
        self.number
    }

    fn turns(&self) -> bool {
        self.number < u64::MAX
    }

    fn begin_turn<D: Disk>(&mut self, disk: &mut D) -> Result<(), DiskFault> {
        if self.number >= u64::MAX {
            return Ok(());
        }
        shut_start(disk, slot_name(self.number + 1))?;
        self.put_end = 0;
        self.begun = true;
        Ok(())
    }

    fn reserve_turn<D: Disk>(&self, disk: &mut D, to: u64) -> Result<(), DiskFault> {
        if self.number >= u64::MAX {
            return Ok(());
        }
        reserve_behind(disk, slot_name(self.number + 1), to)
    }

    fn put<D: Disk>(&mut self, disk: &mut D, payload: &[u8]) -> Result<(), DiskFault> {
        if self.number >= u64::MAX {
            return Ok(());
        }
        put_behind(disk, slot_name(self.number + 1), self.put_end, payload)?;
        self.put_end += 5 + payload.len() as u64;
        Ok(())
    }

    fn end_turn<D: Disk>(&mut self, disk: &mut D) -> Result<(), DiskFault> {
        if self.number >= u64::MAX {
            return Ok(());
        }
        let other = slot_name(self.number + 1);
        close_behind(disk, other, self.put_end)?;
        open_gate(disk, other, 0)?;
        self.live = Log { end: self.put_end };
        self.number += 1;
        self.put_end = 0;
        self.begun = false;
        Ok(())
    }
}
