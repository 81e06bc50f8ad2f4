// How many records a journal holds, and the first whose kind this program does not know.
ghost use Rattle.std.specs.Prelude.{◌≡◌, ◌≤◌, ◌<◌, ◌+◌, ℕ, List, length, IsErrOf, IsTrue, IfOk};
ghost use Rattle.nuc_base.specs.Faults.{Rose};
ghost use Rattle.disk_model.specs.Disk.{HasLeft};
ghost use Rattle.gate_log.specs.Place.{IsEntryAt};
ghost use Rattle.checkpoint_log.specs.Slots.{slots_stands};
ghost use Rattle.store_root.specs.Kinds.{first_some, is_kind, unknown_from, unknown_of};
ghost use Rattle.store_root.specs.Tallies.{TallyAnswer};

use checkpoint_log::Slots;
use disk_model::Disk;
use gate_log::{EntryFault, FindFault, Journal};
use std::alloc::Global;

/// A record of a kind that this program does not know.
#[derive(Clone, Copy, Debug, Drop, PartialEq, Eq)]
pub struct UnknownRecord {
    /// Its first byte.
    pub kind: u8,
    /// The place of its entry in the live slot.
    pub at: u64,
}

/// What the live entries of a journal are, as far as it is told without replaying them.
#[derive(Clone, Copy, Debug, Drop, PartialEq, Eq)]
pub struct Tally {
    pub records: u64,
    pub unknown: Option<UnknownRecord>,
}

/// Whether this is the first byte of a kind of records.
fn is_known(kind: u8) -> bool
    ensures { result ≡ is_kind kind }
{
    match kind {
        0x11 => true,
        0x12 => true,
        0x13 => true,
        0x14 => true,
        0x15 => true,
        0x16 => true,
        0x17 => true,
        0x18 => true,
        0x19 => true,
        0x1a => true,
        0x1b => true,
        0x1c => true,
        0x1d => true,
        0x1e => true,
        0x1f => true,
        _ => false,
    }
}

/// The record of the entry at this place, where its kind is unknown.
fn unknown_in(payload: &[u8], at: u64) -> Option<UnknownRecord>
    ensures { result ≡ unknown_of payload.now at }
{
    match payload {
        [] => None,
        [kind, ..] => {
            if is_known(*kind) {
                return None;
            }
            Some(UnknownRecord { kind: *kind, at })
        }
    }
}

/// The first of the two, where it is there.
fn first_of(first: Option<UnknownRecord>, second: Option<UnknownRecord>) -> Option<UnknownRecord>
    ensures { result ≡ first_some first second }
{
    match first {
        Some(unknown) => Some(unknown),
        None => second,
    }
}

/// Counts the entry at this place, and gives the place behind it.
fn count_entry<D: Disk>(
    alloc: Global,
    log: &Slots,
    disk: &mut D,
    at: u64,
    tally: &mut Tally,
) -> Result<u64, EntryFault>
    requires below { at < log.now.live.end }
    requires place { IsTrue D.is_modelled → (payload : List ℕ) × IsEntryAt slots_stands log.now (D.seen disk.old) at payload }
    requires few { tally.old.records ≤ at }
    ensures told { IsTrue D.is_modelled → (payload : List ℕ) → IsEntryAt slots_stands log.now (D.seen disk.old) at payload →
        IfOk result (λ next. (next ≡ at + 5 + length payload) × (tally.new.records ≡ tally.old.records + 1)
        × (tally.new.unknown ≡ first_some tally.old.unknown (unknown_of payload at))) }
    ensures few { IfOk result (λ next. (at < next) × (tally.new.records ≤ next)) }
    ensures seen { D.seen disk.new ≡ D.seen disk.old }
    ensures moments { HasLeft D.moment D.left_since disk.old disk.new (D.may_leave disk.old) }
    ensures cause { IsErrOf result EntryFault.Disk → Rose (D.faults disk.old) (D.faults disk.new) }
    ensures quiet { ¬ (IsErrOf result EntryFault.Disk) → D.faults disk.new ≡ D.faults disk.old }
    ensures later { D.faults disk.old ≤ D.faults disk.new }
{
    match log.entry(alloc, disk, at) {
        Ok((payload, next)) => {
            tally.records += 1;
            tally.unknown = first_of(tally.unknown, unknown_in(payload.as_slice(), at));
            Ok(next)
        }
        Err(fault) => Err(fault),
    }
}

/// Counts the entries behind which the journal stands.
fn count_entries<D: Disk>(alloc: Global, log: &Slots, disk: &mut D) -> Result<Tally, EntryFault>
    requires stands { IsTrue D.is_modelled → (payloads : List (List ℕ)) × slots_stands log.now (D.seen disk.old) payloads }
    ensures told { IsTrue D.is_modelled → (payloads : List (List ℕ)) → slots_stands log.now (D.seen disk.old) payloads →
        IfOk result (λ t. (t.records ≡ length payloads) × (t.unknown ≡ unknown_from 0 payloads)) }
    ensures seen { D.seen disk.new ≡ D.seen disk.old }
    ensures moments { HasLeft D.moment D.left_since disk.old disk.new (D.may_leave disk.old) }
    ensures cause { IsErrOf result EntryFault.Disk → Rose (D.faults disk.old) (D.faults disk.new) }
    ensures quiet { ¬ (IsErrOf result EntryFault.Disk) → D.faults disk.new ≡ D.faults disk.old }
    ensures later { D.faults disk.old ≤ D.faults disk.new }
{
    let mut tally = Tally {
        records: 0,
        unknown: None,
    };
    let mut at = 0;
    let end = log.end();
    while at < end {
        at = count_entry(alloc, log, disk, at, &mut tally)?;
    }
    Ok(tally)
}

/// How many records the live slot holds, and the first of a kind that this program does not know, as a newer one may have
/// written. Both are none where the journal has no entry or is damaged. Nothing is replayed, and nothing is written.
///
/// `Disk` comes where the disk failed, `NoMemory` where there is no room for an entry.
pub fn count_records<D: Disk>(alloc: Global, disk: &mut D) -> Result<Tally, EntryFault>
    ensures told { IsTrue D.is_modelled → TallyAnswer (D.seen disk.old) result }
    ensures seen { D.seen disk.new ≡ D.seen disk.old }
    ensures moments { HasLeft D.moment D.left_since disk.old disk.new (D.may_leave disk.old) }
    ensures cause { IsErrOf result EntryFault.Disk → Rose (D.faults disk.old) (D.faults disk.new) }
    ensures quiet { ¬ (IsErrOf result EntryFault.Disk) → D.faults disk.new ≡ D.faults disk.old }
    ensures later { D.faults disk.old ≤ D.faults disk.new }
{
    let none = Tally {
        records: 0,
        unknown: None,
    };
    match Slots::find(disk) {
        Ok(log) => count_entries(alloc, &log, disk),
        Err(FindFault::Disk) => Err(EntryFault::Disk),
        Err(FindFault::NotInitialised) => Ok(none),
        Err(FindFault::Damaged(_)) => Ok(none),
    }
}
