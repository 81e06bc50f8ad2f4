// A journal, whichever way it keeps its entries.
ghost use Rattle.std.specs.Prelude.{◌≡◌, ◌<◌, ◌≤◌, ◌+◌, ◌++◌, ◌∷◌, [], ◌↔◌, ◌⊎◌, ℕ, Bool, List, IsTrue, IsErrOf, length, IfOk, OnOk};
ghost use Rattle.nuc_base.specs.Faults.{HasCause, Rose};
ghost use Rattle.disk_model.specs.Disk.{Image, IsAfter, HasLeft};
ghost use Rattle.gate_log.specs.Entries.{most_file, most_payload};
ghost use Rattle.gate_log.specs.Found.{FindsBy};
ghost use Rattle.gate_log.specs.Journal.{IsChangeIn, AreSettled, IsBehind, BeforeOrAfter, JournalLaws};
ghost use Rattle.gate_log.specs.Place.{IsEntryAt};
ghost use Rattle.gate_log.specs.Turned.{IsPut, BeginsStore, BeginsTurn, BeforeOrPut};

use crate::entry::EntryFault;
use crate::find::FindFault;
use crate::log::{AppendFault, JOURNAL, Log};
use disk_model::{Disk, DiskFault};
use nuc_base::Bytes;
use std::alloc::Global;

/// A journal over some files of a disk. At each moment of its calls every image that a crash may leave holds the
/// entries of before, or these with the new one, or those that were put in their place.
///
/// A journal that turns keeps a second place for its entries: there it can put other entries and then let them take the
/// place of the live ones at once. At one that does not turn the calls of a turn do nothing.
///
/// What is added within the room that a file has needs no new room. `reserve` and `reserve_turn` make it.
pub trait Journal {
    /// The files that are its own.
    ghost files: { List ℕ → Type 0 };

    /// The live entries of an image.
    ghost entries: { Image → List (List ℕ) → Type 0 };

    /// The image holds no entry.
    ghost holds_none: { Image → Type 0 };

    /// The live entries of the image are damaged at this place.
    ghost is_damaged: { Image → ℕ → Type 0 };

    /// It stands on an image, behind these payloads' entries, which are the live ones.
    ghost stands: { Self → Image → List (List ℕ) → Type 0 };

    /// A turn is begun, and these payloads' entries were put, as the image reads.
    ghost put_there: { Self → Image → List (List ℕ) → Type 0 };

    /// The place of the closed gate behind the live entries.
    ghost end: { Self → ℕ };

    /// The place of the closed gate behind the entries that were put.
    ghost put_end: { Self → ℕ };

    /// Up to which place the file of the live entries goes.
    ghost room: { Self → Image → ℕ };

    /// Up to which place the file goes in which others are put.
    ghost put_room: { Self → Image → ℕ };

    /// How often it turned since its store was made.
    ghost number: { Self → ℕ };

    /// Whether it can turn.
    ghost turns: { Self → Bool };

    /// Makes the journal stable and finds the end of its live entries. It writes nothing.
    fn find<D: Disk>(disk: &mut D) -> Result<Self, FindFault>
        ensures told { IsTrue D.is_modelled → FindsBy holds_none is_damaged stands (D.seen disk.old) result }
        ensures open { IfOk result (λ log. (payloads : List (List ℕ)) × IsBehind D.may_leave stands log disk.new payloads) }
        ensures some { IfOk result (λ log. 0 < end log) }
        // Whatever the journal holds, a crash then leaves it as it reads.
        ensures settled { ¬ (IsErrOf result FindFault.Disk) → AreSettled D.seen D.may_leave files disk.new }
        ensures seen { D.seen disk.new ≡ D.seen disk.old }
        ensures moments { HasLeft D.moment D.left_since disk.old disk.new (D.may_leave disk.old) }
        ensures cause { IsErrOf result FindFault.Disk → Rose (D.faults disk.old) (D.faults disk.new) }
        ensures quiet { ¬ (IsErrOf result FindFault.Disk) → D.faults disk.new ≡ D.faults disk.old }
        ensures later { D.faults disk.old ≤ D.faults disk.new };

    /// Makes a journal without an entry.
    fn create<D: Disk>(disk: &mut D) -> Result<Self, DiskFault>
        requires none { IsTrue D.is_modelled → holds_none (D.seen disk.old) }
        requires settled { AreSettled D.seen D.may_leave files disk.old }
        ensures made { IfOk result (λ log. (end log ≡ 0) × IsBehind D.may_leave stands log disk.new []) }
        ensures number { IfOk result (λ log. number log ≡ 0) }
        ensures any_moment { HasLeft D.moment D.left_since disk.old disk.new (IsAfter (D.may_leave disk.old) (IsChangeIn files holds_none)) }
        ensures others { IsTrue D.is_modelled → (name : List ℕ) → ¬ (files name) → D.seen disk.new name ≡ D.seen disk.old name }
        ensures cause { HasCause (D.faults disk.old) (D.faults disk.new) result }
        ensures quiet { OnOk result (D.faults disk.new ≡ D.faults disk.old) };

    /// Adds an entry. After `Disk` the journal is to be found again.
    fn append<D: Disk>(&mut self, disk: &mut D, payload: &[u8]) -> Result<(), AppendFault>
        requires open { (payloads : List (List ℕ)) × IsBehind D.may_leave stands self.old disk.old payloads }
        // The first entry of a store begins it.
        requires first { IsTrue D.is_modelled → stands self.old (D.seen disk.old) [] → BeginsStore payload.now }
        requires some { 1 ≤ length payload.now }
        requires fits { length payload.now ≤ most_payload }
        ensures any_moment { (payloads : List (List ℕ)) → IsBehind D.may_leave stands self.old disk.old payloads →
            HasLeft D.moment D.left_since disk.old disk.new (IsAfter (D.may_leave disk.old) (IsChangeIn files (BeforeOrAfter entries payloads payload.now))) }
        ensures added { (payloads : List (List ℕ)) → IsBehind D.may_leave stands self.old disk.old payloads →
            OnOk result (IsBehind D.may_leave stands self.new disk.new (payloads ++ payload.now ∷ [])) }
        ensures place { OnOk result (end self.new ≡ end self.old + 5 + length payload.now) }
        ensures number { number self.new ≡ number self.old }
        ensures others { IsTrue D.is_modelled → (name : List ℕ) → ¬ (files name) → D.seen disk.new name ≡ D.seen disk.old name }
        ensures full { (at : ℕ) → IsErrOf result (AppendFault.Full at) ↔ ((at ≡ end self.old) × (most_file < end self.old + 6 + length payload.now)) }
        ensures untouched { most_file < end self.old + 6 + length payload.now → (disk.new ≡ disk.old) × (self.new ≡ self.old) }
        // Within the room that there is it does not fail for want of room, and leaves it.
        ensures fits { IsTrue D.is_modelled → end self.old + 6 + length payload.now ≤ room self.old (D.seen disk.old) →
            D.shortages disk.new ≡ D.shortages disk.old }
        ensures room { IsTrue D.is_modelled → OnOk result (room self.old (D.seen disk.old) ≤ room self.new (D.seen disk.new)) }
        ensures cause { IsErrOf result AppendFault.Disk → Rose (D.faults disk.old) (D.faults disk.new) }
        ensures quiet { ¬ (IsErrOf result AppendFault.Disk) → D.faults disk.new ≡ D.faults disk.old }
        ensures later { D.faults disk.old ≤ D.faults disk.new };

    /// Sees to it that entries can be added up to this place without new room. Where it fails the journal stands as before.
    fn reserve<D: Disk>(&self, disk: &mut D, to: u64) -> Result<(), DiskFault>
        requires open { (payloads : List (List ℕ)) × IsBehind D.may_leave stands self.now disk.old payloads }
        ensures any_moment { (payloads : List (List ℕ)) → IsBehind D.may_leave stands self.now disk.old payloads →
            HasLeft D.moment D.left_since disk.old disk.new (IsAfter (D.may_leave disk.old) (IsChangeIn files (λ c. entries c payloads))) }
        ensures stays { (payloads : List (List ℕ)) → IsBehind D.may_leave stands self.now disk.old payloads →
            IsBehind D.may_leave stands self.now disk.new payloads }
        ensures room { IsTrue D.is_modelled → OnOk result (to ≤ room self.now (D.seen disk.new)) }
        ensures others { IsTrue D.is_modelled → (name : List ℕ) → ¬ (files name) → D.seen disk.new name ≡ D.seen disk.old name }
        ensures cause { HasCause (D.faults disk.old) (D.faults disk.new) result }
        ensures quiet { OnOk result (D.faults disk.new ≡ D.faults disk.old) };

    /// The payload of the live entry at this place, and the place behind it.
    fn entry<D: Disk>(
        &self,
        alloc: Global,
        disk: &mut D,
        at: u64,
    ) -> Result<(Bytes, u64), EntryFault>
        requires place { IsTrue D.is_modelled → (payload : List ℕ) × IsEntryAt stands self.now (D.seen disk.old) at payload }
        ensures told { IsTrue D.is_modelled → (payload : List ℕ) → IsEntryAt stands self.now (D.seen disk.old) at payload →
            IfOk result (λ r. (r.0 ≡ payload) × (r.1 ≡ at + 5 + length payload)) }
        ensures goes_on { at < end self.now → IfOk result (λ r. at < r.1) }
        // The place behind is no further than the payload goes, also where the disk tells nothing.
        ensures no_further { IfOk result (λ r. r.1 ≤ at + 5 + length r.0) }
        ensures fits { IfOk result (λ r. length r.0 ≤ most_payload) }
        ensures seen { D.seen disk.new ≡ D.seen disk.old }
        ensures moments { HasLeft D.moment D.left_since disk.old disk.new (D.may_leave disk.old) }
        ensures cause { IsErrOf result EntryFault.Disk → Rose (D.faults disk.old) (D.faults disk.new) }
        ensures quiet { ¬ (IsErrOf result EntryFault.Disk) → D.faults disk.new ≡ D.faults disk.old }
        ensures later { D.faults disk.old ≤ D.faults disk.new };

    fn end(&self) -> u64
        ensures { result ≡ end self.now };

    fn number(&self) -> u64
        ensures { result ≡ number self.now };

    fn turns(&self) -> bool
        ensures { result ≡ turns self.now };

    /// Begins to put other entries. The live ones stay.
    fn begin_turn<D: Disk>(&mut self, disk: &mut D) -> Result<(), DiskFault>
        requires open { (payloads : List (List ℕ)) × IsBehind D.may_leave stands self.old disk.old payloads }
        ensures any_moment { (payloads : List (List ℕ)) → IsBehind D.may_leave stands self.old disk.old payloads →
            HasLeft D.moment D.left_since disk.old disk.new (IsAfter (D.may_leave disk.old) (IsChangeIn files (λ c. entries c payloads))) }
        ensures stays { (payloads : List (List ℕ)) → IsBehind D.may_leave stands self.old disk.old payloads →
            OnOk result (IsBehind D.may_leave stands self.new disk.new payloads) }
        ensures same { (end self.new ≡ end self.old) × (number self.new ≡ number self.old) × (turns self.new ≡ turns self.old) }
        ensures begun { IsTrue (turns self.old) → OnOk result ((put_end self.new ≡ 0) × IsPut D.is_modelled D.seen put_there self.new disk.new []) }
        ensures others { IsTrue D.is_modelled → (name : List ℕ) → ¬ (files name) → D.seen disk.new name ≡ D.seen disk.old name }
        ensures cause { HasCause (D.faults disk.old) (D.faults disk.new) result }
        ensures quiet { OnOk result (D.faults disk.new ≡ D.faults disk.old) };

    /// Sees to it that entries can be put, and added once they are the live ones, up to this place without new room. The live
    /// ones stay, and those that were put, also where it fails.
    fn reserve_turn<D: Disk>(&self, disk: &mut D, to: u64) -> Result<(), DiskFault>
        requires open { (payloads : List (List ℕ)) × IsBehind D.may_leave stands self.now disk.old payloads }
        requires begun { IsTrue (turns self.now) → (more : List (List ℕ)) × IsPut D.is_modelled D.seen put_there self.now disk.old more }
        ensures any_moment { (payloads : List (List ℕ)) → IsBehind D.may_leave stands self.now disk.old payloads →
            HasLeft D.moment D.left_since disk.old disk.new (IsAfter (D.may_leave disk.old) (IsChangeIn files (λ c. entries c payloads))) }
        ensures stays { (payloads : List (List ℕ)) → IsBehind D.may_leave stands self.now disk.old payloads →
            IsBehind D.may_leave stands self.now disk.new payloads }
        ensures is_put { (more : List (List ℕ)) → IsTrue (turns self.now) → IsPut D.is_modelled D.seen put_there self.now disk.old more →
            IsPut D.is_modelled D.seen put_there self.now disk.new more }
        ensures room { IsTrue D.is_modelled → IsTrue (turns self.now) → OnOk result (to ≤ put_room self.now (D.seen disk.new)) }
        ensures others { IsTrue D.is_modelled → (name : List ℕ) → ¬ (files name) → D.seen disk.new name ≡ D.seen disk.old name }
        ensures cause { HasCause (D.faults disk.old) (D.faults disk.new) result }
        ensures quiet { OnOk result (D.faults disk.new ≡ D.faults disk.old) };

    /// Puts one more entry behind those that were put. The live ones stay.
    fn put<D: Disk>(&mut self, disk: &mut D, payload: &[u8]) -> Result<(), DiskFault>
        requires open { (payloads : List (List ℕ)) × IsBehind D.may_leave stands self.old disk.old payloads }
        requires begun { IsTrue (turns self.old) → (more : List (List ℕ)) × IsPut D.is_modelled D.seen put_there self.old disk.old more }
        requires some { 1 ≤ length payload.now }
        requires fits { length payload.now ≤ most_payload }
        requires room { IsTrue (turns self.old) → put_end self.old + 6 + length payload.now ≤ most_file }
        ensures any_moment { (payloads : List (List ℕ)) → IsBehind D.may_leave stands self.old disk.old payloads →
            HasLeft D.moment D.left_since disk.old disk.new (IsAfter (D.may_leave disk.old) (IsChangeIn files (λ c. entries c payloads))) }
        ensures stays { (payloads : List (List ℕ)) → IsBehind D.may_leave stands self.old disk.old payloads →
            OnOk result (IsBehind D.may_leave stands self.new disk.new payloads) }
        ensures same { (end self.new ≡ end self.old) × (number self.new ≡ number self.old) × (turns self.new ≡ turns self.old) }
        ensures is_put { (more : List (List ℕ)) → IsTrue (turns self.old) → IsPut D.is_modelled D.seen put_there self.old disk.old more →
            OnOk result ((put_end self.new ≡ put_end self.old + 5 + length payload.now)
            × IsPut D.is_modelled D.seen put_there self.new disk.new (more ++ payload.now ∷ [])) }
        ensures room { IsTrue D.is_modelled → OnOk result (put_room self.old (D.seen disk.old) ≤ put_room self.new (D.seen disk.new)) }
        ensures others { IsTrue D.is_modelled → (name : List ℕ) → ¬ (files name) → D.seen disk.new name ≡ D.seen disk.old name }
        ensures cause { HasCause (D.faults disk.old) (D.faults disk.new) result }
        ensures quiet { OnOk result (D.faults disk.new ≡ D.faults disk.old) };

    /// Lets the entries that were put take the place of the live ones.
    fn end_turn<D: Disk>(&mut self, disk: &mut D) -> Result<(), DiskFault>
        requires open { (payloads : List (List ℕ)) × IsBehind D.may_leave stands self.old disk.old payloads }
        requires begun { IsTrue (turns self.old) → (more : List (List ℕ)) × IsPut D.is_modelled D.seen put_there self.old disk.old more ×
            BeginsTurn (number self.old + 1) more }
        ensures any_moment { (payloads more : List (List ℕ)) → IsBehind D.may_leave stands self.old disk.old payloads →
            IsPut D.is_modelled D.seen put_there self.old disk.old more →
            HasLeft D.moment D.left_since disk.old disk.new (IsAfter (D.may_leave disk.old) (IsChangeIn files (BeforeOrPut entries payloads more))) }
        ensures turned { (more : List (List ℕ)) → IsTrue (turns self.old) → IsPut D.is_modelled D.seen put_there self.old disk.old more →
            OnOk result ((number self.new ≡ number self.old + 1) × (end self.new ≡ put_end self.old) × IsBehind D.may_leave stands self.new disk.new more) }
        ensures room { IsTrue D.is_modelled → IsTrue (turns self.old) →
            OnOk result (put_room self.old (D.seen disk.old) ≤ room self.new (D.seen disk.new)) }
        ensures others { IsTrue D.is_modelled → (name : List ℕ) → ¬ (files name) → D.seen disk.new name ≡ D.seen disk.old name }
        ensures cause { HasCause (D.faults disk.old) (D.faults disk.new) result }
        ensures quiet { OnOk result (D.faults disk.new ≡ D.faults disk.old) };

    /// What layers above need to know of the representation.
    ghost laws: { JournalLaws files entries holds_none is_damaged stands end };
}

impl Journal for Log {
    ghost use Rattle.std.specs.Prelude.{false};
    ghost use Rattle.gate_log.specs.Entries.{journal};
    ghost use Rattle.gate_log.specs.Journal.{log_files, log_entries, log_none, log_stands, log_damaged};
    ghost use Rattle.gate_log.specs.Laws.{log_laws};

    ghost files = { log_files };

    ghost entries = { log_entries };

    ghost holds_none = { log_none };

    ghost is_damaged = { log_damaged };

    ghost stands = { log_stands };

    ghost put_there = { λ log image payloads. Unit {0} };

    ghost end = { λ log. log.end };

    ghost put_end = { λ log. 0 };

    ghost room = { λ log image. length (image journal) };

    ghost put_room = { λ log image. 0 };

    ghost number = { λ log. 0 };

    ghost turns = { λ log. false };

    ghost laws = { log_laws };

    fn find<D: Disk>(disk: &mut D) -> Result<Self, FindFault> {
        Log::find_in(disk, JOURNAL)
    }

    fn create<D: Disk>(disk: &mut D) -> Result<Self, DiskFault> {
        Log::create_in(disk, JOURNAL)
    }

    fn append<D: Disk>(&mut self, disk: &mut D, payload: &[u8]) -> Result<(), AppendFault> {
        self.append_in(disk, JOURNAL, payload)
    }

    fn reserve<D: Disk>(&self, disk: &mut D, to: u64) -> Result<(), DiskFault> {
        self.reserve_in(disk, JOURNAL, to)
    }

    fn entry<D: Disk>(
        &self,
        alloc: Global,
        disk: &mut D,
        at: u64,
    ) -> Result<(Bytes, u64), EntryFault> {
        self.entry_in(alloc, disk, JOURNAL, at)
    }

    fn end(&self) -> u64 {
        self.end
    }

    fn number(&self) -> u64 {
        0
    }

    fn turns(&self) -> bool {
        false
    }

    fn begin_turn<D: Disk>(&mut self, _disk: &mut D) -> Result<(), DiskFault> {
        Ok(())
    }

    fn reserve_turn<D: Disk>(&self, _disk: &mut D, _to: u64) -> Result<(), DiskFault> {
        Ok(())
    }

    fn put<D: Disk>(&mut self, _disk: &mut D, _payload: &[u8]) -> Result<(), DiskFault> {
        Ok(())
    }

    fn end_turn<D: Disk>(&mut self, _disk: &mut D) -> Result<(), DiskFault> {
        Ok(())
    }
}
