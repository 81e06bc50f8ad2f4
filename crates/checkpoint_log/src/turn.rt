// What a turn writes in the slot that is not live.
ghost use Rattle.std.specs.Prelude.{◌≡◌, ◌≢◌, ◌<◌, ◌≤◌, ◌+◌, ◌++◌, ◌∷◌, [], ℕ, List, IsTrue, length, OnOk};
ghost use Rattle.nuc_base.specs.Faults.{HasCause};
ghost use Rattle.disk_model.specs.Disk.{Settled, HasLeft, IsAfter, Step};
ghost use Rattle.gate_log.specs.Entries.{most_file, most_payload};
ghost use Rattle.checkpoint_log.specs.Slots.{IsPutWith};
ghost use Rattle.checkpoint_log.specs.Turns.{IsShutOn, KeepsStart};

use disk_model::{Disk, DiskFault};

/// Writes a first byte 0 where there is another or none. What a torn write there can open was open before: the file is
/// stable first.
pub fn shut_start<D: Disk>(disk: &mut D, file: &str) -> Result<(), DiskFault>
    ensures shut { IsTrue D.is_modelled → OnOk result ((more : List ℕ) × (D.seen disk.new file.now ≡ 0 ∷ more)) }
    ensures durable { OnOk result (Settled (D.may_leave disk.new) file.now (D.seen disk.new file.now)) }
    ensures moments { HasLeft D.moment D.left_since disk.old disk.new (IsAfter (D.may_leave disk.old) (Step file.now IsShutOn)) }
    ensures others { IsTrue D.is_modelled → (name : List ℕ) → name ≢ file.now → D.seen disk.new name ≡ D.seen disk.old name }
    ensures cause { HasCause (D.faults disk.old) (D.faults disk.new) result }
    ensures quiet { OnOk result (D.faults disk.new ≡ D.faults disk.old) }
{
    disk.sync(file)?;
    let mut first = [1u8];
    let n = disk.read(file, 0, &mut first)?;
    if n == 1 && first[0] == 0 {
        return Ok(());
    }
    disk.write_at(file, 0, &[0])?;
    disk.sync(file)
}

/// Opens the gate behind the entries that were put. The one at the beginning stays closed.
fn gate_behind<D: Disk>(disk: &mut D, file: &str, end: u64) -> Result<(), DiskFault>
    requires there { IsTrue D.is_modelled → (payloads : List (List ℕ)) × IsPutWith [] (D.seen disk.old file.now) end payloads }
    ensures written { IsTrue D.is_modelled → (payloads : List (List ℕ)) → IsPutWith [] (D.seen disk.old file.now) end payloads →
        OnOk result (IsPutWith (1 ∷ []) (D.seen disk.new file.now) end payloads) }
    ensures moments { HasLeft D.moment D.left_since disk.old disk.new (IsAfter (D.may_leave disk.old) (Step file.now KeepsStart)) }
    ensures longer { IsTrue D.is_modelled → OnOk result (length (D.seen disk.old file.now) ≤ length (D.seen disk.new file.now)) }
    ensures others { IsTrue D.is_modelled → (name : List ℕ) → name ≢ file.now → D.seen disk.new name ≡ D.seen disk.old name }
    ensures cause { HasCause (D.faults disk.old) (D.faults disk.new) result }
    ensures quiet { OnOk result (D.faults disk.new ≡ D.faults disk.old) }
{
    if end == 0 {
        return Ok(());
    }
    disk.write_at(file, end, &[1])
}

/// Sees to it that the file goes on up to this place. The closed gate at its beginning is stable, so that what stands behind
/// it can't be opened. What was put stays, also where it fails.
pub fn reserve_behind<D: Disk>(disk: &mut D, file: &str, to: u64) -> Result<(), DiskFault>
    requires shut { IsTrue D.is_modelled → (more : List ℕ) × (D.seen disk.old file.now ≡ 0 ∷ more) }
    ensures stays { IsTrue D.is_modelled → (end : ℕ) → (payloads : List (List ℕ)) → IsPutWith [] (D.seen disk.old file.now) end payloads →
        IsPutWith [] (D.seen disk.new file.now) end payloads }
    ensures moments { HasLeft D.moment D.left_since disk.old disk.new (IsAfter (D.may_leave disk.old) (Step file.now KeepsStart)) }
    ensures room { IsTrue D.is_modelled → OnOk result (to ≤ length (D.seen disk.new file.now)) }
    ensures others { IsTrue D.is_modelled → (name : List ℕ) → name ≢ file.now → D.seen disk.new name ≡ D.seen disk.old name }
    ensures cause { HasCause (D.faults disk.old) (D.faults disk.new) result }
    ensures quiet { OnOk result (D.faults disk.new ≡ D.faults disk.old) }
{
    disk.reserve(file, to)
}

/// Puts an entry behind those that were put, the first of them behind the closed gate at the beginning.
pub fn put_behind<D: Disk>(
    disk: &mut D,
    file: &str,
    end: u64,
    payload: &[u8],
) -> Result<(), DiskFault>
    requires there { IsTrue D.is_modelled → (payloads : List (List ℕ)) × IsPutWith [] (D.seen disk.old file.now) end payloads }
    requires some { 1 ≤ length payload.now }
    requires fits { length payload.now ≤ most_payload }
    requires room { end + 6 + length payload.now ≤ most_file }
    ensures written { IsTrue D.is_modelled → (payloads : List (List ℕ)) → IsPutWith [] (D.seen disk.old file.now) end payloads →
        OnOk result (IsPutWith [] (D.seen disk.new file.now) (end + 5 + length payload.now) (payloads ++ payload.now ∷ [])) }
    ensures moments { HasLeft D.moment D.left_since disk.old disk.new (IsAfter (D.may_leave disk.old) (Step file.now KeepsStart)) }
    ensures longer { IsTrue D.is_modelled → OnOk result (length (D.seen disk.old file.now) ≤ length (D.seen disk.new file.now)) }
    ensures others { IsTrue D.is_modelled → (name : List ℕ) → name ≢ file.now → D.seen disk.new name ≡ D.seen disk.old name }
    ensures cause { HasCause (D.faults disk.old) (D.faults disk.new) result }
    ensures quiet { OnOk result (D.faults disk.new ≡ D.faults disk.old) }
{
    let size = payload.len() as u32;
    gate_behind(disk, file, end)?;
    disk.write_at(file, end + 1, &size.to_be_bytes())?;
    disk.write_at(file, end + 5, payload)
}

/// Closes the gate behind the entries that were put, and makes them stable.
pub fn close_behind<D: Disk>(disk: &mut D, file: &str, end: u64) -> Result<(), DiskFault>
    requires there { IsTrue D.is_modelled → (payloads : List (List ℕ)) × IsPutWith [] (D.seen disk.old file.now) end payloads }
    requires some { IsTrue D.is_modelled → 1 ≤ end }
    ensures written { IsTrue D.is_modelled → (payloads : List (List ℕ)) → IsPutWith [] (D.seen disk.old file.now) end payloads →
        OnOk result (IsPutWith (0 ∷ []) (D.seen disk.new file.now) end payloads) }
    ensures durable { OnOk result (Settled (D.may_leave disk.new) file.now (D.seen disk.new file.now)) }
    ensures moments { HasLeft D.moment D.left_since disk.old disk.new (IsAfter (D.may_leave disk.old) (Step file.now KeepsStart)) }
    ensures longer { IsTrue D.is_modelled → OnOk result (length (D.seen disk.old file.now) ≤ length (D.seen disk.new file.now)) }
    ensures others { IsTrue D.is_modelled → (name : List ℕ) → name ≢ file.now → D.seen disk.new name ≡ D.seen disk.old name }
    ensures cause { HasCause (D.faults disk.old) (D.faults disk.new) result }
    ensures quiet { OnOk result (D.faults disk.new ≡ D.faults disk.old) }
{
    disk.write_at(file, end, &[0])?;
    disk.sync(file)
}
