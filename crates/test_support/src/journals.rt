ghost use Rattle.std.specs.Prelude.{◌≡◌, ◌∷◌, ◌++◌, OnOk, length, map, min};
ghost use Rattle.std.specs.Int.{w32, to_be_bytes};
ghost use Rattle.test_support.specs.Named.{named};

use std::alloc::{AllocError, Global};

/// The bytes of the first record of this name, or none.
pub fn record_named(records: &'static [(&'static str, &'static [u8])], name: &str) -> &'static [u8]
    ensures { result.now ≡ named name.now (map (λ r. (r.0.now, r.1.now)) records.now) }
{
    match records {
        [(other, bytes), _rest @ ..] if *other == name => bytes,
        [_first, rest @ ..] => record_named(rest, name),
        [] => b"",
    }
}

/// Adds an entry of a payload of at most 1,000,000 bytes to a journal: an open gate, its length and the payload.
pub fn push_entry(journal: &mut Vec<u8>, payload: &[u8]) -> Result<(), AllocError>
    ensures { OnOk result (journal.new.items ≡ journal.old.items ++ 1 ∷ to_be_bytes w32 (min (length payload.now) 1000000) ++ payload.now) }
{
    let len = payload.len().min(1_000_000) as u32;
    journal.push(1)?;
    journal.extend_from_slice(&len.to_be_bytes())?;
    journal.extend_from_slice(payload)
}

/// The bytes of a journal of the records with these names, which blanks part, with a closed gate at its end.
pub fn journal_of(
    alloc: Global,
    records: &'static [(&'static str, &'static [u8])],
    history: &str,
) -> Result<Vec<u8>, AllocError> {
    let mut journal = Vec::new(alloc);
    for name in history.split_whitespace() {
        push_entry(&mut journal, record_named(records, name))?;
    }
    journal.push(0)?;
    Ok(journal)
}
