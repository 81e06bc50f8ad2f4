//! How numbers are written and read: their bytes with the highest first.
ghost use Rattle.std.specs.Prelude.{◌≡◌, ◌++◌, ℕ, List, Option, OnOk};
ghost use Rattle.records.specs.Codec.{number, number_at, long, long_at};
ghost use Rattle.records.specs.Layout as layout;
ghost use Rattle.records.specs.Gives.{ReadOutcome};

use crate::coded::{Coded, number_of};
use crate::stop::Stop;
use nuc_base::NoMemory;
use std::alloc::Global;

impl Coded for u32 {
    ghost Seen = { ℕ };

    ghost seen = { λ n. n };

    ghost spell = { number.spell };

    ghost at = { number_at };

    ghost fits = { number.Fits };

    ghost asks = { number.Asks };

    fn put(&self, _alloc: Global, out: &mut Vec<u8>) -> Result<(), NoMemory> {
        out.extend_from_slice(&self.to_be_bytes())?;
        Ok(())
    }

    fn take(_alloc: Global, bytes: &[u8]) -> Result<(u32, &[u8]), Stop> {
        number_of(bytes)
    }
}

fn long_of(bytes: &[u8]) -> Result<(u64, &[u8]), Stop>
    ensures { ReadOutcome (λ x. (x.0, x.1.now)) result (long_at bytes.now) }
{
    if bytes.len() < 8 {
        return Err(Stop::Bad);
    }
    let (prefix, rest) = bytes.split_at(8);
    let mut long = [0; 8];
    long.copy_from_slice(prefix);
    Ok((u64::from_be_bytes(long), rest))
}

impl Coded for u64 {
    ghost Seen = { ℕ };

    ghost seen = { λ n. n };

    ghost spell = { long.spell };

    ghost at = { long_at };

    ghost fits = { long.Fits };

    ghost asks = { long.Asks };

    fn put(&self, _alloc: Global, out: &mut Vec<u8>) -> Result<(), NoMemory> {
        out.extend_from_slice(&self.to_be_bytes())?;
        Ok(())
    }

    fn take(_alloc: Global, bytes: &[u8]) -> Result<(u64, &[u8]), Stop> {
        long_of(bytes)
    }
}

/// A revision of 1 or more. A revision of 0 is not written.
#[derive(Drop)]
pub(crate) struct Revision(pub(crate) u64);

impl Coded for Revision {
    ghost Seen = { ℕ };

    ghost seen = { λ r. r.0 };

    ghost spell = { layout.revision.spell };

    ghost at = { layout.revision.at };

    ghost fits = { layout.revision.Fits };

    ghost asks = { layout.revision.Asks };

    fn put(&self, alloc: Global, out: &mut Vec<u8>) -> Result<(), NoMemory> {
        self.0.put(alloc, out)
    }

    fn take(_alloc: Global, bytes: &[u8]) -> Result<(Revision, &[u8]), Stop> {
        let (number, rest) = long_of(bytes)?;
        if number == 0 {
            return Err(Stop::Bad);
        }
        Ok((Revision(number), rest))
    }
}
