//! What has one spelling: the codecs of the layouts in code.
ghost use Rattle.std.specs.Prelude.{◌≡◌, ◌++◌, ◌<◌, ◌^◌, ℕ, List, length, map, Option, OnOk, ⊤};
ghost use Rattle.std.specs.List.{flat_map, AllByRecursion};
ghost use Rattle.std.specs.Int.{w32, to_be_bytes};
ghost use Rattle.records.specs.Codec.{list_at, pair_at, number_at, string_at, string, items_at, nothing};
ghost use Rattle.records.specs.Gives.{ReadOutcome};

use crate::stop::Stop;
use nuc_base::{List, NoMemory};
use std::alloc::Global;

pub(crate) trait Coded: Drop + Sized {
    /// What a value is seen as.
    ghost Seen: { Type 0 };

    ghost seen: { Self → Self.Seen };

    ghost spell: { Self.Seen → List ℕ };

    ghost at: { List ℕ → Option (Self.Seen × List ℕ) };

    ghost fits: { Self.Seen → Type 0 };

    ghost asks: { Self.Seen → Type 0 };

    /// Writes the value at the end. What its type does not hold of it is asked.
    fn put(&self, alloc: Global, out: &mut Vec<u8>) -> Result<(), NoMemory>
        requires { Self.asks (Self.seen self.now) }
        ensures spelled { OnOk result (out.new.items ≡ out.old.items ++ Self.spell (Self.seen self.now)) }
        ensures fits { OnOk result (Self.fits (Self.seen self.now)) };

    /// Reads the value at the beginning, and gives the bytes behind it.
    fn take(alloc: Global, bytes: &[u8]) -> Result<(Self, &[u8]), Stop>
        ensures { ReadOutcome (λ x. (Self.seen x.0, x.1.now)) result (Self.at bytes.now) };
}

pub(crate) fn number_of(bytes: &[u8]) -> Result<(u32, &[u8]), Stop>
    ensures { ReadOutcome (λ x. (x.0, x.1.now)) result (number_at bytes.now) }
{
    if bytes.len() < 4 {
        return Err(Stop::Bad);
    }
    let (prefix, rest) = bytes.split_at(4);
    let number = u32::from_be_bytes([prefix[0], prefix[1], prefix[2], prefix[3]]);
    Ok((number, rest))
}

#[tactic(auto, unfolding(crate::specs::Codec::string_at))]
pub(crate) fn string_of(bytes: &[u8]) -> Result<(&[u8], &[u8]), Stop>
    ensures { ReadOutcome (λ x. (x.0.now, x.1.now)) result (string_at bytes.now) }
{
    let (len, rest) = number_of(bytes)?;
    let len = len as usize;
    if rest.len() < len {
        return Err(Stop::Bad);
    }
    Ok(rest.split_at(len))
}

pub(crate) fn put_string(out: &mut Vec<u8>, text: &[u8]) -> Result<(), NoMemory>
    requires { length text.now < 2 ^ 32 }
    ensures { OnOk result (out.new.items ≡ out.old.items ++ string.spell text.now) }
{
    out.extend_from_slice(&(text.len() as u32).to_be_bytes())?;
    out.extend_from_slice(text)?;
    Ok(())
}

fn items_of<T: Coded>(alloc: Global, count: u32, bytes: &[u8]) -> Result<(Vec<T>, &[u8]), Stop>
    ensures { ReadOutcome (λ x. (map T.seen x.0.items, x.1.now)) result (items_at T.at count bytes.now) }
{
    let mut items = Vec::new(alloc);
    let mut rest = bytes;
    for _ in 0..count {
        let (item, after) = T::take(alloc, rest)?;
        items.push(item)?;
        rest = after;
    }
    Ok((items, rest))
}

fn put_items<T: Coded>(alloc: Global, out: &mut Vec<u8>, items: &[T]) -> Result<(), NoMemory>
    requires { AllByRecursion T.asks (map T.seen items.now) }
    ensures spelled { OnOk result (out.new.items ≡ out.old.items ++ flat_map T.spell (map T.seen items.now)) }
    ensures fits { OnOk result (AllByRecursion T.fits (map T.seen items.now)) }
{
    for item in items {
        item.put(alloc, out)?;
    }
    Ok(())
}

impl<T: Coded> Coded for List<T> {
    ghost Seen = { List T.Seen };

    ghost seen = { map T.seen };

    ghost spell = { λ xs. to_be_bytes w32 (length xs) ++ flat_map T.spell xs };

    ghost at = { list_at T.at };

    ghost fits = { λ xs. (length xs < 2 ^ 32) × AllByRecursion T.fits xs };

    ghost asks = { λ xs. (length xs < 2 ^ 32) × AllByRecursion T.asks xs };

    fn put(&self, alloc: Global, out: &mut Vec<u8>) -> Result<(), NoMemory> {
        let items = self.as_slice();
        out.extend_from_slice(&(items.len() as u32).to_be_bytes())?;
        put_items(alloc, out, items)
    }

    fn take(alloc: Global, bytes: &[u8]) -> Result<(List<T>, &[u8]), Stop> {
        let (count, rest) = number_of(bytes)?;
        let (items, rest) = items_of(alloc, count, rest)?;
        Ok((List::new(items), rest))
    }
}

impl<A: Coded, B: Coded> Coded for (A, B) {
    ghost Seen = { A.Seen × B.Seen };

    ghost seen = { λ p. (A.seen p.0, B.seen p.1) };

    ghost spell = { λ p. A.spell p.0 ++ B.spell p.1 };

    ghost at = { pair_at A.at B.at };

    ghost fits = { λ p. A.fits p.0 × B.fits p.1 };

    ghost asks = { λ p. A.asks p.0 × B.asks p.1 };

    fn put(&self, alloc: Global, out: &mut Vec<u8>) -> Result<(), NoMemory> {
        self.0.put(alloc, out)?;
        self.1.put(alloc, out)
    }

    fn take(alloc: Global, bytes: &[u8]) -> Result<((A, B), &[u8]), Stop> {
        let (a, rest) = A::take(alloc, bytes)?;
        let (b, rest) = B::take(alloc, rest)?;
        Ok(((a, b), rest))
    }
}

/// Nothing is written for it.
impl Coded for () {
    ghost Seen = { ⊤ };

    ghost seen = { λ x. tt };

    ghost spell = { nothing.spell };

    ghost at = { nothing.at };

    ghost fits = { nothing.Fits };

    ghost asks = { nothing.Asks };

    fn put(&self, _alloc: Global, _out: &mut Vec<u8>) -> Result<(), NoMemory> {
        Ok(())
    }

    fn take(_alloc: Global, bytes: &[u8]) -> Result<((), &[u8]), Stop> {
        Ok(((), bytes))
    }
}
