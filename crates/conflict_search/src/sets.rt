//! Sets of numbers, as words of bits. Clauses say as much as the search needs of them.

ghost use Rattle.std.specs.Prelude.{◌≡◌, ◌⊎◌, ◌↔◌, ℕ, ◌≤◌, ◌<◌, ◌+◌, ◌-◌, ◌*◌, ◌/◌, get_or, length, IsTrue, IfOk};
ghost use Rattle.conflict_search.specs.Terms.{Has};

use nuc_base::NoMemory;
use std::alloc::Global;

/// No number, in so many words.
pub(crate) fn none_of(alloc: Global, words: usize) -> Result<Vec<u64>, NoMemory>
    ensures count { IfOk result (λ set. length set.items ≡ words) }
    ensures empty { IfOk result (λ set. (v : ℕ) → Has set.items v → ⊥) }
{
    let mut set = Vec::with_capacity(alloc, words)?;
    for _word in 0..words {
        set.push(0)?;
    }
    Ok(set)
}

/// The word at that place, or no bits.
pub(crate) fn word(set: &[u64], at: usize) -> u64
    ensures { result ≡ get_or set.now at 0 }
{
    match set.get(at) {
        Some(word) => *word,
        None => 0,
    }
}

/// Whether the value is in the set.
pub(crate) fn has(set: &[u64], value: usize) -> bool
    ensures { IsTrue result ↔ Has set.now value }
{
    (word(set, value / 64) >> (value % 64)) & 1 == 1
}

/// Adds the value.
pub(crate) fn add(set: &mut [u64], value: usize)
    requires room { value / 64 < length set.old }
    ensures count { length set.new ≡ length set.old }
    ensures added { (v : ℕ) → Has set.new v ↔ Has set.old v ⊎ (v ≡ value) }
{
    set[value / 64] |= 1 << (value % 64);
}

/// Adds the values of the other, counted from the word on.
pub(crate) fn join_at(set: &mut [u64], from: usize, other: &[u64])
    requires room { from + length other.now ≤ length set.old }
    ensures len { length set.new ≡ length set.old }
    ensures only { (v : ℕ) → Has set.new v → Has set.old v ⊎ ((64 * from ≤ v) × Has other.now (v - 64 * from)) }
    ensures kept { (v : ℕ) → Has set.old v → Has set.new v }
    ensures given { (v : ℕ) → Has other.now v → Has set.new (64 * from + v) }
{
    for at in 0..other.len() {
        set[from + at] |= other[at];
    }
}

/// Of the values counted from the word on, as many as the other has words for, leaves those that the other has.
pub(crate) fn meet_at(set: &mut [u64], from: usize, other: &[u64])
    requires room { from + length other.now ≤ length set.old }
    ensures len { length set.new ≡ length set.old }
    ensures only { (v : ℕ) → Has set.new v → Has set.old v }
    ensures met { (v : ℕ) → v < 64 * length other.now → Has set.new (64 * from + v) → Has other.now v }
    ensures kept { (v : ℕ) → Has set.old v →
        Has set.new v ⊎ ((64 * from ≤ v) × (v - 64 * from < 64 * length other.now) × (Has other.now (v - 64 * from) → ⊥)) }
{
    for at in 0..other.len() {
        set[from + at] &= other[at];
    }
}

/// Takes the values of the other, counted from the word on.
pub(crate) fn remove_at(set: &mut [u64], from: usize, other: &[u64])
    requires room { from + length other.now ≤ length set.old }
    ensures len { length set.new ≡ length set.old }
    ensures kept { (v : ℕ) → Has set.old v → Has set.new v ⊎ ((64 * from ≤ v) × Has other.now (v - 64 * from)) }
{
    for at in 0..other.len() {
        set[from + at] ^= set[from + at] & other[at];
    }
}

/// Whether of the values counted from the word on, as many as the other has words for, the other has all that the set has.
pub(crate) fn is_within_at(set: &[u64], from: usize, other: &[u64]) -> bool
    ensures { IsTrue result → (v : ℕ) → v < 64 * length other.now → Has set.now (64 * from + v) → Has other.now v }
{
    if set.len() < from || set.len() - from < other.len() {
        return false;
    }
    for at in 0..other.len() {
        if set[from + at] & other[at] != set[from + at] {
            return false;
        }
    }
    true
}

/// The set becomes what the row has from the word on.
pub(crate) fn copy_from(set: &mut [u64], row: &[u64], from: usize)
    requires room { from + length set.old ≤ length row.now }
    ensures len { length set.new ≡ length set.old }
    ensures only { (v : ℕ) → Has set.new v → Has row.now (64 * from + v) }
{
    for at in 0..set.len() {
        set[at] = row[from + at];
    }
}
