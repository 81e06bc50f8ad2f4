//! How many needs of each place are open, and the places of which none is.

ghost use Rattle.std.specs.Prelude.{◌≡◌, ◌==◌, ℕ, List, ◌+◌, ◌-◌, ◌^◌, ◌<◌, ◌≤◌, ◌⊎◌, ◌↔◌, length, slice_index, slice_set, IfOk, OnOk, MatchOption, count_by};
ghost use Rattle.std.specs.List.{All, Contains};
ghost use Rattle.dep_order.specs.Counts.{TakesLeast};

use crate::Need;
use nuc_base::NoMemory;
use std::alloc::Global;
use std::collections::BTreeSet;

/// The count of open needs of each place, and the places that are ready: no need of theirs is open,
/// and they were not taken yet.
#[derive(Drop)]
pub(crate) struct Waiting {
    counts: Vec<usize>,
    ready: BTreeSet<u32>,
}

/// How many needs each place has.
fn counts_of(alloc: Global, nodes: u32, needs: &[Need]) -> Result<Vec<usize>, NoMemory>
    requires { All (λ e. e.from < nodes) needs.now }
    ensures count { IfOk result (λ counts. length counts.items ≡ nodes) }
    ensures each { IfOk result (λ counts. (q : ℕ) → slice_index counts.items q ≡ count_by (λ e. e.from == q) needs.now) }
{
    let mut counts = vec![in alloc; 0usize; nodes as usize]?;
    for need in needs {
        counts[need.from as usize] += 1;
    }
    Ok(counts)
}

/// Puts the place among those that are ready.
fn add_ready(ready: &mut BTreeSet<u32>, place: u32) -> Result<(), NoMemory>
    ensures { OnOk result ((q : ℕ) → Contains ready.new.keys q ↔ (Contains ready.old.keys q ⊎ (q ≡ place))) }
{
    ready.insert(place)?;
    Ok(())
}

/// The places with no needs.
fn ready_at_first(alloc: Global, counts: &[usize]) -> Result<BTreeSet<u32>, NoMemory>
    requires { length counts.now < 2 ^ 32 }
    ensures { IfOk result (λ ready. (q : ℕ) → Contains ready.keys q ↔ ((q < length counts.now) × (slice_index counts.now q ≡ 0))) }
{
    let mut ready = BTreeSet::new(alloc);
    for place in 0..counts.len() {
        if counts[place] == 0 {
            add_ready(&mut ready, place as u32)?;
        }
    }
    Ok(ready)
}

impl Waiting {
    /// Nothing is taken yet.
    pub(crate) fn new(alloc: Global, nodes: u32, needs: &[Need]) -> Result<Waiting, NoMemory>
        requires { All (λ e. e.from < nodes) needs.now }
        ensures count { IfOk result (λ waiting. length waiting.counts.items ≡ nodes) }
        ensures each { IfOk result (λ waiting. (q : ℕ) → slice_index waiting.counts.items q ≡ count_by (λ e. e.from == q) needs.now) }
        ensures ready { IfOk result (λ waiting. (q : ℕ) → Contains waiting.ready.keys q ↔ ((q < nodes) × (slice_index waiting.counts.items q ≡ 0))) }
    {
        let counts = counts_of(alloc, nodes, needs)?;
        let ready = ready_at_first(alloc, &counts)?;
        Ok(Waiting { counts, ready })
    }

    /// Takes the least place that is ready.
    #[tactic(auto, using(crate::proofs::Ready::least_taken))]
    pub(crate) fn take_least(&mut self) -> Option<u32>
        ensures counts { self.new.counts.items ≡ self.old.counts.items }
        ensures place { MatchOption result ((q : ℕ) → Contains self.old.ready.keys q → ⊥)
            (TakesLeast self.old.ready.keys self.new.ready.keys) }
    {
        self.ready.pop_first()
    }

    /// One open need less of the place.
    fn lower(&mut self, place: u32) -> Result<(), NoMemory>
        requires place { place < length self.old.counts.items }
        requires some { 0 < slice_index self.old.counts.items place }
        ensures counts { OnOk result (self.new.counts.items ≡ slice_set self.old.counts.items place (slice_index self.old.counts.items place - 1)) }
        ensures ready { OnOk result ((q : ℕ) → Contains self.new.ready.keys q
            ↔ (Contains self.old.ready.keys q ⊎ ((q ≡ place) × (slice_index self.old.counts.items place ≡ 1)))) }
    {
        self.counts[place as usize] -= 1;
        if self.counts[place as usize] == 0 {
            add_ready(&mut self.ready, place)?;
        }
        Ok(())
    }

    /// Takes from the counts what those needs ask for.
    pub(crate) fn settle(&mut self, needs: &[Need]) -> Result<(), NoMemory>
        requires nodes { All (λ e. e.from < length self.old.counts.items) needs.now }
        requires counted { (q : ℕ) → count_by (λ e. e.from == q) needs.now ≤ slice_index self.old.counts.items q }
        ensures count { OnOk result (length self.new.counts.items ≡ length self.old.counts.items) }
        ensures counts { OnOk result ((q : ℕ) → slice_index self.new.counts.items q + count_by (λ e. e.from == q) needs.now
            ≡ slice_index self.old.counts.items q) }
        ensures ready { OnOk result ((q : ℕ) → Contains self.new.ready.keys q
            ↔ (Contains self.old.ready.keys q ⊎ ((0 < count_by (λ e. e.from == q) needs.now) × (slice_index self.new.counts.items q ≡ 0)))) }
    {
        for need in needs {
            self.lower(need.from)?;
        }
        Ok(())
    }
}
