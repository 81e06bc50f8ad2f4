//! Which nogoods are looked at when a value goes. A nogood says nothing as long as two of its terms have a value left that is
//! not in their sets: such a value of each is watched, and the nogood is looked at when one of them goes. What is watched
//! decides how fast a search is, and nothing else: no answer rests on it.

use crate::sets::word;
use crate::terms::Term;
use nuc_base::NoMemory;
use std::alloc::Global;

/// A value of the name with that first place.
#[derive(Clone, Copy, Drop, PartialEq, Eq)]
pub(crate) struct Watch {
    pub(crate) from: usize,
    pub(crate) value: usize,
}

/// What a nogood watches.
#[derive(Clone, Copy, Drop)]
pub(crate) struct Pair {
    pub(crate) one: Watch,
    pub(crate) other: Watch,
}

/// By value, the nogoods that watch it; and by nogood, what it watches: nothing where fewer than two of its terms had such
/// a value before any decision, since it was heeded then for good.
#[derive(Drop)]
pub(crate) struct Watches {
    lists: Vec<Vec<usize>>,
    pairs: Vec<Option<Pair>>,
}

impl Watch {
    /// Its list. A name has one value more than places, so two lists a place are enough.
    fn list(&self) -> usize {
        self.from.saturating_mul(2).saturating_add(self.value)
    }
}

/// The greatest value that is left in the row and not in the term's set.
fn outside(row: &[u64], term: &Term) -> Option<Watch> {
    for at in (0..term.set.len()).rev() {
        let here = word(row, term.from.saturating_add(at));
        let left = here ^ (here & word(term.set.as_slice(), at));
        if left != 0 {
            let bit = 63usize.saturating_sub(left.leading_zeros() as usize);
            return Some(Watch {
                from: term.from,
                value: at.saturating_mul(64).saturating_add(bit),
            });
        }
    }
    None
}

/// Such a value of one of the terms, but for those of that name.
fn another(row: &[u64], terms: &[Term], except: Option<usize>) -> Option<Watch> {
    for term in terms {
        if except != Some(term.from) {
            if let Some(watch) = outside(row, term) {
                return Some(watch);
            }
        }
    }
    None
}

impl Watches {
    /// No nogood watches anything, of so many places.
    pub(crate) fn new(alloc: Global, count: usize) -> Result<Watches, NoMemory> {
        let mut lists = Vec::new(alloc);
        for _list in 0..count.saturating_mul(2) {
            lists.push(Vec::new(alloc))?;
        }
        Ok(Watches {
            lists,
            pairs: Vec::new(alloc),
        })
    }

    /// How many nogoods were begun.
    pub(crate) fn count(&self) -> usize {
        self.pairs.len()
    }

    /// The nogood at that place of the list of the value.
    pub(crate) fn nogood_at(&self, watch: Watch, at: usize) -> Option<usize> {
        let list = self.lists.get(watch.list())?;
        list.get(at).copied()
    }

    fn watch(&mut self, watch: Watch, nogood: usize) -> Result<(), NoMemory> {
        let list = watch.list();
        if list < self.lists.len() {
            self.lists[list].push(nogood)?;
        }
        Ok(())
    }

    fn unwatch(&mut self, watch: Watch, at: usize) {
        let list = watch.list();
        if list < self.lists.len() && at < self.lists[list].len() {
            let _ = self.lists[list].swap_remove(at);
        }
    }

    /// Begins the next nogood.
    pub(crate) fn begin(&mut self, row: &[u64], terms: &[Term]) -> Result<(), NoMemory> {
        let nogood = self.pairs.len();
        let mut pair = None;
        if let Some(one) = another(row, terms, None) {
            if let Some(other) = another(row, terms, Some(one.from)) {
                self.watch(one, nogood)?;
                self.watch(other, nogood)?;
                pair = Some(Pair { one, other });
            }
        }
        self.pairs.push(pair)?;
        Ok(())
    }

    /// The value, which went, was watched by the nogood, at that place of its list. Watches another value in its place, where
    /// one is left. Answers whether it did.
    pub(crate) fn pass(
        &mut self,
        row: &[u64],
        terms: &[Term],
        nogood: usize,
        gone: Watch,
        at: usize,
    ) -> Result<bool, NoMemory> {
        let Some(Some(pair)) = self.pairs.get(nogood).copied() else {
            return Ok(false);
        };
        let kept = if pair.one == gone {
            pair.other
        } else {
            pair.one
        };
        let Some(one) = another(row, terms, Some(kept.from)) else {
            return Ok(false);
        };
        if nogood < self.pairs.len() {
            self.pairs[nogood] = Some(Pair { one, other: kept });
        }
        self.unwatch(gone, at);
        self.watch(one, nogood)?;
        Ok(true)
    }
}
