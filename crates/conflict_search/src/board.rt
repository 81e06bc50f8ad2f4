//! The decided places, and what is asked, under the numbers of names.

ghost use Rattle.std.specs.Prelude.{◌≡◌, ◌≢◌, ◌⊎◌, ◌↔◌, ◌<◌, ◌++◌, ◌∷◌, [], ℕ, Some, None, length, slice_set, slice_index_or, filter, ◌==◌, ◌≤◌};
ghost use Rattle.std.specs.Prelude.{IfOk, OnOk, MatchOption};
ghost use Rattle.std.specs.List.{All, Contains};
ghost use Rattle.recipe_reader.specs.Members.{Need, Member};
ghost use Rattle.conflict_search.specs.Boards.{IsIndexed};

use crate::demands::Demand;
use nuc_base::NoMemory;
use std::alloc::Global;
use std::collections::BTreeSet;

/// The decided places in the order of deciding, and what is asked, in the order of asking. Beside them stands what looks
/// things up by the number of a name: which place is chosen, what is asked of it, and the numbers of which something is
/// asked and none is chosen.
#[derive(Drop)]
pub(crate) struct Board<'a> {
    pub(crate) places: Vec<u32>,
    pub(crate) asked: Vec<Demand<'a>>,
    pub(crate) chosen: Vec<Option<u32>>,
    pub(crate) rows: Vec<Vec<Demand<'a>>>,
    pub(crate) waiting: BTreeSet<u32>,
}

/// As many times nothing.
fn no_choice(alloc: Global, count: usize) -> Result<Vec<Option<u32>>, NoMemory>
    ensures count { IfOk result (λ list. length list.items ≡ count) }
    ensures each { IfOk result (λ list. (k : ℕ) → slice_index_or list.items k None ≡ None) }
{
    let mut list = Vec::with_capacity(alloc, count)?;
    for _number in 0..count {
        list.push(None)?;
    }
    Ok(list)
}

/// As many empty rows.
fn no_rows<'a>(alloc: Global, count: usize) -> Result<Vec<Vec<Demand<'a>>>, NoMemory>
    ensures count { IfOk result (λ list. length list.items ≡ count) }
    ensures each { IfOk result (λ list. All (λ row. row.items ≡ []) list.items) }
{
    let mut list = Vec::with_capacity(alloc, count)?;
    for _number in 0..count {
        list.push(Vec::new(alloc))?;
    }
    Ok(list)
}

fn add_number(numbers: &mut BTreeSet<u32>, number: u32) -> Result<(), NoMemory>
    ensures { OnOk result ((q : ℕ) → Contains numbers.new.keys q ↔ Contains numbers.old.keys q ⊎ (q ≡ number)) }
{
    numbers.insert(number)?;
    Ok(())
}

fn remove_number(numbers: &mut BTreeSet<u32>, number: u32)
    ensures { (q : ℕ) → Contains numbers.new.keys q ↔ Contains numbers.old.keys q × (q ≢ number) }
{
    numbers.remove(&number);
}

/// Adds the number where nothing is chosen of it.
fn add_unchosen(
    numbers: &mut BTreeSet<u32>,
    number: u32,
    choice: Option<u32>,
) -> Result<(), NoMemory>
    ensures { OnOk result ((q : ℕ) → Contains numbers.new.keys q ↔ Contains numbers.old.keys q ⊎ ((q ≡ number) × (choice ≡ None))) }
{
    match choice {
        Some(_) => Ok(()),
        None => add_number(numbers, number),
    }
}

impl<'a> Board<'a> {
    /// Nothing is decided or asked, of so many candidates.
    pub(crate) fn new(alloc: Global, count: usize) -> Result<Board<'a>, NoMemory>
        ensures indexed { IfOk result (IsIndexed count) }
        ensures places { IfOk result (λ board. board.places.items ≡ []) }
        ensures asked { IfOk result (λ board. board.asked.items ≡ []) }
        ensures chosen { IfOk result (λ board. (k : ℕ) → slice_index_or board.chosen.items k None ≡ None) }
    {
        let chosen = no_choice(alloc, count)?;
        let rows = no_rows(alloc, count)?;
        Ok(Board {
            places: Vec::new(alloc),
            asked: Vec::new(alloc),
            chosen,
            rows,
            waiting: BTreeSet::new(alloc),
        })
    }

    /// Asks for one thing more.
    fn ask(&mut self, demand: Demand<'a>) -> Result<(), NoMemory>
        requires indexed { IsIndexed (length self.old.chosen.items) self.old }
        requires number { demand.number < length self.old.chosen.items }
        ensures indexed { OnOk result (IsIndexed (length self.old.chosen.items) self.new) }
        ensures asked { OnOk result (self.new.asked.items ≡ self.old.asked.items ++ demand.entry ∷ []) }
        ensures places { self.new.places.items ≡ self.old.places.items }
        ensures chosen { self.new.chosen.items ≡ self.old.chosen.items }
    {
        self.asked.push(demand)?;
        self.rows[demand.number as usize].push(demand)?;
        let choice = self.chosen[demand.number as usize];
        add_unchosen(&mut self.waiting, demand.number, choice)?;
        Ok(())
    }

    /// Asks for some things more.
    pub(crate) fn ask_all(&mut self, demands: &[Demand<'a>]) -> Result<(), NoMemory>
        requires indexed { IsIndexed (length self.old.chosen.items) self.old }
        requires numbers { All (λ d. d.number < length self.old.chosen.items) demands.now }
        ensures indexed { OnOk result (IsIndexed (length self.old.chosen.items) self.new) }
        ensures asked { OnOk result (self.new.asked.items ≡ self.old.asked.items ++ demands.now) }
        ensures places { self.new.places.items ≡ self.old.places.items }
        ensures chosen { self.new.chosen.items ≡ self.old.chosen.items }
    {
        for demand in demands {
            self.ask(*demand)?;
        }
        Ok(())
    }

    /// Takes the place for the name with that number.
    pub(crate) fn choose(&mut self, number: u32, place: u32) -> Result<(), NoMemory>
        requires indexed { IsIndexed (length self.old.chosen.items) self.old }
        requires number { number < length self.old.chosen.items }
        ensures indexed { OnOk result (IsIndexed (length self.old.chosen.items) self.new) }
        ensures places { OnOk result (self.new.places.items ≡ self.old.places.items ++ place ∷ []) }
        ensures chosen { OnOk result (self.new.chosen.items ≡ slice_set self.old.chosen.items number (Some place)) }
        ensures asked { self.new.asked.items ≡ self.old.asked.items }
    {
        self.places.push(place)?;
        self.chosen[number as usize] = Some(place);
        remove_number(&mut self.waiting, number);
        Ok(())
    }

    /// The least number of which something is asked and none is chosen.
    pub(crate) fn first_waiting(&self) -> Option<u32>
        ensures { MatchOption result ((k : ℕ) → Contains self.now.waiting.keys k → ⊥)
            (λ number. Contains self.now.waiting.keys number × ((k : ℕ) → Contains self.now.waiting.keys k → number ≤ k)) }
    {
        self.waiting.first().copied()
    }

    /// The place that is chosen of the name with that number.
    pub(crate) fn chosen_of(&self, number: u32) -> Option<u32>
        ensures { result ≡ slice_index_or self.now.chosen.items number None }
    {
        match self.chosen.get(number as usize) {
            Some(choice) => *choice,
            None => None,
        }
    }

    /// What is asked of the name with that number.
    pub(crate) fn row(&self, number: u32) -> &[Demand<'a>]
        requires indexed { IsIndexed (length self.now.chosen.items) self.now }
        requires number { number < length self.now.chosen.items }
        ensures { result.now ≡ filter (λ e. e.number == number) self.now.asked.items }
    {
        self.rows[number as usize].as_slice()
    }
}
