//! The names that are open for some taken places.

ghost use Rattle.std.specs.Prelude.{◌≡◌, ◌⊎◌, ◌↔◌, ◌∷◌, ◌++◌, [], ◌<◌, ◌^◌, ℕ, List, Some, length, map, IsTrue, IfOk, OnOk};
ghost use Rattle.std.specs.List.{Contains};
ghost use Rattle.recipe_reader.specs.Members.{Need, members, need};
ghost use Rattle.recipe_reader.specs.Sets.{asked, name_of};
ghost use Rattle.why_not.specs.Certificates.{AsksFor};
ghost use Rattle.why_not.specs.Fronts.{listed, IsFront, LeavesOut, AddsOpen};

use crate::choosing::Form;
use crate::facts::{is_named, is_same, needs_against, needs_at, taken_of, wanted_against};
use nuc_base::{Name, NoMemory};
use recipe_reader::{Candidate, Dependency, Wanted};
use std::alloc::Global;

/// The required names of which no place is taken, each once. For a small certificate there stands beside them which candidates a
/// wanted range or that of a taken place refuses. That only says which name is best split next, so no clause speaks of it.
#[derive(Drop)]
pub(crate) struct Front<'a> {
    pub(crate) names: Vec<&'a Name>,
    pub(crate) refused: Vec<bool>,
}

fn has_name(names: &[&Name], name: &Name) -> bool
    ensures { IsTrue result → Contains (listed names.now) name.now }
{
    for other in names {
        if is_same(other, name) {
            return true;
        }
    }
    false
}

/// Adds the name, once.
fn add_name<'a>(names: &mut Vec<&'a Name>, name: &'a Name) -> Result<(), NoMemory>
    ensures { OnOk result ((n : List ℕ) → Contains (listed names.new.items) n ↔ Contains (listed names.old.items) n ⊎ (name.now ≡ n)) }
{
    if has_name(names.as_slice(), name) {
        return Ok(());
    }
    names.push(name)?;
    Ok(())
}

fn wanted_names<'a>(alloc: Global, wanted: &'a [Wanted]) -> Result<Vec<&'a Name>, NoMemory>
    ensures { IfOk result (λ names. (n : List ℕ) → Contains (listed names.items) n ↔ Contains (map (λ w. w.name) (asked wanted.now)) n) }
{
    let mut names = Vec::new(alloc);
    for one in wanted {
        add_name(&mut names, &one.name)?;
    }
    Ok(names)
}

/// All but the name of the place.
fn other_names<'a>(
    alloc: Global,
    candidates: &[Candidate],
    names: &[&'a Name],
    place: u32,
) -> Result<Vec<&'a Name>, NoMemory>
    ensures { IfOk result (λ others. LeavesOut (members candidates.now) place (listed names.now) (listed others.items)) }
{
    let mut others = Vec::with_capacity(alloc, names.len())?;
    for name in names {
        if !is_named(candidates, place, name) {
            others.push(*name)?;
        }
    }
    Ok(others)
}

/// Adds the names of the needs of which no place is taken.
fn add_needed<'a>(
    names: &mut Vec<&'a Name>,
    candidates: &[Candidate],
    taken: &[u32],
    needs: &'a [Dependency],
) -> Result<(), NoMemory>
    ensures { OnOk result (AddsOpen (members candidates.now) taken.now (map (λ d. d.name) (map need needs.now))
        (listed names.old.items) (listed names.new.items)) }
{
    for one in needs {
        match taken_of(candidates, taken, &one.name) {
            Some(_place) => {}
            None => add_name(names, &one.name)?,
        }
    }
    Ok(())
}

/// Which candidates a wanted range refuses. Of a plain certificate that is not asked.
fn refused_by(
    alloc: Global,
    candidates: &[Candidate],
    wanted: &[Wanted],
    form: Form,
) -> Result<Vec<bool>, NoMemory>
    requires count { length candidates.now < 2 ^ 32 }
{
    let mut refused = Vec::new(alloc);
    if let Form::Small = form {
        for i in 0..candidates.len() {
            refused.push(wanted_against(candidates, wanted, i as u32))?;
        }
    }
    Ok(refused)
}

impl<'a> Front<'a> {
    /// For no taken place.
    pub(crate) fn new(
        alloc: Global,
        candidates: &[Candidate],
        wanted: &'a [Wanted],
        form: Form,
    ) -> Result<Front<'a>, NoMemory>
        requires count { length candidates.now < 2 ^ 32 }
        ensures { IfOk result (λ front. IsFront (members candidates.now) (asked wanted.now) [] (listed front.names.items)) }
    {
        Ok(Front {
            names: wanted_names(alloc, wanted)?,
            refused: refused_by(alloc, candidates, wanted, form)?,
        })
    }

    /// Which candidates are refused where the place is taken too.
    fn refused_with(
        &self,
        alloc: Global,
        candidates: &[Candidate],
        place: u32,
    ) -> Result<Vec<bool>, NoMemory>
        requires count { length candidates.now < 2 ^ 32 }
    {
        let mut refused = Vec::new(alloc);
        if self.refused.is_empty() {
            return Ok(refused);
        }
        for i in 0..candidates.len() {
            let before = self.refused.get(i).copied().unwrap_or(false);
            refused.push(
                before || needs_against(candidates, needs_at(candidates, place), i as u32),
            )?;
        }
        Ok(refused)
    }

    /// For the same places and behind them one more.
    pub(crate) fn after(
        &self,
        alloc: Global,
        candidates: &'a [Candidate],
        taken: &[u32],
        place: u32,
    ) -> Result<Front<'a>, NoMemory>
        requires count { length candidates.now < 2 ^ 32 }
        ensures { IfOk result (λ next. (wanted : List Need) (before : List ℕ) → taken.now ≡ before ++ place ∷ []
            → IsFront (members candidates.now) wanted before (listed self.now.names.items)
            → IsFront (members candidates.now) wanted taken.now (listed next.names.items)) }
    {
        let mut names = other_names(alloc, candidates, self.names.as_slice(), place)?;
        add_needed(&mut names, candidates, taken, needs_at(candidates, place))?;
        Ok(Front {
            names,
            refused: self.refused_with(alloc, candidates, place)?,
        })
    }
}
