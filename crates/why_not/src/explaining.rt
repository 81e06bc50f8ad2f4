//! A certificate from the taken places on.

ghost use Rattle.std.specs.Prelude.{◌≡◌, ◌⊎◌, ◌↔◌, ℕ, List, ◌<◌, ◌≤◌, ◌^◌, Some, length, IfOk, OnOk, IsTrue, IsFalse};
ghost use Rattle.std.specs.List.{Contains};
ghost use Rattle.recipe_reader.specs.Members.{members};
ghost use Rattle.recipe_reader.specs.Sets.{asked, name_of, required_names};
ghost use Rattle.why_not.specs.Certificates.{IsOpen};
ghost use Rattle.why_not.specs.Ends.{IsReachedSet};
ghost use Rattle.why_not.specs.Fronts.{listed, IsFront};
ghost use Rattle.why_not.specs.Gathers.{JoinsOthers};
ghost use Rattle.why_not.specs.Found.{IsFound, IsTried, UsesUp};

use crate::checker::has;
use crate::choosing::{Form, next_name};
use crate::facts::{asking, is_named, is_wanted};
use crate::front::Front;
use crate::reasons::{Partial, against, alone};
use crate::why::Why;
use nuc_base::{Copied, Name, NoMemory};
use recipe_reader::{Candidate, Wanted};
use std::alloc::Global;

#[derive(Drop)]
pub(crate) enum Found {
    /// A set is valid.
    Valid,
    /// The nodes were used up.
    TooLarge,
    Because(Partial),
}

/// The taken place that requires the name, or none where it is wanted.
fn requiring(
    alloc: Global,
    candidates: &[Candidate],
    wanted: &[Wanted],
    taken: &[u32],
    name: &Name,
) -> Result<Vec<u32>, NoMemory>
    requires { Contains (required_names (members candidates.now) (asked wanted.now) taken.now) name.now }
    ensures within { IfOk result (λ used. (x : ℕ) → Contains used.items x → Contains taken.now x) }
    ensures required { IfOk result (λ used. Contains (required_names (members candidates.now) (asked wanted.now) used.items) name.now) }
{
    if is_wanted(wanted, name) {
        return Ok(Vec::new(alloc));
    }
    match asking(candidates, taken, name) {
        Some(place) => Ok(alone(alloc, place)?),
        None => Ok(Vec::new(alloc)),
    }
}

/// Adds the place, once.
fn add(places: &mut Vec<u32>, place: u32) -> Result<(), NoMemory>
    ensures { OnOk result ((x : ℕ) → Contains places.new.items x ↔ Contains places.old.items x ⊎ (place ≡ x)) }
{
    if has(places, place) {
        return Ok(());
    }
    places.push(place)?;
    Ok(())
}

/// Adds what else is in own, each place once.
fn add_others(used: &mut Vec<u32>, own: &[u32], place: u32) -> Result<(), NoMemory>
    ensures { OnOk result (JoinsOthers place own.now used.old.items used.new.items) }
{
    for other in own {
        if *other != place {
            add(used, *other)?;
        }
    }
    Ok(())
}

/// The branch stands in place of its split.
fn is_left_out(form: Form, own: &[u32], place: u32) -> bool
    ensures free { IsTrue result → Contains own.now place → ⊥ }
    ensures plain { form ≡ Form.Plain → IsFalse result }
{
    match form {
        Form::Plain => false,
        Form::Small => !has(own, place),
    }
}

/// Takes the place, which is of an open name, and goes on from there. Each node takes one of those that are left.
#[cycle(explained)]
fn tried<'a>(
    alloc: Global,
    candidates: &'a [Candidate],
    wanted: &[Wanted],
    form: Form,
    taken: &mut Vec<u32>,
    front: &Front<'a>,
    place: u32,
    left: &mut u32,
) -> Result<Found, NoMemory>
    requires count { length candidates.now < 2 ^ 32 }
    requires stands { IsReachedSet (members candidates.now) (asked wanted.now) taken.old.items }
    requires front { IsFront (members candidates.now) (asked wanted.now) taken.old.items (listed front.now.names.items) }
    requires next { (n : List ℕ) × IsOpen (members candidates.now) (asked wanted.now) taken.old.items n × (name_of (members candidates.now) place ≡ Some n) }
    ensures found { IfOk result (IsTried (members candidates.now) (asked wanted.now) form taken.old.items place left.old left.new) }
    ensures small { IfOk result (UsesUp left.old left.new) }
    ensures same { OnOk result (taken.new.items ≡ taken.old.items) }
    ensures fewer { OnOk result (left.new ≤ left.old) }
{
    if let Some(part) = against(alloc, candidates, wanted, taken.as_slice(), place)? {
        if *left == 0 {
            return Ok(Found::TooLarge);
        }
        *left -= 1;
        return Ok(Found::Because(part));
    }
    taken.push(place)?;
    let after = front.after(alloc, candidates, taken.as_slice(), place)?;
    let found = explained(alloc, candidates, wanted, form, taken, &after, left)?;
    taken.pop();
    Ok(found)
}

/// A certificate for the taken places, which stand, of at most so many nodes as are left.
#[cycle(explained)]
pub(crate) fn explained<'a>(
    alloc: Global,
    candidates: &'a [Candidate],
    wanted: &[Wanted],
    form: Form,
    taken: &mut Vec<u32>,
    front: &Front<'a>,
    left: &mut u32,
) -> Result<Found, NoMemory>
    requires count { length candidates.now < 2 ^ 32 }
    requires stands { IsReachedSet (members candidates.now) (asked wanted.now) taken.old.items }
    requires front { IsFront (members candidates.now) (asked wanted.now) taken.old.items (listed front.now.names.items) }
    ensures found { IfOk result (IsFound (members candidates.now) (asked wanted.now) form taken.old.items left.old left.new) }
    ensures small { IfOk result (UsesUp left.old left.new) }
    ensures same { OnOk result (taken.new.items ≡ taken.old.items) }
    ensures fewer { OnOk result (left.new ≤ left.old) }
{
    let Some(pick) = next_name(candidates, form, front) else {
        return Ok(Found::Valid);
    };
    if *left == 0 {
        return Ok(Found::TooLarge);
    }
    *left -= 1;
    let mut used = requiring(alloc, candidates, wanted, taken.as_slice(), pick.name)?;
    let mut branches = Vec::new(alloc);
    for i in 0..candidates.len() {
        let place = i as u32;
        if is_named(candidates, place, pick.name) {
            match tried(alloc, candidates, wanted, form, taken, front, place, left)? {
                Found::Because(part) => {
                    if is_left_out(form, part.used.as_slice(), place) {
                        return Ok(Found::Because(part));
                    }
                    add_others(&mut used, part.used.as_slice(), place)?;
                    branches.push((place, part.why))?;
                }
                Found::Valid => return Ok(Found::Valid),
                Found::TooLarge => return Ok(Found::TooLarge),
            }
        }
    }
    Ok(Found::Because(Partial {
        why: Why::Split(pick.name.copy(alloc)?, branches),
        used,
    }))
}
