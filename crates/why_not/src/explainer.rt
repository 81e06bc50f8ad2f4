//! Why no set is valid.

ghost use Rattle.std.specs.Prelude.{◌<◌, ◌^◌, ℕ, List, length, IfOk, IfSome, MatchOption};
ghost use Rattle.recipe_reader.specs.Members.{members};
ghost use Rattle.recipe_reader.specs.Sets.{asked, IsValid};
ghost use Rattle.why_not.specs.Reasons.{seen};
ghost use Rattle.why_not.specs.Plain.{IsExplanation, HasNoSet};
ghost use Rattle.why_not.specs.Found.{IsExplained, HasUpTo};

use crate::choosing::Form;
use crate::explaining::{Found, explained};
use crate::front::Front;
use crate::why::Why;
use conflict_search::{SearchFault, search};
use nuc_base::{List, NoMemory};
use recipe_reader::{Candidate, Candidates, Wanted};
use std::alloc::Global;

/// The most nodes of a plain certificate.
const PLAIN_NODES: u32 = 1024;

/// The most nodes of a small one.
const SMALL_NODES: u32 = 65536;

/// From no taken place on, by so many nodes.
fn from_none(
    alloc: Global,
    candidates: &[Candidate],
    wanted: &[Wanted],
    form: Form,
    nodes: u32,
) -> Result<Found, NoMemory>
    requires count { length candidates.now < 2 ^ 32 }
    ensures found { IfOk result (IsExplained (members candidates.now) (asked wanted.now) form nodes) }
    ensures small { IfOk result (HasUpTo nodes) }
{
    let front = Front::new(alloc, candidates, wanted, form)?;
    let mut taken = Vec::new(alloc);
    let mut left = nodes;
    let found = explained(
        alloc, candidates, wanted, form, &mut taken, &front, &mut left,
    )?;
    Ok(found)
}

/// By a plain certificate, or else by a small one.
fn by_forms(
    alloc: Global,
    candidates: &[Candidate],
    wanted: &[Wanted],
) -> Result<Option<Why>, NoMemory>
    requires count { length candidates.now < 2 ^ 32 }
    ensures found { IfOk result (λ found. MatchOption found
        ((s : List ℕ) × IsValid (members candidates.now) (asked wanted.now) s)
        (λ why. IsExplanation (members candidates.now) (asked wanted.now) (seen why))) }
    ensures none { IfOk result (λ found. IfSome found (λ _. HasNoSet (members candidates.now) (asked wanted.now))) }
{
    match from_none(alloc, candidates, wanted, Form::Plain, PLAIN_NODES)? {
        Found::Valid => return Ok(None),
        Found::Because(part) => return Ok(Some(part.why)),
        Found::TooLarge => {}
    }
    match from_none(alloc, candidates, wanted, Form::Small, SMALL_NODES)? {
        Found::Valid => Ok(None),
        Found::Because(part) => Ok(Some(part.why)),
        Found::TooLarge => Err(NoMemory),
    }
}

/// The same of the candidates and of what is wanted as they are handed in.
fn certificate(
    alloc: Global,
    candidates: &Candidates,
    wanted: &List<Wanted>,
) -> Result<Option<Why>, NoMemory>
    ensures found { IfOk result (λ found. MatchOption found
        ((s : List ℕ) × IsValid (members candidates.now) (asked wanted.now) s)
        (λ why. IsExplanation (members candidates.now) (asked wanted.now) (seen why))) }
    ensures none { IfOk result (λ found. IfSome found (λ _. HasNoSet (members candidates.now) (asked wanted.now))) }
{
    let found = by_forms(alloc, candidates.list().as_slice(), wanted.as_slice())?;
    Ok(found)
}

/// Why no set of the candidates is valid for what is wanted, or none where one is valid.
///
/// The certificate is the plain one where that has at most 1,024 nodes: a split at the least required name that is not
/// decided, and each leaf the first reason. Else it is a small one: a split at the required name with the fewest versions
/// that nothing refuses yet, and none where a branch stands without it. Whether a set is valid is asked of the search for one
/// first. `NoMemory` comes where memory was refused, where that search gives up, and where more than 65,536 nodes were made
/// for the small one.
pub fn explain(
    alloc: Global,
    candidates: &Candidates,
    wanted: &List<Wanted>,
) -> Result<Option<Why>, NoMemory>
    ensures found { IfOk result (λ found. MatchOption found
        ((s : List ℕ) × IsValid (members candidates.now) (asked wanted.now) s)
        (λ why. IsExplanation (members candidates.now) (asked wanted.now) (seen why))) }
    ensures none { IfOk result (λ found. IfSome found (λ _. HasNoSet (members candidates.now) (asked wanted.now))) }
{
    let mut tries = 0;
    match search(alloc, candidates, wanted, &mut tries) {
        Ok(_set) => Ok(None),
        Err(SearchFault::NoVersion) => certificate(alloc, candidates, wanted),
        Err(SearchFault::NoMemory) => Err(NoMemory),
    }
}
