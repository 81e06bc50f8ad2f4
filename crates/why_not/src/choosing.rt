//! Which open name is split next.

ghost use Rattle.std.specs.Prelude.{◌≡◌, ◌↔◌, ◌∷◌, ◌++◌, [], ◌<◌, ◌^◌, ℕ, List, Some, length, IsTrue, IsFalse};
ghost use Rattle.std.specs.Ordering.{nat_cmp};
ghost use Rattle.std.specs.Cmp.Lexicographic.{slice_cmp};
ghost use Rattle.std.specs.declared.cmp.Ordering.TheVariants.{Less};
ghost use Rattle.recipe_reader.specs.Members.{Need, Member, members};
ghost use Rattle.recipe_reader.specs.Sets.{required_names, IsTaken, IsUpTo};
ghost use Rattle.why_not.specs.Fronts.{listed, IsFront};
ghost use Rattle.why_not.specs.Picks.{IsPick};

use crate::facts::is_named;
use crate::front::Front;
use nuc_base::Name;
use recipe_reader::Candidate;
use std::cmp::Ordering;

/// How a certificate is built.
#[derive(Clone, Copy, Drop)]
pub(crate) enum Form {
    /// Each split at the least required name that is not decided.
    Plain,
    /// Each split at the required name that is not decided with the fewest versions that nothing refuses yet, of these the
    /// least; and a split is left out where a branch does not rest on its own place.
    Small,
}

/// A name, and how many of its versions nothing refuses yet. In a plain certificate they are not counted.
#[derive(Clone, Copy, Drop)]
pub(crate) struct Pick<'a> {
    pub(crate) name: &'a Name,
    pub(crate) live: usize,
}

/// How many candidates of the name are not refused. They stand one after another.
fn live_count(candidates: &[Candidate], refused: &[bool], name: &Name) -> usize
    requires count { length candidates.now < 2 ^ 32 }
{
    let start = candidates.partition_point(|c: &Candidate| -> bool {
        is_before(&c.recipe.name, name)
    });
    let mut count = 0;
    for i in start..candidates.len() {
        if !is_named(candidates, i as u32, name) {
            return count;
        }
        if !refused.get(i).copied().unwrap_or(false) {
            count += 1;
        }
    }
    count
}

fn pick_of<'a>(candidates: &[Candidate], form: Form, refused: &[bool], name: &'a Name) -> Pick<'a>
    requires count { length candidates.now < 2 ^ 32 }
    ensures name { result.name.now ≡ name.now }
    ensures uncounted { form ≡ Form.Plain → result.live ≡ 0 }
{
    match form {
        Form::Plain => Pick { name, live: 0 },
        Form::Small => Pick {
            name,
            live: live_count(candidates, refused, name),
        },
    }
}

fn is_before(name: &Name, other: &Name) -> bool
    ensures { IsTrue result ↔ (slice_cmp nat_cmp name.now other.now ≡ Less) }
{
    name.cmp(other) == Ordering::Less
}

/// By the count, and then by the name.
fn comes_before(pick: &Pick, other: &Pick) -> bool
    ensures yes { IsTrue result → pick.now.live ≡ other.now.live → IsUpTo pick.now.name.now other.now.name.now }
    ensures no { IsFalse result → pick.now.live ≡ other.now.live → IsUpTo other.now.name.now pick.now.name.now }
{
    match pick.live.cmp(&other.live) {
        Ordering::Less => true,
        Ordering::Greater => false,
        Ordering::Equal => is_before(pick.name, other.name),
    }
}

/// With one name more, of which no place is taken.
fn better<'a>(best: Option<Pick<'a>>, pick: Pick<'a>) -> Pick<'a>
    ensures { (ms : List Member) (form : Form) (taken : List ℕ) (names : List (List ℕ)) → (IsTaken ms taken pick.entry.name.now → ⊥)
        → (form ≡ Form.Plain → pick.entry.live ≡ 0) → IsPick ms form taken names best.entry
        → IsPick ms form taken (names ++ pick.entry.name.now ∷ []) (Some result) }
{
    let Some(other) = best else {
        return pick;
    };
    if comes_before(&pick, &other) {
        return pick;
    }
    other
}

/// The open name that is split next.
pub(crate) fn next_name<'a>(
    candidates: &[Candidate],
    form: Form,
    front: &Front<'a>,
) -> Option<Pick<'a>>
    requires count { length candidates.now < 2 ^ 32 }
    ensures { (wanted : List Need) (taken : List ℕ) → IsFront (members candidates.now) wanted taken (listed front.now.names.items)
        → IsPick (members candidates.now) form taken (required_names (members candidates.now) wanted taken) result }
{
    let mut best = None;
    for name in front.names.iter() {
        let pick = pick_of(candidates, form, front.refused.as_slice(), name);
        best = Some(better(best, pick));
    }
    best
}
