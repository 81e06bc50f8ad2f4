// Reading comparators, sets and ranges.
ghost use Rattle.std.specs.Prelude.{◌≡◌, ◌≤◌, ◌↔◌, ◌∷◌, [], map, length, MatchResult, Some, IsTrue};
ghost use Rattle.npm_ranges.specs.Ranges.{comparator_count};
ghost use Rattle.npm_ranges.specs.Grammar as grammar;
ghost use Rattle.npm_ranges.specs.Grammar.{comparators_of, with_sign, words_of, written};
ghost use Rattle.npm_ranges.specs.Reading.{FailsOn, RangeOutcome, IsFirstComparator};
ghost use Rattle.npm_ranges.specs.Views.{seen, sets_seen};

use crate::comparator::{Comparator, Partial, Sign};
use crate::fault::RangeFault;
use crate::partial::partial_of;
use crate::words::{first_set, hyphen_ends, next_word};
use std::alloc::Global;

/// The most comparators of a range.
const COMPARATOR_LIMIT: usize = 32;

/// The sign at the beginning of a word, and what is left of it.
#[tactic(auto, unfolding(crate::specs::Grammar::sign_of))]
fn sign_of(word: &[u8]) -> (Option<Sign>, &[u8])
    ensures { (result.0, result.1.now) ≡ grammar.sign_of word.now }
{
    match word {
        [b'=', rest @ ..] => (Some(Sign::Equal), rest),
        [b'<', b'=', rest @ ..] => (Some(Sign::LessOrEqual), rest),
        [b'<', rest @ ..] => (Some(Sign::Less), rest),
        [b'>', b'=', rest @ ..] => (Some(Sign::GreaterOrEqual), rest),
        [b'>', rest @ ..] => (Some(Sign::Greater), rest),
        [b'~', rest @ ..] => (Some(Sign::Tilde), rest),
        [b'^', rest @ ..] => (Some(Sign::Caret), rest),
        _ => (None, word),
    }
}

/// The sign of a word that is a sign alone.
fn lone_sign(word: &[u8]) -> Option<Sign>
    ensures { result ≡ grammar.lone_sign word.now }
{
    let (sign, rest) = sign_of(word);
    if rest.is_empty() { sign } else { None }
}

fn comparator(alloc: Global, sign: Sign, word: &[u8]) -> Result<Comparator, RangeFault>
    ensures { RangeOutcome seen (with_sign sign (grammar.partial_of word.now)) result }
{
    let partial = partial_of(alloc, word)?;
    match partial {
        Some(partial) => Ok(Comparator { sign, partial }),
        None => Err(RangeFault::Bad),
    }
}

/// The comparator of one word.
fn word_comparator(alloc: Global, word: &[u8]) -> Result<Comparator, RangeFault>
    ensures { RangeOutcome seen (grammar.comparator_of word.now) result }
{
    let (sign, partial) = sign_of(word);
    comparator(alloc, sign.unwrap_or(Sign::Equal), partial)
}

/// The comparator that begins with a word, and what is behind it: a sign alone takes the next word.
fn first_comparator<'a>(
    alloc: Global,
    word: &[u8],
    after: &'a [u8],
) -> Result<(Comparator, &'a [u8]), RangeFault>
    ensures { MatchResult result (λ x. IsFirstComparator word.now after.now (seen x.0) x.1.now) (FailsOn (comparators_of (word.now ∷ words_of after.now))) }
{
    match lone_sign(word) {
        Some(sign) => {
            let Some((next, rest)) = next_word(after) else {
                return Err(RangeFault::Bad);
            };
            let comparator = comparator(alloc, sign, next)?;
            Ok((comparator, rest))
        }
        None => {
            let comparator = word_comparator(alloc, word)?;
            Ok((comparator, after))
        }
    }
}

fn comparators_in(alloc: Global, text: &[u8]) -> Result<Vec<Comparator>, RangeFault>
    ensures { RangeOutcome (λ v. map seen v.items) (comparators_of (words_of text.now)) result }
{
    let mut comparators = Vec::new(alloc);
    let mut rest = text;
    'words: while let Some((word, after)) = next_word(rest) {
        let (comparator, behind) = first_comparator(alloc, word, after)?;
        comparators.push(comparator)?;
        rest = behind;
    }
    Ok(comparators)
}

fn hyphen_range(alloc: Global, first: &[u8], last: &[u8]) -> Result<Vec<Comparator>, RangeFault>
    ensures { RangeOutcome (λ v. map seen v.items) (grammar.hyphen_range first.now last.now) result }
{
    let low = comparator(alloc, Sign::GreaterOrEqual, first)?;
    let high = comparator(alloc, Sign::LessOrEqual, last)?;
    let mut set = Vec::new(alloc);
    set.push(low)?;
    set.push(high)?;
    Ok(set)
}

/// The empty set, which any version without a pre-release meets.
fn empty_set(alloc: Global) -> Result<Vec<Comparator>, RangeFault>
    ensures { RangeOutcome (λ v. map seen v.items) (Some (grammar.any_version ∷ [])) result }
{
    let mut set = Vec::new(alloc);
    set.push(Comparator {
        sign: Sign::Equal,
        partial: Partial::Any,
    })?;
    Ok(set)
}

fn set_in(alloc: Global, text: &[u8]) -> Result<Vec<Comparator>, RangeFault>
    ensures { RangeOutcome (λ v. map seen v.items) (grammar.set_of text.now) result }
{
    if next_word(text).is_none() {
        return empty_set(alloc);
    }
    match hyphen_ends(text) {
        Some((first, last)) => hyphen_range(alloc, first, last),
        None => comparators_in(alloc, text),
    }
}

/// The sets of a range.
pub(crate) fn sets_in(alloc: Global, text: &[u8]) -> Result<Vec<Vec<Comparator>>, RangeFault>
    ensures { RangeOutcome (λ v. sets_seen v.items) (written text.now) result }
{
    let mut sets = Vec::new(alloc);
    let mut rest = Some(text);
    'sets: while let Some(text) = rest {
        let (set, behind) = first_set(text);
        let comparators = set_in(alloc, set)?;
        sets.push(comparators)?;
        rest = behind;
    }
    Ok(sets)
}

/// Whether the sets have at most 32 comparators.
pub(crate) fn are_few(sets: &[Vec<Comparator>]) -> bool
    ensures { IsTrue result ↔ (comparator_count (sets_seen sets.now) ≤ 32) }
{
    let mut left = COMPARATOR_LIMIT;
    'sets: for set in sets {
        if set.len() > left {
            return false;
        }
        left -= set.len();
    }
    true
}
