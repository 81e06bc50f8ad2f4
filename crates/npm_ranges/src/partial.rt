// Reading partials: `1`, `1.x`, `v1.2.3-alpha`.
ghost use Rattle.std.specs.Prelude.{◌≡◌, ◌∷◌, [], ◌≤◌, ◌<◌, ◌*◌, ◌+◌, ◌-◌, ◌^◌, ◌==◌, length, Some, None, IfNone, IfSome, IfOk, IsOk, MatchOption};
ghost use Rattle.std.specs.Prelude.{MatchResult, IsErr, Ok, nat_lt, position, if◌then◌else◌};
ghost use Rattle.std.specs.List.{list_all};
ghost use Rattle.std.specs.Char.{is_ascii_digit};
ghost use Rattle.std.specs.Option.{option_map};
ghost use Rattle.semver.specs.Grammar as semver_grammar;
ghost use Rattle.semver.specs.Identifiers.{parts_of};
ghost use Rattle.semver.specs.Order.{parts};
ghost use Rattle.semver.specs.Parse.{version_parts};
ghost use Rattle.npm_ranges.specs.Grammar as grammar;
ghost use Rattle.npm_ranges.specs.Grammar.{free_partial, value_from};
ghost use Rattle.npm_ranges.specs.Views.{parts_behind, spelled};

use crate::comparator::Partial;
use crate::version::is_want_of_memory;
use nuc_base::NoMemory;
use std::alloc::Global;

fn is_free(part: &[u8]) -> bool
    ensures { result ≡ grammar.is_free part.now }
{
    match part {
        [byte] => *byte == b'x' || *byte == b'X' || *byte == b'*',
        _ => false,
    }
}

fn has_leading_zero(part: &[u8]) -> bool
    ensures { result ≡ semver_grammar.has_leading_zero part.now }
{
    match part {
        [first, rest @ ..] => *first == b'0' && !rest.is_empty(),
        [] => false,
    }
}

fn are_digits(part: &[u8]) -> bool
    ensures { result ≡ list_all is_ascii_digit part.now }
{
    part.iter().all(|byte| byte.is_ascii_digit())
}

fn is_decimal(part: &[u8]) -> bool
    ensures { result ≡ grammar.is_decimal part.now }
{
    !part.is_empty() && are_digits(part) && !has_leading_zero(part)
}

fn next_value(value: u64, digit: u8) -> Option<u64>
    ensures none { IfNone result (2 ^ 64 ≤ value * 10 + (digit - 48)) }
    ensures some { IfSome result (λ next. (next ≡ value * 10 + (digit - 48)) × (next < 2 ^ 64)) }
{
    value
        .checked_mul(10)?
        .checked_add(u64::from(digit.saturating_sub(b'0')))
}

fn value_of(digits: &[u8]) -> Option<u64>
    ensures { result ≡ (if nat_lt (value_from 0 digits.now) (2 ^ 64) then Some (value_from 0 digits.now) else None) }
{
    let mut value = 0;
    'digits: for digit in digits {
        value = next_value(value, *digit)?;
    }
    Some(value)
}

#[tactic(auto, unfolding(crate::specs::Grammar::number_of))]
fn number_of(part: &[u8]) -> Option<u64>
    ensures { result ≡ grammar.number_of part.now }
{
    if is_decimal(part) {
        value_of(part)
    } else {
        None
    }
}

fn part_of(part: &[u8]) -> Option<Option<u64>>
    ensures { result ≡ grammar.part_of part.now }
{
    if is_free(part) {
        return Some(None);
    }
    let number = number_of(part)?;
    Some(Some(number))
}

fn dot_at(text: &[u8]) -> Option<usize>
    ensures { result ≡ position (λ b. b == 46) text.now }
{
    text.iter().position(|byte| *byte == b'.')
}

/// The first part, and what is behind its dot.
fn first_part(text: &[u8]) -> (&[u8], Option<&[u8]>)
    ensures { parts text.now ≡ result.0.now ∷ parts_behind result.1 }
{
    match dot_at(text) {
        Some(end) => (&text[..end], Some(&text[end + 1..])),
        None => (text, None),
    }
}

/// The partial of three parts, where a missing part is as a free one.
fn partial(first: Option<u64>, second: Option<u64>, third: Option<u64>) -> Partial
    ensures { spelled result ≡ free_partial (first ∷ second ∷ third ∷ []) }
{
    match (first, second, third) {
        (None, _, _) => Partial::Any,
        (Some(major), None, _) => Partial::Major(major),
        (Some(major), Some(minor), None) => Partial::Minor(major, minor),
        (Some(major), Some(minor), Some(patch)) => {
            Partial::Full(semver::Version::new(major, minor, patch))
        }
    }
}

fn parts_partial(text: &[u8]) -> Option<Partial>
    ensures { option_map spelled result ≡ grammar.parts_partial (parts text.now) }
{
    let (first, rest) = first_part(text);
    let first = part_of(first)?;
    let Some(rest) = rest else {
        return Some(partial(first, None, None));
    };
    let (second, rest) = first_part(rest);
    let second = part_of(second)?;
    let Some(rest) = rest else {
        return Some(partial(first, second, None));
    };
    let (third, rest) = first_part(rest);
    let third = part_of(third)?;
    match rest {
        Some(_) => None,
        None => Some(partial(first, second, third)),
    }
}

fn bare(word: &[u8]) -> &[u8]
    ensures { result.now ≡ grammar.bare word.now }
{
    match word {
        [b'v', rest @ ..] => rest,
        _ => word,
    }
}

/// The version that the bytes spell, if they spell one.
fn version_of(alloc: Global, bytes: &[u8]) -> Result<Option<semver::Version>, NoMemory>
    ensures { IfOk result (λ v. MatchOption v (IsErr (version_parts bytes.now)) (λ v. version_parts bytes.now ≡ Ok (parts_of v))) }
{
    let Ok(text) = str::from_utf8(bytes) else {
        return Ok(None);
    };
    match semver::Version::parse(alloc, text) {
        Ok(version) => Ok(Some(version)),
        Err(error) => {
            if is_want_of_memory(error) {
                Err(NoMemory)
            } else {
                Ok(None)
            }
        }
    }
}

/// The partial that a word spells, if it spells one.
pub(crate) fn partial_of(alloc: Global, word: &[u8]) -> Result<Option<Partial>, NoMemory>
    ensures { IfOk result (λ p. option_map spelled p ≡ grammar.partial_of word.now) }
{
    let word = bare(word);
    let version = version_of(alloc, word)?;
    match version {
        Some(version) => Ok(Some(Partial::Full(version))),
        None => Ok(parts_partial(word)),
    }
}
