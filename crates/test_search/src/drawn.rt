//! Drawn libraries of up to nine candidates against the definitions, by the program that tries all sets.

use crate::draw::Draw;
use crate::slow::{bit, pieces, preferred};
use conflict_search::{SearchFault, search};
use std::alloc::{AllocError, Global};
use std::test::Fail;
use test_support::{library_of, wanted_of};

/// The last of them is never there where four are.
const NAMES: [&str; 5] = ["A", "B", "C", "D", "E"];

fn push_name(text: &mut String, at: u64) -> Result<(), AllocError> {
    text.push_str(NAMES.get(at as usize).copied().unwrap_or("A"))
}

/// Adds a name and the least and the greatest version that is asked of it.
fn push_word(text: &mut String, draw: &mut Draw, at: u64) -> Result<(), AllocError> {
    let low = draw.below(3).saturating_add(1);
    let high = draw.below(3).saturating_add(low).min(3);
    push_name(text, at)?;
    write!(text, "{low}{high}")
}

/// Adds a version of a name and what it needs: other names, sometimes its own, sometimes one that there is not.
fn push_row(
    text: &mut String,
    draw: &mut Draw,
    names: u64,
    at: u64,
    version: u64,
) -> Result<(), AllocError> {
    push_name(text, at)?;
    write!(text, "{version}")?;
    for other in 0..=names {
        let one_in = if other == at || other == names { 24 } else { 3 };
        if draw.below(one_in) == 0 {
            text.push(' ')?;
            push_word(text, draw, other)?;
        }
    }
    Ok(())
}

/// The versions of a name, of which some are left out.
fn push_rows(text: &mut String, draw: &mut Draw, names: u64, at: u64) -> Result<(), AllocError> {
    let most = if names == 4 { 2 } else { 3 };
    for version in 1..=most {
        if version == 1 || draw.below(4) != 0 {
            if !text.is_empty() {
                text.push(';')?;
            }
            push_row(text, draw, names, at, version)?;
        }
    }
    Ok(())
}

fn drawn_rows(alloc: Global, draw: &mut Draw, names: u64) -> Result<String, AllocError> {
    let mut text = String::new(alloc);
    for at in 0..names {
        push_rows(&mut text, draw, names, at)?;
    }
    Ok(text)
}

fn drawn_words(alloc: Global, draw: &mut Draw, names: u64) -> Result<String, AllocError> {
    let mut text = String::new(alloc);
    let at = draw.below(names);
    push_word(&mut text, draw, at)?;
    for _word in 0..draw.below(3) {
        text.push(' ')?;
        let at = draw.below(names);
        push_word(&mut text, draw, at)?;
    }
    Ok(text)
}

/// The set that is chosen, a bit for each place, or none.
fn chosen(alloc: Global, rows: &str, words: &str) -> Result<Option<u32>, Fail> {
    let candidates = library_of(alloc, rows)?;
    let wanted = wanted_of(alloc, words)?;
    let mut tries = 0;
    match search(alloc, &candidates, &wanted, &mut tries) {
        Ok(set) => {
            let mut bits = 0;
            for place in set.as_slice() {
                bits |= bit(*place);
            }
            Ok(Some(bits))
        }
        Err(SearchFault::NoVersion) => Ok(None),
        Err(SearchFault::NoMemory) => Err(Fail::from("memory")),
    }
}

/// The set that the definitions give, or none.
fn best(alloc: Global, rows: &str, words: &str) -> Result<Option<u32>, AllocError> {
    let rows = pieces(alloc, rows, ';')?;
    let words = pieces(alloc, words, ' ')?;
    preferred(alloc, &rows, &words)
}

/// What came of drawn libraries: the first that was not chosen as defined, and of how many no set is valid.
#[derive(Drop)]
struct Tally {
    wrong: Option<u64>,
    without: u64,
}

fn count_one(alloc: Global, seed: u64, tally: &mut Tally) -> Result<(), Fail> {
    let mut draw = Draw::new(seed);
    let names = draw.below(3).saturating_add(2);
    let rows = drawn_rows(alloc, &mut draw, names)?;
    let words = drawn_words(alloc, &mut draw, names)?;
    let found = chosen(alloc, rows.as_str(), words.as_str())?;
    if found != best(alloc, rows.as_str(), words.as_str())? && tally.wrong.is_none() {
        tally.wrong = Some(seed);
    }
    if found.is_none() {
        tally.without = tally.without.saturating_add(1);
    }
    Ok(())
}

fn tally_of(alloc: Global, from: u64, to: u64) -> Result<Tally, Fail> {
    let mut tally = Tally {
        wrong: None,
        without: 0,
    };
    for seed in from..to {
        count_one(alloc, seed, &mut tally)?;
    }
    Ok(tally)
}

/// As defined, and neither always none nor always one.
fn are_as_defined(alloc: Global, from: u64, to: u64) -> Result<bool, Fail> {
    let tally = tally_of(alloc, from, to)?;
    Ok(tally.wrong.is_none() && tally.without > 200 && tally.without < 800)
}

#[test]
fn chooses_as_defined_of_a_thousand_drawn_libraries(rt: HostRuntime) -> Result<(), Fail> {
    let holds = are_as_defined(rt.alloc(), 0, 1000)?;
    assert!(rt; holds);
    Ok(())
}

#[test]
fn chooses_as_defined_of_a_thousand_more(rt: HostRuntime) -> Result<(), Fail> {
    let holds = are_as_defined(rt.alloc(), 1000, 2000)?;
    assert!(rt; holds);
    Ok(())
}
