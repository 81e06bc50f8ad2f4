use crate::texts::{told, told_to};
use nuc_base::Name;
use std::alloc::Global;
use std::test::Fail;
use test_support::{library_of, wanted_of};
use why_not::{Why, check};

/// The newest `A` and `B` ask for different versions of `C`, and there is no older `A`.
const NO_VERSION: &str = "A2 C:^2;B1 C:^1;C1;C2";

const NO_VERSION_TEXT: &str = "split A 1
  try A 2.0.0
    split B 1
      try B 1.0.0
        split C 2
          try C 1.0.0
            refused C 1.0.0 by A 2.0.0
          try C 2.0.0
            refused C 2.0.0 by B 1.0.0
";

/// A wanted range, a name that no candidate has, and a place's own range on one that was decided before.
const OTHERS: &str = "A1|A:^2|split A 1;  try A 1.0.0;    refused A 1.0.0 by wanted
A1 C:*|A:*|split A 1;  try A 1.0.0;    split C 0
A1;B1 A:^2|A:* B:*|split A 1;  try A 1.0.0;    split B 1;      try B 1.0.0;        refused A 1.0.0 by B 1.0.0
A1 C:^1;A2 C:^2;B1 C:^1;C1;C2|A:* B:*|possible
A1||possible";

/// The lines with a semicolon between them.
fn joined(alloc: Global, text: &str) -> Result<String, Fail> {
    let mut all = String::new(alloc);
    for line in text.lines() {
        if !all.is_empty() {
            all.push_str(";")?;
        }
        all.push_str(line)?;
    }
    Ok(all)
}

/// Of a line with rows, what is wanted and the text: whether that text is told.
fn is_told(alloc: Global, line: &str) -> Result<bool, Fail> {
    let Some((rows, rest)) = line.split_once('|') else {
        return Ok(false);
    };
    let Some((words, text)) = rest.split_once('|') else {
        return Ok(false);
    };
    let found = told(alloc, rows, words)?;
    Ok(joined(alloc, found.as_str())?.as_str() == text)
}

#[test]
fn tells_each_candidate_of_a_required_name(rt: HostRuntime) -> Result<(), Fail> {
    let alloc = rt.alloc();
    let text = told(alloc, NO_VERSION, "A:* B:*")?;
    assert!(rt; text.as_str() == NO_VERSION_TEXT, "{text}");
    Ok(())
}

#[test]
fn gives_the_first_reason(rt: HostRuntime) -> Result<(), Fail> {
    let alloc = rt.alloc();
    for line in OTHERS.lines() {
        assert!(rt; is_told(alloc, line)?, "{line}");
    }
    Ok(())
}

/// Whether a sink that fails the call of this number gets a prefix of the text.
fn is_prefix(alloc: Global, call: u64) -> Result<bool, Fail> {
    let found = told_to(alloc, NO_VERSION, "A:* B:*", &[call])?;
    match found.as_str().strip_suffix('!') {
        Some(prefix) => Ok(NO_VERSION_TEXT.starts_with(prefix)),
        None => Ok(false),
    }
}

/// Each line goes out in several calls, and the text has nine.
#[test]
fn cuts_the_text_where_the_sink_fails(rt: HostRuntime) -> Result<(), Fail> {
    let alloc = rt.alloc();
    for call in 0..20 {
        assert!(rt; is_prefix(alloc, call)?, "{call}");
    }
    let text = told_to(alloc, NO_VERSION, "A:* B:*", &[1000])?;
    assert!(rt; text.as_str() == NO_VERSION_TEXT, "{text}");
    Ok(())
}

/// Either name may come first in it.
#[test]
fn names_the_places_of_a_loop(rt: HostRuntime) -> Result<(), Fail> {
    let alloc = rt.alloc();
    let text = told(alloc, "A1 B:*;B1 A:*", "A:*")?;
    let last = text.as_str().lines().last().unwrap_or("");
    assert!(rt;
        last == "        loop A B" || last == "        loop B A",
        "{text}"
    );
    Ok(())
}

/// A split without a branch for the candidate of its name does not stand.
#[test]
fn wants_a_branch_for_each_candidate(rt: HostRuntime) -> Result<(), Fail> {
    let alloc = rt.alloc();
    let candidates = library_of(alloc, NO_VERSION)?;
    let wanted = wanted_of(alloc, "A:* B:*")?;
    let why = Why::Split(Name::read(alloc, b"A")?, Vec::new(alloc));
    assert!(rt; !check(alloc, &candidates, &wanted, &why)?);
    Ok(())
}
