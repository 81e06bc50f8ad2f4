use edges::{EdgeFault, MemorySink, Sink, write_pieces};
use nuc_base::List;
use std::alloc::Global;
use std::str;
use std::test::Fail;
use test_support::{library_of, wanted_of};
use why_not::{check, explain, write_why};

/// Writes the text of the certificate that no set is valid, which stands; or that one is.
fn tell<K: Sink>(
    alloc: Global,
    rows: &str,
    words: &str,
    sink: &mut K,
) -> Result<Result<(), EdgeFault>, Fail> {
    let candidates = library_of(alloc, rows)?;
    let wanted = wanted_of(alloc, words)?;
    let Some(why) = explain(alloc, &candidates, &wanted)? else {
        return Ok(write_pieces(sink, &["possible"]));
    };
    if !check(alloc, &candidates, &wanted, &why)? {
        return Err(Fail::from("it does not stand"));
    }
    Ok(write_why(sink, &candidates, &why))
}

/// What a sink holds that fails these calls, with a `!` behind it where one of them was reached.
pub fn told_to(alloc: Global, rows: &str, words: &str, failing: &[u64]) -> Result<String, Fail> {
    let mut sink = MemorySink::new(alloc, List::new(Vec::from_slice(alloc, failing)?));
    let written = tell(alloc, rows, words, &mut sink)?;
    let mut text = String::from_str(alloc, str::from_utf8(sink.bytes())?)?;
    if written.is_err() {
        text.push_str("!")?;
    }
    Ok(text)
}

/// The text of the certificate that no set is valid, or that one is.
pub fn told(alloc: Global, rows: &str, words: &str) -> Result<String, Fail> {
    told_to(alloc, rows, words, &[])
}
