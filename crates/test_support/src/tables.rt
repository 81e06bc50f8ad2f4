// Tables of texts: each row is what is answered, a bar and the text, or what tells its parts.
use crate::texts::{joined, repeated_of};
use std::alloc::Global;
use std::test::Fail;

/// What reads the texts of a table.
pub trait Reader {
    /// What it answers to a text, as a table writes it.
    fn answer(&self, alloc: Global, text: &str) -> Result<String, Fail>;
}

fn is_answered<R: Reader>(
    alloc: Global,
    reader: &R,
    text: &str,
    wanted: &str,
) -> Result<bool, Fail> {
    Ok(reader.answer(alloc, text)?.as_str() == wanted)
}

fn is_row<R: Reader>(
    alloc: Global,
    reader: &R,
    prefix: &str,
    row: &str,
    back: &str,
) -> Result<bool, Fail> {
    let Some((wanted, middle)) = row.split_once('|') else {
        return Ok(false);
    };
    let text = joined(alloc, prefix, middle, back)?;
    is_answered(alloc, reader, text.as_str(), wanted)
}

/// The first row of a table that is not answered as it says, or the empty text. The texts of the rows stand between these two.
pub fn first_wrong<'t, R: Reader>(
    alloc: Global,
    reader: &R,
    prefix: &str,
    table: &'t str,
    back: &str,
) -> Result<&'t str, Fail> {
    for row in table.lines() {
        if !is_row(alloc, reader, prefix, row, back)? {
            return Ok(row);
        }
    }
    Ok("")
}

fn is_repeated_row<R: Reader>(
    alloc: Global,
    reader: &R,
    prefix: &str,
    row: &str,
    back: &str,
) -> Result<bool, Fail> {
    let Some((wanted, parts)) = row.split_once('|') else {
        return Ok(false);
    };
    match repeated_of(alloc, prefix, parts, back)? {
        Some(text) => is_answered(alloc, reader, text.as_str(), wanted),
        None => Ok(false),
    }
}

/// The same of a table whose texts have many parts of one form, each with its number: what is answered, a bar, the number of
/// parts, a bar, what stands before each number, a bar, and what stands behind it.
pub fn first_wrong_repeated<'t, R: Reader>(
    alloc: Global,
    reader: &R,
    prefix: &str,
    table: &'t str,
    back: &str,
) -> Result<&'t str, Fail> {
    for row in table.lines() {
        if !is_repeated_row(alloc, reader, prefix, row, back)? {
            return Ok(row);
        }
    }
    Ok("")
}
