use nuc_base::{List, Pointer, Text};
use std::alloc::{AllocError, Global};
use std::test::Fail;

/// The three texts, one behind another.
pub fn joined(alloc: Global, prefix: &str, middle: &str, back: &str) -> Result<Text, Fail> {
    let mut text = Text::from_str(alloc, prefix)?;
    text.push_str(middle)?;
    text.push_str(back)?;
    Ok(text)
}

/// Adds the word `reset` for each pointer, with its tokens, `>` before each.
pub fn push_resets(text: &mut String, resets: &List<Pointer>) -> Result<(), AllocError> {
    for reset in resets.as_slice() {
        text.push_str(" reset")?;
        for token in reset.tokens().as_slice() {
            text.push('>')?;
            text.push_str(token.as_str())?;
        }
    }
    Ok(())
}

fn push_part(
    alloc: Global,
    text: &mut String,
    part: (&str, &str),
    number: u32,
) -> Result<(), AllocError> {
    if number > 0 {
        text.push(',')?;
    }
    text.push_str(&format!(in alloc; "{}{number}{}", part.0, part.1)?)
}

fn push_parts(
    alloc: Global,
    text: &mut String,
    part: (&str, &str),
    count: u32,
) -> Result<(), AllocError> {
    for number in 0..count {
        push_part(alloc, text, part, number)?;
    }
    Ok(())
}

/// A text with so many parts of one form, commas between them. Each has its number, counted from 0, between what stands before
/// it and what stands behind it.
pub fn repeated(
    alloc: Global,
    prefix: &str,
    part: (&str, &str),
    count: u32,
    back: &str,
) -> Result<String, AllocError> {
    let mut text = String::from_str(alloc, prefix)?;
    push_parts(alloc, &mut text, part, count)?;
    text.push_str(back)?;
    Ok(text)
}

/// The same of a row: the number of parts, a bar, what stands before each number, a bar, and what stands behind it. Any other row
/// has none.
pub fn repeated_of(
    alloc: Global,
    prefix: &str,
    row: &str,
    back: &str,
) -> Result<Option<String>, AllocError> {
    let Some((count, part)) = row.split_once('|') else {
        return Ok(None);
    };
    let Some(part) = part.split_once('|') else {
        return Ok(None);
    };
    match count.parse::<u32>() {
        Ok(count) => Ok(Some(repeated(alloc, prefix, part, count, back)?)),
        Err(_) => Ok(None),
    }
}
