ghost use Rattle.std.specs.Prelude.{◌≡◌, List, ℕ, MatchResult, IfOk, map, true, ◌==◌, ◌∷◌, ◌<◌, ◌≤◌, length};
ghost use Rattle.std.specs.Str.{IsUtf8};
ghost use Rattle.nuc_base.specs.Pointers.{IsPointer, FailsAs, tokens as tokens_of, are_whole as escapes_are_whole, is_escape as is_an_escape};
ghost use Rattle.nuc_base.specs.Pointers.{begins as begins_well, unescape};
ghost use Rattle.std.specs.List.{slice_split};

use crate::list::List;
use crate::memory::NoMemory;
use crate::text::Text;
use std::alloc::Global;
use std::marker::Model;
use thiserror::Error;

/// Why a text is no pointer, in the order in which they are looked for.
#[derive(Clone, Copy, Debug, PartialEq, Eq, Error)]
pub enum PointerFault {
    /// It has more than 1,024 bytes.
    #[error("more than 1,024 bytes")]
    TooLong,
    /// It is not empty and does not begin with `/`.
    #[error("no slash at the beginning")]
    NoSlash,
    /// A `~` is not followed by `0` or `1`.
    #[error("a tilde without 0 or 1")]
    BadTilde,
    #[error("memory ran out")]
    NoMemory,
}

/// A JSON pointer (RFC 6901) of at most 1,024 bytes, seen as its tokens without their escapes.
#[derive(Debug, Drop)]
pub struct Pointer {
    tokens: List<Text>,
}

impl Model for Pointer {
    ghost Value = { List (List ℕ) };

    ghost view = { λ a. a.tokens };
}

const LIMIT: usize = 1024;

impl Pointer {
    /// Reads a pointer (RFC 6901, sections 3 and 4). The first fault in the order of `PointerFault` answers.
    pub fn read(alloc: Global, text: &str) -> Result<Pointer, PointerFault>
        ensures { MatchResult result (λ p. IsPointer text.now × (p ≡ tokens_of text.now)) (FailsAs text.now) }
    {
        if text.len() > LIMIT {
            return Err(PointerFault::TooLong);
        }
        if !begins(text.as_bytes()) {
            return Err(PointerFault::NoSlash);
        }
        if !are_whole(text.as_bytes()) {
            return Err(PointerFault::BadTilde);
        }
        match tokens_in(alloc, text) {
            Ok(tokens) => Ok(Pointer {
                tokens: List::new(tokens),
            }),
            Err(_) => Err(PointerFault::NoMemory),
        }
    }

    /// The tokens in order, without their escapes.
    pub fn tokens(&self) -> &List<Text>
        ensures { result.now ≡ self.now }
    {
        &self.tokens
    }
}

fn is_escape(bytes: &[u8]) -> bool
    ensures { result ≡ is_an_escape bytes.now }
{
    match bytes {
        [first, ..] => *first == b'0' || *first == b'1',
        [] => false,
    }
}

fn are_whole(bytes: &[u8]) -> bool
    ensures { result ≡ escapes_are_whole bytes.now }
{
    for (i, byte) in bytes.iter().enumerate() {
        if *byte == b'~' && !is_escape(&bytes[i + 1..]) {
            return false;
        }
    }
    true
}

fn begins(bytes: &[u8]) -> bool
    ensures { result ≡ begins_well bytes.now }
{
    match bytes {
        [first, ..] => *first == b'/',
        [] => true,
    }
}

fn tokens_in(alloc: Global, text: &str) -> Result<Vec<Text>, NoMemory>
    requires { begins_well text.now ≡ true }
    ensures { IfOk result (λ v. v.items ≡ tokens_of text.now) }
{
    match text.strip_prefix('/') {
        Some(rest) => parts_in(alloc, rest),
        None => Ok(Vec::new(alloc)),
    }
}

fn parts_in(alloc: Global, text: &str) -> Result<Vec<Text>, NoMemory>
    ensures { IfOk result (λ v. v.items ≡ map unescape (slice_split (λ b. b == 47) text.now)) }
{
    let mut parts = Vec::new(alloc);
    let mut rest = text;
    'parts: while let Some((part, after)) = rest.split_once('/') {
        parts.push(unescaped(alloc, part)?)?;
        rest = after;
    }
    parts.push(unescaped(alloc, rest)?)?;
    Ok(parts)
}

fn unescaped(alloc: Global, part: &str) -> Result<Text, NoMemory>
    ensures { IfOk result (λ t. t ≡ unescape part.now) }
{
    let mut text = String::new(alloc);
    let mut rest = part;
    'pieces: while let Some((plain, after)) = rest.split_once('~') {
        text.push_str(plain)?;
        let (letter, next) = past_escape(after);
        text.push(letter)?;
        rest = next;
    }
    text.push_str(rest)?;
    Ok(Text::new(text))
}

/// What an escape stands for, and the text behind it.
fn past_escape(after: &str) -> (char, &str)
    ensures text { unescape (126 ∷ after.now) ≡ result.0 ∷ unescape result.1.now }
    ensures ascii { result.0 < 128 }
    ensures utf8 { IsUtf8 result.1.now }
    ensures shorter { length result.1.now ≤ length after.now }
{
    if let Some(next) = after.strip_prefix('0') {
        return ('~', next);
    }
    if let Some(next) = after.strip_prefix('1') {
        return ('/', next);
    }
    ('~', after)
}
