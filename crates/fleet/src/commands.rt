// The lines of the input, and the commands that they are.
ghost use Rattle.std.specs.Prelude.{◌≡◌, ◌<◌, ◌^◌, ◌==◌, ◌∷◌, ◌++◌, ℕ, List, true, length, decimal, codes, position, MatchOption, IfOk};
ghost use Rattle.fleet_core.specs.declared.happening.Happening.{Happening as Event};
ghost use Rattle.fleet.specs.Commands.{lines_of, IsUnended, IsWritten};

use fleet_core::Happening;
use itoa::Buffer;
use nuc_base::{Bytes, NoMemory};
use std::alloc::Global;

/// The number that the bytes are in plain decimal digits, as it is written.
fn number(bytes: &[u8]) -> Option<u32>
    ensures { MatchOption result ((n : ℕ) → n < 2 ^ 32 → bytes.now ≡ decimal n → ⊥) (λ n. (bytes.now ≡ decimal n) × (n < 2 ^ 32)) }
{
    let Ok(text) = str::from_utf8(bytes) else {
        return None;
    };
    let Ok(number) = text.parse::<u32>() else {
        return None;
    };
    let mut buffer = Buffer::new();
    if buffer.format(number).as_bytes() != bytes {
        return None;
    }
    Some(number)
}

/// What stands behind a word.
fn behind<'a>(line: &'a [u8], word: &[u8]) -> Option<&'a [u8]>
    ensures { MatchOption result ((rest : List ℕ) → line.now ≡ word.now ++ rest → ⊥) (λ rest. line.now ≡ word.now ++ rest.now) }
{
    line.strip_prefix(word)
}

/// The number behind a word.
pub fn numbered(line: &[u8], word: &[u8]) -> Option<u32>
    ensures { MatchOption result ((n : ℕ) → n < 2 ^ 32 → line.now ≡ word.now ++ decimal n → ⊥) (λ n. (line.now ≡ word.now ++ decimal n) × (n < 2 ^ 32)) }
{
    let rest = behind(line, word)?;
    number(rest)
}

/// Where the first blank stands.
fn blank_at(bytes: &[u8]) -> Option<usize>
    ensures { result ≡ position (λ b. b == 32) bytes.now }
{
    bytes.iter().position(|byte| *byte == b' ')
}

/// Where the first line feed stands.
fn line_feed_at(bytes: &[u8]) -> Option<usize>
    ensures { result ≡ position (λ b. b == 10) bytes.now }
{
    bytes.iter().position(|byte| *byte == b'\n')
}

/// The device and the document of a line that sends one.
fn sending(line: &[u8]) -> Option<(u32, &[u8])>
    ensures { MatchOption result ((n : ℕ) (document : List ℕ) → n < 2 ^ 32 → line.now ≡ codes "send " ++ decimal n ++ 32 ∷ document → ⊥)
        (λ sent. (line.now ≡ codes "send " ++ decimal sent.0 ++ 32 ∷ sent.1.now) × (sent.0 < 2 ^ 32)) }
{
    let rest = behind(line, b"send ")?;
    let blank = blank_at(rest)?;
    let device = number(&rest[..blank])?;
    Some((device, &rest[blank + 1..]))
}

/// The command that a line is.
pub fn command(alloc: Global, line: &[u8]) -> Result<Option<Happening>, NoMemory>
    ensures { IfOk result (λ found. MatchOption found ((happening : Event) → IsWritten line.now happening → ⊥) (IsWritten line.now)) }
{
    if let Some((device, document)) = sending(line) {
        let document = Bytes::from_slice(alloc, document)?;
        return Ok(Some(Happening::Send(device, document)));
    }
    if let Some(number) = numbered(line, b"deliver ") {
        return Ok(Some(Happening::Deliver(number)));
    }
    if let Some(number) = numbered(line, b"lose ") {
        return Ok(Some(Happening::Lose(number)));
    }
    if let Some(device) = numbered(line, b"restart ") {
        return Ok(Some(Happening::Restart(device)));
    }
    if let Some(device) = numbered(line, b"report ") {
        return Ok(Some(Happening::Report(device)));
    }
    if let Some(number) = numbered(line, b"hear ") {
        return Ok(Some(Happening::Hear(number)));
    }
    Ok(None)
}

/// The text of the first line and what stands behind its line feed. It is `None` where there is no line feed.
pub fn first_line(bytes: &[u8]) -> Option<(&[u8], &[u8])>
    ensures { MatchOption result (IsUnended bytes.now (lines_of bytes.now))
        (λ parts. (lines_of bytes.now ≡ record { text = parts.0.now; is_ended = true } ∷ lines_of parts.1.now) × (length parts.1.now < length bytes.now)) }
{
    let end = line_feed_at(bytes)?;
    Some((&bytes[..end], &bytes[end + 1..]))
}
