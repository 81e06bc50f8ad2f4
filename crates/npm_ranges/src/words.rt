// Taking a range apart: sets between `||`, and words between blanks.
ghost use Rattle.std.specs.Prelude.{◌≡◌, ◌≢◌, ◌∷◌, [], ◌<◌, ◌≤◌, ◌+◌, not, length, position, MatchOption};
ghost use Rattle.npm_ranges.specs.Grammar as grammar;
ghost use Rattle.npm_ranges.specs.Grammar.{sets_of, words_of};
ghost use Rattle.npm_ranges.specs.Views as views;
ghost use Rattle.npm_ranges.specs.Views.{IsFirstWord, ends_seen, sets_behind};

fn is_blank(byte: u8) -> bool
    ensures { result ≡ grammar.is_blank byte }
{
    byte == b' ' || byte == b'\t'
}

fn word_start(text: &[u8]) -> Option<usize>
    ensures { result ≡ position (λ b. not (grammar.is_blank b)) text.now }
{
    text.iter().position(|byte| !is_blank(*byte))
}

fn blank_at(text: &[u8]) -> Option<usize>
    ensures { result ≡ position grammar.is_blank text.now }
{
    text.iter().position(|byte| is_blank(*byte))
}

/// The first word, and what is behind the blank that ends it.
pub(crate) fn next_word(text: &[u8]) -> Option<(&[u8], &[u8])>
    ensures { MatchOption result (words_of text.now ≡ []) (λ w. IsFirstWord text.now w.0.now w.1.now) }
{
    let start = word_start(text)?;
    let tail = &text[start..];
    match blank_at(tail) {
        Some(end) => Some((&tail[..end], &tail[end + 1..])),
        None => Some((tail, &tail[tail.len()..])),
    }
}

/// The ends of a hyphen range, where the words are one.
pub(crate) fn hyphen_ends(text: &[u8]) -> Option<(&[u8], &[u8])>
    ensures { ends_seen result ≡ grammar.hyphen_ends (words_of text.now) }
{
    let (first, rest) = next_word(text)?;
    let (middle, rest) = next_word(rest)?;
    let (last, rest) = next_word(rest)?;
    if middle != b"-".as_slice() {
        return None;
    }
    match next_word(rest) {
        Some(_) => None,
        None => Some((first, last)),
    }
}

fn begins_bars(text: &[u8]) -> bool
    ensures { result ≡ views.begins_bars text.now }
{
    match text {
        [first, second, ..] => *first == b'|' && *second == b'|',
        _ => false,
    }
}

/// Where the first `||` begins; the length where there is none.
fn bars_at(text: &[u8]) -> usize
    ensures place { result ≡ views.bars_at text.now }
    ensures fits { result ≢ length text.now → result + 2 ≤ length text.now }
{
    'bytes: for i in 0..text.len() {
        if begins_bars(&text[i..]) {
            return i;
        }
    }
    text.len()
}

/// The first set, and what is behind its `||`.
pub(crate) fn first_set(text: &[u8]) -> (&[u8], Option<&[u8]>)
    ensures { sets_of text.now ≡ result.0.now ∷ sets_behind result.1 }
{
    let end = bars_at(text);
    if end == text.len() {
        (text, None)
    } else {
        (&text[..end], Some(&text[end + 2..]))
    }
}
