//! The moments of the runner, and how long it sleeps between two looks.
ghost use Rattle.std.specs.Prelude.{◌≡◌, ◌≤◌, ◌<◌, ◌-◌, ◌/◌, ◌^◌, ℕ, min, max, MatchOption};

use std::time::{Clock, Instant};

/// No moment is later.
pub(crate) const LAST_MOMENT: u64 = (1 << 62) - 1;

/// How long the runner sleeps at least and at most before it looks at the children again.
const SHORT_PAUSE_MS: u64 = 5;

const LONG_PAUSE_MS: u64 = 40;

/// Milliseconds since then, where the clock can be read.
pub(crate) fn millis_since<C: Clock>(clock: &C, start: &Option<Instant>) -> Option<u64> {
    let Some(start) = start else {
        return None;
    };
    match start.elapsed(clock) {
        Ok(elapsed) => u64::try_from(elapsed.as_millis()).ok(),
        Err(_) => None,
    }
}

/// How many milliseconds passed since then: what was counted, where the clock cannot be read.
pub(crate) fn waited_since<C: Clock>(clock: &C, start: &Option<Instant>, counted: u64) -> u64
    ensures { counted ≤ result }
{
    match millis_since(clock, start) {
        Some(millis) => millis.max(counted),
        None => counted,
    }
}

/// The moment so many milliseconds after the beginning, of which `stood` do not count. It is not before `least`, and is
/// that where the clock cannot be read.
pub(crate) fn moment_at(millis: Option<u64>, stood: u64, least: u64) -> u64
    requires { least < 2 ^ 62 }
    ensures exact { MatchOption millis (result ≡ least) (λ m. result ≡ max least (min (m - stood) (2 ^ 62 - 1))) }
    ensures later { least ≤ result }
    ensures bound { result < 2 ^ 62 }
{
    match millis {
        Some(millis) => least.max(millis.saturating_sub(stood).min(LAST_MOMENT)),
        None => least,
    }
}

/// How long to sleep where nothing has stirred for so long: an end is noticed late by a small part of that at most.
pub(crate) fn pause_after(quiet: u64) -> u64
    ensures { result ≡ min 40 (max 5 (quiet / 16)) }
{
    (quiet / 16).max(SHORT_PAUSE_MS).min(LONG_PAUSE_MS)
}

/// How many milliseconds all kills wait together that follow one another with no start and no wait between them, as those of
/// one stop do.
pub(crate) const PATIENCE_MS: u64 = 5_000;

/// How many they have at least behind a start or a wait while one that was killed lives on: most end in a few.
pub(crate) const LITTLE_PATIENCE_MS: u64 = 250;

/// How many milliseconds of the patience that is left one kill may wait: four fifths, so that whatever lives on leaves some to
/// those behind it, and all wait less than the whole.
pub(crate) fn share_of(patience: u64) -> u64
    ensures { result ≤ patience }
{
    patience - patience / 5
}

/// How long to sleep where an end was waited for so long.
pub(crate) fn pause_within(waited: u64) -> u64
    ensures { result ≡ min 40 (max 1 (waited / 8)) }
{
    (waited / 8).max(1).min(LONG_PAUSE_MS)
}
