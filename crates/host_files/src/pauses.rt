//! Trying again what fails only for a while.
use std::io::{ErrorKind, Write};
use std::time::{Clock, Duration};
use std::{io, thread};

/// The first pause between two tries. Each later one is twice as long, up to the longest.
const SHORT_PAUSE_MS: u64 = 1;

const LONG_PAUSE_MS: u64 = 50;

/// For how long a write is tried again.
const WRITE_MS: u64 = 10_000;

/// The pauses between the tries of something, up to so many milliseconds in all.
#[derive(Drop)]
pub struct Pauses {
    most: u64,
    waited: u64,
    next: u64,
}

impl Pauses {
    pub fn up_to(millis: u64) -> Self {
        Pauses {
            most: millis,
            waited: 0,
            next: SHORT_PAUSE_MS,
        }
    }

    /// How many milliseconds it paused so far.
    pub fn waited(&self) -> u64 {
        self.waited
    }

    /// Sleeps, unless the time is over. Answers whether it slept.
    pub fn pause<C: Clock>(&mut self, clock: &C) -> bool {
        let pause = self.next.min(self.most.saturating_sub(self.waited));
        if pause == 0 {
            return false;
        }
        thread::sleep(clock, Duration::from_millis(pause));
        self.waited = self.waited.saturating_add(pause);
        self.next = self.next.saturating_mul(2).min(LONG_PAUSE_MS);
        true
    }
}

/// A writer over another one, which tries again for ten seconds where a write is interrupted or would block, as one to a pipe
/// does that others made so and that nobody empties.
#[derive(Drop)]
pub struct PatientWriter<'a, C: Clock, W: Write> {
    clock: &'a C,
    inner: W,
}

impl<'a, C: Clock, W: Write> PatientWriter<'a, C, W> {
    pub fn new(clock: &'a C, inner: W) -> Self {
        PatientWriter { clock, inner }
    }
}

impl<'a, C: Clock, W: Write> Write for PatientWriter<'a, C, W> {
    ghost contents = { λ w. W.contents w.inner };

    fn write(&mut self, buf: &[u8]) -> io::Result<usize> {
        let mut pauses = Pauses::up_to(WRITE_MS);
        'tries: for _ in 0..u64::MAX {
            match self.inner.write(buf) {
                Err(error) if passes(&error) && pauses.pause(self.clock) => {}
                answer => return answer,
            }
        }
        Err(io::Error::from(ErrorKind::TimedOut))
    }

    fn flush(&mut self) -> io::Result<()> {
        self.inner.flush()
    }
}

/// Whether the same call may succeed a little later.
fn passes(error: &io::Error) -> bool {
    matches!(error.kind(), ErrorKind::Interrupted | ErrorKind::WouldBlock)
}
