ghost use Rattle.std.specs.Prelude.{◌≤◌, length, IfOk};

use nuc_base::{NoMemory, copy_prefix};
use std::alloc::Global;
use std::fs::File;
use std::io;
use std::io::ErrorKind;
use std::os::unix::fs::FileExt;

/// How many bytes are read ahead.
const WINDOW: usize = 65_536;

/// Bytes of a file that were read ahead, so that a walk from entry to entry asks the system once for many.
#[derive(Drop)]
pub struct Window {
    bytes: Vec<u8>,
    start: u64,
    filled: usize,
    ghost within: { filled ≤ length bytes.items },
}

impl Window {
    pub fn new(alloc: Global) -> Result<Window, NoMemory> {
        Ok(Window {
            bytes: vec![in alloc; 0; WINDOW]?,
            start: 0,
            filled: 0,
        })
    }

    /// Forgets what was read, since the file changes.
    pub fn forget(&mut self) {
        self.filled = 0;
    }

    /// As many zeros as are read ahead, in place of what was read.
    pub fn zeros(&mut self) -> &[u8] {
        self.filled = 0;
        self.bytes.fill(0);
        self.bytes.as_slice()
    }

    /// Reads as many bytes as there are from that place on, up to the slice. What was read ahead serves only where it
    /// has all that is asked for, since the file may have grown.
    pub fn read(&mut self, file: &File, at: u64, into: &mut [u8]) -> io::Result<usize>
        ensures { IfOk result (λ n. n ≤ length into.old) }
    {
        if into.len() >= self.bytes.len() {
            return read_full(file, at, into);
        }
        if !self.has(at, into.len()) {
            self.filled = 0;
            self.filled = read_full(file, at, self.bytes.as_mut_slice())?;
            self.start = at;
        }
        let skipped = self.skipped(at);
        Ok(copy_prefix(&self.bytes[skipped..self.filled], into))
    }

    /// Whether all of these bytes were read ahead.
    pub fn has(&self, at: u64, count: usize) -> bool {
        match at.checked_sub(self.start) {
            Some(skipped) => match usize::try_from(skipped) {
                Ok(skipped) => skipped.saturating_add(count) <= self.filled,
                Err(_) => false,
            },
            None => false,
        }
    }

    /// How many of the bytes stand before this place.
    fn skipped(&self, at: u64) -> usize
        ensures { result ≤ self.now.filled }
    {
        match at.checked_sub(self.start) {
            Some(skipped) => match usize::try_from(skipped) {
                Ok(skipped) => skipped.min(self.filled),
                Err(_) => self.filled,
            },
            None => self.filled,
        }
    }
}

/// Reads until the slice is full or the file ends, and tries an interrupted call again.
pub fn read_full(file: &File, at: u64, into: &mut [u8]) -> io::Result<usize>
    ensures { IfOk result (λ n. n ≤ length into.old) }
{
    let mut filled = 0;
    'filling: for _ in 0..u64::MAX {
        if filled == into.len() {
            break;
        }
        let place = at.saturating_add(filled as u64);
        match file.read_at(&mut into[filled..], place) {
            Ok(0) => break,
            Ok(count) => filled += count,
            Err(error) if error.kind() == ErrorKind::Interrupted => {}
            Err(error) => return Err(error),
        }
    }
    Ok(filled)
}
