ghost use Rattle.std.specs.Prelude.{◌≡◌, ◌++◌, ◌==◌, [], List, ℕ, length, IfOk, OnOk, OnErr};

use crate::copied::Copied;
use crate::memory::NoMemory;
use std::alloc::Global;
use std::fmt;
use std::marker::Model;

/// Bytes, seen as the list of them.
#[derive(Drop)]
pub struct Bytes {
    inner: Vec<u8>,
}

impl Model for Bytes {
    ghost Value = { List ℕ };

    ghost view = { λ a. a.inner.items };
}

impl Bytes {
    /// The bytes of a vector, which is taken over without taking memory.
    pub fn new(inner: Vec<u8>) -> Bytes
        ensures { result ≡ inner.items }
    {
        Bytes { inner }
    }

    /// No bytes yet.
    pub fn empty(alloc: Global) -> Bytes
        ensures { result ≡ [] }
    {
        Bytes {
            inner: Vec::new(alloc),
        }
    }

    pub fn from_slice(alloc: Global, bytes: &[u8]) -> Result<Bytes, NoMemory>
        ensures { IfOk result (λ b. b ≡ bytes.now) }
    {
        let mut inner = Vec::with_capacity(alloc, bytes.len())?;
        inner.extend_from_slice(bytes)?;
        Ok(Bytes { inner })
    }

    pub fn len(&self) -> usize
        ensures { result ≡ length self.now }
    {
        self.inner.len()
    }

    pub fn is_empty(&self) -> bool
        ensures { result ≡ (length self.now == 0) }
    {
        self.inner.is_empty()
    }

    pub fn as_slice(&self) -> &[u8]
        ensures { result.now ≡ self.now }
    {
        self.inner.as_slice()
    }

    /// The vector of these bytes, without taking memory.
    pub fn into_vec(self) -> Vec<u8>
        ensures { result.items ≡ self }
    {
        self.inner
    }

    /// Adds bytes at the end. Where memory is refused the bytes stay as they were.
    pub fn append(&mut self, more: &[u8]) -> Result<(), NoMemory>
        ensures ok { OnOk result (self.new ≡ self.old ++ more.now) }
        ensures err { OnErr result (self.new ≡ self.old) }
    {
        self.inner.extend_from_slice(more)?;
        Ok(())
    }
}

impl Copied for Bytes {
    ghost is_copy = { λ t u. u ≡ t };

    fn copy(&self, alloc: Global) -> Result<Bytes, NoMemory> {
        Bytes::from_slice(alloc, self.as_slice())
    }
}

impl fmt::Debug for Bytes {
    fn fmt<W: fmt::Write>(&self, f: &mut fmt::Formatter<W>) -> fmt::Result {
        write!(f, "{:?}", self.as_slice())
    }
}
