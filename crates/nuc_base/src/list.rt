ghost use Rattle.std.specs.Prelude.{◌≡◌, ◌==◌, ◌∷◌, ◌++◌, [], length, OnOk, IfErr};
ghost use Rattle.std.specs.List.{AllZip};

use crate::copied::Copied;
use crate::memory::NoMemory;
use std::alloc::{AllocFailed, Global};
use std::fmt;
use std::marker::Model;

/// A list, seen as its elements.
#[derive(Drop)]
pub struct List<T> {
    inner: Vec<T>,
}

impl<T> Model for List<T> {
    ghost use Rattle.std.specs.Prelude.{List};

    ghost Value = { List T };

    ghost view = { λ a. a.inner.items };
}

impl<T> List<T> {
    /// The elements of a vector, which is taken over without taking memory.
    pub fn new(inner: Vec<T>) -> List<T>
        ensures { result ≡ inner.items }
    {
        List { inner }
    }

    /// No elements yet.
    pub fn empty(alloc: Global) -> List<T>
        ensures { result ≡ [] }
    {
        List {
            inner: Vec::new(alloc),
        }
    }

    pub fn len(&self) -> usize
        ensures { result ≡ length self.now }
    {
        self.inner.len()
    }

    pub fn is_empty(&self) -> bool
        ensures { result ≡ (length self.now == 0) }
    {
        self.inner.is_empty()
    }

    pub fn as_slice(&self) -> &[T]
        ensures { result.now ≡ self.now }
    {
        self.inner.as_slice()
    }

    /// The vector of these elements, without taking memory.
    pub fn into_vec(self) -> Vec<T>
        ensures { result.items ≡ self }
    {
        self.inner
    }

    /// Adds an element at the end. Where memory is refused the list stays as it was and the element comes back.
    pub fn push(&mut self, value: T) -> Result<(), AllocFailed<T>>
        ensures ok { OnOk result (self.new ≡ self.old ++ value ∷ []) }
        ensures err { IfErr result (λ refused. (self.new ≡ self.old) × (refused.value ≡ value)) }
    {
        self.inner.push(value)
    }
}

impl<T: Copied + Drop> Copied for List<T> {
    ghost is_copy = { λ xs ys. AllZip T.is_copy xs ys };

    fn copy(&self, alloc: Global) -> Result<List<T>, NoMemory> {
        let mut copies = Vec::with_capacity(alloc, self.inner.len())?;
        for item in &self.inner {
            copies.push(item.copy(alloc)?)?;
        }
        Ok(List { inner: copies })
    }
}

impl<T: fmt::Debug> fmt::Debug for List<T> {
    fn fmt<W: fmt::Write>(&self, f: &mut fmt::Formatter<W>) -> fmt::Result {
        write!(f, "{:?}", self.as_slice())
    }
}
