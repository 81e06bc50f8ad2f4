ghost use Rattle.std.specs.Prelude.{◌≡◌};

use crate::copied::Copied;
use crate::memory::NoMemory;
use crate::names::Label;
use std::alloc::Global;

/// A file that a component needs, by its name, and its SHA-256 (FIPS 180-4) where the recipe gives one.
#[derive(Debug, Drop, PartialEq, Eq)]
pub struct Artifact {
    pub file: Label,
    pub digest: Option<[u8; 32]>,
}

impl Copied for Artifact {
    ghost is_copy = { λ t u. u ≡ t };

    fn copy(&self, alloc: Global) -> Result<Artifact, NoMemory> {
        Ok(Artifact {
            file: self.file.copy(alloc)?,
            digest: self.digest,
        })
    }
}
