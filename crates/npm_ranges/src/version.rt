ghost use Rattle.std.specs.Prelude.{◌≡◌, ◌≢◌, ◌↔◌, List, ℕ, Some, IsTrue, refl, nat_eq};
ghost use Rattle.std.specs.Cmp.Lexicographic.{pointwise, nat_list_eq_equiv};
ghost use Rattle.std.specs.Cmp;
ghost use Rattle.std.specs.Cmp.Rules.{hashing};
ghost use Rattle.std.specs.Hash as fed;
ghost use Rattle.std.proofs.Common.{rules};
ghost use Rattle.semver.specs.Identifiers.{parts_of};
ghost use Rattle.semver.specs.Parse.{memory_error};
ghost use Rattle.npm_ranges.specs.Versions.{IsVersion, IsParsed, parts_in, version_order, text_order};
ghost use Rattle.npm_ranges.specs.OrderLaws.{text_order_ties, text_po, text_total};
ghost use Rattle.npm_ranges.specs.Reading.{ReadsVersion};

use crate::fault::VersionFault;
use nuc_base::{Copied, NoMemory, Text};
use std::alloc::{AllocError, Global};
use std::cmp::Ordering;
use std::fmt;
use std::hash::{Hash, Hasher};
use std::marker::Model;

/// The most bytes of a version.
pub const VERSION_LIMIT: usize = 128;

/// A version of Semantic Versioning 2.0.0 of at most 128 bytes, whose three numbers are below 2^64; the numbers of a
/// pre-release have no bound of their own. It is seen as its text, and compared for equality and hashed by it. Its `Ord` is
/// `compare`, which ties at equal texts alone.
#[derive(Drop)]
pub struct Version {
    text: Text,
    parts: semver::Version,
}

impl Model for Version {
    ghost Value = { List ℕ };

    ghost view = { λ a. a.text };

    ghost invariant = { λ a. IsParsed a.text a.parts };
}

/// Whether it was memory that the reading wanted.
pub(crate) fn is_want_of_memory(error: semver::Error) -> bool
    ensures { IsTrue result ↔ (error ≡ memory_error) }
{
    error == semver::Error::from(AllocError)
}

fn fault_of(error: semver::Error) -> VersionFault
    ensures memory { error ≡ memory_error → result ≡ VersionFault.NoMemory }
    ensures other { error ≢ memory_error → result ≡ VersionFault.Bad }
{
    if is_want_of_memory(error) {
        VersionFault::NoMemory
    } else {
        VersionFault::Bad
    }
}

impl Version {
    /// Reads a version (Semantic Versioning 2.0.0, sections 2, 9 and 10). It is `Bad` exactly where the bytes are none.
    pub fn read(alloc: Global, bytes: &[u8]) -> Result<Version, VersionFault>
        ensures { ReadsVersion IsVersion bytes.now result }
    {
        if bytes.len() > VERSION_LIMIT {
            return Err(VersionFault::Bad);
        }
        let Ok(text) = str::from_utf8(bytes) else {
            return Err(VersionFault::Bad);
        };
        let parts = match semver::Version::parse(alloc, text) {
            Ok(parts) => parts,
            Err(error) => return Err(fault_of(error)),
        };
        match Text::from_str(alloc, text) {
            Ok(text) => Ok(Version { text, parts }),
            Err(_) => Err(VersionFault::NoMemory),
        }
    }

    /// The text as it was read.
    pub fn text(&self) -> &Text
        ensures value { result.now ≡ self.now }
        ensures rule { IsVersion self.now }
    {
        &self.text
    }

    /// The parts of its text.
    pub(crate) fn parts(&self) -> &semver::Version
        ensures { parts_of result.now ≡ parts_in self.now }
    {
        &self.parts
    }

    /// By precedence (Semantic Versioning 2.0.0, section 11), and where that ties by the bytes of the build text. It takes
    /// no memory.
    pub fn compare(&self, other: &Version) -> Ordering
        ensures { result ≡ version_order self.now other.now }
    {
        self.parts
            .cmp_precedence(&other.parts)
            .then(self.parts.build.as_str().cmp(other.parts.build.as_str()))
    }
}

impl Copied for Version {
    ghost is_copy = { λ t u. u ≡ t };

    fn copy(&self, alloc: Global) -> Result<Version, NoMemory> {
        Version::read(alloc, self.text.as_bytes()).map_err(|_| NoMemory)
    }
}

impl PartialEq for Version {
    ghost eq = { pointwise nat_eq };

    ghost laws = { Cmp.partial_equiv_from_equiv nat_list_eq_equiv };

    fn eq(&self, other: &Version) -> bool {
        self.text == other.text
    }
}

impl Eq for Version {
    ghost laws = { nat_list_eq_equiv };
}

impl PartialOrd for Version {
    ghost partial_cmp = { λ x y. Some (text_order x y) };

    ghost laws = { text_po };

    fn partial_cmp(&self, other: &Version) -> Option<Ordering> {
        Some(self.cmp(other))
    }
}

impl Ord for Version {
    ghost cmp = { text_order };

    ghost total = { text_total };

    ghost matches_partial_cmp = { λ x y. refl };

    ghost matches_eq = { text_order_ties };

    fn cmp(&self, other: &Version) -> Ordering {
        // That both are versions, where `compare` ties at equal texts alone, is known of the fields.
        let _ = &self.text;
        let _ = &other.text;
        self.compare(other)
    }
}

impl Hash for Version {
    ghost hash_input = { λ s. fed.str s };

    ghost respects_eq = { Prim.search (hashing, rules) };

    fn hash<H: Hasher>(&self, state: &mut H) {
        self.text.hash(state);
    }
}

impl fmt::Debug for Version {
    fn fmt<W: fmt::Write>(&self, f: &mut fmt::Formatter<W>) -> fmt::Result {
        write!(f, "{:?}", self.text.as_str())
    }
}

impl fmt::Display for Version {
    ghost output = { λ t. Some t };

    fn fmt<W: fmt::Write>(&self, f: &mut fmt::Formatter<W>) -> fmt::Result {
        f.write_str(self.text.as_str())
    }
}
