ghost use Rattle.std.specs.Prelude.{◌≡◌, ◌↔◌, List, ℕ, IsTrue, Some, nat_eq};
ghost use Rattle.std.specs.Cmp;
ghost use Rattle.std.specs.Cmp.Lexicographic.{pointwise, nat_list_eq_equiv};
ghost use Rattle.npm_ranges.specs.Ranges.{IsRange, IsInRange};
ghost use Rattle.npm_ranges.specs.Reading.{ReadsRange};

use crate::comparator::{Comparator, meets_any};
use crate::fault::RangeFault;
use crate::read::{are_few, sets_in};
use crate::version::Version;
use nuc_base::{Copied, NoMemory, Text};
use std::alloc::Global;
use std::fmt;
use std::marker::Model;

/// The most bytes of a range.
pub const RANGE_LIMIT: usize = 4096;

/// A range of versions in the language of npm's ranges, seen as its text.
///
/// A range is one set or several joined by `||`. A set is nothing, which is `*`; or `low - high`, with blanks round the
/// hyphen, which is `>=low <=high`; or comparators with blanks between. A comparator is a partial, or one of `<` `<=` `>`
/// `>=` `=` `~` `^` and a partial, with or without blanks between. A partial is an optional `v` and one to three parts
/// joined by `.`, each `x`, `X`, `*` or a number below 2^64 without leading zeros; three numbers may be followed by a
/// pre-release and build text. Blanks are spaces and tabs.
///
/// A version meets a range where it meets each comparator of one of its sets, and, if it has a pre-release, one of them
/// has a pre-release and the same three numbers.
#[derive(Drop)]
pub struct Range {
    text: Text,
    sets: Vec<Vec<Comparator>>,
}

impl Model for Range {
    ghost use Rattle.std.specs.Prelude.{List, ℕ};

    ghost Value = { List ℕ };

    ghost view = { λ a. a.text };

    ghost use Rattle.npm_ranges.specs.Views.{IsWritten};

    ghost invariant = { λ a. IsWritten a.text a.sets.items };
}

impl Range {
    /// Reads a range. It is `Bad` exactly where the bytes are more than 4,096 or no case of the grammar reads them, and
    /// `TooManyParts` exactly where they are read and have more than 32 comparators: a hyphen range has two, and the empty set one.
    pub fn read(alloc: Global, bytes: &[u8]) -> Result<Range, RangeFault>
        ensures { ReadsRange bytes.now result }
    {
        if bytes.len() > RANGE_LIMIT {
            return Err(RangeFault::Bad);
        }
        let sets = sets_in(alloc, bytes)?;
        if !are_few(sets.as_slice()) {
            return Err(RangeFault::TooManyParts);
        }
        let Ok(text) = str::from_utf8(bytes) else {
            return Err(RangeFault::Bad);
        };
        let text = Text::from_str(alloc, text)?;
        Ok(Range { text, sets })
    }

    /// Whether the version meets the range. It takes no memory, and compares a few numbers for each comparator.
    pub fn holds(&self, version: &Version) -> bool
        ensures { IsTrue result ↔ IsInRange version.now self.now }
    {
        meets_any(version.parts(), self.sets.as_slice())
    }

    /// The text as it was written.
    pub fn text(&self) -> &Text
        ensures value { result.now ≡ self.now }
        ensures rule { IsRange self.now }
    {
        &self.text
    }
}

impl Copied for Range {
    ghost is_copy = { λ t u. u ≡ t };

    fn copy(&self, alloc: Global) -> Result<Range, NoMemory> {
        Range::read(alloc, self.text.as_bytes()).map_err(|_| NoMemory)
    }
}

impl PartialEq for Range {
    ghost eq = { pointwise nat_eq };

    ghost laws = { Cmp.partial_equiv_from_equiv nat_list_eq_equiv };

    fn eq(&self, other: &Range) -> bool {
        self.text == other.text
    }
}

impl Eq for Range {
    ghost laws = { nat_list_eq_equiv };
}

impl fmt::Debug for Range {
    fn fmt<W: fmt::Write>(&self, f: &mut fmt::Formatter<W>) -> fmt::Result {
        write!(f, "{:?}", self.text.as_str())
    }
}

impl fmt::Display for Range {
    ghost output = { λ t. Some t };

    fn fmt<W: fmt::Write>(&self, f: &mut fmt::Formatter<W>) -> fmt::Result {
        f.write_str(self.text.as_str())
    }
}
