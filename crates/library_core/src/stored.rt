// Parts of what a library in memory holds.
ghost use Rattle.std.specs.Prelude.{◌≡◌, ◌<◌, ◌≤◌, [], length, take, slice_index_or, option_map, IfOk, IfErr};
ghost use Rattle.library_core.specs.Library.{most_given, IsPart, IsPieceOf, IsWithin};
ghost use Rattle.library_core.specs.Memory.{listed, is_stored, stored_in, IsNext};

use crate::library::{LibraryFault, Piece};
use crate::memory::{Contents, Stored};
use npm_ranges::Version;
use nuc_base::{Bytes, Label, Name, copy_prefix};
use std::alloc::Global;
use std::collections::VecDeque;

/// The most bytes of a recipe that a call gives: one more than a recipe may have.
const MOST_GIVEN: usize = 65_537;

fn is_that(stored: &Stored, name: &Name, version: &Version, file: &Label) -> bool
    ensures { result ≡ is_stored name.now version.now file.now stored.now }
{
    stored.name == *name && stored.version == *version && stored.file == *file
}

/// The bytes of the first artifact of this name, version and file.
pub(crate) fn find<'a>(
    stored: &'a [Stored],
    name: &Name,
    version: &Version,
    file: &Label,
) -> Option<&'a Bytes>
    ensures { option_map (λ b. b.now) result ≡ stored_in stored.now name.now version.now file.now }
{
    for one in stored {
        if is_that(one, name, version, file) {
            return Some(&one.bytes);
        }
    }
    None
}

/// Takes the first of what comes.
pub(crate) fn next_of(coming: &mut Option<VecDeque<Contents>>) -> Option<Contents>
    ensures { IsNext (listed (option_map (λ q. q.items) coming.old)) result (listed (option_map (λ q. q.items) coming.new)) }
{
    match coming {
        Some(coming) => coming.pop_front(),
        None => None,
    }
}

/// Copies what there is from that place on, up to the slice.
fn copy_part(bytes: &[u8], from: u64, into: &mut [u8]) -> usize
    ensures part { IsPart bytes.now from into.old into.new result }
    ensures bound { result ≤ length into.old }
{
    let start = (from.min(bytes.len() as u64)) as usize;
    copy_prefix(&bytes[start..], into)
}

/// A copy of the recipe at that place, or of its first bytes.
pub(crate) fn prefix_of(alloc: Global, recipes: &[Bytes], at: usize) -> Result<Bytes, LibraryFault>
    requires { at < length recipes.now }
    ensures answers { IfOk result (λ bytes. bytes ≡ take most_given (slice_index_or recipes.now at [])) }
    ensures short { IfOk result (λ bytes. length bytes ≤ most_given) }
    ensures fault { IfErr result (λ fault. fault ≡ LibraryFault.NoMemory) }
{
    let bytes = recipes[at].as_slice();
    let count = bytes.len().min(MOST_GIVEN);
    match Bytes::from_slice(alloc, &bytes[..count]) {
        Ok(bytes) => Ok(bytes),
        Err(_) => Err(LibraryFault::NoMemory),
    }
}

pub(crate) fn piece_of(found: Option<&Bytes>, from: u64, into: &mut [u8]) -> Piece
    ensures answers { IsPieceOf (option_map (λ b. b.now) found.entry) from into.old into.new result }
    ensures bound { IsWithin (length into.old) result }
{
    match found {
        Some(bytes) => Piece::Bytes(copy_part(bytes.as_slice(), from, into)),
        None => Piece::Missing,
    }
}
