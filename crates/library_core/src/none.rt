ghost use Rattle.std.specs.Prelude.{◌≡◌, ◌≤◌, [], ℕ, List, length, take, slice_index_or, Some, IfOk, IsErrOf};
ghost use Rattle.nuc_base.specs.Faults.{Rose};
ghost use Rattle.library_core.specs.Nothing.{no_content};

use crate::library::{Library, LibraryFault, Piece};
use npm_ranges::Version;
use nuc_base::{Bytes, Label, Name};
use std::alloc::Global;

/// A library without recipes and artifacts. It tells all, takes no memory and never fails.
#[derive(Clone, Copy, Debug, Drop, PartialEq, Eq)]
pub struct NoLibrary;

impl Library for NoLibrary {
    ghost use Rattle.library_core.specs.Library.{Artifacts, Content, StandsStill, StaysTold, IsRefreshed, most_given, IsPieceOf, IsWithin};
    ghost use Rattle.library_core.specs.Nothing.{no_content};

    ghost content = { λ _. no_content };

    ghost coming = { λ _. Some [] };

    ghost faults = { λ _. 0 };

    fn refresh(&mut self) {}

    fn count(&mut self, _alloc: Global) -> Result<u32, LibraryFault> {
        Ok(0)
    }

    fn recipe(&mut self, alloc: Global, _at: u32) -> Result<Bytes, LibraryFault>
        ensures told { (rs : List (List ℕ)) → no_content.recipes ≡ Some rs → IfOk result (λ bytes. bytes ≡ take most_given (slice_index_or rs _at [])) }
        ensures short { IfOk result (λ bytes. length bytes ≤ most_given) }
        ensures never { ¬ (IsErrOf result LibraryFault.Failed) }
    {
        Ok(Bytes::empty(alloc))
    }

    fn artifact(
        &mut self,
        _alloc: Global,
        _name: &Name,
        _version: &Version,
        _file: &Label,
        _from: u64,
        _into: &mut [u8],
    ) -> Result<Piece, LibraryFault> {
        Ok(Piece::Missing)
    }
}
