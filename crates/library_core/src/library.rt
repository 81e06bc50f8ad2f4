ghost use Rattle.std.specs.Prelude.{◌≡◌, ◌<◌, ◌≤◌, [], IsTrue, ℕ, List, length, take, slice_index_or, Some, IsSome, IfSome, IfOk, IsErrOf};
ghost use Rattle.std.specs.declared.option.Option.{Option};
ghost use Rattle.nuc_base.specs.Faults.{Rose};

use npm_ranges::Version;
use nuc_base::{Bytes, Label, Name};
use std::alloc::Global;

/// Why a library gave nothing.
#[derive(Clone, Copy, Debug, Drop, PartialEq, Eq)]
pub enum LibraryFault {
    Failed,
    NoMemory,
}

/// What a library gave of an artifact.
#[derive(Clone, Copy, Debug, Drop, PartialEq, Eq)]
pub enum Piece {
    /// There is no such artifact.
    Missing,
    /// So many bytes stand at the beginning of the slice. None in a slice that is not empty is the end.
    Bytes(usize),
}

/// Where recipes and artifacts come from. What it holds holds still from one `refresh` to the next. What it tells of that
/// stays told; recipes that are not told may be told by a `count`. A call answers that it failed where the count of faults
/// rose, and else not.
pub trait Library {
    ghost use Rattle.library_core.specs.Library.{Artifacts, Content, StandsStill, StaysTold, IsRefreshed, most_given, IsPieceOf, IsWithin};

    /// What it tells of what it holds.
    ghost content: { Self → Content };

    /// What it holds after the next refreshes, one after another, where that is told.
    ghost coming: { Self → Option (List Content) };

    /// How often it has failed.
    ghost faults: { Self → ℕ };

    /// Lets what it holds be another from now on. It takes no memory and never fails.
    fn refresh(&mut self)
        ensures told { IfSome (coming self.old) (λ next. IsRefreshed next (content self.old) (content self.new) (coming self.new)) }
        ensures tells { (content self.new).tells ≡ (content self.old).tells }
        ensures quiet { faults self.new ≡ faults self.old };

    /// How many recipes there are.
    fn count(&mut self, alloc: Global) -> Result<u32, LibraryFault>
        ensures told { (rs : List (List ℕ)) → (content self.new).recipes ≡ Some rs → IfOk result (λ n. n ≡ length rs) }
        ensures tells { IsTrue (content self.new).tells → IfOk result (λ _. IsSome (content self.new).recipes) }
        ensures kept { StaysTold content coming self.old self.new }
        ensures cause { IsErrOf result LibraryFault.Failed → Rose (faults self.old) (faults self.new) }
        ensures quiet { ¬ (IsErrOf result LibraryFault.Failed) → faults self.new ≡ faults self.old }
        ensures later { faults self.old ≤ faults self.new };

    /// The bytes of a recipe, or its first 65,537.
    fn recipe(&mut self, alloc: Global, at: u32) -> Result<Bytes, LibraryFault>
        requires { (rs : List (List ℕ)) → (content self.old).recipes ≡ Some rs → at < length rs }
        ensures told { (rs : List (List ℕ)) → (content self.old).recipes ≡ Some rs →
            IfOk result (λ bytes. bytes ≡ take most_given (slice_index_or rs at [])) }
        ensures short { IfOk result (λ bytes. length bytes ≤ most_given) }
        ensures kept { StandsStill content coming self.old self.new }
        ensures cause { IsErrOf result LibraryFault.Failed → Rose (faults self.old) (faults self.new) }
        ensures quiet { ¬ (IsErrOf result LibraryFault.Failed) → faults self.new ≡ faults self.old }
        ensures later { faults self.old ≤ faults self.new };

    /// Bytes of an artifact from that place on.
    fn artifact(
        &mut self,
        alloc: Global,
        name: &Name,
        version: &Version,
        file: &Label,
        from: u64,
        into: &mut [u8],
    ) -> Result<Piece, LibraryFault>
        ensures told { (files : Artifacts) → (content self.old).artifacts ≡ Some files →
            IfOk result (IsPieceOf (files name.now version.now file.now) from into.old into.new) }
        ensures bound { IfOk result (IsWithin (length into.old)) }
        ensures kept { StandsStill content coming self.old self.new }
        ensures cause { IsErrOf result LibraryFault.Failed → Rose (faults self.old) (faults self.new) }
        ensures quiet { ¬ (IsErrOf result LibraryFault.Failed) → faults self.new ≡ faults self.old }
        ensures later { faults self.old ≤ faults self.new };
}
