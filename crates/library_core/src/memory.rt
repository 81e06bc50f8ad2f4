ghost use Rattle.std.specs.Prelude.{◌≡◌, ◌<◌, ◌≤◌, ◌↔◌, [], ℕ, List, length, map, take, slice_index_or, Some, IfOk, IsErrOf};
ghost use Rattle.nuc_base.specs.Faults.{Rose};
ghost use Rattle.nuc_base.specs.Failing.{failing_numbers, calls_of, faults_of, IsCounted};

use crate::library::{Library, LibraryFault, Piece};
use crate::stored::{find, next_of, piece_of, prefix_of};
use npm_ranges::Version;
use nuc_base::{Bytes, Failing, Label, List, Name};
use std::alloc::Global;
use std::collections::VecDeque;

/// An artifact of a component in a version, with its bytes.
#[derive(Drop)]
pub struct Stored {
    pub name: Name,
    pub version: Version,
    pub file: Label,
    pub bytes: Bytes,
}

/// What a library in memory holds. Of several artifacts of one name, version and file the first counts.
#[derive(Drop)]
pub struct Contents {
    pub recipes: List<Bytes>,
    pub artifacts: List<Stored>,
}

/// A library in memory. It tells all, and fails exactly the calls that a list names, counted from 0; a refresh is none of
/// them.
#[derive(Drop)]
pub struct MemoryLibrary {
    held: Contents,
    /// What comes with the next refreshes.
    coming: Option<VecDeque<Contents>>,
    failing: Failing,
}

impl MemoryLibrary {
    ghost use Rattle.library_core.specs.Memory.{content_of, library_coming, library_content, library_failing};

    /// One that always holds the same.
    pub fn new(recipes: List<Bytes>, artifacts: List<Stored>, failing: List<u64>) -> MemoryLibrary
        ensures content { library_content result ≡ content_of (record { recipes = recipes; artifacts = artifacts }) }
        ensures coming { library_coming result ≡ [] }
        ensures failing { failing_numbers (library_failing result) ≡ failing }
        ensures calls { calls_of (library_failing result) ≡ 0 }
        ensures faults { faults_of (library_failing result) ≡ 0 }
    {
        MemoryLibrary {
            held: Contents { recipes, artifacts },
            coming: None,
            failing: Failing::new(failing),
        }
    }

    /// One that holds something else after each refresh, as long as something comes.
    pub fn changing(held: Contents, coming: List<Contents>, failing: List<u64>) -> MemoryLibrary
        ensures content { library_content result ≡ content_of held }
        ensures coming { library_coming result ≡ map content_of coming }
        ensures failing { failing_numbers (library_failing result) ≡ failing }
        ensures calls { calls_of (library_failing result) ≡ 0 }
        ensures faults { faults_of (library_failing result) ≡ 0 }
    {
        MemoryLibrary {
            held,
            coming: Some(VecDeque::from_vec(coming.into_vec())),
            failing: Failing::new(failing),
        }
    }
}

impl Library for MemoryLibrary {
    ghost use Rattle.library_core.specs.Library.{Artifacts, Content, StandsStill, StaysTold, IsRefreshed, most_given, IsPieceOf, IsWithin};
    ghost use Rattle.library_core.specs.Memory.{library_coming, library_content, library_failing, stored_in, IsListed};

    ghost content = { library_content };

    ghost coming = { λ m. Some (library_coming m) };

    ghost faults = { λ m. faults_of (library_failing m) };

    fn refresh(&mut self)
        ensures told { IsRefreshed (library_coming self.old) (library_content self.old) (library_content self.new) (Some (library_coming self.new)) }
        ensures quiet { faults_of (library_failing self.new) ≡ faults_of (library_failing self.old) }
        ensures uncounted { library_failing self.new ≡ library_failing self.old }
    {
        if let Some(next) = next_of(&mut self.coming) {
            self.held = next;
        }
    }

    fn count(&mut self, _alloc: Global) -> Result<u32, LibraryFault>
        ensures told { (rs : List (List ℕ)) → (library_content self.new).recipes ≡ Some rs → IfOk result (λ n. n ≡ length rs) }
        ensures kept { StaysTold library_content (λ m. Some (library_coming m)) self.old self.new }
        ensures cause { IsErrOf result LibraryFault.Failed → Rose (faults_of (library_failing self.old)) (faults_of (library_failing self.new)) }
        ensures quiet { ¬ (IsErrOf result LibraryFault.Failed) → faults_of (library_failing self.new) ≡ faults_of (library_failing self.old) }
        ensures later { faults_of (library_failing self.old) ≤ faults_of (library_failing self.new) }
        ensures listed { IsErrOf result LibraryFault.Failed ↔ IsListed (library_failing self.old) }
        ensures counted { IsCounted (library_failing self.old) (library_failing self.new) }
    {
        if self.failing.fails() {
            return Err(LibraryFault::Failed);
        }
        match u32::try_from(self.held.recipes.len()) {
            Ok(count) => Ok(count),
            Err(_) => Err(LibraryFault::NoMemory),
        }
    }

    fn recipe(&mut self, alloc: Global, at: u32) -> Result<Bytes, LibraryFault>
        requires { (rs : List (List ℕ)) → (library_content self.old).recipes ≡ Some rs → at < length rs }
        ensures told { (rs : List (List ℕ)) → (library_content self.old).recipes ≡ Some rs →
            IfOk result (λ bytes. bytes ≡ take most_given (slice_index_or rs at [])) }
        ensures short { IfOk result (λ bytes. length bytes ≤ most_given) }
        ensures kept { StandsStill library_content (λ m. Some (library_coming m)) self.old self.new }
        ensures cause { IsErrOf result LibraryFault.Failed → Rose (faults_of (library_failing self.old)) (faults_of (library_failing self.new)) }
        ensures quiet { ¬ (IsErrOf result LibraryFault.Failed) → faults_of (library_failing self.new) ≡ faults_of (library_failing self.old) }
        ensures later { faults_of (library_failing self.old) ≤ faults_of (library_failing self.new) }
        ensures listed { IsErrOf result LibraryFault.Failed ↔ IsListed (library_failing self.old) }
        ensures counted { IsCounted (library_failing self.old) (library_failing self.new) }
    {
        if self.failing.fails() {
            return Err(LibraryFault::Failed);
        }
        prefix_of(alloc, self.held.recipes.as_slice(), at as usize)
    }

    fn artifact(
        &mut self,
        _alloc: Global,
        name: &Name,
        version: &Version,
        file: &Label,
        from: u64,
        into: &mut [u8],
    ) -> Result<Piece, LibraryFault>
        ensures told { (files : Artifacts) → (library_content self.old).artifacts ≡ Some files →
            IfOk result (IsPieceOf (files name.now version.now file.now) from into.old into.new) }
        ensures bound { IfOk result (IsWithin (length into.old)) }
        ensures kept { StandsStill library_content (λ m. Some (library_coming m)) self.old self.new }
        ensures cause { IsErrOf result LibraryFault.Failed → Rose (faults_of (library_failing self.old)) (faults_of (library_failing self.new)) }
        ensures quiet { ¬ (IsErrOf result LibraryFault.Failed) → faults_of (library_failing self.new) ≡ faults_of (library_failing self.old) }
        ensures later { faults_of (library_failing self.old) ≤ faults_of (library_failing self.new) }
        ensures listed { IsErrOf result LibraryFault.Failed ↔ IsListed (library_failing self.old) }
        ensures counted { IsCounted (library_failing self.old) (library_failing self.new) }
    {
        if self.failing.fails() {
            return Err(LibraryFault::Failed);
        }
        Ok(piece_of(
            find(self.held.artifacts.as_slice(), name, version, file),
            from,
            into,
        ))
    }
}
