ghost use Rattle.std.specs.Prelude.{◌≡◌, ◌≤◌, List, ℕ, IfOk, IsErrOf};
ghost use Rattle.std.specs.declared.option.Option.{Option};
ghost use Rattle.nuc_base.specs.Faults.{Rose};
ghost use Rattle.folders.specs.History.{Event, Saw, IsUntouched};
ghost use Rattle.folders.specs.Calls.{IsListing, Opens, IsShort};

use crate::identity::Identity;
use nuc_base::{Bytes, List};
use std::alloc::Global;

/// Why a folder gave nothing.
#[derive(Clone, Copy, Debug, Drop, PartialEq, Eq)]
pub enum FolderFault {
    Failed,
    NoMemory,
}

/// A file that was opened: which it is, and its first bytes.
#[derive(Debug, Drop)]
pub struct Opened {
    pub identity: Identity,
    pub bytes: Bytes,
}

/// A folder of files that is read, in which others put, replace and remove what they like, before and in the midst of each
/// call. Where it tells, it tells the history: at which contents the calls looked. A name is any bytes but a slash and a zero.
pub trait Folder {
    /// What was seen in it so far, where that is told. It only grows.
    ghost history: { Self → Option (List Event) };

    /// How often it could not be listed.
    ghost faults: { Self → ℕ };

    /// How often a file that is there could not be opened or read.
    ghost missed: { Self → ℕ };

    /// The names of all that stands in it, in any order. One that stands during the whole call is among them.
    fn list(&mut self, alloc: Global) -> Result<List<Bytes>, FolderFault>
        ensures told { Saw (history self.old) (history self.new) (λ found. IsUntouched found × IfOk result (IsListing found)) }
        ensures cause { IsErrOf result FolderFault.Failed → Rose (faults self.old) (faults self.new) }
        ensures quiet { ¬ (IsErrOf result FolderFault.Failed) → faults self.new ≡ faults self.old }
        ensures later { faults self.old ≤ faults self.new }
        ensures others { missed self.new ≡ missed self.old };

    /// Opens the plain file of this name and reads its first bytes. Where something else stands there, or nothing, the answer
    /// is `None`; where the file can't be opened or read now it is `Failed`.
    fn open(
        &mut self,
        alloc: Global,
        name: &[u8],
        most: usize,
    ) -> Result<Option<Opened>, FolderFault>
        ensures told { Saw (history self.old) (history self.new) (λ found. IsUntouched found × Opens name.now most found result) }
        ensures short { IfOk result (IsShort most) }
        ensures cause { IsErrOf result FolderFault.Failed → Rose (missed self.old) (missed self.new) }
        ensures quiet { ¬ (IsErrOf result FolderFault.Failed) → missed self.new ≡ missed self.old }
        ensures later { missed self.old ≤ missed self.new }
        ensures others { faults self.new ≡ faults self.old };
}
