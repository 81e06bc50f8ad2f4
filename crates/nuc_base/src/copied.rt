ghost use Rattle.std.specs.Prelude.{IfOk};

use crate::memory::NoMemory;
use std::alloc::Global;

/// A value that can be made again where memory allows.
pub trait Copied {
    /// The second is seen as the first is. For types that contracts see as a list, a number or a record
    /// this is equality; a tree's copy is seen as the same JSON value.
    ghost is_copy: { Self → Self → Type 0 };

    fn copy(&self, alloc: Global) -> Result<Self, NoMemory>
        ensures { IfOk result (λ v. is_copy self.now v) };
}
