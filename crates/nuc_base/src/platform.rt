ghost use Rattle.std.specs.Prelude.{◌≡◌};

use crate::copied::Copied;
use crate::memory::NoMemory;
use crate::names::Label;
use std::alloc::Global;

/// What a device runs on, as recipes name it: `linux` and `amd64`, for example.
#[derive(Debug, Drop, PartialEq, Eq)]
pub struct Platform {
    pub os: Label,
    pub architecture: Label,
}

impl Copied for Platform {
    ghost is_copy = { λ t u. u ≡ t };

    fn copy(&self, alloc: Global) -> Result<Platform, NoMemory> {
        Ok(Platform {
            os: self.os.copy(alloc)?,
            architecture: self.architecture.copy(alloc)?,
        })
    }
}
