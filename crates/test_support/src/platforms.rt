ghost use Rattle.std.specs.Prelude.{◌≡◌, IfOk, codes};

use nuc_base::{Label, NameFault, Platform};
use std::alloc::Global;

/// Linux on a processor of 64 bits.
pub fn linux(alloc: Global) -> Result<Platform, NameFault>
    ensures { IfOk result (λ p. (p.os ≡ codes "linux") × (p.architecture ≡ codes "amd64")) }
{
    let os = Label::read(alloc, b"linux")?;
    match Label::read(alloc, b"amd64") {
        Ok(architecture) => Ok(Platform { os, architecture }),
        Err(fault) => Err(fault),
    }
}
