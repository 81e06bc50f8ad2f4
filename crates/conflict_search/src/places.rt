//! What stands at the places of the candidates.

ghost use Rattle.std.specs.Prelude.{◌≡◌, ◌↔◌, ◌<◌, Some, length, map, IsTrue};
ghost use Rattle.recipe_reader.specs.Members.{members, need};
ghost use Rattle.recipe_reader.specs.Sets.{name_of, version_of, needs_of};

use npm_ranges::Version;
use nuc_base::Name;
use recipe_reader::{Candidate, Dependency};

pub(crate) fn name_at(candidates: &[Candidate], place: u32) -> &Name
    requires { place < length candidates.now }
    ensures { name_of (members candidates.now) place ≡ Some result.now }
{
    &candidates[place as usize].recipe.name
}

pub(crate) fn version_at(candidates: &[Candidate], place: u32) -> &Version
    requires { place < length candidates.now }
    ensures { version_of (members candidates.now) place ≡ Some result.now }
{
    &candidates[place as usize].recipe.version
}

/// What the candidate depends on.
pub(crate) fn needs_at(candidates: &[Candidate], place: u32) -> &[Dependency]
    requires { place < length candidates.now }
    ensures { map need result.now ≡ needs_of (members candidates.now) place }
{
    candidates[place as usize].recipe.dependencies.as_slice()
}

pub(crate) fn is_same(name: &Name, other: &Name) -> bool
    ensures { IsTrue result ↔ (name.now ≡ other.now) }
{
    name.as_bytes() == other.as_bytes()
}
