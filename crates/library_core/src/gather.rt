ghost use Rattle.std.specs.Prelude.{◌≡◌, ◌≤◌, IsTrue, ℕ, List, length, map, Some, IsSome, IfOk, IsErrOf, All};
ghost use Rattle.nuc_base.specs.Faults.{Rose};
ghost use Rattle.records.specs.Stored.{item_view};
ghost use Rattle.library_core.specs.Library.{StaysTold};
ghost use Rattle.library_core.specs.Sources.{IsKept};
ghost use Rattle.library_core.specs.Gathered.{IsGatheredOf, KeepBytes};
ghost use Rattle.library_core.specs.Faults.{Gathered, AreCounted};

use crate::fault::CandidatesFault;
use crate::kept::own_candidates;
use crate::library::Library;
use crate::taken::take_in;
use nuc_base::List;
use recipe_reader::Candidates;
use records::{Item, Origin};
use std::alloc::Global;

/// The most recipes of a library.
const MOST: u32 = 1024;

/// The candidates of a device: the built-in component, the recipes of the kept items, and those of the library that
/// are for the device's platform and not of the built-in component's name.
///
/// The first of these refusals answers: the library has more than 1,024 recipes; by index the first of them with a
/// fault other than `NoManifest`; the first kept item that clashes with the built-in component or with an earlier item;
/// by index the first recipe that clashes with what the device has or with an earlier recipe. Two clash where they have
/// the same name and version and different bytes. `Library` answers at the call that fails. Also where a library tells
/// nothing the candidates are gathered from the recipes that it gave.
pub fn candidates<L: Library>(
    alloc: Global,
    library: &mut L,
    origin: &Origin,
    kept: &List<Item>,
) -> Result<Candidates, CandidatesFault>
    requires few { length kept.now ≤ 128 }
    requires read { All (IsKept origin.now.platform) (map item_view kept.now) }
    // By the recipes that are told after the call, which are those that were told before it.
    ensures gathered { (rs : List (List ℕ)) → (L.content library.new).recipes ≡ Some rs → Gathered rs origin.now (map item_view kept.now) result }
    ensures tells { IsTrue (L.content library.new).tells → AreCounted result → IsSome (L.content library.new).recipes }
    ensures read { IfOk result (IsGatheredOf origin.now (map item_view kept.now)) }
    ensures kept_bytes { IfOk result (KeepBytes (map item_view kept.now)) }
    ensures kept { StaysTold L.content L.coming library.old library.new }
    ensures cause { IsErrOf result CandidatesFault.Library → Rose (L.faults library.old) (L.faults library.new) }
    ensures quiet { ¬ (IsErrOf result CandidatesFault.Library) → L.faults library.new ≡ L.faults library.old }
    ensures later { L.faults library.old ≤ L.faults library.new }
{
    let count = library.count(alloc)?;
    if count > MOST {
        return Err(CandidatesFault::TooManyRecipes(count));
    }
    let mut gathered = own_candidates(alloc, origin, kept);
    for at in 0..count {
        let bytes = library.recipe(alloc, at)?;
        gathered = take_in(alloc, origin, kept, at, bytes, gathered)?;
    }
    gathered
}
