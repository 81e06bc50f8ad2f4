// Why no version exists.
ghost use Rattle.std.specs.Prelude.{◌≤◌};
ghost use Rattle.why_not.specs.Reasons.{nodes, seen};

use recipe_reader::Candidates;
use why_not::Why;

/// A certificate that no set of the candidates is valid, of no more nodes than `explain` gives.
#[derive(Drop)]
pub struct Explanation {
    pub candidates: Candidates,
    pub why: Why,
    ghost small: { nodes (seen why) ≤ 65536 },
}
