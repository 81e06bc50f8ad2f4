//! The text of a certificate, which is written line by line.

ghost use Rattle.std.specs.Prelude.{◌≡◌, ◌∷◌, ◌+◌, ◌*◌, ◌<◌, ◌≤◌, ◌^◌, OnOk};
ghost use Rattle.std.specs.List.{flat_map};
ghost use Rattle.nuc_base.specs.Faults.{HasCause};
ghost use Rattle.edges.specs.Pieces.{WriteOutcome, joined};
ghost use Rattle.recipe_reader.specs.Members.{members};
ghost use Rattle.why_not.specs.Reasons.{nodes, branch_nodes, seen, branches_seen};
ghost use Rattle.why_not.specs.Texts.{indent, name_text, version_text, line, split_line, try_line, refused_line, loop_line};
ghost use Rattle.why_not.specs.Texts.{reason_lines, branch_lines, joined_lines, why_bytes};

use crate::why::Why;
use edges::{EdgeFault, Sink, write_all, write_pieces};
use itoa::Buffer;
use nuc_base::Name;
use recipe_reader::{Candidate, Candidates};

/// How many levels' blanks are written at once.
const LEVELS: usize = 32;

/// Two blanks for each level.
fn write_indent<K: Sink>(sink: &mut K, level: usize) -> Result<(), EdgeFault>
    ensures bytes { WriteOutcome (K.held sink.old) (K.held sink.new) (indent level) result }
    ensures cause { HasCause (K.faults sink.old) (K.faults sink.new) result }
    ensures quiet { OnOk result (K.faults sink.new ≡ K.faults sink.old) }
{
    let blanks = [b' '; 2 * LEVELS];
    let mut left = level;
    while left > 0 {
        let count = left.min(LEVELS);
        write_all(sink, &blanks[..2 * count])?;
        left -= count;
    }
    Ok(())
}

/// A line at that level.
fn write_line<K: Sink>(sink: &mut K, level: usize, pieces: &[&str]) -> Result<(), EdgeFault>
    ensures bytes { WriteOutcome (K.held sink.old) (K.held sink.new) (line level (joined pieces.now)) result }
    ensures cause { HasCause (K.faults sink.old) (K.faults sink.new) result }
    ensures quiet { OnOk result (K.faults sink.new ≡ K.faults sink.old) }
{
    write_indent(sink, level)?;
    write_pieces(sink, pieces)?;
    write_pieces(sink, &["\n"])
}

/// The name at the place, or nothing where no candidate stands.
fn name_at(candidates: &[Candidate], place: u32) -> &str
    ensures { result.now ≡ name_text (members candidates.now) place }
{
    match candidates.get(place as usize) {
        Some(candidate) => candidate.recipe.name.as_str(),
        None => "",
    }
}

/// The version at the place, or nothing where no candidate stands.
fn version_at(candidates: &[Candidate], place: u32) -> &str
    ensures { result.now ≡ version_text (members candidates.now) place }
{
    match candidates.get(place as usize) {
        Some(candidate) => candidate.recipe.version.text().as_str(),
        None => "",
    }
}

fn write_split<K: Sink>(
    sink: &mut K,
    level: usize,
    name: &Name,
    count: usize,
) -> Result<(), EdgeFault>
    ensures bytes { WriteOutcome (K.held sink.old) (K.held sink.new) (split_line level name.now count) result }
    ensures cause { HasCause (K.faults sink.old) (K.faults sink.new) result }
    ensures quiet { OnOk result (K.faults sink.new ≡ K.faults sink.old) }
{
    let mut digits = Buffer::new();
    write_line(
        sink,
        level,
        &["split ", name.as_str(), " ", digits.format(count)],
    )
}

fn write_try<K: Sink>(
    sink: &mut K,
    candidates: &[Candidate],
    level: usize,
    place: u32,
) -> Result<(), EdgeFault>
    ensures bytes { WriteOutcome (K.held sink.old) (K.held sink.new) (try_line (members candidates.now) level place) result }
    ensures cause { HasCause (K.faults sink.old) (K.faults sink.new) result }
    ensures quiet { OnOk result (K.faults sink.new ≡ K.faults sink.old) }
{
    let name = name_at(candidates, place);
    let version = version_at(candidates, place);
    write_line(sink, level, &["try ", name, " ", version])
}

fn write_refused<K: Sink>(
    sink: &mut K,
    candidates: &[Candidate],
    level: usize,
    place: u32,
    by: Option<u32>,
) -> Result<(), EdgeFault>
    ensures bytes { WriteOutcome (K.held sink.old) (K.held sink.new) (refused_line (members candidates.now) level place by) result }
    ensures cause { HasCause (K.faults sink.old) (K.faults sink.new) result }
    ensures quiet { OnOk result (K.faults sink.new ≡ K.faults sink.old) }
{
    let name = name_at(candidates, place);
    let version = version_at(candidates, place);
    match by {
        None => write_line(sink, level, &["refused ", name, " ", version, " by wanted"]),
        Some(other) => {
            let by_name = name_at(candidates, other);
            let by_version = version_at(candidates, other);
            let pieces = [
                "refused ", name, " ", version, " by ", by_name, " ", by_version,
            ];
            write_line(sink, level, &pieces)
        }
    }
}

/// A blank and the name of each place.
fn write_names<K: Sink>(
    sink: &mut K,
    candidates: &[Candidate],
    places: &[u32],
) -> Result<(), EdgeFault>
    ensures bytes { WriteOutcome (K.held sink.old) (K.held sink.new) (flat_map (λ p. 32 ∷ name_text (members candidates.now) p) places.now) result }
    ensures cause { HasCause (K.faults sink.old) (K.faults sink.new) result }
    ensures quiet { OnOk result (K.faults sink.new ≡ K.faults sink.old) }
{
    for place in places {
        write_pieces(sink, &[" ", name_at(candidates, *place)])?;
    }
    Ok(())
}

fn write_loop<K: Sink>(
    sink: &mut K,
    candidates: &[Candidate],
    level: usize,
    places: &[u32],
) -> Result<(), EdgeFault>
    ensures bytes { WriteOutcome (K.held sink.old) (K.held sink.new) (loop_line (members candidates.now) level places.now) result }
    ensures cause { HasCause (K.faults sink.old) (K.faults sink.new) result }
    ensures quiet { OnOk result (K.faults sink.new ≡ K.faults sink.old) }
{
    write_indent(sink, level)?;
    write_pieces(sink, &["loop"])?;
    write_names(sink, candidates, places)?;
    write_pieces(sink, &["\n"])
}

/// The lines of a reason at that level.
#[cycle(writes)]
fn write_reason<K: Sink>(
    sink: &mut K,
    candidates: &[Candidate],
    level: usize,
    why: &Why,
) -> Result<(), EdgeFault>
    requires small { level + 2 * nodes (seen why.now) < 2 ^ 64 }
    ensures bytes { WriteOutcome (K.held sink.old) (K.held sink.new) (joined_lines (reason_lines (members candidates.now) level (seen why.now))) result }
    ensures cause { HasCause (K.faults sink.old) (K.faults sink.new) result }
    ensures quiet { OnOk result (K.faults sink.new ≡ K.faults sink.old) }
{
    match why {
        Why::Split(name, branches) => {
            write_split(sink, level, name, branches.len())?;
            write_branches(sink, candidates, level + 1, branches)
        }
        Why::Refused(place, by) => write_refused(sink, candidates, level, *place, *by),
        Why::Loop(places) => write_loop(sink, candidates, level, places.as_slice()),
    }
}

/// The lines of the branches of a split, each with those of its reason.
#[cycle(writes)]
fn write_branches<K: Sink>(
    sink: &mut K,
    candidates: &[Candidate],
    level: usize,
    branches: &Vec<(u32, Why)>,
) -> Result<(), EdgeFault>
    requires small { level + 1 + 2 * branch_nodes (branches_seen branches.now.items) < 2 ^ 64 }
    ensures bytes { WriteOutcome (K.held sink.old) (K.held sink.new)
        (joined_lines (branch_lines (members candidates.now) level (branches_seen branches.now.items)))
        result }
    ensures cause { HasCause (K.faults sink.old) (K.faults sink.new) result }
    ensures quiet { OnOk result (K.faults sink.new ≡ K.faults sink.old) }
{
    for (place, why) in branches {
        write_try(sink, candidates, level, *place)?;
        write_reason(sink, candidates, level + 1, why)?;
    }
    Ok(())
}

/// Writes the text of a certificate, from its root down: a line for each split, branch and leaf, with two blanks before it for
/// each level. A split has its name and the count of its branches, a branch and a leaf the name and the version of their
/// places, and a loop the names of its places. It takes no memory.
pub fn write_why<K: Sink>(sink: &mut K, candidates: &Candidates, why: &Why) -> Result<(), EdgeFault>
    requires small { nodes (seen why.now) < 2 ^ 32 }
    ensures bytes { WriteOutcome (K.held sink.old) (K.held sink.new) (why_bytes (members candidates.now) (seen why.now)) result }
    ensures cause { HasCause (K.faults sink.old) (K.faults sink.new) result }
    ensures quiet { OnOk result (K.faults sink.new ≡ K.faults sink.old) }
{
    write_reason(sink, candidates.list().as_slice(), 0, why)
}
