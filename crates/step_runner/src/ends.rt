//! The ends that a runner in memory plays.
ghost use Rattle.std.specs.Prelude.{◌≡◌, ◌≤◌, ◌<◌, ◌+◌, ◌↔◌, ℕ, List, All, Contains, IsTrue, IfSome, IfNone, option_map};
ghost use Rattle.step_runner.specs.Entries.{without};
ghost use Rattle.step_runner.specs.Ends.{ComesNext, NoneIsDue, IsDue, IsAt, BestAmong};
ghost use Rattle.step_runner.specs.declared.ends.ScriptedEnd.{ScriptedEnd};

use nuc_base::Exit;

/// A child ends so at this moment, or as soon after it as one waits.
#[derive(Clone, Copy, Debug, PartialEq, Eq)]
pub struct ScriptedEnd {
    pub child: u64,
    pub exit: Exit,
    pub at: u64,
}

/// Takes a child out of those that live. The others stay in their order.
pub fn forget_child(living: &mut Vec<u64>, child: u64)
    ensures left { living.new.items ≡ without child living.old.items }
    ensures below { (n : ℕ) → All (λ (c : ℕ). c < n) living.old.items → All (λ (c : ℕ). c < n) living.new.items }
{
    living.retain(|x| *x != child);
}

fn is_due(living: &[u64], end: &ScriptedEnd, until: u64) -> bool
    ensures { IsTrue result ↔ IsDue living.now until end.now }
{
    end.at <= until && living.contains(&end.child)
}

/// The end at this place where it comes before the one that was found, else that one.
fn better_of(
    living: &[u64],
    until: u64,
    found: Option<(usize, u64)>,
    k: usize,
    end: &ScriptedEnd,
) -> Option<(usize, u64)>
    ensures { (ends : List ScriptedEnd) → IsAt ends k end.now → BestAmong living.now until ends k found → BestAmong living.now until ends (k + 1) result }
{
    if !is_due(living, end, until) {
        return found;
    }
    match found {
        Some((at, least)) => {
            if end.at < least {
                Some((k, end.at))
            } else {
                Some((at, least))
            }
        }
        None => Some((k, end.at)),
    }
}

/// The place of the end that comes next.
pub(crate) fn next_end(ends: &[ScriptedEnd], living: &[u64], until: u64) -> Option<usize>
    ensures found { IfSome result (λ k. (end : ScriptedEnd) × ComesNext living.now until ends.now k end) }
    ensures none { IfNone result (NoneIsDue living.now until ends.now) }
{
    let mut found: Option<(usize, u64)> = None;
    for k in 0..ends.len() {
        let end = &ends[k];
        found = better_of(living, until, found, k, end);
    }
    place_of(found)
}

fn place_of(found: Option<(usize, u64)>) -> Option<usize>
    ensures { result ≡ option_map (λ (f : ℕ × ℕ). f.0) found }
{
    match found {
        Some((k, _)) => Some(k),
        None => None,
    }
}
