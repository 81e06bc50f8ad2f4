// Whole numbers from 1 on.
ghost use Rattle.std.specs.Prelude.{◌≡◌, ℕ, ◌≤◌, ◌^◌, None, IfSome, MatchResult};
ghost use Rattle.serde_json.specs.Data.{number as number_data, unsigned};
ghost use Rattle.serde_json.specs.Find.{of_integer};
ghost use Rattle.tree_core.specs.View.{view};
ghost use Rattle.tree_core.specs.Counts.{IsNoCount};
ghost use Rattle.tree_core.specs.declared.count.CountFault.TheVariants.{OutOfRange};

use crate::tree::Tree;

/// Why a tree is no whole number from 1 to a bound.
#[derive(Clone, Copy, Debug, PartialEq, Eq)]
pub enum CountFault {
    /// It is no number.
    NoNumber,
    /// It is a number below 1 or above the bound.
    OutOfRange,
}

impl Tree {
    /// The number, where the tree is a whole one from 1 to `most`.
    pub fn count(&self, most: u64) -> Result<u64, CountFault>
        ensures { MatchResult result
            (λ n. (view self.now ≡ number_data (unsigned n)) × (1 ≤ n) × (n ≤ most))
            (IsNoCount most (view self.now)) }
    {
        let Tree::Whole(number) = self else {
            return Err(CountFault::NoNumber);
        };
        match natural(number) {
            Some(count) => within(count, most),
            None => Err(CountFault::OutOfRange),
        }
    }
}

/// The number, where it is none below 0.
fn natural(number: &i128) -> Option<u64>
    ensures some { IfSome result (λ n. of_integer number.now ≡ unsigned n) }
    ensures none { result ≡ None → (n : ℕ) → of_integer number.now ≡ unsigned n → 2 ^ 64 ≤ n }
{
    u64::try_from(*number).ok()
}

fn within(count: u64, most: u64) -> Result<u64, CountFault>
    ensures { MatchResult result
        (λ n. (n ≡ count) × (1 ≤ n) × (n ≤ most))
        (λ f. (f ≡ OutOfRange) × ((1 ≤ count) × (count ≤ most) → ⊥)) }
{
    if count < 1 {
        return Err(CountFault::OutOfRange);
    }
    if count > most {
        return Err(CountFault::OutOfRange);
    }
    Ok(count)
}
