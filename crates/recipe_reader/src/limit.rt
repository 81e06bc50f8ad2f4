// How long a step may take.
ghost use Rattle.std.specs.Prelude.{◌≡◌, ◌≤◌};
ghost use Rattle.serde_json.specs.Data.{number, unsigned};
ghost use Rattle.nuc_base.specs.Tables.{AnswerBy, on};
ghost use Rattle.tree_core.specs.View.{view};
ghost use Rattle.tree_core.specs.Regular.{IsRegular};
ghost use Rattle.recipe_reader.specs.Spelled.{spelled};
ghost use Rattle.recipe_reader.specs.Keys.{keyed as keyed_of};
ghost use Rattle.recipe_reader.specs.Steps.{timeout_lines, usual_limit as usual_limit_of, IsLimit};
ghost use Rattle.recipe_reader.specs.declared.fault.Key.TheVariants as key;
ghost use Rattle.recipe_reader.specs.declared.fault.RecipeFault.TheVariants.{NoMemory as OutOfMemory};

use crate::fault::{Key, RecipeFault};
use crate::keys::keyed;
use nuc_base::Step;
use tree_core::{CountFault, Tree};

const MOST_SECONDS: u64 = 1_000_000;

fn seconds_in(value: &Tree) -> Result<u64, RecipeFault>
    ensures { AnswerBy OutOfMemory (timeout_lines (view value.now)) (λ n. (view value.now ≡ number (unsigned n)) × (n ≤ 1000000)) result }
{
    match value.count(MOST_SECONDS) {
        Ok(seconds) => Ok(seconds),
        Err(CountFault::NoNumber) => Err(RecipeFault::WrongKind(Key::Timeout)),
        Err(CountFault::OutOfRange) => Err(RecipeFault::BadTimeout),
    }
}

pub fn usual_limit(step: Step) -> Option<u64>
    ensures { result ≡ usual_limit_of step }
{
    match step {
        Step::Install | Step::Startup | Step::Bootstrap => Some(120_000),
        Step::Shutdown => Some(15_000),
        Step::Recover => Some(60_000),
        Step::Run => None,
    }
}

/// The limit of a step in milliseconds, by its object or else the usual one.
pub fn limit_at(step: Step, value: &Tree) -> Result<Option<u64>, RecipeFault>
    requires { IsRegular (view value.now) }
    ensures { AnswerBy OutOfMemory
        (on (keyed_of (spelled key.Timeout) (view value.now)) timeout_lines)
        (IsLimit step (keyed_of (spelled key.Timeout) (view value.now)))
        result }
{
    match keyed(value, Key::Timeout) {
        Some(timeout) => Ok(Some(seconds_in(timeout)? * 1000)),
        None => Ok(usual_limit(step)),
    }
}
