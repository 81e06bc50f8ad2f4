ghost use Rattle.std.specs.Prelude.{◌≡◌, IfOk};
ghost use Rattle.workload.specs.Answers.{is_want};
ghost use Rattle.workload.specs.Tallies.{is_success, is_rollback, is_breakage, closed_so, tally_of, tally_line};

use nuc_base::{Label, NoMemory, Outcome, Status, Text};
use std::alloc::Global;

/// How many deployments closed as each outcome that a workload can have. Its documents ask to be rolled back, so none closes
/// as one whose rollback was not requested.
#[derive(Clone, Copy, Debug, PartialEq, Eq)]
pub struct Tally {
    /// Closed as SUCCESSFUL.
    pub successful: usize,
    /// Closed as FAILED_ROLLBACK_COMPLETE.
    pub rolled_back: usize,
    /// Closed as FAILED_UNABLE_TO_ROLLBACK.
    pub broken: usize,
}

/// Counts the outcomes in a device's list of closed deployments.
pub fn count_outcomes(closed: &[(Label, Outcome)]) -> Tally
    ensures { result ≡ tally_of closed.now }
{
    Tally {
        successful: count_successes(closed),
        rolled_back: count_rollbacks(closed),
        broken: count_breakages(closed),
    }
}

fn count_successes(closed: &[(Label, Outcome)]) -> usize
    ensures { result ≡ closed_so is_success closed.now }
{
    closed
        .iter()
        .filter(|entry| matches!(entry.1, Outcome::Successful))
        .count()
}

fn count_rollbacks(closed: &[(Label, Outcome)]) -> usize
    ensures { result ≡ closed_so is_rollback closed.now }
{
    closed
        .iter()
        .filter(|entry| matches!(entry.1, Outcome::RollbackComplete))
        .count()
}

fn count_breakages(closed: &[(Label, Outcome)]) -> usize
    ensures { result ≡ closed_so is_breakage closed.now }
{
    closed
        .iter()
        .filter(|entry| matches!(entry.1, Outcome::UnableToRollback))
        .count()
}

/// The line that the command prints, with the line feed at its end:
/// `workload SEED: 32 deployments, S successful, R rolled back, U broken`.
pub fn tally_text(alloc: Global, seed: u64, tally: Tally) -> Result<Text, NoMemory>
    ensures { IfOk result (λ text. text ≡ tally_line seed tally) }
{
    let Tally {
        successful,
        rolled_back,
        broken,
    } = tally;
    let line = format!(in alloc;
        "workload {seed}: 32 deployments, {successful} successful, {rolled_back} rolled back, {broken} broken\n"
    )?;
    Ok(Text::new(line))
}

/// Whether a deployment over objects in memory answers so for want of memory: its disk, its sink and its library fail for
/// nothing else.
pub fn wants_memory(status: Status) -> bool
    ensures { result ≡ is_want status }
{
    matches!(
        status,
        Status::Disk | Status::Edge | Status::Library | Status::Memory
    )
}
