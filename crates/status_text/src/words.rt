ghost use Rattle.std.specs.Prelude.{◌≡◌};
ghost use Rattle.status_text.specs.Words.{outcome_text, stage_text};

use device::Stage;
use nuc_base::Outcome;

/// The word that names an outcome in every line and text.
pub fn outcome_word(outcome: Outcome) -> &'static str
    ensures { result.now ≡ outcome_text outcome }
{
    match outcome {
        Outcome::Successful => "SUCCESSFUL",
        Outcome::RollbackComplete => "FAILED_ROLLBACK_COMPLETE",
        Outcome::RollbackNotRequested => "FAILED_ROLLBACK_NOT_REQUESTED",
        Outcome::UnableToRollback => "FAILED_UNABLE_TO_ROLLBACK",
    }
}

/// The word that names a stage of a pending deployment.
pub fn stage_word(stage: Stage) -> &'static str
    ensures { result.now ≡ stage_text stage }
{
    match stage {
        Stage::Booting => "Booting",
        Stage::Activating => "Activating",
        Stage::Backing => "Backing",
        Stage::Rolling => "Rolling",
    }
}
