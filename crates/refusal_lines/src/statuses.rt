ghost use Rattle.std.specs.Prelude.{◌≡◌};
ghost use Rattle.refusal_lines.specs.Statuses.{status_of_outcome, status_of_candidates, status_of_plan, status_of_refusal};

use library_core::CandidatesFault;
use nuc_base::{Outcome, Status};
use plan_core::{PlanFault, Refusal};

/// The status that a command ends with once a deployment closed so.
pub fn outcome_status(outcome: Outcome) -> Status
    ensures { result ≡ status_of_outcome outcome }
{
    match outcome {
        Outcome::Successful => Status::Done,
        Outcome::RollbackComplete => Status::RolledBack,
        Outcome::RollbackNotRequested => Status::NotRequested,
        Outcome::UnableToRollback => Status::Unable,
    }
}

fn candidates_status(fault: &CandidatesFault) -> Status
    ensures { result ≡ status_of_candidates fault.now }
{
    match fault {
        CandidatesFault::Library => Status::Library,
        CandidatesFault::TooManyRecipes(_) => Status::Limit,
        CandidatesFault::Recipe(..)
        | CandidatesFault::RecipeDiffers(..)
        | CandidatesFault::TwoRecipes(..) => Status::BadInput,
        CandidatesFault::NoMemory => Status::Memory,
    }
}

fn plan_status(fault: &PlanFault) -> Status
    ensures { result ≡ status_of_plan fault.now }
{
    match fault {
        PlanFault::NoVersion => Status::NoVersion,
        PlanFault::TooManyClosed(_)
        | PlanFault::TooManyGroups(_)
        | PlanFault::TooManyComponents(_)
        | PlanFault::ConfigTooLarge(..) => Status::Limit,
        PlanFault::NoMemory => Status::Memory,
    }
}

/// The status that a command ends with where this is the first refusal of its document. A deployment that closed before
/// is no refusal of that kind: it answers again what it answered then.
pub fn refusal_status(refusal: &Refusal) -> Status
    ensures { result ≡ status_of_refusal refusal.now }
{
    match refusal {
        Refusal::Document(_) => Status::BadInput,
        Refusal::Repeated(_, outcome) => outcome_status(*outcome),
        Refusal::Stale(..) => Status::Stale,
        Refusal::Candidates(fault) => candidates_status(fault),
        Refusal::Plan(fault) => plan_status(fault),
        Refusal::NoMemory => Status::Memory,
    }
}
