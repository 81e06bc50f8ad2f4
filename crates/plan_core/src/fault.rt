ghost use Rattle.std.specs.Prelude.{◌≡◌};

use deployment_doc::DocFault;
use library_core::CandidatesFault;
use nuc_base::{Label, Name, NoMemory, Outcome};

/// Why a document makes no plan, in the order in which this is checked.
#[derive(Debug, Drop)]
pub enum PlanFault {
    /// So many deployments are closed on the device, and no more may be.
    TooManyClosed(u32),
    /// The device would have so many groups.
    TooManyGroups(u32),
    /// No set of the candidates is valid.
    NoVersion,
    /// The set has so many components.
    TooManyComponents(u32),
    /// The first component, by name, whose configuration is too long, and the bytes of its text.
    ConfigTooLarge(Name, u64),
    NoMemory,
}

impl From<NoMemory> for PlanFault {
    ghost use Rattle.plan_core.specs.declared.fault.PlanFault.TheVariants.{NoMemory as OutOfMemory};

    ghost from_gives = { λ _ e. e ≡ OutOfMemory };

    fn from(_: NoMemory) -> PlanFault {
        PlanFault::NoMemory
    }
}

/// Why a document comes to no draft on a device, in the order in which this is checked.
#[derive(Debug, Drop)]
pub enum Refusal {
    /// The bytes are no document.
    Document(DocFault),
    /// The deployment of this id closed before, with this outcome. Nothing is wrong with the document.
    Repeated(Label, Outcome),
    /// The document of this id is older than its group, which has this revision.
    Stale(Label, u64),
    /// There are no candidates.
    Candidates(CandidatesFault),
    /// There is no plan.
    Plan(PlanFault),
    NoMemory,
}

impl From<NoMemory> for Refusal {
    ghost use Rattle.plan_core.specs.declared.fault.Refusal.TheVariants.{NoMemory as OutOfMemory};

    ghost from_gives = { λ _ e. e ≡ OutOfMemory };

    fn from(_: NoMemory) -> Refusal {
        Refusal::NoMemory
    }
}

impl From<DocFault> for Refusal {
    ghost use Rattle.plan_core.specs.Checks.{document_refusal};

    ghost from_gives = { λ f e. e ≡ document_refusal f };

    fn from(fault: DocFault) -> Refusal {
        match fault {
            DocFault::NoMemory => Refusal::NoMemory,
            fault => Refusal::Document(fault),
        }
    }
}

impl From<CandidatesFault> for Refusal {
    ghost use Rattle.plan_core.specs.Checks.{gather_refusal};

    ghost from_gives = { λ f e. e ≡ gather_refusal f };

    fn from(fault: CandidatesFault) -> Refusal {
        match fault {
            CandidatesFault::NoMemory => Refusal::NoMemory,
            fault => Refusal::Candidates(fault),
        }
    }
}

impl From<PlanFault> for Refusal {
    ghost use Rattle.plan_core.specs.Checks.{plan_refusal};

    ghost from_gives = { λ f e. e ≡ plan_refusal f };

    fn from(fault: PlanFault) -> Refusal {
        match fault {
            PlanFault::NoMemory => Refusal::NoMemory,
            fault => Refusal::Plan(fault),
        }
    }
}
