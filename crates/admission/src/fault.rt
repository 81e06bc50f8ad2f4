use crate::unasked::Unasked;
use artifact_store::StageFault;
use deployment_doc::DocFault;
use local_deploy::{LocalFault, LocalRefusal};
use plan_core::Refusal;

/// Why a document was not taken in.
#[derive(Drop)]
pub enum Declined {
    /// A check of the document failed, before a file was touched.
    Refused(Refusal),
    /// Its plan stands, and its files could not be taken in.
    Unstaged(StageFault),
    /// It was to be made of a request at the device, and that comes to none.
    Unasked(Unasked),
}

impl From<Refusal> for Declined {
    ghost use Rattle.std.specs.Prelude.{◌≡◌};
    ghost use Rattle.admission.specs.declared.fault.Declined.TheVariants.{Refused};

    ghost from_gives = { λ f e. e ≡ Refused f };

    fn from(refusal: Refusal) -> Declined {
        Declined::Refused(refusal)
    }
}

impl From<StageFault> for Declined {
    ghost use Rattle.std.specs.Prelude.{◌≡◌};
    ghost use Rattle.admission.specs.declared.fault.Declined.TheVariants.{Unstaged};

    ghost from_gives = { λ f e. e ≡ Unstaged f };

    fn from(fault: StageFault) -> Declined {
        Declined::Unstaged(fault)
    }
}

impl From<DocFault> for Declined {
    ghost use Rattle.std.specs.Prelude.{◌≡◌};
    ghost use Rattle.plan_core.specs.Checks.{document_refusal};
    ghost use Rattle.admission.specs.declared.fault.Declined.TheVariants.{Refused};

    ghost from_gives = { λ f e. e ≡ Refused (document_refusal f) };

    fn from(fault: DocFault) -> Declined {
        Declined::Refused(Refusal::from(fault))
    }
}

impl From<LocalFault> for Declined {
    ghost use Rattle.std.specs.Prelude.{◌≡◌};
    ghost use Rattle.admission.specs.Requests.{local_declined};

    ghost from_gives = { λ f e. e ≡ local_declined f };

    fn from(fault: LocalFault) -> Declined {
        match fault {
            LocalFault::NoMemory => Declined::Refused(Refusal::NoMemory),
            fault => Declined::Unasked(Unasked::Local(fault)),
        }
    }
}

impl From<LocalRefusal> for Declined {
    ghost use Rattle.std.specs.Prelude.{◌≡◌};
    ghost use Rattle.admission.specs.Requests.{unmade};

    ghost from_gives = { λ f e. e ≡ unmade f };

    fn from(refusal: LocalRefusal) -> Declined {
        match refusal {
            LocalRefusal::NotLocal(name) => Declined::Unasked(Unasked::NotLocal(name)),
            LocalRefusal::TooManyLocal(count) => Declined::Unasked(Unasked::TooManyLocal(count)),
            LocalRefusal::Unlisted(name) => Declined::Unasked(Unasked::Unlisted(name)),
            LocalRefusal::NoMemory => Declined::Refused(Refusal::NoMemory),
        }
    }
}
