//! The states of a pending deployment, by what the session does alike in each of them.
ghost use Rattle.std.specs.Prelude.{◌≡◌, ℕ, Bool, List, IfOk, OnOk};
ghost use Rattle.nuc_base.specs.Faults.{HasCause};
ghost use Rattle.nuc_base.specs.declared.kinds.Outcome.{Outcome};
ghost use Rattle.disk_model.specs.Disk.{Image};
ghost use Rattle.records.specs.Stored as stored;
ghost use Rattle.device.specs.Devices.{Device};
ghost use Rattle.device.specs.Lawful.{Allowed, applied};
ghost use Rattle.deploy_state.specs.States.{OwnsIdle, idle_device};
ghost use Rattle.deploy_state.specs.Objects.{KeepsOthers, LeavesOneOf, OwnsOver};

use deploy_state::{Activating, Backing, Booting, Idle, Rolling, Stopped};
use disk_model::Disk;
use gate_log::Journal;

/// A typed state of a deployment that is pending.
pub trait PendingState<J: Journal + Drop>: Drop {
    /// The device for which its journal stands.
    ghost device: { Self → Device };

    /// It owns its journal over a disk.
    ghost owns: { {D : Type 0} → Bool → (D → Image → Type 0) → (J → Image → List (List ℕ) → Type 0) → (J → ℕ) → Self → D → Type 0 };
}

/// One in which the deployment closes, and how.
pub trait Close<J: Journal + Drop>: PendingState<J> {
    /// How it closes.
    ghost outcome: { Self → Outcome };

    /// Records the close.
    fn close<D: Disk>(self, disk: &mut D) -> Result<Idle<J>, Stopped<J>>
        requires held { OwnsOver D.Disk J.Journal Self.owns self disk.old }
        requires may { Allowed (Self.device self) (stored.Closed (outcome self)) }
        ensures moments { LeavesOneOf D.Disk J.Journal disk.old disk.new (Self.device self) (applied (Self.device self) (stored.Closed (outcome self))) }
        ensures taken { IfOk result (λ s. idle_device s ≡ applied (Self.device self) (stored.Closed (outcome self))) }
        ensures held { IfOk result (λ s. OwnsOver D.Disk J.Journal OwnsIdle s disk.new) }
        ensures others { KeepsOthers D.Disk J.Journal disk.old disk.new }
        ensures cause { HasCause (D.faults disk.old) (D.faults disk.new) result }
        ensures quiet { OnOk result (D.faults disk.new ≡ D.faults disk.old) };
}

/// The plan's items, all up.
#[derive(Drop)]
pub(crate) struct Settled<J: Journal + Drop>(pub(crate) Activating<J>);

impl<J: Journal + Drop> PendingState<J> for Booting<J> {
    ghost use Rattle.deploy_state.specs.States.{OwnsBooting, booting_device};

    ghost device = { booting_device };

    ghost owns = { OwnsBooting };
}

impl<J: Journal + Drop> PendingState<J> for Activating<J> {
    ghost use Rattle.deploy_state.specs.States.{OwnsActivating, activating_device};

    ghost device = { activating_device };

    ghost owns = { OwnsActivating };
}

impl<J: Journal + Drop> PendingState<J> for Settled<J> {
    ghost use Rattle.deploy_state.specs.States.{OwnsActivating, activating_device};

    ghost device = { λ s. activating_device s.0 };

    ghost owns = { λ is_modelled may_leave stands end s disk. OwnsActivating is_modelled may_leave stands end s.0 disk };
}

impl<J: Journal + Drop> PendingState<J> for Backing<J> {
    ghost use Rattle.deploy_state.specs.States.{OwnsBacking, backing_device};

    ghost device = { backing_device };

    ghost owns = { OwnsBacking };
}

impl<J: Journal + Drop> PendingState<J> for Rolling<J> {
    ghost use Rattle.deploy_state.specs.States.{OwnsRolling, rolling_device};

    ghost device = { rolling_device };

    ghost owns = { OwnsRolling };
}

/// A bootstrap failed, and the deployment stays as it is.
impl<J: Journal + Drop> Close<J> for Booting<J> {
    ghost use Rattle.nuc_base.specs.declared.kinds.Outcome.TheVariants.{RollbackNotRequested};

    ghost outcome = { λ s. RollbackNotRequested };

    fn close<D: Disk>(self, disk: &mut D) -> Result<Idle<J>, Stopped<J>> {
        self.keep(disk)
    }
}

/// An item failed three times, and the deployment stays as it is.
impl<J: Journal + Drop> Close<J> for Activating<J> {
    ghost use Rattle.nuc_base.specs.declared.kinds.Outcome.TheVariants.{RollbackNotRequested};

    ghost outcome = { λ s. RollbackNotRequested };

    fn close<D: Disk>(self, disk: &mut D) -> Result<Idle<J>, Stopped<J>> {
        self.keep(disk)
    }
}

impl<J: Journal + Drop> Close<J> for Settled<J> {
    ghost use Rattle.nuc_base.specs.declared.kinds.Outcome.TheVariants.{Successful};

    ghost outcome = { λ s. Successful };

    fn close<D: Disk>(self, disk: &mut D) -> Result<Idle<J>, Stopped<J>> {
        self.0.complete(disk)
    }
}

/// A bootstrap failed that ran again on the way back.
impl<J: Journal + Drop> Close<J> for Backing<J> {
    ghost use Rattle.nuc_base.specs.declared.kinds.Outcome.TheVariants.{UnableToRollback};

    ghost outcome = { λ s. UnableToRollback };

    fn close<D: Disk>(self, disk: &mut D) -> Result<Idle<J>, Stopped<J>> {
        Backing::close(self, disk)
    }
}

/// The items of the set are up again, or one of them failed three times.
impl<J: Journal + Drop> Close<J> for Rolling<J> {
    ghost use Rattle.deploy_state.specs.Fields.{rolled_outcome};
    ghost use Rattle.deploy_state.specs.States.{rolling_device};

    ghost outcome = { λ s. rolled_outcome (rolling_device s) };

    fn close<D: Disk>(self, disk: &mut D) -> Result<Idle<J>, Stopped<J>> {
        Rolling::close(self, disk)
    }
}
