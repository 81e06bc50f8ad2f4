//! From the bootstraps of a deployment to its items.
ghost use Rattle.std.specs.Prelude.{◌≡◌, ◌≤◌, [], ℕ, List, None, false, IfOk, IsErrOf, OnErr};
ghost use Rattle.nuc_base.specs.Faults.{Rose};
ghost use Rattle.records.specs.Stored as stored;
ghost use Rattle.device.specs.Lawful.{applied};
ghost use Rattle.deploy_state.specs.Fields.{has_failed};
ghost use Rattle.deploy_state.specs.States.{OwnsActivating, OwnsBooting, activating_device, booting_device};
ghost use Rattle.step_runner.specs.Entries.{Told};
ghost use Rattle.components.specs.Components.{Components};
ghost use Rattle.law_supervisor.specs.Sound.{IsOrderly};
ghost use Rattle.histories.specs.TraceEvents.{TraceEvent, records_of};
ghost use Rattle.histories.specs.Phases.{duty_of};
ghost use Rattle.histories.specs.States.{SessionState, state_after};
ghost use Rattle.session_boots.specs.Lines.{lines_of};
ghost use Rattle.session_boots.specs.Ends.{IsOne};
ghost use Rattle.session_boots.specs.Stands.{IsOpened};
ghost use Rattle.session_transitions.specs.Fails.{IsGivenUp};
ghost use Rattle.deploy_state.specs.Objects.{OwnsOver, KeepsOthers};
ghost use Rattle.session_boots.specs.Stages.{IsTraceOver, LeftOver};

use deploy_state::{Activating, Booting};
use disk_model::Disk;
use gate_log::Journal;
use session_boots::SessionFault;

/// Records that the bootstraps of the plan are ended, or that it has none. Its items are still to come, those of before stand
/// where none of its bootstraps ran, and nothing is printed.
pub fn begin_items<D: Disk, J: Journal + Drop>(
    state: Booting<J>,
    disk: &mut D,
) -> Result<Activating<J>, SessionFault>
    requires held { OwnsOver D.Disk J.Journal OwnsBooting state disk.old }
    requires through { ((duty_of (booting_device state)).next_bootstrap ≡ None) × (has_failed (booting_device state) ≡ false) }
    ensures trace { (p : SessionState) → (world : Components) → (told : Told) → (living : List ℕ) → IsOpened p (booting_device state) world told living →
        IsOrderly p.world →
        (h : List TraceEvent) × IsTraceOver D.Disk J.Journal disk.old disk.new told.list told.list p h
        × (lines_of p.device (records_of h) ≡ [])
        × LeftOver D.Disk J.Journal disk.new p h (λ s q. IsOpened q (activating_device s) world told living) result
        × OnErr result (IsGivenUp (state_after p h) world told living) × OnErr result (IsOne (records_of h)) }
    ensures taken { IfOk result (λ s. activating_device s ≡ applied (booting_device state) stored.Activating) }
    ensures held { IfOk result (λ s. OwnsOver D.Disk J.Journal OwnsActivating s disk.new) }
    ensures others { KeepsOthers D.Disk J.Journal disk.old disk.new }
    ensures disk { IsErrOf result SessionFault.Disk → Rose (D.faults disk.old) (D.faults disk.new) }
    ensures edge { IsErrOf result SessionFault.Output → ⊥ }
    ensures quiet { ¬ (IsErrOf result SessionFault.Disk) → D.faults disk.new ≡ D.faults disk.old }
    ensures later { D.faults disk.old ≤ D.faults disk.new }
{
    match state.activate(disk) {
        Ok(next) => Ok(next),
        Err(_) => Err(SessionFault::Disk),
    }
}
