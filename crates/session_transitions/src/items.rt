//! The items of a stage take the place of those that stand.
ghost use Rattle.std.specs.Prelude.{◌≡◌, ◌≤◌, ℕ, List, true, false};
ghost use Rattle.device.specs.Devices.{device_view};
ghost use Rattle.device.specs.Sound.{IsSound};
ghost use Rattle.step_runner.specs.Entries.{Told};
ghost use Rattle.components.specs.Answers.{has_answered, standing_count};
ghost use Rattle.components.specs.Changes.{standing};
ghost use Rattle.histories.specs.TraceEvents.{TraceEvent};
ghost use Rattle.histories.specs.Phases.{duty_of};
ghost use Rattle.histories.specs.States.{SessionState, state_after};
ghost use Rattle.histories.specs.Waits.{has_three};
ghost use Rattle.session_boots.specs.Traces.{ActTrace};
ghost use Rattle.law_termination.specs.Drives.{AreDriven};
ghost use Rattle.session_startup.specs.Runs.{IsAtTurnStart, rises};
ghost use Rattle.session_transitions.specs.Enters.{AreReady, MayEnter, RunOn};

use components::{Mode, Supervise, marks_are_least, one_platform};
use device::Device;
use law_supervisor::{changes_keep, ready_items_are_counted};
use law_termination::{changes_drive, ready_items_may_come};

/// The items of the stage are to run, each with the failures that are recorded of it. Those that stand and are none of them
/// go away, and those of which another version or configuration comes are replaced.
pub fn change_items<S: Supervise>(device: &Device, ready: S::Ready, supervisor: &mut S)
    requires stage { rises (duty_of (device_view device.now)).phase ≡ true }
    requires ready { AreReady (device_view device.now) (S.coming ready) }
    requires room { standing_count (S.world supervisor.old) ≤ S.room ready }
    requires few { has_three (duty_of (device_view device.now)).counts ≡ false }
    requires sound { IsSound (device_view device.now) }
    requires answered { has_answered (S.world supervisor.old) ≡ true }
    requires drives { AreDriven (S.world supervisor.old) }
    // An item that stands already comes with the steps and the hard needs that it had.
    requires made { RunOn (device_view device.now) (standing (S.world supervisor.old).parts) }
    ensures trace { (p : SessionState) → (told : Told) → (living : List ℕ) → MayEnter p (device_view device.now) (S.world supervisor.old) told living →
        (h : List TraceEvent) × ActTrace p h told.list told.list ×
        IsAtTurnStart (state_after p h) (device_view device.now) (S.world supervisor.new) told living }
    ensures drives { AreDriven (S.world supervisor.new) }
{
    marks_are_least();
    one_platform();
    changes_keep();
    ready_items_are_counted();
    ready_items_may_come();
    changes_drive();
    let Some(pending) = &device.pending else {
        unreachable!();
    };
    supervisor.change(ready, &pending.failures, Mode::Deployment);
}
