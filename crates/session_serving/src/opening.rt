// The set is brought up, where nothing is pending.
ghost use Rattle.std.specs.Prelude.{◌≡◌, ◌≤◌, ℕ, None, IfOk, IsSome, List as ListOf, OnErr, OnOk, map};
ghost use Rattle.device.specs.Devices.{IsRegularDevice};
ghost use Rattle.device.specs.Lawful.{no_failures};
ghost use Rattle.device.specs.Plans.{AreItems, AreRegularItems};
ghost use Rattle.device.specs.Sound.{IsSound};
ghost use Rattle.deploy_state.specs.States.{idle_device};
ghost use Rattle.records.specs.Stored.{item_view};
ghost use Rattle.step_runner.specs.Entries.{Told};
ghost use Rattle.components.specs.Answers.{standing_count};
ghost use Rattle.components.specs.Made.{AreFitted};
ghost use Rattle.histories.specs.States.{SessionState, state_after};
ghost use Rattle.histories.specs.TraceEvents.{TraceEvent};
ghost use Rattle.session_boots.specs.Traces.{ActTrace};
ghost use Rattle.session_steady.specs.Serves.{IsServing};
ghost use Rattle.session_serving.specs.Pauses.{IsChangeAlone};
ghost use Rattle.session_serving.specs.States.{AreUp, IsUnopened};

use components::{Mode, Supervise, marks_are_least, one_platform};
use deploy_state::Idle;
use gate_log::Journal;
use law_supervisor::{changes_keep, changes_keep_order, ready_items_are_counted};
use law_termination::{changes_drive, ready_items_may_come};
use nuc_base::{List, NoMemory};
use records::{Item, Origin};
use std::alloc::Global;

/// No failure is counted.
fn uncounted() -> [u8; 128]
    ensures { result ≡ no_failures }
{
    [0; 128]
}

/// Takes all memory that a change to the set needs.
fn ready_set<S: Supervise>(
    alloc: Global,
    origin: &Origin,
    set: &List<Item>,
    supervisor: &S,
) -> Result<S::Ready, NoMemory>
    requires items { AreItems origin.now.platform (map item_view set.now) }
    requires regular { AreRegularItems (map item_view set.now) }
    ensures made { IfOk result (λ r. AreFitted origin.now (map item_view set.now) (S.coming r)) }
    ensures room { IfOk result (λ r. standing_count (S.world supervisor.now) ≤ S.room r) }
{
    supervisor.ready(alloc, origin, set)
}

/// The items of the set are to run. For want of memory the components are as before.
pub(crate) fn open_set<J: Journal + Drop, S: Supervise>(
    alloc: Global,
    idle: &Idle<J>,
    supervisor: &mut S,
) -> Result<(), NoMemory>
where
    S::Ready: Drop,
    requires sound { IsSound (idle_device idle.now) }
    requires regular { IsRegularDevice (idle_device idle.now) }
    requires origin { IsSome (idle_device idle.now).origin }
    requires pending { (idle_device idle.now).pending ≡ None }
    requires up { AreUp (idle_device idle.now) (S.world supervisor.old) }
    requires from_state { (p : SessionState) × (told : Told) × (living : ListOf ℕ) × IsUnopened p (idle_device idle.now) (S.world supervisor.old) told living }
    ensures trace { OnOk result ((p : SessionState) → (told : Told) → (living : ListOf ℕ) →
        IsUnopened p (idle_device idle.now) (S.world supervisor.old) told living →
        (h : ListOf TraceEvent) × ActTrace p h told.list told.list × IsServing (state_after p h) (idle_device idle.now) (S.world supervisor.new) told living
        × ((state_after p h).turns ≡ p.turns) × IsChangeAlone h) }
    ensures up { OnOk result (AreUp (idle_device idle.now) (S.world supervisor.new)) }
    ensures same { OnErr result (S.world supervisor.new ≡ S.world supervisor.old) }
{
    marks_are_least();
    one_platform();
    changes_keep();
    changes_keep_order();
    ready_items_are_counted();
    ready_items_may_come();
    changes_drive();
    let device = idle.device();
    let Some(origin) = &device.origin else {
        unreachable!();
    };
    match ready_set(alloc, origin, &device.set, supervisor) {
        Ok(ready) => {
            supervisor.change(ready, &uncounted(), Mode::Steady);
            Ok(())
        }
        Err(refused) => Err(refused),
    }
}
