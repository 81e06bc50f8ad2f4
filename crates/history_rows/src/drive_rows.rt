// Worked rows of a deployment that fails, on functions that do nothing.
ghost use Rattle.std.specs.Prelude.{◌≡◌, ◌∷◌, [], List, true, false, codes};
ghost use Rattle.nuc_base.specs.declared.kinds.Step.TheVariants as step;
ghost use Rattle.nuc_base.specs.declared.kinds.Exit.TheVariants as exits;
ghost use Rattle.nuc_base.specs.declared.kinds.Outcome.TheVariants as outcomes;
ghost use Rattle.lifecycle.specs.declared.kinds.State.TheVariants as state;
ghost use Rattle.lifecycle.specs.declared.kinds.LifeEvent.TheVariants as event;
ghost use Rattle.records.specs.Stored.{Closed, Failing, StepFailed};
ghost use Rattle.records.specs.declared.record.Origin.{Origin};
ghost use Rattle.step_runner.specs.declared.entries.Seen.TheVariants as seen;
ghost use Rattle.device.specs.Lawful.{no_failures};
ghost use Rattle.components.specs.Fitted.{Fitted};
ghost use Rattle.components.specs.Made.{AreFitted};
ghost use Rattle.histories.specs.TraceEvents.{Ran, WaitElapsed, KilledOnAbort, Recorded, Moved, ReadClock, Changed, StopsAll};
ghost use Rattle.histories.specs.States.{state_after};
ghost use Rattle.histories.specs.Follows.{IsProper, MayFollow};
ghost use Rattle.histories.specs.Courses.{IsBare, IsBack, IsEnd, IsStart, IsStopping};
ghost use Rattle.histories.specs.Phases.{current};
ghost use Rattle.nuc_base.specs.declared.status.Status.TheVariants as statuses;
ghost use Rattle.history_rows.specs.Rows.{Recipes, read_as, with_recipes, call_begins, asked, not_asked, states_of, script, ends, good, bad, a};
ghost use Rattle.history_rows.specs.DriveRows.{old_a, new_a, old_up, new_up, counts_of, failures_in, closes_it, broken_beside, resumed, booting_with};
ghost use Rattle.history_rows.specs.DriveRows.{starting, beside_up, driven, one_try, tried, records_it, recovers_it, failed_once, broken, rolls_back};
ghost use Rattle.history_rows.specs.DriveRows.{rolling, comes_back, is_back, stops_it, keeps_it, breaking, breaks_too};

/// The new version fails three times, each failure is recorded, and the old one comes back.
pub fn rollback_row()
    ensures tries { (o : Origin) → IsProper (driven o state.Installed 0) one_try }
    ensures records { (o : Origin) → IsProper (tried o 0) records_it }
    ensures recovers { (o : Origin) → IsProper (failed_once o) recovers_it }
    ensures installed { (o : Origin) → states_of (state_after (failed_once o) recovers_it).world.parts ≡ state.Installed ∷ [] }
    ensures third { (o : Origin) → IsProper (tried o 2) records_it }
    ensures breaks { (o : Origin) → states_of (broken o).world.parts ≡ state.Broken ∷ [] }
    ensures back { (o : Origin) (r : Recipes) (made : List Fitted) → AreFitted o (read_as r (old_a ∷ [])) made →
        IsProper (with_recipes r (broken o)) (rolls_back made) }
    ensures up { (o : Origin) → IsProper (rolling o) comes_back }
    ensures stops { (o : Origin) → IsProper (is_back o) stops_it }
    ensures bare { (o : Origin) → IsBare (state_after (is_back o) stops_it) }
{}

/// Under DO_NOTHING it closes as it is, and where the old version breaks too it closes. Between the close and the stop
/// nothing starts.
pub fn do_nothing_row()
    ensures keeps { (o : Origin) → IsProper (broken o) keeps_it }
    ensures ends { (o : Origin) → IsEnd (state_after (broken o) keeps_it) statuses.NotRequested false }
    ensures unable { (o : Origin) → IsProper (breaking o) breaks_too }
    ensures closed { (o : Origin) → IsBack (state_after (broken o) closes_it) }
    ensures other_begins { (o : Origin) → MayFollow (broken_beside o) (Moved 1 event.MayBegin) }
    ensures starts { (o : Origin) → MayFollow (state_after (broken_beside o) closes_it) (Moved 1 event.MayBegin) → ⊥ }
    ensures waits { (o : Origin) → MayFollow (state_after (broken o) (ReadClock 0 ∷ closes_it)) (WaitElapsed (asked 0 (seen.Elapsed 1000))) → ⊥ }
    ensures changes { (o : Origin) (r : Recipes) (made : List Fitted) → MayFollow (with_recipes r (state_after (broken o) closes_it))
        (Changed made no_failures true) → ⊥ }
    ensures as_success { (o : Origin) → MayFollow (broken o) (Recorded (Closed outcomes.Successful)) → ⊥ }
    ensures unstopped { (o : Origin) → IsEnd (state_after (broken o) closes_it) statuses.NotRequested false → ⊥ }
{}

/// A call that begins with recorded failures goes on with them; with three of them nothing more is tried.
pub fn resumes_with_failures()
    ensures two { (o : Origin) (r : Recipes) (made : List Fitted) → AreFitted o (read_as r (new_a ∷ [])) made →
        IsProper (with_recipes r (resumed o 2)) (Changed made (counts_of 2) false ∷ []) }
    ensures third { (o : Origin) → failures_in (state_after (resumed o 2) (Changed (new_up ∷ []) (counts_of 2) false ∷ [])) ≡ 2 ∷ [] }
    ensures fewer { (o : Origin) (r : Recipes) (made : List Fitted) → MayFollow (with_recipes r (resumed o 2)) (Changed made no_failures false) → ⊥ }
    ensures fourth { (o : Origin) (r : Recipes) (made : List Fitted) → MayFollow (with_recipes r (resumed o 3)) (Changed made (counts_of 3) false) → ⊥ }
    ensures leads_back { (o : Origin) → MayFollow (resumed o 3) (Recorded (Failing a)) }
    ensures steady { (o : Origin) (r : Recipes) (made : List Fitted) → MayFollow (with_recipes r (resumed o 2)) (Changed made (counts_of 2) true) → ⊥ }
{}

/// What must not follow a failure.
pub fn late_records()
    ensures waits { (o : Origin) → MayFollow (state_after (tried o 0) (ReadClock 0 ∷ [])) (WaitElapsed (asked 0 (seen.Elapsed 1000))) → ⊥ }
    ensures retries { (o : Origin) → MayFollow (tried o 0) (Moved 0 event.Retry) → ⊥ }
    ensures breaks_off { (o : Origin) → MayFollow (tried o 2) (Recorded (Failing a)) → ⊥ }
    ensures closes { (o : Origin) → MayFollow (tried o 2) (Recorded (Closed outcomes.RollbackNotRequested)) → ⊥ }
    ensures twice { (o : Origin) → MayFollow (failed_once o) (Recorded (StepFailed a step.Startup bad)) → ⊥ }
    ensures other { (o : Origin) → MayFollow (tried o 0) (Recorded (StepFailed a step.Startup exits.Signal)) → ⊥ }
    ensures third { (o : Origin) → MayFollow (state_after (broken o) (ReadClock 0 ∷ [])) (WaitElapsed (asked 0 (seen.Elapsed 1000))) → ⊥ }
{}

/// What must not follow where Rolling begins.
pub fn rolls_early()
    ensures changes { (o : Origin) (r : Recipes) (made : List Fitted) → MayFollow (with_recipes r (state_after (broken o) (Recorded (Failing a) ∷ [])))
        (Changed made no_failures false) → ⊥ }
    ensures waits { (o : Origin) → MayFollow (state_after (broken o) (ReadClock 0 ∷ Recorded (Failing a) ∷ []))
        (WaitElapsed (asked 0 (seen.Elapsed 1000))) → ⊥ }
    ensures closes { (o : Origin) → MayFollow (rolling o) (Recorded (Closed outcomes.RollbackComplete)) → ⊥ }
    ensures stops { (o : Origin) → MayFollow (driven o state.Installed 0) StopsAll → ⊥ }
    ensures serves_on { (o : Origin) (r : Recipes) (made : List Fitted) → MayFollow (with_recipes r (state_after (is_back o) stops_it))
        (Changed made no_failures true) → ⊥ }
    ensures cut { (o : Origin) → MayFollow (state_after (beside_up o) (KilledOnAbort (asked 0 (seen.Killed 7)) ∷ [])) (Moved 1 event.MayBegin) → ⊥ }
    ensures uncut { (o : Origin) → MayFollow (beside_up o) (Moved 1 event.MayBegin) }
    ensures unasked { (o : Origin) → MayFollow (state_after (tried o 0) records_it) (WaitElapsed (not_asked 0 (seen.Elapsed 1000))) → ⊥ }
{}

/// How a call ends: all are stopped and every failure and end is recorded, but where it gives up.
pub fn calls_end()
    ensures done { (o : Origin) → IsEnd (state_after (is_back o) stops_it) statuses.RolledBack false }
    ensures back { (o : Origin) → IsBack (is_back o) }
    ensures stopping { (o : Origin) → IsStopping (is_back o) stops_it }
    ensures starts { (o : Origin) → IsStart (call_begins (booting_with o)) }
    ensures started_with { (o : Origin) → IsStart (driven o state.Installed 0) → ⊥ }
    ensures started_changed { (o : Origin) → IsStart (record (call_begins (booting_with o)) { generation = current }) → ⊥ }
    ensures unstopped { (o : Origin) → IsEnd (is_back o) statuses.RolledBack false → ⊥ }
    ensures gives_up { (o : Origin) → IsEnd (is_back o) statuses.Disk true }
    ensures memory { (o : Origin) → IsEnd (is_back o) statuses.Memory false }
    ensures not_stopping { (o : Origin) → IsStopping (is_back o) [] → ⊥ }
    ensures cuts { (o : Origin) → IsProper (starting o) (KilledOnAbort (asked 0 (seen.Killed 7)) ∷ []) }
    ensures cut_with { (o : Origin) → IsEnd (state_after (starting o) (KilledOnAbort (asked 0 (seen.Killed 7)) ∷ [])) statuses.Edge false }
    ensures cut_done { (o : Origin) → IsEnd (state_after (starting o) (KilledOnAbort (asked 0 (seen.Killed 7)) ∷ [])) statuses.Done false → ⊥ }
    ensures cut_dead { (o : Origin) → MayFollow (starting o) (KilledOnAbort (asked 0 (seen.Killed 8))) → ⊥ }
    ensures owed { (o : Origin) → IsEnd (tried o 0) statuses.Edge false }
    ensures owed_memory { (o : Origin) → IsEnd (tried o 0) statuses.Memory false → ⊥ }
    ensures living { (o : Origin) → IsEnd (starting o) statuses.Disk true → ⊥ }
{}
