// Worked rows of components that stand, on functions that do nothing.
ghost use Rattle.std.specs.Prelude.{◌∷◌, ◌≡◌, [], true, false, codes, List};
ghost use Rattle.nuc_base.specs.declared.kinds.Step.TheVariants as step;
ghost use Rattle.nuc_base.specs.declared.kinds.Exit.TheVariants as exits;
ghost use Rattle.nuc_base.specs.declared.kinds.Outcome.TheVariants as outcomes;
ghost use Rattle.nuc_base.specs.declared.status.Status.TheVariants as statuses;
ghost use Rattle.lifecycle.specs.declared.kinds.After.TheVariants as after;
ghost use Rattle.lifecycle.specs.declared.kinds.LifeEvent.TheVariants as event;
ghost use Rattle.lifecycle.specs.declared.kinds.State.TheVariants as state;
ghost use Rattle.records.specs.Stored.{Accepted};
ghost use Rattle.records.specs.declared.record.Origin.{Origin};
ghost use Rattle.step_runner.specs.declared.entries.Seen.TheVariants as seen;
ghost use Rattle.device.specs.Lawful.{no_failures};
ghost use Rattle.components.specs.Fitted.{Fitted};
ghost use Rattle.components.specs.Made.{AreFitted};
ghost use Rattle.histories.specs.TraceEvents.{Ran, Recorded, Moved, ReadClock, Heard, InboxAsked, Changed, StopsAll, nothing};
ghost use Rattle.histories.specs.States.{state_after};
ghost use Rattle.histories.specs.Follows.{IsProper, MayFollow};
ghost use Rattle.histories.specs.Courses.{IsEnd};
ghost use Rattle.history_rows.specs.Rows.{Recipes, read_as, with_recipes, plan_of, asked, not_asked, a, states_of};
ghost use Rattle.history_rows.specs.Words.{begins, starts, refuses, passes, closes, fails, shuts};
ghost use Rattle.history_rows.specs.StandRows.{item_a, newer_a, both, fresh, newer_up, serves_older, older, after_older, older_starts, after_older_starts};
ghost use Rattle.history_rows.specs.StandRows.{newer_taken, after_newer_taken, newer, after_newer, newer_stops, after_newer_stops, newer_comes};
ghost use Rattle.history_rows.specs.StandRows.{after_newer_comes, newer_shuts, after_newer_shuts, hardly, serves_hard, steady, after_steady, steady_first};
ghost use Rattle.history_rows.specs.StandRows.{after_steady_first, steady_fails, after_steady_fails, steady_again, after_steady_again, steady_third};
ghost use Rattle.history_rows.specs.StandRows.{after_steady_third, steady_stops, after_steady_stops, skips_a, probes_taken, after_probes_taken, probes};
ghost use Rattle.history_rows.specs.StandRows.{after_probes, probes_begins, after_probes_begins, probes_yes, after_probes_yes, probes_stops};
ghost use Rattle.history_rows.specs.StandRows.{after_probes_stops, probes_no, installs_a, installs_taken, after_installs_taken, installs, after_installs};
ghost use Rattle.history_rows.specs.StandRows.{installs_comes, softly, serves_soft, soft, after_soft, soft_fails, after_soft_fails, soft_breaks};
ghost use Rattle.history_rows.specs.StandRows.{after_soft_breaks, soft_begins, after_soft_begins, soft_stops, after_soft_stops, texts_before, texts_now};
ghost use Rattle.history_rows.specs.StandRows.{set_both, serves_texts, text, after_text, text_starts, after_text_starts, text_takes_taken};
ghost use Rattle.history_rows.specs.StandRows.{after_text_takes_taken, text_takes, after_text_takes, text_replaces, after_text_replaces, text_stops};
ghost use Rattle.history_rows.specs.StandRows.{after_text_stops, up_a, serves_none, stays, after_stays, stays_changes, after_stays_changes, stays_fails};
ghost use Rattle.history_rows.specs.StandRows.{after_stays_fails, stays_closes, after_stays_closes, stays_idles, after_stays_idles, after_comes_again};
ghost use Rattle.history_rows.specs.StandRows.{again_begins, after_again_begins};

/// One that is replaced is stopped by the steps of its earlier item, and then comes up with those of the new one.
pub fn newer_version_row()
    ensures opens { (o : Origin) (r : Recipes) (made : List Fitted) → AreFitted o (read_as r (item_a ∷ [])) made → IsProper (with_recipes r (serves_older o))
        (Changed made no_failures true ∷ []) }
    ensures starts { (o : Origin) → IsProper (after_older o) older_starts }
    ensures takes { (o : Origin) → IsProper (after_older_starts o) newer_taken }
    ensures takes_items { (o : Origin) (r : Recipes) (made : List Fitted) → AreFitted o (read_as r (newer_a ∷ [])) made →
        IsProper (with_recipes r (after_newer_taken o)) (Changed made no_failures false ∷ []) }
    ensures stops { (o : Origin) → IsProper (after_newer o) newer_stops }
    ensures comes { (o : Origin) → IsProper (after_newer_stops o) newer_comes }
    ensures shuts { (o : Origin) → IsProper (after_newer_comes o) newer_shuts }
    ensures ends { (o : Origin) → IsEnd (after_newer_shuts o) statuses.TurnsOver false }
    ensures newer_shutdown { (o : Origin) → MayFollow (state_after (after_newer o) (Moved 0 (event.Stop after.Again) ∷ []))
        (starts (asked 3) 1 0 step.Shutdown (codes "w")) → ⊥ }
    ensures older_startup { (o : Origin) → MayFollow (state_after (after_newer_stops o) (begins 0 ∷ begins 0 ∷ []))
        (starts (asked 9) 2 0 step.Startup (codes "s")) → ⊥ }
    ensures closes { (o : Origin) → MayFollow (after_newer o) (closes outcomes.Successful) → ⊥ }
    ensures begins { (o : Origin) → MayFollow (after_newer o) (begins 0) → ⊥ }
{}

/// Where nothing is pending the failures are forgotten at a success by startup, so after a restart it may fail twice again.
pub fn steady_failures_row()
    ensures opens { (o : Origin) (r : Recipes) (made : List Fitted) → AreFitted o (read_as r both) made →
        IsProper (with_recipes r (serves_hard o)) (Changed made no_failures true ∷ []) }
    ensures first { (o : Origin) → IsProper (after_steady o) steady_first }
    ensures fails { (o : Origin) → IsProper (after_steady_first o) steady_fails }
    ensures again { (o : Origin) → IsProper (after_steady_fails o) steady_again }
    ensures third { (o : Origin) → IsProper (after_steady_again o) steady_third }
    ensures stops { (o : Origin) → IsProper (after_steady_third o) steady_stops }
    ensures ends { (o : Origin) → IsEnd (after_steady_stops o) statuses.TurnsOver false }
    ensures idles { (o : Origin) → MayFollow (after_steady_again o) (InboxAsked nothing) → ⊥ }
    ensures waits { (o : Origin) → MayFollow (after_steady_again o) (passes (not_asked 9) 1000) → ⊥ }
    ensures sooner { (o : Origin) → MayFollow (after_steady_fails o) (Moved 1 event.Retry) → ⊥ }
    ensures recorded { (o : Origin) → MayFollow (state_after (after_steady o) (Heard 0 ∷ refuses (not_asked 0) 0 step.Startup (codes "s") ∷ begins 0 ∷
        begins 0 ∷ starts (asked 0) 0 1 step.Run (codes "r") ∷ ReadClock 0 ∷ begins 1 ∷ begins 1 ∷ [])) (fails a step.Startup exits.NotStarted) → ⊥ }
{}

/// A startup that is skipped leads to RUNNING without a child; without its probe it is not skipped, and after a yes it is not started.
pub fn skipped_startup_row()
    ensures opens { (o : Origin) → IsProper (fresh o) probes_taken }
    ensures opens_items { (o : Origin) (r : Recipes) (made : List Fitted) → AreFitted o (read_as r (item_a ∷ [])) made →
        IsProper (with_recipes r (after_probes_taken o)) (Changed made no_failures false ∷ []) }
    ensures begins { (o : Origin) → IsProper (after_probes o) probes_begins }
    ensures skips { (o : Origin) → IsProper (after_probes_begins o) probes_yes }
    ensures running { (o : Origin) → states_of (after_probes_yes o).world.parts ≡ state.Running ∷ [] }
    ensures stops { (o : Origin) → IsProper (after_probes_yes o) probes_stops }
    ensures ends { (o : Origin) → IsEnd (after_probes_stops o) statuses.Done false }
    ensures starts { (o : Origin) → IsProper (after_probes_begins o) probes_no }
    ensures after_yes { (o : Origin) → MayFollow (state_after (after_probes_begins o) (Ran (asked 0 (seen.Exists (codes "/x") true)) 0 step.Startup ∷ []))
        (starts (not_asked 0) 0 0 step.Startup (codes "s")) → ⊥ }
    ensures once { (o : Origin) → MayFollow (state_after (after_probes_begins o) (begins 0 ∷ Moved 0 event.Retry ∷ fails a step.Startup exits.NotStarted ∷
        refuses (not_asked 0) 0 step.Startup (codes "s") ∷ Ran (asked 0 (seen.Exists (codes "/x") false)) 0 step.Startup ∷ []))
        (starts (not_asked 0) 0 0 step.Startup (codes "s")) → ⊥ }
    ensures waits { (o : Origin) → MayFollow (state_after (after_probes_begins o)
        (ReadClock 0 ∷ Ran (asked 0 (seen.Exists (codes "/x") false)) 0 step.Startup ∷ [])) (passes (asked 0) 1000) → ⊥ }
    ensures unprobed { (o : Origin) → MayFollow (after_probes_begins o) (closes outcomes.Successful) → ⊥ }
    ensures starts_unprobed { (o : Origin) → MayFollow (after_probes_begins o) (starts (asked 0) 0 0 step.Startup (codes "s")) → ⊥ }
{}

/// One with an install step runs it before its startup, and no component of the plan starts before the plan is activated.
pub fn installs_first_row()
    ensures opens { (o : Origin) → IsProper (fresh o) installs_taken }
    ensures opens_items { (o : Origin) (r : Recipes) (made : List Fitted) → AreFitted o (read_as r (item_a ∷ [])) made →
        IsProper (with_recipes r (after_installs_taken o)) (Changed made no_failures false ∷ []) }
    ensures comes { (o : Origin) → IsProper (after_installs o) installs_comes }
    ensures startup { (o : Origin) → MayFollow (state_after (after_installs o) (ReadClock 0 ∷ begins 0 ∷ []))
        (starts (asked 0) 0 0 step.Startup (codes "s")) → ⊥ }
    ensures booting { (o : Origin) (r : Recipes) (made : List Fitted) →
        MayFollow (with_recipes r (state_after (fresh o) (Recorded (Accepted (plan_of (item_a ∷ []) [])) ∷ []))) (Changed made no_failures false) → ⊥ }
    ensures begins { (o : Origin) → MayFollow (state_after (fresh o) (Recorded (Accepted (plan_of (item_a ∷ []) [])) ∷ [])) (begins 0) → ⊥ }
{}

/// What is needed softly may be broken: one begins after its third failure, and not before.
pub fn soft_broken_row()
    ensures opens { (o : Origin) (r : Recipes) (made : List Fitted) → AreFitted o (read_as r both) made →
        IsProper (with_recipes r (serves_soft o)) (Changed made no_failures true ∷ []) }
    ensures fails { (o : Origin) → IsProper (after_soft o) soft_fails }
    ensures breaks { (o : Origin) → IsProper (after_soft_fails o) soft_breaks }
    ensures begins { (o : Origin) → IsProper (after_soft_breaks o) soft_begins }
    ensures stops { (o : Origin) → IsProper (after_soft_begins o) soft_stops }
    ensures ends { (o : Origin) → IsEnd (after_soft_stops o) statuses.TurnsOver false }
    ensures before { (o : Origin) → MayFollow (after_soft_fails o) (begins 0) → ⊥ }
    ensures installed { (o : Origin) → MayFollow (state_after (after_soft_fails o) (Moved 1 event.Retry ∷ [])) (begins 0) → ⊥ }
    ensures fourth { (o : Origin) → MayFollow (after_soft_breaks o) (Moved 1 event.Retry) → ⊥ }
    ensures again { (o : Origin) (r : Recipes) (made : List Fitted) → AreFitted o (read_as r both) made →
        IsProper (with_recipes r (after_soft_begins o)) (Changed made no_failures true ∷ []) }
    ensures unbroken { (o : Origin) (r : Recipes) (made : List Fitted) → MayFollow (with_recipes r (after_soft_fails o)) (Changed made no_failures true) → ⊥ }
    ensures busy { (o : Origin) (r : Recipes) (made : List Fitted) → MayFollow (with_recipes r (after_soft_breaks o)) (Changed made no_failures true) → ⊥ }
{}

/// One that stays runs its shutdown with the texts as they are now, where another configuration comes for what it needs softly.
pub fn newer_texts_row()
    ensures opens { (o : Origin) (r : Recipes) (made : List Fitted) → AreFitted o (read_as r both) made → IsProper (with_recipes r (serves_texts o))
        (Changed made no_failures true ∷ []) }
    ensures starts { (o : Origin) → IsProper (after_text o) text_starts }
    ensures takes { (o : Origin) → IsProper (after_text_starts o) text_takes_taken }
    ensures takes_items { (o : Origin) (r : Recipes) (made : List Fitted) → AreFitted o (read_as r set_both) made →
        IsProper (with_recipes r (after_text_takes_taken o)) (Changed made no_failures false ∷ []) }
    ensures replaces { (o : Origin) → IsProper (after_text_takes o) text_replaces }
    ensures stops { (o : Origin) → IsProper (after_text_replaces o) text_stops }
    ensures ends { (o : Origin) → IsEnd (after_text_stops o) statuses.TurnsOver false }
    ensures before { (o : Origin) → MayFollow (state_after (after_text_replaces o) (Moved 0 (event.Stop after.Gone) ∷ StopsAll ∷ []))
        (starts (asked 3) 1 0 step.Shutdown (codes "x")) → ⊥ }
    ensures closes { (o : Origin) → MayFollow (after_text_takes o) (closes outcomes.Successful) → ⊥ }
{}

/// One that is broken where the deployment closes without it is not tried again, but comes up again with the set: once, since it
/// is to be stopped from there on, and begins anew.
pub fn stays_broken_row()
    ensures opens { (o : Origin) → AreFitted o [] [] → IsProper (serves_none o) stays }
    ensures changes { (o : Origin) (r : Recipes) (made : List Fitted) → AreFitted o (read_as r (item_a ∷ [])) made →
        IsProper (with_recipes r (after_stays o)) (Changed made no_failures false ∷ []) }
    ensures fails { (o : Origin) → IsProper (after_stays_changes o) stays_fails }
    ensures closes { (o : Origin) → IsProper (after_stays_fails o) stays_closes }
    ensures idles { (o : Origin) → IsProper (after_stays_closes o) stays_idles }
    ensures ends { (o : Origin) → IsEnd (after_stays_idles o) statuses.TurnsOver false }
    ensures retries { (o : Origin) → MayFollow (after_stays_closes o) (Moved 0 event.Retry) → ⊥ }
    ensures begins { (o : Origin) → MayFollow (after_stays_closes o) (begins 0) → ⊥ }
    ensures starts { (o : Origin) → MayFollow (after_stays_closes o) (starts (not_asked 0) 0 0 step.Startup (codes "s")) → ⊥ }
    ensures again { (o : Origin) (r : Recipes) (made : List Fitted) → AreFitted o (read_as r (item_a ∷ [])) made →
        IsProper (with_recipes r (after_stays_closes o)) (Changed made no_failures true ∷ []) }
    ensures again_begins { (o : Origin) → IsProper (after_comes_again o) again_begins }
    ensures again_starts { (o : Origin) → MayFollow (after_again_begins o) (starts (asked 0) 0 0 step.Startup (codes "s")) }
    ensures twice { (o : Origin) (r : Recipes) (made : List Fitted) → MayFollow (with_recipes r (after_comes_again o)) (Changed made no_failures true) → ⊥ }
{}
