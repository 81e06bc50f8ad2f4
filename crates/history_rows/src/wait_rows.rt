// Worked rows of moments, deadlines and waits, on functions that do nothing.
ghost use Rattle.std.specs.Prelude.{◌∷◌, [], false, codes, List, true};
ghost use Rattle.nuc_base.specs.declared.kinds.Step.TheVariants as step;
ghost use Rattle.nuc_base.specs.declared.kinds.Exit.TheVariants as exits;
ghost use Rattle.nuc_base.specs.declared.kinds.Outcome.TheVariants as outcomes;
ghost use Rattle.nuc_base.specs.declared.status.Status.TheVariants as statuses;
ghost use Rattle.lifecycle.specs.declared.kinds.After.TheVariants as after;
ghost use Rattle.lifecycle.specs.declared.kinds.LifeEvent.TheVariants as event;
ghost use Rattle.records.specs.Stored.{Accepted};
ghost use Rattle.records.specs.declared.record.Origin.{Origin};
ghost use Rattle.device.specs.Lawful.{no_failures};
ghost use Rattle.components.specs.Fitted.{Fitted};
ghost use Rattle.components.specs.Made.{AreFitted};
ghost use Rattle.histories.specs.TraceEvents.{Recorded, Moved, ReadClock, InboxAsked, StopsAll, document, nothing, Changed};
ghost use Rattle.histories.specs.States.{state_after};
ghost use Rattle.histories.specs.Follows.{IsProper, MayFollow};
ghost use Rattle.histories.specs.Courses.{IsEnd};
ghost use Rattle.history_rows.specs.Rows.{Recipes, read_as, with_recipes, plan_of, asked, not_asked, good, b};
ghost use Rattle.history_rows.specs.Words.{begins, starts, dies, kills, passes, closes, fails, shuts, counts_of};
ghost use Rattle.history_rows.specs.WaitRows.{item_a, up_a, both, both_up, fresh, single_taken, after_single_taken, single, after_single, single_starts};
ghost use Rattle.history_rows.specs.WaitRows.{after_single_starts, single_stops, after_single_stops, pair_taken, after_pair_taken, pair, after_pair};
ghost use Rattle.history_rows.specs.WaitRows.{pair_starts, after_pair_starts, pair_ends, pair_late, resumes, third, after_third, third_starts};
ghost use Rattle.history_rows.specs.WaitRows.{after_third_starts, third_fails, after_third_fails, third_stops, after_third_stops, third_back};
ghost use Rattle.history_rows.specs.WaitRows.{after_third_back, pair_brief, serves_pair, turns, after_turns, turns_start, after_turns_start, turns_pass};
ghost use Rattle.history_rows.specs.WaitRows.{after_turns_pass, turns_stop, after_turns_stop, serves_a, adds, after_adds, adds_starts, after_adds_starts};
ghost use Rattle.history_rows.specs.WaitRows.{adds_takes_taken, after_adds_takes_taken, adds_takes, after_adds_takes, adds_comes, after_adds_comes};
ghost use Rattle.history_rows.specs.WaitRows.{adds_stops, after_adds_stops, run_a, run_taken, after_run_taken, run, after_run, run_starts, after_run_starts};
ghost use Rattle.history_rows.specs.WaitRows.{run_stops, after_run_stops};

/// A component comes up and is stopped by its shutdown step. After each wait a moment is asked for before the next entry.
pub fn shuts_down_row()
    ensures opens { (o : Origin) → IsProper (fresh o) single_taken }
    ensures opens_items { (o : Origin) (r : Recipes) (made : List Fitted) → AreFitted o (read_as r (item_a ∷ [])) made →
        IsProper (with_recipes r (after_single_taken o)) (Changed made no_failures false ∷ []) }
    ensures starts { (o : Origin) → IsProper (after_single o) single_starts }
    ensures stops { (o : Origin) → IsProper (after_single_starts o) single_stops }
    ensures ends { (o : Origin) → IsEnd (after_single_stops o) statuses.Done false }
    ensures unasked { (o : Origin) → MayFollow (state_after (after_single_starts o) (Moved 0 (event.Stop after.Gone) ∷ StopsAll ∷ closes outcomes.Successful ∷
        dies (not_asked 0) 0 0 step.Startup good 120000 ∷ [])) (starts (not_asked 0) 1 0 step.Shutdown (codes "q")) → ⊥ }
    ensures as_up { (o : Origin) → MayFollow (after_single_starts o) (closes outcomes.Successful) → ⊥ }
    ensures longer { (o : Origin) → MayFollow (state_after (after_single_starts o) (starts (asked 5) 1 0 step.Shutdown (codes "q") ∷
        Moved 0 (event.Stop after.Gone) ∷ StopsAll ∷ closes outcomes.Successful ∷ ReadClock 5 ∷ dies (not_asked 0) 0 0 step.Startup good 120000 ∷ []))
        (dies (not_asked 5) 1 0 step.Shutdown good 15001) → ⊥ }
{}

/// Two start before anybody waits, each wait is as long as to the least deadline, and what is late is killed though another's end brought
/// the moment.
pub fn two_start_row()
    ensures opens { (o : Origin) → IsProper (fresh o) pair_taken }
    ensures opens_items { (o : Origin) (r : Recipes) (made : List Fitted) → AreFitted o (read_as r both) made → IsProper (with_recipes r (after_pair_taken o))
        (Changed made no_failures false ∷ []) }
    ensures starts { (o : Origin) → IsProper (after_pair o) pair_starts }
    ensures ends { (o : Origin) → IsProper (after_pair_starts o) pair_ends }
    ensures waits { (o : Origin) → MayFollow (state_after (after_pair o)
        (starts (asked 0) 0 0 step.Startup (codes "s") ∷ ReadClock 0 ∷ begins 0 ∷ begins 0 ∷ []))
        (dies (not_asked 0) 0 0 step.Startup good 120000) → ⊥ }
    ensures longer { (o : Origin) → MayFollow (state_after (after_pair_starts o) (ReadClock 2 ∷ dies (not_asked 0) 0 0 step.Startup good 120000 ∷ []))
        (dies (asked 2) 1 1 step.Startup good 120000) → ⊥ }
    ensures late { (o : Origin) → IsProper (after_pair_starts o) pair_late }
    ensures early { (o : Origin) → MayFollow (state_after (after_pair_starts o) (ReadClock 119999 ∷ dies (not_asked 0) 1 1 step.Startup good 120000 ∷ []))
        (kills (asked 119999) 0 0 step.Startup) → ⊥ }
    ensures late_end { (o : Origin) → MayFollow (state_after (after_pair_starts o) (ReadClock 120000 ∷ dies (not_asked 0) 1 1 step.Startup good 120000 ∷ []))
        (dies (asked 120000) 0 0 step.Startup good 0) → ⊥ }
    ensures late_wait { (o : Origin) → MayFollow (state_after (after_pair_starts o) (ReadClock 120000 ∷ dies (not_asked 0) 1 1 step.Startup good 120000 ∷ []))
        (passes (asked 120000) 0) → ⊥ }
    ensures late_close { (o : Origin) → MayFollow (state_after (after_pair_starts o) (kills (asked 120000) 0 0 step.Startup ∷ ReadClock 120000 ∷
        dies (not_asked 0) 1 1 step.Startup good 120000 ∷ [])) (closes outcomes.Successful) → ⊥ }
{}

/// With the third recorded failure nothing begins and nothing waits: the way back begins, all are stopped, and what is stopped so
/// does not fail.
pub fn third_failure_row()
    ensures opens { (o : Origin) (r : Recipes) (made : List Fitted) → AreFitted o (read_as r both) made →
        IsProper (with_recipes r (resumes o)) (Changed made (counts_of 2) false ∷ []) }
    ensures starts { (o : Origin) → IsProper (after_third o) third_starts }
    ensures fails { (o : Origin) → IsProper (after_third_starts o) third_fails }
    ensures stops { (o : Origin) → IsProper (after_third_fails o) third_stops }
    ensures back { (o : Origin) → AreFitted o [] [] → IsProper (after_third_stops o) third_back }
    ensures ends { (o : Origin) → IsEnd (after_third_back o) statuses.RolledBack false }
    ensures waits { (o : Origin) → MayFollow (after_third_fails o) (dies (asked 2) 1 1 step.Startup good 119998) → ⊥ }
    ensures begins { (o : Origin) → MayFollow (after_third_fails o) (begins 0) → ⊥ }
    ensures tries { (o : Origin) → MayFollow (after_third_fails o) (Moved 0 event.Retry) → ⊥ }
    ensures starts_again { (o : Origin) → MayFollow (after_third_fails o) (starts (asked 2) 2 0 step.Startup (codes "s")) → ⊥ }
    ensures stops_before { (o : Origin) → MayFollow (after_third_fails o) (StopsAll) → ⊥ }
    ensures kills_before { (o : Origin) → MayFollow (after_third_fails o) (kills (asked 2) 1 1 step.Startup) → ⊥ }
    ensures as_failure { (o : Origin) → MayFollow (after_third_stops o) (fails b step.Startup exits.Signal) → ⊥ }
{}

/// In a turn of `serve` in which the inbox has nothing the wait is the time to the least deadline, and 1,000 ms at most.
pub fn turns_wait_row()
    ensures opens { (o : Origin) (r : Recipes) (made : List Fitted) → AreFitted o (read_as r both) made →
        IsProper (with_recipes r (serves_pair o)) (Changed made no_failures true ∷ []) }
    ensures starts { (o : Origin) → IsProper (after_turns o) turns_start }
    ensures waits { (o : Origin) → IsProper (after_turns_start o) turns_pass }
    ensures stops { (o : Origin) → IsProper (after_turns_pass o) turns_stop }
    ensures ends { (o : Origin) → IsEnd (after_turns_stop o) statuses.TurnsOver false }
    ensures second { (o : Origin) → MayFollow (state_after (after_turns_start o) (InboxAsked nothing ∷ ReadClock 400 ∷
        dies (not_asked 0) 0 0 step.Startup good 1000 ∷ InboxAsked nothing ∷ [])) (dies (asked 400) 1 1 step.Startup good 1000) → ⊥ }
    ensures first { (o : Origin) → MayFollow (state_after (after_turns_start o) (InboxAsked nothing ∷ [])) (dies (not_asked 0) 0 0 step.Startup good 120000) →
        ⊥ }
    ensures no_turn { (o : Origin) → MayFollow (after_turns_start o) (dies (not_asked 0) 0 0 step.Startup good 1000) → ⊥ }
{}

/// `serve` takes a document while a step of the set lives, and not where one may still begin. What stays is not stopped.
pub fn document_comes_row()
    ensures opens { (o : Origin) (r : Recipes) (made : List Fitted) → AreFitted o (read_as r (item_a ∷ [])) made →
        IsProper (with_recipes r (serves_a o)) (Changed made no_failures true ∷ []) }
    ensures starts { (o : Origin) → IsProper (after_adds o) adds_starts }
    ensures takes { (o : Origin) → IsProper (after_adds_starts o) adds_takes_taken }
    ensures takes_items { (o : Origin) (r : Recipes) (made : List Fitted) → AreFitted o (read_as r both) made →
        IsProper (with_recipes r (after_adds_takes_taken o)) (Changed made no_failures false ∷ []) }
    ensures comes { (o : Origin) → IsProper (after_adds_takes o) adds_comes }
    ensures stops { (o : Origin) → IsProper (after_adds_comes o) adds_stops }
    ensures ends { (o : Origin) → IsEnd (after_adds_stops o) statuses.TurnsOver false }
    ensures asks { (o : Origin) → MayFollow (after_adds o) (InboxAsked document) → ⊥ }
    ensures accepts { (o : Origin) → MayFollow (state_after (after_adds_starts o) (ReadClock 120000 ∷ InboxAsked document ∷ []))
        (Recorded (Accepted (plan_of both []))) → ⊥ }
    ensures stays { (o : Origin) → MayFollow (after_adds_takes o) (kills (not_asked 0) 0 0 step.Startup) → ⊥ }
{}

/// With one that runs the deployment closes without a wait, and at the end it is killed.
pub fn runs_and_closes_row()
    ensures opens { (o : Origin) → IsProper (fresh o) run_taken }
    ensures opens_items { (o : Origin) (r : Recipes) (made : List Fitted) → AreFitted o (read_as r (item_a ∷ [])) made →
        IsProper (with_recipes r (after_run_taken o)) (Changed made no_failures false ∷ []) }
    ensures starts { (o : Origin) → IsProper (after_run o) run_starts }
    ensures stops { (o : Origin) → IsProper (after_run_starts o) run_stops }
    ensures ends { (o : Origin) → IsEnd (after_run_stops o) statuses.Done false }
    ensures waits { (o : Origin) → MayFollow (after_run_starts o) (passes (not_asked 0) 1000) → ⊥ }
    ensures living { (o : Origin) → IsEnd (state_after (after_run_starts o) (StopsAll ∷ closes outcomes.Successful ∷ [])) statuses.Done false → ⊥ }
{}
