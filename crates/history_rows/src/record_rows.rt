// Worked rows of failures and their records, on functions that do nothing.
ghost use Rattle.std.specs.Prelude.{◌∷◌, [], pos, true, false, codes, List};
ghost use Rattle.nuc_base.specs.declared.kinds.Step.TheVariants as step;
ghost use Rattle.nuc_base.specs.declared.kinds.Exit.TheVariants as exits;
ghost use Rattle.nuc_base.specs.declared.status.Status.TheVariants as statuses;
ghost use Rattle.lifecycle.specs.declared.kinds.LifeEvent.TheVariants as event;
ghost use Rattle.records.specs.declared.record.Origin.{Origin};
ghost use Rattle.device.specs.Lawful.{no_failures};
ghost use Rattle.components.specs.Fitted.{Fitted};
ghost use Rattle.components.specs.Made.{AreFitted};
ghost use Rattle.histories.specs.TraceEvents.{Moved, ReadClock, Heard, InboxAsked, nothing, Changed};
ghost use Rattle.histories.specs.States.{state_after};
ghost use Rattle.histories.specs.Follows.{IsProper, MayFollow};
ghost use Rattle.histories.specs.Courses.{IsEnd};
ghost use Rattle.history_rows.specs.Rows.{Recipes, read_as, with_recipes, asked, not_asked, good, bad, a};
ghost use Rattle.history_rows.specs.Words.{begins, starts, dies, kills, passes, gives_up, fails, counts_of};
ghost use Rattle.history_rows.specs.RecordRows.{item_a, up_a, run_a, both, both_up, fresh, again_taken, after_again_taken, again, after_again, again_fails};
ghost use Rattle.history_rows.specs.RecordRows.{after_again_fails, again_tries, after_again_tries, again_stops, after_again_stops, giving_taken};
ghost use Rattle.history_rows.specs.RecordRows.{after_giving_taken, giving, after_giving, giving_fails, after_giving_fails, giving_cuts, after_giving_cuts};
ghost use Rattle.history_rows.specs.RecordRows.{resumes, late, after_late, late_starts, after_late_starts, late_fails, after_late_fails, late_stops};
ghost use Rattle.history_rows.specs.RecordRows.{after_late_stops, serves_none, later, after_later, later_changes, after_later_changes, later_refused};
ghost use Rattle.history_rows.specs.RecordRows.{after_later_refused, later_runs, after_later_runs, later_fails, after_later_fails, later_again};
ghost use Rattle.history_rows.specs.RecordRows.{after_later_again};

/// A failure is recorded as it came before the next start, and then it is tried again.
pub fn tries_again_row()
    ensures opens { (o : Origin) → IsProper (fresh o) again_taken }
    ensures opens_items { (o : Origin) (r : Recipes) (made : List Fitted) → AreFitted o (read_as r (item_a ∷ [])) made →
        IsProper (with_recipes r (after_again_taken o)) (Changed made no_failures false ∷ []) }
    ensures fails { (o : Origin) → IsProper (after_again o) again_fails }
    ensures tries { (o : Origin) → IsProper (after_again_fails o) again_tries }
    ensures stops { (o : Origin) → IsProper (after_again_tries o) again_stops }
    ensures ends { (o : Origin) → IsEnd (after_again_stops o) statuses.Done false }
    ensures starts { (o : Origin) → MayFollow (after_again_fails o) (starts (asked 2) 1 0 step.Startup (codes "s")) → ⊥ }
    ensures retries { (o : Origin) → MayFollow (after_again_fails o) (Moved 0 event.Retry) → ⊥ }
    ensures as_other { (o : Origin) → MayFollow (after_again_fails o) (fails a step.Startup (exits.Code (pos 2))) → ⊥ }
    ensures as_step { (o : Origin) → MayFollow (after_again_fails o) (fails a step.Run bad) → ⊥ }
    ensures before { (o : Origin) → MayFollow (state_after (after_again o) (starts (asked 0) 0 0 step.Startup (codes "s") ∷ ReadClock 0 ∷ begins 0 ∷
        begins 0 ∷ [])) (fails a step.Startup bad) → ⊥ }
    ensures unrecorded { (o : Origin) → IsEnd (after_again_fails o) statuses.Done false → ⊥ }
{}

/// A call that gives up asks for a moment after a wait, kills what lives, and may leave the last failures without a record. After that
/// nothing starts and nothing is waited for.
pub fn gives_up_row()
    ensures opens { (o : Origin) → IsProper (fresh o) giving_taken }
    ensures opens_items { (o : Origin) (r : Recipes) (made : List Fitted) → AreFitted o (read_as r both) made →
        IsProper (with_recipes r (after_giving_taken o)) (Changed made no_failures false ∷ []) }
    ensures fails { (o : Origin) → IsProper (after_giving o) giving_fails }
    ensures cuts { (o : Origin) → IsProper (after_giving_fails o) giving_cuts }
    ensures ends { (o : Origin) → IsEnd (after_giving_cuts o) statuses.Disk true }
    ensures ends_edge { (o : Origin) → IsEnd (after_giving_cuts o) statuses.Edge true }
    ensures starts { (o : Origin) → MayFollow (state_after (after_giving_fails o) (ReadClock 2 ∷ [])) (starts (asked 2) 2 0 step.Startup (codes "s")) → ⊥ }
    ensures waits { (o : Origin) → MayFollow (state_after (after_giving_fails o) (ReadClock 2 ∷ [])) (dies (asked 2) 1 1 step.Startup good 119998) → ⊥ }
    ensures unasked { (o : Origin) → MayFollow (after_giving_fails o) (gives_up (not_asked 0) 1) → ⊥ }
    ensures after_cut { (o : Origin) → MayFollow (after_giving_cuts o) (fails a step.Startup bad) → ⊥ }
    ensures living { (o : Origin) → IsEnd (state_after (after_giving_fails o) (ReadClock 2 ∷ [])) statuses.Disk true → ⊥ }
    ensures as_done { (o : Origin) → IsEnd (after_giving_cuts o) statuses.Done false → ⊥ }
{}

/// What is late beside a third failure is killed after the close, as all are, and that is no failure.
pub fn late_at_close_row()
    ensures opens { (o : Origin) (r : Recipes) (made : List Fitted) → AreFitted o (read_as r both) made →
        IsProper (with_recipes r (resumes o)) (Changed made (counts_of 2) false ∷ []) }
    ensures starts { (o : Origin) → IsProper (after_late o) late_starts }
    ensures fails { (o : Origin) → IsProper (after_late_starts o) late_fails }
    ensures stops { (o : Origin) → IsProper (after_late_fails o) late_stops }
    ensures ends { (o : Origin) → IsEnd (after_late_stops o) statuses.NotRequested false }
    ensures unrecorded { (o : Origin) → MayFollow (state_after (after_late_starts o) (kills (asked 120000) 0 0 step.Startup ∷ []))
        (kills (not_asked 120000) 1 1 step.Startup) → ⊥ }
    ensures second { (o : Origin) → MayFollow (after_late_starts o) (kills (asked 120000) 1 1 step.Startup) → ⊥ }
    ensures waits { (o : Origin) → MayFollow (after_late_starts o) (passes (asked 120000) 0) → ⊥ }
{}

/// Failures are forgotten where the deployment closes: a later one is the first. Where nothing is pending none is recorded.
pub fn forgets_at_close_row()
    ensures opens { (o : Origin) → AreFitted o [] [] → IsProper (serves_none o) later }
    ensures changes { (o : Origin) (r : Recipes) (made : List Fitted) → AreFitted o (read_as r (item_a ∷ [])) made →
        IsProper (with_recipes r (after_later o)) (Changed made no_failures false ∷ []) }
    ensures refused { (o : Origin) → IsProper (after_later_changes o) later_refused }
    ensures runs { (o : Origin) → IsProper (after_later_refused o) later_runs }
    ensures fails { (o : Origin) → IsProper (after_later_runs o) later_fails }
    ensures again { (o : Origin) → IsProper (after_later_fails o) later_again }
    ensures ends { (o : Origin) → IsEnd (after_later_again o) statuses.TurnsOver false }
    ensures idles { (o : Origin) → MayFollow (after_later_fails o) (InboxAsked nothing) → ⊥ }
    ensures waits { (o : Origin) → MayFollow (after_later_fails o) (passes (asked 7) 1000) → ⊥ }
    ensures recorded { (o : Origin) → MayFollow (state_after (after_later_runs o) (Heard 0 ∷ ReadClock 7 ∷ dies (not_asked 0) 0 0 step.Run bad 1000 ∷
        InboxAsked nothing ∷ [])) (fails a step.Run bad) → ⊥ }
{}
