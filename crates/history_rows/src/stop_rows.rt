// Worked rows of stops, on functions that do nothing.
ghost use Rattle.std.specs.Prelude.{◌∷◌, [], false, codes, List, true};
ghost use Rattle.nuc_base.specs.declared.kinds.Step.TheVariants as step;
ghost use Rattle.nuc_base.specs.declared.kinds.Outcome.TheVariants as outcomes;
ghost use Rattle.nuc_base.specs.declared.status.Status.TheVariants as statuses;
ghost use Rattle.lifecycle.specs.declared.kinds.After.TheVariants as after;
ghost use Rattle.lifecycle.specs.declared.kinds.LifeEvent.TheVariants as event;
ghost use Rattle.records.specs.declared.record.Origin.{Origin};
ghost use Rattle.device.specs.Lawful.{no_failures};
ghost use Rattle.components.specs.Fitted.{Fitted};
ghost use Rattle.components.specs.Made.{AreFitted};
ghost use Rattle.histories.specs.TraceEvents.{Moved, ReadClock, StopsAll, Changed};
ghost use Rattle.histories.specs.States.{state_after};
ghost use Rattle.histories.specs.Follows.{IsProper, MayFollow};
ghost use Rattle.histories.specs.Courses.{IsEnd};
ghost use Rattle.history_rows.specs.Rows.{Recipes, read_as, with_recipes, runs, starts_up, asked, not_asked, good, bad, b};
ghost use Rattle.history_rows.specs.Words.{begins, starts, dies, kills, closes, fails, shuts};
ghost use Rattle.history_rows.specs.StopRows.{item_a, item_b, both, fresh, shut_both, chain_taken, after_chain_taken, chain, after_chain, chain_first};
ghost use Rattle.history_rows.specs.StopRows.{after_chain_first, chain_second, after_chain_second, chain_stops, after_chain_stops, hardly, softly};
ghost use Rattle.history_rows.specs.StopRows.{hard_taken, after_hard_taken, hard, after_hard, hard_starts, after_hard_starts, hard_fails, after_hard_fails};
ghost use Rattle.history_rows.specs.StopRows.{hard_restarts, after_hard_restarts, hard_stops, after_hard_stops, soft_taken, after_soft_taken, soft};
ghost use Rattle.history_rows.specs.StopRows.{after_soft, soft_starts, after_soft_starts, soft_fails, after_soft_fails, serves_a, away, after_away};
ghost use Rattle.history_rows.specs.StopRows.{away_starts, after_away_starts, away_takes_taken, after_away_takes_taken, away_takes, after_away_takes};
ghost use Rattle.history_rows.specs.StopRows.{away_stops, after_away_stops, away_closes, after_away_closes, needing, replaced, needing_newer, serves_two};
ghost use Rattle.history_rows.specs.StopRows.{dying, after_dying, dying_starts, after_dying_starts, dying_takes_taken, after_dying_takes_taken, dying_takes};
ghost use Rattle.history_rows.specs.StopRows.{after_dying_takes, dying_ends, after_dying_ends, dying_stops, after_dying_stops, dying_comes};
ghost use Rattle.history_rows.specs.StopRows.{after_dying_comes, dying_shuts, after_dying_shuts, coming, serves_b, new, after_new, new_starts};
ghost use Rattle.history_rows.specs.StopRows.{after_new_starts, new_takes_taken, after_new_takes_taken, new_takes, after_new_takes, new_comes};
ghost use Rattle.history_rows.specs.StopRows.{after_new_comes, new_stops, after_new_stops};

/// What is needed hard comes up first and is stopped last.
pub fn needs_shut_row()
    ensures opens { (o : Origin) → IsProper (fresh o) chain_taken }
    ensures opens_items { (o : Origin) (r : Recipes) (made : List Fitted) → AreFitted o (read_as r both) made →
        IsProper (with_recipes r (after_chain_taken o)) (Changed made no_failures false ∷ []) }
    ensures first { (o : Origin) → IsProper (after_chain o) chain_first }
    ensures second { (o : Origin) → IsProper (after_chain_first o) chain_second }
    ensures stops { (o : Origin) → IsProper (after_chain_second o) chain_stops }
    ensures ends { (o : Origin) → IsEnd (after_chain_stops o) statuses.Done false }
    ensures early { (o : Origin) → MayFollow (after_chain_first o) (begins 0) → ⊥ }
    ensures begins { (o : Origin) → MayFollow (after_chain o) (begins 0) → ⊥ }
    ensures order { (o : Origin) → MayFollow (state_after (after_chain_second o) (starts (asked 2) 2 0 step.Shutdown (codes "q") ∷
        Moved 0 (event.Stop after.Gone) ∷ StopsAll ∷ [])) (Moved 1 (event.Stop after.Gone)) → ⊥ }
    ensures starts { (o : Origin) → MayFollow (state_after (after_chain_second o) (starts (asked 2) 2 0 step.Shutdown (codes "q") ∷
        Moved 0 (event.Stop after.Gone) ∷ StopsAll ∷ [])) (starts (not_asked 2) 3 1 step.Shutdown (codes "q")) → ⊥ }
    ensures unstopped { (o : Origin) → MayFollow (after_chain_second o) (Moved 0 (event.Stop after.Gone)) → ⊥ }
    ensures living { (o : Origin) → IsEnd (state_after (after_chain_second o) (starts (asked 3) 3 1 step.Shutdown (codes "q") ∷
        Moved 1 (event.Stop after.Gone) ∷ ReadClock 3 ∷ dies (not_asked 2) 2 0 step.Shutdown good 15000 ∷ starts (asked 2) 2 0 step.Shutdown (codes "q") ∷
        Moved 0 (event.Stop after.Gone) ∷ StopsAll ∷ [])) statuses.Done false → ⊥ }
{}

/// One that starts is killed where what it needs hard fails, before that one is tried again. It is not where it needs it softly.
pub fn needed_fails_row()
    ensures opens { (o : Origin) → IsProper (fresh o) hard_taken }
    ensures opens_items { (o : Origin) (r : Recipes) (made : List Fitted) → AreFitted o (read_as r both) made → IsProper (with_recipes r (after_hard_taken o))
        (Changed made no_failures false ∷ []) }
    ensures starts { (o : Origin) → IsProper (after_hard o) hard_starts }
    ensures fails { (o : Origin) → IsProper (after_hard_starts o) hard_fails }
    ensures restarts { (o : Origin) → IsProper (after_hard_fails o) hard_restarts }
    ensures stops { (o : Origin) → IsProper (after_hard_restarts o) hard_stops }
    ensures ends { (o : Origin) → IsEnd (after_hard_stops o) statuses.Done false }
    ensures least { (o : Origin) → MayFollow (after_hard_fails o) (Moved 1 event.Retry) → ⊥ }
    ensures before { (o : Origin) → MayFollow (after_hard_starts o) (kills (not_asked 0) 1 0 step.Startup) → ⊥ }
    ensures unstopped { (o : Origin) → MayFollow (state_after (after_hard_restarts o) (Moved 0 (event.Stop after.Gone) ∷ StopsAll ∷ []))
        (starts (asked 6) 4 0 step.Startup (codes "s")) → ⊥ }
    ensures opens_softly { (o : Origin) → IsProper (fresh o) soft_taken }
    ensures opens_softly_items { (o : Origin) (r : Recipes) (made : List Fitted) → AreFitted o (read_as r both) made →
        IsProper (with_recipes r (after_soft_taken o)) (Changed made no_failures false ∷ []) }
    ensures starts_softly { (o : Origin) → IsProper (after_soft o) soft_starts }
    ensures fails_softly { (o : Origin) → IsProper (after_soft_starts o) soft_fails }
    ensures softly { (o : Origin) → MayFollow (after_soft_fails o) (kills (asked 4) 1 0 step.Startup) → ⊥ }
    ensures goes_on { (o : Origin) → MayFollow (after_soft_fails o) (Moved 1 event.Retry) }
{}

/// What goes away is stopped by its shutdown step before the deployment closes.
pub fn goes_away_row()
    ensures opens { (o : Origin) (r : Recipes) (made : List Fitted) → AreFitted o (read_as r (item_a ∷ [])) made →
        IsProper (with_recipes r (serves_a o)) (Changed made no_failures true ∷ []) }
    ensures starts { (o : Origin) → IsProper (after_away o) away_starts }
    ensures takes { (o : Origin) → IsProper (after_away_starts o) away_takes_taken }
    ensures takes_items { (o : Origin) (r : Recipes) (made : List Fitted) → AreFitted o (read_as r (item_b ∷ [])) made →
        IsProper (with_recipes r (after_away_takes_taken o)) (Changed made no_failures false ∷ []) }
    ensures stops { (o : Origin) → IsProper (after_away_takes o) away_stops }
    ensures closes { (o : Origin) → IsProper (after_away_stops o) away_closes }
    ensures ends { (o : Origin) → IsEnd (after_away_closes o) statuses.TurnsOver false }
    ensures early { (o : Origin) → MayFollow (after_away_stops o) (closes outcomes.Successful) → ⊥ }
    ensures begins { (o : Origin) → MayFollow (after_away_takes o) (begins 1) → ⊥ }
{}

/// One that is to be replaced and fails by itself before it is stopped gives no failure.
pub fn fails_while_replaced_row()
    ensures opens { (o : Origin) (r : Recipes) (made : List Fitted) → AreFitted o (read_as r both) made →
        IsProper (with_recipes r (serves_two o)) (Changed made no_failures true ∷ []) }
    ensures starts { (o : Origin) → IsProper (after_dying o) dying_starts }
    ensures takes { (o : Origin) → IsProper (after_dying_starts o) dying_takes_taken }
    ensures takes_items { (o : Origin) (r : Recipes) (made : List Fitted) → AreFitted o (read_as r replaced) made →
        IsProper (with_recipes r (after_dying_takes_taken o)) (Changed made no_failures false ∷ []) }
    ensures dies { (o : Origin) → IsProper (after_dying_takes o) dying_ends }
    ensures stops { (o : Origin) → IsProper (after_dying_ends o) dying_stops }
    ensures comes { (o : Origin) → IsProper (after_dying_stops o) dying_comes }
    ensures shuts { (o : Origin) → IsProper (after_dying_comes o) dying_shuts }
    ensures ends { (o : Origin) → IsEnd (after_dying_shuts o) statuses.TurnsOver false }
    ensures recorded { (o : Origin) → MayFollow (after_dying_ends o) (fails b step.Run bad) → ⊥ }
    ensures older { (o : Origin) → MayFollow (state_after (after_dying_stops o) (begins 1 ∷ begins 1 ∷ [])) (starts (asked 5) 3 1 step.Run (codes "r")) → ⊥ }
    ensures sooner { (o : Origin) → MayFollow (after_dying_ends o) (Moved 1 (event.Stop after.Again)) → ⊥ }
{}

/// One that did not stand before waits until what it needs is replaced and up again.
pub fn newcomer_row()
    ensures opens { (o : Origin) (r : Recipes) (made : List Fitted) → AreFitted o (read_as r (item_b ∷ [])) made →
        IsProper (with_recipes r (serves_b o)) (Changed made no_failures true ∷ []) }
    ensures starts { (o : Origin) → IsProper (after_new o) new_starts }
    ensures takes { (o : Origin) → IsProper (after_new_starts o) new_takes_taken }
    ensures takes_items { (o : Origin) (r : Recipes) (made : List Fitted) → AreFitted o (read_as r replaced) made →
        IsProper (with_recipes r (after_new_takes_taken o)) (Changed made no_failures false ∷ []) }
    ensures comes { (o : Origin) → IsProper (after_new_takes o) new_comes }
    ensures stops { (o : Origin) → IsProper (after_new_comes o) new_stops }
    ensures ends { (o : Origin) → IsEnd (after_new_stops o) statuses.TurnsOver false }
    ensures begins { (o : Origin) → MayFollow (after_new_takes o) (begins 0) → ⊥ }
    ensures starts_before { (o : Origin) → MayFollow (after_new_takes o) (starts (not_asked 0) 1 0 step.Startup (codes "s")) → ⊥ }
    ensures replaces { (o : Origin) → MayFollow (after_new_takes o) (begins 1) → ⊥ }
    ensures older { (o : Origin) → MayFollow (state_after (after_new_takes o) (begins 1 ∷ begins 1 ∷ kills (not_asked 0) 0 1 step.Run ∷ []))
        (starts (not_asked 0) 1 1 step.Run (codes "r")) → ⊥ }
{}
