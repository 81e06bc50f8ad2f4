// Worked rows of several components, on functions that do nothing.
ghost use Rattle.std.specs.Prelude.{◌≡◌, ◌∷◌, ◌++◌, [], List, Some, true, false, codes};
ghost use Rattle.nuc_base.specs.declared.status.Status.TheVariants as statuses;
ghost use Rattle.nuc_base.specs.declared.kinds.Step.TheVariants as step;
ghost use Rattle.nuc_base.specs.declared.kinds.Outcome.TheVariants as outcomes;
ghost use Rattle.lifecycle.specs.declared.kinds.LifeEvent.TheVariants as event;
ghost use Rattle.lifecycle.specs.declared.kinds.State.TheVariants as state;
ghost use Rattle.lifecycle.specs.declared.kinds.After.TheVariants as after;
ghost use Rattle.records.specs.Stored.{Plan, Closed, Accepted};
ghost use Rattle.records.specs.declared.record.Origin.{Origin};
ghost use Rattle.step_runner.specs.declared.entries.Seen.TheVariants as seen;
ghost use Rattle.device.specs.Lawful.{no_failures};
ghost use Rattle.components.specs.Fitted.{Fitted};
ghost use Rattle.components.specs.Made.{AreFitted};
ghost use Rattle.histories.specs.TraceEvents.{Answer, Ran, WaitElapsed, Recorded, Moved, ReadClock, Heard, InboxAsked, Changed, StopsAll, document, nothing};
ghost use Rattle.histories.specs.TraceEvents.{closed, answers_of};
ghost use Rattle.histories.specs.States.{state_after};
ghost use Rattle.histories.specs.Follows.{IsProper, MayFollow};
ghost use Rattle.histories.specs.Courses.{IsEnd};
ghost use Rattle.history_rows.specs.Rows.{Recipes, read_as, with_recipes, idle_part, running_part, starting_part, call_begins, device_of, plan_of, starts_up};
ghost use Rattle.history_rows.specs.Rows.{asked, not_asked, states_of, script};
ghost use Rattle.history_rows.specs.ServeRows.{item_d, item_h, item_s, new_items, serve_three, brings_up, set_opened, first_run, one_up, begin_run, two_up};
ghost use Rattle.history_rows.specs.ServeRows.{all_up, takes, serving, changes, changing, stops_two, stopped_two, started_first, starts_second, served};
ghost use Rattle.history_rows.specs.ServeRows.{stops_three, serve_over, serve_none, none_opened, turn_passes, turn_more, one_turn, two_turns, finishing};
ghost use Rattle.history_rows.specs.ServeRows.{closed_without, fails_serving, fails_driven, needed_starts, other_starts, both_wait, serve_state, beside};
ghost use Rattle.history_rows.specs.ServeRows.{softly, hardly};
ghost use Rattle.history_rows.specs.Rows.{runs};

/// The set of three comes up; a document changes one that another needs: both are stopped and come back, and a third that
/// needs it softly stays. Then the inbox is closed, and all are stopped.
pub fn serve_config_change_row()
    ensures opens { (o : Origin) (r : Recipes) (made : List Fitted) → AreFitted o (read_as r (item_d ∷ item_h ∷ item_s ∷ [])) made →
        IsProper (with_recipes r (serve_three o)) (brings_up made) }
    ensures starts { (o : Origin) → IsProper (set_opened o) first_run }
    ensures starts_second { (o : Origin) → IsProper (one_up o) (begin_run 1 1) }
    ensures starts_third { (o : Origin) → IsProper (two_up o) (begin_run 2 2) }
    ensures takes { (o : Origin) → IsProper (all_up o) takes }
    ensures changes { (o : Origin) (r : Recipes) (made : List Fitted) → AreFitted o (read_as r new_items) made →
        IsProper (with_recipes r (serving o)) (changes made) }
    ensures stops { (o : Origin) → IsProper (changing o) stops_two }
    ensures states { (o : Origin) → states_of (stopped_two o).world.parts ≡ state.New ∷ state.Installed ∷ state.Running ∷ [] }
    ensures back { (o : Origin) → IsProper (stopped_two o) (begin_run 3 0) }
    ensures back_second { (o : Origin) → IsProper (started_first o) starts_second }
    ensures ends { (o : Origin) → IsProper (served o) stops_three }
    ensures end { (o : Origin) → IsEnd (serve_over o) statuses.Done false }
    ensures needed { (o : Origin) → MayFollow (changing o) (Ran (not_asked 0 (seen.Killed 0)) 0 step.Run) → ⊥ }
    ensures staying { (o : Origin) → MayFollow (changing o) (Ran (not_asked 0 (seen.Killed 2)) 2 step.Run) → ⊥ }
    ensures early { (o : Origin) → MayFollow (all_up o) (Ran (not_asked 0 (seen.Killed 1)) 1 step.Run) → ⊥ }
    ensures all { (o : Origin) → MayFollow (state_after (all_up o) (Recorded (Accepted (plan_of new_items [])) ∷ InboxAsked document ∷ [])) StopsAll → ⊥ }
    ensures unread { (o : Origin) (x : Plan) → MayFollow (all_up o) (Recorded (Accepted x)) → ⊥ }
    ensures unfinished { (o : Origin) → MayFollow (two_up o) (InboxAsked document) → ⊥ }
    ensures still_open { (o : Origin) → MayFollow (served o) StopsAll → ⊥ }
    ensures order { (o : Origin) → MayFollow (state_after (served o) (StopsAll ∷ InboxAsked closed ∷ [])) (Ran (not_asked 0 (seen.Killed 3)) 0 step.Run) → ⊥ }
    ensures end_before { (o : Origin) → IsEnd (served o) statuses.Done false → ⊥ }
{}

/// One that is only starting does not serve those that need it.
pub fn early_dependent()
    ensures begins { (o : Origin) → MayFollow (needed_starts o) (Moved 1 event.MayBegin) → ⊥ }
    ensures waits { (o : Origin) → IsProper (needed_starts o) (WaitElapsed (asked 0 (seen.Elapsed 120000)) ∷ []) }
{}

/// What is needed softly may be broken, and else has to be up as what is needed hard.
pub fn soft_needs()
    ensures broken { (o : Origin) → MayFollow (beside o (softly (idle_part (runs item_d [] []) state.Broken 3))) (Moved 1 event.MayBegin) }
    ensures up { (o : Origin) → MayFollow (beside o (softly (running_part (runs item_d [] []) 0))) (Moved 1 event.MayBegin) }
    ensures starting { (o : Origin) → MayFollow (beside o (softly (starting_part (starts_up item_d []) 0 120000))) (Moved 1 event.MayBegin) → ⊥ }
    ensures stopping { (o : Origin) → MayFollow (beside o (softly (record (running_part (runs item_d [] []) 0) { stop = Some after.Restart })))
        (Moved 1 event.MayBegin) → ⊥ }
    ensures hard { (o : Origin) → MayFollow (beside o (hardly (idle_part (runs item_d [] []) state.Broken 3))) (Moved 1 event.MayBegin) → ⊥ }
{}

/// Whoever may begin begins before anybody waits, and the least name first.
pub fn one_at_a_time()
    ensures waits { (o : Origin) → MayFollow (other_starts o) (WaitElapsed (asked 0 (seen.Elapsed 120000))) → ⊥ }
    ensures begins { (o : Origin) → IsProper (other_starts o) (Moved 1 event.MayBegin ∷ []) }
    ensures least { (o : Origin) → MayFollow (both_wait o) (Moved 1 event.MayBegin) → ⊥ }
{}

/// A call that serves brings up the set before it asks, waits or takes a document, once, and after a close that leaves no
/// component of the set.
pub fn serves_nothing()
    ensures changes { (o : Origin) (r : Recipes) (made : List Fitted) → AreFitted o (read_as r (item_d ∷ [])) made →
        IsProper (with_recipes r (serve_state o)) (brings_up made) }
    ensures waits { (o : Origin) → MayFollow (state_after (serve_state o) (ReadClock 0 ∷ [])) (WaitElapsed (asked 0 (seen.Elapsed 1000))) → ⊥ }
    ensures accepts { (o : Origin) (p : Plan) → MayFollow (serve_state o) (Recorded (Accepted p)) → ⊥ }
    ensures asks { (o : Origin) (x : Answer) → MayFollow (serve_state o) (InboxAsked x) → ⊥ }
    ensures stops { (o : Origin) → MayFollow (serve_state o) StopsAll → ⊥ }
    ensures finished { (o : Origin) (r : Recipes) (made : List Fitted) → AreFitted o (read_as r (item_d ∷ [])) made →
        IsProper (with_recipes r (finishing o)) (brings_up made) }
    ensures finished_asks { (o : Origin) (x : Answer) → MayFollow (finishing o) (InboxAsked x) → ⊥ }
    ensures finished_waits { (o : Origin) → MayFollow (finishing o) (WaitElapsed (asked 0 (seen.Elapsed 1000))) → ⊥ }
    ensures without { (o : Origin) (r : Recipes) (made : List Fitted) → AreFitted o (read_as r (item_d ∷ [])) made →
        IsProper (with_recipes r (closed_without o)) (brings_up made) }
    ensures without_asks { (o : Origin) (x : Answer) → MayFollow (record (closed_without o) { opened = true }) (InboxAsked x) → ⊥ }
    ensures without_again { (o : Origin) (r : Recipes) (made : List Fitted) → AreFitted o (read_as r (item_d ∷ [])) made →
        IsProper (with_recipes r (record (closed_without o) { opened = true })) (brings_up made) }
{}

/// With an empty set and an inbox that has nothing each turn has one wait, and after the last turn all is stopped.
pub fn serve_nothing_row()
    ensures opens { (o : Origin) → AreFitted o [] [] → IsProper (serve_none 2 o) (ReadClock 0 ∷ Changed [] no_failures true ∷ []) }
    ensures first { (o : Origin) → IsProper (none_opened 2 o) turn_passes }
    ensures second { (o : Origin) → IsProper (one_turn o) turn_more }
    ensures ends { (o : Origin) → IsProper (two_turns o) (StopsAll ∷ []) }
    ensures end { (o : Origin) → IsEnd (state_after (two_turns o) (StopsAll ∷ [])) statuses.TurnsOver false }
    ensures count { (o : Origin) → answers_of nothing (turn_more ++ turn_passes) ≡ 2 }
    ensures third { (o : Origin) (x : Answer) → MayFollow (two_turns o) (InboxAsked x) → ⊥ }
    ensures early { (o : Origin) → MayFollow (one_turn o) StopsAll → ⊥ }
    ensures unasked { (o : Origin) → MayFollow (one_turn o) (WaitElapsed (asked 1000 (seen.Elapsed 1000))) → ⊥ }
    ensures unwaited { (o : Origin) (x : Answer) → MayFollow (state_after (none_opened 2 o) (InboxAsked nothing ∷ [])) (InboxAsked x) → ⊥ }
    ensures last_unwaited { (o : Origin) → MayFollow (state_after (none_opened 1 o) (InboxAsked nothing ∷ [])) StopsAll → ⊥ }
    ensures longer { (o : Origin) → MayFollow (state_after (none_opened 2 o) (InboxAsked nothing ∷ [])) (WaitElapsed (asked 0 (seen.Elapsed 1001))) → ⊥ }
    ensures changes { (o : Origin) → MayFollow (one_turn o) (Changed [] no_failures true) → ⊥ }
    ensures refused { (o : Origin) → MayFollow (state_after (none_opened 2 o) (InboxAsked document ∷ [])) (InboxAsked closed) }
    ensures no_document { (o : Origin) (p : Plan) → MayFollow (state_after (none_opened 2 o) (InboxAsked nothing ∷ [])) (Recorded (Accepted p)) → ⊥ }
    ensures deploys { (o : Origin) (x : Answer) → MayFollow (call_begins (device_of o [] None)) (InboxAsked x) → ⊥ }
{}

/// Where nothing is pending a failure is handed out and heard, and nothing else follows before that; it is not heard where
/// it is to be recorded.
pub fn failures_heard()
    ensures heard { (o : Origin) → IsProper (fails_serving o) (Heard 0 ∷ []) }
    ensures retries { (o : Origin) → MayFollow (state_after (fails_serving o) (Heard 0 ∷ [])) (Moved 0 event.Retry) }
    ensures unheard { (o : Origin) → MayFollow (fails_serving o) (Moved 0 event.Retry) → ⊥ }
    ensures asks { (o : Origin) (x : Answer) → MayFollow (fails_serving o) (InboxAsked x) → ⊥ }
    ensures twice { (o : Origin) → MayFollow (state_after (fails_serving o) (Heard 0 ∷ [])) (Heard 0) → ⊥ }
    ensures driven { (o : Origin) → MayFollow (fails_driven o) (Heard 0) → ⊥ }
{}
