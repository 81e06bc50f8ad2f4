// Worked rows of changes and stops, on functions that do nothing.
ghost use Rattle.std.specs.Prelude.{◌≡◌, ◌∷◌, [], List, true, false, codes, Some, None};
ghost use Rattle.std.specs.List.{list_any};
ghost use Rattle.nuc_base.specs.declared.kinds.Step.TheVariants as step;
ghost use Rattle.lifecycle.specs.declared.kinds.After.TheVariants as after;
ghost use Rattle.lifecycle.specs.declared.kinds.LifeEvent.TheVariants as event;
ghost use Rattle.records.specs.declared.record.Origin.{Origin};
ghost use Rattle.step_runner.specs.declared.entries.Seen.TheVariants as seen;
ghost use Rattle.components.specs.Fitted.{Fitted};
ghost use Rattle.components.specs.Made.{AreFitted};
ghost use Rattle.components.specs.Components.{At, is_stopped};
ghost use Rattle.components.specs.Turns.{IsNext, may_stop, may_begin, is_to_start, owes};
ghost use Rattle.components.specs.Acts.{MayKill, NextAct};
ghost use Rattle.components.specs.Answers.{IsExpected};
ghost use Rattle.components.specs.Changes.{changed_to, all_stopped, steadied};
ghost use Rattle.components.specs.Events.{ended, handed_at};
ghost use Rattle.components.specs.declared.kinds.Act.TheVariants as acts;
ghost use Rattle.components.specs.declared.kinds.Event.TheVariants as events;
ghost use Rattle.device.specs.Lawful.{no_failures};
ghost use Rattle.histories.specs.TraceEvents.{Ran, WaitElapsed, Moved, Changed};
ghost use Rattle.histories.specs.States.{state_after};
ghost use Rattle.histories.specs.Follows.{IsProper, MayFollow};
ghost use Rattle.history_rows.specs.Rows.{Recipes, read_as, with_recipes, asked, bad, script};
ghost use Rattle.history_rows.specs.ChangeRows.{item_a, other_text, stays, has_other_text, begins_again, shutting, shut_down, stops_rest, one_failed};
ghost use Rattle.history_rows.specs.ChangeRows.{stops_of, scripts_of, children_of, counts_of, next_counts, counts, going, newer, left_child, replaced_one};
ghost use Rattle.history_rows.specs.ChangeRows.{needed_one, owing, steady_start, stopping_start, owed_of, both, both_begun_first, both_begun};

/// One that stays runs its steps with the texts as they are now.
pub fn texts_change()
    ensures changes { (o : Origin) (r : Recipes) (made : List Fitted) → AreFitted o (read_as r (item_a ∷ [])) made →
        IsProper (with_recipes r (stays o)) (Changed made no_failures false ∷ []) }
    ensures begins { (o : Origin) → IsProper (has_other_text o) (Moved 0 event.MayBegin ∷ []) }
    ensures now { (o : Origin) → MayFollow (begins_again o) (Ran (asked 0 (seen.Started 0 (script (codes "x")))) 0 step.Run) }
    ensures before { (o : Origin) → MayFollow (begins_again o) (Ran (asked 0 (seen.Started 0 (script (codes "r")))) 0 step.Run) → ⊥ }
{}

/// A run child that outlives its component's shutdown is killed before anybody waits, and before what its component needs is stopped.
pub fn outlives_its_shutdown()
    ensures stops { (o : Origin) → IsProper (shut_down o) stops_rest }
    ensures over { (o : Origin) → is_stopped (state_after (shut_down o) stops_rest).world ≡ true }
    ensures waits { (o : Origin) → MayFollow (shut_down o) (WaitElapsed (asked 5 (seen.Elapsed 1000))) → ⊥ }
    ensures needed { (o : Origin) → MayFollow (shut_down o) (Ran (asked 5 (seen.Killed 0)) 0 step.Run) → ⊥ }
    ensures early { (o : Origin) → MayFollow (shutting o) (Ran (asked 0 (seen.Killed 1)) 1 step.Run) → ⊥ }
{}

/// Where one fails, those that need it are to be stopped, the last first.
pub fn failure_stops_others()
    ensures stops { stops_of one_failed.parts ≡ None ∷ Some after.Restart ∷ Some after.Restart ∷ [] }
    ensures last { At 2 (λ p. may_stop one_failed p ≡ true) one_failed.parts }
    ensures not_yet { At 1 (λ p. may_stop one_failed p ≡ false) one_failed.parts }
{}

/// One that is to go away and comes again as the same item takes its texts as they are now, also before its stop began.
pub fn comes_again()
    ensures texts { scripts_of (changed_to (other_text ∷ []) no_failures false going).parts ≡ codes "x" ∷ [] }
    ensures stop { stops_of (changed_to (other_text ∷ []) no_failures false going).parts ≡ Some after.Again ∷ [] }
    ensures replaced { scripts_of (changed_to (newer ∷ []) no_failures false going).parts ≡ codes "r" ∷ [] }
    ensures gone { children_of (changed_to (other_text ∷ []) no_failures false left_child).parts ≡ 1 ∷ [] }
    ensures waits { At 0 (λ p. may_begin (changed_to (other_text ∷ []) no_failures false left_child) p ≡ false)
        (changed_to (other_text ∷ []) no_failures false left_child).parts }
{}

/// A component that did not stand before is not restarted, though it needs a replaced one: it waits until that one is
/// back. One that stood is restarted.
pub fn newcomers_wait()
    ensures stops { stops_of replaced_one.parts ≡ Some after.Again ∷ Some after.Gone ∷ None ∷ [] }
    ensures first { IsNext replaced_one 0 × MayKill replaced_one 0 0 step.Run }
    ensures waits { At 2 (λ p. may_begin replaced_one p ≡ false) replaced_one.parts }
    ensures stood { stops_of needed_one.parts ≡ Some after.Again ∷ Some after.Restart ∷ [] }
{}

/// At the end of a deployment counts are forgotten, also those with which a replacing item was to begin, and a failure that
/// is owed is still handed out.
pub fn failures_forgotten()
    ensures owed { list_any owes (steadied owing).parts ≡ true }
    ensures count { counts_of (steadied owing).parts ≡ 0 ∷ [] }
    ensures next { next_counts (steadied (changed_to (newer ∷ []) (counts 2) false going)).parts ≡ 0 ∷ [] }
    ensures steady { At 0 (λ p. p.owed ≡ Some (step.Startup, bad)) (ended 0 bad steady_start).parts }
{}

/// A start that was handed out is not handed out again, and another may be before it is answered.
pub fn two_handed_out()
    ensures first { NextAct both (Some (acts.Start 0 step.Run)) (handed_at 0 both_begun_first) }
    ensures second { NextAct (handed_at 0 both_begun_first) (Some (acts.Start 1 step.Run)) (handed_at 1 both_begun) }
    ensures none { NextAct (handed_at 1 both_begun) None (handed_at 1 both_begun) }
    ensures again { At 0 (λ p. is_to_start p ≡ false) (handed_at 0 both_begun_first).parts }
    ensures answers { IsExpected (handed_at 1 both_begun) (events.Started 1 step.Run 7) }
    ensures unasked { IsExpected both_begun (events.Started 1 step.Run 7) → ⊥ }
    ensures other { IsExpected (handed_at 1 both_begun) (events.Started 1 step.Startup 7) → ⊥ }
    ensures unstopped { At 0 (λ p. may_stop (all_stopped (handed_at 0 both_begun_first)) p ≡ false) (all_stopped (handed_at 0 both_begun_first)).parts }
{}

/// One that is to be stopped for good fails no more, and one that is to be restarted does.
pub fn fails_no_more()
    ensures gone { owed_of (ended 0 bad (stopping_start after.Gone)).parts ≡ None ∷ [] }
    ensures again { owed_of (ended 0 bad (stopping_start after.Again)).parts ≡ None ∷ [] }
    ensures restart { owed_of (ended 0 bad (stopping_start after.Restart)).parts ≡ Some (step.Startup, bad) ∷ [] }
{}
