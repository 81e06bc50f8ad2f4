// Worked rows of bootstraps in whole calls, on functions that do nothing.
ghost use Rattle.std.specs.Prelude.{◌≡◌, ◌∷◌, [], pos, true, false, Some, codes, List};
ghost use Rattle.nuc_base.specs.declared.kinds.Step.TheVariants as step;
ghost use Rattle.nuc_base.specs.declared.kinds.Exit.TheVariants as exits;
ghost use Rattle.nuc_base.specs.declared.kinds.Outcome.TheVariants as outcomes;
ghost use Rattle.nuc_base.specs.declared.status.Status.TheVariants as statuses;
ghost use Rattle.records.specs.Stored.{BootBegun, BootEnded, Activating};
ghost use Rattle.records.specs.declared.record.Origin.{Origin};
ghost use Rattle.recipe_reader.specs.declared.recipe.Skip.TheVariants as skips;
ghost use Rattle.step_runner.specs.declared.command.Command.{Command};
ghost use Rattle.step_runner.specs.declared.entries.Seen.TheVariants as seen;
ghost use Rattle.device.specs.Lawful.{no_failures};
ghost use Rattle.components.specs.Fitted.{Fitted};
ghost use Rattle.components.specs.Made.{AreFitted, IsStepAt};
ghost use Rattle.histories.specs.TraceEvents.{Booted, Recorded, ReadClock, InboxAsked, StopsAll, nothing, Changed};
ghost use Rattle.histories.specs.States.{state_after};
ghost use Rattle.histories.specs.Follows.{IsProper, MayFollow};
ghost use Rattle.histories.specs.Courses.{IsEnd};
ghost use Rattle.history_rows.specs.Rows.{Recipes, read_as, with_recipes, runs, script, boot_of, boots_up, asked, not_asked, ends, good, a, b};
ghost use Rattle.history_rows.specs.Words.{passes, runs_boot, closes};
ghost use Rattle.history_rows.specs.BootCallRows.{item_a, item_b, both, boot_starts, serves_b, boot_set, after_boot_set, boot_runs, after_boot_runs};
ghost use Rattle.history_rows.specs.BootCallRows.{boot_stops, after_boot_stops, boot_asks, after_boot_asks, boot_over, after_boot_over, resumes_begun, long};
ghost use Rattle.history_rows.specs.BootCallRows.{after_long, long_passes, after_long_passes, long_kills, after_long_kills, deploys_boot, bad_boot};
ghost use Rattle.history_rows.specs.BootCallRows.{after_bad_boot, bad_starts, after_bad_starts, bad_ends, after_bad_ends, bad_closes, after_bad_closes, up_a};
ghost use Rattle.history_rows.specs.BootCallRows.{both_up, serves_up, left, after_left, left_stops, after_left_stops, left_boots, after_left_boots};
ghost use Rattle.history_rows.specs.BootCallRows.{left_fails, after_left_fails, left_changes, after_left_changes, left_comes, after_left_comes, boots_with};
ghost use Rattle.history_rows.specs.BootCallRows.{backing, back_begun, second, second_begun};

/// All components are stopped before the first bootstrap of a stage is begun.
pub fn stops_for_boots_row()
    ensures opens { (o : Origin) (r : Recipes) (made : List Fitted) → AreFitted o (read_as r (item_b ∷ [])) made →
        IsProper (with_recipes r (serves_b o)) (Changed made no_failures true ∷ []) }
    ensures starts { (o : Origin) → IsProper (after_boot_set o) boot_runs }
    ensures stops { (o : Origin) → IsProper (after_boot_runs o) boot_stops }
    ensures boots { (o : Origin) (r : Recipes) (command : Command) → IsStepAt o (read_as r both) 0 step.Bootstrap (Some (boot_of command)) →
        IsProper (with_recipes r (after_boot_stops o)) (boot_asks command) }
    ensures restarts { (o : Origin) → IsProper (after_boot_asks o) boot_over }
    ensures ends { (o : Origin) → IsEnd (after_boot_over o) statuses.Restart false }
    ensures begun { (o : Origin) → MayFollow (after_boot_runs o) (Recorded (BootBegun a)) → ⊥ }
    ensures begun_while { (o : Origin) → MayFollow (state_after (after_boot_runs o) (StopsAll ∷ [])) (Recorded (BootBegun a)) → ⊥ }
    ensures living { (o : Origin) (r : Recipes) (command : Command) →
        MayFollow (with_recipes r (state_after (after_boot_runs o) (Recorded (BootBegun a) ∷ StopsAll ∷ []))) (boots_with command (not_asked 0) 1) → ⊥ }
    ensures after { (o : Origin) → MayFollow (after_boot_over o) (Recorded Activating) → ⊥ }
{}

/// A bootstrap that was begun runs again without a new beginning, is killed at its deadline, and counts as timed out.
pub fn long_boot_row()
    ensures starts { (o : Origin) (r : Recipes) (command : Command) → IsStepAt o (read_as r (item_a ∷ [])) 0 step.Bootstrap (Some (boot_of command)) →
        IsProper (with_recipes r (resumes_begun o)) (long command) }
    ensures passes { (o : Origin) → IsProper (after_long o) long_passes }
    ensures kills { (o : Origin) → IsProper (after_long_passes o) long_kills }
    ensures ends { (o : Origin) → IsEnd (after_long_kills o) statuses.NotRequested false }
    ensures unkilled { (o : Origin) → MayFollow (after_long_passes o) (Recorded (BootEnded a exits.TimedOut)) → ⊥ }
    ensures closes { (o : Origin) → MayFollow (after_long_passes o) (closes outcomes.RollbackNotRequested) → ⊥ }
    ensures late_end { (o : Origin) → MayFollow (after_long_passes o) (runs_boot (asked 120000) (ends good 0 0)) → ⊥ }
    ensures begun_again { (o : Origin) → MayFollow (after_long o) (Recorded (BootBegun a)) → ⊥ }
    ensures as_signal { (o : Origin) → MayFollow (state_after (after_long_passes o) (runs_boot (asked 120000) (seen.Killed 0) ∷ []))
        (Recorded (BootEnded a exits.Signal)) → ⊥ }
{}

/// A bootstrap that fails is recorded with its own exit, and the deployment closes under DO_NOTHING.
pub fn bad_boot_row()
    ensures opens { (o : Origin) → IsProper (deploys_boot o) bad_boot }
    ensures boots { (o : Origin) (r : Recipes) (command : Command) → IsStepAt o (read_as r (item_a ∷ [])) 0 step.Bootstrap (Some (boot_of command)) →
        IsProper (with_recipes r (after_bad_boot o)) (bad_starts command) }
    ensures fails { (o : Origin) → IsProper (after_bad_starts o) bad_ends }
    ensures closes { (o : Origin) → IsProper (after_bad_ends o) bad_closes }
    ensures ends { (o : Origin) → IsEnd (after_bad_closes o) statuses.NotRequested false }
    ensures as_other { (o : Origin) → MayFollow (after_bad_ends o) (Recorded (BootEnded a (exits.Code (pos 4)))) → ⊥ }
    ensures unrecorded { (o : Origin) → MayFollow (after_bad_ends o) (closes outcomes.RollbackNotRequested) → ⊥ }
    ensures idles { (o : Origin) → MayFollow (state_after (after_bad_boot o) (ReadClock 0 ∷ [])) (passes (asked 0) 1000) → ⊥ }
    ensures disk { (o : Origin) → IsEnd (after_bad_ends o) statuses.Disk true }
    ensures sink { (o : Origin) → IsEnd (after_bad_ends o) statuses.Edge false → ⊥ }
    ensures as_closed { (o : Origin) → IsEnd (after_bad_ends o) statuses.NotRequested false → ⊥ }
{}

/// Where a close leaves no component of the set, `serve` brings the set up before the next turn.
pub fn closes_without_row()
    ensures opens { (o : Origin) (r : Recipes) (made : List Fitted) → AreFitted o (read_as r (item_a ∷ [])) made →
        IsProper (with_recipes r (serves_up o)) (Changed made no_failures true ∷ []) }
    ensures stops { (o : Origin) → IsProper (after_left o) left_stops }
    ensures boots { (o : Origin) (r : Recipes) (command : Command) → IsStepAt o (read_as r both) 1 step.Bootstrap (Some (boot_of command)) →
        IsProper (with_recipes r (after_left_stops o)) (left_boots command) }
    ensures fails { (o : Origin) → IsProper (after_left_boots o) left_fails }
    ensures changes { (o : Origin) (r : Recipes) (made : List Fitted) → AreFitted o (read_as r both) made → IsProper (with_recipes r (after_left_fails o))
        (Changed made no_failures true ∷ []) }
    ensures comes { (o : Origin) → IsProper (after_left_changes o) left_comes }
    ensures ends { (o : Origin) → IsEnd (after_left_comes o) statuses.TurnsOver false }
    ensures asks { (o : Origin) → MayFollow (after_left_fails o) (InboxAsked nothing) → ⊥ }
    ensures waits { (o : Origin) → MayFollow (after_left_fails o) (passes (asked 3) 1000) → ⊥ }
    ensures waits_brought { (o : Origin) → MayFollow (after_left_changes o) (passes (asked 3) 1000) → ⊥ }
{}

/// On the way back the bootstraps are those of the set. A skipped one counts as done, and a refused one as not started.
pub fn boot_texts_row()
    ensures newer { (o : Origin) (r : Recipes) (command : Command) → (IsStepAt o (read_as r (item_a ∷ [])) 0 step.Bootstrap (Some (boot_of command)) → ⊥) →
        MayFollow (with_recipes r (back_begun o)) (boots_with command (asked 0) 0) → ⊥ }
    ensures earlier { (o : Origin) (r : Recipes) (command : Command) → (IsStepAt o (read_as r both) 1 step.Bootstrap (Some (boot_of command)) → ⊥) →
        MayFollow (with_recipes r (second_begun o)) (boots_with command (asked 0) 0) → ⊥ }
    ensures other_text { (o : Origin) (r : Recipes) (command other : Command) → (other ≡ command → ⊥) →
        MayFollow (with_recipes r (back_begun o)) (Booted (asked 0 (seen.Started 0 other)) (boot_of command)) → ⊥ }
    ensures out_of_turn { (o : Origin) → MayFollow (second o) (Recorded (BootEnded a good)) → ⊥ }
    ensures refused_as { (o : Origin) → MayFollow (state_after (backing o) (runs_boot (asked 0) (seen.Refused (script (codes "b"))) ∷ ReadClock 0 ∷
        Recorded (BootBegun a) ∷ [])) (Recorded (BootEnded a exits.Signal)) → ⊥ }
    ensures skipped_as { (o : Origin) → MayFollow (state_after (backing o)
        (Booted (asked 0 (seen.OnPath (codes "x") true)) (record boots_up { skip = Some (skips.OnPath (codes "x")) }) ∷ ReadClock 0 ∷
        Recorded (BootBegun a) ∷ [])) (Recorded (BootEnded a (exits.Code (pos 100)))) → ⊥ }
{}
