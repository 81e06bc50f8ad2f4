// Worked rows of bootstraps, on functions that do nothing.
ghost use Rattle.std.specs.Prelude.{◌≡◌, ◌∷◌, [], ℕ, List, true, false, codes, Some};
ghost use Rattle.nuc_base.specs.declared.kinds.Step.TheVariants as step;
ghost use Rattle.nuc_base.specs.declared.kinds.Exit.TheVariants as exits;
ghost use Rattle.records.specs.Stored.{BootBegun, BootEnded, Activating, Failing};
ghost use Rattle.records.specs.declared.record.Origin.{Origin};
ghost use Rattle.recipe_reader.specs.Backs.{is_back};
ghost use Rattle.step_runner.specs.declared.command.Command.{Command};
ghost use Rattle.step_runner.specs.declared.entries.Seen.TheVariants as seen;
ghost use Rattle.components.specs.Fitted.{Fitted};
ghost use Rattle.components.specs.Made.{IsStepAt, AreFitted};
ghost use Rattle.histories.specs.TraceEvents.{Ran, Booted, WaitElapsed, Recorded, Moved, ReadClock, Changed, StopsAll};
ghost use Rattle.histories.specs.States.{state_after};
ghost use Rattle.histories.specs.Follows.{IsProper, MayFollow};
ghost use Rattle.histories.specs.Phases.{duty_of, rolling};
ghost use Rattle.histories.specs.Courses.{IsBare, IsEnd};
ghost use Rattle.nuc_base.specs.declared.status.Status.TheVariants as statuses;
ghost use Rattle.device.specs.Lawful.{applied, no_failures};
ghost use Rattle.history_rows.specs.Rows.{Recipes, read_as, with_recipes, call_begins, asked, not_asked, script, ends, good, bad, boot_of, boots_up, a, b};
ghost use Rattle.history_rows.specs.BootRows.{item_a, items, booting_device, first_boot, second_boot, restart, boots_by, boots_long, boot_lives, boot_over};
ghost use Rattle.history_rows.specs.BootRows.{boot_failed, restarted, one_done, all_done, begun_device, begun_before, failed_before, boots_again};
ghost use Rattle.history_rows.specs.BootRows.{boots_or_skips, boot_skips, boot_skipped, boot_probed, boot_refused, newer_a, newer_boots, fails_back, backed};
ghost use Rattle.history_rows.specs.BootRows.{back_begun, back_done, back_failed, still_up, begun_up, starts_boot, rolling_state, comes_back, rolls};

/// Bootstraps come one at a time, each begun before its start and ended after its end. One that asks for a restart, and
/// the last good one, end the call.
pub fn two_bootstraps_row()
    ensures first { (o : Origin) (r : Recipes) (command : Command) → IsStepAt o (read_as r items) 0 step.Bootstrap (Some (boot_of command)) →
        IsProper (with_recipes r (first_boot o)) (boots_by command a restart) }
    ensures first_ends { (o : Origin) → IsEnd (restarted o) statuses.Restart false }
    ensures second { (o : Origin) (r : Recipes) (command : Command) → IsStepAt o (read_as r items) 1 step.Bootstrap (Some (boot_of command)) →
        IsProper (with_recipes r (second_boot o)) (boots_by command b good) }
    ensures second_ends { (o : Origin) → IsEnd (all_done o) statuses.Restart false }
    ensures third { (o : Origin) → MayFollow (call_begins (booting_device o 2)) (Recorded Activating) }
    ensures goes_on { (o : Origin) → MayFollow (one_done o) (Recorded (BootBegun b)) }
    ensures long { (o : Origin) (r : Recipes) (command : Command) → IsStepAt o (read_as r items) 0 step.Bootstrap (Some (boot_of command)) →
        IsProper (with_recipes r (first_boot o)) (boots_long command) }
    ensures skipped { (o : Origin) (r : Recipes) (word : List ℕ) (command : Command) → IsStepAt o (read_as r items) 0 step.Bootstrap
        (Some (boots_or_skips word command)) → IsProper (with_recipes r (first_boot o)) (boot_skipped word command) }
    ensures probed { (o : Origin) (r : Recipes) (word : List ℕ) (command : Command) → IsStepAt o (read_as r items) 0 step.Bootstrap
        (Some (boots_or_skips word command)) → IsProper (with_recipes r (first_boot o)) (boot_probed word command) }
    ensures refused { (o : Origin) (r : Recipes) (command : Command) → IsStepAt o (read_as r items) 0 step.Bootstrap (Some (boot_of command)) →
        IsProper (with_recipes r (first_boot o)) (boot_refused command) }
    ensures after_restart { (o : Origin) → MayFollow (restarted o) (Recorded (BootBegun b)) → ⊥ }
    ensures after_last { (o : Origin) → MayFollow (all_done o) (Recorded Activating) → ⊥ }
    ensures asks_after { (o : Origin) → MayFollow (restarted o) (ReadClock 0) → ⊥ }
    ensures as_done { (o : Origin) → IsEnd (restarted o) statuses.Done false → ⊥ }
    ensures as_restart { (o : Origin) → IsEnd (one_done o) statuses.Restart false → ⊥ }
    ensures skipped_as { (o : Origin) (word : List ℕ) (command : Command) → MayFollow (state_after (first_boot o) (boot_skips word command))
        (Recorded (BootEnded a exits.NotStarted)) → ⊥ }
    ensures unprobed { (o : Origin) (r : Recipes) (word : List ℕ) (command : Command) →
        MayFollow (with_recipes r (state_after (first_boot o) (ReadClock 0 ∷ Recorded (BootBegun a) ∷ [])))
        (Booted (asked 0 (seen.Started 0 command)) (boots_or_skips word command)) → ⊥ }
{}

/// What was begun and did not end runs again; what ended does not, however it ended.
pub fn bootstrap_again_row()
    ensures again { (o : Origin) (r : Recipes) (command : Command) → IsStepAt o (read_as r items) 0 step.Bootstrap (Some (boot_of command)) →
        IsProper (with_recipes r (begun_before o)) (boots_again command) }
    ensures begun { (o : Origin) → begun_device o ≡ applied (booting_device o 0) (BootBegun a) }
    ensures failed { (o : Origin) (r : Recipes) (command : Command) → MayFollow (with_recipes r (state_after (boot_failed o) (ReadClock 0 ∷ [])))
        (starts_boot (asked 0) 1 command) → ⊥ }
    ensures failed_before { (o : Origin) (r : Recipes) (command : Command) → MayFollow (with_recipes r (state_after (failed_before o) (ReadClock 0 ∷ [])))
        (starts_boot (asked 0) 0 command) → ⊥ }
    ensures unasked { (o : Origin) (r : Recipes) (command : Command) → MayFollow (with_recipes r (begun_before o)) (starts_boot (not_asked 0) 0 command) → ⊥ }
    ensures ended { (o : Origin) → MayFollow (begun_before o) (Recorded (BootEnded a good)) → ⊥ }
    ensures waits { (o : Origin) → MayFollow (state_after (begun_before o) (ReadClock 0 ∷ [])) (WaitElapsed (asked 0 (seen.Elapsed 1000))) → ⊥ }
    ensures changes { (o : Origin) → MayFollow (begun_before o) (Changed [] no_failures false) → ⊥ }
{}

/// What must not come among bootstraps.
pub fn bootstrap_before_its_record()
    ensures unrecorded { (o : Origin) (r : Recipes) (command : Command) → MayFollow (with_recipes r (state_after (first_boot o) (ReadClock 0 ∷ [])))
        (starts_boot (asked 0) 0 command) → ⊥ }
    ensures ended { (o : Origin) → MayFollow (boot_lives o) (Recorded (BootEnded a good)) → ⊥ }
    ensures other { (o : Origin) → MayFollow (boot_over o) (Recorded (BootEnded a good)) → ⊥ }
    ensures again { (o : Origin) (r : Recipes) (command : Command) → MayFollow (with_recipes r (state_after (boot_over o) (ReadClock 0 ∷ [])))
        (starts_boot (asked 0) 1 command) → ⊥ }
    ensures next { (o : Origin) → MayFollow (boot_over o) (Recorded (BootBegun b)) → ⊥ }
    ensures activates { (o : Origin) → MayFollow (boot_lives o) (Recorded Activating) → ⊥ }
    ensures waits { (o : Origin) → MayFollow (state_after (boot_over o) (ReadClock 0 ∷ [])) (WaitElapsed (asked 0 (seen.Elapsed 1000))) → ⊥ }
    ensures nothing { (o : Origin) → MayFollow (state_after (first_boot o) (ReadClock 0 ∷ [])) (WaitElapsed (asked 0 (seen.Elapsed 1000))) → ⊥ }
    ensures early { (o : Origin) → MayFollow (state_after (boot_lives o) (ReadClock 119999 ∷ [])) (Booted (asked 119999 (seen.Killed 0)) boots_up) → ⊥ }
    ensures late { (o : Origin) → MayFollow (state_after (boot_lives o) (ReadClock 120000 ∷ [])) (WaitElapsed (asked 120000 (seen.Elapsed 0))) → ⊥ }
    ensures bare { (o : Origin) → IsBare (boot_lives o) → ⊥ }
    ensures lost { (o : Origin) → IsEnd (boot_over o) statuses.Edge false → ⊥ }
    ensures disk { (o : Origin) → IsEnd (boot_over o) statuses.Edge true }
{}

/// A bootstrap of the new version fails, and the old version's runs again before the old version comes back. It fails too,
/// and the deployment closes. No record rolls the deployment back that leaves out what is to run again.
pub fn bootstraps_on_rollback_row()
    ensures fails { (o : Origin) (r : Recipes) (command : Command) → IsStepAt o (read_as r (newer_a ∷ [])) 0 step.Bootstrap (Some (boot_of command)) →
        IsProper (with_recipes r (newer_boots o)) (fails_back command) }
    ensures backs { (o : Origin) (r : Recipes) (command : Command) → IsStepAt o (read_as r (item_a ∷ [])) 0 step.Bootstrap (Some (boot_of command)) →
        IsProper (with_recipes r (backed o)) (boots_by command a good) }
    ensures restarts { (o : Origin) → IsEnd (back_done o) statuses.Restart false }
    ensures rolls { (o : Origin) → (duty_of (back_done o).device).phase ≡ rolling }
    ensures changes { (o : Origin) (r : Recipes) (made : List Fitted) → AreFitted o (read_as r (item_a ∷ [])) made →
        IsProper (with_recipes r (rolling_state o)) (Changed made no_failures false ∷ []) }
    ensures up { (o : Origin) → IsProper (rolls o) comes_back }
    ensures unable { (o : Origin) (r : Recipes) (command : Command) → IsStepAt o (read_as r (item_a ∷ [])) 0 step.Bootstrap (Some (boot_of command)) →
        IsProper (with_recipes r (backed o)) (back_failed command) }
    ensures stops { (o : Origin) → MayFollow (still_up o) StopsAll }
    ensures early { (o : Origin) (r : Recipes) (command : Command) → MayFollow (with_recipes r (begun_up o)) (starts_boot (asked 0) 0 command) → ⊥ }
    ensures early_record { (o : Origin) → MayFollow (still_up o) (Recorded (BootBegun a)) → ⊥ }
    ensures unrecorded { (o : Origin) (r : Recipes) (command : Command) → MayFollow (with_recipes r (state_after (backed o) (ReadClock 0 ∷ [])))
        (starts_boot (asked 0) 0 command) → ⊥ }
    ensures goes_on { (o : Origin) (r : Recipes) (made : List Fitted) → MayFollow (with_recipes r (back_done o)) (Changed made no_failures false) → ⊥ }
    ensures comes_early { (o : Origin) (r : Recipes) (made : List Fitted) → MayFollow (with_recipes r (backed o)) (Changed made no_failures false) → ⊥ }
    ensures waits { (o : Origin) → MayFollow (state_after (back_begun o) (ReadClock 0 ∷ [])) (WaitElapsed (asked 0 (seen.Elapsed 1000))) → ⊥ }
    ensures plainly { (o : Origin) (r : Recipes) (command : Command) → is_back o.platform (r item_a) ≡ true →
        MayFollow (state_after (with_recipes r (newer_boots o)) (boots_by command a bad)) (Recorded (Failing a)) → ⊥ }
    ensures as_done { (o : Origin) → MayFollow (back_begun o) (Recorded (BootEnded a good)) → ⊥ }
    ensures up_waits { (o : Origin) → MayFollow (still_up o) (WaitElapsed (asked 0 (seen.Elapsed 1000))) → ⊥ }
{}
