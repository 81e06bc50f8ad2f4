// Rows of a session are histories of calls, so that no law speaks of nothing.
ghost use Rattle.std.specs.Prelude.{◌≡◌, ◌∷◌, [], true, Some};
ghost use Rattle.nuc_base.specs.declared.kinds.Step.TheVariants as step;
ghost use Rattle.records.specs.declared.record.Origin.{Origin};
ghost use Rattle.step_runner.specs.declared.command.Command.{Command};
ghost use Rattle.components.specs.Made.{IsStepAt};
ghost use Rattle.histories.specs.States.{state_after};
ghost use Rattle.history_rows.specs.Rows.{Recipes, read_as, with_recipes, boot_of, a};
ghost use Rattle.history_rows.specs.BootRows.{backed, back_failed, boots_by, first_boot, item_a, items, restart};
ghost use Rattle.law_histories.specs.Stood.{IsHistory};
ghost use Rattle.law_histories.specs.Ends.{RecordsNoFailure};

use crate::boot_rows::{bootstraps_on_rollback_row, two_bootstraps_row};

/// On its way back a bootstrap starts, fails, and the deployment closes; and one of two bootstraps of a plan ends and asks
/// for a restart: both are histories of calls, and no failure is recorded in the second.
pub fn rows_are_histories()
    ensures closes { (o : Origin) (r : Recipes) (command : Command) → IsStepAt o (read_as r (item_a ∷ [])) 0 step.Bootstrap (Some (boot_of command)) →
        IsHistory (with_recipes r (backed o)) (back_failed command) }
    ensures restarts { (o : Origin) (r : Recipes) (command : Command) → IsStepAt o (read_as r items) 0 step.Bootstrap (Some (boot_of command)) →
        IsHistory (with_recipes r (first_boot o)) (boots_by command a restart) }
    ensures over { (o : Origin) (r : Recipes) (command : Command) → (state_after (with_recipes r (first_boot o)) (boots_by command a restart)).over ≡ true }
    ensures free { (command : Command) → RecordsNoFailure (boots_by command a restart) }
{
    bootstraps_on_rollback_row();
    two_bootstraps_row();
}
