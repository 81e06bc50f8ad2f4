//! Laws of plans.
ghost use Rattle.plan_core.specs.Laws.{ClosedComesFirst, GroupsComeSecond, VersionsComeThird, FilledIsAllowed};
ghost use Rattle.plan_core.specs.Ready.{GatheredMayPlan};
ghost use Rattle.plan_core.specs.Rows.{TwoGroups, KeepsConfig, TakesDefault, KeepsDigest, TakesRecipeDigest, OrdersNeeds, BootsInOrder};

use config_ops::config_is_object;
use recipe_reader::recipe_laws;

/// The checks of a plan come in their order. It does nothing.
pub fn limits_in_order()
    ensures closed { ClosedComesFirst }
    ensures groups { GroupsComeSecond }
    ensures versions { VersionsComeThird }
{}

/// Of small devices and documents: what is wanted, configurations, digests and the order of bootstraps. It does nothing.
pub fn small_plans()
    ensures two_groups { TwoGroups }
    ensures kept_config { KeepsConfig }
    ensures new_config { TakesDefault }
    ensures kept_digest { KeepsDigest }
    ensures recipe_digest { TakesRecipeDigest }
    ensures edges { OrdersNeeds }
    ensures boots { BootsInOrder }
{}

/// Candidates that are gathered for a sound device with nothing pending, and a document that is read and new to the
/// device, meet the condition of `make_plan`. It does nothing.
pub fn gathered_candidates_make_plans()
    ensures { GatheredMayPlan }
{}

/// A plan that fills a draft which was made on a device may be accepted there: the record of its acceptance is lawful. It
/// does nothing.
pub fn filled_drafts_may_be_accepted()
    ensures { FilledIsAllowed }
{
    recipe_laws();
    config_is_object();
}
