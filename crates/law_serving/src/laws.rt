// Laws of histories, on functions that do nothing.
ghost use Rattle.law_serving.specs.Alike.{DeploymentsServeAlike};
ghost use Rattle.law_serving.specs.Kept.{ComponentsRunTheirItems, IdleIsSteady};

use law_supervisor::events_keep_recipes;

/// What one deployment does in a call that does not serve, it may do in one that serves, and while it does the inbox is not
/// asked and the set is not brought up anew. It does nothing.
pub fn deployments_serve_alike()
    ensures { DeploymentsServeAlike }
{}

/// Where each component runs its item as the item's recipe says for the device's platform, each does so behind any history. It
/// does nothing.
pub fn components_run_their_items()
    ensures { ComponentsRunTheirItems }
{
    events_keep_recipes();
}

/// Where nothing is pending the components are not those of a deployment that is driven. It does nothing.
pub fn idle_calls_are_steady()
    ensures { IdleIsSteady }
{}
