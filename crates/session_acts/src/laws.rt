// The laws of orderly components, on which the turns rest.
ghost use Rattle.session_acts.specs.Laws.{Laws};

use law_supervisor::{
    children_go_alone, events_keep_order, moves_keep, refusals_keep, skips_keep, starts_keep,
    tellings_keep,
};

/// What each event keeps of orderly components.
pub fn orderly_laws()
    ensures { Laws }
{
    events_keep_order();
    children_go_alone();
    moves_keep();
    starts_keep();
    refusals_keep();
    skips_keep();
    tellings_keep();
}
