// The laws of components on which the stages rest.
ghost use Rattle.session_startup.specs.Laws.{Laws};

use law_supervisor::{
    ends_keep, kills_keep, moves_keep, refusals_keep, skips_keep, starts_keep, tellings_keep,
    time_keeps,
};

/// What each event keeps between the device and the components.
pub(crate) fn driving_laws()
    ensures { Laws }
{
    moves_keep();
    starts_keep();
    refusals_keep();
    skips_keep();
    kills_keep();
    ends_keep();
    tellings_keep();
    time_keeps();
}
