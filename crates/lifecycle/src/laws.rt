// Laws of the table, on a function that does nothing.
ghost use Rattle.lifecycle.specs.Laws.{IsExhaustive, KeepsSound, BeginsItsSteps, CountsFailures, ForgetsNoChild, KillsItsChildren};

/// What holds of every component at every event: where there is a row, what components keep, which steps begin,
/// how failures are counted, and that each child ends, is killed or lives on.
pub fn life_laws()
    ensures exhaustive { IsExhaustive }
    ensures keeps_sound { KeepsSound }
    ensures begins_its_steps { BeginsItsSteps }
    ensures counts_failures { CountsFailures }
    ensures forgets_no_child { ForgetsNoChild }
    ensures kills_its_children { KillsItsChildren }
{}
