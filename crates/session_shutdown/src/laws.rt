// The laws of components that leave, on which the stops rest.
ghost use Rattle.std.specs.Prelude.{◌≡◌};
ghost use Rattle.components.specs.Changes.{all_stopped};
ghost use Rattle.components.specs.Components.{Components};
ghost use Rattle.law_supervisor.specs.Keeps.{HasNoneOwed};
ghost use Rattle.law_supervisor.specs.Sound.{IsOrderly};
ghost use Rattle.session_shutdown.specs.Laws.{Laws};
ghost use Rattle.session_shutdown.specs.Leaves.{AreLeaving};

/// What each event keeps of components that all leave.
pub(crate) fn leaving_laws()
    ensures { Laws }
{}

/// Once all are to be stopped, all leave, where no failure of before is still owed.
pub fn stops_leave()
    ensures { (w : Components) → IsOrderly w → HasNoneOwed w → AreLeaving (all_stopped w) }
{}
