ghost use Rattle.fleet_core.specs.Laws.{TakenRevisionsRise, TakenWasSent, KnownIsKept, KeptIsSent, KeptStays, KnownStays};

/// Laws of every list of events, over a network that loses, repeats and reorders. It does nothing.
pub fn fleet_laws()
    ensures rises { TakenRevisionsRise }
    ensures sent { TakenWasSent }
    ensures known_is_kept { KnownIsKept }
    ensures kept_is_sent { KeptIsSent }
    ensures kept_stays { KeptStays }
    ensures known_stays { KnownStays }
{}
