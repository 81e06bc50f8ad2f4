// What a plan meets that a document makes.
ghost use Rattle.admission.specs.Taken.{TakenAreMet};

/// A plan that a document makes of a sound device, with its files taken in, has an item for each requirement of every other
/// group, and for each of its own: what `met_devices_stay_met` of `device` asks of whoever makes a plan. It does nothing.
pub fn plans_are_met()
    ensures { TakenAreMet }
{}
