//! How long the record of a plan is.
ghost use Rattle.device.specs.PlanSizes.{PlansAreShort};

/// The record of a plan that a device takes has at most 33,554,432 bytes, as many as an entry of the journal may
/// have. It does nothing.
pub fn plans_are_short()
    ensures { PlansAreShort }
{}
