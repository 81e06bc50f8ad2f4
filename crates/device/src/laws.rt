ghost use Rattle.std.specs.Prelude.{◌≡◌, ◌↔◌, List};
ghost use Rattle.records.specs.Stored.{Record};
ghost use Rattle.device.specs.After.{After, course};
ghost use Rattle.device.specs.Devices.{Device};
ghost use Rattle.device.specs.Lawful.{Lawful, Run};
ghost use Rattle.device.specs.Met.{Met, BringsMet, BringMet};
ghost use Rattle.device.specs.Rooms.{RecordsRunOut};
ghost use Rattle.device.specs.Sound.{StaysSound, RunsAreSound, NoneIsStuck, RevisionsRise};

/// The groups, the set, the closed list and the pending plan of a run's device are those that its accepted plans and
/// their closings give in order. It does nothing.
pub fn runs_give_the_plain_course()
    ensures { (d e : Device) (records : List Record) → Run d records e → course e ≡ After (course d) records }
{}

/// Where the items of a device meet what its groups and its items ask, they do after each lawful record too, but for a
/// plan whose items do not meet what all groups then ask: it is lawful, and whoever makes it has to see to that. So they
/// do along a whole run where each of its plans does. It does nothing.
pub fn met_devices_stay_met()
    ensures step { (d e : Device) (r : Record) → Met d → Lawful d r e → Met e ↔ BringsMet d r }
    ensures run { (d e : Device) (records : List Record) → Met d → Run d records e → BringMet d records → Met e }
{}

/// Every device that records leave is sound: what a device asks of a plan holds of its set and of its pending plan, its
/// groups and closed deployments are few and differ, and the counts and bootstraps of a pending deployment agree with its
/// stage. It does nothing.
pub fn devices_are_sound()
    ensures step { StaysSound }
    ensures run { RunsAreSound }
{}

/// In a sound device with a deployment pending some record is lawful, and each lawful one lowers how many may follow: so
/// each deployment can close, and none takes more than 1,283 records behind its Accepted. It does nothing.
pub fn none_is_stuck()
    ensures next { NoneIsStuck }
    ensures fewer { RecordsRunOut }
{}

/// Along a run the revision of a group never falls. It does nothing.
pub fn revisions_rise()
    ensures { RevisionsRise }
{}
