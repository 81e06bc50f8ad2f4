//! Laws of whole devices.
ghost use Rattle.device.specs.Devices.{no_device};
ghost use Rattle.law_whole.specs.Whole.{Whole};
ghost use Rattle.law_whole.specs.Requested.{ChangesKeepAll, LocalsMoveOneList, PlansMoveOneGroup};
ghost use Rattle.law_whole.specs.Taking.{BroughtStayWhole, ChangesKeepGroup, KeptGroupAsksTheSame, KeptGroupStays, OneItemIsWhole, OtherGroupsStay};
ghost use Rattle.law_whole.specs.Taking.{OwnConfigStays, OwnIsGathered, OwnItemsStay, OwnNeedsNoFile, OwnSetIsChosen, OwnSetIsThere};
ghost use Rattle.law_whole.specs.Taking.{PlansAreWhole, RunsStayWhole, StaysWhole, TakenAreWhole};

use config_ops::config_stays;
use recipe_reader::{recipe_laws, set_laws};

/// The device before its first record is whole, and every lawful record leaves a whole device whole, but for a plan that
/// is not so: whoever makes it has to see to that. It does nothing.
pub fn whole_devices_stay_whole()
    ensures empty { Whole no_device }
    ensures step { StaysWhole }
    ensures run { RunsStayWhole }
    ensures prefixes { BroughtStayWhole }
    ensures one_item { OneItemIsWhole }
{}

/// A plan that a document makes over gathered candidates is so, where the device is whole. It does nothing.
pub fn plans_are_whole()
    ensures plan { PlansAreWhole }
    ensures taken { TakenAreWhole }
{
    config_stays();
    recipe_laws();
    set_laws();
}

/// Over its own candidates a whole device has one set for what its groups ask, and that is its set: there is always one, it
/// needs no file, and its items stay but for the configuration that the document changes. It does nothing.
pub fn own_sets_are_chosen()
    ensures chosen { OwnSetIsChosen }
    ensures there { OwnSetIsThere }
    ensures config { OwnConfigStays }
    ensures gathered { OwnIsGathered }
    ensures group { KeptGroupAsksTheSame }
    ensures files { OwnNeedsNoFile }
    ensures items { OwnItemsStay }
{
    recipe_laws();
    set_laws();
}

/// The document that changes one component's configuration asks of a group of the device what that asks already. It does
/// nothing.
pub fn changes_keep_groups()
    ensures { ChangesKeepGroup }
{}

/// A plan leaves the groups of other names as they are; one that asks of its group what that asks already, with no
/// revision, leaves its own too. It does nothing.
pub fn groups_stay()
    ensures kept { KeptGroupStays }
    ensures others { OtherGroupsStay }
{}

/// A request of the group of the device itself moves that group's list and no other, and a change of one configuration, on a whole
/// device and over no library, that configuration alone; it is declined for no candidates, no version and no file. It does nothing.
pub fn requests_keep_the_rest()
    ensures run { PlansMoveOneGroup }
    ensures local { LocalsMoveOneList }
    ensures change { ChangesKeepAll }
{
    recipe_laws();
    set_laws();
}
