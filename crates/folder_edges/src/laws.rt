// What holds of whatever others do in the folder.
ghost use Rattle.folder_edges.specs.Recipes.{HoldsWhatStays};
ghost use Rattle.folder_edges.specs.Laws.{ComesInTurn, IsListedWhileItStays, GivesWhatWasTaken};

/// A document that was listed and stays there comes within as many rounds as documents are left, whatever else is moved in,
/// replaced or removed meanwhile, where none of its name was taken before.
pub fn each_comes_in_its_turn()
    ensures { ComesInTurn }
{}

/// A document that stays there during a call is listed after it, or the listing before it goes on.
pub fn each_is_listed()
    ensures { IsListedWhileItStays }
{}

/// What is given was taken out of the inbox before, so a file that was done and that nobody puts back is not given again.
pub fn only_what_was_taken_is_given()
    ensures { GivesWhatWasTaken }
{}

/// A recipe that stays in the folder while it is looked through is held from there on.
pub fn recipes_that_stay_are_held()
    ensures { HoldsWhatStays }
{}
