//! The inbox and the recipes in folders in which others put, replace and remove files at any time.
//!
//! It promises that no document is lost that stays and can be read, that a document is taken before it is read, that none comes
//! before its turn and none again once it is done, and that only a folder that cannot be listed is a fault
//! (`specs/Giving.antt`, `specs/Laws.antt`). It stands on `folders` for what a folder is, and on `edges` for what an inbox is.
#![tactic(auto)]

mod inbox;
mod laws;
mod listing;
mod names;
mod queue;
mod recipes;

pub use inbox::FolderInbox;
pub use laws::{
    each_comes_in_its_turn, each_is_listed, only_what_was_taken_is_given,
    recipes_that_stay_are_held,
};
pub use recipes::{FolderRecipes, RecipesFault};
