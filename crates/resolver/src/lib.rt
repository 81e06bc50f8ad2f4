//! Choosing versions: the preferred valid set of the candidates, or that no set is valid.
//!
//! It promises that what `resolve` answers is preferred, and that it says `NoVersion` exactly where no set is valid.
//! Which sets are valid and which of them is preferred is said in `recipe_reader` (`specs/Sets.antt`), apart from any
//! search. It stands on the candidates of `recipe_reader` and on the search of `conflict_search`, whose count of tries it
//! does not hand on.
#![tactic(auto)]

mod search;

pub use recipe_reader::Wanted;
pub use search::{ResolveFault, resolve};
