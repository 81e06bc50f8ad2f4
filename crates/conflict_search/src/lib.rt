//! Choosing versions by a search that learns from conflicts: the preferred valid set of the candidates, or that no set is
//! valid.
//!
//! - A *value* of a name is one of its versions, or "absent". A *term* is a name and a set of its values. A *nogood* is a list
//!   of terms: no valid set has, for each of them, a value of its set. Facts of the candidates and what is learned are both
//!   nogoods: "A 3 needs B ^2" is {A: 3; B: absent or not in ^2}, and "A is wanted in ^2" is {A: absent or not in ^2}.
//!   Versions of a name that need the same name in a range of the same text share one nogood.
//! - The *domain* of a name has the values that are left of it. Where all terms of a nogood but one are met (the domain is
//!   within the term's set), the values of that one are taken from its domain (unit propagation); where all are met, that is
//!   a *conflict*.
//! - The *walk* takes again and again the least required name in byte order, and decides the greatest version left of it.
//! - Two nogoods *joined* at a name are a nogood: of that name the values of the one or the other, of each other name those
//!   of both (resolution). At a conflict the nogood is joined with the reasons of what met it, back to the last decision.
//!   What comes out is kept, and the walk starts again from the root. With no term left no set is valid.
//!
//! A worked conflict. A and B are wanted; A 2 needs C ^2, B 1 needs C ^1, B 2 needs C <2, A 1 needs nothing, and there are
//! C 1 and C 2. At the root "absent" is taken from A and from B. The walk decides A 2. {A: 2; C: absent, 1} leaves C 2 alone, and so
//! {B: 1; C: absent, 2} takes 1 from B, and {B: 2; C: absent, 2} takes 2: nothing is left of B, and all terms of these two
//! are met. Back from there: joined at B they are {B: 1, 2; C: absent, 2}; joined with {A: 2; C: absent, 1} at C, where each
//! value is now in the set, that is {A: 2; B: 1, 2}; and before it comes the decision. This is kept. At the root it takes 2
//! from A, and the walk is A 1, B 2, C 1.
//!
//! It promises what `resolver` promises: the set that `search` answers is preferred, and it says `NoVersion` exactly where
//! no set is valid; it gives up only where all of its work is spent. What terms, nogoods and domains mean is said in
//! `specs/Terms.antt`, which sets are valid and which of them is preferred in `recipe_reader` (`specs/Sets.antt`). Which
//! nogoods are looked at, and where a join stops, is help for speed: no answer rests on it. A row of words has of each name
//! a set of values, from the word of the name's first place on. It stands on the candidates of `recipe_reader` and on
//! `dep_order` for cycles.
#![tactic(auto)]

mod board;
mod budget;
mod conflicts;
mod cycles;
mod demands;
mod domains;
mod drafts;
mod endless;
mod facts;
mod groups;
mod library;
mod names;
mod nogoods;
mod numbers;
mod places;
mod runs;
mod searches;
mod sets;
mod spread;
mod state;
mod terms;
mod trail;
mod trial;
mod walk;
mod watches;

pub use recipe_reader::Wanted;
pub use searches::{SearchFault, search};
