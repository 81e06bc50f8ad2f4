//! Nogoods: facts of the library, and what is learned.

ghost use Rattle.std.specs.Prelude.{◌≡◌, ◌<◌, ◌+◌, ℕ, List, length, get_or, IfOk, OnOk, IfSome};
ghost use Rattle.recipe_reader.specs.Members.{Need, Member};
ghost use Rattle.conflict_search.specs.Stands.{members_in, wanted_in};
ghost use Rattle.conflict_search.specs.Terms.{IsNogood, AreNogoods};

use crate::library::Library;
use crate::terms::Term;
use nuc_base::NoMemory;

/// Lists of terms, of each of which no valid set has a value in every set. They are only added to.
#[derive(Drop)]
pub(crate) struct Nogoods {
    pub(crate) list: Vec<Vec<Term>>,
}

impl Nogoods {
    /// Adds one more.
    pub(crate) fn add(&mut self, library: &Library, terms: Vec<Term>) -> Result<(), NoMemory>
        requires nogoods { AreNogoods (members_in library.now) (wanted_in library.now) self.old }
        requires nogood { IsNogood (members_in library.now) (wanted_in library.now) terms.items }
        ensures { OnOk result (AreNogoods (members_in library.now) (wanted_in library.now) self.new) }
    {
        self.list.push(terms)?;
        Ok(())
    }

    pub(crate) fn get(&self, library: &Library, index: usize) -> Option<&[Term]>
        requires nogoods { AreNogoods (members_in library.now) (wanted_in library.now) self.now }
        ensures { IfSome result (λ terms. IsNogood (members_in library.now) (wanted_in library.now) terms.now) }
    {
        match self.list.get(index) {
            Some(terms) => Some(terms.as_slice()),
            None => None,
        }
    }
}
