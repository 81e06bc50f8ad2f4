//! What a component needs.
ghost use Rattle.std.specs.Prelude.{◌≡◌};

use nuc_base::Name;
use std::cell::Cell;
use std::marker::Model;

/// One hard need among those of all components: the component that has it, and its number among the hard needs of that one.
#[derive(Clone, Copy, Debug, PartialEq, Eq)]
pub struct User {
    pub component: usize,
    pub need: usize,
}

/// A name that is needed, and where the component of this name stands, as far as is known. The place and the next user only
/// save a search: whoever goes by them compares the names that stand there.
#[derive(Drop)]
pub struct Need {
    name: Name,
    place: Cell<usize>,
    /// The next one that needs the same component hard.
    next_user: Cell<Option<User>>,
}

impl Model for Need {
    ghost use Rattle.std.specs.Prelude.{List, ℕ};

    ghost Value = { List ℕ };

    ghost view = { λ n. n.name };
}

impl Need {
    pub(crate) fn new(name: Name) -> Need
        ensures { result ≡ name }
    {
        Need {
            name,
            place: Cell::new(0),
            next_user: Cell::new(None),
        }
    }

    pub(crate) fn name(&self) -> &Name
        ensures { result.now ≡ self.now }
    {
        &self.name
    }

    pub(crate) fn place(&self) -> usize {
        self.place.get()
    }

    pub(crate) fn set_place(&self, place: usize) {
        self.place.set(place);
    }

    pub(crate) fn next_user(&self) -> Option<User> {
        self.next_user.get()
    }

    pub(crate) fn set_next_user(&self, user: Option<User>) {
        self.next_user.set(user);
    }
}
