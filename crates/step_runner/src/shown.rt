ghost use Rattle.std.specs.Prelude.{◌≡◌, Some, map};
ghost use Rattle.step_runner.specs.Views.{shown_as};

use crate::view::{View, ViewedComponent};
use lifecycle::State;
use nuc_base::{List, Text};

/// What was shown of one component.
#[derive(Debug, Drop, PartialEq, Eq)]
pub struct ShownComponent {
    pub name: Text,
    /// Its version, as it is written.
    pub version: Text,
    pub state: State,
    /// How often it has failed since it began anew, or since a deployment ended.
    pub failures: u8,
    /// Whether a stop of it is asked for, or under way.
    pub is_to_stop: bool,
}

impl ShownComponent {
    /// The same, as a view shows it.
    pub fn viewed(&self) -> ViewedComponent<'_>
        ensures { shown_as result ≡ self.now }
    {
        ViewedComponent {
            name: self.name.as_str(),
            version: self.version.as_str(),
            state: self.state,
            failures: self.failures,
            is_to_stop: self.is_to_stop,
        }
    }
}

/// What was shown can be shown again.
impl View for List<ShownComponent> {
    ghost components = { λ shown. map (λ c. Some c) shown };

    fn places(&self) -> usize {
        self.len()
    }

    fn component(&self, place: usize) -> Option<ViewedComponent<'_>> {
        Some(self.as_slice()[place].viewed())
    }
}
