//! What is shown of components.
ghost use Rattle.std.specs.Prelude.{◌≡◌, ◌<◌, ◌+◌, ◌∷◌, ◌++◌, [], ℕ, List, Some, length, option_map, slice_get, IfOk};
ghost use Rattle.std.specs.declared.option.Option.{Option};
ghost use Rattle.step_runner.specs.Views.{shown_as, those_shown};
ghost use Rattle.step_runner.specs.declared.shown.ShownComponent.{ShownComponent};

use crate::shown::ShownComponent;
use lifecycle::State;
use nuc_base::{List, NoMemory, Text};
use std::alloc::Global;

/// One component as a view shows it: its name, its version, where it stands in its lifecycle, its failures so far, and
/// whether it is to be stopped.
#[derive(Clone, Copy, Drop)]
pub struct ViewedComponent<'a> {
    pub name: &'a str,
    pub version: &'a str,
    pub state: State,
    pub failures: u8,
    pub is_to_stop: bool,
}

/// Which components stand in which states. They are read by place, which takes no memory.
pub trait View {
    /// What stands at each place, in the order of the names: nothing where a component stands no more.
    ghost components: { Self → List (Option ShownComponent) };

    /// How many places there are.
    fn places(&self) -> usize
        ensures { result ≡ length (components self.now) };

    /// The component at this place, where one stands there.
    fn component(&self, place: usize) -> Option<ViewedComponent<'_>>
        requires { place < length (components self.now) }
        ensures { slice_get (components self.now) place ≡ Some (option_map shown_as result) };
}

fn copy_component(alloc: Global, component: ViewedComponent<'_>) -> Result<ShownComponent, NoMemory>
    ensures { IfOk result (λ c. c ≡ shown_as component.entry) }
{
    Ok(ShownComponent {
        name: Text::from_str(alloc, component.name)?,
        version: Text::from_str(alloc, component.version)?,
        state: component.state,
        failures: component.failures,
        is_to_stop: component.is_to_stop,
    })
}

/// A copy of all that a view shows.
pub(crate) fn copy_view<V: View>(alloc: Global, view: &V) -> Result<List<ShownComponent>, NoMemory>
    ensures { IfOk result (λ cs. cs ≡ those_shown (V.components view.now)) }
{
    let mut shown = Vec::new(alloc);
    for place in 0..view.places() {
        if let Some(component) = view.component(place) {
            shown.push(copy_component(alloc, component)?)?;
        }
    }
    Ok(List::new(shown))
}
