// Whether a bootstrap runs again on the way back.
ghost use Rattle.std.specs.Prelude.{◌≡◌, Some};
ghost use Rattle.serde_json.specs.Find.{get as member_of};
ghost use Rattle.tree_core.specs.View.{view};
ghost use Rattle.tree_core.specs.Regular.{IsRegular};
ghost use Rattle.tree_core.specs.Parts.{present};
ghost use Rattle.recipe_reader.specs.Spelled.{spelled};
ghost use Rattle.recipe_reader.specs.Lifecycles.{back_of_step, back_of as back_of_value};
ghost use Rattle.recipe_reader.specs.declared.fault.Key.TheVariants as key;

use crate::fault::Key;
use crate::keys::{any_case, keyed};
use crate::parts::optional;
use tree_core::Tree;

/// Whether the step's object asks for it.
fn back_in_step(step: &Tree) -> bool
    requires { IsRegular (view step.now) }
    ensures { result ≡ back_of_step (Some (view step.now)) }
{
    match any_case(step, Key::BootstrapOnRollback) {
        Some(Tree::Flag(flag)) => *flag,
        _ => false,
    }
}

fn back_in(lifecycle: &Tree) -> bool
    requires { IsRegular (view lifecycle.now) }
    ensures { result ≡ back_of_value (Some (view lifecycle.now)) }
{
    match keyed(lifecycle, Key::Bootstrap) {
        Some(step) => back_in_step(step),
        None => false,
    }
}

/// Whether the manifest's bootstrap runs again where a deployment that failed goes back.
pub fn back_of(manifest: &Tree) -> bool
    requires { IsRegular (view manifest.now) }
    ensures { result ≡ back_of_value (present (member_of (spelled key.Lifecycle) (view manifest.now))) }
{
    match optional(manifest, Key::Lifecycle) {
        Some(lifecycle) => back_in(lifecycle),
        None => false,
    }
}
