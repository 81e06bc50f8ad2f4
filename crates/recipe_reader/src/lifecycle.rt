// The lifecycle of a manifest.
ghost use Rattle.std.specs.Prelude.{◌≡◌, ◌↔◌, IsTrue, ⊤, Some, None};
ghost use Rattle.serde_json.specs.Find.{get as member_of};
ghost use Rattle.nuc_base.specs.Tables.{AnswerBy, on};
ghost use Rattle.tree_core.specs.View.{view};
ghost use Rattle.tree_core.specs.Regular.{IsRegular};
ghost use Rattle.tree_core.specs.Parts.{present, optional as is_optional};
ghost use Rattle.recipe_reader.specs.Spelled.{spelled};
ghost use Rattle.recipe_reader.specs.Environment.{HaveRisingNames};
ghost use Rattle.recipe_reader.specs.Lifecycles.{first_doubles, last_doubles, keys_lines, first_steps as first_lines, last_steps as last_lines};
ghost use Rattle.recipe_reader.specs.Lifecycles.{lifecycle_lines, HasBoth, AreSteps};
ghost use Rattle.recipe_reader.specs.Made.{AreFirst, AreLast, made_step};
ghost use Rattle.recipe_reader.specs.declared.fault.Key.TheVariants as key;
ghost use Rattle.recipe_reader.specs.declared.fault.RecipeFault.TheVariants.{NoMemory as OutOfMemory};

use crate::environment::variables_at;
use crate::fault::{Key, RecipeFault};
use crate::keys::{is_doubled, keyed};
use crate::parts::optional;
use crate::recipe::StepDef;
use crate::step::step_at;
use nuc_base::{Step, Text};
use std::alloc::Global;
use tree_core::Tree;

#[derive(Drop)]
pub struct FirstSteps {
    pub install: Option<StepDef>,
    pub run: Option<StepDef>,
    pub startup: Option<StepDef>,
}

#[derive(Drop)]
pub struct LastSteps {
    pub shutdown: Option<StepDef>,
    pub recover: Option<StepDef>,
    pub bootstrap: Option<StepDef>,
}

/// The steps of a lifecycle.
#[derive(Drop)]
pub struct Steps {
    pub first: FirstSteps,
    pub last: LastSteps,
}

fn no_first_doubles(lifecycle: &Tree) -> Result<(), RecipeFault>
    ensures { AnswerBy OutOfMemory (first_doubles (view lifecycle.now)) (λ _. ⊤) result }
{
    if is_doubled(lifecycle, Key::Setenv) {
        return Err(RecipeFault::DuplicateKey(Key::Setenv));
    }
    if is_doubled(lifecycle, Key::Install) {
        return Err(RecipeFault::DuplicateKey(Key::Install));
    }
    if is_doubled(lifecycle, Key::Run) {
        return Err(RecipeFault::DuplicateKey(Key::Run));
    }
    if is_doubled(lifecycle, Key::Startup) {
        return Err(RecipeFault::DuplicateKey(Key::Startup));
    }
    Ok(())
}

fn no_last_doubles(lifecycle: &Tree) -> Result<(), RecipeFault>
    ensures { AnswerBy OutOfMemory (last_doubles (view lifecycle.now)) (λ _. ⊤) result }
{
    if is_doubled(lifecycle, Key::Shutdown) {
        return Err(RecipeFault::DuplicateKey(Key::Shutdown));
    }
    if is_doubled(lifecycle, Key::Recover) {
        return Err(RecipeFault::DuplicateKey(Key::Recover));
    }
    if is_doubled(lifecycle, Key::Bootstrap) {
        return Err(RecipeFault::DuplicateKey(Key::Bootstrap));
    }
    Ok(())
}

fn check_keys(lifecycle: &Tree) -> Result<(), RecipeFault>
    ensures { AnswerBy OutOfMemory (keys_lines (view lifecycle.now)) (λ _. ⊤) result }
{
    if !lifecycle.is_object() {
        return Err(RecipeFault::WrongKind(Key::Lifecycle));
    }
    no_first_doubles(lifecycle)?;
    no_last_doubles(lifecycle)
}

fn first_steps(
    alloc: Global,
    lifecycle: &Tree,
    outer: &[(Text, Text)],
) -> Result<FirstSteps, RecipeFault>
    requires regular { IsRegular (view lifecycle.now) }
    requires rises { HaveRisingNames outer.now }
    ensures { AnswerBy OutOfMemory (first_lines (view lifecycle.now)) (AreFirst outer.now (view lifecycle.now)) result }
{
    let install = step_at(alloc, Step::Install, lifecycle, outer)?;
    let run = step_at(alloc, Step::Run, lifecycle, outer)?;
    let startup = step_at(alloc, Step::Startup, lifecycle, outer)?;
    Ok(FirstSteps {
        install,
        run,
        startup,
    })
}

fn last_steps(
    alloc: Global,
    lifecycle: &Tree,
    outer: &[(Text, Text)],
) -> Result<LastSteps, RecipeFault>
    requires regular { IsRegular (view lifecycle.now) }
    requires rises { HaveRisingNames outer.now }
    ensures { AnswerBy OutOfMemory (last_lines (view lifecycle.now)) (AreLast outer.now (view lifecycle.now)) result }
{
    let shutdown = step_at(alloc, Step::Shutdown, lifecycle, outer)?;
    let recover = step_at(alloc, Step::Recover, lifecycle, outer)?;
    let bootstrap = step_at(alloc, Step::Bootstrap, lifecycle, outer)?;
    Ok(LastSteps {
        shutdown,
        recover,
        bootstrap,
    })
}

/// Whether the steps run and startup are both there.
fn has_both(lifecycle: &Tree) -> bool
    requires { IsRegular (view lifecycle.now) }
    ensures { IsTrue result ↔ HasBoth (view lifecycle.now) }
{
    keyed(lifecycle, Key::Run).is_some() && keyed(lifecycle, Key::Startup).is_some()
}

fn steps_in(alloc: Global, lifecycle: &Tree) -> Result<Steps, RecipeFault>
    requires { IsRegular (view lifecycle.now) }
    ensures { AnswerBy OutOfMemory (lifecycle_lines (view lifecycle.now)) (λ steps. AreSteps (Some (view lifecycle.now)) (made_step steps)) result }
{
    check_keys(lifecycle)?;
    let outer = variables_at(alloc, lifecycle)?;
    let first = first_steps(alloc, lifecycle, outer.as_slice())?;
    let last = last_steps(alloc, lifecycle, outer.as_slice())?;
    if has_both(lifecycle) {
        drop(last);
        drop(first);
        return Err(RecipeFault::RunAndStartup);
    }
    Ok(Steps { first, last })
}

/// No steps at all.
pub fn no_steps() -> Steps
    ensures { AreSteps None (made_step result) }
{
    Steps {
        first: FirstSteps {
            install: None,
            run: None,
            startup: None,
        },
        last: LastSteps {
            shutdown: None,
            recover: None,
            bootstrap: None,
        },
    }
}

/// The steps of a manifest.
pub fn steps_of(alloc: Global, manifest: &Tree) -> Result<Steps, RecipeFault>
    requires { IsRegular (view manifest.now) }
    ensures { AnswerBy OutOfMemory
        (is_optional (spelled key.Lifecycle) (view manifest.now) lifecycle_lines)
        (λ steps. AreSteps (present (member_of (spelled key.Lifecycle) (view manifest.now))) (made_step steps))
        result }
{
    match optional(manifest, Key::Lifecycle) {
        Some(lifecycle) => steps_in(alloc, lifecycle),
        None => Ok(no_steps()),
    }
}
