// The steps of a lifecycle.
ghost use Rattle.std.specs.Prelude.{◌≡◌, Some, option_and_then, IfOk, ⊤};
ghost use Rattle.serde_json.specs.Data.{string};
ghost use Rattle.serde_json.specs.Find.{as_str};
ghost use Rattle.nuc_base.specs.Tables.{AnswerBy, on};
ghost use Rattle.tree_core.specs.View.{view};
ghost use Rattle.tree_core.specs.Parts.{IsObject};
ghost use Rattle.tree_core.specs.Regular.{IsRegular};
ghost use Rattle.recipe_reader.specs.Spelled.{spelled};
ghost use Rattle.recipe_reader.specs.Keys.{keyed as keyed_of, any_case as case_of};
ghost use Rattle.recipe_reader.specs.Environment.{HaveRisingNames};
ghost use Rattle.recipe_reader.specs.Steps.{key_of as step_key, double_lines, script_lines, text_lines, object_lines, step_lines, IsStepDef, IsStep};
ghost use Rattle.recipe_reader.specs.declared.fault.Key.TheVariants as key;
ghost use Rattle.recipe_reader.specs.declared.fault.RecipeFault.TheVariants.{NoMemory as OutOfMemory};

use crate::environment::{join, variables_at};
use crate::fault::{Key, RecipeFault};
use crate::keys::{any_case, is_doubled, keyed};
use crate::limit::{limit_at, usual_limit};
use crate::recipe::StepDef;
use crate::skip::skip_at;
use nuc_base::{Copied, List, NoMemory, Step, Text};
use std::alloc::Global;
use tree_core::Tree;

fn key_of(step: Step) -> Key
    ensures { result ≡ step_key step }
{
    match step {
        Step::Install => Key::Install,
        Step::Run => Key::Run,
        Step::Startup => Key::Startup,
        Step::Shutdown => Key::Shutdown,
        Step::Recover => Key::Recover,
        Step::Bootstrap => Key::Bootstrap,
    }
}

fn no_doubles(step: &Tree) -> Result<(), RecipeFault>
    ensures { AnswerBy OutOfMemory (double_lines (view step.now)) (λ _. ⊤) result }
{
    if is_doubled(step, Key::Script) {
        return Err(RecipeFault::DuplicateKey(Key::Script));
    }
    if is_doubled(step, Key::Skipif) {
        return Err(RecipeFault::DuplicateKey(Key::Skipif));
    }
    if is_doubled(step, Key::Timeout) {
        return Err(RecipeFault::DuplicateKey(Key::Timeout));
    }
    if is_doubled(step, Key::Setenv) {
        return Err(RecipeFault::DuplicateKey(Key::Setenv));
    }
    Ok(())
}

fn script_of(alloc: Global, value: &Tree) -> Result<Text, RecipeFault>
    ensures { AnswerBy OutOfMemory (text_lines key.Script (view value.now)) (λ s. as_str (view value.now) ≡ Some s) result }
{
    let Tree::Text(text) = value else {
        return Err(RecipeFault::WrongKind(Key::Script));
    };
    Ok(text.copy(alloc)?)
}

fn script_at(alloc: Global, step: &Tree) -> Result<Text, RecipeFault>
    requires { IsRegular (view step.now) }
    ensures { AnswerBy OutOfMemory
        (script_lines (view step.now))
        (λ s. option_and_then as_str (case_of (spelled key.Script) (view step.now)) ≡ Some s)
        result }
{
    match any_case(step, Key::Script) {
        Some(value) => script_of(alloc, value),
        None => Err(RecipeFault::Missing(Key::Script)),
    }
}

/// A step that is a script alone.
fn plain_step(
    alloc: Global,
    step: Step,
    script: &Text,
    outer: &[(Text, Text)],
) -> Result<StepDef, NoMemory>
    requires { HaveRisingNames outer.now }
    ensures { IfOk result (IsStepDef step outer.now (string script.now)) }
{
    let none = List::empty(alloc);
    let env = join(alloc, none.as_slice(), outer)?;
    Ok(StepDef {
        script: script.copy(alloc)?,
        skip: None,
        limit_ms: usual_limit(step),
        env,
    })
}

/// A step that is an object.
fn object_step(
    alloc: Global,
    step: Step,
    value: &Tree,
    outer: &[(Text, Text)],
) -> Result<StepDef, RecipeFault>
    requires regular { IsRegular (view value.now) }
    requires rises { HaveRisingNames outer.now }
    requires object { IsObject (view value.now) }
    ensures { AnswerBy OutOfMemory (object_lines (view value.now)) (IsStepDef step outer.now (view value.now)) result }
{
    no_doubles(value)?;
    let script = script_at(alloc, value)?;
    let skip = skip_at(alloc, value)?;
    let limit_ms = limit_at(step, value)?;
    let own = variables_at(alloc, value)?;
    let env = join(alloc, own.as_slice(), outer)?;
    Ok(StepDef {
        script,
        skip,
        limit_ms,
        env,
    })
}

fn step_in(
    alloc: Global,
    step: Step,
    value: &Tree,
    outer: &[(Text, Text)],
) -> Result<StepDef, RecipeFault>
    requires regular { IsRegular (view value.now) }
    requires rises { HaveRisingNames outer.now }
    ensures { AnswerBy OutOfMemory (step_lines step (view value.now)) (IsStepDef step outer.now (view value.now)) result }
{
    match value {
        Tree::Text(script) => Ok(plain_step(alloc, step, script, outer)?),
        Tree::Fields(_) => object_step(alloc, step, value, outer),
        _ => Err(RecipeFault::WrongKind(key_of(step))),
    }
}

/// The definition of a step, where its lifecycle has one.
pub fn step_at(
    alloc: Global,
    step: Step,
    lifecycle: &Tree,
    outer: &[(Text, Text)],
) -> Result<Option<StepDef>, RecipeFault>
    requires regular { IsRegular (view lifecycle.now) }
    requires rises { HaveRisingNames outer.now }
    ensures { AnswerBy OutOfMemory
        (on (keyed_of (spelled (step_key step)) (view lifecycle.now)) (step_lines step))
        (IsStep step outer.now (keyed_of (spelled (step_key step)) (view lifecycle.now)))
        result }
{
    match keyed(lifecycle, key_of(step)) {
        Some(value) => Ok(Some(step_in(alloc, step, value, outer)?)),
        None => Ok(None),
    }
}
