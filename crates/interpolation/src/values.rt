ghost use Rattle.std.specs.Prelude.{◌≡◌, IfOk, IfErr, Some, option_map};
ghost use Rattle.tree_core.specs.Regular.{IsRegular};
ghost use Rattle.tree_core.specs.View.{view};
ghost use Rattle.interpolation.specs.Values.{shown, configured, folder_of_version, folder_of_work, of_component, of_dependency, value, short};
ghost use Rattle.interpolation.specs.Lookups.{LookupOutcome, IsFaultOf};
ghost use Rattle.interpolation.specs.Scopes.{HasRegularConfigs, first_named};

use crate::fault::ValueFault;
use crate::scope::{Place, Scope};
use crate::size::room_left;
use nuc_base::{Copied, Name, NoMemory, Pointer, PointerFault, Text};
use std::alloc::Global;
use tree_core::Tree;

/// The most bytes of a value that is put in.
const VALUE_LIMIT: usize = 4096;

/// What the variable `{word}` stands for, where that has at most 4,096 bytes.
pub(crate) fn short_value(
    alloc: Global,
    word: &str,
    scope: &Scope,
) -> Result<Option<Text>, NoMemory>
    requires { HasRegularConfigs scope.now }
    ensures { IfOk result (λ v. v ≡ short (value scope.now word.now)) }
{
    match value_of(alloc, word, scope) {
        Ok(Some(text)) => {
            if text.len() <= VALUE_LIMIT {
                Ok(Some(text))
            } else {
                Ok(None)
            }
        }
        Ok(None) => Ok(None),
        Err(ValueFault::TooLong) => Ok(None),
        Err(ValueFault::NoMemory) => Err(NoMemory),
    }
}

/// What the variable `{word}` stands for.
fn value_of(alloc: Global, word: &str, scope: &Scope) -> Result<Option<Text>, ValueFault>
    requires { HasRegularConfigs scope.now }
    ensures { LookupOutcome (value scope.now word.now) result }
{
    if let Some(text) = component_value(alloc, word, &scope.root, &scope.own)? {
        return Ok(Some(text));
    }
    if word == "kernel:rootPath" {
        return Ok(Some(scope.root.copy(alloc)?));
    }
    if word == "iot:thingName" {
        return Ok(Some(Text::from_str(alloc, scope.thing.as_str())?));
    }
    dependency_value(alloc, word, scope)
}

/// The value of a variable that begins with the name of a dependency and `:`.
fn dependency_value(alloc: Global, word: &str, scope: &Scope) -> Result<Option<Text>, ValueFault>
    requires { HasRegularConfigs scope.now }
    ensures { LookupOutcome (of_dependency scope.now word.now) result }
{
    let Some((name, rest)) = word.split_once(':') else {
        return Ok(None);
    };
    match place_named(scope, name) {
        Some(place) => component_value(alloc, rest, &scope.root, place),
        None => Ok(None),
    }
}

/// The first dependency of that name.
fn place_named<'s>(scope: &'s Scope, name: &str) -> Option<&'s Place>
    ensures { option_map (λ p. p.now) result ≡ first_named name.now scope.now.needed }
{
    scope
        .needed
        .as_slice()
        .iter()
        .find(|place| place.name.as_str() == name)
}

/// The values that each component has: its configuration and its folders.
fn component_value(
    alloc: Global,
    word: &str,
    root: &Text,
    place: &Place,
) -> Result<Option<Text>, ValueFault>
    requires { IsRegular (view place.now.config) }
    ensures { LookupOutcome (of_component root.now place.now word.now) result }
{
    if let Some(at) = word.strip_prefix("configuration:") {
        return config_value(alloc, at, &place.config);
    }
    if word == "artifacts:path" {
        return Ok(Some(version_folder(alloc, root, "/packages/artifacts/", place)?));
    }
    if word == "artifacts:decompressedPath" {
        return Ok(Some(version_folder(alloc, root, "/packages/artifacts-unarchived/", place)?));
    }
    if word == "work:path" {
        return Ok(Some(work_folder(alloc, root, &place.name)?));
    }
    Ok(None)
}

fn version_folder(alloc: Global, root: &Text, below: &str, place: &Place) -> Result<Text, NoMemory>
    ensures { IfOk result (λ t. t ≡ folder_of_version root.now below.now place.now) }
{
    let mut folder = root.copy(alloc)?;
    folder.push_str(below)?;
    folder.push_str(place.name.as_str())?;
    folder.push_str("/")?;
    folder.push_str(place.version.text().as_str())?;
    Ok(folder)
}

/// The folder `ROOT/work/NAME`, in which a component's commands run.
pub fn work_folder(alloc: Global, root: &Text, name: &Name) -> Result<Text, NoMemory>
    ensures { IfOk result (λ t. t ≡ folder_of_work root.now name.now) }
{
    let mut folder = root.copy(alloc)?;
    folder.push_str("/work/")?;
    folder.push_str(name.as_str())?;
    Ok(folder)
}

/// The node that the text names as a JSON pointer: a text as it is, any other node as compact JSON.
fn config_value(alloc: Global, at: &str, config: &Tree) -> Result<Option<Text>, ValueFault>
    requires { IsRegular (view config.now) }
    ensures { LookupOutcome (configured at.now config.now) result }
{
    let pointer = match Pointer::read(alloc, at) {
        Ok(pointer) => pointer,
        Err(PointerFault::NoMemory) => return Err(ValueFault::NoMemory),
        Err(_) => return Ok(None),
    };
    match config.get(&pointer) {
        Some(node) => Ok(Some(node_text(alloc, node)?)),
        None => Ok(None),
    }
}

/// A text as it is, any other node as compact JSON. A text that is surely too long is not made.
fn node_text(alloc: Global, node: &Tree) -> Result<Text, ValueFault>
    requires { IsRegular (view node.now) }
    ensures ok { IfOk result (λ t. t ≡ shown (view node.now)) }
    ensures err { IfErr result (IsFaultOf (Some (shown (view node.now)))) }
{
    let Some(_room) = room_left(node, VALUE_LIMIT) else {
        return Err(ValueFault::TooLong);
    };
    match node {
        Tree::Text(text) => Ok(text.copy(alloc)?),
        _ => Ok(node.write(alloc)?),
    }
}
