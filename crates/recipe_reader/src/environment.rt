// The variables of an environment, and of two of them together.
ghost use Rattle.std.specs.Prelude.{◌≡◌, ◌||◌, ◌++◌, map, IfOk, OnOk};
ghost use Rattle.std.specs.List.{AllZip};
ghost use Rattle.serde_json.specs.Data.{object};
ghost use Rattle.nuc_base.specs.Tables.{AnswerBy, each, on};
ghost use Rattle.tree_core.specs.View.{view, field_view, fields_view};
ghost use Rattle.tree_core.specs.Regular.{IsRegular};
ghost use Rattle.tree_core.specs.Parts.{members};
ghost use Rattle.recipe_reader.specs.Environment.{variable_lines, environment_lines, IsVariable, has_equals as has_an_equals, is_empty as is_empty_text};
ghost use Rattle.recipe_reader.specs.Environment.{HaveRisingNames, AreVariables, IsJoined};
ghost use Rattle.recipe_reader.specs.Spelled.{spelled};
ghost use Rattle.recipe_reader.specs.Keys.{keyed as keyed_of};
ghost use Rattle.recipe_reader.specs.declared.fault.Key.TheVariants as key;
ghost use Rattle.recipe_reader.specs.declared.fault.RecipeFault.TheVariants.{NoMemory as OutOfMemory};

use crate::fault::{Key, RecipeFault};
use crate::keys::keyed;
use nuc_base::{Copied, List, NoMemory, Text};
use std::alloc::Global;
use std::cmp::Ordering;
use tree_core::Tree;

fn has_equals(name: &[u8]) -> bool
    ensures { result ≡ has_an_equals name.now }
{
    for byte in name {
        if *byte == b'=' {
            return true;
        }
    }
    false
}

fn is_no_name(name: &str) -> bool
    ensures { result ≡ (is_empty_text name.now || has_an_equals name.now) }
{
    name.is_empty() || has_equals(name.as_bytes())
}

fn variable_of(alloc: Global, name: &Text, value: &Tree) -> Result<(Text, Text), RecipeFault>
    requires { IsRegular (view value.now) }
    ensures { AnswerBy OutOfMemory (variable_lines (name.now, view value.now)) (IsVariable (name.now, view value.now)) result }
{
    if is_no_name(name.as_str()) {
        return Err(RecipeFault::WrongKind(Key::Setenv));
    }
    let text = match value {
        Tree::Text(text) => text.copy(alloc)?,
        Tree::Flag(_) | Tree::Whole(_) => value.write(alloc)?,
        _ => return Err(RecipeFault::WrongKind(Key::Setenv)),
    };
    Ok((name.copy(alloc)?, text))
}

fn variables_among(
    alloc: Global,
    fields: &Vec<(Text, Tree)>,
) -> Result<List<(Text, Text)>, RecipeFault>
    requires { IsRegular (object (fields_view fields.now.items)) }
    ensures { AnswerBy OutOfMemory
        (each variable_lines (map field_view fields.now.items))
        (AllZip IsVariable (map field_view fields.now.items))
        result }
{
    let mut variables = Vec::with_capacity(alloc, fields.len())?;
    for (name, value) in fields {
        let variable = variable_of(alloc, name, value)?;
        variables.push(variable)?;
    }
    Ok(List::new(variables))
}

/// The variables of an environment, in the order of their names.
fn variables_in(alloc: Global, value: &Tree) -> Result<List<(Text, Text)>, RecipeFault>
    requires { IsRegular (view value.now) }
    ensures { AnswerBy OutOfMemory
        (environment_lines (view value.now))
        (λ xs. AllZip IsVariable (members (view value.now)) xs × HaveRisingNames xs)
        result }
{
    let Tree::Fields(fields) = value else {
        return Err(RecipeFault::WrongKind(Key::Setenv));
    };
    variables_among(alloc, fields)
}

/// The variables that an object sets, in the order of their names.
pub fn variables_at(alloc: Global, object: &Tree) -> Result<List<(Text, Text)>, RecipeFault>
    requires { IsRegular (view object.now) }
    ensures { AnswerBy OutOfMemory
        (on (keyed_of (spelled key.Setenv) (view object.now)) environment_lines)
        (λ xs. AreVariables (keyed_of (spelled key.Setenv) (view object.now)) xs × HaveRisingNames xs)
        result }
{
    match keyed(object, Key::Setenv) {
        Some(value) => variables_in(alloc, value),
        None => Ok(List::empty(alloc)),
    }
}

fn copy_variable(alloc: Global, variable: &(Text, Text)) -> Result<(Text, Text), NoMemory>
    ensures { IfOk result (λ x. x ≡ variable.now) }
{
    let name = variable.0.copy(alloc)?;
    let value = variable.1.copy(alloc)?;
    Ok((name, value))
}

/// Copies of the variables of both in the order of their names; where both name one, the own one.
pub fn join(
    alloc: Global,
    own: &[(Text, Text)],
    outer: &[(Text, Text)],
) -> Result<List<(Text, Text)>, NoMemory>
    requires own_rises { HaveRisingNames own.now }
    requires outer_rises { HaveRisingNames outer.now }
    ensures { IfOk result (λ joined. IsJoined own.now outer.now joined) }
{
    let mut joined = Vec::new(alloc);
    let mut next = 0;
    let mut other = 0;
    'names: while next < own.len() && other < outer.len() {
        let order = own[next].0.cmp(&outer[other].0);
        if order == Ordering::Greater {
            joined.push(copy_variable(alloc, &outer[other])?)?;
            other += 1;
            continue;
        }
        joined.push(copy_variable(alloc, &own[next])?)?;
        next += 1;
        if order == Ordering::Equal {
            other += 1;
            continue;
        }
    }
    joined_with(alloc, joined, &own[next..], &outer[other..])
}

/// The variables with copies of others behind them.
fn joined_with(
    alloc: Global,
    mut variables: Vec<(Text, Text)>,
    own: &[(Text, Text)],
    outer: &[(Text, Text)],
) -> Result<List<(Text, Text)>, NoMemory>
    ensures { IfOk result (λ all. all ≡ (variables.items ++ own.now) ++ outer.now) }
{
    append(alloc, &mut variables, own)?;
    append(alloc, &mut variables, outer)?;
    Ok(List::new(variables))
}

/// Puts copies of the variables behind the others.
fn append(
    alloc: Global,
    into: &mut Vec<(Text, Text)>,
    variables: &[(Text, Text)],
) -> Result<(), NoMemory>
    ensures { OnOk result (into.new.items ≡ into.old.items ++ variables.now) }
{
    for variable in variables {
        into.push(copy_variable(alloc, variable)?)?;
    }
    Ok(())
}
