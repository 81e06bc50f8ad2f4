// The scope of an item, by what variables become in it.
ghost use Rattle.std.specs.Prelude.{map};
ghost use Rattle.interpolation.specs.Scopes.{HasRegularConfigs};
ghost use Rattle.records.specs.Stored.{item_view};
ghost use Rattle.device.specs.Plans.{AreRegularItems};

use crate::histories::record_named;
use device::scope_of;
use interpolation::{Scope, expand};
use nuc_base::{List, Text};
use recipe_reader::Recipe;
use records::{Item, Origin, Record};
use std::alloc::Global;
use std::test::Fail;

/// Texts with variables, and what they become for the component a, which needs b and, softly, d.
const TEXTS: &[(&str, &str)] = &[
    ("{configuration:/x} {work:path}", "y /gg/work/a"),
    ("{artifacts:path}", "/gg/packages/artifacts/a/1.0.0"),
    ("{iot:thingName} {kernel:rootPath}", "t1 /gg"),
    (
        "{b:configuration:/n} {b:artifacts:path}",
        "7 /gg/packages/artifacts/b/1.1.0",
    ),
    ("{d:configuration:/l} {d:work:path}", "[true] /gg/work/d"),
    ("{a:work:path} {c:work:path}", "{a:work:path} {c:work:path}"),
];

/// How many texts become what they should in the scope.
fn count_texts(alloc: Global, scope: &Scope, texts: &[(&str, &str)]) -> Result<usize, Fail>
    requires { HasRegularConfigs scope.now }
{
    let mut count = 0usize;
    for (text, wanted) in texts {
        let text = Text::from_str(alloc, text)?;
        if expand(alloc, &text, scope)?.as_str() == *wanted {
            count = count.saturating_add(1);
        }
    }
    Ok(count)
}

/// The same for the scope of the first item, where its recipe can be read.
fn count_in(alloc: Global, origin: &Origin, items: &List<Item>) -> Result<usize, Fail>
    requires { AreRegularItems (map item_view items.now) }
{
    let Some(item) = items.as_slice().first() else {
        return Ok(0);
    };
    match Recipe::read(alloc, item.recipe.as_slice(), &origin.platform) {
        Ok(recipe) => {
            drop(recipe);
            let scope = scope_of(alloc, origin, items, 0)?;
            let count = count_texts(alloc, &scope, TEXTS);
            drop(scope);
            count
        }
        Err(_) => Ok(0),
    }
}

/// The same for the plan of the table, in a device of this origin.
fn count_accepted(alloc: Global, origin: &Origin) -> Result<usize, Fail> {
    match Record::read(alloc, record_named("scoped"))? {
        Some(Record::Accepted(plan)) => {
            let count = count_in(alloc, origin, &plan.items);
            drop(plan);
            count
        }
        other => {
            drop(other);
            Ok(0)
        }
    }
}

/// The same in a device that has started.
fn counted(alloc: Global) -> Result<usize, Fail> {
    match Record::read(alloc, record_named("genesis"))? {
        Some(Record::Genesis(origin)) => {
            let count = count_accepted(alloc, &origin);
            drop(origin);
            count
        }
        other => {
            drop(other);
            Ok(0)
        }
    }
}

#[test]
fn a_scope_has_what_the_recipe_names(rt: HostRuntime) -> Result<(), Fail> {
    assert_eq!(rt; counted(rt.alloc())?, TEXTS.len());
    Ok(())
}
