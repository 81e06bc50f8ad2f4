use lifecycle::State;
use nuc_base::{List, NoMemory, Text};
use std::alloc::Global;
use std::test::Fail;
use step_runner::{Runner, ScriptedRunner, ShownComponent, View};

fn component(
    alloc: Global,
    name: &str,
    state: State,
    failures: u8,
) -> Result<ShownComponent, NoMemory> {
    Ok(ShownComponent {
        name: Text::from_str(alloc, name)?,
        version: Text::from_str(alloc, "1.0.0")?,
        state,
        failures,
        is_to_stop: false,
    })
}

/// Two components, the second of which stands so.
fn two(alloc: Global, state: State, failures: u8) -> Result<List<ShownComponent>, NoMemory> {
    let mut components = List::empty(alloc);
    components.push(component(alloc, "A", State::Finished, 0)?)?;
    components.push(component(alloc, "B", state, failures)?)?;
    Ok(components)
}

/// Shows two views one after another, by way of the bound.
fn show<R: Runner, V: View>(runner: &mut R, first: &V, second: &V) {
    runner.show(first);
    runner.show(second);
}

/// What is wrong of the views that a runner keeps, or nothing.
fn wrong_of(
    runner: &ScriptedRunner,
    first: &List<ShownComponent>,
    second: &List<ShownComponent>,
) -> &'static str {
    let views = runner.views().as_slice();
    if views.len() != 2 {
        return "how many views there are";
    }
    if views[0].as_slice() != first.as_slice() || views[1].as_slice() != second.as_slice() {
        return "a view";
    }
    if runner.entries().len() != 0 {
        return "an entry for a view";
    }
    ""
}

#[test]
fn views_are_kept(rt: HostRuntime) -> Result<(), Fail> {
    let alloc = rt.alloc();
    let first = two(alloc, State::Starting, 0)?;
    let second = two(alloc, State::Broken, 3)?;
    let mut runner = ScriptedRunner::new(
        alloc,
        List::empty(alloc),
        List::empty(alloc),
        List::empty(alloc),
    );
    show(&mut runner, &first, &second);
    let wrong = wrong_of(&runner, &first, &second);
    drop(runner);
    assert_eq!(rt; wrong, "");
    Ok(())
}
