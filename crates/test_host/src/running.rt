// The file `running`, of what the real runner is shown.

use host_children::{Driving, ShellRunner};
use lifecycle::State;
use nuc_base::{List, NoMemory, Text};
use std::alloc::Global;
use std::os::unix::fs::PermissionsExt;
use std::test::Fail;
use std::time::Duration;
use std::{fs, thread};
use step_runner::{Runner, ShownComponent, Waited};

fn component(
    alloc: Global,
    name: &str,
    version: &str,
    state: State,
    failures: u8,
) -> Result<ShownComponent, NoMemory> {
    Ok(ShownComponent {
        name: Text::from_str(alloc, name)?,
        version: Text::from_str(alloc, version)?,
        state,
        failures,
        is_to_stop: false,
    })
}

/// Two components, the first of which stands so.
fn two(alloc: Global, state: State, failures: u8) -> Result<List<ShownComponent>, NoMemory> {
    let mut components = List::empty(alloc);
    components.push(component(alloc, "A", "1.0.0", state, failures)?)?;
    components.push(component(alloc, "b.C", "2.0.0-rc.1", State::New, 0)?)?;
    Ok(components)
}

/// A component in each state.
fn all_states(alloc: Global) -> Result<List<ShownComponent>, NoMemory> {
    let mut components = List::empty(alloc);
    components.push(component(alloc, "a", "1.0.0", State::New, 0)?)?;
    components.push(component(alloc, "b", "1.0.0", State::Installed, 1)?)?;
    components.push(component(alloc, "c", "1.0.0", State::Starting, 2)?)?;
    components.push(component(alloc, "d", "1.0.0", State::Running, 0)?)?;
    components.push(component(alloc, "e", "1.0.0", State::Stopping, 0)?)?;
    components.push(component(alloc, "f", "1.0.0", State::Finished, 0)?)?;
    components.push(component(alloc, "g", "1.0.0", State::Errored, 1)?)?;
    components.push(component(alloc, "h", "1.0.0", State::Broken, 3)?)?;
    Ok(components)
}

/// Whether it is a time in UTC with milliseconds, as `2026-01-31T23:59:59.999Z` is one (RFC 3339).
fn is_time(word: &str) -> bool {
    let shape = b"0000-00-00T00:00:00.000Z";
    let bytes = word.as_bytes();
    bytes.len() == shape.len()
        && bytes.iter().zip(shape.iter()).all(|(byte, form)| byte == form
            || (*form == b'0' && byte.is_ascii_digit()))
}

/// The line without its last word, where that is a time, and the time.
fn parts_of(line: &str) -> Option<(&str, &str)> {
    match line.rsplit_once(' ') {
        Some((words, time)) if is_time(time) => Some((words, time)),
        _ => None,
    }
}

/// The file's lines, each without the time at its end.
fn words_of(alloc: Global, text: &str) -> Result<String, Fail> {
    let mut words = String::new(alloc);
    for line in text.lines() {
        let said = match parts_of(line) {
            Some((said, _time)) => said,
            None => "no time",
        };
        words.push_str(said)?;
        words.push('\n')?;
    }
    Ok(words)
}

/// The time at the end of the line that begins so, or nothing.
fn time_of<'a>(text: &'a str, begins: &str) -> &'a str {
    for line in text.lines() {
        if line.starts_with(begins) {
            if let Some((_said, time)) = parts_of(line) {
                return time;
            }
        }
    }
    ""
}

fn mode_of(rt: &HostRuntime, path: &str) -> Result<u32, Fail> {
    Ok(fs::metadata(rt, path)?.permissions().mode() & 0o777)
}

/// What the file holds, or nothing where it is not there.
fn held(rt: &HostRuntime, root: &str) -> Result<String, Fail> {
    let path = format!(in rt.alloc(); "{root}/running")?;
    if fs::exists(rt, path.as_str())? {
        return Ok(fs::read_to_string(rt, path.as_str())?);
    }
    Ok(String::new(rt.alloc()))
}

/// Whether the file holds these lines, each with a time behind it, below that of a call that serves.
fn holds(rt: &HostRuntime, text: &str, lines: &str) -> Result<bool, Fail> {
    let process = libc::getpid();
    let said = format!(in rt.alloc(); "serving {process}\n{lines}")?;
    Ok(words_of(rt.alloc(), text)?.as_str() == said.as_str())
}

/// A runner that shows what it does in a file, of which an earlier call left one.
fn serving<'a>(rt: &'a HostRuntime, root: &'a str) -> Result<ShellRunner<'a, HostRuntime>, Fail> {
    fs::create_dir_all(rt, root)?;
    let path = format!(in rt.alloc(); "{root}/running")?;
    fs::write(rt, path.as_str(), "serving 1 2020-01-01T00:00:00.000Z\n")?;
    let mut runner = ShellRunner::new(rt, root);
    runner.show_as(Driving::Serving);
    Ok(runner)
}

/// Whether a view that is as before is not written again.
fn stays(
    rt: &HostRuntime,
    runner: &mut ShellRunner<'_, HostRuntime>,
    root: &str,
    shown: &List<ShownComponent>,
) -> Result<bool, Fail> {
    let path = format!(in rt.alloc(); "{root}/running")?;
    fs::remove_file(rt, path.as_str())?;
    runner.show(shown);
    Ok(!fs::exists(rt, path.as_str())?)
}

/// Whether the first line and that of the second component have the times that they had, and that of the first one a later one.
fn goes_on(first: &str, second: &str) -> bool {
    time_of(first, "serving ") == time_of(second, "serving ")
        && time_of(first, "component b.C ") == time_of(second, "component b.C ")
        && time_of(first, "component A ") < time_of(second, "component A ")
}

/// What is wrong of the file while a component changes its state, or nothing.
fn wrong_of(
    rt: &HostRuntime,
    runner: &mut ShellRunner<'_, HostRuntime>,
    root: &str,
) -> Result<&'static str, Fail> {
    let alloc = rt.alloc();
    if held(rt, root)?.as_str() != "" {
        return Ok("what an earlier call left");
    }
    let starting = two(alloc, State::Starting, 0)?;
    runner.show(&starting);
    let first = held(rt, root)?;
    if !holds(
        rt,
        first.as_str(),
        "component A 1.0.0 STARTING 0\ncomponent b.C 2.0.0-rc.1 NEW 0\n",
    )? {
        return Ok("the first view");
    }
    if mode_of(rt, "running-of-a-test/running")? != 0o600 {
        return Ok("the mode");
    }
    if !stays(rt, runner, root, &starting)? {
        return Ok("a view that is as before");
    }
    thread::sleep(rt, Duration::from_millis(5));
    runner.show(&two(alloc, State::Running, 0)?);
    let second = held(rt, root)?;
    if !holds(
        rt,
        second.as_str(),
        "component A 1.0.0 RUNNING 0\ncomponent b.C 2.0.0-rc.1 NEW 0\n",
    )? {
        return Ok("another state");
    }
    if !goes_on(first.as_str(), second.as_str()) {
        return Ok("since when");
    }
    Ok("")
}

/// The same, and of the file after the end of the call.
fn wrong_to_the_end(
    rt: &HostRuntime,
    runner: &mut ShellRunner<'_, HostRuntime>,
    root: &str,
) -> Result<&'static str, Fail> {
    let wrong = wrong_of(rt, runner, root)?;
    runner.end_showing();
    if wrong.is_empty() && held(rt, root)?.as_str() != "" {
        return Ok("what the call leaves");
    }
    Ok(wrong)
}

#[test]
fn what_is_shown_stands_in_its_file(rt: HostRuntime) -> Result<(), Fail> {
    let root = "running-of-a-test";
    let mut runner = serving(&rt, root)?;
    let wrong = wrong_to_the_end(&rt, &mut runner, root);
    drop(runner);
    let wrong = wrong?;
    fs::remove_dir_all(&rt, root)?;
    assert_eq!(rt; wrong, "");
    Ok(())
}

const ALL_STATES: &str = "component a 1.0.0 NEW 0
component b 1.0.0 INSTALLED 1
component c 1.0.0 STARTING 2
component d 1.0.0 RUNNING 0
component e 1.0.0 STOPPING 0
component f 1.0.0 FINISHED 0
component g 1.0.0 ERRORED 1
component h 1.0.0 BROKEN 3
";

#[test]
fn states_have_their_names(rt: HostRuntime) -> Result<(), Fail> {
    let root = "states-of-a-test";
    let mut runner = serving(&rt, root)?;
    let states = all_states(rt.alloc())?;
    runner.show(&states);
    let text = held(&rt, root)?;
    drop(runner);
    fs::remove_dir_all(&rt, root)?;
    assert!(rt; holds(&rt, text.as_str(), ALL_STATES)?);
    Ok(())
}

/// How often the log of events says that the file could not be written.
fn times_told(rt: &HostRuntime) -> Result<usize, Fail> {
    let events = fs::read_to_string(rt, "unshown-of-a-test/logs/events")?;
    let mut times: usize = 0;
    for line in events.as_str().lines() {
        if line.contains(" fault runner show \"running\": ") {
            times = times.saturating_add(1);
        }
    }
    Ok(times)
}

#[test]
fn what_cannot_be_written_is_told_once(rt: HostRuntime) -> Result<(), Fail> {
    let root = "unshown-of-a-test";
    fs::create_dir_all(&rt, "unshown-of-a-test/logs")?;
    // A folder stands where the file is written.
    fs::create_dir_all(&rt, "unshown-of-a-test/running.new")?;
    let mut runner = serving(&rt, root)?;
    runner.show(&two(rt.alloc(), State::Starting, 0)?);
    runner.show(&two(rt.alloc(), State::Running, 0)?);
    let told = times_told(&rt)?;
    let is_quiet = runner.wait(0) == Waited::Elapsed;
    fs::remove_dir_all(&rt, "unshown-of-a-test/running.new")?;
    // It is tried again, though nothing is another.
    runner.show(&two(rt.alloc(), State::Running, 0)?);
    let text = held(&rt, root)?;
    drop(runner);
    fs::remove_dir_all(&rt, root)?;
    assert_eq!(rt; told, 1);
    assert!(rt; is_quiet);
    assert!(rt;
        holds(
            &rt,
            text.as_str(),
            "component A 1.0.0 RUNNING 0\ncomponent b.C 2.0.0-rc.1 NEW 0\n"
        )?
    );
    Ok(())
}
