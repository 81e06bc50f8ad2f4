use crate::stubborn::Stubborn;
use host_children::ShellRunner;
use nuc_base::{Exit, List, NoMemory, Text};
use std::alloc::Global;
use std::cell::Cell;
use std::os::unix::fs::{PermissionsExt, symlink};
use std::test::Fail;
use std::time::{Duration, Instant};
use std::{env, fs, thread};
use step_runner::{Command, Runner, Waited};

fn text(alloc: Global, text: &str) -> Result<Text, NoMemory> {
    Text::from_str(alloc, text)
}

/// A command in that folder, with two variables.
fn command(alloc: Global, folder: &str, script: &str) -> Result<Command, NoMemory> {
    let mut env = List::empty(alloc);
    env.push((text(alloc, "END")?, text(alloc, "3")?))?;
    env.push((text(alloc, "WORD")?, text(alloc, "two words")?))?;
    Ok(Command {
        script: text(alloc, script)?,
        env,
        folder: text(alloc, folder)?,
    })
}

/// What a child of this command ends with, where that is within ten seconds.
fn end_of<R: Runner>(runner: &mut R, command: &Command) -> Option<Exit> {
    let Ok(child) = runner.start(command) else {
        return None;
    };
    match runner.wait(10_000) {
        Waited::Ended(which, exit) if which == child => Some(exit),
        _ => None,
    }
}

/// What a child with this script ends with.
pub fn ended<R: Runner>(
    alloc: Global,
    runner: &mut R,
    folder: &str,
    script: &str,
) -> Result<Option<Exit>, NoMemory> {
    let command = command(alloc, folder, script)?;
    Ok(end_of(runner, &command))
}

/// What a child ends with that is given a PATH without any program.
fn ended_off_path<R: Runner>(
    alloc: Global,
    runner: &mut R,
    folder: &str,
) -> Result<Option<Exit>, NoMemory> {
    let mut command = command(alloc, folder, "exit $END")?;
    let path = (text(alloc, "PATH")?, text(alloc, "/no-such")?);
    command.env.push(path)?;
    Ok(end_of(runner, &command))
}

/// Whether a child is ended before its time, and no end of it is told.
fn is_killed<R: Runner>(alloc: Global, runner: &mut R, folder: &str) -> Result<bool, NoMemory> {
    let command = command(alloc, folder, "exec sleep 30")?;
    let Ok(child) = runner.start(&command) else {
        return Ok(false);
    };
    let begun = runner.moment();
    runner.kill(child);
    Ok(runner.wait(50) == Waited::Elapsed && runner.moment().saturating_sub(begun) < 10_000)
}

/// Whether an end is told that came while nobody waited, by waits that last no time.
fn is_told_late<R: Runner>(
    rt: &HostRuntime,
    runner: &mut R,
    folder: &str,
) -> Result<bool, NoMemory> {
    let command = command(rt.alloc(), folder, "exit $END")?;
    if runner.start(&command).is_err() {
        return Ok(false);
    }
    for _ in 0..200 {
        thread::sleep(rt, Duration::from_millis(50));
        if let Waited::Ended(_, exit) = runner.wait(0) {
            return Ok(exit == Exit::Code(3));
        }
    }
    Ok(false)
}

/// Whether the file is there within ten seconds.
fn comes(rt: &HostRuntime, path: &str) -> bool {
    for _ in 0..200 {
        if fs::exists(rt, path).unwrap_or(false) {
            return true;
        }
        thread::sleep(rt, Duration::from_millis(50));
    }
    false
}

/// Whether the runner finds `setsid`: on the PATH, and without one in the usual folders.
fn has_setsid<R: Runner>(rt: &HostRuntime, runner: &mut R) -> Result<bool, NoMemory> {
    let is_usual = fs::exists(rt, "/bin/setsid").unwrap_or(false)
        || fs::exists(rt, "/usr/bin/setsid").unwrap_or(false);
    let is_on_path = runner.on_path(&text(rt.alloc(), "setsid")?);
    Ok(is_on_path || (is_usual && env::var(rt, "PATH").is_err()))
}

/// Whether a kill ends what the child started too, where there is `setsid`.
fn ends_group<R: Runner>(rt: &HostRuntime, runner: &mut R, folder: &str) -> Result<bool, NoMemory> {
    let alloc = rt.alloc();
    let script = "(sleep 2; echo x > late) & echo x > begun; wait";
    let command = command(alloc, folder, script)?;
    let Ok(child) = runner.start(&command) else {
        return Ok(false);
    };
    let is_begun = comes(rt, "runner-of-a-test/begun");
    runner.kill(child);
    thread::sleep(rt, Duration::from_millis(3_000));
    let is_late = runner.exists(&text(alloc, "runner-of-a-test/late")?);
    Ok(is_begun && is_late != has_setsid(rt, runner)?)
}

/// Whether children run in their folder and end by a code and by a signal, also one whose PATH has no program and one whose end is had late.
fn are_ends_told<R: Runner>(
    rt: &HostRuntime,
    runner: &mut R,
    root: &str,
) -> Result<bool, NoMemory> {
    let alloc = rt.alloc();
    let script = "echo x > made; exit $END";
    let code = ended(alloc, runner, "runner-of-a-test/a", script)?;
    let is_made = runner.exists(&text(alloc, "runner-of-a-test/a/made")?);
    let signal = ended(alloc, runner, root, "kill -9 $$")?;
    let off_path = ended_off_path(alloc, runner, root)?;
    let are_codes = code == Some(Exit::Code(3)) && off_path == Some(Exit::Code(3));
    Ok(is_made && are_codes && signal == Some(Exit::Signal) && is_told_late(rt, runner, root)?)
}

/// Whether a kill ends a child, and what it started.
fn are_ended<R: Runner>(rt: &HostRuntime, runner: &mut R, root: &str) -> Result<bool, NoMemory> {
    Ok(is_killed(rt.alloc(), runner, root)? && ends_group(rt, runner, root)?)
}

/// Whether the shell is on the PATH where there is one, and what is not there is not.
fn finds_programs<R: Runner>(rt: &HostRuntime, runner: &mut R) -> Result<bool, NoMemory> {
    let has_path = env::var(rt, "PATH").is_ok();
    let is_found = runner.on_path(&text(rt.alloc(), "sh")?) == has_path;
    Ok(is_found && !runner.on_path(&text(rt.alloc(), "no-such")?))
}

#[test]
fn children_run_in_their_folder_and_end(rt: HostRuntime) -> Result<(), Fail> {
    let root = "runner-of-a-test";
    let mut runner = ShellRunner::new(&rt, root);
    let are_told = are_ends_told(&rt, &mut runner, root) == Ok(true);
    let are_ended = are_ended(&rt, &mut runner, root) == Ok(true);
    let is_found = finds_programs(&rt, &mut runner) == Ok(true);
    drop(runner);
    fs::remove_dir_all(&rt, root)?;
    assert!(rt; are_told);
    assert!(rt; are_ended);
    assert!(rt; is_found);
    Ok(())
}

/// Whether a child sees both of its variables, and the greatest codes are told.
fn are_codes_told<R: Runner>(alloc: Global, runner: &mut R, root: &str) -> Result<bool, NoMemory> {
    let script = "[ \"$WORD\" = 'two words' ] && exit $END";
    let seen = ended(alloc, runner, root, script)?;
    let above = ended(alloc, runner, root, "exit 128")?;
    let last = ended(alloc, runner, root, "exit 255")?;
    let are_great = above == Some(Exit::Code(128)) && last == Some(Exit::Code(255));
    Ok(seen == Some(Exit::Code(3)) && are_great)
}

#[test]
fn ends_are_told_as_they_are(rt: HostRuntime) -> Result<(), Fail> {
    let root = "ends-of-a-test";
    let mut runner = ShellRunner::new(&rt, root);
    let are_codes = are_codes_told(rt.alloc(), &mut runner, root) == Ok(true);
    drop(runner);
    fs::remove_dir_all(&rt, root)?;
    assert!(rt; are_codes);
    Ok(())
}

/// The number of the first of two children, behind a kill of the second.
fn left_by_the_newer<R: Runner>(runner: &mut R, first: &Command, second: &Command) -> Option<u64> {
    let Ok(older) = runner.start(first) else {
        return None;
    };
    let Ok(newer) = runner.start(second) else {
        return None;
    };
    runner.kill(newer);
    Some(older)
}

/// The number of the second of two children, behind a kill of the first.
fn left_by_the_older<R: Runner>(runner: &mut R, first: &Command, second: &Command) -> Option<u64> {
    let Ok(older) = runner.start(first) else {
        return None;
    };
    let Ok(newer) = runner.start(second) else {
        return None;
    };
    runner.kill(older);
    Some(newer)
}

/// The number of a child that ends by itself, behind a kill of one that was started after it, or before it.
fn left_by_a_kill<R: Runner>(
    alloc: Global,
    runner: &mut R,
    folder: &str,
    is_older: bool,
) -> Result<Option<u64>, NoMemory> {
    let ends = command(alloc, folder, "sleep 0.3; exit $END")?;
    let stays = command(alloc, folder, "exec sleep 30")?;
    Ok(if is_older {
        left_by_the_newer(runner, &ends, &stays)
    } else {
        left_by_the_older(runner, &stays, &ends)
    })
}

/// Whether its end is told, and no other.
fn is_told_alone<R: Runner>(
    alloc: Global,
    runner: &mut R,
    folder: &str,
    is_older: bool,
) -> Result<bool, NoMemory> {
    let Some(left) = left_by_a_kill(alloc, runner, folder, is_older)? else {
        return Ok(false);
    };
    let told = runner.wait(10_000);
    Ok(told == Waited::Ended(left, Exit::Code(3)) && runner.wait(50) == Waited::Elapsed)
}

#[test]
fn a_kill_ends_its_child_alone(rt: HostRuntime) -> Result<(), Fail> {
    let root = "pair-of-a-test";
    let mut runner = ShellRunner::new(&rt, root);
    let is_older_told = is_told_alone(rt.alloc(), &mut runner, root, true) == Ok(true);
    let is_newer_told = is_told_alone(rt.alloc(), &mut runner, root, false) == Ok(true);
    drop(runner);
    fs::remove_dir_all(&rt, root)?;
    assert!(rt; is_older_told && is_newer_told);
    Ok(())
}

/// How many of eight children that end by themselves are started.
fn started_eight<R: Runner>(
    alloc: Global,
    runner: &mut R,
    folder: &str,
) -> Result<usize, NoMemory> {
    let command = command(alloc, folder, "sleep 0.2; exit $END")?;
    let mut count: usize = 0;
    for _ in 0..8 {
        if runner.start(&command).is_ok() {
            count = count.saturating_add(1);
        }
    }
    Ok(count)
}

/// How many of eight ends are told at that moment.
fn told_at<R: Runner>(runner: &mut R, moment: u64) -> usize {
    let mut count: usize = 0;
    for _ in 0..8 {
        let is_then = runner.moment() == moment;
        if matches!(runner.wait(0), Waited::Ended(_, Exit::Code(3))) && is_then {
            count = count.saturating_add(1);
        }
    }
    count
}

#[test]
fn ends_that_were_not_looked_for_are_told_at_the_moment_before(
    rt: HostRuntime,
) -> Result<(), Fail> {
    let root = "stall-of-a-test";
    let mut runner = ShellRunner::new(&rt, root);
    let started = started_eight(rt.alloc(), &mut runner, root) == Ok(8);
    let before = runner.moment();
    thread::sleep(&rt, Duration::from_millis(3_000));
    let told = told_at(&mut runner, before);
    let after = runner.moment();
    drop(runner);
    fs::remove_dir_all(&rt, root)?;
    assert!(rt; started && told == 8);
    // The time goes on behind them.
    assert!(rt; after >= before.saturating_add(2_500));
    Ok(())
}

/// Whether the moment goes on from the one before where a child was started long after it, so that its time is its own.
fn counts_from_starts<R: Runner>(
    rt: &HostRuntime,
    runner: &mut R,
    folder: &str,
) -> Result<bool, NoMemory> {
    let command = command(rt.alloc(), folder, "exec sleep 30")?;
    let before = runner.moment();
    thread::sleep(rt, Duration::from_millis(2_000));
    let Ok(child) = runner.start(&command) else {
        return Ok(false);
    };
    let after = runner.moment();
    runner.kill(child);
    Ok(after < before.saturating_add(1_000))
}

#[test]
fn the_time_of_a_step_counts_from_its_start(rt: HostRuntime) -> Result<(), Fail> {
    let root = "start-of-a-test";
    let mut runner = ShellRunner::new(&rt, root);
    let is_counted = counts_from_starts(&rt, &mut runner, root) == Ok(true);
    drop(runner);
    fs::remove_dir_all(&rt, root)?;
    assert!(rt; is_counted);
    Ok(())
}

/// Gives the folder that is looked into this mode.
fn set_mode(rt: &HostRuntime, mode: u32) -> Result<(), Fail> {
    let mut permissions = fs::metadata(rt, "probes-of-a-test/closed")?.permissions();
    permissions.set_mode(mode);
    fs::set_permissions(rt, "probes-of-a-test/closed", permissions)?;
    Ok(())
}

/// Makes a folder that may not be entered, a file, and a link that leads to itself.
fn make_probes(rt: &HostRuntime) -> Result<(), Fail> {
    fs::create_dir_all(rt, "probes-of-a-test/closed")?;
    fs::write(rt, "probes-of-a-test/file", "x")?;
    symlink(rt, "loop", "probes-of-a-test/loop")?;
    set_mode(rt, 0)
}

/// Whether the file is there, and none of what lies behind what cannot be gone through.
fn sees_the_file_alone<R: Runner>(alloc: Global, runner: &mut R) -> Result<bool, NoMemory> {
    let mut is_there = false;
    for path in [
        "probes-of-a-test/closed/x",
        "probes-of-a-test/file/x",
        "probes-of-a-test/loop/x",
        "probes-of-a-test/loop",
    ] {
        is_there = is_there || runner.exists(&text(alloc, path)?);
    }
    Ok(!is_there && runner.exists(&text(alloc, "probes-of-a-test/file")?))
}

#[test]
fn what_cannot_be_looked_at_is_not_there(rt: HostRuntime) -> Result<(), Fail> {
    let root = "probes-of-a-test";
    make_probes(&rt)?;
    let mut runner = ShellRunner::new(&rt, root);
    let is_alone = sees_the_file_alone(rt.alloc(), &mut runner) == Ok(true);
    drop(runner);
    set_mode(&rt, 0o700)?;
    fs::remove_dir_all(&rt, root)?;
    assert!(rt; is_alone);
    Ok(())
}

/// Whether a child ends alike with a folder of logs and without, which it does not make.
fn ends_alike<R: Runner>(rt: &HostRuntime, runner: &mut R) -> Result<bool, Fail> {
    let folder = "logs-of-a-test/work/A";
    let script = "echo asked; echo refused >&2; exit $END";
    let without = ended(rt.alloc(), runner, folder, script)?;
    let is_made = fs::exists(rt, "logs-of-a-test/logs")?;
    fs::create_dir_all(rt, "logs-of-a-test/logs")?;
    let with = ended(rt.alloc(), runner, folder, script)?;
    Ok(without == with && with == Some(Exit::Code(3)) && !is_made)
}

/// Whether the log has what the child printed, between its start and its end.
fn is_logged(rt: &HostRuntime) -> Result<bool, Fail> {
    let log = fs::read_to_string(rt, "logs-of-a-test/logs/A.log")?;
    let is_whole = log.as_str().lines().count() == 4 && log.as_str().ends_with(" code 3\n");
    Ok(is_whole && log.as_str().contains(" start A\nasked\nrefused\n20"))
}

#[test]
fn what_children_print_goes_to_their_log(rt: HostRuntime) -> Result<(), Fail> {
    let root = "logs-of-a-test";
    let mut runner = ShellRunner::new(&rt, root);
    let are_alike = ends_alike(&rt, &mut runner);
    drop(runner);
    assert!(rt; are_alike?);
    assert!(rt; is_logged(&rt)?);
    fs::remove_dir_all(&rt, root)?;
    Ok(())
}

/// Starts a step that writes to the file `beats` of its folder again and again, as a child of its shell where that is asked
/// for, whose end it does not await, and waits for the first.
fn starts_beating<R: Runner>(
    rt: &HostRuntime,
    runner: &mut R,
    is_left: bool,
) -> Result<bool, NoMemory> {
    let beat = "while :; do echo x >> beats; sleep 0.05; done";
    let left = "(while :; do echo x >> beats; sleep 0.05; done) & exit 0";
    let script = if is_left { left } else { beat };
    let command = command(rt.alloc(), "earlier-of-a-test/work/A", script)?;
    Ok(runner.start(&command).is_ok() && comes(rt, "earlier-of-a-test/work/A/beats"))
}

/// Whether the file `beats` grows within half a second.
fn is_beating(rt: &HostRuntime) -> Result<bool, Fail> {
    let before = fs::metadata(rt, "earlier-of-a-test/work/A/beats")?.len();
    thread::sleep(rt, Duration::from_millis(500));
    let after = fs::metadata(rt, "earlier-of-a-test/work/A/beats")?.len();
    Ok(after > before)
}

/// Whether what one runner left lives until the first call of another one in the same folder, and no longer.
fn is_ended_by_a_later_one(rt: &HostRuntime, is_left: bool) -> Result<bool, Fail> {
    let root = "earlier-of-a-test";
    fs::create_dir_all(rt, "earlier-of-a-test/logs")?;
    let mut earlier = ShellRunner::new(rt, root);
    let is_begun = starts_beating(rt, &mut earlier, is_left) == Ok(true);
    drop(earlier);
    let mut later = ShellRunner::new(rt, root);
    let lived = is_beating(rt)?;
    let is_quiet = later.wait(0) == Waited::Elapsed;
    let lives = is_beating(rt)?;
    drop(later);
    let events = fs::read_to_string(rt, "earlier-of-a-test/logs/events")?;
    let is_told = events.as_str().contains(" ended-earlier ");
    let notes = fs::metadata(rt, "earlier-of-a-test/children")?.len();
    fs::remove_dir_all(rt, root)?;
    Ok(is_begun && lived && is_quiet && !lives && is_told && notes == 0)
}

#[test]
fn children_of_an_earlier_call_are_ended(rt: HostRuntime) -> Result<(), Fail> {
    let is_ended = is_ended_by_a_later_one(&rt, false)?;
    assert!(rt; is_ended);
    let mut runner = ShellRunner::new(&rt, "earlier-of-a-test");
    let has_setsid = has_setsid(&rt, &mut runner) == Ok(true);
    drop(runner);
    // Without groups a child that outlived its parent is nobody's.
    if has_setsid {
        let is_ended = is_ended_by_a_later_one(&rt, true)?;
        assert!(rt; is_ended);
    }
    Ok(())
}

/// The notes of one runner with one word of them written otherwise, in the place of them.
fn write_otherwise(rt: &HostRuntime, which: usize) -> Result<(), Fail> {
    let notes = fs::read_to_string(rt, "earlier-of-a-test/children")?;
    let mut line = String::new(rt.alloc());
    for (at, word) in notes.as_str().split_ascii_whitespace().enumerate() {
        line.push_str(word)?;
        line.push_str(if at == which { "1 " } else { " " })?;
    }
    fs::write(rt, "earlier-of-a-test/children", line.as_str())?;
    Ok(())
}

/// Whether a new runner in the folder has no child, once it has ended what is noted there.
fn is_quiet(rt: &HostRuntime, root: &str) -> bool {
    let mut later = ShellRunner::new(rt, root);
    let is_quiet = later.wait(0) == Waited::Elapsed;
    drop(later);
    is_quiet
}

/// Whether a child lives on where that word of its note is another one.
fn is_left_alone(rt: &HostRuntime, which: usize) -> Result<bool, Fail> {
    let root = "earlier-of-a-test";
    let mut earlier = ShellRunner::new(rt, root);
    let is_begun = starts_beating(rt, &mut earlier, false) == Ok(true);
    let notes = fs::read_to_string(rt, "earlier-of-a-test/children")?;
    write_otherwise(rt, which)?;
    let is_passed_over = is_quiet(rt, root);
    let lives = is_beating(rt)?;
    // Under its own note it is ended.
    fs::write(rt, "earlier-of-a-test/children", notes.as_str())?;
    let is_over = is_quiet(rt, root) && !is_beating(rt)?;
    drop(earlier);
    fs::remove_dir_all(rt, root)?;
    Ok(is_begun && is_passed_over && lives && is_over)
}

#[test]
fn whoever_is_no_child_of_an_earlier_call_is_left_alone(rt: HostRuntime) -> Result<(), Fail> {
    // Its start, the run of the system, and the space of its number.
    for which in [1, 2, 3] {
        let lives = is_left_alone(&rt, which)?;
        assert!(rt; lives, "word {which}");
    }
    Ok(())
}

fn stubborn(rt: &HostRuntime) -> Stubborn<'_> {
    Stubborn {
        rt,
        lives_on: false,
        refusals: Cell::new(0),
        speed: 1,
    }
}

/// How many milliseconds the kills of two children take that live on whatever is done.
fn kills_of_two<R: Runner>(
    rt: &HostRuntime,
    runner: &mut R,
    folder: &str,
) -> Result<Option<u128>, Fail> {
    let command = command(rt.alloc(), folder, "exec sleep 30").map_err(|_| Fail::new("no memory"))?;
    let (Ok(first), Ok(second)) = (runner.start(&command), runner.start(&command)) else {
        return Ok(None);
    };
    let begun = Instant::now(rt)?;
    runner.kill(first);
    runner.kill(second);
    Ok(Some(begun.elapsed(rt)?.as_millis()))
}

#[test]
fn what_cannot_be_ended_is_let_go(rt: HostRuntime) -> Result<(), Fail> {
    let root = "let-go-of-a-test";
    fs::create_dir_all(&rt, "let-go-of-a-test/logs")?;
    let mut system = stubborn(&rt);
    system.lives_on = true;
    let mut runner = ShellRunner::new(&system, root);
    let took = kills_of_two(&rt, &mut runner, "let-go-of-a-test/work/A")?;
    let is_quiet = runner.wait(0) == Waited::Elapsed;
    drop(runner);
    let events = fs::read_to_string(&rt, "let-go-of-a-test/logs/events")?;
    let told = events
        .as_str()
        .lines()
        .filter(|line| line.contains(" lives-on A "))
        .count();
    let notes = fs::metadata(&rt, "let-go-of-a-test/children")?.len();
    fs::remove_dir_all(&rt, root)?;
    assert!(rt; is_quiet && told == 2);
    // Both are still noted, for a later call.
    assert!(rt; notes == 192);
    // Five seconds for both, and what the programs take that end their groups.
    assert!(rt;
        took.is_some_and(|took| took >= 4_000 && took < 12_000),
        "{took:?}"
    );
    Ok(())
}

#[test]
fn starts_are_tried_again(rt: HostRuntime) -> Result<(), Fail> {
    let root = "tried-of-a-test";
    let system = stubborn(&rt);
    system.refusals.set(10);
    let mut runner = ShellRunner::new(&system, root);
    let first = ended(rt.alloc(), &mut runner, root, "exit $END");
    system.refusals.set(1_000);
    let second = ended(rt.alloc(), &mut runner, root, "exit $END");
    drop(runner);
    fs::remove_dir_all(&rt, root)?;
    assert!(rt; first == Ok(Some(Exit::Code(3))));
    // Not for ever.
    assert!(rt; second == Ok(None));
    Ok(())
}

/// Starts a step that prints a little more than two MiB, and lets more than a minute pass.
fn prints_for_a_minute<R: Runner>(alloc: Global, runner: &mut R) -> Result<bool, NoMemory> {
    let script = "head -c 2097153 /dev/zero; echo x > printed; exec sleep 30";
    let command = command(alloc, "turned-of-a-test/work/A", script)?;
    if runner.start(&command).is_err() {
        return Ok(false);
    }
    let printed = text(alloc, "turned-of-a-test/work/A/printed")?;
    let mut is_printed = false;
    for _ in 0..200 {
        is_printed = is_printed || (runner.wait(100) == Waited::Elapsed && runner.exists(&printed));
    }
    Ok(is_printed && runner.wait(70_000) == Waited::Elapsed)
}

#[test]
fn a_long_log_is_cut_while_its_child_lives(rt: HostRuntime) -> Result<(), Fail> {
    let root = "turned-of-a-test";
    fs::create_dir_all(&rt, "turned-of-a-test/logs")?;
    let mut system = stubborn(&rt);
    system.speed = 30;
    let mut runner = ShellRunner::new(&system, root);
    let is_printed = prints_for_a_minute(rt.alloc(), &mut runner) == Ok(true);
    drop(runner);
    let is_over = is_quiet(&rt, root);
    let now = fs::metadata(&rt, "turned-of-a-test/logs/A.log")?.len();
    let before = fs::metadata(&rt, "turned-of-a-test/logs/A.log.1")?.len();
    fs::remove_dir_all(&rt, root)?;
    assert!(rt; is_printed && is_over);
    assert!(rt; now < 1_000 && before == 1_048_576, "{now} {before}");
    Ok(())
}

#[test]
fn what_happens_to_children_is_told(rt: HostRuntime) -> Result<(), Fail> {
    let root = "told-of-a-test";
    fs::create_dir_all(&rt, "told-of-a-test/logs")?;
    let mut runner = ShellRunner::new(&rt, root);
    let code = ended(
        rt.alloc(),
        &mut runner,
        "told-of-a-test/work/events",
        "exit $END",
    );
    let is_killed = is_killed(rt.alloc(), &mut runner, "told-of-a-test/work/B") == Ok(true);
    drop(runner);
    let events = fs::read_to_string(&rt, "told-of-a-test/logs/events")?;
    let own = fs::read_to_string(&rt, "told-of-a-test/logs/events.log")?;
    fs::remove_dir_all(&rt, root)?;
    assert!(rt; code == Ok(Some(Exit::Code(3))) && is_killed);
    for word in [
        " start events ",
        " end events ",
        " code 3\n",
        " start B ",
        " kill B ",
    ] {
        assert!(rt; events.as_str().contains(word), "{word}");
    }
    // The log of a component `events` is another one.
    assert!(rt; own.as_str().lines().count() == 2 && !own.as_str().contains(" B"));
    Ok(())
}
