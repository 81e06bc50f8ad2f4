// What befalls components, moment by moment, and what is handed out.
ghost use Rattle.std.specs.Prelude.{◌≡◌, ◌<◌, ◌^◌, IfSome, OnOk};
ghost use Rattle.nuc_base.specs.declared.platform.Platform.{Platform};
ghost use Rattle.device.specs.Devices.{device_view, IsRegularDevice};
ghost use Rattle.device.specs.Sound.{IsSound};
ghost use Rattle.test_supervisor.specs.Stands.{IsReadyFor};

use crate::acts::{Seen, change, end, take_acts};
use crate::devices::device_of;
use components::{Event, Mode};
use device::Device;
use nuc_base::{Exit, NoMemory};
use std::alloc::Global;
use std::test::Fail;
use supervisor::Supervisor;

/// Components, others that they are changed to, and lines. A line has a moment, what befalls the components then, what is
/// handed out behind that, and how they then stand. `serve` and `begin` have the first components run, without and with a
/// deployment, and `change` the second ones; `3=1` is the end of child 3 with code 1.
const CASES: &[(&str, &str, &str)] = &[
    // The configuration changes of one that others need, one of them softly.
    (
        r#"D 1.0.0 {"v":1} run {configuration:/v};H 1.0.0 {} run h hard D;S 1.0.0 {} run s soft D"#,
        r#"D 1.0.0 {"v":2} run {configuration:/v};H 1.0.0 {} run h hard D;S 1.0.0 {} run s soft D"#,
        "0|serve|D Run 1 as 0;H Run h as 1;S Run s as 2;|up
1|change|kill 1;kill 0;D Run 2 as 3;H Run h as 4;|up
2|stop|kill 4;kill 3;kill 2;|down",
    ),
    // A startup ends at its limit.
    (
        "A 1.0.0 {} startup s",
        "",
        "0|begin|A Startup s as 0;|due 120000
120000|0=0||up",
    ),
    // A startup never ends.
    (
        "A 1.0.0 {} startup s",
        "",
        "0|begin|A Startup s as 0;|due 120000
119999|||due 120000
120000||kill 0;failed A Startup TimedOut;A Startup s as 1;|due 240000
240000||kill 1;failed A Startup TimedOut;A Startup s as 2;|due 360000
360000||kill 2;broke A Startup TimedOut;|broken A
360001|stop||down",
    ),
    // One that failed needs one that is replaced, and that needs one that is replaced too: each is stopped behind those that
    // need it, and takes its new needs only then.
    (
        "a 1.0.0 {} run a hard b;b 1.0.0 {} run b recover r hard c;c 1.0.0 {} run c;d 1.0.0 {} run d shutdown q hard a",
        "a 2.0.0 {} run aa;b 1.0.0 {} run b recover r hard c;c 2.0.0 {} run cc hard a;d 1.0.0 {} run d shutdown q hard a",
        "0|begin|c Run c as 0;b Run b as 1;a Run a as 2;d Run d as 3;|up
1|1=1|failed b Run Code(1);b Recover r as 4;d Shutdown q as 5;|due 15001
2|change||due 15001
3|5=0|kill 3;kill 2;a Run aa as 6;kill 4;kill 0;c Run cc as 7;b Run b as 8;d Run d as 9;|up",
    ),
    // The same, and all are stopped while the slow shutdown goes on: nobody comes to wait for himself.
    (
        "a 1.0.0 {} run a hard b;b 1.0.0 {} run b recover r hard c;c 1.0.0 {} run c;d 1.0.0 {} run d shutdown q hard a",
        "a 2.0.0 {} run aa;b 1.0.0 {} run b recover r hard c;c 2.0.0 {} run cc hard a;d 1.0.0 {} run d shutdown q hard a",
        "0|begin|c Run c as 0;b Run b as 1;a Run a as 2;d Run d as 3;|up
1|1=1|failed b Run Code(1);b Recover r as 4;d Shutdown q as 5;|due 15001
2|change||due 15001
3|4=0||due 15001
4|stop||due 15001
5|5=0|kill 3;kill 2;kill 0;|down",
    ),
    // Starts that are refused, one that is skipped, and needs of a broken one.
    (
        "A 1.0.0 {} install no;B 1.0.0 {} startup s soft A;C 1.0.0 {} probed i hard A",
        "A 2.0.0 {};B 1.0.0 {} startup s soft A;C 1.0.0 {} probed i hard A",
        "0|begin|A Install no refused;failed A Install NotStarted;A Install no refused;failed A Install NotStarted;A Install no refused;\
        broke A Install NotStarted;B Startup s as 0;|broken A due 120000
5|0=0||broken A
6|change|C Install i skipped /opt/x;|up",
    ),
    // Once no deployment is driven the failures so far are forgotten.
    (
        "A 1.0.0 {} startup s",
        "",
        "0|begin|A Startup s as 0;|due 120000
1|0=1|failed A Startup Code(1);A Startup s as 1;|due 120001
2|1=1|failed A Startup Code(1);A Startup s as 2;|due 120002
3|steady 2=1|failed A Startup Code(1);A Startup s as 3;|due 120003
4|3=signal|failed A Startup Signal;A Startup s as 4;|due 120004
5|4=1|broke A Startup Code(1);|broken A",
    ),
    // The same with slow shutdowns, and others come meanwhile: b reaches v and x, but was to be stopped before. It is stopped
    // before y, and v is not given its stop: x reaches it by b, and waits for y still. Once y is stopped each is stopped and takes
    // its new needs. Then the first ones come again, and all leave.
    (
        "b 1.0.0 {} run b shutdown p hard v;v 1.0.0 {} run v;x 1.0.0 {} run x recover r hard b;y 1.0.0 {} run y shutdown q hard x",
        "b 1.0.0 {} run b shutdown p hard v;v 2.0.0 {} run vv hard x;x 2.0.0 {} run xx recover r;y 1.0.0 {} run y shutdown q hard x",
        "0|begin|v Run v as 0;b Run b as 1;x Run x as 2;y Run y as 3;|up
1|2=1|failed x Run Code(1);x Recover r as 4;y Shutdown q as 5;|due 15001
2|0=1|failed v Run Code(1);b Shutdown p as 6;v Run v as 7;|due 15001
3|change||due 15001
4|6=0|kill 1;|due 15001
5|5=0|kill 3;kill 4;kill 7;x Run xx as 8;v Run vv as 9;b Run b as 10;y Run y as 11;|up
6|begin|b Shutdown p as 12;y Shutdown q as 13;|due 15006
7|13=0|kill 11;|due 15006
8|12=0|kill 10;kill 9;v Run v as 14;b Run b as 15;kill 8;x Run x as 16;y Run y as 17;|up
9|stop|y Shutdown q as 18;|due 15009
10|18=0|kill 17;kill 16;b Shutdown p as 19;|due 15010
11|19=0|kill 15;kill 14;|down",
    ),
    // The same, and one that comes beside them fails three times, so that all leave while y is being stopped.
    (
        "b 1.0.0 {} run b shutdown p hard v;v 1.0.0 {} run v;x 1.0.0 {} run x recover r hard b;y 1.0.0 {} run y shutdown q hard x",
        "b 1.0.0 {} run b shutdown p hard v;v 2.0.0 {} run vv hard x;x 2.0.0 {} run xx recover r;y 1.0.0 {} run y shutdown q hard x;\
        z 1.0.0 {} startup no",
        "0|begin|v Run v as 0;b Run b as 1;x Run x as 2;y Run y as 3;|up
1|2=1|failed x Run Code(1);x Recover r as 4;y Shutdown q as 5;|due 15001
2|0=1|failed v Run Code(1);b Shutdown p as 6;v Run v as 7;|due 15001
3|change|z Startup no refused;failed z Startup NotStarted;z Startup no refused;failed z Startup NotStarted;z Startup no refused;\
        broke z Startup NotStarted;|broken z due 15001
4|6=0|kill 1;|broken z due 15001
5|stop||due 15001
6|4=0||due 15001
7|5=0|kill 3;kill 7;|down",
    ),
    // One that goes away is shutting down, and it comes again: that ends as a restart. Then it is to begin again, and waits for
    // another one that is about to need it.
    (
        "a 1.0.0 {} run a shutdown p;d 1.0.0 {} run d shutdown q hard a",
        "d 2.0.0 {} run dd shutdown q",
        "0|begin|a Run a as 0;d Run d as 1;|up
1|change|d Shutdown q as 2;|due 15001
2|2=0|a Shutdown p as 3;kill 1;d Run dd as 4;|due 15002
3|begin|d Shutdown q as 5;|due 15002
4|3=0|kill 0;|due 15003
5|5=0|kill 4;a Run a as 6;d Run d as 7;|up
6|stop|d Shutdown q as 8;|due 15006
7|8=0|kill 7;a Shutdown p as 9;|due 15007
8|9=0|kill 6;|down",
    ),
    // One that is replaced is shutting down, and the first one comes again, so that the second one never runs; then it is
    // replaced once more, and is to leave meanwhile.
    (
        "a 1.0.0 {} run a shutdown p",
        "a 2.0.0 {} run aa shutdown p",
        "0|begin|a Run a as 0;|up
1|change|a Shutdown p as 1;|due 15001
2|begin||due 15001
3|1=0|kill 0;a Run a as 2;|up
4|change|a Shutdown p as 3;|due 15004
5|stop||due 15004
6|3=1|kill 2;|down",
    ),
    // One is gone and comes again: in the moment in which its shutdown ends, while its run child is still to be killed, and later.
    (
        "a 1.0.0 {} run a shutdown p;d 1.0.0 {} run d",
        "d 1.0.0 {} run d",
        "0|begin|a Run a as 0;d Run d as 1;|up
1|change|a Shutdown p as 2;|due 15001
2|2=0 begin|kill 0;a Run a as 3;|up
3|change|a Shutdown p as 4;|due 15003
4|4=0|kill 3;|up
5|begin|a Run a as 5;|up",
    ),
];

/// How the components stand, in words.
fn standing(alloc: Global, supervisor: &Supervisor) -> Result<String, NoMemory> {
    let mut text = String::new(alloc);
    if supervisor.stopped() {
        text.push_str(" down")?;
    } else if supervisor.settled() {
        text.push_str(" up")?;
    }
    if let Some(name) = supervisor.broken() {
        text.push_str(&format!(in alloc; " broken {name}")?)?;
    }
    if let Some(deadline) = supervisor.next_deadline() {
        text.push_str(&format!(in alloc; " due {deadline}")?)?;
    }
    Ok(text)
}

/// Whether they stand so.
fn is_standing(alloc: Global, supervisor: &Supervisor, want: &str) -> Result<bool, NoMemory> {
    let text = standing(alloc, supervisor)?;
    Ok(text.trim() == want)
}

/// A child ended, as these words say.
fn end_by(supervisor: &mut Supervisor, word: &str, now: u64) -> bool
    requires moment { supervisor.old.moment ≡ now }
    requires in_time { now < 2 ^ 62 }
    ensures moment { supervisor.new.moment ≡ now }
    ensures stands { (p : Platform) → IsReadyFor p supervisor.old → IsReadyFor p supervisor.new }
{
    let mut words = word.splitn(2, '=');
    let child = words.next().unwrap_or("").parse::<u64>();
    let exit = match words.next().unwrap_or("").parse::<i32>() {
        Ok(code) => Exit::Code(code),
        Err(_) => Exit::Signal,
    };
    match child {
        Ok(child) => end(supervisor, child, exit, now),
        Err(_) => false,
    }
}

/// This befalls the components. Tells whether it may.
fn tell(
    alloc: Global,
    supervisor: &mut Supervisor,
    device: &Device,
    word: &str,
    now: u64,
) -> Result<bool, NoMemory>
    requires sound { IsSound (device_view device.now) }
    requires regular { IsRegularDevice (device_view device.now) }
    requires moment { supervisor.old.moment ≡ now }
    requires in_time { now < 2 ^ 62 }
    requires stands { IfSome device.now.origin (λ o. IsReadyFor o.platform supervisor.old) }
    ensures moment { supervisor.new.moment ≡ now }
    ensures stands { IfSome device.now.origin (λ o. IsReadyFor o.platform supervisor.new) }
{
    match word {
        "serve" => change(alloc, supervisor, device, false, Mode::Steady),
        "begin" => change(alloc, supervisor, device, false, Mode::Deployment),
        "change" => change(alloc, supervisor, device, true, Mode::Deployment),
        "stop" => {
            supervisor.stop_all();
            Ok(true)
        }
        "steady" => {
            supervisor.steady();
            Ok(true)
        }
        word => Ok(end_by(supervisor, word, now)),
    }
}

/// All of this befalls them.
fn tell_all(
    alloc: Global,
    supervisor: &mut Supervisor,
    device: &Device,
    words: &str,
    now: u64,
) -> Result<bool, NoMemory>
    requires sound { IsSound (device_view device.now) }
    requires regular { IsRegularDevice (device_view device.now) }
    requires moment { supervisor.old.moment ≡ now }
    requires in_time { now < 2 ^ 62 }
    requires stands { IfSome device.now.origin (λ o. IsReadyFor o.platform supervisor.old) }
    ensures moment { supervisor.new.moment ≡ now }
    ensures stands { IfSome device.now.origin (λ o. IsReadyFor o.platform supervisor.new) }
{
    for word in words.split_whitespace() {
        if !tell(alloc, supervisor, device, word, now)? {
            return Ok(false);
        }
    }
    Ok(true)
}

/// Whether these acts come and the components then stand so.
fn is_answer(
    alloc: Global,
    supervisor: &mut Supervisor,
    seen: &mut Seen,
    now: u64,
    want: (&str, &str),
) -> Result<bool, NoMemory>
    requires moment { supervisor.old.moment ≡ now }
    requires in_time { now < 2 ^ 62 }
    ensures moment { OnOk result (supervisor.new.moment ≡ now) }
    ensures stands { OnOk result ((p : Platform) → IsReadyFor p supervisor.old → IsReadyFor p supervisor.new) }
{
    take_acts(alloc, supervisor, seen, now)?;
    let acts = seen.take(alloc);
    let is_standing = is_standing(alloc, supervisor, want.1);
    let is_seen = acts.as_str() == want.0;
    drop(acts);
    Ok(is_standing? && is_seen)
}

/// Whether it comes as the line says. Then its moment is the moment.
fn is_line(
    alloc: Global,
    supervisor: &mut Supervisor,
    seen: &mut Seen,
    device: &Device,
    line: &str,
    now: &mut u64,
) -> Result<bool, NoMemory>
    requires sound { IsSound (device_view device.now) }
    requires regular { IsRegularDevice (device_view device.now) }
    requires moment { supervisor.old.moment ≡ now.old }
    requires in_time { now.old < 2 ^ 62 }
    requires stands { IfSome device.now.origin (λ o. IsReadyFor o.platform supervisor.old) }
    ensures moment { OnOk result (supervisor.new.moment ≡ now.new) }
    ensures in_time { now.new < 2 ^ 62 }
    ensures stands { OnOk result (IfSome device.now.origin (λ o. IsReadyFor o.platform supervisor.new)) }
{
    let mut fields = line.splitn(4, '|');
    let moment = fields.next().unwrap_or("").parse::<u64>().unwrap_or(0);
    let told = fields.next().unwrap_or("");
    let acts = fields.next().unwrap_or("");
    let stands = fields.next().unwrap_or("?");
    if moment < *now || moment > 1_000_000 {
        return Ok(false);
    }
    *now = moment;
    supervisor.event(Event::Passed, moment);
    if !tell_all(alloc, supervisor, device, told, moment)? {
        return Ok(false);
    }
    let fits = is_answer(alloc, supervisor, seen, moment, (acts, stands))?;
    Ok(fits)
}

/// The first line of which something else comes, or none, from moment 0 on.
fn first_wrong_of<'a>(
    alloc: Global,
    supervisor: &mut Supervisor,
    seen: &mut Seen,
    device: &Device,
    lines: &'a str,
) -> Result<&'a str, NoMemory>
    requires sound { IsSound (device_view device.now) }
    requires regular { IsRegularDevice (device_view device.now) }
    requires moment { supervisor.old.moment ≡ 0 }
    requires stands { IfSome device.now.origin (λ o. IsReadyFor o.platform supervisor.old) }
{
    let mut now = 0;
    for line in lines.lines() {
        if !is_line(alloc, supervisor, seen, device, line, &mut now)? {
            return Ok(line);
        }
    }
    Ok("")
}

/// The same where no component runs yet.
fn first_wrong<'a>(alloc: Global, device: &Device, lines: &'a str) -> Result<&'a str, NoMemory>
    requires sound { IsSound (device_view device.now) }
    requires regular { IsRegularDevice (device_view device.now) }
{
    let mut supervisor = Supervisor::new(alloc);
    let mut seen = Seen::new(alloc, false);
    let wrong = first_wrong_of(alloc, &mut supervisor, &mut seen, device, lines);
    drop(seen);
    drop(supervisor);
    wrong
}

/// The same of a case.
pub(crate) fn wrong_of<'a>(
    alloc: Global,
    set: &str,
    plan: &str,
    lines: &'a str,
) -> Result<&'a str, Fail> {
    let device = device_of(alloc, set, plan)?;
    let wrong = first_wrong(alloc, &device, lines);
    drop(device);
    Ok(wrong?)
}

/// The same of all cases.
fn wrong_line(alloc: Global) -> Result<&'static str, Fail> {
    for (set, plan, lines) in CASES {
        let wrong = wrong_of(alloc, set, plan, lines)?;
        if wrong != "" {
            return Ok(wrong);
        }
    }
    Ok("")
}

#[test]
fn what_befalls_them_hands_out_acts(rt: HostRuntime) -> Result<(), Fail> {
    assert_eq!(rt; wrong_line(rt.alloc())?, "");
    Ok(())
}
