// Twenty components that need one another in chains and diamonds. Each starts up and shuts down by a step, and the steps end
// in several orders.
ghost use Rattle.std.specs.Prelude.{◌≡◌, IfOk, IfSome, OnOk};
ghost use Rattle.device.specs.Devices.{device_view, IsRegularDevice};
ghost use Rattle.device.specs.Sound.{IsSound};
ghost use Rattle.test_supervisor.specs.Stands.{IsReadyFor};

use crate::acts::{Seen, change, end, take_acts};
use crate::devices::device_of;
use components::Mode;
use device::Device;
use nuc_base::{Exit, NoMemory};
use std::alloc::Global;
use std::test::Fail;
use supervisor::Supervisor;

/// Components, each with the names that it needs, and lines: the order in which steps end, and who starts up and who shuts
/// down then, with a dot for each end.
const SHAPES: &[(&str, &str)] = &[
    // A chain.
    (
        "a: b:a c:b d:c e:d f:e g:f h:g i:h j:i k:j l:k m:l n:m o:n p:o q:p r:q s:r t:s",
        "first a.b.c.d.e.f.g.h.i.j.k.l.m.n.o.p.q.r.s.t. t.s.r.q.p.o.n.m.l.k.j.i.h.g.f.e.d.c.b.a.
last a.b.c.d.e.f.g.h.i.j.k.l.m.n.o.p.q.r.s.t. t.s.r.q.p.o.n.m.l.k.j.i.h.g.f.e.d.c.b.a.
both a.b.c.d.e.f.g.h.i.j.k.l.m.n.o.p.q.r.s.t. t.s.r.q.p.o.n.m.l.k.j.i.h.g.f.e.d.c.b.a.",
    ),
    // Two chains, one against the order of the names.
    (
        "a: b:a c:b d:c e:d f:e g:f h:g i:h j:i k:l l:m m:n n:o o:p p:q q:r r:s s:t t:",
        "first at.b.s.c.r.d.q.e.p.f.o.g.n.h.m.i.l.j.k.. jk.i.l.h.m.g.n.f.o.e.p.d.q.c.r.b.s.a.t..
last at.s.r.q.p.o.n.m.l.k..b.c.d.e.f.g.h.i.j. jk.l.m.n.o.p.q.r.s.t..i.h.g.f.e.d.c.b.a.
both at.b.c.s.r.d.e.q.p.f.g.o.n.h.i.m.l.j..k. jk.i.h.l.m.g.f.n.o.e.d.p.q.c.b.r.s.a..t.",
    ),
    // A chain of diamonds.
    (
        "a: b:a c:a d:bc e:d f:e g:e h:fg i:h j:i k:i l:jk m:l n:m o:m p:no q:p r:q s:q t:rs",
        "first a.bc..d.e.fg..h.i.jk..l.m.no..p.q.rs..t. t.rs..q.p.no..m.l.jk..i.h.fg..e.d.bc..a.
last a.bc..d.e.fg..h.i.jk..l.m.no..p.q.rs..t. t.rs..q.p.no..m.l.jk..i.h.fg..e.d.bc..a.
both a.bc..d.e.fg..h.i.jk..l.m.no..p.q.rs..t. t.rs..q.p.no..m.l.jk..i.h.fg..e.d.bc..a.",
    ),
    // A wide diamond.
    (
        "a: b:a c:a d:a e:a f:a g:a h:a i:a j:a k:a l:a m:a n:a o:a p:a q:a r:a s:a t:bcdefghijklmnopqrs",
        "first a.bcdefghijklmnopqrs..................t. t.bcdefghijklmnopqrs..................a.
last a.bcdefghijklmnopqrs..................t. t.bcdefghijklmnopqrs..................a.
both a.bcdefghijklmnopqrs..................t. t.bcdefghijklmnopqrs..................a.",
    ),
    // Two diamonds with long sides.
    (
        "a: b:a c:a d:b e:c f:d g:e h:f i:g j:h k:i l:jk m:l n:l o:m p:n q:o r:p s:q t:rs",
        "first a.bc.d.e.f.g.h.i.j.k..l.mn.o.p.q.r.s..t. t.rs.p.q.n.o..m.l.jk.h.i.f.g.d.e.b.c..a.
last a.bc.e.g.i.k..d.f.h.j.l.mn.p.r..o.q.s.t. t.rs.q.o.m..p.n.l.jk.i.g.e.c..h.f.d.b.a.
both a.bc.e.d.f.g.i.h.j.k..l.mn.o.q.p.r.s..t. t.rs.q.p.n.o.m..l.jk.i.h.f.g.e.d.b.c..a.",
    ),
];

/// The components as a device has them.
fn components_of(alloc: Global, shape: &str) -> Result<String, NoMemory> {
    let mut text = String::new(alloc);
    for component in shape.split_whitespace() {
        let mut words = component.splitn(2, ':');
        let name = words.next().unwrap_or("");
        let needs = words.next().unwrap_or("");
        let component = format!(in alloc; "{name} 1.0.0 {{}} startup s shutdown q hard {needs};")?;
        text.push_str(&component)?;
    }
    Ok(text)
}

/// The child that was started last of those that live.
fn last_living(supervisor: &Supervisor) -> Option<u64> {
    let mut last = None;
    for at in 0..128 {
        let child = supervisor.living(at);
        if child.is_none() {
            return last;
        }
        last = child;
    }
    last
}

/// The child that ends next in this order.
fn next_end(supervisor: &Supervisor, order: &str, turn: u32) -> Option<u64> {
    if order == "last" || (order == "both" && turn % 2 == 1) {
        last_living(supervisor)
    } else {
        supervisor.next_living(None)
    }
}

/// A child ends, in this order. Tells whether there was one.
fn end_next(supervisor: &mut Supervisor, order: &str, turn: u32) -> bool
    requires { supervisor.old.moment ≡ 0 }
    ensures { supervisor.new.moment ≡ 0 }
{
    match next_end(supervisor, order, turn) {
        Some(child) => end(supervisor, child, Exit::Code(0), 0),
        None => false,
    }
}

/// Takes acts, and has one child end behind another in this order, until none lives. Tells what was seen.
fn go_on(
    alloc: Global,
    supervisor: &mut Supervisor,
    seen: &mut Seen,
    order: &str,
) -> Result<String, NoMemory>
    requires { supervisor.old.moment ≡ 0 }
    ensures { OnOk result (supervisor.new.moment ≡ 0) }
{
    for turn in 0..100 {
        take_acts(alloc, supervisor, seen, 0)?;
        if !end_next(supervisor, order, turn) {
            return Ok(seen.take(alloc));
        }
        seen.text.push('.')?;
    }
    Ok(seen.take(alloc))
}

/// Whether the components come up as it says.
fn comes_up(
    alloc: Global,
    supervisor: &mut Supervisor,
    seen: &mut Seen,
    order: &str,
    want: Option<&str>,
) -> Result<bool, NoMemory>
    requires { supervisor.old.moment ≡ 0 }
    ensures { OnOk result (supervisor.new.moment ≡ 0) }
{
    let up = go_on(alloc, supervisor, seen, order)?;
    Ok(supervisor.settled() && want == Some(up.as_str()))
}

/// Whether the components are stopped as it says.
fn goes_down(
    alloc: Global,
    supervisor: &mut Supervisor,
    seen: &mut Seen,
    order: &str,
    want: Option<&str>,
) -> Result<bool, NoMemory>
    requires { supervisor.old.moment ≡ 0 }
{
    supervisor.stop_all();
    let down = go_on(alloc, supervisor, seen, order)?;
    Ok(supervisor.stopped() && want == Some(down.as_str()))
}

/// Whether the components of a device come up and are stopped as the line says, where none runs yet.
fn is_line_of(
    alloc: Global,
    supervisor: &mut Supervisor,
    seen: &mut Seen,
    device: &Device,
    line: &str,
) -> Result<bool, NoMemory>
    requires sound { IsSound (device_view device.now) }
    requires regular { IsRegularDevice (device_view device.now) }
    requires moment { supervisor.old.moment ≡ 0 }
    requires stands { IfSome device.now.origin (λ o. IsReadyFor o.platform supervisor.old) }
{
    let mut fields = line.split(' ');
    let order = fields.next().unwrap_or("");
    if !change(alloc, supervisor, device, true, Mode::Deployment)? {
        return Ok(false);
    }
    let is_up = comes_up(alloc, supervisor, seen, order, fields.next())?;
    let is_down = goes_down(alloc, supervisor, seen, order, fields.next())?;
    Ok(is_up && is_down)
}

/// Whether the components come up and are stopped as the line says.
fn is_line(alloc: Global, device: &Device, line: &str) -> Result<bool, NoMemory>
    requires sound { IsSound (device_view device.now) }
    requires regular { IsRegularDevice (device_view device.now) }
{
    let mut supervisor = Supervisor::new(alloc);
    let mut seen = Seen::new(alloc, true);
    let is_line = is_line_of(alloc, &mut supervisor, &mut seen, device, line);
    drop(seen);
    drop(supervisor);
    is_line
}

/// The first line of which something else comes, or none.
fn first_wrong(
    alloc: Global,
    device: &Device,
    lines: &'static str,
) -> Result<&'static str, NoMemory>
    requires sound { IsSound (device_view device.now) }
    requires regular { IsRegularDevice (device_view device.now) }
{
    for line in lines.lines() {
        if !is_line(alloc, device, line)? {
            return Ok(line);
        }
    }
    Ok("")
}

/// A device that is to have the components.
fn shaped(alloc: Global, shape: &str) -> Result<Device, Fail>
    ensures regular { IfOk result (λ d. IsRegularDevice (device_view d)) }
    ensures sound { IfOk result (λ d. IsSound (device_view d)) }
{
    let components = components_of(alloc, shape)?;
    let device = device_of(alloc, "", &components);
    drop(components);
    device
}

/// The same of a shape.
fn wrong_of(alloc: Global, shape: &str, lines: &'static str) -> Result<&'static str, Fail> {
    let device = shaped(alloc, shape)?;
    let wrong = first_wrong(alloc, &device, lines);
    drop(device);
    Ok(wrong?)
}

/// The same of all shapes.
fn wrong_line(alloc: Global) -> Result<&'static str, Fail> {
    for (shape, lines) in SHAPES {
        let wrong = wrong_of(alloc, shape, lines)?;
        if wrong != "" {
            return Ok(wrong);
        }
    }
    Ok("")
}

#[test]
fn needs_order_starts_and_stops(rt: HostRuntime) -> Result<(), Fail> {
    assert_eq!(rt; wrong_line(rt.alloc())?, "");
    Ok(())
}
