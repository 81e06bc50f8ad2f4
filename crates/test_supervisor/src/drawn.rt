// Drawn components that are changed while they run. A plain model says what is handed out.
use crate::cases::wrong_of;
use crate::model::{MANY, Plain, bit, name};
use crate::plain::{Model, script};
use nuc_base::{Exit, NoMemory, Step};
use std::alloc::Global;
use std::test::Fail;

/// So many times components are drawn, and are then changed four times.
const RUNS: u32 = 75;

const CHANGES: u32 = 4;

/// So many lines come from a change to the next one.
const LINES: u32 = 8;

/// The minimal standard generator with the multiplier 48271, begun with 1 (Park, Miller and Stockmeyer, Communications of the ACM
/// 36, 7, 1993, page 108; `minstd_rand` of C++).
#[derive(Drop)]
struct Draws {
    last: u64,
}

impl Draws {
    fn below(&mut self, many: u64) -> u64 {
        self.last = self.last.wrapping_mul(48_271) % 2_147_483_647;
        (self.last / 8).checked_rem(many).unwrap_or(0)
    }

    /// One time of so many.
    fn is_one_of(&mut self, many: u64) -> bool {
        self.below(many) == 0
    }

    fn place(&mut self) -> u32 {
        match self.below(5) {
            0 => 0,
            1 => 1,
            2 => 2,
            3 => 3,
            _ => 4,
        }
    }
}

/// The items that are to run first, and others.
#[derive(Clone, Copy)]
struct Plot {
    set: [Option<Plain>; 5],
    plan: [Option<Plain>; 5],
}

/// Whether each needs the one before it and mostly takes its time to end, or whatever is drawn.
#[derive(Clone, Copy, PartialEq, Eq)]
enum Kind {
    Chain,
    Any,
}

/// An order of the names: a place for each.
#[derive(Clone, Copy)]
struct Order {
    kind: Kind,
    times: u32,
    from: u32,
}

impl Order {
    fn draw(draws: &mut Draws) -> Order {
        let kind = if draws.is_one_of(2) {
            Kind::Chain
        } else {
            Kind::Any
        };
        let times = match draws.below(4) {
            0 => 1,
            1 => 2,
            2 => 3,
            _ => 4,
        };
        let from = if draws.is_one_of(2) { 0 } else { 3 };
        Order { kind, times, from }
    }

    fn place(&self, at: u32) -> u32 {
        at.wrapping_mul(self.times).wrapping_add(self.from) % MANY
    }

    /// Those of the names that come before this one, so many at most.
    fn before(&self, names: u32, at: u32, many: u32) -> u32 {
        let mut earlier = 0;
        for other in 0..MANY {
            let place = self.place(other);
            if place < self.place(at) && place.saturating_add(many) >= self.place(at) {
                earlier |= bit(other);
            }
        }
        earlier & names
    }
}

/// Each of the names one time of so many.
fn draw_some(draws: &mut Draws, names: u32, many: u64) -> u32 {
    let mut some = 0;
    for at in 0..MANY {
        if draws.is_one_of(many) {
            some |= bit(at);
        }
    }
    some & names
}

/// An item that may need these names.
fn draw_any(draws: &mut Draws, names: u32) -> Plain {
    let hard = draw_some(draws, names, 2);
    let soft = draw_some(draws, names, 4) & !hard;
    let main = draws.below(6);
    Plain {
        version: if draws.is_one_of(2) { 1 } else { 2 },
        hard,
        soft,
        install: draws.is_one_of(5),
        run: main < 4,
        startup: main == 4,
        shutdown: draws.is_one_of(2),
        recover: draws.is_one_of(2),
        refused: draws.is_one_of(16),
    }
}

/// An item that needs these names.
fn draw_link(draws: &mut Draws, names: u32) -> Plain {
    Plain {
        version: if draws.is_one_of(2) { 1 } else { 2 },
        hard: names,
        soft: 0,
        install: false,
        run: true,
        startup: false,
        shutdown: !draws.is_one_of(8),
        recover: !draws.is_one_of(8),
        refused: false,
    }
}

/// The item of this name among these.
fn draw_item(draws: &mut Draws, order: &Order, names: u32, at: u32) -> Plain {
    match order.kind {
        Kind::Any => draw_any(draws, order.before(names, at, MANY)),
        Kind::Chain => draw_link(draws, order.before(names, at, 1)),
    }
}

/// The item from before, half of the times where it fits, or another one.
fn draw_next(
    draws: &mut Draws,
    order: &Order,
    names: u32,
    at: u32,
    before: Option<Plain>,
) -> Plain {
    let keeps = draws.is_one_of(2);
    match before {
        Some(item) if keeps && (item.hard | item.soft) & !names == 0 => item,
        _ => draw_item(draws, order, names, at),
    }
}

/// Items for some of the names, some of them as they were.
fn draw_items(draws: &mut Draws, order: &Order, were: &[Option<Plain>; 5]) -> [Option<Plain>; 5] {
    let names = bit(0) | bit(1) | bit(2) | bit(3) | bit(4);
    let left = names & !draw_some(draws, names, 14);
    let mut items = *were;
    let mut at = 0;
    for item in &mut items {
        let drawn = draw_next(draws, order, left, at, *item);
        *item = if left & bit(at) == 0 {
            None
        } else {
            Some(drawn)
        };
        at = at.saturating_add(1);
    }
    items
}

fn draw_plot(draws: &mut Draws) -> Plot {
    let order = Order::draw(draws);
    let set = draw_items(draws, &order, &[None; 5]);
    let plan = draw_items(draws, &order, &set);
    Plot { set, plan }
}

// ---- items in words

fn push_names(text: &mut String, word: &str, names: u32) -> Result<(), NoMemory> {
    if names == 0 {
        return Ok(());
    }
    text.push_str(word)?;
    for at in 0..MANY {
        if names & bit(at) != 0 {
            text.push_str(name(at))?;
        }
    }
    Ok(())
}

fn push_step(
    text: &mut String,
    item: &Plain,
    has_step: bool,
    word: &str,
    step: Step,
) -> Result<(), NoMemory> {
    if has_step {
        text.push_str(word)?;
        text.push_str(script(item, step))?;
    }
    Ok(())
}

fn push_steps(text: &mut String, item: &Plain) -> Result<(), NoMemory> {
    push_step(text, item, item.install, " install ", Step::Install)?;
    push_step(text, item, item.run, " run ", Step::Run)?;
    push_step(text, item, item.startup, " startup ", Step::Startup)?;
    push_step(text, item, item.shutdown, " shutdown ", Step::Shutdown)?;
    push_step(text, item, item.recover, " recover ", Step::Recover)
}

fn push_item(alloc: Global, text: &mut String, at: u32, item: &Plain) -> Result<(), NoMemory> {
    let head = format!(in alloc; "{} {}.0.0 {{}}", name(at), item.version)?;
    text.push_str(&head)?;
    push_steps(text, item)?;
    push_names(text, " hard ", item.hard)?;
    push_names(text, " soft ", item.soft)?;
    text.push_str(";")?;
    Ok(())
}

fn push_items(
    alloc: Global,
    text: &mut String,
    items: &[Option<Plain>; 5],
) -> Result<(), NoMemory> {
    let mut at = 0;
    for item in items {
        if let Some(item) = item {
            push_item(alloc, text, at, item)?;
        }
        at = at.saturating_add(1);
    }
    Ok(())
}

fn text_of(alloc: Global, items: &[Option<Plain>; 5]) -> Result<String, NoMemory> {
    let mut text = String::new(alloc);
    push_items(alloc, &mut text, items)?;
    Ok(text)
}

// ---- what befalls them

/// The first items come, or the other ones: mostly those that did not come before.
fn draw_change(draws: &mut Draws, plot: &Plot, model: &mut Model, turn: u32) -> &'static str {
    let is_odd = turn / LINES % 2 == 1;
    if is_odd != draws.is_one_of(8) {
        model.change(&plot.plan, false);
        return "change";
    }
    let is_steady = draws.is_one_of(6);
    model.change(&plot.set, is_steady);
    if is_steady { "serve" } else { "begin" }
}

/// How a child ends, and in words.
fn draw_exit(draws: &mut Draws) -> (Exit, &'static str) {
    match draws.below(5) {
        0 => (Exit::Code(0), "0"),
        1 => (Exit::Signal, "signal"),
        _ => (Exit::Code(1), "1"),
    }
}

/// The child ends.
fn end_child(
    alloc: Global,
    draws: &mut Draws,
    model: &mut Model,
    number: u64,
    line: &mut String,
) -> Result<(), NoMemory> {
    let (exit, word) = draw_exit(draws);
    model.end(number, exit);
    let text = format!(in alloc; "{number}={word} ")?;
    line.push_str(&text)?;
    Ok(())
}

/// Children of some components end: those of shutdowns and recoveries, or the others.
fn draw_ends(
    alloc: Global,
    draws: &mut Draws,
    model: &mut Model,
    is_slow: bool,
    line: &mut String,
) -> Result<(), NoMemory> {
    for _turn in 0..2 {
        if let Some(child) = model.child(draws.place(), is_slow) {
            end_child(alloc, draws, model, child.number, line)?;
        }
    }
    Ok(())
}

/// Children end, all are to be stopped, or no deployment is driven from now on.
fn draw_event(
    alloc: Global,
    draws: &mut Draws,
    model: &mut Model,
    is_slow: bool,
    line: &mut String,
) -> Result<(), NoMemory> {
    match draws.below(32) {
        0 => {
            model.stop_all();
            line.push_str("stop")?;
            Ok(())
        }
        1 => {
            model.steady();
            line.push_str("steady")?;
            Ok(())
        }
        _ => draw_ends(alloc, draws, model, is_slow, line),
    }
}

/// The next moment: soon, or the next deadline.
fn draw_moment(draws: &mut Draws, model: &Model, now: u64) -> u64 {
    let soon = now.saturating_add(1);
    match model.due() {
        Some(due) if draws.is_one_of(12) && due < 900_000 => due.max(soon),
        _ => soon,
    }
}

/// What befalls them at this moment, in words, which begin the line. Right before a change no shutdown ends.
fn draw_head(
    alloc: Global,
    draws: &mut Draws,
    plot: &Plot,
    model: &mut Model,
    turn: u32,
    lines: &mut String,
) -> Result<(), NoMemory> {
    if turn % LINES == 0 {
        lines.push_str(draw_change(draws, plot, model, turn))?;
        Ok(())
    } else {
        let is_slow = turn % LINES < LINES - 1 && !draws.is_one_of(4);
        draw_event(alloc, draws, model, is_slow, lines)
    }
}

/// The rest of the line: what is handed out, and how they then stand.
fn push_answer(alloc: Global, model: &mut Model, lines: &mut String) -> Result<(), NoMemory> {
    lines.push_str("|")?;
    model.take_acts(alloc, lines)?;
    lines.push_str("|")?;
    let mut standing = String::new(alloc);
    model.push_standing(alloc, &mut standing)?;
    lines.push_str(standing.trim())?;
    lines.push_str("\n")?;
    Ok(())
}

/// A line at this moment.
fn draw_line(
    alloc: Global,
    draws: &mut Draws,
    plot: &Plot,
    model: &mut Model,
    turn: u32,
    now: u64,
    lines: &mut String,
) -> Result<(), NoMemory> {
    let moment = format!(in alloc; "{now}|")?;
    lines.push_str(&moment)?;
    model.pass(now);
    draw_head(alloc, draws, plot, model, turn, lines)?;
    push_answer(alloc, model, lines)
}

/// Lines, of which each eighth one is a change.
fn draw_lines(
    alloc: Global,
    draws: &mut Draws,
    plot: &Plot,
    model: &mut Model,
    lines: &mut String,
) -> Result<(), NoMemory> {
    let mut now = 0;
    for turn in 0..CHANGES * LINES {
        draw_line(alloc, draws, plot, model, turn, now, lines)?;
        now = draw_moment(draws, model, now);
    }
    Ok(())
}

fn lines_of(alloc: Global, draws: &mut Draws, plot: &Plot) -> Result<String, NoMemory> {
    let mut lines = String::new(alloc);
    let mut model = Model::new();
    draw_lines(alloc, draws, plot, &mut model, &mut lines)?;
    Ok(lines)
}

// ---- runs

fn fits(alloc: Global, set: &str, plan: &str, lines: &str) -> Result<bool, Fail> {
    Ok(wrong_of(alloc, set, plan, lines)? == "")
}

fn fits_from(
    alloc: Global,
    draws: &mut Draws,
    plot: &Plot,
    set: &str,
    plan: &str,
) -> Result<bool, Fail> {
    let lines = lines_of(alloc, draws, plot)?;
    let fits = fits(alloc, set, plan, &lines);
    drop(lines);
    fits
}

fn fits_after(alloc: Global, draws: &mut Draws, plot: &Plot, set: &str) -> Result<bool, Fail> {
    let plan = text_of(alloc, &plot.plan)?;
    let fits = fits_from(alloc, draws, plot, set, &plan);
    drop(plan);
    fits
}

/// Whether drawn components do in all what the model does.
fn is_run(alloc: Global, draws: &mut Draws) -> Result<bool, Fail> {
    let plot = draw_plot(draws);
    let set = text_of(alloc, &plot.set)?;
    let fits = fits_after(alloc, draws, &plot, &set);
    drop(set);
    fits
}

/// How many runs do, one after another.
fn count_runs(alloc: Global) -> Result<u32, Fail> {
    let mut draws = Draws { last: 1 };
    for run in 0..RUNS {
        if !is_run(alloc, &mut draws)? {
            return Ok(run);
        }
    }
    Ok(RUNS)
}

#[test]
fn drawn_changes_hand_out_what_the_model_does(rt: HostRuntime) -> Result<(), Fail> {
    assert_eq!(rt; count_runs(rt.alloc())?, RUNS);
    Ok(())
}
