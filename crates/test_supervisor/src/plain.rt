// The components of the model: whose turn it is, what is handed out, and what befalls them.
use crate::model::{Alive, MANY, Part, Plain, bit, name};
use crate::rows::lived;
use lifecycle::{After, LifeEvent};
use nuc_base::{Exit, NoMemory, Step};
use std::alloc::Global;

/// The components by their names, and what was handed out.
#[derive(Drop)]
pub(crate) struct Model {
    parts: [Option<Part>; 5],
    moment: u64,
    is_steady: bool,
    next_child: u64,
}

/// In milliseconds.
fn limit(step: Step) -> Option<u64> {
    match step {
        Step::Run => None,
        Step::Shutdown => Some(15_000),
        Step::Recover => Some(60_000),
        _ => Some(120_000),
    }
}

/// The earlier of two deadlines.
fn earlier(first: Option<u64>, second: Option<u64>) -> Option<u64> {
    match (first, second) {
        (Some(one), Some(other)) => Some(one.min(other)),
        (Some(one), None) => Some(one),
        _ => second,
    }
}

fn deadline_of(child: Option<Alive>) -> Option<u64> {
    match child {
        Some(alive) => alive.deadline,
        None => None,
    }
}

/// What runs at this step of an item.
pub(crate) fn script(item: &Plain, step: Step) -> &'static str {
    match step {
        Step::Install => "i",
        Step::Shutdown => "q",
        Step::Recover => "f",
        _ if item.refused => "no",
        _ if item.version == 1 => "r1",
        _ => "r2",
    }
}

impl Model {
    pub(crate) fn new() -> Model {
        Model {
            parts: [None; 5],
            moment: 0,
            is_steady: true,
            next_child: 0,
        }
    }

    fn part(&self, at: u32) -> Option<Part> {
        match self.parts.get(at as usize) {
            Some(part) => *part,
            None => None,
        }
    }

    fn put(&mut self, at: u32, part: Option<Part>) {
        if let Some(place) = self.parts.get_mut(at as usize) {
            *place = part;
        }
    }

    // ---- who reaches whom

    /// One step back along the hard needs.
    fn grown(&self, reached: u32, with_coming: bool) -> u32 {
        let mut more = reached;
        for at in 0..MANY {
            if let Some(part) = self.part(at) {
                let needs = if with_coming {
                    part.hard_needs()
                } else {
                    part.item.hard
                };
                if needs & reached != 0 {
                    more |= bit(at);
                }
            }
        }
        more
    }

    fn reaching(&self, from: u32, with_coming: bool) -> u32 {
        let mut reached = from;
        for _turn in 0..MANY {
            reached = self.grown(reached, with_coming);
        }
        reached
    }

    /// Those that are flagged and may be are to be stopped with Restart.
    fn mark(&mut self, flagged: u32, is_change: bool) {
        for at in 0..MANY {
            if let Some(mut part) = self.part(at) {
                let may = if is_change {
                    part.may_replan()
                } else {
                    part.may_restart()
                };
                if may && flagged & bit(at) != 0 {
                    part.stop = Some(After::Restart);
                    self.put(at, Some(part));
                }
            }
        }
    }

    /// The names of those that are to be stopped.
    fn to_stop(&self) -> u32 {
        let mut names = 0;
        for at in 0..MANY {
            if let Some(part) = self.part(at) {
                if part.is_to_stop() {
                    names |= bit(at);
                }
            }
        }
        names
    }

    /// Those that need this one directly.
    fn direct(&self, at: u32, with_coming: bool) -> u32 {
        let mut names = 0;
        for other in 0..MANY {
            if let Some(part) = self.part(other) {
                let needs = if with_coming {
                    part.hard_needs()
                } else {
                    part.item.hard
                };
                if needs & bit(at) != 0 {
                    names |= bit(other);
                }
            }
        }
        names
    }

    fn is_held(&self, at: u32, stop: After) -> bool {
        let users = match stop {
            After::Restart => self.direct(at, false),
            _ => self.reaching(self.direct(at, true), true),
        };
        users & self.to_stop() != 0
    }

    // ---- what a component may do

    /// The names of those that stand up, or are enough for a soft need.
    fn served(&self, is_soft: bool) -> u32 {
        let mut names = 0;
        for at in 0..MANY {
            if let Some(part) = self.part(at) {
                let serves = if is_soft {
                    part.serves_softly()
                } else {
                    part.stands_up()
                };
                if serves {
                    names |= bit(at);
                }
            }
        }
        names
    }

    fn may_begin(&self, part: &Part) -> bool {
        let hard = part.item.hard & !self.served(false);
        let soft = part.item.soft & !self.served(true);
        part.waits() && hard == 0 && soft == 0
    }

    fn due_stop(&self, at: u32, part: &Part) -> Option<After> {
        match part.stop {
            Some(stop) if part.is_stop_ready() && !self.is_held(at, stop) => part.stop,
            _ => None,
        }
    }

    /// An event of one component; where it drops, those that reach it are to be stopped.
    fn live(&mut self, at: u32, event: LifeEvent) {
        let Some(before) = self.part(at) else {
            return;
        };
        let after = lived(self.is_steady, before, event);
        self.put(at, Some(after));
        if before.is_up() && !after.is_up() && !before.is_to_stop() {
            let reached = self.reaching(bit(at), false);
            self.mark(reached, false);
        }
    }

    // ---- what is handed out

    /// This child of the component lives no more. Tells whether it had outlived its component's stop.
    fn lose_child(&mut self, at: u32, step: Step) -> bool {
        let Some(mut part) = self.part(at) else {
            return true;
        };
        let is_orphan = part.is_orphan(step);
        part.remove_child(step);
        self.put(at, Some(part));
        is_orphan
    }

    /// A child is killed, and this befalls its component unless it had outlived that.
    fn kill(
        &mut self,
        alloc: Global,
        at: u32,
        child: Alive,
        event: LifeEvent,
        acts: &mut String,
    ) -> Result<bool, NoMemory> {
        let text = format!(in alloc; "kill {};", child.number)?;
        acts.push_str(&text)?;
        if !self.lose_child(at, child.step) {
            self.live(at, event);
        }
        Ok(true)
    }

    /// Its stop is given.
    fn stop_one(
        &mut self,
        alloc: Global,
        at: u32,
        part: &Part,
        stop: After,
        acts: &mut String,
    ) -> Result<bool, NoMemory> {
        match part.child() {
            Some(child) if part.is_killed_by_stop() => {
                self.kill(alloc, at, child, LifeEvent::Stop(stop), acts)
            }
            _ => {
                self.live(at, LifeEvent::Stop(stop));
                Ok(true)
            }
        }
    }

    fn refuse(
        &mut self,
        alloc: Global,
        at: u32,
        step: Step,
        acts: &mut String,
    ) -> Result<bool, NoMemory> {
        let text = format!(in alloc; "{} {step:?} no refused;", name(at))?;
        acts.push_str(&text)?;
        self.live(at, LifeEvent::Ended(step, Exit::NotStarted));
        Ok(true)
    }

    fn add_child(&mut self, at: u32, step: Step) {
        let deadline = match limit(step) {
            Some(limit) => Some(self.moment.saturating_add(limit)),
            None => None,
        };
        let child = Alive {
            number: self.next_child,
            step,
            deadline,
        };
        self.next_child = self.next_child.saturating_add(1);
        if let Some(mut part) = self.part(at) {
            part.add_child(child);
            self.put(at, Some(part));
        }
    }

    fn start(
        &mut self,
        alloc: Global,
        at: u32,
        part: &Part,
        step: Step,
        acts: &mut String,
    ) -> Result<bool, NoMemory> {
        let script = script(&part.item, step);
        if script == "no" {
            return self.refuse(alloc, at, step, acts);
        }
        let text = format!(in alloc; "{} {step:?} {script} as {};", name(at), self.next_child)?;
        acts.push_str(&text)?;
        self.add_child(at, step);
        if step == Step::Run {
            self.live(at, LifeEvent::Launched);
        }
        Ok(true)
    }

    fn tell(
        &mut self,
        alloc: Global,
        at: u32,
        part: Part,
        failure: (Step, Exit),
        acts: &mut String,
    ) -> Result<bool, NoMemory> {
        let word = if part.is_broken() { "broke" } else { "failed" };
        let text = format!(in alloc; "{word} {} {:?} {:?};", name(at), failure.0, failure.1)?;
        acts.push_str(&text)?;
        let mut told = part;
        told.owed = None;
        self.put(at, Some(told));
        Ok(true)
    }

    /// What the component has to do that leaves nothing outside or kills. Tells whether there was something.
    fn act_at(&mut self, alloc: Global, at: u32, acts: &mut String) -> Result<bool, NoMemory> {
        let Some(part) = self.part(at) else {
            return Ok(false);
        };
        if let Some(child) = part.late(self.moment) {
            return self.kill(
                alloc,
                at,
                child,
                LifeEvent::Ended(child.step, Exit::TimedOut),
                acts,
            );
        }
        if part.has_orphan() {
            return self.kill_orphan(alloc, at, &part, acts);
        }
        if let Some(stop) = self.due_stop(at, &part) {
            return self.stop_one(alloc, at, &part, stop, acts);
        }
        if let Some(step) = part.unstarted() {
            return self.start(alloc, at, &part, step, acts);
        }
        Ok(self.goes_on(at, &part))
    }

    fn kill_orphan(
        &mut self,
        alloc: Global,
        at: u32,
        part: &Part,
        acts: &mut String,
    ) -> Result<bool, NoMemory> {
        match part.child() {
            Some(child) => self.kill(alloc, at, child, LifeEvent::Launched, acts),
            None => Ok(false),
        }
    }

    /// It begins or is tried again. Tells whether it may.
    fn goes_on(&mut self, at: u32, part: &Part) -> bool {
        if self.may_begin(part) {
            self.live(at, LifeEvent::MayBegin);
            true
        } else if part.may_retry() {
            self.live(at, LifeEvent::Retry);
            true
        } else {
            false
        }
    }

    /// A failure that is owed is handed out. Tells whether there was one.
    fn tell_first(&mut self, alloc: Global, acts: &mut String) -> Result<bool, NoMemory> {
        for at in 0..MANY {
            if let Some(part) = self.part(at) {
                if let Some(failure) = part.owed {
                    return self.tell(alloc, at, part, failure, acts);
                }
            }
        }
        Ok(false)
    }

    /// The one of the least name that may do something does it.
    fn act(&mut self, alloc: Global, acts: &mut String) -> Result<bool, NoMemory> {
        if self.tell_first(alloc, acts)? {
            return Ok(true);
        }
        for at in 0..MANY {
            if self.act_at(alloc, at, acts)? {
                return Ok(true);
            }
        }
        Ok(false)
    }

    /// What is handed out until nobody may do anything.
    pub(crate) fn take_acts(&mut self, alloc: Global, acts: &mut String) -> Result<(), NoMemory> {
        for _turn in 0..1000 {
            if !self.act(alloc, acts)? {
                return Ok(());
            }
        }
        Ok(())
    }

    // ---- what befalls them

    pub(crate) fn pass(&mut self, moment: u64) {
        self.moment = moment;
    }

    fn end_of(&mut self, at: u32, child: Alive, exit: Exit) {
        if !self.lose_child(at, child.step) {
            self.live(at, LifeEvent::Ended(child.step, exit));
        }
    }

    /// The child of this number ended.
    pub(crate) fn end(&mut self, number: u64, exit: Exit) {
        for at in 0..MANY {
            if let Some(part) = self.part(at) {
                if let Some(child) = part.child_of(number) {
                    self.end_of(at, child, exit);
                }
            }
        }
    }

    /// The child of the component there that shuts it down or recovers it, or another one.
    pub(crate) fn child(&self, at: u32, is_slow: bool) -> Option<Alive> {
        let part = self.part(at)?;
        match part.step_child {
            Some(child) if is_slow == child.is_slow() => part.step_child,
            _ if is_slow => None,
            _ => part.run_child,
        }
    }

    /// All are to be stopped for good.
    pub(crate) fn stop_all(&mut self) {
        for at in 0..MANY {
            if let Some(part) = self.part(at) {
                self.put(at, Some(leaving(part)));
            }
        }
    }

    /// No deployment is driven, and the failures are forgotten.
    pub(crate) fn steady(&mut self) {
        self.is_steady = true;
        for at in 0..MANY {
            if let Some(mut part) = self.part(at) {
                part.failures = 0;
                self.put(at, Some(part));
            }
        }
    }

    // ---- a change

    /// What becomes of each that stands.
    fn meet(&mut self, items: &[Option<Plain>; 5]) {
        for at in 0..MANY {
            if let Some(part) = self.part(at) {
                let left = if part.is_over() {
                    None
                } else {
                    Some(fate(part, item_at(items, at)))
                };
                self.put(at, left);
            }
        }
    }

    /// The names of those that take another item.
    fn replacing(&self) -> u32 {
        let mut names = 0;
        for at in 0..MANY {
            if let Some(part) = self.part(at) {
                if part.next.is_some() {
                    names |= bit(at);
                }
            }
        }
        names
    }

    /// Those that did not stand before.
    fn add_newcomers(&mut self, items: &[Option<Plain>; 5]) {
        for at in 0..MANY {
            if let (None, Some(item)) = (self.part(at), item_at(items, at)) {
                self.put(at, Some(Part::fresh(item)));
            }
        }
    }

    /// Other items are to run.
    pub(crate) fn change(&mut self, items: &[Option<Plain>; 5], is_steady: bool) {
        self.meet(items);
        let reached = self.reaching(self.replacing(), false);
        self.mark(reached, true);
        self.add_newcomers(items);
        self.is_steady = is_steady;
    }

    // ---- how they stand

    fn are_stopped(&self) -> bool {
        for at in 0..MANY {
            if let Some(part) = self.part(at) {
                if !part.is_over() {
                    return false;
                }
            }
        }
        true
    }

    fn are_settled(&self) -> bool {
        for at in 0..MANY {
            if let Some(part) = self.part(at) {
                if !part.is_over() && !part.stands_up() {
                    return false;
                }
            }
        }
        true
    }

    /// The first that is broken.
    fn broken(&self) -> Option<u32> {
        for at in 0..MANY {
            if let Some(part) = self.part(at) {
                if part.is_broken() && !part.gone {
                    return Some(at);
                }
            }
        }
        None
    }

    /// The least deadline of a child that lives.
    pub(crate) fn due(&self) -> Option<u64> {
        let mut least = None;
        for at in 0..MANY {
            if let Some(part) = self.part(at) {
                least = earlier(least, deadline_of(part.run_child));
                least = earlier(least, deadline_of(part.step_child));
            }
        }
        least
    }

    fn push_settled(&self, line: &mut String) -> Result<(), NoMemory> {
        if self.are_stopped() {
            line.push_str(" down")?;
        } else if self.are_settled() {
            line.push_str(" up")?;
        }
        Ok(())
    }

    /// How they stand, in the words of the tables, with a blank before each.
    pub(crate) fn push_standing(&self, alloc: Global, line: &mut String) -> Result<(), NoMemory> {
        self.push_settled(line)?;
        if let Some(at) = self.broken() {
            let text = format!(in alloc; " broken {}", name(at))?;
            line.push_str(&text)?;
        }
        if let Some(deadline) = self.due() {
            let text = format!(in alloc; " due {deadline}")?;
            line.push_str(&text)?;
        }
        Ok(())
    }
}

fn item_at(items: &[Option<Plain>; 5], at: u32) -> Option<Plain> {
    match items.get(at as usize) {
        Some(item) => *item,
        None => None,
    }
}

/// It goes away.
fn leaving(part: Part) -> Part {
    if part.gone {
        return part;
    }
    let mut after = part;
    let is_leaving = part.is_stopping() && matches!(part.under_way, Some(After::Gone));
    after.stop = if is_leaving { None } else { Some(After::Gone) };
    after.next = None;
    after
}

/// It is stopped, and takes the item then. A stop for good that is under way ends as a restart.
fn replacing(part: Part, item: Plain) -> Part {
    let mut after = part;
    if part.stops_for_good() {
        after.under_way = Some(After::Restart);
    }
    after.stop = Some(After::Again);
    after.next = Some(item);
    after
}

/// The item comes for one that is gone, and still has a child.
fn coming_again(part: Part, item: Plain) -> Part {
    let mut after = Part::fresh(item);
    after.run_child = part.run_child;
    after.step_child = part.step_child;
    after
}

fn staying(part: Part) -> Part {
    let mut after = part;
    after.failures = 0;
    after
}

fn fate(part: Part, coming: Option<Plain>) -> Part {
    match coming {
        None => leaving(part),
        Some(item) if part.gone => coming_again(part, item),
        Some(item) if item != part.item || part.is_spared() || part.is_broken() => {
            replacing(part, item)
        }
        Some(_) => staying(part),
    }
}
