// A plain, slow model of five components: what each is and is asked. It is written from the definitions and shares nothing with
// the supervisor but the words for states, steps and ends.
use lifecycle::{After, State};
use nuc_base::{Exit, Step};

/// How many names there are: a to e.
pub(crate) const MANY: u32 = 5;

/// What a component runs and needs. Names are bits.
#[derive(Clone, Copy, PartialEq, Eq)]
pub(crate) struct Plain {
    pub(crate) version: u32,
    pub(crate) hard: u32,
    pub(crate) soft: u32,
    pub(crate) install: bool,
    pub(crate) run: bool,
    pub(crate) startup: bool,
    pub(crate) shutdown: bool,
    pub(crate) recover: bool,
    /// The start of its run or startup is refused.
    pub(crate) refused: bool,
}

#[derive(Clone, Copy)]
pub(crate) struct Alive {
    pub(crate) number: u64,
    pub(crate) step: Step,
    pub(crate) deadline: Option<u64>,
}

impl Alive {
    /// It shuts down or recovers.
    pub(crate) fn is_slow(&self) -> bool {
        self.step == Step::Shutdown || self.step == Step::Recover
    }
}

#[derive(Clone, Copy)]
pub(crate) struct Part {
    pub(crate) item: Plain,
    pub(crate) state: State,
    pub(crate) failures: u32,
    pub(crate) busy: Option<Step>,
    pub(crate) runs: bool,
    pub(crate) install_failed: bool,
    pub(crate) under_way: Option<After>,
    pub(crate) gone: bool,
    pub(crate) run_child: Option<Alive>,
    pub(crate) step_child: Option<Alive>,
    pub(crate) owed: Option<(Step, Exit)>,
    pub(crate) stop: Option<After>,
    pub(crate) next: Option<Plain>,
}

/// The bit of a name.
pub(crate) fn bit(at: u32) -> u32 {
    match at {
        0 => 1,
        1 => 2,
        2 => 4,
        3 => 8,
        _ => 16,
    }
}

pub(crate) fn name(at: u32) -> &'static str {
    match at {
        0 => "a",
        1 => "b",
        2 => "c",
        3 => "d",
        _ => "e",
    }
}

fn is_for_good(stop: Option<After>) -> bool {
    matches!(stop, Some(After::Again)) || matches!(stop, Some(After::Gone))
}

fn has_number(child: Option<Alive>, number: u64) -> bool {
    match child {
        Some(alive) => alive.number == number,
        None => false,
    }
}

/// The deadline of this child has passed.
fn is_past(child: Option<Alive>, moment: u64) -> bool {
    match child {
        Some(alive) => match alive.deadline {
            Some(deadline) => deadline <= moment,
            None => false,
        },
        None => false,
    }
}

impl Part {
    /// One that nothing has befallen yet.
    pub(crate) fn fresh(item: Plain) -> Part {
        Part {
            item,
            state: State::New,
            failures: 0,
            busy: None,
            runs: false,
            install_failed: false,
            under_way: None,
            gone: false,
            run_child: None,
            step_child: None,
            owed: None,
            stop: None,
            next: None,
        }
    }

    pub(crate) fn is_stopping(&self) -> bool {
        matches!(self.state, State::Stopping)
    }

    /// Its stop under way is with Again or Gone.
    pub(crate) fn stops_for_good(&self) -> bool {
        self.is_stopping() && is_for_good(self.under_way)
    }

    pub(crate) fn is_spared(&self) -> bool {
        is_for_good(self.stop) || self.stops_for_good()
    }

    fn is_busy_with(&self, step: Step) -> bool {
        match self.busy {
            Some(busy) => busy == step,
            None => false,
        }
    }

    /// Whether a child of this step outlived the stop.
    pub(crate) fn is_orphan(&self, step: Step) -> bool {
        !self.is_busy_with(step) && !(step == Step::Run && self.runs)
    }

    fn is_orphaned(&self, child: Option<Alive>) -> bool {
        match child {
            Some(alive) => self.is_orphan(alive.step),
            None => false,
        }
    }

    pub(crate) fn has_orphan(&self) -> bool {
        self.is_orphaned(self.run_child) || self.is_orphaned(self.step_child)
    }

    pub(crate) fn is_to_stop(&self) -> bool {
        self.stop.is_some() || self.is_stopping() || self.has_orphan()
    }

    pub(crate) fn is_over(&self) -> bool {
        self.gone && self.run_child.is_none() && self.step_child.is_none()
    }

    pub(crate) fn is_up(&self) -> bool {
        matches!(self.state, State::Running) || matches!(self.state, State::Finished)
    }

    pub(crate) fn is_broken(&self) -> bool {
        matches!(self.state, State::Broken)
    }

    /// It stands and is not to be stopped.
    pub(crate) fn may_replan(&self) -> bool {
        !self.is_to_stop() && !self.gone
    }

    pub(crate) fn may_restart(&self) -> bool {
        (matches!(self.state, State::Starting) || self.is_up()) && self.may_replan()
    }

    pub(crate) fn stands_up(&self) -> bool {
        self.is_up() && self.may_replan()
    }

    pub(crate) fn serves_softly(&self) -> bool {
        self.stands_up() || (self.is_broken() && self.may_replan())
    }

    /// It may begin, but for what it needs.
    pub(crate) fn waits(&self) -> bool {
        let is_waiting = matches!(self.state, State::New) || matches!(self.state, State::Installed);
        is_waiting && self.busy.is_none() && self.may_replan()
    }

    pub(crate) fn may_retry(&self) -> bool {
        matches!(self.state, State::Errored) && self.busy.is_none() && self.may_replan()
    }

    /// The step that was begun and has no child.
    pub(crate) fn unstarted(&self) -> Option<Step> {
        match self.busy {
            Some(Step::Run) if self.run_child.is_none() => self.busy,
            Some(Step::Run) => None,
            Some(_) if self.step_child.is_none() => self.busy,
            _ => None,
        }
    }

    /// Its stop may be given, but for those that need it.
    pub(crate) fn is_stop_ready(&self) -> bool {
        !self.gone && !self.is_stopping() && !self.has_orphan() && self.unstarted().is_none()
    }

    /// A stop kills its child.
    pub(crate) fn is_killed_by_stop(&self) -> bool {
        let shuts_down = matches!(self.state, State::Running) && self.item.shutdown;
        !shuts_down && (self.runs || self.busy.is_some())
    }

    /// What it needs hard, and what it is about to.
    pub(crate) fn hard_needs(&self) -> u32 {
        let takes = self.is_stopping() && matches!(self.under_way, Some(After::Again));
        match self.next {
            Some(item) if takes => self.item.hard | item.hard,
            _ => self.item.hard,
        }
    }

    /// A child of it whose deadline has passed.
    pub(crate) fn late(&self, moment: u64) -> Option<Alive> {
        if is_past(self.run_child, moment) {
            self.run_child
        } else if is_past(self.step_child, moment) {
            self.step_child
        } else {
            None
        }
    }

    /// A child of it.
    pub(crate) fn child(&self) -> Option<Alive> {
        if self.run_child.is_some() {
            self.run_child
        } else {
            self.step_child
        }
    }

    /// The child of it of this number.
    pub(crate) fn child_of(&self, number: u64) -> Option<Alive> {
        if has_number(self.run_child, number) {
            self.run_child
        } else if has_number(self.step_child, number) {
            self.step_child
        } else {
            None
        }
    }

    pub(crate) fn add_child(&mut self, child: Alive) {
        if child.step == Step::Run {
            self.run_child = Some(child);
        } else {
            self.step_child = Some(child);
        }
    }

    pub(crate) fn remove_child(&mut self, step: Step) {
        if step == Step::Run {
            self.run_child = None;
        } else {
            self.step_child = None;
        }
    }
}
