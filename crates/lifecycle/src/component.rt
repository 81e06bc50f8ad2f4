ghost use Rattle.std.specs.Prelude.{◌≡◌, ◌⊎◌, ◌<◌, ◌≤◌, ◌↔◌, IsTrue, Some, None, true, false, IfSome, IsSome, if◌then◌else◌};
ghost use Rattle.lifecycle.specs.Life.{Life, IsSound, HasOneMain, MayHave, begun, back, rested, failed, stopped, retried, may_be_busy};
ghost use Rattle.lifecycle.specs.Table.{table, HasRow, failure, ends_in, kill_of, shut_down};
ghost use Rattle.lifecycle.specs.Awaits.{is_awaited};

use crate::kinds::{After, LifeAct, LifeEvent, State, StepSet};
use nuc_base::{Exit, Step};
use std::marker::Model;

/// One component. It moves by `step`, and only as the table says.
#[derive(Debug, Drop)]
pub struct Component {
    steps: StepSet,
    state: State,
    failures: u8,
    busy: Option<Step>,
    runs: bool,
    install_failed: bool,
    stop: Option<After>,
    gone: bool,
}

impl Model for Component {
    ghost use Rattle.lifecycle.specs.Life.{Life, IsSound};

    ghost Value = { Life };

    ghost view = { λ c. record {
      steps = c.steps;
      state = c.state;
      failures = c.failures;
      busy = c.busy;
      runs = c.runs;
      install_failed = c.install_failed;
      stop = c.stop;
      gone = c.gone;
    } };

    ghost invariant = { λ c. IsSound (record {
      steps = c.steps;
      state = c.state;
      failures = c.failures;
      busy = c.busy;
      runs = c.runs;
      install_failed = c.install_failed;
      stop = c.stop;
      gone = c.gone;
    }) };
}

impl Component {
    /// A component in NEW that begins with this many failures.
    pub fn new(steps: StepSet, failures: u8) -> Component
        requires few { failures < 3 }
        requires main { HasOneMain steps }
        ensures { result ≡ begun steps failures }
    {
        Component {
            steps,
            state: State::New,
            failures,
            busy: None,
            runs: false,
            install_failed: false,
            stop: None,
            gone: false,
        }
    }

    /// One that is gone stays in the state in which it was stopped.
    pub fn state(&self) -> State
        ensures state { result ≡ self.now.state }
        ensures sound { IsSound self.now }
    {
        self.state
    }

    pub fn failures(&self) -> u8
        ensures { result ≡ self.now.failures }
    {
        self.failures
    }

    /// The step whose child lives or that is to be started. A run child that was started is told by `runs`.
    pub fn busy(&self) -> Option<Step>
        ensures { result ≡ self.now.busy }
    {
        self.busy
    }

    /// Whether a run child lives.
    pub fn runs(&self) -> bool
        ensures { result ≡ self.now.runs }
    {
        self.runs
    }

    /// The stop that is under way; there is one in STOPPING alone.
    pub fn stop(&self) -> Option<After>
        ensures { result ≡ self.now.stop }
    {
        self.stop
    }

    /// Whether it was stopped with `Gone`, and is a component no longer.
    pub fn is_gone(&self) -> bool
        ensures { result ≡ self.now.gone }
    {
        self.gone
    }

    /// Whether the table has a row for this event.
    #[tactic(auto, using(crate::proofs::Rows::row_where_awaited))]
    pub fn awaits(&self, event: LifeEvent) -> bool
        ensures row { IsTrue result ↔ HasRow self.now event }
        ensures awaited { result ≡ is_awaited event self.now }
    {
        self.is_awaited(event)
    }

    fn is_awaited(&self, event: LifeEvent) -> bool
        ensures awaited { result ≡ is_awaited event self.now }
        ensures sound { IsSound self.now }
    {
        if self.gone {
            return false;
        }
        match event {
            LifeEvent::MayBegin => {
                matches!(self.state, State::New | State::Installed) && self.busy.is_none()
            }
            LifeEvent::Launched => matches!(self.busy, Some(Step::Run)),
            LifeEvent::Skipped => self.busy.is_some(),
            LifeEvent::Ended(step, _) => {
                self.busy == Some(step) || (matches!(step, Step::Run) && self.runs)
            }
            LifeEvent::Stop(_) => !matches!(self.state, State::Stopping),
            LifeEvent::Retry => matches!(self.state, State::Errored) && self.busy.is_none(),
        }
    }

    /// It moves by the table, and the answer is what is to be done. `awaits` tells whether there is a row.
    pub fn step(&mut self, event: LifeEvent) -> LifeAct
        requires { HasRow self.old event }
        ensures { table self.old event ≡ Some (result, self.new) }
    {
        match event {
            LifeEvent::MayBegin => self.begin(),
            LifeEvent::Launched => self.launched(),
            LifeEvent::Skipped => self.skipped(),
            LifeEvent::Ended(step, exit) => self.ended(step, exit),
            LifeEvent::Stop(after) => self.stop_with(after),
            LifeEvent::Retry => self.retry(),
        }
    }

    /// The failures become 0 and all else stays.
    pub fn forget(&mut self)
        ensures { self.new ≡ record self.old { failures = 0 } }
    {
        self.failures = 0;
    }

    /// The failures become a count that was kept elsewhere, and all else stays.
    pub fn set_failures(&mut self, failures: u8)
        requires { failures < 3 }
        ensures { self.new ≡ record self.old { failures = failures } }
    {
        self.failures = failures;
    }

    /// Once it was stopped with `Again`, it begins with the steps and the failures of the item that replaces its own.
    pub fn renew(&mut self, steps: StepSet, failures: u8)
        requires stopped { self.old ≡ begun self.old.steps 0 }
        requires few { failures < 3 }
        requires main { HasOneMain steps }
        ensures { self.new ≡ begun steps failures }
    {
        self.steps = steps;
        self.failures = failures;
    }

    /// One that is being stopped with `Again` or `Gone` is replaced: that stop ends as one with `Restart`, and all else
    /// stays. The stop with `Again` that the replacement wants comes after it.
    pub fn replace_gone(&mut self)
        requires { (self.old.stop ≡ Some After.Again) ⊎ (self.old.stop ≡ Some After.Gone) }
        ensures { self.new ≡ record self.old { stop = Some After.Restart } }
    {
        self.stop = Some(After::Restart);
    }

    fn begin(&mut self) -> LifeAct
        requires { HasRow self.old LifeEvent.MayBegin }
        ensures { table self.old LifeEvent.MayBegin ≡ Some (result, self.new) }
    {
        match self.state {
            State::New if self.steps.install => {
                self.busy = Some(Step::Install);
                LifeAct::Begin(Step::Install)
            }
            State::New => {
                self.state = State::Installed;
                LifeAct::Nothing
            }
            _ => self.begin_main(),
        }
    }

    /// The step for which it was installed begins, if it has one.
    fn begin_main(&mut self) -> LifeAct
        requires installed { self.old.state ≡ State.Installed }
        requires row { HasRow self.old LifeEvent.MayBegin }
        ensures { table self.old LifeEvent.MayBegin ≡ Some (result, self.new) }
    {
        if self.steps.startup {
            self.state = State::Starting;
            self.busy = Some(Step::Startup);
            LifeAct::Begin(Step::Startup)
        } else if self.steps.run {
            self.state = State::Starting;
            self.busy = Some(Step::Run);
            LifeAct::Begin(Step::Run)
        } else {
            self.state = State::Finished;
            LifeAct::Nothing
        }
    }

    fn launched(&mut self) -> LifeAct
        requires { HasRow self.old LifeEvent.Launched }
        ensures { table self.old LifeEvent.Launched ≡ Some (result, self.new) }
    {
        self.state = State::Running;
        self.busy = None;
        self.runs = true;
        LifeAct::Nothing
    }

    fn skipped(&mut self) -> LifeAct
        requires { HasRow self.old LifeEvent.Skipped }
        ensures { table self.old LifeEvent.Skipped ≡ Some (result, self.new) }
    {
        self.state = match (self.state, self.busy) {
            (State::New, _) => State::Installed,
            (State::Starting, Some(Step::Startup)) => State::Running,
            (State::Starting, _) => State::Finished,
            (State::Errored, _) => self.back(),
            _ => return self.shut_down(),
        };
        self.busy = None;
        LifeAct::Nothing
    }

    fn ended(&mut self, step: Step, exit: Exit) -> LifeAct
        requires { HasRow self.old (LifeEvent.Ended step exit) }
        ensures { table self.old (LifeEvent.Ended step exit) ≡ Some (result, self.new) }
    {
        match (self.state, step) {
            (State::New, _) => self.finish(State::Installed, step, exit),
            (State::Starting, Step::Startup) => self.finish(State::Running, step, exit),
            (State::Starting, _) => self.fail(step, exit),
            (State::Running, _) => self.finish(State::Finished, step, exit),
            (State::Errored, _) => self.go_back(),
            (_, Step::Run) => {
                self.runs = false;
                LifeAct::Nothing
            }
            _ => self.shut_down(),
        }
    }

    fn stop_with(&mut self, after: After) -> LifeAct
        requires { HasRow self.old (LifeEvent.Stop after) }
        ensures { table self.old (LifeEvent.Stop after) ≡ Some (result, self.new) }
    {
        if matches!(self.state, State::Running) && self.steps.shutdown {
            self.state = State::Stopping;
            self.busy = Some(Step::Shutdown);
            self.stop = Some(after);
            return LifeAct::Begin(Step::Shutdown);
        }
        let lives = self.runs || self.busy.is_some();
        self.rest(after);
        if lives {
            LifeAct::Kill
        } else {
            LifeAct::Nothing
        }
    }

    fn retry(&mut self) -> LifeAct
        requires { HasRow self.old LifeEvent.Retry }
        ensures { table self.old LifeEvent.Retry ≡ Some (result, self.new) }
    {
        if self.steps.recover {
            self.busy = Some(Step::Recover);
            LifeAct::Begin(Step::Recover)
        } else {
            self.go_back()
        }
    }

    /// A child ended, and where its end is good the component moves on to the next state.
    fn finish(&mut self, next: State, step: Step, exit: Exit) -> LifeAct
        requires few { self.old.failures < 3 }
        requires no_stop { self.old.stop ≡ None }
        requires idle { may_be_busy next None ≡ true }
        requires next { MayHave next self.old.failures }
        ensures { ends_in next step exit self.old ≡ Some (result, self.new) }
    {
        if matches!(exit, Exit::Code(0)) {
            self.state = next;
            self.busy = None;
            self.runs = false;
            LifeAct::Nothing
        } else {
            self.fail(step, exit)
        }
    }

    /// A step failed. The third failure breaks the component.
    fn fail(&mut self, step: Step, exit: Exit) -> LifeAct
        requires few { self.old.failures < 3 }
        requires no_stop { self.old.stop ≡ None }
        ensures life { self.new ≡ failed step self.old }
        ensures act { result ≡ failure step exit self.old }
    {
        self.busy = None;
        self.runs = false;
        self.install_failed = matches!(step, Step::Install);
        self.failures += 1;
        if self.failures == 3 {
            self.state = State::Broken;
            LifeAct::Broke(step, exit)
        } else {
            self.state = State::Errored;
            LifeAct::Failed(step, exit)
        }
    }

    /// Where a failure leads back to.
    fn back(&self) -> State
        ensures { result ≡ back self.now }
    {
        if self.install_failed {
            State::New
        } else {
            State::Installed
        }
    }

    /// It tries again after a failure.
    fn go_back(&mut self) -> LifeAct
        requires { self.old.state ≡ State.Errored }
        ensures life { self.new ≡ retried self.old }
        ensures act { result ≡ LifeAct.Nothing }
    {
        self.state = self.back();
        self.busy = None;
        LifeAct::Nothing
    }

    /// The shutdown is over.
    fn shut_down(&mut self) -> LifeAct
        requires stands { self.old.gone ≡ false }
        requires under_way { IsSome self.old.stop }
        ensures { shut_down self.old ≡ Some (result, self.new) }
    {
        let runs = self.runs;
        if let Some(after) = self.stop {
            self.rest(after);
        }
        if runs {
            LifeAct::Kill
        } else {
            LifeAct::Nothing
        }
    }

    /// It is stopped.
    fn rest(&mut self, after: After)
        requires { self.old.gone ≡ false }
        ensures { self.new ≡ stopped after self.old }
    {
        match after {
            After::Restart => self.state = self.rested(),
            After::Again => {
                self.state = State::New;
                self.failures = 0;
                self.install_failed = false;
            }
            After::Gone => {
                self.state = self.rested();
                self.gone = true;
            }
        }
        self.busy = None;
        self.runs = false;
        self.stop = None;
    }

    /// Where a stop leads to that keeps what is installed.
    fn rested(&self) -> State
        ensures { result ≡ rested self.now.state self.now }
    {
        match self.state {
            State::Broken => State::Broken,
            State::New => State::New,
            State::Errored => self.back(),
            _ => State::Installed,
        }
    }
}
