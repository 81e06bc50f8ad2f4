ghost use Rattle.std.specs.Prelude.{◌≡◌, ◌<◌, ◌≤◌, ◌+◌, ◌^◌, ◌∷◌, ◌==◌, [], ℕ, not, All, Contains, map, filter, IsTrue, None, IfSome, IfNone, OnOk, OnErr};
ghost use Rattle.std.specs.Prelude.{true};
ghost use Rattle.step_runner.specs.Entries.{without};
ghost use Rattle.nuc_base.specs.declared.kinds.Exit.TheVariants as exits;
ghost use Rattle.step_runner.specs.Waits.{RoseAtLost, is_own};

use crate::children::{Running, first_ended, look_at, remove_numbered};
use crate::clock::{LAST_MOMENT, millis_since, moment_at, pause_after};
use crate::keeper::Keeper;
use crate::programs::{Shell, is_on_path};
use crate::running::{Driving, RunningFile, tell};
use nuc_base::{Exit, Text};
use std::fs::{File, Files};
use std::io::ErrorKind;
use std::process::Processes;
use std::rt::{Clock, Env};
use std::time::{Duration, Instant};
use std::{fs, io, thread};
use step_runner::{Command, Runner, RunnerFault, View, Waited};

/// Runs each command as `sh -c SCRIPT` in its folder, which is made as needed, with the command's variables added to
/// the environment. `sh` is that of the PATH with which the program was started, whatever PATH the command sets, the first
/// that may be executed; without a PATH it is that of /bin or /usr/bin. A child reads nothing. What it prints is appended to
/// the log of its component where there is a folder of logs, and else dropped, on the standard error too: what it starts may
/// live on, and whoever reads this program's output would wait for that. Where the program `setsid` is found in the same way,
/// each child leads a process group of its own. A kill ends the child and what else lives in its group, and waits for the
/// child: kills that follow one another with no start and no wait between them wait five seconds together, each four fifths of
/// what is left of that. A child that lives on behind it is named in the log of events, and is none of the runner's any more. A
/// start that the system cannot do now is tried for two seconds. Ends are found by looking at all children, with a pause between
/// that grows while nothing stirs. It tells no list.
///
/// Children that live are noted in the file `children` of `root`. What lives of those that an earlier call noted is ended at the
/// first call of `start`, `wait` or `kill`: a call that was killed left them. Where there is a folder of logs, starts, ends, kills
/// and what lives on stand in its log of events, and a component's in its own log too.
///
/// What it is shown stands in the file `running` of `root` from the first time on, once `show_as` has said what the call does, and
/// to `end_showing`. A file that can't be written changes nothing else; it is named in the log of events once, and tried again.
///
/// Moments are milliseconds of a clock that stands still where this program did not look: it goes on where a look found
/// that no child has ended, and from a start, from which the time of a step counts, as the moment told before. So the ends
/// that one look finds are told one after another at the moment of the look before, however late it comes.
#[derive(Drop)]
pub struct ShellRunner<'a, R: Processes + Clock> {
    rt: &'a R,
    keeper: Keeper<'a, R>,
    start: Option<Instant>,
    children: Vec<Running<R::Started>>,
    next: u64,
    clock: u64,
    told: u64,
    asked: bool,
    faults: u64,
    /// How many milliseconds since the start do not count.
    stood: u64,
    /// When a child was started last, or the end of one was told.
    stirred: u64,
    running: Option<RunningFile>,
    ghost in_time: { clock < 2 ^ 62 },
    ghost past: { told ≤ clock },
    ghost numbered: { All (λ (c : ℕ). c < next) (map (λ c. c.number) children.items) },
}

impl<'a, R: Processes + Clock + Files<File = File> + Env + AllocGlobal> ShellRunner<'a, R> {
    ghost use Rattle.host_children.specs.Real.{runner_living, runner_faults};

    /// It begins with no child. `root` is the folder in which the folder of logs and the notes of children are looked for.
    pub fn new(rt: &'a R, root: &'a str) -> Self
        ensures living { runner_living result ≡ [] }
        ensures faults { runner_faults result ≡ 0 }
    {
        ShellRunner {
            rt,
            keeper: Keeper::new(rt, root, Shell::find(rt)),
            start: Instant::now(rt).ok(),
            children: Vec::new(rt.alloc()),
            next: 0,
            clock: 0,
            told: 0,
            asked: false,
            faults: 0,
            stood: 0,
            stirred: 0,
            running: None,
        }
    }

    /// From here on what it is shown stands in the file `running`, below a line of what this call does. One that an earlier call
    /// left is taken away, so whoever calls holds the lock of those that write.
    pub fn show_as(&mut self, call: Driving)
        ensures living { runner_living self.new ≡ runner_living self.old }
        ensures faults { runner_faults self.new ≡ runner_faults self.old }
    {
        match RunningFile::begin(self.rt, self.keeper.root, call) {
            Ok(running) => self.running = Some(running),
            Err(error) => tell(&self.keeper.log, "show", &error),
        }
    }

    /// Takes the file `running` away, and writes it no more: the call is at its end.
    pub fn end_showing(&mut self)
        ensures living { runner_living self.new ≡ runner_living self.old }
        ensures faults { runner_faults self.new ≡ runner_faults self.old }
    {
        if let Some(running) = self.running.take() {
            if let Err(error) = running.end(self.rt) {
                tell(&self.keeper.log, "remove", &error);
            }
        }
    }
}

/// The count of faults: a lost child is one.
fn counted(faults: u64, exit: Exit) -> u64
    ensures cause { RoseAtLost faults result exit }
    ensures later { faults ≤ result }
    ensures quiet { ¬ (exit ≡ exits.Lost) → result ≡ faults }
{
    match exit {
        Exit::Lost => faults.saturating_add(1),
        Exit::Code(_) => faults,
        Exit::Signal => faults,
        Exit::TimedOut => faults,
        Exit::NotStarted => faults,
    }
}

impl<'a, R: Processes + Clock + Files<File = File> + Env + AllocGlobal> ShellRunner<'a, R> {
    ghost use Rattle.host_children.specs.Real.{runner_living};

    /// Starts a child, and keeps it before the others, with its number. The clock goes on from the last moment.
    fn try_start(&mut self, command: &Command) -> io::Result<()>
        ensures started { OnOk result (runner_living self.new ≡ self.old.next ∷ runner_living self.old) }
        ensures refused { OnErr result (self.new.children.items ≡ self.old.children.items) }
        ensures next { OnErr result (self.new.next ≡ self.old.next) }
        ensures counted { OnOk result (self.new.next ≡ self.old.next + 1) }
        ensures same { (self.new.clock ≡ self.old.clock) × (self.new.told ≡ self.old.told) × (self.new.asked ≡ self.old.asked) ×
            (self.new.faults ≡ self.old.faults) }
    {
        let number = self.next;
        if number == u64::MAX {
            return Err(io::Error::from(ErrorKind::QuotaExceeded));
        }
        self.children.reserve(1)?;
        let step = self.keeper.start(command)?;
        self.children.insert(0, Running::new(number, step))?;
        self.next = number + 1;
        self.stirred = self.clock;
        if let Some(millis) = millis_since(self.rt, &self.start) {
            self.stood = millis.saturating_sub(self.clock);
        }
        Ok(())
    }

    /// Ends a child where it has not ended, and drops it. Each other child stays as it is, with its number.
    #[tactic(auto, using(crate::proofs::Numbers::numbers_left))]
    fn end_child(&mut self, child: u64)
        ensures left { self.new.children.items ≡ filter (λ c. not (c.number == child)) self.old.children.items }
        ensures living { runner_living self.new ≡ without child (runner_living self.old) }
        ensures same { (self.new.next ≡ self.old.next) × (self.new.clock ≡ self.old.clock) × (self.new.told ≡ self.old.told) ×
            (self.new.asked ≡ self.old.asked) × (self.new.faults ≡ self.old.faults) }
    {
        remove_numbered(&mut self.keeper, &mut self.children, child);
    }

    /// The first end that is still to be told. Where there is none it looks at all children, and where none has ended the
    /// clock goes on, to `least` at least.
    fn look(&mut self, least: u64) -> Option<(u64, Exit)>
        requires least { (self.old.clock ≤ least) × (least < 2 ^ 62) }
        ensures lived { IfSome result (λ ended. Contains (runner_living self.old) ended.0) }
        ensures own { IfSome result (λ ended. is_own ended.1 ≡ true) }
        ensures none { IfNone result (least ≤ self.new.clock) }
        ensures later { self.old.clock ≤ self.new.clock }
        ensures living { runner_living self.new ≡ runner_living self.old }
        ensures same { (self.new.next ≡ self.old.next) × (self.new.told ≡ self.old.told) × (self.new.asked ≡ self.old.asked) ×
            (self.new.faults ≡ self.old.faults) }
    {
        let untold = first_ended(self.children.as_slice());
        if untold.is_some() {
            return untold;
        }
        let millis = millis_since(self.rt, &self.start);
        look_at(&mut self.children);
        let ended = first_ended(self.children.as_slice());
        if ended.is_none() {
            self.clock = moment_at(millis, self.stood, least);
        }
        ended
    }

    /// Looks at the children and sleeps, until one has ended or the clock is there. It looks once at least.
    fn poll_until(&mut self, until: u64) -> Option<(u64, Exit)>
        requires { until < 2 ^ 62 }
        ensures lived { IfSome result (λ ended. Contains (runner_living self.old) ended.0) }
        ensures own { IfSome result (λ ended. is_own ended.1 ≡ true) }
        ensures none { IfNone result (until ≤ self.new.clock) }
        ensures later { self.old.clock ≤ self.new.clock }
        ensures living { runner_living self.new ≡ runner_living self.old }
        ensures same { (self.new.next ≡ self.old.next) × (self.new.told ≡ self.old.told) × (self.new.asked ≡ self.old.asked) ×
            (self.new.faults ≡ self.old.faults) }
    {
        let ended = self.look(self.clock);
        if ended.is_some() {
            return ended;
        }
        'polling: while self.clock < until {
            self.keeper.turn_logs(self.children.as_slice(), self.clock);
            let pause = pause_after(self.clock.saturating_sub(self.stirred));
            thread::sleep(
                self.rt,
                Duration::from_millis(pause.min(until - self.clock)),
            );
            let ended = self.look(self.clock + 1);
            if ended.is_some() {
                return ended;
            }
        }
        None
    }
}

impl<'a, R: Processes + Clock + Files<File = File> + Env + AllocGlobal> Runner
    for ShellRunner<'a, R> {
    ghost use Rattle.host_children.specs.Real.{runner_told, runner_asked, runner_clock, runner_living, runner_started, runner_faults};

    ghost list = { λ r. None };

    ghost told = { λ r. runner_told r };

    ghost asked = { λ r. runner_asked r };

    ghost clock = { λ r. runner_clock r };

    ghost living = { λ r. runner_living r };

    ghost started = { λ r. runner_started r };

    ghost shown = { λ r. None };

    ghost faults = { λ r. runner_faults r };

    fn start(&mut self, command: &Command) -> Result<u64, RunnerFault> {
        let number = self.next;
        self.asked = false;
        self.keeper.begin_anew();
        match self.try_start(command) {
            Ok(()) => Ok(number),
            Err(_) => {
                self.faults = self.faults.saturating_add(1);
                Err(RunnerFault)
            }
        }
    }

    fn wait(&mut self, limit: u64) -> Waited {
        self.asked = false;
        self.keeper.begin_anew();
        let until = (self.clock + limit).min(LAST_MOMENT);
        match self.poll_until(until) {
            Some((child, exit)) => {
                self.stirred = self.clock;
                self.end_child(child);
                self.faults = counted(self.faults, exit);
                Waited::Ended(child, exit)
            }
            None => Waited::Elapsed,
        }
    }

    fn kill(&mut self, child: u64) {
        self.asked = false;
        self.keeper.begin();
        self.end_child(child);
    }

    fn moment(&mut self) -> u64 {
        let _untold = self.look(self.clock);
        self.told = self.clock;
        self.asked = true;
        self.clock
    }

    fn exists(&mut self, path: &Text) -> bool {
        self.asked = false;
        fs::exists(self.rt, path.as_str()).unwrap_or(false)
    }

    fn on_path(&mut self, word: &Text) -> bool {
        self.asked = false;
        is_on_path(self.rt, word.as_str())
    }

    fn show<V: View>(&mut self, view: &V) {
        if let Some(running) = &mut self.running {
            running.show(self.rt, &self.keeper.log, view);
        }
    }

    ghost past = { λ r. r.past };

    ghost in_time = { λ r. r.in_time };
}
