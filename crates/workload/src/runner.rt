//! A runner in memory whose children end by draws.
ghost use Rattle.std.specs.Prelude.{◌≡◌, ◌≤◌, ◌<◌, ◌+◌, ◌^◌, ◌∷◌, [], Some, None, false, true, Contains};
ghost use Rattle.std.specs.Prelude.{IfOk, IfSome, IfNone, OnErr};
ghost use Rattle.nuc_base.specs.Faults.{HasCause, Rose};
ghost use Rattle.step_runner.specs.Entries.{HasNoted, Listed, without};
ghost use Rattle.step_runner.specs.Waits.{waited, WaitLives, WaitTime, WaitFaults, IsLostEnd, IsOwnEnd};
ghost use Rattle.step_runner.specs.declared.entries.Seen.TheVariants as seen;
ghost use Rattle.workload.specs.Children.{FallBelow, fall_below-prop, child_of, other_children, code_drawn};
ghost use Rattle.workload.specs.Generator.{next_draw, next_state};

use crate::children::{LivingChild, code_of, remove_child, take_least};
use crate::entry_log::EntryLog;
use crate::generator::Generator;
use nuc_base::{Exit, List, Text};
use std::alloc::Global;
use step_runner::{Command, Runner, RunnerEntry, RunnerFault, Seen, View, Waited};

const LAST_MOMENT: u64 = (1 << 62) - 1;

/// A runner in memory, which runs nothing. Each start takes one draw, and its child ends at the moment of its start: with
/// code 1 where the draw is a multiple of 8, else with code 0. A wait gives the living child with the least number, and
/// elapses where none lives. Nothing is found by `exists` and `on_path`. Where it finds no memory for a child it refuses that
/// start and counts it; from the first entry on for which it finds none, it tells its list no more. It keeps no view.
#[derive(Drop)]
pub struct DrawRunner {
    generator: Generator,
    children: Vec<LivingChild>,
    log: EntryLog,
    next: u64,
    clock: u64,
    faults: u64,
    ghost in_time: { clock < 2 ^ 62 },
    ghost past: { log.moment ≤ clock },
    ghost fall: { FallBelow next children.items } by { fall_below-prop next children.items },
}

impl DrawRunner {
    ghost use Rattle.workload.specs.Runner.{draws_from, children_of, entries_kept, entries_told, moment_asked, is_asked};
    ghost use Rattle.workload.specs.Runner.{now_of, living_of, started_by, faults_by, IsSameWorkload};

    /// Draws go on from this state.
    pub fn new(alloc: Global, state: u64) -> DrawRunner
        ensures draws { draws_from result ≡ state }
        ensures children { children_of result ≡ [] }
        ensures list { entries_told result ≡ Some [] }
        ensures moment { moment_asked result ≡ 0 }
        ensures asked { is_asked result ≡ false }
        ensures now { now_of result ≡ 0 }
        ensures started { started_by result ≡ 0 }
        ensures faults { faults_by result ≡ 0 }
    {
        DrawRunner {
            generator: Generator { state },
            children: Vec::new(alloc),
            log: EntryLog::new(alloc),
            next: 0,
            clock: 0,
            faults: 0,
        }
    }

    /// What it did so far. Where it tells its list no more, these are the entries up to then.
    pub fn entries(&self) -> &List<RunnerEntry>
        ensures { result.now ≡ entries_kept self.now }
    {
        self.log.entries()
    }

    /// Takes the draw of a start. The child that starts lives from here on.
    fn admit(&mut self) -> Option<u64>
        ensures drawn { draws_from self.new ≡ next_state (draws_from self.old) }
        ensures fresh { IfSome result (λ n. ¬ Contains (living_of self.old) n) }
        ensures number { IfSome result (λ n. (n ≡ started_by self.old) × (started_by self.new ≡ n + 1)) }
        ensures child { IfSome result (λ n. children_of self.new ≡ child_of n (code_drawn (next_draw (draws_from self.old))) ∷ children_of self.old) }
        ensures quiet { IfSome result (λ n. faults_by self.new ≡ faults_by self.old) }
        ensures none { IfNone result ((started_by self.new ≡ started_by self.old) × (children_of self.new ≡ children_of self.old) ×
            Rose (faults_by self.old) (faults_by self.new)) }
        ensures later { faults_by self.old ≤ faults_by self.new }
        ensures now { now_of self.new ≡ now_of self.old }
        ensures list { Listed entries_told moment_asked is_asked self.new ≡ Listed entries_told moment_asked is_asked self.old }
    {
        let number = self.next;
        let code = code_of(self.generator.draw());
        if number == u64::MAX
            || self
                .children
                .insert(0, LivingChild { number, code })
                .is_err()
        {
            self.faults = self.faults.saturating_add(1);
            return None;
        }
        self.next = number + 1;
        Some(number)
    }
}

impl Runner for DrawRunner {
    ghost use Rattle.workload.specs.Runner.{draws_from, children_of, entries_told, moment_asked, is_asked, now_of, living_of, started_by, faults_by};
    ghost use Rattle.workload.specs.Runner.{IsSameWorkload, WaitOutcome};

    ghost list = { entries_told };

    ghost told = { moment_asked };

    ghost asked = { is_asked };

    ghost clock = { now_of };

    ghost living = { living_of };

    ghost started = { started_by };

    ghost shown = { λ r. None };

    ghost faults = { faults_by };

    fn start(&mut self, command: &Command) -> Result<u64, RunnerFault>
        ensures ok { IfOk result (λ n. HasNoted (Listed entries_told moment_asked is_asked self.old) (Listed entries_told moment_asked is_asked self.new)
            (seen.Started n command.now)) }
        ensures number { IfOk result (λ n. (n ≡ started_by self.old) × (started_by self.new ≡ n + 1)) }
        ensures lives { IfOk result (λ n. living_of self.new ≡ n ∷ living_of self.old) }
        ensures fresh { IfOk result (λ n. ¬ Contains (living_of self.old) n) }
        ensures err { OnErr result (HasNoted (Listed entries_told moment_asked is_asked self.old) (Listed entries_told moment_asked is_asked self.new)
            (seen.Refused command.now)) }
        ensures same { OnErr result ((living_of self.new ≡ living_of self.old) × (started_by self.new ≡ started_by self.old)) }
        ensures time { now_of self.old ≤ now_of self.new }
        ensures cause { HasCause (faults_by self.old) (faults_by self.new) result }
        ensures quiet { IfOk result (λ n. faults_by self.new ≡ faults_by self.old) }
        ensures drawn { draws_from self.new ≡ next_state (draws_from self.old) }
        ensures child { IfOk result (λ n. children_of self.new ≡ child_of n (code_drawn (next_draw (draws_from self.old))) ∷ children_of self.old) }
        ensures kept { OnErr result (children_of self.new ≡ children_of self.old) }
        ensures now { now_of self.new ≡ now_of self.old }
    {
        match self.admit() {
            Some(child) => {
                self.log.note_start(child, command);
                Ok(child)
            }
            None => {
                self.log.note_refusal(command);
                Err(RunnerFault)
            }
        }
    }

    fn wait(&mut self, limit: u64) -> Waited
        requires { limit ≤ 1000000000 }
        ensures notes { HasNoted (Listed entries_told moment_asked is_asked self.old) (Listed entries_told moment_asked is_asked self.new)
            (waited limit result) }
        ensures lives { WaitLives (living_of self.old) (living_of self.new) result }
        ensures exit { IsOwnEnd result }
        ensures time { WaitTime (now_of self.old) (now_of self.new) limit result }
        ensures same { started_by self.new ≡ started_by self.old }
        ensures faults { WaitFaults (faults_by self.old) (faults_by self.new) result }
        ensures quiet { faults_by self.new ≡ faults_by self.old }
        ensures ends { WaitOutcome limit self.old self.new result }
        ensures draws { draws_from self.new ≡ draws_from self.old }
    {
        match take_least(&mut self.children) {
            Some(LivingChild { number, code }) => {
                let exit = Exit::Code(code);
                self.log.note(Seen::Ended(number, exit, limit));
                Waited::Ended(number, exit)
            }
            None => {
                self.clock = (self.clock + limit).min(LAST_MOMENT);
                self.log.note(Seen::Elapsed(limit));
                Waited::Elapsed
            }
        }
    }

    fn kill(&mut self, child: u64)
        requires { Contains (living_of self.old) child }
        ensures notes { HasNoted (Listed entries_told moment_asked is_asked self.old) (Listed entries_told moment_asked is_asked self.new) (seen.Killed child) }
        ensures lives { living_of self.new ≡ without child (living_of self.old) }
        ensures time { now_of self.old ≤ now_of self.new }
        ensures same { started_by self.new ≡ started_by self.old }
        ensures quiet { faults_by self.new ≡ faults_by self.old }
        ensures left { children_of self.new ≡ other_children child (children_of self.old) }
        ensures rest { (draws_from self.new ≡ draws_from self.old) × (now_of self.new ≡ now_of self.old) }
    {
        remove_child(&mut self.children, child);
        self.log.note(Seen::Killed(child));
    }

    fn moment(&mut self) -> u64
        ensures moment { moment_asked self.new ≡ result }
        ensures now { now_of self.new ≡ result }
        ensures later { now_of self.old ≤ result }
        ensures in_time { result < 2 ^ 62 }
        ensures asked { is_asked self.new ≡ true }
        ensures list { entries_told self.new ≡ entries_told self.old }
        ensures lives { living_of self.new ≡ living_of self.old }
        ensures same { started_by self.new ≡ started_by self.old }
        ensures quiet { faults_by self.new ≡ faults_by self.old }
        ensures rest { IsSameWorkload self.old self.new }
    {
        self.log.tell(self.clock);
        self.clock
    }

    fn exists(&mut self, path: &Text) -> bool
        ensures notes { HasNoted (Listed entries_told moment_asked is_asked self.old) (Listed entries_told moment_asked is_asked self.new)
            (seen.Exists path.now result) }
        ensures lives { living_of self.new ≡ living_of self.old }
        ensures time { now_of self.old ≤ now_of self.new }
        ensures same { started_by self.new ≡ started_by self.old }
        ensures quiet { faults_by self.new ≡ faults_by self.old }
        ensures absent { result ≡ false }
        ensures rest { IsSameWorkload self.old self.new }
    {
        self.log.note_absent_path(path);
        false
    }

    fn on_path(&mut self, word: &Text) -> bool
        ensures notes { HasNoted (Listed entries_told moment_asked is_asked self.old) (Listed entries_told moment_asked is_asked self.new)
            (seen.OnPath word.now result) }
        ensures lives { living_of self.new ≡ living_of self.old }
        ensures time { now_of self.old ≤ now_of self.new }
        ensures same { started_by self.new ≡ started_by self.old }
        ensures quiet { faults_by self.new ≡ faults_by self.old }
        ensures absent { result ≡ false }
        ensures rest { IsSameWorkload self.old self.new }
    {
        self.log.note_absent_program(word);
        false
    }

    fn show<V: View>(&mut self, _view: &V)
        ensures notes { Listed entries_told moment_asked is_asked self.new ≡ Listed entries_told moment_asked is_asked self.old }
        ensures rest { IsSameWorkload self.old self.new }
    {}

    ghost past = { λ r. r.past };

    ghost in_time = { λ r. r.in_time };
}
