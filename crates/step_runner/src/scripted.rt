//! A runner in memory.
ghost use Rattle.std.specs.Prelude.{◌≡◌, ◌≤◌, ◌<◌, ◌+◌, ◌-◌, ◌^◌, ◌++◌, ◌∷◌, ◌↔◌, [], ℕ, List, Some, None, true, false, All, Contains, IsTrue, IfOk, IfSome};
ghost use Rattle.std.specs.Prelude.{IfNone, OnErr, IsErr, IsNone, min, max};
ghost use Rattle.std.specs.List.{list_any, list_all};
ghost use Rattle.std.specs.Str.{bytes_eq};
ghost use Rattle.nuc_base.specs.Faults.{HasCause, Rose};
ghost use Rattle.step_runner.specs.Entries.{HasNoted, Listed, without, HasGrownBy};
ghost use Rattle.step_runner.specs.Waits.{waited, WaitLives, WaitTime, WaitFaults, RoseAtLost, IsLostEnd, is_own, IsOwnEnd};
ghost use Rattle.step_runner.specs.Views.{those_shown, WasShown};
ghost use Rattle.step_runner.specs.declared.entries.Seen.TheVariants as seen;
ghost use Rattle.step_runner.specs.declared.ends.ScriptedEnd.{ScriptedEnd};
ghost use Rattle.step_runner.specs.declared.entries.RunnerEntry.{RunnerEntry};
ghost use Rattle.step_runner.specs.declared.entries.Seen.{Seen};
ghost use Rattle.nuc_base.specs.declared.kinds.Exit.TheVariants as exits;

use crate::command::Command;
use crate::ends::{ScriptedEnd, forget_child, next_end};
use crate::entries::{RunnerEntry, Seen};
use crate::runner::{Runner, RunnerFault, Waited};
use crate::shown::ShownComponent;
use crate::view::View;
use crate::views::KeptViews;
use nuc_base::{Copied, Exit, List, NoMemory, Text};
use std::alloc::Global;

const LAST_MOMENT: u64 = (1 << 62) - 1;

/// A runner in memory, which runs nothing. It refuses the starts that a list names, counted from 0, plays the ends of
/// another, and says of a third list's texts that they are there. Where it finds no memory for a child's number it refuses
/// that start and counts it; from the first entry on for which it finds none, it tells its list no more. It keeps the views that it
/// is shown, and from the first one on for which it finds no memory it tells none.
#[derive(Drop)]
pub struct ScriptedRunner {
    alloc: Global,
    ends: Vec<ScriptedEnd>,
    refused: List<u64>,
    present: List<Text>,
    entries: List<RunnerEntry>,
    living: Vec<u64>,
    calls: u64,
    next: u64,
    clock: u64,
    told: u64,
    asked: bool,
    is_modelled: bool,
    views: KeptViews,
    faults: u64,
    ghost in_time: { clock < 2 ^ 62 },
    ghost past: { told ≤ clock },
    ghost numbered: { All (λ (c : ℕ). c < next) living.items },
    ghost own: { All (λ (e : ScriptedEnd). is_own e.exit ≡ true) ends.items },
}

/// Adds an entry where the list is still told and there is memory. Answers whether it was added.
fn note(entries: &mut List<RunnerEntry>, is_modelled: bool, entry: RunnerEntry) -> bool
    ensures { IsTrue result → (is_modelled ≡ true) × (entries.new ≡ entries.old ++ entry ∷ []) }
{
    is_modelled && entries.push(entry).is_ok()
}

/// An end that cannot be had is a fault.
fn faults_after(faults: u64, exit: Exit) -> u64
    ensures later { faults ≤ result }
    ensures lost { RoseAtLost faults result exit }
    ensures quiet { ¬ (exit ≡ exits.Lost) → result ≡ faults }
{
    if matches!(exit, Exit::Lost) {
        faults.saturating_add(1)
    } else {
        faults
    }
}

fn started_seen(alloc: Global, command: &Command, child: u64) -> Result<Seen, NoMemory>
    ensures { IfOk result (λ s. s ≡ seen.Started child command.now) }
{
    Ok(Seen::Started(child, command.copy(alloc)?))
}

fn refused_seen(alloc: Global, command: &Command) -> Result<Seen, NoMemory>
    ensures { IfOk result (λ s. s ≡ seen.Refused command.now) }
{
    Ok(Seen::Refused(command.copy(alloc)?))
}

fn exists_seen(alloc: Global, path: &Text, found: bool) -> Result<Seen, NoMemory>
    ensures { IfOk result (λ s. s ≡ seen.Exists path.now found) }
{
    Ok(Seen::Exists(path.copy(alloc)?, found))
}

fn on_path_seen(alloc: Global, word: &Text, found: bool) -> Result<Seen, NoMemory>
    ensures { IfOk result (λ s. s ≡ seen.OnPath word.now found) }
{
    Ok(Seen::OnPath(word.copy(alloc)?, found))
}

impl ScriptedRunner {
    ghost use Rattle.step_runner.specs.Scripted.{unplayed, refused_starts, present_texts, start_calls, entries_kept, entries_told, moment_asked, is_asked};
    ghost use Rattle.step_runner.specs.Scripted.{now_of, living_of, started_by, faults_by, views_shown, views_by, IsSameButList, in_time};

    /// Each exit is one that a child can have by itself.
    pub fn new(
        alloc: Global,
        ends: List<ScriptedEnd>,
        refused: List<u64>,
        present: List<Text>,
    ) -> ScriptedRunner
        requires { list_all (λ (e : ScriptedEnd). is_own e.exit) ends ≡ true }
        ensures ends { unplayed result ≡ ends }
        ensures refused { refused_starts result ≡ refused }
        ensures present { present_texts result ≡ present }
        ensures calls { start_calls result ≡ 0 }
        ensures list { entries_told result ≡ Some [] }
        ensures moment { moment_asked result ≡ 0 }
        ensures asked { is_asked result ≡ false }
        ensures now { now_of result ≡ 0 }
        ensures living { living_of result ≡ [] }
        ensures started { started_by result ≡ 0 }
        ensures views { views_by result ≡ Some [] }
        ensures faults { faults_by result ≡ 0 }
    {
        ScriptedRunner {
            alloc,
            ends: ends.into_vec(),
            refused,
            present,
            entries: List::empty(alloc),
            living: Vec::new(alloc),
            calls: 0,
            next: 0,
            clock: 0,
            told: 0,
            asked: false,
            is_modelled: true,
            views: KeptViews::new(alloc),
            faults: 0,
        }
    }

    /// What it did so far. Where it tells its list no more, these are the entries up to then.
    pub fn entries(&self) -> &List<RunnerEntry>
        ensures { result.now ≡ entries_kept self.now }
    {
        &self.entries
    }

    /// The views that it was shown. Where it tells them no more, these are those up to then.
    pub fn views(&self) -> &List<List<ShownComponent>>
        ensures { result.now ≡ views_shown self.now }
    {
        self.views.views()
    }

    /// Adds an entry, for which a moment has to be asked for anew.
    fn keep_seen(&mut self, seen: Seen)
        ensures kept { HasNoted (Listed entries_told moment_asked is_asked self.old) (Listed entries_told moment_asked is_asked self.new) seen }
        ensures same { IsSameButList self.old self.new }
    {
        let entry = RunnerEntry {
            moment: self.told,
            asked: self.asked,
            seen,
        };
        self.is_modelled = note(&mut self.entries, self.is_modelled, entry);
        self.asked = false;
    }

    /// Tells the list no more.
    fn lose(&mut self)
        ensures lost { entries_told self.new ≡ None }
        ensures moment { moment_asked self.new ≡ moment_asked self.old }
        ensures asked { is_asked self.new ≡ false }
        ensures same { IsSameButList self.old self.new }
    {
        self.is_modelled = false;
        self.asked = false;
    }

    /// Adds an entry where there was memory for it.
    fn keep(&mut self, seen: Result<Seen, NoMemory>)
        ensures kept { (s : Seen) → IfOk seen (λ x. x ≡ s) → HasNoted (Listed entries_told moment_asked is_asked self.old)
            (Listed entries_told moment_asked is_asked self.new) s }
        ensures same { IsSameButList self.old self.new }
    {
        match seen {
            Ok(seen) => self.keep_seen(seen),
            Err(NoMemory) => self.lose(),
        }
    }

    fn keep_started(&mut self, command: &Command, child: u64)
        ensures kept { HasNoted (Listed entries_told moment_asked is_asked self.old) (Listed entries_told moment_asked is_asked self.new)
            (seen.Started child command.now) }
        ensures same { IsSameButList self.old self.new }
    {
        let seen = started_seen(self.alloc, command, child);
        self.keep(seen);
    }

    fn keep_refused(&mut self, command: &Command)
        ensures kept { HasNoted (Listed entries_told moment_asked is_asked self.old) (Listed entries_told moment_asked is_asked self.new)
            (seen.Refused command.now) }
        ensures same { IsSameButList self.old self.new }
    {
        let seen = refused_seen(self.alloc, command);
        self.keep(seen);
    }

    fn keep_exists(&mut self, path: &Text, found: bool)
        ensures kept { HasNoted (Listed entries_told moment_asked is_asked self.old) (Listed entries_told moment_asked is_asked self.new)
            (seen.Exists path.now found) }
        ensures same { IsSameButList self.old self.new }
    {
        let seen = exists_seen(self.alloc, path, found);
        self.keep(seen);
    }

    fn keep_on_path(&mut self, word: &Text, found: bool)
        ensures kept { HasNoted (Listed entries_told moment_asked is_asked self.old) (Listed entries_told moment_asked is_asked self.new)
            (seen.OnPath word.now found) }
        ensures same { IsSameButList self.old self.new }
    {
        let seen = on_path_seen(self.alloc, word, found);
        self.keep(seen);
    }

    /// Whether this start is refused. A child that starts lives from here on.
    fn admit(&mut self) -> Option<u64>
        ensures fresh { IfSome result (λ n. ¬ Contains (living_of self.old) n) }
        ensures some { IfSome result (λ n. (n ≡ started_by self.old) × (started_by self.new ≡ n + 1) × (living_of self.new ≡ n ∷ living_of self.old) ×
            (faults_by self.new ≡ faults_by self.old)) }
        ensures none { IfNone result ((started_by self.new ≡ started_by self.old) × (living_of self.new ≡ living_of self.old) ×
            Rose (faults_by self.old) (faults_by self.new)) }
        ensures later { faults_by self.old ≤ faults_by self.new }
        ensures listed { Contains (refused_starts self.old) (start_calls self.old) → IsNone result }
        ensures counted { start_calls self.new ≡ min (start_calls self.old + 1) (2 ^ 64 - 1) }
        ensures list { Listed entries_told moment_asked is_asked self.new ≡ Listed entries_told moment_asked is_asked self.old }
        ensures rest { (unplayed self.new ≡ unplayed self.old) × (now_of self.new ≡ now_of self.old) }
        ensures given { (refused_starts self.new ≡ refused_starts self.old) × (present_texts self.new ≡ present_texts self.old) }
        ensures views { views_by self.new ≡ views_by self.old }
    {
        let call = self.calls;
        let child = self.next;
        self.calls = self.calls.saturating_add(1);
        if child == u64::MAX
            || self.refused.as_slice().contains(&call)
            || self.living.insert(0, child).is_err()
        {
            self.faults = self.faults.saturating_add(1);
            return None;
        }
        self.next = child + 1;
        Some(child)
    }

    /// The end of a child comes.
    fn play(&mut self, end: ScriptedEnd)
        ensures living { living_of self.new ≡ without end.child (living_of self.old) }
        ensures now { now_of self.new ≡ in_time (max (now_of self.old) end.at) }
        ensures faults { (faults_by self.old ≤ faults_by self.new) × RoseAtLost (faults_by self.old) (faults_by self.new) end.exit }
        ensures quiet { ¬ (end.exit ≡ exits.Lost) → faults_by self.new ≡ faults_by self.old }
        ensures list { Listed entries_told moment_asked is_asked self.new ≡ Listed entries_told moment_asked is_asked self.old }
        ensures rest { (unplayed self.new ≡ unplayed self.old) × (started_by self.new ≡ started_by self.old) × (start_calls self.new ≡ start_calls self.old) }
        ensures given { (refused_starts self.new ≡ refused_starts self.old) × (present_texts self.new ≡ present_texts self.old) }
        ensures views { views_by self.new ≡ views_by self.old }
    {
        self.clock = self.clock.max(end.at).min(LAST_MOMENT);
        forget_child(&mut self.living, end.child);
        self.faults = faults_after(self.faults, end.exit);
    }
}

impl Runner for ScriptedRunner {
    ghost use Rattle.step_runner.specs.Scripted.{unplayed, refused_starts, present_texts, start_calls, entries_kept, entries_told, moment_asked, is_asked};
    ghost use Rattle.step_runner.specs.Scripted.{now_of, living_of, started_by, faults_by, views_by, shown_by, IsSameButList, IsSameButViews, WaitOutcome};

    ghost list = { entries_told };

    ghost told = { moment_asked };

    ghost asked = { is_asked };

    ghost clock = { now_of };

    ghost living = { living_of };

    ghost started = { started_by };

    ghost shown = { shown_by };

    ghost faults = { faults_by };

    fn start(&mut self, command: &Command) -> Result<u64, RunnerFault>
        ensures ok { IfOk result (λ n. HasNoted (Listed entries_told moment_asked is_asked self.old) (Listed entries_told moment_asked is_asked self.new)
            (seen.Started n command.now)) }
        ensures number { IfOk result (λ n. (n ≡ started_by self.old) × (started_by self.new ≡ n + 1)) }
        ensures lives { IfOk result (λ n. living_of self.new ≡ n ∷ living_of self.old) }
        ensures fresh { IfOk result (λ n. ¬ Contains (living_of self.old) n) }
        ensures err { OnErr result (HasNoted (Listed entries_told moment_asked is_asked self.old) (Listed entries_told moment_asked is_asked self.new)
            (seen.Refused command.now)) }
        ensures same { OnErr result ((living_of self.new ≡ living_of self.old) × (started_by self.new ≡ started_by self.old)) }
        ensures time { now_of self.old ≤ now_of self.new }
        ensures shown { shown_by self.new ≡ shown_by self.old }
        ensures cause { HasCause (faults_by self.old) (faults_by self.new) result }
        ensures quiet { IfOk result (λ n. faults_by self.new ≡ faults_by self.old) }
        ensures listed { Contains (refused_starts self.old) (start_calls self.old) → IsErr result }
        ensures counted { start_calls self.new ≡ min (start_calls self.old + 1) (2 ^ 64 - 1) }
        ensures rest { (unplayed self.new ≡ unplayed self.old) × (now_of self.new ≡ now_of self.old) }
        ensures given { (refused_starts self.new ≡ refused_starts self.old) × (present_texts self.new ≡ present_texts self.old) }
        ensures views { views_by self.new ≡ views_by self.old }
    {
        match self.admit() {
            Some(child) => {
                self.keep_started(command, child);
                Ok(child)
            }
            None => {
                self.keep_refused(command);
                Err(RunnerFault)
            }
        }
    }

    fn wait(&mut self, limit: u64) -> Waited
        requires { limit ≤ 1000000000 }
        ensures notes { HasNoted (Listed entries_told moment_asked is_asked self.old) (Listed entries_told moment_asked is_asked self.new)
            (waited limit result) }
        ensures lives { WaitLives (living_of self.old) (living_of self.new) result }
        ensures exit { IsOwnEnd result }
        ensures time { WaitTime (now_of self.old) (now_of self.new) limit result }
        ensures same { started_by self.new ≡ started_by self.old }
        ensures shown { shown_by self.new ≡ shown_by self.old }
        ensures faults { WaitFaults (faults_by self.old) (faults_by self.new) result }
        ensures quiet { ¬ (IsLostEnd result) → faults_by self.new ≡ faults_by self.old }
        ensures plays { WaitOutcome limit self.old self.new result }
        ensures calls { start_calls self.new ≡ start_calls self.old }
        ensures given { (refused_starts self.new ≡ refused_starts self.old) × (present_texts self.new ≡ present_texts self.old) }
        ensures views { views_by self.new ≡ views_by self.old }
    {
        let until = self.clock + limit;
        match next_end(self.ends.as_slice(), self.living.as_slice(), until) {
            Some(at) => {
                let end = self.ends.remove(at);
                self.play(end);
                self.keep_seen(Seen::Ended(end.child, end.exit, limit));
                Waited::Ended(end.child, end.exit)
            }
            None => {
                self.clock = until.min(LAST_MOMENT);
                self.keep_seen(Seen::Elapsed(limit));
                Waited::Elapsed
            }
        }
    }

    fn kill(&mut self, child: u64)
        requires { Contains (living_of self.old) child }
        ensures notes { HasNoted (Listed entries_told moment_asked is_asked self.old) (Listed entries_told moment_asked is_asked self.new) (seen.Killed child) }
        ensures lives { living_of self.new ≡ without child (living_of self.old) }
        ensures time { now_of self.old ≤ now_of self.new }
        ensures same { started_by self.new ≡ started_by self.old }
        ensures shown { shown_by self.new ≡ shown_by self.old }
        ensures quiet { faults_by self.new ≡ faults_by self.old }
        ensures rest { (unplayed self.new ≡ unplayed self.old) × (now_of self.new ≡ now_of self.old) × (start_calls self.new ≡ start_calls self.old) }
        ensures given { (refused_starts self.new ≡ refused_starts self.old) × (present_texts self.new ≡ present_texts self.old) }
        ensures views { views_by self.new ≡ views_by self.old }
    {
        forget_child(&mut self.living, child);
        self.keep_seen(Seen::Killed(child));
    }

    fn moment(&mut self) -> u64
        ensures moment { moment_asked self.new ≡ result }
        ensures now { now_of self.new ≡ result }
        ensures later { now_of self.old ≤ result }
        ensures in_time { result < 2 ^ 62 }
        ensures asked { is_asked self.new ≡ true }
        ensures list { entries_told self.new ≡ entries_told self.old }
        ensures lives { living_of self.new ≡ living_of self.old }
        ensures same { started_by self.new ≡ started_by self.old }
        ensures shown { shown_by self.new ≡ shown_by self.old }
        ensures quiet { faults_by self.new ≡ faults_by self.old }
        ensures rest { IsSameButList self.old self.new }
    {
        self.told = self.clock;
        self.asked = true;
        self.clock
    }

    fn exists(&mut self, path: &Text) -> bool
        ensures notes { HasNoted (Listed entries_told moment_asked is_asked self.old) (Listed entries_told moment_asked is_asked self.new)
            (seen.Exists path.now result) }
        ensures lives { living_of self.new ≡ living_of self.old }
        ensures time { now_of self.old ≤ now_of self.new }
        ensures same { started_by self.new ≡ started_by self.old }
        ensures shown { shown_by self.new ≡ shown_by self.old }
        ensures quiet { faults_by self.new ≡ faults_by self.old }
        ensures present { result ≡ list_any (λ t. bytes_eq t path.now) (present_texts self.old) }
        ensures rest { IsSameButList self.old self.new }
    {
        let found = self.present.as_slice().contains(path);
        self.keep_exists(path, found);
        found
    }

    fn on_path(&mut self, word: &Text) -> bool
        ensures notes { HasNoted (Listed entries_told moment_asked is_asked self.old) (Listed entries_told moment_asked is_asked self.new)
            (seen.OnPath word.now result) }
        ensures lives { living_of self.new ≡ living_of self.old }
        ensures time { now_of self.old ≤ now_of self.new }
        ensures same { started_by self.new ≡ started_by self.old }
        ensures shown { shown_by self.new ≡ shown_by self.old }
        ensures quiet { faults_by self.new ≡ faults_by self.old }
        ensures present { result ≡ list_any (λ t. bytes_eq t word.now) (present_texts self.old) }
        ensures rest { IsSameButList self.old self.new }
    {
        let found = self.present.as_slice().contains(word);
        self.keep_on_path(word, found);
        found
    }

    fn show<V: View>(&mut self, view: &V)
        ensures shown { WasShown (shown_by self.new) (V.components view.now) }
        ensures notes { Listed entries_told moment_asked is_asked self.new ≡ Listed entries_told moment_asked is_asked self.old }
        ensures lives { living_of self.new ≡ living_of self.old }
        ensures time { now_of self.new ≡ now_of self.old }
        ensures same { started_by self.new ≡ started_by self.old }
        ensures quiet { faults_by self.new ≡ faults_by self.old }
        ensures views { HasGrownBy (views_by self.old) (views_by self.new) (those_shown (V.components view.now) ∷ []) }
        ensures rest { IsSameButViews self.old self.new }
    {
        self.views.keep(self.alloc, view);
    }

    ghost past = { λ r. r.past };

    ghost in_time = { λ r. r.in_time };
}
