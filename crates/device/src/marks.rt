// Small records, written without taking memory.
ghost use Rattle.std.specs.Prelude.{◌≡◌, ◌+◌, ◌≤◌, ◌++◌, ◌∷◌, length, take, map, option_map, Some, List, ℕ};
ghost use Rattle.std.specs.Option.{IsSome};
ghost use Rattle.records.specs.Layout as layout;
ghost use Rattle.records.specs.Layout.{Spelled};
ghost use Rattle.records.specs.Stored as stored;
ghost use Rattle.records.specs.Stored.{item_view, Record};
ghost use Rattle.device.specs.Devices.{device_view, pending_view};
ghost use Rattle.device.specs.Lawful.{next_boot, failing_name, failing_place, place};
ghost use Rattle.device.specs.Marks.{IsMark, IsMarkOf};

use crate::device::Device;
use crate::mark::Mark;
use crate::spare::Spare;
use crate::staged::{Pending, Stage};
use crate::steps::{failing_of, next_of};
use nuc_base::{Exit, Name, Outcome, Step};
use records::Item;

/// Writes bytes at this place.
fn put(into: &mut [u8; 1024], at: usize, bytes: &[u8]) -> usize
    requires { at + length bytes.now ≤ 1024 }
    ensures place { result ≡ at + length bytes.now }
    ensures bytes { take result into.new ≡ take at into.old ++ bytes.now }
{
    let end = at + bytes.len();
    into[at..end].copy_from_slice(bytes);
    end
}

fn put_name(into: &mut [u8; 1024], at: usize, name: &Name) -> usize
    requires { at + 132 ≤ 1024 }
    ensures small { result ≤ at + 132 }
    ensures further { at ≤ result }
    ensures fits { layout.name.Fits name.now }
    ensures bytes { take result into.new ≡ take at into.old ++ layout.name.spell name.now }
{
    let text = name.as_bytes();
    let at = put(into, at, &(text.len() as u32).to_be_bytes());
    put(into, at, text)
}

fn put_exit(into: &mut [u8; 1024], at: usize, exit: Exit) -> usize
    requires { at + 5 ≤ 1024 }
    ensures small { result ≤ at + 5 }
    ensures further { at ≤ result }
    ensures fits { layout.exit.Fits exit }
    ensures bytes { take result into.new ≡ take at into.old ++ layout.exit.spell exit }
{
    match exit {
        Exit::Code(code) => {
            let at = put(into, at, &[0]);
            put(into, at, &code.to_be_bytes())
        }
        Exit::Signal => put(into, at, &[1]),
        Exit::TimedOut => put(into, at, &[2]),
        Exit::NotStarted => put(into, at, &[3]),
        Exit::Lost => put(into, at, &[4]),
    }
}

fn step_byte(step: Step) -> u8
    ensures { result ≡ layout.step_byte step }
{
    match step {
        Step::Install => 1,
        Step::Run => 2,
        Step::Startup => 3,
        Step::Shutdown => 4,
        Step::Recover => 5,
        Step::Bootstrap => 6,
    }
}

fn outcome_byte(outcome: Outcome) -> u8
    ensures { result ≡ layout.outcome_byte outcome }
{
    match outcome {
        Outcome::Successful => 1,
        Outcome::RollbackComplete => 2,
        Outcome::RollbackNotRequested => 3,
        Outcome::UnableToRollback => 4,
    }
}

/// A first byte and a name.
fn write_named(first: u8, name: &Name, into: &mut [u8; 1024]) -> usize
    ensures small { result ≤ 133 }
    ensures some { 1 ≤ result }
    ensures fits { layout.name.Fits name.now }
    ensures bytes { take result into.new ≡ first ∷ layout.name.spell name.now }
{
    let at = put(into, 0, &[first]);
    put_name(into, at, name)
}

/// The name of the item at this place, where it is the first of that name.
fn name_at(items: &[Item], at: u32) -> Option<&Name>
    ensures { (n : List ℕ) → place n (map item_view items.now) ≡ Some at → option_map (λ n. n.now) result ≡ Some n }
{
    match items.get(at as usize) {
        Some(item) => Some(&item.name),
        None => None,
    }
}

fn write_begun(pending: &Pending, into: &mut [u8; 1024]) -> usize
    requires { IsSome (next_boot (pending_view pending.now)) }
    ensures spelled { (n : List ℕ) → next_boot (pending_view pending.now) ≡ Some n → Spelled (take result into.new) (stored.BootBegun n) }
    ensures small { (1 ≤ result) × (result ≤ 160) }
{
    match next_of(pending) {
        Some(name) => write_named(0x13, name, into),
        None => 0,
    }
}

fn write_ended(pending: &Pending, exit: Exit, into: &mut [u8; 1024]) -> usize
    requires { IsSome (next_boot (pending_view pending.now)) }
    ensures spelled { (n : List ℕ) → next_boot (pending_view pending.now) ≡ Some n → Spelled (take result into.new) (stored.BootEnded n exit) }
    ensures small { (1 ≤ result) × (result ≤ 160) }
{
    match next_of(pending) {
        Some(name) => {
            let at = write_named(0x14, name, into);
            put_exit(into, at, exit)
        }
        None => 0,
    }
}

fn write_failed(items: &[Item], at: u32, step: Step, exit: Exit, into: &mut [u8; 1024]) -> usize
    requires { (n : List ℕ) × (place n (map item_view items.now) ≡ Some at) }
    ensures spelled { (n : List ℕ) → place n (map item_view items.now) ≡ Some at → Spelled (take result into.new) (stored.StepFailed n step exit) }
    ensures small { (1 ≤ result) × (result ≤ 160) }
{
    match name_at(items, at) {
        Some(name) => {
            let at = write_named(0x16, name, into);
            let at = put(into, at, &[step_byte(step)]);
            put_exit(into, at, exit)
        }
        None => 0,
    }
}

fn write_step_failed(
    set: &[Item],
    pending: &Pending,
    at: u32,
    step: Step,
    exit: Exit,
    into: &mut [u8; 1024],
) -> usize
    requires { (n : List ℕ) × (failing_place (map item_view set.now) (pending_view pending.now) n ≡ Some at) }
    ensures spelled { (n : List ℕ) → failing_place (map item_view set.now) (pending_view pending.now) n ≡ Some at →
        Spelled (take result into.new) (stored.StepFailed n step exit) }
    ensures small { (1 ≤ result) × (result ≤ 160) }
{
    match pending.stage {
        Stage::Booting | Stage::Backing => 0,
        Stage::Activating => { write_failed(pending.plan.items.as_slice(), at, step, exit, into) }
        Stage::Rolling => write_failed(set, at, step, exit, into),
    }
}

fn write_failing(pending: &Pending, into: &mut [u8; 1024]) -> usize
    requires { IsSome (failing_name (pending_view pending.now)) }
    ensures spelled { (n : List ℕ) → failing_name (pending_view pending.now) ≡ Some n → Spelled (take result into.new) (stored.Failing n) }
    ensures small { (1 ≤ result) × (result ≤ 160) }
{
    match failing_of(pending) {
        Some(name) => write_named(0x17, name, into),
        None => 0,
    }
}

fn write_failing_back(pending: &Pending, into: &mut [u8; 1024]) -> usize
    requires { IsSome (failing_name (pending_view pending.now)) }
    ensures spelled { (n : List ℕ) → failing_name (pending_view pending.now) ≡ Some n → Spelled (take result into.new) (stored.FailingBack n) }
    ensures small { (1 ≤ result) × (result ≤ 160) }
{
    match failing_of(pending) {
        Some(name) => write_named(0x1f, name, into),
        None => 0,
    }
}

fn write_marked(set: &[Item], pending: &Pending, mark: Mark, into: &mut [u8; 1024]) -> usize
    requires { (r : Record) × IsMarkOf (map item_view set.now) (pending_view pending.now) mark r }
    ensures spelled { (r : Record) → IsMarkOf (map item_view set.now) (pending_view pending.now) mark r → Spelled (take result into.new) r }
    ensures small { (1 ≤ result) × (result ≤ 160) }
{
    match mark {
        Mark::BootBegun => write_begun(pending, into),
        Mark::BootEnded(exit) => write_ended(pending, exit, into),
        Mark::Activating => put(into, 0, &[0x15]),
        Mark::StepFailed(at, step, exit) => write_step_failed(set, pending, at, step, exit, into),
        Mark::Failing => write_failing(pending, into),
        Mark::FailingBack => write_failing_back(pending, into),
        Mark::Closed(outcome) => put(into, 0, &[0x18, outcome_byte(outcome)]),
    }
}

impl Device {
    /// Writes the spelling of the mark's record at the beginning of the bytes, without taking memory, and gives its length.
    pub fn write_mark(&self, mark: Mark, _spare: &Spare, into: &mut [u8; 1024]) -> usize
        requires { (r : Record) × IsMark (device_view self.now) mark r }
        ensures spelled { (r : Record) → IsMark (device_view self.now) mark r → Spelled (take result into.new) r }
        ensures small { (1 ≤ result) × (result ≤ 160) }
    {
        match &self.pending {
            Some(pending) => write_marked(self.set.as_slice(), pending, mark, into),
            None => 0,
        }
    }
}
