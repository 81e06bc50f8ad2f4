ghost use Rattle.std.specs.Prelude.{◌≡◌, ◌+◌, ◌^◌, ◌-◌, ◌≤◌, min, List, Contains, IsTrue, ◌↔◌, false};
ghost use Rattle.nuc_base.specs.Faults.{Rose};

use crate::list::List;

/// Which calls of an object in memory fail, by their numbers from 0, how many calls came, and how many faults
/// were answered. Both counts stand still at the greatest 64-bit number.
#[derive(Debug, Drop)]
pub struct Failing {
    numbers: List<u64>,
    calls: u64,
    faults: u64,
}

impl Failing {
    ghost use Rattle.nuc_base.specs.Failing.{failing_numbers, calls_of, faults_of, IsCounted, IsFaulted};

    /// Fails the calls that the list names.
    pub fn new(numbers: List<u64>) -> Failing
        ensures numbers { failing_numbers result ≡ numbers }
        ensures calls { calls_of result ≡ 0 }
        ensures faults { faults_of result ≡ 0 }
    {
        Failing {
            numbers,
            calls: 0,
            faults: 0,
        }
    }

    /// Whether this call fails. Counts the call, and where it fails the fault, once.
    pub fn fails(&mut self) -> bool
        ensures listed { IsTrue result ↔ Contains (failing_numbers self.old) (calls_of self.old) }
        ensures counted { IsCounted self.old self.new }
        ensures kept { (result ≡ false) → faults_of self.new ≡ faults_of self.old }
        ensures once { IsTrue result → faults_of self.new ≡ min (faults_of self.old + 1) (2 ^ 64 - 1) }
        ensures rose { IsTrue result → Rose (faults_of self.old) (faults_of self.new) }
        ensures later { faults_of self.old ≤ faults_of self.new }
    {
        let number = self.calls;
        self.calls = self.calls.saturating_add(1);
        let fails = self.numbers.as_slice().contains(&number);
        if fails {
            self.count();
        }
        fails
    }

    /// Counts a fault that no list names, as want of memory in a call that has no answer for it.
    pub fn count(&mut self)
        ensures faulted { IsFaulted self.old self.new }
        ensures rose { Rose (faults_of self.old) (faults_of self.new) }
        ensures later { faults_of self.old ≤ faults_of self.new }
    {
        self.faults = self.faults.saturating_add(1);
    }

    /// How many faults were answered.
    pub fn faults(&self) -> u64
        ensures { result ≡ faults_of self.now }
    {
        self.faults
    }
}
