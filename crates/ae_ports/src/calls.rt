ghost use Rattle.std.specs.Prelude.{◌≡◌, ◌≤◌, []};
ghost use Rattle.ae_ports.specs.Fault.{HasCause, HasRisen};
ghost use Rattle.ae_ports.specs.Memory.{new_tally, raised, fault_count, fails_next, CountsSteadyCall};

use crate::Failed;
use std::marker::Model;

/// The calls of an object in memory: which of them fail, and how many there were and failed.
#[derive(Drop)]
pub struct Calls {
    fails: Vec<u64>,
    made: u64,
    failed: u64,
    starved: u64,
}

impl Model for Calls {
    ghost use Rattle.std.specs.Prelude.{◌≡◌, []};
    ghost use Rattle.ae_ports.specs.Memory.{Tally};

    ghost Value = { Tally };

    ghost view = { λ c. record { fails = c.fails.items; calls = c.made; failed = c.failed; starved = c.starved } };

    ghost invariant = { λ c. c.fails.items ≡ [] → c.failed ≡ 0 };
}

impl Calls {
    /// No call yet. The calls with these numbers, counted from 0, are to fail.
    pub fn new(fails: Vec<u64>) -> Calls
        ensures { result ≡ new_tally fails.items }
    {
        Calls {
            fails,
            made: 0,
            failed: 0,
            starved: 0,
        }
    }

    // The number of the next call is one of those that fail.
    fn is_named(&self) -> bool
        ensures { result ≡ fails_next self.now }
    {
        self.fails.contains(&self.made)
    }

    /// Counts one more call. It fails exactly where its number is one of those that fail.
    pub fn begin(&mut self) -> Result<(), Failed>
        ensures counts { CountsSteadyCall self.old self.new result }
        ensures cause { HasCause (fault_count self.old) (fault_count self.new) result }
        ensures rest { self.old.fails ≡ self.new.fails }
    {
        if self.is_named() {
            self.made = self.made.saturating_add(1);
            self.failed = self.failed.saturating_add(1);
            return Err(Failed);
        }
        self.made = self.made.saturating_add(1);
        Ok(())
    }

    /// Counts one more failure for want of memory.
    pub fn starve(&mut self) -> Failed
        ensures counts { self.new ≡ record self.old { starved = raised self.old.starved } }
        ensures later { fault_count self.old ≤ fault_count self.new }
        ensures risen { HasRisen (fault_count self.old) (fault_count self.new) }
    {
        self.starved = self.starved.saturating_add(1);
        Failed
    }

    /// How many calls failed for want of memory. Where no call is to fail by its number, these are all the faults.
    pub fn starved(&self) -> u64
        ensures count { result ≡ self.now.starved }
        ensures whole { self.now.fails ≡ [] → fault_count self.now ≡ result }
    {
        self.starved
    }
}
