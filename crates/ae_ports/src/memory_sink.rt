ghost use Rattle.std.specs.Prelude.{◌≡◌, ◌<◌, ◌≤◌, [], ◌++◌, length, Some, IfOk, OnOk, OnErr, refl};
ghost use Rattle.std.proofs.Common.{◌∙◌};
ghost use Rattle.ae_ports.specs.Fault.{HasCause};
ghost use Rattle.ae_ports.specs.Content.{Writes};
ghost use Rattle.ae_ports.specs.Memory.{new_tally, fault_count, CountsCall};

use crate::calls::Calls;
use crate::{Failed, Sink};
use std::alloc::Global;
use std::marker::Model;

/// A sink that keeps in memory what it takes, and fails at the calls that were named.
#[derive(Drop)]
pub struct MemorySink {
    taken: Vec<u8>,
    calls: Calls,
}

impl Model for MemorySink {
    ghost use Rattle.ae_ports.specs.Memory.{MemorySinkState};

    ghost Value = { MemorySinkState };

    ghost view = { λ s. record { taken = s.taken.items; tally = s.calls } };
}

impl MemorySink {
    /// A sink that has taken nothing. The calls of `write` with the numbers in `fails`, counted from 0, are to fail.
    pub fn new(alloc: Global, fails: Vec<u64>) -> MemorySink
        ensures { result ≡ record { taken = []; tally = new_tally fails.items } }
    {
        MemorySink {
            taken: Vec::new(alloc),
            calls: Calls::new(fails),
        }
    }

    /// The bytes taken so far.
    pub fn taken(&self) -> &[u8]
        ensures { result.now ≡ self.now.taken }
    {
        &self.taken
    }

    /// How many calls failed for want of memory. Where no call was named to fail, these are all the faults.
    pub fn starved(&self) -> u64
        ensures count { result ≡ self.now.tally.starved }
        ensures whole { self.now.tally.fails ≡ [] → fault_count self.now.tally ≡ result }
    {
        self.calls.starved()
    }
}

impl Sink for MemorySink {
    ghost told = { λ sink. Some sink.taken };

    ghost faults = { λ sink. fault_count sink.tally };

    ghost same_rest = { λ one two. one.tally.fails ≡ two.tally.fails };

    /// Takes the whole piece, or fails and takes nothing.
    fn write(&mut self, bytes: &[u8]) -> Result<usize, Failed>
        ensures within { IfOk result (λ count. count ≤ length bytes.now) }
        ensures some { IfOk result (λ count. 0 < length bytes.now → 0 < count) }
        ensures content { Writes (Some self.old.taken) (Some self.new.taken) bytes.now result }
        ensures cause { HasCause (fault_count self.old.tally) (fault_count self.new.tally) result }
        ensures rest { self.old.tally.fails ≡ self.new.tally.fails }
        ensures all { IfOk result (λ count. count ≡ length bytes.now) }
        ensures appended { OnOk result (self.new.taken ≡ self.old.taken ++ bytes.now) }
        ensures nothing { OnErr result (self.new.taken ≡ self.old.taken) }
        ensures counts { CountsCall self.old.tally self.new.tally result }
    {
        self.calls.begin()?;
        match self.taken.extend_from_slice(bytes) {
            Ok(()) => Ok(bytes.len()),
            Err(_) => Err(self.calls.starve()),
        }
    }

    ghost rest_stays = { λ _. refl };

    ghost rest_joins = { λ one two three first second. first ∙ second };
}
