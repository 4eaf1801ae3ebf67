ghost use Rattle.std.specs.Prelude.{◌≡◌, ◌≤◌, length, Some, IfOk, OnErr, refl};
ghost use Rattle.std.proofs.Common.{◌∙◌};
ghost use Rattle.ae_ports.specs.Fault.{HasCause};
ghost use Rattle.ae_ports.specs.Content.{Reads};
ghost use Rattle.ae_ports.specs.Memory.{new_tally, fault_count, CountsSteadyCall, IsCopy};

use crate::calls::Calls;
use crate::{Failed, Source, SteadySource};
use std::marker::Model;

/// A source of bytes in memory, which fails at the calls that were named, and at no other.
#[derive(Drop)]
pub struct MemorySource {
    source: SteadySource,
    calls: Calls,
}

impl Model for MemorySource {
    ghost use Rattle.ae_ports.specs.Memory.{MemorySourceState};

    ghost Value = { MemorySourceState };

    ghost view = { λ s. record { left = s.source; tally = s.calls } };
}

impl MemorySource {
    /// A source of these bytes. The calls of `read` with the numbers in `fails`, counted from 0, are to fail.
    pub fn new(bytes: Vec<u8>, fails: Vec<u64>) -> MemorySource
        ensures { result ≡ record { left = bytes.items; tally = new_tally fails.items } }
    {
        MemorySource {
            source: SteadySource::new(bytes),
            calls: Calls::new(fails),
        }
    }
}

impl Source for MemorySource {
    ghost told = { λ source. Some source.left };

    ghost faults = { λ source. fault_count source.tally };

    ghost same_rest = { λ one two. one.tally.fails ≡ two.tally.fails };

    /// Moves as many bytes as are left and have room, or fails and moves nothing.
    fn read(&mut self, buf: &mut [u8]) -> Result<usize, Failed>
        ensures within { IfOk result (λ count. count ≤ length buf.old) }
        ensures content { Reads (Some self.old.left) (Some self.new.left) buf.new result }
        ensures cause { HasCause (fault_count self.old.tally) (fault_count self.new.tally) result }
        ensures rest { self.old.tally.fails ≡ self.new.tally.fails }
        ensures counts { CountsSteadyCall self.old.tally self.new.tally result }
        ensures copy { IfOk result (λ count. IsCopy self.old.left 0 buf.old buf.new count) }
        ensures nothing { OnErr result (buf.new ≡ buf.old) }
    {
        self.calls.begin()?;
        self.source.read(buf)
    }

    ghost rest_stays = { λ _. refl };

    ghost rest_joins = { λ one two three first second. first ∙ second };
}
