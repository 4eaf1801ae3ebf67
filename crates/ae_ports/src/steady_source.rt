ghost use Rattle.std.specs.Prelude.{◌≡◌, ◌≤◌, ℕ, List, length, Option, Some, IsOk, IfOk};
ghost use Rattle.ae_ports.specs.Fault.{HasCause};
ghost use Rattle.ae_ports.specs.Content.{Reads};
ghost use Rattle.ae_ports.specs.Memory.{IsCopy};

use crate::copy::copy_from;
use crate::{Failed, Source};
use std::marker::Model;

/// A source of bytes in memory, which never fails. Contracts see it as the bytes left.
#[derive(Drop)]
pub struct SteadySource {
    bytes: Vec<u8>,
    at: usize,
}

impl Model for SteadySource {
    ghost use Rattle.std.specs.Prelude.{ℕ, ◌≤◌, List, length, drop};

    ghost Value = { List ℕ };

    ghost view = { λ s. drop s.at s.bytes.items };

    ghost invariant = { λ s. s.at ≤ length s.bytes.items };
}

impl SteadySource {
    /// A source of these bytes.
    pub fn new(bytes: Vec<u8>) -> SteadySource
        ensures { result ≡ bytes.items }
    {
        SteadySource { bytes, at: 0 }
    }
}

impl Source for SteadySource {
    ghost told = { λ source. Some source };

    ghost faults = { λ _. 0 };

    ghost same_rest = { λ _ _. Unit {0} };

    /// Moves as many bytes as are left and have room. It never fails.
    #[inline(always)]
    fn read(&mut self, buf: &mut [u8]) -> Result<usize, Failed>
        ensures within { IfOk result (λ count. count ≤ length buf.old) }
        ensures content { Reads (Some self.old) (Some self.new) buf.new result }
        ensures cause { HasCause 0 0 result }
        ensures rest { Unit {0} }
        ensures ok { IsOk result }
        ensures copy { IfOk result (λ count. IsCopy self.old 0 buf.old buf.new count) }
    {
        let count = copy_from(&self.bytes, self.at as u64, buf);
        self.at += count;
        Ok(count)
    }

    ghost rest_stays = { λ _. tt };

    ghost rest_joins = { λ _ _ _ _ _. tt };
}
