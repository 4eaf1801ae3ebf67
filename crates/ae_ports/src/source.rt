ghost use Rattle.std.specs.Prelude.{ℕ, ◌≤◌, List, length, Option, IfOk};
ghost use Rattle.ae_ports.specs.Fault.{HasCause};
ghost use Rattle.ae_ports.specs.Content.{Reads};

use crate::Failed;

/// Where bytes come from, in order and each once, as a standard input.
pub trait Source {
    /// The bytes left, where the source tells them.
    ghost told: { Self → Option (List ℕ) };

    /// How many faults there were so far.
    ghost faults: { Self → ℕ };

    /// What the source was made with and stands on is the same in both.
    ghost same_rest: { Self → Self → Type 0 };

    /// Moves bytes into the front of `buf`, and answers how many. It is 0 only where `buf` is empty or no byte is left.
    fn read(&mut self, buf: &mut [u8]) -> Result<usize, Failed>
        ensures within { IfOk result (λ count. count ≤ length buf.old) }
        ensures content { Reads (told self.old) (told self.new) buf.new result }
        ensures cause { HasCause (faults self.old) (faults self.new) result }
        ensures rest { same_rest self.old self.new };

    /// A source has the same rest as itself.
    ghost rest_stays: { (source : Self) → same_rest source source };

    /// What each of two calls keeps, both keep.
    ghost rest_joins: { (one two three : Self) → same_rest one two → same_rest two three → same_rest one three };
}
