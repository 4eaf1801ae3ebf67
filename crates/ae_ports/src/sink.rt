ghost use Rattle.std.specs.Prelude.{ℕ, ◌<◌, ◌≤◌, List, length, Option, IfOk};
ghost use Rattle.ae_ports.specs.Fault.{HasCause};
ghost use Rattle.ae_ports.specs.Content.{Writes};

use crate::Failed;

/// Where bytes go to, in order, as a standard output.
pub trait Sink {
    /// The bytes taken so far, where the sink tells them.
    ghost told: { Self → Option (List ℕ) };

    /// How many faults there were so far.
    ghost faults: { Self → ℕ };

    /// What the sink was made with and stands on is the same in both.
    ghost same_rest: { Self → Self → Type 0 };

    /// Takes bytes from the front of `bytes`, and answers how many: at least one of a piece that isn't empty. After
    /// `Failed` it has taken some front of the piece.
    fn write(&mut self, bytes: &[u8]) -> Result<usize, Failed>
        ensures within { IfOk result (λ count. count ≤ length bytes.now) }
        ensures some { IfOk result (λ count. 0 < length bytes.now → 0 < count) }
        ensures content { Writes (told self.old) (told self.new) bytes.now result }
        ensures cause { HasCause (faults self.old) (faults self.new) result }
        ensures rest { same_rest self.old self.new };

    /// A sink has the same rest as itself.
    ghost rest_stays: { (sink : Self) → same_rest sink sink };

    /// What each of two calls keeps, both keep.
    ghost rest_joins: { (one two three : Self) → same_rest one two → same_rest two three → same_rest one three };
}
