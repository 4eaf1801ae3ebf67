ghost use Rattle.std.specs.Prelude.{◌≡◌, ◌+◌, ◌-◌, ◌^◌, min, IsErr, MatchResult};
ghost use Rattle.ae_ports.specs.Fault.{HasCause};

use ae_ports::Failed;
use std::io;
use std::marker::Model;

/// How many faults a device had so far. At the largest `u64` the count stands still.
#[derive(Debug, Drop)]
pub struct Faults {
    so_far: u64,
}

impl Model for Faults {
    ghost use Rattle.std.specs.Prelude.{ℕ};

    ghost Value = { ℕ };

    ghost view = { λ faults. faults.so_far };
}

impl Faults {
    /// No fault so far.
    pub fn none() -> Faults
        ensures { result ≡ 0 }
    {
        Faults { so_far: 0 }
    }

    /// The count.
    pub fn count(&self) -> u64
        ensures { result ≡ self.now }
    {
        self.so_far
    }

    /// Turns what the system answered into what a device answers. An error is one fault more.
    pub fn judge<T>(&mut self, answer: io::Result<T>) -> Result<T, Failed>
        ensures answer { MatchResult answer (λ value. result ≡ Ok value) (λ _. IsErr result) }
        ensures count { MatchResult answer (λ _. self.new ≡ self.old) (λ _. self.new ≡ min (self.old + 1) (2 ^ 64 - 1)) }
        ensures cause { HasCause self.old self.new result }
    {
        match answer {
            Ok(value) => Ok(value),
            Err(_) => {
                self.so_far = self.so_far.saturating_add(1);
                Err(Failed)
            }
        }
    }
}
