ghost use Rattle.std.specs.Prelude.{None};

use crate::{Failed, Sink};

/// A sink that takes everything and keeps nothing. It never fails, and tells nothing.
#[derive(Clone, Copy, Debug, PartialEq, Eq)]
pub struct Dropped;

impl Sink for Dropped {
    ghost told = { λ _. None };

    ghost faults = { λ _. 0 };

    ghost same_rest = { λ _ _. Unit {0} };

    ghost rest_stays = { λ _. tt };

    ghost rest_joins = { λ _ _ _ _ _. tt };

    fn write(&mut self, bytes: &[u8]) -> Result<usize, Failed> {
        Ok(bytes.len())
    }
}
