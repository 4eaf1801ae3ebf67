ghost use Rattle.std.specs.Prelude.{None};

use ae_ports::{Failed, Source, SteadySource};

/// A source that gives at most so many bytes at a time, and doesn't tell which.
#[derive(Drop)]
pub struct Pieces {
    source: SteadySource,
    size: usize,
}

impl Pieces {
    /// A source of these bytes, in pieces of at most this size, which isn't 0.
    pub fn new(bytes: Vec<u8>, size: usize) -> Pieces {
        Pieces {
            source: SteadySource::new(bytes),
            size,
        }
    }
}

impl Source for Pieces {
    ghost told = { λ _. None };

    ghost faults = { λ _. 0 };

    ghost same_rest = { λ _ _. Unit {0} };

    fn read(&mut self, buf: &mut [u8]) -> Result<usize, Failed> {
        let size = self.size.min(buf.len());
        self.source.read(&mut buf[..size])
    }

    ghost rest_stays = { λ _. tt };

    ghost rest_joins = { λ _ _ _ _ _. tt };
}
