ghost use Rattle.std.specs.Prelude.{◌≡◌, None};

use crate::faults::Faults;
use crate::retry::write_some;
use ae_ports::{Failed, Sink};
use std::io::Write;
use std::marker::Model;

/// A sink over a writer of the system, as the standard output and the standard error.
///
/// It tells nothing of the bytes taken. A contract sees it as its count of faults. It holds no bytes back.
#[derive(Drop)]
pub struct StdSink<W> {
    writer: W,
    faults: Faults,
}

impl<W> Model for StdSink<W> {
    ghost use Rattle.std.specs.Prelude.{ℕ};

    ghost Value = { ℕ };

    ghost view = { λ sink. sink.faults };
}

impl<W: Write> StdSink<W> {
    /// A sink that writes to `writer` and had no fault.
    pub fn new(writer: W) -> StdSink<W>
        ensures { result ≡ 0 }
    {
        StdSink {
            writer,
            faults: Faults::none(),
        }
    }

    /// How many faults there were so far.
    pub fn faults(&self) -> u64
        ensures { result ≡ self.now }
    {
        self.faults.count()
    }
}

impl<W: Write> Sink for StdSink<W> {
    ghost told = { λ _. None };

    ghost faults = { λ sink. sink };

    ghost same_rest = { λ _ _. Unit {0} };

    fn write(&mut self, bytes: &[u8]) -> Result<usize, Failed> {
        let answer = write_some(&mut self.writer, bytes);
        self.faults.judge(answer)
    }

    ghost rest_stays = { λ _. tt };

    ghost rest_joins = { λ _ _ _ _ _. tt };
}
