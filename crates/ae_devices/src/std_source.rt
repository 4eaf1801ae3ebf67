ghost use Rattle.std.specs.Prelude.{◌≡◌, None};

use crate::faults::Faults;
use crate::retry::read_once;
use ae_ports::{Failed, Source};
use std::io::Read;
use std::marker::Model;

/// A source over a reader of the system, as the standard input.
///
/// It tells nothing of the bytes left. A contract sees it as its count of faults. Nothing is read ahead: what a program
/// didn't take is left to the next reader.
#[derive(Drop)]
pub struct StdSource<R> {
    reader: R,
    faults: Faults,
}

impl<R> Model for StdSource<R> {
    ghost use Rattle.std.specs.Prelude.{ℕ};

    ghost Value = { ℕ };

    ghost view = { λ source. source.faults };
}

impl<R: Read> StdSource<R> {
    /// A source that reads from `reader` and had no fault.
    pub fn new(reader: R) -> StdSource<R>
        ensures { result ≡ 0 }
    {
        StdSource {
            reader,
            faults: Faults::none(),
        }
    }

    /// How many faults there were so far.
    pub fn faults(&self) -> u64
        ensures { result ≡ self.now }
    {
        self.faults.count()
    }
}

impl<R: Read> Source for StdSource<R> {
    ghost told = { λ _. None };

    ghost faults = { λ source. source };

    ghost same_rest = { λ _ _. Unit {0} };

    fn read(&mut self, buf: &mut [u8]) -> Result<usize, Failed> {
        let answer = read_once(&mut self.reader, buf);
        self.faults.judge(answer)
    }

    ghost rest_stays = { λ _. tt };

    ghost rest_joins = { λ _ _ _ _ _. tt };
}
