//! Calls over a store that says what size a file has and keeps none.
use crate::counting::{Counted, Counts, Device};
use crate::devices::words_of;
use crate::row::{Kind, Row};
use crate::trial::Trial;
use ae_ports::{Failed, MemorySink, SteadySource, Store, Word};
use ae_top::exit_code;
use std::alloc::{AllocError, Global};

/// A store that says the same size of each file, and gives the bytes of one that may have another. It drops what is added.
#[derive(Drop)]
struct Said<'a> {
    size: u64,
    bytes: &'a [u8],
}

impl Store for Said<'_> {
    ghost use Rattle.std.specs.Prelude.{None};

    ghost told = { λ _. None };

    ghost faults = { λ _. 0 };

    ghost same_rest = { λ _ _. Unit {0} };

    fn size(&mut self, _name: &Word) -> Result<Option<u64>, Failed> {
        Ok(Some(self.size))
    }

    fn get(&mut self, _name: &Word, from: u64, buf: &mut [u8]) -> Result<usize, Failed> {
        let place = usize::try_from(from).unwrap_or(usize::MAX);
        let rest = self.bytes.get(place..).unwrap_or(&[]);
        let count = rest.len().min(buf.len());
        buf[..count].copy_from_slice(&rest[..count]);
        Ok(count)
    }

    fn make(&mut self, _name: &Word) -> Result<(), Failed> {
        Ok(())
    }

    fn add(&mut self, _name: &Word, _bytes: &[u8]) -> Result<(), Failed> {
        Ok(())
    }

    ghost rest_stays = { λ _. tt };

    ghost rest_joins = { λ _ _ _ _ _. tt };
}

/// What came of a call.
#[derive(Drop)]
pub struct Outcome {
    pub code: u8,
    pub out: Vec<u8>,
    pub err: Vec<u8>,
}

/// Makes a call over a store that says this size, and has the bytes of the file `P`.
pub fn outcome_of(
    alloc: Global,
    row: &Row,
    trial: &Trial,
    size: u64,
    counts: &Counts,
) -> Result<Outcome, AllocError> {
    let words = words_of(alloc, trial.command)?;
    let bytes = row.file(Kind::File, b"P").unwrap_or(&[]);
    let mut store = Counted::new(Said { size, bytes }, counts, Device::Store);
    let mut input = SteadySource::new(Vec::new(alloc));
    let mut out = MemorySink::new(alloc, Vec::new(alloc));
    let mut err = MemorySink::new(alloc, Vec::new(alloc));
    let code = exit_code(alloc, &words, &mut store, &mut input, &mut out, &mut err);
    Ok(Outcome {
        code,
        out: out.taken().to_vec(alloc)?,
        err: err.taken().to_vec(alloc)?,
    })
}
