//! A sink over a writer and a source over a reader.
use crate::telling::{DASHES, bytes, decimal, moved, moved_into, size_of};
use ae_devices::{StdSink, StdSource};
use ae_ports::{Sink, Source};
use row_form::{not_understood, plain_bytes};
use std::alloc::Global;
use std::io;
use std::io::{Read, Write};

/// The sink and the source of a row, where they are open.
#[derive(Drop)]
pub struct Streams<W, R> {
    pub sink: Option<StdSink<W>>,
    pub source: Option<StdSource<R>>,
}

impl<W: Write + Drop, R: Read> Streams<W, R> {
    /// The answer to a question of streams.
    pub fn answer(&mut self, alloc: Global, key: &str, rest: &str) -> io::Result<Vec<u8>> {
        match (key, rest) {
            ("write", _) => self.write(alloc, rest),
            ("read", _) => self.read(alloc, rest),
            ("shut", "") => self.shut(alloc),
            ("faults", "sink") => self.sink_faults(alloc),
            ("faults", "source") => self.source_faults(alloc),
            _ => Err(not_understood()),
        }
    }

    /// `TEXT`: how many of these bytes the sink took.
    fn write(&mut self, alloc: Global, text: &str) -> io::Result<Vec<u8>> {
        let Some(sink) = &mut self.sink else {
            return Err(not_understood());
        };
        let piece = plain_bytes(alloc, text)?;
        moved(alloc, sink.write(&piece))
    }

    /// `SIZE`: how many bytes the source gave where at most so many are asked for, and the piece then.
    fn read(&mut self, alloc: Global, digits: &str) -> io::Result<Vec<u8>> {
        let Some(source) = &mut self.source else {
            return Err(not_understood());
        };
        let size = size_of(digits)?;
        let mut room = DASHES;
        let answer = source.read(&mut room[..size]);
        moved_into(alloc, answer, &room[..size])
    }

    /// The sink is closed.
    fn shut(&mut self, alloc: Global) -> io::Result<Vec<u8>> {
        self.sink = None;
        bytes(alloc, "done")
    }

    fn sink_faults(&self, alloc: Global) -> io::Result<Vec<u8>> {
        match &self.sink {
            Some(sink) => Ok(decimal(alloc, sink.faults())?),
            None => Err(not_understood()),
        }
    }

    fn source_faults(&self, alloc: Global) -> io::Result<Vec<u8>> {
        match &self.source {
            Some(source) => Ok(decimal(alloc, source.faults())?),
            None => Err(not_understood()),
        }
    }
}
