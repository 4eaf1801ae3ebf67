//! Devices over the two ends of a pipe.
use crate::asking::Asked;
use crate::streams::Streams;
use crate::telling::split;
use ae_devices::{StdSink, StdSource};
use std::alloc::Global;
use std::io;
use std::io::{PipeReader, PipeWriter};

/// A sink into a pipe, and a source out of it.
#[derive(Drop)]
pub struct Piped {
    streams: Streams<PipeWriter, PipeReader>,
}

impl Piped {
    /// Both ends of a new pipe.
    pub fn new(rt: &HostRuntime) -> io::Result<Piped> {
        let (reader, writer) = io::pipe(rt)?;
        Ok(Piped {
            streams: Streams {
                sink: Some(StdSink::new(writer)),
                source: Some(StdSource::new(reader)),
            },
        })
    }
}

impl Asked for Piped {
    fn answer(&mut self, alloc: Global, question: &str) -> io::Result<Vec<u8>> {
        let (key, rest) = split(question);
        self.streams.answer(alloc, key, rest)
    }
}
