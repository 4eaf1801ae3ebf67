//! Calls of devices in memory, one of which fails.
use crate::telling::{add, done, enough, failing, hex_text, split};
use ae_ports::{MemorySink, MemorySource, Sink, Source, SteadySource, write_all};
use row_form::{hex_bytes, not_understood, number, words_of};
use std::alloc::Global;
use std::io;

/// The most bytes that a read may ask for.
const PIECE: usize = 8;

/// The answer to a question of devices that stand alone.
pub fn device_answer(alloc: Global, question: &str) -> io::Result<Vec<u8>> {
    let (key, rest) = split(question);
    match key {
        "sink" => sink_answer(alloc, rest),
        "whole" => whole_answer(alloc, rest),
        "source" => source_answer(alloc, rest),
        "steady" => steady_answer(alloc, rest),
        _ => Err(not_understood()),
    }
}

/// Whether each piece was written.
pub fn write_pieces<K: Sink>(alloc: Global, sink: &mut K, line: &str) -> io::Result<Vec<u8>> {
    let mut answers = Vec::new(alloc);
    for piece in words_of(alloc, line)? {
        let is_ok = sink.write(&piece).is_ok();
        add(&mut answers, done(is_ok).as_bytes())?;
    }
    Ok(answers)
}

/// `NUMBER PIECE ..`: whether each piece was written to a sink whose call of this number fails, and what it took.
fn sink_answer(alloc: Global, rest: &str) -> io::Result<Vec<u8>> {
    let (fails, line) = split(rest);
    let mut sink = MemorySink::new(alloc, failing(alloc, fails)?);
    let mut answers = write_pieces(alloc, &mut sink, line)?;
    add(&mut answers, sink.taken())?;
    enough(sink.starved())?;
    Ok(answers)
}

/// `NUMBER PIECE ..`: the same, each piece written whole.
fn whole_answer(alloc: Global, rest: &str) -> io::Result<Vec<u8>> {
    let (fails, line) = split(rest);
    let mut sink = MemorySink::new(alloc, failing(alloc, fails)?);
    let mut answers = Vec::new(alloc);
    for piece in words_of(alloc, line)? {
        let is_ok = write_all(&mut sink, &piece).is_ok();
        add(&mut answers, done(is_ok).as_bytes())?;
    }
    add(&mut answers, sink.taken())?;
    enough(sink.starved())?;
    Ok(answers)
}

/// `SIZE COUNT`: how many bytes each of so many reads of at most so many bytes moved, and the bytes of the piece then,
/// which is the same in all reads and has zeros at first.
pub fn read_pieces<I: Source>(alloc: Global, source: &mut I, line: &str) -> io::Result<Vec<u8>> {
    let (size, count) = split(line);
    let size = number(size)? as usize;
    let mut piece = [0; PIECE];
    if size > PIECE {
        return Err(not_understood());
    }
    let mut answers = Vec::new(alloc);
    for _ in 0..number(count)? {
        match source.read(&mut piece[..size]) {
            Ok(moved) => add(&mut answers, format!(in alloc; "{moved}")?.as_bytes())?,
            Err(_) => add(&mut answers, b"failed")?,
        }
        add(&mut answers, &hex_text(alloc, &piece[..size])?)?;
    }
    Ok(answers)
}

/// `NUMBER HEX SIZE COUNT`: reads of a source that has these bytes, and whose call of this number fails.
fn source_answer(alloc: Global, rest: &str) -> io::Result<Vec<u8>> {
    let (fails, rest) = split(rest);
    let (digits, rest) = split(rest);
    let mut source = MemorySource::new(hex_bytes(alloc, digits)?, failing(alloc, fails)?);
    read_pieces(alloc, &mut source, rest)
}

/// `HEX SIZE COUNT`: reads of a source that has these bytes and never fails.
fn steady_answer(alloc: Global, rest: &str) -> io::Result<Vec<u8>> {
    let (digits, rest) = split(rest);
    let mut source = SteadySource::new(hex_bytes(alloc, digits)?);
    read_pieces(alloc, &mut source, rest)
}
