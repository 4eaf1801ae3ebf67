//! Records of event files that a source gives in pieces, and records that are written.
ghost use Rattle.std.specs.Prelude.{◌≡◌, ◌%◌, IfSome};
ghost use Rattle.ev_format.specs.Spelling.{address_in};

use crate::pieces::Pieces;
use crate::telling::{add, add_words, bytes, hex_text, split, words};
use crate::two_words::TwoWords;
use ae_ports::MemorySink;
use ev_format::{EventFault, Next, Record, Records, Shape, Values, put_record};
use row_form::{not_understood, number, word};
use std::alloc::{AllocError, Global};
use std::io;

/// `SIZE COUNT`: what so many calls of a reader of events answer, over a source that gives these bytes in pieces of at most this
/// size.
pub fn records_answer(alloc: Global, file: &[u8], rest: &str) -> io::Result<Vec<u8>> {
    let (size, count) = split(rest);
    let size = number(size)? as usize;
    let count = number(count)?;
    if size == 0 {
        return Err(not_understood());
    }
    let mut source = Pieces::new(file.to_vec(alloc)?, size);
    Ok(answers(alloc, &mut source, count)?)
}

/// `SIZE`: how many records a reader gives of such a source, and why there are no more.
pub fn count_answer(alloc: Global, file: &[u8], rest: &str) -> io::Result<Vec<u8>> {
    let size = number(rest)? as usize;
    if size == 0 {
        return Err(not_understood());
    }
    let mut source = Pieces::new(file.to_vec(alloc)?, size);
    let mut records = Records::start();
    let count = count_of(&mut records, &mut source, file.len());
    let mut text = format!(in alloc; "{count} ")?.into_bytes();
    text.extend_from_slice(&next_text(alloc, &records.next(&TwoWords, &mut source))?)?;
    Ok(text)
}

/// How many records are next, of so many at most.
fn count_of(records: &mut Records, source: &mut Pieces, limit: usize) -> usize {
    for count in 0..limit {
        let Ok(Next::Whole { .. }) = records.next(&TwoWords, source) else {
            return count;
        };
    }
    limit
}

fn answers(alloc: Global, source: &mut Pieces, count: u64) -> Result<Vec<u8>, AllocError> {
    let mut records = Records::start();
    let mut text = Vec::new(alloc);
    for _ in 0..count {
        let next = records.next(&TwoWords, source);
        add(&mut text, b", ", &next_text(alloc, &next)?)?;
    }
    Ok(text)
}

/// A record behind its offset, or why there is none.
fn next_text(alloc: Global, next: &Result<Next, EventFault>) -> Result<Vec<u8>, AllocError> {
    match next {
        Ok(Next::Whole { offset, rec }) => {
            let mut text = format!(in alloc; "{offset} ")?.into_bytes();
            text.extend_from_slice(&record_text(alloc, rec)?)?;
            Ok(text)
        }
        Ok(Next::Cut) => bytes(alloc, "cut"),
        Ok(Next::Finished) => bytes(alloc, "finished"),
        Err(fault) => Ok(format!(in alloc; "{fault:?}")?.into_bytes()),
    }
}

fn record_text(alloc: Global, rec: &Record) -> Result<Vec<u8>, AllocError> {
    match rec {
        Record::Fall(at) => with_words(alloc, "fall", &[*at], &[]),
        Record::Taken(at) => with_words(alloc, "taken", &[*at], &[]),
        Record::Value { at, value } => with_words(alloc, "value", &[*at, *value], &[]),
        Record::Landing { at, target, values } => {
            with_words(alloc, "landing", &[*at, *target], values.words())
        }
        Record::End { at, kind, detail } => with_words(alloc, "end", &[*at, *kind, *detail], &[]),
    }
}

fn with_words(
    alloc: Global,
    kind: &str,
    first: &[u32],
    others: &[u32],
) -> Result<Vec<u8>, AllocError> {
    let mut text = bytes(alloc, kind)?;
    add_words(alloc, &mut text, first)?;
    add_words(alloc, &mut text, others)?;
    Ok(text)
}

/// `KIND WORD .., KIND WORD ..`: the bytes of these records, one behind the other.
pub fn put_answer(alloc: Global, rest: &str) -> io::Result<Vec<u8>> {
    let mut sink = MemorySink::new(alloc, Vec::new(alloc));
    for item in rest.split(", ") {
        put_item(alloc, &mut sink, item)?;
    }
    Ok(hex_text(alloc, sink.taken())?)
}

fn put_item(alloc: Global, sink: &mut MemorySink, item: &str) -> io::Result<()> {
    let (kind, rest) = split(item);
    let words = words(alloc, rest)?;
    match record_of(kind, &words) {
        Some(rec) if put_record(&rec, sink).is_ok() => Ok(()),
        _ => Err(not_understood()),
    }
}

/// The record of a kind with these words, whose first is the address of a code word.
fn record_of(kind: &str, words: &[u32]) -> Option<Record>
    ensures { IfSome result (λ rec. address_in rec % 4 ≡ 0) }
{
    match (kind, words) {
        ("fall", [at]) if *at % 4 == 0 => Some(Record::Fall(*at)),
        ("taken", [at]) if *at % 4 == 0 => Some(Record::Taken(*at)),
        ("value", [at, value]) if *at % 4 == 0 => Some(Record::Value {
            at: *at,
            value: *value,
        }),
        ("landing", [at, target, values @ ..]) if *at % 4 == 0 => Some(Record::Landing {
            at: *at,
            target: *target,
            values: values_of(values)?,
        }),
        ("end", [at, kind, detail]) if *at % 4 == 0 => Some(Record::End {
            at: *at,
            kind: *kind,
            detail: *detail,
        }),
        _ => None,
    }
}

/// The values of a landing, `None` where there are more than it may have.
fn values_of(words: &[u32]) -> Option<Values> {
    let mut values = Values::new();
    for word in words {
        if values.words().len() == 31 {
            return None;
        }
        values.push(*word);
    }
    Some(values)
}

/// Whether the edge by which the word at an address falls is recorded, as a shape says that is passed by its trait.
pub fn falls_answer(alloc: Global, rest: &str) -> io::Result<Vec<u8>> {
    let answer = if falls(&TwoWords, word(rest)?) {
        "true"
    } else {
        "false"
    };
    Ok(bytes(alloc, answer)?)
}

fn falls(shape: &dyn Shape, address: u32) -> bool {
    shape.slot(address).fall
}
