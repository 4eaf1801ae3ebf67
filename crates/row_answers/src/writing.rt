//! Uses of the writer of lines, over a sink or a file one of whose calls fails.
use crate::telling::{add, bytes, done, enough, failing, split};
use ae_nums::{Item, LineWriter, Taker};
use ae_ports::{Failed, MemorySink, MemoryStore, Sink, Store, StoreSink, Word};
use row_form::{counted, not_understood, number, plain_bytes};
use std::alloc::{AllocError, Global};
use std::io;

/// Three items.
const THREE: [Item; 3] = [
    Item::Fetch(0x0001_0074),
    Item::Read {
        address: 0x0001_1000,
        size: 4,
    },
    Item::Write {
        address: 0x7fff_ffbc,
        size: 1,
    },
];

/// Their lines.
const THREE_LINES: &[u8] = b"I 00010074\nR 00011000 4\nW 7fffffbc 1\n";

/// The answer to a question of writers of lines.
pub fn writer_answer(alloc: Global, question: &str) -> io::Result<Vec<u8>> {
    let (key, rest) = split(question);
    match key {
        "sink" => sink_answer(alloc, rest),
        "file" => file_answer(alloc, rest),
        _ => Err(not_understood()),
    }
}

/// The three items so many times.
fn items_of(alloc: Global, count: u64) -> Result<Vec<Item>, AllocError> {
    let mut items = Vec::new(alloc);
    for _ in 0..count {
        items.extend_from_slice(&THREE)?;
    }
    Ok(items)
}

/// A text so many times.
fn repeated(alloc: Global, count: u64, text: &[u8]) -> Result<Vec<u8>, AllocError> {
    let mut all = Vec::new(alloc);
    for _ in 0..count {
        all.extend_from_slice(text)?;
    }
    Ok(all)
}

/// Hands items to a taker, one by one, up to the first that fails.
fn hand_all<T: Taker>(taker: &mut T, items: &[Item]) -> Result<(), Failed> {
    for item in items {
        taker.take(*item)?;
    }
    Ok(())
}

/// The text that a step writes.
fn text_of(alloc: Global, step: &str) -> io::Result<Vec<u8>> {
    let (count, what) = counted(step)?;
    match what {
        "items" => Ok(repeated(alloc, count, THREE_LINES)?),
        "item" => Ok(THREE_LINES[..11].to_vec(alloc)?),
        "finish" => Ok(Vec::new(alloc)),
        _ => Ok(repeated(alloc, count, &plain_bytes(alloc, what)?)?),
    }
}

/// Takes a step, and answers whether it was done: `COUNT*items` hands on the three items so many times, `item` the first of
/// them, `finish` finishes, and `COUNT*TEXT` writes a text so many times at once.
fn take_step<K: Sink>(
    alloc: Global,
    lines: &mut LineWriter<K>,
    step: &str,
    text: &[u8],
) -> io::Result<bool> {
    let (count, what) = counted(step)?;
    match what {
        "items" => Ok(hand_all(lines, &items_of(alloc, count)?).is_ok()),
        "item" => Ok(lines.take(THREE[0]).is_ok()),
        "finish" => Ok(lines.finish().is_ok()),
        _ if text.len() <= 4096 => Ok(lines.write(text).is_ok()),
        _ => Err(not_understood()),
    }
}

/// Takes some steps, answers whether each was done, and adds what they write to `whole`.
fn take_steps<K: Sink>(
    alloc: Global,
    lines: &mut LineWriter<K>,
    steps: &str,
    whole: &mut Vec<u8>,
) -> io::Result<Vec<u8>> {
    let mut answers = Vec::new(alloc);
    for step in steps.split(' ') {
        let text = text_of(alloc, step)?;
        let is_ok = take_step(alloc, lines, step, &text)?;
        whole.extend_from_slice(&text)?;
        add(&mut answers, done(is_ok).as_bytes())?;
    }
    Ok(answers)
}

/// How many bytes there are, and whether they are a front of the whole.
fn front_text(alloc: Global, got: &[u8], whole: &[u8]) -> io::Result<Vec<u8>> {
    let kind = if whole.starts_with(got) {
        "bytes"
    } else {
        "others"
    };
    let length = got.len();
    Ok(format!(in alloc; "{length} {kind}")?.into_bytes())
}

/// `NUMBER STEP ..`: whether each step was done by a writer over a sink whose call of this number fails, and the bytes that
/// the sink then has.
fn sink_answer(alloc: Global, rest: &str) -> io::Result<Vec<u8>> {
    let (fails, steps) = split(rest);
    let mut sink = MemorySink::new(alloc, failing(alloc, fails)?);
    let mut whole = Vec::new(alloc);
    let mut lines = LineWriter::new(&mut sink);
    let mut answers = take_steps(alloc, &mut lines, steps, &mut whole)?;
    enough(sink.starved())?;
    add(&mut answers, &front_text(alloc, sink.taken(), &whole)?)?;
    Ok(answers)
}

/// Makes a file of the lines of some items.
fn write_lines<S: Store>(store: &mut S, name: &Word, items: &[Item]) -> Result<(), Failed> {
    store.make(name)?;
    let mut sink = StoreSink::new(store, name);
    let mut lines = LineWriter::new(&mut sink);
    let handed = hand_all(&mut lines, items);
    let written = lines.finish();
    handed?;
    written
}

/// `NUMBER COUNT`: whether the three items so many times were written to a file that is made in a store whose call of this
/// number fails, and the bytes that the file then has.
fn file_answer(alloc: Global, rest: &str) -> io::Result<Vec<u8>> {
    let (fails, count) = split(rest);
    let count = number(count)?;
    let name = Word::from_bytes(alloc, b"trace")?;
    let mut store = MemoryStore::new(alloc, failing(alloc, fails)?);
    let is_ok = write_lines(&mut store, &name, &items_of(alloc, count)?).is_ok();
    enough(store.starved())?;
    let mut answers = bytes(alloc, done(is_ok))?;
    match store.file(&name) {
        Some(got) => {
            let whole = repeated(alloc, count, THREE_LINES)?;
            add(&mut answers, &front_text(alloc, got, &whole)?)?;
        }
        None => add(&mut answers, b"nothing")?,
    }
    Ok(answers)
}
