//! Devices over files.
use crate::asking::Asked;
use crate::streams::Streams;
use crate::telling::{DASHES, bytes, decimal, done, moved_into, size_of, split};
use ae_devices::{FileStore, StdSink, StdSource};
use ae_ports::{Failed, Store, Word};
use row_form::{not_understood, number, plain_bytes, word};
use std::alloc::Global;
use std::fs::Files;
use std::{fs, io};

/// A store over the files of a system, and a sink and a source over files of it that were opened.
#[derive(Drop)]
pub struct Filed<R: Files> {
    system: R,
    store: FileStore<R>,
    streams: Streams<R::File, R::File>,
}

impl<R: Files + Copy> Filed<R> {
    /// Devices over a system, where no sink and no source is open.
    pub fn new(alloc: Global, system: R) -> Filed<R> {
        Filed {
            system,
            store: FileStore::new(alloc, system),
            streams: Streams {
                sink: None,
                source: None,
            },
        }
    }

    /// Opens a file as the sink, which it empties, or as the source.
    fn open(&mut self, alloc: Global, key: &str, path: &str) -> io::Result<Vec<u8>> {
        if key == "sink" {
            let file = fs::create(&self.system, path)?;
            self.streams.sink = Some(StdSink::new(file));
        } else {
            let file = fs::open(&self.system, path)?;
            self.streams.source = Some(StdSource::new(file));
        }
        bytes(alloc, "done")
    }
}

impl<R: Files + Copy> Asked for Filed<R> {
    fn answer(&mut self, alloc: Global, question: &str) -> io::Result<Vec<u8>> {
        let (key, rest) = split(question);
        match (key, rest) {
            ("size" | "get" | "make" | "add", _) => {
                store_answer(alloc, &mut self.store, key, rest)
            }
            ("turns" | "passes", _) => turns_answer(alloc, &mut self.store, key, rest),
            ("faults", "store") => Ok(decimal(alloc, self.store.faults())?),
            ("sink" | "source", _) => self.open(alloc, key, rest),
            _ => self.streams.answer(alloc, key, rest),
        }
    }
}

/// A name as a row has it.
fn name_of(alloc: Global, text: &str) -> io::Result<Word> {
    Ok(Word::from_bytes(alloc, &plain_bytes(alloc, text)?)?)
}

/// The answer to one call of the store, on the file that comes first behind the call's name.
fn store_answer<R: Files>(
    alloc: Global,
    store: &mut FileStore<R>,
    key: &str,
    rest: &str,
) -> io::Result<Vec<u8>> {
    let (text, rest) = split(rest);
    let name = name_of(alloc, text)?;
    match key {
        "size" => size_text(alloc, store.size(&name)),
        "get" => get_answer(alloc, store, &name, rest),
        "make" => done(alloc, store.make(&name).is_ok()),
        "add" => add_answer(alloc, store, &name, rest),
        _ => Err(not_understood()),
    }
}

fn size_text(alloc: Global, answer: Result<Option<u64>, Failed>) -> io::Result<Vec<u8>> {
    match answer {
        Ok(Some(length)) => Ok(decimal(alloc, length)?),
        Ok(None) => bytes(alloc, "nothing"),
        Err(Failed) => bytes(alloc, "failed"),
    }
}

/// `FROM SIZE`: how many bytes were got from an offset on where at most so many are asked for, and the piece then.
fn get_answer<R: Files>(
    alloc: Global,
    store: &mut FileStore<R>,
    name: &Word,
    rest: &str,
) -> io::Result<Vec<u8>> {
    let (from, size) = split(rest);
    let from = number(from)?;
    let size = size_of(size)?;
    let mut room = DASHES;
    let answer = store.get(name, from, &mut room[..size]);
    moved_into(alloc, answer, &room[..size])
}

fn add_answer<R: Files>(
    alloc: Global,
    store: &mut FileStore<R>,
    name: &Word,
    text: &str,
) -> io::Result<Vec<u8>> {
    let piece = plain_bytes(alloc, text)?;
    done(alloc, store.add(name, &piece).is_ok())
}

/// `COUNT ONE OTHER`: in how many of so many turns all went well on two files.
fn turns_answer<R: Files>(
    alloc: Global,
    store: &mut FileStore<R>,
    key: &str,
    rest: &str,
) -> io::Result<Vec<u8>> {
    let (count, rest) = split(rest);
    let count = word(count)?;
    let (one, other) = split(rest);
    let one = name_of(alloc, one)?;
    let other = name_of(alloc, other)?;
    let right = if key == "turns" {
        right_turns(store, &one, &other, count)
    } else {
        right_passes(store, &one, &other, count)
    };
    Ok(decimal(alloc, right)?)
}

fn right_turns<R: Files>(store: &mut FileStore<R>, one: &Word, two: &Word, count: u32) -> u64 {
    let mut right: u64 = 0;
    for turn in 0..count {
        if grows(store, one, two, turn) {
            right = right.saturating_add(1);
        }
    }
    right
}

/// Adds the number of the turn to one file and a byte to another, and tells whether both grew and the number can be read.
fn grows<R: Files>(store: &mut FileStore<R>, one: &Word, two: &Word, turn: u32) -> bool {
    let piece = turn.to_le_bytes();
    let mut got = [7u8; 4];
    let from = u64::from(turn) * 4;
    store.add(one, &piece) == Ok(())
        && store.add(two, b".") == Ok(())
        && store.size(one) == Ok(Some(from + 4))
        && store.size(two) == Ok(Some(u64::from(turn) + 1))
        && store.get(one, from, &mut got) == Ok(4)
        && got == piece
}

fn right_passes<R: Files>(store: &mut FileStore<R>, from: &Word, to: &Word, count: u32) -> u64 {
    let mut right: u64 = 0;
    for turn in 0..count {
        if passes(store, from, to, u64::from(turn)) {
            right = right.saturating_add(1);
        }
    }
    right
}

/// Adds the byte at an offset of one file to another, and tells whether there was one that was added.
fn passes<R: Files>(store: &mut FileStore<R>, from: &Word, to: &Word, offset: u64) -> bool {
    let mut byte = [0u8];
    store.get(from, offset, &mut byte) == Ok(1) && store.add(to, &byte).is_ok()
}
