//! Calls of a store in memory, one of which fails, and of the source and the sink that it is lent to.
ghost use Rattle.std.specs.Prelude.{IfOk, IsSome};
ghost use Rattle.ae_ports.specs.Files.{IsThere};
ghost use Rattle.ae_ports.specs.Named.{file_named};

use crate::devices::{read_pieces, write_pieces};
use crate::telling::{add, bytes, done, enough, failing, hex_text, split};
use ae_ports::{Failed, MemoryStore, Store, StoreSink, StoreSource, Word, write_file};
use row_form::{hex_bytes, not_understood, plain_bytes};
use std::alloc::{AllocError, Global};
use std::io;

/// The answer to a question of a store.
pub fn lent_answer(alloc: Global, question: &str) -> io::Result<Vec<u8>> {
    let (key, rest) = split(question);
    match key {
        "sink" => sink_answer(alloc, rest),
        "source" => source_answer(alloc, rest),
        "calls" => calls_answer(alloc, rest),
        "new" => new_answer(alloc, rest),
        "file" => file_answer(alloc, rest),
        _ => Err(not_understood()),
    }
}

/// A store with the file `a` of these bytes, whose calls of these numbers fail.
fn one_file(
    alloc: Global,
    fails: Vec<u64>,
    a: Word,
    bytes: Vec<u8>,
) -> Result<MemoryStore, AllocError>
    ensures { IfOk result (λ store. IsSome (file_named store.files a)) }
{
    let mut store = MemoryStore::new(alloc, fails);
    store.put(a, bytes)?;
    Ok(store)
}

/// The bytes of a file of the store, in hexadecimal, or `nothing`.
fn file_text(alloc: Global, store: &MemoryStore, name: &Word) -> io::Result<Vec<u8>> {
    enough(store.starved())?;
    match store.file(name) {
        Some([]) => bytes(alloc, "empty"),
        Some(got) => hex_text(alloc, got),
        None => bytes(alloc, "nothing"),
    }
}

fn written<S: Store>(alloc: Global, store: &mut S, name: &Word, line: &str) -> io::Result<Vec<u8>>
    requires { IsThere (S.told store.old) name.now }
{
    let mut sink = StoreSink::new(store, name);
    write_pieces(alloc, &mut sink, line)
}

/// `NUMBER PIECE ..`: whether each piece was written to an empty file of a store whose call of this number fails, and what
/// the file then has.
fn sink_answer(alloc: Global, rest: &str) -> io::Result<Vec<u8>> {
    let (fails, line) = split(rest);
    let a = Word::from_bytes(alloc, b"a")?;
    let mut store = one_file(
        alloc,
        failing(alloc, fails)?,
        Word::from_bytes(alloc, b"a")?,
        Vec::new(alloc),
    )?;
    let mut answers = written(alloc, &mut store, &a, line)?;
    add(&mut answers, &file_text(alloc, &store, &a)?)?;
    Ok(answers)
}

fn read<S: Store>(alloc: Global, store: &mut S, name: &Word, line: &str) -> io::Result<Vec<u8>>
    requires { IsThere (S.told store.old) name.now }
{
    let mut source = StoreSource::new(store, name);
    read_pieces(alloc, &mut source, line)
}

/// `NUMBER HEX SIZE COUNT`: reads of a file that has these bytes, of a store whose call of this number fails.
fn source_answer(alloc: Global, rest: &str) -> io::Result<Vec<u8>> {
    let (fails, rest) = split(rest);
    let (digits, rest) = split(rest);
    let a = Word::from_bytes(alloc, b"a")?;
    let bytes = hex_bytes(alloc, digits)?;
    let mut store = one_file(
        alloc,
        failing(alloc, fails)?,
        Word::from_bytes(alloc, b"a")?,
        bytes,
    )?;
    read(alloc, &mut store, &a, rest)
}

/// Asks for the size of `a`, reads it from its second byte on, adds the byte 4 to it and makes `b`.
fn four_calls(store: &mut MemoryStore, a: &Word, b: &Word) -> [bool; 4]
    requires { IsSome (file_named store.old.files a.now) }
{
    let mut buf = [0; 2];
    let size = store.size(a);
    let got = store.get(a, 1, &mut buf);
    let added = store.add(a, &[4]);
    let made = store.make(b);
    [size.is_ok(), got.is_ok(), added.is_ok(), made.is_ok()]
}

/// A store with the file `b` of the byte 9 and the file `a` of the bytes 1 2 3, whose calls of these numbers fail.
fn two_files(alloc: Global, fails: Vec<u64>, b: Word, a: Word) -> Result<MemoryStore, AllocError>
    ensures { IfOk result (λ store. IsSome (file_named store.files a)) }
{
    let mut store = one_file(alloc, fails, b, [9].to_vec(alloc)?)?;
    store.put(a, [1, 2, 3].to_vec(alloc)?)?;
    Ok(store)
}

/// Such a store after the four calls, and which of these were done.
fn after_calls(alloc: Global, fails: Vec<u64>) -> Result<(MemoryStore, [bool; 4]), AllocError> {
    let a = Word::from_bytes(alloc, b"a")?;
    let b = Word::from_bytes(alloc, b"b")?;
    let mut store = two_files(
        alloc,
        fails,
        Word::from_bytes(alloc, b"b")?,
        Word::from_bytes(alloc, b"a")?,
    )?;
    let done = four_calls(&mut store, &a, &b);
    Ok((store, done))
}

/// `NUMBER`: which of the four calls are done where the call of this number fails, and what `a` and `b` then have.
fn calls_answer(alloc: Global, fails: &str) -> io::Result<Vec<u8>> {
    let (store, calls) = after_calls(alloc, failing(alloc, fails)?)?;
    let mut answers = Vec::new(alloc);
    for is_ok in calls {
        add(&mut answers, done(is_ok).as_bytes())?;
    }
    for name in [b"a", b"b"] {
        let name = Word::from_bytes(alloc, name)?;
        add(&mut answers, &file_text(alloc, &store, &name)?)?;
    }
    Ok(answers)
}

/// Makes a file, adds bytes to it, reads from its fifth byte on and asks for its size.
fn fill<S: Store>(
    store: &mut S,
    name: &Word,
    bytes: &[u8],
) -> Result<(usize, Option<u64>), Failed> {
    let mut buf = [0; 2];
    store.make(name)?;
    store.add(name, bytes)?;
    let count = store.get(name, 4, &mut buf)?;
    Ok((count, store.size(name)?))
}

/// `NAME TEXT`: a file of an empty store; the file that is made with these bytes, and its name; the size that it had before, how
/// many bytes are read from the fifth on, at most two, and its size.
fn new_answer(alloc: Global, rest: &str) -> io::Result<Vec<u8>> {
    let (name, text) = split(rest);
    let name = Word::from_bytes(alloc, &plain_bytes(alloc, name)?)?;
    let mut store = MemoryStore::new(alloc, Vec::new(alloc));
    let mut answers = file_text(alloc, &store, &name)?;
    let before = store.size(&name);
    let filled = fill(&mut store, &name, &plain_bytes(alloc, text)?);
    add(&mut answers, &file_text(alloc, &store, &name)?)?;
    add(&mut answers, name.bytes())?;
    match (before, filled) {
        (Ok(before), Ok((count, size))) => {
            let sizes = format!(in alloc; "{before:?} {count} {size:?}")?;
            add(&mut answers, sizes.as_bytes())?;
            Ok(answers)
        }
        _ => bytes(alloc, "failed"),
    }
}

/// `NUMBER OLD NEW`: whether a file was written anew in a store whose call of this number fails, and what it then has.
fn file_answer(alloc: Global, rest: &str) -> io::Result<Vec<u8>> {
    let (fails, rest) = split(rest);
    let (old, new) = split(rest);
    let a = Word::from_bytes(alloc, b"a")?;
    let old = plain_bytes(alloc, old)?;
    let new = plain_bytes(alloc, new)?;
    let mut store = one_file(
        alloc,
        failing(alloc, fails)?,
        Word::from_bytes(alloc, b"a")?,
        old,
    )?;
    let is_ok = write_file(&mut store, &a, &new).is_ok();
    let mut answers = bytes(alloc, done(is_ok))?;
    add(&mut answers, &file_text(alloc, &store, &a)?)?;
    Ok(answers)
}
