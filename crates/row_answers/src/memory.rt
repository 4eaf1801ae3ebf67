//! Reads and writes of memory.
ghost use Rattle.std.specs.Prelude.{◌≡◌};
ghost use Rattle.rv_memory.specs.Stretches.{memory_of};
ghost use Rattle.rv_memory.specs.Memory.{span, first_shut};

use crate::telling::{add, bytes, hex_or_nothing, split, words};
use row_form::{hex_bytes, not_understood, word};
use rv_memory::{Hole, Memory};
use std::alloc::Global;
use std::io;

/// The answer to a question of a memory.
pub fn memory_answer(alloc: Global, memory: &mut Memory, question: &str) -> io::Result<Vec<u8>> {
    let (key, rest) = split(question);
    match key {
        "read" => read(alloc, memory, rest),
        "write" => write(alloc, memory, rest),
        "put" => put(alloc, memory, rest),
        "words" => words_at(alloc, memory, rest),
        "region" => region(alloc, memory, word(rest)?),
        "at" => at(alloc, memory, word(rest)?),
        _ => Err(not_understood()),
    }
}

fn hole(alloc: Global, hole: Hole) -> io::Result<Vec<u8>> {
    let address = hole.address;
    Ok(format!(in alloc; "hole {address:08x}")?.into_bytes())
}

/// `ADDRESS SIZE`: the number that is read.
fn read(alloc: Global, memory: &Memory, rest: &str) -> io::Result<Vec<u8>> {
    let numbers = words(alloc, rest)?;
    let mut near = 0;
    let answer = match numbers.as_slice() {
        [address, 1] => memory.read(&mut near, *address, 1),
        [address, 2] => memory.read(&mut near, *address, 2),
        [address, 4] => memory.read(&mut near, *address, 4),
        _ => return Err(not_understood()),
    };
    match answer {
        Ok(number) => hex_or_nothing(alloc, Some(number)),
        Err(address) => hole(alloc, address),
    }
}

/// `ADDRESS SIZE VALUE`: whether it is written.
fn write(alloc: Global, memory: &mut Memory, rest: &str) -> io::Result<Vec<u8>> {
    let numbers = words(alloc, rest)?;
    let mut near = 0;
    let answer = match numbers.as_slice() {
        [address, 1, value] => memory.write(&mut near, *address, 1, *value),
        [address, 2, value] => memory.write(&mut near, *address, 2, *value),
        [address, 4, value] => memory.write(&mut near, *address, 4, *value),
        _ => return Err(not_understood()),
    };
    match answer {
        Ok(()) => bytes(alloc, "done"),
        Err(address) => hole(alloc, address),
    }
}

/// The first of some addresses that can't be written.
fn shut_among(memory: &Memory, address: u32, count: usize) -> Option<u32>
    ensures { result ≡ first_shut (memory_of memory.now) (span address count) }
{
    if count == 0 {
        None
    } else if memory.writable(address) {
        shut_among(memory, address.wrapping_add(1), count - 1)
    } else {
        Some(address)
    }
}

/// `ADDRESS HEX`: whether the bytes are put, which can be only where all can be written.
fn put(alloc: Global, memory: &mut Memory, rest: &str) -> io::Result<Vec<u8>> {
    let (digits, rest) = split(rest);
    let address = word(digits)?;
    let more = hex_bytes(alloc, rest)?;
    match shut_among(memory, address, more.len()) {
        Some(address) => Ok(format!(in alloc; "shut {address:08x}")?.into_bytes()),
        None => {
            memory.put(address, &more);
            bytes(alloc, "done")
        }
    }
}

/// `ADDRESS ..`: the words from these addresses on, each looked for first where the one before was found. A word that is
/// another when it is looked for elsewhere is told with that.
fn words_at(alloc: Global, memory: &Memory, rest: &str) -> io::Result<Vec<u8>> {
    let mut answers = Vec::new(alloc);
    let mut near = 0;
    for address in words(alloc, rest)? {
        let word = memory.word(&mut near, address);
        add(&mut answers, &hex_or_nothing(alloc, Some(word))?)?;
        let mut far = usize::MAX;
        let other = memory.word(&mut far, address);
        if other != word {
            add(&mut answers, b"or")?;
            add(&mut answers, &hex_or_nothing(alloc, Some(other))?)?;
        }
    }
    Ok(answers)
}

/// The start and the length of a region.
fn region(alloc: Global, memory: &Memory, number: u32) -> io::Result<Vec<u8>> {
    match memory.region(number) {
        Some((start, length)) => Ok(format!(in alloc; "{start:08x} {length}")?.into_bytes()),
        None => bytes(alloc, "nothing"),
    }
}

/// Whether an address can be read and written, how many bytes there are to the end of its region, and how many of them can
/// be written.
fn at(alloc: Global, memory: &Memory, address: u32) -> io::Result<Vec<u8>> {
    let readable = memory.readable(address);
    let writable = memory.writable(address);
    let count = memory.bytes_from(address).len();
    let room = memory.room_from(address);
    Ok(format!(in alloc; "{readable} {writable} {count} {room}")?.into_bytes())
}
