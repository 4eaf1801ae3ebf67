//! Numbers as texts and as bytes, short texts, and lines of a trace.
use crate::telling::{add, decimal_or_nothing, hex_or_nothing, hex_text, split};
use ae_nums::{
    Item, Text, decimal, hex8, item_line, put_u32, read_decimal, registers_of, take_u32,
};
use row_form::{counted, hex_bytes, not_understood, number, plain_bytes, word};
use std::alloc::Global;
use std::io;

/// The answer to a question of numbers.
pub fn number_answer(alloc: Global, question: &str) -> io::Result<Vec<u8>> {
    let (key, rest) = split(question);
    match key {
        "decimal" => decimal_text(alloc, number(rest)?),
        "read" => decimal_or_nothing(alloc, read_decimal(&plain_bytes(alloc, rest)?)),
        "hex" => Ok(hex8(word(rest)?).to_vec(alloc)?),
        "bytes" => hex_text(alloc, &put_u32(word(rest)?)),
        "word" => word_of(alloc, rest),
        "registers" => registers_in(alloc, word(rest)?),
        "text" => text_of(alloc, rest),
        _ => Ok(item_line(&item_of(key, rest)?).bytes().to_vec(alloc)?),
    }
}

fn decimal_text(alloc: Global, number: u64) -> io::Result<Vec<u8>> {
    let mut text = Text::new();
    decimal(number, &mut text);
    Ok(text.bytes().to_vec(alloc)?)
}

/// The word that four bytes are.
fn word_of(alloc: Global, digits: &str) -> io::Result<Vec<u8>> {
    match hex_bytes(alloc, digits)?.as_slice() {
        [a, b, c, d] => hex_or_nothing(alloc, Some(take_u32([*a, *b, *c, *d]))),
        _ => Err(not_understood()),
    }
}

/// The registers of a mask.
fn registers_in(alloc: Global, mask: u32) -> io::Result<Vec<u8>> {
    let mut all = Vec::new(alloc);
    for register in registers_of(mask) {
        add(&mut all, format!(in alloc; "{register}")?.as_bytes())?;
    }
    Ok(all)
}

/// The item that a question names.
fn item_of(key: &str, rest: &str) -> io::Result<Item> {
    let (address, size) = split(rest);
    let address = word(address)?;
    match key {
        "fetch" => Ok(Item::Fetch(address)),
        "load" => Ok(Item::Read {
            address,
            size: size_of(size)?,
        }),
        "store" => Ok(Item::Write {
            address,
            size: size_of(size)?,
        }),
        _ => Err(not_understood()),
    }
}

fn size_of(digits: &str) -> io::Result<u8> {
    match u8::try_from(number(digits)?) {
        Ok(size) => Ok(size),
        Err(_) => Err(not_understood()),
    }
}

/// How much room is left in a short text when pieces were pushed to it, and its bytes.
fn text_of(alloc: Global, line: &str) -> io::Result<Vec<u8>> {
    let mut text = Text::new();
    for piece in line.split(' ') {
        push_piece(alloc, &mut text, piece)?;
    }
    let mut answer = format!(in alloc; "{}", text.free())?.into_bytes();
    add(&mut answer, text.bytes())?;
    Ok(answer)
}

/// Pushes a piece, so many times if there is a count.
fn push_piece(alloc: Global, text: &mut Text, item: &str) -> io::Result<()> {
    let (count, piece) = counted(item)?;
    let mut bytes = Vec::new(alloc);
    for _ in 0..count {
        bytes.extend_from_slice(&plain_bytes(alloc, piece)?)?;
    }
    if bytes.len() > text.free() {
        return Err(not_understood());
    }
    text.push(&bytes);
    Ok(())
}
