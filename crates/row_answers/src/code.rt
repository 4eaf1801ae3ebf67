//! What code words mean, read, write and give, and the words of instructions.
use crate::changing::changed;
use crate::telling::{decimal_or_nothing, hex_or_nothing, split, words};
use row_form::{not_understood, word};
use rv_code::{Class, Instr, class_of, decode, encode, fits, reads, result_of, target, writes};
use std::alloc::Global;
use std::io;

/// The answer to a question of code words.
pub fn code_answer(alloc: Global, question: &str) -> io::Result<Vec<u8>> {
    let (key, rest) = split(question);
    match key {
        "means" => Ok(format!(in alloc; "{:?}", decode(word(rest)?))?.into_bytes()),
        "again" => hex_or_nothing(alloc, encoded(&decode(word(rest)?))),
        "changed" => changed_word(alloc, rest),
        "bad" => hex_or_nothing(alloc, encoded(&Instr::Bad(word(rest)?))),
        "class" => Ok(format!(in alloc; "{:?}", class_of(&decode(word(rest)?)))?.into_bytes()),
        "reads" => Ok(format!(in alloc; "{:08x}", reads(&decode(word(rest)?)))?.into_bytes()),
        "writes" => decimal_or_nothing(alloc, writes(&decode(word(rest)?)).map(u64::from)),
        "target" => target_at(alloc, rest),
        "result" => result_at(alloc, rest),
        _ => Err(not_understood()),
    }
}

/// The word of an instruction that has one.
fn encoded(instr: &Instr) -> Option<u32> {
    if fits(instr) {
        Some(encode(instr))
    } else {
        None
    }
}

/// `WORD FIELD NUMBER`: the word of the instruction that a word means, with another number in a field.
fn changed_word(alloc: Global, rest: &str) -> io::Result<Vec<u8>> {
    let (digits, rest) = split(rest);
    let (field, number) = split(rest);
    let instr = decode(word(digits)?);
    match changed(instr, field, word(number)?) {
        Some(instr) => hex_or_nothing(alloc, encoded(&instr)),
        None => Err(not_understood()),
    }
}

/// `WORD ADDRESS`: the target of a word that stands at an address.
fn target_at(alloc: Global, rest: &str) -> io::Result<Vec<u8>> {
    match words(alloc, rest)?.as_slice() {
        [word, address] => hex_or_nothing(alloc, target(&decode(*word), *address)),
        _ => Err(not_understood()),
    }
}

/// `WORD ADDRESS A B`: what a word that stands at an address writes with these values of rs1 and rs2, if it is plain and
/// writes a register.
fn result_at(alloc: Global, rest: &str) -> io::Result<Vec<u8>> {
    match words(alloc, rest)?.as_slice() {
        [word, address, a, b] => hex_or_nothing(alloc, written(*word, *address, *a, *b)),
        _ => Err(not_understood()),
    }
}

fn written(word: u32, address: u32, a: u32, b: u32) -> Option<u32> {
    let instr = decode(word);
    match (class_of(&instr), writes(&instr)) {
        (Class::Plain, Some(_)) => Some(result_of(&instr, address, a, b)),
        _ => None,
    }
}
