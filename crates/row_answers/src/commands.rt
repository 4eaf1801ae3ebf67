//! What command words spell.
use crate::telling::bytes;
use ae_ports::Word;
use ae_words::read_words;
use row_form::words_of;
use std::alloc::Global;
use std::io;

/// The command that words spell, as its type shows it, or `nothing`.
pub fn command_answer(alloc: Global, line: &str) -> io::Result<Vec<u8>> {
    let mut words = Vec::new(alloc);
    for word in words_of(alloc, line)? {
        words.push(Word::from_bytes(alloc, &word)?)?;
    }
    match read_words(&words) {
        Some(command) => Ok(format!(in alloc; "{command:?}")?.into_bytes()),
        None => bytes(alloc, "nothing"),
    }
}
