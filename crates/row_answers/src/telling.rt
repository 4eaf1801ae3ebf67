//! The words of answers.
use row_form::{not_understood, number, word};
use std::alloc::{AllocError, Global};
use std::io;

/// The answer where there is nothing.
const NOTHING: &str = "nothing";

/// The first word of a text, and what stands behind the blank.
pub fn split(text: &str) -> (&str, &str) {
    text.split_once(' ').unwrap_or((text, ""))
}

/// Whether a call was done or failed.
pub fn done(is_ok: bool) -> &'static str {
    if is_ok { "done" } else { "failed" }
}

/// The bytes of a text.
pub fn bytes(alloc: Global, text: &str) -> io::Result<Vec<u8>> {
    Ok(text.as_bytes().to_vec(alloc)?)
}

/// A number in decimal, or `nothing`.
pub fn decimal_or_nothing(alloc: Global, number: Option<u64>) -> io::Result<Vec<u8>> {
    match number {
        Some(number) => Ok(format!(in alloc; "{number}")?.into_bytes()),
        None => bytes(alloc, NOTHING),
    }
}

/// A word in hexadecimal, or `nothing`.
pub fn hex_or_nothing(alloc: Global, word: Option<u32>) -> io::Result<Vec<u8>> {
    match word {
        Some(word) => Ok(format!(in alloc; "{word:08x}")?.into_bytes()),
        None => bytes(alloc, NOTHING),
    }
}

/// Adds an answer behind those that are there, with a blank between.
pub fn add(all: &mut Vec<u8>, more: &[u8]) -> Result<(), AllocError> {
    if !all.is_empty() {
        all.push(b' ')?;
    }
    all.extend_from_slice(more)?;
    Ok(())
}

/// Bytes as two hexadecimal digits each.
pub fn hex_text(alloc: Global, bytes: &[u8]) -> io::Result<Vec<u8>> {
    let mut text = Vec::new(alloc);
    for byte in bytes {
        text.extend_from_slice(format!(in alloc; "{byte:02x}")?.as_bytes())?;
    }
    Ok(text)
}

/// Words between blanks.
pub fn words(alloc: Global, text: &str) -> io::Result<Vec<u32>> {
    let mut all = Vec::new(alloc);
    for digits in text.split_whitespace() {
        all.push(word(digits)?)?;
    }
    Ok(all)
}

/// The number of the call that fails, in a list of its own.
pub fn failing(alloc: Global, digits: &str) -> io::Result<Vec<u64>> {
    let mut calls = Vec::new(alloc);
    calls.push(number(digits)?)?;
    Ok(calls)
}

/// The error of a device that wanted memory.
pub fn enough(starved: u64) -> io::Result<()> {
    if starved == 0 {
        Ok(())
    } else {
        Err(not_understood())
    }
}
