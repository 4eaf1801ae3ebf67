//! The words of answers.
use row_form::word;
use std::alloc::{AllocError, Global};
use std::io;

/// The first word of a text, and what stands behind the blank.
pub fn split(text: &str) -> (&str, &str) {
    text.split_once(' ').unwrap_or((text, ""))
}

/// The bytes of a text.
pub fn bytes(alloc: Global, text: &str) -> Result<Vec<u8>, AllocError> {
    text.as_bytes().to_vec(alloc)
}

/// Adds an answer behind those that are there, with these bytes between.
pub fn add(all: &mut Vec<u8>, between: &[u8], more: &[u8]) -> Result<(), AllocError> {
    if !all.is_empty() {
        all.extend_from_slice(between)?;
    }
    all.extend_from_slice(more)?;
    Ok(())
}

/// Words between blanks.
pub fn words(alloc: Global, text: &str) -> io::Result<Vec<u32>> {
    let mut all = Vec::new(alloc);
    for digits in text.split_whitespace() {
        all.push(word(digits)?)?;
    }
    Ok(all)
}

/// Bytes as two hexadecimal digits each.
pub fn hex_text(alloc: Global, bytes: &[u8]) -> Result<Vec<u8>, AllocError> {
    let mut text = Vec::new(alloc);
    for byte in bytes {
        text.extend_from_slice(format!(in alloc; "{byte:02x}")?.as_bytes())?;
    }
    Ok(text)
}

/// Adds words in hexadecimal, each behind a blank.
pub fn add_words(alloc: Global, text: &mut Vec<u8>, words: &[u32]) -> Result<(), AllocError> {
    for word in words {
        text.extend_from_slice(format!(in alloc; " {word:08x}")?.as_bytes())?;
    }
    Ok(())
}
