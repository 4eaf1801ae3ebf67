//! Bytes as a person writes them.
use crate::numerals::number;
use std::alloc::Global;
use std::io;
use std::io::ErrorKind;

/// The error of a line that isn't understood.
pub fn not_understood() -> io::Error {
    ErrorKind::InvalidData.into()
}

/// The bytes of a text in which `\n` stands for the end of a line, `\xHH` for the byte of this number, and `\e` for nothing.
///
/// # Errors
///
/// Something else stands behind a `\`, or memory was wanting.
pub fn plain_bytes(alloc: Global, text: &str) -> io::Result<Vec<u8>> {
    let mut bytes = Vec::new(alloc);
    for (place, part) in text.split('\\').enumerate() {
        if place == 0 {
            bytes.extend_from_slice(part.as_bytes())?;
        } else {
            add_escaped(&mut bytes, part)?;
        }
    }
    Ok(bytes)
}

/// Adds the bytes of a part that stood behind a `\`.
fn add_escaped(bytes: &mut Vec<u8>, part: &str) -> io::Result<()> {
    let (byte, rest) = escaped(part)?;
    if let Some(byte) = byte {
        bytes.push(byte)?;
    }
    bytes.extend_from_slice(rest.as_bytes())?;
    Ok(())
}

/// The byte that a part behind a `\` begins with, if one, and the rest of the part.
fn escaped(part: &str) -> io::Result<(Option<u8>, &str)> {
    if let Some(rest) = part.strip_prefix('n') {
        return Ok((Some(b'\n'), rest));
    }
    if let Some(rest) = part.strip_prefix('e') {
        return Ok((None, rest));
    }
    match (part.get(1..3), part.get(3..)) {
        (Some(digits), Some(rest)) if part.starts_with('x') => {
            match u8::from_str_radix(digits, 16) {
                Ok(byte) => Ok((Some(byte), rest)),
                Err(_) => Err(not_understood()),
            }
        }
        _ => Err(not_understood()),
    }
}

/// The words between single blanks, each with its escapes; two blanks have an empty word between them. No text has no
/// word.
///
/// # Errors
///
/// A word isn't understood, or memory was wanting.
pub fn words_of(alloc: Global, text: &str) -> io::Result<Vec<Vec<u8>>> {
    let mut words = Vec::new(alloc);
    if !text.is_empty() {
        for word in text.split(' ') {
            words.push(plain_bytes(alloc, word)?)?;
        }
    }
    Ok(words)
}

/// Splits `COUNT*REST` into the count and the rest; what has no count stands there once.
///
/// # Errors
///
/// The count is no number.
pub fn counted(item: &str) -> io::Result<(u64, &str)> {
    match item.split_once('*') {
        Some((count, rest)) => Ok((number(count)?, rest)),
        None => Ok((1, item)),
    }
}

/// Words of hexadecimal digits between blanks, the lowest byte of each first; `COUNT*WORD` is a word so many times.
///
/// # Errors
///
/// A word isn't understood, or memory was wanting.
pub fn word_bytes(alloc: Global, text: &str) -> io::Result<Vec<u8>> {
    let mut bytes = Vec::new(alloc);
    for item in text.split_whitespace() {
        add_word(&mut bytes, item)?;
    }
    Ok(bytes)
}

/// Adds the bytes of a word.
pub fn add_word(bytes: &mut Vec<u8>, item: &str) -> io::Result<()> {
    let (count, digits) = counted(item)?;
    let Ok(word) = u32::from_str_radix(digits, 16) else {
        return Err(not_understood());
    };
    for _ in 0..count {
        bytes.extend_from_slice(&word.to_le_bytes())?;
    }
    Ok(())
}

/// Bytes of two hexadecimal digits each, first byte first, with blanks at will.
///
/// # Errors
///
/// The text isn't understood, or memory was wanting.
pub fn hex_bytes(alloc: Global, text: &str) -> io::Result<Vec<u8>> {
    let mut bytes = Vec::new(alloc);
    for item in text.split_whitespace() {
        add_hex(&mut bytes, item)?;
    }
    Ok(bytes)
}

/// Adds the bytes of some digits.
pub fn add_hex(bytes: &mut Vec<u8>, digits: &str) -> io::Result<()> {
    let mut high = None;
    for digit in digits.chars() {
        let Some(value) = digit.to_digit(16) else {
            return Err(not_understood());
        };
        match high {
            None => high = Some(value),
            Some(front) => {
                let both = front.wrapping_mul(16).wrapping_add(value);
                bytes.push((both % 256) as u8)?;
                high = None;
            }
        }
    }
    match high {
        None => Ok(()),
        Some(_) => Err(not_understood()),
    }
}
