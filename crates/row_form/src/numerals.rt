//! Numbers as a person writes them: eight digits are hexadecimal, other numbers are decimal.
use crate::text::not_understood;
use std::alloc::Global;
use std::io;

/// A number: in hexadecimal where it has eight digits, and otherwise in decimal.
///
/// # Errors
///
/// The text is no such number.
pub fn number(digits: &str) -> io::Result<u64> {
    let read = if digits.len() == 8 {
        u64::from_str_radix(digits, 16)
    } else {
        digits.parse::<u64>()
    };
    match read {
        Ok(number) => Ok(number),
        Err(_) => Err(not_understood()),
    }
}

/// A number of 32 bits. One in decimal may be negative, and stands then for its remainder modulo 2^32.
///
/// # Errors
///
/// The text is no such number.
pub fn word(digits: &str) -> io::Result<u32> {
    if let Some(rest) = digits.strip_prefix('-') {
        return Ok(0u32.wrapping_sub(word_of(number(rest)?)?));
    }
    word_of(number(digits)?)
}

fn word_of(number: u64) -> io::Result<u32> {
    match u32::try_from(number) {
        Ok(word) => Ok(word),
        Err(_) => Err(not_understood()),
    }
}

/// Numbers between blanks.
///
/// # Errors
///
/// One isn't understood, or memory was wanting.
pub fn numbers(alloc: Global, text: &str) -> io::Result<Vec<u64>> {
    let mut all = Vec::new(alloc);
    for digits in text.split_whitespace() {
        all.push(number(digits)?)?;
    }
    Ok(all)
}
