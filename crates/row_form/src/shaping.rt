//! Lines that add to bytes, or change them.
use crate::elf::{add_relocation, add_section, add_segments, add_symbol};
use crate::numerals::{number, word};
use crate::text::{hex_bytes, not_understood, plain_bytes, word_bytes};
use std::alloc::Global;
use std::io;

/// Adds to the bytes, or changes them, as a line with this key says, and answers whether there is such a key.
///
/// # Errors
///
/// The line isn't understood, or memory was wanting.
pub fn shape(alloc: Global, bytes: &mut Vec<u8>, key: &str, line: &str) -> io::Result<bool> {
    match key {
        "|" => add_line(alloc, bytes, line)?,
        "+" => add(bytes, &plain_bytes(alloc, line)?)?,
        "word" | "hex" => add_numbers(alloc, bytes, key, line)?,
        "zeros" => add_zeros(bytes, number(line)?)?,
        "times" => add_lines(alloc, bytes, line)?,
        "rising" => add_rising(alloc, bytes, line)?,
        "cut" => cut(bytes, line)?,
        "poke" => poke(alloc, bytes, line)?,
        "put" => put(bytes, line)?,
        _ => return add_table(bytes, key, line),
    }
    Ok(true)
}

/// Adds to a table of an ELF file.
fn add_table(bytes: &mut Vec<u8>, key: &str, line: &str) -> io::Result<bool> {
    match key {
        "segment" => add_segments(bytes, line)?,
        "section" => add_section(bytes, line)?,
        "symbol" => add_symbol(bytes, line)?,
        "relocation" => add_relocation(bytes, line)?,
        _ => return Ok(false),
    }
    Ok(true)
}

fn add(bytes: &mut Vec<u8>, more: &[u8]) -> io::Result<()> {
    bytes.extend_from_slice(more)?;
    Ok(())
}

fn add_numbers(alloc: Global, bytes: &mut Vec<u8>, key: &str, line: &str) -> io::Result<()> {
    let more = if key == "hex" {
        hex_bytes(alloc, line)?
    } else {
        word_bytes(alloc, line)?
    };
    add(bytes, &more)
}

fn add_zeros(bytes: &mut Vec<u8>, count: u64) -> io::Result<()> {
    for _ in 0..count {
        bytes.push(0)?;
    }
    Ok(())
}

/// Adds a line of text.
fn add_line(alloc: Global, bytes: &mut Vec<u8>, line: &str) -> io::Result<()> {
    add(bytes, &plain_bytes(alloc, line)?)?;
    add(bytes, b"\n")
}

/// Adds a line of text so many times: `COUNT LINE`.
fn add_lines(alloc: Global, bytes: &mut Vec<u8>, line: &str) -> io::Result<()> {
    let (count, line) = split(line)?;
    let line = plain_bytes(alloc, line)?;
    for _ in 0..number(count)? {
        add(bytes, &line)?;
        add(bytes, b"\n")?;
    }
    Ok(())
}

/// Adds a line of text so many times, where `@` stands for an address that rises from turn to turn: `COUNT FROM STEP LINE`.
fn add_rising(alloc: Global, bytes: &mut Vec<u8>, line: &str) -> io::Result<()> {
    let (count, line) = split(line)?;
    let (from, line) = split(line)?;
    let (step, line) = split(line)?;
    let step = word(step)?;
    let mut address = word(from)?;
    let line = plain_bytes(alloc, line)?;
    for _ in 0..number(count)? {
        add_with_address(alloc, bytes, &line, address)?;
        address = address.wrapping_add(step);
    }
    Ok(())
}

/// Adds a line with an address in place of each `@`.
fn add_with_address(
    alloc: Global,
    bytes: &mut Vec<u8>,
    line: &[u8],
    address: u32,
) -> io::Result<()> {
    let digits = format!(in alloc; "{address:08x}")?;
    for byte in line {
        if *byte == b'@' {
            bytes.extend_from_slice(digits.as_bytes())?;
        } else {
            bytes.push(*byte)?;
        }
    }
    add(bytes, b"\n")
}

fn split(line: &str) -> io::Result<(&str, &str)> {
    match line.split_once(' ') {
        Some(parts) => Ok(parts),
        None => Err(not_understood()),
    }
}

/// Brings the bytes to a shorter length.
fn cut(bytes: &mut Vec<u8>, line: &str) -> io::Result<()> {
    let length = number(line)?;
    if length > bytes.len() as u64 {
        return Err(not_understood());
    }
    bytes.truncate(length as usize);
    Ok(())
}

/// Makes bytes from a place on others: `PLACE HEX`.
fn poke(alloc: Global, bytes: &mut [u8], line: &str) -> io::Result<()> {
    let (place, digits) = split(line)?;
    overwrite(bytes, number(place)?, &hex_bytes(alloc, digits)?)
}

/// Puts a word at a place, lowest byte first: `PLACE WORD`.
fn put(bytes: &mut [u8], line: &str) -> io::Result<()> {
    let (place, digits) = split(line)?;
    overwrite(bytes, number(place)?, &word(digits)?.to_le_bytes())
}

fn overwrite(bytes: &mut [u8], place: u64, others: &[u8]) -> io::Result<()> {
    let place = place as usize;
    if place > bytes.len() || others.len() > bytes.len() - place {
        return Err(not_understood());
    }
    for (there, byte) in bytes.iter_mut().skip(place).zip(others) {
        *there = *byte;
    }
    Ok(())
}
