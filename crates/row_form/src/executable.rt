//! Executables of one shape: code from 00010074 on in a segment that maps the file's headers too, data and zeros from
//! 00011000 on in another, and a section that names the code.
use crate::numerals::number;
use crate::text::{add_hex, add_word};
use std::alloc::{AllocError, Global};
use std::io;

/// What a word of the line belongs to.
#[derive(Clone, Copy, PartialEq, Eq)]
enum Part {
    Code,
    Data,
    Zeros,
}

/// What such a file has of its own.
#[derive(Drop)]
struct Content {
    code: Vec<u8>,
    data: Vec<u8>,
    zeros: u32,
}

/// The file of a line `WORD.. data HEX.. zeros COUNT`, whose second and third part may be left out.
pub fn executable(alloc: Global, line: &str) -> io::Result<Vec<u8>> {
    let Content { code, data, zeros } = content_of(alloc, line)?;
    Ok(file_of(alloc, &code, &data, zeros)?)
}

fn content_of(alloc: Global, line: &str) -> io::Result<Content> {
    let mut code = Vec::new(alloc);
    let mut data = Vec::new(alloc);
    let mut zeros = 0;
    let mut part = Part::Code;
    for word in line.split_whitespace() {
        match (word, part) {
            ("data", _) => part = Part::Data,
            ("zeros", _) => part = Part::Zeros,
            (_, Part::Code) => add_word(&mut code, word)?,
            (_, Part::Data) => add_hex(&mut data, word)?,
            (_, Part::Zeros) => zeros = (number(word)? % (1 << 32)) as u32,
        }
    }
    Ok(Content { code, data, zeros })
}

/// A length as the file's fields have it.
fn length_of(bytes: &[u8]) -> u32 {
    (bytes.len() % (1 << 32)) as u32
}

fn file_of(alloc: Global, code: &[u8], data: &[u8], zeros: u32) -> Result<Vec<u8>, AllocError> {
    let end = length_of(code).wrapping_add(116);
    let padding = 3 - (data.len() + 3) % 4;
    let sections = end
        .wrapping_add(length_of(data))
        .wrapping_add(padding as u32);
    let mut file = Vec::new(alloc);
    push_words(&mut file, &header(sections))?;
    push_words(&mut file, &segments(end, length_of(data), zeros))?;
    file.extend_from_slice(code)?;
    file.extend_from_slice(data)?;
    file.extend_from_slice(&[0u8; 3][..padding])?;
    push_words(&mut file, &section(length_of(code)))?;
    Ok(file)
}

/// The header, by the offset of the sections.
fn header(sections: u32) -> [u32; 13] {
    [
        // the magic number, 32 bits, lowest byte first, version 1
        0x464c_457f,
        0x0001_0101,
        0,
        0,
        // an executable for RISC-V, version 1, the entry
        0x00f3_0002,
        1,
        0x0001_0074,
        // the offsets of both tables, the flags, the sizes of headers and their numbers
        52,
        sections,
        0,
        0x0020_0034,
        0x0028_0002,
        2,
    ]
}

/// The two program headers: the code, whose bytes end here, and the data.
fn segments(end: u32, length: u32, zeros: u32) -> [u32; 16] {
    [
        1,
        0,
        0x0001_0000,
        0x0001_0000,
        end,
        end,
        5,
        4096,
        1,
        end,
        0x0001_1000,
        0x0001_1000,
        length,
        length.wrapping_add(zeros),
        6,
        4,
    ]
}

/// The empty section header and that of the code.
fn section(length: u32) -> [u32; 20] {
    [
        0,
        0,
        0,
        0,
        0,
        0,
        0,
        0,
        0,
        0,
        0,
        1,
        6,
        0x0001_0074,
        116,
        length,
        0,
        0,
        4,
        0,
    ]
}

/// Adds words, the lowest byte of each first.
pub fn push_words(file: &mut Vec<u8>, words: &[u32]) -> Result<(), AllocError> {
    for word in words {
        file.extend_from_slice(&word.to_le_bytes())?;
    }
    Ok(())
}
