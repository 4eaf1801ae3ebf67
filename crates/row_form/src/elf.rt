//! Files of other shapes: a header, and what the lines behind it add, in their order.
use crate::executable::push_words;
use crate::fields::Fields;
use std::alloc::Global;
use std::io;

/// The header's 52 bytes, for a line of the fields `entry` and `flags`. Its tables have no headers yet.
pub fn header(alloc: Global, line: &str) -> io::Result<Vec<u8>> {
    let fields = Fields::new(line, &["entry", "flags"])?;
    let mut file = Vec::new(alloc);
    push_words(&mut file, &[0x464c_457f, 0x0001_0101, 0, 0, 0x00f3_0002, 1])?;
    push_words(&mut file, &[fields.get("entry", 0)?, 0, 0])?;
    push_words(&mut file, &[fields.get("flags", 0)?])?;
    push_words(&mut file, &[0x0020_0034, 0x0028_0000, 0])?;
    Ok(file)
}

/// Puts a word at a place of a file, as far as the file has it.
fn put_word(file: &mut [u8], place: usize, word: u32) {
    for (there, byte) in file.iter_mut().skip(place).zip(word.to_le_bytes()) {
        *there = byte;
    }
}

/// The byte at a place of a file.
fn byte_at(file: &[u8], place: usize) -> u8 {
    file.get(place).copied().unwrap_or(0)
}

/// Counts one more header of a table, whose number of headers stands at one place of the file and whose offset, that of
/// the first, at another.
fn count_one(file: &mut [u8], count_at: usize, offset_at: usize) {
    let count = u16::from_le_bytes([
        byte_at(file, count_at),
        byte_at(file, count_at.saturating_add(1)),
    ]);
    if count == 0 {
        let end = (file.len() % (1 << 32)) as u32;
        put_word(file, offset_at, end);
    }
    let [low, high] = count.wrapping_add(1).to_le_bytes();
    for (there, byte) in file.iter_mut().skip(count_at).zip([low, high]) {
        *there = byte;
    }
}

const SEGMENT_FIELDS: [&str; 10] = [
    "type", "offset", "vaddr", "paddr", "filesz", "memsz", "flags", "align", "times", "rise",
];

/// Adds program headers, as many as the field `times` says, each with an address greater by `rise` than the one before.
pub fn add_segments(file: &mut Vec<u8>, line: &str) -> io::Result<()> {
    let fields = Fields::new(line, &SEGMENT_FIELDS)?;
    let rise = fields.get("rise", 0)?;
    let mut vaddr = fields.get("vaddr", 0)?;
    for _ in 0..fields.get("times", 1)? {
        add_segment(file, fields, vaddr)?;
        vaddr = vaddr.wrapping_add(rise);
    }
    Ok(())
}

fn add_segment(file: &mut Vec<u8>, fields: Fields<'_>, vaddr: u32) -> io::Result<()> {
    count_one(file, 44, 28);
    push_words(file, &[fields.get("type", 1)?, fields.get("offset", 0)?])?;
    push_words(file, &[vaddr, fields.get("paddr", vaddr)?])?;
    push_words(file, &[fields.get("filesz", 0)?, fields.get("memsz", 0)?])?;
    push_words(file, &[fields.get("flags", 0)?, fields.get("align", 4)?])?;
    Ok(())
}

const SECTION_FIELDS: [&str; 10] = [
    "name", "type", "flags", "addr", "offset", "size", "link", "info", "align", "entsize",
];

/// Adds a section header.
pub fn add_section(file: &mut Vec<u8>, line: &str) -> io::Result<()> {
    let fields = Fields::new(line, &SECTION_FIELDS)?;
    count_one(file, 48, 32);
    for field in SECTION_FIELDS {
        push_words(file, &[fields.get(field, 0)?])?;
    }
    Ok(())
}

/// Adds a symbol.
pub fn add_symbol(file: &mut Vec<u8>, line: &str) -> io::Result<()> {
    let fields = Fields::new(line, &["name", "value", "size", "info", "other", "shndx"])?;
    for field in ["name", "value", "size"] {
        push_words(file, &[fields.get(field, 0)?])?;
    }
    let info = fields.get("info", 0)? % (1 << 8);
    let other = fields.get("other", 0)? % (1 << 8);
    let shndx = fields.get("shndx", 0)? % (1 << 16);
    push_words(file, &[info + (other << 8) + (shndx << 16)])?;
    Ok(())
}

/// Adds a relocation with an addend.
pub fn add_relocation(file: &mut Vec<u8>, line: &str) -> io::Result<()> {
    let fields = Fields::new(line, &["offset", "symbol", "type", "addend"])?;
    let info = (fields.get("symbol", 0)? % (1 << 24)) * 256 + fields.get("type", 0)? % (1 << 8);
    push_words(file, &[fields.get("offset", 0)?, info])?;
    push_words(file, &[fields.get("addend", 0)?])?;
    Ok(())
}
