//! Which files aren't taken, and why.
ghost use Rattle.std.specs.Prelude.{◌≡◌, ◌*◌, ◌/◌, ◌%◌, ◌==◌, ◌<◌, ◌≤◌, length, false};
ghost use Rattle.elf_raw.specs.Header.{header_of};
ghost use Rattle.elf_raw.specs.Sections.{section_size, section_of};
ghost use Rattle.elf_raw.specs.Refusal.{reaches_past, has_magic, segment_offends, symbols_offend, relocations_offend, section_offends, bad_segment, bad_section, bad_table, table_refusal, elf_refusal};
ghost use Rattle.elf_raw.specs.Segments.{segment_size};

use crate::header::{HEADER_SIZE, RawHeader, read_header};
use crate::relocation::RELOCATION_SIZE;
use crate::section::{
    RELOCATIONS, RawSection, SECTION_SIZE, STRINGS, SYMBOLS, has_no_bytes, section_of,
};
use crate::segment::{SEGMENT_SIZE, segment_of};
use crate::symbol::SYMBOL_SIZE;
use crate::{ElfFault, FILE_LIMIT};

/// Whether so many bytes from an offset on reach past the end of the file. A piece with no bytes reaches past nothing.
fn reaches_past(bytes: &[u8], offset: u32, size: u32) -> bool
    ensures { result ≡ reaches_past bytes.now offset size }
{
    size != 0 && bytes.len() < offset as usize + size as usize
}

/// Whether the file begins with the magic number.
fn has_magic(bytes: &[u8]) -> bool
    ensures { result ≡ has_magic bytes.now }
{
    bytes.starts_with(&[0x7f, 0x45, 0x4c, 0x46])
}

/// Whether the bytes of the program header with this number reach past the end.
fn segment_offends(bytes: &[u8], header: &RawHeader, number: u16) -> bool
    requires header { header.now ≡ header_of bytes.now }
    requires number { number < header.now.phnum }
    requires whole { reaches_past bytes.now header.now.phoff (segment_size * header.now.phnum) ≡ false }
    ensures { result ≡ segment_offends bytes.now number }
{
    let segment = segment_of(bytes, header, number);
    reaches_past(bytes, segment.offset, segment.filesz)
}

/// Whether a section that is a symbol table can't be read.
fn symbols_offend(bytes: &[u8], header: &RawHeader, section: &RawSection) -> bool
    requires header { header.now ≡ header_of bytes.now }
    requires whole { reaches_past bytes.now header.now.shoff (section_size * header.now.shnum) ≡ false }
    ensures { result ≡ symbols_offend bytes.now section.now }
{
    section.kind == SYMBOLS
        && (section.entsize as usize != SYMBOL_SIZE
            || section.size as usize % SYMBOL_SIZE != 0
            || section.link >= u32::from(header.shnum)
            || section_of(bytes, header, section.link).kind != STRINGS)
}

/// Whether a section that is a relocation table can't be read.
fn relocations_offend(section: &RawSection) -> bool
    ensures { result ≡ relocations_offend section.now }
{
    section.kind == RELOCATIONS
        && (section.entsize as usize != RELOCATION_SIZE
            || section.size as usize % RELOCATION_SIZE != 0)
}

/// Whether the section with this number reaches past the end, or can't be read.
fn section_offends(bytes: &[u8], header: &RawHeader, number: u16) -> bool
    requires header { header.now ≡ header_of bytes.now }
    requires number { number < header.now.shnum }
    requires whole { reaches_past bytes.now header.now.shoff (section_size * header.now.shnum) ≡ false }
    ensures { result ≡ section_offends bytes.now number }
{
    let section = section_of(bytes, header, u32::from(number));
    (!has_no_bytes(section.kind) && reaches_past(bytes, section.offset, section.size))
        || symbols_offend(bytes, header, &section)
        || relocations_offend(&section)
}

/// The offset of the first program header that offends.
fn bad_segment(bytes: &[u8], header: &RawHeader) -> Option<u32>
    requires header { header.now ≡ header_of bytes.now }
    requires whole { reaches_past bytes.now header.now.phoff (segment_size * header.now.phnum) ≡ false }
    requires small { length bytes.now ≤ FILE_LIMIT }
    ensures { result ≡ bad_segment bytes.now }
{
    for number in 0..header.phnum {
        if segment_offends(bytes, header, number) {
            return Some(header.phoff + SEGMENT_SIZE as u32 * u32::from(number));
        }
    }
    None
}

/// The offset of the first section header that offends.
fn bad_section(bytes: &[u8], header: &RawHeader) -> Option<u32>
    requires header { header.now ≡ header_of bytes.now }
    requires whole { reaches_past bytes.now header.now.shoff (section_size * header.now.shnum) ≡ false }
    requires small { length bytes.now ≤ FILE_LIMIT }
    ensures { result ≡ bad_section bytes.now }
{
    for number in 0..header.shnum {
        if section_offends(bytes, header, number) {
            return Some(header.shoff + SECTION_SIZE as u32 * u32::from(number));
        }
    }
    None
}

/// The offset of what is wrong with the tables.
fn bad_table(bytes: &[u8], header: &RawHeader) -> Option<u32>
    requires header { header.now ≡ header_of bytes.now }
    requires small { length bytes.now ≤ FILE_LIMIT }
    ensures { result ≡ bad_table bytes.now }
{
    if header.phnum != 0 && usize::from(header.phentsize) != SEGMENT_SIZE {
        return Some(42);
    }
    if reaches_past(
        bytes,
        header.phoff,
        SEGMENT_SIZE as u32 * u32::from(header.phnum),
    ) {
        return Some(28);
    }
    if header.shnum != 0 && usize::from(header.shentsize) != SECTION_SIZE {
        return Some(46);
    }
    if reaches_past(
        bytes,
        header.shoff,
        SECTION_SIZE as u32 * u32::from(header.shnum),
    ) {
        return Some(32);
    }
    match bad_segment(bytes, header) {
        Some(offset) => Some(offset),
        None => bad_section(bytes, header),
    }
}

/// Whether this bit of the header's flags is set.
fn has_flag(header: &RawHeader, bit: u32) -> bool
    requires { 0 < bit }
    ensures { result ≡ (header.now.flags / bit % 2 == 1) }
{
    header.flags / bit % 2 == 1
}

/// What is wrong with the header of a file that is an ELF file of 32 bits, or with its tables.
fn table_refusal(bytes: &[u8], header: &RawHeader) -> Option<ElfFault>
    requires header { header.now ≡ header_of bytes.now }
    requires small { length bytes.now ≤ FILE_LIMIT }
    ensures { result ≡ table_refusal bytes.now }
{
    if header.kind != 2 {
        return Some(ElfFault::NotExec);
    }
    if header.machine != 243 {
        return Some(ElfFault::NotRiscv);
    }
    if has_flag(header, 1) {
        return Some(ElfFault::Compressed);
    }
    if has_flag(header, 2) || has_flag(header, 4) || has_flag(header, 8) {
        return Some(ElfFault::OtherAbi);
    }
    match bad_table(bytes, header) {
        Some(offset) => Some(ElfFault::BadTable { offset }),
        None => None,
    }
}

/// Why the file isn't taken, `None` where it is.
pub fn refusal_of(bytes: &[u8]) -> Option<ElfFault>
    requires { length bytes.now ≤ FILE_LIMIT }
    ensures { result ≡ elf_refusal bytes.now }
{
    if bytes.len() < HEADER_SIZE || !has_magic(bytes) {
        return Some(ElfFault::NotElf);
    }
    if bytes[4] != 1 || bytes[5] != 1 {
        return Some(ElfFault::NotElf32Le);
    }
    table_refusal(bytes, &read_header(bytes))
}
