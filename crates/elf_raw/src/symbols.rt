//! The symbols of a file that is taken, as a list.
ghost use Rattle.std.specs.Prelude.{◌≡◌, ◌<◌, ◌≤◌, ◌++◌, length, IfOk, false};
ghost use Rattle.elf_raw.specs.Header.{header_of};
ghost use Rattle.elf_raw.specs.Refusal.{reaches_past, IsSound};
ghost use Rattle.elf_raw.specs.Sections.{section_of};
ghost use Rattle.elf_raw.specs.Symbols.{symbols_in, symbols_of_section, symbols_of};
ghost use Rattle.elf_raw.specs.Inner.Zeros.{zeros_of};

use crate::names::Zeros;
use crate::section::{SYMBOLS, section_of};
use crate::symbol::{SYMBOL_SIZE, read_symbol};
use crate::{FILE_LIMIT, RawHeader, RawSection, RawSymbol};
use std::alloc::{AllocError, Global};

/// Adds the entries of a symbol table, the section with this number, whose names are in this string table.
fn add_symbols(
    alloc: Global,
    bytes: &[u8],
    zeros: &Zeros,
    number: u32,
    section: &RawSection,
    strings: &RawSection,
    symbols: &mut Vec<RawSymbol>,
) -> Result<(), AllocError>
    requires index { zeros.now.next ≡ zeros_of bytes.now }
    requires strings { strings.now ≡ section_of bytes.now section.now.link }
    requires whole { reaches_past bytes.now section.now.offset section.now.size ≡ false }
    requires small { length bytes.now ≤ FILE_LIMIT }
    ensures { IfOk result (λ _. symbols.new.items ≡ symbols.old.items ++ symbols_in bytes.now (section_of bytes.now) number section.now) }
{
    for place in 0..section.size / SYMBOL_SIZE as u32 {
        let at = section.offset as usize + SYMBOL_SIZE * place as usize;
        symbols.push(read_symbol(alloc, bytes, zeros, number, strings, at)?)?;
    }
    Ok(())
}

/// Adds the symbols of the section with this number, if it is a symbol table.
fn add_symbols_of(
    alloc: Global,
    bytes: &[u8],
    header: &RawHeader,
    zeros: &Zeros,
    number: u16,
    symbols: &mut Vec<RawSymbol>,
) -> Result<(), AllocError>
    requires header { header.now ≡ header_of bytes.now }
    requires index { zeros.now.next ≡ zeros_of bytes.now }
    requires number { number < header.now.shnum }
    requires sound { IsSound bytes.now }
    requires small { length bytes.now ≤ FILE_LIMIT }
    ensures { IfOk result (λ _. symbols.new.items ≡ symbols.old.items ++ symbols_of_section bytes.now (section_of bytes.now) number) }
{
    let number = u32::from(number);
    let section = section_of(bytes, header, number);
    if section.kind != SYMBOLS {
        return Ok(());
    }
    let strings = section_of(bytes, header, section.link);
    add_symbols(alloc, bytes, zeros, number, &section, &strings, symbols)
}

/// The symbols, table by table.
pub fn read_symbols(
    alloc: Global,
    bytes: &[u8],
    header: &RawHeader,
) -> Result<Vec<RawSymbol>, AllocError>
    requires header { header.now ≡ header_of bytes.now }
    requires sound { IsSound bytes.now }
    requires small { length bytes.now ≤ FILE_LIMIT }
    ensures { IfOk result (λ symbols. symbols.items ≡ symbols_of bytes.now) }
{
    let zeros = Zeros::of(alloc, bytes)?;
    let mut symbols = Vec::new(alloc);
    for number in 0..header.shnum {
        add_symbols_of(alloc, bytes, header, &zeros, number, &mut symbols)?;
    }
    Ok(symbols)
}
