ghost use Rattle.std.specs.Prelude.{◌≡◌, ◌+◌, ◌≤◌, length, IfOk};
ghost use Rattle.elf_raw.specs.Symbols.{symbol_size, symbol_at};
ghost use Rattle.elf_raw.specs.Inner.Zeros.{zeros_of};

use crate::RawSection;
use crate::names::{Zeros, name_at};
use crate::numbers::{half_at, word_at};
use rv_code::ListOf;
use std::alloc::{AllocError, Global};

/// The bytes of an entry.
pub const SYMBOL_SIZE: usize = 16;

/// An entry of a symbol table (Elf32_Sym): the names are those of the standard without `st_`. `section` is the number of
/// the symbol table, and `text` the bytes of the name.
#[derive(Debug, Drop)]
pub struct RawSymbol {
    pub section: u32,
    pub name: u32,
    pub value: u32,
    pub size: u32,
    pub info: u8,
    pub other: u8,
    pub shndx: u16,
    pub text: ListOf<u8>,
}

/// The symbol at an offset of a file, of the section with this number, whose names are in this string table.
pub fn read_symbol(
    alloc: Global,
    bytes: &[u8],
    zeros: &Zeros,
    section: u32,
    strings: &RawSection,
    at: usize,
) -> Result<RawSymbol, AllocError>
    requires index { zeros.now.next ≡ zeros_of bytes.now }
    requires within { at + symbol_size ≤ length bytes.now }
    ensures { IfOk result (λ symbol. symbol ≡ symbol_at bytes.now section strings.now at) }
{
    let name = word_at(bytes, at);
    let text = name_at(bytes, zeros, strings, name).to_vec(alloc)?;
    Ok(RawSymbol {
        section,
        name,
        value: word_at(bytes, at + 4),
        size: word_at(bytes, at + 8),
        info: bytes[at + 12],
        other: bytes[at + 13],
        shndx: half_at(bytes, at + 14),
        text: ListOf::from_vec(text),
    })
}
