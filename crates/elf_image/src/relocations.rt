//! Code words that relocations name.
ghost use Rattle.std.specs.Prelude.{◌≡◌, ℕ, ◌^◌, ◌≤◌, ◌<◌, ◌++◌, List, [], ◌∷◌, map, length, IfOk, IfSome, None, true, false};
ghost use Rattle.std.specs.List.{All, filter, position};
ghost use Rattle.elf_raw.specs.Header.{header_of};
ghost use Rattle.elf_raw.specs.Raw.{raw_of};
ghost use Rattle.elf_raw.specs.Refusal.{IsSound};
ghost use Rattle.elf_raw.specs.Relocations.{relocations_of};
ghost use Rattle.elf_raw.specs.Sections.{sections_of};
ghost use Rattle.elf_image.specs.CodeWords.{is_code_word, extents_in};
ghost use Rattle.elf_image.specs.Named.{is_naming, has_entry, has_symbol, names_nothing, bad_relocation, symbol_value, address_named, named_of};

use crate::sections::is_code;
use elf_raw::{RawElf, RawRelocation, RawSection, SYMBOL_SIZE, SYMBOLS, word_at};
use rv_code::Extent;
use std::alloc::{AllocError, Global};

/// Whether a relocation is of a type that names an address: R_RISCV_32, CALL, CALL_PLT, PCREL_HI20, HI20, ADD32 or
/// 32_PCREL.
fn is_naming(relocation: &RawRelocation) -> bool
    ensures { result ≡ is_naming relocation.now }
{
    matches!(relocation.info % 256, 1 | 18 | 19 | 23 | 26 | 35 | 57)
}

/// Whether a section is a symbol table, and has the symbol with this number.
fn has_entry(section: &RawSection, number: u32) -> bool
    ensures { result ≡ has_entry section.now number }
{
    section.kind == SYMBOLS && number < section.size / SYMBOL_SIZE as u32
}

/// Whether the section that a relocation's own section links is a symbol table, and has the relocation's symbol.
fn has_symbol(sections: &[RawSection], relocation: &RawRelocation) -> bool
    requires { relocation.now.section < length sections.now }
    ensures { (bytes : List ℕ) → sections.now ≡ sections_of bytes → result ≡ has_symbol bytes relocation.now }
{
    let table = sections[relocation.section as usize].link as usize;
    table < sections.len() && has_entry(&sections[table], relocation.info / 256)
}

/// Whether a relocation names a symbol that isn't there.
fn names_nothing(sections: &[RawSection], relocation: &RawRelocation) -> bool
    requires { relocation.now.section < length sections.now }
    ensures { (bytes : List ℕ) → sections.now ≡ sections_of bytes → result ≡ names_nothing bytes relocation.now }
{
    is_naming(relocation) && !has_symbol(sections, relocation)
}

/// The value of a relocation's symbol.
fn symbol_value(bytes: &[u8], sections: &[RawSection], relocation: &RawRelocation) -> u32
    requires sound { IsSound bytes.now }
    requires sections { sections.now ≡ sections_of bytes.now }
    requires own { relocation.now.section < length sections.now }
    requires there { has_symbol bytes.now relocation.now ≡ true }
    ensures { result ≡ symbol_value bytes.now relocation.now }
{
    let own = &sections[relocation.section as usize];
    let table = &sections[own.link as usize];
    let place = table.offset as usize + SYMBOL_SIZE * (relocation.info / 256) as usize;
    word_at(bytes, place + 4)
}

/// The address that a relocation names: the value of its symbol and the addend, modulo 2^32.
fn address_named(bytes: &[u8], sections: &[RawSection], relocation: &RawRelocation) -> u32
    requires sound { IsSound bytes.now }
    requires sections { sections.now ≡ sections_of bytes.now }
    requires own { relocation.now.section < length sections.now }
    requires there { has_symbol bytes.now relocation.now ≡ true }
    ensures { result ≡ address_named bytes.now relocation.now }
{
    symbol_value(bytes, sections, relocation).wrapping_add_signed(relocation.addend)
}

/// The number of the first relocation that names a symbol that isn't there.
fn first_bad(sections: &[RawSection], relocations: &[RawRelocation]) -> Option<usize>
    requires { All (λ relocation. relocation.section < length sections.now) relocations.now }
    ensures { (bytes : List ℕ) → sections.now ≡ sections_of bytes → result ≡ position (names_nothing bytes) relocations.now }
{
    for (number, relocation) in relocations.iter().enumerate() {
        if names_nothing(sections, relocation) {
            return Some(number);
        }
    }
    None
}

/// The number of the first relocation that should name an address, and whose symbol isn't there, or whose own section
/// links no symbol table; counted from 0 over all tables. `raw` is what the tables of a file say.
pub fn bad_relocation(raw: &RawElf) -> Option<usize>
    requires { (bytes : List ℕ) × (raw.now ≡ raw_of bytes) }
    ensures { (bytes : List ℕ) → raw.now ≡ raw_of bytes → result ≡ bad_relocation bytes }
{
    first_bad(raw.sections.as_slice(), raw.relocations.as_slice())
}

/// Adds the address that a relocation names, if it is of a type that names one, and a code word stands there.
fn add_named(
    bytes: &[u8],
    sections: &[RawSection],
    extents: &[Extent],
    relocation: &RawRelocation,
    named: &mut Vec<u32>,
) -> Result<(), AllocError>
    requires sound { IsSound bytes.now }
    requires sections { sections.now ≡ sections_of bytes.now }
    requires extents { extents.now ≡ extents_in bytes.now }
    requires own { relocation.now.section < length sections.now }
    requires there { names_nothing bytes.now relocation.now ≡ false }
    ensures { IfOk result (λ _. named.new.items ≡ named.old.items ++ filter (is_code_word bytes.now) (map (address_named bytes.now) (filter is_naming (relocation.now ∷ [])))) }
{
    if !is_naming(relocation) {
        return Ok(());
    }
    let address = address_named(bytes, sections, relocation);
    if is_code(extents, address) {
        named.push(address)?;
    }
    Ok(())
}

/// The code words that relocations name, in the order of the relocations.
fn addresses_named(
    alloc: Global,
    raw: &RawElf,
    bytes: &[u8],
    extents: &[Extent],
) -> Result<Vec<u32>, AllocError>
    requires sound { IsSound bytes.now }
    requires read { raw.now ≡ raw_of bytes.now }
    requires extents { extents.now ≡ extents_in bytes.now }
    requires known { bad_relocation bytes.now ≡ None }
    ensures { IfOk result (λ named. named.items ≡ filter (is_code_word bytes.now) (map (address_named bytes.now) (filter is_naming raw.now.relocations))) }
{
    let mut named = Vec::new(alloc);
    for relocation in raw.relocations.as_slice() {
        add_named(
            bytes,
            raw.sections.as_slice(),
            extents,
            relocation,
            &mut named,
        )?;
    }
    Ok(named)
}

/// The code words that relocations name, in order and each once, of a file whose relocations name symbols that are there.
pub fn named_of(
    alloc: Global,
    raw: &RawElf,
    bytes: &[u8],
    extents: &[Extent],
) -> Result<Vec<u32>, AllocError>
    requires sound { IsSound bytes.now }
    requires read { raw.now ≡ raw_of bytes.now }
    requires extents { extents.now ≡ extents_in bytes.now }
    requires known { bad_relocation bytes.now ≡ None }
    ensures { IfOk result (λ named. named.items ≡ named_of bytes.now) }
{
    let mut named = addresses_named(alloc, raw, bytes, extents)?;
    named.sort_unstable();
    named.dedup();
    Ok(named)
}
