//! The bytes of symbols, of their names and of relocations, as they stand in the sections of a file.
ghost use Rattle.std.specs.Prelude.{◌≡◌, ◌++◌, IfOk};
ghost use Rattle.elf_raw.specs.Entries.{symbol_bytes, relocation_bytes, name_bytes, symbol_table, relocation_table, string_table, AreSymbolsIn, AreNamesIn, AreRelocationsIn};
ghost use Rattle.elf_raw.specs.Inner.Fits.{SymbolFits, RelocationFits};

use crate::numbers::{add_half, add_words};
use crate::{RawRelocation, RawSymbol};
use std::alloc::{AllocError, Global};

/// Adds the entry of a symbol.
fn add_symbol(bytes: &mut Vec<u8>, symbol: &RawSymbol) -> Result<(), AllocError>
    ensures added { IfOk result (λ _. bytes.new.items ≡ bytes.old.items ++ symbol_bytes symbol.now) }
    ensures fits { IfOk result (λ _. SymbolFits symbol.now) }
{
    let (name, value, size) = (symbol.name, symbol.value, symbol.size);
    add_words(bytes, &[name, value, size])?;
    bytes.push(symbol.info)?;
    bytes.push(symbol.other)?;
    add_half(bytes, symbol.shndx)?;
    Ok(())
}

/// Adds a name, and a zero behind it.
fn add_name(bytes: &mut Vec<u8>, symbol: &RawSymbol) -> Result<(), AllocError>
    ensures { IfOk result (λ _. bytes.new.items ≡ bytes.old.items ++ name_bytes symbol.now) }
{
    bytes.extend_from_slice(symbol.text.as_slice())?;
    bytes.push(0)?;
    Ok(())
}

/// Adds the entry of a relocation.
fn add_relocation(bytes: &mut Vec<u8>, relocation: RawRelocation) -> Result<(), AllocError>
    ensures added { IfOk result (λ _. bytes.new.items ≡ bytes.old.items ++ relocation_bytes relocation) }
    ensures fits { IfOk result (λ _. RelocationFits relocation) }
{
    let addend = relocation.addend.cast_unsigned();
    add_words(bytes, &[relocation.offset, relocation.info, addend])?;
    Ok(())
}

/// The bytes of a symbol table with these symbols, 16 for each.
///
/// # Errors
///
/// Memory was wanting.
pub fn symbol_table(alloc: Global, symbols: &[RawSymbol]) -> Result<Vec<u8>, AllocError>
    ensures bytes { IfOk result (λ table. table.items ≡ symbol_table symbols.now) }
    ensures read_back { IfOk result (λ table. AreSymbolsIn table.items symbols.now) }
{
    let mut table = Vec::new(alloc);
    for symbol in symbols {
        add_symbol(&mut table, symbol)?;
    }
    Ok(table)
}

/// The bytes of a string table with the names of these symbols: a zero, and then each name in their order with a zero behind it. A
/// symbol is named by it whose `name` is the place where its name begins.
///
/// # Errors
///
/// Memory was wanting.
pub fn string_table(alloc: Global, symbols: &[RawSymbol]) -> Result<Vec<u8>, AllocError>
    ensures bytes { IfOk result (λ table. table.items ≡ string_table symbols.now) }
    ensures read_back { IfOk result (λ table. AreNamesIn table.items symbols.now) }
{
    let mut table = Vec::new(alloc);
    table.push(0)?;
    for symbol in symbols {
        add_name(&mut table, symbol)?;
    }
    Ok(table)
}

/// The bytes of a relocation table with these relocations, 12 for each.
///
/// # Errors
///
/// Memory was wanting.
pub fn relocation_table(alloc: Global, relocations: &[RawRelocation]) -> Result<Vec<u8>, AllocError>
    ensures bytes { IfOk result (λ table. table.items ≡ relocation_table relocations.now) }
    ensures read_back { IfOk result (λ table. AreRelocationsIn table.items relocations.now) }
{
    let mut table = Vec::new(alloc);
    for relocation in relocations {
        add_relocation(&mut table, *relocation)?;
    }
    Ok(table)
}
