//! Functions that symbols name.
ghost use Rattle.std.specs.Prelude.{◌≡◌, ℕ, ◌%◌, ◌&&◌, ◌==◌, ◌++◌, List, [], ◌∷◌, map, IfOk};
ghost use Rattle.std.specs.List.{filter};
ghost use Rattle.elf_raw.specs.Symbols.{symbols_of};
ghost use Rattle.rv_code.specs.Code.{is_code};
ghost use Rattle.elf_image.specs.CodeWords.{extents_in, is_function_at, name_of, names_of};

use crate::sections::is_code;
use elf_raw::RawSymbol;
use rv_code::{Extent, ListOf, Name};
use std::alloc::{AllocError, Global};

/// The type of a symbol that is a function's.
const FUNCTION: u8 = 2;

/// Whether a symbol is that of a function (STT_FUNC), at a code word.
fn is_function(extents: &[Extent], symbol: &RawSymbol) -> bool
    ensures { result ≡ is_function_at (is_code extents.now) symbol.now }
{
    symbol.info % 16 == FUNCTION && is_code(extents, symbol.value)
}

/// Adds the name of a symbol, if it is that of a function.
fn add_name(
    alloc: Global,
    extents: &[Extent],
    symbol: &RawSymbol,
    names: &mut Vec<Name>,
) -> Result<(), AllocError>
    ensures { IfOk result (λ _. names.new.items ≡ names.old.items ++ map name_of (filter (is_function_at (is_code extents.now)) (symbol.now ∷ []))) }
{
    if !is_function(extents, symbol) {
        return Ok(());
    }
    names.push(Name {
        address: symbol.value,
        text: ListOf::from_vec(symbol.text.as_slice().to_vec(alloc)?),
    })?;
    Ok(())
}

/// The names of the functions at code words, in the order of the symbols.
pub fn names_of(
    alloc: Global,
    symbols: &[RawSymbol],
    extents: &[Extent],
) -> Result<Vec<Name>, AllocError>
    ensures names { IfOk result (λ names. names.items ≡ map name_of (filter (is_function_at (is_code extents.now)) symbols.now)) }
    ensures file { IfOk result (λ names. (bytes : List ℕ) → symbols.now ≡ symbols_of bytes → extents.now ≡ extents_in bytes → names.items ≡ names_of bytes) }
{
    let mut names = Vec::new(alloc);
    for symbol in symbols {
        add_name(alloc, extents, symbol, &mut names)?;
    }
    Ok(names)
}
