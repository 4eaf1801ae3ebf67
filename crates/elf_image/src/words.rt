//! The words of code, as they are loaded.
ghost use Rattle.std.specs.Prelude.{◌≡◌, ℕ, ◌+◌, ◌≤◌, List, IfOk, Some, true};
ghost use Rattle.std.specs.List.{find, list_any};
ghost use Rattle.elf_raw.specs.Segments.{segments_of};
ghost use Rattle.rv_code.specs.Code.{extent_end};
ghost use Rattle.elf_image.specs.CodeWords.{code_load, value_at, range_of, extents_in, code_of};
ghost use Rattle.elf_image.specs.Inner.Loaded.{HasCodeLoad};
ghost use Rattle.elf_image.specs.Loads.{is_code_load};

use crate::loads::{is_executable, is_load};
use elf_raw::{RawSegment, word_at};
use rv_code::{Extent, ListOf, Range};
use std::alloc::{AllocError, Global};

/// Whether a program header loads code: it is PT_LOAD, has bytes in memory and the flag PF_X.
fn loads_code(segment: &RawSegment) -> bool
    ensures { result ≡ is_code_load segment.now }
{
    is_load(segment) && is_executable(segment)
}

/// The program header that loads code, the first where there are more.
pub fn code_load(segments: &[RawSegment]) -> &RawSegment
    requires { list_any is_code_load segments.now ≡ true }
    ensures first { find is_code_load segments.now ≡ Some result.now }
    ensures code { (bytes : List ℕ) → segments.now ≡ segments_of bytes → result.now ≡ code_load bytes }
{
    let mut number = 0;
    while !loads_code(&segments[number]) {
        number += 1;
    }
    &segments[number]
}

/// The word that is loaded at the address.
fn value_at(bytes: &[u8], load: &RawSegment, address: u32) -> u32
    requires load { load.now ≡ code_load bytes.now }
    requires held { HasCodeLoad bytes.now }
    requires low { load.now.vaddr ≤ address }
    requires high { address + 4 ≤ load.now.vaddr + load.now.filesz }
    ensures { result ≡ value_at bytes.now address }
{
    let place = (address - load.vaddr) as usize;
    word_at(bytes, load.offset as usize + place)
}

/// The words of an extent, as they are loaded.
fn range_of(
    alloc: Global,
    bytes: &[u8],
    load: &RawSegment,
    extent: Extent,
) -> Result<Range, AllocError>
    requires load { load.now ≡ code_load bytes.now }
    requires held { HasCodeLoad bytes.now }
    requires low { load.now.vaddr ≤ extent.start }
    requires high { extent_end extent ≤ load.now.vaddr + load.now.filesz }
    ensures { IfOk result (λ range. range ≡ range_of bytes.now extent) }
{
    let mut words = Vec::with_capacity(alloc, extent.count as usize)?;
    for number in 0..extent.count {
        words.push(value_at(bytes, load, extent.start + 4 * number))?;
    }
    Ok(Range {
        start: extent.start,
        words: ListOf::from_vec(words),
    })
}

/// The code words of a file, as they are loaded, where it has them.
pub fn ranges_of(
    alloc: Global,
    bytes: &[u8],
    load: &RawSegment,
    extents: &[Extent],
) -> Result<Vec<Range>, AllocError>
    requires load { load.now ≡ code_load bytes.now }
    requires held { HasCodeLoad bytes.now }
    requires extents { extents.now ≡ extents_in bytes.now }
    ensures { IfOk result (λ ranges. ranges.items ≡ code_of bytes.now) }
{
    let mut ranges = Vec::with_capacity(alloc, extents.len())?;
    for extent in extents {
        ranges.push(range_of(alloc, bytes, load, *extent)?)?;
    }
    Ok(ranges)
}
