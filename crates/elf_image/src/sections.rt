//! Which words of a file's sections are code.
ghost use Rattle.std.specs.Prelude.{◌≡◌, ◌+◌, ◌^◌, ◌<◌, ◌≤◌, List, [], ◌∷◌, ◌++◌, length, IfOk, IfSome, IfNone};
ghost use Rattle.std.specs.List.{All, filter, flat_map};
ghost use Rattle.std.specs.List.Sorted.{IsNonDecreasingBy};
ghost use Rattle.rv_code.specs.Code.{is_code};
ghost use Rattle.rv_code.specs.Places.{words_of, code_addresses, extents_at};
ghost use Rattle.elf_image.specs.CodeWords.{lies_in, is_code_section, words_in, words_by};
ghost use Rattle.elf_image.specs.Inner.Parts.{IsPart, touches, united, joined_from, joined_of};

use elf_raw::{RawSection, RawSegment, has_no_bytes};
use rv_code::Extent;
use std::alloc::{AllocError, Global};

/// Whether the addresses of a section lie within those of the load's bytes in the file.
fn lies_in(load: &RawSegment, section: &RawSection) -> bool
    ensures { result ≡ lies_in load.now section.now }
{
    load.vaddr <= section.addr
        && u64::from(section.addr) + u64::from(section.size)
            <= u64::from(load.vaddr) + u64::from(load.filesz)
}

/// Whether a section is loaded as code: it has SHF_ALLOC and SHF_EXECINSTR, and its bytes are the load's.
fn is_code_section(load: &RawSegment, section: &RawSection) -> bool
    ensures { result ≡ is_code_section load.now section.now }
{
    section.flags / 2 % 2 == 1
        && section.flags / 4 % 2 == 1
        && !has_no_bytes(section.kind)
        && lies_in(load, section)
}

/// The words of a section: the multiples of 4 whose four bytes lie in it. `None` where there is none.
fn extent_in(section: &RawSection) -> Option<Extent>
    requires { section.now.addr + section.now.size ≤ 2 ^ 32 }
    ensures some { IfSome result (λ extent. words_of extent ≡ words_in section.now) }
    ensures part { IfSome result IsPart }
    ensures none { IfNone result (words_in section.now ≡ []) }
{
    let end = u64::from(section.addr) + u64::from(section.size);
    let start = u64::from(section.addr).div_ceil(4) * 4;
    if start + 4 > end {
        return None;
    }
    Some(Extent {
        start: start as u32,
        count: ((end - start) / 4) as u32,
    })
}

/// Adds the words of a section, if it is loaded as code and has some.
fn add_words(
    parts: &mut Vec<Extent>,
    load: &RawSegment,
    section: &RawSection,
) -> Result<(), AllocError>
    requires load { load.now.vaddr + load.now.filesz ≤ 2 ^ 32 }
    requires parts { All IsPart parts.old.items }
    ensures words { IfOk result (λ _. code_addresses parts.new.items ≡ code_addresses parts.old.items ++ flat_map words_in (filter (is_code_section load.now) (section.now ∷ []))) }
    ensures parts { All IsPart parts.new.items }
    ensures few { length parts.new.items ≤ length parts.old.items + 1 }
{
    if !is_code_section(load, section) {
        return Ok(());
    }
    if let Some(extent) = extent_in(section) {
        parts.push(extent)?;
    }
    Ok(())
}

/// The words of each section that is loaded as code, in the order of the sections.
fn parts_of(
    alloc: Global,
    load: &RawSegment,
    sections: &[RawSection],
) -> Result<Vec<Extent>, AllocError>
    requires { load.now.vaddr + load.now.filesz ≤ 2 ^ 32 }
    ensures words { IfOk result (λ parts. code_addresses parts.items ≡ flat_map words_in (filter (is_code_section load.now) sections.now)) }
    ensures parts { IfOk result (λ parts. All IsPart parts.items) }
    ensures few { IfOk result (λ parts. length parts.items ≤ length sections.now) }
{
    let mut parts = Vec::new(alloc);
    for section in sections {
        add_words(&mut parts, load, section)?;
    }
    Ok(parts)
}

/// Whether a part that starts no earlier than an extent begins in it or right behind it.
fn touches(extent: Extent, part: Extent) -> bool
    ensures { result ≡ touches extent part }
{
    u64::from(part.start) <= u64::from(extent.start) + 4 * u64::from(extent.count)
}

/// An extent and a part that touches it, as one.
fn united(extent: Extent, part: Extent) -> Extent
    requires extent { IsPart extent }
    requires part { IsPart part }
    requires order { extent.start ≤ part.start }
    ensures one { result ≡ united extent part }
    ensures part { IsPart result }
{
    let count = (part.start - extent.start) / 4 + part.count;
    Extent {
        start: extent.start,
        count: extent.count.max(count),
    }
}

/// The extent that a part is joined with, or else the part: then the extent goes to those that are done.
fn add_part(done: &mut Vec<Extent>, extent: Extent, part: Extent) -> Result<Extent, AllocError>
    requires extent { IsPart extent }
    requires part { IsPart part }
    requires order { extent.start ≤ part.start }
    ensures joined { IfOk result (λ next. (rest : List Extent) → done.new.items ++ joined_from next rest ≡ done.old.items ++ joined_from extent (part ∷ rest)) }
    ensures part { IfOk result IsPart }
    ensures order { IfOk result (λ next. next.start ≤ part.start) }
{
    if touches(extent, part) {
        return Ok(united(extent, part));
    }
    done.push(extent)?;
    Ok(part)
}

/// Parts in the order of their starts, joined where they touch.
fn joined(alloc: Global, parts: &[Extent]) -> Result<Vec<Extent>, AllocError>
    requires each { All IsPart parts.now }
    requires order { IsNonDecreasingBy (λ part. part.start) parts.now }
    ensures { IfOk result (λ extents. extents.items ≡ joined_of parts.now) }
{
    let mut extents = Vec::new(alloc);
    let [first, rest @ ..] = parts else {
        return Ok(extents);
    };
    let mut extent = *first;
    for part in rest {
        extent = add_part(&mut extents, extent, *part)?;
    }
    extents.push(extent)?;
    Ok(extents)
}

/// Where the code words of a file stand, by its sections and the program header that loads code: in order, and those
/// that touch as one.
pub fn code_extents(
    alloc: Global,
    load: &RawSegment,
    sections: &[RawSection],
) -> Result<Vec<Extent>, AllocError>
    requires { load.now.vaddr + load.now.filesz ≤ 2 ^ 32 }
    ensures words { IfOk result (λ extents. extents.items ≡ extents_at (words_by load.now sections.now)) }
    ensures few { IfOk result (λ extents. length extents.items ≤ length sections.now) }
{
    let mut parts = parts_of(alloc, load, sections)?;
    parts.sort_unstable_by_key(|part| part.start);
    joined(alloc, &parts)
}

/// How many words there are.
pub fn word_count(extents: &[Extent]) -> u64
    requires { length extents.now < 2 ^ 32 }
    ensures { result ≡ length (code_addresses extents.now) }
{
    let mut count = 0;
    for extent in extents {
        count += u64::from(extent.count);
    }
    count
}

/// Whether a code word stands at the address.
pub fn is_code(extents: &[Extent], address: u32) -> bool
    ensures { result ≡ is_code extents.now address }
{
    extents.iter().any(|extent| extent.has_word(address))
}
