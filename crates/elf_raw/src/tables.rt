//! The tables of a file that is taken, as lists.
ghost use Rattle.std.specs.Prelude.{◌≡◌, ◌*◌, ◌<◌, ◌≤◌, ◌++◌, length, IfOk, false};
ghost use Rattle.elf_raw.specs.Header.{header_of};
ghost use Rattle.elf_raw.specs.Refusal.{reaches_past, IsSound};
ghost use Rattle.elf_raw.specs.Relocations.{relocations_in, relocations_of_section, relocations_of};
ghost use Rattle.elf_raw.specs.Sections.{section_size, section_of, sections_of};
ghost use Rattle.elf_raw.specs.Segments.{segment_size, segments_of};

use crate::relocation::{RELOCATION_SIZE, read_relocation};
use crate::section::{RELOCATIONS, section_of};
use crate::segment::segment_of;
use crate::{FILE_LIMIT, RawHeader, RawRelocation, RawSection, RawSegment};
use std::alloc::{AllocError, Global};

/// The program headers, in order.
pub fn read_segments(
    alloc: Global,
    bytes: &[u8],
    header: &RawHeader,
) -> Result<Vec<RawSegment>, AllocError>
    requires header { header.now ≡ header_of bytes.now }
    requires whole { reaches_past bytes.now header.now.phoff (segment_size * header.now.phnum) ≡ false }
    ensures { IfOk result (λ segments. segments.items ≡ segments_of bytes.now) }
{
    let mut segments = Vec::with_capacity(alloc, header.phnum as usize)?;
    for number in 0..header.phnum {
        segments.push(segment_of(bytes, header, number))?;
    }
    Ok(segments)
}

/// The section headers, in order.
pub fn read_sections(
    alloc: Global,
    bytes: &[u8],
    header: &RawHeader,
) -> Result<Vec<RawSection>, AllocError>
    requires header { header.now ≡ header_of bytes.now }
    requires whole { reaches_past bytes.now header.now.shoff (section_size * header.now.shnum) ≡ false }
    ensures { IfOk result (λ sections. sections.items ≡ sections_of bytes.now) }
{
    let mut sections = Vec::with_capacity(alloc, header.shnum as usize)?;
    for number in 0..header.shnum {
        sections.push(section_of(bytes, header, u32::from(number)))?;
    }
    Ok(sections)
}

/// Adds the entries of a relocation table, the section with this number.
fn add_relocations(
    bytes: &[u8],
    number: u32,
    section: &RawSection,
    relocations: &mut Vec<RawRelocation>,
) -> Result<(), AllocError>
    requires whole { reaches_past bytes.now section.now.offset section.now.size ≡ false }
    requires small { length bytes.now ≤ FILE_LIMIT }
    ensures { IfOk result (λ _. relocations.new.items ≡ relocations.old.items ++ relocations_in bytes.now number section.now) }
{
    for place in 0..section.size / RELOCATION_SIZE as u32 {
        let at = section.offset as usize + RELOCATION_SIZE * place as usize;
        relocations.push(read_relocation(bytes, number, at))?;
    }
    Ok(())
}

/// Adds the relocations of the section with this number, if it is a relocation table.
fn add_relocations_of(
    bytes: &[u8],
    header: &RawHeader,
    number: u16,
    relocations: &mut Vec<RawRelocation>,
) -> Result<(), AllocError>
    requires header { header.now ≡ header_of bytes.now }
    requires number { number < header.now.shnum }
    requires sound { IsSound bytes.now }
    requires small { length bytes.now ≤ FILE_LIMIT }
    ensures { IfOk result (λ _. relocations.new.items ≡ relocations.old.items ++ relocations_of_section bytes.now (section_of bytes.now) number) }
{
    let section = section_of(bytes, header, u32::from(number));
    if section.kind != RELOCATIONS {
        return Ok(());
    }
    add_relocations(bytes, u32::from(number), &section, relocations)
}

/// The relocations, table by table.
pub fn read_relocations(
    alloc: Global,
    bytes: &[u8],
    header: &RawHeader,
) -> Result<Vec<RawRelocation>, AllocError>
    requires header { header.now ≡ header_of bytes.now }
    requires sound { IsSound bytes.now }
    requires small { length bytes.now ≤ FILE_LIMIT }
    ensures { IfOk result (λ relocations. relocations.items ≡ relocations_of bytes.now) }
{
    let mut relocations = Vec::new(alloc);
    for number in 0..header.shnum {
        add_relocations_of(bytes, header, number, &mut relocations)?;
    }
    Ok(relocations)
}
