//! What the tables of a file say, as lines: all numbers in decimal but addresses, flags and words with several fields.
use elf_raw::{RawElf, RawHeader, RawRelocation, RawSection, RawSegment, RawSymbol};
use std::alloc::Global;
use std::io;

/// The lines of all tables: the header, the segments, the sections, the symbols and the relocations.
pub fn tables_text(alloc: Global, raw: &RawElf) -> io::Result<Vec<u8>> {
    let mut text = Vec::new(alloc);
    add_header(alloc, &mut text, &raw.header)?;
    for segment in raw.segments.as_slice() {
        add_segment(alloc, &mut text, segment)?;
    }
    for section in raw.sections.as_slice() {
        add_section(alloc, &mut text, section)?;
    }
    for symbol in raw.symbols.as_slice() {
        add_symbol(alloc, &mut text, symbol)?;
    }
    for relocation in raw.relocations.as_slice() {
        add_relocation(alloc, &mut text, relocation)?;
    }
    Ok(text)
}

fn add(text: &mut Vec<u8>, more: String) -> io::Result<()> {
    text.extend_from_slice(more.as_bytes())?;
    Ok(())
}

fn add_header(alloc: Global, text: &mut Vec<u8>, header: &RawHeader) -> io::Result<()> {
    add(text, format!(in alloc; "ident ")?)?;
    for byte in header.ident {
        add(text, format!(in alloc; "{byte:02x}")?)?;
    }
    add(
        text,
        format!(in alloc;
            "\ntype {} machine {} version {}",
            header.kind, header.machine, header.version
        )?,
    )?;
    add(
        text,
        format!(in alloc;
            " entry {:08x} phoff {} shoff {}",
            header.entry, header.phoff, header.shoff
        )?,
    )?;
    add(
        text,
        format!(in alloc; " flags {:08x} ehsize {}", header.flags, header.ehsize)?,
    )?;
    add(
        text,
        format!(in alloc; " phentsize {} phnum {}", header.phentsize, header.phnum)?,
    )?;
    add(
        text,
        format!(in alloc; " shentsize {} shnum {}", header.shentsize, header.shnum)?,
    )?;
    add(text, format!(in alloc; " shstrndx {}\n", header.shstrndx)?)
}

fn add_segment(alloc: Global, text: &mut Vec<u8>, segment: &RawSegment) -> io::Result<()> {
    add(
        text,
        format!(in alloc;
            "segment type {:08x} offset {}",
            segment.kind, segment.offset
        )?,
    )?;
    add(
        text,
        format!(in alloc; " vaddr {:08x} paddr {:08x}", segment.vaddr, segment.paddr)?,
    )?;
    add(
        text,
        format!(in alloc; " filesz {} memsz {}", segment.filesz, segment.memsz)?,
    )?;
    add(
        text,
        format!(in alloc; " flags {} align {}", segment.flags, segment.align)?,
    )?;
    add(
        text,
        format!(in alloc; " bytes {} to {}\n", segment.span.from, segment.span.to)?,
    )
}

fn add_section(alloc: Global, text: &mut Vec<u8>, section: &RawSection) -> io::Result<()> {
    add(
        text,
        format!(in alloc; "section name {} type {}", section.name, section.kind)?,
    )?;
    add(
        text,
        format!(in alloc; " flags {} addr {:08x}", section.flags, section.addr)?,
    )?;
    add(
        text,
        format!(in alloc; " offset {} size {}", section.offset, section.size)?,
    )?;
    add(
        text,
        format!(in alloc; " link {} info {}", section.link, section.info)?,
    )?;
    add(
        text,
        format!(in alloc; " align {} entsize {}", section.addralign, section.entsize)?,
    )?;
    add(
        text,
        format!(in alloc; " bytes {} to {}\n", section.span.from, section.span.to)?,
    )
}

fn add_symbol(alloc: Global, text: &mut Vec<u8>, symbol: &RawSymbol) -> io::Result<()> {
    add(
        text,
        format!(in alloc; "symbol section {} name {}", symbol.section, symbol.name)?,
    )?;
    add(
        text,
        format!(in alloc; " value {:08x} size {}", symbol.value, symbol.size)?,
    )?;
    add(
        text,
        format!(in alloc;
            " info {} other {} shndx {}",
            symbol.info, symbol.other, symbol.shndx
        )?,
    )?;
    add(
        text,
        format!(in alloc; " text {}\n", symbol.text.as_slice().escape_ascii())?,
    )
}

fn add_relocation(alloc: Global, text: &mut Vec<u8>, relocation: &RawRelocation) -> io::Result<()> {
    let RawRelocation {
        section,
        offset,
        info,
        addend,
    } = relocation;
    add(
        text,
        format!(in alloc;
            "relocation section {section} offset {offset:08x} info {info:08x} addend {addend}\n"
        )?,
    )
}
