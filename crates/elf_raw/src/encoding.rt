//! The rows of an ELF file's tables, put into a file.
ghost use Rattle.std.specs.Prelude.{◌≡◌, ◌+◌, ◌≤◌, length};
ghost use Rattle.elf_raw.specs.Header.{header_size, header_of};
ghost use Rattle.elf_raw.specs.Sections.{section_size, section_span, section_at};
ghost use Rattle.elf_raw.specs.Segments.{segment_size, segment_span, segment_at};
ghost use Rattle.elf_raw.specs.Written.{header_bytes, segment_bytes, section_bytes, laid};

use crate::laying::{put_bytes, put_halves, put_words};
use crate::{RawHeader, RawSection, RawSegment};

/// Puts the header at the front of a file.
pub fn put_header(file: &mut [u8], header: RawHeader)
    requires { header_size ≤ length file.old }
    ensures written { file.new ≡ laid file.old 0 (header_bytes header) }
    ensures back { header_of (header_bytes header) ≡ header }
{
    put_bytes(file, 0, &header.ident);
    put_halves(file, 16, &[header.kind, header.machine]);
    put_words(
        file,
        20,
        &[
            header.version,
            header.entry,
            header.phoff,
            header.shoff,
            header.flags,
        ],
    );
    put_halves(
        file,
        40,
        &[
            header.ehsize,
            header.phentsize,
            header.phnum,
            header.shentsize,
            header.shnum,
            header.shstrndx,
        ],
    );
}

/// Puts a program header at an offset of a file.
#[tactic(auto, unfolding(crate::specs::Written::segment_bytes))]
pub fn put_segment(file: &mut [u8], at: usize, segment: RawSegment)
    requires within { at + segment_size ≤ length file.old }
    requires span { segment.span ≡ segment_span segment.offset segment.filesz }
    ensures written { file.new ≡ laid file.old at (segment_bytes segment) }
    ensures back { segment_at (segment_bytes segment) 0 ≡ segment }
{
    put_words(
        file,
        at,
        &[
            segment.kind,
            segment.offset,
            segment.vaddr,
            segment.paddr,
            segment.filesz,
            segment.memsz,
            segment.flags,
            segment.align,
        ],
    );
}

/// Puts a section header at an offset of a file.
#[tactic(auto, unfolding(crate::specs::Written::section_bytes))]
pub fn put_section(file: &mut [u8], at: usize, section: RawSection)
    requires within { at + section_size ≤ length file.old }
    requires span { section.span ≡ section_span section.kind section.offset section.size }
    ensures written { file.new ≡ laid file.old at (section_bytes section) }
    ensures back { section_at (section_bytes section) 0 ≡ section }
{
    put_words(
        file,
        at,
        &[
            section.name,
            section.kind,
            section.flags,
            section.addr,
            section.offset,
            section.size,
            section.link,
            section.info,
            section.addralign,
            section.entsize,
        ],
    );
}
