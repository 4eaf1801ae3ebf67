ghost use Rattle.std.specs.Prelude.{◌≡◌, ◌+◌, ◌*◌, ◌<◌, ◌≤◌, length, false};
ghost use Rattle.elf_raw.specs.Header.{header_of};
ghost use Rattle.elf_raw.specs.Refusal.{reaches_past};
ghost use Rattle.elf_raw.specs.Sections.{section_size, has_no_bytes, section_span, section_at, section_of};

use crate::RawHeader;
use crate::numbers::word_at;
use ae_nums::Span64;

/// The bytes of an entry.
pub const SECTION_SIZE: usize = 40;

/// The section types that are used here.
const NULL: u32 = 0;

pub const SYMBOLS: u32 = 2;

pub const STRINGS: u32 = 3;

pub const RELOCATIONS: u32 = 4;

const NO_BITS: u32 = 8;

/// A section header (Elf32_Shdr): `kind` is the field `sh_type`, and the other names are those of the standard without
/// `sh_`. `span` is where its bytes stand in the file; a section without bytes has an empty one.
#[derive(Clone, Copy, Debug, PartialEq, Eq)]
pub struct RawSection {
    pub name: u32,
    pub kind: u32,
    pub flags: u32,
    pub addr: u32,
    pub offset: u32,
    pub size: u32,
    pub link: u32,
    pub info: u32,
    pub addralign: u32,
    pub entsize: u32,
    pub span: Span64,
}

/// Whether a section of this type has no bytes in the file.
pub fn has_no_bytes(kind: u32) -> bool
    ensures { result ≡ has_no_bytes kind }
{
    kind == NULL || kind == NO_BITS
}

/// Where the bytes of a section stand.
fn span_of(kind: u32, offset: u32, size: u32) -> Span64
    ensures { result ≡ section_span kind offset size }
{
    let from = u64::from(offset);
    if has_no_bytes(kind) {
        Span64 { from, to: from }
    } else {
        Span64 {
            from,
            to: from + u64::from(size),
        }
    }
}

/// The section header at an offset of a file.
pub fn read_section(bytes: &[u8], at: usize) -> RawSection
    requires { at + section_size ≤ length bytes.now }
    ensures { result ≡ section_at bytes.now at }
{
    let kind = word_at(bytes, at + 4);
    let offset = word_at(bytes, at + 16);
    let size = word_at(bytes, at + 20);
    RawSection {
        name: word_at(bytes, at),
        kind,
        flags: word_at(bytes, at + 8),
        addr: word_at(bytes, at + 12),
        offset,
        size,
        link: word_at(bytes, at + 24),
        info: word_at(bytes, at + 28),
        addralign: word_at(bytes, at + 32),
        entsize: word_at(bytes, at + 36),
        span: span_of(kind, offset, size),
    }
}

/// The section with this number.
pub fn section_of(bytes: &[u8], header: &RawHeader, number: u32) -> RawSection
    requires header { header.now ≡ header_of bytes.now }
    requires number { number < header.now.shnum }
    requires whole { reaches_past bytes.now header.now.shoff (section_size * header.now.shnum) ≡ false }
    ensures { result ≡ section_of bytes.now number }
{
    read_section(
        bytes,
        header.shoff as usize + SECTION_SIZE * number as usize,
    )
}
