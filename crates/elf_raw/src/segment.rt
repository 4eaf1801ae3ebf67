ghost use Rattle.std.specs.Prelude.{◌≡◌, ◌+◌, ◌*◌, ◌<◌, ◌≤◌, length, false};
ghost use Rattle.elf_raw.specs.Header.{header_of};
ghost use Rattle.elf_raw.specs.Refusal.{reaches_past};
ghost use Rattle.elf_raw.specs.Segments.{segment_size, segment_at, segment_of};

use crate::RawHeader;
use crate::numbers::word_at;
use ae_nums::Span64;

/// The bytes of an entry.
pub const SEGMENT_SIZE: usize = 32;

/// A program header (Elf32_Phdr): `kind` is the field `p_type`, and the other names are those of the standard without `p_`.
/// `span` is where its bytes stand in the file.
#[derive(Clone, Copy, Debug, PartialEq, Eq)]
pub struct RawSegment {
    pub kind: u32,
    pub offset: u32,
    pub vaddr: u32,
    pub paddr: u32,
    pub filesz: u32,
    pub memsz: u32,
    pub flags: u32,
    pub align: u32,
    pub span: Span64,
}

/// The program header at an offset of a file.
pub fn read_segment(bytes: &[u8], at: usize) -> RawSegment
    requires { at + segment_size ≤ length bytes.now }
    ensures { result ≡ segment_at bytes.now at }
{
    let offset = word_at(bytes, at + 4);
    let filesz = word_at(bytes, at + 16);
    RawSegment {
        kind: word_at(bytes, at),
        offset,
        vaddr: word_at(bytes, at + 8),
        paddr: word_at(bytes, at + 12),
        filesz,
        memsz: word_at(bytes, at + 20),
        flags: word_at(bytes, at + 24),
        align: word_at(bytes, at + 28),
        span: Span64 {
            from: u64::from(offset),
            to: u64::from(offset) + u64::from(filesz),
        },
    }
}

/// The program header with this number.
pub fn segment_of(bytes: &[u8], header: &RawHeader, number: u16) -> RawSegment
    requires header { header.now ≡ header_of bytes.now }
    requires number { number < header.now.phnum }
    requires whole { reaches_past bytes.now header.now.phoff (segment_size * header.now.phnum) ≡ false }
    ensures { result ≡ segment_of bytes.now number }
{
    read_segment(
        bytes,
        header.phoff as usize + SEGMENT_SIZE * number as usize,
    )
}
