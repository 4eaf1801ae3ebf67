ghost use Rattle.std.specs.Prelude.{◌≡◌, ◌≤◌, length};
ghost use Rattle.elf_raw.specs.Header.{header_size, header_of};

use crate::numbers::{half_at, word_at};

/// The bytes of the header.
pub const HEADER_SIZE: usize = 52;

/// The ELF header (Elf32_Ehdr); `kind` is the field `e_type`, and the other names are those of the standard without `e_`.
#[derive(Clone, Copy, Debug, PartialEq, Eq)]
pub struct RawHeader {
    pub ident: [u8; 16],
    pub kind: u16,
    pub machine: u16,
    pub version: u32,
    pub entry: u32,
    pub phoff: u32,
    pub shoff: u32,
    pub flags: u32,
    pub ehsize: u16,
    pub phentsize: u16,
    pub phnum: u16,
    pub shentsize: u16,
    pub shnum: u16,
    pub shstrndx: u16,
}

/// The header at the front of a file.
pub fn read_header(bytes: &[u8]) -> RawHeader
    requires { header_size ≤ length bytes.now }
    ensures { result ≡ header_of bytes.now }
{
    let mut ident = [0; 16];
    ident.copy_from_slice(&bytes[..16]);
    RawHeader {
        ident,
        kind: half_at(bytes, 16),
        machine: half_at(bytes, 18),
        version: word_at(bytes, 20),
        entry: word_at(bytes, 24),
        phoff: word_at(bytes, 28),
        shoff: word_at(bytes, 32),
        flags: word_at(bytes, 36),
        ehsize: half_at(bytes, 40),
        phentsize: half_at(bytes, 42),
        phnum: half_at(bytes, 44),
        shentsize: half_at(bytes, 46),
        shnum: half_at(bytes, 48),
        shstrndx: half_at(bytes, 50),
    }
}
