ghost use Rattle.std.specs.Prelude.{◌≡◌, ◌+◌, ◌≤◌, length};
ghost use Rattle.elf_raw.specs.Relocations.{relocation_size, relocation_at};

use crate::numbers::word_at;

/// The bytes of an entry.
pub const RELOCATION_SIZE: usize = 12;

/// An entry of a relocation table (Elf32_Rela): the names are those of the standard without `r_`. `section` is the number of
/// the relocation table.
#[derive(Clone, Copy, Debug, PartialEq, Eq)]
pub struct RawRelocation {
    pub section: u32,
    pub offset: u32,
    pub info: u32,
    pub addend: i32,
}

/// The relocation at an offset of a file, of the section with this number.
pub fn read_relocation(bytes: &[u8], section: u32, at: usize) -> RawRelocation
    requires { at + relocation_size ≤ length bytes.now }
    ensures { result ≡ relocation_at bytes.now section at }
{
    RawRelocation {
        section,
        offset: word_at(bytes, at),
        info: word_at(bytes, at + 4),
        addend: word_at(bytes, at + 8).cast_signed(),
    }
}
