//! Numbers at offsets of a file, and numbers added to bytes.
ghost use Rattle.std.specs.Prelude.{◌≡◌, ◌+◌, ◌≤◌, ◌++◌, length, IfOk};
ghost use Rattle.byteorder.specs.Endian.{little_bytes};
ghost use Rattle.elf_raw.specs.Numbers.{half_at, word_at};
ghost use Rattle.elf_raw.specs.Written.{word_bytes};

use byteorder::{ByteOrder, LittleEndian};
use std::alloc::AllocError;

/// The number of the two bytes at an offset, the lowest first.
pub fn half_at(bytes: &[u8], offset: usize) -> u16
    requires { offset + 2 ≤ length bytes.now }
    ensures { result ≡ half_at bytes.now offset }
{
    LittleEndian::read_u16(&bytes[offset..])
}

/// The number of the four bytes at an offset, the lowest first.
pub fn word_at(bytes: &[u8], offset: usize) -> u32
    requires { offset + 4 ≤ length bytes.now }
    ensures { result ≡ word_at bytes.now offset }
{
    LittleEndian::read_u32(&bytes[offset..])
}

/// Adds a number of two bytes, the lowest first.
pub fn add_half(bytes: &mut Vec<u8>, half: u16) -> Result<(), AllocError>
    ensures { IfOk result (λ _. bytes.new.items ≡ bytes.old.items ++ little_bytes 2 half) }
{
    bytes.extend_from_slice(&half.to_le_bytes())
}

/// Adds a number of four bytes, the lowest first.
fn add_word(bytes: &mut Vec<u8>, word: u32) -> Result<(), AllocError>
    ensures { IfOk result (λ _. bytes.new.items ≡ bytes.old.items ++ little_bytes 4 word) }
{
    bytes.extend_from_slice(&word.to_le_bytes())
}

/// Adds numbers of four bytes each, one after the other, the lowest byte first.
///
/// # Errors
///
/// Memory was wanting.
pub fn add_words(bytes: &mut Vec<u8>, words: &[u32]) -> Result<(), AllocError>
    ensures { IfOk result (λ _. bytes.new.items ≡ bytes.old.items ++ word_bytes words.now) }
{
    for word in words {
        add_word(bytes, *word)?;
    }
    Ok(())
}
