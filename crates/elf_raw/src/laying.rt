//! Bytes and numbers put into a file.
ghost use Rattle.std.specs.Prelude.{◌≡◌, ◌+◌, ◌*◌, ◌≤◌, length};
ghost use Rattle.byteorder.specs.Endian.{little_bytes};
ghost use Rattle.elf_raw.specs.Written.{half_bytes, word_bytes, laid};

use byteorder::{ByteOrder, LittleEndian};

/// Puts bytes at an offset.
pub fn put_bytes(file: &mut [u8], at: usize, bytes: &[u8])
    requires { at + length bytes.now ≤ length file.old }
    ensures { file.new ≡ laid file.old at bytes.now }
{
    file[at..at + bytes.len()].copy_from_slice(bytes);
}

/// Puts a number of two bytes at an offset, the lowest first.
fn put_half(file: &mut [u8], at: usize, half: u16)
    requires { at + 2 ≤ length file.old }
    ensures { file.new ≡ laid file.old at (little_bytes 2 half) }
{
    LittleEndian::write_u16(&mut file[at..], half);
}

/// Puts a number of four bytes at an offset, the lowest first.
fn put_word(file: &mut [u8], at: usize, word: u32)
    requires { at + 4 ≤ length file.old }
    ensures { file.new ≡ laid file.old at (little_bytes 4 word) }
{
    LittleEndian::write_u32(&mut file[at..], word);
}

/// Puts numbers of two bytes each, one after the other.
pub fn put_halves(file: &mut [u8], at: usize, halves: &[u16])
    requires { at + 2 * length halves.now ≤ length file.old }
    ensures { file.new ≡ laid file.old at (half_bytes halves.now) }
{
    for (place, half) in halves.iter().enumerate() {
        put_half(file, at + 2 * place, *half);
    }
}

/// Puts numbers of four bytes each, one after the other.
pub fn put_words(file: &mut [u8], at: usize, words: &[u32])
    requires { at + 4 * length words.now ≤ length file.old }
    ensures { file.new ≡ laid file.old at (word_bytes words.now) }
{
    for (place, word) in words.iter().enumerate() {
        put_word(file, at + 4 * place, *word);
    }
}
