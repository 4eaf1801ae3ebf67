ghost use Rattle.std.specs.Prelude.{◌≡◌, ◌<◌, ◌%◌, ◌/◌, Some, slice_get};
ghost use Rattle.ae_nums.specs.Hex.{hex_digit_text, hex8_text};

/// The two digits of each byte, from 00 to ff.
const PAIRS: [u8; 512] = *b"000102030405060708090a0b0c0d0e0f101112131415161718191a1b1c1d1e1f\
    202122232425262728292a2b2c2d2e2f303132333435363738393a3b3c3d3e3f\
    404142434445464748494a4b4c4d4e4f505152535455565758595a5b5c5d5e5f\
    606162636465666768696a6b6c6d6e6f707172737475767778797a7b7c7d7e7f\
    808182838485868788898a8b8c8d8e8f909192939495969798999a9b9c9d9e9f\
    a0a1a2a3a4a5a6a7a8a9aaabacadaeafb0b1b2b3b4b5b6b7b8b9babbbcbdbebf\
    c0c1c2c3c4c5c6c7c8c9cacbcccdcecfd0d1d2d3d4d5d6d7d8d9dadbdcdddedf\
    e0e1e2e3e4e5e6e7e8e9eaebecedeeeff0f1f2f3f4f5f6f7f8f9fafbfcfdfeff";

/// A word as eight hexadecimal digits in lower case.
#[inline(always)]
pub fn hex8(word: u32) -> [u8; 8]
    ensures { result ≡ hex8_text word }
{
    [
        second_digit(word >> 24),
        lowest_digit(word >> 24),
        second_digit(word >> 16),
        lowest_digit(word >> 16),
        second_digit(word >> 8),
        lowest_digit(word >> 8),
        second_digit(word),
        lowest_digit(word),
    ]
}

/// The lowest hexadecimal digit of a word.
#[inline(always)]
fn lowest_digit(word: u32) -> u8
    ensures { result ≡ hex_digit_text (word % 16) }
{
    digit_at(&PAIRS, 2 * (word % 256) as usize + 1)
}

/// The lowest hexadecimal digit of a word but one.
#[inline(always)]
fn second_digit(word: u32) -> u8
    ensures { result ≡ hex_digit_text (word / 16 % 16) }
{
    digit_at(&PAIRS, 2 * (word % 256) as usize)
}

// the digit at a place of these
#[inline(always)]
fn digit_at(digits: &[u8; 512], place: usize) -> u8
    requires { place < 512 }
    ensures { slice_get digits.now place ≡ Some result }
{
    digits[place]
}
