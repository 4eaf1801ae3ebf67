ghost use Rattle.std.specs.Prelude.{◌≡◌};
ghost use Rattle.ae_words.specs.Numbers.{positive_number, short_positive_number};

use ae_nums::read_decimal;

/// The number from 1 to 2^64 - 1 that a word spells.
pub fn positive(word: &[u8]) -> Option<u64>
    ensures { result ≡ positive_number word.now }
{
    let number = read_decimal(word)?;
    if number == 0 { None } else { Some(number) }
}

/// The number from 1 to 2^32 - 1 that a word spells.
pub fn short_positive(word: &[u8]) -> Option<u32>
    ensures { result ≡ short_positive_number word.now }
{
    u32::try_from(positive(word)?).ok()
}
