ghost use Rattle.std.specs.Prelude.{◌≡◌};
ghost use Rattle.rv_code.specs.Numbers.{bytes_of, number_of};

/// The four bytes of a word, lowest first.
pub fn put_u32(word: u32) -> [u8; 4]
    ensures bytes { result ≡ bytes_of 4 word }
    ensures read_back { number_of result ≡ word }
{
    word.to_le_bytes()
}

/// The word of four bytes, of which the first is the lowest.
pub fn take_u32(bytes: [u8; 4]) -> u32
    ensures word { result ≡ number_of bytes }
    ensures put_back { bytes_of 4 result ≡ bytes }
{
    u32::from_le_bytes(bytes)
}
