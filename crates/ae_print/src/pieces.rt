//! The pieces that lines are put together from.
ghost use Rattle.std.specs.Prelude.{◌≡◌, ◌+◌, ◌≤◌, ◌++◌, length};
ghost use Rattle.ae_nums.specs.Decimal.{decimal_text};
ghost use Rattle.ae_nums.specs.Hex.{hex8_text};

use ae_nums::{Text, decimal, hex8};

/// Appends a name and a word in eight hexadecimal digits.
pub fn push_word(line: &mut Text, name: &[u8], word: u32)
    requires { length line.old + length name.now + 8 ≤ 64 }
    ensures text { line.new ≡ line.old ++ name.now ++ hex8_text word }
    ensures size { length line.new ≡ length line.old + length name.now + 8 }
{
    line.push(name);
    line.push(&hex8(word));
}

/// Appends a name and a number in decimal, of at most 20 digits.
pub fn push_number(line: &mut Text, name: &[u8], number: u64)
    requires { length line.old + length name.now + 20 ≤ 64 }
    ensures text { line.new ≡ line.old ++ name.now ++ decimal_text number }
    ensures size { length line.new ≤ length line.old + length name.now + 20 }
{
    line.push(name);
    decimal(number, line);
}
