ghost use Rattle.std.specs.Prelude.{◌≡◌, ℕ, ◌+◌, ◌^◌, ◌<◌, ◌≤◌, ◌++◌, length, IfSome};
ghost use Rattle.ae_nums.specs.Decimal.{decimal_text, digits_number, decimal_number};

use crate::Text;

/// Appends a number in decimal, with no leading zero. 20 bytes have to be free, and no more than that are written.
pub fn decimal(number: u64, out: &mut Text)
    requires { length out.old + 20 ≤ 64 }
    ensures digits { out.new ≡ out.old ++ decimal_text number }
    ensures short { length (decimal_text number) ≤ 20 }
{
    let mut digits = [b'0'; 20];
    let mut from: usize = 19;
    let mut rest = number;
    while rest >= 10 {
        digits[from] = b'0' + (rest % 10) as u8;
        from -= 1;
        rest /= 10;
    }
    digits[from] = b'0' + rest as u8;
    out.push(&digits[from..]);
}

/// The number that the bytes spell in decimal. It is `None` where there is no byte, a byte is no digit, a zero stands
/// before another digit, or the number is above 2^64 - 1. So each number has one spelling, the one that `decimal` writes.
pub fn read_decimal(bytes: &[u8]) -> Option<u64>
    ensures number { result ≡ decimal_number bytes.now }
    ensures one_spelling { IfSome result (λ number. decimal_text number ≡ bytes.now) }
    ensures read_back { (number : ℕ) → number < 2 ^ 64 → bytes.now ≡ decimal_text number → result ≡ Some number }
{
    if bytes.is_empty() || (bytes[0] == b'0' && bytes.len() > 1) {
        None
    } else {
        number_of_digits(bytes)
    }
}

/// The number that digits spell, also with zeros in front. It is `None` where a byte is no digit, or the number is
/// above 2^64 - 1.
fn number_of_digits(bytes: &[u8]) -> Option<u64>
    ensures { result ≡ digits_number bytes.now }
{
    let mut number: u64 = 0;
    for byte in bytes {
        if !byte.is_ascii_digit() {
            return None;
        }
        number = number
            .checked_mul(10)?
            .checked_add(u64::from(*byte - b'0'))?;
    }
    Some(number)
}
