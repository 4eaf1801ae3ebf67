//! The pieces of an instruction's text.
ghost use Rattle.std.specs.Prelude.{◌≡◌, ◌+◌, ◌≤◌, ◌∷◌, ◌++◌, length};
ghost use Rattle.std.specs.Fmt.{signed_decimal};
ghost use Rattle.ae_nums.specs.Decimal.{decimal_text};
ghost use Rattle.rv_text.specs.Shapes.{register_text, front_text, target_text};

use ae_nums::{Text, decimal, hex8};

/// Appends a register, as `x5`.
pub fn push_register(text: &mut Text, register: u8)
    requires { length text.old + 21 ≤ 64 }
    ensures text { text.new ≡ text.old ++ register_text register }
    ensures size { length text.new ≤ length text.old + 4 }
{
    text.push(b"x");
    decimal(u64::from(register), text);
}

// appends a minus and the number below zero that has this distance from it
fn push_negative(text: &mut Text, distance: u32)
    requires { length text.old + 21 ≤ 64 }
    ensures text { text.new ≡ text.old ++ 45 ∷ decimal_text distance }
    ensures size { length text.new ≤ length text.old + 11 }
{
    text.push(b"-");
    decimal(u64::from(distance), text);
}

/// Appends a signed number in decimal, with a minus where it is below zero.
pub fn push_signed(text: &mut Text, number: i32)
    requires { length text.old + 21 ≤ 64 }
    ensures text { text.new ≡ text.old ++ signed_decimal number }
    ensures size { length text.new ≤ length text.old + 11 }
{
    if number < 0 {
        push_negative(text, number.unsigned_abs());
    } else {
        decimal(u64::from(number.unsigned_abs()), text);
    }
}

/// Appends the address so many bytes past another, modulo 2^32.
pub fn push_target(text: &mut Text, address: u32, bytes: i32)
    requires { length text.old + 8 ≤ 64 }
    ensures { text.new ≡ text.old ++ target_text address bytes }
{
    text.push(&hex8(address.wrapping_add(bytes.cast_unsigned())));
}

/// A text that begins with a name and a register, as `lui x5, `.
pub fn front(name: &[u8], register: u8) -> Text
    requires { length name.now ≤ 6 }
    ensures text { result ≡ front_text name.now register }
    ensures short { length result ≤ 13 }
{
    let mut text = Text::new();
    text.push(name);
    text.push(b" ");
    push_register(&mut text, register);
    text.push(b", ");
    text
}
