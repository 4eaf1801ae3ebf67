ghost use Rattle.std.specs.Prelude.{◌≡◌, ◌+◌, ◌<◌, ◌≤◌, [], ◌∷◌, ◌++◌, length};
ghost use Rattle.ae_nums.specs.Hex.{hex8_text};
ghost use Rattle.ae_nums.specs.Trace.{access_text, item_text, line_of};

use crate::{Item, Text, decimal, hex8};

/// The line of an item in a trace, as `I 00010074`, `R 00011000 4` or `W 7fffffbc 1`, with the newline that ends it.
/// The address has eight hexadecimal digits, and the size is in decimal.
pub fn item_line(item: &Item) -> Text
    ensures line { result ≡ line_of item.now }
    ensures short { length result ≤ 32 }
{
    let mut line = item_text(item);
    line.push(b"\n");
    line
}

/// An item, without the end of its line.
fn item_text(item: &Item) -> Text
    ensures text { result ≡ item_text item.now }
    ensures short { length result ≤ 31 }
{
    match *item {
        Item::Fetch(address) => fetch_text(address),
        Item::Read { address, size } => access_text(b"R ", address, size),
        Item::Write { address, size } => access_text(b"W ", address, size),
    }
}

fn fetch_text(address: u32) -> Text
    ensures { result ≡ item_text (Item.Fetch address) }
{
    let mut text = Text::new();
    text.push(b"I ");
    text.push(&hex8(address));
    text
}

/// A mark, an address and a size.
fn access_text(mark: &[u8; 2], address: u32, size: u8) -> Text
    ensures text { result ≡ access_text mark.now address size }
    ensures short { length result ≤ 31 }
{
    let mut text = Text::new();
    text.push(mark);
    text.push(&hex8(address));
    text.push(b" ");
    decimal(u64::from(size), &mut text);
    text
}

/// The line of a fetch.
#[inline(always)]
pub(crate) fn fetch_line(address: u32) -> [u8; 11]
    ensures { result ≡ line_of (Item.Fetch address) }
{
    let [a, b, c, d, e, f, g, h] = hex8(address);
    [b'I', b' ', a, b, c, d, e, f, g, h, b'\n']
}

/// The line of an access of less than ten bytes.
#[inline(always)]
pub(crate) fn access_line(mark: u8, address: u32, size: u8) -> [u8; 13]
    requires { size < 10 }
    ensures { result ≡ mark ∷ 32 ∷ (hex8_text address ++ 32 ∷ (48 + size) ∷ 10 ∷ []) }
{
    let [a, b, c, d, e, f, g, h] = hex8(address);
    [mark, b' ', a, b, c, d, e, f, g, h, b' ', b'0' + size, b'\n']
}
