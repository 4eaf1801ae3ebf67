//! The header of an event file.
ghost use Rattle.std.specs.Prelude.{◌≡◌};
ghost use Rattle.ae_nums.specs.EventHeader.{event_header};

use crate::put_u32;

/// The 16 bytes at the front of an event file: `AEV1`, and what the program is known by whose events they are, which is its entry, the
/// address of its first code word, and how many code words it has.
pub fn event_header(entry: u32, first: u32, count: u32) -> [u8; 16]
    ensures { result ≡ event_header entry first count }
{
    let [a, b, c, d] = put_u32(entry);
    let [e, f, g, h] = put_u32(first);
    let [i, j, k, l] = put_u32(count);
    [b'A', b'E', b'V', b'1', a, b, c, d, e, f, g, h, i, j, k, l]
}
