//! What the bytes of a schema say at offsets.
ghost use Rattle.std.specs.Prelude.{◌≡◌, ◌+◌, ◌≤◌, length};
ghost use Rattle.schema_form.specs.Layout.{word_from, stretch_offset, stretch_from, schema_word_from};

use crate::SchemaWord;
use ae_nums::take_u32;
use rv_code::Extent;

/// The word of the four bytes at an offset, of which the first is the lowest.
pub fn word_from(bytes: &[u8], offset: usize) -> u32
    requires { offset + 4 ≤ length bytes.now }
    ensures { result ≡ word_from bytes.now offset }
{
    take_u32([
        bytes[offset],
        bytes[offset + 1],
        bytes[offset + 2],
        bytes[offset + 3],
    ])
}

/// The stretch with this number, counted from 0.
pub fn stretch_from(bytes: &[u8], number: u32) -> Extent
    requires { stretch_offset number + 8 ≤ length bytes.now }
    ensures { result ≡ stretch_from bytes.now number }
{
    let offset = 12 + 8 * number as usize;
    Extent {
        start: word_from(bytes, offset),
        count: word_from(bytes, offset + 4),
    }
}

/// What stands for a code word at an offset.
pub fn schema_word_from(bytes: &[u8], offset: usize) -> SchemaWord
    requires { offset + 12 ≤ length bytes.now }
    ensures { result ≡ schema_word_from bytes.now offset }
{
    SchemaWord {
        flags: word_from(bytes, offset),
        raw: word_from(bytes, offset + 4),
        mask: word_from(bytes, offset + 8),
    }
}
