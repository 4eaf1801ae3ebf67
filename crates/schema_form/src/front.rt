//! Which bytes are refused as a schema before its code words are looked at.
ghost use Rattle.std.specs.Prelude.{◌≡◌, ◌≤◌, None};
ghost use Rattle.schema_form.specs.Refusal.{header_misfits, front_refusal, stretch_misfits, stretch_refusal};

use crate::numbers::{stretch_from, word_from};
use crate::stretches::end_of;
use crate::{SCHEMA_LIMIT, SchemaFault};
use rv_code::{RANGES_LIMIT, STACK_START, WORDS_LIMIT};

/// Whether the header isn't whole, or there is no stretch, or too many.
fn header_misfits(bytes: &[u8]) -> bool
    ensures { result ≡ header_misfits bytes.now }
{
    if bytes.len() < 12 {
        return true;
    }
    let count = word_from(bytes, 8);
    count == 0 || count > RANGES_LIMIT
}

/// Why the bytes are refused by their number, their first four or the header.
pub fn front_refusal(bytes: &[u8]) -> Option<SchemaFault>
    ensures { result ≡ front_refusal bytes.now }
{
    if bytes.len() > SCHEMA_LIMIT {
        return Some(SchemaFault::TooLarge);
    }
    if !bytes.starts_with(&[0x41, 0x45, 0x53, 0x31]) {
        return Some(SchemaFault::NotSchema);
    }
    if header_misfits(bytes) {
        return Some(SchemaFault::BadEntry { offset: 0 });
    }
    None
}

/// Whether the stretch with this number isn't whole or isn't allowed.
fn stretch_misfits(bytes: &[u8], number: u32) -> bool
    ensures { result ≡ stretch_misfits bytes.now number }
{
    if bytes.len() < 20 + 8 * number as usize {
        return true;
    }
    let stretch = stretch_from(bytes, number);
    stretch.start % 4 != 0
        || stretch.count == 0
        || end_of(stretch) > u64::from(STACK_START)
        || (number > 0 && u64::from(stretch.start) <= end_of(stretch_from(bytes, number - 1)))
}

/// Why the first so many stretches are refused.
pub fn stretch_refusal(bytes: &[u8], count: u32) -> Option<SchemaFault>
    requires { count ≤ 16 }
    ensures { result ≡ stretch_refusal bytes.now count }
{
    let mut total = 0;
    for number in 0..count {
        if stretch_misfits(bytes, number) {
            return Some(SchemaFault::BadEntry {
                offset: 12 + 8 * number,
            });
        }
        total += stretch_from(bytes, number).count;
        if total > WORDS_LIMIT {
            return Some(SchemaFault::TooLarge);
        }
    }
    None
}
