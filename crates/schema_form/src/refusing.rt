//! Which bytes are refused as a schema for what stands behind the stretches.
ghost use Rattle.std.specs.Prelude.{◌≡◌, ◌≤◌, length};
ghost use Rattle.schema_form.specs.Refusal.{word_offends, word_refusal, end_refusal, body_refusal};
ghost use Rattle.schema_form.specs.Valid.{AreStretches};

use crate::SchemaFault;
use crate::numbers::{schema_word_from, word_from};
use crate::rules::word_misfits;
use crate::stretches::{address_of, has_word, words_total};
use rv_code::Extent;

/// Whether the code word at this place isn't whole or isn't allowed.
fn word_offends(bytes: &[u8], stretches: &[Extent], first: u32, place: u32) -> bool
    requires stretches { AreStretches stretches.now }
    ensures { result ≡ word_offends bytes.now stretches.now first place }
{
    let offset = first as usize + 12 * place as usize;
    if bytes.len() < offset + 12 {
        return true;
    }
    match address_of(stretches, place) {
        Some(address) => word_misfits(stretches, address, schema_word_from(bytes, offset)),
        None => true,
    }
}

/// Why the code words are refused, of which the first stands at an offset.
fn word_refusal(bytes: &[u8], stretches: &[Extent], first: u32) -> Option<SchemaFault>
    requires stretches { AreStretches stretches.now }
    requires first { first ≤ 140 }
    ensures { result ≡ word_refusal bytes.now stretches.now first }
{
    for place in 0..words_total(stretches) {
        if word_offends(bytes, stretches, first, place) {
            return Some(SchemaFault::BadEntry {
                offset: first + 12 * place,
            });
        }
    }
    None
}

/// Why the bytes are refused for those behind the last word.
fn end_refusal(bytes: &[u8], behind: u32) -> Option<SchemaFault>
    ensures { result ≡ end_refusal bytes.now behind }
{
    if bytes.len() > behind as usize {
        return Some(SchemaFault::BadEntry { offset: behind });
    }
    None
}

/// Why the bytes are refused for the entry and for what stands behind the stretches, at an offset.
pub fn body_refusal(bytes: &[u8], stretches: &[Extent], first: u32) -> Option<SchemaFault>
    requires stretches { AreStretches stretches.now }
    requires first { first ≤ 140 }
    requires whole { first ≤ length bytes.now }
    requires header { 12 ≤ first }
    ensures { result ≡ body_refusal bytes.now stretches.now first }
{
    if !has_word(stretches, word_from(bytes, 4)) {
        return Some(SchemaFault::BadEntry { offset: 4 });
    }
    match word_refusal(bytes, stretches, first) {
        Some(fault) => Some(fault),
        None => end_refusal(bytes, first + 12 * words_total(stretches)),
    }
}
