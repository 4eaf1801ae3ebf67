//! Reading the bytes of a schema.
ghost use Rattle.std.specs.Prelude.{◌≡◌, ◌≢◌, ◌+◌, ◌*◌, ◌<◌, ◌≤◌, length, Some, None, IfOk, IfErr};
ghost use Rattle.schema_form.specs.Inner.Heads.{AreHeadOf};
ghost use Rattle.schema_form.specs.Layout.{stretch_count, stretch_offset, stretches_from, schema_words_from, word_offset, words_total};
ghost use Rattle.schema_form.specs.Refusal.{head_refusal, body_refusal};
ghost use Rattle.schema_form.specs.Spells.{Spells, RefusedBy};

use crate::cycles::first_cycle;
use crate::front::{front_refusal, stretch_refusal};
use crate::numbers::{schema_word_from, stretch_from, word_from};
use crate::refusing::body_refusal;
use crate::schema::with_parts;
use crate::stretches::words_total;
use crate::{Schema, SchemaFault, SchemaWord};
use rv_code::Extent;
use std::alloc::{AllocError, Global};

/// The first so many stretches, which are whole.
fn stretches_from(alloc: Global, bytes: &[u8], count: u32) -> Result<Vec<Extent>, AllocError>
    requires { stretch_offset count ≤ length bytes.now }
    ensures { IfOk result (λ stretches. stretches.items ≡ stretches_from bytes.now count) }
{
    let mut stretches = Vec::new(alloc);
    for number in 0..count {
        stretches.push(stretch_from(bytes, number))?;
    }
    Ok(stretches)
}

/// So many code words, which are whole, from an offset on.
fn schema_words_from(
    alloc: Global,
    bytes: &[u8],
    first: u32,
    count: u32,
) -> Result<Vec<SchemaWord>, AllocError>
    requires { word_offset first count ≤ length bytes.now }
    ensures { IfOk result (λ words. words.items ≡ schema_words_from bytes.now first count) }
{
    let mut words = Vec::with_capacity(alloc, count as usize)?;
    for place in 0..count {
        words.push(schema_word_from(bytes, first as usize + 12 * place as usize))?;
    }
    Ok(words)
}

/// The stretches, where the bytes aren't refused up to the last of them.
fn read_head(alloc: Global, bytes: &[u8]) -> Result<Vec<Extent>, SchemaFault>
    ensures read { IfOk result (λ stretches. AreHeadOf bytes.now stretches.items) }
    ensures refused { IfErr result (λ fault. fault ≢ SchemaFault.NoMemory → head_refusal bytes.now ≡ Some fault) }
{
    if let Some(fault) = front_refusal(bytes) {
        return Err(fault);
    }
    let count = word_from(bytes, 8);
    if let Some(fault) = stretch_refusal(bytes, count) {
        return Err(fault);
    }
    let stretches = stretches_from(alloc, bytes, count)?;
    Ok(stretches)
}

/// The code words behind the stretches, where the bytes aren't refused for them.
fn read_body(
    alloc: Global,
    bytes: &[u8],
    stretches: &[Extent],
) -> Result<Vec<SchemaWord>, SchemaFault>
    requires { AreHeadOf bytes.now stretches.now }
    ensures taken { IfOk result (λ _. body_refusal bytes.now stretches.now (stretch_offset (stretch_count bytes.now)) ≡ None) }
    ensures read { IfOk result
        (λ words. words.items ≡ schema_words_from bytes.now (stretch_offset (stretch_count bytes.now)) (words_total stretches.now)) }
    ensures refused { IfErr result
        (λ fault. fault ≢ SchemaFault.NoMemory → body_refusal bytes.now stretches.now (stretch_offset (stretch_count bytes.now)) ≡ Some fault) }
{
    let first = 12 + 8 * word_from(bytes, 8);
    if let Some(fault) = body_refusal(bytes, stretches, first) {
        return Err(fault);
    }
    let words = schema_words_from(alloc, bytes, first, words_total(stretches))?;
    Ok(words)
}

/// Reads the bytes of a schema. Time is linear in their number, but for the search of an edge that closes a cycle, which takes a
/// logarithm more.
///
/// # Errors
///
/// The first refusal that holds, in the order of `docs/FORMATS.md`; or memory was wanting.
pub fn read_schema(alloc: Global, bytes: &[u8]) -> Result<Schema, SchemaFault>
    ensures read { IfOk result (λ schema. Spells bytes.now schema) }
    ensures refused { IfErr result (λ fault. fault ≢ SchemaFault.NoMemory → RefusedBy bytes.now fault) }
{
    let stretches = read_head(alloc, bytes)?;
    let words = read_body(alloc, bytes, &stretches)?;
    if let Some(edge) = first_cycle(alloc, &stretches, &words)? {
        return Err(SchemaFault::NotAForest { edge });
    }
    let schema = with_parts(alloc, word_from(bytes, 4), stretches, words)?;
    Ok(schema)
}
