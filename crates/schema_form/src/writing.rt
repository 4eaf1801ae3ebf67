//! Writing the bytes of a schema.
ghost use Rattle.std.specs.Prelude.{◌≡◌, OnOk, OnErr, flat_map};
ghost use Rattle.ae_nums.specs.Writer.{Puts};
ghost use Rattle.ae_ports.specs.Content.{Appends, AppendsFront};
ghost use Rattle.ae_ports.specs.Fault.{HasCause};
ghost use Rattle.schema_form.specs.Spelling.{stretch_bytes, schema_word_bytes, head_bytes, schema_bytes};

use crate::{Schema, SchemaWord};
use ae_nums::{LineWriter, put_u32};
use ae_ports::{Failed, Sink};
use rv_code::Extent;

/// What stands before the stretches.
fn head_bytes(schema: &Schema) -> [u8; 12]
    ensures { result ≡ head_bytes schema.now }
{
    let [a, b, c, d] = put_u32(schema.entry);
    let [e, f, g, h] = put_u32(schema.stretches.as_slice().len() as u32);
    [b'A', b'E', b'S', b'1', a, b, c, d, e, f, g, h]
}

fn stretch_bytes(stretch: &Extent) -> [u8; 8]
    ensures { result ≡ stretch_bytes stretch.now }
{
    let [a, b, c, d] = put_u32(stretch.start);
    let [e, f, g, h] = put_u32(stretch.count);
    [a, b, c, d, e, f, g, h]
}

fn schema_word_bytes(word: &SchemaWord) -> [u8; 12]
    ensures { result ≡ schema_word_bytes word.now }
{
    let [a, b, c, d] = put_u32(word.flags);
    let [e, f, g, h] = put_u32(word.raw);
    let [i, j, k, l] = put_u32(word.mask);
    [a, b, c, d, e, f, g, h, i, j, k, l]
}

fn write_stretches<K: Sink>(
    stretches: &[Extent],
    bytes: &mut LineWriter<'_, K>,
) -> Result<(), Failed>
    ensures { Puts K.told K.faults K.same_rest bytes.old bytes.new (flat_map stretch_bytes stretches.now) result }
{
    for stretch in stretches {
        bytes.write(&stretch_bytes(stretch))?;
    }
    Ok(())
}

fn write_schema_words<K: Sink>(
    words: &[SchemaWord],
    bytes: &mut LineWriter<'_, K>,
) -> Result<(), Failed>
    ensures { Puts K.told K.faults K.same_rest bytes.old bytes.new (flat_map schema_word_bytes words.now) result }
{
    for word in words {
        bytes.write(&schema_word_bytes(word))?;
    }
    Ok(())
}

/// Writes all of a schema.
fn write_schema<K: Sink>(schema: &Schema, bytes: &mut LineWriter<'_, K>) -> Result<(), Failed>
    ensures { Puts K.told K.faults K.same_rest bytes.old bytes.new (schema_bytes schema.now) result }
{
    bytes.write(&head_bytes(schema))?;
    write_stretches(schema.stretches.as_slice(), bytes)?;
    write_schema_words(schema.words.as_slice(), bytes)
}

/// Appends the bytes of a schema to a sink, in pieces of some thousand bytes. After `Failed` the sink got a front of them.
pub fn put_schema<K: Sink>(schema: &Schema, sink: &mut K) -> Result<(), Failed>
    ensures all { OnOk result (Appends (K.told sink.old) (K.told sink.new) (schema_bytes schema.now)) }
    ensures front { OnErr result (AppendsFront (K.told sink.old) (K.told sink.new) (schema_bytes schema.now)) }
    ensures cause { HasCause (K.faults sink.old) (K.faults sink.new) result }
    ensures rest { K.same_rest sink.old sink.new }
{
    let mut bytes = LineWriter::new(sink);
    write_schema(schema, &mut bytes)?;
    bytes.finish()
}
