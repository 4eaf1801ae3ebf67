//! The text of a schema.
ghost use Rattle.std.specs.Prelude.{◌≡◌, ◌^◌, ◌<◌, OnOk, OnErr, length, slice_index_or};
ghost use Rattle.ae_nums.specs.Writer.{Puts};
ghost use Rattle.ae_ports.specs.Content.{Appends, AppendsFront};
ghost use Rattle.ae_ports.specs.Fault.{HasCause};
ghost use Rattle.rv_code.specs.Places.{code_addresses};
ghost use Rattle.ae_print.specs.SchemaText.{ranges_text, schema_front, schema_line, schema_lines, schema_text, words_text};

use crate::pieces::{push_number, push_word};
use crate::spaced::write_spaced;
use ae_nums::{LineWriter, Text, hex8};
use ae_ports::{Failed, Sink};
use schema_form::{Schema, SchemaWord};

/// The first line, up to the number of stretches.
fn ranges_text(entry: u32, ranges: u32) -> Text
    ensures { result ≡ ranges_text entry ranges }
{
    let mut line = Text::new();
    push_word(&mut line, b"entry ", entry);
    push_number(&mut line, b" ranges ", u64::from(ranges));
    line
}

/// The rest of the first line.
fn words_text(words: u32) -> Text
    ensures { result ≡ words_text words }
{
    let mut line = Text::new();
    push_number(&mut line, b" words ", u64::from(words));
    line.push(b"\n");
    line
}

/// Writes the first line.
fn write_front<K: Sink>(
    entry: u32,
    ranges: u32,
    words: u32,
    lines: &mut LineWriter<'_, K>,
) -> Result<(), Failed>
    ensures { Puts K.told K.faults K.same_rest lines.old lines.new (schema_front entry ranges words) result }
{
    lines.write(ranges_text(entry, ranges).bytes())?;
    lines.write(words_text(words).bytes())
}

/// The address of the code word at a place, 0 where there are fewer.
fn address_at(schema: &Schema, place: u32) -> u32
    ensures { result ≡ slice_index_or (code_addresses schema.now.stretches) place 0 }
{
    schema.address_of(place).unwrap_or(0)
}

/// Writes the line of a code word at an address.
fn write_word<K: Sink>(
    address: u32,
    word: SchemaWord,
    lines: &mut LineWriter<'_, K>,
) -> Result<(), Failed>
    ensures { Puts K.told K.faults K.same_rest lines.old lines.new (schema_line address word) result }
{
    lines.write(&hex8(address))?;
    write_spaced(&[word.flags, word.raw, word.mask], lines)?;
    lines.write(b"\n")
}

/// Writes the lines of the code words, which are the schema's.
fn write_words<K: Sink>(
    schema: &Schema,
    words: &[SchemaWord],
    lines: &mut LineWriter<'_, K>,
) -> Result<(), Failed>
    requires same { words.now ≡ schema.now.words }
    requires few { length words.now < 2 ^ 32 }
    ensures { Puts K.told K.faults K.same_rest lines.old lines.new (schema_lines schema.now) result }
{
    for (place, word) in words.iter().enumerate() {
        write_word(address_at(schema, place as u32), *word, lines)?;
    }
    Ok(())
}

/// Writes the text of a schema.
fn write_schema<K: Sink>(schema: &Schema, lines: &mut LineWriter<'_, K>) -> Result<(), Failed>
    ensures { Puts K.told K.faults K.same_rest lines.old lines.new (schema_text schema.now) result }
{
    let stretches = schema.stretches.as_slice().len() as u32;
    let words = schema.words.as_slice();
    write_front(schema.entry, stretches, words.len() as u32, lines)?;
    write_words(schema, words, lines)
}

/// Appends the text of a schema to a sink, in pieces of some thousand bytes: a line for the whole, and one for each code word, in the
/// order of addresses. After `Failed` the sink got a front of the text.
pub fn print_schema<K: Sink>(schema: &Schema, sink: &mut K) -> Result<(), Failed>
    ensures all { OnOk result (Appends (K.told sink.old) (K.told sink.new) (schema_text schema.now)) }
    ensures front { OnErr result (AppendsFront (K.told sink.old) (K.told sink.new) (schema_text schema.now)) }
    ensures cause { HasCause (K.faults sink.old) (K.faults sink.new) result }
    ensures rest { K.same_rest sink.old sink.new }
{
    let mut lines = LineWriter::new(sink);
    write_schema(schema, &mut lines)?;
    lines.finish()
}
