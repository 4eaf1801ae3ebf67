//! The text of an event file.
ghost use Rattle.std.specs.Prelude.{◌≡◌, ◌≤◌, true, ◌∷◌, OnOk, OnErr, IfOk, IfErr, IsOk, Ok, length};
ghost use Rattle.ae_nums.specs.Writer.{Puts};
ghost use Rattle.ae_ports.specs.Content.{Appends, AppendsFront};
ghost use Rattle.ae_ports.specs.Fault.{HasCause};
ghost use Rattle.ae_print.specs.EventText.{IsBegunEventText, IsEventText, end_text, further_text, record_front, record_line, record_name, stop_text};
ghost use Rattle.ae_print.specs.Inner.SomePut.{PutsSome};
ghost use Rattle.ae_print.specs.SomeText.{AppendsFrontOfSome, AppendsSome};
ghost use Rattle.ae_print.specs.Spaced.{spaced_word, spaced_words};

use crate::pieces::{push_number, push_word};
use crate::spaced::{spaced_word, write_spaced};
use ae_nums::{LineWriter, Text};
use ae_ports::{Failed, Sink, SteadySource};
use ev_format::{Record, Records, Shape, Stop};

/// What an ending's record has behind its address.
fn text_of_end(kind: u32, detail: u32) -> Text
    ensures { result ≡ end_text kind detail }
{
    let mut text = Text::new();
    push_number(&mut text, b" ", u64::from(kind));
    push_word(&mut text, b" ", detail);
    text
}

/// Writes what stands behind the target of a landing.
fn write_landing<K: Sink>(
    target: u32,
    values: &[u32],
    lines: &mut LineWriter<'_, K>,
) -> Result<(), Failed>
    ensures { Puts K.told K.faults K.same_rest lines.old lines.new (spaced_words (target ∷ values.now)) result }
{
    lines.write(spaced_word(target).bytes())?;
    write_spaced(values, lines)
}

/// Writes what stands behind the address of a record.
fn write_further<K: Sink>(rec: &Record, lines: &mut LineWriter<'_, K>) -> Result<(), Failed>
    ensures { Puts K.told K.faults K.same_rest lines.old lines.new (further_text rec.now) result }
{
    match rec {
        Record::Fall(_) | Record::Taken(_) => lines.write(b""),
        Record::Value { value, .. } => lines.write(spaced_word(*value).bytes()),
        Record::Landing { target, values, .. } => write_landing(*target, values.words(), lines),
        Record::End { kind, detail, .. } => lines.write(text_of_end(*kind, *detail).bytes()),
    }
}

/// The name of a record, behind a blank.
fn name_of(rec: &Record) -> &'static [u8]
    ensures name { result.now ≡ record_name rec.now }
    ensures size { length result.now ≤ 8 }
{
    match rec {
        Record::Fall(_) => b" fall",
        Record::Taken(_) => b" taken",
        Record::Value { .. } => b" value",
        Record::Landing { .. } => b" landing",
        Record::End { .. } => b" end",
    }
}

/// The front of a record's line, up to its address.
fn front_of(offset: u64, name: &[u8], address: u32) -> Text
    requires { length name.now ≤ 8 }
    ensures { result ≡ record_front offset name.now address }
{
    let mut text = Text::new();
    push_number(&mut text, b"", offset);
    text.push(name);
    push_word(&mut text, b" ", address);
    text
}

/// Writes the line of a record.
fn write_record<K: Sink>(
    offset: u64,
    rec: &Record,
    lines: &mut LineWriter<'_, K>,
) -> Result<(), Failed>
    ensures { Puts K.told K.faults K.same_rest lines.old lines.new (record_line (offset, rec.now)) result }
{
    lines.write(front_of(offset, name_of(rec), rec.address()).bytes())?;
    write_further(rec, lines)?;
    lines.write(b"\n")
}

/// Appends the line of a record, which stands at this offset of an event file, to a sink. After `Failed` the sink got a front of it.
pub fn print_record<K: Sink>(offset: u64, rec: &Record, sink: &mut K) -> Result<(), Failed>
    ensures all { OnOk result (Appends (K.told sink.old) (K.told sink.new) (record_line (offset, rec.now))) }
    ensures front { OnErr result (AppendsFront (K.told sink.old) (K.told sink.new) (record_line (offset, rec.now))) }
    ensures cause { HasCause (K.faults sink.old) (K.faults sink.new) result }
    ensures rest { K.same_rest sink.old sink.new }
{
    let mut lines = LineWriter::new(sink);
    write_record(offset, rec, &mut lines)?;
    lines.finish()
}

/// Writes the last line, where the file is cut.
fn write_stop<K: Sink>(stop: Stop, lines: &mut LineWriter<'_, K>) -> Result<(), Failed>
    ensures { Puts K.told K.faults K.same_rest lines.old lines.new (stop_text stop) result }
{
    match stop {
        Stop::Cut => lines.write(b"cut\n"),
        Stop::Finished | Stop::OtherProgram | Stop::BadRecord { .. } => lines.write(b""),
    }
}

/// Writes the lines of an event file.
fn write_events<H: Shape, K: Sink>(
    shape: &H,
    events: &mut SteadySource,
    lines: &mut LineWriter<'_, K>,
) -> Result<Stop, Failed>
    ensures all { IfOk result (λ stop. PutsSome K.told K.faults K.same_rest (IsEventText (H.shown shape.now) events.old stop) lines.old lines.new) }
    ensures front { IfErr result (λ _. PutsSome K.told K.faults K.same_rest (IsBegunEventText (H.shown shape.now) events.old) lines.old lines.new) }
    ensures broken { IfErr result (λ _. lines.new.broken ≡ true) }
{
    let mut records = Records::start();
    let mut rec = Record::Fall(0);
    loop {
        match records.read(shape, events, &mut rec) {
            Ok(offset) => write_record(offset, &rec, lines)?,
            Err(stop) => {
                write_stop(stop, lines)?;
                return Ok(stop);
            }
        }
    }
}

/// Appends the text of an event file of this shape to a sink, in pieces of some thousand bytes: a line for each whole record before the
/// place where reading stops, and one more where the file is cut there. It answers why reading stopped. After `Failed` the sink got a
/// front of the lines.
pub fn print_events<H: Shape, K: Sink>(
    shape: &H,
    events: &mut SteadySource,
    sink: &mut K,
) -> Result<Stop, Failed>
    ensures all { IfOk result (λ stop. AppendsSome (IsEventText (H.shown shape.now) events.old stop) (K.told sink.old) (K.told sink.new)) }
    ensures front { IfErr result (λ _. AppendsFrontOfSome (IsBegunEventText (H.shown shape.now) events.old) (K.told sink.old) (K.told sink.new)) }
    ensures cause { HasCause (K.faults sink.old) (K.faults sink.new) result }
    ensures rest { K.same_rest sink.old sink.new }
{
    let mut lines = LineWriter::new(sink);
    let stop = write_events(shape, events, &mut lines)?;
    lines.finish()?;
    Ok(stop)
}
