//! The lines of statuses.
ghost use Rattle.std.specs.Prelude.{◌≡◌, ◌≤◌, ◌++◌, [], slice_index_or, OnOk, OnErr};
ghost use Rattle.ae_nums.specs.Trace.{newline};
ghost use Rattle.ae_ports.specs.Content.{Appends, AppendsFront};
ghost use Rattle.ae_ports.specs.Fault.{HasCause};
ghost use Rattle.ae_top.specs.StatusLines.{status_text, status_detail, status_line, GetsLine};
ghost use Rattle.ae_top.specs.World.{port};

use crate::Status;
use crate::refusal_lines::{
    digits_of, events_refusal_detail, events_refusal_text, refusal_detail, refusal_text,
    schema_refusal_detail, schema_refusal_text,
};
use ae_ports::{Failed, Sink, Word, write_all};

/// Writes a text, a detail and a newline.
fn write_line<K: Sink>(sink: &mut K, text: &[u8], detail: &[u8]) -> Result<(), Failed>
    ensures ok { OnOk result (Appends (K.told sink.old) (K.told sink.new) (text.now ++ detail.now ++ newline)) }
    ensures failed { OnErr result (AppendsFront (K.told sink.old) (K.told sink.new) (text.now ++ detail.now ++ newline)) }
    ensures cause { HasCause (K.faults sink.old) (K.faults sink.new) result }
    ensures rest { K.same_rest sink.old sink.new }
{
    write_all(sink, text)?;
    write_all(sink, detail)?;
    write_all(sink, b"\n")
}

/// The fixed part of a status' line.
fn fixed_text(status: Status) -> &'static [u8]
    ensures { result.now ≡ status_text status }
{
    match status {
        Status::Done | Status::Faulted(_) => b"",
        Status::Usage => b"ae: usage",
        Status::CutShort => b"ae: events cut short",
        Status::Missing { .. } => b"ae: missing ",
        Status::Refused(refusal) => refusal_text(refusal),
        Status::BadSchema(fault) => schema_refusal_text(fault),
        Status::BadEvents(refusal) => events_refusal_text(refusal),
        Status::StoreFault => b"ae: store fault",
        Status::InputFault => b"ae: input fault",
        Status::OutFault => b"ae: out fault",
        Status::ErrFault => b"ae: err fault",
        Status::FuelSpent { .. } => b"ae: fuel spent ",
        Status::Memory => b"ae: no memory",
    }
}

/// The bytes of the word at this place, none where there is no such word.
fn word_at(words: &[Word], place: u32) -> &[u8]
    ensures { result.now ≡ slice_index_or words.now place [] }
{
    match words.get(place as usize) {
        Some(word) => word.bytes(),
        None => b"",
    }
}

/// Writes the line of a status.
fn write_status<K: Sink>(sink: &mut K, words: &[Word], status: Status) -> Result<(), Failed>
    ensures ok { OnOk result (Appends (K.told sink.old) (K.told sink.new) (status_line words.now status)) }
    ensures failed { OnErr result (AppendsFront (K.told sink.old) (K.told sink.new) (status_line words.now status)) }
    ensures cause { HasCause (K.faults sink.old) (K.faults sink.new) result }
    ensures rest { K.same_rest sink.old sink.new }
{
    let text = fixed_text(status);
    match status {
        Status::Missing { word } => write_line(sink, text, word_at(words, word)),
        Status::FuelSpent { steps } => write_line(sink, text, digits_of(steps).bytes()),
        Status::Refused(refusal) => write_line(sink, text, refusal_detail(refusal).bytes()),
        Status::BadSchema(fault) => write_line(sink, text, schema_refusal_detail(fault).bytes()),
        Status::BadEvents(refusal) => write_line(
            sink,
            text,
            events_refusal_detail(refusal).bytes(),
        ),
        _ => write_line(sink, text, b""),
    }
}

/// Writes the line of a status. Whether this can be done changes nothing.
pub fn tell<K: Sink>(sink: &mut K, words: &[Word], status: Status)
    ensures line { GetsLine (port (K.told sink.old) (K.faults sink.old)) (port (K.told sink.new) (K.faults sink.new))
        (status_line words.now status) }
    ensures later { K.faults sink.old ≤ K.faults sink.new }
    ensures rest { K.same_rest sink.old sink.new }
{
    let _ = write_status(sink, words, status);
}
