//! What is next in an event file, record or none.
ghost use Rattle.std.specs.Prelude.{◌≡◌, ◌≤◌, ◌++◌, IfOk, IfErr, OnOk};
ghost use Rattle.ae_ports.specs.Content.{Consumes};
ghost use Rattle.ev_format.specs.Answers.{IfStopped, HaltRises};
ghost use Rattle.ev_format.specs.Inner.Filling.{HasRisenBy};
ghost use Rattle.ev_format.specs.Reading.{MayBeNext, header_before, RecordStops, EndStops, StopsWith};
ghost use Rattle.ev_format.specs.Shapes.{HasRecord};
ghost use Rattle.ev_format.specs.Spelling.{record_bytes};

use crate::body::read_body;
use crate::fill::read_word;
use crate::header::{HEADER_LENGTH, read_header};
use crate::kind::kind_at;
use crate::{Halt, Place, Record, Shape, Stop};
use ae_ports::{Failed, Source};

/// Reads the record that is next at a place, and answers its offset. Where there is none, `rec` is as before.
#[inline(always)]
pub fn read_next<S: Source, H: Shape>(
    place: Place,
    shape: &H,
    source: &mut S,
    rec: &mut Record,
) -> Result<u64, Halt>
    ensures next { IfOk result (λ offset. MayBeNext (H.shown shape.now) place offset rec.new) }
    ensures taken { IfOk result (λ _. Consumes (S.told source.old) (S.told source.new)
        (header_before (H.shown shape.now) place ++ record_bytes rec.new)) }
    ensures unread { IfErr result (λ _. rec.new ≡ rec.old) }
    ensures stopped { IfErr result (IfStopped (S.told source.old) (StopsWith (H.shown shape.now) place)) }
    ensures cause { HasRisenBy (S.faults source.old) (S.faults source.new) result }
    ensures rest { S.same_rest source.old source.new }
{
    match place {
        Place::Start => {
            read_header(shape, source)?;
            read_record(HEADER_LENGTH, shape, source, rec)?;
            Ok(HEADER_LENGTH)
        }
        Place::Within { offset } => {
            read_record(offset, shape, source, rec)?;
            Ok(offset)
        }
        Place::Ended { offset } => Err(halt_behind_end(offset, source)),
    }
}

// reads the record that begins at this offset
#[inline(always)]
fn read_record<S: Source, H: Shape>(
    offset: u64,
    shape: &H,
    source: &mut S,
    rec: &mut Record,
) -> Result<(), Halt>
    ensures next { OnOk result (HasRecord (H.shown shape.now) rec.new) }
    ensures taken { OnOk result (Consumes (S.told source.old) (S.told source.new) (record_bytes rec.new)) }
    ensures unread { IfErr result (λ _. rec.new ≡ rec.old) }
    ensures stopped { IfErr result (IfStopped (S.told source.old) (RecordStops (H.shown shape.now) offset)) }
    ensures cause { HasRisenBy (S.faults source.old) (S.faults source.new) result }
    ensures rest { S.same_rest source.old source.new }
{
    let word = read_word(source)?;
    let bits = word % 4;
    let at = word - bits;
    match kind_at(shape.slot(at), at, bits) {
        Some(kind) => read_body(kind, at, shape, source, rec),
        None => Err(Halt::Stopped(Stop::BadRecord { offset })),
    }
}

// what stands behind an `End`, at this offset
#[inline(never)]
fn halt_behind_end<S: Source>(offset: u64, source: &mut S) -> Halt
    ensures stopped { IfStopped (S.told source.old) (EndStops offset) result }
    ensures later { S.faults source.old ≤ S.faults source.new }
    ensures cause { HaltRises (S.faults source.old) (S.faults source.new) result }
    ensures rest { S.same_rest source.old source.new }
{
    match source.read(&mut [0]) {
        Ok(0) => Halt::Stopped(Stop::Finished),
        Ok(_) => Halt::Stopped(Stop::BadRecord { offset }),
        Err(Failed) => Halt::Failed,
    }
}
