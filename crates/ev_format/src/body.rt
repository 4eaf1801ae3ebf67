//! What records have behind their first word.
ghost use Rattle.std.specs.Prelude.{◌≡◌, ◌+◌, ◌*◌, ◌≤◌, ◌%◌, length, IfOk, IfErr, OnOk};
ghost use Rattle.std.specs.List.{flat_map, AllByRecursion};
ghost use Rattle.ae_nums.specs.Registers.{registers_of};
ghost use Rattle.ae_ports.specs.Content.{Consumes};
ghost use Rattle.rv_code.specs.Numbers.{IsWord, bytes_of};
ghost use Rattle.ev_format.specs.declared.kind.RecordKind.TheVariants as kinds;
ghost use Rattle.ev_format.specs.Answers.{IfStopped};
ghost use Rattle.ev_format.specs.Inner.Bodies.{further_bytes, IsOf, BodyStops, IsEnd};
ghost use Rattle.ev_format.specs.Inner.Filling.{FallsShort, HasRisenBy};
ghost use Rattle.ev_format.specs.Shapes.{value_count};

use crate::fill::{fill, read_word};
use crate::{Halt, Record, RecordKind, Shape, Values};
use ae_nums::take_u32;
use ae_ports::Source;

/// Reads what a record of this kind has behind its first word. Where it isn't whole, `rec` is as before.
#[inline(always)]
pub fn read_body<S: Source, H: Shape>(
    kind: RecordKind,
    at: u32,
    shape: &H,
    source: &mut S,
    rec: &mut Record,
) -> Result<(), Halt>
    ensures whole { OnOk result (IsOf (H.shown shape.now) kind at rec.new) }
    ensures taken { OnOk result (Consumes (S.told source.old) (S.told source.new) (further_bytes rec.new)) }
    ensures unread { IfErr result (λ _. rec.new ≡ rec.old) }
    ensures stopped { IfErr result (IfStopped (S.told source.old) (BodyStops (H.shown shape.now) kind at)) }
    ensures cause { HasRisenBy (S.faults source.old) (S.faults source.new) result }
    ensures rest { S.same_rest source.old source.new }
{
    match kind {
        RecordKind::Fall => *rec = Record::Fall(at),
        RecordKind::Taken => *rec = Record::Taken(at),
        RecordKind::Value => {
            let value = read_word(source)?;
            *rec = Record::Value { at, value };
        }
        RecordKind::Landing => read_landing(at, shape, source, rec)?,
        RecordKind::End => read_end(at, source, rec)?,
    }
    Ok(())
}

#[inline(never)]
fn read_end<S: Source>(at: u32, source: &mut S, rec: &mut Record) -> Result<(), Halt>
    ensures whole { OnOk result (IsEnd at rec.new) }
    ensures taken { OnOk result (Consumes (S.told source.old) (S.told source.new) (further_bytes rec.new)) }
    ensures unread { IfErr result (λ _. rec.new ≡ rec.old) }
    ensures short { IfErr result (IfStopped (S.told source.old) (FallsShort 8)) }
    ensures cause { HasRisenBy (S.faults source.old) (S.faults source.new) result }
    ensures rest { S.same_rest source.old source.new }
{
    let kind = read_word(source)?;
    let detail = read_word(source)?;
    *rec = Record::End { at, kind, detail };
    Ok(())
}

#[inline(never)]
fn read_landing<S: Source, H: Shape>(
    at: u32,
    shape: &H,
    source: &mut S,
    rec: &mut Record,
) -> Result<(), Halt>
    ensures whole { OnOk result (IsOf (H.shown shape.now) kinds.Landing at rec.new) }
    ensures taken { OnOk result (Consumes (S.told source.old) (S.told source.new) (further_bytes rec.new)) }
    ensures unread { IfErr result (λ _. rec.new ≡ rec.old) }
    ensures stopped { IfErr result (IfStopped (S.told source.old) (BodyStops (H.shown shape.now) kinds.Landing at)) }
    ensures cause { HasRisenBy (S.faults source.old) (S.faults source.new) result }
    ensures rest { S.same_rest source.old source.new }
{
    let target = read_word(source)?;
    let values = read_values(value_count(shape, target), source)?;
    *rec = Record::Landing { at, target, values };
    Ok(())
}

/// How many values a landing at this target has: one for each register that is needed there, none where no code word stands there.
pub fn value_count<H: Shape>(shape: &H, target: u32) -> usize
    ensures count { result ≡ value_count (H.shown shape.now) target }
    ensures few { result ≤ 31 }
{
    match shape.needs(target) {
        None => 0,
        Some(mask) => register_count(mask),
    }
}

// how many registers a mask has
fn register_count(mask: u32) -> usize
    requires { mask % 2 ≡ 0 }
    ensures count { result ≡ length (registers_of mask) }
    ensures few { result ≤ 31 }
{
    mask.count_ones() as usize
}

fn read_values<S: Source>(count: usize, source: &mut S) -> Result<Values, Halt>
    requires { count ≤ 31 }
    ensures count { IfOk result (λ values. length values ≡ count) }
    ensures words { IfOk result (λ values. AllByRecursion IsWord values) }
    ensures taken { IfOk result (λ values. Consumes (S.told source.old) (S.told source.new) (flat_map (bytes_of 4) values)) }
    ensures short { IfErr result (IfStopped (S.told source.old) (FallsShort (4 * count))) }
    ensures cause { HasRisenBy (S.faults source.old) (S.faults source.new) result }
    ensures rest { S.same_rest source.old source.new }
{
    let mut room = [0; 124];
    let piece = &mut room[..4 * count];
    fill(source, piece)?;
    Ok(words_in(piece))
}

// the words of at most 124 bytes, lowest byte first
fn words_in(bytes: &[u8]) -> Values
    requires whole { length bytes.now % 4 ≡ 0 }
    requires few { length bytes.now ≤ 124 }
    ensures bytes { flat_map (bytes_of 4) result ≡ bytes.now }
    ensures count { 4 * length result ≡ length bytes.now }
    ensures words { AllByRecursion IsWord result }
{
    let mut values = Values::new();
    let mut at = 0;
    while at < bytes.len() {
        values.push(take_u32([bytes[at], bytes[at + 1], bytes[at + 2], bytes[at + 3]]));
        at += 4;
    }
    values
}
