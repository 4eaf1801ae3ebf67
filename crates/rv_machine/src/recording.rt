//! What a machine gives as events before its run and behind it: the header of an event file, what waits in the note's buffer, and the
//! record of the ending.
ghost use Rattle.std.specs.Prelude.{◌≡◌, ◌++◌, OnOk, OnErr};
ghost use Rattle.ae_ports.specs.Content.{Appends, AppendsFront};
ghost use Rattle.ae_ports.specs.Fault.{HasCause};
ghost use Rattle.rv_code.specs.Endings.{kind_of, detail_of};
ghost use Rattle.rv_memory.specs.Stretches.{memory_of};
ghost use Rattle.rv_machine.specs.Events.{address_at_end, event_header_of, drained_to, drained, original_by, original_of, end_record, end_of_run};

use crate::buffers::{is_mapped, send};
use ae_nums::{event_header, put_u32};
use ae_ports::{Failed, Sink, write_all};
use rv_code::{Ending, Mark, Note, TRACER_START};
use rv_memory::Memory;

/// Gives the header of an event file.
pub(crate) fn put_header<Q: Sink>(note: &Note, events: &mut Q) -> Result<(), Failed>
    ensures all { OnOk result (Appends (Q.told events.old) (Q.told events.new) (event_header_of note.now)) }
    ensures front { OnErr result (AppendsFront (Q.told events.old) (Q.told events.new) (event_header_of note.now)) }
    ensures cause { HasCause (Q.faults events.old) (Q.faults events.new) result }
    ensures rest { Q.same_rest events.old events.new }
{
    write_all(events, &event_header(note.entry, note.first, note.count))
}

/// Gives the bytes of a buffer up to where it ends, if they are the tracer's and mapped.
fn drain_to<Q: Sink>(memory: &Memory, buffer: u32, end: u32, events: &mut Q) -> Result<(), Failed>
    ensures all { OnOk result (Appends (Q.told events.old) (Q.told events.new) (drained_to buffer end (memory_of memory.now))) }
    ensures front { OnErr result (AppendsFront (Q.told events.old) (Q.told events.new) (drained_to buffer end (memory_of memory.now))) }
    ensures cause { HasCause (Q.faults events.old) (Q.faults events.new) result }
    ensures rest { Q.same_rest events.old events.new }
{
    if buffer < TRACER_START || end < buffer || !is_mapped(memory, buffer, end - buffer) {
        return Ok(());
    }
    send(memory, buffer, end - buffer, events)
}

/// Gives the bytes that wait in the note's buffer.
fn drain<Q: Sink>(memory: &Memory, note: &Note, events: &mut Q) -> Result<(), Failed>
    ensures all { OnOk result (Appends (Q.told events.old) (Q.told events.new) (drained note.now (memory_of memory.now))) }
    ensures front { OnErr result (AppendsFront (Q.told events.old) (Q.told events.new) (drained note.now (memory_of memory.now))) }
    ensures cause { HasCause (Q.faults events.old) (Q.faults events.new) result }
    ensures rest { Q.same_rest events.old events.new }
{
    if note.used == 0 {
        return Ok(());
    }
    match memory.read(&mut 0, note.used, 4) {
        Ok(end) => drain_to(memory, note.buffer, end, events),
        Err(_) => Ok(()),
    }
}

/// A mark's original address where its new code begins at the pc or before it, and else what was found before.
fn original_by(pc: u32, found: u32, mark: Mark) -> u32
    ensures { result ≡ original_by pc found mark }
{
    if mark.from <= pc {
        mark.original
    } else {
        found
    }
}

/// The original address of a pc: that of the last mark whose new code begins at the pc or before it, and 0 where there is none.
fn original_of(map: &[Mark], pc: u32) -> u32
    ensures { result ≡ original_of map.now pc }
{
    let mut found = 0;
    for mark in map {
        found = original_by(pc, found, *mark);
    }
    found
}

/// The address in the record of an ending at a pc.
fn end_address(map: &[Mark], pc: u32, ending: Ending) -> u32
    ensures { result ≡ address_at_end (original_of map.now pc) ending }
{
    match ending {
        Ending::Exit(_)
        | Ending::Illegal(_)
        | Ending::Breakpoint
        | Ending::LoadFault(_)
        | Ending::StoreFault(_) => original_of(map, pc),
        Ending::FetchFault(_) | Ending::JumpMisaligned(_) => 0,
    }
}

/// The number of an ending.
fn ending_kind(ending: Ending) -> u32
    ensures { result ≡ kind_of ending }
{
    match ending {
        Ending::Exit(_) => 1,
        Ending::Illegal(_) => 2,
        Ending::Breakpoint => 3,
        Ending::LoadFault(_) => 4,
        Ending::StoreFault(_) => 5,
        Ending::FetchFault(_) => 6,
        Ending::JumpMisaligned(_) => 7,
    }
}

/// What is said of an ending beside its number.
fn ending_detail(ending: Ending) -> u32
    ensures { result ≡ detail_of ending }
{
    match ending {
        Ending::Exit(code) => code,
        Ending::Illegal(word) => word,
        Ending::Breakpoint => 0,
        Ending::LoadFault(address)
        | Ending::StoreFault(address)
        | Ending::FetchFault(address)
        | Ending::JumpMisaligned(address) => address,
    }
}

/// The record of an ending at an original address.
fn end_record(address: u32, ending: Ending) -> [u8; 12]
    ensures { result ≡ end_record address ending }
{
    let [a, b, c, d] = put_u32(address.wrapping_add(3));
    let [e, f, g, h] = put_u32(ending_kind(ending));
    let [i, j, k, l] = put_u32(ending_detail(ending));
    [a, b, c, d, e, f, g, h, i, j, k, l]
}

/// Gives the record of the ending that a run came to, if it has one.
fn put_end<Q: Sink>(
    note: &Note,
    pc: u32,
    ending: Option<Ending>,
    events: &mut Q,
) -> Result<(), Failed>
    ensures all { OnOk result (Appends (Q.told events.old) (Q.told events.new) (end_of_run note.now pc ending)) }
    ensures front { OnErr result (AppendsFront (Q.told events.old) (Q.told events.new) (end_of_run note.now pc ending)) }
    ensures cause { HasCause (Q.faults events.old) (Q.faults events.new) result }
    ensures rest { Q.same_rest events.old events.new }
{
    match ending {
        None => Ok(()),
        Some(ending) => {
            let address = end_address(note.map.as_slice(), pc, ending);
            write_all(events, &end_record(address, ending))
        }
    }
}

/// Gives what waits in the note's buffer, and then the record of the ending.
pub(crate) fn put_rest<Q: Sink>(
    memory: &Memory,
    note: &Note,
    pc: u32,
    ending: Option<Ending>,
    events: &mut Q,
) -> Result<(), Failed>
    ensures all { OnOk result (Appends (Q.told events.old) (Q.told events.new) (drained note.now (memory_of memory.now) ++ end_of_run note.now pc ending)) }
    ensures front { OnErr result (AppendsFront (Q.told events.old) (Q.told events.new) (drained note.now (memory_of memory.now) ++ end_of_run note.now pc ending)) }
    ensures cause { HasCause (Q.faults events.old) (Q.faults events.new) result }
    ensures rest { Q.same_rest events.old events.new }
{
    drain(memory, note, events)?;
    put_end(note, pc, ending, events)
}
