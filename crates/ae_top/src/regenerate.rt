//! The command `regenerate SCHEMA EVENTS TRACE`.
ghost use Rattle.std.specs.Prelude.{◌≡◌, ◌<◌, ℕ, List, [], length, slice_index_or, IfOk, IfErr};
ghost use Rattle.ae_ports.specs.Fault.{HasCause};
ghost use Rattle.ae_ports.specs.Files.{IsEmptyFile, SameOthers};
ghost use Rattle.ae_print.specs.SomeText.{AppendsFrontOfSome, AppendsSome};
ghost use Rattle.regen_walk.specs.declared.position.Position.TheVariants.{Before};
ghost use Rattle.rv_machine.specs.Start.{first_registers};
ghost use Rattle.regen_walk.specs.WalkView.{IsWalkOver};
ghost use Rattle.ae_top.specs.Inner.Command.{Carries};
ghost use Rattle.ae_top.specs.Regenerate.{AreForeign, IsBegunTraceOf, IsTraceOf, KeepsRegenerate, RegeneratesFrom, WritesTrace, status_halted};
ghost use Rattle.ae_top.specs.World.{Port, port, world, Blames};

use crate::event_files::{EventFiles, read_event_files, status_by, status_without_events};
use crate::task::name_at;
use crate::{EventsRefusal, Status};
use ae_nums::LineWriter;
use ae_ports::{Failed, Sink, SteadySource, Store, StoreSink, Word};
use ev_format::are_of_another;
use regen_walk::{Halted, Walk, replay};
use schema_form::Schema;
use std::alloc::Global;

/// The status that says why an event file gives back no more.
fn status_halted(halted: Halted) -> Status
    ensures { result ≡ status_halted halted }
{
    match halted {
        Halted::Read(stop) => status_by(stop),
        Halted::Astray { offset } => Status::BadEvents(EventsRefusal::Astray { offset }),
    }
}

/// Writes the lines of what an event file gives back to a sink. The walk stands before the entry.
fn replay_to<K: Sink>(
    walk: &mut Walk,
    schema: &Schema,
    events: &mut SteadySource,
    sink: &mut K,
) -> Result<Halted, Failed>
    requires over { IsWalkOver schema.now walk.old }
    requires position { walk.old.position ≡ Before schema.now.entry }
    requires registers { walk.old.registers ≡ first_registers }
    ensures all { IfOk result (λ halted. AppendsSome (IsTraceOf schema.now events.old halted) (K.told sink.old) (K.told sink.new)) }
    ensures front { IfErr result (λ _. AppendsFrontOfSome (IsBegunTraceOf schema.now events.old) (K.told sink.old) (K.told sink.new)) }
    ensures cause { HasCause (K.faults sink.old) (K.faults sink.new) result }
    ensures rest { K.same_rest sink.old sink.new }
{
    let mut lines = LineWriter::new(sink);
    let halted = replay(walk, schema, events, &mut lines)?;
    lines.finish()?;
    Ok(halted)
}

/// Writes the lines of what an event file gives back to the file of this name, which is empty. The walk stands before the entry.
fn write_trace<S: Store>(
    walk: &mut Walk,
    schema: &Schema,
    events: Vec<u8>,
    trace: &Word,
    store: &mut S,
) -> Status
    requires over { IsWalkOver schema.now walk.old }
    requires position { walk.old.position ≡ Before schema.now.entry }
    requires registers { walk.old.registers ≡ first_registers }
    requires empty { IsEmptyFile (S.told store.old) trace.now }
    ensures writes { WritesTrace schema.now events.items trace.now result (S.told store.new) }
    ensures blames { Blames (result ≡ Status.StoreFault) (S.faults store.old) (S.faults store.new) }
    ensures others { SameOthers (S.told store.old) (S.told store.new) trace.now }
    ensures rest { S.same_rest store.old store.new }
{
    let mut source = SteadySource::new(events);
    let mut sink = StoreSink::new(store, trace);
    match replay_to(walk, schema, &mut source, &mut sink) {
        Ok(halted) => status_halted(halted),
        Err(Failed) => Status::StoreFault,
    }
}

/// Makes TRACE of an event file that isn't another program's.
fn regenerate_from<S: Store>(
    alloc: Global,
    schema: &Schema,
    events: Vec<u8>,
    trace: &Word,
    store: &mut S,
) -> Status
    requires own { AreForeign schema.now events.items → ⊥ }
    // Whatever the streams are.
    ensures comes { (input out err : Port (List ℕ)) →
        let before = world (port (S.told store.old) (S.faults store.old)) input out err in
        let now = world (port (S.told store.new) (S.faults store.new)) input out err in
        Carries (RegeneratesFrom schema.now events.items trace.now result before now) result before now }
    ensures rest { S.same_rest store.old store.new }
{
    let Ok(mut walk) = Walk::start(alloc, schema) else {
        return Status::Memory;
    };
    if store.make(trace).is_err() {
        return Status::StoreFault;
    }
    write_trace(&mut walk, schema, events, trace, store)
}

/// Makes TRACE of an event file that was read.
fn regenerate_read<S: Store>(
    alloc: Global,
    files: EventFiles,
    trace: &Word,
    store: &mut S,
) -> Status
    // Whatever the streams are.
    ensures comes { (input out err : Port (List ℕ)) →
        let before = world (port (S.told store.old) (S.faults store.old)) input out err in
        let now = world (port (S.told store.new) (S.faults store.new)) input out err in
        Carries (RegeneratesFrom files.schema files.events.items trace.now result before now) result before now }
    ensures rest { S.same_rest store.old store.new }
{
    let EventFiles { schema, events } = files;
    if are_of_another(&schema, &events) {
        return Status::BadEvents(EventsRefusal::OtherProgram);
    }
    regenerate_from(alloc, &schema, events, trace, store)
}

/// Gives back the trace of a run from the program's schema and the run's event file, which the store has under the names at the places
/// `schema` and `events` among these words, and writes it to the file whose name is at the place `trace`.
///
/// The lines are those of the longest front of the records that a walk explains. They go to the store in pieces of some thousand
/// bytes. TRACE isn't made where the header is another program's. Memory may be wanting before TRACE is made.
pub fn regenerate<S: Store>(
    alloc: Global,
    words: &[Word],
    schema: u32,
    events: u32,
    trace: u32,
    store: &mut S,
) -> Status
    requires schema { schema < length words.now }
    requires events { events < length words.now }
    requires trace { trace < length words.now }
    // Whatever the streams are.
    ensures keeps { (input out err : Port (List ℕ)) →
        let before = world (port (S.told store.old) (S.faults store.old)) input out err in
        let now = world (port (S.told store.new) (S.faults store.new)) input out err in
        Carries (KeepsRegenerate schema (slice_index_or words.now schema []) events (slice_index_or words.now events [])
        (slice_index_or words.now trace []) result before now) result before now }
    ensures rest { S.same_rest store.old store.new }
{
    match read_event_files(alloc, name_at(words, schema), name_at(words, events), store) {
        Ok(files) => regenerate_read(alloc, files, name_at(words, trace), store),
        Err(why) => status_without_events(why, schema, events),
    }
}
