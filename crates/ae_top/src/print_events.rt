//! The command `print events SCHEMA EVENTS`.
ghost use Rattle.std.specs.Prelude.{◌≡◌, ◌<◌, ℕ, List, [], length, slice_index_or};
ghost use Rattle.ae_top.specs.Inner.Command.{Carries};
ghost use Rattle.ae_top.specs.PrintEvents.{KeepsPrintEvents, GetsEvents};
ghost use Rattle.ae_top.specs.World.{Port, port, world, Blames};

use crate::Status;
use crate::event_files::{EventFiles, read_event_files, status_by, status_without_events};
use crate::task::name_at;
use ae_ports::{Failed, Sink, SteadySource, Store, Word};
use std::alloc::Global;

/// Prints an event file that was read.
fn print_read<O: Sink>(files: EventFiles, out: &mut O) -> Status
    ensures gets { GetsEvents files.schema files.events.items result (O.told out.old) (O.told out.new) }
    ensures blames { Blames (result ≡ Status.OutFault) (O.faults out.old) (O.faults out.new) }
    ensures rest { O.same_rest out.old out.new }
{
    let EventFiles { schema, events } = files;
    let mut source = SteadySource::new(events);
    match ae_print::print_events(&schema, &mut source, out) {
        Ok(stop) => status_by(stop),
        Err(Failed) => Status::OutFault,
    }
}

/// Prints the event file that the store has under the name at the place `events` among these words, of the program whose schema it has
/// under the name at the place `schema`.
pub fn print_events<S: Store, O: Sink>(
    alloc: Global,
    words: &[Word],
    schema: u32,
    events: u32,
    store: &mut S,
    out: &mut O,
) -> Status
    requires schema { schema < length words.now }
    requires events { events < length words.now }
    // Whatever the other two streams are.
    ensures keeps { (input err : Port (List ℕ)) →
        let before = world (port (S.told store.old) (S.faults store.old)) input
        (port (O.told out.old) (O.faults out.old)) err in
        let now = world (port (S.told store.new) (S.faults store.new)) input
        (port (O.told out.new) (O.faults out.new)) err in
        Carries (KeepsPrintEvents schema (slice_index_or words.now schema []) events (slice_index_or words.now events [])
        result before now) result before now }
    ensures store { S.same_rest store.old store.new }
    ensures out { O.same_rest out.old out.new }
{
    match read_event_files(alloc, name_at(words, schema), name_at(words, events), store) {
        Ok(files) => print_read(files, out),
        Err(why) => status_without_events(why, schema, events),
    }
}
