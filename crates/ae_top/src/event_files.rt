//! The schema and the event file that a command works on.
ghost use Rattle.std.specs.Prelude.{◌≡◌, Ok, Some, IfOk, IfErr, IsErrOf};
ghost use Rattle.ae_ports.specs.Files.{HasBytes, SameFiles, TellsSize};
ghost use Rattle.ae_top.specs.EventFiles.{AreEventFiles, LacksEvents, no_events_by, status_by, status_without_events};
ghost use Rattle.ae_top.specs.Inner.EventFiles.{no_events_after};
ghost use Rattle.ae_top.specs.World.{Blames};

use crate::inputs::{NotRead, read_sized};
use crate::schema_file::{NoSchema, read_schema_file};
use crate::{EventsRefusal, Status};
use ae_ports::{Failed, Store, Word};
use ev_format::Stop;
use schema_form::{Schema, SchemaFault};
use std::alloc::Global;

/// What was read of both files.
pub struct EventFiles {
    /// The schema of a program.
    pub schema: Schema,
    /// The bytes of what may be an event file of the program.
    pub events: Vec<u8>,
}

/// Why a command has no schema and no event file to work on.
#[derive(Clone, Copy, Debug, PartialEq, Eq)]
pub enum NoEvents {
    /// The schema's file isn't there.
    MissingSchema,
    /// The event file isn't there.
    MissingEvents,
    /// The store failed.
    StoreFault,
    /// The bytes of the schema's file are refused.
    BadSchema(SchemaFault),
    /// Memory was wanting.
    NoMemory,
}

/// Why the bytes of an event file that is there aren't read.
enum Unread {
    /// The store failed.
    StoreFault,
    /// Memory was wanting.
    NoMemory,
}

/// The status that says why, where the files are the words at these places.
pub fn status_without_events(why: NoEvents, schema_place: u32, events_place: u32) -> Status
    ensures { result ≡ status_without_events why schema_place events_place }
{
    match why {
        NoEvents::MissingSchema => Status::Missing { word: schema_place },
        NoEvents::MissingEvents => Status::Missing { word: events_place },
        NoEvents::StoreFault => Status::StoreFault,
        NoEvents::BadSchema(fault) => Status::BadSchema(fault),
        NoEvents::NoMemory => Status::Memory,
    }
}

/// The status that says why the reading of an event file stopped.
pub fn status_by(stop: Stop) -> Status
    ensures { result ≡ status_by stop }
{
    match stop {
        Stop::Finished => Status::Done,
        Stop::Cut => Status::CutShort,
        Stop::OtherProgram => Status::BadEvents(EventsRefusal::OtherProgram),
        Stop::BadRecord { offset } => Status::BadEvents(EventsRefusal::BadRecord { offset }),
    }
}

/// The same reason, where there is no schema.
fn no_events_by(why: NoSchema) -> NoEvents
    ensures { result ≡ no_events_by why }
{
    match why {
        NoSchema::Missing => NoEvents::MissingSchema,
        NoSchema::StoreFault => NoEvents::StoreFault,
        NoSchema::NoMemory => NoEvents::NoMemory,
        NoSchema::Bad(fault) => NoEvents::BadSchema(fault),
    }
}

/// The same reason, where the event file isn't read.
fn no_events_after(why: Unread) -> NoEvents
    ensures { result ≡ no_events_after why }
{
    match why {
        Unread::StoreFault => NoEvents::StoreFault,
        Unread::NoMemory => NoEvents::NoMemory,
    }
}

/// The bytes of the event file, which has this size.
fn read_events<S: Store>(
    alloc: Global,
    events: &Word,
    size: u64,
    store: &mut S,
) -> Result<Vec<u8>, Unread>
    requires size { TellsSize (S.told store.old) events.now (Ok (Some size)) }
    ensures bytes { IfOk result (λ bytes. HasBytes (S.told store.old) events.now bytes.items) }
    ensures blames { Blames (IsErrOf result Unread.StoreFault) (S.faults store.old) (S.faults store.new) }
    ensures files { SameFiles (S.told store.old) (S.told store.new) }
    ensures rest { S.same_rest store.old store.new }
{
    match read_sized(alloc, store, events, size, u64::MAX) {
        Ok(bytes) => Ok(bytes),
        Err(NotRead::StoreFault) => Err(Unread::StoreFault),
        Err(NotRead::TooLong | NotRead::NoMemory) => Err(Unread::NoMemory),
    }
}

/// Reads both files, which have these sizes, the schema first.
fn read_both<S: Store>(
    alloc: Global,
    schema: &Word,
    schema_size: u64,
    events: &Word,
    events_size: u64,
    store: &mut S,
) -> Result<EventFiles, NoEvents>
    requires schema_size { TellsSize (S.told store.old) schema.now (Ok (Some schema_size)) }
    requires events_size { TellsSize (S.told store.old) events.now (Ok (Some events_size)) }
    ensures read { IfOk result (λ files. AreEventFiles (S.told store.old) schema.now events.now files.schema files.events.items) }
    ensures lacks { IfErr result (LacksEvents (S.told store.old) schema.now events.now) }
    ensures blames { Blames (IsErrOf result NoEvents.StoreFault) (S.faults store.old) (S.faults store.new) }
    ensures files { SameFiles (S.told store.old) (S.told store.new) }
    ensures rest { S.same_rest store.old store.new }
{
    let schema = match read_schema_file(alloc, store, schema, schema_size) {
        Ok(schema) => schema,
        Err(why) => return Err(no_events_by(why)),
    };
    match read_events(alloc, events, events_size, store) {
        Ok(events) => Ok(EventFiles { schema, events }),
        Err(why) => Err(no_events_after(why)),
    }
}

/// Asks for the event file, and then reads both files. The schema has this size.
fn read_sized_schema<S: Store>(
    alloc: Global,
    schema: &Word,
    schema_size: u64,
    events: &Word,
    store: &mut S,
) -> Result<EventFiles, NoEvents>
    requires size { TellsSize (S.told store.old) schema.now (Ok (Some schema_size)) }
    ensures read { IfOk result (λ files. AreEventFiles (S.told store.old) schema.now events.now files.schema files.events.items) }
    ensures lacks { IfErr result (LacksEvents (S.told store.old) schema.now events.now) }
    ensures blames { Blames (IsErrOf result NoEvents.StoreFault) (S.faults store.old) (S.faults store.new) }
    ensures files { SameFiles (S.told store.old) (S.told store.new) }
    ensures rest { S.same_rest store.old store.new }
{
    match store.size(events) {
        Ok(Some(size)) => read_both(alloc, schema, schema_size, events, size, store),
        Ok(None) => Err(NoEvents::MissingEvents),
        Err(Failed) => Err(NoEvents::StoreFault),
    }
}

/// Reads the schema and the event file that the store has under these names, or says why that can't be.
///
/// Both files are asked for before the first is read, and the schema is refused before the event file is read, which is
/// held in memory whole.
pub fn read_event_files<S: Store>(
    alloc: Global,
    schema: &Word,
    events: &Word,
    store: &mut S,
) -> Result<EventFiles, NoEvents>
    ensures read { IfOk result (λ files. AreEventFiles (S.told store.old) schema.now events.now files.schema files.events.items) }
    ensures lacks { IfErr result (LacksEvents (S.told store.old) schema.now events.now) }
    ensures blames { Blames (IsErrOf result NoEvents.StoreFault) (S.faults store.old) (S.faults store.new) }
    ensures files { SameFiles (S.told store.old) (S.told store.new) }
    ensures rest { S.same_rest store.old store.new }
{
    match store.size(schema) {
        Ok(Some(size)) => read_sized_schema(alloc, schema, size, events, store),
        Ok(None) => Err(NoEvents::MissingSchema),
        Err(Failed) => Err(NoEvents::StoreFault),
    }
}
