//! The schema that a command works on.
ghost use Rattle.std.specs.Prelude.{◌≡◌, Ok, Some, IfOk, IfErr, IsErrOf};
ghost use Rattle.ae_ports.specs.Files.{SameFiles, TellsSize};
ghost use Rattle.ae_top.specs.Inner.EventFiles.{IsShortFile};
ghost use Rattle.ae_top.specs.SchemaFile.{IsSchemaIn, LacksSchema, no_schema_by, status_without_schema};
ghost use Rattle.ae_top.specs.World.{Blames};

use crate::Status;
use crate::inputs::{NotRead, read_sized};
use ae_ports::{Failed, Store, Word};
use schema_form::{SCHEMA_LIMIT, Schema, SchemaFault, read_schema};
use std::alloc::Global;

/// Why a command has no schema to work on.
#[derive(Clone, Copy, Debug, PartialEq, Eq)]
pub enum NoSchema {
    /// The file isn't there.
    Missing,
    /// The store failed.
    StoreFault,
    /// Memory was wanting.
    NoMemory,
    /// Its bytes are refused.
    Bad(SchemaFault),
}

/// The status of a command that has no schema to work on, which is the word at this place.
pub fn status_without_schema(why: NoSchema, word: u32) -> Status
    ensures { result ≡ status_without_schema why word }
{
    match why {
        NoSchema::Missing => Status::Missing { word },
        NoSchema::StoreFault => Status::StoreFault,
        NoSchema::NoMemory => Status::Memory,
        NoSchema::Bad(fault) => Status::BadSchema(fault),
    }
}

/// Why bytes give no schema, by the fault of reading them.
fn no_schema_by(fault: SchemaFault) -> NoSchema
    ensures { result ≡ no_schema_by fault }
{
    match fault {
        SchemaFault::NoMemory => NoSchema::NoMemory,
        SchemaFault::NotSchema
        | SchemaFault::BadEntry { .. }
        | SchemaFault::NotAForest { .. }
        | SchemaFault::TooLarge => NoSchema::Bad(fault),
    }
}

/// The schema in a file of this size, or why there is none.
pub fn read_schema_file<S: Store>(
    alloc: Global,
    store: &mut S,
    name: &Word,
    size: u64,
) -> Result<Schema, NoSchema>
    requires size { TellsSize (S.told store.old) name.now (Ok (Some size)) }
    ensures schema { IfOk result (IsSchemaIn (S.told store.old) name.now) }
    ensures short { IfOk result (λ _. IsShortFile (S.told store.old) name.now) }
    ensures lacks { IfErr result (LacksSchema (S.told store.old) name.now) }
    ensures blames { Blames (IsErrOf result NoSchema.StoreFault) (S.faults store.old) (S.faults store.new) }
    ensures files { SameFiles (S.told store.old) (S.told store.new) }
    ensures rest { S.same_rest store.old store.new }
{
    match read_sized(alloc, store, name, size, SCHEMA_LIMIT as u64) {
        Ok(bytes) => match read_schema(alloc, &bytes) {
            Ok(schema) => Ok(schema),
            Err(fault) => Err(no_schema_by(fault)),
        },
        Err(NotRead::StoreFault) => Err(NoSchema::StoreFault),
        Err(NotRead::TooLong) => Err(NoSchema::Bad(SchemaFault::TooLarge)),
        Err(NotRead::NoMemory) => Err(NoSchema::NoMemory),
    }
}

/// The schema that the store has under this name, or why there is none.
pub fn load_schema<S: Store>(alloc: Global, store: &mut S, name: &Word) -> Result<Schema, NoSchema>
    ensures schema { IfOk result (IsSchemaIn (S.told store.old) name.now) }
    ensures lacks { IfErr result (LacksSchema (S.told store.old) name.now) }
    ensures blames { Blames (IsErrOf result NoSchema.StoreFault) (S.faults store.old) (S.faults store.new) }
    ensures files { SameFiles (S.told store.old) (S.told store.new) }
    ensures rest { S.same_rest store.old store.new }
{
    match store.size(name) {
        Ok(Some(size)) => read_schema_file(alloc, store, name, size),
        Ok(None) => Err(NoSchema::Missing),
        Err(Failed) => Err(NoSchema::StoreFault),
    }
}
