//! Files that a command reads whole.
ghost use Rattle.std.specs.Prelude.{◌≤◌, Ok, Some, length, IfOk, IfErr, IsErrOf};
ghost use Rattle.ae_ports.specs.Files.{SameFiles, HasBytes, TellsSize};
ghost use Rattle.ae_top.specs.Inputs.{IsNotRead};
ghost use Rattle.ae_top.specs.World.{Blames};

use crate::reading::{ReadFault, read_file};
use ae_ports::{Store, Word};
use std::alloc::Global;

/// Why a file that is there isn't read.
#[derive(Clone, Copy, Debug, PartialEq, Eq)]
pub enum NotRead {
    /// The store failed.
    StoreFault,
    /// It is longer than it may be. Nothing of it was read.
    TooLong,
    /// Memory was wanting.
    NoMemory,
}

/// The bytes of a file of this size, of which there may be as many as the limit says.
pub fn read_sized<S: Store>(
    alloc: Global,
    store: &mut S,
    name: &Word,
    size: u64,
    limit: u64,
) -> Result<Vec<u8>, NotRead>
    requires size { TellsSize (S.told store.old) name.now (Ok (Some size)) }
    ensures bytes { IfOk result (λ bytes. HasBytes (S.told store.old) name.now bytes.items) }
    ensures small { IfOk result (λ bytes. length bytes.items ≤ limit) }
    ensures lacks { IfErr result (IsNotRead (S.told store.old) name.now limit) }
    ensures blames { Blames (IsErrOf result NotRead.StoreFault) (S.faults store.old) (S.faults store.new) }
    ensures files { SameFiles (S.told store.old) (S.told store.new) }
    ensures rest { S.same_rest store.old store.new }
{
    if size > limit {
        return Err(NotRead::TooLong);
    }
    match read_file(alloc, store, name, size as usize) {
        Ok(bytes) => Ok(bytes),
        Err(ReadFault::NoMemory) => Err(NotRead::NoMemory),
        Err(ReadFault::Failed) => Err(NotRead::StoreFault),
    }
}
