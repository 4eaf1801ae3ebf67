//! The command `print schema FILE`.
ghost use Rattle.std.specs.Prelude.{◌≡◌, ◌<◌, ℕ, List, [], length, slice_index_or};
ghost use Rattle.ae_top.specs.Inner.Command.{Carries};
ghost use Rattle.ae_top.specs.PrintSchema.{KeepsPrintSchema};
ghost use Rattle.ae_top.specs.World.{Port, port, world};

use crate::Status;
use crate::schema_file::{load_schema, status_without_schema};
use crate::task::name_at;
use ae_ports::{Failed, Sink, Store, Word};
use std::alloc::Global;

/// Prints the schema in the file that the store has under the name at the place `file` among these words.
pub fn print_schema<S: Store, O: Sink>(
    alloc: Global,
    words: &[Word],
    file: u32,
    store: &mut S,
    out: &mut O,
) -> Status
    requires { file < length words.now }
    // Whatever the other two streams are.
    ensures keeps { (input err : Port (List ℕ)) →
        let before = world (port (S.told store.old) (S.faults store.old)) input
        (port (O.told out.old) (O.faults out.old)) err in
        let now = world (port (S.told store.new) (S.faults store.new)) input
        (port (O.told out.new) (O.faults out.new)) err in
        Carries (KeepsPrintSchema file (slice_index_or words.now file []) result before now) result before now }
    ensures store { S.same_rest store.old store.new }
    ensures out { O.same_rest out.old out.new }
{
    let schema = match load_schema(alloc, store, name_at(words, file)) {
        Ok(schema) => schema,
        Err(why) => return status_without_schema(why, file),
    };
    match ae_print::print_schema(&schema, out) {
        Ok(()) => Status::Done,
        Err(Failed) => Status::OutFault,
    }
}
