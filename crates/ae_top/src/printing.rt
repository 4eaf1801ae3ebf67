//! The command `print KIND FILE`.
ghost use Rattle.std.specs.Prelude.{◌≡◌, ◌<◌, ◌≤◌, ℕ, List, [], length, slice_index_or, Option, None, IfOk, IsErrOf};
ghost use Rattle.ae_ports.specs.Content.{Appends, AppendsFront};
ghost use Rattle.ae_top.specs.Inner.Command.{Carries};
ghost use Rattle.ae_top.specs.Inner.Printing.{Prints};
ghost use Rattle.ae_top.specs.Printing.{KeepsPrint};
ghost use Rattle.ae_top.specs.World.{Port, port, world, Blames};

use crate::Status;
use crate::from_graph::{FromGraph, print_from_graph};
use crate::no_file::{NoFile, NotTaken, status_without};
use crate::program::{accept_file, read_program, read_tables};
use crate::task::{PrintKind, name_at};
use ae_ports::{Failed, Sink, Store, Word};
use elf_raw::FILE_LIMIT;
use std::alloc::Global;

/// Why a file that was read isn't printed, or not all of it.
#[derive(Clone, Copy, Debug, PartialEq, Eq)]
pub enum NotPrinted {
    /// It isn't taken.
    NotTaken(NotTaken),
    /// The output failed.
    OutFault,
    /// Memory is wanting behind what was printed.
    NoMemory,
}

/// Prints what the tables of a file say, whose bytes these are.
fn print_tables<O: Sink>(alloc: Global, bytes: &[u8], out: &mut O) -> Result<(), NotPrinted>
    requires small { length bytes.now ≤ FILE_LIMIT }
    ensures prints { Prints PrintKind.Elf bytes.now result (O.told out.old) (O.told out.new) }
    ensures blames { Blames (IsErrOf result NotPrinted.OutFault) (O.faults out.old) (O.faults out.new) }
    ensures rest { O.same_rest out.old out.new }
{
    let raw = match read_tables(alloc, bytes) {
        Ok(raw) => raw,
        Err(why) => return Err(NotPrinted::NotTaken(why)),
    };
    match ae_print::print_elf(&raw, out) {
        Ok(()) => Ok(()),
        Err(Failed) => Err(NotPrinted::OutFault),
    }
}

/// Prints the code words of an executable, whose bytes these are.
fn print_code<O: Sink>(alloc: Global, bytes: &[u8], out: &mut O) -> Result<(), NotPrinted>
    requires small { length bytes.now ≤ FILE_LIMIT }
    ensures prints { Prints PrintKind.Code bytes.now result (O.told out.old) (O.told out.new) }
    ensures blames { Blames (IsErrOf result NotPrinted.OutFault) (O.faults out.old) (O.faults out.new) }
    ensures rest { O.same_rest out.old out.new }
{
    let image = match accept_file(alloc, bytes) {
        Ok(image) => image,
        Err(why) => return Err(NotPrinted::NotTaken(why)),
    };
    match ae_print::print_code(&image, out) {
        Ok(()) => Ok(()),
        Err(Failed) => Err(NotPrinted::OutFault),
    }
}

/// Prints what is asked of the file with these bytes.
fn print_bytes<O: Sink>(
    alloc: Global,
    kind: PrintKind,
    bytes: &[u8],
    out: &mut O,
) -> Result<(), NotPrinted>
    requires small { length bytes.now ≤ FILE_LIMIT }
    ensures prints { Prints kind bytes.now result (O.told out.old) (O.told out.new) }
    ensures blames { Blames (IsErrOf result NotPrinted.OutFault) (O.faults out.old) (O.faults out.new) }
    ensures rest { O.same_rest out.old out.new }
{
    match kind {
        PrintKind::Elf => print_tables(alloc, bytes, out),
        PrintKind::Code => print_code(alloc, bytes, out),
        PrintKind::Graph => print_from_graph(alloc, FromGraph::Witnesses, bytes, out),
        PrintKind::Needs => print_from_graph(alloc, FromGraph::Needs, bytes, out),
        PrintKind::Slice => print_from_graph(alloc, FromGraph::Slices, bytes, out),
    }
}

/// Prints what is asked of the file that the store has under the name at the place `file` among these words.
pub fn print<S: Store, O: Sink>(
    alloc: Global,
    words: &[Word],
    kind: PrintKind,
    file: u32,
    store: &mut S,
    out: &mut O,
) -> Status
    requires { file < length words.now }
    // Whatever the other two streams are.
    ensures keeps { (input err : Port (List ℕ)) →
        let before = world (port (S.told store.old) (S.faults store.old)) input
        (port (O.told out.old) (O.faults out.old)) err in
        let now = world (port (S.told store.new) (S.faults store.new)) input
        (port (O.told out.new) (O.faults out.new)) err in
        Carries (KeepsPrint kind file (slice_index_or words.now file []) result before now) result before now }
    ensures store { S.same_rest store.old store.new }
    ensures out { O.same_rest out.old out.new }
{
    let bytes = match read_program(alloc, store, name_at(words, file)) {
        Ok(bytes) => bytes,
        Err(why) => return status_without(why, file),
    };
    match print_bytes(alloc, kind, &bytes, out) {
        Ok(()) => Status::Done,
        Err(NotPrinted::OutFault) => Status::OutFault,
        Err(NotPrinted::NoMemory) => Status::Memory,
        Err(NotPrinted::NotTaken(why)) => status_without(NoFile::NotTaken(why), file),
    }
}
