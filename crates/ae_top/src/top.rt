//! The top call.
ghost use Rattle.std.specs.Prelude.{length, Some};
ghost use Rattle.ae_top.specs.Inner.Command.{Carries};
ghost use Rattle.ae_top.specs.Inner.FileWords.{NamesAmong};
ghost use Rattle.ae_top.specs.Top.{Answers, CarriesOut, Keeps};
ghost use Rattle.ae_top.specs.World.{port, world};

use crate::Status;
use crate::plain::plain;
use crate::print_events::print_events;
use crate::print_schema::print_schema;
use crate::printing::print;
use crate::regenerate::regenerate;
use crate::run::run;
use crate::status_lines::tell;
use crate::task::{Task, read_task};
use ae_ports::{Sink, Source, Store, Word};
use std::alloc::Global;

/// Carries out the command that the words spell, over the files of the store, the input and the two outputs, and answers
/// with what came of it. The words are those after the program's name. Today `run PROG` and `plain PROG TRACE` are carried
/// out, each with `--fuel N` or without, and `print elf FILE`, `print code FILE`, `print graph FILE`, `print needs FILE`, `print slice FILE`,
/// `print schema FILE`, `print events SCHEMA EVENTS` and `regenerate SCHEMA EVENTS TRACE`; all other words are answered with `Usage`.
///
/// Every call returns. The refusals come in this order: the words, a file that isn't there, one that is too long, a fault
/// while it is read, what refuses it as an executable or a schema, and then what the run comes to, or the reading of an
/// event file. Of two files that are read each is asked for before the first is read.
/// The line of a status goes to the second output; whether it could be written changes nothing.
pub fn ae<S: Store, I: Source, O: Sink, P: Sink>(
    alloc: Global,
    words: &[Word],
    store: &mut S,
    input: &mut I,
    out: &mut O,
    err: &mut P,
) -> Status
    ensures answers { let before = world (port (S.told store.old) (S.faults store.old))
        (port (I.told input.old) (I.faults input.old)) (port (O.told out.old) (O.faults out.old))
        (port (P.told err.old) (P.faults err.old)) in
        let now = world (port (S.told store.new) (S.faults store.new))
        (port (I.told input.new) (I.faults input.new)) (port (O.told out.new) (O.faults out.new))
        (port (P.told err.new) (P.faults err.new)) in
        Answers words.now result before now }
    // What each device was made with and stands on is as before.
    ensures store { S.same_rest store.old store.new }
    ensures input { I.same_rest input.old input.new }
    ensures out { O.same_rest out.old out.new }
    ensures err { P.same_rest err.old err.new }
{
    let status = carry_out(alloc, words, store, input, out, err);
    match status {
        Status::Done | Status::Faulted(_) => {}
        _ => tell(err, words, status),
    }
    status
}

/// Carries out the command that the words spell, but for the line of its status.
fn carry_out<S: Store, I: Source, O: Sink, P: Sink>(
    alloc: Global,
    words: &[Word],
    store: &mut S,
    input: &mut I,
    out: &mut O,
    err: &mut P,
) -> Status
    ensures carries { let before = world (port (S.told store.old) (S.faults store.old))
        (port (I.told input.old) (I.faults input.old)) (port (O.told out.old) (O.faults out.old))
        (port (P.told err.old) (P.faults err.old)) in
        let now = world (port (S.told store.new) (S.faults store.new))
        (port (I.told input.new) (I.faults input.new)) (port (O.told out.new) (O.faults out.new))
        (port (P.told err.new) (P.faults err.new)) in
        CarriesOut words.now result before now }
    ensures store { S.same_rest store.old store.new }
    ensures input { I.same_rest input.old input.new }
    ensures out { O.same_rest out.old out.new }
    ensures err { P.same_rest err.old err.new }
{
    match read_task(words) {
        Some(task) => carry_out_task(alloc, words, task, store, input, out, err),
        None => Status::Usage,
    }
}

/// Carries out what is asked for, whose file words are among these words, but for the line of its status.
fn carry_out_task<S: Store, I: Source, O: Sink, P: Sink>(
    alloc: Global,
    words: &[Word],
    task: Task,
    store: &mut S,
    input: &mut I,
    out: &mut O,
    err: &mut P,
) -> Status
    requires { NamesAmong (length words.now) task }
    ensures carries { let before = world (port (S.told store.old) (S.faults store.old))
        (port (I.told input.old) (I.faults input.old)) (port (O.told out.old) (O.faults out.old))
        (port (P.told err.old) (P.faults err.old)) in
        let now = world (port (S.told store.new) (S.faults store.new))
        (port (I.told input.new) (I.faults input.new)) (port (O.told out.new) (O.faults out.new))
        (port (P.told err.new) (P.faults err.new)) in
        Carries (Keeps (Some task) words.now result before now) result before now }
    ensures store { S.same_rest store.old store.new }
    ensures input { I.same_rest input.old input.new }
    ensures out { O.same_rest out.old out.new }
    ensures err { P.same_rest err.old err.new }
{
    match task {
        Task::Run { prog, fuel } => run(alloc, words, prog, fuel, store, input, out, err),
        Task::Plain { prog, trace, fuel } => {
            plain(alloc, words, prog, trace, fuel, store, input, out, err)
        }
        Task::Print { kind, file } => print(alloc, words, kind, file, store, out),
        Task::PrintSchema { file } => print_schema(alloc, words, file, store, out),
        Task::PrintEvents { schema, events } => {
            print_events(alloc, words, schema, events, store, out)
        }
        Task::Regenerate {
            schema,
            events,
            trace,
        } => regenerate(alloc, words, schema, events, trace, store),
    }
}
