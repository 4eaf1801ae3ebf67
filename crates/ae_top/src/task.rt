//! What the words of a command line ask for.
ghost use Rattle.std.specs.Prelude.{◌≡◌, ◌<◌, [], length, slice_index_or, IfSome};
ghost use Rattle.ae_top.specs.Inner.FileWords.{NamesAmong};
ghost use Rattle.ae_top.specs.Task.{fuel_of, task_of, task_in};

use ae_ports::Word;
use ae_words::{Command, read_words};

/// The steps that a run may take where no fuel is given.
pub const DEFAULT_FUEL: u64 = 1_000_000_000;

/// What `print` prints of a file.
#[derive(Clone, Copy, Debug, PartialEq, Eq)]
pub enum PrintKind {
    /// Its tables.
    Elf,
    /// Its code words.
    Code,
    /// Its flow graph.
    Graph,
    /// What its code words need.
    Needs,
    /// The slices of its loads and stores.
    Slice,
}

/// What is asked for: a command that is carried out today, with the places of its file words among all words and the
/// steps that its run may take.
#[derive(Clone, Copy, Debug, PartialEq, Eq)]
pub enum Task {
    Run {
        prog: u32,
        fuel: u64,
    },
    Plain {
        prog: u32,
        trace: u32,
        fuel: u64,
    },
    Print {
        kind: PrintKind,
        file: u32,
    },
    PrintSchema {
        file: u32,
    },
    PrintEvents {
        schema: u32,
        events: u32,
    },
    Regenerate {
        schema: u32,
        events: u32,
        trace: u32,
    },
}

/// What the words ask for, `None` where they spell no command that is carried out.
pub fn read_task(words: &[Word]) -> Option<Task>
    ensures task { result ≡ task_in words.now }
    ensures among { IfSome result (NamesAmong (length words.now)) }
{
    task_of(read_words(words)?)
}

/// The word at this place, which names a file.
pub fn name_at(words: &[Word], place: u32) -> &Word
    requires { place < length words.now }
    ensures { result.now ≡ slice_index_or words.now place [] }
{
    &words[place as usize]
}

/// The steps that a run may take.
fn fuel_of(given: Option<u64>) -> u64
    ensures { result ≡ fuel_of given }
{
    given.unwrap_or(DEFAULT_FUEL)
}

/// What `run PROG` asks for.
fn task_to_run(prog: u32, fuel: Option<u64>) -> Task
    ensures { result ≡ Task.Run prog (fuel_of fuel) }
{
    Task::Run {
        prog,
        fuel: fuel_of(fuel),
    }
}

/// What `plain PROG TRACE` asks for.
fn task_to_trace(prog: u32, trace: u32, fuel: Option<u64>) -> Task
    ensures { result ≡ Task.Plain prog trace (fuel_of fuel) }
{
    Task::Plain {
        prog,
        trace,
        fuel: fuel_of(fuel),
    }
}

/// What `print KIND FILE` asks for.
fn task_to_print(kind: PrintKind, file: u32) -> Task
    ensures { result ≡ Task.Print kind file }
{
    Task::Print { kind, file }
}

/// What a command asks for, `None` where it isn't carried out.
fn task_of(command: Command) -> Option<Task>
    ensures { result ≡ task_of command }
{
    match command {
        Command::Run {
            prog,
            events: None,
            fuel,
            dump: None,
        } => Some(task_to_run(prog, fuel)),
        Command::Plain { prog, trace, fuel } => Some(task_to_trace(prog, trace, fuel)),
        Command::PrintElf { file } => Some(task_to_print(PrintKind::Elf, file)),
        Command::PrintCode { file } => Some(task_to_print(PrintKind::Code, file)),
        Command::PrintGraph { file } => Some(task_to_print(PrintKind::Graph, file)),
        Command::PrintNeeds { file } => Some(task_to_print(PrintKind::Needs, file)),
        Command::PrintSlice { file } => Some(task_to_print(PrintKind::Slice, file)),
        Command::PrintSchema { file } => Some(Task::PrintSchema { file }),
        Command::PrintEvents { schema, events } => Some(Task::PrintEvents { schema, events }),
        Command::Regenerate {
            schema,
            events,
            trace,
        } => Some(Task::Regenerate {
            schema,
            events,
            trace,
        }),
        Command::Run { .. }
        | Command::Rewrite { .. }
        | Command::Profile { .. }
        | Command::Sample { .. }
        | Command::Help => None,
    }
}
