//! What stands behind the name of each command.
ghost use Rattle.std.specs.Prelude.{◌≡◌, ◌≤◌};
ghost use Rattle.ae_words.specs.Command.{run_with, run_command, plain_with, plain_command, rewrite_command, regenerate_command, profile_command, print_kind_command, print_command, sample_command, help_command};

use crate::Command;
use crate::files::{name_files, names_a_file};
use crate::numbers::short_positive;
use crate::options::{GivenOptions, Takes};
use ae_ports::Word;

/// `run` with these file words, the options from this place on.
fn run_these(files: &[Word], events: Option<u32>, place: u32, options: &[Word]) -> Option<Command>
    requires { place ≤ 3 }
    ensures { result ≡ run_with files.now events place options.now }
{
    if !name_files(files) {
        return None;
    }
    let given = GivenOptions::none().with_options(Takes::Run, files, place, options)?;
    Some(Command::Run {
        prog: 1,
        events,
        fuel: given.fuel,
        dump: given.dump,
    })
}

/// PROG or PROG EVENTS, then options. A second word that names no file can only be an option.
pub fn run(words: &[Word]) -> Option<Command>
    ensures { result ≡ run_command words.now }
{
    match words {
        [] => None,
        [_] => run_these(words, None, 2, &[]),
        [_, second, rest @ ..] => {
            if names_a_file(second.bytes()) {
                run_these(&words[..2], Some(2), 3, rest)
            } else {
                run_these(&words[..1], None, 2, &words[1..])
            }
        }
    }
}

/// `plain` with these file words, the options from place 3 on.
fn plain_these(files: &[Word], options: &[Word]) -> Option<Command>
    ensures { result ≡ plain_with files.now options.now }
{
    if !name_files(files) {
        return None;
    }
    let given = GivenOptions::none().with_options(Takes::Plain, files, 3, options)?;
    Some(Command::Plain {
        prog: 1,
        trace: 2,
        fuel: given.fuel,
    })
}

/// PROG TRACE, then options.
pub fn plain(words: &[Word]) -> Option<Command>
    ensures { result ≡ plain_command words.now }
{
    match words {
        [_, _, options @ ..] => plain_these(&words[..2], options),
        _ => None,
    }
}

/// PROG NEW SCHEMA.
pub fn rewrite(words: &[Word]) -> Option<Command>
    ensures { result ≡ rewrite_command words.now }
{
    match words {
        [_, _, _] if name_files(words) => Some(Command::Rewrite {
            prog: 1,
            new: 2,
            schema: 3,
        }),
        _ => None,
    }
}

/// SCHEMA EVENTS TRACE.
pub fn regenerate(words: &[Word]) -> Option<Command>
    ensures { result ≡ regenerate_command words.now }
{
    match words {
        [_, _, _] if name_files(words) => Some(Command::Regenerate {
            schema: 1,
            events: 2,
            trace: 3,
        }),
        _ => None,
    }
}

/// SCHEMA EVENTS.
pub fn profile(words: &[Word]) -> Option<Command>
    ensures { result ≡ profile_command words.now }
{
    match words {
        [_, _] if name_files(words) => Some(Command::Profile {
            schema: 1,
            events: 2,
        }),
        _ => None,
    }
}

/// What of one file is printed.
fn print_kind(kind: &[u8]) -> Option<Command>
    ensures { result ≡ print_kind_command kind.now }
{
    if kind == b"elf".as_slice() {
        Some(Command::PrintElf { file: 2 })
    } else if kind == b"code".as_slice() {
        Some(Command::PrintCode { file: 2 })
    } else if kind == b"graph".as_slice() {
        Some(Command::PrintGraph { file: 2 })
    } else if kind == b"needs".as_slice() {
        Some(Command::PrintNeeds { file: 2 })
    } else if kind == b"slice".as_slice() {
        Some(Command::PrintSlice { file: 2 })
    } else if kind == b"schema".as_slice() {
        Some(Command::PrintSchema { file: 2 })
    } else {
        None
    }
}

/// KIND FILE, or `events` SCHEMA EVENTS.
pub fn print(words: &[Word]) -> Option<Command>
    ensures { result ≡ print_command words.now }
{
    match words {
        [kind, file] if names_a_file(file.bytes()) => print_kind(kind.bytes()),
        [kind, _, _] if kind.bytes() == b"events".as_slice() && name_files(&words[1..]) => {
            Some(Command::PrintEvents {
                schema: 2,
                events: 3,
            })
        }
        _ => None,
    }
}

/// N NEW SCHEMA EVENTS.
pub fn sample(words: &[Word]) -> Option<Command>
    ensures { result ≡ sample_command words.now }
{
    match words {
        [number, _, _, _] if name_files(&words[1..]) => Some(Command::Sample {
            number: short_positive(number.bytes())?,
            new: 2,
            schema: 3,
            events: 4,
        }),
        _ => None,
    }
}

/// Nothing.
pub fn help(words: &[Word]) -> Option<Command>
    ensures { result ≡ help_command words.now }
{
    if words.is_empty() {
        Some(Command::Help)
    } else {
        None
    }
}
