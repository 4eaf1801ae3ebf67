ghost use Rattle.std.specs.Prelude.{◌≡◌};
ghost use Rattle.ae_words.specs.Command.{command_of};

use crate::forms::{help, plain, print, profile, regenerate, rewrite, run, sample};
use ae_ports::Word;

/// A command, with the places of its file words among all words, counted from 0. The name of the command is at 0.
#[derive(Clone, Copy, Debug, PartialEq, Eq)]
pub enum Command {
    Run {
        prog: u32,
        events: Option<u32>,
        fuel: Option<u64>,
        dump: Option<u32>,
    },
    Plain {
        prog: u32,
        trace: u32,
        fuel: Option<u64>,
    },
    Rewrite {
        prog: u32,
        new: u32,
        schema: u32,
    },
    Regenerate {
        schema: u32,
        events: u32,
        trace: u32,
    },
    Profile {
        schema: u32,
        events: u32,
    },
    PrintElf {
        file: u32,
    },
    PrintCode {
        file: u32,
    },
    PrintGraph {
        file: u32,
    },
    PrintNeeds {
        file: u32,
    },
    PrintSlice {
        file: u32,
    },
    PrintSchema {
        file: u32,
    },
    PrintEvents {
        schema: u32,
        events: u32,
    },
    Sample {
        number: u32,
        new: u32,
        schema: u32,
        events: u32,
    },
    Help,
}

/// The command that the words spell, the name of the command first. It is `None` exactly where they spell none.
pub fn read_words(words: &[Word]) -> Option<Command>
    ensures { result ≡ command_of words.now }
{
    let [name, words @ ..] = words else {
        return None;
    };
    let name = name.bytes();
    if name == b"run".as_slice() {
        run(words)
    } else if name == b"plain".as_slice() {
        plain(words)
    } else if name == b"rewrite".as_slice() {
        rewrite(words)
    } else if name == b"regenerate".as_slice() {
        regenerate(words)
    } else if name == b"profile".as_slice() {
        profile(words)
    } else if name == b"print".as_slice() {
        print(words)
    } else if name == b"sample".as_slice() {
        sample(words)
    } else if name == b"help".as_slice() {
        help(words)
    } else {
        None
    }
}
