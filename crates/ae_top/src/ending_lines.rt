//! The line that says how a run ended.
ghost use Rattle.std.specs.Prelude.{◌≡◌, ◌≤◌, ◌++◌, length};
ghost use Rattle.ae_nums.specs.Hex.{hex8_text};
ghost use Rattle.ae_nums.specs.Trace.{newline};
ghost use Rattle.ae_top.specs.EndingLines.{ending_line};

use ae_nums::{Text, decimal, hex8};
use rv_code::Ending;

/// A text and a word in eight hexadecimal digits, as a line.
fn line_of_word(text: &[u8], word: u32) -> Text
    requires { length text.now ≤ 32 }
    ensures { result ≡ text.now ++ hex8_text word ++ newline }
{
    let mut line = Text::new();
    line.push(text);
    line.push(&hex8(word));
    line.push(b"\n");
    line
}

/// The line of an exit.
fn line_of_exit(code: u32) -> Text
    ensures { result ≡ ending_line (Ending.Exit code) }
{
    let mut line = Text::new();
    line.push(b"exit ");
    decimal(u64::from(code), &mut line);
    line.push(b"\n");
    line
}

fn line_of_breakpoint() -> Text
    ensures { result ≡ ending_line Ending.Breakpoint }
{
    let mut line = Text::new();
    line.push(b"breakpoint\n");
    line
}

/// The line that says how a run ended.
pub fn line_of_ending(ending: &Ending) -> Text
    ensures { result ≡ ending_line ending.now }
{
    match ending {
        Ending::Exit(code) => line_of_exit(*code),
        Ending::Illegal(word) => line_of_word(b"illegal ", *word),
        Ending::Breakpoint => line_of_breakpoint(),
        Ending::LoadFault(address) => line_of_word(b"load fault ", *address),
        Ending::StoreFault(address) => line_of_word(b"store fault ", *address),
        Ending::FetchFault(address) => line_of_word(b"fetch fault ", *address),
        Ending::JumpMisaligned(target) => line_of_word(b"misaligned jump ", *target),
    }
}
