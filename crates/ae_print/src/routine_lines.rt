//! The lines of routines.
ghost use Rattle.std.specs.Prelude.{◌≡◌, ◌≤◌, length};
ghost use Rattle.ae_nums.specs.Writer.{Puts};
ghost use Rattle.ae_print.specs.GraphText.{routine_front, routine_line, routine_lines, shown_byte, shown_name};
ghost use Rattle.rv_code.specs.declared.image.Name.{Name};

use crate::pieces::push_word;
use ae_nums::{LineWriter, Text, hex8};
use ae_ports::{Failed, Sink};
use flow_graph::Graph;

/// A byte of a name, as it is from 21 to 7e, and else as `\x` and its two digits.
fn text_of_byte(byte: u8) -> Text
    ensures { result ≡ shown_byte byte }
{
    let mut shown = Text::new();
    if (0x21..=0x7e).contains(&byte) {
        shown.push(&[byte]);
    } else {
        shown.push(b"\\x");
        shown.push(&hex8(byte as u32)[6..]);
    }
    shown
}

/// Writes a name.
fn write_name<K: Sink>(text: &[u8], lines: &mut LineWriter<'_, K>) -> Result<(), Failed>
    ensures { Puts K.told K.faults K.same_rest lines.old lines.new (shown_name text.now) result }
{
    for byte in text {
        lines.write(text_of_byte(*byte).bytes())?;
    }
    Ok(())
}

/// The front of a routine's line, before its name.
fn front_of_routine(address: u32) -> Text
    ensures { result ≡ routine_front address }
{
    let mut line = Text::new();
    push_word(&mut line, b"routine ", address);
    line.push(b" ");
    line
}

/// Writes the line of a routine.
fn write_routine<K: Sink>(
    address: u32,
    text: &[u8],
    lines: &mut LineWriter<'_, K>,
) -> Result<(), Failed>
    ensures { Puts K.told K.faults K.same_rest lines.old lines.new (routine_line (record { address = address; text = text.now })) result }
{
    lines.write(front_of_routine(address).bytes())?;
    write_name(text, lines)?;
    lines.write(b"\n")
}

/// Writes the lines of the routines, in the order in which their names were first seen.
pub fn write_routines<K: Sink>(graph: &Graph, lines: &mut LineWriter<'_, K>) -> Result<(), Failed>
    ensures { Puts K.told K.faults K.same_rest lines.old lines.new (routine_lines graph.now.routines) result }
{
    for number in 0..graph.routine_count() {
        let (text, address) = graph.routine_at(number);
        write_routine(address, text, lines)?;
    }
    Ok(())
}
