//! What is said of an edge behind its weight.
ghost use Rattle.std.specs.Prelude.{◌≡◌, ◌++◌, codes};
ghost use Rattle.ae_nums.specs.Writer.{Puts};
ghost use Rattle.ae_print.specs.GraphText.{mark_text, path_text, step_text};

use crate::pieces::push_number;
use ae_nums::{LineWriter, Text};
use ae_ports::{Failed, Sink};

/// A step of a path: a blank and the number of an edge.
fn text_of_step(edge: u32) -> Text
    ensures { result ≡ step_text edge }
{
    let mut step = Text::new();
    push_number(&mut step, b" ", edge as u64);
    step
}

/// Writes the numbers of a path's edges.
fn write_path<K: Sink>(path: &[u32], lines: &mut LineWriter<'_, K>) -> Result<(), Failed>
    ensures { Puts K.told K.faults K.same_rest lines.old lines.new (path_text path.now) result }
{
    for edge in path {
        lines.write(text_of_step(*edge).bytes())?;
    }
    Ok(())
}

/// Writes that an edge is a witness, and the path between its ends.
fn write_witness<K: Sink>(path: &[u32], lines: &mut LineWriter<'_, K>) -> Result<(), Failed>
    ensures { Puts K.told K.faults K.same_rest lines.old lines.new (codes " witness" ++ path_text path.now) result }
{
    lines.write(b" witness")?;
    write_path(path, lines)
}

/// Writes what is said of an edge behind its weight, where this is its certificate.
pub fn write_mark<K: Sink>(
    is_witness: bool,
    to: Option<u32>,
    path: &[u32],
    lines: &mut LineWriter<'_, K>,
) -> Result<(), Failed>
    ensures { Puts K.told K.faults K.same_rest lines.old lines.new (mark_text is_witness to path.now) result }
{
    match to {
        _ if !is_witness => lines.write(b" tree"),
        None => lines.write(b" leaves"),
        Some(_) => write_witness(path, lines),
    }
}
