//! The text of what code words need.
ghost use Rattle.std.specs.Prelude.{◌≡◌, ◌+◌, ◌≤◌, true, ◌++◌, OnOk, OnErr, length};
ghost use Rattle.ae_nums.specs.Writer.{Puts};
ghost use Rattle.ae_ports.specs.Fault.{HasCause};
ghost use Rattle.rv_code.specs.Code.{extents_of, is_code};
ghost use Rattle.ae_print.specs.Inner.SomePut.{PutsSome};
ghost use Rattle.ae_print.specs.NeedsText.{IsFirstOfNeedsText, IsNeedsLine, IsNeedsText, needs_line, value_text};
ghost use Rattle.ae_print.specs.SomeText.{AppendsFrontOfSome, AppendsSome};

use crate::pieces::push_word;
use ae_nums::{LineWriter, Text};
use ae_ports::{Failed, Sink};
use flow_graph::{Graph, address_at};
use need_sets::Needs;
use rv_code::count_in;

/// Appends what is said of the value that a word gives.
fn push_value(line: &mut Text, hard: bool, kept: bool)
    requires { length line.old + 5 ≤ 64 }
    ensures text { line.new ≡ line.old ++ value_text hard kept }
    ensures size { length line.new ≤ length line.old + 5 }
{
    match (hard, kept) {
        (true, _) => line.push(b" hard"),
        (false, true) => line.push(b" kept"),
        (false, false) => line.push(b" -"),
    }
}

/// The line of a code word.
fn line_of_word(address: u32, mask: u32, hard: bool, kept: bool) -> Text
    ensures { result ≡ needs_line address mask hard kept }
{
    let mut line = Text::new();
    push_word(&mut line, b"", address);
    push_word(&mut line, b" ", mask);
    push_value(&mut line, hard, kept);
    line.push(b"\n");
    line
}

/// Writes the line of the code word at the address.
fn write_word<K: Sink>(
    needs: &Needs,
    address: u32,
    lines: &mut LineWriter<'_, K>,
) -> Result<(), Failed>
    requires { is_code (extents_of needs.now) address ≡ true }
    ensures line { PutsSome K.told K.faults K.same_rest (IsNeedsLine needs.now address) lines.old lines.new }
    ensures broken { OnErr result (lines.new.broken ≡ true) }
{
    match needs.mask(address) {
        Some(mask) => {
            let line = line_of_word(address, mask, needs.hard(address), needs.kept(address));
            lines.write(line.bytes())
        }
        None => unreachable!(),
    }
}

/// Writes the lines of the code words.
fn write_needs<K: Sink>(
    graph: &Graph,
    needs: &Needs,
    lines: &mut LineWriter<'_, K>,
) -> Result<(), Failed>
    requires { needs.now ≡ graph.now.code }
    ensures all { OnOk result (PutsSome K.told K.faults K.same_rest (IsNeedsText graph.now.code) lines.old lines.new) }
    ensures front { OnErr result (PutsSome K.told K.faults K.same_rest (IsFirstOfNeedsText graph.now.code) lines.old lines.new) }
    ensures broken { OnErr result (lines.new.broken ≡ true) }
{
    let ranges = graph.ranges();
    for place in 0..count_in(ranges) {
        write_word(needs, address_at(ranges, place), lines)?;
    }
    Ok(())
}

/// Appends the text of what the code words of a graph need to a sink, in pieces of some thousand bytes: a line for each code word, in the
/// order of addresses. The needs are those of the graph. After `Failed` the sink got a front of the lines.
pub fn print_needs<K: Sink>(graph: &Graph, needs: &Needs, sink: &mut K) -> Result<(), Failed>
    requires { needs.now ≡ graph.now.code }
    ensures all { OnOk result (AppendsSome (IsNeedsText graph.now.code) (K.told sink.old) (K.told sink.new)) }
    ensures front { OnErr result (AppendsFrontOfSome (IsFirstOfNeedsText graph.now.code) (K.told sink.old) (K.told sink.new)) }
    ensures cause { HasCause (K.faults sink.old) (K.faults sink.new) result }
    ensures rest { K.same_rest sink.old sink.new }
{
    let mut lines = LineWriter::new(sink);
    write_needs(graph, needs, &mut lines)?;
    lines.finish()
}
