//! The listing of an image's code.
ghost use Rattle.std.specs.Prelude.{OnOk, OnErr};
ghost use Rattle.std.specs.List.{flat_map};
ghost use Rattle.ae_nums.specs.Writer.{Puts};
ghost use Rattle.ae_ports.specs.Content.{Appends, AppendsFront};
ghost use Rattle.ae_ports.specs.Fault.{HasCause};
ghost use Rattle.ae_print.specs.CodeText.{word_lines, range_lines, code_text};

use ae_nums::LineWriter;
use ae_ports::{Failed, Sink};
use rv_code::{Image, Range};
use rv_text::listing;

/// Writes the lines of code words that begin at an address, one behind the other. Addresses are modulo 2^32.
fn write_words<K: Sink>(
    start: u32,
    words: &[u32],
    lines: &mut LineWriter<'_, K>,
) -> Result<(), Failed>
    ensures { Puts K.told K.faults K.same_rest lines.old lines.new (word_lines start words.now) result }
{
    let mut address = start;
    for word in words {
        lines.write(listing(address, *word).bytes())?;
        address = address.wrapping_add(4);
    }
    Ok(())
}

/// Writes the lines of the code words of ranges.
fn write_ranges<K: Sink>(ranges: &[Range], lines: &mut LineWriter<'_, K>) -> Result<(), Failed>
    ensures { Puts K.told K.faults K.same_rest lines.old lines.new (flat_map range_lines ranges.now) result }
{
    for range in ranges {
        write_words(range.start, range.words.as_slice(), lines)?;
    }
    Ok(())
}

/// Appends the listing of an image's code to a sink, in pieces of some thousand bytes: a line for each code word, in the order
/// of addresses. After `Failed` the sink got a front of the listing.
pub fn print_code<K: Sink>(image: &Image, sink: &mut K) -> Result<(), Failed>
    ensures all { OnOk result (Appends (K.told sink.old) (K.told sink.new) (code_text image.now)) }
    ensures front { OnErr result (AppendsFront (K.told sink.old) (K.told sink.new) (code_text image.now)) }
    ensures cause { HasCause (K.faults sink.old) (K.faults sink.new) result }
    ensures rest { K.same_rest sink.old sink.new }
{
    let mut lines = LineWriter::new(sink);
    write_ranges(image.code.as_slice(), &mut lines)?;
    lines.finish()
}
