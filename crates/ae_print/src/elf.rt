//! The text of an ELF file's tables.
ghost use Rattle.std.specs.Prelude.{◌≡◌, ◌≤◌, length, OnOk, OnErr};
ghost use Rattle.ae_nums.specs.Writer.{Puts};
ghost use Rattle.ae_ports.specs.Content.{Appends, AppendsFront};
ghost use Rattle.ae_ports.specs.Fault.{HasCause};
ghost use Rattle.ae_print.specs.ElfText.{header_line, segment_front, segment_rest, segment_line, segment_lines, section_front, section_rest, section_line, section_lines, table_lines, count_line, elf_text};

use crate::pieces::{push_number, push_word};
use ae_nums::{LineWriter, Text};
use ae_ports::{Failed, Sink};
use elf_raw::{RawElf, RawHeader, RawSection, RawSegment};

/// The line of the header.
fn line_of_header(header: &RawHeader) -> Text
    ensures { result ≡ header_line header.now }
{
    let mut line = Text::new();
    push_word(&mut line, b"entry ", header.entry);
    push_word(&mut line, b" flags ", header.flags);
    line.push(b"\n");
    line
}

/// The front of a program header's line: its place, its type and its offset.
fn front_of_segment(place: usize, segment: &RawSegment) -> Text
    ensures { result ≡ segment_front place segment.now }
{
    let mut line = Text::new();
    push_number(&mut line, b"segment ", place as u64);
    push_word(&mut line, b" type ", segment.kind);
    push_word(&mut line, b" offset ", segment.offset);
    line
}

/// The rest of a program header's line.
fn rest_of_segment(segment: &RawSegment) -> Text
    ensures { result ≡ segment_rest segment.now }
{
    let mut line = Text::new();
    push_word(&mut line, b" vaddr ", segment.vaddr);
    push_word(&mut line, b" filesz ", segment.filesz);
    push_word(&mut line, b" memsz ", segment.memsz);
    push_word(&mut line, b" flags ", segment.flags);
    line.push(b"\n");
    line
}

/// Writes the line of a program header.
fn write_segment<K: Sink>(
    place: usize,
    segment: &RawSegment,
    lines: &mut LineWriter<'_, K>,
) -> Result<(), Failed>
    ensures { Puts K.told K.faults K.same_rest lines.old lines.new (segment_line place segment.now) result }
{
    lines.write(front_of_segment(place, segment).bytes())?;
    lines.write(rest_of_segment(segment).bytes())
}

/// Writes the lines of the program headers.
fn write_segments<K: Sink>(
    segments: &[RawSegment],
    lines: &mut LineWriter<'_, K>,
) -> Result<(), Failed>
    ensures { Puts K.told K.faults K.same_rest lines.old lines.new (segment_lines segments.now) result }
{
    for (place, segment) in segments.iter().enumerate() {
        write_segment(place, segment, lines)?;
    }
    Ok(())
}

/// The front of a section's line: its place, its type and its flags.
fn front_of_section(place: usize, section: &RawSection) -> Text
    ensures { result ≡ section_front place section.now }
{
    let mut line = Text::new();
    push_number(&mut line, b"section ", place as u64);
    push_word(&mut line, b" type ", section.kind);
    push_word(&mut line, b" flags ", section.flags);
    line
}

/// The rest of a section's line.
fn rest_of_section(section: &RawSection) -> Text
    ensures { result ≡ section_rest section.now }
{
    let mut line = Text::new();
    push_word(&mut line, b" addr ", section.addr);
    push_word(&mut line, b" offset ", section.offset);
    push_word(&mut line, b" size ", section.size);
    line.push(b"\n");
    line
}

/// Writes the line of a section.
fn write_section<K: Sink>(
    place: usize,
    section: &RawSection,
    lines: &mut LineWriter<'_, K>,
) -> Result<(), Failed>
    ensures { Puts K.told K.faults K.same_rest lines.old lines.new (section_line place section.now) result }
{
    lines.write(front_of_section(place, section).bytes())?;
    lines.write(rest_of_section(section).bytes())
}

/// Writes the lines of the sections.
fn write_sections<K: Sink>(
    sections: &[RawSection],
    lines: &mut LineWriter<'_, K>,
) -> Result<(), Failed>
    ensures { Puts K.told K.faults K.same_rest lines.old lines.new (section_lines sections.now) result }
{
    for (place, section) in sections.iter().enumerate() {
        write_section(place, section, lines)?;
    }
    Ok(())
}

/// A line that says how many entries there are.
fn line_of_count(name: &[u8], count: usize) -> Text
    requires { length name.now ≤ 32 }
    ensures { result ≡ count_line name.now count }
{
    let mut line = Text::new();
    push_number(&mut line, name, count as u64);
    line.push(b"\n");
    line
}

/// Writes the lines of the header, the program headers and the sections.
fn write_tables<K: Sink>(raw: &RawElf, lines: &mut LineWriter<'_, K>) -> Result<(), Failed>
    ensures { Puts K.told K.faults K.same_rest lines.old lines.new (table_lines raw.now) result }
{
    lines.write(line_of_header(&raw.header).bytes())?;
    write_segments(raw.segments.as_slice(), lines)?;
    write_sections(raw.sections.as_slice(), lines)
}

/// Writes the text of a file's tables.
fn write_elf<K: Sink>(raw: &RawElf, lines: &mut LineWriter<'_, K>) -> Result<(), Failed>
    ensures { Puts K.told K.faults K.same_rest lines.old lines.new (elf_text raw.now) result }
{
    let symbols = raw.symbols.as_slice().len();
    let relocations = raw.relocations.as_slice().len();
    write_tables(raw, lines)?;
    lines.write(line_of_count(b"symbols ", symbols).bytes())?;
    lines.write(line_of_count(b"relocations ", relocations).bytes())
}

/// Appends the text of a file's tables to a sink, in pieces of some thousand bytes. After `Failed` the sink got a front of
/// the text.
pub fn print_elf<K: Sink>(raw: &RawElf, sink: &mut K) -> Result<(), Failed>
    ensures all { OnOk result (Appends (K.told sink.old) (K.told sink.new) (elf_text raw.now)) }
    ensures front { OnErr result (AppendsFront (K.told sink.old) (K.told sink.new) (elf_text raw.now)) }
    ensures cause { HasCause (K.faults sink.old) (K.faults sink.new) result }
    ensures rest { K.same_rest sink.old sink.new }
{
    let mut lines = LineWriter::new(sink);
    write_elf(raw, &mut lines)?;
    lines.finish()
}
